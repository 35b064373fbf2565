//! The loop of a load's caller, over any disk and memory.
ghost use Rattle.std.specs.Prelude.{◌≡◌, ◌≤◌, ◌<◌, ◌+◌, ◌*◌, [], IsTrue, false, length};
ghost use Rattle.board_model.specs.Shapes.{ram_bytes_of, sectors_of};
ghost use Rattle.store.specs.Leaves.{IsIdle, SameLength};
ghost use Rattle.planned_store.specs.Stores.{Holds};
ghost use Rattle.planned_store.specs.Images.{LoadsTo};
ghost use Rattle.planned_store.specs.Loads.{load_asks, HasPlace, loads_left};
ghost use Rattle.planned_store.specs.LoadReached.{LoadReached};
ghost use Rattle.planned_store.specs.LoadServed.{IsALoad, IsLoadWithin, IsLoadServed};

use crate::loads::{Loading, plan_load};
use crate::requests::ImageRequest;
use crate::stores::OpenStore;
use board_model::{PageNo, Refusal};
use disk::{Disk, Fault, Sector, read_sector};
use ram::Ram;

/// Makes each call that the load asks for, once and in order, and tells it how each ended, until it asks for nothing more.
pub fn run_load<D: Disk>(disk: &mut D, plan: &mut Loading, ram: &mut Ram)
    requires none_out { IsIdle (D.facts disk.old) }
    requires place { HasPlace plan.old }
    requires begins { LoadReached D.facts D.fault_state plan.old disk.old disk.old ram.old }
    ensures reached { LoadReached D.facts D.fault_state plan.new disk.old disk.new ram.new }
    ensures ended { load_asks plan.new ≡ ImageRequest.Done }
    ensures same { (plan.new.shape ≡ plan.old.shape) × (plan.new.saved ≡ plan.old.saved) }
    ensures none_out { IsIdle (D.facts disk.new) }
{
    while turn(disk, plan, ram) {}
}

/// Makes the call that the load asks for, and tells it how that ended: whether it asked for one.
fn turn<D: Disk>(disk: &mut D, plan: &mut Loading, ram: &mut Ram) -> bool
    requires none_out { IsIdle (D.facts disk.old) }
    requires place { HasPlace plan.old }
    requires enough { sectors_of plan.old.shape ≤ length (D.facts disk.old).content }
    requires long { length ram.old ≡ ram_bytes_of plan.old.shape }
    ensures goes { (start : D) → LoadReached D.facts D.fault_state plan.old start disk.old ram.old
        → LoadReached D.facts D.fault_state plan.new start disk.new ram.new }
    ensures place { HasPlace plan.new }
    ensures same { (plan.new.shape ≡ plan.old.shape) × (plan.new.saved ≡ plan.old.saved) }
    ensures fewer { IsTrue result → loads_left plan.new < loads_left plan.old }
    ensures ended { result ≡ false → load_asks plan.new ≡ ImageRequest.Done }
    ensures none_out { IsIdle (D.facts disk.new) }
    ensures as_long { SameLength (D.facts disk.old) (D.facts disk.new) }
    ensures long { length ram.new ≡ length ram.old }
{
    let request = plan.asks();
    if request == ImageRequest::Done {
        return false;
    }
    let mut sector = [0; 512];
    let answer = serve(disk, request, &mut sector, ram);
    plan.told(answer, &sector);
    true
}

/// Does what is asked.
fn serve<D: Disk>(
    disk: &mut D,
    request: ImageRequest,
    sector: &mut Sector,
    ram: &mut Ram,
) -> Result<(), Fault>
    requires none_out { IsIdle (D.facts disk.old) }
    requires within { IsLoadWithin request (D.facts disk.old).content ram.old }
    requires some { IsALoad request }
    ensures served { IsLoadServed request (D.facts disk.old) (D.facts disk.new) (D.fault_state disk.old)
        (D.fault_state disk.new) result sector.new ram.old ram.new }
    ensures none_out { IsIdle (D.facts disk.new) }
    ensures as_long { SameLength (D.facts disk.old) (D.facts disk.new) }
    ensures long { length ram.new ≡ length ram.old }
{
    match request {
        ImageRequest::Read(number) => {
            *sector = read_sector(disk, number)?;
            Ok(())
        }
        ImageRequest::ReadPage(first, page) => read_page(disk, first, page, ram),
        _ => Ok(()),
    }
}

/// Reads the 8 sectors from that number on into a page.
fn read_page<D: Disk>(disk: &mut D, first: usize, page: PageNo, ram: &mut Ram) -> Result<(), Fault>
    requires none_out { IsIdle (D.facts disk.old) }
    requires within { first + 8 ≤ length (D.facts disk.old).content }
    requires page { 4096 * page + 4096 ≤ length ram.old }
    ensures read { IsLoadServed (ImageRequest.ReadPage first page) (D.facts disk.old) (D.facts disk.new)
        (D.fault_state disk.old) (D.fault_state disk.new) result [] ram.old ram.new }
{
    let mut sectors = [[0; 512]; 8];
    disk.read(first, &mut sectors)?;
    let mut bytes = [0; 4096];
    bytes.copy_from_slice(sectors.as_flattened());
    ram.fill_page(page, &bytes);
    Ok(())
}

/// Loads the memory of the image that stands, as `Store::load_image` of the crate `store` does, but that it is refused `Down`
/// where a command is in doubt.
pub fn load_image<D: Disk>(disk: &mut D, store: &OpenStore, ram: &mut Ram) -> Result<(), Refusal>
    requires holds { Holds (D.facts disk.old) store.now }
    ensures loads { LoadsTo D.facts D.fault_state store.now disk.old ram.old result disk.new ram.new }
{
    let mut plan = plan_load(store, ram.pages() as u64)?;
    run_load(disk, &mut plan, ram);
    plan.loaded()
}
