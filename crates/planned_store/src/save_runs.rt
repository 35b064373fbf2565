//! The loop of a suspension's caller, over any disk and memory.
ghost use Rattle.std.specs.Prelude.{◌≡◌, ◌≤◌, ◌<◌, ◌+◌, ◌*◌, ◌^◌, ℕ, List, IsTrue, false, length};
ghost use Rattle.board_model.specs.Shapes.{IsSize, ram_bytes_of, sectors_of};
ghost use Rattle.store.specs.Leaves.{IsIdle, SameLength};
ghost use Rattle.planned_store.specs.Stores.{Holds};
ghost use Rattle.planned_store.specs.Saves.{save_asks, HasPage, saves_left};
ghost use Rattle.planned_store.specs.SaveReached.{SaveReached};
ghost use Rattle.planned_store.specs.SaveServed.{IsASave, IsSaveWithin, IsSaveServed};
ghost use Rattle.planned_store.specs.Suspends.{SuspendsTo};

use crate::plans::Plan;
use crate::requests::ImageRequest;
use crate::runs::run;
use crate::saves::{Saving, plan_suspend};
use crate::stores::OpenStore;
use board_model::{PageNo, Refusal};
use disk::{Disk, Fault, Sector};
use ram::Ram;
use store::Resumption;

/// Makes each call that the suspension asks for, once and in order, and tells it how each ended, until it asks for nothing more.
pub fn run_saving<D: Disk>(disk: &mut D, plan: &mut Saving, ram: &Ram)
    requires none_out { IsIdle (D.facts disk.old) }
    requires page { HasPage plan.old }
    requires begins { SaveReached D.facts D.fault_state plan.old disk.old disk.old ram.now }
    ensures reached { SaveReached D.facts D.fault_state plan.new disk.old disk.new ram.now }
    ensures ended { save_asks plan.new ≡ ImageRequest.Done }
    ensures same { (plan.new.from ≡ plan.old.from) × (plan.new.at ≡ plan.old.at) }
    ensures none_out { IsIdle (D.facts disk.new) }
{
    while turn(disk, plan, ram) {}
}

/// Makes the call that the suspension asks for, and tells it how that ended: whether it asked for one.
fn turn<D: Disk>(disk: &mut D, plan: &mut Saving, ram: &Ram) -> bool
    requires none_out { IsIdle (D.facts disk.old) }
    requires board { IsSize plan.old.from.shape }
    requires page { HasPage plan.old }
    requires enough { sectors_of plan.old.from.shape ≤ length (D.facts disk.old).content }
    requires long { length ram.now ≡ ram_bytes_of plan.old.from.shape }
    ensures goes { (start : D) → SaveReached D.facts D.fault_state plan.old start disk.old ram.now
        → SaveReached D.facts D.fault_state plan.new start disk.new ram.now }
    ensures page { HasPage plan.new }
    ensures same { (plan.new.from ≡ plan.old.from) × (plan.new.at ≡ plan.old.at) }
    ensures fewer { IsTrue result → saves_left plan.new < saves_left plan.old }
    ensures ended { result ≡ false → save_asks plan.new ≡ ImageRequest.Done }
    ensures none_out { IsIdle (D.facts disk.new) }
    ensures as_long { SameLength (D.facts disk.old) (D.facts disk.new) }
{
    let mut sector = [0; 512];
    let request = plan.asks(&mut sector);
    if request == ImageRequest::Done {
        return false;
    }
    let answer = serve(disk, request, &sector, ram);
    plan.told(answer);
    true
}

/// Does what is asked.
fn serve<D: Disk>(
    disk: &mut D,
    request: ImageRequest,
    sector: &Sector,
    ram: &Ram,
) -> Result<(), Fault>
    requires none_out { IsIdle (D.facts disk.old) }
    requires within { IsSaveWithin request (D.facts disk.old).content ram.now }
    requires some { IsASave request }
    ensures served { IsSaveServed request sector.now ram.now (D.facts disk.old) (D.facts disk.new)
        (D.fault_state disk.old) (D.fault_state disk.new) result }
    ensures none_out { IsIdle (D.facts disk.new) }
    ensures as_long { SameLength (D.facts disk.old) (D.facts disk.new) }
{
    match request {
        ImageRequest::Write(number) => disk.write(number, &[*sector]),
        ImageRequest::WritePage(first, page) => write_page(disk, first, page, ram),
        ImageRequest::Sync => disk.sync(),
        _ => Ok(()),
    }
}

/// Writes a page into the 8 sectors from that number on, straight from the memory.
fn write_page<D: Disk>(disk: &mut D, first: usize, page: PageNo, ram: &Ram) -> Result<(), Fault>
    requires none_out { IsIdle (D.facts disk.old) }
    requires within { first + 8 ≤ length (D.facts disk.old).content }
    requires page { 4096 * page + 4096 ≤ length ram.now }
    ensures written { (put : List ℕ) → IsSaveServed (ImageRequest.WritePage first page) put ram.now (D.facts disk.old)
        (D.facts disk.new) (D.fault_state disk.old) (D.fault_state disk.new) result }
    ensures none_out { IsIdle (D.facts disk.new) }
    ensures as_long { SameLength (D.facts disk.old) (D.facts disk.new) }
{
    let (sectors, _) = ram.page(page).as_chunks::<512>();
    disk.write(first, sectors)
}

/// Suspends the board to the disk, as `Store::suspend` of the crate `store` does. Lanes are filled one after another.
pub fn suspend<D: Disk>(
    disk: &mut D,
    store: &mut OpenStore,
    ram: &Ram,
    at: Resumption,
) -> Result<u64, Refusal>
    requires holds { Holds (D.facts disk.old) store.old }
    ensures asked { SuspendsTo D.facts D.fault_state disk.old store.old ram.now at result disk.new store.new }
{
    let mut saving = plan_suspend(store, ram.pages() as u64, at)?;
    run_saving(disk, &mut saving, ram);
    let Some(commit) = saving.commit() else {
        return Err(Refusal::Device);
    };
    let mut plan = Plan::Committing(commit);
    run(disk, &mut plan);
    store.ended(true, &plan)
}
