//! The loop of a plan's caller, over any disk.
ghost use Rattle.std.specs.Prelude.{◌≡◌, ◌<◌, IsTrue, false};
ghost use Rattle.store.specs.Leaves.{IsIdle};
ghost use Rattle.planned_store.specs.Plans.{asked, calls_left, task_of};
ghost use Rattle.planned_store.specs.Reached.{Reached};
ghost use Rattle.planned_store.specs.Served.{IsWithin, IsServed};

use crate::plans::{Plan, Request};
use disk::{Disk, Fault, Sector, read_sector};

/// Makes each call that the plan asks for, once and in order, and tells it how each ended, until it asks for nothing more.
pub fn run<D: Disk>(disk: &mut D, plan: &mut Plan)
    requires none_out { IsIdle (D.facts disk.old) }
    requires begins { Reached D.facts D.fault_state plan.old disk.old disk.old }
    ensures reached { Reached D.facts D.fault_state plan.new disk.old disk.new }
    ensures ended { asked plan.new ≡ Request.Done }
    ensures task { task_of plan.new ≡ task_of plan.old }
    ensures none_out { IsIdle (D.facts disk.new) }
{
    let mut sector = [0; 512];
    while turn(disk, plan, &mut sector) {}
}

/// Makes the call that the plan asks for, and tells it how that ended: whether it asked for one.
fn turn<D: Disk>(disk: &mut D, plan: &mut Plan, sector: &mut Sector) -> bool
    requires none_out { IsIdle (D.facts disk.old) }
    requires within { IsWithin (asked plan.old) (D.facts disk.old).content }
    ensures goes { (start : D) → Reached D.facts D.fault_state plan.old start disk.old
        → Reached D.facts D.fault_state plan.new start disk.new }
    ensures task { task_of plan.new ≡ task_of plan.old }
    ensures fewer { IsTrue result → calls_left plan.new < calls_left plan.old }
    ensures ended { result ≡ false → asked plan.new ≡ Request.Done }
    ensures none_out { IsIdle (D.facts disk.new) }
{
    let request = plan.asks(sector);
    if request == Request::Done {
        return false;
    }
    let answer = serve(disk, request, sector);
    *plan = plan.told(answer, sector);
    true
}

/// Does what is asked.
fn serve<D: Disk>(disk: &mut D, request: Request, sector: &mut Sector) -> Result<(), Fault>
    requires none_out { IsIdle (D.facts disk.old) }
    requires within { IsWithin request (D.facts disk.old).content }
    requires some { request ≡ Request.Done → ⊥ }
    ensures served { IsServed request sector.old (D.facts disk.old) (D.facts disk.new) (D.fault_state disk.old)
        (D.fault_state disk.new) result sector.new }
    ensures none_out { IsIdle (D.facts disk.new) }
{
    match request {
        Request::Read(number) => {
            *sector = read_sector(disk, number)?;
            Ok(())
        }
        Request::Write(number) => disk.write(number, &[*sector]),
        Request::Sync => disk.sync(),
        Request::Done => Ok(()),
    }
}
