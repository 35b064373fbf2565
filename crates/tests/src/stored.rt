//! The store over disks that hand on to another: one of one's own (docs/PORTING.md), and one with a cache.
ghost use Rattle.std.specs.Prelude.{◌≡◌};

use crate::caches::{blank, cut};
use crate::fixtures::{blank_disk, open, same, set_slot, slot_of};
use crate::mine::Mine;
use board_model::{Refusal, Shape};
use disk::{ArmedFault, Disk};
use std::alloc::Global;
use std::process::Abort;
use store::{Store, format};

/// The store of a disk of 26 sectors, which is formatted for the smallest board.
fn formatted<D: Disk + Drop>(rt: &impl Abort, alloc: Global, disk: D) -> Store<D>
    requires { (D.facts disk).lent.lanes ≡ 0 }
{
    let mut disk = disk;
    let shape = Shape::new(1, 1, 1).expect(rt, "a shape");
    let Ok(()) = format(&mut disk, &shape) else {
        rt.panic("it is not formatted")
    };
    open(alloc, disk).expect(rt, "an open")
}

/// What the commands that set slot 2 and then slot 3 were answered, and how many failures the disk then counts.
type CommandAnswers = (Result<u32, Refusal>, Result<u32, Refusal>, u64);

/// What they are answered by a store over this disk, which fails once, at that of their calls; and the disk that is left.
fn two_commands<D: Disk + Drop>(
    rt: &impl Abort,
    alloc: Global,
    disk: D,
    call: u64,
) -> (CommandAnswers, D)
    requires { (D.facts disk).lent.lanes ≡ 0 }
    ensures { (D.facts result.1).lent.lanes ≡ 0 }
{
    let mut store = formatted(rt, alloc, disk);
    store.arm(ArmedFault::FailAt(call));
    let first = set_slot(&mut store, 2);
    let second = set_slot(&mut store, 3);
    let disk = store.into_disk();
    let failures = disk.failures();
    ((first, second, failures), disk)
}

/// What two commands are answered over a cache, and the slot that stands in its device once power is cut.
fn cached(rt: &impl Abort, alloc: Global, call: u64) -> (CommandAnswers, Result<u32, Refusal>) {
    let (answers, disk) = two_commands(rt, alloc, blank(rt, alloc, 26), call);
    (answers, slot_of(alloc, cut(disk)))
}

/// What two commands are answered over a disk of one's own, and the slot that one more open finds.
fn own(rt: &impl Abort, alloc: Global, call: u64) -> (CommandAnswers, Result<u32, Refusal>) {
    let device = Mine::new(blank_disk(rt, alloc, 26));
    let (answers, disk) = two_commands(rt, alloc, device, call);
    (answers, slot_of(alloc, disk))
}

/// The command that failed is refused, the same store goes on, and the failure is counted.
const FAILED: CommandAnswers = (Err(Refusal::Device), Ok(1), 1);

/// The call that fails, none where it is 0: the first two of a command are its record's write and its sync.
static CALLS: [(u64, CommandAnswers); 3] = [(0, (Ok(1), Ok(2), 0)), (1, FAILED), (2, FAILED)];

/// What was acknowledged stands.
#[test]
fn a_failure_of_the_device_is_refused_and_nothing_is_lost(rt: HostRuntime) {
    for &(call, answers) in &CALLS {
        same(&rt, cached(&rt, rt.alloc(), call), (answers, Ok(3)));
        same(&rt, own(&rt, rt.alloc(), call), (answers, Ok(3)));
    }
}
