//! What the tests share.
ghost use Rattle.std.specs.Prelude.{◌≡◌, IfOk};
ghost use Rattle.board_model.specs.Durable.{formatted as new_state};
ghost use Rattle.disk.specs.Facts.{IsFresh};
ghost use Rattle.store.specs.Leaves.{IsIdle, LeavesOnly};

use board_model::{Command, Refusal, Shape};
use crew::Sequential;
use disk::{ArmedFault, Disk};
use ram::Ram;
use simdisk::SimDisk;
use std::alloc::Global;
use std::process::Abort;
use std::sync::atomic::{AtomicU64, Ordering};
use std::thread::{self, Threads};
use std::time::{Clock, Duration};
use store::{Store, format};

/// These two have to be equal.
pub fn same<T: PartialEq + Drop>(rt: &impl Abort, found: T, wanted: T) {
    assert!(rt; found == wanted);
}

/// The most sleeps of 1 ms for which a test waits at once.
const MOST_SLEEPS: u32 = 10_000;

/// Waits until a count has come so far, a millisecond at a time. Whether it has in time.
pub fn has_come(clock: &impl Clock, count: &AtomicU64, wanted: u64) -> bool {
    for _ in 0..MOST_SLEEPS {
        if count.load(Ordering::SeqCst) >= wanted {
            return true;
        }
        thread::sleep(clock, Duration::from_millis(1));
    }
    false
}

/// A crew that runs its jobs by turns, in that order.
pub fn in_order<R: Abort + Threads + Sync>(rt: &R, order: [usize; 4]) -> Sequential<R> {
    Sequential::new(order).expect(rt, "an order")
}

/// A memory of so many pages, all of them zeros.
pub fn blank_memory(rt: &impl Abort, alloc: Global, pages: u64) -> Ram {
    let shape = Shape::new(1, pages, 1).expect(rt, "a shape");
    Ram::new(alloc, shape).expect(rt, "memory")
}

/// A fault that never strikes, since calls are counted from 1.
pub const NEVER: ArmedFault = ArmedFault::FailLane(0, 0);

/// A disk of so many sectors, all of them zeros.
pub fn blank_disk(rt: &impl Abort, alloc: Global, sectors: usize) -> SimDisk
    ensures { IsFresh (⟦<SimDisk as Disk>⟧.facts result).content (⟦<SimDisk as Disk>⟧.facts result) }
{
    let Ok(disk) = SimDisk::blank(alloc, sectors) else {
        rt.panic("no memory")
    };
    disk
}

/// A formatted disk for a board of that shape.
pub fn formatted(alloc: Global, shape: &Shape) -> Result<SimDisk, Refusal>
    ensures idle { IfOk result (λ disk. IsIdle (⟦<SimDisk as Disk>⟧.facts disk)) }
    ensures alone { IfOk result (λ disk. LeavesOnly (⟦<SimDisk as Disk>⟧.facts disk) shape.now new_state) }
{
    let mut disk = SimDisk::blank(alloc, shape.sectors())?;
    format(&mut disk, shape)?;
    Ok(disk)
}

/// An open of which only the refusal is told.
pub fn open<D: Disk + Drop>(alloc: Global, disk: D) -> Result<Store<D>, Refusal>
    requires { (D.facts disk).lent.lanes ≡ 0 }
{
    match Store::open(alloc, disk) {
        Ok(store) => Ok(store),
        Err((_, refusal)) => Err(refusal),
    }
}

/// The slot that an open finds.
pub fn slot_of<D: Disk + Drop>(alloc: Global, disk: D) -> Result<u32, Refusal>
    requires { (D.facts disk).lent.lanes ≡ 0 }
{
    Ok(open(alloc, disk)?.found().slot.number())
}

/// Sets the boot slot; the receipt's number.
pub fn set_slot<D: Disk + Drop>(store: &mut Store<D>, slot: u32) -> Result<u32, Refusal> {
    Ok(store.apply(Command::Slot(slot))?.number())
}
