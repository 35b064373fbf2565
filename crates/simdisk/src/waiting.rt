//! Sectors that wait for their device.
ghost use Rattle.std.specs.Prelude.{◌≡◌, ◌≤◌, ◌<◌, ◌+◌, [], List, length, vec_capacity, OnOk, OnErr};
ghost use Rattle.disk.specs.Facts.{Content, Facts, AreSectorsAt};
ghost use Rattle.disk.specs.FaultState.{FaultState};
ghost use Rattle.disk.specs.WriteLog.{ranges, AreWithin};
ghost use Rattle.simdisk.specs.Cached.{HandsOn, pieces_of, shown};

use disk::{Disk, Fault, Sector};

/// A sector that was written, and not handed on to the device yet.
#[derive(Clone, Copy)]
pub struct Waiting {
    pub number: usize,
    pub sector: Sector,
}

/// A device, and what waits for it, the oldest first.
#[derive(Drop)]
pub struct Queue<D: Disk + Drop> {
    pub device: D,
    pub waiting: Vec<Waiting>,
    ghost room: { vec_capacity waiting ≡ 8 },
}

/// What hands on to its device what waits for it.
pub trait HandOn {
    ghost use Rattle.simdisk.specs.declared.waiting.Waiting.{Waiting};

    /// The facts of the device.
    ghost device: { Self → Facts };

    /// Why it failed.
    ghost faults: { Self → FaultState };

    ghost waiting: { Self → List Waiting };

    /// Hands on each sector that waits, the oldest first. At `Err` a call of the device failed, and all of them wait
    /// still; what the device holds in these sectors is then any bytes.
    fn hand_on(&mut self) -> Result<(), Fault>
        requires fits { AreWithin (length (device self.old).content) (ranges (pieces_of (waiting self.old))) }
        requires alone { 0 < length (waiting self.old) → (device self.old).lent.lanes ≡ 0 }
        ensures handed { HandsOn (waiting self.old) (device self.old) (device self.new) (faults self.old)
            (faults self.new) result }
        ensures none { OnOk result (waiting self.new ≡ []) }
        ensures all { OnErr result (waiting self.new ≡ waiting self.old) };
}

impl<D: Disk + Drop> HandOn for Queue<D> {
    ghost device = { λ q. D.facts q.device };

    ghost faults = { λ q. D.fault_state q.device };

    ghost waiting = { λ q. q.waiting.items };

    fn hand_on(&mut self) -> Result<(), Fault> {
        for i in 0..self.waiting.len() {
            let Waiting { number, sector } = self.waiting[i];
            self.device.write(number, &[sector])?;
        }
        self.waiting.clear();
        Ok(())
    }
}

/// Lays the sectors that wait, the oldest first, over those that were read of the device from that one on.
pub fn lay_over(sectors: &mut [Sector], first: usize, waiting: &[Waiting])
    ensures { (held : Content) → first + length sectors.old ≤ length held
        → AreWithin (length held) (ranges (pieces_of waiting.now)) → AreSectorsAt first held sectors.old
        → (length sectors.new ≡ length sectors.old) × AreSectorsAt first (shown waiting.now held) sectors.new }
{
    for wait in waiting {
        if first <= wait.number && wait.number - first < sectors.len() {
            sectors[wait.number - first] = wait.sector;
        }
    }
}
