//! The disk over its device.
ghost use Rattle.std.specs.Prelude.{◌≡◌};
ghost use Rattle.disk.specs.Facts.{Content, IsFresh};
ghost use Rattle.simdisk.specs.Kept.{IsKept};

use disk::{ArmedFault, Disk, Fault, Log, Sector};
use std::alloc::AllocError;

/// A disk that hands each call on to its device at once, and notes in its log what the device was asked to do.
///
/// Its facts come from the log, not from the device's: so it is a disk for whatever a device promises of its calls.
#[derive(Drop)]
pub struct LoggedDisk<D: Disk + Drop> {
    device: D,
    log: Log,
    ghost kept: { IsKept log.log (D.facts device) },
}

impl<D: Disk + Drop> LoggedDisk<D> {
    /// The disk over that device, all of which is durable. What is armed stays as it was.
    pub fn new(device: D) -> LoggedDisk<D>
        requires { IsFresh (D.facts device).content (D.facts device) }
        ensures fresh { IsFresh (D.facts device).content (⟦<LoggedDisk<D> as Disk>⟧.facts result) }
        ensures counts { ((⟦<LoggedDisk<D> as Disk>⟧.facts result).failures ≡ (D.facts device).failures)
            × ((⟦<LoggedDisk<D> as Disk>⟧.facts result).calls ≡ (D.facts device).calls) }
        ensures fault_state { ⟦<LoggedDisk<D> as Disk>⟧.fault_state result ≡ D.fault_state device }
    {
        let log = Log::picked(&device);
        LoggedDisk { device, log }
    }

    /// The device: each content that a crash may leave in it is one that the disk may leave.
    pub fn into_device(self) -> D
        ensures { (c : Content) → (D.facts result).may_leave c → (⟦<LoggedDisk<D> as Disk>⟧.facts self).may_leave c }
    {
        self.device
    }
}

impl<D: Disk + Drop> Disk for LoggedDisk<D> {
    ghost use Rattle.std.specs.Prelude.{◌≡◌, length, map, take};
    ghost use Rattle.disk.specs.Facts.{Stays, Passes, InRow, Joined, counted, nothing, lane_failures};
    ghost use Rattle.disk.specs.FaultState.{CausedInLanes};
    ghost use Rattle.disk.specs.WriteLog.{AgreesOutside, ranges, synced, synced_after};
    ghost use Rattle.disk.specs.Laws.{only_the_last};
    ghost use Rattle.simdisk.specs.Kept.{facts_over};
    ghost use mathlib.Core.Logic.{inl};

    type Lane = D::Lane;

    ghost facts = { λ d. facts_over (D.facts d.device).content d.log.log (D.facts d.device).calls (D.facts d.device) };

    ghost fault_state = { λ d. D.fault_state d.device };

    ghost arms = { λ d f. D.arms d.device f };

    fn sectors(&self) -> usize {
        self.device.sectors()
    }

    fn read(&mut self, first: usize, sectors: &mut [Sector]) -> Result<(), Fault> {
        self.device.read(first, sectors)
    }

    fn write(&mut self, first: usize, sectors: &[Sector]) -> Result<(), Fault> {
        self.log.note(first, sectors);
        self.device.write(first, sectors)
    }

    fn sync(&mut self) -> Result<(), Fault> {
        self.device.sync()?;
        self.log = Log::picked(&(&self.log, &self.device));
        Ok(())
    }

    fn split(
        &mut self,
        first: usize,
        lanes: usize,
        each: usize,
    ) -> Result<Vec<D::Lane>, AllocError> {
        let out = self.device.split(first, lanes, each)?;
        self.log = Log::picked(&(&self.log, &self.device));
        Ok(out)
    }

    fn join(&mut self, lanes: Vec<D::Lane>)
        requires { InRow (⟦<LoggedDisk<D> as Disk>⟧.facts self.old).lent (map D.Lane.lane_facts lanes.items) }
        ensures content { Joined (⟦<LoggedDisk<D> as Disk>⟧.facts self.old).lent (map D.Lane.lane_facts lanes.items)
            (⟦<LoggedDisk<D> as Disk>⟧.facts self.old).content (⟦<LoggedDisk<D> as Disk>⟧.facts self.new).content }
        ensures back { (⟦<LoggedDisk<D> as Disk>⟧.facts self.new).lent ≡ nothing }
        ensures crash { Passes (⟦<LoggedDisk<D> as Disk>⟧.facts self.old) (⟦<LoggedDisk<D> as Disk>⟧.facts self.new) Stays }
        ensures failures { (⟦<LoggedDisk<D> as Disk>⟧.facts self.new).failures
            ≡ counted (⟦<LoggedDisk<D> as Disk>⟧.facts self.old).failures
            (lane_failures (map D.Lane.lane_facts lanes.items)) }
        ensures calls { (⟦<LoggedDisk<D> as Disk>⟧.facts self.new).calls ≡ (⟦<LoggedDisk<D> as Disk>⟧.facts self.old).calls }
        ensures cause { CausedInLanes (⟦<LoggedDisk<D> as Disk>⟧.fault_state self.old)
            (⟦<LoggedDisk<D> as Disk>⟧.fault_state self.new) (lane_failures (map D.Lane.lane_facts lanes.items)) }
    {
        self.device.join(lanes);
    }

    fn failures(&self) -> u64 {
        self.device.failures()
    }

    fn arm(&mut self, fault: ArmedFault) {
        self.device.arm(fault);
    }

    fn struck(&self) -> bool {
        self.device.struck()
    }

    ghost may_keep = { λ d. d.kept.holds };

    ghost counts_now = { λ d t c le left. inl left };

    ghost only_now = { λ d c left. only_the_last
        (synced_after (take (length d.log.log.past) d.log.log.past) d.log.log.began) d.log.log.past c
        (AgreesOutside (synced d.log.log) (ranges d.log.log.written) c) left };

    ghost bounded = { λ d. D.bounded d.device };

    ghost bounded_calls = { λ d. D.bounded_calls d.device };
}
