//! The disk over its device.
ghost use Rattle.std.specs.Prelude.{◌≡◌, ◌<◌, ◌^◌, false, length, IfOk, IsTrue};
ghost use Rattle.disk.specs.Facts.{Content, IsFresh};
ghost use Rattle.simdisk.specs.Cached.{IsCached};

use crate::waiting::{HandOn, Queue, Waiting, lay_over};
use disk::{ArmedFault, Disk, Fault, Log, Sector};
use std::alloc::{AllocError, Global};

/// How many sectors may wait for the device.
const MOST: usize = 8;

/// A disk that keeps sectors back from its device, a few of them, until a sync.
///
/// A write of one sector waits, and is read from where it waits. A sync hands on what waits and makes the device
/// durable; so does a write that finds no room, or of more than one sector, but for the sync. While lanes are out nothing
/// waits, and while something waits nothing is lent: who lends sectors syncs before.
#[derive(Drop)]
pub struct CachedDisk<D: Disk + Drop> {
    queue: Queue<D>,
    out: bool,
    calls: u64,
    log: Log,
    ghost few_calls: { calls < 2 ^ 64 },
    ghost cached: { IsCached queue.waiting.items log.log (D.facts queue.device) },
    ghost idle: { out ≡ false → (D.facts queue.device).lent.lanes ≡ 0 },
    ghost alone: { 0 < length queue.waiting.items → (D.facts queue.device).lent.lanes ≡ 0 },
}

impl<D: Disk + Drop> CachedDisk<D> {
    /// The disk over that device, all of which is durable. What is armed stays as it was. At `Err` memory was refused.
    pub fn new(alloc: Global, device: D) -> Result<CachedDisk<D>, AllocError>
        requires { IsFresh (D.facts device).content (D.facts device) }
        ensures fresh { IfOk result (λ disk. IsFresh (D.facts device).content (⟦<CachedDisk<D> as Disk>⟧.facts disk)) }
        ensures failures { IfOk result (λ disk. (⟦<CachedDisk<D> as Disk>⟧.facts disk).failures
            ≡ (D.facts device).failures) }
        ensures fault_state { IfOk result (λ disk. ⟦<CachedDisk<D> as Disk>⟧.fault_state disk ≡ D.fault_state device) }
    {
        let waiting = Vec::with_capacity(alloc, MOST)?;
        let log = Log::picked(&device);
        Ok(CachedDisk {
            queue: Queue { device, waiting },
            out: false,
            calls: 0,
            log,
        })
    }

    /// The device, as the disk leaves it: each content that a crash may leave in it is one that the disk may leave. What
    /// waits is lost, as in a crash.
    pub fn into_device(self) -> D
        ensures { (c : Content) → (D.facts result).may_leave c → (⟦<CachedDisk<D> as Disk>⟧.facts self).may_leave c }
    {
        self.queue.device
    }
}

/// Whether so many sectors may wait beside so many: one that finds room, where nothing is lent and power is there.
fn may_wait(count: usize, beside: usize, out: bool, dark: bool) -> bool
    ensures { IsTrue result → (count ≡ 1) × (beside < 8) × (out ≡ false) × (dark ≡ false) }
{
    count == 1 && beside < MOST && !out && !dark
}

impl<D: Disk + Drop> Disk for CachedDisk<D> {
    ghost use Rattle.std.specs.Prelude.{◌≡◌, length, map, take};
    ghost use Rattle.disk.specs.Facts.{Stays, Passes, InRow, Joined, counted, nothing, lane_failures};
    ghost use Rattle.disk.specs.FaultState.{CausedInLanes};
    ghost use Rattle.disk.specs.WriteLog.{AgreesOutside, ranges, synced, synced_after};
    ghost use Rattle.disk.specs.Laws.{only_the_last, below_most};
    ghost use Rattle.simdisk.specs.Cached.{facts_of};
    ghost use Rattle.simdisk.specs.CacheLaws.{keeps};
    ghost use mathlib.Core.Logic.{inl};

    type Lane = D::Lane;

    ghost facts = { λ d. facts_of d.queue.waiting.items d.log.log d.calls (D.facts d.queue.device) };

    ghost fault_state = { λ d. D.fault_state d.queue.device };

    ghost arms = { λ d f. D.arms d.queue.device f };

    fn sectors(&self) -> usize {
        self.queue.device.sectors()
    }

    fn read(&mut self, first: usize, sectors: &mut [Sector]) -> Result<(), Fault> {
        self.calls = self.calls.saturating_add(1);
        self.queue.device.read(first, sectors)?;
        lay_over(sectors, first, &self.queue.waiting);
        Ok(())
    }

    fn write(&mut self, first: usize, sectors: &[Sector]) -> Result<(), Fault> {
        self.calls = self.calls.saturating_add(1);
        self.log.note(first, sectors);
        let dark = self.queue.device.struck();
        let waits = may_wait(sectors.len(), self.queue.waiting.len(), self.out, dark);
        if waits {
            self.queue.waiting.push_reserved(Waiting {
                number: first,
                sector: sectors[0],
            });
            return Ok(());
        }
        self.queue.hand_on()?;
        self.queue.device.write(first, sectors)
    }

    fn sync(&mut self) -> Result<(), Fault> {
        self.calls = self.calls.saturating_add(1);
        self.queue.hand_on()?;
        self.queue.device.sync()?;
        self.log = Log::picked(&(&self.log, &self.queue.device));
        Ok(())
    }

    fn split(
        &mut self,
        first: usize,
        lanes: usize,
        each: usize,
    ) -> Result<Vec<D::Lane>, AllocError> {
        if !self.queue.waiting.is_empty() {
            return Err(AllocError);
        }
        let out = self.queue.device.split(first, lanes, each)?;
        self.log = Log::picked(&(&self.log, &self.queue.device));
        self.out = true;
        Ok(out)
    }

    fn join(&mut self, lanes: Vec<D::Lane>)
        requires { InRow (⟦<CachedDisk<D> as Disk>⟧.facts self.old).lent (map D.Lane.lane_facts lanes.items) }
        ensures content { Joined (⟦<CachedDisk<D> as Disk>⟧.facts self.old).lent (map D.Lane.lane_facts lanes.items)
            (⟦<CachedDisk<D> as Disk>⟧.facts self.old).content (⟦<CachedDisk<D> as Disk>⟧.facts self.new).content }
        ensures back { (⟦<CachedDisk<D> as Disk>⟧.facts self.new).lent ≡ nothing }
        ensures crash { Passes (⟦<CachedDisk<D> as Disk>⟧.facts self.old) (⟦<CachedDisk<D> as Disk>⟧.facts self.new) Stays }
        ensures failures { (⟦<CachedDisk<D> as Disk>⟧.facts self.new).failures
            ≡ counted (⟦<CachedDisk<D> as Disk>⟧.facts self.old).failures
            (lane_failures (map D.Lane.lane_facts lanes.items)) }
        ensures calls { (⟦<CachedDisk<D> as Disk>⟧.facts self.new).calls ≡ (⟦<CachedDisk<D> as Disk>⟧.facts self.old).calls }
        ensures cause { CausedInLanes (⟦<CachedDisk<D> as Disk>⟧.fault_state self.old)
            (⟦<CachedDisk<D> as Disk>⟧.fault_state self.new) (lane_failures (map D.Lane.lane_facts lanes.items)) }
    {
        self.queue.device.join(lanes);
        self.out = false;
    }

    fn failures(&self) -> u64 {
        self.queue.device.failures()
    }

    fn arm(&mut self, fault: ArmedFault) {
        self.queue.device.arm(fault);
    }

    fn struck(&self) -> bool {
        self.queue.device.struck()
    }

    ghost may_keep = { λ d. keeps d.queue.waiting.items d.log.log (D.facts d.queue.device) d.cached };

    ghost counts_now = { λ d t c le left. inl left };

    ghost only_now = { λ d c left. only_the_last
        (synced_after (take (length d.log.log.past) d.log.log.past) d.log.log.began) d.log.log.past c
        (AgreesOutside (synced d.log.log) (ranges d.log.log.written) c) left };

    ghost bounded = { λ d. D.bounded d.queue.device };

    ghost bounded_calls = { λ d. below_most d.calls d.few_calls };
}
