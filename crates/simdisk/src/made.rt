//! How a disk in memory is made, and what a crash leaves of it.
ghost use Rattle.std.specs.Prelude.{◌≡◌, ◌≢◌, ◌⊎◌, ◌↔◌, ◌/◌, ◌%◌, ℕ, false, get_or, length, replicate, true, OnOk, IfOk, IfErr};
ghost use Rattle.std.specs.Simd.{first_chunks};
ghost use Rattle.disk.specs.Facts.{IsFresh, IsLeft, Unchanged};
ghost use Rattle.disk.specs.FaultState.{Unarmed, no_fault, fault_state_armed, fault_state_left};
ghost use Rattle.disk.specs.WriteLog.{synced, new_log};
ghost use Rattle.simdisk.specs.Views.{left_by_fill};
ghost use Rattle.simdisk.specs.declared.fill.Fill.{Fill as FillOf};

use crate::copies::are_empty;
use crate::faults::Faults;
use crate::fill::Fill;
use crate::history::History;
use crate::latest::Latest;
use crate::loan::Loan;
use crate::logged::Logged;
use crate::patch::copy_of;
use crate::remembered::Remembered;
use crate::sim::SimDisk;
use board_model::Refusal;
use disk::{ArmedFault, Disk, Sector};
use std::alloc::{AllocError, Global};

impl SimDisk {
    /// A disk that holds these bytes, sector by sector, all of them durable. Refuses `BadShape`
    /// exactly where they are not whole sectors, and `Memory` where memory is refused.
    pub fn new(alloc: Global, bytes: &[u8]) -> Result<SimDisk, Refusal>
        ensures fresh { IfOk result (λ disk. IsFresh (first_chunks 512 (length bytes.now / 512) bytes.now)
            (⟦<SimDisk as Disk>⟧.facts disk)) }
        ensures log { IfOk result (λ disk. ⟦<SimDisk as Logged>⟧.log disk
            ≡ new_log (first_chunks 512 (length bytes.now / 512) bytes.now)) }
        ensures no_call { IfOk result (λ disk. ((⟦<SimDisk as Disk>⟧.facts disk).failures ≡ 0)
            × ((⟦<SimDisk as Disk>⟧.facts disk).calls ≡ 0)) }
        ensures no_fault { IfOk result (λ disk. ⟦<SimDisk as Disk>⟧.fault_state disk ≡ no_fault) }
        ensures whole { OnOk result (length bytes.now % 512 ≡ 0) }
        ensures refused { IfErr result (λ e. ((e ≡ Refusal.BadShape) × (length bytes.now % 512 ≢ 0))
            ⊎ ((e ≡ Refusal.Memory) × (length bytes.now % 512 ≡ 0))) }
    {
        let (sectors, rest) = bytes.as_chunks::<512>();
        if !rest.is_empty() {
            return Err(Refusal::BadShape);
        }
        let content = copy_of(alloc, sectors)?;
        Ok(SimDisk::holding(alloc, content)?)
    }

    /// A disk of so many sectors of zeros, all of them durable.
    pub fn blank(alloc: Global, sectors: usize) -> Result<SimDisk, AllocError>
        ensures fresh { IfOk result (λ disk. IsFresh (replicate sectors (replicate 512 0))
            (⟦<SimDisk as Disk>⟧.facts disk)) }
        ensures log { IfOk result (λ disk. ⟦<SimDisk as Logged>⟧.log disk
            ≡ new_log (replicate sectors (replicate 512 0))) }
        ensures no_call { IfOk result (λ disk. ((⟦<SimDisk as Disk>⟧.facts disk).failures ≡ 0)
            × ((⟦<SimDisk as Disk>⟧.facts disk).calls ≡ 0)) }
        ensures no_fault { IfOk result (λ disk. ⟦<SimDisk as Disk>⟧.fault_state disk ≡ no_fault) }
    {
        let content = vec![in alloc; [0; 512]; sectors]?;
        SimDisk::holding(alloc, content)
    }

    /// A disk of these sectors, all of them durable.
    fn holding(alloc: Global, content: Vec<Sector>) -> Result<SimDisk, AllocError>
        ensures fresh { IfOk result (λ disk. IsFresh content.items (⟦<SimDisk as Disk>⟧.facts disk)) }
        ensures log { IfOk result (λ disk. ⟦<SimDisk as Logged>⟧.log disk ≡ new_log content.items) }
        ensures no_call { IfOk result (λ disk. ((⟦<SimDisk as Disk>⟧.facts disk).failures ≡ 0)
            × ((⟦<SimDisk as Disk>⟧.facts disk).calls ≡ 0)) }
        ensures no_fault { IfOk result (λ disk. ⟦<SimDisk as Disk>⟧.fault_state disk ≡ no_fault) }
    {
        let history = History::begun(alloc, &content)?;
        let latest = Latest::begun(alloc, content.len())?;
        Ok(SimDisk {
            alloc,
            content,
            history,
            latest,
            failures: 0,
            calls: 0,
            lane_calls: [0; 4],
            refused: 0,
            loan: Loan::nothing(),
            faults: Faults::none(),
            past: Remembered::no_arming(),
        })
    }

    /// The disk that a crash now leaves by that fill. It goes on counting failures and calls; nothing
    /// of it is lent, nothing is armed, and power is back. No memory is taken.
    pub fn after_cut(self, fill: Fill) -> SimDisk
        ensures left { IsLeft (⟦<SimDisk as Disk>⟧.facts self) (⟦<SimDisk as Disk>⟧.facts result) }
        ensures exact { (⟦<SimDisk as Disk>⟧.facts result).content
            ≡ left_by_fill fill (synced (⟦<SimDisk as Logged>⟧.log self))
            (⟦<SimDisk as Logged>⟧.log self).written }
        ensures log { ⟦<SimDisk as Logged>⟧.log result ≡ new_log (⟦<SimDisk as Disk>⟧.facts result).content }
        ensures fault_state { ⟦<SimDisk as Disk>⟧.fault_state result
            ≡ fault_state_left (⟦<SimDisk as Disk>⟧.fault_state self) }
        ensures lane_calls { ⟦<SimDisk as Logged>⟧.lane_calls result ≡ ⟦<SimDisk as Logged>⟧.lane_calls self }
    {
        let mut content = self.content;
        let mut latest = self.latest;
        let mut history = self.history;
        history.cut(fill, &mut content, &latest);
        let history = history.begun_anew(self.alloc, &content);
        latest.as_read = true;
        let lane_calls = self.lane_calls;
        SimDisk {
            alloc: self.alloc,
            content,
            history,
            latest,
            failures: self.failures,
            calls: self.calls,
            lane_calls,
            refused: self.refused,
            loan: Loan::nothing(),
            faults: Faults::none(),
            past: self.past,
        }
    }

    /// What a crash now leaves by that fill, as a disk of its own: this one stays as it is.
    pub fn left(&self, fill: Fill) -> Result<SimDisk, AllocError>
        ensures left { IfOk result (λ disk. IsLeft (⟦<SimDisk as Disk>⟧.facts self.now) (⟦<SimDisk as Disk>⟧.facts disk)) }
        ensures exact { IfOk result (λ disk. (⟦<SimDisk as Disk>⟧.facts disk).content
            ≡ left_by_fill fill (synced (⟦<SimDisk as Logged>⟧.log self.now))
            (⟦<SimDisk as Logged>⟧.log self.now).written) }
        ensures log { IfOk result (λ disk. ⟦<SimDisk as Logged>⟧.log disk
            ≡ new_log (⟦<SimDisk as Disk>⟧.facts disk).content) }
        ensures fault_state { IfOk result (λ disk. ⟦<SimDisk as Disk>⟧.fault_state disk
            ≡ fault_state_left (⟦<SimDisk as Disk>⟧.fault_state self.now)) }
        ensures lane_calls { IfOk result (λ disk. ⟦<SimDisk as Logged>⟧.lane_calls disk
            ≡ ⟦<SimDisk as Logged>⟧.lane_calls self.now) }
    {
        let content = self.content_left(fill)?;
        let mut disk = SimDisk::holding(self.alloc, content)?;
        disk.failures = self.failures;
        disk.calls = self.calls;
        let lane_calls = self.lane_calls;
        disk.lane_calls = lane_calls;
        disk.refused = self.refused;
        disk.past = self.past.same_armings();
        Ok(disk)
    }

    /// What a crash now leaves by that fill.
    fn content_left(&self, fill: Fill) -> Result<Vec<Sector>, AllocError>
        ensures { IfOk result (λ content. content.items
            ≡ left_by_fill fill (synced (⟦<SimDisk as Logged>⟧.log self.now))
            (⟦<SimDisk as Logged>⟧.log self.now).written) }
    {
        let last = self.latest.over(&self.content);
        self.history
            .content_left(self.alloc, fill, &self.content, last)
    }

    /// The n-th call of this disk from now on fails. It replaces what was armed.
    pub fn fail_at(&mut self, call: u64)
        ensures facts { Unchanged (⟦<SimDisk as Disk>⟧.facts self.old) (⟦<SimDisk as Disk>⟧.facts self.new) }
        ensures armed { ⟦<SimDisk as Disk>⟧.fault_state self.new
            ≡ fault_state_armed (ArmedFault.FailAt call) (⟦<SimDisk as Disk>⟧.fault_state self.old) }
        ensures call { ⟦<SimDisk as Logged>⟧.armed self.new ≡ Some (ArmedFault.FailAt call) }
    {
        self.arm(ArmedFault::FailAt(call));
    }

    /// Power is lost within the n-th call of this disk from now on. It replaces what was armed.
    pub fn cut_at(&mut self, call: u64)
        ensures facts { Unchanged (⟦<SimDisk as Disk>⟧.facts self.old) (⟦<SimDisk as Disk>⟧.facts self.new) }
        ensures armed { ⟦<SimDisk as Disk>⟧.fault_state self.new
            ≡ fault_state_armed (ArmedFault.CutAt call) (⟦<SimDisk as Disk>⟧.fault_state self.old) }
        ensures call { ⟦<SimDisk as Logged>⟧.armed self.new ≡ Some (ArmedFault.CutAt call) }
    {
        self.arm(ArmedFault::CutAt(call));
    }

    /// How often the disk failed by itself, which is where its write log was refused memory. A disk
    /// that a crash left goes on counting.
    pub fn refused(&self) -> u64
        ensures { result ≡ (⟦<SimDisk as Disk>⟧.fault_state self.now).own }
    {
        self.refused
    }

    /// How many calls were made of this disk: reads, writes and syncs, those that failed too. At
    /// 2^64 - 1 the count stays. A disk that a crash left goes on counting.
    pub fn calls(&self) -> u64
        ensures { result ≡ (⟦<SimDisk as Disk>⟧.facts self.now).calls }
    {
        self.calls
    }

    /// How many calls were made of the lanes of that number, counted from 0, which this disk has taken
    /// back: reads and writes, those that failed too. At 2^64 - 1 the count stays. A disk that a crash
    /// left goes on counting.
    pub fn lane_calls(&self, lane: usize) -> u64
        ensures { result ≡ get_or (⟦<SimDisk as Logged>⟧.lane_calls self.now) lane 0 }
    {
        match self.lane_calls.get(lane) {
            None => 0,
            Some(count) => *count,
        }
    }

    /// What a read gives, sector by sector.
    pub fn content(&self) -> &[Sector]
        ensures { result.now ≡ (⟦<SimDisk as Disk>⟧.facts self.now).content }
    {
        &self.content
    }

    /// Whether nothing was written since the last sync: then a crash leaves the same by each fill.
    pub fn is_settled(&self) -> bool
        ensures { result ≡ true → (fill : FillOf)
            → left_by_fill fill (synced (⟦<SimDisk as Logged>⟧.log self.now)) (⟦<SimDisk as Logged>⟧.log self.now).written
            ≡ synced (⟦<SimDisk as Logged>⟧.log self.now) }
    {
        are_empty(&self.history.written)
    }

    /// Whether a cut or a failure is armed that has not struck yet.
    #[tactic(auto, using(crate::proofs::Arms::none_armed))]
    pub fn is_armed(&self) -> bool
        ensures { (result ≡ false) ↔ ((⟦<SimDisk as Disk>⟧.fault_state self.now).armed ≡ Unarmed) }
    {
        self.faults.armed.is_some()
    }
}
