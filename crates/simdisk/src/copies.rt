//! A disk in memory is copied, with what it keeps of its writes and syncs and what is armed.
ghost use Rattle.std.specs.Prelude.{◌≡◌, ◌↔◌, length, All, IsTrue, IfOk};
ghost use Rattle.disk.specs.Facts.{Unchanged};
ghost use Rattle.disk.specs.declared.device.ArmedFault.{ArmedFault};
ghost use Rattle.simdisk.specs.Views.{piece, pieces};

use crate::history::History;
use crate::latest::Latest;
use crate::logged::Logged;
use crate::patch::{Patch, copy_of};
use crate::remembered::Remembered;
use crate::sim::SimDisk;
use disk::{CopyDisk, Disk, Log, Sector};
use std::alloc::{AllocError, Global};

impl Remembered {
    /// What this remembers, kept apart from it.
    fn again(&self) -> Remembered
        ensures { (result.kept.log ≡ self.now.kept.log) × (result.kept.armings ≡ self.now.kept.armings) }
    {
        Remembered {
            kept: Log::with_parts(&self.kept),
        }
    }
}

impl Patch {
    /// A copy of the patch, at the place of this one.
    fn again(&self) -> Patch
        ensures { piece result ≡ piece self.now }
    {
        Patch {
            first: self.first,
            count: self.count,
            bytes: self.bytes.again(),
        }
    }
}

/// A copy of each of these patches, in their order.
fn patches_again(alloc: Global, patches: &[Patch]) -> Result<Vec<Patch>, AllocError>
    ensures { IfOk result (λ copy. pieces copy.items ≡ pieces patches.now) }
{
    let mut copies = Vec::new(alloc);
    for patch in patches {
        copies.push(patch.again())?;
    }
    Ok(copies)
}

/// Whether none of these patches has a sector.
pub(crate) fn are_empty(patches: &[Patch]) -> bool
    ensures { IsTrue result ↔ All (λ p. p.count ≡ 0) patches.now }
{
    patches.iter().all(|patch| patch.count == 0)
}

impl History {
    ghost use Rattle.disk.specs.WriteLog.{ranges, synced, AgreesOutside};
    ghost use Rattle.simdisk.specs.History.{log_of, Stands};
    ghost use Rattle.simdisk.specs.Latest.{latest_of, HasPlace};

    /// What stood at the last sync, for a disk of its own of that content. It is kept apart only where something was written since.
    fn stood_copy(&self, alloc: Global, content: &[Sector]) -> Result<Latest, AllocError>
        requires agrees { AgreesOutside (synced (log_of self.now)) (ranges (pieces self.now.written.items)) content.now }
        requires stands { Stands content.now self.now }
        ensures is { IfOk result (λ copy. latest_of copy content.now ≡ synced (log_of self.now)) }
        ensures place { IfOk result (λ copy. HasPlace (length content.now) copy) }
    {
        if are_empty(&self.written) {
            return Latest::begun(alloc, content.len());
        }
        self.stood.copy(alloc, content.len())
    }

    /// The history of a disk of its own of that content, with the same writes and syncs.
    fn copy(&self, alloc: Global, content: &[Sector]) -> Result<History, AllocError>
        requires agrees { AgreesOutside (synced (log_of self.now)) (ranges (pieces self.now.written.items)) content.now }
        requires stands { Stands content.now self.now }
        ensures log { IfOk result (λ copy. log_of copy ≡ log_of self.now) }
        ensures pieces { IfOk result (λ copy. pieces copy.written.items ≡ pieces self.now.written.items) }
        ensures stands { IfOk result (λ copy. Stands content.now copy) }
    {
        Ok(History {
            stood: self.stood_copy(alloc, content)?,
            written: patches_again(alloc, &self.written)?,
            past: self.past.again(),
        })
    }
}

impl Latest {
    ghost use Rattle.simdisk.specs.Latest.{HasPlace};

    /// That of a disk of its own, with room for as many sectors as this has.
    fn copy(&self, alloc: Global, count: usize) -> Result<Latest, AllocError>
        requires place { HasPlace count self.now }
        ensures sectors { IfOk result (λ copy. copy.sectors.items ≡ self.now.sectors.items) }
        ensures as_read { IfOk result (λ copy. copy.as_read ≡ self.now.as_read) }
        ensures place { IfOk result (λ copy. HasPlace count copy) }
    {
        let mut sectors = Vec::with_capacity(alloc, count)?;
        sectors.extend_from_slice(&self.sectors)?;
        Ok(Latest {
            sectors,
            as_read: self.as_read,
        })
    }
}

impl CopyDisk for SimDisk {
    ghost use Rattle.simdisk.specs.History.{log_of};
    ghost use Rattle.std.specs.Prelude.{◌≡◌};

    ghost alike = { λ d e. (log_of e.history ≡ log_of d.history) × (e.faults.armed ≡ d.faults.armed)
        × (e.lane_calls ≡ d.lane_calls) };

    fn copy(&self) -> Result<SimDisk, AllocError>
        requires none_out { (⟦<SimDisk as Disk>⟧.facts self.now).lent.lanes ≡ 0 }
        ensures facts { IfOk result
            (λ copy. Unchanged (⟦<SimDisk as Disk>⟧.facts self.now) (⟦<SimDisk as Disk>⟧.facts copy)) }
        ensures fault_state { IfOk result
            (λ copy. ⟦<SimDisk as Disk>⟧.fault_state copy ≡ ⟦<SimDisk as Disk>⟧.fault_state self.now) }
        ensures arms { IfOk result (λ copy. (fault : ArmedFault) → ⟦<SimDisk as Disk>⟧.arms copy fault
            ↔ ⟦<SimDisk as Disk>⟧.arms self.now fault) }
        ensures alike { IfOk result (λ copy. (⟦<SimDisk as Logged>⟧.log copy ≡ ⟦<SimDisk as Logged>⟧.log self.now)
            × (⟦<SimDisk as Logged>⟧.armed copy ≡ ⟦<SimDisk as Logged>⟧.armed self.now)
            × (⟦<SimDisk as Logged>⟧.lane_calls copy ≡ ⟦<SimDisk as Logged>⟧.lane_calls self.now)) }
    {
        let alloc = self.alloc;
        let content = copy_of(alloc, &self.content)?;
        let history = self.history.copy(alloc, &self.content)?;
        let latest = self.latest.copy(alloc, self.content.len())?;
        let lane_calls = self.lane_calls;
        Ok(SimDisk {
            alloc,
            content,
            history,
            latest,
            failures: self.failures,
            calls: self.calls,
            lane_calls,
            refused: self.refused,
            loan: self.loan,
            faults: self.faults,
            past: self.past.again(),
        })
    }
}
