//! Sectors, calls and faults that only contracts remember. They take no memory, and nothing is done for them
//! at run time.
ghost use Rattle.std.specs.Prelude.{◌≡◌, [], ◌∷◌, ◌++◌, map, take, drop};
ghost use Rattle.disk.specs.WriteLog.{piece_in};

use crate::patch::Patch;
use disk::{ArmedFault, LaneCall, Log, Sector};

/// Sectors as they stood once and what each sync since then made durable; or the calls of a lane; or all faults
/// that were armed, the newest first.
#[derive(Drop)]
pub(crate) struct Remembered {
    pub(crate) kept: Log,
}

impl Remembered {
    ghost use Rattle.simdisk.specs.Views.{pieces};

    /// These sectors, and no sync.
    pub(crate) fn of(sectors: &[Sector]) -> Remembered
        ensures { (result.kept.log.began ≡ sectors.now) × (result.kept.log.past ≡ []) }
    {
        Remembered {
            kept: Log::picked(&sectors),
        }
    }

    /// So many of the sectors, from that one on, and no sync.
    pub(crate) fn part(&self, from: usize, count: usize) -> Remembered
        ensures { (result.kept.log.began ≡ take count (drop from self.now.kept.log.began)) × (result.kept.log.past ≡ []) }
    {
        Remembered {
            kept: Log::picked(&(self, from, count)),
        }
    }

    /// A sync makes these patches durable, as they stand in that content.
    pub(crate) fn sync(&mut self, patches: &[Patch], content: &[Sector])
        ensures { (self.new.kept.log.began ≡ self.old.kept.log.began)
            × (self.new.kept.log.past
            ≡ self.old.kept.log.past ++ map (piece_in content.now) (pieces patches.now) ∷ []) }
    {
        let epoch = Remembered::epoch(patches, content);
        self.kept = Log::picked(&(&self.kept, &epoch.kept));
    }

    /// No sectors, and that sync alone.
    fn epoch(patches: &[Patch], content: &[Sector]) -> Remembered
        ensures { result.kept.log.past ≡ map (piece_in content.now) (pieces patches.now) ∷ [] }
    {
        Remembered {
            kept: Log::picked(&(patches, content)),
        }
    }

    /// No call of a lane.
    pub(crate) fn no_call() -> Remembered
        ensures { result.kept.calls ≡ [] }
    {
        Remembered {
            kept: Log::with_parts(&()),
        }
    }

    /// One more call of a lane, a read.
    pub(crate) fn note_read(&mut self, first: usize, count: usize, ok: bool)
        ensures { self.new.kept.calls ≡ self.old.kept.calls ++ LaneCall.Read first count ok ∷ [] }
    {
        self.kept = Log::with_parts(&(&self.kept, first, count, ok));
    }

    /// One more call of a lane, a write.
    pub(crate) fn note_write(&mut self, first: usize, count: usize, ok: bool)
        ensures { self.new.kept.calls ≡ self.old.kept.calls ++ LaneCall.Write first count ok ∷ [] }
    {
        self.kept = Log::with_parts(&(&self.kept, first, count, ok));
    }

    /// No fault was ever armed.
    pub(crate) fn no_arming() -> Remembered
        ensures { result.kept.armings ≡ [] }
    {
        Remembered {
            kept: Log::with_parts(&()),
        }
    }

    /// One more fault is armed.
    pub(crate) fn note_arming(&mut self, fault: ArmedFault)
        ensures { self.new.kept.armings ≡ fault ∷ self.old.kept.armings }
    {
        self.kept = Log::with_parts(&(&self.kept, fault));
    }

    /// The faults that this remembers, and nothing else of it.
    pub(crate) fn same_armings(&self) -> Remembered
        ensures { result.kept.armings ≡ self.now.kept.armings }
    {
        Remembered {
            kept: Log::with_parts(&self.kept),
        }
    }
}
