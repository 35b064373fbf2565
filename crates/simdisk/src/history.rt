//! What a disk in memory keeps of its write log.
ghost use Rattle.std.specs.Prelude.{length};
ghost use Rattle.disk.specs.WriteLog.{ranges, synced_after, AreWithin};
ghost use Rattle.simdisk.specs.Views.{pieces};

use crate::latest::Latest;
use crate::patch::Patch;
use crate::remembered::Remembered;

/// What a disk keeps of its writes and syncs: what stood at the last sync, which is what a read gives
/// until the first write, and what was written since. What was before is for contracts alone.
#[derive(Drop)]
pub(crate) struct History {
    pub(crate) stood: Latest,
    pub(crate) written: Vec<Patch>,
    pub(crate) past: Remembered,
    ghost fits: { AreWithin (length (synced_after past.kept.log.past past.kept.log.began)) (ranges (pieces written.items)) },
}
