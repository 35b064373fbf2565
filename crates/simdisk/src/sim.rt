//! The disk in memory.
ghost use Rattle.std.specs.Prelude.{◌≡◌, ◌≤◌, ◌<◌, ◌+◌, ◌*◌, ◌^◌, length};
ghost use Rattle.disk.specs.WriteLog.{ranges, synced, newest, AgreesOutside};
ghost use Rattle.simdisk.specs.History.{log_of, Stands};
ghost use Rattle.simdisk.specs.Latest.{latest_of, HasPlace};
ghost use Rattle.simdisk.specs.Views.{pieces, IsLatest};

use crate::faults::Faults;
use crate::history::History;
use crate::latest::Latest;
use crate::loan::Loan;
use crate::remembered::Remembered;
use disk::Sector;
use std::alloc::Global;

/// A disk in memory, which keeps a log of all its writes and syncs.
#[derive(Drop)]
pub struct SimDisk {
    pub(crate) alloc: Global,
    pub(crate) content: Vec<Sector>,
    pub(crate) history: History,
    pub(crate) latest: Latest,
    pub(crate) failures: u64,
    pub(crate) calls: u64,
    pub(crate) lane_calls: [u64; 4],
    pub(crate) refused: u64,
    pub(crate) loan: Loan,
    pub(crate) faults: Faults,
    pub(crate) past: Remembered,
    ghost agrees: { AgreesOutside (synced (log_of history)) (ranges (pieces history.written.items)) content.items },
    ghost stands: { Stands content.items history },
    ghost newest: { newest (log_of history) ≡ latest_of latest content.items },
    ghost room: { HasPlace (length content.items) latest },
    ghost few: { failures < 2 ^ 64 },
    ghost few_calls: { calls < 2 ^ 64 },
    ghost within: { loan.first + loan.lanes * loan.each ≤ length content.items },
    ghost noted: { 0 < loan.lanes
        → IsLatest (ranges (pieces history.written.items)) loan.patch (loan.first, loan.lanes * loan.each) },
}
