//! A run between two lines of its script, and what runs go on from.

use crate::ledgers::RunLedger;
use bench_report::{LiveBench, OffDisk};
use board::Payloads;

/// A board that is off, with all that a run goes on from. Threads share one, as they could not share a board that may be on.
#[derive(Drop)]
pub struct Site {
    pub off: OffDisk,
    pub payloads: Payloads,
    pub ledger: RunLedger,
}

impl Site {
    /// Lets go of a site. The proof for its disk's many parts is made here, and not for each function that has a site.
    pub fn release(self) {}
}

/// A run that is under way: its bench, and the ledger that follows it.
#[derive(Drop)]
pub struct Going {
    pub bench: LiveBench,
    pub ledger: RunLedger,
}

impl Going {
    /// Lets go of a run. The proof for its board's many parts is made here, and not for each function that has a run.
    pub fn release(self) {}
}
