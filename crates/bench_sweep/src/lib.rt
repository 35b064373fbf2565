//! The benches: each run of a script in which power fails at one call of the disk or of one of its lanes, and
//! each in which one such call fails. docs/SCRIPT.md, "The benches", tells what they write.
//!
//! The judge of these runs has the commands that a run acknowledged and the one in doubt, says whether the state that was found
//! is one that may be found, and counts the runs and the wrong ones. It knows nothing of a disk, a store or a board. `line_apart`
//! finds the first line in which what was written is not what was wanted.
#![tactic(auto)]

mod apart;
mod begins;
mod chunks;
mod finds;
mod follows;
mod harts;
mod judges;
mod judging;
mod ledgers;
mod moments;
mod plain_runs;
mod plan;
mod points;
mod rows;
mod runner;
mod shown;
mod site;
mod sites;
mod sweeps;

pub use apart::line_apart;
pub use judges::{Sweep, judge};
pub use ledgers::RunLedger;
pub use plan::SweepPlan;
pub use points::BenchKind;
pub use shown::{WantedRow, show_row};
pub use sweeps::run_bench;
