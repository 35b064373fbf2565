//! The bench: runs a script over a board with a disk in memory, and writes its report. docs/SCRIPT.md tells
//! the script language and the report; specs/Steps.antt says for each line what it may answer, and `report_lines` with what
//! text. A bench that is run line by line is a `LiveBench`: its board is not moved between two lines, so a line of turns costs
//! little more than its turns.
#![tactic(auto)]

mod armings;
mod copies;
mod in_place;
mod laws;
mod live;
mod looks;
mod memory;
mod off_lines;
mod on_lines;
mod power;
mod row_laws;
mod rows;
mod runs;
mod setting;
mod steps;
mod uncut;

pub use copies::{arm_power, copy_power, disk_of};
pub use laws::{
    all_are_found, inspections, power_ons, prefix_law, reports_split, script_determines_report,
};
pub use live::LiveBench;
pub use off_lines::power_on;
pub use power::{OffDisk, Power};
pub use row_laws::{idle_turns_change_nothing, rows_join};
pub use rows::TurnRow;
pub use runs::{StoppedRun, run, run_left, run_left_with, run_with};
pub use setting::{Setting, lane_by_lane};
pub use steps::{disk_left, says_refused_memory, struck};
