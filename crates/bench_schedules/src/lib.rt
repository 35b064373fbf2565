//! The schedule bench (docs/SCRIPT.md, "Schedules"): runs a script again and again, each time with its turns in another
//! order, and tells where a run answers other than the script's own.
//!
//! It shrinks a schedule of a script too: of the turns that were drawn, it keeps few with which the report still first differs
//! in the same line.
//!
//! Orders of turns (`schedule`, `led`) are right by how they are made: whatever is drawn, each hart gets its turns between two
//! other lines.
#![tactic(auto)]

mod benches;
mod copies;
mod deal;
mod drawn_orders;
mod draws;
mod laws;
mod led_orders;
mod line_runs;
mod numbers;
mod own_runs;
mod passes;
mod quotas;
mod rows;
mod runs;
mod search;
mod shrinks;
mod slices;
mod stretches;
mod told;
mod written;

pub use benches::{Compared, SchedulePlan, schedules, show};
pub use drawn_orders::{generator, schedule};
pub use laws::{orders_keep_lines, rows_may_change};
pub use led_orders::{Slice, led};
pub use line_runs::{end_run, run_line};
pub use numbers::{line_numbers, number_at, number_of_other, text_lines};
pub use own_runs::{OwnRun, run_own};
pub use runs::{Difference, run_until};
pub use shrinks::shrink;
pub use stretches::Stretches;
pub use told::{ToldApart, ToldLine, first_apart};
