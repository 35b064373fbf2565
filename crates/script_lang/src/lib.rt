//! The script language of the bench: bytes to lines, or the first fault, and lines as the language writes them.
#![tactic(auto)]

mod armings;
mod commands;
mod laws;
mod line;
mod lines_fit;
mod looks;
mod pairs;
mod rows;
mod scripts;
mod words;
mod writing;

pub use armings::Arming;
pub use commands::command_said;
pub use laws::{lines_read_as_spelled, lines_read_in_order, scripts_read_as_written};
pub use line::{Line, LineText};
pub use lines_fit::fits;
pub use looks::Look;
pub use rows::mode;
pub use scripts::{Script, parse_script};
pub use words::{in_range, number, seed_of};
pub use writing::{board_line, write_script};
