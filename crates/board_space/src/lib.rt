//! The states of a model board, explored: boards as rows of numbers and back; all boards that some orders of events lead to, but for
//! registers that are not read again; and what they say of every order.
#![tactic(auto)]

mod board_rows;
mod bounds;
mod carrying;
mod counted;
mod differs;
mod expanding;
mod explored;
mod followed;
mod guesses;
mod happenings;
mod keys;
mod leaving;
mod lives;
mod orders;
mod outcomes;
mod preempted;
mod questions;
mod records;
mod resting;
mod returning;
mod row_differs;
mod row_layout;
mod row_puts;
mod seeds;
mod settling;
mod showing;
mod space;

pub use board_rows::BoardRows;
pub use bounds::Bound;
pub use explored::{Explored, explore_board};
pub use guesses::{Broke, Guess};
pub use happenings::Happening;
pub use lives::Lives;
pub use orders::{StandsFor, every_order};
pub use outcomes::Outcome;
pub use questions::Question;
pub use records::{Recorded, Records};
pub use row_layout::Layout;
pub use space::{BoardSpace, Failures};
