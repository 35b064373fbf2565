//! The harts of a board, which any hart may start, in words that change in single steps (SBI specification
//! 2.0, chapter HSM; docs/TABLES.md): the hart table over `atomic_table`, one function for each kind of step, and
//! one for each call.
//!
//! A step is one exchange on one word, which it changes alone, beside the view of the acting hart's seat. A call
//! takes the table by reference and a seat by value, gives the seat back, and adds just its own steps to what the
//! seat knows. The rule of the table (`specs/Rule.antt`) holds between any two steps. Nothing waits, takes memory or
//! is tried again.
#![tactic(auto)]

mod calls;
mod changes;
mod copies;
mod entries;
mod looks;
mod marks;
mod peeks;
mod promises;
mod seats;
mod seen;
mod standings;
mod starts;
mod state;
mod table;
mod view;

pub use calls::{quiet, start, status, stop, suspend, try_enter, try_enter_beside, unquiet, wake};
pub use copies::copy;
pub use promises::laws;
pub use seen::seat_determines_states;
pub use standings::{Standing, standing_of};
pub use state::State;
pub use table::{HartSeat, HartTable, Seats};
pub use tallies::SeatTable;
