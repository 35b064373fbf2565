//! Interrupts between harts (SBI specification 2.0, chapter IPI), as pairs of a sender and a target in words
//! that change in single steps (docs/TABLES.md). Each call takes the table by reference and a seat by value,
//! gives the seat back, and adds one step to what the seat knows. No call waits, takes memory or tries a step
//! again.
#![tactic(auto)]

mod calls;
mod copies;
mod pairs;
mod peeks;
mod seats;
mod seen;
mod table;
mod view;

pub use pairs::laws;
pub use seen::seat_determines_pairs;
pub use table::{IpiSeat, Ledger, PendingTable, Seats};
pub use tallies::SeatTable;
pub use view::{IpiAction, PendingSeatView, PendingView};
