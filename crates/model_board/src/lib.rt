//! The model board: a board without the bytes of its disk, and what may happen to it, in whatever order and wherever power
//! fails. Which of two turns may change places is said by what they touch.
#![tactic(auto)]

mod alone;
mod board;
mod footprints;
mod holds;
mod laws;
mod left_out;
mod plain;
mod powers;
mod registers;
mod rests;
mod tables;
mod touches;
mod whole;

pub use board::Board;
pub use laws::{event_determines_board, local_turns_change_places, turn_outside};
pub use left_out::{LEFT_OUT, PROBE, left_out_registers_change_nothing};
pub use plain::PlainMachine;
pub use powers::{Power, Status};
pub use registers::unread_register;
pub use rests::Rest;
pub use tables::{PlainTables, TableCopy};
pub use touches::{Break, TouchMap};
pub use whole::turn;
