//! A board's memory, harts and tables on one thread: what a boot leaves, what a turn or a call of a hart
//! does, and how a call that comes to a durable command is made with a store. docs/BOARD.md has it in plain
//! words.
//!
//! The report lines of a script that show a board's memory and harts, or say what a hart did (docs/SCRIPT.md).
#![tactic(auto)]

mod begun;
mod calls;
mod copies;
mod holds;
mod laws;
mod line;
mod line_laws;
mod machine;
mod parts;
mod shows;
mod states;

pub use begun::BegunMachine;
pub use hsm::State;
pub use laws::{a_doze_stands, machine_determines_turn};
pub use line::{MachineLine, MemBytes};
pub use line_laws::hart_determines_line;
pub use machine::Machine;
pub use parts::Parts;
pub use sbi::{Did, LifeEnd, ResetType, Turned, Word};
pub use shows::{called, csr_of, mem, pc, reg};
