//! One turn of a hart (docs/BOARD.md): by the tables, its memory, and the dispatch of its calls. The same
//! code serves a board on one thread, with the one seat of all harts and the memory at hand, and a hart's own
//! thread, with the seat of that hart and the memory behind a lock.
#![tactic(auto)]

mod begins;
mod buses;
mod finishes;
mod many;
mod readies;
mod resumes;
mod whole;

pub use begins::{begin, look};
pub use buses::MemoryBus;
pub use finishes::finish;
pub use many::turns_by_one_look;
pub use readies::Ready;
pub use resumes::resume;
pub use sbi_calls::{Did, Turned};
pub use whole::{turn, turn_by_bus};
