//! SBI calls (SBI specification 2.0; docs/SBI.md), all but what a system reset and a system suspend make
//! durable: what each asks for once its arguments are checked, and its answer by the tables of harts and of
//! interrupts. Nothing here waits, locks or takes memory.
#![tactic(auto)]

mod dispatches;
mod endings;
mod laws;
mod requests;
mod sends;
mod serves;
mod tables;
mod words;

pub use dispatches::dispatch;
pub use endings::Ending;
pub use laws::call_determines_answer;
pub use requests::{Request, request_of};
pub use tables::{Seats, Tables};
pub use words::{Did, Turned};
