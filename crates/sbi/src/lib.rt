//! The SBI calls that come to a durable command: system reset and system suspend (SBI specification 2.0,
//! chapters 10 and 13; docs/SBI.md). They are made with the memory and the store at hand: on a board of
//! threads, under the locks of both.
#![tactic(auto)]

mod dispatches;
mod resets;
mod words;

pub use dispatches::dispatch_held;
pub use resets::{ResetType, reset_of};
pub use sbi_calls::{Did, Turned};
pub use words::{LifeEnd, Word};
