//! A board that runs instructions: a store of its durable state, and the memory and harts that a boot makes.
#![tactic(auto)]

mod begun;
mod payloads;
mod powered;
mod ready;

pub use begun::BegunBoard;
pub use payloads::Payloads;
pub use powered::{Board, BoardParts, Unpowered};
