//! What a turn comes to before its step.

use board_model::Addr;

/// What a turn comes to, by the tables.
#[derive(Clone, Copy, Drop)]
pub enum Ready {
    /// Nothing is to be done.
    Idle,
    /// The hart woke, and that is the turn.
    Woke,
    /// The hart entered, and begins at the address with the opaque value.
    Enters(Addr, u64),
    /// The hart makes a step, for which an interrupt is pending or not.
    Steps(bool),
}
