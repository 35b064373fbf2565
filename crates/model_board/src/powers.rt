//! Whether a board is on.

use store::Resumption;

/// Whether a board is on.
#[derive(Clone, Copy, PartialEq, Eq, Drop)]
pub enum Power {
    /// It is on, dozing or not.
    On,
    /// It is off, and goes on with the next power-on, by its image where one stands.
    Off(Option<Resumption>),
    /// It ended by its own shutdown.
    Ended,
}

/// Whether a board is on, as it is told.
#[derive(Clone, Copy, Drop)]
pub enum Status {
    /// It is on, dozing or not.
    On,
    /// It is off, and goes on with the next power-on.
    Off,
    /// It ended by its own shutdown.
    Ended,
}
