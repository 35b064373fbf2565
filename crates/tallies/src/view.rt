//! What a seat knows of its harts: where each stands, and what it did to the table. Views stand in contracts
//! alone, and no value of these types is ever made.

use board_model::HartId;
use std::collections::LinkedList;

/// A hart of a seat: where it stands, its steps, the newest first, and of each its place in the order of all
/// steps: how many there were before it. A table says what stages and what actions its harts have.
pub struct HartNotes<S, D> {
    pub hart: HartId,
    pub stage: S,
    pub actions: LinkedList<D>,
    pub places: LinkedList<u64>,
}

/// The harts of a seat.
pub struct SeatNotes<S, D> {
    pub harts: LinkedList<HartNotes<S, D>>,
}
