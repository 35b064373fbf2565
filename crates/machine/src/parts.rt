//! What a machine consists of.

use hart::Hart;
use sbi_calls::{Seats, Tables};
use susp::Bus;

/// What a machine consists of.
#[derive(Drop)]
pub struct Parts {
    /// The harts, by number.
    pub harts: Vec<Hart>,
    /// The seat of all harts in each table.
    pub seats: Seats,
    /// The states of the harts, and the pending interrupts.
    pub tables: Tables,
    /// The memory, and the doze of the board.
    pub bus: Bus,
}
