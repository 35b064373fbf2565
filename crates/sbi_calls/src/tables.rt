//! Both tables of a board, and seats of them.

ghost use Rattle.sbi_calls.specs.Same.{AreOfOneBoard};

use hsm::{HartSeat, HartTable};
use ipi::{IpiSeat, PendingTable};

/// The hart table and the pending interrupts of one board, which threads share by reference.
#[derive(Drop)]
pub struct Tables {
    pub harts: HartTable,
    pub pending: PendingTable,
    ghost same: { AreOfOneBoard harts pending },
}

/// A seat of each table for the same harts: the right to act as them.
#[derive(Drop)]
pub struct Seats {
    pub harts: HartSeat,
    pub pending: IpiSeat,
}
