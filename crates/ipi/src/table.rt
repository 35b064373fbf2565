//! The table, one word a hart with a bit for each sender, its rule, and the types of its seats.

ghost use Rattle.std.specs.Prelude.{◌≡◌, ℕ, ◌<◌, ◌≤◌};
ghost use Rattle.ipi.specs.Ledger.{PendingInvariant, opening_pending_view};

use crate::view::{IpiAction, PendingSeatView};
use atomic_table::{Table, TableRule};
use std::alloc::Global;
use std::marker::Brand;
use tallies::{NotedSeat, NotedSeats};

/// The ledger of interrupts, which is the rule of the table.
pub struct Ledger;

impl TableRule<(), PendingSeatView, u32> for Ledger {
    ghost holds = { PendingInvariant };

    ghost first = { opening_pending_view };
}

/// What the contract of a step names beside the step's own operands. A caller names itself `Brand` and picks
/// the values in its proof.
pub(crate) trait IpiActing {
    ghost harts: { ℕ };

    ghost by: { ℕ };
}

impl IpiActing for Brand {
    ghost harts = { 0 };

    ghost by = { 0 };
}

/// A seat of some of the harts: the right to act as them. It takes no bytes, and may go to another thread.
pub type IpiSeat = NotedSeat<(), IpiAction>;

/// A seat for each hart of a board, in a list. A seat that is out with its hart leaves `None`.
pub type Seats = NotedSeats<(), IpiAction>;

/// The pending interrupts of one board. Threads share it by reference, each with seats of its own.
#[derive(Drop)]
pub struct PendingTable {
    pub(crate) table: Table<(), PendingSeatView, u32, Ledger, Global>,
    ghost wide: { table.shared.table_id.words ≡ table.shared.key },
    ghost few: { table.shared.key ≤ 8 },
    ghost one: { 0 < table.shared.key },
}
