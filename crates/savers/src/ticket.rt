//! A ticket: its word, its rule, its one kind of step, and how seats are parted and joined.

ghost use Rattle.std.specs.Prelude.{◌≡◌};
ghost use Rattle.savers.specs.Draws.{AreDrawnOnce, DrawsNext, unused_view, without_part, new_part, together, spent_view};

use crate::view::TicketView;
use atomic_table::{Join, Play, Seat, Split, Table, TableRule};
use std::alloc::Global;

/// The rule of the word, which holds between any two steps of any threads: what was drawn are the numbers
/// below it, each once.
pub struct DrawnOnce;

impl TableRule<(), TicketView, ()> for DrawnOnce {
    ghost holds = { λ key s. AreDrawnOnce s };

    ghost first = { λ key. unused_view };
}

/// The one kind of step.
pub(crate) struct Draw;

impl Play<(), TicketView> for Draw {
    ghost then = { DrawsNext };
}

/// How the right to draw is shared out among seats.
pub(crate) struct ByDraws;

impl Split<TicketView> for ByDraws {
    ghost left = { without_part };

    ghost right = { new_part };
}

impl Join<TicketView> for ByDraws {
    ghost both = { together };

    ghost spent = { spent_view };
}

/// A seat: the right to draw so many times. It takes no bytes, and may go to another thread.
pub type TicketSeat = Seat<(), TicketView>;

/// The ticket. Threads share it by reference, each with a seat of its own.
#[derive(Drop)]
pub struct Ticket {
    pub(crate) table: Table<(), TicketView, (), DrawnOnce, Global>,
    ghost wide: { table.shared.table_id.words ≡ 1 },
    ghost no_slot: { table.shared.table_id.slots ≡ 0 },
}
