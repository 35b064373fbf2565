//! The table, its rule, and the types of its seats.

ghost use Rattle.std.specs.Prelude.{◌≡◌, ℕ, ◌+◌, ◌*◌, ◌<◌, ◌≤◌, List, []};
ghost use Rattle.hsm.specs.Rule.{HartInvariant};
ghost use Rattle.hsm.specs.Outcomes.{opening_view};
ghost use Rattle.hsm.specs.declared.view.Stage.{Stage};
ghost use Rattle.hsm.specs.declared.view.Stage.TheVariants.{Running};

use crate::view::{Action, HartSeatView, Stage};
use atomic_table::{Table, TableRule};
use board_model::HartId;
use std::alloc::Global;
use std::marker::Brand;
use tallies::{NotedSeat, NotedSeats};

/// How many harts there are, and which of them has started. It is fixed when a table is made.
#[derive(Clone, Copy)]
pub struct Setup {
    pub harts: u32,
    pub started: HartId,
}

/// The rule of the hart table.
pub struct Law;

impl TableRule<(), HartSeatView, Setup> for Law {
    ghost holds = { λ s. HartInvariant s.harts s.started };

    ghost first = { λ s. opening_view s.harts s.started };
}

/// What the contract of a step names beside the step's own operands: the acting hart, what its start is for, what stands
/// beside its entry, and the stage at which it stands. A caller names itself `Brand` and picks the values in its proof.
pub trait Acting {
    ghost by: { ℕ };

    ghost target: { ℕ };

    ghost address: { ℕ };

    ghost opaque: { ℕ };

    ghost beside: { List ℕ };

    ghost stage: { Stage };

    ghost harts: { ℕ };
}

impl Acting for Brand {
    ghost by = { 0 };

    ghost target = { 0 };

    ghost address = { 0 };

    ghost opaque = { 0 };

    ghost beside = { [] };

    ghost stage = { Running };

    ghost harts = { 0 };
}

/// What a look at all that was done names: how many harts there are, and which of them was started when the table was made.
pub(crate) trait Seeing {
    ghost harts: { ℕ };

    ghost started: { ℕ };
}

impl Seeing for Brand {
    ghost harts = { 0 };

    ghost started = { 0 };
}

/// A seat of some of the harts: the right to act as them. It takes no bytes, and may go to another thread.
pub type HartSeat = NotedSeat<Stage, Action>;

/// A seat for each hart of a board, in a list. A seat that is out with its hart leaves `None`.
pub type Seats = NotedSeats<Stage, Action>;

/// The hart table of one board. Threads share it by reference, each with seats of its own.
#[derive(Drop)]
pub struct HartTable {
    pub(crate) table: Table<(), HartSeatView, Setup, Law, Global>,
    ghost wide: { table.shared.table_id.words ≡ 1 + 2 * table.shared.key.harts },
    ghost few: { table.shared.key.harts ≤ 8 },
    ghost one: { 0 < table.shared.key.harts },
}
