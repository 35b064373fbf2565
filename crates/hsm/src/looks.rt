//! Looks at the first word that change nothing.

ghost use Rattle.std.specs.Prelude.{◌≡◌, ℕ, ◌<◌};
ghost use Rattle.hsm.specs.Rule.{HasSteps, stands};
ghost use Rattle.hsm.specs.States.{HartState, IsBetweenCalls, Shows, Tells};
ghost use Rattle.hsm.specs.Outcomes.{IsUpToDate, Looks, Sees};
ghost use Rattle.hsm.specs.Seating.{IsSeatOf, harts_of, hart_view_of_seat, harts_in, started_in};
ghost use Rattle.hsm.specs.declared.view.Action.TheVariants.{Looked};
ghost use Rattle.tallies.specs.Notes.{HasNoted};

use crate::table::{Acting, HartSeat, HartTable, Seeing};
use crate::view::HartSeatView;
use atomic_table::Play;
use board_model::HartId;
use std::marker::PhantomData;

struct SeeStep<J> {
    of: PhantomData<J>,
}

impl<J: Seeing> Play<(), HartSeatView> for SeeStep<J> {
    ghost then = { Sees J.harts J.started };
}

struct LookStep<J> {
    of: PhantomData<J>,
}

impl<J: Acting> Play<(), HartSeatView> for LookStep<J> {
    ghost then = { Looks J.harts J.by J.stage };
}

/// A look that is not noted. By it a seat of all harts, each between calls, is known to show the table's states, and a seat of any
/// harts to have their steps in the one log of the table.
pub(crate) fn see<J: Seeing>(table: &HartTable, seat: &mut HartSeat)
    requires named { (J.harts ≡ harts_of table.now) × (J.started ≡ started_in table.now) }
    requires seat { IsSeatOf table.now seat.old }
    ensures seat { IsSeatOf table.now seat.new }
    ensures same { hart_view_of_seat seat.new ≡ hart_view_of_seat seat.old }
    ensures shows { ((h : ℕ) → h < harts_of table.now → IsBetweenCalls h (harts_in seat.old))
        → (states : ℕ → HartState) × Shows (harts_of table.now) (hart_view_of_seat seat.old) states }
    ensures steps { HasSteps (harts_of table.now) (started_in table.now) (harts_in seat.old) }
{
    table.table.shared.load::<SeeStep<J>>(seat, 0);
}

/// A look at the first word by a hart at any stage, which it keeps.
pub fn look<J: Acting>(table: &HartTable, seat: &mut HartSeat, by: HartId) -> u64
    requires named { (J.harts ≡ harts_of table.now) × (J.by ≡ by) }
    requires seat { IsSeatOf table.now seat.old }
    requires acts { stands by J.stage (harts_in seat.old) }
    ensures seat { IsSeatOf table.now seat.new }
    ensures told { HasNoted by J.stage (Looked result) (harts_in seat.old) (harts_in seat.new) }
    ensures fresh { IsUpToDate result (harts_in seat.old) }
    ensures tells { Tells (harts_of table.now) (hart_view_of_seat seat.old) result }
{
    table.table.shared.load::<LookStep<J>>(seat, 0)
}
