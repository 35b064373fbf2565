//! Looks that a seat does not note, so that it stays as it was.

ghost use Rattle.std.specs.Prelude.{◌≡◌, ◌<◌, ◌↔◌, ℕ, IsTrue};
ghost use Rattle.board_model.specs.HartSets.{Has};
ghost use Rattle.ipi.specs.Ledger.{HasEveryHart, HasSteps, InRange, Peeks, Sees, Tells};
ghost use Rattle.ipi.specs.Pairs.{Sits};
ghost use Rattle.ipi.specs.Seating.{IsSeatOf, harts_of, pending_view_of_seat, pending_views_in};
ghost use Rattle.ipi.specs.Views.{pair_in};

use crate::table::{IpiActing, IpiSeat, PendingTable};
use crate::view::PendingSeatView;
use atomic_table::Play;
use board_model::{HartId, HartSet};
use std::marker::{Brand, PhantomData};

struct PendingPeek<J> {
    of: PhantomData<J>,
}

impl<J: IpiActing> Play<(), PendingSeatView> for PendingPeek<J> {
    ghost then = { Peeks J.harts };
}

struct PendingSee<J> {
    of: PhantomData<J>,
}

impl<J: IpiActing> Play<(), PendingSeatView> for PendingSee<J> {
    ghost then = { Sees J.harts };
}

/// By this look the harts of a seat are known to have their steps in the one log of the table.
pub(crate) fn see<J: IpiActing>(table: &PendingTable, seat: &mut IpiSeat)
    requires named { J.harts ≡ harts_of table.now }
    requires seat { IsSeatOf table.now seat.old }
    ensures seat { IsSeatOf table.now seat.new }
    ensures same { pending_view_of_seat seat.new ≡ pending_view_of_seat seat.old }
    ensures steps { HasSteps (harts_of table.now) (pending_views_in seat.old) }
{
    table.table.shared.load::<PendingSee<J>>(seat, 0);
}

fn peek_at<J: IpiActing>(table: &PendingTable, seat: &mut IpiSeat, target: HartId) -> u64
    requires named { J.harts ≡ harts_of table.now }
    requires seat { IsSeatOf table.now seat.old }
    requires sits { Sits target (pending_view_of_seat seat.old) }
    requires target { target < harts_of table.now }
    ensures seat { IsSeatOf table.now seat.new }
    ensures same { pending_view_of_seat seat.new ≡ pending_view_of_seat seat.old }
    ensures tells { Tells (harts_of table.now) (pending_view_of_seat seat.old) target result }
    ensures range { InRange (harts_of table.now) result }
{
    let word = target.index();
    table.table.shared.load::<PendingPeek<J>>(seat, word)
}

impl PendingTable {
    /// The senders of whom an interrupt is pending for a hart, as the seat of all harts has it: they stay so,
    /// and the seat stays as it was.
    pub fn senders(&self, seat: &mut IpiSeat, target: HartId) -> HartSet
        requires seat { IsSeatOf self.now seat.old }
        requires whole { HasEveryHart (harts_of self.now) (pending_view_of_seat seat.old) }
        requires target { target < harts_of self.now }
        ensures seat { IsSeatOf self.now seat.new }
        ensures same { pending_view_of_seat seat.new ≡ pending_view_of_seat seat.old }
        ensures senders { (sender : ℕ) → Has sender result
            ↔ IsTrue (pair_in (pending_view_of_seat seat.old) sender target) }
    {
        let found = peek_at::<Brand>(self, seat, target);
        HartSet::of(found)
    }
}
