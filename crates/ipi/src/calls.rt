//! The calls, each of which is one step.

ghost use Rattle.std.specs.Prelude.{◌≡◌, ◌≢◌, ◌↔◌, ℕ, ◌<◌, ◌≤◌, true, not, IsTrue};
ghost use Rattle.std.specs.Int.{bit_at};
ghost use Rattle.board_model.specs.HartSets.{Has};
ghost use Rattle.ipi.specs.Ledger.{Raises, Takes, Looks, HasNoted, Tells, OwnsUp, InRange, IsOwing};
ghost use Rattle.ipi.specs.Pairs.{Sits, SameHarts, ActsAlone, with_pair, without_target};
ghost use Rattle.ipi.specs.Seating.{IsSeatOf, harts_of, pending_view_of_seat, pending_views_in};
ghost use Rattle.ipi.specs.declared.view.IpiAction.TheVariants.{Raised, Took, Looked};
ghost use Rattle.tallies.specs.Notes.{seats};

use crate::table::{IpiActing, IpiSeat, PendingTable};
use crate::view::PendingSeatView;
use atomic_table::Play;
use board_model::{HartId, HartSet};
use std::marker::{Brand, PhantomData};

struct RaiseStep<J> {
    of: PhantomData<J>,
}

impl<J: IpiActing> Play<(), PendingSeatView> for RaiseStep<J> {
    ghost then = { Raises J.harts J.by };
}

struct TakeStep<J> {
    of: PhantomData<J>,
}

impl<J: IpiActing> Play<(), PendingSeatView> for TakeStep<J> {
    ghost then = { Takes J.harts };
}

struct PendingLook<J> {
    of: PhantomData<J>,
}

impl<J: IpiActing> Play<(), PendingSeatView> for PendingLook<J> {
    ghost then = { Looks J.harts };
}

fn raise_by<J: IpiActing>(
    table: &PendingTable,
    seat: &mut IpiSeat,
    by: HartId,
    target: HartId,
) -> u64
    requires named { (J.harts ≡ harts_of table.now) × (J.by ≡ by) }
    requires seat { IsSeatOf table.now seat.old }
    requires acts { Sits by (pending_view_of_seat seat.old) }
    requires by { by < harts_of table.now }
    requires target { target < harts_of table.now }
    ensures seat { IsSeatOf table.now seat.new }
    ensures told { HasNoted by (Raised target result) (pending_views_in seat.old) (pending_views_in seat.new) }
    ensures tells { Tells (harts_of table.now) (pending_view_of_seat seat.old) target result }
{
    let bit = by.number();
    let word = target.index();
    table
        .table
        .shared
        .fetch_or::<RaiseStep<J>>(seat, word, 1 << bit)
}

fn take_by<J: IpiActing>(table: &PendingTable, seat: &mut IpiSeat, by: HartId) -> u64
    requires named { J.harts ≡ harts_of table.now }
    requires seat { IsSeatOf table.now seat.old }
    requires acts { Sits by (pending_view_of_seat seat.old) }
    requires by { by < harts_of table.now }
    ensures seat { IsSeatOf table.now seat.new }
    ensures told { HasNoted by (Took result) (pending_views_in seat.old) (pending_views_in seat.new) }
    ensures tells { Tells (harts_of table.now) (pending_view_of_seat seat.old) by result }
    ensures own { OwnsUp (pending_view_of_seat seat.old) by result }
    ensures range { InRange (harts_of table.now) result }
{
    let word = by.index();
    table.table.shared.swap::<TakeStep<J>>(seat, word, 0)
}

fn look_by<J: IpiActing>(table: &PendingTable, seat: &mut IpiSeat, by: HartId) -> u64
    requires named { J.harts ≡ harts_of table.now }
    requires seat { IsSeatOf table.now seat.old }
    requires acts { Sits by (pending_view_of_seat seat.old) }
    requires by { by < harts_of table.now }
    ensures seat { IsSeatOf table.now seat.new }
    ensures told { HasNoted by (Looked result) (pending_views_in seat.old) (pending_views_in seat.new) }
    ensures tells { Tells (harts_of table.now) (pending_view_of_seat seat.old) by result }
    ensures own { OwnsUp (pending_view_of_seat seat.old) by result }
    ensures range { InRange (harts_of table.now) result }
{
    let word = by.index();
    table.table.shared.load::<PendingLook<J>>(seat, word)
}

impl PendingTable {
    /// Raises an interrupt of the acting hart for the target, and says whether the pair was newly set.
    pub fn raise(&self, seat: IpiSeat, by: HartId, target: HartId) -> (IpiSeat, bool)
        requires seat { IsSeatOf self.now seat }
        requires acts { Sits by (pending_view_of_seat seat) }
        requires by { by < harts_of self.now }
        requires target { target < harts_of self.now }
        ensures seat { IsSeatOf self.entry.now result.0 }
        ensures harts { SameHarts (pending_view_of_seat seat) (pending_view_of_seat result.0) }
        ensures steps { (found : ℕ)
            × HasNoted by (Raised target found) (pending_views_in seat) (pending_views_in result.0)
            × (IsTrue result.1 ↔ (bit_at found by ≡ 0)) }
        ensures alone { ActsAlone (harts_of self.entry.now) (pending_view_of_seat seat) (pending_view_of_seat result.0)
            (λ pairs. result.1 ≡ not (pairs by target)) (with_pair by target) }
    {
        let mut seat = seat;
        let found = raise_by::<Brand>(self, &mut seat, by, target);
        (seat, !HartSet::in_byte(found, 0).contains(by))
    }

    /// Takes all that is pending for the acting hart, and answers the senders.
    pub fn take(&self, seat: IpiSeat, by: HartId) -> (IpiSeat, HartSet)
        requires seat { IsSeatOf self.now seat }
        requires acts { Sits by (pending_view_of_seat seat) }
        requires by { by < harts_of self.now }
        ensures seat { IsSeatOf self.entry.now result.0 }
        ensures harts { SameHarts (pending_view_of_seat seat) (pending_view_of_seat result.0) }
        ensures steps { HasNoted by (Took result.1) (pending_views_in seat) (pending_views_in result.0) }
        ensures own { IsOwing by (pending_view_of_seat seat) → Has by result.1 }
        ensures range { (sender : ℕ) → Has sender result.1 → sender < harts_of self.entry.now }
        ensures alone { ActsAlone (harts_of self.entry.now) (pending_view_of_seat seat) (pending_view_of_seat result.0)
            (λ pairs. (sender : ℕ) → Has sender result.1 ↔ IsTrue (pairs sender by)) (without_target by) }
    {
        let mut seat = seat;
        let found = take_by::<Brand>(self, &mut seat, by);
        (seat, HartSet::of(found))
    }

    /// Whether anything is pending for the acting hart, by one look.
    pub fn pending(&self, seat: IpiSeat, by: HartId) -> (IpiSeat, bool)
        requires seat { IsSeatOf self.now seat }
        requires acts { Sits by (pending_view_of_seat seat) }
        requires by { by < harts_of self.now }
        ensures seat { IsSeatOf self.entry.now result.0 }
        ensures harts { SameHarts (pending_view_of_seat seat) (pending_view_of_seat result.0) }
        ensures steps { (found : ℕ) × HasNoted by (Looked found) (pending_views_in seat) (pending_views_in result.0)
            × (IsTrue result.1 ↔ ((sender : ℕ) × (bit_at found sender ≡ 1))) }
        ensures own { IsOwing by (pending_view_of_seat seat) → result.1 ≡ true }
        ensures alone { ActsAlone (harts_of self.entry.now) (pending_view_of_seat seat) (pending_view_of_seat result.0)
            (λ pairs. IsTrue result.1 ↔ ((sender : ℕ) × IsTrue (pairs sender by))) (λ pairs. pairs) }
    {
        let mut seat = seat;
        let found = look_by::<Brand>(self, &mut seat, by);
        (seat, !HartSet::of(found).is_empty())
    }
}
