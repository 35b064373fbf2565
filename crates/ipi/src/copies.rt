//! A table of the same pairs, which is made by the raises of its own harts.

ghost use Rattle.std.specs.Prelude.{◌≡◌, ◌+◌, ◌<◌, ℕ, IfOk, IfErr};
ghost use Rattle.board_model.specs.HartSets.{Has};
ghost use Rattle.board_model.specs.declared.refusal.Refusal.TheVariants.{Memory};
ghost use Rattle.ipi.specs.Copies.{IsMade};
ghost use Rattle.ipi.specs.Pairs.{with_pair};
ghost use Rattle.ipi.specs.Seating.{IsSeatOf, harts_of, pending_view_of_seat, IsOfAll};
ghost use Rattle.ipi.specs.Views.{ArePairs, pair_in, pairs_in};

use crate::table::{IpiSeat, PendingTable};
use board_model::{HartId, HartSet, Refusal, Shape};
use std::alloc::Global;

impl PendingTable {
    /// Raises an interrupt of a sender for a target where the sender is in a set.
    fn raise_of_set(
        &self,
        seat: IpiSeat,
        sender: HartId,
        target: HartId,
        senders: HartSet,
    ) -> IpiSeat
        requires seat { IsSeatOf self.now seat }
        requires all { IsOfAll self.now seat }
        requires sender { sender < harts_of self.now }
        requires target { target < harts_of self.now }
        ensures seat { IsSeatOf self.entry.now result }
        ensures all { IsOfAll self.entry.now result }
        ensures raised { Has sender senders → (s t : ℕ) → pair_in (pending_view_of_seat result) s t
            ≡ with_pair sender target (pair_in (pending_view_of_seat seat)) s t }
        ensures stays { (Has sender senders → ⊥) → pending_view_of_seat result ≡ pending_view_of_seat seat }
    {
        if !senders.contains(sender) {
            return seat;
        }
        let (seat, _) = self.raise(seat, sender, target);
        seat
    }

    /// The pairs of one target, of which none is pending yet, come to be those of another table.
    fn take_row(
        &self,
        seat: IpiSeat,
        other: &PendingTable,
        others: &mut IpiSeat,
        target: HartId,
        shape: &Shape,
    ) -> IpiSeat
        requires seat { IsSeatOf self.now seat }
        requires harts { harts_of self.now ≡ shape.now.harts }
        requires other { IsSeatOf other.now others.old }
        requires all { IsOfAll other.now others.old }
        requires same { harts_of other.now ≡ shape.now.harts }
        requires target { target < shape.now.harts }
        requires made { IsMade shape.now.harts target 0 (pending_view_of_seat others.old) (pending_view_of_seat seat) }
        ensures seat { IsSeatOf self.entry.now result }
        ensures other { IsSeatOf other.now others.new }
        ensures stays { pending_view_of_seat others.new ≡ pending_view_of_seat others.old }
        ensures made { IsMade shape.now.harts (target + 1) 0 (pending_view_of_seat others.old)
            (pending_view_of_seat result) }
    {
        let senders = other.senders(others, target);
        let mut seat = seat;
        for number in 0..u64::from(shape.harts()) {
            let sender = shape.hart(number).unwrap();
            seat = self.raise_of_set(seat, sender, target, senders);
        }
        seat
    }

    /// A table of the same pending interrupts, with its seat of all harts. The seat of this table stays as it
    /// was. Refused `Memory` where the words could not be had, and then nothing was made.
    pub fn copy(
        &self,
        alloc: Global,
        seat: &mut IpiSeat,
        shape: &Shape,
    ) -> Result<(PendingTable, IpiSeat), Refusal>
        requires seat { IsSeatOf self.now seat.old }
        requires all { IsOfAll self.now seat.old }
        requires harts { harts_of self.now ≡ shape.now.harts }
        requires shows { ArePairs shape.now.harts (pending_view_of_seat seat.old)
            (pairs_in shape.now.harts (pending_view_of_seat seat.old)) }
        ensures stays { IsSeatOf self.now seat.new }
        ensures same { pending_view_of_seat seat.new ≡ pending_view_of_seat seat.old }
        ensures seat { IfOk result (λ t. IsSeatOf t.0 t.1) }
        ensures harts { IfOk result (λ t. harts_of t.0 ≡ shape.now.harts) }
        ensures all { IfOk result (λ t. IsOfAll t.0 t.1) }
        ensures pairs { IfOk result (λ t. ArePairs shape.now.harts (pending_view_of_seat t.1)
            (pairs_in shape.now.harts (pending_view_of_seat seat.old))) }
        ensures memory { IfErr result (λ e. e ≡ Memory) }
    {
        let (made, own) = PendingTable::new(alloc, *shape)?;
        let mut own = own;
        for number in 0..u64::from(shape.harts()) {
            let target = shape.hart(number).unwrap();
            own = made.take_row(own, self, seat, target, shape);
        }
        Ok((made, own))
    }
}
