//! A table is made with one seat of all harts, which is parted and joined again.

ghost use Rattle.std.specs.Prelude.{◌≡◌, ℕ, ◌<◌, ◌≤◌, false, IfOk, IfErr};
ghost use Rattle.arrayvec.specs.ArrayVec.{array_vec_len};
ghost use Rattle.tallies.specs.Notes.{first_hart, other_harts, together};
ghost use Rattle.ipi.specs.Ledger.{HasSteps, opening_pending_view};
ghost use Rattle.ipi.specs.Pairs.{Sits, Shows};
ghost use Rattle.ipi.specs.Views.{pair_in};
ghost use Rattle.ipi.specs.Seating.{IsSeatOf, harts_of, pending_view_of_seat, pending_views_in, IsOfAll, AreInOrder, AreSeated, AreSeatsOf, pending_views_by_seat, all_pending_views, one_by_one};
ghost use Rattle.board_model.specs.declared.refusal.Refusal.TheVariants.{Memory};

use crate::peeks::see;
use crate::table::{IpiSeat, PendingTable, Seats};
use crate::view::IpiAction;
use atomic_table::Table;
use board_model::{Refusal, Shape};
use std::alloc::Global;
use std::marker::Brand;
use tallies::{ByHart, SeatTable};

impl SeatTable for PendingTable {
    type Stage = ();

    type Action = IpiAction;

    ghost id = { λ t. t.table.shared.table_id };

    ghost count = { harts_of };

    fn harts(&self) -> u32 {
        self.table.word_count() as u32
    }

    fn split_first(&self, seat: IpiSeat) -> (IpiSeat, IpiSeat)
        requires { IsSeatOf self.now seat }
        ensures first { IsSeatOf self.now result.0
            × (pending_view_of_seat result.0 ≡ first_hart (pending_view_of_seat seat)) }
        ensures others { IsSeatOf self.now result.1
            × (pending_view_of_seat result.1 ≡ other_harts (pending_view_of_seat seat)) }
    {
        let mut seat = seat;
        let others = self.table.shared.split_seat::<ByHart>(&mut seat);
        (seat, others)
    }

    fn join_two(&self, seat: IpiSeat, others: IpiSeat) -> IpiSeat
        requires seat { IsSeatOf self.now seat }
        requires others { IsSeatOf self.now others }
        ensures seat { IsSeatOf self.now result }
        ensures both { pending_view_of_seat result
            ≡ together (pending_view_of_seat seat) (pending_view_of_seat others) }
    {
        let mut seat = seat;
        self.table.shared.join_seat::<ByHart>(&mut seat, others);
        seat
    }
}

impl PendingTable {
    /// The table of a board of that shape, with nothing pending, and one seat of all harts. Refused `Memory`
    /// where the words could not be had, and then nothing was made.
    pub fn new(alloc: Global, shape: Shape) -> Result<(PendingTable, IpiSeat), Refusal>
        ensures seat { IfOk result (λ t. IsSeatOf t.0 t.1) }
        ensures harts { IfOk result (λ t. harts_of t.0 ≡ shape.harts) }
        ensures opening { IfOk result (λ t. pending_view_of_seat t.1 ≡ opening_pending_view shape.harts) }
        ensures all { IfOk result (λ t. IsOfAll t.0 t.1) }
        ensures sits { IfOk result (λ t. (h : ℕ) → h < shape.harts → Sits h (pending_view_of_seat t.1)) }
        ensures shows { IfOk result (λ t. Shows shape.harts (pending_view_of_seat t.1) (λ _ _. false)) }
        ensures memory { IfErr result (λ e. e ≡ Memory) }
    {
        let harts = shape.harts();
        let words = [0; 8];
        let (table, seat) = Table::of_words(alloc, &words[..harts as usize], &harts)?;
        Ok((PendingTable { table }, seat))
    }

    /// A seat for each hart of a seat of all harts, in the order of their numbers.
    pub fn split(&self, seat: IpiSeat) -> Seats
        requires seat { IsSeatOf self.now seat }
        requires all { IsOfAll self.now seat }
        ensures seats { AreSeatsOf self.now result.items }
        ensures order { AreInOrder result.items }
        ensures sits { AreSeated result.items }
        ensures apart { pending_views_by_seat result.items ≡ one_by_one (pending_views_in seat) }
        ensures harts { all_pending_views result.items ≡ pending_views_in seat }
    {
        tallies::split(self, seat)
    }

    /// The seats of a list in one, which has their harts in the order of the list. It undoes `split`: a seat
    /// for each hart, in the order of their numbers, makes the seat of all harts again.
    pub fn join(&self, seats: Seats) -> IpiSeat
        requires seats { AreSeatsOf self.now seats.items }
        requires some { 0 < array_vec_len seats }
        ensures seat { IsSeatOf self.now result }
        ensures harts { pending_views_in result ≡ all_pending_views seats.items }
        ensures all { AreInOrder seats.items → array_vec_len seats ≡ harts_of self.now → IsOfAll self.now result }
        ensures shows { AreInOrder seats.items → array_vec_len seats ≡ harts_of self.now
            → Shows (harts_of self.now) (pending_view_of_seat result) (pair_in (pending_view_of_seat result)) }
        ensures steps { HasSteps (harts_of self.now) (pending_views_in result) }
    {
        let mut whole = tallies::join(self, seats);
        see::<Brand>(self, &mut whole);
        whole
    }
}
