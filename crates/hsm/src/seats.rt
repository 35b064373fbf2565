//! A table is made with one seat of all harts, which is parted and joined again.

ghost use Rattle.std.specs.Prelude.{◌≡◌, ◌≢◌, ℕ, ◌<◌, ◌≤◌, ◌==◌, if◌then◌else◌, [], length, IfOk, IfErr};
ghost use Rattle.hsm.specs.Rule.{HasSteps, stands};
ghost use Rattle.hsm.specs.States.{HartState, IsBetweenCalls, Shows};
ghost use Rattle.hsm.specs.declared.view.Stage.TheVariants.{Out, Running};
ghost use Rattle.tallies.specs.Notes.{first_hart, other_harts, together};
ghost use Rattle.hsm.specs.Outcomes.{opening_states, opening_view};
ghost use Rattle.hsm.specs.Seating.{IsSeatOf, harts_of, hart_view_of_seat, harts_in, started_in, IsOfAll, AreInOrder, StandAsIn, StandTogether, AreSeatsOf, harts_by_seat, all_harts, one_by_one};
ghost use Rattle.arrayvec.specs.ArrayVec.{array_vec_len};
ghost use Rattle.board_model.specs.declared.refusal.Refusal.TheVariants.{Memory};

use crate::looks::see;
use crate::table::{HartSeat, HartTable, Seats, Setup};
use crate::view::{Action, Stage};
use atomic_table::Table;
use board_model::{HartId, Refusal, Shape};
use std::alloc::Global;
use std::marker::Brand;
use tallies::{ByHart, SeatTable};

impl SeatTable for HartTable {
    type Stage = Stage;

    type Action = Action;

    ghost id = { λ t. t.table.shared.table_id };

    ghost count = { harts_of };

    fn harts(&self) -> u32 {
        ((self.table.word_count() - 1) / 2) as u32
    }

    fn split_first(&self, seat: HartSeat) -> (HartSeat, HartSeat)
        requires { IsSeatOf self.now seat }
        ensures first { IsSeatOf self.now result.0
            × (hart_view_of_seat result.0 ≡ first_hart (hart_view_of_seat seat)) }
        ensures others { IsSeatOf self.now result.1
            × (hart_view_of_seat result.1 ≡ other_harts (hart_view_of_seat seat)) }
    {
        let mut seat = seat;
        let others = self.table.shared.split_seat::<ByHart>(&mut seat);
        (seat, others)
    }

    fn join_two(&self, seat: HartSeat, others: HartSeat) -> HartSeat
        requires seat { IsSeatOf self.now seat }
        requires others { IsSeatOf self.now others }
        ensures seat { IsSeatOf self.now result }
        ensures both { hart_view_of_seat result ≡ together (hart_view_of_seat seat) (hart_view_of_seat others) }
    {
        let mut seat = seat;
        self.table.shared.join_seat::<ByHart>(&mut seat, others);
        seat
    }
}

impl HartTable {
    /// The table of a board of that shape, with the hart `started` alone STARTED and every other hart
    /// STOPPED, and one seat of all harts. Refused `Memory` where the words could not be had, and then
    /// nothing was made.
    pub fn new(
        alloc: Global,
        shape: Shape,
        started: HartId,
    ) -> Result<(HartTable, HartSeat), Refusal>
        requires { started < shape.harts }
        ensures seat { IfOk result (λ t. IsSeatOf t.0 t.1) }
        ensures harts { IfOk result (λ t. harts_of t.0 ≡ shape.harts) }
        ensures first { IfOk result (λ t. started_in t.0 ≡ started) }
        ensures opening { IfOk result (λ t. hart_view_of_seat t.1 ≡ opening_view shape.harts started) }
        ensures stands { IfOk result (λ t. (h : ℕ) → h < shape.harts
            → stands h (if h == started then Running else Out) (harts_in t.1)) }
        ensures all { IfOk result (λ t. IsOfAll t.0 t.1) }
        ensures shows { IfOk result (λ t. Shows shape.harts (hart_view_of_seat t.1) (opening_states started)) }
        ensures memory { IfErr result (λ e. e ≡ Memory) }
    {
        let hart = started.number();
        let mut words = [0; 17];
        words[0] = 1u64 << hart | 1u64 << (8 + hart) | 1u64 << (16 + hart);
        let setup = Setup {
            harts: shape.harts(),
            started,
        };
        let count = 1 + 2 * setup.harts as usize;
        let (table, seat) = Table::of_words(alloc, &words[..count], &setup)?;
        Ok((HartTable { table }, seat))
    }

    /// A seat for each hart of a seat of all harts, in the order of their numbers.
    pub fn split(&self, seat: HartSeat) -> Seats
        requires seat { IsSeatOf self.now seat }
        requires all { IsOfAll self.now seat }
        ensures seats { AreSeatsOf self.now result.items }
        ensures order { AreInOrder result.items }
        ensures stages { StandAsIn (harts_in seat) result.items }
        ensures apart { harts_by_seat result.items ≡ one_by_one (harts_in seat) }
        ensures harts { all_harts result.items ≡ harts_in seat }
    {
        tallies::split(self, seat)
    }

    /// The seats of a list in one, which has their harts in the order of the list. It undoes `split`: a seat
    /// for each hart, in the order of their numbers, makes the seat of all harts again.
    pub fn join(&self, seats: Seats) -> HartSeat
        requires seats { AreSeatsOf self.now seats.items }
        requires some { 0 < array_vec_len seats }
        ensures seat { IsSeatOf self.now result }
        ensures harts { harts_in result ≡ all_harts seats.items }
        ensures all { AreInOrder seats.items → array_vec_len seats ≡ harts_of self.now → IsOfAll self.now result }
        ensures stands { AreInOrder seats.items → StandTogether seats.items (harts_in result) }
        ensures shows { ((h : ℕ) → h < harts_of self.now → IsBetweenCalls h (harts_in result))
            → (states : ℕ → HartState) × Shows (harts_of self.now) (hart_view_of_seat result) states }
        ensures steps { HasSteps (harts_of self.now) (started_in self.now) (harts_in result) }
    {
        let mut whole = tallies::join(self, seats);
        see::<Brand>(self, &mut whole);
        whole
    }
}
