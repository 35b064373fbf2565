//! Seats of a table, for any table of harts: a seat of all harts is parted into one for each, and seats are
//! joined into one.

ghost use Rattle.std.specs.Prelude.{◌≡◌, ℕ, ◌<◌, ◌≤◌, ◌++◌};
ghost use Rattle.arrayvec.specs.ArrayVec.{array_vec_len};
ghost use Rattle.atomic_table.specs.Seated.{TableId};
ghost use Rattle.tallies.specs.Notes.{first_hart, other_harts, together, nobody};
ghost use Rattle.tallies.specs.Seats.{one_by_one, AreSeats, IsSeatIn, view_of_seat, harts_in, HasHarts, AreInOrder, harts_by_seat, all_harts};

use crate::view::SeatNotes;
use arrayvec::ArrayVec;
use atomic_table::{Join, Seat, Split};

/// A seat of some of the harts: the right to act as them. It takes no bytes, and may go to another thread.
pub type NotedSeat<S, D> = Seat<(), SeatNotes<S, D>>;

/// A seat for each hart of a board, in a list. A seat that is out with its hart leaves `None`.
pub type NotedSeats<S, D> = ArrayVec<Option<NotedSeat<S, D>>, 8>;

/// How a seat is parted and joined: its first hart by itself, and the others.
pub struct ByHart;

impl<S, D> Split<SeatNotes<S, D>> for ByHart {
    ghost left = { first_hart };

    ghost right = { other_harts };
}

impl<S, D> Join<SeatNotes<S, D>> for ByHart {
    ghost both = { together };

    ghost spent = { nobody };
}

/// A table of the harts of a board, 1 to 8, of which each seat has some.
pub trait SeatTable {
    /// Where a hart stands.
    type Stage;

    /// What a hart does to the table.
    type Action;

    ghost id: { Self → TableId };

    ghost count: { Self → ℕ };

    /// The number of harts, 1 to 8.
    fn harts(&self) -> u32
        ensures value { result ≡ count self.now }
        ensures range { (1 ≤ result) × (result ≤ 8) };

    /// The first hart of a seat by itself, and the others.
    fn split_first(
        &self,
        seat: NotedSeat<Self::Stage, Self::Action>,
    ) -> (
        NotedSeat<Self::Stage, Self::Action>,
        NotedSeat<Self::Stage, Self::Action>,
    )
        requires { IsSeatIn (id self.now) seat }
        ensures first { IsSeatIn (id self.now) result.0 × (view_of_seat result.0 ≡ first_hart (view_of_seat seat)) }
        ensures others { IsSeatIn (id self.now) result.1 × (view_of_seat result.1 ≡ other_harts (view_of_seat seat)) };

    /// Two seats in one, which has the harts of the first before those of the other.
    fn join_two(
        &self,
        seat: NotedSeat<Self::Stage, Self::Action>,
        others: NotedSeat<Self::Stage, Self::Action>,
    ) -> NotedSeat<Self::Stage, Self::Action>
        requires seat { IsSeatIn (id self.now) seat }
        requires others { IsSeatIn (id self.now) others }
        ensures seat { IsSeatIn (id self.now) result }
        ensures both { view_of_seat result ≡ together (view_of_seat seat) (view_of_seat others) };
}

/// A seat for each hart of a seat of all harts, in the order of their numbers.
pub fn split<T: SeatTable>(
    table: &T,
    seat: NotedSeat<T::Stage, T::Action>,
) -> NotedSeats<T::Stage, T::Action>
    requires seat { IsSeatIn (T.id table.now) seat }
    requires all { HasHarts (T.count table.now) seat }
    ensures seats { AreSeats (IsSeatIn (T.id table.now)) result.items }
    ensures order { AreInOrder result.items }
    ensures apart { harts_by_seat result.items ≡ one_by_one (harts_in seat) }
    ensures harts { all_harts result.items ≡ harts_in seat }
{
    let mut seats = ArrayVec::new();
    let mut rest = seat;
    for place in 0..table.harts() as usize {
        prove!(seats.len() == place);
        let (one, others) = table.split_first(rest);
        seats.push(Some(one));
        rest = others;
    }
    seats
}

/// The seats of a list in one, which has their harts in the order of the list. It undoes `split`: a seat for
/// each hart, in the order of their numbers, makes the seat of all harts again.
pub fn join<T: SeatTable>(
    table: &T,
    seats: NotedSeats<T::Stage, T::Action>,
) -> NotedSeat<T::Stage, T::Action>
    requires seats { AreSeats (IsSeatIn (T.id table.now)) seats.items }
    requires some { 0 < array_vec_len seats }
    ensures seat { IsSeatIn (T.id table.now) result }
    ensures harts { harts_in result ≡ all_harts seats.items }
    ensures all { AreInOrder seats.items → array_vec_len seats ≡ T.count table.now → HasHarts (T.count table.now) result }
{
    let mut seats = seats;
    let last = seats.pop().unwrap();
    let mut whole = last.unwrap();
    while let Some(before) = seats.pop() {
        whole = table.join_two(before.unwrap(), whole);
    }
    whole
}
