//! Many harts raise and take at once.

ghost use Rattle.std.specs.Prelude.{◌≡◌, ℕ, ◌<◌, ◌≤◌, ◌+◌, length};
ghost use denote.Param.Send.{IsSync};
ghost use Rattle.ipi.specs.Pairs.{Sits, SameHarts};
ghost use Rattle.ipi.specs.Seating.{IsSeatOf, harts_of, pending_view_of_seat, pending_views_in};
ghost use Rattle.tests.specs.Crowd.{AreFrom};

use board_model::{HartId, HartSet};
use ipi::{IpiSeat, PendingTable, SeatTable};
use std::thread::{Threads, join};

/// How many pairs were newly set, and how many senders were taken.
#[derive(Drop)]
pub struct Sums {
    pub raised: u64,
    pub taken: u64,
}

impl Sums {
    fn plus(self, other: Sums) -> Sums {
        Sums {
            raised: self.raised.wrapping_add(other.raised),
            taken: self.taken.wrapping_add(other.taken),
        }
    }
}

/// How many harts are in the set.
pub fn count(senders: HartSet) -> u64 {
    let mut found = 0u64;
    for number in 0..8 {
        let sender = HartId::new(number).unwrap();
        found = found.wrapping_add(u64::from(senders.contains(sender)));
    }
    found
}

/// One hart raises for every hart in turn, and takes what is pending for itself.
pub fn one_hart(table: &PendingTable, seat: IpiSeat, by: HartId, rounds: u64) -> (IpiSeat, Sums)
    requires seat { IsSeatOf table.now seat }
    requires acts { Sits by (pending_view_of_seat seat) }
    requires by { by < harts_of table.now }
    ensures seat { IsSeatOf table.entry.now result.0 }
    ensures harts { SameHarts (pending_view_of_seat seat) (pending_view_of_seat result.0) }
{
    let mut seat = seat;
    let mut sums = Sums {
        raised: 0,
        taken: 0,
    };
    let harts = table.harts() as u64;
    for round in 0..rounds {
        let target = HartId::new(round % harts).unwrap();
        let (after_raise, newly) = table.raise(seat, by, target);
        let (after_take, senders) = table.take(after_raise, by);
        seat = after_take;
        sums = sums.plus(Sums {
            raised: u64::from(newly),
            taken: count(senders),
        });
    }
    (seat, sums)
}

/// Each hart of the seat in a thread of its own.
pub fn all_harts<R: Threads + Sync>(
    rt: &R,
    table: &PendingTable,
    seat: IpiSeat,
    first: u64,
    harts: u64,
    rounds: u64,
) -> (IpiSeat, Sums)
    requires seat { IsSeatOf table.now seat }
    requires row { AreFrom first (pending_views_in seat) × (length (pending_views_in seat) ≡ harts) × (0 < harts)
        × (first + harts ≤ harts_of table.now) × (first + harts ≤ 8) }
    ensures seat { IsSeatOf table.entry.now result.0 }
    ensures harts { SameHarts (pending_view_of_seat seat) (pending_view_of_seat result.0) }
{
    let by = HartId::new(first).unwrap();
    if harts == 1 {
        return one_hart(table, seat, by, rounds);
    }
    let (one, others) = table.split_first(seat);
    let ((one, sums), (others, more)) = join(
        rt,
        move || -> (IpiSeat, Sums)
            requires { IsSeatOf table.now one × Sits by (pending_view_of_seat one) × (by < harts_of table.now) }
            ensures { IsSeatOf table.entry.now result.0
                × SameHarts (pending_view_of_seat one) (pending_view_of_seat result.0) }
        { one_hart(table, one, by, rounds) },
        move || -> (IpiSeat, Sums)
            requires { IsSync R.row × IsSeatOf table.now others × AreFrom (first + 1) (pending_views_in others)
                × (length (pending_views_in others) + 1 ≡ harts) × (1 < harts) × (first + harts ≤ harts_of table.now)
                × (first + harts ≤ 8) }
            ensures { IsSeatOf table.entry.now result.0
                × SameHarts (pending_view_of_seat others) (pending_view_of_seat result.0) }
        { all_harts(rt, table, others, first + 1, harts - 1, rounds) },
    );
    (table.join_two(one, others), sums.plus(more))
}

/// The harts of a seat of all harts take what is left, one after another.
pub fn take_all(table: &PendingTable, seat: IpiSeat) -> (IpiSeat, u64)
    requires seat { IsSeatOf table.now seat }
    requires all { (h : ℕ) → h < harts_of table.now → Sits h (pending_view_of_seat seat) }
{
    let mut seat = seat;
    let mut taken = 0u64;
    for number in 0..table.harts() as u64 {
        let by = HartId::new(number).unwrap();
        let (after, senders) = table.take(seat, by);
        seat = after;
        taken = taken.wrapping_add(count(senders));
    }
    (seat, taken)
}
