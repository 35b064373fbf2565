//! Interrupts to a set of harts.
//! A law runs nothing, and tells the prover a fact: `ipi::seat_determines_pairs`.

ghost use Rattle.std.specs.Prelude.{◌≡◌, ◌<◌, ◌≤◌, ℕ, Ok, List, Bool};
ghost use Rattle.ipi.specs.Pairs.{Sits, SameHarts};
ghost use Rattle.ipi.specs.Seating.{IsSeatOf, harts_of, pending_view_of_seat, pending_views_in};
ghost use Rattle.ipi.specs.Views.{ArePairs};
ghost use Rattle.hsm.specs.declared.view.Stage.TheVariants.{Running};
ghost use Rattle.sbi_calls.specs.declared.requests.Request.TheVariants.{Send};
ghost use Rattle.sbi_calls.specs.Both.{AreSeatsOfBoth, GivesBack, Acts, harts_of_both as hart_count, known};
ghost use Rattle.sbi_calls.specs.Answers.{DoesAlone, pairs_to, pairs_sent};
ghost use Rattle.sbi_calls.specs.Steps.{Does, Sends, SendsTo};

use crate::endings::Ending;
use crate::tables::{Seats, Tables};
use board_model::{HartId, HartSet};
use ipi::{IpiSeat, SeatTable};

/// Raises an interrupt of the acting hart for the target, where it is of the set.
fn send_one(
    pending: IpiSeat,
    tables: &Tables,
    by: HartId,
    targets: HartSet,
    target: HartId,
) -> IpiSeat
    requires seat { IsSeatOf tables.now.pending pending }
    requires sits { Sits by (pending_view_of_seat pending) }
    requires by { by < harts_of tables.now.pending }
    requires target { target < harts_of tables.now.pending }
    ensures seat { IsSeatOf tables.entry.now.pending result }
    ensures same { SameHarts (pending_view_of_seat pending) (pending_view_of_seat result) }
    ensures sends { SendsTo by targets target (pending_views_in pending) (pending_views_in result) }
    ensures alone { (pairs : List (List Bool))
        → ArePairs (harts_of tables.entry.now.pending) (pending_view_of_seat pending) pairs
        → ArePairs (harts_of tables.entry.now.pending) (pending_view_of_seat result)
        (pairs_to by targets target pairs) }
{
    ipi::seat_determines_pairs();
    if targets.contains(target) {
        let raised = tables.pending.raise(pending, by, target);
        raised.0
    } else {
        pending
    }
}

/// Raises an interrupt of the acting hart for each of the targets, one step for each, in rising order.
fn send_all(pending: IpiSeat, tables: &Tables, by: HartId, targets: HartSet) -> IpiSeat
    requires seat { IsSeatOf tables.now.pending pending }
    requires sits { Sits by (pending_view_of_seat pending) }
    requires by { by < harts_of tables.now.pending }
    ensures seat { IsSeatOf tables.entry.now.pending result }
    ensures same { SameHarts (pending_view_of_seat pending) (pending_view_of_seat result) }
    ensures sends { Sends by targets (harts_of tables.entry.now.pending) (pending_views_in pending)
        (pending_views_in result) }
    ensures alone { (pairs : List (List Bool))
        → ArePairs (harts_of tables.entry.now.pending) (pending_view_of_seat pending) pairs
        → ArePairs (harts_of tables.entry.now.pending) (pending_view_of_seat result) (pairs_sent by targets pairs) }
{
    let mut pending = pending;
    let count = u64::from(tables.pending.harts());
    for number in 0..count {
        let target = HartId::new(number).unwrap();
        pending = send_one(pending, tables, by, targets, target);
    }
    pending
}

/// `send_ipi`, with its mask checked.
pub(crate) fn send(seats: Seats, tables: &Tables, by: HartId, targets: HartSet) -> (Seats, Ending)
    requires seats { AreSeatsOfBoth tables.now seats }
    requires acts { Acts by Running seats }
    requires by { by < hart_count tables.now }
    ensures gives { GivesBack tables.entry.now by seats result.0 }
    ensures acts { Acts by Running result.0 }
    ensures does { Does (hart_count tables.entry.now) by (Ok (Send targets)) (known seats) (known result.0) result.1 }
    ensures alone { DoesAlone (hart_count tables.entry.now) by (Ok (Send targets)) seats result.0 result.1 }
{
    let Seats { harts, pending } = seats;
    let pending = send_all(pending, tables, by, targets);
    (Seats { harts, pending }, Ending::Answers(Ok(0)))
}
