//! What comes before the step of a turn.
//! A law runs nothing, and tells the prover a fact: `ipi::seat_determines_pairs`, `hsm::seat_determines_states`.

ghost use Rattle.std.specs.Prelude.{◌≡◌, ◌<◌, ℕ, List};
ghost use Rattle.hsm.specs.declared.view.Stage.TheVariants.{Out, Running, Suspended};
ghost use Rattle.ipi.specs.Pairs.{Sits};
ghost use Rattle.sbi_calls.specs.Both.{AreSeatsOfBoth, GivesBack, Acts, harts_of_both, known, pair_crew};
ghost use Rattle.turns.specs.Turns.{Rests, RestsAs, BeginsAlone, LooksAlone, TakesAlone, EntersAlone, WakesAlone};
ghost use Rattle.turns.specs.Own.{LooksOwn, TakesOwn, EntersOwn, WakesOwn, BeginsOwn, places_of};
ghost use Rattle.turns.specs.Entries.{EntersTaken, EntersTakenAlone};

use crate::readies::Ready;
use board_model::HartId;
use hsm::State;
use sbi_calls::{Seats, Tables};

/// Whether an interrupt is pending for the hart, by one look.
#[inline(always)]
pub fn look(seats: Seats, tables: &Tables, by: HartId) -> (Seats, bool)
    requires seats { AreSeatsOfBoth tables.now seats }
    requires by { by < harts_of_both tables.now }
    requires sits { Sits by (pair_crew seats) }
    ensures gives { GivesBack tables.entry.now by seats result.0 }
    ensures harts { result.0.harts ≡ seats.harts }
    ensures own { LooksOwn by (known seats) (known result.0) result.1 }
    ensures alone { LooksAlone (harts_of_both tables.entry.now) by seats result.0 result.1 }
{
    let Seats { harts, pending } = seats;
    let (pending, is) = tables.pending.pending(pending, by);
    (Seats { harts, pending }, is)
}

/// Takes what is pending for the hart, in one step.
pub(crate) fn take(seats: Seats, tables: &Tables, by: HartId) -> Seats
    requires seats { AreSeatsOfBoth tables.now seats }
    requires by { by < harts_of_both tables.now }
    requires sits { Sits by (pair_crew seats) }
    ensures gives { GivesBack tables.entry.now by seats result }
    ensures harts { result.harts ≡ seats.harts }
    ensures own { TakesOwn by (known seats) (known result) }
    ensures alone { TakesAlone (harts_of_both tables.entry.now) by seats result }
{
    ipi::seat_determines_pairs();
    let Seats { harts, pending } = seats;
    let (pending, _) = tables.pending.take(pending, by);
    Seats { harts, pending }
}

/// Enters where the start of the hart is armed, and notes what the hart had done to pending interrupts by then.
fn enter_taken(seats: Seats, tables: &Tables, by: HartId) -> (Seats, Ready)
    ghost beside: { List ℕ }
    requires seats { AreSeatsOfBoth tables.now seats }
    requires by { by < harts_of_both tables.now }
    requires acts { Acts by Out seats }
    requires beside { beside ≡ places_of by (known seats).pairs }
    ensures gives { GivesBack tables.entry.now by seats result.0 }
    ensures rests { RestsAs by result.1 result.0 }
    ensures own { EntersTaken by (known seats) (known result.0) result.1 }
    ensures alone { EntersTakenAlone (harts_of_both tables.entry.now) by seats result.0 result.1 }
{
    hsm::seat_determines_states();
    let Seats { harts, pending } = seats;
    let (harts, entry) = hsm::try_enter_beside(&tables.harts, harts, by);
    let seats = Seats { harts, pending };
    match entry {
        None => (seats, Ready::Idle),
        Some(start) => (seats, Ready::Enters(start.0, start.1)),
    }
}

/// Takes what is pending for the hart, which is START_PENDING, and then enters where its start is armed. So what is sent to it
/// once it is STARTED stays pending.
fn enter(seats: Seats, tables: &Tables, by: HartId) -> (Seats, Ready)
    requires seats { AreSeatsOfBoth tables.now seats }
    requires by { by < harts_of_both tables.now }
    requires acts { Acts by Out seats }
    ensures gives { GivesBack tables.entry.now by seats result.0 }
    ensures rests { RestsAs by result.1 result.0 }
    ensures own { EntersOwn by (known seats) (known result.0) result.1 }
    ensures alone { EntersAlone (harts_of_both tables.entry.now) by seats result.0 result.1 }
{
    let seats = take(seats, tables, by);
    enter_taken(seats, tables, by)
}

/// Wakes the suspended hart where an interrupt is pending for it, which stays.
fn wake(seats: Seats, tables: &Tables, by: HartId) -> (Seats, Ready)
    requires seats { AreSeatsOfBoth tables.now seats }
    requires by { by < harts_of_both tables.now }
    requires acts { Acts by Suspended seats }
    ensures gives { GivesBack tables.entry.now by seats result.0 }
    ensures rests { RestsAs by result.1 result.0 }
    ensures own { WakesOwn by (known seats) (known result.0) result.1 }
    ensures alone { WakesAlone (harts_of_both tables.entry.now) by seats result.0 result.1 }
{
    hsm::seat_determines_states();
    let (seats, wakes) = look(seats, tables, by);
    if wakes {
        let Seats { harts, pending } = seats;
        let harts = hsm::wake(&tables.harts, harts, by);
        (Seats { harts, pending }, Ready::Woke)
    } else {
        (seats, Ready::Idle)
    }
}

/// What a turn of the hart comes to before the step, by one look at its own state: a STOPPED hart is idle;
/// one that is START_PENDING takes what is pending, and enters where its start is armed; a suspended one wakes where an interrupt is
/// pending for it; a STARTED one makes a step, for which one more look says whether an interrupt is pending.
#[inline(always)]
pub fn begin(seats: Seats, tables: &Tables, by: HartId) -> (Seats, Ready)
    requires seats { AreSeatsOfBoth tables.now seats }
    requires by { by < harts_of_both tables.now }
    requires rests { Rests by seats }
    ensures gives { GivesBack tables.entry.now by seats result.0 }
    ensures rests { RestsAs by result.1 result.0 }
    ensures own { BeginsOwn by (known seats) (known result.0) result.1 }
    ensures alone { BeginsAlone (harts_of_both tables.entry.now) by seats result.0 result.1 }
{
    let Seats { harts, pending } = seats;
    let (harts, state) = hsm::status(&tables.harts, harts, by, by);
    let seats = Seats { harts, pending };
    match state {
        State::Started => {
            let (seats, pending) = look(seats, tables, by);
            (seats, Ready::Steps(pending))
        }
        State::Suspended => wake(seats, tables, by),
        State::Stopped => (seats, Ready::Idle),
        State::StartPending => enter(seats, tables, by),
    }
}
