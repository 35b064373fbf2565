//! Requests done by the hart table.
//! A law runs nothing, and tells the prover a fact: `hsm::seat_determines_states`.

ghost use Rattle.std.specs.Prelude.{◌≡◌, ◌<◌, Ok};
ghost use Rattle.hsm.specs.declared.view.Stage.TheVariants.{Running, Out, Suspended};
ghost use Rattle.sbi_calls.specs.declared.requests.Request.TheVariants.{Start, Stop, Status, Suspend, SuspendAfresh};
ghost use Rattle.sbi_calls.specs.declared.endings.Ending.TheVariants.{Stops, Suspends, SuspendsAfresh};
ghost use Rattle.sbi_calls.specs.Both.{AreSeatsOfBoth, GivesBack, Acts, harts_of_both, known};
ghost use Rattle.sbi_calls.specs.Answers.{DoesAlone};
ghost use Rattle.sbi_calls.specs.Steps.{Does};

use crate::endings::Ending;
use crate::tables::{Seats, Tables};
use board_model::{Addr, HartId};
use sbi_abi::SbiError;

/// `hart_start`, with its arguments checked: -6 where the target is not STOPPED.
pub(crate) fn start(
    seats: Seats,
    tables: &Tables,
    by: HartId,
    target: HartId,
    site: Addr,
    opaque: u64,
) -> (Seats, Ending)
    requires seats { AreSeatsOfBoth tables.now seats }
    requires acts { Acts by Running seats }
    requires target { target < harts_of_both tables.now }
    ensures gives { GivesBack tables.entry.now by seats result.0 }
    ensures acts { Acts by Running result.0 }
    ensures does { Does (harts_of_both tables.entry.now) by (Ok (Start target site opaque)) (known seats)
        (known result.0) result.1 }
    ensures alone { DoesAlone (harts_of_both tables.entry.now) by (Ok (Start target site opaque)) seats result.0
        result.1 }
{
    hsm::seat_determines_states();
    let Seats { harts, pending } = seats;
    let (harts, granted) = hsm::start(&tables.harts, harts, by, target, site, opaque);
    let seats = Seats { harts, pending };
    if granted {
        (seats, Ending::Answers(Ok(0)))
    } else {
        (seats, Ending::Answers(Err(SbiError::AlreadyAvailable)))
    }
}

/// `hart_get_status`, with its argument checked.
pub(crate) fn status(seats: Seats, tables: &Tables, by: HartId, target: HartId) -> (Seats, Ending)
    requires seats { AreSeatsOfBoth tables.now seats }
    requires acts { Acts by Running seats }
    requires target { target < harts_of_both tables.now }
    ensures gives { GivesBack tables.entry.now by seats result.0 }
    ensures acts { Acts by Running result.0 }
    ensures does { Does (harts_of_both tables.entry.now) by (Ok (Status target)) (known seats) (known result.0)
        result.1 }
    ensures alone { DoesAlone (harts_of_both tables.entry.now) by (Ok (Status target)) seats result.0 result.1 }
{
    let Seats { harts, pending } = seats;
    let (harts, state) = hsm::status(&tables.harts, harts, by, target);
    (Seats { harts, pending }, Ending::Answers(Ok(state.code())))
}

/// `hart_stop`.
pub(crate) fn stop(seats: Seats, tables: &Tables, by: HartId) -> (Seats, Ending)
    requires seats { AreSeatsOfBoth tables.now seats }
    requires acts { Acts by Running seats }
    requires by { by < harts_of_both tables.now }
    ensures gives { GivesBack tables.entry.now by seats result.0 }
    ensures acts { Acts by Out result.0 }
    ensures does { Does (harts_of_both tables.entry.now) by (Ok Stop) (known seats) (known result.0) result.1 }
    ensures ending { result.1 ≡ Stops }
    ensures alone { DoesAlone (harts_of_both tables.entry.now) by (Ok Stop) seats result.0 result.1 }
{
    hsm::seat_determines_states();
    let Seats { harts, pending } = seats;
    let harts = hsm::stop(&tables.harts, harts, by);
    (Seats { harts, pending }, Ending::Stops)
}

/// `hart_suspend`, with its arguments checked: the hart's one step.
pub(crate) fn suspend(seats: Seats, tables: &Tables, by: HartId) -> (Seats, Ending)
    requires seats { AreSeatsOfBoth tables.now seats }
    requires acts { Acts by Running seats }
    requires by { by < harts_of_both tables.now }
    ensures gives { GivesBack tables.entry.now by seats result.0 }
    ensures acts { Acts by Suspended result.0 }
    ensures does { Does (harts_of_both tables.entry.now) by (Ok Suspend) (known seats) (known result.0) result.1 }
    ensures ending { result.1 ≡ Suspends }
    ensures alone { DoesAlone (harts_of_both tables.entry.now) by (Ok Suspend) seats result.0 result.1 }
{
    hsm::seat_determines_states();
    let Seats { harts, pending } = seats;
    let harts = hsm::suspend(&tables.harts, harts, by);
    (Seats { harts, pending }, Ending::Suspends)
}

/// `hart_suspend` of the non-retentive type, with its arguments checked.
pub(crate) fn suspend_afresh(
    seats: Seats,
    tables: &Tables,
    by: HartId,
    site: Addr,
    opaque: u64,
) -> (Seats, Ending)
    requires seats { AreSeatsOfBoth tables.now seats }
    requires acts { Acts by Running seats }
    requires by { by < harts_of_both tables.now }
    ensures gives { GivesBack tables.entry.now by seats result.0 }
    ensures acts { Acts by Suspended result.0 }
    ensures does { Does (harts_of_both tables.entry.now) by (Ok (SuspendAfresh site opaque)) (known seats)
        (known result.0) result.1 }
    ensures ending { result.1 ≡ SuspendsAfresh site opaque }
    ensures alone { DoesAlone (harts_of_both tables.entry.now) by (Ok (SuspendAfresh site opaque)) seats result.0
        result.1 }
{
    let (seats, _) = suspend(seats, tables, by);
    (seats, Ending::SuspendsAfresh(site, opaque))
}
