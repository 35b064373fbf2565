//! The dispatch of SBI calls.

ghost use Rattle.std.specs.Prelude.{◌≡◌, ◌<◌, Ok};
ghost use Rattle.hsm.specs.declared.view.Stage.TheVariants.{Running};
ghost use Rattle.sbi_calls.specs.Requests.{IsWithin};
ghost use Rattle.sbi_calls.specs.Answers.{stage_of_ending, DoesAlone, CallsAlone};
ghost use Rattle.sbi_calls.specs.Steps.{Does, Calls};
ghost use Rattle.sbi_calls.specs.Words.{stage_by};
ghost use Rattle.sbi_calls.specs.Both.{AreTablesOf, AreSeatsOfBoth, GivesBack, Acts, harts_of_both, known};

use crate::endings::{Ending, end};
use crate::requests::{Request, request_of};
use crate::sends::send;
use crate::serves::{start, status, stop, suspend, suspend_afresh};
use crate::tables::{Seats, Tables};
use crate::words::Turned;
use board_model::{HartId, Shape};
use hart::Hart;
use sbi_abi::{Call, SbiError};

/// Does a request, by the tables.
fn do_request(seats: Seats, tables: &Tables, by: HartId, request: Request) -> (Seats, Ending)
    requires seats { AreSeatsOfBoth tables.now seats }
    requires acts { Acts by Running seats }
    requires by { by < harts_of_both tables.now }
    requires within { IsWithin (harts_of_both tables.now) (Ok request) }
    ensures gives { GivesBack tables.entry.now by seats result.0 }
    ensures acts { Acts by (stage_of_ending result.1) result.0 }
    ensures does { Does (harts_of_both tables.entry.now) by (Ok request) (known seats) (known result.0) result.1 }
    ensures alone { DoesAlone (harts_of_both tables.entry.now) by (Ok request) seats result.0 result.1 }
{
    match request {
        Request::Value(value) => (seats, Ending::Answers(Ok(value))),
        Request::Start(target, site, opaque) => start(seats, tables, by, target, site, opaque),
        Request::Stop => stop(seats, tables, by),
        Request::Status(target) => status(seats, tables, by, target),
        Request::Suspend => suspend(seats, tables, by),
        Request::SuspendAfresh(site, opaque) => suspend_afresh(seats, tables, by, site, opaque),
        Request::Send(targets) => send(seats, tables, by, targets),
        Request::Command => (seats, Ending::Defers),
    }
}

/// Does what the call asks for, by the tables.
fn serve(
    seats: Seats,
    tables: &Tables,
    by: HartId,
    asked: Result<Request, SbiError>,
) -> (Seats, Ending)
    requires seats { AreSeatsOfBoth tables.now seats }
    requires acts { Acts by Running seats }
    requires by { by < harts_of_both tables.now }
    requires within { IsWithin (harts_of_both tables.now) asked }
    ensures gives { GivesBack tables.entry.now by seats result.0 }
    ensures acts { Acts by (stage_of_ending result.1) result.0 }
    ensures does { Does (harts_of_both tables.entry.now) by asked (known seats) (known result.0) result.1 }
    ensures alone { DoesAlone (harts_of_both tables.entry.now) by asked seats result.0 result.1 }
{
    match asked {
        Err(error) => (seats, Ending::Answers(Err(error))),
        Ok(request) => do_request(seats, tables, by, request),
    }
}

/// Answers the SBI call at which a hart stands, by the tables (docs/SBI.md). The hart is STARTED and not
/// quiet, and is one of the seats. A call that comes to a durable command is told so, with nothing changed.
pub fn dispatch(hart: &mut Hart, seats: Seats, tables: &Tables, shape: &Shape) -> (Seats, Turned)
    requires tables { AreTablesOf shape.now tables.now }
    requires seats { AreSeatsOfBoth tables.now seats }
    requires acts { Acts hart.old.id Running seats }
    requires hart { hart.old.id < shape.now.harts }
    ensures gives { GivesBack tables.entry.now hart.old.id seats result.0 }
    ensures acts { Acts hart.old.id (stage_by result.1) result.0 }
    ensures id { hart.new.id ≡ hart.old.id }
    ensures calls { Calls shape.now hart.old hart.new (known seats) (known result.0) result.1 }
    ensures alone { CallsAlone shape.now hart.old hart.new seats result.0 result.1 }
{
    let by = hart.id();
    let asked = request_of(Call::of(hart), shape);
    let (seats, ending) = serve(seats, tables, by, asked);
    (seats, end(hart, ending))
}
