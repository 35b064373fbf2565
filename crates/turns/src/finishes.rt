//! What comes after the step of a turn.

ghost use Rattle.std.specs.Prelude.{◌≡◌, ◌<◌};
ghost use Rattle.hsm.specs.declared.view.Stage.TheVariants.{Running};
ghost use Rattle.sbi_calls.specs.Both.{AreTablesOf, AreSeatsOfBoth, GivesBack, Acts, known};
ghost use Rattle.turns.specs.Own.{FinishesOwn};
ghost use Rattle.turns.specs.Turns.{Rests, FinishesAlone};

use crate::begins::take;
use board_model::Shape;
use hart::{Hart, Outcome};
use sbi_calls::{Did, Seats, Tables, Turned, dispatch};

/// What comes after the step: the call at which the hart stands is dispatched, and what the hart took is
/// taken.
#[inline(always)]
pub fn finish(
    outcome: Outcome,
    hart: &mut Hart,
    seats: Seats,
    tables: &Tables,
    shape: &Shape,
) -> (Seats, Turned)
    requires tables { AreTablesOf shape.now tables.now }
    requires seats { AreSeatsOfBoth tables.now seats }
    requires hart { hart.old.id < shape.now.harts }
    requires acts { Acts hart.old.id Running seats }
    ensures gives { GivesBack tables.entry.now hart.old.id seats result.0 }
    ensures rests { Rests hart.old.id result.0 }
    ensures id { hart.new.id ≡ hart.old.id }
    ensures own { FinishesOwn shape.now outcome hart.old hart.new (known seats) (known result.0) result.1 }
    ensures alone { FinishesAlone shape.now outcome hart.old hart.new seats result.0 result.1 }
{
    match outcome {
        Outcome::Next => (seats, Turned::Made(Did::Next)),
        Outcome::TakePending => (take(seats, tables, hart.id()), Turned::Made(Did::Next)),
        Outcome::Ecall => dispatch(hart, seats, tables, shape),
    }
}
