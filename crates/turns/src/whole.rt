//! A whole turn.
//! A law runs nothing, and tells the prover a fact: `hart::step_keeps_number`.

ghost use Rattle.std.specs.Prelude.{◌≡◌, ◌<◌, ℕ, List};
ghost use Rattle.hsm.specs.declared.view.Stage.TheVariants.{Running};
ghost use Rattle.sbi_calls.specs.Both.{AreTablesOf, AreSeatsOfBoth, GivesBack, Acts, known};
ghost use Rattle.turns.specs.Own.{StepsIf, TurnOwn};
ghost use Rattle.turns.specs.Turns.{Rests, TurnsAlone};
ghost use Rattle.sbi_calls.specs.declared.words.Turned.TheVariants.{Durable};

use crate::begins::begin;
use crate::buses::MemoryBus;
use crate::finishes::finish;
use crate::readies::Ready;
use board_model::Shape;
use hart::Hart;
use ram::Ram;
use sbi_calls::{Did, Seats, Tables, Turned};

/// One turn of a hart, wherever its step finds the memory. The bus is asked for a step of a STARTED hart
/// alone.
#[inline(always)]
pub fn turn_by_bus<B: MemoryBus>(
    hart: &mut Hart,
    seats: Seats,
    tables: &Tables,
    bus: &mut B,
    shape: &Shape,
) -> (Seats, Turned)
    requires tables { AreTablesOf shape.now tables.now }
    requires seats { AreSeatsOfBoth tables.now seats }
    requires hart { hart.old.id < shape.now.harts }
    requires rests { Rests hart.old.id seats }
    ensures gives { GivesBack tables.entry.now hart.old.id seats result.0 }
    ensures rests { Rests hart.old.id result.0 }
    ensures id { hart.new.id ≡ hart.old.id }
    ensures asks { result.1 ≡ Durable → Acts hart.old.id Running result.0 }
    ensures turns { (found : List ℕ) × (left : List ℕ)
        × (own : TurnOwn shape.now hart.old found hart.new left (known seats) (known result.0) result.1)
        × StepsIf own.0 (B.stepped bus.old bus.new found left) (B.may_hold bus.old found × (bus.new ≡ bus.old))
        × TurnsAlone shape.now hart.old found hart.new left seats result.0 result.1 }
{
    let (seats, ready) = begin(seats, tables, hart.id());
    match ready {
        Ready::Idle => (seats, Turned::Made(Did::Idle)),
        Ready::Woke => (seats, Turned::Made(Did::Woke)),
        Ready::Enters(address, opaque) => {
            *hart = Hart::fresh(hart.id(), address.value(), opaque);
            (seats, Turned::Made(Did::Entered))
        }
        Ready::Steps(pending) => {
            let outcome = bus.step(hart, pending);
            hart::step_keeps_number();
            finish(outcome, hart, seats, tables, shape)
        }
    }
}

/// One turn of a hart, where the memory is at hand.
pub fn turn(
    hart: &mut Hart,
    seats: Seats,
    tables: &Tables,
    ram: &mut Ram,
    shape: &Shape,
) -> (Seats, Turned)
    requires tables { AreTablesOf shape.now tables.now }
    requires seats { AreSeatsOfBoth tables.now seats }
    requires hart { hart.old.id < shape.now.harts }
    requires rests { Rests hart.old.id seats }
    ensures gives { GivesBack tables.entry.now hart.old.id seats result.0 }
    ensures rests { Rests hart.old.id result.0 }
    ensures id { hart.new.id ≡ hart.old.id }
    ensures own { TurnOwn shape.now hart.old ram.old hart.new ram.new (known seats) (known result.0) result.1 }
    ensures alone { TurnsAlone shape.now hart.old ram.old hart.new ram.new seats result.0 result.1 }
{
    turn_by_bus(hart, seats, tables, ram, shape)
}
