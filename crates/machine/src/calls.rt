//! A call that is made in the place of a hart.

ghost use Rattle.std.specs.Prelude.{◌≡◌, ◌<◌, ℕ, List};
ghost use Rattle.sbi_calls.specs.Both.{AreTablesOf, AreSeatsOfBoth, GivesBack};
ghost use Rattle.turns.specs.Turns.{Rests};
ghost use Rattle.machine.specs.Turns.{calling, MakesCallAlone};

use board_model::{CallWords, Shape};
use hart::{Hart, Outcome};
use hsm::State;
use rv_decode::Reg;
use sbi_calls::{Seats, Tables, Turned};

/// Sets the registers of a call, and leaves all else of the hart.
fn set_registers(hart: &mut Hart, call: CallWords)
    ensures { hart.new ≡ calling hart.old call }
{
    hart.put(Reg::new(10), call.a0);
    hart.put(Reg::new(11), call.a1);
    hart.put(Reg::new(12), call.a2);
    hart.put(Reg::new(16), call.fid);
    hart.put(Reg::new(17), call.eid);
}

/// Where the hart is STARTED, sets the registers and makes the call: what it comes to. Else nothing is done.
pub fn call_in_place(
    hart: &mut Hart,
    seats: Seats,
    tables: &Tables,
    shape: &Shape,
    call: CallWords,
) -> (Seats, Option<Turned>)
    requires tables { AreTablesOf shape.now tables.now }
    requires seats { AreSeatsOfBoth tables.now seats }
    requires hart { hart.old.id < shape.now.harts }
    requires rests { Rests hart.old.id seats }
    ensures gives { GivesBack tables.entry.now hart.old.id seats result.0 }
    ensures rests { Rests hart.old.id result.0 }
    ensures id { hart.new.id ≡ hart.old.id }
    ensures alone { (m : List ℕ)
        → MakesCallAlone shape.now hart.old
        (calling hart.old call) hart.new m seats result.0 result.1 }
{
    let by = hart.id();
    let Seats { harts, pending } = seats;
    let (harts, state) = hsm::status(&tables.harts, harts, by, by);
    let seats = Seats { harts, pending };
    match state {
        State::Started => {
            set_registers(hart, call);
            let (seats, turned) = turns::finish(Outcome::Ecall, hart, seats, tables, shape);
            (seats, Some(turned))
        }
        _ => (seats, None),
    }
}
