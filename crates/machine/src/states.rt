//! A look at the state of a hart.

ghost use Rattle.std.specs.Prelude.{◌≡◌, ◌<◌};
ghost use Rattle.hsm.specs.Calls.{KeepsAll, Sits};
ghost use Rattle.sbi_calls.specs.Both.{AreSeatsOfBoth, GivesBack, harts_of_both, views};
ghost use Rattle.machine.specs.Turns.{SeesAlone};

use board_model::HartId;
use hsm::State;
use sbi_calls::{Seats, Tables};

/// The state of the hart, by one look.
pub fn see(seats: Seats, tables: &Tables, by: HartId) -> (Seats, State)
    requires seats { AreSeatsOfBoth tables.now seats }
    requires by { by < harts_of_both tables.now }
    requires sits { Sits by (views seats) }
    ensures gives { GivesBack tables.entry.now by seats result.0 }
    ensures stays { KeepsAll (views seats) (views result.0) }
    ensures alone { SeesAlone (harts_of_both tables.entry.now) by seats result.0 result.1 }
{
    let Seats { harts, pending } = seats;
    let (harts, state) = hsm::status(&tables.harts, harts, by, by);
    (Seats { harts, pending }, state)
}
