//! A hart that dozed begins again.
//! A law runs nothing, and tells the prover a fact: `hsm::seat_determines_states`.

ghost use Rattle.std.specs.Prelude.{◌≡◌, ◌<◌};
ghost use Rattle.hart.specs.State.{started};
ghost use Rattle.hsm.specs.declared.view.Stage.TheVariants.{Running, Quiet};
ghost use Rattle.sbi_calls.specs.Both.{AreSeatsOfBoth, GivesBack, Acts, harts_of_both, known};
ghost use Rattle.turns.specs.Own.{ResumesOwn};
ghost use Rattle.turns.specs.Turns.{TakesAlone};

use crate::begins::take;
use board_model::Addr;
use hart::Hart;
use sbi_calls::{Seats, Tables};

/// A hart in whose doze the board was begins again at the address with the opaque value, as a started hart
/// does: what is pending for it is taken, and its quiet ends. What is pending for other harts stays.
pub fn resume(hart: &mut Hart, seats: Seats, tables: &Tables, site: Addr, opaque: u64) -> Seats
    requires seats { AreSeatsOfBoth tables.now seats }
    requires hart { hart.old.id < harts_of_both tables.now }
    requires quiet { Acts hart.old.id Quiet seats }
    ensures gives { GivesBack tables.entry.now hart.old.id seats result }
    ensures acts { Acts hart.old.id Running result }
    ensures hart { hart.new ≡ started hart.old.id site opaque }
    ensures own { ResumesOwn hart.old.id (known seats) (known result) }
    ensures alone { TakesAlone (harts_of_both tables.entry.now) hart.old.id seats result }
{
    hsm::seat_determines_states();
    let by = hart.id();
    let seats = take(seats, tables, by);
    let Seats { harts, pending } = seats;
    let harts = hsm::unquiet(&tables.harts, harts, by);
    *hart = Hart::fresh(by, site.value(), opaque);
    Seats { harts, pending }
}
