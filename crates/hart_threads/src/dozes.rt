//! A hart in whose doze its board is: it looks at the bus, and begins again once the board was woken.

ghost use Rattle.std.specs.Prelude.{◌≡◌, ◌<◌, Some};
ghost use Rattle.hsm.specs.declared.view.Stage.TheVariants.{Quiet};
ghost use Rattle.sbi_calls.specs.Both.{AreSeatsOfBoth, GivesBack, Acts, harts_of_both, known};
ghost use Rattle.hart_threads.specs.Looks.{doze_by};
ghost use Rattle.hart_threads.specs.Seated.{StandsAfterTurn};
ghost use Rattle.hart_threads.specs.Threads.{seated, LookOnce};

use crate::bus_turns::BusPart;
use crate::buses::SharedBus;
use hart::Hart;
use sbi::{Did, Word};
use sbi_calls::{Seats, Tables};
use std::marker::Brand;
use susp::Doze;
use tallies::Journal;
use turns::resume;

/// The doze of which a hart keeps a copy once a durable call of it was made, by the doze that the bus then has.
pub(crate) fn doze_by(word: Word, found: Option<Doze>) -> Option<Doze>
    ensures { result ≡ doze_by word found }
{
    match word {
        Word::Goes(did) if did.is_doze() => found,
        Word::Goes(_) | Word::Over(_) => None,
    }
}

/// A turn of a hart in whose doze the board is, with the bus at hand: nothing, until the board was woken; then the hart
/// begins again at the address of its own copy of the doze with that opaque value, what is pending for it is taken, its
/// quiet ends, and the board dozes no more. The memory stays. The look is noted in the hart's part of the history of the bus.
pub(crate) fn doze_turn<J: Journal>(
    bus: &mut SharedBus<J>,
    hart: &mut Hart,
    seats: Seats,
    tables: &Tables,
    doze: Doze,
    part: BusPart<J>,
) -> (Seats, Word, Option<Doze>, BusPart<J>)
    requires seats { AreSeatsOfBoth tables.now seats }
    requires hart { hart.old.id < harts_of_both tables.now }
    requires quiet { Acts hart.old.id Quiet seats }
    ensures gives { GivesBack tables.entry.now hart.old.id seats result.0 }
    ensures stands { StandsAfterTurn result.1 result.2 hart.old.id result.0 }
    ensures id { hart.new.id ≡ hart.old.id }
    ensures once { LookOnce doze (seated hart.old (known seats) (Some doze) part)
        (seated hart.new (known result.0) result.2 result.3) result.1 }
{
    let (woken, part) = bus.end_doze::<Brand>(&seats, tables, hart.id(), part);
    if !woken {
        return (seats, Word::Goes(Did::Idle), Some(doze), part);
    }
    let address = doze.at.address;
    let opaque = doze.at.opaque;
    let seats = resume(hart, seats, tables, address, opaque);
    (seats, Word::Goes(Did::Resumed), None, part)
}
