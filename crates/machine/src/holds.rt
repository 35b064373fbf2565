//! A call that comes to a durable command, with the one seat of all harts.

ghost use Rattle.std.specs.Prelude.{◌≡◌, ◌<◌, ℕ};
ghost use Rattle.hsm.specs.declared.view.Stage.TheVariants.{Running};
ghost use Rattle.sbi_abi.specs.Calls.{call_of};
ghost use Rattle.sbi_calls.specs.Both.{TableState, IsTable, AreSeatsOfBoth, GivesBack, Acts, harts_of_both};
ghost use Rattle.sbi.specs.Helds.{HeldAlone};
ghost use Rattle.sbi.specs.Words.{stage_told};
ghost use Rattle.machine.specs.Held.{stage_left};

use board_model::HartId;
use crew::Crew;
use disk::Disk;
use hart::Hart;
use sbi::{LifeEnd, Word, dispatch_held};
use sbi_calls::{Seats, Tables};
use store::{Saving, Store};
use susp::Bus;

/// Ends the quiet of a hart whose board sleeps to its disk, so that each hart of the seats is at rest. That
/// life is over, and none of them acts any more. The quiet of a hart that dozes lasts until it is resumed.
fn end_quiet(seats: Seats, tables: &Tables, by: HartId, word: Word) -> Seats
    requires seats { AreSeatsOfBoth tables.now seats }
    requires acts { Acts by (stage_told word) seats }
    ensures gives { GivesBack tables.entry.now by seats result }
    ensures acts { Acts by (stage_left word) result }
    ensures alone { (x : TableState) → IsTable (harts_of_both tables.entry.now) seats x
        → IsTable (harts_of_both tables.entry.now) result x }
{
    match word {
        Word::Goes(_) | Word::Over(LifeEnd::Reset(_)) => seats,
        Word::Over(LifeEnd::Asleep) => {
            let Seats { harts, pending } = seats;
            let harts = hsm::unquiet(&tables.harts, harts, by);
            Seats { harts, pending }
        }
    }
}

/// Makes the durable call at which a STARTED hart stands. Whatever comes of it, the seats are at rest after
/// it, but for the hart of a doze, which is quiet.
pub fn make_held<D: Disk + Drop, C: Crew>(
    saving: Saving<'_, C>,
    hart: &mut Hart,
    seats: Seats,
    tables: &Tables,
    bus: &mut Bus,
    store: &mut Store<D>,
) -> (Seats, Word)
    requires seats { AreSeatsOfBoth tables.now seats }
    requires hart { hart.old.id < harts_of_both tables.now }
    requires acts { Acts hart.old.id Running seats }
    ensures gives { GivesBack tables.entry.now hart.old.id seats result.0 }
    ensures acts { Acts hart.old.id (stage_left result.1) result.0 }
    ensures id { hart.new.id ≡ hart.old.id }
    ensures alone { HeldAlone (harts_of_both tables.entry.now) (call_of hart.old) hart.old hart.new seats
        result.0 bus.old bus.new store.old store.new result.1 }
{
    let by = hart.id();
    let (seats, word) = dispatch_held(saving, hart, seats, tables, bus, store);
    (end_quiet(seats, tables, by, word), word)
}
