//! Calls that come to a durable command are made.

ghost use Rattle.std.specs.Prelude.{◌≡◌, ◌<◌};
ghost use Rattle.hsm.specs.declared.view.Stage.TheVariants.{Running};
ghost use Rattle.sbi_abi.specs.Calls.{call_of};
ghost use Rattle.sbi_calls.specs.Both.{AreSeatsOfBoth, GivesBack, Acts, harts_of_both, known};
ghost use Rattle.sbi.specs.Resets.{reset_of};
ghost use Rattle.sbi.specs.Words.{stage_told};
ghost use Rattle.sbi.specs.Helds.{Refuses, EndsSleep, MakesReset, MakesSleep, MakesHeld, SleptAlone, HeldAlone};

use crate::resets::reset_of;
use crate::words::{LifeEnd, Word};
use board_model::Command;
use crew::Crew;
use disk::Disk;
use hart::Hart;
use sbi_abi::{Call, SbiError, put};
use sbi_calls::{Did, Seats, Tables};
use store::{Saving, Store};
use susp::{Bus, Sleep, SuspendWords};

/// Answers the call with an error.
fn refuse(hart: &mut Hart, error: SbiError) -> Word
    ensures { Refuses error hart.old hart.new result }
{
    put(hart, Err(error));
    Word::Goes(Did::Next)
}

/// `system_reset`: -1 where the store refuses.
fn reset<D: Disk + Drop>(hart: &mut Hart, store: &mut Store<D>, kind: u32, reason: u32) -> Word
    ensures { MakesReset (reset_of kind reason) hart.old hart.new store.old store.new result }
{
    match reset_of(kind, reason) {
        Err(error) => refuse(hart, error),
        Ok(asked) => match store.apply(Command::Reset(asked.1)) {
            Ok(_) => Word::Over(LifeEnd::Reset(asked.0)),
            Err(_) => refuse(hart, SbiError::Failed),
        },
    }
}

/// What is told of a suspend, by how the board sleeps or the error that the hart finds.
fn told_of_sleep(hart: &mut Hart, slept: Result<Sleep, SbiError>) -> Word
    ensures { EndsSleep slept hart.old hart.new result }
{
    match slept {
        Ok(Sleep::ToRam) => Word::Goes(Did::Dozing),
        Ok(Sleep::ToDisk) => Word::Over(LifeEnd::Asleep),
        Err(error) => refuse(hart, error),
    }
}

/// `system_suspend`: the board sleeps, or the hart finds the error.
fn sleep<D: Disk + Drop, C: Crew>(
    saving: Saving<'_, C>,
    hart: &mut Hart,
    seats: Seats,
    tables: &Tables,
    bus: &mut Bus,
    store: &mut Store<D>,
    asked: SuspendWords,
) -> (Seats, Word)
    requires seats { AreSeatsOfBoth tables.now seats }
    requires acts { Acts hart.old.id Running seats }
    requires hart { hart.old.id < harts_of_both tables.now }
    ensures gives { GivesBack tables.entry.now hart.old.id seats result.0 }
    ensures acts { Acts hart.old.id (stage_told result.1) result.0 }
    ensures makes { MakesSleep (harts_of_both tables.entry.now) asked.kind asked.address asked.opaque hart.old
        hart.new (known seats) (known result.0) bus.old bus.new store.old store.new result.1 }
    ensures alone { SleptAlone (harts_of_both tables.entry.now) asked.kind asked.address asked.opaque hart.old
        hart.new seats result.0 bus.old bus.new store.old store.new result.1 }
{
    let Seats { harts, pending } = seats;
    let by = hart.id();
    let (harts, slept) = susp::suspend(saving, harts, by, &tables.harts, bus, store, asked);
    let word = told_of_sleep(hart, slept);
    (Seats { harts, pending }, word)
}

/// Makes the call at which a hart stands, where `sbi_calls::dispatch` told that it comes to a durable
/// command; any other call is not supported. The hart is STARTED and not quiet, and is one of the seats;
/// bus and store are at hand for this one moment.
///
/// A reset and a suspend are told only after their command was acknowledged. Where the store refuses, the
/// hart finds -1, and goes on. The bus stays as it was, but for the doze of a board that sleeps to RAM.
pub fn dispatch_held<D: Disk + Drop, C: Crew>(
    saving: Saving<'_, C>,
    hart: &mut Hart,
    seats: Seats,
    tables: &Tables,
    bus: &mut Bus,
    store: &mut Store<D>,
) -> (Seats, Word)
    requires seats { AreSeatsOfBoth tables.now seats }
    requires acts { Acts hart.old.id Running seats }
    requires hart { hart.old.id < harts_of_both tables.now }
    ensures gives { GivesBack tables.entry.now hart.old.id seats result.0 }
    ensures acts { Acts hart.old.id (stage_told result.1) result.0 }
    ensures id { hart.new.id ≡ hart.old.id }
    ensures makes { MakesHeld (harts_of_both tables.entry.now) (call_of hart.old) hart.old hart.new
        (known seats) (known result.0) bus.old bus.new store.old store.new result.1 }
    ensures alone { HeldAlone (harts_of_both tables.entry.now) (call_of hart.old) hart.old hart.new seats
        result.0 bus.old bus.new store.old store.new result.1 }
{
    match Call::of(hart) {
        Call::SystemReset { kind, reason } => (seats, reset(hart, store, kind, reason)),
        Call::SystemSuspend {
            kind,
            address,
            opaque,
        } => {
            let asked = SuspendWords {
                kind,
                address,
                opaque,
            };
            sleep(saving, hart, seats, tables, bus, store, asked)
        }
        _ => (seats, refuse(hart, SbiError::NotSupported)),
    }
}
