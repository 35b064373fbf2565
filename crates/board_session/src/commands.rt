//! What the console makes of a line.

ghost use Rattle.std.specs.Prelude.{◌≡◌, true};
ghost use Rattle.hart_threads.specs.Views.{bus_in, store_in};
ghost use Rattle.board_session.specs.Commands.{AnswersCommand, AnswersSaid, AnswersWake, IsCommandAnswer, IsAnswerTo, IsWakeAnswer, asks_store, party};

use crate::reply::Reply;
use crate::waking::Waking;
use crate::words::Said;
use board_model::{ConsoleCommand, Entry};
use disk::Disk;
use hart_threads::{BookPart, Heard, Journal, SharedBus, SharedStore, Threaded};

/// Issues a command, which is answered by its word.
fn issue<D: Disk + Drop, J: Threaded>(
    store: &mut SharedStore<D, J>,
    part: BookPart<J, Entry>,
    heard: &mut Heard<J>,
    command: ConsoleCommand,
) -> (BookPart<J, Entry>, Reply)
    ensures asks { AnswersCommand command (store_in store.old) (store_in store.new) result.1 }
    ensures fits { IsCommandAnswer J.found command result.1 (party part.told heard.old)
        (party result.0.told heard.new) }
{
    let (part, answered) = store.apply(part, heard, command.command());
    match answered {
        Ok(told) => (part, Reply::Acknowledged(command, told.number())),
        Err(refusal) => (part, Reply::Refused(command, refusal)),
    }
}

/// Does what a line says, with the store that it is lent for this one moment: on a board of threads, under the store's lock.
///
/// A command that was acknowledged is durable. Its receipt is its place in the journal of this life, where `Store::entry` has it
/// from then on, and the console's part is told it. After a refusal what stands is what `Store::apply` says. The console hears of
/// each refusal and of each state that it is shown. `wake` asks the bus (`rouse`), and the other lines ask nothing.
pub fn obey<D: Disk + Drop, J: Threaded>(
    store: &mut SharedStore<D, J>,
    part: BookPart<J, Entry>,
    heard: &mut Heard<J>,
    said: Said,
) -> (BookPart<J, Entry>, Reply)
    requires { asks_store said ≡ true }
    ensures asks { AnswersSaid said (store_in store.old) (store_in store.new) result.1 }
    ensures fits { IsAnswerTo J.found J.issued said result.1 (party part.told heard.old)
        (party result.0.told heard.new) }
{
    match said {
        Said::Command(command) => issue(store, part, heard, command),
        Said::State => {
            let (part, state) = store.now(part, heard);
            (part, Reply::State(state))
        }
        Said::Wake | Said::Quit | Said::Other => unreachable!(),
    }
}

/// Does what the line `wake` says, with the bus that it is lent for this one moment: on a board of threads, under the bus's lock.
/// It calls the wake-up device once, and the console hears of it.
pub fn rouse<J: Journal>(bus: &mut SharedBus<J>, heard: &mut Heard<J>) -> Reply
    ensures wakes { AnswersWake (bus_in bus.old) (bus_in bus.new) result }
    ensures fits { IsWakeAnswer result heard.old heard.new }
{
    Reply::Wake(Waking::call(bus, heard))
}
