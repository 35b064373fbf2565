//! A store that knows of which life its journal is.

ghost use Rattle.std.specs.Prelude.{◌≡◌, ◌≤◌, ◌<◌, length, true, false, None, Err, IfOk, IfSome, IsTrue, is_some};
ghost use Rattle.board_model.specs.Durable.{ends_life};
ghost use Rattle.board_model.specs.Views.{change_of, durable_of};
ghost use Rattle.store.specs.Lives.{Applied};
ghost use Rattle.std.specs.Option.{option_to_list};
ghost use Rattle.store.specs.Views.{size_of_store, journal_of, life_of, now_state, receipts, doubt_of, failures_at_open, disk_of};
ghost use Rattle.store.specs.Asked.{Asked};
ghost use Rattle.hsm.specs.declared.view.Stage.TheVariants.{Running};
ghost use Rattle.sbi_abi.specs.Calls.{call_of};
ghost use Rattle.sbi_calls.specs.Both.{AreSeatsOfBoth, GivesBack, Acts, harts_of_both, known};
ghost use Rattle.sbi.specs.Helds.{MakesHeld};
ghost use Rattle.sbi.specs.Words.{stage_told};
ghost use Rattle.tallies.specs.Books.{entries_of};
ghost use Rattle.hart_threads.specs.Doubts.{newly_down};
ghost use Rattle.hart_threads.specs.Noted.{entries_in, part_after, part_by};
ghost use Rattle.hart_threads.specs.Heard.{after_look, heard_by};
ghost use Rattle.hart_threads.specs.Bused.{AreSaved, IsCalled, Takes, call_turn, held_call, part_in, part_of_hart};
ghost use Rattle.hart_threads.specs.Called.{IsToldBy, IsLastOf};
ghost use Rattle.hart_threads.specs.Legal.{BeginsWith, IsNamed, MayAnswer, MayShow, number_told};
ghost use Rattle.hart_threads.specs.Over.{IsMarked};
ghost use Rattle.hart_threads.specs.Since.{AreKept, moments_after, moments_told};

use crate::bus_turns::{BusPart, CallParts, held_part};
use crate::buses::SharedBus;
use crate::doubts::{Doubts, is_up, newly_down};
use crate::heard::Heard;
use crate::moments::Moments;
use crate::over::LastReceipt;
use crate::receipts::CommandReceipt;
use crate::shared::LoopBoard;
use crate::threaded::Threaded;
use crate::unshared::Unshared;
use board_model::{Command, Durable, Entry, Refusal, Shape};
use crew::Crew;
use disk::Disk;
use hart::Hart;
use sbi::Word;
use sbi_calls::Seats;
use std::marker::Brand;
use store::Store;
use tallies::{Book, BookPart, Keeper, Watch};

/// A store whose journal is J's: its open found what J says, its board has that size, its journal begins with
/// what the boot issued, and its state now is what the journal makes of what was found. The table of commands
/// (docs/DURABLE.md) refuses none of them, one after another. Each reset and each suspension of it, also one in doubt, was asked for by a
/// call of a hart, for which the store looked; a suspension carries the memory that it then found on the bus. At each moment since its
/// boot was over, within a command and within a call of its disk too, a crash has left what some first commands of the journal make, all
/// of those among them of which a receipt had been made by then, or these and the one in doubt. Until a command ends the life none of the
/// journal does; then it is the last one, and the word says that the life is over.
///
/// A type keeps that, and a lock keeps its value's type: so it holds of every store that a lock of this type
/// gives, whatever other threads did.
#[derive(Drop)]
pub struct SharedStore<D: Disk + Drop, J: Threaded> {
    pub(crate) store: Store<D>,
    pub(crate) count: u32,
    pub(crate) book: Book<J, Entry>,
    pub(crate) keeper: Keeper<J, Entry>,
    pub(crate) doubts: Doubts<J>,
    // Its part of the history of the bus, which stays here but for the moment in which that notes a look.
    run: Option<BusPart<J>>,
    // For the functions of this file alone, each of which says what it does with them: under a lock no other can.
    moments: Moments,
    // The watch that may set the word, until a command has ended the life.
    ender: Option<Watch>,
    ghost named: { IsNamed J.found J.size store },
    ghost issued: { BeginsWith J.issued (journal_of store) },
    ghost there: { IsTrue (is_some run) },
    ghost saved: { AreSaved J.size (life_of store) (part_in run) },
    ghost counted: { count ≡ receipts store },
    ghost few: { count ≤ 4096 },
    ghost tied: { entries_in (journal_of store) ≡ entries_of keeper.log },
    ghost none: { length keeper.parts ≡ 0 },
    ghost opened: { failures_at_open store ≡ J.failures },
    ghost doubted: { doubts ≡ entries_in (option_to_list (doubt_of store)) },
    ghost kept: { AreKept J.size J.found J.earlier J.moment (length J.issued) (journal_of store) (doubt_of store)
        (disk_of store) moments.at },
    ghost marked: { IsMarked J.over ender (life_of store) },
}

impl<D: Disk + Drop, J: Threaded> SharedStore<D, J> {
    ghost use Rattle.hart_threads.specs.Views.{bus_in, store_in, inside, moments_in, moments_with, parts_with};

    /// The store, to be shared: all parts are handed out.
    pub(crate) fn of(whole: Unshared<D, J>) -> SharedStore<D, J>
        requires none { length (parts_with whole) ≡ 0 }
        ensures store { store_in result ≡ inside whole }
        ensures moments { moments_in result ≡ moments_with whole }
    {
        let Unshared {
            store,
            count,
            book,
            keeper,
            doubts,
            moments,
            run,
            ender,
        } = whole;
        SharedStore {
            store,
            count,
            book,
            keeper,
            doubts,
            moments,
            run,
            ender,
        }
    }

    /// What is kept from one holder of the lock to the next.
    pub fn stands(&self)
        ensures named { IsNamed J.found J.size (store_in self.now) }
        ensures issued { BeginsWith J.issued (journal_of (store_in self.now)) }
        ensures kept { AreKept J.size J.found J.earlier J.moment (length J.issued) (journal_of (store_in self.now)) (doubt_of (store_in self.now))
            (disk_of (store_in self.now))
            (moments_in self.now) }
    {}

    /// The board's shape.
    pub fn shape(&self) -> Shape
        ensures { result ≡ J.size }
    {
        self.store.shape()
    }

    /// The durable state now, for the holder of that part, which hears of it: the part's own receipts stand in the
    /// journal that made it.
    pub fn now(
        &mut self,
        part: BookPart<J, Entry>,
        heard: &mut Heard<J>,
    ) -> (BookPart<J, Entry>, Durable)
        ensures now { result.1 ≡ durable_of (now_state (store_in self.old)) }
        ensures same { store_in self.new ≡ store_in self.old }
        ensures moments { moments_in self.new ≡ moments_in self.old }
        ensures part { result.0 ≡ part }
        ensures may { MayShow J.found J.issued part.told result.1 }
        ensures heard { heard.new ≡ after_look result.1 heard.old }
    {
        let part = self.book.recall(&mut self.keeper, part);
        heard.show(self.store.now());
        (part, self.store.now())
    }

    /// Issues a command, as `Store::apply`, for the holder of that part, which is told its receipt, or hears of its
    /// refusal. It is one after which the life goes on: what ends a life only a hart asks for (`call`).
    pub fn apply(
        &mut self,
        part: BookPart<J, Entry>,
        heard: &mut Heard<J>,
        command: Command,
    ) -> (BookPart<J, Entry>, Result<CommandReceipt<J>, Refusal>)
        requires { ends_life (change_of command) ≡ false }
        ensures asked { Asked Applied (store_in self.old) (change_of command) (number_told result.1)
            (store_in self.new) }
        ensures may { MayAnswer J.found (change_of command) (number_told result.1) }
        ensures told { IfOk result.1 (λ t. t.1 ≡ Entry.Command command) }
        ensures noted { result.0 ≡ part_by result.1 part }
        ensures moments { moments_in self.new
            ≡ moments_after (number_told result.1) (disk_of (store_in self.new)).moment (moments_in self.old) }
        ensures heard { heard.new ≡ heard_by (newly_down (doubt_of (store_in self.old)) (doubt_of (store_in self.new)))
            command result.1 heard.old }
        ensures down { newly_down (doubt_of (store_in self.old)) (doubt_of (store_in self.new)) ≡ true
            → result.1 ≡ Err Refusal.Down }
    {
        let was_up = is_up(&self.store);
        match self.store.apply(command) {
            Ok(receipt) => {
                self.count = receipt.number();
                self.moments.add(&self.store);
                let entry = Entry::Command(command);
                let part = self.book.note(&mut self.keeper, part, entry);
                (
                    part,
                    Ok(CommandReceipt::new(receipt.number(), Entry::Command(command))),
                )
            }
            Err(refusal) => {
                let newly = newly_down(was_up, &self.store);
                self.doubts.tell(heard, command, refusal, newly);
                (part, Err(refusal))
            }
        }
    }

    /// The durable call at which a hart stands, as `dispatch_held` with that bus, and the receipt of its command, where that
    /// was acknowledged: then the life is over, and the word says so. A suspension carries the memory of the bus, which stays. A doze adds
    /// no command, and has no receipt. It is noted in the hart's part of the history of the bus as that hart's call with that answer, and
    /// nothing else is noted so.
    pub fn call<C: Crew>(
        &mut self,
        board: LoopBoard<'_, '_, J, C>,
        hart: &mut Hart,
        seats: Seats,
        bus: &mut SharedBus<J>,
        part: BookPart<J, Entry>,
        run: BusPart<J>,
    ) -> (
        Seats,
        Word,
        Option<LastReceipt<J>>,
        BookPart<J, Entry>,
        BusPart<J>,
    )
        requires seats { AreSeatsOfBoth board.tables.now seats }
        requires acts { Acts hart.old.id Running seats }
        requires hart { hart.old.id < harts_of_both board.tables.now }
        requires run { run.who ≡ part_of_hart hart.old.id }
        ensures gives { GivesBack board.entry.tables.now hart.old.id seats result.0 }
        ensures acts { Acts hart.old.id (stage_told result.1) result.0 }
        ensures id { hart.new.id ≡ hart.old.id }
        ensures makes { MakesHeld (harts_of_both board.entry.tables.now) (call_of hart.old) hart.old hart.new
            (known seats) (known result.0) (bus_in bus.old) (bus_in bus.new) (store_in self.old) (store_in self.new)
            result.1 }
        ensures memory { (bus_in bus.new).ram ≡ (bus_in bus.old).ram }
        ensures board { size_of_store (store_in self.old) ≡ J.size }
        ensures told { IsToldBy J.size (call_of hart.old) hart.old.id result.1 result.2 }
        ensures noted { result.3 ≡ part_after result.2 part }
        ensures moments { moments_in self.new
            ≡ moments_told result.2 (disk_of (store_in self.new)).moment (moments_in self.old) }
        ensures called { IsCalled result.1 (bus_in bus.old) (bus_in bus.new) }
        ensures took { Takes (call_turn (held_call hart.old hart.new result.1) (bus_in bus.old) (bus_in bus.new)) run result.4 }
    {
        let was_up = is_up(&self.store);
        let own = held_part(self.run.take());
        let parts = CallParts {
            caller: run,
            store: own,
        };
        let (seats, word, parts) = bus.call::<Brand, D, C>(
            board.saving,
            hart,
            seats,
            board.tables,
            &mut self.store,
            parts,
        );
        let CallParts {
            caller: run,
            store: own,
        } = parts;
        self.run = Some(own);
        self.doubts.note(was_up, self.store.in_doubt());
        match word {
            Word::Goes(_) => (seats, word, None, part, run),
            Word::Over(_) => {
                self.count += 1;
                self.moments.add(&self.store);
                let Some(entry) = last_entry(&self.store, self.count) else {
                    unreachable!()
                };
                let told = CommandReceipt::new(self.count, entry);
                let noted = told.entry();
                let part = self.book.note(&mut self.keeper, part, noted);
                let Some(ender) = self.ender.take() else {
                    unreachable!()
                };
                let over = board.closing.over.set(ender);
                let last = LastReceipt::new(told, over);
                (seats, word, Some(last), part, run)
            }
        }
    }

    /// The store and its book, no longer shared.
    pub fn unshare(self) -> Unshared<D, J>
        ensures store { inside result ≡ store_in self }
        ensures none { length (parts_with result) ≡ 0 }
        ensures moments { moments_with result ≡ moments_in self }
    {
        let SharedStore {
            store,
            count,
            book,
            keeper,
            doubts,
            moments,
            run,
            ender,
        } = self;
        Unshared {
            store,
            count,
            book,
            keeper,
            doubts,
            moments,
            run,
            ender,
        }
    }
}

/// The last command of a journal of so many.
pub(crate) fn last_entry<D: Disk + Drop>(store: &Store<D>, count: u32) -> Option<Entry>
    requires { count ≡ receipts store.now }
    ensures some { IfSome result (λ e. IsLastOf (journal_of store.now) count e) }
    ensures none { result ≡ None → count ≡ 0 }
{
    store.entry(u64::from(count))
}
