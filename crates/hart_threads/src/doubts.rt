//! The book of what is in doubt.

ghost use Rattle.std.specs.Prelude.{◌≡◌, ◌&&◌, List, [], ◌∷◌, true, Some, IfSome, Option, length, is_none, is_some};
ghost use Rattle.std.specs.Option.{option_to_list};
ghost use Rattle.board_model.specs.Durable.{Change};
ghost use Rattle.board_model.specs.declared.durable.Entry.{Entry};
ghost use Rattle.board_model.specs.declared.refusal.Refusal.TheVariants.{Down};
ghost use Rattle.tallies.specs.Books.{entries_of, no_book, part_view};
ghost use Rattle.tallies.specs.Closed.{told_in};
ghost use Rattle.tallies.specs.BookViews.{id_of, parts_of};
ghost use Rattle.store.specs.Views.{doubt_of};
ghost use Rattle.hart_threads.specs.Bused.{AreWakes, console_part};
ghost use Rattle.hart_threads.specs.Doubts.{HartAsksFor, IsDoubtOf, noted_if, noted_by, AreAskedByHarts};
ghost use Rattle.hart_threads.specs.Heard.{after_refusal, heard_nothing};
ghost use Rattle.hart_threads.specs.Noted.{entries_in};

use crate::bus_turns::BusPart;
use crate::heard::Heard;
use board_model::{Command, Entry, Refusal};
use disk::Disk;
use std::marker::{Model, PhantomData};
use store::Store;
use tallies::{Book, Journal, Keeper, NewBook};

/// The name of the book of what is in doubt in the life J. It has two parts: the console's, and one for all harts.
pub struct OfDoubts<J: Journal> {
    of: PhantomData<J>,
}

impl<J: Journal> Journal for OfDoubts<J> {
    ghost found = { J.found };

    ghost size = { J.size };

    ghost issued = { [] };

    ghost memory = { [] };

    ghost book = { J.doubts };

    ghost parts = { 2 };

    ghost failures = { 0 };

    ghost doubts = { no_book };

    ghost runs = { no_book };

    ghost moment = { 0 };

    ghost earlier = { J.earlier };
}

/// The commands in doubt of the life J, under the lock of its store. The part of its console goes with what the console
/// heard; that of the harts stays here, since a hart keeps no receipt of a call that was refused.
///
/// A contract sees the commands: none, or one, since a store takes none after it.
#[derive(Drop)]
pub(crate) struct Doubts<J: Journal> {
    book: Book<OfDoubts<J>, Entry>,
    keeper: Keeper<OfDoubts<J>, Entry>,
}

impl<J: Journal> Model for Doubts<J> {
    ghost Value = { List Entry };

    ghost view = { λ d. entries_of d.keeper.log };

    ghost invariant = { λ d. (length d.keeper.parts ≡ 1) × AreAskedByHarts J.size (told_in d.keeper.parts) };
}

impl<J: Journal> Doubts<J> {
    /// For a life that has just begun, with a new book: nothing is in doubt. What its console will hear comes with it.
    pub(crate) fn new(book: NewBook<Entry>, run: BusPart<J>) -> (Doubts<J>, Heard<J>)
        requires run { run ≡ part_view console_part [] }
        requires book { id_of book ≡ J.doubts }
        requires parts { parts_of book ≡ 2 }
        ensures none { result.0 ≡ [] }
        ensures heard { result.1 ≡ heard_nothing }
    {
        let (book, mut keeper) = book.named::<OfDoubts<J>>();
        let part = book.hand_out(&mut keeper);
        (Doubts { book, keeper }, Heard::nothing(part, run))
    }

    /// A command of the console was refused, and that put it in doubt where it says so.
    pub(crate) fn tell(
        &mut self,
        heard: &mut Heard<J>,
        command: Command,
        refusal: Refusal,
        newly: bool,
    )
        requires none { newly ≡ true → self.old ≡ [] }
        requires down { newly ≡ true → refusal ≡ Down }
        ensures noted { self.new ≡ noted_if newly (Entry.Command command) self.old }
        ensures heard { heard.new ≡ after_refusal newly command refusal heard.old }
    {
        heard.refuse(command, refusal);
        if newly {
            self.doubt(heard, command);
        }
    }

    /// A command of the console is in doubt.
    fn doubt(&mut self, heard: &mut Heard<J>, command: Command)
        requires none { self.old ≡ [] }
        ensures noted { self.new ≡ Entry.Command command ∷ [] }
        ensures heard { heard.new ≡ record heard.old { doubt = Some command } }
    {
        let Some(part) = heard.part.take() else {
            unreachable!()
        };
        let part = self.book.recall(&mut self.keeper, part);
        let part = self
            .book
            .note(&mut self.keeper, part, Entry::Command(command));
        heard.part = Some(part);
        heard.doubt = Some(command);
    }

    /// What the store has in doubt once a durable call of a hart was made, where none was before.
    pub(crate) fn note(&mut self, was_up: bool, found: Option<Entry>)
        requires none { was_up ≡ true → self.old ≡ [] }
        requires asks { was_up ≡ true → IfSome found (λ e. HartAsksFor J.size e) }
        ensures noted { self.new ≡ noted_by was_up found self.old }
    {
        if !was_up {
            return;
        }
        if let Some(entry) = found {
            let part = self.book.hand_out(&mut self.keeper);
            let part = self.book.note(&mut self.keeper, part, entry);
            self.book.gather(&mut self.keeper, part);
        }
    }

    /// The life has ended, and what its console heard is back: the command in doubt was the console's, or a hart's. What the console did
    /// with the bus comes back.
    pub(crate) fn close(self, heard: Heard<J>) -> BusPart<J>
        ensures woken { AreWakes heard.woken result }
        ensures doubt { (doubt : Option Change) → self ≡ entries_in (option_to_list doubt)
            → IsDoubtOf J.size doubt heard.doubt }
    {
        let (part, run) = heard.into_parts();
        let Doubts { book, keeper } = self;
        let mut keeper = keeper;
        book.gather(&mut keeper, part);
        book.close(keeper);
        run
    }
}

/// Whether no command of the store is in doubt.
pub(crate) fn is_up<D: Disk + Drop>(store: &Store<D>) -> bool
    ensures { result ≡ is_none (doubt_of store.now) }
{
    store.in_doubt().is_none()
}

/// Whether one is now, where none was before.
pub(crate) fn newly_down<D: Disk + Drop>(was_up: bool, store: &Store<D>) -> bool
    ensures { result ≡ (was_up && is_some (doubt_of store.now)) }
{
    was_up && store.in_doubt().is_some()
}
