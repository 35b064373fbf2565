//! The book, its keeper, and its parts.

ghost use Rattle.std.specs.Prelude.{◌≡◌, ℕ, suc, ◌<◌, [], ◌∷◌, IfOk, length, drop};
ghost use Rattle.tallies.specs.Sums.{total};
ghost use Rattle.tallies.specs.Books.{Each, keeper_view, fresh_from, first_of, entries_of, told_after, is_of, IsPart};
ghost use Rattle.tallies.specs.Closed.{AreStanding, AreReceiptsOf, told_in};

use crate::book_views::BookView;
use crate::journal::Journal;
use atomic_table::{Join, Play, Seat, Split, Table, TableRule};
use board_model::Entry;
use std::alloc::{AllocError, Global};
use std::marker::{Brand, Model, PhantomData};

/// The rule of the table.
pub struct Journaled<E> {
    of: PhantomData<E>,
}

impl<E> TableRule<(), BookView<E>, u32> for Journaled<E> {
    ghost use Rattle.tallies.specs.Books.{IsKept, opening_view};

    ghost holds = { λ count. IsKept };

    ghost first = { opening_view };
}

/// The entry that is noted: a caller names itself `Brand` and picks it in its proof. So no value of it need be there.
pub trait Adding<E> {
    ghost entry: { E };
}

impl Adding<Entry> for Brand {
    ghost use Rattle.board_model.specs.declared.durable.Command.TheVariants as commands;
    ghost use Rattle.board_model.specs.declared.durable.Entry.TheVariants as entries;

    ghost entry = { entries.Command commands.Discard };
}

struct Notes<E, A> {
    of: PhantomData<(E, A)>,
}

impl<E, A: Adding<E>> Join<BookView<E>> for Notes<E, A> {
    ghost use Rattle.tallies.specs.Books.{with_entry, nobody};

    ghost both = { with_entry A.entry };

    ghost spent = { nobody };
}

struct FirstPart;

impl<E> Split<BookView<E>> for FirstPart {
    ghost use Rattle.tallies.specs.Books.{other_parts, one_part};

    ghost left = { other_parts };

    ghost right = { one_part };
}

impl<E> Join<BookView<E>> for FirstPart {
    ghost use Rattle.tallies.specs.Books.{with_part, nobody};

    ghost both = { with_part };

    ghost spent = { nobody };
}

struct Looks;

impl<E> Play<(), BookView<E>> for Looks {
    ghost use Rattle.tallies.specs.Books.{Learns};

    ghost then = { Learns };
}

/// A new book, which has no name yet: its keeper still has all parts.
#[derive(Drop)]
pub struct NewBook<E> {
    table: Table<(), BookView<E>, u32, Journaled<E>, Global>,
    seat: Seat<(), BookView<E>>,
    ghost one: { 0 < table.shared.table_id.words },
    ghost same: { seat.table_id ≡ table.shared.table_id },
    ghost fresh: { seat.me ≡ (keeper_view table.shared.key [] (fresh_from 0 table.shared.key), []) },
}

/// A book of entries, of receipts or of anything else that holders of its parts did: one word, which is never written. What changes is
/// what its seats know.
#[derive(Drop)]
pub struct Book<J: Journal, E> {
    table: Table<(), BookView<E>, u32, Journaled<E>, Global>,
    of: PhantomData<J>,
}

impl<J: Journal, E> Model for Book<J, E> {
    ghost use Rattle.std.specs.Prelude.{◌≡◌, ◌<◌};
    ghost use Rattle.atomic_table.specs.Seated.{TableId};

    ghost Value = { TableId };

    ghost view = { λ b. b.table.shared.table_id };

    ghost invariant = { λ b. (0 < b.table.shared.table_id.words) × (b.table.shared.table_id ≡ J.book) };
}

/// What knows the whole journal: each entry, and which part added it. It stands beside the store under the
/// lock, and takes no bytes. A contract sees a `BookView`.
#[derive(Drop)]
pub struct Keeper<J: Journal, E> {
    seat: Seat<(), BookView<E>>,
    of: PhantomData<J>,
}

impl<J: Journal, E> Model for Keeper<J, E> {
    ghost use Rattle.std.specs.Prelude.{◌≡◌, []};
    ghost use Rattle.tallies.specs.Books.{keeper_view};
    ghost use Rattle.tallies.specs.declared.book_views.BookView.{BookView};

    ghost Value = { BookView E };

    ghost view = { λ k. k.seat.me.0 };

    ghost invariant = { λ k. (k.seat.table_id ≡ J.book) × (k.seat.me ≡ (keeper_view J.parts k.seat.me.0.log k.seat.me.0.parts, [])) };
}

/// What one holder was told: the receipts of its commands, each with the command. It goes with the holder, and
/// takes no bytes. A contract sees a `PartView`.
#[derive(Drop)]
pub struct BookPart<J: Journal, E> {
    seat: Seat<(), BookView<E>>,
    of: PhantomData<J>,
}

impl<J: Journal, E> Model for BookPart<J, E> {
    ghost use Rattle.std.specs.Prelude.{◌≡◌, []};
    ghost use Rattle.tallies.specs.Books.{part_seat, first_of};
    ghost use Rattle.tallies.specs.declared.book_views.PartView.{PartView};

    ghost Value = { PartView E };

    ghost view = { λ p. first_of p.seat.me.0.parts };

    ghost invariant = { λ p. (p.seat.table_id ≡ J.book) × (p.seat.me ≡ (part_seat (first_of p.seat.me.0.parts), [])) };
}

impl<E> NewBook<E> {
    ghost use Rattle.tallies.specs.BookViews.{id_of, parts_of};

    /// A book of so many parts, with an empty journal. It takes one word.
    pub fn new(alloc: Global, count: u32) -> Result<NewBook<E>, AllocError>
        ensures { IfOk result (λ b. parts_of b ≡ count) }
    {
        let (table, seat) = Table::of_words(alloc, &[0], &count)?;
        Ok(NewBook { table, seat })
    }

    /// The book under a name, and its keeper, which still has all parts.
    pub fn named<J: Journal>(self) -> (Book<J, E>, Keeper<J, E>)
        requires book { id_of self ≡ J.book }
        requires parts { parts_of self ≡ J.parts }
        ensures { result.1 ≡ keeper_view J.parts [] (fresh_from 0 J.parts) }
    {
        let NewBook { table, seat } = self;
        (
            Book {
                table,
                of: PhantomData,
            },
            Keeper {
                seat,
                of: PhantomData,
            },
        )
    }
}

/// As `note`, of the entry that A names.
fn note_entry<A: Adding<Entry>, J: Journal>(
    book: &Book<J, Entry>,
    keeper: &mut Keeper<J, Entry>,
    part: BookPart<J, Entry>,
    entry: Entry,
) -> BookPart<J, Entry>
    requires named { A.entry ≡ entry }
    ensures keeper { keeper.new ≡ keeper_view J.parts ((part.who, entry) ∷ keeper.old.log) keeper.old.parts }
    ensures part { result ≡ told_after (suc (length keeper.old.log)) entry part }
{
    let _ = entry;
    book.note_as::<A>(keeper, part)
}

impl<J: Journal, E> Book<J, E> {
    /// The keeper's first part goes off.
    pub fn hand_out(&self, keeper: &mut Keeper<J, E>) -> BookPart<J, E>
        requires some { 0 < length keeper.old.parts }
        ensures keeper { keeper.new ≡ keeper_view J.parts keeper.old.log (drop 1 keeper.old.parts) }
        ensures part { result ≡ first_of keeper.old.parts }
    {
        let seat = self.table.shared.split_seat::<FirstPart>(&mut keeper.seat);
        BookPart {
            seat,
            of: PhantomData,
        }
    }

    /// Notes the entry that A names, and for the part that added it its place, from 1. No value of the entry is made.
    pub fn note_as<A: Adding<E>>(
        &self,
        keeper: &mut Keeper<J, E>,
        part: BookPart<J, E>,
    ) -> BookPart<J, E>
        ensures keeper { keeper.new ≡ keeper_view J.parts ((part.who, A.entry) ∷ keeper.old.log) keeper.old.parts }
        ensures part { result ≡ told_after (suc (length keeper.old.log)) A.entry part }
    {
        let BookPart { seat, of: _ } = part;
        self.table
            .shared
            .join_seat::<Notes<E, A>>(&mut keeper.seat, seat);
        let seat = self.table.shared.split_seat::<FirstPart>(&mut keeper.seat);
        BookPart {
            seat,
            of: PhantomData,
        }
    }

    /// A part comes back to the keeper.
    pub fn gather(&self, keeper: &mut Keeper<J, E>, part: BookPart<J, E>)
        ensures keeper { keeper.new ≡ keeper_view J.parts keeper.old.log (part ∷ keeper.old.parts) }
    {
        let BookPart { seat, of: _ } = part;
        self.table
            .shared
            .join_seat::<FirstPart>(&mut keeper.seat, seat);
    }

    /// What the keeper's parts were told is what they added, and only parts of the book added; and a keeper that
    /// has as many parts as there are has each of them.
    pub fn look(&self, keeper: &mut Keeper<J, E>)
        ensures same { keeper.new ≡ keeper.old }
        ensures told { Each (IsPart keeper.old.log) keeper.old.parts }
        ensures of { Each (λ e. e.0 < J.parts) keeper.old.log }
        ensures all { length keeper.old.parts ≡ J.parts
            → (who : ℕ) → who < J.parts → total (is_of who) keeper.old.parts ≡ 1 }
    {
        self.table.shared.load::<Looks>(&mut keeper.seat, 0);
    }
}

impl<J: Journal> Book<J, Entry> {
    /// Notes an entry that was added to the journal, and for the part that added it its receipt: the entry's place,
    /// from 1.
    pub fn note(
        &self,
        keeper: &mut Keeper<J, Entry>,
        part: BookPart<J, Entry>,
        entry: Entry,
    ) -> BookPart<J, Entry>
        ensures keeper { keeper.new ≡ keeper_view J.parts ((part.who, entry) ∷ keeper.old.log) keeper.old.parts }
        ensures part { result ≡ told_after (suc (length keeper.old.log)) entry part }
    {
        note_entry::<Brand, J>(self, keeper, part, entry)
    }

    /// What a part was told stands in the journal, each entry at the place of its receipt. The part is with the keeper
    /// for one look, and goes off again.
    pub fn recall(
        &self,
        keeper: &mut Keeper<J, Entry>,
        part: BookPart<J, Entry>,
    ) -> BookPart<J, Entry>
        ensures keeper { keeper.new ≡ keeper_view J.parts keeper.old.log keeper.old.parts }
        ensures part { result ≡ part }
        ensures stands { AreStanding (entries_of keeper.old.log) part.told }
    {
        self.gather(keeper, part);
        self.look(keeper);
        self.hand_out(keeper)
    }

    /// Ends the book: the receipts of its keeper's parts stand in the journal, and where they are all parts that
    /// there are, their receipts are those of the journal's entries, one for each.
    pub fn close(&self, keeper: Keeper<J, Entry>)
        ensures told { AreStanding (entries_of keeper.log) (told_in keeper.parts) }
        ensures all { length keeper.parts ≡ J.parts → AreReceiptsOf (entries_of keeper.log) (told_in keeper.parts) }
    {
        let mut keeper = keeper;
        self.look(&mut keeper);
    }
}
