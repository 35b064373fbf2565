//! A store with its book, before it is shared and after.

ghost use Rattle.disk.specs.Facts.{Content};
ghost use Rattle.std.specs.Prelude.{◌≡◌, ◌≤◌, ◌<◌, ◌+◌, ℕ, List, [], ◌∷◌, true, None, map, length, vec_len};
ghost use Rattle.std.specs.Prelude.{All, IfOk, IfErr, IfSome, IsTrue, is_some};
ghost use Rattle.std.specs.Option.{option_to_list};
ghost use Rattle.store.specs.Views.{size_of_store, found_state, journal_of, life_of, receipts, doubt_of, failures_at_open, disk_of};
ghost use Rattle.tallies.specs.Books.{Each, entries_of, fresh_from};
ghost use Rattle.tallies.specs.Closed.{AreStanding, AreReceiptsOf, told_in};
ghost use Rattle.tallies.specs.BookViews.{id_of, parts_of};
ghost use Rattle.tallies.specs.Halts.{watched};
ghost use Rattle.store.specs.Taken.{are_taken};
ghost use Rattle.hart_threads.specs.Bused.{AreSaved, AreWakes, IsSavedIn, part_in};
ghost use Rattle.hart_threads.specs.Called.{IsLastOf};
ghost use Rattle.hart_threads.specs.declared.bus_turns.BusTurn.{BusTurn as TurnView};
ghost use Rattle.hart_threads.specs.Doubts.{IsDoubtOf};
ghost use Rattle.hart_threads.specs.Heard.{heard_nothing};
ghost use Rattle.hart_threads.specs.Legal.{BeginsWith, IsNamed};
ghost use Rattle.hart_threads.specs.Over.{IsLastEnd, IsMarked};
ghost use Rattle.hart_threads.specs.Noted.{boot_told, entries_in};
ghost use Rattle.hart_threads.specs.Since.{AreKept};
ghost use Rattle.hart_threads.specs.Threads.{is_end};

use crate::bus_turns::{BusPart, held_part};
use crate::buses::SharedBus;
use crate::closing::Closing;
use crate::doubts::Doubts;
use crate::heard::Heard;
use crate::moments::Moments;
use crate::over::LifeOver;
use crate::shared::HartParts;
use crate::shared_store::{SharedStore, last_entry};
use crate::threaded::Threaded;
use board_model::Entry;
use disk::Disk;
use std::alloc::{AllocError, Global};
use store::Store;
use tallies::{Book, BookPart, Journal, Keeper, NewBook, Watch};

/// A store of the life J with the book of its receipts, which one holder has: it hands out the book's parts
/// before it is shared, and takes them back when the life has ended.
#[derive(Drop)]
pub struct Unshared<D: Disk + Drop, J: Threaded> {
    pub(crate) store: Store<D>,
    pub(crate) count: u32,
    pub(crate) book: Book<J, Entry>,
    pub(crate) keeper: Keeper<J, Entry>,
    pub(crate) doubts: Doubts<J>,
    pub(crate) moments: Moments,
    pub(crate) run: Option<BusPart<J>>,
    pub(crate) ender: Option<Watch>,
    pub ghost named: { IsNamed J.found J.size store },
    pub ghost issued: { BeginsWith J.issued (journal_of store) },
    pub ghost there: { IsTrue (is_some run) },
    pub ghost saved: { AreSaved J.size (life_of store) (part_in run) },
    pub ghost counted: { count ≡ receipts store },
    pub ghost few: { count ≤ 4096 },
    pub ghost tied: { entries_in (journal_of store) ≡ entries_of keeper.log },
    pub ghost opened: { failures_at_open store ≡ J.failures },
    pub ghost doubted: { doubts ≡ entries_in (option_to_list (doubt_of store)) },
    pub ghost kept: { AreKept J.size J.found J.earlier J.moment (length J.issued) (journal_of store) (doubt_of store)
        (disk_of store) moments.at },
    pub ghost marked: { IsMarked J.over ender (life_of store) },
}

impl<D: Disk + Drop, J: Threaded> Unshared<D, J> {
    ghost use Rattle.hart_threads.specs.Views.{bus_in, bus_parts, store_in, inside, moments_in, moments_with, parts_with};

    /// The store of a life that has just begun, with two new books: its journal has what the boot issued, and the
    /// boot's part, which goes off first, is told the receipt of each. The second book is for what is in doubt: nothing is
    /// yet. What the life's console will hear comes with them. The store and the console have a part each of the history of that bus, of
    /// which none was handed out before. `ender` may set the word that says that the life is over.
    pub fn new(
        store: Store<D>,
        book: NewBook<Entry>,
        doubts: NewBook<Entry>,
        bus: &mut SharedBus<J>,
        ender: Watch,
    ) -> (Unshared<D, J>, BookPart<J, Entry>, Heard<J>)
        requires board { size_of_store store ≡ J.size }
        requires found { found_state store ≡ J.found }
        requires issued { journal_of store ≡ J.issued }
        requires taken { are_taken J.found J.issued ≡ true }
        requires few { length J.issued ≤ 4096 }
        requires unended { (told : List (ℕ × TurnView)) → IsSavedIn J.size told (life_of store) }
        requires bus { bus_parts bus.old ≡ fresh_from 0 (J.size.harts + 2) }
        requires ender { ender ≡ watched J.over true 0 None }
        requires book { id_of book ≡ J.book }
        requires parts { parts_of book ≡ J.parts }
        requires some { 0 < J.parts }
        requires up { doubt_of store ≡ None }
        requires opened { failures_at_open store ≡ J.failures }
        requires doubts { id_of doubts ≡ J.doubts }
        requires two { parts_of doubts ≡ 2 }
        requires moment { (disk_of store).moment ≡ J.moment }
        requires earlier { (t : ℕ) (c : Content) → (disk_of store).since t c → J.earlier t c }
        ensures store { inside result.0 ≡ store }
        ensures rest { length (parts_with result.0) + 1 ≡ J.parts }
        ensures fresh { All (λ d. d.told ≡ []) (parts_with result.0) }
        ensures boot { result.1.told ≡ boot_told J.issued }
        ensures heard { result.2 ≡ heard_nothing }
        ensures moments { moments_with result.0 ≡ (disk_of store).moment ∷ [] }
        ensures bus { bus_in bus.new ≡ bus_in bus.old }
        ensures harts { bus_parts bus.new ≡ fresh_from 2 J.size.harts }
    {
        store.stands();
        let own = bus.hand_out();
        let run = bus.hand_out();
        let moments = Moments::first(&store);
        let (book, mut keeper) = book.named::<J>();
        let part = book.hand_out(&mut keeper);
        let (part, count) = note_journal(&store, &book, &mut keeper, part);
        let (doubts, heard) = Doubts::new(doubts, run);
        let whole = Unshared {
            store,
            count,
            book,
            keeper,
            doubts,
            moments,
            run: Some(own),
            ender: Some(ender),
        };
        (whole, part, heard)
    }

    /// The next part goes off, which was told nothing.
    pub fn hand_out(&mut self) -> BookPart<J, Entry>
        requires some { 0 < length (parts_with self.old) }
        requires fresh { All (λ d. d.told ≡ []) (parts_with self.old) }
        ensures store { inside self.new ≡ inside self.old }
        ensures moments { moments_with self.new ≡ moments_with self.old }
        ensures rest { length (parts_with self.new) + 1 ≡ length (parts_with self.old) }
        ensures fresh { All (λ d. d.told ≡ []) (parts_with self.new) }
        ensures told { result.told ≡ [] }
    {
        self.book.hand_out(&mut self.keeper)
    }

    /// The parts of each hart go off, of the receipts and of the history of that bus, the first hart's first; none does where there is no
    /// room for them.
    pub fn hand_out_all(
        &mut self,
        alloc: Global,
        count: usize,
        bus: &mut SharedBus<J>,
    ) -> Result<Vec<HartParts<J>>, AllocError>
        requires bus { bus_parts bus.old ≡ fresh_from 2 count }
        requires some { count ≤ length (parts_with self.old) }
        requires fresh { All (λ d. d.told ≡ []) (parts_with self.old) }
        ensures store { inside self.new ≡ inside self.old }
        ensures moments { moments_with self.new ≡ moments_with self.old }
        ensures fresh { All (λ d. d.told ≡ []) (parts_with self.new) }
        ensures count { IfOk result (λ ps. vec_len ps ≡ count) }
        ensures told { IfOk result (λ ps. All (λ d. d.receipts.told ≡ []) ps.items) }
        ensures runs { IfOk result (λ ps. map (λ d. d.run) ps.items ≡ fresh_from 2 count) }
        ensures bus { bus_in bus.new ≡ bus_in bus.old }
        ensures rest { IfOk result (λ ps. length (parts_with self.new) + count ≡ length (parts_with self.old)) }
        ensures none { IfErr result (λ e. length (parts_with self.new) ≡ length (parts_with self.old)) }
    {
        let mut parts = Vec::with_capacity(alloc, count)?;
        for made in 0..count {
            let part = self.hand_out();
            let run = bus.hand_out();
            parts.push_reserved(HartParts {
                receipts: part,
                run,
            });
        }
        Ok(parts)
    }

    /// The store, to be shared: all parts are handed out.
    pub fn share(self) -> SharedStore<D, J>
        requires none { length (parts_with self) ≡ 0 }
        ensures store { store_in result ≡ inside self }
        ensures moments { moments_in result ≡ moments_with self }
    {
        SharedStore::of(self)
    }

    /// A part comes back.
    pub fn gather(&mut self, part: BookPart<J, Entry>)
        ensures store { inside self.new ≡ inside self.old }
        ensures moments { moments_with self.new ≡ moments_with self.old }
        ensures parts { parts_with self.new ≡ part ∷ parts_with self.old }
    {
        self.book.gather(&mut self.keeper, part);
    }

    /// A part comes back that was told what ended the life, or nothing: then that command is the journal's last.
    pub(crate) fn gather_told(&mut self, part: BookPart<J, Entry>)
        ensures store { inside self.new ≡ inside self.old }
        ensures moments { moments_with self.new ≡ moments_with self.old }
        ensures parts { parts_with self.new ≡ part ∷ parts_with self.old }
        ensures last { Each (IsLastEnd (journal_of (inside self.new))) part.told }
    {
        let part = self.book.recall(&mut self.keeper, part);
        self.book.gather(&mut self.keeper, part);
    }

    /// The command that ended the life, and its place, for one who knows that it is over: it is the journal's last.
    pub(crate) fn ended_by(&mut self, closing: &Closing<J>, over: LifeOver<J>) -> (u32, Entry)
        ensures store { inside self.new ≡ inside self.old }
        ensures moments { moments_with self.new ≡ moments_with self.old }
        ensures parts { parts_with self.new ≡ parts_with self.old }
        ensures end { is_end result.1 ≡ true }
        ensures last { IsLastOf (journal_of (inside self.new)) result.0 result.1 }
    {
        closing.over.is_used(&mut self.ender, over);
        let Some(entry) = last_entry(&self.store, self.count) else {
            unreachable!()
        };
        (self.count, entry)
    }

    /// The store, whose life ends here. What the parts that are back were told stands in its journal, each
    /// command at the place of its receipt; and where all parts are back, their receipts are those of the journal's
    /// commands, one for each. What its console heard is back too: where a command is in doubt, it was the console's, which
    /// was told 6 for it, or a durable call of a hart asks for it. The moments at which its receipts were made come with it, and what the
    /// store and the console did with the bus: for each reset and each suspension of the life, also one in doubt, the store looked for the
    /// call of a hart that asked for it, and a suspension carries the memory that the store then found there.
    pub fn close(self, heard: Heard<J>) -> (Store<D>, Moments, (BusPart<J>, BusPart<J>))
        ensures named { IsNamed J.found J.size result.0 }
        ensures issued { BeginsWith J.issued (journal_of result.0) }
        ensures same { result.0 ≡ inside self }
        ensures told { AreStanding (entries_in (journal_of result.0)) (told_in (parts_with self)) }
        ensures all { length (parts_with self) ≡ J.parts
            → AreReceiptsOf (entries_in (journal_of result.0)) (told_in (parts_with self)) }
        ensures opened { failures_at_open result.0 ≡ J.failures }
        ensures doubt { IsDoubtOf J.size (doubt_of result.0) heard.doubt }
        ensures moments { result.1.at ≡ moments_with self }
        ensures kept { AreKept J.size J.found J.earlier J.moment (length J.issued) (journal_of result.0)
            (doubt_of result.0) (disk_of result.0) result.1.at }
        ensures saved { AreSaved J.size (life_of result.0) result.2.0 }
        ensures woken { AreWakes heard.woken result.2.1 }
    {
        let Unshared {
            store,
            count: _,
            book,
            keeper,
            doubts,
            moments,
            run,
            ender: _,
        } = self;
        book.close(keeper);
        let woken = doubts.close(heard);
        let run = held_part(run);
        (store, moments, (run, woken))
    }
}

/// Notes the commands of a journal that no part was told of yet, in their order, for one part, which is told their
/// receipts. Their number comes with it.
fn note_journal<D: Disk + Drop, J: Journal>(
    store: &Store<D>,
    book: &Book<J, Entry>,
    keeper: &mut Keeper<J, Entry>,
    part: BookPart<J, Entry>,
) -> (BookPart<J, Entry>, u32)
    requires few { receipts store.now ≤ 4096 }
    requires empty { keeper.old.log ≡ [] }
    requires fresh { part.told ≡ [] }
    ensures count { result.1 ≡ receipts store.now }
    ensures tied { entries_in (journal_of store.now) ≡ entries_of keeper.new.log }
    ensures parts { keeper.new.parts ≡ keeper.old.parts }
    ensures told { result.0.told ≡ boot_told (journal_of store.now) }
{
    let mut part = part;
    for count in 0..4096 {
        let Some(entry) = store.entry(u64::from(count) + 1) else {
            return (part, count);
        };
        part = book.note(keeper, part, entry);
    }
    (part, 4096)
}
