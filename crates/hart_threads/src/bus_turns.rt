//! What is done with the bus of a board on threads, hold by hold.

ghost use Rattle.std.specs.Prelude.{◌≡◌, suc, ◌∷◌, ◌+◌, [], IsTrue, is_some, length};
ghost use Rattle.hart_threads.specs.Bused.{Takes, call_turn, held_call, part_in};
ghost use Rattle.tallies.specs.Books.{keeper_view, no_book, told_after};

use hart::Hart;
use sbi::Word;
use std::marker::{Brand, PhantomData};
use susp::Bus;
use tallies::{Adding, Book, BookPart, Journal, Keeper};

/// A durable call: the hart that asked, as it stood at its call and as it was answered, and what its turn tells of it.
pub struct HeldCall {
    pub asked: Hart,
    pub answered: Hart,
    pub word: Word,
}

/// What was done in one hold of a bus: the bus as it was found, and as it was left, and the durable call for which it was held. It stands
/// in contracts alone, and no value of this type is ever made.
pub struct BusTurn {
    pub found: Bus,
    pub left: Bus,
    pub call: Option<HeldCall>,
}

impl Adding<BusTurn> for Brand {
    ghost use Rattle.hart_threads.specs.Bused.{begun_bus, bus_turn};

    ghost entry = { bus_turn (begun_bus []) (begun_bus []) };
}

/// The bus as a hold of it found it: a caller names itself `Brand` and picks it in its proof.
pub trait Remembers {
    ghost use Rattle.susp.specs.declared.buses.Bus.{Bus};

    ghost found: { Bus };
}

impl Remembers for Brand {
    ghost use Rattle.hart_threads.specs.Bused.{begun_bus};

    ghost found = { begun_bus [] };
}

/// The same of a durable call, with the hart as it stood there.
pub(crate) trait RemembersCall {
    ghost use Rattle.hart.specs.State.{ArchState};
    ghost use Rattle.susp.specs.declared.buses.Bus.{Bus};

    ghost bus: { Bus };

    ghost asked: { ArchState };
}

impl RemembersCall for Brand {
    ghost use Rattle.hart.specs.State.{never_started};
    ghost use Rattle.hart_threads.specs.Bused.{begun_bus};

    ghost bus = { begun_bus [] };

    ghost asked = { never_started 0 };
}

/// The name of the history of the bus in the life J. It has a part for the store, one for the console and one for each hart, in this
/// order.
pub struct OfBus<J: Journal> {
    of: PhantomData<J>,
}

impl<J: Journal> Journal for OfBus<J> {
    ghost found = { J.found };

    ghost size = { J.size };

    ghost issued = { [] };

    ghost memory = { [] };

    ghost book = { J.runs };

    ghost parts = { J.size.harts + 2 };

    ghost failures = { 0 };

    ghost doubts = { no_book };

    ghost runs = { no_book };

    ghost moment = { 0 };

    ghost earlier = { J.earlier };
}

/// What one holder did with the bus of the life J, hold by hold. It goes with the holder, and takes no bytes.
pub type BusPart<J> = BookPart<OfBus<J>, BusTurn>;

/// The parts of those who make a durable call: of the hart that asks for it, and of the store.
#[derive(Drop)]
pub(crate) struct CallParts<J: Journal> {
    pub(crate) caller: BusPart<J>,
    pub(crate) store: BusPart<J>,
}

/// The history of the bus of the life J.
pub(crate) type BusBook<J> = Book<OfBus<J>, BusTurn>;

/// What knows the whole history of that bus.
pub(crate) type BusKeeper<J> = Keeper<OfBus<J>, BusTurn>;

/// The part, which is there.
#[inline(always)]
pub(crate) fn held_part<J: Journal>(part: Option<BusPart<J>>) -> BusPart<J>
    requires { IsTrue (is_some part) }
    ensures { result ≡ part_in part }
{
    let Some(part) = part else { unreachable!() };
    part
}

/// Notes a durable call of that hart, which was answered so: for the part of the hart, and directly after it, for that of the store, that it
/// looked for this call.
pub(crate) fn note_call<A: RemembersCall, J: Journal>(
    book: &BusBook<J>,
    keeper: &mut BusKeeper<J>,
    parts: CallParts<J>,
    bus: &Bus,
    hart: &Hart,
    word: Word,
) -> CallParts<J>
    ensures keeper { keeper.new ≡ keeper_view (J.size.harts + 2)
        ((parts.store.who, call_turn (held_call A.asked hart.now word) bus.now bus.now)
        ∷ (parts.caller.who, call_turn (held_call A.asked hart.now word) A.bus bus.now) ∷ keeper.old.log) keeper.old.parts }
    ensures caller { Takes (call_turn (held_call A.asked hart.now word) A.bus bus.now) parts.caller result.caller }
    ensures store { Takes (call_turn (held_call A.asked hart.now word) bus.now bus.now) parts.store result.store }
{
    let CallParts { caller, store } = parts;
    let caller = note_asked::<A, J>(book, keeper, caller, bus, hart, word);
    let store = note_look::<A, J>(book, keeper, store, bus, hart, word);
    CallParts { caller, store }
}

/// Notes for that part the durable call of that hart.
fn note_asked<A: RemembersCall, J: Journal>(
    book: &BusBook<J>,
    keeper: &mut BusKeeper<J>,
    part: BusPart<J>,
    bus: &Bus,
    hart: &Hart,
    word: Word,
) -> BusPart<J>
    ensures keeper { keeper.new ≡ keeper_view (J.size.harts + 2)
        ((part.who, call_turn (held_call A.asked hart.now word) A.bus bus.now) ∷ keeper.old.log) keeper.old.parts }
    ensures part { Takes (call_turn (held_call A.asked hart.now word) A.bus bus.now) part result }
{
    note_turn::<Brand, J, _>(book, keeper, part, &(bus, hart, word))
}

/// Notes for that part a look for the durable call of that hart.
fn note_look<A: RemembersCall, J: Journal>(
    book: &BusBook<J>,
    keeper: &mut BusKeeper<J>,
    part: BusPart<J>,
    bus: &Bus,
    hart: &Hart,
    word: Word,
) -> BusPart<J>
    ensures keeper { keeper.new ≡ keeper_view (J.size.harts + 2)
        ((part.who, call_turn (held_call A.asked hart.now word) bus.now bus.now) ∷ keeper.old.log) keeper.old.parts }
    ensures part { Takes (call_turn (held_call A.asked hart.now word) bus.now bus.now) part result }
{
    note_turn::<Brand, J, _>(book, keeper, part, &(bus, hart, word))
}

/// Notes for that part the hold of the bus that A names. The values are an argument only so that the name can speak of them.
#[inline(always)]
pub(crate) fn note_turn<A: Adding<BusTurn>, J: Journal, T>(
    book: &BusBook<J>,
    keeper: &mut BusKeeper<J>,
    part: BusPart<J>,
    _values: &T,
) -> BusPart<J>
    ensures keeper { keeper.new ≡ keeper_view (J.size.harts + 2) ((part.who, A.entry) ∷ keeper.old.log) keeper.old.parts }
    ensures part { result ≡ told_after (suc (length keeper.old.log)) A.entry part }
{
    book.note_as::<A>(keeper, part)
}
