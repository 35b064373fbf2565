//! The bus of a board on threads, which knows of which life its memory is.

ghost use Rattle.std.specs.Prelude.{◌≡◌, ◌<◌, ◌+◌, ◌↔◌, ◌∷◌, true, IsOk, OnOk, IfErr, drop, length};
ghost use Rattle.tallies.specs.BookViews.{id_of, parts_of};
ghost use Rattle.tallies.specs.Books.{Each, IsPart, first_of, fresh_from};
ghost use Rattle.board_model.specs.declared.refusal.Refusal.{Refusal};
ghost use Rattle.hart.specs.Means.{Steps};
ghost use Rattle.hsm.specs.declared.view.Stage.TheVariants.{Quiet, Running};
ghost use Rattle.sbi.specs.Helds.{MakesHeld};
ghost use Rattle.sbi.specs.Words.{stage_told};
ghost use Rattle.sbi_abi.specs.Calls.{call_of};
ghost use Rattle.sbi_calls.specs.Both.{AreSeatsOfBoth, GivesBack, Acts, harts_of_both, known};
ghost use Rattle.store.specs.Views.{life_of, size_of_store};
ghost use Rattle.susp.specs.Dozes.{can_wake, after_wake};
ghost use Rattle.hart_threads.specs.Dozes.{doze_left, is_woken};
ghost use Rattle.hart_threads.specs.Heard.{after_waking};
ghost use Rattle.hart_threads.specs.Bused.{AreSaved, HasCalls, IsCalled, Made, Takes, TakesBus, begun_bus, call_turn, held_call, part_of_hart};

use crate::bus_turns::{
    BusBook, BusKeeper, BusPart, BusTurn, CallParts, Remembers, RemembersCall, held_part,
    note_call, note_turn,
};
use crate::heard::Heard;
use board_model::{HartId, Refusal};
use crew::Crew;
use disk::Disk;
use hart::{Hart, Outcome};
use sbi::{Word, dispatch_held};
use sbi_calls::{Seats, Tables};
use std::alloc::{AllocError, Global};
use std::marker::Brand;
use store::{Saving, Store};
use susp::{Bus, Doze, doze_of, wake};
use tallies::{Journal, NewBook};

/// The memory of a board on threads, and its doze where it sleeps to RAM, of the life J. Each hold of it in which
/// something is done is noted in its history, in the part of the holder: so it is what the turns of that history made, one after another,
/// of the bus that J's boot left. A durable call of a hart is noted as that, and directly after it that the store looked for this very call.
///
/// A type keeps that, and a lock keeps its value's type. Nothing reaches the memory or the doze but the calls of this type
/// and `SharedStore::call`.
#[derive(Drop)]
pub struct SharedBus<J: Journal> {
    pub(crate) bus: Bus,
    book: BusBook<J>,
    keeper: BusKeeper<J>,
    ghost made: { Made keeper.log (begun_bus J.memory) bus },
    ghost calls: { HasCalls keeper.log },
}

/// The doze that stays on the bus once a look told that.
fn doze_left(woken: bool, found: Option<Doze>) -> Option<Doze>
    ensures { result ≡ doze_left woken found }
{
    if woken { None } else { found }
}

/// Whether it is that hart's, and the board was woken.
fn is_woken(found: &Option<Doze>, by: HartId) -> bool
    ensures { result ≡ is_woken by found.now }
{
    match doze_of(found, by) {
        Some(doze) => doze.woken,
        None => false,
    }
}

impl<J: Journal> SharedBus<J> {
    ghost use Rattle.hart_threads.specs.Views.{bus_in, bus_log, bus_parts};

    /// The bus of a life that has just begun, with the memory that its boot left, and a new book for its history.
    pub fn new(bus: Bus, book: NewBook<BusTurn>) -> SharedBus<J>
        requires bus { bus ≡ begun_bus J.memory }
        requires book { id_of book ≡ J.runs }
        requires parts { parts_of book ≡ J.size.harts + 2 }
        ensures bus { bus_in result ≡ bus }
        ensures parts { bus_parts result ≡ fresh_from 0 (J.size.harts + 2) }
    {
        let (book, keeper) = book.named();
        SharedBus { bus, book, keeper }
    }

    /// The next part of its history goes off, which was told nothing.
    pub(crate) fn hand_out(&mut self) -> BusPart<J>
        requires some { 0 < length (bus_parts self.old) }
        ensures bus { bus_in self.new ≡ bus_in self.old }
        ensures parts { bus_parts self.new ≡ drop 1 (bus_parts self.old) }
        ensures part { result ≡ first_of (bus_parts self.old) }
    {
        self.book.hand_out(&mut self.keeper)
    }

    /// A part comes back.
    pub fn gather(&mut self, part: BusPart<J>)
        ensures bus { bus_in self.new ≡ bus_in self.old }
        ensures log { bus_log self.new ≡ bus_log self.old }
        ensures parts { bus_parts self.new ≡ part ∷ bus_parts self.old }
    {
        self.book.gather(&mut self.keeper, part);
    }

    /// Ends the history. Its turns made what the bus is, one after another, of what the boot left. Directly after each durable call of a
    /// hart the store looked for it. Each part that is back was told just what the history has of it, and each turn is of one of the parts.
    pub fn close(self)
        ensures made { Made (bus_log self) (begun_bus J.memory) (bus_in self) }
        ensures calls { HasCalls (bus_log self) }
        ensures told { Each (IsPart (bus_log self)) (bus_parts self) }
        ensures of { Each (λ e. e.0 < J.size.harts + 2) (bus_log self) }
    {
        let mut keeper = self.keeper;
        self.book.look(&mut keeper);
    }

    /// The doze, where the board sleeps to RAM.
    pub fn doze(&self) -> Option<Doze>
        ensures { result ≡ (bus_in self.now).doze }
    {
        self.bus.doze
    }

    /// One step of the hart with this memory, for which an interrupt is pending or not. The doze stays.
    #[inline(always)]
    pub fn step<A: Remembers>(
        &mut self,
        hart: &mut Hart,
        pending: bool,
        part: BusPart<J>,
    ) -> (Outcome, BusPart<J>)
        requires before { A.found ≡ bus_in self.old }
        ensures steps { Steps pending hart.old (bus_in self.old).ram hart.new (bus_in self.new).ram result.0 }
        ensures doze { (bus_in self.new).doze ≡ (bus_in self.old).doze }
        ensures noted { TakesBus (bus_in self.old) (bus_in self.new) part result.1 }
    {
        let outcome = hart.step(&mut self.bus.ram, pending);
        let part = note_turn::<Brand, J, _>(&self.book, &mut self.keeper, part, &self.bus);
        (outcome, part)
    }

    /// One look for a hart in whose doze the board may be: whether it is, and was woken. Then the doze is over. The memory
    /// stays. Only who has the seat of that hart, which is quiet, may ask.
    pub fn end_doze<A: Remembers>(
        &mut self,
        seats: &Seats,
        tables: &Tables,
        by: HartId,
        part: BusPart<J>,
    ) -> (bool, BusPart<J>)
        requires before { A.found ≡ bus_in self.old }
        requires seats { AreSeatsOfBoth tables.now seats.now }
        requires quiet { Acts by Quiet seats.now }
        ensures woken { result.0 ≡ is_woken by (bus_in self.old).doze }
        ensures memory { (bus_in self.new).ram ≡ (bus_in self.old).ram }
        ensures left { (bus_in self.new).doze ≡ doze_left result.0 (bus_in self.old).doze }
        ensures noted { TakesBus (bus_in self.old) (bus_in self.new) part result.1 }
    {
        let _ = seats;
        let _ = tables;
        let woken = is_woken(&self.bus.doze, by);
        self.bus.doze = doze_left(woken, self.bus.doze);
        let part = note_turn::<Brand, J, _>(&self.book, &mut self.keeper, part, &self.bus);
        (woken, part)
    }

    /// Calls the wake-up device, as `susp::wake`, for the console, which hears of it: a board that dozes is woken, once. Refused
    /// `NotDozing` where none dozes or it was woken already, and then nothing changes.
    pub fn wake<A: Remembers>(&mut self, heard: &mut Heard<J>) -> Result<(), Refusal>
        requires before { A.found ≡ bus_in self.old }
        ensures ok { IsOk result ↔ (can_wake (bus_in self.old).doze ≡ true) }
        ensures memory { (bus_in self.new).ram ≡ (bus_in self.old).ram }
        ensures woken { OnOk result ((bus_in self.new).doze ≡ after_wake (bus_in self.old).doze) }
        ensures refused { IfErr result (λ e. (e ≡ Refusal.NotDozing) × (bus_in self.new ≡ bus_in self.old)) }
        ensures heard { heard.new ≡ after_waking result heard.old }
    {
        wake(&mut self.bus)?;
        let part = held_part(heard.run.take());
        let part = note_turn::<Brand, J, _>(&self.book, &mut self.keeper, part, &self.bus);
        heard.run = Some(part);
        heard.woken = heard.woken.wrapping_add(1);
        Ok(())
    }

    /// The durable call at which a hart stands, as `dispatch_held` with this bus and that store. The memory stays; and a
    /// suspension carries it. The call is noted in the part of the hart, and directly after it a look for it in that of the store.
    pub(crate) fn call<A: RemembersCall, D: Disk + Drop, C: Crew>(
        &mut self,
        saving: Saving<'_, C>,
        hart: &mut Hart,
        seats: Seats,
        tables: &Tables,
        store: &mut Store<D>,
        parts: CallParts<J>,
    ) -> (Seats, Word, CallParts<J>)
        requires before { A.bus ≡ bus_in self.old }
        requires asked { A.asked ≡ hart.old }
        requires seats { AreSeatsOfBoth tables.now seats }
        requires acts { Acts hart.old.id Running seats }
        requires hart { hart.old.id < harts_of_both tables.now }
        requires board { size_of_store store.old ≡ J.size }
        requires caller { parts.caller.who ≡ part_of_hart hart.old.id }
        requires saved { AreSaved J.size (life_of store.old) parts.store }
        ensures gives { GivesBack tables.entry.now hart.old.id seats result.0 }
        ensures acts { Acts hart.old.id (stage_told result.1) result.0 }
        ensures id { hart.new.id ≡ hart.old.id }
        ensures makes { MakesHeld (harts_of_both tables.entry.now) (call_of hart.old) hart.old hart.new
            (known seats) (known result.0) (bus_in self.old) (bus_in self.new) store.old store.new result.1 }
        ensures memory { (bus_in self.new).ram ≡ (bus_in self.old).ram }
        ensures saved { AreSaved J.size (life_of store.new) result.2.store }
        ensures called { IsCalled result.1 (bus_in self.old) (bus_in self.new) }
        ensures noted { Takes (call_turn (held_call hart.old hart.new result.1) (bus_in self.old) (bus_in self.new))
            parts.caller result.2.caller }
    {
        let (seats, word) = dispatch_held(saving, hart, seats, tables, &mut self.bus, store);
        let parts = note_call::<Brand, J>(
            &self.book,
            &mut self.keeper,
            parts,
            &self.bus,
            hart,
            word,
        );
        (seats, word, parts)
    }
}
