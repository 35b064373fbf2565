//! The memory, the harts, and both tables with the one seat of all harts.
//! A law runs nothing, and tells the prover a fact: `hsm::seat_determines_states`, `ipi::seat_determines_pairs`,
//! `hart::step_keeps_number`.

ghost use Rattle.std.specs.Prelude.{◌≡◌, ◌⊎◌, ◌≤◌, ◌<◌, ◌+◌, ◌-◌, ◌*◌, ◌++◌, ℕ, length, replicate, IfOk, IfErr, IsOk, IsErrOf, OnOk, OnErr, true, Ok, Err, Some, None, IsTrue, ◌↔◌};
ghost use Rattle.board_model.specs.declared.refusal.Refusal.TheVariants.{Memory, NotDozing};
ghost use Rattle.turns.specs.Turns.{has_pending, TurnOf};
ghost use Rattle.susp.specs.Dozes.{doze_of, can_wake, after_wake};
ghost use Rattle.sbi_calls.specs.declared.words.Turned.TheVariants.{Durable};
ghost use Rattle.disk.specs.Facts.{Failed, counted};
ghost use Rattle.store.specs.Views.{disk_of, size_of_store, now_state, failures_at_open, view_of};
ghost use Rattle.machine.specs.Machine.{hart_at, status_at};
ghost use Rattle.turns.specs.Many.{RowOf};
ghost use Rattle.machine.specs.Turns.{MakesTurn, MakesRow, MakesOneCall, DoneBy, DozeTurn, CallOf, calling};
ghost use Rattle.machine.specs.Held.{IsHeld, board_of, shown_by};
ghost use Rattle.machine.specs.Durables.{StandsAtCall, MakesCall};
ghost use Rattle.machine.specs.Dozes.{Dozes};
ghost use Rattle.sbi.specs.Words.{word_of_sleep};
ghost use Rattle.susp.specs.declared.sleeps.Sleep.TheVariants.{ToRam};

use crate::calls::call_in_place;
use crate::copies::{copy_harts, copy_tables};
use crate::holds::make_held;
use crate::parts::Parts;
use crate::states::see;
use board_model::{CallWords, HartId, Refusal, Shape};
use crew::Crew;
use disk::Disk;
use hart::Hart;
use hsm::State;
use ram::Ram;
use sbi::Word;
use sbi_calls::{Did, Seats, Tables, Turned};
use std::alloc::Global;
use std::marker::Model;
use store::{Saving, Store};
use susp::{Bus, Doze, doze_of};

/// A board's memory, harts and tables, which contracts see as the record `Machine` of specs/. The seats are
/// out of their place only within a call.
#[derive(Drop)]
pub struct Machine {
    bus: Bus,
    harts: Vec<Hart>,
    shape: Shape,
    tables: Tables,
    seats: Option<Seats>,
}

impl Model for Machine {
    ghost use Rattle.machine.specs.Machine.{Machine};
    ghost use Rattle.machine.specs.Held.{table_of, IsHeld};

    ghost Value = { Machine };

    ghost view = { λ m. record
        { size = m.shape; memory = m.bus.ram; doze = m.bus.doze; harts = m.harts.items; table = table_of m.shape.harts m.seats } };

    ghost invariant = { λ m. IsHeld m.shape m.harts.items m.tables m.seats m.bus.doze };
}

impl Machine {
    /// The machine that these parts make.
    pub(crate) fn of(shape: Shape, parts: Parts) -> Machine
        requires { IsHeld shape parts.harts.items parts.tables (Some parts.seats) parts.bus.doze }
        ensures { result ≡ board_of shape parts.bus.ram parts.bus.doze parts.harts.items parts.seats }
    {
        let Parts {
            harts,
            seats,
            tables,
            bus,
        } = parts;
        Machine {
            bus,
            harts,
            shape,
            tables,
            seats: Some(seats),
        }
    }

    /// Whether the board has a hart of that number.
    pub fn has(&self, id: HartId) -> bool
        ensures { IsTrue result ↔ (id < length self.now.harts) }
    {
        id.index() < self.harts.len()
    }

    /// The memory.
    pub fn ram(&self) -> &Ram
        ensures { result.now ≡ self.now.memory }
    {
        &self.bus.ram
    }

    /// A hart of the board.
    pub fn hart(&self, id: HartId) -> &Hart
        requires { id < length self.now.harts }
        ensures { result.now ≡ hart_at self.now id }
    {
        &self.harts[id.index()]
    }

    /// Whether an interrupt is pending for a hart. It is one look at the table by that hart's seat, so it
    /// needs the whole machine, and leaves it as it was.
    pub fn pending(&mut self, id: HartId) -> bool
        requires { id < length self.old.harts }
        ensures value { result ≡ has_pending id self.old.table.pairs }
        ensures stays { self.new ≡ self.old }
    {
        let seats = self.seats.take().unwrap();
        let (seats, pending) = turns::look(seats, &self.tables, id);
        hsm::seat_determines_states();
        ipi::seat_determines_pairs();
        self.seats = Some(seats);
        pending
    }

    /// The state of a hart, as `sbi_hart_get_status` names it (SBI specification 2.0, chapter HSM). It is one look at
    /// the table by that hart's seat, so it needs the whole machine, and leaves it as it was.
    pub fn state(&mut self, id: HartId) -> State
        requires { id < length self.old.harts }
        ensures value { result ≡ status_at self.old id }
        ensures stays { self.new ≡ self.old }
    {
        let seats = self.seats.take().unwrap();
        let (seats, state) = see(seats, &self.tables, id);
        hsm::seat_determines_states();
        ipi::seat_determines_pairs();
        self.seats = Some(seats);
        state
    }

    /// The doze of the board, where it is that hart's.
    fn dozes(&self, id: HartId) -> Option<Doze>
        ensures { result ≡ doze_of id self.now.doze }
    {
        doze_of(&self.bus.doze, id)
    }

    /// A turn of the hart of a doze: nothing until the board is woken, and then it begins again.
    fn doze_turn(&mut self, id: HartId, doze: Doze) -> Turned
        requires hart { id < length self.old.harts }
        requires dozes { doze_of id self.old.doze ≡ Some doze }
        ensures { DozeTurn doze.woken doze id self.old self.new result }
    {
        let address = doze.at.address;
        let opaque = doze.at.opaque;
        if !doze.woken {
            return Turned::Made(Did::Idle);
        }
        let seats = self.seats.take().unwrap();
        let seats = turns::resume(
            &mut self.harts[id.index()],
            seats,
            &self.tables,
            address,
            opaque,
        );
        hsm::seat_determines_states();
        ipi::seat_determines_pairs();
        self.bus.doze = None;
        self.seats = Some(seats);
        Turned::Made(Did::Resumed)
    }

    /// One turn of a hart. In a doze its hart does nothing until the board is woken.
    pub fn turn(&mut self, id: HartId) -> Turned
        requires { id < length self.old.harts }
        ensures turns { MakesTurn id self.old self.new result }
        ensures asks { result ≡ Durable → StandsAtCall id self.new }
        ensures harts { length self.new.harts ≡ length self.old.harts }
    {
        hart::step_keeps_number();
        match self.dozes(id) {
            Some(doze) => self.doze_turn(id, doze),
            None => self.own_turn(id),
        }
    }

    /// A turn of a hart in whose doze the board is not.
    fn own_turn(&mut self, id: HartId) -> Turned
        requires hart { id < length self.old.harts }
        requires awake { doze_of id self.old.doze ≡ None }
        ensures { DoneBy (λ a b. TurnOf self.old.size a b result) id self.old self.new }
    {
        let seats = self.seats.take().unwrap();
        let (seats, turned) = turns::turn(
            &mut self.harts[id.index()],
            seats,
            &self.tables,
            &mut self.bus.ram,
            &self.shape,
        );
        hsm::seat_determines_states();
        ipi::seat_determines_pairs();
        self.seats = Some(seats);
        turned
    }

    /// Turns of a hart in a row by one look at the tables, `most` of them at most: how many were made, and
    /// what the last one did. Each before it said `Next`. A hart that dozes makes one.
    pub fn turns_by_one_look(&mut self, id: HartId, most: u32) -> (u32, Turned)
        requires hart { id < length self.old.harts }
        requires some { 1 ≤ most }
        ensures row { MakesRow id result.0 self.old self.new result.1 }
        ensures range { (1 ≤ result.0) × (result.0 ≤ most) }
        ensures asks { result.1 ≡ Durable → StandsAtCall id self.new }
        ensures harts { length self.new.harts ≡ length self.old.harts }
    {
        hart::step_keeps_number();
        match self.dozes(id) {
            Some(doze) => (1, self.doze_turn(id, doze)),
            None => self.own_row(id, most),
        }
    }

    /// Turns in a row of a hart in whose doze the board is not.
    fn own_row(&mut self, id: HartId, most: u32) -> (u32, Turned)
        requires hart { id < length self.old.harts }
        requires awake { doze_of id self.old.doze ≡ None }
        requires some { 1 ≤ most }
        ensures row { DoneBy (λ a b. RowOf self.old.size result.0 a b result.1) id self.old self.new }
        ensures range { (1 ≤ result.0) × (result.0 ≤ most) }
    {
        let seats = self.seats.take().unwrap();
        let (seats, made, turned) = turns::turns_by_one_look(
            &mut self.harts[id.index()],
            seats,
            &self.tables,
            &mut self.bus.ram,
            &self.shape,
            most,
        );
        hsm::seat_determines_states();
        ipi::seat_determines_pairs();
        self.seats = Some(seats);
        (made, turned)
    }

    /// An SBI call that is made in the place of a hart: sets a0 to a2, a6 and a7, and acts as if ECALL stood
    /// at its pc. After `Next` it was answered. A hart that is not STARTED, or that dozes, makes none, and stays
    /// as it was.
    pub fn call(&mut self, id: HartId, call: CallWords) -> Option<Turned>
        requires { id < length self.old.harts }
        ensures calls { MakesOneCall id call self.old self.new result }
        ensures asks { result ≡ Some Durable → StandsAtCall id self.new }
        ensures harts { length self.new.harts ≡ length self.old.harts }
    {
        match self.dozes(id) {
            Some(_) => None,
            None => self.own_call(id, call),
        }
    }

    /// An SBI call in the place of a hart in whose doze the board is not.
    fn own_call(&mut self, id: HartId, call: CallWords) -> Option<Turned>
        requires hart { id < length self.old.harts }
        requires awake { doze_of id self.old.doze ≡ None }
        ensures { DoneBy (λ a b. CallOf self.old.size
            (calling a.hart call) a b result) id self.old self.new }
    {
        let seats = self.seats.take().unwrap();
        let (seats, called) = call_in_place(
            &mut self.harts[id.index()],
            seats,
            &self.tables,
            &self.shape,
            call,
        );
        hsm::seat_determines_states();
        ipi::seat_determines_pairs();
        self.seats = Some(seats);
        called
    }

    /// Makes the durable call at which a hart stands, as `sbi::dispatch_held` says, with a store and this
    /// memory: a turn or a call told `Durable`. A reset and a suspension to disk end the life, and no hart
    /// makes a turn after them. In a doze its hart makes none until the board is woken.
    pub fn make_call<D: Disk + Drop, C: Crew>(
        &mut self,
        alloc: Global,
        id: HartId,
        store: &mut Store<D>,
        crew: &C,
    ) -> Word
        requires hart { id < length self.old.harts }
        requires stands { StandsAtCall id self.old }
        ensures makes { MakesCall id self.old self.new store.old store.new result }
        ensures dozes { result ≡ word_of_sleep ToRam → Dozes self.new }
        ensures harts { length self.new.harts ≡ length self.old.harts }
    {
        let seats = self.seats.take().unwrap();
        let (seats, word) = make_held(
            Saving { alloc, crew },
            &mut self.harts[id.index()],
            seats,
            &self.tables,
            &mut self.bus,
            store,
        );
        hsm::seat_determines_states();
        ipi::seat_determines_pairs();
        self.seats = Some(seats);
        word
    }

    /// Calls the wake-up device, as `susp::wake`: a board that dozes is woken, once. Refused `NotDozing` where
    /// none dozes or it was woken already. Its hart begins again in its next turn.
    pub fn wake(&mut self) -> Result<(), Refusal>
        ensures ok { IsOk result ↔ (can_wake self.old.doze ≡ true) }
        ensures woken { OnOk result (self.new ≡ record self.old { doze = after_wake self.old.doze }) }
        ensures refused { IfErr result (λ e. (e ≡ NotDozing) × (self.new ≡ self.old)) }
    {
        susp::wake(&mut self.bus)
    }

    /// A machine that stands as this one, which stays as it was. Refused `Memory` where there is no room for it.
    pub fn copy(&mut self, alloc: Global) -> Result<Machine, Refusal>
        ensures stays { self.new ≡ self.old }
        ensures same { IfOk result (λ copy. copy ≡ self.old) }
        ensures refused { OnErr result (result ≡ Err Memory) }
    {
        let ram = self.bus.ram.copy(alloc)?;
        let harts = copy_harts(alloc, self.harts.as_slice())?;
        let mut seats = self.seats.take().unwrap();
        let made = copy_tables(alloc, &self.tables, &mut seats, &self.shape, &self.bus.doze);
        self.seats = Some(seats);
        let (tables, all) = made?;
        Ok(Machine {
            bus: Bus {
                ram,
                doze: self.bus.doze,
            },
            harts,
            shape: self.shape,
            tables,
            seats: Some(all),
        })
    }

    /// The parts of the machine, with the seat of all harts, by which `split` makes one for each.
    pub fn into_parts(self) -> Parts
        ensures harts { result.harts.items ≡ self.harts }
        ensures ram { result.bus.ram ≡ self.memory }
        ensures doze { result.bus.doze ≡ self.doze }
        ensures held { IsHeld self.size result.harts.items result.tables (Some result.seats) self.doze }
        ensures shows { shown_by self.size.harts result.seats ≡ self.table }
    {
        let Machine {
            bus,
            harts,
            shape: _,
            tables,
            seats,
        } = self;
        let seats = seats.unwrap();
        Parts {
            harts,
            seats,
            tables,
            bus,
        }
    }
}
