//! The machine of a model board: its memory, harts and tables, which can be set and taken back.
//! A law runs nothing, and tells the prover a fact: `hart::step_keeps_number`.

ghost use Rattle.std.specs.Prelude.{◌≡◌, ◌≢◌, ◌<◌, ◌≤◌, ℕ, List, Bool, true, false, None, IfOk, OnErr, length, Err, Some, get_or, IsOk, ◌+◌, ◌*◌};
ghost use Rattle.board_model.specs.Shapes.{ram_bytes_of};
ghost use Rattle.board_model.specs.declared.refusal.Refusal.TheVariants.{Memory};
ghost use Rattle.hart.specs.State.{ArchState, never_started, answered, reg, started as fresh};
ghost use Rattle.machine.specs.Machine.{hart_at, stopped_harts, resting, machine_begun};
ghost use Rattle.machine.specs.Turns.{MakesTurn, DozeTurn, DoneBy};
ghost use Rattle.sbi_abi.specs.Answers.{error_of};
ghost use Rattle.susp.specs.Dozes.{doze_of, dozing, can_wake};
ghost use Rattle.turns.specs.Turns.{TurnOf, has_pending, after_take};
ghost use Rattle.model_board.specs.Events.{woken_up};
ghost use Rattle.model_board.specs.Held.{IsAlone, with_hart};
ghost use Rattle.model_board.specs.LeftOut.{LEFT_OUT};
ghost use Rattle.model_board.specs.Maps.{KeepsMap, MovesTo, Map, SameOutside};
ghost use Rattle.model_board.specs.Masks.{map_of};
ghost use Rattle.model_board.specs.Plain.{begun_again, with_payload, IsPlain};
ghost use Rattle.model_board.specs.Registers.{TurnUnread};
ghost use Rattle.model_board.specs.Rests.{table_copied, IsCopy};
ghost use Rattle.ram.specs.Memory.{value, Stored};

use crate::alone::{step_alone, step_keeps};
use crate::left_out::{source_left_out, uses};
use crate::tables::{PlainTables, TableCopy};
use crate::touches::{Break, TouchMap};
use crate::whole;
use board_model::{HartId, RAM_BASE, Reason, Refusal, Shape};
use hart::Hart;
use ram::{Ram, Width};
use rv_decode::Reg;
use sbi_abi::{SbiError, put};
use sbi_calls::{Did, Turned};
use std::alloc::Global;
use std::marker::Model;
use store::Resumption;
use susp::{Bus, Doze, doze_of};

/// A board's memory, its doze, and its harts with their tables.
#[derive(Drop)]
pub struct PlainMachine {
    shape: Shape,
    bus: Bus,
    harts: Vec<Hart>,
    tables: PlainTables,
}

impl Model for PlainMachine {
    ghost use Rattle.machine.specs.Machine.{Machine};
    ghost use Rattle.model_board.specs.Plain.{IsPlain};

    ghost Value = { Machine };

    ghost view = { λ m. record { size = m.shape; memory = m.bus.ram; doze = m.bus.doze; harts = m.harts.items; table = m.tables } };

    ghost invariant = { λ m. IsPlain m.shape m.bus.ram m.harts.items m.tables };
}

/// The harts of a board, none of which ever ran.
fn stopped_harts(alloc: Global, shape: &Shape) -> Result<Vec<Hart>, Refusal>
    ensures harts { IfOk result (λ harts. harts.items ≡ stopped_harts shape.now.harts) }
    ensures refused { OnErr result (result ≡ Err Memory) }
{
    let mut harts = Vec::new(alloc);
    for number in 0..u64::from(shape.harts()) {
        if let Some(id) = shape.hart(number) {
            harts.push(Hart::stopped(id))?;
        }
    }
    Ok(harts)
}

/// Makes each of the harts, at most eight, one that never ran.
fn stop_all(harts: &mut Vec<Hart>)
    requires { length harts.old.items ≤ 8 }
    ensures { harts.new.items ≡ stopped_harts (length harts.old.items) }
{
    for place in 0..harts.len() {
        let id = HartId::new(place as u64).unwrap();
        harts[place] = Hart::stopped(id);
    }
}

/// The address of a word of 8 bytes, by its number from the start of RAM.
fn address_of(ram: &Ram, word: usize) -> u64
    requires { 8 * word + 8 ≤ length ram.now }
    ensures { result ≡ 0x80000000 + 8 * word }
{
    let _ = ram.bytes();
    RAM_BASE + 8 * word as u64
}

impl PlainMachine {
    /// A turn of the hart of a doze.
    fn doze_turn(&mut self, hart: HartId, doze: Doze) -> Turned
        requires { hart < self.old.size.harts }
        ensures turn { DozeTurn doze.woken doze hart self.old self.new result }
        ensures size { self.new.size ≡ self.old.size }
    {
        let address = doze.at.address;
        let opaque = doze.at.opaque;
        if !doze.woken {
            return Turned::Made(Did::Idle);
        }
        let place = hart.index();
        self.harts[place] = Hart::fresh(hart, address.value(), opaque);
        self.tables.take(hart);
        self.bus.doze = None;
        Turned::Made(Did::Resumed)
    }

    /// A turn of a hart in whose doze the board is not.
    fn own_turn(&mut self, hart: HartId) -> Turned
        requires { hart < self.old.size.harts }
        ensures turn { DoneBy (λ a b. TurnOf self.old.size a b result) hart self.old self.new }
        ensures size { self.new.size ≡ self.old.size }
    {
        hart::step_keeps_number();
        whole::turn(
            &mut self.harts[hart.index()],
            &mut self.tables,
            &mut self.bus.ram,
            &self.shape,
        )
    }

    /// The doze of the board, where it is that hart's.
    fn dozes(&self, hart: HartId) -> Option<Doze>
        ensures { result ≡ doze_of hart self.now.doze }
    {
        doze_of(&self.bus.doze, hart)
    }

    /// A turn of a hart. A durable call is left as it is (`Turned::Durable`).
    pub fn turn(&mut self, hart: HartId) -> Turned
        requires { hart < self.old.size.harts }
        ensures turn { MakesTurn hart self.old self.new result }
        ensures size { self.new.size ≡ self.old.size }
        ensures outside { (map : Map) → KeepsMap map hart self.old → SameOutside map self.old.memory self.new.memory }
    {
        match self.dozes(hart) {
            Some(doze) => self.doze_turn(hart, doze),
            None => self.own_turn(hart),
        }
    }

    /// A hart, as it stands.
    pub fn hart(&self, hart: HartId) -> &Hart
        requires { hart < self.now.size.harts }
        ensures stands { result.now ≡ hart_at self.now hart }
        ensures numbered { result.now.id ≡ hart }
    {
        &self.harts[hart.index()]
    }

    /// Puts a hart of that number in the place of the board's.
    pub fn set_hart(&mut self, hart: Hart)
        requires { hart.id < self.old.size.harts }
        ensures { self.new ≡ with_hart hart.id self.old hart }
    {
        let place = hart.id().index();
        self.harts[place] = hart;
    }

    /// Its doze and its tables.
    pub(crate) fn rest(&self) -> (Option<Doze>, TableCopy)
        ensures doze { result.0 ≡ self.now.doze }
        ensures table { self.now.table ≡ table_copied self.now.size.harts result.1 }
        ensures fits { IsCopy self.now.size.harts result.1 }
        ensures plain { IsPlain self.now.size self.now.memory self.now.harts self.now.table }
    {
        (self.bus.doze, self.tables.copy())
    }

    /// Puts back its doze and its tables.
    pub(crate) fn put_rest(&mut self, doze: Option<Doze>, tables: &TableCopy)
        requires { IsCopy self.old.size.harts tables.now }
        ensures { self.new ≡ record self.old { doze = doze; table = table_copied self.old.size.harts tables.now } }
    {
        self.bus.doze = doze;
        self.tables.set(tables);
    }

    /// The number in a word of 8 bytes, by its number from the start of RAM.
    pub fn word(&self, word: usize) -> u64
        requires { 8 * word + 8 ≤ length self.now.memory }
        ensures { result ≡ value self.now.memory (8 * word) 8 }
    {
        match self
            .bus
            .ram
            .load(address_of(&self.bus.ram, word), Width::Double)
        {
            Ok(value) => value,
            Err(_) => 0,
        }
    }

    /// Puts a number into a word of 8 bytes.
    pub fn put_word(&mut self, word: usize, value: u64)
        requires { 8 * word + 8 ≤ length self.old.memory }
        ensures word { Stored self.old.memory self.new.memory (8 * word) 8 value }
        ensures others { self.new ≡ record self.old { memory = self.new.memory } }
    {
        let at = address_of(&self.bus.ram, word);
        let _ = self.bus.ram.store(at, Width::Double, value);
    }

    /// Whether an interrupt is pending for a hart.
    pub fn is_pending(&self, hart: HartId) -> bool
        requires { hart < self.now.size.harts }
        ensures { result ≡ has_pending hart self.now.table.pairs }
    {
        self.tables.is_pending(hart)
    }

    /// A machine of that shape before a boot, whose hart 0 is to begin: RAM is zeros, every other hart is STOPPED, and
    /// nothing is pending. Refused 11 where there is no room for it.
    pub fn new(alloc: Global, shape: &Shape) -> Result<Self, Refusal>
        ensures resting { IfOk result (λ m. m ≡ resting shape.now 0) }
        ensures refused { OnErr result (result ≡ Err Memory) }
    {
        let ram = Ram::new(alloc, *shape)?;
        let harts = stopped_harts(alloc, shape)?;
        let tables = PlainTables::new(alloc, shape)?;
        board_model::shape_in_range(shape);
        Ok(PlainMachine {
            shape: *shape,
            bus: Bus { ram, doze: None },
            harts,
            tables,
        })
    }

    /// Every hart as one that never ran, of which `first` begins at the address: no interrupt is pending, the board does
    /// not doze, and the memory stays.
    pub fn begin_again(&mut self, first: HartId, pc: u64, a1: u64)
        requires { first < self.old.size.harts }
        ensures { self.new ≡ begun_again first pc a1 self.old }
    {
        stop_all(&mut self.harts);
        self.harts[first.index()] = Hart::fresh(first, pc, a1);
        self.tables.reset(first);
        self.bus.doze = None;
    }

    /// Boots a payload: RAM holds it and zeros after it, and hart 0 begins.
    pub fn boot(&mut self, payload: &[u8], reason: Reason)
        requires { length payload.now ≤ ram_bytes_of self.old.size }
        ensures { self.new ≡ machine_begun payload.now reason self.old.size }
    {
        self.put_payload(payload);
        let first = HartId::new(0).unwrap();
        self.begin_again(first, RAM_BASE, u64::from(reason.number()));
    }

    /// RAM holds the payload, and zeros after it.
    pub(crate) fn put_payload(&mut self, payload: &[u8])
        requires { length payload.now ≤ ram_bytes_of self.old.size }
        ensures payload { self.new ≡ with_payload payload.now self.old }
        ensures some { 0 < self.old.size.harts }
    {
        self.bus.ram.boot(payload);
    }

    /// The shape of the board.
    pub fn shape(&self) -> &Shape
        ensures { result.now ≡ self.now.size }
    {
        &self.shape
    }

    /// The memory.
    pub fn ram(&self) -> &Ram
        ensures { result.now ≡ self.now.memory }
    {
        &self.bus.ram
    }

    /// The hart finds an error, and goes on.
    pub fn refuse(&mut self, hart: HartId, error: SbiError)
        requires { hart < self.old.size.harts }
        ensures { self.new ≡ with_hart hart self.old (answered (hart_at self.old hart) (error_of (Err error)) 0) }
    {
        put(&mut self.harts[hart.index()], Err(error));
    }

    /// Whether every other hart is STOPPED.
    pub fn is_alone(&self, hart: HartId) -> bool
        ensures alone { result ≡ true → IsAlone hart self.now }
        ensures beside { result ≡ false → IsAlone hart self.now → ⊥ }
    {
        self.tables.is_alone(hart)
    }

    /// The board sleeps in its RAM, until the wake-up device calls.
    pub fn fall_into_doze(&mut self, at: Resumption)
        ensures { self.new ≡ record self.old { doze = Some (dozing at.hart at.address at.opaque) } }
    {
        self.bus.doze = Some(Doze { at, woken: false });
    }

    /// Calls the wake-up device. Whether the board dozed and was not woken before; if not, nothing changes.
    pub fn wake(&mut self) -> bool
        ensures wakes { result ≡ true → (can_wake self.old.doze ≡ true) × (self.new ≡ woken_up self.old) }
        ensures stays { result ≡ false → (can_wake self.old.doze ≡ false) × (self.new ≡ self.old) }
        ensures memory { self.new.memory ≡ self.old.memory }
    {
        match self.bus.doze {
            Some(doze) => {
                if doze.woken {
                    return false;
                }
                self.bus.doze = Some(Doze {
                    at: doze.at,
                    woken: true,
                });
                true
            }
            None => false,
        }
    }

    /// Whether what the next turn of a hart touches, it may by the map.
    pub fn keeps(&mut self, hart: HartId, map: &TouchMap) -> Result<(), Break>
        requires { hart < self.old.size.harts }
        ensures same { self.new ≡ self.old }
        ensures keeps { IsOk result → KeepsMap (map_of map.now) hart self.old }
    {
        if !self.tables.is_started(hart) {
            return Ok(());
        }
        let pending = self.tables.is_pending(hart);
        let own = &self.harts[hart.index()];
        step_keeps(own, &mut self.bus.ram, &self.shape, pending, map)
    }

    /// A register that is left out and that the next turn of a hart may read, where there is one.
    pub fn source_left_out(&mut self, hart: HartId) -> Option<Reg>
        requires { hart < self.old.size.harts }
        ensures same { self.new ≡ self.old }
        ensures none { result ≡ None → (k : ℕ) → k < 32 → reg (hart_at self.old hart) k ≡ LEFT_OUT → TurnUnread hart k self.old }
    {
        let own = &self.harts[hart.index()];
        source_left_out(own, &mut self.bus.ram)
    }

    /// The registers that the next turn of a hart reads, and those that it writes, as the bits of numbers: a guess.
    pub fn uses(&mut self, hart: HartId) -> (u32, u32)
        requires { hart < self.old.size.harts }
        ensures { self.new ≡ self.old }
    {
        if !self.tables.is_started(hart) {
            return (0, 0);
        }
        let own = &self.harts[hart.index()];
        uses(own, &mut self.bus.ram)
    }

    /// Makes the next turn of a hart of a board that does not doze where it is local by the map. Whether it did; if not, nothing
    /// changes.
    fn own_alone(&mut self, hart: HartId, map: &TouchMap) -> bool
        requires known { hart < self.old.size.harts }
        requires awake { self.old.doze ≡ None }
        ensures local { result ≡ true → MovesTo (map_of map.now) hart self.old self.new }
        ensures moves { result ≡ true → (hart_at self.new hart).pc ≢ (hart_at self.old hart).pc }
        ensures stays { result ≡ false → self.new ≡ self.old }
    {
        if !self.tables.is_started(hart) {
            return false;
        }
        let pending = self.tables.is_pending(hart);
        let own = &mut self.harts[hart.index()];
        step_alone(own, &mut self.bus.ram, pending, map)
    }

    /// Makes the next turn of a hart where it is local by the map. Whether it did; if not, nothing changes.
    pub fn move_alone(&mut self, hart: HartId, map: &TouchMap) -> bool
        requires { hart < self.old.size.harts }
        ensures local { result ≡ true → MovesTo (map_of map.now) hart self.old self.new }
        ensures moves { result ≡ true → (hart_at self.new hart).pc ≢ (hart_at self.old hart).pc }
        ensures stays { result ≡ false → self.new ≡ self.old }
    {
        match self.bus.doze {
            Some(_) => false,
            None => self.own_alone(hart, map),
        }
    }
}
