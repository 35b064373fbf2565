//! A model board, with what may happen to it.

ghost use Rattle.std.specs.Prelude.{◌≡◌, ◌⊎◌, ◌<◌, ◌≤◌, ℕ, List, Bool, true, false, None, Err, length, IsOk, IfOk, OnErr, ◌+◌, ◌*◌, Some};
ghost use Rattle.board_model.specs.Shapes.{ram_bytes_of};
ghost use Rattle.board_model.specs.declared.refusal.Refusal.TheVariants.{Memory};
ghost use Rattle.machine.specs.Machine.{Machine};
ghost use Rattle.model_board.specs.Boards.{Board as AnyBoard, Life, On, Off, powered_by};
ghost use Rattle.model_board.specs.Events.{Does, Turn, Refused, Wake, Cut, PowerOn};
ghost use Rattle.model_board.specs.Held.{with_hart};
ghost use Rattle.model_board.specs.LeftOut.{ReadsNone};
ghost use Rattle.model_board.specs.Maps.{TurnKeeps, Local, Map, SameOutside};
ghost use Rattle.model_board.specs.Plain.{Sized, IsKnown, HasSleeper, board_shown, board_after, life_of, image_at, standing, status_of, sized, with_machine, with_payload, IsPlain};
ghost use Rattle.model_board.specs.Registers.{MovesPc};
ghost use Rattle.model_board.specs.Rests.{IsRest, Fits, with_rest};
ghost use Rattle.store.specs.declared.saving.Resumption.{Resumption};
ghost use Rattle.ram.specs.Memory.{value, Stored};
ghost use Rattle.model_board.specs.Masks.{map_of};

use crate::holds::{Settled, turn_by, turn_refused};
use crate::plain::PlainMachine;
use crate::powers::{Power, Status};
use crate::rests::Rest;
use crate::touches::{Break, TouchMap};
use board_model::{HartId, Reason, Refusal, Shape};
use hart::Hart;
use rv_decode::Reg;
use sbi::ResetType;
use std::alloc::Global;
use std::marker::Model;
use store::Resumption;

/// A board without the bytes of its disk. While it is off with an image, its memory is that of the image.
#[derive(Drop)]
pub struct Board {
    machine: PlainMachine,
    power: Power,
    reason: Reason,
    down: bool,
}

impl Model for Board {
    ghost use Rattle.model_board.specs.Plain.{Sized, IsKnown, sized};

    ghost Value = { Sized };

    ghost view = { λ b. sized b.power b.reason b.down b.machine };

    ghost invariant = { λ b. IsKnown b.machine.size.harts b.power };
}

/// What stands after a turn of a board that is on.
fn settle(power: &mut Power, reason: &mut Reason, settled: Settled)
    ensures board { (m : Machine) (down : Bool) → board_shown power.new reason.new down m
        ≡ board_after settled (life_of (standing reason.old None) down m) }
    ensures known { (harts : ℕ) → HasSleeper harts settled → IsKnown harts power.new }
{
    match settled {
        Settled::GoesOn => *power = Power::On,
        Settled::Resets(reset, why) => {
            *reason = why;
            *power = match reset {
                ResetType::Shutdown => Power::Ended,
                ResetType::ColdReboot => Power::Off(None),
            };
        }
        Settled::Sleeps(at) => *power = Power::Off(Some(at)),
    }
}

/// The machine of the next life: it resumes the image, or else boots the payload.
fn begin(machine: &mut PlainMachine, image: Option<Resumption>, payload: &[u8], reason: Reason)
    requires fits { length payload.now ≤ ram_bytes_of machine.old.size }
    requires known { IsKnown machine.old.size.harts (Power.Off image) }
    ensures begun { machine.new ≡ (powered_by payload.now machine.old.size reason (image_at machine.old.memory image)).machine }
    ensures image { (at : Resumption) → image ≡ Some at → machine.new.memory ≡ machine.old.memory }
    ensures boots { image ≡ None → machine.new.memory ≡ (with_payload payload.now machine.old).memory }
{
    match image {
        Some(at) => machine.begin_again(at.hart, at.address.value(), at.opaque),
        None => machine.boot(payload, reason),
    }
}

impl Board {
    /// A board of that shape that is off, with no image and this reset reason. Refused 11 where there is no room for it.
    pub fn new(alloc: Global, shape: &Shape, reason: Reason) -> Result<Self, Refusal>
        ensures off { IfOk result (λ b. (b.size ≡ shape.now) × (b.board ≡ Off (standing reason None))) }
        ensures refused { OnErr result (result ≡ Err Memory) }
    {
        Ok(Board {
            machine: PlainMachine::new(alloc, shape)?,
            power: Power::Off(None),
            reason,
            down: false,
        })
    }

    /// A turn of a hart, whose sleep or reset the store acknowledges where it is up. A board that is off makes none.
    pub fn turn(&mut self, hart: HartId)
        requires { hart < self.old.size.harts }
        ensures turns { (payload : List ℕ) → Does payload self.old.size (Turn hart) self.old.board self.new.board }
        ensures outside { (map : Map) → TurnKeeps map hart self.old.board
            → SameOutside map self.old.machine.memory self.new.machine.memory }
        ensures size { self.new.size ≡ self.old.size }
        ensures raw { self.new.machine.size ≡ self.old.machine.size }
    {
        match self.power {
            Power::On => {
                let settled = turn_by(&mut self.machine, hart, !self.down);
                settle(&mut self.power, &mut self.reason, settled);
            }
            Power::Off(_) => {}
            Power::Ended => {}
        }
    }

    /// A turn of a hart whose sleep or reset the store refuses, and whether it is down from then on. Whether there was such a
    /// turn; where there was none, the turn was made as ever.
    pub fn refused(&mut self, hart: HartId, down: bool) -> bool
        requires { hart < self.old.size.harts }
        ensures refused { result ≡ true
            → (payload : List ℕ) → Does payload self.old.size (Refused hart down) self.old.board self.new.board }
        ensures never { result ≡ false
            → (payload : List ℕ) (c : AnyBoard) → Does payload self.old.size (Refused hart down) self.old.board c → ⊥ }
        ensures turns { result ≡ false
            → (payload : List ℕ) → Does payload self.old.size (Turn hart) self.old.board self.new.board }
        ensures outside { (map : Map) → TurnKeeps map hart self.old.board
            → SameOutside map self.old.machine.memory self.new.machine.memory }
        ensures size { self.new.size ≡ self.old.size }
        ensures raw { self.new.machine.size ≡ self.old.machine.size }
    {
        match self.power {
            Power::On => {
                if self.down {
                    self.turn(hart);
                    return false;
                }
                let (settled, asked, fell) = turn_refused(&mut self.machine, hart, down);
                self.down = fell;
                settle(&mut self.power, &mut self.reason, settled);
                asked
            }
            Power::Off(_) => false,
            Power::Ended => false,
        }
    }

    /// The operator's wake. Whether the board dozed, and was not woken; if not, nothing changes.
    pub fn wake(&mut self) -> bool
        ensures wakes { result ≡ true
            → (payload : List ℕ) → Does payload self.old.size Wake self.old.board self.new.board }
        ensures never { result ≡ false
            → (payload : List ℕ) (c : AnyBoard) → Does payload self.old.size Wake self.old.board c → ⊥ }
        ensures stays { result ≡ false → self.new ≡ self.old }
        ensures size { self.new.size ≡ self.old.size }
        ensures raw { self.new.machine.size ≡ self.old.machine.size }
        ensures memory { self.new.machine.memory ≡ self.old.machine.memory }
    {
        match self.power {
            Power::On => self.machine.wake(),
            Power::Off(_) => false,
            Power::Ended => false,
        }
    }

    /// Power fails.
    pub fn cut(&mut self)
        ensures cuts { (payload : List ℕ) → Does payload self.old.size Cut self.old.board self.new.board }
        ensures machine { self.new.machine ≡ self.old.machine }
        ensures size { self.new.size ≡ self.old.size }
    {
        match self.power {
            Power::On => self.power = Power::Off(None),
            Power::Off(_) => {}
            Power::Ended => self.power = Power::Off(None),
        }
    }

    /// The next power-on of a board that is off: it resumes its image, or else boots the payload. Whether it was off; if not,
    /// nothing changes.
    pub fn power_on(&mut self, payload: &[u8]) -> bool
        requires { length payload.now ≤ ram_bytes_of self.old.size }
        ensures powers { result ≡ true → Does payload.now self.old.size PowerOn self.old.board self.new.board }
        ensures never { result ≡ false
            → (c : AnyBoard) → Does payload.now self.old.size PowerOn self.old.board c → ⊥ }
        ensures stays { result ≡ false → self.new ≡ self.old }
        ensures image { (at : Resumption) → self.old.power ≡ Power.Off (Some at)
            → self.new.machine.memory ≡ self.old.machine.memory }
        ensures boots { self.old.power ≡ Power.Off None
            → self.new.machine.memory ≡ (with_payload payload.now self.old.machine).memory }
        ensures size { self.new.size ≡ self.old.size }
        ensures raw { self.new.machine.size ≡ self.old.machine.size }
        ensures memory { (self.new.machine.memory ≡ self.old.machine.memory)
            ⊎ (self.new.machine.memory ≡ (with_payload payload.now self.old.machine).memory) }
    {
        match self.power {
            Power::Off(image) => {
                begin(&mut self.machine, image, payload, self.reason);
                self.power = Power::On;
                self.down = false;
                true
            }
            Power::On => false,
            Power::Ended => false,
        }
    }

    /// Whether it is on.
    pub fn status(&self) -> Status
        ensures { result ≡ status_of self.now.board }
    {
        match self.power {
            Power::On => Status::On,
            Power::Off(_) => Status::Off,
            Power::Ended => Status::Ended,
        }
    }

    /// Its memory, harts and tables, of which a board that is off keeps the memory of its image alone.
    pub fn machine(&self) -> &PlainMachine
        ensures machine { result.now ≡ self.now.machine }
        ensures size { result.now.size ≡ self.now.size }
        ensures on { (l : Life) → self.now.board ≡ On l → result.now ≡ l.machine }
    {
        &self.machine
    }

    /// All of it but its harts and its memory.
    pub fn rest(&self) -> Rest
        ensures rest { IsRest result self.now }
        ensures fits { Fits self.now.machine.size.harts result }
        ensures plain { IsPlain self.now.machine.size self.now.machine.memory self.now.machine.harts self.now.machine.table }
    {
        let (doze, tables) = self.machine.rest();
        Rest {
            power: self.power,
            reason: self.reason,
            down: self.down,
            doze,
            tables,
        }
    }

    /// Whether what the next turn of a hart touches, it may by the map.
    pub fn keeps(&mut self, hart: HartId, map: &TouchMap) -> Result<(), Break>
        requires { hart < self.old.size.harts }
        ensures same { self.new ≡ self.old }
        ensures keeps { IsOk result → TurnKeeps (map_of map.now) hart self.old.board }
    {
        match self.power {
            Power::On => self.machine.keeps(hart, map),
            Power::Off(_) => Ok(()),
            Power::Ended => Ok(()),
        }
    }

    /// A register that is left out and that the next turn of a hart may read, where there is one.
    pub fn source_left_out(&mut self, hart: HartId) -> Option<Reg>
        requires { hart < self.old.size.harts }
        ensures same { self.new ≡ self.old }
        ensures none { result ≡ None → ReadsNone (Turn hart) self.old.board }
    {
        match self.power {
            Power::On => self.machine.source_left_out(hart),
            Power::Off(_) => None,
            Power::Ended => None,
        }
    }

    /// The registers that the next turn of a hart reads, and those that it writes, as the bits of numbers: a guess.
    pub fn uses(&mut self, hart: HartId) -> (u32, u32)
        requires { hart < self.old.size.harts }
        ensures { self.new ≡ self.old }
    {
        match self.power {
            Power::On => self.machine.uses(hart),
            Power::Off(_) => (0, 0),
            Power::Ended => (0, 0),
        }
    }

    /// Makes the next turn of a hart where it is local by the map. Whether it did; if not, nothing changes.
    pub fn move_alone(&mut self, hart: HartId, map: &TouchMap) -> bool
        requires { hart < self.old.size.harts }
        ensures local { result ≡ true → Local (map_of map.now) hart self.old.board self.new.board }
        ensures moves { result ≡ true → MovesPc hart self.old.board self.new.board }
        ensures stays { result ≡ false → self.new ≡ self.old }
        ensures size { self.new.size ≡ self.old.size }
        ensures raw { self.new.machine.size ≡ self.old.machine.size }
        ensures outside { SameOutside (map_of map.now) self.old.machine.memory self.new.machine.memory }
    {
        match self.power {
            Power::On => self.machine.move_alone(hart, map),
            Power::Off(_) => false,
            Power::Ended => false,
        }
    }

    /// Puts back all of a board but its harts and its memory.
    pub fn put_rest(&mut self, rest: &Rest)
        requires { Fits self.old.machine.size.harts rest.now }
        ensures { self.new ≡ sized rest.now.power rest.now.reason rest.now.down (with_rest rest.now self.old.machine) }
    {
        self.power = rest.power;
        self.reason = rest.reason;
        self.down = rest.down;
        self.machine.put_rest(rest.doze, &rest.tables);
    }

    /// Puts a hart of that number in the place of the board's, whether or not it is on.
    pub fn put_hart(&mut self, hart: Hart)
        requires { hart.id < self.old.machine.size.harts }
        ensures { self.new ≡ with_machine (with_hart hart.id self.old.machine hart) self.old }
    {
        self.machine.set_hart(hart);
    }

    /// The number in a word of 8 bytes of its memory, by its number from the start of RAM.
    pub fn word(&self, word: usize) -> u64
        requires { 8 * word + 8 ≤ length self.now.machine.memory }
        ensures { result ≡ value self.now.machine.memory (8 * word) 8 }
    {
        self.machine.word(word)
    }

    /// Puts a number into a word of 8 bytes of its memory.
    pub fn put_word(&mut self, word: usize, value: u64)
        requires { 8 * word + 8 ≤ length self.old.machine.memory }
        ensures word { Stored self.old.machine.memory self.new.machine.memory (8 * word) 8 value }
        ensures others { self.new
            ≡ with_machine (record self.old.machine { memory = self.new.machine.memory }) self.old }
    {
        self.machine.put_word(word, value);
    }

    /// RAM holds the payload, and zeros after it.
    pub fn load(&mut self, payload: &[u8])
        requires { length payload.now ≤ ram_bytes_of self.old.machine.size }
        ensures { self.new ≡ with_machine (with_payload payload.now self.old.machine) self.old }
    {
        self.machine.put_payload(payload);
    }
}
