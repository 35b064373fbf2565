//! The board.

mod copies;

use crate::begun::BegunBoard;
use crate::payloads::Payloads;
use board_model::{BootMode, CallWords, ConsoleCommand, Durable, Entry, HartId, Refusal, Shape};
use crew::Crew;
use disk::{ArmedFault, Disk};
use hart::Hart;
use machine::{Machine, State, Turned, Word};
use ram::Ram;
use sbi_calls::{Seats, Tables};
use std::alloc::Global;
use store::{Receipt, Store};
use susp::Bus;

/// A board that is on.
#[derive(Drop)]
pub struct Board<D: Disk + Drop> {
    store: Store<D>,
    machine: Machine,
}

/// A board that could not be powered on.
#[derive(Drop)]
pub struct Unpowered<D: Disk + Drop> {
    /// The disk, given back.
    pub disk: D,
    /// The durable state that the open found, where it succeeded.
    pub found: Option<Durable>,
    /// The durable state now, without a command in doubt, where the open succeeded.
    pub now: Option<Durable>,
    /// Why the board is off.
    pub refusal: Refusal,
}

/// What a board consists of.
#[derive(Drop)]
pub struct BoardParts<D: Disk + Drop> {
    /// The harts, by number.
    pub harts: Vec<Hart>,
    /// The seat of all harts in each table, of which `split` makes one for each.
    pub seats: Seats,
    /// The states of the harts, and the pending interrupts.
    pub tables: Tables,
    /// The memory, and the doze of the board.
    pub bus: Bus,
    /// The durable state, with its disk.
    pub store: Store<D>,
}

impl<D: Disk + Drop> Board<D> {
    ghost use Rattle.susp.specs.Dozes.{can_wake, after_wake};
    ghost use Rattle.std.specs.Prelude.{◌≡◌, ◌↔◌, ◌⊎◌, ◌<◌, ◌≤◌, ◌+◌, ℕ, List, true, false, length, Some, None, Err, IfSome, IsOk, OnOk, IfOk, IfErr, IsErrOf, MatchResult, MatchOption};
    ghost use Rattle.board_model.specs.Durable.{DurableState, Change, refusal_of};
    ghost use Rattle.board_model.specs.Shapes.{Size};
    ghost use Rattle.board_model.specs.Views.{durable_of, change_of, change_in};
    ghost use Rattle.board_model.specs.declared.refusal.Refusal.{Refusal};
    ghost use Rattle.disk.specs.Facts.{LeavesSince, Failed, Unchanged, counted};
    ghost use Rattle.disk.specs.FaultState.{fault_state_armed};
    ghost use Rattle.store.specs.Standing.{StandsFor};
    ghost use Rattle.store.specs.Leaves.{IsIdle, SameLength, Leaves, LeavesOnly, LeavesEither};
    ghost use Rattle.store.specs.Opens.{ReadsAs, OpenRefused, CausedRefusal, open_calls};
    ghost use Rattle.store.specs.Lives.{Applied};
    ghost use Rattle.store.specs.Asked.{Asked};
    ghost use Rattle.store.specs.Views.{device_of, disk_of, fault_state_of, arms_of, size_of_store, life_of, found_state, now_state, doubt_of, failures_at_open, was_refused_memory, view_of, Stands, Doubts};
    ghost use Rattle.machine.specs.Machine.{hart_at, status_at};
    ghost use Rattle.machine.specs.Durables.{StandsAtCall};
    ghost use Rattle.sbi_calls.specs.declared.words.Turned.TheVariants as turns;
    ghost use Rattle.machine.specs.Held.{shown_by, IsHeld};
    ghost use Rattle.turns.specs.Turns.{has_pending};
    ghost use Rattle.board_model.specs.ConsoleCommands.{console_change};
    ghost use Rattle.board.specs.Views.{store_of, machine_of};
    ghost use Rattle.board.specs.Turns.{Comes, TurnsHeld, RowHeld, TurnsManyHeld, CallsHeld};
    ghost use Rattle.board.specs.PowersOn.{IsOn, IsUnpowered, OffCalls, KeepsDisk, GivesDisk};
    ghost use Rattle.board.specs.Readies.{boot_calls};

    /// Powers a board on: opens the disk, and begins by the mode (docs/BOARD.md, "Power on"). Fresh, keep and
    /// discard boot the slot, discard once the image is dropped, and each once the boot is counted where a trial
    /// stands. Resume goes on with the image: its memory is loaded, then the image is consumed, and only then
    /// its hart stands at its address.
    ///
    /// Refused as `Store::open` says; then `ImageThere` for fresh where an image stands, `NoImage` for
    /// discard and resume where none does; then `BadShape` where any of the four payloads is longer than RAM,
    /// in every mode; then `Memory`; then for resume `Device` and `BadImage` as `Store::load_image` says;
    /// then `Device` and `Down` for a command. A refusal gives the disk back. After each the durable state is
    /// the one found, but for an image that was dropped before the count was refused; after `Down` it may
    /// also be the one that the command in doubt makes.
    pub fn power_on(
        alloc: Global,
        disk: D,
        mode: BootMode,
        payloads: &Payloads,
    ) -> Result<Board<D>, Unpowered<D>>
        requires { IsIdle (D.facts disk) }
        ensures on { IfOk result (λ board. IsOn mode payloads.now (D.facts disk) (view_of (store_of board))
            (machine_of board)) }
        ensures off { IfErr result (λ e. IsUnpowered mode payloads.now e.found e.now (D.facts disk) e.refusal
            (D.facts e.disk)) }

        // A disk that reads as no state is refused so, or for its failure; one without sectors before any
        // call of it.
        ensures refuses { (e : Refusal) → ReadsAs (D.facts disk).content e
            → MatchResult result (λ board. ⊥) (λ f. (f.found ≡ None)
            × ((f.refusal ≡ e) ⊎ (f.refusal ≡ Refusal.Device))) }
        ensures no_sectors { length (D.facts disk).content ≡ 0
            → MatchResult result (λ board. ⊥) (λ f. (f.refusal ≡ Refusal.BadShape) × (f.found ≡ None)
            × (f.disk ≡ disk)) }

        // Of a disk that has sectors.
        ensures calls { 0 < length (D.facts disk).content
            → MatchResult result (λ board. (disk_of (store_of board)).calls
            ≡ counted (D.facts disk).calls (open_calls (D.facts disk).content
            + boot_calls mode (size_of_store (store_of board)) (found_state (store_of board))))
            (λ e. OffCalls (D.facts disk).content e.found e.refusal (D.facts disk).calls (D.facts e.disk).calls) }

        ensures keeps { MatchResult result (λ board. KeepsDisk (D.facts disk) (D.fault_state disk)
            (disk_of (store_of board)) (fault_state_of (store_of board)))
            (λ e. GivesDisk (D.facts disk) (D.fault_state disk) e.refusal (D.facts e.disk) (D.fault_state e.disk)) }
    {
        match BegunBoard::power_on(alloc, disk, mode, payloads) {
            Ok(begun) => Ok(begun.into_board()),
            Err(unpowered) => Err(unpowered),
        }
    }

    /// The board of that store and that machine.
    pub(crate) fn of(store: Store<D>, machine: Machine) -> Board<D>
        ensures store { store_of result ≡ store }
        ensures machine { machine_of result ≡ machine }
    {
        Board { store, machine }
    }

    /// The memory and the harts.
    pub fn machine(&self) -> &Machine
        ensures { result.now ≡ machine_of self.now }
    {
        &self.machine
    }

    /// Arms a fault of the disk in place of an older one. That is no call of the disk, and the board stays as
    /// it is; a disk may ignore what is armed.
    pub fn arm(&mut self, fault: ArmedFault)
        ensures machine { machine_of self.new ≡ machine_of self.old }
        ensures life { life_of (store_of self.new) ≡ life_of (store_of self.old) }
        ensures board { size_of_store (store_of self.new) ≡ size_of_store (store_of self.old) }
        ensures facts { Unchanged (disk_of (store_of self.old)) (disk_of (store_of self.new)) }
        ensures armed { fault_state_of (store_of self.new)
            ≡ fault_state_armed fault (fault_state_of (store_of self.old)) }
        ensures arms { arms_of (store_of self.new) fault }
        ensures opened { failures_at_open (store_of self.new) ≡ failures_at_open (store_of self.old) }
    {
        self.store.arm(fault);
    }

    /// Whether an armed cut has struck the disk.
    pub fn struck(&self) -> bool
        ensures { result ≡ (fault_state_of (store_of self.now)).struck }
    {
        self.store.struck()
    }

    /// Whether memory was refused to a suspension of this life, whose hart found -1.
    pub fn was_refused_memory(&self) -> bool
        ensures { result ≡ was_refused_memory (store_of self.now) }
    {
        self.store.was_refused_memory()
    }

    /// What comes of what a hart did: where it stands at a durable call, that call is made with the store.
    fn finish_turn<C: Crew>(
        &mut self,
        alloc: Global,
        crew: &C,
        hart: HartId,
        turned: Turned,
    ) -> Word
        requires hart { hart < length (machine_of self.old).harts }
        requires asks { turned ≡ turns.Durable → StandsAtCall hart (machine_of self.old) }
        ensures comes { Comes turned hart (machine_of self.old) (machine_of self.new) (store_of self.old)
            (store_of self.new) result }
        ensures harts { length (machine_of self.new).harts ≡ length (machine_of self.old).harts }
    {
        match turned {
            Turned::Made(did) => Word::Goes(did),
            Turned::Durable => self.machine.make_call(alloc, hart, &mut self.store, crew),
        }
    }

    /// One turn of a hart of this board, and the command that it may make of the store: a system reset, or a
    /// system suspend with the memory of this turn. Once that command was acknowledged the life is `Over`, and no
    /// hart makes a turn after it. A system suspend to RAM asks nothing of the store: the board dozes, and until it
    /// is woken the turns of its hart are `Idle`; in the turn after that the hart begins again. Where the store
    /// refuses, the hart is answered -1, and that is `Next`. Memory is taken for a suspend alone.
    #[inline(always)]
    pub fn turn<C: Crew>(&mut self, alloc: Global, crew: &C, hart: HartId) -> Word
        requires { hart < length (machine_of self.old).harts }
        ensures turns { TurnsHeld hart (machine_of self.old) (machine_of self.new) (store_of self.old)
            (store_of self.new) result }
        ensures harts { length (machine_of self.new).harts ≡ length (machine_of self.old).harts }
    {
        let turned = self.machine.turn(hart);
        self.finish_turn(alloc, crew, hart, turned)
    }

    /// The durable state that the open found.
    pub fn found(&self) -> Durable
        ensures { result ≡ durable_of (found_state (store_of self.now)) }
    {
        self.store.found()
    }

    /// The durable state now, without a command in doubt.
    pub fn now(&self) -> Durable
        ensures { result ≡ durable_of (now_state (store_of self.now)) }
    {
        self.store.now()
    }

    /// The command of this life that is in doubt, a suspension without its memory; none where its store is up.
    pub fn in_doubt(&self) -> Option<Entry>
        ensures { MatchOption result (doubt_of (store_of self.now) ≡ None) (λ e. (memory : List ℕ)
            × (doubt_of (store_of self.now) ≡ Some (change_in e memory))) }
    {
        self.store.in_doubt()
    }

    /// The shape of the board, by its disk.
    pub fn shape(&self) -> Shape
        ensures { result ≡ size_of_store (store_of self.now) }
    {
        self.store.shape()
    }

    /// The memory.
    pub fn ram(&self) -> &Ram
        ensures { result.now ≡ (machine_of self.now).memory }
    {
        self.machine.ram()
    }

    /// A hart of this board.
    pub fn hart(&self, hart: HartId) -> &Hart
        requires { hart < length (machine_of self.now).harts }
        ensures { result.now ≡ hart_at (machine_of self.now) hart }
    {
        self.machine.hart(hart)
    }

    /// Turns of a hart by one look, `most` of them at most, of which the last alone may have asked the store:
    /// how many were made, and what is said of the last.
    fn row<C: Crew>(&mut self, alloc: Global, crew: &C, hart: HartId, most: u32) -> (u32, Word)
        requires hart { hart < length (machine_of self.old).harts }
        requires some { 1 ≤ most }
        ensures row { RowHeld hart (machine_of self.old) (machine_of self.new) (store_of self.old)
            (store_of self.new) result.0 result.1 }
        ensures range { (1 ≤ result.0) × (result.0 ≤ most) }
        ensures harts { length (machine_of self.new).harts ≡ length (machine_of self.old).harts }
    {
        let (made, turned) = self.machine.turns_by_one_look(hart, most);
        let word = self.finish_turn(alloc, crew, hart, turned);
        (made, word)
    }

    /// At most so many turns of a hart of this board, one after another, as `turn` makes each: how many were
    /// made, and what is said of the last one. One that stops the hart is the last, and so is one after which
    /// the board dozes, one that ends the life, and one in which an armed cut struck. None may have struck
    /// before it.
    pub fn turns<C: Crew>(
        &mut self,
        alloc: Global,
        crew: &C,
        hart: HartId,
        count: u32,
    ) -> (u32, Word)
        requires hart { hart < length (machine_of self.old).harts }
        requires some { 1 ≤ count }
        requires calm { (fault_state_of (store_of self.old)).struck ≡ false }
        ensures turns { TurnsManyHeld hart count (machine_of self.old) (machine_of self.new) (store_of self.old)
            (store_of self.new) result.0 result.1 }
        ensures harts { length (machine_of self.new).harts ≡ length (machine_of self.old).harts }
    {
        let (first, said) = self.row(alloc, crew, hart, count);
        let mut made = first;
        let mut word = said;
        while made < count && !word.ends_row() && !self.store.struck() {
            let (more, next) = self.row(alloc, crew, hart, count - made);
            made += more;
            word = next;
        }
        (made, word)
    }

    /// An SBI call that is made in the place of a hart of this board, as `Machine::call` says, and the
    /// command that it may make of the store, as in `turn`. None where the hart is not STARTED, or dozes;
    /// then nothing was done.
    pub fn call<C: Crew>(
        &mut self,
        alloc: Global,
        crew: &C,
        hart: HartId,
        words: CallWords,
    ) -> Option<Word>
        requires { hart < length (machine_of self.old).harts }
        ensures calls { CallsHeld hart words (machine_of self.old) (machine_of self.new) (store_of self.old)
            (store_of self.new) result }
        ensures harts { length (machine_of self.new).harts ≡ length (machine_of self.old).harts }
    {
        match self.machine.call(hart, words) {
            None => None,
            Some(turned) => Some(self.finish_turn(alloc, crew, hart, turned)),
        }
    }

    /// Calls the wake-up device of this board, as `Machine::wake`. The store is not asked.
    pub fn wake(&mut self) -> Result<(), Refusal>
        ensures ok { IsOk result ↔ (can_wake (machine_of self.old).doze ≡ true) }
        ensures woken { OnOk result (machine_of self.new
            ≡ record (machine_of self.old) { doze = after_wake (machine_of self.old).doze }) }
        ensures refused { IfErr result (λ e. (e ≡ Refusal.NotDozing) × (machine_of self.new ≡ machine_of self.old)) }
        ensures store { store_of self.new ≡ store_of self.old }
    {
        self.machine.wake()
    }

    /// Whether an interrupt is pending for a hart of this board, which stays as it was.
    pub fn pending(&mut self, hart: HartId) -> bool
        requires { hart < length (machine_of self.old).harts }
        ensures value { result ≡ has_pending hart (machine_of self.old).table.pairs }
        ensures machine { machine_of self.new ≡ machine_of self.old }
        ensures store { store_of self.new ≡ store_of self.old }
    {
        self.machine.pending(hart)
    }

    /// The state of a hart of this board, which stays as it was, as `Machine::state` has it.
    pub fn state(&mut self, hart: HartId) -> State
        requires { hart < length (machine_of self.old).harts }
        ensures value { result ≡ status_at (machine_of self.old) hart }
        ensures machine { machine_of self.new ≡ machine_of self.old }
        ensures store { store_of self.new ≡ store_of self.old }
    {
        self.machine.state(hart)
    }

    /// Issues a durable command of the console, and answers its place in the journal of this life.
    ///
    /// Refused as `Store::apply` says; memory and harts stay as they are.
    pub fn console(&mut self, command: ConsoleCommand) -> Result<Receipt, Refusal>
        ensures machine { machine_of self.new ≡ machine_of self.old }
        ensures asked { Asked Applied (store_of self.old) (console_change command) result (store_of self.new) }
        ensures not_memory { IsErrOf result Refusal.Memory → ⊥ }
    {
        self.store.apply(command.command())
    }

    /// Turns the board off, and gives back the disk that its store held, as it is: a crash leaves the state
    /// now, or with a command in doubt one of two.
    pub fn into_disk(self) -> D
        ensures disk { result ≡ device_of (store_of self) }
        ensures up { (s : DurableState) → Stands (store_of self) s
            → LeavesOnly (D.facts result) (size_of_store (store_of self)) s }
        ensures down { (s t : DurableState) → Doubts (store_of self) s t
            → LeavesEither (D.facts result) (size_of_store (store_of self)) s t }
        ensures allowed { (c : Change) → doubt_of (store_of self) ≡ Some c
            → refusal_of (now_state (store_of self)) c ≡ None }
        ensures none_out { IsIdle (D.facts result) }
        ensures facts { Unchanged (disk_of (store_of self)) (D.facts result) }
        ensures content { (D.facts result).content ≡ (disk_of (store_of self)).content }
        ensures failures { (D.facts result).failures ≡ (disk_of (store_of self)).failures }
        ensures fault_state { D.fault_state result ≡ fault_state_of (store_of self) }
    {
        let Board { store, machine: _ } = self;
        store.into_disk()
    }

    /// Takes the board apart.
    pub fn into_parts(self) -> BoardParts<D>
        ensures harts { result.harts.items ≡ (machine_of self).harts }
        ensures ram { result.bus.ram ≡ (machine_of self).memory }
        ensures doze { result.bus.doze ≡ (machine_of self).doze }
        ensures held { IsHeld (machine_of self).size result.harts.items result.tables (Some result.seats)
            (machine_of self).doze }
        ensures shows { shown_by (machine_of self).size.harts result.seats ≡ (machine_of self).table }
        ensures store { result.store ≡ store_of self }
    {
        let Board { store, machine } = self;
        let machine::Parts {
            harts,
            seats,
            tables,
            bus,
        } = machine.into_parts();
        BoardParts {
            harts,
            seats,
            tables,
            bus,
            store,
        }
    }
}
