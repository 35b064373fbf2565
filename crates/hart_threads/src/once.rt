//! What a turn of a hart on its thread takes a lock for: a step, and a durable call.

ghost use Rattle.std.specs.Prelude.{◌≡◌, ◌<◌, [], IsTrue, is_some};
ghost use Rattle.hart_threads.specs.Bused.{CallsBus, StepsBus, part_in, part_of_hart};
ghost use Rattle.hsm.specs.declared.view.Stage.TheVariants.{Running};
ghost use Rattle.sbi_abi.specs.Calls.{call_of};
ghost use Rattle.sbi_calls.specs.Both.{AreTablesOf, AreSeatsOfBoth, GivesBack, Acts, known};
ghost use Rattle.sbi.specs.Words.{stage_told};
ghost use Rattle.hart_threads.specs.Called.{IsToldBy};
ghost use Rattle.hart_threads.specs.Noted.{part_after};
ghost use Rattle.hart_threads.specs.Locks.{no_locks};
ghost use Rattle.hart_threads.specs.Threads.{HeldOnce, IsDozeBy};

use crate::bus_turns::{BusPart, held_part};
use crate::buses::SharedBus;
use crate::dozes::doze_by;
use crate::locks::{BusLock, Locks};
use crate::shared::{HartLocal, LoopBoard, TurnEnd};
use crate::shared_store::SharedStore;
use crate::threaded::Threaded;
use crew::Crew;
use disk::Disk;
use hart::{Hart, Outcome};
use std::sync::Wait;
use turns::MemoryBus;

/// The bus of a board on threads, behind its lock, for a thread that holds none. One step of a hart is one hold of it.
#[derive(Drop)]
pub(crate) struct LockedBus<'r, 'a, R, J: Threaded> {
    pub(crate) rt: &'r R,
    pub(crate) bus: BusLock<'a, J>,
    // The hart's part of the history of the bus, which stays here but for the moment of a step.
    pub(crate) run: Option<BusPart<J>>,
    pub(crate) ghost there: { IsTrue (is_some run) },
}

impl<'r, 'a, R: Wait, J: Threaded> MemoryBus for LockedBus<'r, 'a, R, J> {
    ghost may_hold = { λ bus memory. Unit {0} };

    ghost stepped = { λ bus after found left. StepsBus (part_in bus.run) (part_in after.run) found left };

    ghost holds_one = { λ bus. ([], tt) };

    #[inline(always)]
    fn step(&mut self, hart: &mut Hart, pending: bool) -> Outcome {
        let part = held_part(self.run.take());
        let (outcome, part) = self.bus.step(self.rt, hart, pending, part);
        self.run = Some(part);
        outcome
    }
}

impl<J: Threaded> HartLocal<J> {
    /// The durable call at which a hart stands, as `SharedStore::call` with that bus. Where the board then dozes, the hart has a copy of
    /// its doze.
    pub(crate) fn call<D: Disk + Drop, C: Crew>(
        self,
        board: LoopBoard<'_, '_, J, C>,
        bus: &mut SharedBus<J>,
        store: &mut SharedStore<D, J>,
        hart: &mut Hart,
    ) -> TurnEnd<J>
        requires tables { AreTablesOf board.shape.now board.tables.now }
        requires seats { AreSeatsOfBoth board.tables.now self.seats }
        requires acts { Acts hart.old.id Running self.seats }
        requires hart { hart.old.id < board.shape.now.harts }
        requires board { board.shape.now ≡ J.size }
        requires run { self.run.who ≡ part_of_hart hart.old.id }
        ensures gives { GivesBack board.entry.tables.now hart.old.id self.seats result.local.seats }
        ensures acts { Acts hart.old.id (stage_told result.word) result.local.seats }
        ensures id { hart.new.id ≡ hart.old.id }
        ensures told { IsToldBy board.entry.shape.now (call_of hart.old) hart.old.id result.word result.told }
        ensures noted { result.local.part ≡ part_after result.told self.part }
        ensures once { HeldOnce board.entry.shape.now (call_of hart.old) hart.old hart.new (known self.seats)
            (known result.local.seats) result.word }
        ensures doze { IsDozeBy board.entry.shape.now (call_of hart.old) hart.old.id result.word result.local.doze }
        ensures took { CallsBus hart.old hart.new result.word result.local.doze self.run result.local.run }
    {
        let HartLocal {
            seats,
            doze: _,
            part,
            run,
        } = self;
        let (seats, word, told, part, run) = store.call(board, hart, seats, bus, part, run);
        let found = bus.doze();
        let doze = doze_by(word, found);
        let local = HartLocal {
            seats,
            doze,
            part,
            run,
        };
        TurnEnd { local, word, told }
    }
}

/// The durable call at which a hart stands, made in one hold of the bus and of the store. The bus is taken
/// first: whoever takes both does so, and no thread that holds the store waits for the bus.
pub(crate) fn call_locked<R: Wait, D: Disk + Drop, J: Threaded, C: Crew>(
    rt: &R,
    board: LoopBoard<'_, '_, J, C>,
    locks: &mut Locks<'_, D, J>,
    hart: &mut Hart,
    local: HartLocal<J>,
) -> TurnEnd<J>
    requires tables { AreTablesOf board.shape.now board.tables.now }
    requires seats { AreSeatsOfBoth board.tables.now local.seats }
    requires hart { hart.old.id < board.shape.now.harts }
    requires board { board.shape.now ≡ J.size }
    requires acts { Acts hart.old.id Running local.seats }
    requires free { locks.old ≡ no_locks }
    requires run { local.run.who ≡ part_of_hart hart.old.id }
    ensures free { locks.new ≡ no_locks }
    ensures gives { GivesBack board.entry.tables.now hart.old.id local.seats result.local.seats }
    ensures acts { Acts hart.old.id (stage_told result.word) result.local.seats }
    ensures id { hart.new.id ≡ hart.old.id }
    ensures told { IsToldBy board.entry.shape.now (call_of hart.old) hart.old.id result.word result.told }
    ensures noted { result.local.part ≡ part_after result.told local.part }
    ensures once { HeldOnce board.entry.shape.now (call_of hart.old) hart.old hart.new (known local.seats)
        (known result.local.seats) result.word }
    ensures doze { IsDozeBy board.entry.shape.now (call_of hart.old) hart.old.id result.word result.local.doze }
    ensures took { CallsBus hart.old hart.new result.word result.local.doze local.run result.local.run }
{
    let mut guard = locks.take_bus(rt);
    let bus = &mut *guard;
    let mut store = locks.take_store(rt);
    let end = local.call(board, bus, &mut store, hart);
    locks.give_store(store);
    locks.give_bus(guard);
    end
}
