//! A turn of a hart that its gate let begin.

ghost use Rattle.std.specs.Prelude.{◌≡◌, ◌<◌, ℕ, true, false, Some, None, MatchOption};
ghost use Rattle.hsm.specs.declared.view.Stage.TheVariants.{Running};
ghost use Rattle.sbi_calls.specs.Both.{AreTablesOf, AreSeatsOfBoth, Acts, GivesBack, known};
ghost use Rattle.sbi_calls.specs.declared.words.Turned.TheVariants.{Durable};
ghost use Rattle.machine.specs.Held.{RestsBy};
ghost use Rattle.hart_threads.specs.Bused.{part_of_hart};
ghost use Rattle.hart_threads.specs.Locks.{no_locks};
ghost use Rattle.hart_threads.specs.Noted.{part_after};
ghost use Rattle.hart_threads.specs.Seated.{IsSeated, StandsAfterTurn};
ghost use Rattle.hart_threads.specs.Threads.{seated, ComesOnce, OwnOnce, LookOnce, TurnOnce};

use crate::bus_turns::held_part;
use crate::closing::Unhalted;
use crate::dozes::doze_turn;
use crate::gates::Gate;
use crate::locks::Locks;
use crate::once::{LockedBus, call_locked};
use crate::shared::{HartLocal, LoopBoard, TurnEnd};
use crate::threaded::Threaded;
use board_model::HartId;
use crew::Crew;
use disk::Disk;
use hart::Hart;
use sbi::Word;
use sbi_calls::{Tables, Turned};
use std::marker::Model;
use std::sync::Wait;
use susp::Doze;
use turns::turn_by_bus;

/// The right to make one turn of a hart, with the locks that it may take. Only a gate that was asked for that turn gives it,
/// after a look that found the halt unset.
#[derive(Drop)]
pub(crate) struct Allowed<'a, D: Disk + Drop, J: Threaded> {
    hart: HartId,
    turn: u64,
    locks: Locks<'a, D, J>,
}

impl<'a, D: Disk + Drop, J: Threaded> Model for Allowed<'a, D, J> {
    ghost Value = { ℕ × ℕ };

    ghost view = { λ a. (a.hart, a.turn) };

    ghost invariant = { λ a. a.locks ≡ no_locks };
}

/// A turn was made that a gate let begin, and its locks were given back. Only `whole_turn` makes it, at its end.
#[derive(Drop)]
pub(crate) struct TurnMade<'a, D: Disk + Drop, J: Threaded> {
    hart: HartId,
    turn: u64,
    locks: Locks<'a, D, J>,
}

impl<'a, D: Disk + Drop, J: Threaded> Model for TurnMade<'a, D, J> {
    ghost Value = { ℕ × ℕ };

    ghost view = { λ m. (m.hart, m.turn) };

    ghost invariant = { λ m. m.locks ≡ no_locks };
}

/// Asks the gate of the hart's turn of that number, with no lock held, after a look that found the halt unset: whether it lets
/// it begin.
pub(crate) fn ask<'a, G: Gate, D: Disk + Drop, J: Threaded>(
    gate: &G,
    going: Unhalted<'a, D, J>,
    hart: HartId,
    turn: u64,
) -> Option<Allowed<'a, D, J>>
    ensures asked { MatchOption result (G.answers gate.now hart turn false) (λ _. G.answers gate.now hart turn true) }
    ensures turn { MatchOption result (Unit {0}) (λ a. a ≡ (hart, turn)) }
{
    let locks = going.into_locks();
    if gate.before(hart, turn) {
        Some(Allowed { hart, turn, locks })
    } else {
        None
    }
}

/// Tells the gate of a turn, once it was made, with no lock held.
pub(crate) fn tell<'a, G: Gate, D: Disk + Drop, J: Threaded>(
    gate: &G,
    made: TurnMade<'a, D, J>,
) -> Locks<'a, D, J>
    ensures told { G.hears gate.now made.entry.0 made.entry.1 }
    ensures free { result ≡ no_locks }
{
    let TurnMade { hart, turn, locks } = made;
    gate.after(hart, turn);
    locks
}

/// What comes of what a hart did that does not doze: a durable command, where it stands at such a call.
fn came_of<R: Wait, D: Disk + Drop, J: Threaded, C: Crew>(
    rt: &R,
    board: LoopBoard<'_, '_, J, C>,
    locks: &mut Locks<'_, D, J>,
    hart: &mut Hart,
    local: HartLocal<J>,
    turned: Turned,
) -> TurnEnd<J>
    requires tables { AreTablesOf board.shape.now board.tables.now }
    requires board { board.shape.now ≡ J.size }
    requires seats { AreSeatsOfBoth board.tables.now local.seats }
    requires hart { hart.old.id < board.shape.now.harts }
    requires rests { RestsBy local.doze hart.old.id local.seats }
    requires asks { turned ≡ Durable → Acts hart.old.id Running local.seats }
    requires run { local.run.who ≡ part_of_hart hart.old.id }
    requires free { locks.old ≡ no_locks }
    ensures free { locks.new ≡ no_locks }
    ensures gives { GivesBack board.entry.tables.now hart.old.id local.seats result.local.seats }
    ensures stands { StandsAfterTurn result.word result.local.doze hart.old.id result.local.seats }
    ensures id { hart.new.id ≡ hart.old.id }
    ensures noted { result.local.part ≡ part_after result.told local.part }
    ensures once { ComesOnce board.entry.shape.now turned
        (seated hart.old (known local.seats) local.doze local.run)
        (seated hart.new (known result.local.seats) result.local.doze result.local.run) result.word
        result.told }
{
    match turned {
        Turned::Durable => call_locked(rt, board, locks, hart, local),
        Turned::Made(did) => TurnEnd {
            local,
            word: Word::Goes(did),
            told: None,
        },
    }
}

/// A turn of a hart that does not doze, and the durable command that it may make. A step is one hold of the bus.
fn own_turn<'a, R: Wait, D: Disk + Drop, J: Threaded, C: Crew>(
    rt: &R,
    board: LoopBoard<'_, '_, J, C>,
    locks: Locks<'a, D, J>,
    hart: &mut Hart,
    local: HartLocal<J>,
) -> (TurnEnd<J>, Locks<'a, D, J>)
    requires tables { AreTablesOf board.shape.now board.tables.now }
    requires board { board.shape.now ≡ J.size }
    requires seated { IsSeated board.tables.now hart.old.id local.seats None }
    requires run { local.run.who ≡ part_of_hart hart.old.id }
    requires free { locks ≡ no_locks }
    ensures free { result.1 ≡ no_locks }
    ensures gives { GivesBack board.entry.tables.now hart.old.id local.seats result.0.local.seats }
    ensures stands { StandsAfterTurn result.0.word result.0.local.doze hart.old.id result.0.local.seats }
    ensures id { hart.new.id ≡ hart.old.id }
    ensures noted { result.0.local.part ≡ part_after result.0.told local.part }
    ensures once { OwnOnce board.entry.shape.now (seated hart.old (known local.seats) None local.run)
        (seated hart.new (known result.0.local.seats) result.0.local.doze result.0.local.run)
        result.0.word result.0.told }
{
    let HartLocal {
        seats,
        doze: _,
        part,
        run,
    } = local;
    let (bus, apart) = locks.apart();
    let mut bus = LockedBus {
        rt,
        bus,
        run: Some(run),
    };
    let (seats, turned) = turn_by_bus(hart, seats, board.tables, &mut bus, board.shape);
    let LockedBus { rt: _, bus, run } = bus;
    let run = held_part(run);
    let mut locks = apart.whole(bus);
    let local = HartLocal {
        seats,
        doze: None,
        part,
        run,
    };
    let end = came_of(rt, board, &mut locks, hart, local, turned);
    (end, locks)
}

/// A turn of a hart that dozes: one look at the bus, in one hold of it.
fn dozing_turn<R: Wait, D: Disk + Drop, J: Threaded>(
    rt: &R,
    tables: &Tables,
    locks: &mut Locks<'_, D, J>,
    hart: &mut Hart,
    local: HartLocal<J>,
    doze: Doze,
) -> TurnEnd<J>
    requires seated { IsSeated tables.now hart.old.id local.seats (Some doze) }
    requires free { locks.old ≡ no_locks }
    ensures free { locks.new ≡ no_locks }
    ensures gives { GivesBack tables.entry.now hart.old.id local.seats result.local.seats }
    ensures stands { StandsAfterTurn result.word result.local.doze hart.old.id result.local.seats }
    ensures id { hart.new.id ≡ hart.old.id }
    ensures noted { (result.local.part ≡ local.part) × (result.told ≡ None) }
    ensures once { LookOnce doze (seated hart.old (known local.seats) (Some doze) local.run)
        (seated hart.new (known result.local.seats) result.local.doze result.local.run) result.word }
{
    let HartLocal {
        seats,
        doze: _,
        part,
        run,
    } = local;
    let mut bus = locks.take_bus(rt);
    let (seats, word, doze, run) = doze_turn(&mut bus, hart, seats, tables, doze, run);
    locks.give_bus(bus);
    let local = HartLocal {
        seats,
        doze,
        part,
        run,
    };
    TurnEnd {
        local,
        word,
        told: None,
    }
}

/// One turn of a hart that a gate let begin, and the durable command that it may make: a system reset, or a system
/// suspend with the memory of that moment. A hart that dozes looks at the bus alone, and no other looks there for a
/// doze. It gives back the copy of its doze that the hart then keeps.
pub(crate) fn whole_turn<'a, R: Wait, D: Disk + Drop, J: Threaded, C: Crew>(
    rt: &R,
    board: LoopBoard<'_, '_, J, C>,
    hart: &mut Hart,
    local: HartLocal<J>,
    allowed: Allowed<'a, D, J>,
) -> (TurnEnd<J>, TurnMade<'a, D, J>)
    requires tables { AreTablesOf board.shape.now board.tables.now }
    requires board { board.shape.now ≡ J.size }
    requires seated { IsSeated board.tables.now hart.old.id local.seats local.doze }
    requires run { local.run.who ≡ part_of_hart hart.old.id }
    requires allowed { allowed.0 ≡ hart.old.id }
    ensures gives { GivesBack board.entry.tables.now hart.old.id local.seats result.0.local.seats }
    ensures stands { StandsAfterTurn result.0.word result.0.local.doze hart.old.id result.0.local.seats }
    ensures id { hart.new.id ≡ hart.old.id }
    ensures noted { result.0.local.part ≡ part_after result.0.told local.part }
    ensures once { TurnOnce board.entry.shape.now
        (seated hart.old (known local.seats) local.doze local.run)
        (seated hart.new (known result.0.local.seats) result.0.local.doze result.0.local.run)
        result.0.word result.0.told }
    ensures made { result.1 ≡ allowed.entry }
{
    let Allowed {
        hart: of,
        turn,
        mut locks,
    } = allowed;
    let doze = local.doze;
    if let Some(doze) = doze {
        let end = dozing_turn(rt, board.tables, &mut locks, hart, local, doze);
        let made = TurnMade {
            hart: of,
            turn,
            locks,
        };
        return (end, made);
    }
    let (end, locks) = own_turn(rt, board, locks, hart, local);
    let made = TurnMade {
        hart: of,
        turn,
        locks,
    };
    (end, made)
}
