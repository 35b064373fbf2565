//! A hart's loop.

ghost use Rattle.std.specs.Prelude.{◌≡◌, ◌≤◌, ℕ, [], true, false, is_some};
ghost use Rattle.std.specs.Option.{option_to_list};
ghost use Rattle.sbi_calls.specs.Both.{AreTablesOf, GivesBack, known};
ghost use Rattle.hart_threads.specs.Bused.{part_of_hart};
ghost use Rattle.hart_threads.specs.Locks.{no_locks};
ghost use Rattle.hart_threads.specs.Noted.{part_after};
ghost use Rattle.hart_threads.specs.Seated.{IsSeated, StandsAfter};
ghost use Rattle.hart_threads.specs.Threads.{seated, ends_life, has_ended, LoopOnce};

use crate::closing::{HaltPolls, Shut};
use crate::gates::Gate;
use crate::locks::Locks;
use crate::over::LastReceipt;
use crate::shared::{HartLocal, LoopBoard};
use crate::threaded::Threaded;
use crate::turn::{ask, tell, whole_turn};
use crew::Crew;
use disk::Disk;
use hart::Hart;
use std::sync::Wait;

/// Why a loop ended.
#[derive(Clone, Copy, PartialEq, Eq, Drop)]
pub enum Why {
    /// This hart's reset or suspension was acknowledged, and the life is over.
    Life,
    /// Another hart ended the life, or the console has halted the harts.
    Closed,
    /// The gate let no further turn begin.
    Gate,
    /// It made all its turns.
    Turns,
}

/// A loop that ended. Where it ended with its turns, it made all that the life gives each hart. Where it ended before, it has
/// what ended it.
#[derive(Drop)]
pub struct Ended<'a, J: Threaded> {
    /// The hart, as its last turn left it.
    pub hart: Hart,
    /// What it has beside its registers. Its part of the receipts was told that of `told`, and no other.
    pub local: HartLocal<J>,
    /// How often it asked what ends all loops, and nothing did: once for each turn.
    pub asked: HaltPolls<J>,
    /// How many turns it made.
    pub made: u64,
    pub why: Why,
    /// What ended it, where that was another hart or the console.
    pub shut: Option<Shut<'a, J>>,
    /// The receipt of the command that ended the life, where this loop ended with it.
    pub told: Option<LastReceipt<J>>,
    pub ghost noted: { local.part.told ≡ option_to_list told },
    pub ghost ends: { ends_life told ≡ true },
    pub ghost ended: { has_ended J.turns J.gated made (is_some shut) told why ≡ true },
    pub ghost looked: { made ≤ asked },
}

/// A hart in its loop, between two of its turns.
#[derive(Drop)]
struct HartRun<J: Threaded> {
    hart: Hart,
    local: HartLocal<J>,
    asked: HaltPolls<J>,
}

impl<J: Threaded> HartRun<J> {
    /// Its loop ends after so many turns, for that reason.
    fn end<'a>(
        self,
        made: u64,
        why: Why,
        shut: Option<Shut<'a, J>>,
        told: Option<LastReceipt<J>>,
    ) -> Ended<'a, J>
        requires noted { self.local.part.told ≡ option_to_list told }
        requires ends { ends_life told ≡ true }
        requires ended { has_ended J.turns J.gated made (is_some shut) told why ≡ true }
        requires looked { made ≤ self.asked }
        ensures hart { (result.hart ≡ self.hart) × (result.local ≡ self.local) }
        ensures end { (result.made ≡ made) × (result.why ≡ why) × (result.told ≡ told) }
    {
        let HartRun { hart, local, asked } = self;
        Ended {
            hart,
            local,
            asked,
            made,
            why,
            shut,
            told,
        }
    }
}

/// The turns of a hart, as many as the life gives it, one after another, until the gate ends them or a reset or a
/// suspension of this hart was acknowledged, another hart ended the life, or the console halted the harts: that is
/// asked before each turn. Then the gate is asked; it is told after the turn, also of one that did nothing and of the
/// one that ended the life. No lock is held then, and none is taken but in a turn that the gate let begin.
///
/// Each turn makes just its own steps on the tables and gives what those found, whatever other threads do; a
/// step of a STARTED hart is one hold of the bus, and a durable call one of the bus and then of the store, which the hart's part of the
/// history of the bus has as its call, with its answer.
/// Nothing is claimed of when a turn is made, nor that a lock is ever had.
///
/// A turn of a hart that dozes is one hold of the bus, which tells only whether the board was woken: until then it is
/// idle; then the hart begins again at the address of its own copy of the doze, with that opaque value.
///
/// The part was told nothing yet; it comes back with the receipt of the command that ended the life, where this loop
/// ended with it.
pub fn hart_loop<'c, R: Wait, G: Gate, D: Disk + Drop, J: Threaded, C: Crew>(
    rt: &R,
    gate: &G,
    board: LoopBoard<'_, 'c, J, C>,
    locks: Locks<'_, D, J>,
    hart: Hart,
    local: HartLocal<J>,
    turns: u64,
) -> Ended<'c, J>
    requires tables { AreTablesOf board.shape.now board.tables.now }
    requires board { board.shape.now ≡ J.size }
    requires seated { IsSeated board.tables.now hart.id local.seats local.doze }
    requires fresh { local.part.told ≡ [] }
    requires run { local.run.who ≡ part_of_hart hart.id }
    requires turns { turns ≡ J.turns }
    requires gated { (h n : ℕ) → G.answers gate.now h n false → J.gated ≡ true }
    requires free { locks ≡ no_locks }
    ensures gives { GivesBack board.entry.tables.now hart.id local.seats result.local.seats }
    ensures stands { StandsAfter result.why result.local.doze hart.id result.local.seats }
    ensures id { result.hart.id ≡ hart.id }
    ensures noted { result.local.part ≡ part_after result.told local.part }
    ensures range { result.made ≤ turns }
    ensures once { LoopOnce board.entry.shape.now (G.answers gate.now hart.id) (G.hears gate.now hart.id) turns
        result.made (seated hart (known local.seats) local.doze local.run)
        (seated result.hart (known result.local.seats) result.local.doze result.local.run) result.why
        result.told }
{
    let mut run = HartRun {
        hart,
        local,
        asked: HaltPolls::none(board.closing),
    };
    let mut locks = locks;
    for made in 0..turns {
        let unhalted = match board.closing.look(rt, board.reason, &mut run.asked, locks) {
            Ok(unhalted) => unhalted,
            Err(shut) => return run.end(made, Why::Closed, Some(shut), None),
        };
        let Some(allowed) = ask(gate, unhalted, run.hart.id(), made) else {
            return run.end(made, Why::Gate, None, None);
        };
        let local = run.local;
        let (end, turn) = whole_turn(rt, board, &mut run.hart, local, allowed);
        run.local = end.local;
        locks = tell(gate, turn);
        if !end.word.goes_on() {
            return run.end(made + 1, Why::Life, None, end.told);
        }
    }
    run.end(turns, Why::Turns, None, None)
}
