//! The harts' threads and the console, until all have ended.

ghost use Rattle.std.specs.Prelude.{◌≡◌, ◌<◌, ◌+◌, ℕ, [], true, false, Some, All, IfOk, IfErr, map, vec_len, vec_capacity};
ghost use Rattle.board_model.specs.declared.refusal.Refusal.TheVariants.{Memory};
ghost use Rattle.sbi_calls.specs.Both.{AreTablesOf, known};
ghost use Rattle.machine.specs.Held.{AreUntouched, IsHeld, board_of};
ghost use Rattle.hart_threads.specs.Bused.{fresh_part};
ghost use Rattle.hart_threads.specs.Seated.{AreNamed, AreOfHart, IsSeated};
ghost use Rattle.hart_threads.specs.Threads.{seated};
ghost use Rattle.hart_threads.specs.Begun.{AreFromLast, BeginsAs, IsFromBoot};
ghost use Rattle.tallies.specs.Books.{fresh_from};

use crate::closing::{Closing, HaltReason};
use crate::ends::{Rested, at_rest};
use crate::gates::Gate;
use crate::locks::Locks;
use crate::loops::hart_loop;
use crate::seated::{ActingHart, seat_harts};
use crate::shared::{HartLocal, HartParts, SharedBoard};
use crate::threaded::Threaded;
use crate::works::{Promised, Rooms, StopSource, on_threads};
use board_model::Refusal;
use disk::Disk;
use hart::Hart;
use sbi_calls::{Seats, Tables};
use std::alloc::Global;
use std::sync::{Mutex, Wait};
use std::thread::{Promise, Threads};
use susp::Doze;
use tallies::Journal;

/// The harts that are to be driven, as the boot left them, and what their loops are given. No hart has noted a step in the tables.
#[derive(Drop)]
pub struct BootedHarts<J: Journal> {
    pub harts: Vec<Hart>,
    /// The one seat of them all.
    pub seats: Seats,
    /// The doze of the bus, where the board dozes. The hart of the doze is given a copy of it.
    pub doze: Option<Doze>,
    /// The parts of each loop, the first hart's first. They were told nothing yet.
    pub parts: Vec<HartParts<J>>,
    /// How many turns each makes at most.
    pub turns: u64,
}

/// What comes back where no console could be begun.
#[derive(Drop)]
pub struct Undriven<'a, J: Threaded, E: Drop> {
    /// What the console was to be given.
    pub side: E,
    /// Why none was begun.
    pub refusal: Refusal,
    /// The loops, which have ended: of each hart, or none.
    pub loops: Vec<Rested<'a, J>>,
    /// The parts that no loop had; they were told nothing.
    pub parts: Vec<HartParts<J>>,
}

/// No loop was begun.
fn unbegun<'a, J: Threaded, E: Drop>(
    alloc: Global,
    refusal: Refusal,
    parts: Vec<HartParts<J>>,
    side: E,
) -> Undriven<'a, J, E>
    ensures refused { (result.side ≡ side) × (result.refusal ≡ refusal) }
    ensures loops { vec_len result.loops ≡ 0 }
    ensures parts { result.parts.items ≡ parts.items }
{
    Undriven {
        side,
        refusal,
        loops: Vec::new(alloc),
        parts,
    }
}

/// Runs each hart's loop on a thread of its own, and the console on this one; returns once the console and
/// all threads have ended.
///
/// The harts, seats, tables and bus are those of a board's parts, which the life's name has as its machine and tables: each loop that
/// ended is of a hart of that machine, which went from there by its own turns, and has its seats of these tables. `booted.doze` is the
/// doze of that bus: it is read before the bus goes behind its lock. Once a loop ended with the life, each other one
/// ends before its next turn. The console goes on until it returns by itself, and where it returns first the harts
/// run out their turns, unless it halts them by the board's `closing`, and as far as the gate lets them.
///
/// A loop that ended with its turns made all that the life gives each hart, which is `booted.turns`; one that ended before
/// has what ended it.
///
/// The console is given `side`, as its input and its output, and what it gives back comes back with the loops
/// that ended, one for each hart, that of the highest number first. Each has one of the parts. Refused `Memory` where
/// there is no room for the harts' seats, or where a thread could not be started: the loops of all harts have
/// then ended, or none has begun, and the console was not called.
pub fn drive<
    'c,
    R: Threads + Wait + Sync,
    G: Gate + Sync,
    D: Disk + Drop + Send,
    J: Threaded + Send + Sync,
    E: Drop,
    T: Drop,
    K: FnOnce(E) -> T,
>(
    rt: &R,
    gate: &G,
    board: SharedBoard<'_, 'c, D, J, crew::Threads<'_, R>>,
    booted: BootedHarts<J>,
    side: E,
    console: K,
) -> Result<(Vec<Rested<'c, J>>, T), Undriven<'c, J, E>>
    requires console { K.IsAlwaysCallable console }
    requires board { board.shape.now ≡ J.size }
    requires turns { booted.turns ≡ J.turns }
    requires gated { (h n : ℕ) → G.answers gate.now h n false → J.gated ≡ true }
    requires parts { vec_len booted.parts ≡ vec_len booted.harts }
    requires runs { map (λ p. p.run) booted.parts.items ≡ fresh_from 2 (vec_len booted.parts) }
    requires fresh { All (λ p. p.receipts.told ≡ []) booted.parts.items }
    requires held { IsHeld board.shape.now booted.harts.items board.tables.now (Some booted.seats) booted.doze }
    requires untouched { AreUntouched board.shape.now.harts board.tables.now booted.seats }
    requires machine { J.machine ≡ board_of board.shape.now J.memory booted.doze booted.harts.items booted.seats }
    requires tables { AreNamed J.starts J.raises board.tables.now }
    ensures said { IfOk result (λ r. K.post console side r.1) }
    ensures loops { IfOk result (λ r. vec_len r.0 ≡ vec_len booted.harts) }
    ensures numbered { IfOk result (λ r. AreFromLast 0 (λ x. x.ended.hart.id) r.0.items) }
    ensures refused { IfErr result (λ e. (e.side ≡ side) × (e.refusal ≡ Memory)) }
    ensures back { IfErr result (λ e. vec_len e.loops + vec_len e.parts ≡ vec_len booted.harts) }
    ensures fresh { IfErr result (λ e. All (λ p. p.receipts.told ≡ []) e.parts.items) }
{
    let BootedHarts {
        harts,
        seats,
        doze,
        parts,
        turns,
    } = booted;
    let alloc = board.saving.alloc;
    let all = match seat_harts(alloc, harts, seats, doze, board.tables) {
        Ok(all) => all,
        Err(refusal) => return Err(unbegun(alloc, refusal, parts, side)),
    };
    let many = all.len();
    let Ok(rooms) = Rooms::new(alloc, many) else {
        return Err(unbegun(alloc, Refusal::Memory, parts, side));
    };
    let Ok(room) = Vec::with_capacity(alloc, many) else {
        return Err(unbegun(alloc, Refusal::Memory, parts, side));
    };
    let (works, parts) = works_of(rt, gate, board, all, parts, turns, room);
    let done = on_threads(
        rt,
        &Stop {
            rt,
            closing: board.closing,
            reason: board.reason,
        },
        rooms,
        works,
        &|work|
            requires { IsSeated work.board.tables.now work.acting.hart.id work.acting.seats work.acting.doze }
            ensures { result.ended.hart.id ≡ work.entry.acting.hart.id }
        { loop_of(work) },
        side,
        console,
    );
    match done {
        Ok(done) => Ok(done),
        Err((loops, side)) => Err(Undriven {
            side,
            refusal: Refusal::Memory,
            loops,
            parts,
        }),
    }
}

/// A hart's loop, with all that it runs on: the hart is as the boot left it.
#[derive(Drop)]
struct HartWork<'r, 'g, 'a, 'c, 's, R, G: Gate, D: Disk + Drop, J: Threaded> {
    rt: &'r R,
    gate: &'g G,
    board: SharedBoard<'a, 'c, D, J, crew::Threads<'s, R>>,
    acting: ActingHart,
    parts: HartParts<J>,
    turns: u64,
    ghost sized: { board.shape.now ≡ J.size },
    ghost named: { J.machine.size ≡ board.shape.now },
    ghost tables: { AreTablesOf board.shape.now board.tables.now },
    ghost theirs: { AreNamed J.starts J.raises board.tables.now },
    ghost alone: { AreOfHart acting.hart.id acting.seats },
    ghost begins: { ∥ BeginsAs J.machine acting.hart.id
        (seated acting.hart (known acting.seats) acting.doze (fresh_part acting.hart.id)) ∥₁ },
    ghost fresh: { parts.receipts.told ≡ [] },
    ghost numbered: { parts.run ≡ fresh_part acting.hart.id },
    ghost given: { turns ≡ J.turns },
    ghost gated: { (h n : ℕ) → G.answers gate.now h n false → J.gated ≡ true },
}

/// The promise of a loop that ended: it is of the hart of that number.
#[derive(Drop)]
struct OfHart(usize);

impl<'c, J: Threaded> Promise<Rested<'c, J>> for OfHart {
    ghost kept_by = { λ p r. r.ended.hart.id ≡ p.0 };
}

/// The loop of a hart that is as the boot left it, and the end of the life where that ended it.
fn loop_of<
    'r,
    'g,
    'a,
    'c,
    's,
    R: Threads + Wait + Sync,
    G: Gate + Sync,
    D: Disk + Drop + Send,
    J: Threaded + Send + Sync,
>(work: HartWork<'r, 'g, 'a, 'c, 's, R, G, D, J>) -> Rested<'c, J>
    requires { IsSeated work.board.tables.now work.acting.hart.id work.acting.seats work.acting.doze }
    ensures { result.ended.hart.id ≡ work.entry.acting.hart.id }
{
    let HartWork {
        rt,
        gate,
        board,
        acting,
        parts,
        turns,
    } = work;
    let ActingHart { hart, seats, doze } = acting;
    let local = HartLocal {
        seats,
        doze,
        part: parts.receipts,
        run: parts.run,
    };
    let locks = Locks::new(board.bus, board.store);
    let mut ended = hart_loop(rt, gate, board.of_loop(), locks, hart, local, turns);
    let set = board.closing.end_by(rt, board.reason, &mut ended.told);
    at_rest(ended, set, board.tables)
}

/// What ends the loops that were begun, where one could not be.
#[derive(Drop)]
struct Stop<'r, 'a, 'c, R, J: Threaded> {
    rt: &'r R,
    closing: &'c Closing<J>,
    reason: &'a Mutex<HaltReason<'c, J>>,
}

impl<'r, 'a, 'c, R: Wait, J: Threaded> StopSource for Stop<'r, 'a, 'c, R, J> {
    fn stop(&self) {
        self.closing.halt(self.rt, self.reason);
    }
}

/// The loops of those harts, each promised by the number of its hart and with one of the parts; and the parts that are left.
fn works_of<
    'r,
    'g,
    'a,
    'c,
    's,
    R: Threads + Wait + Sync,
    G: Gate + Sync,
    D: Disk + Drop + Send,
    J: Threaded + Send + Sync,
>(
    rt: &'r R,
    gate: &'g G,
    board: SharedBoard<'a, 'c, D, J, crew::Threads<'s, R>>,
    all: Vec<ActingHart>,
    parts: Vec<HartParts<J>>,
    turns: u64,
    room: Vec<Promised<OfHart, HartWork<'r, 'g, 'a, 'c, 's, R, G, D, J>>>,
) -> (
    Vec<Promised<OfHart, HartWork<'r, 'g, 'a, 'c, 's, R, G, D, J>>>,
    Vec<HartParts<J>>,
)
    requires board { board.shape.now ≡ J.size }
    requires named { J.machine.size ≡ board.shape.now }
    requires turns { turns ≡ J.turns }
    requires numbered { AreFromLast 0 (λ a. a.hart.id) all.items }
    requires runs { map (λ p. p.run) parts.items ≡ fresh_from 2 (vec_len parts) }
    requires gated { (h n : ℕ) → G.answers gate.now h n false → J.gated ≡ true }
    requires tables { AreTablesOf board.shape.now board.tables.now }
    requires theirs { AreNamed J.starts J.raises board.tables.now }
    requires begun { All (λ a. IsFromBoot J.machine board.tables.now a.hart a.seats a.doze) all.items }
    requires parts { vec_len parts ≡ vec_len all }
    requires fresh { All (λ p. p.receipts.told ≡ []) parts.items }
    requires room { (vec_len room ≡ 0) × (vec_capacity room ≡ vec_len all) }
    ensures all { vec_len result.0 ≡ vec_len all }
    ensures none { vec_len result.1 ≡ 0 }
    ensures seated { All (λ w. IsSeated w.work.board.tables.now w.work.acting.hart.id w.work.acting.seats w.work.acting.doze)
        result.0.items }
    ensures own { All (λ w. w.work.acting.hart.id ≡ w.promise.0) result.0.items }
    ensures numbered { AreFromLast 0 (λ w. w.promise.0) result.0.items }
    ensures fresh { All (λ p. p.receipts.told ≡ []) result.1.items }
{
    let (mut works, mut parts) = (room, parts);
    for acting in all {
        let parts_of_one = next_parts(&mut parts);
        known_begun::<J>(&acting, board.tables);
        let promise = OfHart(acting.hart.id().index());
        let work = HartWork {
            rt,
            gate,
            board,
            acting,
            parts: parts_of_one,
            turns,
        };
        works.push_reserved(Promised { promise, work });
    }
    (works, parts)
}

/// A hart that is taken out of the list is as the boot left it, as each hart of the list is. The tables are an argument only so
/// that this can be said of them.
fn known_begun<J: Threaded>(acting: &ActingHart, tables: &Tables)
    requires { IsFromBoot J.machine tables.now acting.now.hart acting.now.seats acting.now.doze }
    ensures seated { IsSeated tables.now acting.now.hart.id acting.now.seats acting.now.doze }
    ensures alone { AreOfHart acting.now.hart.id acting.now.seats }
    ensures begins { ∥ BeginsAs J.machine acting.now.hart.id
        (seated acting.now.hart (known acting.now.seats) acting.now.doze (fresh_part acting.now.hart.id)) ∥₁ }
{
    let _ = acting;
    let _ = tables;
}

/// The last of the parts.
fn next_parts<J: Threaded>(parts: &mut Vec<HartParts<J>>) -> HartParts<J>
    requires some { 0 < vec_len parts.old }
    requires runs { map (λ p. p.run) parts.old.items ≡ fresh_from 2 (vec_len parts.old) }
    requires fresh { All (λ p. p.receipts.told ≡ []) parts.old.items }
    ensures told { result.receipts.told ≡ [] }
    ensures fresh { All (λ p. p.receipts.told ≡ []) parts.new.items }
    ensures run { result.run ≡ fresh_part (vec_len parts.new) }
    ensures runs { map (λ p. p.run) parts.new.items ≡ fresh_from 2 (vec_len parts.new) }
    ensures rest { vec_len parts.new + 1 ≡ vec_len parts.old }
{
    let Some(last) = parts.pop() else {
        unreachable!()
    };
    last
}
