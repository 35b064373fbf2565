//! What a program asks of a kernel: all boards that its boot may lead to, and what they say of every order.
//! A law runs nothing, and tells the prover a fact: `every_order`.

ghost use Rattle.std.specs.Prelude.{◌≡◌, ◌≤◌, ◌<◌, ℕ, List, IfOk, IfSome, IfNone, OnOk, Ok, true, false, length};
ghost use Rattle.board_model.specs.Shapes.{ram_bytes_of};
ghost use Rattle.model_board.specs.Boards.{Board as AnyBoard};
ghost use Rattle.model_board.specs.Events.{Event, GoesOn, IsEnd};
ghost use Rattle.state_space.specs.Orders.{Leads, CanEnd};
ghost use Rattle.board_space.specs.Few.{AskedOrders, GoesOnToLast, RunsAsked};
ghost use Rattle.board_space.specs.Happenings.{event_of};
ghost use Rattle.board_space.specs.Searches.{IsSearchOf};
ghost use Rattle.board_space.specs.Settings.{asked_of};
ghost use Rattle.board_space.specs.Space.{Happens, IsOne, number_of, start_of};
ghost use Rattle.board_space.specs.declared.bounds.Bound.TheVariants.{Unbounded, Preemptions, PowerOns};

use crate::bounds::Bound;
use crate::followed::{last_rows, open_rows};
use crate::guesses::{Broke, Guess};
use crate::happenings::Happening;
use crate::orders::{StandsFor, every_order};
use crate::outcomes::Outcome;
use crate::questions::Question;
use crate::seeds::{seed, seed_on};
use crate::settling::settle_one;
use crate::showing::{board_part, shown_at, shown_by_all};
use crate::space::BoardSpace;
use board_model::HartId;
use hart::Hart;
use model_board::{Board, Rest, TouchMap};
use state_space::{
    Counting, Graph, Limits, Refused, Switching, Verdict, explore_by, first_dead, way_to,
};
use std::alloc::Global;
use std::marker::Model;
use std::thread::Threads;

/// How often a search starts over with a wider map before it is given up.
const MOST_MAPS: u32 = 10_000;

/// The boards that the orders that are asked for lead to from one that was never on, as far as the search went.
#[derive(Drop)]
pub struct Explored {
    alloc: Global,
    graph: Graph,
    space: BoardSpace,
    bound: Bound,
    verdict: Verdict,
}

impl Model for Explored {
    ghost use Rattle.board_space.specs.Few.{AskedOrders};
    ghost use Rattle.board_space.specs.Searches.{IsSearchOf};
    ghost use Rattle.board_space.specs.Settings.{asked_of};

    ghost Value = { AskedOrders };

    ghost view = { λ e. record { asked = asked_of e.space; bound = e.bound } };

    ghost invariant = { λ e. IsSearchOf e.space e.bound e.graph };
}

impl StandsFor for BoardSpace {
    ghost use Rattle.board_space.specs.Covering.{StandsAll};
    ghost use Rattle.board_space.specs.declared.space.BoardSpace.{BoardSpace as Space};

    ghost Tables = { Space };

    ghost stands = { λ s. StandsAll s.leaves s.rows };
}

/// A search of a board's states, with the board's space after it.
#[derive(Drop)]
struct Searched {
    space: BoardSpace,
    found: Result<(Graph, Verdict), Refused>,
}

/// Searches every order.
fn search_all<R: Threads + Sync>(
    rt: &R,
    alloc: Global,
    threads: usize,
    space: BoardSpace,
    limits: Limits,
) -> Searched
    ensures asked { asked_of result.space ≡ asked_of space }
    ensures search { IfOk result.found (λ found. IsSearchOf result.space Unbounded found.0) }
{
    let mut space = space;
    let found = explore_by(rt, alloc, threads, &mut space, limits);
    Searched { space, found }
}

/// Searches the orders in which at most `switches` harts are preempted.
fn search_few<R: Threads + Sync>(
    rt: &R,
    alloc: Global,
    threads: usize,
    space: BoardSpace,
    switches: u32,
    limits: Limits,
) -> Searched
    ensures asked { asked_of result.space ≡ asked_of space }
    ensures search { IfOk result.found (λ found. IsSearchOf result.space (Preemptions switches) found.0) }
{
    let mut switching = Switching::new(alloc, space, switches);
    let found = explore_by(rt, alloc, threads, &mut switching, limits);
    Searched {
        space: switching.into_system(),
        found,
    }
}

/// Searches the orders in which there are at most `most` power-ons.
fn search_lives<R: Threads + Sync>(
    rt: &R,
    alloc: Global,
    threads: usize,
    space: BoardSpace,
    most: u32,
    limits: Limits,
) -> Searched
    ensures asked { asked_of result.space ≡ asked_of space }
    ensures search { IfOk result.found (λ found. IsSearchOf result.space (PowerOns most) found.0) }
{
    let mut counting = Counting::new(alloc, space, most);
    let found = explore_by(rt, alloc, threads, &mut counting, limits);
    Searched {
        space: counting.into_system(),
        found,
    }
}

/// Searches the orders that are asked for.
fn search<R: Threads + Sync>(
    rt: &R,
    alloc: Global,
    question: &Question,
    space: BoardSpace,
) -> Searched
    ensures asked { asked_of result.space ≡ asked_of space }
    ensures search { IfOk result.found (λ found. IsSearchOf result.space question.now.bound found.0) }
{
    let threads = question.threads;
    let limits = question.limits;
    match question.bound {
        Bound::Unbounded => search_all(rt, alloc, threads, space, limits),
        Bound::Preemptions(switches) => search_few(rt, alloc, threads, space, switches, limits),
        Bound::PowerOns(most) => search_lives(rt, alloc, threads, space, most, limits),
    }
}

/// Whether registers are left out of rows: where preemptions are bounded it is asked whether a hart waits, which all of them tell.
fn leaves_out(bound: Bound) -> bool {
    !matches!(bound, Bound::Preemptions(_))
}

/// The space in which the boards of a question are searched, by a guess.
fn space_of(alloc: Global, question: &Question, guess: Guess) -> Result<BoardSpace, Refused>
    requires { length question.now.payload.now ≤ ram_bytes_of question.now.shape }
    ensures { IfOk result (λ space. asked_of space ≡ record {
      size = question.now.shape;
      payload = question.now.payload.now;
      reason = question.now.reason;
      cuts = question.now.failures.cuts;
      refusals = question.now.failures.refusals;
    }) }
{
    BoardSpace::new(
        alloc,
        &question.shape,
        question.payload,
        question.reason,
        question.failures,
        guess,
        leaves_out(question.bound),
    )
}

/// A guess, mended by what a search found wrong of it.
fn mended(
    alloc: Global,
    question: &Question,
    space: BoardSpace,
    broke: Broke,
) -> Result<Guess, Refused>
    requires fits { length question.now.payload.now ≤ ram_bytes_of question.now.shape }
    requires size { space.shape ≡ question.now.shape }
{
    let (wrong, mut board) = space.into_guess();
    let mut guess = wrong;
    guess.widen(broke);
    seed_on(alloc, question, &mut board, &mut guess)?;
    Ok(guess)
}

/// What a search found by a guess that held.
fn explored_of(alloc: Global, bound: Bound, searched: Searched) -> Result<Explored, Refused>
    requires { IfOk searched.found (λ found. IsSearchOf searched.space bound found.0) }
    ensures { IfOk result (λ e. e ≡ record { asked = asked_of searched.space; bound = bound }) }
{
    let Searched { space, found } = searched;
    let (graph, verdict) = found?;
    Ok(Explored {
        alloc,
        graph,
        space,
        bound,
        verdict,
    })
}

/// Explores a kernel. Refused where there is no room, and where more than 10,000 guesses were tried.
pub fn explore_board<R: Threads + Sync>(
    rt: &R,
    alloc: Global,
    question: &Question,
) -> Result<Explored, Refused>
    requires { length question.now.payload.now ≤ ram_bytes_of question.now.shape }
    ensures { IfOk result (λ e. e ≡ record {
      asked = record {
        size = question.now.shape;
        payload = question.now.payload.now;
        reason = question.now.reason;
        cuts = question.now.failures.cuts;
        refusals = question.now.failures.refusals;
      };
      bound = question.now.bound;
    }) }
{
    let mut guess = Guess::new(alloc, &question.shape)?;
    seed(alloc, question, &mut guess)?;
    for _round in 0..MOST_MAPS {
        let space = space_of(alloc, question, guess)?;
        let searched = search(rt, alloc, question, space);
        let Some(broke) = searched.space.broke() else {
            let explored = explored_of(alloc, question.bound, searched)?;
            return Ok(explored);
        };
        let Searched { space, .. } = searched;
        guess = mended(alloc, question, space, broke)?;
    }
    Err(Refused::Numbers)
}

impl Explored {
    ghost use Rattle.board_space.specs.Shown.{Shows};
    ghost use Rattle.board_space.specs.WaysOf.{IsWayOf};

    /// What each order that is asked for shows at its end: `Some` only where the search is closed, each row that was found reaches an end by
    /// events that are no failures, and all ends that were found show the same in the bytes `from..to` of RAM. It speaks of orders of any
    /// length: each end shows it, and from each board that they lead to, some events that are no failures lead to an end. Where power-ons
    /// are bounded they lead to an end, or to where the board is off and the next power-on is due.
    pub fn outcome(&mut self, from: usize, to: usize) -> Result<Option<Outcome>, Refused>
        requires order { from ≤ to }
        requires within { to ≤ ram_bytes_of self.old.asked.size }
        ensures ends { IfOk result (λ found. IfSome found (λ outcome. (events : List Event) (last : AnyBoard)
            → RunsAsked self.old events last → IsEnd last → Shows from to outcome last)) }
        ensures no_dead_end { IfOk result (λ found. IfSome found (λ outcome. (events : List Event) (last : AnyBoard)
            → RunsAsked self.old events last → GoesOnToLast self.old last)) }
        ensures same { self.new ≡ self.old }
    {
        every_order::<BoardSpace>();
        let _few = self.space.harts();
        if self.graph.expanded() != self.graph.count() {
            return Ok(None);
        }
        let lasts = last_rows(self.alloc, &self.space, self.bound, &self.graph)?;
        if first_dead(self.alloc, &self.space, &self.graph, &lasts)?.is_some() {
            return Ok(None);
        }
        shown_by_all(&mut self.space, self.bound, &self.graph, from, to)
    }

    /// How the orders are bounded.
    pub fn bound(&self) -> Bound
        ensures { result ≡ self.now.bound }
    {
        self.bound
    }

    /// How the search ended.
    pub fn verdict(&self) -> Verdict {
        self.verdict
    }

    /// How many boards were found: with different numbers of switches or power-ons left one is counted as often.
    pub fn count(&self) -> usize {
        self.graph.count()
    }

    /// How many steps there are between them.
    pub fn steps(&self) -> usize {
        self.graph.steps()
    }

    /// Which hart may touch which word, by the map that held.
    pub fn map(&self) -> &TouchMap {
        self.space.map()
    }

    /// The rows of the boards that are at an end, among those that are expanded.
    pub fn ends(&self) -> Result<Vec<usize>, Refused> {
        let mut ends = Vec::new(self.alloc);
        for row in 0..self.graph.expanded() {
            if self.graph.is_end(row) {
                ends.push(row)?;
            }
        }
        Ok(ends)
    }

    /// The first row whose board comes to no end by events that are no failures, as far as the search went: all that follows it is known, and
    /// no switch and no power-on was left out for want of one. So some events lead to a board from which no such events lead to an end.
    pub fn first_dead(&self) -> Result<Option<usize>, Refused>
        ensures { IfOk result (λ found. IfSome found (λ _. (b : AnyBoard) × Leads (Happens self.now.asked) (start_of self.now.asked) b
            × (CanEnd (Happens self.now.asked) GoesOn IsEnd b → ⊥))) }
    {
        every_order::<BoardSpace>();
        let _few = self.space.harts();
        let open = open_rows(self.alloc, &self.space, self.bound, &self.graph)?;
        first_dead(self.alloc, &self.space, &self.graph, &open)
    }

    /// The events, by their numbers, of a way from the start to a row, before the first of which and after each the board settles. `None`
    /// where there is no such row.
    pub fn way(&self, row: usize) -> Result<Option<Vec<u8>>, Refused>
        ensures { IfOk result (λ found. IfSome found (λ way. IsWayOf self.now.asked way.items)) }
    {
        every_order::<BoardSpace>();
        way_to(self.alloc, &self.graph, row)
    }

    /// Puts the board of a row, to be looked at by `current`: the search stays as it is. Whether there is such a row. Registers of it may be left
    /// out, which hold `LEFT_OUT` then: a way to the row, replayed, leads to a board of it.
    pub fn show(&mut self, row: usize) -> bool
        ensures { self.new ≡ self.old }
    {
        if self.graph.count() <= row {
            return false;
        }
        self.space.show(board_part(self.graph.row(row), self.bound));
        true
    }

    /// What the board of a row is beside its harts and its memory. `None` where there is no such row.
    pub fn rest_of(&self, row: usize) -> Option<&Rest> {
        if self.graph.count() <= row {
            return None;
        }
        let numbers = board_part(self.graph.row(row), self.bound);
        Some(self.space.rows.rest_of(numbers))
    }

    /// A hart of the board of a row: registers of it may be left out, which hold `LEFT_OUT` then. `None` where there is no such row, or no such
    /// hart.
    pub fn hart_of(&self, row: usize, number: usize) -> Option<&Hart> {
        if self.graph.count() <= row {
            return None;
        }
        let numbers = board_part(self.graph.row(row), self.bound);
        self.space.rows.hart_of(numbers, number)
    }

    /// What an end shows in the bytes `from..to` of RAM: some events lead to a board that is at an end and shows it. `None` where the row is
    /// none of an end.
    pub fn shown(&mut self, row: usize, from: usize, to: usize) -> Result<Option<Outcome>, Refused>
        requires order { from ≤ to }
        requires within { to ≤ ram_bytes_of self.old.asked.size }
        ensures ends { IfOk result (λ found. IfSome found (λ outcome. (b : AnyBoard)
            × Leads (Happens self.old.asked) (start_of self.old.asked) b × IsEnd b × Shows from to outcome b)) }
        ensures same { self.new ≡ self.old }
    {
        every_order::<BoardSpace>();
        if self.graph.expanded() <= row {
            return Ok(None);
        }
        if !self.graph.is_end(row) {
            return Ok(None);
        }
        shown_at(&mut self.space, self.bound, self.graph.row(row), from, to)
    }

    /// The bytes of RAM of the boards.
    pub fn ram_bytes(&self) -> usize
        ensures { result ≡ ram_bytes_of self.now.asked.size }
    {
        self.space.ram_bytes()
    }

    /// The board that was put last.
    pub fn current(&self) -> &Board {
        self.space.current()
    }

    /// The board with which the search began.
    pub fn first_board(&self) -> Result<Board, Refused>
        ensures board { IfOk result (λ b. b.board ≡ start_of self.now.asked) }
        ensures size { IfOk result (λ b. b.size ≡ self.now.asked.size) }
    {
        self.space.first_board()
    }

    /// The happening of that number, where it was asked for.
    pub fn happening(&self, number: u8) -> Option<Happening>
        ensures some { IfSome result (λ h. IsOne self.now.asked (event_of h) × (number_of (event_of h) ≡ number)) }
        ensures none { IfNone result ((e : Event) → IsOne self.now.asked e → number_of e ≡ number → ⊥) }
    {
        self.space.happening(number)
    }

    /// Makes a happening happen to a board, and answers whether it could. The board has not settled then.
    pub fn replay(&self, board: &mut Board, number: u8) -> bool
        requires { board.old.size ≡ self.now.asked.size }
        ensures happens { result ≡ true → (e : Event) × (number_of e ≡ number) × Happens self.now.asked e board.old.board board.new.board }
        ensures never { result ≡ false → (e : Event) (c : AnyBoard) → number_of e ≡ number
            → Happens self.now.asked e board.old.board c → ⊥ }
        ensures size { board.new.size ≡ board.old.size }
    {
        self.space.replay(board, number)
    }

    /// Makes the local turns of a hart by which a board settles, and answers how many. A board settles by those of hart 0 first, then by those
    /// of the next, up to the last.
    pub fn settle(&self, board: &mut Board, number: u64) -> u32
        ensures turns { board.old.size ≡ self.now.asked.size → Leads (Happens self.now.asked) board.old.board board.new.board }
        ensures size { board.new.size ≡ board.old.size }
    {
        every_order::<BoardSpace>();
        match board.machine().shape().hart(number) {
            Some(hart) => settle_one(board, self.space.map(), false, hart),
            None => 0,
        }
    }
}
