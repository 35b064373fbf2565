//! The rows of a window, which several systems expand side by side, and which are entered in their order.

ghost use Rattle.std.specs.Prelude.{◌≡◌, ◌<◌, ◌≤◌, ◌+◌, ℕ, All, IfOk, OnOk, true, vec_len, vec_capacity};
ghost use Rattle.std.specs.Thread.{IsSend, IsSync};
ghost use Rattle.state_space.specs.Carried.{AreMade, IsBeside, IsCarried, IsLater, IsMade, IsPushed};
ghost use Rattle.state_space.specs.Graphs.{IsSearched, count_of, expanded_of, row_at};
ghost use Rattle.state_space.specs.Numbered.{row_width};
ghost use Rattle.state_space.specs.Successors.{found_count, found_row, found_width};
ghost use Rattle.state_space.specs.Systems.{Stay};

use crate::carries::Carries;
use crate::explores::reached;
use crate::found::Successors;
use crate::graph::Graph;
use crate::limits::Limits;
use crate::refusal::Refused;
use crate::workers::{Made, Worker};
use std::alloc::Global;
use std::thread::Threads;
use std::{mem, thread};

/// The fewest rows that each system expands in a window, but for the last ones of it.
const ROWS_EACH: usize = 16;
/// The most rows that each system expands in a window.
const MOST_EACH: usize = 4096;

/// Carries a successor over to the tables of another system.
fn carry_one<S: Carries>(
    system: &mut S,
    from: &S,
    memo: &mut S::Memo,
    event: u8,
    successor: &[u32],
    row: &mut Vec<u32>,
    found: &mut Successors,
) -> Result<(), Refused>
    requires setting { S.setting system.old ≡ S.setting from.now }
    requires stands { (b : S.State) × S.stands from.now successor.now b }
    requires width { found_width found.old ≡ S.width (S.setting system.old) }
    requires knows { S.knows from.now system.old memo.old }
    ensures setting { S.setting system.new ≡ S.setting system.old }
    ensures knows { S.knows from.now system.new memo.new }
    ensures stays { Stay (S.stands system.old) (S.stands system.new) }
    ensures width { found_width found.new ≡ found_width found.old }
    ensures pushed { IfOk result (λ _. IsPushed (S.stands from.now) (S.stands system.new) found.old found.new event successor.now) }
{
    system.carry(from, memo, successor, row)?;
    found.push(event, row)
}

/// Carries successors over to the tables of another system, in place of what was found before.
fn carry_all<S: Carries>(
    system: &mut S,
    from: &S,
    memo: &mut S::Memo,
    successors: &Successors,
    row: &mut Vec<u32>,
    found: &mut Successors,
) -> Result<(), Refused>
    requires setting { S.setting system.old ≡ S.setting from.now }
    requires known { (i : ℕ) → i < found_count successors.now
        → (b : S.State) × S.stands from.now (found_row successors.now i) b }
    requires width { found_width found.old ≡ S.width (S.setting system.old) }
    requires knows { S.knows from.now system.old memo.old }
    ensures setting { S.setting system.new ≡ S.setting system.old }
    ensures knows { S.knows from.now system.new memo.new }
    ensures stays { Stay (S.stands system.old) (S.stands system.new) }
    ensures width { found_width found.new ≡ found_width found.old }
    ensures carried { IfOk result (λ _. IsCarried (S.stands from.now) (S.stands system.new) successors.now found.new
        (found_count successors.now)) }
{
    found.clear();
    for index in 0..successors.count() {
        carry_one(
            system,
            from,
            memo,
            successors.event(index),
            successors.row(index),
            row,
            found,
        )?;
    }
    Ok(())
}

/// Enters what the next row leads to, as it was made. Whether it did: not where another row is next, and not where a limit is reached.
fn enter<S: Carries>(
    system: &mut S,
    graph: &mut Graph,
    limits: Limits,
    from: &S,
    memo: &mut S::Memo,
    made: &Made,
    row: &mut Vec<u32>,
    found: &mut Successors,
) -> Result<bool, Refused>
    requires setting { S.setting system.old ≡ S.setting from.now }
    requires searched { IsSearched (S.rules (S.setting system.old)) (S.stands system.old) graph.old }
    requires made { IsMade (S.rules (S.setting system.old)) (S.stands system.old) (S.stands from.now) graph.old made.now }
    requires width { row_width graph.old.rows ≡ S.width (S.setting system.old) }
    requires found_width { found_width found.old ≡ S.width (S.setting system.old) }
    requires knows { S.knows from.now system.old memo.old }
    ensures setting { S.setting system.new ≡ S.setting system.old }
    ensures knows { S.knows from.now system.new memo.new }
    ensures searched { OnOk result (IsSearched (S.rules (S.setting system.new)) (S.stands system.new) graph.new) }
    ensures later { OnOk result (IsLater (S.stands system.old) (S.stands system.new) graph.old graph.new) }
    ensures width { OnOk result (row_width graph.new.rows ≡ row_width graph.old.rows) }
    ensures found_width { found_width found.new ≡ found_width found.old }
{
    if made.row != graph.expanded() || reached(system, graph, limits).is_some() {
        return Ok(false);
    }
    if made.is_known {
        graph.add(&made.found, &made.targets, made.is_end)?;
        return Ok(true);
    }
    carry_all(system, from, memo, &made.found, row, found)?;
    graph.add(found, &[], made.is_end)?;
    Ok(true)
}

/// Enters what a system made of its share of a window, in the order of the rows, as far as it is next and no limit is reached.
fn enter_share<S: Carries>(
    system: &mut S,
    graph: &mut Graph,
    limits: Limits,
    from: &S,
    memo: &mut S::Memo,
    all: &[Made],
    row: &mut Vec<u32>,
    found: &mut Successors,
) -> Result<(), Refused>
    requires setting { S.setting system.old ≡ S.setting from.now }
    requires searched { IsSearched (S.rules (S.setting system.old)) (S.stands system.old) graph.old }
    requires made { All (IsMade (S.rules (S.setting system.old)) (S.stands system.old) (S.stands from.now) graph.old) all.now }
    requires width { row_width graph.old.rows ≡ S.width (S.setting system.old) }
    requires found_width { found_width found.old ≡ S.width (S.setting system.old) }
    requires knows { S.knows from.now system.old memo.old }
    ensures setting { S.setting system.new ≡ S.setting system.old }
    ensures knows { S.knows from.now system.new memo.new }
    ensures searched { OnOk result (IsSearched (S.rules (S.setting system.new)) (S.stands system.new) graph.new) }
    ensures later { OnOk result (IsLater (S.stands system.old) (S.stands system.new) graph.old graph.new) }
    ensures width { OnOk result (row_width graph.new.rows ≡ row_width graph.old.rows) }
    ensures found_width { found_width found.new ≡ found_width found.old }
{
    for made in all {
        if !enter(system, graph, limits, from, memo, made, row, found)? {
            return Ok(());
        }
    }
    Ok(())
}

/// A system that has expanded its share of a window: so many rows, from that one on by its place among the systems.
fn with_share<S: Carries>(
    system: &S,
    graph: &Graph,
    each: usize,
    index: usize,
    worker: Worker<S>,
) -> Worker<S>
    requires beside { IsBeside S.setting S.knows system.now worker.system worker.memo worker.back }
    requires searched { IsSearched (S.rules (S.setting system.now)) (S.stands system.now) graph.now }
    ensures { AreMade S.setting S.rules S.stands S.knows system.now graph.now result }
{
    let mut worker = worker;
    let from = index.saturating_mul(each).saturating_add(graph.expanded());
    worker.make_all(system, graph, from, from.saturating_add(each));
    worker
}

/// The last of the systems, which is taken out of their list. The system that is searched is an argument only so that it can be named.
fn last_of<S: Carries>(system: &S, workers: &mut Vec<Worker<S>>) -> Worker<S>
    requires some { 0 < vec_len workers.old }
    requires beside { All (λ worker. IsBeside S.setting S.knows system.now worker.system worker.memo worker.back) workers.old.items }
    ensures beside { IsBeside S.setting S.knows system.now result.system result.memo result.back }
    ensures rest { All (λ worker. IsBeside S.setting S.knows system.now worker.system worker.memo worker.back) workers.new.items }
    ensures many { vec_len workers.new + 1 ≡ vec_len workers.old }
    ensures room { vec_capacity workers.new ≡ vec_capacity workers.old }
{
    let _ = system;
    let Some(last) = workers.pop() else {
        unreachable!()
    };
    last
}

/// Lets each system expand its share of a window: so many rows each. This thread makes each of the others, so that the system finds a
/// processor of its own for each, and then expands a share beside them.
#[cycle(shares)]
fn with_shares<R: Threads + Sync, S: Carries>(
    rt: &R,
    system: &S,
    graph: &Graph,
    each: usize,
    workers: Vec<Worker<S>>,
) -> Vec<Worker<S>>
    requires searched { IsSearched (S.rules (S.setting system.now)) (S.stands system.now) graph.now }
    requires beside { All (λ worker. IsBeside S.setting S.knows system.now worker.system worker.memo worker.back) workers.items }
    ensures many { vec_len result ≡ vec_len workers }
    ensures room { vec_capacity result ≡ vec_capacity workers }
    ensures made { All (AreMade S.setting S.rules S.stands S.knows system.now graph.now) result.items }
{
    let mut rest = workers;
    if rest.is_empty() {
        return rest;
    }
    let last = last_of(system, &mut rest);
    let index = rest.len();
    if index == 0 {
        rest.push_reserved(with_share(system, graph, each, index, last));
        return rest;
    }
    let one = move || -> Worker<S>
        requires { IsSync S.row × IsSend S.row × IsSync S.Memo.row × IsSend S.Memo.row
            × IsBeside S.setting S.knows system.now last.system last.memo last.back
            × IsSearched (S.rules (S.setting system.now)) (S.stands system.now) graph.now }
        ensures { AreMade S.setting S.rules S.stands S.knows system.entry.now graph.entry.now result }
    { with_share(system, graph, each, index, last) };
    let others = move || -> Vec<Worker<S>>
        requires { IsSync R.row × IsSync S.row × IsSend S.row × IsSync S.Memo.row × IsSend S.Memo.row
            × All (λ worker. IsBeside S.setting S.knows system.now worker.system worker.memo worker.back) rest.items
            × IsSearched (S.rules (S.setting system.now)) (S.stands system.now) graph.now }
        ensures { (vec_len result ≡ vec_len rest) × (vec_capacity result ≡ vec_capacity rest)
            × All (AreMade S.setting S.rules S.stands S.knows system.entry.now graph.entry.now) result.items }
    { with_shares(rt, system, graph, each, rest) };
    let (one, mut all) = thread::join(rt, one, others);
    all.push_reserved(one);
    all
}

/// The systems beside the one that is searched.
#[derive(Drop)]
pub struct Workers<S: Carries> {
    alloc: Global,
    workers: Vec<Worker<S>>,
    /// The row that was carried over last.
    row: Vec<u32>,
}

impl<S: Carries> Workers<S> {
    /// So many, of the same setting as that one.
    pub fn new(alloc: Global, system: &S, count: usize) -> Result<Workers<S>, Refused>
        ensures { IfOk result (λ all. All (λ worker. IsBeside S.setting S.knows system.now worker.system worker.memo worker.back)
            all.workers.items) }
    {
        let mut workers = Vec::new(alloc);
        for _ in 0..count {
            workers.push(Worker::new(alloc, system)?)?;
        }
        Ok(Workers {
            alloc,
            workers,
            row: Vec::new(alloc),
        })
    }

    /// How many rows each expands, if so many are left: none where they are too few.
    fn share(&self, left: usize) -> usize {
        let count = self.workers.len();
        if count == 0 {
            return 0;
        }
        let each = (left / count).min(MOST_EACH);
        if each < ROWS_EACH { 0 } else { each }
    }

    /// Enters what all of them made, in the order of the rows, as far as no limit is reached.
    fn enter_all(
        &mut self,
        system: &mut S,
        graph: &mut Graph,
        limits: Limits,
        found: &mut Successors,
    ) -> Result<(), Refused>
        requires searched { IsSearched (S.rules (S.setting system.old)) (S.stands system.old) graph.old }
        requires made { All (AreMade S.setting S.rules S.stands S.knows system.old graph.old) self.old.workers.items }
        requires width { row_width graph.old.rows ≡ S.width (S.setting system.old) }
        requires found_width { found_width found.old ≡ S.width (S.setting system.old) }
        ensures setting { S.setting system.new ≡ S.setting system.old }
        ensures made { OnOk result (All (AreMade S.setting S.rules S.stands S.knows system.new graph.new) self.new.workers.items) }
        ensures searched { OnOk result (IsSearched (S.rules (S.setting system.new)) (S.stands system.new) graph.new) }
        ensures later { OnOk result (IsLater (S.stands system.old) (S.stands system.new) graph.old graph.new) }
        ensures width { OnOk result (row_width graph.new.rows ≡ row_width graph.old.rows) }
        ensures found_width { found_width found.new ≡ found_width found.old }
    {
        for index in 0..self.workers.len() {
            let worker = &mut self.workers[index];
            enter_share(
                system,
                graph,
                limits,
                &worker.system,
                &mut worker.back,
                &worker.made,
                &mut self.row,
                found,
            )?;
        }
        Ok(())
    }

    /// Expands the next rows, those of a window, side by side, and enters them in their order, as far as no limit is reached. What is found
    /// is the same by any number of systems. A row at which the search halts, or that was refused memory, is left, and so are those after it.
    pub fn expand_window<R: Threads + Sync>(
        &mut self,
        rt: &R,
        system: &mut S,
        graph: &mut Graph,
        limits: Limits,
        found: &mut Successors,
    ) -> Result<(), Refused>
        requires searched { IsSearched (S.rules (S.setting system.old)) (S.stands system.old) graph.old }
        requires workers { All (λ worker. IsBeside S.setting S.knows system.old worker.system worker.memo worker.back)
            self.old.workers.items }
        requires width { row_width graph.old.rows ≡ S.width (S.setting system.old) }
        requires found_width { found_width found.old ≡ S.width (S.setting system.old) }
        ensures setting { S.setting system.new ≡ S.setting system.old }
        ensures workers { OnOk result (All (λ worker. IsBeside S.setting S.knows system.new worker.system worker.memo worker.back)
            self.new.workers.items) }
        ensures searched { OnOk result (IsSearched (S.rules (S.setting system.new)) (S.stands system.new) graph.new) }
        ensures more { OnOk result (expanded_of graph.old ≤ expanded_of graph.new) }
        ensures width { OnOk result (row_width graph.new.rows ≡ row_width graph.old.rows) }
        ensures found_width { found_width found.new ≡ found_width found.old }
    {
        let each = self.share(graph.count() - graph.expanded());
        if each == 0 {
            return Ok(());
        }
        let workers = mem::replace(&mut self.workers, Vec::new(self.alloc));
        self.workers = with_shares(rt, system, graph, each, workers);
        self.enter_all(system, graph, limits, found)
    }
}
