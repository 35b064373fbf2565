//! The search, breadth first.

ghost use Rattle.std.specs.Prelude.{◌≡◌, ◌<◌, ◌≤◌, ◌+◌, ℕ, All, IfOk, OnOk, IfSome, IfNone, true, false};
ghost use Rattle.state_space.specs.Carried.{IsBeside};
ghost use Rattle.state_space.specs.Graphs.{IsSearched, count_of, expanded_of};
ghost use Rattle.state_space.specs.Numbered.{row_width};
ghost use Rattle.state_space.specs.Searches.{IsVerdict};
ghost use Rattle.state_space.specs.Successors.{found_width};
ghost use Rattle.state_space.specs.Systems.{Stay};

use crate::carries::Carries;
use crate::found::Successors;
use crate::graph::Graph;
use crate::limits::{Limits, Verdict};
use crate::refusal::Refused;
use crate::systems::{Expansion, System};
use crate::windows::Workers;
use std::alloc::Global;
use std::thread::Threads;

/// Expands the next row, and answers whether the system wants to go on.
#[inline]
fn expand_next<S: System>(
    system: &mut S,
    graph: &mut Graph,
    found: &mut Successors,
) -> Result<bool, Refused>
    requires next { expanded_of graph.old < count_of graph.old }
    requires searched { IsSearched (S.rules (S.setting system.old)) (S.stands system.old) graph.old }
    requires width { row_width graph.old.rows ≡ S.width (S.setting system.old) }
    requires found_width { found_width found.old ≡ S.width (S.setting system.old) }
    ensures setting { S.setting system.new ≡ S.setting system.old }
    ensures stays { Stay (S.stands system.old) (S.stands system.new) }
    ensures searched { OnOk result (IsSearched (S.rules (S.setting system.new)) (S.stands system.new) graph.new) }
    ensures width { OnOk result (row_width graph.new.rows ≡ row_width graph.old.rows) }
    ensures found_width { found_width found.new ≡ found_width found.old }
    ensures halted { result ≡ Ok false → expanded_of graph.new < count_of graph.new }
    ensures expanded { result ≡ Ok true → expanded_of graph.new ≡ expanded_of graph.old + 1 }
{
    found.clear();
    let next = graph.expanded();
    match system.expand(graph.row(next), found)? {
        Expansion::Halts => Ok(false),
        Expansion::Goes => {
            graph.add(found, &[], false)?;
            Ok(true)
        }
        Expansion::Ends => {
            graph.add(found, &[], true)?;
            Ok(true)
        }
    }
}

/// Which limit is reached, if one is.
#[inline]
pub(crate) fn reached<S: System>(system: &S, graph: &Graph, limits: Limits) -> Option<Verdict>
    ensures { IfSome result (λ verdict. (expanded count : ℕ) → expanded < count → IsVerdict verdict expanded count) }
{
    if limits.rows <= graph.count() {
        return Some(Verdict::AtRows);
    }
    if limits.bytes <= graph.bytes().saturating_add(system.bytes()) {
        return Some(Verdict::AtBytes);
    }
    None
}

/// Expands the next row, and then those of a window side by side. Why the search ends here, if it does.
fn advance<R: Threads + Sync, S: Carries>(
    rt: &R,
    system: &mut S,
    graph: &mut Graph,
    found: &mut Successors,
    workers: &mut Workers<S>,
    limits: Limits,
) -> Result<Option<Verdict>, Refused>
    requires next { expanded_of graph.old < count_of graph.old }
    requires searched { IsSearched (S.rules (S.setting system.old)) (S.stands system.old) graph.old }
    requires width { row_width graph.old.rows ≡ S.width (S.setting system.old) }
    requires found_width { found_width found.old ≡ S.width (S.setting system.old) }
    requires workers { All (λ worker. IsBeside S.setting S.knows system.old worker.system worker.memo worker.back)
        workers.old.workers.items }
    ensures setting { S.setting system.new ≡ S.setting system.old }
    ensures searched { OnOk result (IsSearched (S.rules (S.setting system.new)) (S.stands system.new) graph.new) }
    ensures width { OnOk result (row_width graph.new.rows ≡ row_width graph.old.rows) }
    ensures found_width { found_width found.new ≡ found_width found.old }
    ensures workers { OnOk result (All (λ worker. IsBeside S.setting S.knows system.new worker.system worker.memo worker.back)
        workers.new.workers.items) }
    ensures verdict { IfOk result (λ ended. IfSome ended (λ verdict. IsVerdict verdict (expanded_of graph.new) (count_of graph.new))) }
    ensures more { IfOk result (λ ended. IfNone ended (expanded_of graph.old < expanded_of graph.new)) }
{
    if let Some(verdict) = reached(system, graph, limits) {
        return Ok(Some(verdict));
    }
    if !expand_next(system, graph, found)? {
        return Ok(Some(Verdict::Halted));
    }
    workers.expand_window(rt, system, graph, limits, found)?;
    Ok(None)
}

/// How many systems there are beside the one that is searched: none where one thread does all.
fn workers_of(threads: usize) -> usize {
    if threads <= 1 { 0 } else { threads }
}

/// Searches a system from its start, breadth first, by so many threads: each row that is found is expanded once, in the order in which they
/// are found. What is found is the same by any number of threads: the limits are looked at before each row, and each thread but the first
/// has tables of its own beside, which count to no limit. An `Err` is never a verdict.
pub fn explore_by<R: Threads + Sync, S: Carries>(
    rt: &R,
    alloc: Global,
    threads: usize,
    system: &mut S,
    limits: Limits,
) -> Result<(Graph, Verdict), Refused>
    ensures setting { S.setting system.new ≡ S.setting system.old }
    ensures searched { IfOk result (λ made. IsSearched (S.rules (S.setting system.new)) (S.stands system.new) made.0) }
    ensures verdict { IfOk result (λ made. IsVerdict made.1 (expanded_of made.0) (count_of made.0)) }
{
    let start = system.start()?;
    let mut graph = Graph::new(alloc, &start)?;
    let mut found = Successors::new(alloc, start.len());
    let mut workers = Workers::new(alloc, system, workers_of(threads))?;
    'rows: while graph.expanded() < graph.count() {
        if let Some(verdict) = advance(rt, system, &mut graph, &mut found, &mut workers, limits)? {
            return Ok((graph, verdict));
        }
    }
    Ok((graph, Verdict::Closed))
}
