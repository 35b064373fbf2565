//! Which rows reach an end.

ghost use Rattle.std.specs.Prelude.{◌≡◌, ◌<◌, ◌≤◌, ℕ, length, IfOk, IfSome, IfNone, MatchOption, slice_index_or, true, false};
ghost use Rattle.state_space.specs.Graphs.{count_of, expanded_of, first_step, end_step, target_of, IsWhole, IsEnd};
ghost use Rattle.state_space.specs.Deads.{IsMarked, Reaches, AreReaching, IsStuck, AreStuck};

use crate::graph::Graph;
use crate::refusal::Refused;
use crate::systems::System;
use std::alloc::Global;

/// Whether a row is at an end: one that is not expanded is not known to be.
fn is_known_end(graph: &Graph, row: usize) -> bool
    requires { IsWhole graph.now }
    ensures { result ≡ true → IsEnd graph.now row }
{
    row < graph.expanded() && graph.is_end(row)
}

/// Of each row whether it is at an end, as far as it is known.
pub fn at_end(alloc: Global, graph: &Graph) -> Result<Vec<bool>, Refused>
    requires { IsWhole graph.now }
    ensures each { IfOk result (λ marks. length marks.items ≡ count_of graph.now) }
    ensures ends { IfOk result (λ marks. (k : ℕ) → IsMarked marks.items k → IsEnd graph.now k) }
{
    let mut marks = Vec::new(alloc);
    for row in 0..graph.count() {
        marks.push(is_known_end(graph, row))?;
    }
    Ok(marks)
}

/// Whether a row is a goal, or a step by which the system goes on leads from it to a row that is marked.
#[inline]
#[tactic(auto, using(crate::proofs::Dead::reaches_goal, crate::proofs::Dead::reaches_by, crate::proofs::Dead::stuck_made, crate::proofs::Dead::stuck_open))]
fn reaches<S: System>(system: &S, graph: &Graph, goals: &[bool], marks: &[bool], row: usize) -> bool
    requires whole { IsWhole graph.now }
    requires row { row < count_of graph.now }
    requires goals { length goals.now ≡ count_of graph.now }
    requires marks { length marks.now ≡ count_of graph.now }
    requires reaching { AreReaching (S.rules (S.setting system.now)).goes graph.now goals.now marks.now }
    ensures reaches { result ≡ true → Reaches (S.rules (S.setting system.now)).goes graph.now goals.now row }
    ensures stuck { result ≡ false → IsStuck (S.rules (S.setting system.now)).goes graph.now goals.now marks.now row }
{
    if goals[row] {
        return true;
    }
    if graph.expanded() <= row {
        return false;
    }
    for step in graph.first_step(row)..graph.end_step(row) {
        if system.goes(graph.event(step)) && marks[graph.target(step)] {
            return true;
        }
    }
    false
}

/// Marks a row where it reaches a goal, and answers whether it was marked by this.
#[inline]
#[tactic(auto, using(crate::proofs::Dead::reaching_more))]
fn mark<S: System>(
    system: &S,
    graph: &Graph,
    goals: &[bool],
    marks: &mut [bool],
    row: usize,
) -> bool
    requires whole { IsWhole graph.now }
    requires row { row < count_of graph.now }
    requires goals { length goals.now ≡ count_of graph.now }
    requires marks { length marks.old ≡ count_of graph.now }
    requires reaching { AreReaching (S.rules (S.setting system.now)).goes graph.now goals.now marks.old }
    ensures reaching { AreReaching (S.rules (S.setting system.now)).goes graph.now goals.now marks.new }
    ensures same { result ≡ false → marks.new ≡ marks.old }
    ensures stuck { result ≡ false → slice_index_or marks.old row false ≡ false
        → IsStuck (S.rules (S.setting system.now)).goes graph.now goals.now marks.old row }
{
    if marks[row] || !reaches(system, graph, goals, marks, row) {
        return false;
    }
    marks[row] = true;
    true
}

/// Goes over all rows, from the last on and then from the first on, and answers whether any was marked.
fn go_over<S: System>(system: &S, graph: &Graph, goals: &[bool], marks: &mut [bool]) -> bool
    requires whole { IsWhole graph.now }
    requires goals { length goals.now ≡ count_of graph.now }
    requires marks { length marks.old ≡ count_of graph.now }
    requires reaching { AreReaching (S.rules (S.setting system.now)).goes graph.now goals.now marks.old }
    ensures reaching { AreReaching (S.rules (S.setting system.now)).goes graph.now goals.now marks.new }
    ensures stuck { result ≡ false → AreStuck (S.rules (S.setting system.now)).goes graph.now goals.now marks.new }
{
    for down in (0..graph.count()).rev() {
        let _marked = mark(system, graph, goals, marks, down);
    }
    let mut any = false;
    for up in 0..graph.count() {
        any |= mark(system, graph, goals, marks, up);
    }
    any
}

/// Goes over all rows again and again, until none is marked by it. Whether it came so far: each time marks a row at least, so it does.
fn go_on<S: System>(system: &S, graph: &Graph, goals: &[bool], marks: &mut [bool]) -> bool
    requires whole { IsWhole graph.now }
    requires goals { length goals.now ≡ count_of graph.now }
    requires marks { length marks.old ≡ count_of graph.now }
    requires reaching { AreReaching (S.rules (S.setting system.now)).goes graph.now goals.now marks.old }
    ensures reaching { AreReaching (S.rules (S.setting system.now)).goes graph.now goals.now marks.new }
    ensures stuck { result ≡ true → AreStuck (S.rules (S.setting system.now)).goes graph.now goals.now marks.new }
{
    for pass in 0..graph.count() {
        if !go_over(system, graph, goals, marks) {
            return true;
        }
    }
    !go_over(system, graph, goals, marks)
}

/// Of each row whether some steps lead from it to a goal. Steps by failures do not count.
pub fn reaching<S: System>(
    alloc: Global,
    system: &S,
    graph: &Graph,
    goals: &[bool],
) -> Result<Vec<bool>, Refused>
    requires whole { IsWhole graph.now }
    requires goals { length goals.now ≡ count_of graph.now }
    ensures each { IfOk result (λ marks. length marks.items ≡ count_of graph.now) }
    ensures reaching { IfOk result (λ marks. AreReaching (S.rules (S.setting system.now)).goes graph.now goals.now marks.items) }
    ensures stuck { IfOk result (λ marks. AreStuck (S.rules (S.setting system.now)).goes graph.now goals.now marks.items) }
{
    let mut marks = vec![in alloc; false; graph.count()]?;
    if !go_on(system, graph, goals, &mut marks) {
        return Err(Refused::Numbers);
    }
    Ok(marks)
}

/// The first row from which no steps lead to a goal. Steps by failures do not count.
#[tactic(auto, using(crate::proofs::Dead::dead_row))]
pub fn first_dead<S: System>(
    alloc: Global,
    system: &S,
    graph: &Graph,
    goals: &[bool],
) -> Result<Option<usize>, Refused>
    requires whole { IsWhole graph.now }
    requires goals { length goals.now ≡ count_of graph.now }
    ensures none { IfOk result (λ dead. IfNone dead ((k : ℕ) → k < count_of graph.now
        → Reaches (S.rules (S.setting system.now)).goes graph.now goals.now k)) }
    ensures within { IfOk result (λ dead. IfSome dead (λ row. row < count_of graph.now)) }
    ensures dead { IfOk result (λ dead. IfSome dead (λ row. Reaches (S.rules (S.setting system.now)).goes graph.now goals.now row → ⊥)) }
    ensures first { IfOk result (λ dead. IfSome dead (λ row. (k : ℕ) → k < row
        → Reaches (S.rules (S.setting system.now)).goes graph.now goals.now k)) }
{
    let marks = reaching(alloc, system, graph, goals)?;
    for row in 0..marks.len() {
        if !marks[row] {
            return Ok(Some(row));
        }
    }
    Ok(None)
}
