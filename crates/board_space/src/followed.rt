//! The rows to which each order goes on, and those of which it is known what follows them.

ghost use Rattle.std.specs.Prelude.{◌≡◌, ◌<◌, ◌≤◌, ℕ, length, IfOk, true, false};
ghost use Rattle.model_board.specs.Boards.{Board as AnyBoard};
ghost use Rattle.state_space.specs.Deads.{IsMarked};
ghost use Rattle.state_space.specs.Graphs.{IsWhole, count_of, expanded_of, row_at};
ghost use Rattle.board_space.specs.Covering.{StandsAll};
ghost use Rattle.board_space.specs.Few.{IsAwayBy, IsLastBy};
ghost use Rattle.board_space.specs.Searches.{HasTurn, IsFollowed, IsSearchOf, StandsBy};

use crate::bounds::Bound;
use crate::showing::board_part;
use crate::space::BoardSpace;
use state_space::{Graph, Refused};
use std::alloc::Global;

/// Whether a turn of a hart, one of the first 8, is among the steps of an expanded row.
fn has_turn(graph: &Graph, row: usize, hart: u32) -> bool
    requires whole { IsWhole graph.now }
    requires row { row < expanded_of graph.now }
    requires hart { hart < 8 }
    ensures { result ≡ true → HasTurn graph.now row hart }
{
    for step in graph.first_step(row)..graph.end_step(row) {
        if u32::from(graph.event(step)) == hart {
            return true;
        }
    }
    false
}

/// Whether a turn of each of `harts` harts, at most 8, is among the steps of an expanded row.
#[tactic(auto, using(crate::proofs::Searching::each_below))]
fn has_turns(graph: &Graph, row: usize, harts: u32) -> bool
    requires whole { IsWhole graph.now }
    requires row { row < expanded_of graph.now }
    requires harts { harts ≤ 8 }
    ensures { result ≡ true → (h : ℕ) → h < harts → HasTurn graph.now row h }
{
    for hart in 0..harts {
        if !has_turn(graph, row, hart) {
            return false;
        }
    }
    true
}

/// Whether the board of a row is off, where power-ons are bounded.
fn is_away(space: &BoardSpace, bound: Bound, row: &[u32]) -> bool
    requires known { (b : AnyBoard) × StandsBy bound (StandsAll space.now.leaves space.now.rows) row.now b }
    ensures away { result ≡ true → (b : AnyBoard) → StandsBy bound (StandsAll space.now.leaves space.now.rows) row.now b
        → IsAwayBy bound b }
    ensures other { result ≡ false → (b : AnyBoard) → StandsBy bound (StandsAll space.now.leaves space.now.rows) row.now b
        → IsAwayBy bound b → ⊥ }
{
    match bound {
        Bound::Unbounded => false,
        Bound::Preemptions(_) => false,
        Bound::PowerOns(_) => space.is_off(board_part(row, bound)),
    }
}

/// Whether a row is known to be at an end; or its board is off, where power-ons are bounded.
fn is_last(space: &BoardSpace, bound: Bound, graph: &Graph, row: usize) -> bool
    requires search { IsSearchOf space.now bound graph.now }
    requires row { row < count_of graph.now }
    ensures { result ≡ true → (b : AnyBoard) → StandsBy bound (StandsAll space.now.leaves space.now.rows) (row_at graph.now row) b
        → IsLastBy bound b }
{
    if row < graph.expanded() && graph.is_end(row) {
        return true;
    }
    is_away(space, bound, graph.row(row))
}

/// Of each row whether it is one to which each order is claimed to go on, as far as it is known.
pub(crate) fn last_rows(
    alloc: Global,
    space: &BoardSpace,
    bound: Bound,
    graph: &Graph,
) -> Result<Vec<bool>, Refused>
    requires { IsSearchOf space.now bound graph.now }
    ensures each { IfOk result (λ marks. length marks.items ≡ count_of graph.now) }
    ensures lasts { IfOk result (λ marks. (k : ℕ) → IsMarked marks.items k → (b : AnyBoard)
        → StandsBy bound (StandsAll space.now.leaves space.now.rows) (row_at graph.now k) b → IsLastBy bound b) }
{
    let mut marks = Vec::new(alloc);
    for row in 0..graph.count() {
        marks.push(is_last(space, bound, graph, row))?;
    }
    Ok(marks)
}

/// Whether a row is at no end, and all that follows it is known.
fn is_followed(space: &BoardSpace, bound: Bound, graph: &Graph, row: usize) -> bool
    requires search { IsSearchOf space.now bound graph.now }
    requires row { row < count_of graph.now }
    ensures { result ≡ true
        → IsFollowed space.now.shape.harts bound (StandsAll space.now.leaves space.now.rows) graph.now row }
{
    row < graph.expanded()
        && !graph.is_end(row)
        && !is_away(space, bound, graph.row(row))
        && has_turns(graph, row, space.harts())
}

/// Of each row whether it is at an end, or not all that follows it is known.
pub(crate) fn open_rows(
    alloc: Global,
    space: &BoardSpace,
    bound: Bound,
    graph: &Graph,
) -> Result<Vec<bool>, Refused>
    requires { IsSearchOf space.now bound graph.now }
    ensures each { IfOk result (λ marks. length marks.items ≡ count_of graph.now) }
    ensures others { IfOk result (λ marks. (k : ℕ) → k < count_of graph.now → (IsMarked marks.items k → ⊥)
        → IsFollowed space.now.shape.harts bound (StandsAll space.now.leaves space.now.rows) graph.now k) }
{
    let mut marks = Vec::new(alloc);
    for row in 0..graph.count() {
        marks.push(!is_followed(space, bound, graph, row))?;
    }
    Ok(marks)
}
