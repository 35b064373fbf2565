//! What all ends of a search show.

ghost use Rattle.std.specs.Prelude.{◌≡◌, ◌≤◌, List, ℕ, IfOk, IfSome, Some, drop, true};
ghost use Rattle.board_model.specs.Shapes.{ram_bytes_of};
ghost use Rattle.state_space.specs.Graphs.{expanded_of};
ghost use Rattle.model_board.specs.Boards.{Board as AnyBoard};
ghost use Rattle.board_space.specs.Covering.{StandsAll};
ghost use Rattle.board_space.specs.Searches.{IsSearchOf, StandsBy, board_part};
ghost use Rattle.board_space.specs.Settings.{setting_of};
ghost use Rattle.board_space.specs.Shown.{AllShow, IsSame, Shows};

use crate::bounds::Bound;
use crate::outcomes::Outcome;
use crate::space::BoardSpace;
use state_space::{Graph, Refused};

/// Whether what was shown first, where something was, is shown to be the same.
fn agrees(first: &Option<Outcome>, outcome: &Outcome) -> bool
    ensures { result ≡ true → IfSome first.now (λ f. IsSame f outcome.now) }
{
    match first {
        Some(first) => outcome.is_as(first),
        None => true,
    }
}

/// A row without its first numbers.
#[inline]
fn without(row: &[u32], numbers: usize) -> &[u32]
    ensures { result.now ≡ drop numbers row.now }
{
    match row.split_at_checked(numbers) {
        Some((_, rest)) => rest,
        None => &[],
    }
}

/// The numbers of a row that are the board's: one of a search within a number of switches begins with two others, one of a search within a
/// number of power-ons with one.
#[inline]
pub(crate) fn board_part(row: &[u32], bound: Bound) -> &[u32]
    ensures { result.now ≡ board_part bound row.now }
{
    match bound {
        Bound::Unbounded => row,
        Bound::Preemptions(_) => without(row, 2),
        Bound::PowerOns(_) => without(row, 1),
    }
}

/// What the board of a row shows that is at an end.
pub(crate) fn shown_at(
    space: &mut BoardSpace,
    bound: Bound,
    row: &[u32],
    from: usize,
    to: usize,
) -> Result<Option<Outcome>, Refused>
    requires known { (b : AnyBoard) × StandsBy bound (StandsAll space.old.leaves space.old.rows) row.now b }
    requires order { from ≤ to }
    requires within { to ≤ ram_bytes_of space.old.shape }
    ensures shows { IfOk result (λ found. IfSome found (λ outcome. (b : AnyBoard)
        → StandsBy bound (StandsAll space.old.leaves space.old.rows) row.now b → Shows from to outcome b)) }
    ensures rows { space.new.rows ≡ space.old.rows }
    ensures setting { setting_of space.new ≡ setting_of space.old }
{
    space.shown(board_part(row, bound), from, to)
}

/// What all ends among the rows of a search show, where there is one and they show the same.
pub(crate) fn shown_by_all(
    space: &mut BoardSpace,
    bound: Bound,
    graph: &Graph,
    from: usize,
    to: usize,
) -> Result<Option<Outcome>, Refused>
    requires searched { IsSearchOf space.old bound graph.now }
    requires order { from ≤ to }
    requires within { to ≤ ram_bytes_of space.old.shape }
    ensures all { IfOk result (λ found. IfSome found (λ outcome. AllShow from to
        (StandsBy bound (StandsAll space.old.leaves space.old.rows)) graph.now (expanded_of graph.now) (Some outcome))) }
    ensures rows { space.new.rows ≡ space.old.rows }
    ensures setting { setting_of space.new ≡ setting_of space.old }
{
    let mut all: Option<Outcome> = None;
    for row in 0..graph.expanded() {
        if graph.is_end(row) {
            let Some(outcome) = shown_at(space, bound, graph.row(row), from, to)? else {
                return Ok(None);
            };
            if !agrees(&all, &outcome) {
                return Ok(None);
            }
            all = Some(outcome);
        }
    }
    Ok(all)
}
