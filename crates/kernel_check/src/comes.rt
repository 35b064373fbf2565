//! Whether a failure that a search shows can come: that some events lead to a board that shows it.

ghost use Rattle.std.specs.Prelude.{◌≡◌, IfOk, IfSome, true, false};
ghost use Rattle.board_model.specs.Shapes.{ram_bytes_of};
ghost use Rattle.board_model.specs.declared.durable.Reason.TheVariants.{SystemFailure};
ghost use Rattle.model_board.specs.Events.{GoesOn, IsEnd};
ghost use Rattle.state_space.specs.Orders.{CanEnd, Leads};
ghost use Rattle.board_space.specs.Space.{Happens, start_of};
ghost use Rattle.kernel_check.specs.Failures.{AreOthers, AreSame, CanFail, Differ};
ghost use Rattle.kernel_check.specs.Shown.{AreIn};
ghost use Rattle.kernel_check.specs.Tells.{Comes, EndsBy, EndsWith};
ghost use Rattle.kernel_check.specs.declared.facts.EndShown.{EndShown as AnyEnd};

use crate::expected::is_as_expected;
use crate::facts::{EndKind, EndShown};
use crate::given::FailureKind;
use crate::looks::{Look, bytes_shown};
use crate::standing::{is_any_trapped, is_waited_for_ever};
use crate::walks::Setting;
use board_model::{Reason, Refusal};
use board_space::{Explored, Outcome};
use model_board::{Board, Status};
use std::alloc::{AllocError, Global};

/// Whether two ends show the same.
pub fn shows_same(one: &EndShown, other: &EndShown) -> bool
    ensures same { result ≡ true → AreSame one.now other.now }
    ensures others { result ≡ false → AreOthers one.now other.now }
{
    match (one, other) {
        (EndShown::On(bytes), EndShown::On(others)) => bytes.as_slice() == others.as_slice(),
        (EndShown::Shutdown(reason), EndShown::Shutdown(why)) => *reason == *why,
        _ => false,
    }
}

/// Whether a board was shut down for a failure of the system.
fn is_failed(board: &Board) -> bool
    ensures { result ≡ true → EndsBy SystemFailure board.now.board }
{
    board.status() == Status::Ended && board.rest().reason == Reason::SystemFailure
}

/// Whether some events lead to a board from which no events but failures lead to an end.
fn is_dead(explored: &Explored) -> Result<bool, Refusal>
    ensures { IfOk result (λ dead. dead ≡ true
        → Comes explored.now.asked (λ b. CanEnd (Happens explored.now.asked) GoesOn IsEnd b → ⊥)) }
{
    match explored.first_dead() {
        Ok(dead) => Ok(dead.is_some()),
        Err(_) => Err(Refusal::Memory),
    }
}

/// What the end of a row shows. None where it is none.
#[tactic(auto, using(crate::proofs::Ending::rests_with, crate::proofs::Ending::ends_with))]
fn end_of(
    alloc: Global,
    explored: &mut Explored,
    looks: &[Look],
    row: usize,
) -> Result<Option<EndShown>, Refusal>
    requires { AreIn (ram_bytes_of explored.old.asked.size) looks.now }
    ensures ends { IfOk result (λ found. IfSome found (EndsWith explored.old.asked looks.now)) }
    ensures same { explored.new ≡ explored.old }
{
    match explored.shown(row, 0, explored.ram_bytes()) {
        Ok(None) => Ok(None),
        Ok(Some(Outcome::Rests(memory))) => {
            let bytes = bytes_shown(alloc, looks, memory.as_slice())?;
            Ok(Some(EndShown::On(bytes)))
        }
        Ok(Some(Outcome::Ends(why))) => Ok(Some(EndShown::Shutdown(why))),
        Err(_) => Err(Refusal::Memory),
    }
}

/// Whether an end of a kind comes: the first one that was found shows what the kind does.
#[tactic(auto, using(crate::proofs::Ending::same_end))]
pub fn has_end(
    alloc: Global,
    explored: &mut Explored,
    looks: &[Look],
    kind: &EndKind,
) -> Result<bool, Refusal>
    requires { AreIn (ram_bytes_of explored.old.asked.size) looks.now }
    ensures comes { IfOk result (λ comes. comes ≡ true → EndsWith explored.old.asked looks.now kind.now.shown) }
    ensures same { explored.new ≡ explored.old }
{
    match end_of(alloc, explored, looks, kind.row)? {
        Some(end) => Ok(shows_same(&end, &kind.shown)),
        None => Ok(false),
    }
}

/// Whether some end among those of the kinds shows not the same.
fn has_other(
    alloc: Global,
    explored: &mut Explored,
    looks: &[Look],
    kinds: &[EndKind],
    one: &EndShown,
) -> Result<bool, Refusal>
    requires { AreIn (ram_bytes_of explored.old.asked.size) looks.now }
    ensures other { IfOk result (λ found. found ≡ true
        → (other : AnyEnd) × EndsWith explored.old.asked looks.now other × AreOthers one.now other) }
    ensures same { explored.new ≡ explored.old }
{
    for kind in kinds {
        if let Some(other) = end_of(alloc, explored, looks, kind.row)?
            && !shows_same(one, &other)
        {
            return Ok(true);
        }
    }
    Ok(false)
}

/// Whether the end of a row is not as expected, or shows not the same as another.
fn differs(
    alloc: Global,
    explored: &mut Explored,
    looks: &[Look],
    kinds: &[EndKind],
    row: usize,
) -> Result<bool, Refusal>
    requires { AreIn (ram_bytes_of explored.old.asked.size) looks.now }
    ensures differs { IfOk result (λ found. found ≡ true → Differ explored.old.asked looks.now) }
    ensures same { explored.new ≡ explored.old }
{
    let Some(one) = end_of(alloc, explored, looks, row)? else {
        return Ok(false);
    };
    if !is_as_expected(looks, &one) {
        return Ok(true);
    }
    has_other(alloc, explored, looks, kinds, &one)
}

/// Whether a failure of that kind can come, which the board of a row shows: some events lead to this board.
pub fn comes(
    alloc: Global,
    explored: &mut Explored,
    looks: &[Look],
    kinds: &[EndKind],
    kind: FailureKind,
    row: usize,
    board: &Board,
) -> Result<bool, Refusal>
    requires looks { AreIn (ram_bytes_of explored.old.asked.size) looks.now }
    requires led { Leads (Happens explored.old.asked) (start_of explored.old.asked) board.now.board }
    ensures comes { IfOk result (λ comes. comes ≡ true → CanFail kind explored.old.asked looks.now) }
    ensures same { explored.new ≡ explored.old }
{
    match kind {
        FailureKind::Traps => Ok(is_any_trapped(board)),
        FailureKind::Fails => Ok(is_failed(board)),
        FailureKind::Differs => differs(alloc, explored, looks, kinds, row),
        FailureKind::Stuck => Ok(is_waited_for_ever(board) || is_dead(explored)?),
    }
}
