//! What a search tells of every order: by its own theorem, look by look.

ghost use Rattle.std.specs.Prelude.{◌≡◌, ◌≤◌, true, IfOk, slice_range};
ghost use Rattle.board_model.specs.Shapes.{ram_bytes_of};
ghost use Rattle.kernel_check.specs.Shown.{AreIn, looked};
ghost use Rattle.kernel_check.specs.Tells.{EndsBy, EveryOrder, HoldsAs, IsOnWith, Shows};

use crate::comes::has_end;
use crate::expected::{is_as_expected, shows_some};
use crate::facts::{EndKind, EndShown};
use crate::looks::Look;
use board_model::{Reason, Refusal};
use board_space::{Explored, Outcome};
use std::alloc::Global;

/// Whether every order that is asked for shows at its end that these bytes of RAM are so.
fn is_rest(explored: &mut Explored, from: usize, to: usize, bytes: &[u8]) -> Result<bool, Refusal>
    requires order { from ≤ to }
    requires within { to ≤ ram_bytes_of explored.old.asked.size }
    ensures told { IfOk result (λ told. told ≡ true
        → EveryOrder explored.old (IsOnWith (λ memory. slice_range memory from to ≡ bytes.now))) }
    ensures same { explored.new ≡ explored.old }
{
    match explored.outcome(from, to) {
        Ok(Some(Outcome::Rests(shown))) => Ok(shown.as_slice() == bytes),
        Ok(_) => Ok(false),
        Err(_) => Err(Refusal::Memory),
    }
}

/// Whether every order ends with a shutdown for that reason.
fn is_shutdown(explored: &mut Explored, reason: Reason) -> Result<bool, Refusal>
    ensures told { IfOk result (λ told. told ≡ true → EveryOrder explored.old (EndsBy reason)) }
    ensures same { explored.new ≡ explored.old }
{
    match explored.outcome(0, 0) {
        Ok(Some(Outcome::Ends(why))) => Ok(why == reason),
        Ok(_) => Ok(false),
        Err(_) => Err(Refusal::Memory),
    }
}

/// Whether every order shows at its end these bytes, one look after the other.
fn are_rests(explored: &mut Explored, looks: &[Look], bytes: &[u8]) -> Result<bool, Refusal>
    requires { AreIn (ram_bytes_of explored.old.asked.size) looks.now }
    ensures told { IfOk result (λ told. told ≡ true
        → EveryOrder explored.old (IsOnWith (λ memory. looked looks.now memory ≡ bytes.now))) }
    ensures same { explored.new ≡ explored.old }
{
    if !is_rest(explored, 0, 0, &[])? {
        return Ok(false);
    }
    let mut rest = bytes;
    for look in looks {
        let (Some((part, others)), Some(end)) = (
            rest.split_at_checked(look.bytes),
            look.start.checked_add(look.bytes),
        ) else {
            return Ok(false);
        };
        if !is_rest(explored, look.start, end, part)? {
            return Ok(false);
        }
        rest = others;
    }
    Ok(rest.is_empty())
}

/// Whether every order shows that at its end.
fn is_told(explored: &mut Explored, looks: &[Look], shown: &EndShown) -> Result<bool, Refusal>
    requires { AreIn (ram_bytes_of explored.old.asked.size) looks.now }
    ensures told { IfOk result (λ told. told ≡ true → EveryOrder explored.old (Shows looks.now shown.now)) }
    ensures same { explored.new ≡ explored.old }
{
    match shown {
        EndShown::On(bytes) => are_rests(explored, looks, bytes.as_slice()),
        EndShown::Shutdown(reason) => is_shutdown(explored, *reason),
    }
}

/// Whether nothing is wrong, by what the search tells of every order: its ends are all of one kind, which is expected and shows something.
pub fn holds(
    alloc: Global,
    explored: &mut Explored,
    looks: &[Look],
    kinds: &[EndKind],
) -> Result<bool, Refusal>
    requires { AreIn (ram_bytes_of explored.old.asked.size) looks.now }
    ensures holds { IfOk result (λ holds. holds ≡ true → HoldsAs explored.old looks.now kinds.now) }
    ensures same { explored.new ≡ explored.old }
{
    let [kind] = kinds else {
        return Ok(false);
    };
    if !is_as_expected(looks, &kind.shown) || !shows_some(looks, &kind.shown) {
        return Ok(false);
    }
    if !has_end(alloc, explored, looks, kind)? {
        return Ok(false);
    }
    is_told(explored, looks, &kind.shown)
}
