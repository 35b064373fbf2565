//! Where a history stands: how many turns and lives it has, and where one of its turns is.

ghost use Rattle.std.specs.Prelude.{◌≡◌, ◌≤◌, ◌<◌, ◌+◌, ◌-◌, ℕ, take, min, IfNone, IfOk, IfErr, IfSome};
ghost use Rattle.debug_session.specs.Ats.{IsPlace};
ghost use Rattle.script_lang.specs.declared.line.Line.TheVariants as lines;
ghost use Rattle.debug_session.specs.Turns.{begins_life, lives_begun, turns_made, turns_of, turns_told};

use board_model::HartId;
use script_lang::Line;

/// How many turns a line makes.
fn turns_of(line: &Line) -> u32
    ensures { result ≡ turns_of line.now }
{
    match line {
        Line::Turn(_, count) => *count,
        _ => 0,
    }
}

/// A sum with more, or the most that there is room for.
fn with_more(sum: u64, more: u32) -> u64
    ensures { result ≡ min (sum + more) 18446744073709551615 }
{
    match sum.checked_add(u64::from(more)) {
        Some(sum) => sum,
        None => u64::MAX,
    }
}

/// How many turns of any harts a history has, at most 2^64 - 1.
pub(crate) fn turns_told(lines: &[Line]) -> u64
    ensures { result ≡ turns_told lines.now }
{
    let mut sum = 0;
    for i in 0..lines.len() {
        sum = with_more(sum, turns_of(&lines[i]));
    }
    sum
}

/// How many turns a history lacks of `turns`, and no more than `most`.
pub(crate) fn turns_left(lines: &[Line], turns: u64, most: u64) -> u64
    ensures { result ≡ min (turns - turns_told lines.now) most }
{
    let made = turns_told(lines);
    if turns <= made {
        0
    } else if turns - made <= most {
        turns - made
    } else {
        most
    }
}

/// Whether a line switches the power on.
fn begins_life(line: &Line) -> bool
    ensures { result ≡ begins_life line.now }
{
    match line {
        Line::On(_) => true,
        _ => false,
    }
}

/// How many lines of a history switch the power on.
pub(crate) fn lives_begun(lines: &[Line]) -> usize
    ensures { result ≡ lives_begun lines.now }
{
    lines.iter().filter(|line| begins_life(line)).count()
}

/// The turn of a line that comes after `left` of its turns, by its hart and how many of the line stand before it; or how
/// many are left after the line.
fn turn_in(line: &Line, left: u64) -> Result<(HartId, u32), u64>
    ensures found { IfOk result (λ p. (n : ℕ) × (line.now ≡ lines.Turn p.0 n) × (p.1 < n) × (p.1 ≡ left)) }
    ensures left { IfErr result (λ rest. rest + turns_of line.now ≡ left) }
{
    match line {
        Line::Turn(by, count) => {
            let made = u64::from(*count);
            if left < made {
                Ok((*by, left as u32))
            } else {
                Err(left - made)
            }
        }
        _ => Err(left),
    }
}

/// The turn that came after `turns` others: its hart, its line, and how many turns of the line stand before it.
pub(crate) fn turn_after(lines: &[Line], turns: u64) -> Option<(HartId, usize, u32)>
    ensures place { IfSome result (λ p. IsPlace p.0 p.1 p.2 lines.now) }
    ensures others { IfSome result (λ p. turns_made (take p.1 lines.now) + p.2 ≡ turns) }
    ensures none { IfNone result (turns_made lines.now ≤ turns) }
{
    let mut left = turns;
    for i in 0..lines.len() {
        match turn_in(&lines[i], left) {
            Ok(found) => {
                return Some((found.0, i, found.1));
            }
            Err(rest) => {
                left = rest;
            }
        }
    }
    None
}
