//! Rows of turns.

ghost use Rattle.std.specs.Prelude.{◌≡◌, ◌+◌, ◌*◌, ◌≤◌, ◌<◌, ℕ, length, take, get_or, All, IfOk, true, false};
ghost use Rattle.script_lang.specs.Lines.{turns_in};
ghost use Rattle.script_lang.specs.declared.line.Line.{Line as Said};
ghost use Rattle.bench_schedules.specs.Orders.{IsTurn, named, left_of, IsRowOf};

use crate::copies::copied_row;
use crate::deal::Deal;
use crate::draws::draw;
use crate::quotas::{Front, harts};
use rand_core::Rng;
use script_lang::Line;
use std::alloc::{AllocError, Global};

/// Whether a line makes turns: 1 to 1,000,000, as each `turn` line of a script does.
pub fn is_turn(line: &Line) -> bool
    ensures turns { result ≡ true → IsTurn line.now }
    ensures others { result ≡ false → IsTurn line.now → ⊥ }
{
    match line {
        Line::Turn(_, count) => 1 <= *count && *count <= 1_000_000,
        _ => false,
    }
}

/// How many first lines make turns. The line after them, where there is one, makes none.
pub fn row_length(lines: &[Line]) -> usize
    ensures few { result ≤ length lines.now }
    ensures turns { All IsTurn (take result lines.now) }
    ensures behind { (line : Said) → result < length lines.now → line ≡ get_or lines.now result line → IsTurn line → ⊥ }
{
    let mut count = 0;
    for line in lines {
        if is_turn(line) {
            count += 1;
        } else {
            return count;
        }
    }
    count
}

/// Counts the turns that a line names.
fn count_turns(turns: &mut [u64; 8], line: &Line)
    requires turn { IsTurn line.now }
    requires few { (h : ℕ) → left_of h turns.old ≤ 1000000 * 65535 }
    ensures counted { (h : ℕ) → left_of h turns.new ≡ left_of h turns.old + turns_in h line.now }
    ensures others { (h : ℕ) → 8 ≤ h → left_of h turns.new ≡ left_of h turns.old }
{
    if let Line::Turn(hart, count) = line {
        let place = hart.index();
        turns[place] += u64::from(*count);
    }
}

/// How many turns of each hart a row names.
#[tactic(auto, using(crate::proofs::Counts::counted_more, crate::proofs::Counts::turn_at))]
pub fn turns_named(row: &[Line]) -> [u64; 8]
    requires few { length row.now ≤ 65535 }
    requires turns { All IsTurn row.now }
    ensures named { (h : ℕ) → left_of h result ≡ named h row.now }
    ensures others { (h : ℕ) → 8 ≤ h → left_of h result ≡ 0 }
{
    let mut turns = [0; 8];
    for line in row {
        count_turns(&mut turns, line);
    }
    turns
}

/// How many lines the first part of a script's lines has: the row of turns that begins them, or the one line that is no `turn`.
pub fn part_length(lines: &[Line]) -> usize
    requires { 0 < length lines.now }
    ensures { (1 ≤ result) × (result ≤ length lines.now) }
{
    row_length(lines).max(1)
}

/// Whether all of the lines make turns.
pub fn is_row(lines: &[Line]) -> bool
    ensures { result ≡ true → All IsTurn lines.now }
{
    row_length(lines) == lines.len()
}

/// Draws an order of a row: the same turns of each hart, in at most so many lines more.
pub fn order_of<R: Rng>(
    alloc: Global,
    rng: &mut R,
    row: &[Line],
    front: &Front,
    more: usize,
) -> Result<Vec<Line>, AllocError>
    requires few { length row.now ≤ 65535 }
    requires most { more ≤ 65535 }
    requires turns { All IsTurn row.now }
    ensures order { IfOk result (λ order. IsRowOf row.now order.items) }
    ensures few { IfOk result (λ order. length order.items ≤ length row.now + more) }
{
    let turns = turns_named(row);
    if harts(&turns) < 2 {
        return copied_row(alloc, row);
    }
    let room = row.len() + more;
    let mut deal = Deal::new(alloc, turns);
    draw(&mut deal, rng, front, row.len(), room)?;
    deal.rest()?;
    if room < deal.lines.len() {
        return copied_row(alloc, row);
    }
    Ok(deal.lines)
}
