//! Whole schedules.

ghost use Rattle.std.specs.Prelude.{◌≡◌, ◌+◌, ◌≤◌, ◌<◌, length, IfOk};
ghost use Rattle.bench_schedules.specs.Generators.{generator_of};
ghost use Rattle.bench_schedules.specs.Orders.{IsOrderFor, IsPartAdded, TakesPlaceOf};

use crate::copies::copied_row;
use crate::quotas::{Front, part_of, total};
use crate::rows::{is_row, is_turn, order_of, part_length};
use rand_core::{Rng, SeedableRng};
use rand_xoshiro::Xoshiro256PlusPlus;
use script_lang::Line;
use std::alloc::{AllocError, Global};

/// The lines of the longest script, without its board line.
const MOST_LINES: usize = 65_535;

/// What schedule number k of a seed is drawn from.
pub fn generator(seed: u64, k: u64) -> Xoshiro256PlusPlus
    ensures { result ≡ generator_of seed k }
{
    let mut mixed = Xoshiro256PlusPlus::seed_from_u64(seed);
    let word = mixed.next_u64();
    Xoshiro256PlusPlus::seed_from_u64(word ^ k)
}

/// The turns of all fronts together, or the largest number.
fn all_turns(fronts: &[Front]) -> u64 {
    let mut all = 0u64;
    for front in fronts {
        all = all.saturating_add(total(&front.turns));
    }
    all
}

/// The front of a stretch, by its number among them; one of no turns where it has none.
fn front_at(fronts: &[Front], number: usize) -> Front {
    match fronts.get(number) {
        Some(front) => *front,
        None => Front { turns: [0; 8] },
    }
}

/// How many lines more than its own a stretch may have: its part of those to spare, of which so many are left. None
/// where no stretch begins.
fn more_for(begins: bool, spare: usize, left: usize, front: &Front, all: u64) -> usize
    ensures { result ≤ left }
{
    if begins {
        part_of(spare, front, all).min(left)
    } else {
        0
    }
}

/// Draws an order of a part of a script's lines, in at most so many lines more. A line that is no `turn` stays as it is.
#[tactic(auto, using(crate::proofs::Parts::line_takes_place))]
fn part_order<R: Rng>(
    alloc: Global,
    rng: &mut R,
    part: &[Line],
    front: &Front,
    more: usize,
) -> Result<Vec<Line>, AllocError>
    requires few { length part.now ≤ 65535 }
    requires most { more ≤ 65535 }
    ensures placed { IfOk result (λ new. TakesPlaceOf part.now new.items) }
    ensures few { IfOk result (λ new. length new.items ≤ length part.now + more) }
{
    if is_row(part) {
        order_of(alloc, rng, part, front, more)
    } else {
        copied_row(alloc, part)
    }
}

/// Adds an order of the next part of a script's lines, in at most so many lines more. Answers how many lines that part has.
fn add_next<R: Rng>(
    alloc: Global,
    rng: &mut R,
    rest: &[Line],
    front: &Front,
    more: usize,
    made: &mut Vec<Line>,
) -> Result<usize, AllocError>
    requires some { 0 < length rest.now }
    requires few { length rest.now ≤ 65535 }
    requires most { more ≤ 65535 }
    ensures added { IfOk result (λ n. IsPartAdded rest.now made.old.items made.new.items n) }
    ensures few { IfOk result (λ n. length made.new.items ≤ length made.old.items + n + more) }
{
    let count = part_length(rest);
    let mut new = part_order(alloc, rng, &rest[..count], front, more)?;
    made.append(&mut new)?;
    Ok(count)
}

/// Draws a schedule of a script's lines, each stretch in an order of its own. The fronts are those of its stretches,
/// in order; they say where an order is drawn. Which order is drawn no clause says, nor that a stretch of one hart stays as it is.
///
/// Refused only where memory is.
pub fn schedule<R: Rng>(
    alloc: Global,
    rng: &mut R,
    lines: &[Line],
    fronts: &[Front],
) -> Result<Vec<Line>, AllocError>
    requires { length lines.now ≤ 65535 }
    ensures order { IfOk result (λ new. IsOrderFor lines.now new.items) }
    ensures few { IfOk result (λ new. length new.items ≤ 65535) }
{
    let all = all_turns(fronts);
    let spare = MOST_LINES - lines.len();
    let mut made = Vec::new(alloc);
    let mut left = spare;
    let mut stretch = 0usize;
    let mut rest = lines;
    while !rest.is_empty() {
        let begins = is_turn(&rest[0]);
        let front = front_at(fronts, stretch);
        let more = more_for(begins, spare, left, &front, all);
        let count = add_next(alloc, rng, rest, &front, more, &mut made)?;
        rest = &rest[count..];
        left -= more;
        stretch = stretch.saturating_add(usize::from(begins));
    }
    Ok(made)
}
