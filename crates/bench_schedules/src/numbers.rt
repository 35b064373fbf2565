//! The numbers of a script's lines, as an editor counts them.

ghost use Rattle.std.specs.Prelude.{◌≡◌, ◌+◌, ◌≤◌, ◌==◌, length, map, IfOk, slice_index_or};
ghost use Rattle.std.specs.List.{slice_split};
ghost use Rattle.script_lang.specs.Scripts.{is_passed};
ghost use Rattle.bench_schedules.specs.Numbers.{numbers_from, numbers_of, number_of_other, place_of_other};

use crate::line_runs::is_other;
use script_lang::Line;
use std::alloc::{AllocError, Global};

/// Whether a line is no line of the script: it is empty, or a comment, which begins with `#`.
fn is_passed(line: &[u8]) -> bool
    ensures { result ≡ is_passed line.now }
{
    line.is_empty() || line[0] == b'#'
}

/// The lines of a text. After a line feed at its end there is one more, which is empty.
pub fn text_lines(alloc: Global, text: &[u8]) -> Result<Vec<&[u8]>, AllocError>
    ensures { IfOk result (λ v. map (λ w. w.now) v.items ≡ slice_split (λ b. b == 10) text.now) }
{
    text.split(|b| *b == b'\n').collect(alloc)
}

/// The numbers of the lines that are not passed over, where the first of these lines has number 1.
fn numbers_in(alloc: Global, lines: &[&[u8]]) -> Result<Vec<u64>, AllocError>
    ensures { IfOk result (λ v. v.items ≡ numbers_from 1 (map (λ w. w.now) lines.now)) }
{
    let mut found = Vec::new(alloc);
    for (i, bytes) in lines.iter().enumerate() {
        if !is_passed(bytes) {
            found.push(i as u64 + 1)?;
        }
    }
    Ok(found)
}

/// The numbers of the lines of a script that are not passed over, counted from 1: first that of the board line.
pub fn line_numbers(alloc: Global, script: &[u8]) -> Result<Vec<u64>, AllocError>
    ensures { IfOk result (λ v. v.items ≡ numbers_of script.now) }
{
    let lines = text_lines(alloc, script)?;
    numbers_in(alloc, &lines)
}

/// The place of the k-th line that is no `turn`, from 0 on.
#[tactic(auto, using(crate::proofs::Places::place_here, crate::proofs::Places::place_turn, crate::proofs::Places::place_next))]
fn place_of_other(lines: &[Line], k: usize) -> usize
    ensures value { result ≡ place_of_other k lines.now }
    ensures range { result ≤ length lines.now }
{
    let mut left = k;
    for (i, line) in lines.iter().enumerate() {
        if is_other(line) {
            if left == 0 {
                return i;
            }
            left -= 1;
        }
    }
    lines.len()
}

/// The number of a line by its place among a script's lines, 0 where it has none.
pub fn number_at(numbers: &[u64], place: usize) -> u64
    requires { place ≤ 65535 }
    ensures { result ≡ slice_index_or numbers.now (1 + place) 0 }
{
    match numbers.get(place + 1) {
        Some(number) => *number,
        None => 0,
    }
}

/// The number of the k-th line that is no `turn`, from 0 on.
pub fn number_of_other(numbers: &[u64], lines: &[Line], k: usize) -> u64
    requires { length lines.now ≤ 65535 }
    ensures { result ≡ slice_index_or numbers.now (1 + place_of_other k lines.now) 0 }
{
    number_at(numbers, place_of_other(lines, k))
}
