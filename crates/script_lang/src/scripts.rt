//! A whole script.

ghost use Rattle.std.specs.Prelude.{◌≡◌, ◌+◌, ◌≤◌, ◌==◌, map, length, take, All, IfOk, OnOk, Ok, ◌++◌, ℕ};
ghost use Rattle.std.specs.List.{slice_split};
ghost use Rattle.script_lang.specs.Words.{words_of, three_of};
ghost use Rattle.script_lang.specs.Lines.{IsLineInRange};
ghost use Rattle.script_lang.specs.Lines.{line_of};
ghost use Rattle.script_lang.specs.Scripts.{Gives, is_sound, is_passed, whole_lines, size_of_words, board_of, or_fault, ◌>>>◌, said_of, rest_of, from_board, lines_from, script_of};
ghost use Rattle.script_lang.specs.Views.{view};

use crate::line::{Line, line_said};
use crate::words::{number, three};
use board_model::{MAX_LINE_BYTES, MAX_SCRIPT_LINES, Refusal, Shape};
use std::alloc::{AllocError, Global};

/// A script: the shape of its board, and the lines after the board line.
#[derive(Drop)]
pub struct Script {
    pub shape: Shape,
    pub lines: Vec<Line>,
}

/// Whether line number `n` may stand in a script at all.
fn is_sound(n: u64, line: &[u8]) -> bool
    ensures { result ≡ is_sound n line.now }
{
    n <= MAX_SCRIPT_LINES as u64 && line.len() <= MAX_LINE_BYTES
}

/// Whether the line is empty or a comment.
fn is_passed(line: &[u8]) -> bool
    ensures { result ≡ is_passed line.now }
{
    line.is_empty() || line[0] == b'#'
}

/// The parts of a line between its spaces.
fn words(alloc: Global, line: &[u8]) -> Result<Vec<&[u8]>, AllocError>
    ensures { IfOk result (λ v. map (λ w. w.now) v.items ≡ words_of line.now) }
{
    line.split(|b| *b == b' ').collect(alloc)
}

/// The parts of a script between its line feeds, as far as they can tell anything: line 65,537 is a fault,
/// whatever stands after it, and the last part may be the empty one after a last line feed.
fn first_parts(alloc: Global, script: &[u8]) -> Result<Vec<&[u8]>, AllocError>
    ensures { IfOk result (λ v. map (λ w. w.now) v.items ≡ take 65538 (slice_split (λ b. b == 10) script.now)) }
{
    script
        .split(|b| *b == b'\n')
        .take(MAX_SCRIPT_LINES + 2)
        .collect(alloc)
}

/// Drops an empty part at the end: a last line feed opens no further line.
fn drop_empty_end(parts: &mut Vec<&[u8]>)
    ensures { map (λ w. w.now) parts.new.items ≡ whole_lines (map (λ w. w.now) parts.old.items) }
{
    let count = parts.len();
    if 0 < count && parts[count - 1].is_empty() {
        parts.truncate(count - 1);
    }
}

/// The lines of a script, as many as tell what all of them say.
fn first_lines(alloc: Global, script: &[u8]) -> Result<Vec<&[u8]>, AllocError>
    ensures { IfOk result (λ v. map (λ w. w.now) v.items
        ≡ whole_lines (take 65538 (slice_split (λ b. b == 10) script.now))) }
{
    let mut parts = first_parts(alloc, script)?;
    drop_empty_end(&mut parts);
    Ok(parts)
}

/// What line number `n` says on a board of this shape.
fn line_at(alloc: Global, shape: &Shape, n: u64, bytes: &[u8]) -> Result<Line, Refusal>
    ensures value { Gives (λ x. x) result (or_fault n (line_of shape.now (words_of bytes.now))) }
    ensures range { IfOk result (IsLineInRange shape.now) }
{
    let words = words(alloc, bytes)?;
    match line_said(alloc, shape, &words)? {
        Some(line) => Ok(line),
        None => Err(Refusal::BadScript(n)),
    }
}

/// The shape that the three words of the board line name.
fn shape(n: u64, words: &[&[u8]]) -> Result<Shape, Refusal>
    ensures { Gives (λ shape. shape) result (size_of_words n (three_of (map (λ w. w.now) words.now))) }
{
    let Some((h, p, l)) = three(words) else {
        return Err(Refusal::BadScript(n));
    };
    match (number(h), number(p), number(l)) {
        (Some(harts), Some(pages), Some(lanes)) => Shape::new(harts, pages, lanes),
        _ => Err(Refusal::BadScript(n)),
    }
}

/// The shape that the words of the board line name.
fn board_line(n: u64, words: &[&[u8]]) -> Result<Shape, Refusal>
    ensures { Gives (λ shape. shape) result (board_of n (map (λ w. w.now) words.now)) }
{
    match words {
        [] => Err(Refusal::BadScript(n)),
        [first, others @ ..] => {
            if *first == b"board".as_slice() {
                shape(n, others)
            } else {
                Err(Refusal::BadScript(n))
            }
        }
    }
}

/// The shape that the board line names, which is line number `n`.
fn board_at(alloc: Global, n: u64, bytes: &[u8]) -> Result<Shape, Refusal>
    ensures { Gives (λ shape. shape) result (board_of n (words_of bytes.now)) }
{
    let words = words(alloc, bytes)?;
    board_line(n, &words)
}

/// Reads line number `n`, and adds it to those found where it is not passed over.
fn keep(
    alloc: Global,
    shape: &Shape,
    n: u64,
    bytes: &[u8],
    found: &mut Vec<Line>,
) -> Result<(), Refusal>
    ensures value { Gives (λ _. found.new.items) result
        (said_of shape.now n bytes.now >>> λ said. Ok (found.old.items ++ said)) }
    ensures few { length found.new.items ≤ length found.old.items + 1 }
    ensures sound { OnOk result (n ≤ 65536) }
    ensures ranges { All (IsLineInRange shape.now) found.old.items
        → OnOk result (All (IsLineInRange shape.now) found.new.items) }
{
    if !is_sound(n, bytes) {
        return Err(Refusal::BadScript(n));
    }
    if is_passed(bytes) {
        return Ok(());
    }
    let line = line_at(alloc, shape, n, bytes)?;
    found.push(line)?;
    Ok(())
}

/// The lines after the board line, of which the first is line number `start`.
#[tactic(auto, unfolding(crate::specs::Scripts::rest_of))]
fn rest(alloc: Global, shape: &Shape, start: u64, lines: &[&[u8]]) -> Result<Vec<Line>, Refusal>
    requires { start ≤ 65537 }
    ensures value { Gives (λ v. v.items) result (rest_of shape.now start (map (λ w. w.now) lines.now)) }
    ensures few { IfOk result (λ v. length v.items + start ≤ 65537) }
    ensures ranges { IfOk result (λ v. All (IsLineInRange shape.now) v.items) }
{
    let mut found = Vec::new(alloc);
    let mut n = start;
    for bytes in lines {
        keep(alloc, shape, n, bytes, &mut found)?;
        n += 1;
    }
    Ok(found)
}

/// The script whose board line is line number `n`, with the lines after it.
fn after_board(alloc: Global, n: u64, bytes: &[u8], others: &[&[u8]]) -> Result<Script, Refusal>
    requires low { 1 ≤ n }
    requires high { n ≤ 65536 }
    ensures value { Gives view result (from_board n bytes.now (map (λ w. w.now) others.now)) }
    ensures few { IfOk result (λ script. length script.lines.items ≤ 65535) }
    ensures ranges { IfOk result (λ script. All (IsLineInRange script.shape) script.lines.items) }
{
    let shape = board_at(alloc, n, bytes)?;
    let lines = rest(alloc, &shape, n + 1, others)?;
    Ok(Script { shape, lines })
}

/// The script that all its lines say.
#[tactic(auto, unfolding(crate::specs::Scripts::lines_from))]
fn checked(alloc: Global, lines: &[&[u8]]) -> Result<Script, Refusal>
    ensures value { Gives view result (lines_from 1 (map (λ w. w.now) lines.now)) }
    ensures few { IfOk result (λ script. length script.lines.items ≤ 65535) }
    ensures ranges { IfOk result (λ script. All (IsLineInRange script.shape) script.lines.items) }
{
    let mut n = 1;
    for (i, bytes) in lines.iter().enumerate() {
        if !is_sound(n, bytes) {
            return Err(Refusal::BadScript(n));
        }
        if !is_passed(bytes) {
            return after_board(alloc, n, bytes, &lines[i + 1..]);
        }
        n += 1;
    }
    Err(Refusal::BadScript(1))
}

/// The script that the bytes say, by the grammar of docs/SCRIPT.md. Any bytes at all are answered: where they
/// are no script, the refusal is that of the first fault in the order of the lines, `BadShape` for numbers of
/// the board line that are out of range, and else `BadScript` with the number of the line, from 1. `Memory`
/// is answered only where memory was refused.
#[tactic(auto, using(crate::proofs::Enough::first_enough))]
pub fn parse_script(alloc: Global, script: &[u8]) -> Result<Script, Refusal>
    ensures value { Gives view result (script_of script.now) }
    ensures few { IfOk result (λ script. length script.lines.items ≤ 65535) }
    ensures ranges { IfOk result (λ script. All (IsLineInRange script.shape) script.lines.items) }
{
    let lines = first_lines(alloc, script)?;
    checked(alloc, &lines)
}
