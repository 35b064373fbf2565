//! The lines of a bench as the Test Anything Protocol has them.

ghost use Rattle.std.specs.Prelude.{◌≡◌, ◌+◌, ◌++◌, ◌≤◌, ◌<◌, ◌^◌, ◌∷◌, [], map, length, codes, IfOk, OnOk};
ghost use Rattle.std.specs.Io.KnownBytes.{Appends};
ghost use Rattle.bench_program.specs.Taps.{counts_text, failed_count, failed_lines, failed_text, has_word, last_behind, last_of_two, shown_text, skip_text, tap_lines, tap_text, tells_apart, well_word};

use bench_schedules::text_lines;
use std::alloc::Global;
use std::io::{self, Write};

/// What stands in a line of a bench before what the script's own run said.
const OWN: &[u8] = b" own ";

/// Whether that word stands in the line.
fn has_word(word: &[u8], line: &[u8]) -> bool
    ensures { result ≡ has_word word.now line.now }
{
    for place in 0..line.len() {
        if line[place..].starts_with(word) {
            return true;
        }
    }
    false
}

/// Whether a line tells of a difference.
fn tells_apart(line: &[u8]) -> bool
    ensures { result ≡ tells_apart line.now }
{
    has_word(OWN, line)
}

/// How the test of the counts ends: it is skipped where no run was made.
fn skip_text(line: &[u8]) -> &'static [u8]
    ensures { result.now ≡ skip_text line.now }
{
    if has_word(b" runs 0 ", line) || has_word(b"schedules 0 ", line) {
        b" # SKIP nothing was tried"
    } else {
        b""
    }
}

/// Writes a line that tells of a difference, as a test that failed.
#[tactic(auto, using(board_model::proofs::Written::appended))]
fn write_failed<W: Write>(out: &mut W, number: u64, line: &[u8]) -> io::Result<()>
    ensures ok { OnOk result (Appends (W.contents out.old) (W.contents out.new) (failed_text number line.now)) }
{
    write!(out, "not ok {number} - ")?;
    out.write_all(line)?;
    writeln!(out)
}

/// Writes a line as a test that failed, where it tells of a difference; `told` were written before it. Answers how many were
/// written then.
fn write_failure<W: Write>(out: &mut W, told: u64, line: &[u8]) -> io::Result<u64>
    requires { told < 2 ^ 63 }
    ensures ok { OnOk result (Appends (W.contents out.old) (W.contents out.new) (failed_lines told (line.now ∷ []))) }
    ensures count { IfOk result (λ n. n ≡ told + failed_count (line.now ∷ [])) }
    ensures few { IfOk result (λ n. n ≤ told + 1) }
{
    if !tells_apart(line) {
        return Ok(told);
    }
    write_failed(out, told + 1, line)?;
    Ok(told + 1)
}

/// Writes each of these lines that tells of a difference, as a test that failed, from number 1 on. Answers how many those are.
fn write_failures<W: Write>(out: &mut W, lines: &[&[u8]]) -> io::Result<u64>
    ensures ok { OnOk result (Appends (W.contents out.old) (W.contents out.new) (failed_lines 0 (map (λ w. w.now) lines.now))) }
    ensures count { IfOk result (λ n. n ≡ failed_count (map (λ w. w.now) lines.now)) }
    ensures few { IfOk result (λ n. n ≤ length lines.now) }
{
    let mut told = 0u64;
    for line in lines {
        told = write_failure(out, told, line)?;
    }
    Ok(told)
}

/// The later of two lines, where it is not empty.
fn last_of_two<'a>(before: &'a [u8], line: &'a [u8]) -> &'a [u8]
    ensures { result.now ≡ last_of_two before.now line.now }
{
    if line.is_empty() { before } else { line }
}

/// The last line that is not empty; an empty one where there is none.
fn last_line<'a>(lines: &[&'a [u8]]) -> &'a [u8]
    ensures { result.now ≡ last_behind [] (map (λ w. w.now) lines.now) }
{
    let mut last: &[u8] = &[];
    for line in lines {
        last = last_of_two(last, line);
    }
    last
}

/// How the last test begins.
fn well_word(well: bool) -> &'static str
    ensures { result.now ≡ well_word well }
{
    if well { "ok" } else { "not ok" }
}

/// Writes the last test, with the line of the counts, and the plan.
#[tactic(auto, using(board_model::proofs::Written::appended))]
fn write_counts<W: Write>(out: &mut W, well: bool, number: u64, line: &[u8]) -> io::Result<()>
    ensures ok { OnOk result (Appends (W.contents out.old) (W.contents out.new) (counts_text well number line.now)) }
{
    let word = well_word(well);
    write!(out, "{word} {number} - ")?;
    out.write_all(line)?;
    out.write_all(skip_text(line))?;
    writeln!(out, "\n1..{number}")
}

/// Writes the first line.
fn write_version<W: Write>(out: &mut W) -> io::Result<()>
    ensures ok { OnOk result (Appends (W.contents out.old) (W.contents out.new) (codes "TAP version 13\n")) }
{
    writeln!(out, "TAP version 13")
}

/// Writes the comment that nothing is shown, where that is so.
fn write_shown<W: Write>(out: &mut W, shown: bool) -> io::Result<()>
    ensures ok { OnOk result (Appends (W.contents out.old) (W.contents out.new) (shown_text shown)) }
{
    let comment = if shown { "" } else { "# nothing is shown\n" };
    write!(out, "{comment}")
}

/// Writes what the Test Anything Protocol has after the tests that failed: the comment, and the last test.
#[tactic(auto, using(board_model::proofs::Written::appended))]
fn write_end<W: Write>(
    out: &mut W,
    well: bool,
    shown: bool,
    number: u64,
    line: &[u8],
) -> io::Result<()>
    ensures ok { OnOk result (Appends (W.contents out.old) (W.contents out.new) (shown_text shown ++ counts_text well number line.now)) }
{
    write_shown(out, shown)?;
    write_counts(out, well, number, line)
}

/// Writes what the Test Anything Protocol has of these lines of a bench.
fn write_lines<W: Write>(out: &mut W, well: bool, shown: bool, lines: &[&[u8]]) -> io::Result<()>
    requires { length lines.now < 2 ^ 63 }
    ensures ok { OnOk result (Appends (W.contents out.old) (W.contents out.new) (tap_lines well shown (map (λ w. w.now) lines.now))) }
{
    write_version(out)?;
    let failed = write_failures(out, lines)?;
    write_end(out, well, shown, failed + 1, last_line(lines))
}

/// Writes what the Test Anything Protocol has of a bench's text: a test for each line that tells of a difference, and the last for
/// the line of the counts, by whether all is well. That one is skipped where the bench made no run. A comment says where none of its
/// runs could show a difference.
///
/// Where it is refused any part may be written.
pub fn write_tap<W: Write>(
    alloc: Global,
    text: &[u8],
    well: bool,
    shown: bool,
    out: &mut W,
) -> io::Result<()>
    ensures ok { OnOk result (Appends (W.contents out.old) (W.contents out.new) (tap_text well shown text.now)) }
{
    let lines = text_lines(alloc, text)?;
    write_lines(out, well, shown, &lines)
}
