//! The verdict as the Test Anything Protocol has it: a test of each kind of failures, and one of the orders that were followed.

use crate::facts::Verdict;
use crate::given::FailureKind;
use crate::judged::Judged;
use crate::texts::failure_word;
use std::io::{self, Write};

/// The kinds of failures, in the order in which they are told.
static KINDS: [FailureKind; 4] = [
    FailureKind::Traps,
    FailureKind::Fails,
    FailureKind::Differs,
    FailureKind::Stuck,
];

/// How the line of a test begins.
fn word_of(is_well: bool) -> &'static str {
    if is_well { "ok" } else { "not ok" }
}

/// Writes the test of a kind of failures. Where the search was given up, a kind that was not found is skipped.
fn write_kind<W: Write>(
    out: &mut W,
    judged: &Judged,
    number: usize,
    kind: FailureKind,
) -> io::Result<()> {
    let is_found = judged.failure(kind).is_some();
    let word = word_of(!is_found);
    let name = failure_word(kind);
    let skip = if !is_found && judged.search.stop.is_some() {
        " # SKIP not every order was followed"
    } else {
        ""
    };
    writeln!(out, "{word} {number} - {name}{skip}")
}

/// Writes the test of each kind of failures, numbered from 1 on.
fn write_kinds<W: Write>(out: &mut W, judged: &Judged) -> io::Result<()> {
    for (place, kind) in KINDS.iter().enumerate() {
        write_kind(out, judged, place.saturating_add(1), *kind)?;
    }
    Ok(())
}

/// Writes the tests.
pub fn write_tap<W: Write>(out: &mut W, judged: &Judged) -> io::Result<()> {
    writeln!(out, "TAP version 13")?;
    write_kinds(out, judged)?;
    let word = word_of(matches!(judged.verdict, Verdict::Holds));
    writeln!(out, "{word} 5 - every order, and something is looked at")?;
    writeln!(out, "1..5")
}
