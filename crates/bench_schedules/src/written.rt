//! The lines that the bench writes.

ghost use Rattle.std.specs.Prelude.{◌++◌, ◌∷◌, [], ℕ, List, OnOk, codes};
ghost use Rattle.std.specs.Fmt.{decimal};
ghost use Rattle.std.specs.Io.KnownBytes.{Appends};
ghost use Rattle.bench_schedules.specs.Schedules.{count_text, tight_text};
ghost use Rattle.bench_schedules.specs.Told.{IsFirstApart, told_lines, told_text};

use crate::runs::Difference;
use crate::told::{ToldApart, first_apart};
use crew::{Part, PartText};
use std::alloc::{AllocError, Global};
use std::io::{self, Write};

/// Writes the line of a stretch that names few turns.
pub fn write_tight<W: Write>(out: &mut W, number: u64) -> io::Result<()>
    ensures ok { OnOk result (Appends (W.contents out.old) (W.contents out.new) (tight_text (number ∷ []))) }
{
    writeln!(out, "line {number} tight")
}

/// Writes the line of schedule k: the number of the script's line, what the schedule's run told there, and what the script's
/// own run did.
fn write_apart<W: Write>(out: &mut W, k: u64, number: u64, apart: &ToldApart) -> io::Result<()>
    ensures ok { OnOk result (Appends (W.contents out.old) (W.contents out.new)
        (codes "schedule " ++ decimal k ++ codes " line " ++ decimal number ++ codes " " ++ told_text apart.now.other
        ++ codes " own " ++ told_text apart.now.own ++ 10 ∷ [])) }
{
    let ToldApart { own, other } = *apart;
    writeln!(out, "schedule {k} line {number} {other} own {own}")
}

/// Writes the line of schedule k, whose run differs at the script's line of that number.
///
/// Refused also where two answers that are not the same differ in nothing that is told. No run has such answers: only
/// the bytes after those of a `mem` are told nowhere, and they are zeros. No clause says so.
pub fn write_difference<W: Write>(
    alloc: Global,
    out: &mut W,
    k: u64,
    number: u64,
    differs: &Difference,
) -> io::Result<()>
    ensures ok { OnOk result ((own said : List ℕ) × IsFirstApart (told_lines differs.now.own) (told_lines differs.now.answer) own said
        × Appends (W.contents out.old) (W.contents out.new)
        (codes "schedule " ++ decimal k ++ codes " line " ++ decimal number ++ codes " " ++ said ++ codes " own " ++ own ++ 10 ∷ [])) }
{
    match first_apart(alloc, &differs.own, &differs.answer)? {
        Some(apart) => write_apart(out, k, number, &apart),
        None => Err(AllocError.into()),
    }
}

/// Writes the last line of the bench, or of a part of it.
pub fn write_count<W: Write>(
    out: &mut W,
    part: Option<Part>,
    runs: u64,
    differ: u64,
) -> io::Result<()>
    ensures ok { OnOk result (Appends (W.contents out.old) (W.contents out.new) (count_text part runs differ)) }
{
    let begin = PartText(part);
    writeln!(out, "{begin}schedules {runs} differ {differ}")
}
