//! A report: what writes its lines, and counts them.

ghost use Rattle.std.specs.Prelude.{◌<◌, ◌^◌, OnOk};
ghost use Rattle.std.specs.Io.KnownBytes.{Appends};
ghost use Rattle.report_lines.specs.Texts.{answer_text, found_line};
ghost use Rattle.report_lines.specs.Counts.{Adds};

use crate::printed::{Answer, Printed};
use board_model::{Durable, StateText};
use std::io::{self, Write};

/// How many lines a run wrote, and what each power-on found (docs/SCRIPT.md, "The report").
#[derive(Drop)]
pub struct Report {
    /// The lines, those that begin with `found` among them.
    pub lines: u64,
    /// The states of the lines that begin with `found`, in their order.
    pub found: Vec<Durable>,
}

/// Writes the line of what an open found, where one did.
fn write_found<W: Write>(out: &mut W, found: &Option<Durable>) -> io::Result<()>
    ensures ok { OnOk result (Appends (W.contents out.old) (W.contents out.new) (found_line found.now)) }
{
    match *found {
        None => Ok(()),
        Some(durable) => writeln!(out, "found {}", StateText(durable)),
    }
}

/// Writes the lines of an answer.
#[tactic(auto, using(board_model::proofs::Written::appended))]
fn write_answer<W: Write>(out: &mut W, answer: &Answer) -> io::Result<()>
    ensures ok { OnOk result (Appends (W.contents out.old) (W.contents out.new) (answer_text answer.now)) }
{
    write_found(out, &answer.found)?;
    writeln!(out, "{}", answer.line)
}

/// Writes the lines of an answer (docs/SCRIPT.md, "The report"), counts them, and keeps the state that was found, where one was. The report
/// has fewer than 2^40 lines before.
///
/// Where memory was refused, to the writer too, or the writer failed else, any part of the lines may be written, and counted.
pub fn add<W: Write>(out: &mut W, report: &mut Report, answer: &Answer) -> io::Result<()>
    requires { report.old.lines < 2 ^ 40 }
    ensures ok { OnOk result (Adds (W.contents out.old) (W.contents out.new) report.old report.new answer.now) }
{
    write_answer(out, answer)?;
    report.lines += 1;
    if let Some(durable) = answer.found {
        report.lines += 1;
        report.found.push(durable)?;
    }
    Ok(())
}
