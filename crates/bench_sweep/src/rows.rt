//! The lines of a bench.

ghost use Rattle.std.specs.Prelude.{◌≡◌, ◌++◌, ◌∷◌, [], Some, false, OnOk};
ghost use Rattle.std.specs.Io.KnownBytes.{Appends};
ghost use Rattle.bench_sweep.specs.Rows.{call_text, caller_text, fill_part, left_text, row_text, sweep_text};
ghost use Rattle.bench_sweep.specs.Swept.{rows_text};

use crate::judges::Sweep;
use crate::points::Caller;
use board_model::StateText;
use crew::{Part, PartText};
use report_lines::Answer;
use simdisk::Fill;
use std::fmt;
use std::io::{self, Write};

/// One run of a bench.
#[derive(Clone, Copy, Drop)]
pub struct Row {
    /// The caller at whose call power was cut, or whose call failed.
    pub caller: Caller,
    /// The number of the call from the first `format ok` on, from 1.
    pub number: u64,
    /// What the cut left of what was written since the last sync.
    pub fill: Option<Fill>,
    /// What the power-on after it said.
    pub left: Answer,
}

impl fmt::Display for Caller {
    ghost output = { λ caller. Some (caller_text caller) };

    fn fmt<W: fmt::Write>(&self, f: &mut fmt::Formatter<W>) -> fmt::Result {
        match *self {
            Caller::Disk => f.write_str("disk"),
            Caller::Lane(lane) => write!(f, "lane {lane}"),
        }
    }
}

/// The word of a fill, as a script has it, with a blank before it; or nothing.
#[derive(Drop)]
struct FillPart(Option<Fill>);

impl fmt::Display for FillPart {
    ghost output = { λ part. Some (fill_part part.0) };

    fn fmt<W: fmt::Write>(&self, f: &mut fmt::Formatter<W>) -> fmt::Result {
        match self.0 {
            None => Ok(()),
            Some(Fill::Byte(byte)) => write!(f, " {byte:02x}"),
            Some(Fill::Alternating) => f.write_str(" alt"),
            Some(Fill::Old) => f.write_str(" old"),
            Some(Fill::New) => f.write_str(" new"),
        }
    }
}

/// What a power-on said: the state that its open found, or why it was refused.
#[derive(Drop)]
struct LeftText(Answer);

impl fmt::Display for LeftText {
    ghost output = { λ text. Some (left_text text.0) };

    fn fmt<W: fmt::Write>(&self, f: &mut fmt::Formatter<W>) -> fmt::Result {
        match self.0.found {
            None => {
                let line = self.0.line;
                write!(f, "{line}")
            }
            Some(durable) => {
                let state = StateText(durable);
                write!(f, "found {state}")
            }
        }
    }
}

/// The caller at whose call power was cut, or whose call failed; the call's number; and what the cut left.
#[derive(Clone, Copy, Drop)]
struct CallText {
    caller: Caller,
    number: u64,
    fill: Option<Fill>,
}

impl fmt::Display for CallText {
    ghost output = { λ call. Some (call_text call.caller call.number call.fill) };

    fn fmt<W: fmt::Write>(&self, f: &mut fmt::Formatter<W>) -> fmt::Result {
        let CallText {
            caller,
            number,
            fill,
        } = *self;
        let fill = FillPart(fill);
        write!(f, "{caller} {number}{fill}")
    }
}

impl Row {
    /// Which run it was.
    fn call(&self) -> CallText
        ensures { result ≡ record { caller = self.now.caller; number = self.now.number; fill = self.now.fill } }
    {
        CallText {
            caller: self.caller,
            number: self.number,
            fill: self.fill,
        }
    }
}

impl fmt::Display for Row {
    ghost output = { λ row. Some (row_text row) };

    fn fmt<W: fmt::Write>(&self, f: &mut fmt::Formatter<W>) -> fmt::Result {
        let call = self.call();
        let left = LeftText(self.left);
        write!(f, "{call} {left}")
    }
}

/// Writes the line of a run, and hands it on: whoever reads sees it at once.
#[tactic(auto, using(crate::proofs::Written::handed_on))]
fn write_row<W: Write>(out: &mut W, row: Row) -> io::Result<()>
    ensures ok { OnOk result (Appends (W.contents out.old) (W.contents out.new) (row_text row ++ 10 ∷ [])) }
{
    writeln!(out, "{row}")?;
    out.flush()
}

/// Writes the lines of these runs.
pub fn write_rows<W: Write>(out: &mut W, rows: &[Row]) -> io::Result<()>
    ensures ok { OnOk result (Appends (W.contents out.old) (W.contents out.new) (rows_text false rows.now)) }
{
    for row in rows {
        write_row(out, *row)?;
    }
    Ok(())
}

/// The counts of a bench, or of a part of one that has so many points in all.
#[derive(Drop)]
struct CountsText {
    part: Option<Part>,
    all: u64,
    sweep: Sweep,
}

impl fmt::Display for CountsText {
    ghost output = { λ text. Some (sweep_text text.part text.all text.sweep) };

    fn fmt<W: fmt::Write>(&self, f: &mut fmt::Formatter<W>) -> fmt::Result {
        let Sweep {
            points,
            runs,
            wrong,
        } = self.sweep;
        let all = self.all;
        match self.part {
            None => write!(f, "points {points} runs {runs} wrong {wrong}"),
            Some(part) => {
                let begin = PartText(Some(part));
                write!(
                    f,
                    "{begin}points {points} of {all} runs {runs} wrong {wrong}"
                )
            }
        }
    }
}

/// Writes the last line of a bench, or of a part of it, where the whole has `all` points.
#[tactic(auto, using(crate::proofs::Written::handed_on))]
pub fn write_sweep<W: Write>(
    out: &mut W,
    part: Option<Part>,
    all: u64,
    sweep: Sweep,
) -> io::Result<()>
    ensures ok { OnOk result (Appends (W.contents out.old) (W.contents out.new) (sweep_text part all sweep ++ 10 ∷ [])) }
{
    let counts = CountsText { part, all, sweep };
    writeln!(out, "{counts}")?;
    out.flush()
}
