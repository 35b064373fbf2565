//! What is told of two answers: the first line in which they are another.

ghost use Rattle.std.specs.Prelude.{◌≡◌, ◌≢◌, Some, IfOk, MatchOption};
ghost use Rattle.bench_schedules.specs.Told.{IsFirstApart, told_at, told_lines, told_text};

use board_model::{Durable, ImageHead, ImageText, StateText};
use report_lines::{Answer, Printed};
use std::alloc::{AllocError, Global};
use std::fmt;

/// A line of what is told of an answer.
#[derive(Clone, Copy, Drop)]
pub enum ToldLine {
    /// What an open found, as its line `found` of a report tells it.
    Found(Durable),
    /// What an open found of the image and the line `found` leaves out, as `sbidisk` tells it. No line of a report.
    Image(Option<ImageHead>),
    /// The answer of a line of the script, as a report tells it.
    Line(Printed),
}

impl fmt::Display for ToldLine {
    ghost output = { λ t. Some (told_text t) };

    fn fmt<W: fmt::Write>(&self, f: &mut fmt::Formatter<W>) -> fmt::Result {
        match *self {
            ToldLine::Found(durable) => {
                let state = StateText(durable);
                write!(f, "found {state}")
            }
            ToldLine::Image(None) => f.write_str("image none"),
            ToldLine::Image(Some(head)) => {
                let text = ImageText(head);
                write!(f, "{text}")
            }
            ToldLine::Line(line) => write!(f, "{line}"),
        }
    }
}

/// What is told of two answers, at one and the same line of both.
#[derive(Clone, Copy, Drop)]
pub struct ToldApart {
    /// Of the script's own run.
    pub own: ToldLine,
    /// Of another run.
    pub other: ToldLine,
}

/// Two lines that stand at the same place, where their texts are not the same.
fn lines_apart(
    alloc: Global,
    own: ToldLine,
    other: ToldLine,
) -> Result<Option<ToldApart>, AllocError>
    ensures { IfOk result (λ found. MatchOption found (told_text own ≡ told_text other)
        (λ pair. (pair.own ≡ own) × (pair.other ≡ other) × (told_text own ≢ told_text other))) }
{
    let own_text = format!(in alloc; "{own}")?;
    let other_text = format!(in alloc; "{other}")?;
    if own_text == other_text {
        return Ok(None);
    }
    Ok(Some(ToldApart { own, other }))
}

/// The line that is told of an answer at that place: the line `found` and what that leaves out, where the answer found something, and
/// then its own line, which is told at each place after it too.
#[tactic(auto, using(crate::proofs::Aparts::at_last))]
fn told_at(answer: &Answer, place: usize) -> ToldLine
    ensures { result ≡ told_at answer.now place }
{
    match answer.found {
        Some(durable) => match place {
            0 => ToldLine::Found(durable),
            1 => ToldLine::Image(durable.image),
            _ => ToldLine::Line(answer.line),
        },
        None => ToldLine::Line(answer.line),
    }
}

/// The first line in which what is told of two answers is another. None where all of it is alike.
pub fn first_apart(
    alloc: Global,
    own: &Answer,
    other: &Answer,
) -> Result<Option<ToldApart>, AllocError>
    ensures { IfOk result (λ found. MatchOption found (told_lines own.now ≡ told_lines other.now)
        (λ pair. IsFirstApart (told_lines own.now) (told_lines other.now) (told_text pair.own) (told_text pair.other))) }
{
    for place in 0..3 {
        if let Some(pair) = lines_apart(alloc, told_at(own, place), told_at(other, place))? {
            return Ok(Some(pair));
        }
    }
    Ok(None)
}
