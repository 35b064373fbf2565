//! The steps of an order in words.

use crate::facts::{OrderStep, RunEnd, StoreCall};
use crate::texts::{Count, call_word};
use board_model::Reason;
use std::fmt;
use std::io::{self, Write};

/// A step of an order.
#[derive(Drop)]
struct StepText<'a>(&'a OrderStep);

/// How a run of a hart's turns ends.
#[derive(Drop)]
struct RunEndText<'a>(&'a RunEnd);

impl fmt::Display for RunEndText<'_> {
    fn fmt<W: fmt::Write>(&self, f: &mut fmt::Formatter<W>) -> fmt::Result {
        let words = match self.0 {
            RunEnd::At(place) => return write!(f, "to {place}"),
            RunEnd::ShutsDown(Reason::NoReason) => "and shuts down, reason 0",
            RunEnd::ShutsDown(Reason::SystemFailure) => "and shuts down, reason 1",
            RunEnd::Stops => "and stops",
            RunEnd::Suspends => "and suspends itself",
            RunEnd::Sleeps => "and the board sleeps",
            RunEnd::Reboots => "and reboots",
            RunEnd::Traps => "and traps",
        };
        f.write_str(words)
    }
}

/// Writes that what a hart asks of the store is refused.
fn write_refused<W: fmt::Write>(
    f: &mut fmt::Formatter<W>,
    hart: u32,
    call: StoreCall,
    down: bool,
) -> fmt::Result {
    let what = call_word(call);
    let later = if down { ", as all that follow" } else { "" };
    write!(f, "the {what} of hart {hart} is refused{later}")
}

/// Writes how many turns a hart makes in a row, and how they end.
fn write_turns<W: fmt::Write>(
    f: &mut fmt::Formatter<W>,
    hart: u32,
    turns: u64,
    end: &RunEnd,
) -> fmt::Result {
    let turns = Count(turns, "turn");
    let end = RunEndText(end);
    write!(f, "hart {hart} makes {turns}, {end}")
}

impl fmt::Display for StepText<'_> {
    fn fmt<W: fmt::Write>(&self, f: &mut fmt::Formatter<W>) -> fmt::Result {
        let words = match self.0 {
            OrderStep::Turns(hart, turns, end) => return write_turns(f, *hart, *turns, end),
            OrderStep::Refused(hart, call, down) => return write_refused(f, *hart, *call, *down),
            OrderStep::PowerOn(false) => "the kernel boots",
            OrderStep::PowerOn(true) => "the board goes on with its image",
            OrderStep::Wake => "the board is woken",
            OrderStep::Cut => "power fails",
        };
        f.write_str(words)
    }
}

/// Whether what comes after a step stands on a line of its own.
fn ends_line(step: &OrderStep) -> bool {
    match step {
        OrderStep::Turns(_, _, RunEnd::Sleeps) => true,
        OrderStep::Turns(_, _, RunEnd::Reboots) => true,
        OrderStep::Turns(_, _, _) => false,
        OrderStep::Refused(_, _, _) => true,
        OrderStep::Cut => true,
        OrderStep::PowerOn(_) => false,
        OrderStep::Wake => false,
    }
}

/// Writes the steps of an order, those of a life as a line, and what comes after a refusal as another.
pub fn write_order<W: Write>(out: &mut W, order: &[OrderStep]) -> io::Result<()> {
    let mut mark = "  ";
    for step in order {
        let text = StepText(step);
        write!(out, "{mark}{text}")?;
        mark = if ends_line(step) { "\n  " } else { "; " };
    }
    writeln!(out, "")
}
