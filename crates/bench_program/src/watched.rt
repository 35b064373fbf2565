//! Who is told how far a long run is: the line of standard error, where that is a terminal.

ghost use Rattle.std.specs.Prelude.{◌≡◌, false};

use crate::run_line::RunLine;
use crate::usage::Work;
use crew::Progress;
use std::cell::RefCell;
use std::io::{IsTerminal, Write};
use std::time::Clock;

/// Where the program tells what is no part of what it writes: a fault, and at a terminal how far a long run is.
#[derive(Drop)]
pub struct Telling<'a, F, C> {
    /// Standard error.
    pub faults: &'a mut F,
    /// The clock by which a run is timed.
    pub clock: &'a C,
    /// What the program writes goes to a terminal too. So the line of a run is taken away before each line of that.
    pub is_shared: bool,
    /// The fault was told already: it is false where the program begins.
    pub is_told: bool,
}

/// A run that is watched: its line is renewed as it goes on. What is told of it goes to standard error alone. Where `is_shared`, what the run
/// writes goes to a terminal too, and no line stands while it does.
#[derive(Drop)]
pub struct Watched<'a, F, C> {
    line: RefCell<RunLine<'a, F>>,
    clock: &'a C,
    is_shared: bool,
}

/// What the rows of that work are.
fn noun_of(work: Work) -> &'static str {
    match work {
        Work::Compare(_) => "orders",
        _ => "points",
    }
}

impl<'a, F: Write + IsTerminal, C: Clock> Watched<'a, F, C> {
    /// A run of that work, whose line goes to `to`, where that is a terminal.
    pub fn new(to: &'a mut F, clock: &'a C, is_shared: bool, work: Work) -> Watched<'a, F, C> {
        let shows = to.is_terminal();
        let line = RunLine::new(to, shows, noun_of(work));
        Watched {
            line: RefCell::new(line),
            clock,
            is_shared,
        }
    }

    /// The run is at its end: its line, which does not stand any more.
    pub fn end(self) -> RunLine<'a, F>
        ensures { result.stands ≡ false }
    {
        let mut last = self.line.into_inner();
        let _gone = last.clear();
        last
    }
}

/// The time of a clock in milliseconds; 0 where it can't be read.
fn milliseconds<C: Clock>(clock: &C) -> u64 {
    match clock.monotonic() {
        Ok(time) => u64::try_from(time.as_millis()).unwrap_or(0),
        Err(_) => 0,
    }
}

impl<'b, 'a, F: Write, C: Clock> Progress for &'b Watched<'a, F, C> {
    fn begin(&self, rows: u64) {
        if let Ok(mut line) = self.line.try_borrow_mut() {
            line.begin(milliseconds(self.clock), rows);
        }
    }

    fn went(&self, rows: u64) {
        if let Ok(mut line) = self.line.try_borrow_mut() {
            line.went(milliseconds(self.clock), rows);
        }
    }

    fn pause(&self) {
        if self.is_shared {
            if let Ok(mut line) = self.line.try_borrow_mut() {
                let _gone = line.clear();
            }
        }
    }
}

/// A run that is told how far it is, and of which nothing is written before its end: what it makes is kept in memory.
#[derive(Clone, Copy, Drop)]
pub struct Unpaused<P>(pub P);

impl<P: Progress> Progress for Unpaused<P> {
    fn begin(&self, rows: u64) {
        self.0.begin(rows);
    }

    fn went(&self, rows: u64) {
        self.0.went(rows);
    }

    fn pause(&self) {}
}
