//! The line of standard error that says how far a run is.

ghost use Rattle.std.specs.Prelude.{◌≡◌, ◌+◌, ◌-◌, ◌<◌, ◌≤◌, ◌^◌, true, false, OnOk};
ghost use Rattle.std.specs.Io.KnownBytes.{Appends};
ghost use Rattle.bench_program.specs.Progress.{erased, seconds_left, standing_line};

use crate::standing::{RunProgress, seconds_left};
use std::io::{self, Write};

/// How many milliseconds a run takes before its line stands for the first time.
const FIRST_AFTER: u64 = 500;

/// How many milliseconds a line stands at least as it is.
const RENEWED_AFTER: u64 = 100;

/// The line of a run, at the end of a terminal. It is written with the cursor back at its begin, so that what another program writes there
/// stands over it.
#[derive(Drop)]
pub struct RunLine<'a, F> {
    to: &'a mut F,
    /// It is written to a terminal. Else it never stands.
    shows: bool,
    /// It stands.
    stands: bool,
    /// What the rows of the run are.
    noun: &'static str,
    /// How many rows the run has, and how many of them were made.
    rows: u64,
    done: u64,
    /// When they were begun, and when the line may be renewed, in milliseconds of a clock.
    begun: u64,
    due: u64,
    ghost hides: { shows ≡ false → stands ≡ false },
}

impl<'a, F: Write> RunLine<'a, F> {
    /// The line of a run of rows with that noun, written to `to` where that is a terminal. It does not stand yet.
    pub fn new(to: &'a mut F, shows: bool, noun: &'static str) -> RunLine<'a, F>
        ensures shows { result.shows ≡ shows }
        ensures new { (result.stands ≡ false) × (result.noun ≡ noun.entry) × (result.done ≡ 0) }
    {
        RunLine {
            to,
            shows,
            stands: false,
            noun,
            rows: 0,
            done: 0,
            begun: 0,
            due: FIRST_AFTER,
        }
    }

    /// Takes the line away, where it stands. Where that can't be written, it counts as gone.
    pub fn clear(&mut self) -> io::Result<()>
        ensures gone { self.new.stands ≡ false }
        ensures erased { OnOk result (self.old.stands ≡ true → Appends (F.contents self.old.to.now) (F.contents self.new.to.now) erased) }
        // Where none stands, nothing is written.
        ensures quiet { self.old.stands ≡ false → F.contents self.new.to.now ≡ F.contents self.old.to.now }
        ensures same { (self.new.shows ≡ self.old.shows) × (self.new.to.ghost_name ≡ self.old.to.ghost_name) }
        ensures counts { (self.new.done ≡ self.old.done) × (self.new.rows ≡ self.old.rows) }
    {
        if self.stands {
            let gone = write!(self.to, "\r\x1b[K");
            self.stands = false;
            return gone;
        }
        Ok(())
    }

    /// Writes how far the run is, in the place of the line that stands.
    fn renew(&mut self, now: u64) -> io::Result<()>
        requires { self.old.shows ≡ true }
        ensures wrote { OnOk result (Appends (F.contents self.old.to.now) (F.contents self.new.to.now)
            (standing_line self.old.noun self.old.done self.old.rows (seconds_left (now - self.old.begun) self.old.done self.old.rows))) }
        ensures stands { self.new.stands ≡ true }
        ensures same { (self.new.shows ≡ self.old.shows) × (self.new.to.ghost_name ≡ self.old.to.ghost_name) }
        ensures counts { (self.new.done ≡ self.old.done) × (self.new.rows ≡ self.old.rows) }
    {
        let took = now.saturating_sub(self.begun);
        let standing = RunProgress {
            noun: self.noun,
            done: self.done,
            rows: self.rows,
            left: seconds_left(took, self.done, self.rows),
        };
        let told = write!(self.to, "\r{standing}\x1b[K\r");
        self.stands = true;
        self.due = now.saturating_add(RENEWED_AFTER);
        told
    }

    /// Whether a row was made since rows were begun.
    pub fn went_on(&self) -> bool {
        0 < self.done
    }

    /// So many rows are begun now; 0 where they are not counted yet.
    pub fn begin(&mut self, now: u64, rows: u64)
        ensures gone { self.new.stands ≡ false }
        ensures quiet { self.old.stands ≡ false → F.contents self.new.to.now ≡ F.contents self.old.to.now }
        ensures begun { (self.new.rows ≡ rows) × (self.new.done ≡ 0) × (self.new.begun ≡ now) }
    {
        let _gone = self.clear();
        self.rows = rows;
        self.done = 0;
        self.begun = now;
        self.due = now.saturating_add(FIRST_AFTER);
    }

    /// So many more rows were made. The line is renewed where it is time, and taken away after the last row.
    pub fn went(&mut self, now: u64, rows: u64)
        // Where it is written to no terminal, nothing is written.
        ensures hidden { self.old.shows ≡ false → F.contents self.new.to.now ≡ F.contents self.old.to.now }
        // Nor is it before it is time, where no line stands.
        ensures rare { now < self.old.due → self.old.stands ≡ false → F.contents self.new.to.now ≡ F.contents self.old.to.now }
        // None stands after the last row.
        ensures last { 0 < self.old.rows → self.old.rows ≤ self.old.done + rows → self.new.stands ≡ false }
        ensures count { self.old.done + rows < 2 ^ 64 → self.new.done ≡ self.old.done + rows }
    {
        self.done = self.done.saturating_add(rows);
        if 0 < self.rows && self.rows <= self.done {
            let _gone = self.clear();
        } else if self.shows && self.due <= now {
            let _told = self.renew(now);
        }
    }
}
