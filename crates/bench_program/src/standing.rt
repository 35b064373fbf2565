//! How far a run is, as a text.

ghost use Rattle.std.specs.Prelude.{◌≡◌, Some};
ghost use Rattle.bench_program.specs.Progress.{grouped, last_digits, left_text, seconds_left, standing_text};

use std::fmt;

/// The last three digits of a number.
#[derive(Clone, Copy, Drop)]
struct LastDigits(u64);

impl fmt::Display for LastDigits {
    ghost output = { λ digits. Some (last_digits digits.0) };

    fn fmt<W: fmt::Write>(&self, f: &mut fmt::Formatter<W>) -> fmt::Result {
        let hundreds = self.0 / 100 % 10;
        let tens = self.0 / 10 % 10;
        let ones = self.0 % 10;
        write!(f, "{hundreds}{tens}{ones}")
    }
}

/// A number with a comma between each three digits, up to 10^12; from there on a longer first group.
#[derive(Clone, Copy, Drop)]
struct Grouped(u64);

impl fmt::Display for Grouped {
    ghost output = { λ number. Some (grouped number.0) };

    fn fmt<W: fmt::Write>(&self, f: &mut fmt::Formatter<W>) -> fmt::Result {
        let n = self.0;
        let ones = LastDigits(n);
        let thousands = LastDigits(n / 1_000);
        let millions = LastDigits(n / 1_000_000);
        if n < 1_000 {
            write!(f, "{n}")
        } else if n < 1_000_000 {
            let first = n / 1_000;
            write!(f, "{first},{ones}")
        } else if n < 1_000_000_000 {
            let first = n / 1_000_000;
            write!(f, "{first},{thousands},{ones}")
        } else {
            let first = n / 1_000_000_000;
            write!(f, "{first},{millions},{thousands},{ones}")
        }
    }
}

/// How many seconds a run still takes, as a text after the number of its rows; nothing where that is not known.
#[derive(Clone, Copy, Drop)]
struct SecondsLeftText(Option<u64>);

impl fmt::Display for SecondsLeftText {
    ghost output = { λ left. Some (left_text left.0) };

    fn fmt<W: fmt::Write>(&self, f: &mut fmt::Formatter<W>) -> fmt::Result {
        match self.0 {
            None => Ok(()),
            Some(left) => {
                let left = Grouped(left);
                write!(f, ", {left} s left")
            }
        }
    }
}

/// How far a run is. As a text it is `points 3,120 of 16,388, 41 s left`.
#[derive(Clone, Copy, Drop)]
pub struct RunProgress {
    /// What the rows of the run are.
    pub noun: &'static str,
    /// How many of them were made.
    pub done: u64,
    /// How many it makes; 0 where they are not counted yet.
    pub rows: u64,
    /// How many seconds it still takes, where that is known.
    pub left: Option<u64>,
}

impl fmt::Display for RunProgress {
    ghost output = { λ standing. Some (standing_text standing) };

    fn fmt<W: fmt::Write>(&self, f: &mut fmt::Formatter<W>) -> fmt::Result {
        let noun = self.noun;
        let done = Grouped(self.done);
        if 0 < self.rows {
            let rows = Grouped(self.rows);
            let left = SecondsLeftText(self.left);
            write!(f, "{noun} {done} of {rows}{left}")
        } else {
            write!(f, "{noun} {done}")
        }
    }
}

/// How many seconds a run still takes that took `took` milliseconds for `done` of its rows: as long for each as for those. None
/// where none was made yet, or where the number is beyond all bounds.
pub fn seconds_left(took: u64, done: u64, rows: u64) -> Option<u64>
    ensures { result ≡ seconds_left took done rows }
{
    if 0 < done {
        match took.checked_mul(rows.saturating_sub(done)) {
            Some(all) => Some(all / done / 1_000),
            None => None,
        }
    } else {
        None
    }
}
