//! Why words name no one work: the text of that fault of the command line.

use crate::asked::part_named;
use crate::usage::{FAULTS, PART, QUIET, SCHEDULES, SEED, SHOW, SHRINK, SWEEP, TAP};
use clap::ArgMatches;

/// Which options stand on a command line, of those that say what is to be done.
#[derive(Clone, Copy, Drop)]
struct GivenOptions {
    /// `--sweep` or `--faults`.
    bench: bool,
    schedules: bool,
    seed: bool,
    show: bool,
    shrink: bool,
    quiet: bool,
    tap: bool,
}

impl GivenOptions {
    /// Those of these words.
    fn of(matches: &ArgMatches<'_>) -> GivenOptions {
        let sweep = matches.get_flag(SWEEP);
        let faults = matches.get_flag(FAULTS);
        GivenOptions {
            bench: sweep || faults,
            schedules: matches.get_str(SCHEDULES).is_some(),
            seed: matches.get_str(SEED).is_some(),
            show: matches.get_str(SHOW).is_some(),
            shrink: matches.get_str(SHRINK).is_some(),
            quiet: matches.get_flag(QUIET),
            tap: matches.get_flag(TAP),
        }
    }

    /// Whether runs are counted: then no one of them is shown.
    fn counts(&self) -> bool {
        (self.bench || self.schedules) && !self.show && !self.shrink
    }

    /// The text that says why an option is out of place that says which runs are written, and how.
    fn misplaced(&self) -> Option<&'static str> {
        if self.quiet && !(self.bench && self.counts()) {
            return Some("--quiet goes with --sweep or --faults alone");
        }
        if self.tap && !self.counts() {
            return Some("--tap goes with --sweep, --faults or --schedules alone");
        }
        None
    }

    /// The text that says why they name no one work.
    fn conflict(&self) -> &'static str {
        if self.schedules {
            self.conflict_of_schedules()
        } else if self.shrink {
            "--shrink goes with --schedules"
        } else if self.seed || self.show {
            "--seed goes with --schedules, and --show with that, --sweep or --faults"
        } else {
            "--sweep cannot be used with --faults"
        }
    }

    /// The text that says why they name no one work, where they ask for schedules.
    fn conflict_of_schedules(&self) -> &'static str {
        if self.bench {
            "--schedules cannot be used with --sweep or --faults"
        } else if self.shrink {
            "--shrink takes the number of one of the N schedules, and cannot be used with --show"
        } else {
            "--seed takes a number below 2^64, and --show the number of one of the N schedules"
        }
    }
}

/// The text that says why `--part` is out of place, or its word names no part; `counts` says whether it may stand there.
fn misplaced_part(word: Option<&str>, counts: bool) -> Option<&'static str> {
    let word = word?;
    if !counts {
        return Some("--part goes with --sweep, --faults or --schedules alone");
    }
    if part_named(word).is_none() {
        return Some("--part takes K/N, K from 1 to N, and N up to 4096");
    }
    None
}

/// The text that says why the words name no one work.
pub fn conflict(matches: &ArgMatches<'_>) -> &'static str {
    let given = GivenOptions::of(matches);
    if let Some(text) = misplaced_part(matches.get_str(PART), given.counts()) {
        return text;
    }
    if let Some(text) = given.misplaced() {
        return text;
    }
    given.conflict()
}
