//! Where a session begins, by the words of its options.

ghost use Rattle.std.specs.Prelude.{◌≡◌, IfSome};
ghost use Rattle.std.specs.Option.{option_map};
ghost use Rattle.script_lang.specs.Words.{number_of, seed_of};
ghost use Rattle.sbigdb.specs.Limits.{IsBounded, IsUpTo};
ghost use Rattle.sbigdb.specs.Reads.{begin_alone, begin_named, drawn_by, is_true, number_up_to, row_by, row_named, with_row};

use crate::given::{Begin, ScheduleChoice};
use crate::help::MOST_NUMBER;
use script_lang::{number, seed_of};

/// A number that a word spells, from 1 to `most`.
fn number_up_to(most: u64, word: &str) -> Option<u64>
    ensures value { result ≡ number_up_to most (number_of word.now) }
    ensures range { IfSome result (IsUpTo most) }
{
    let Some(number) = number(word.as_bytes()) else {
        return None;
    };
    if number < 1 || most < number {
        return None;
    }
    Some(number)
}

/// Where a schedule parts, by its number and what it is drawn from.
fn drawn(number: &str, seed: Option<&str>) -> Option<Begin>
    ensures value { result ≡ drawn_by (number_up_to 1000000 (number_of number.now)) (seed_of (option_map (λ s. s.now) seed.entry)) }
    ensures bounded { IfSome result IsBounded }
{
    match (number_up_to(MOST_NUMBER, number), seed_of(seed)) {
        (Some(number), Some(seed)) => Some(Begin::Schedule(ScheduleChoice { seed, number })),
        (_, _) => None,
    }
}

/// Where the session begins, by the words of its options. None where a word is out of its range, or where they do not go
/// together.
pub(crate) fn begin_named(schedule: Option<&str>, seed: Option<&str>) -> Option<Begin>
    ensures value { result ≡ begin_named (option_map (λ s. s.now) schedule.entry) (option_map (λ s. s.now) seed.entry) }
    ensures bounded { IfSome result IsBounded }
{
    match (schedule, seed) {
        (Some(number), _) => drawn(number, seed),
        (None, None) => Some(Begin::End),
        (None, Some(_)) => None,
    }
}

/// Whether that is the word `true`, which the parser keeps of an option without a value that was given.
fn is_true(word: Option<&str>) -> bool
    ensures { result ≡ is_true (option_map (λ s. s.now) word.entry) }
{
    match word {
        None => false,
        Some(word) => word.as_bytes() == b"true".as_slice(),
    }
}

/// Where the row of that number strikes, of the one bench that is named.
fn row_by(sweep: bool, faults: bool, number: Option<u64>) -> Option<Begin>
    requires range { IfSome number (IsUpTo 1000000) }
    ensures value { result ≡ row_by sweep faults number }
    ensures bounded { IfSome result IsBounded }
{
    let number = number?;
    match (sweep, faults) {
        (true, false) => Some(Begin::Cut(number)),
        (false, true) => Some(Begin::Failure(number)),
        (_, _) => None,
    }
}

/// Where the row strikes whose number is the word of `--row`, of the one bench that is named.
fn row_named(sweep: bool, faults: bool, row: &str) -> Option<Begin>
    ensures value { result ≡ row_named sweep faults row.now }
    ensures bounded { IfSome result IsBounded }
{
    row_by(sweep, faults, number_up_to(MOST_NUMBER, row))
}

/// Where the session begins by a row, where nothing else says it.
fn begin_alone(other: Option<Begin>, begin: Option<Begin>) -> Option<Begin>
    requires bounded { IfSome begin IsBounded }
    ensures value { result ≡ begin_alone other begin }
    ensures bounded { IfSome result IsBounded }
{
    match other {
        Some(Begin::End) => begin,
        _ => None,
    }
}

/// Where the session begins, by the words that the parser keeps of `--sweep`, `--faults` and `--row`, and by what the other options
/// say. A row goes with one of the benches, and with nothing else.
pub(crate) fn with_row(
    sweep: Option<&str>,
    faults: Option<&str>,
    row: Option<&str>,
    other: Option<Begin>,
) -> Option<Begin>
    requires bounded { IfSome other IsBounded }
    ensures value { result ≡ with_row (is_true (option_map (λ s. s.now) sweep.entry)) (is_true (option_map (λ s. s.now) faults.entry))
        (option_map (λ s. s.now) row.entry) other }
    ensures bounded { IfSome result IsBounded }
{
    let sweep = is_true(sweep);
    let faults = is_true(faults);
    match row {
        Some(row) => begin_alone(other, row_named(sweep, faults, row)),
        None => {
            if sweep || faults {
                return None;
            }
            other
        }
    }
}
