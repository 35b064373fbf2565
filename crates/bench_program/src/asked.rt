//! What work the words of a command line ask for.

ghost use Rattle.std.specs.Prelude.{◌≡◌, ◌<◌, ◌==◌, false, length, position, Some, None, codes, IfSome};
ghost use Rattle.std.specs.Option.{option_map};
ghost use Rattle.script_lang.specs.Words.{number_of};
ghost use Rattle.clap.specs.Words.{first_value, found_of};
ghost use Rattle.bench_sweep.specs.Swept.{whole};
ghost use Rattle.bench_program.specs.Usage.{bench_or_row, number_up_to, part_between, part_named, parted, work_of_flags, schedules_named, savers_of, Flags, IsBounded, compare_or_show, quietly, tested, without_benches, with_part, with_quiet, with_tap, work_asked, work_without, IsFlag};

use crate::usage::{
    CREW, DrawnSchedule, FAULTS, JOBS, MOST_JOBS, MOST_SCHEDULES, PART, QUIET, SCHEDULES, SEED,
    SHOW, SHRINK, SWEEP, Savers, TAP, THREADS, Work,
};
use bench_schedules::SchedulePlan;
use bench_sweep::{BenchKind, SweepPlan, WantedRow};
use clap::ArgMatches;
use crew::Part;
use script_lang::{number, seed_of};

/// The crew that was chosen.
fn savers_of(matches: &ArgMatches<'_>) -> Savers
    ensures { result ≡ savers_of (first_value (found_of matches.now) (codes "crew")) }
{
    match matches.get_str(CREW) {
        Some(word) if word == THREADS => Savers::Threads,
        _ => Savers::Turns,
    }
}

/// A number that a word spells, from 1 to `most`.
fn number_up_to(most: u64, word: &str) -> Option<u64>
    ensures { result ≡ number_up_to most (number_of word.now) }
{
    let number = number(word.as_bytes())?;
    if number < 1 || most < number {
        return None;
    }
    Some(number)
}

/// The work over `runs` schedules of that seed: to compare them all, or to show or to shrink the one that a word names. None where
/// the word names none of them, and where there are both words.
fn compare_or_show(runs: u64, seed: u64, show: Option<&str>, shrink: Option<&str>) -> Option<Work>
    ensures { result ≡ compare_or_show runs seed (option_map (λ s. s.now) show.entry) (option_map (λ s. s.now) shrink.entry) }
{
    match (show, shrink) {
        (None, None) => Some(Work::Compare(SchedulePlan {
            seed,
            count: runs,
            part: None,
        })),
        (Some(word), None) => {
            let number = number_up_to(runs, word)?;
            Some(Work::Show(DrawnSchedule { seed, number }))
        }
        (None, Some(word)) => {
            let number = number_up_to(runs, word)?;
            Some(Work::Shrink(DrawnSchedule { seed, number }))
        }
        (Some(_), Some(_)) => None,
    }
}

/// The work over schedules that the words of their options ask for. None where a word is out of its range.
fn schedules_named(
    runs: &str,
    seed: Option<&str>,
    show: Option<&str>,
    shrink: Option<&str>,
) -> Option<Work>
    ensures { result ≡ schedules_named runs.now (option_map (λ s. s.now) seed.entry) (option_map (λ s. s.now) show.entry)
        (option_map (λ s. s.now) shrink.entry) }
{
    let runs = number_up_to(MOST_SCHEDULES, runs)?;
    let seed = seed_of(seed)?;
    compare_or_show(runs, seed, show, shrink)
}

/// The whole of a bench.
fn whole(bench: BenchKind) -> SweepPlan
    ensures { result ≡ whole bench }
{
    SweepPlan {
        bench,
        part: None,
        quiet: false,
    }
}

/// The work without schedules, by the two flags and the crew. None where both flags stand there.
fn work_of_flags(sweep: bool, faults: bool, savers: Savers) -> Option<Work>
    ensures { result ≡ work_of_flags sweep faults savers }
{
    match (sweep, faults) {
        (true, true) => None,
        (true, false) => Some(Work::Judge(whole(BenchKind::Cuts))),
        (false, true) => Some(Work::Judge(whole(BenchKind::Fails))),
        (false, false) => Some(Work::Report(savers)),
    }
}

/// The work of a bench, or the run of the line that a word names, as a script. None where the word names none, and where the work is
/// no bench.
fn bench_or_row(show: Option<&str>, work: Option<Work>) -> Option<Work>
    ensures { result ≡ bench_or_row (option_map (λ s. s.now) show.entry) work }
{
    match show {
        None => work,
        Some(word) => match work {
            Some(Work::Judge(plan)) => {
                let number = number_up_to(MOST_SCHEDULES, word)?;
                let bench = plan.bench;
                Some(Work::ShowRow(WantedRow { bench, number }))
            }
            _ => None,
        },
    }
}

/// The work over schedules, which goes with neither of the two flags. None where one of them stands there too.
fn schedules_alone(
    sweep: bool,
    faults: bool,
    runs: &str,
    seed: Option<&str>,
    show: Option<&str>,
    shrink: Option<&str>,
) -> Option<Work>
    ensures { result ≡ without_benches sweep faults (schedules_named runs.now (option_map (λ s. s.now) seed.entry)
        (option_map (λ s. s.now) show.entry) (option_map (λ s. s.now) shrink.entry)) }
{
    if sweep || faults {
        return None;
    }
    schedules_named(runs, seed, show, shrink)
}

/// The one work that is asked for, whole. None where there are two, or where an option of schedules stands without them.
fn work_without(matches: &ArgMatches<'_>, sweep: bool, faults: bool) -> Option<Work>
    ensures { result ≡ work_without (found_of matches.now) sweep faults }
{
    let seed = matches.get_str(SEED);
    let show = matches.get_str(SHOW);
    let shrink = matches.get_str(SHRINK);
    match matches.get_str(SCHEDULES) {
        Some(runs) => schedules_alone(sweep, faults, runs, seed, show, shrink),
        None => {
            if seed.is_some() || shrink.is_some() {
                return None;
            }
            bench_or_row(show, work_of_flags(sweep, faults, savers_of(matches)))
        }
    }
}

/// The part of these two words. None where one of them is out of its range.
fn part_between(number: Option<u64>, of: Option<u64>) -> Option<Part>
    ensures { result ≡ part_between number of }
{
    match (number, of) {
        (Some(number), Some(of)) => Part::new(number, of),
        _ => None,
    }
}

/// Where the first `/` is.
fn first_slash(bytes: &[u8]) -> Option<usize>
    ensures at { result ≡ position (λ b. b == 47) bytes.now }
    ensures bound { IfSome result (λ at. at < length bytes.now) }
{
    bytes.iter().position(|b| *b == b'/')
}

/// The part that these bytes of a word name: both numbers, with a `/` between them. None where they name none.
fn part_spelled(word: &[u8]) -> Option<Part>
    ensures { result ≡ part_named word.now }
{
    let Some(slash) = first_slash(word) else {
        return None;
    };
    part_between(number(&word[..slash]), number(&word[slash + 1..]))
}

/// The part that a word names. None where it names none.
pub(crate) fn part_named(word: &str) -> Option<Part>
    ensures { result ≡ part_named word.now }
{
    part_spelled(word.as_bytes())
}

/// A part of that work. None where it has none.
fn parted(part: Part, work: Option<Work>) -> Option<Work>
    ensures { result ≡ parted (Some part) work }
{
    let part = Some(part);
    match work {
        Some(Work::Judge(plan)) => Some(Work::Judge(SweepPlan { part, ..plan })),
        Some(Work::Compare(plan)) => Some(Work::Compare(SchedulePlan { part, ..plan })),
        _ => None,
    }
}

/// The part of that work that a word names; without a word, all of it. None where the word names none, or the work has none.
fn with_part(word: Option<&str>, work: Option<Work>) -> Option<Work>
    ensures { result ≡ with_part (option_map (λ s. s.now) word.entry) work }
{
    match word {
        None => work,
        Some(word) => match part_named(word) {
            None => None,
            Some(part) => parted(part, work),
        },
    }
}

/// That work, of which only runs that are wrong are written. None where it is no bench.
fn quietly(work: Option<Work>) -> Option<Work>
    ensures { result ≡ quietly work }
{
    match work {
        Some(Work::Judge(plan)) => Some(Work::Judge(SweepPlan {
            quiet: true,
            ..plan
        })),
        _ => None,
    }
}

/// That work, or with `--quiet` that of which only runs that are wrong are written.
fn with_quiet(quiet: bool, work: Option<Work>) -> Option<Work>
    ensures { result ≡ with_quiet quiet work }
{
    if quiet { quietly(work) } else { work }
}

/// That work, where it counts what is wrong or differs. None where it does not.
fn tested(work: Option<Work>) -> Option<Work>
    ensures { result ≡ tested work }
{
    match work {
        Some(Work::Judge(plan)) => Some(Work::Judge(plan)),
        Some(Work::Compare(plan)) => Some(Work::Compare(plan)),
        _ => None,
    }
}

/// That work, of which with `--tap` tests are written.
fn with_tap(tap: bool, work: Option<Work>) -> Option<Work>
    ensures { result ≡ with_tap tap work }
{
    if tap { tested(work) } else { work }
}

/// The one work that is asked for, where this says whether tests are. None where there are two, or where an option stands without the one
/// that it goes with.
pub(crate) fn work_asked(matches: &ArgMatches<'_>, tap: bool) -> Option<Work>
    requires { IsFlag (found_of matches.now) (codes "tap") tap }
    ensures value { (flags : Flags (found_of matches.now)) × (flags.tap ≡ tap) × (result ≡ work_asked (found_of matches.now) flags) }
    ensures most { IfSome result (λ work. IsBounded work) }
{
    let sweep = matches.get_flag(SWEEP);
    let faults = matches.get_flag(FAULTS);
    let quiet = matches.get_flag(QUIET);
    let work = work_without(matches, sweep, faults);
    let work = with_part(matches.get_str(PART), work);
    with_tap(tap, with_quiet(quiet, work))
}

/// Whether tests are to be written.
pub(crate) fn tap_asked(matches: &ArgMatches<'_>) -> bool
    ensures { IsFlag (found_of matches.now) (codes "tap") result }
{
    matches.get_flag(TAP)
}

/// How many threads are to make the runs of a bench, where the words say it.
pub(crate) fn jobs_asked(matches: &ArgMatches<'_>) -> Option<usize> {
    let word = matches.get_str(JOBS)?;
    let count = number_up_to(MOST_JOBS, word)?;
    Some(count as usize)
}
