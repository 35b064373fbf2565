//! The command line, and what `--help` says.

ghost use Rattle.std.specs.Prelude.{◌≡◌, ◌⊎◌, ◌<◌, false, Some, None, map, codes, IfOk, IfErr};
ghost use Rattle.clap.specs.Words.{app_of, found_of, kind_of, rule_of};
ghost use Rattle.clap.specs.declared.builder.value_parser.ValueParser.{ValueParser};
ghost use Rattle.command_line.specs.Kinds.{no_work};
ghost use Rattle.command_line.specs.Parses.{AreParsed};
ghost use Rattle.bench_program.specs.Usage.{count_rule, crew_rule, jobs_rule, sbibench, script_rule, Flags, IsBounded, with_benches, with_manners, with_schedules, with_script, with_shown, work_asked, AreApart, AreOptions, IsFlag, IsNamedBy, NamesConflict, NamesNoWork};

use crate::asked::{jobs_asked, tap_asked, work_asked};
use crate::conflicts::conflict;
use bench_schedules::SchedulePlan;
use bench_sweep::{SweepPlan, WantedRow};
use board_model::refusal_lines;
use clap::builder::ValueParser;
use clap::error::ErrorKind;
use clap::{Arg, ArgAction, ArgMatches, Command, Error};
use command_line::{
    flag, option, parse, path_given, payload_paths, program, release, with_payloads, with_two,
};
use script_lang::number;
use std::alloc::{AllocError, Global};
use std::convert::AsStr;

/// How the program is called.
pub const USAGE: &str = "sbibench [--sweep | --faults | --schedules N] [OPTIONS] [SCRIPT]";

const ABOUT: &str = "\
Runs a script of programs, commands and power cuts on a modelled RISC-V board.

The script is the file SCRIPT, or comes on standard input where none is named,
and its report goes to standard output.
With --sweep or --faults a bench runs in place of the report: the script again
and again, with a power cut or a failure at each call of the disk, and after
each run a power-on that must find what the disk was told to keep. With --show R
the run of line R is written as a script.

With --schedules the script runs N times more, each time with the turns of its
harts in another order, and the first line that each run reports otherwise is
told. --show writes the script of one of those orders, to be run again, and
--shrink that of a shorter one that differs in the same line. The program
sbicheck tries every order of a kernel, with every power cut.

With --part K/N a bench makes part K of N of its runs alone, so that N machines
make all of them; their counts add up. With --quiet the lines of runs are left
out that find what they must. With --tap the end of a bench is written in the
Test Anything Protocol.

A payload too long for a line of the script comes from a file, by --p0 to --p3:
its slot boots it until a line 'payload' says otherwise.";

/// The statuses, the refusals with their common words, and a first script.
macro_rules! numbers {
    ([$($line:literal)*]) => {
        concat!(
            "\
Status:
  0  the script ran and its report was written; what was refused stands in the
     report
  1  the script did not run, or its report was not written: standard error has
     'sbibench: refusal N', for a malformed script 'sbibench: refusal 14 line K',
     for failed input 'sbibench: input', for a file that could not be read
     'sbibench: file', and nothing where no one reads the report
  2  a fault of the command line
  3  a bench found something wrong, or a schedule another report: its last line
     counts how often

Refusals, on standard error and in reports:
",
            $($line,)*
            "
A first script:
  board 1 1 1
  format
  on fresh
  slot 1
  cut 00
  on fresh

docs/SCRIPT.md of the source has the language, docs/REFUSALS.md the refusals,
and crates/examples/data more scripts, each with its report.",
        )
    };
    ([$($line:literal)*] [$name:ident $next:literal] $($rest:tt)*) => {
        numbers!([$($line)* $next] $($rest)*)
    };
}

const NUMBERS: &str = refusal_lines!(numbers);

/// The script's file.
const SCRIPT: &str = "SCRIPT";

/// The option that chooses the crew.
pub(crate) const CREW: &str = "crew";

/// The word for lanes that are written each by a thread of its own.
pub(crate) const THREADS: &str = "threads";

/// The word for lanes that are written one after another.
const TURNS: &str = "turns";

/// The flag that chooses the bench of power cuts.
pub(crate) const SWEEP: &str = "sweep";

/// The flag that chooses the bench of failures.
pub(crate) const FAULTS: &str = "faults";

/// The option that says how many schedules are run.
pub(crate) const SCHEDULES: &str = "schedules";

/// The option with the seed from which they are drawn.
pub(crate) const SEED: &str = "seed";

/// The option that shows one of them.
pub(crate) const SHOW: &str = "show";

/// The option that shrinks one of them.
pub(crate) const SHRINK: &str = "shrink";

/// The option that says how many threads make the runs of a bench.
pub(crate) const JOBS: &str = "jobs";

/// The option with the part of the runs that are made.
pub(crate) const PART: &str = "part";

/// The flag by which only runs that are wrong are written.
pub(crate) const QUIET: &str = "quiet";

/// The flag by which tests are written.
pub(crate) const TAP: &str = "tap";

/// The most threads that make the runs of a bench.
pub const MOST_JOBS: u64 = 64;

/// The most schedules of one run of the bench.
pub(crate) const MOST_SCHEDULES: u64 = 1_000_000;

/// What the command line asks for.
#[derive(Clone, Copy, Drop)]
pub enum Work {
    /// The report of the script.
    Report(Savers),
    /// A bench over the script, whose lanes are written one after another.
    Judge(SweepPlan),
    /// One run of a bench, written as a script that ends with a power-on.
    ShowRow(WantedRow),
    /// Schedules of the script, from number 1 on, each compared with the script's own run.
    Compare(SchedulePlan),
    /// One schedule, written as a script. `number` is which.
    Show(DrawnSchedule),
    /// A shorter one that differs where that one does, written as a script.
    Shrink(DrawnSchedule),
}

/// Schedules are drawn from a seed, and have numbers from 1 on.
#[derive(Clone, Copy, Drop)]
pub struct DrawnSchedule {
    pub seed: u64,
    pub number: u64,
}

/// What the words of a command line ask for.
#[derive(Drop)]
pub struct BenchOptions {
    pub work: Work,
    /// Whether tests are written in the place of a bench's lines.
    pub tap: bool,
    /// How many threads make the runs of a bench, where it is said.
    pub jobs: Option<usize>,
    /// The script's file. Where none is named, the script is the input.
    pub script: Option<String>,
    /// The file of each boot slot's payload, where one is named. The others are empty.
    pub payloads: [Option<String>; 4],
}

/// Who writes the lanes of an image. No clause compares the reports of two crews: docs/SCRIPT.md, "The program", says where they are one.
#[derive(Clone, Copy, Drop)]
pub enum Savers {
    /// One thread, one lane after another in rising order.
    Turns,
    /// For each lane a thread of its own.
    Threads,
}

/// The word that names the script's file.
fn script<'a>(alloc: Global) -> Arg<'a>
    ensures rule { rule_of result ≡ script_rule }
    ensures local { result.global ≡ false }
{
    Arg::new(alloc, SCRIPT)
        .value_parser(ValueParser::NonEmptyString)
        .action(ArgAction::Set)
        .help("The script's file; where none is named, the script is standard input")
}

/// The option that chooses the crew.
fn crew<'a>(alloc: Global) -> Arg<'a>
    ensures rule { (crews : ValueParser) × (rule_of result ≡ crew_rule crews) }
    ensures local { result.global ≡ false }
{
    Arg::new(alloc, CREW)
        .long(CREW)
        .value_name("CREW")
        .value_parser([TURNS, THREADS].as_slice())
        .default_value(TURNS)
        .action(ArgAction::Set)
        .help("Who writes the lanes of an image: one after another, or a thread each")
}

/// An option with a number from 1 on that schedules have.
fn count<'a>(alloc: Global, id: &'a str, value: &'a str, help: &'a str) -> Arg<'a>
    ensures rule { rule_of result ≡ count_rule id.entry.now }
    ensures local { result.global ≡ false }
{
    option(alloc, id, value, help).value_parser(ValueParser::unsigned(1, MOST_SCHEDULES))
}

/// The option with the number of threads.
fn jobs<'a>(alloc: Global) -> Arg<'a>
    ensures rule { rule_of result ≡ jobs_rule }
    ensures local { result.global ≡ false }
{
    let help =
        "How many threads make the runs of a bench, as many as there are processors if not said";
    option(alloc, JOBS, "N", help).value_parser(ValueParser::unsigned(1, MOST_JOBS))
}

/// The command with the script's file and the option of the crew.
fn with_script<'a>(alloc: Global, command: Command<'a>) -> Result<Command<'a>, AllocError>
    ensures { IfOk result (λ c. (crews : ValueParser) × (app_of c ≡ with_script crews (app_of command.entry))) }
{
    with_two(command, script(alloc), crew(alloc))
}

/// The command with the flags of the two benches, and the number of their threads.
fn with_benches<'a>(alloc: Global, command: Command<'a>) -> Result<Command<'a>, AllocError>
    ensures { IfOk result (λ c. app_of c ≡ with_benches (app_of command.entry)) }
{
    let sweep = "Cuts power at each call of the disk, and judges what is found";
    let sweep = flag(alloc, SWEEP, sweep);
    let faults = "Fails each call of the disk in turn, and judges what is found";
    let faults = flag(alloc, FAULTS, faults);
    let Ok(command) = with_two(command, sweep, faults) else {
        return Err(AllocError);
    };
    command.arg(jobs(alloc))
}

/// The command with the options from which schedules are drawn.
fn with_schedules<'a>(alloc: Global, command: Command<'a>) -> Result<Command<'a>, AllocError>
    ensures { IfOk result (λ c. app_of c ≡ with_schedules (app_of command.entry)) }
{
    let schedules = "Runs N schedules of the script, and tells which report otherwise";
    let schedules = count(alloc, SCHEDULES, "N", schedules);
    let seed = option(
        alloc,
        SEED,
        "S",
        "What the schedules are drawn from, 1 if not said",
    );
    with_two(command, schedules, seed)
}

/// The command with the options that write one of the runs as a script.
fn with_shown<'a>(alloc: Global, command: Command<'a>) -> Result<Command<'a>, AllocError>
    ensures { IfOk result (λ c. app_of c ≡ with_shown (app_of command.entry)) }
{
    let show = "Writes schedule K, or run K of --sweep or --faults, as a script";
    let show = count(alloc, SHOW, "K", show);
    let shrink =
        "Writes an order with fewer rows that reports otherwise in the line in which schedule K does";
    let shrink = count(alloc, SHRINK, "K", shrink);
    with_two(command, show, shrink)
}

/// The command with the options that say which runs of a bench are made and written, and how.
fn with_manners<'a>(alloc: Global, command: Command<'a>) -> Result<Command<'a>, AllocError>
    ensures { IfOk result (λ c. app_of c ≡ with_manners (app_of command.entry)) }
{
    let part = "Makes part K of N of the runs of --sweep, --faults or --schedules alone";
    let part = option(alloc, PART, "K/N", part);
    let quiet = "Leaves out the lines of runs of --sweep or --faults that are not wrong";
    let quiet = flag(alloc, QUIET, quiet);
    let Ok(command) = with_two(command, part, quiet) else {
        return Err(AllocError);
    };
    let tap = "Writes the end of a bench in the Test Anything Protocol";
    command.arg(flag(alloc, TAP, tap))
}

fn command<'a>(alloc: Global) -> Result<Command<'a>, AllocError>
    ensures { IfOk result (λ c. (crews : ValueParser) × (app_of c ≡ sbibench crews)) }
{
    let bare = program(alloc, "sbibench", USAGE, ABOUT, NUMBERS);
    let Ok(command) = with_script(alloc, bare) else {
        return Err(AllocError);
    };
    let Ok(command) = with_benches(alloc, command) else {
        return Err(AllocError);
    };
    let Ok(command) = with_schedules(alloc, command) else {
        return Err(AllocError);
    };
    let Ok(command) = with_shown(alloc, command) else {
        return Err(AllocError);
    };
    let Ok(command) = with_manners(alloc, command) else {
        return Err(AllocError);
    };
    with_payloads(alloc, command)
}

/// The words as the command's parser reads them, the program's name first.
fn parsed<'a, S: AsStr>(alloc: Global, words: &'a [S]) -> Result<ArgMatches<'a>, Error>
    ensures parsed { IfOk result (λ m. (crews : ValueParser) × AreParsed (sbibench crews) (map S.text words.entry.now) (found_of m)) }
    // It fails for memory, or since the words name no work. The kind of the error says why.
    ensures refused { IfErr result (λ e. (kind_of e ≡ ErrorKind.OutOfMemory)
        ⊎ NamesNoWork (map S.text words.entry.now) (no_work (kind_of e))) }
{
    parse(command(alloc)?, words)
}

/// The one work that is asked for, where this says whether tests are. Words that name no one work are a fault.
fn one_work<'a>(alloc: Global, matches: &ArgMatches<'a>, tap: bool) -> Result<Work, Error>
    requires { IsFlag (found_of matches.now) (codes "tap") tap }
    ensures named { IfOk result (λ work. (flags : Flags (found_of matches.now))
        × (work_asked (found_of matches.now) flags ≡ Some work) × (flags.tap ≡ tap)) }
    ensures most { IfOk result (λ work. IsBounded work) }
    ensures conflict { IfErr result (λ e. (kind_of e ≡ ErrorKind.OutOfMemory)
        ⊎ ((kind_of e ≡ ErrorKind.ArgumentConflict) × AreApart (found_of matches.now))) }
{
    match work_asked(matches, tap) {
        Some(work) => Ok(work),
        None => {
            let mut again = command(alloc)?;
            Err(again.error(ErrorKind::ArgumentConflict, conflict(matches))?)
        }
    }
}

/// The options of a command line that was parsed. Words that name no one work are a fault.
fn options_in(alloc: Global, matches: &ArgMatches<'_>) -> Result<BenchOptions, Error>
    ensures named { IfOk result (AreOptions (found_of matches.now)) }
    ensures most { IfOk result (λ options. IsBounded options.work) }
    ensures conflict { IfErr result (λ e. (kind_of e ≡ ErrorKind.OutOfMemory)
        ⊎ ((kind_of e ≡ ErrorKind.ArgumentConflict) × AreApart (found_of matches.now))) }
{
    let tap = tap_asked(matches);
    let work = match one_work(alloc, matches, tap) {
        Ok(work) => work,
        Err(error) => return Err(error),
    };
    let jobs = jobs_asked(matches);
    let script = path_given(alloc, matches, SCRIPT)?;
    let payloads = payload_paths(alloc, matches)?;
    Ok(BenchOptions {
        work,
        tap,
        jobs,
        script,
        payloads,
    })
}

/// What the words of a command line ask for, the program's name first. Words that name no one work are a
/// fault. The error is the command line's own text, which is the help or the version too, or says that memory was refused.
pub fn options_of<'a, S: AsStr>(alloc: Global, words: &'a [S]) -> Result<BenchOptions, Error>
    // It is the one work that the words name, as the command line's parser reads them.
    ensures named { IfOk result (λ options. IsNamedBy (map S.text words.now) options) }
    ensures most { IfOk result (λ options. IsBounded options.work) }
    // Else memory was refused, or the words name no one work, or none. The kind of the error says why.
    ensures refused { IfErr result (λ e. (kind_of e ≡ ErrorKind.OutOfMemory)
        ⊎ ((kind_of e ≡ ErrorKind.ArgumentConflict) × NamesConflict (map S.text words.now))
        ⊎ NamesNoWork (map S.text words.now) (no_work (kind_of e))) }
{
    let matches = parsed(alloc, words)?;
    let options = options_in(alloc, &matches);
    release(matches);
    options
}
