//! The command, its options, and what `--help` says.

ghost use Rattle.std.specs.Prelude.{◌≡◌, false, codes, IfOk};
ghost use Rattle.clap.specs.Words.{app_of, rule_of};
ghost use Rattle.clap.specs.declared.builder.value_parser.ValueParser.TheVariants.{Unsigned};
ghost use Rattle.command_line.specs.Options.{number_rule, value_rule, with_rules};
ghost use Rattle.sbigdb.specs.Usage.{sbigdb, script_rule, with_begins, with_rows};

use clap::builder::ValueParser;
use clap::{Arg, ArgAction, Command};
use command_line::{flag, number, option, program, with_payloads, with_two};
use std::alloc::{AllocError, Global};

/// How the program is called.
pub const USAGE: &str =
    "sbigdb SCRIPT [--schedule K | --sweep --row R | --faults --row R] [--p0 PATH .. --p3 PATH]";

const ABOUT: &str = "\
Debugs the modelled RISC-V board that a script leaves: speaks GDB's Remote Serial
Protocol on standard input and output.

  gdb-multiarch kernel.elf -ex 'target remote | sbigdb SCRIPT --p0 kernel.bin'

Harts are threads. GDB's commands step, go on, and go back, also over power cuts
and suspensions; nothing that it asks changes the board. `monitor LINE` runs a
line of the script language, `monitor script` prints the session as a script that
sbibench runs to the same reports, and `monitor help` tells the rest.

--schedule takes a script that sbibench found: the one that its --schedules
--show K writes. The session begins where the turns of that script part from
those of SCRIPT. --row takes the one that its --sweep --show R, or --faults
--show R, writes: the session begins before the line, or the turn, in which the
cut or the failure strikes.";

const STATUS: &str = "\
Status:
  0  the debugger has left, or the input ended
  1  standard error has 'sbigdb: refusal N', for a malformed script
     'sbigdb: refusal 14 line K', and 'sbigdb: file' where a file could not be read
  2  a fault of the command line

docs/DEBUGGING.md of the source shows a session, docs/SCRIPT.md has the language,
and docs/REFUSALS.md the refusals.";

/// The script's file.
pub const SCRIPT: &str = "SCRIPT";

/// How many turns a hart makes before the next one's.
pub const QUANTUM: &str = "quantum";

/// How many turns a command makes at most.
pub const MOST: &str = "most";

/// A schedule, by its number.
pub const SCHEDULE: &str = "schedule";

/// What it is drawn from.
pub const SEED: &str = "seed";

/// The flag of the bench of power cuts.
pub const SWEEP: &str = "sweep";

/// The flag of the bench of failures.
pub const FAULTS: &str = "faults";

/// A row of one of them, by its number.
pub const ROW: &str = "row";

/// The highest number of a schedule or a row.
pub const MOST_NUMBER: u64 = 1_000_000;

/// The most turns of a hart before the next one's: those of a line of a script.
pub const MOST_QUANTUM: u64 = 1_000_000;

/// The most turns of a command that can be asked for.
pub const MOST_TURNS: u64 = 1_000_000_000;

/// The script's path, which is not empty.
fn script<'a>(alloc: Global) -> Arg<'a>
    ensures rule { rule_of result ≡ script_rule }
    ensures local { result.global ≡ false }
{
    Arg::new(alloc, SCRIPT)
        .action(ArgAction::Set)
        .value_parser(ValueParser::NonEmptyString)
        .required(true)
        .help("The file of the script whose end the session begins at")
}

/// An option with a number from 1 to `most`, which has no default.
fn count<'a>(alloc: Global, id: &'a str, most: u64, value: &'a str, help: &'a str) -> Arg<'a>
    ensures rule { rule_of result ≡ value_rule id.entry.now (Unsigned 1 most) }
    ensures local { result.global ≡ false }
{
    option(alloc, id, value, help).value_parser(ValueParser::unsigned(1, most))
}

/// The command with the options that say by which row of a bench a session begins.
fn with_rows<'a>(alloc: Global, command: Command<'a>) -> Result<Command<'a>, AllocError>
    ensures { IfOk result (λ c. app_of c ≡ with_rows (app_of command.entry)) }
{
    let sweep = flag(alloc, SWEEP, "With --row: the bench of power cuts");
    let faults = flag(alloc, FAULTS, "With --row: the bench of failures");
    let Ok(command) = with_two(command, sweep, faults) else {
        return Err(AllocError);
    };
    let help = "Begins where the cut or the failure of row R of the bench strikes";
    command.arg(count(alloc, ROW, MOST_NUMBER, "R", help))
}

/// The command with the options that say where a session begins.
fn with_begins<'a>(alloc: Global, command: Command<'a>) -> Result<Command<'a>, AllocError>
    ensures { IfOk result (λ c. app_of c ≡ with_begins (app_of command.entry)) }
{
    let schedule = "Begins where schedule K parts from the script";
    let schedule = count(alloc, SCHEDULE, MOST_NUMBER, "K", schedule);
    let seed = "The number that schedules are drawn from; 1 if not given";
    let seed = option(alloc, SEED, "S", seed);
    let Ok(command) = with_two(command, schedule, seed) else {
        return Err(AllocError);
    };
    with_rows(alloc, command)
}

/// The command with the options of every session.
fn with_numbers<'a>(alloc: Global, command: Command<'a>) -> Result<Command<'a>, AllocError>
    ensures { IfOk result (λ c. app_of c ≡ with_rules (app_of command.entry)
        (number_rule (codes "quantum") 1000000 (codes "1000")) (number_rule (codes "most") 1000000000 (codes "20000000"))) }
{
    let quantum = "How many turns a hart makes before the next one's, 1 to 1000000";
    let quantum = number(alloc, QUANTUM, MOST_QUANTUM, "1000", quantum);
    let most = "How many turns a command makes at most, 1 to 1000000000";
    let most = number(alloc, MOST, MOST_TURNS, "20000000", most);
    with_two(command, quantum, most)
}

/// The command.
pub fn command<'a>(alloc: Global) -> Result<Command<'a>, AllocError>
    ensures { IfOk result (λ c. app_of c ≡ sbigdb) }
{
    let bare = program(alloc, "sbigdb", USAGE, ABOUT, STATUS);
    let Ok(command) = bare.arg(script(alloc)) else {
        return Err(AllocError);
    };
    let Ok(command) = with_payloads(alloc, command) else {
        return Err(AllocError);
    };
    let Ok(command) = with_numbers(alloc, command) else {
        return Err(AllocError);
    };
    with_begins(alloc, command)
}
