//! The command, its options, and what `--help` says.

ghost use Rattle.std.specs.Prelude.{◌≡◌, false, IfOk};
ghost use Rattle.clap.specs.Words.{App, app_of, rule_of, with_rule};
ghost use Rattle.clap.specs.declared.builder.value_parser.ValueParser.TheVariants.{Unsigned};
ghost use Rattle.command_line.specs.Options.{value_rule};
ghost use Rattle.kernel_check.specs.Usage.{sbicheck, kernel_rule, several_rule, reason_rule, memory_rule, with_board, with_looks, with_orders, with_bounds, with_writing};

use clap::builder::ValueParser;
use clap::{Arg, ArgAction, Command};
use command_line::{flag, number, option, program};
use std::alloc::{AllocError, Global};

/// How the program is called.
pub const USAGE: &str = "sbicheck [OPTIONS] KERNEL";

const ABOUT: &str = "\
Checks a kernel in every order of the turns of its harts, wherever power fails.

  sbicheck kernel.elf --harts 2 --look shown:16

The kernel is an ELF file, or raw bytes as they stand at 0x80000000. It boots on
a modelled RISC-V board, and each order of turns of its harts is followed, with a
power cut at any moment, a refusal of each sleep and reset, and the power-on after
it: not by trying many orders, but by visiting each board that any of them leads to.

An end is a board that no turn changes, as where each hart has stopped or stands
at `j .`, or that its kernel shut down. What is looked at must be the same at each
end. A board that was shut down keeps no memory: its end shows the reset reason.
A kernel that never rests is stuck for this program.";

const STATUS: &str = "\
Failures, of each kind the first that is found:
  differs  two ends show different things, or one shows what is not expected
  stuck    from some board no order leads to an end; or harts are suspended, none
           is started, and no interrupt is pending
  traps    a hart stands after a trap that has no handler; an EBREAK is one
  fails    the kernel shuts down with reason 1, system failure

Where the search of every order stops at --boards or --memory and nothing was
found, orders with at most 0, 1, 2 and more preemptions are followed, until one of
these searches stops too. A preemption: a hart that does not wait makes a turn, and
the next one is another hart's. A hart waits where some turns of its own, at most
100, lead back to the same board.

A kernel that counts its sleeps, its boots or power cuts has no last board. With
--lives N the orders with at most N power-ons are followed, of any length: a boot,
a resume and the power-on after a cut is one each.

Status:
  0  every order was followed, and nothing was found
  1  standard error has 'sbicheck: refusal N', 'sbicheck: file' where a file could
     not be read, or what is wrong with the kernel
  2  a fault of the command line
  3  a failure was found
  4  not every order was followed, but those with so many preemptions or power-ons
     as it says, or fewer; or nothing is looked at that the kernel writes

docs/CHECKING.md of the source says what the verdict means and what not, what
blows up, and has the fields of --json; docs/REFUSALS.md the refusals.";

/// The kernel's file.
pub const KERNEL: &str = "KERNEL";

/// How many harts.
pub const HARTS: &str = "harts";

/// How many pages of RAM.
pub const PAGES: &str = "pages";

/// How many saver lanes.
pub const LANES: &str = "lanes";

/// What is looked at.
pub const LOOK: &str = "look";

/// What must be there.
pub const EXPECT: &str = "expect";

/// The reset reason of the first boot.
pub const REASON: &str = "reason";

/// What does not happen.
pub const WITHOUT: &str = "without";

/// The word for power cuts.
pub const CUTS: &str = "cuts";

/// The word for refused sleeps and resets.
pub const REFUSALS: &str = "refusals";

/// How many harts may be preempted.
pub const PREEMPTIONS: &str = "preemptions";

/// How many power-ons there may be.
pub const LIVES: &str = "lives";

/// At how many boards a search stops.
pub const BOARDS: &str = "boards";

/// At how much memory it stops.
pub const MEMORY: &str = "memory";

/// How many threads search.
pub const JOBS: &str = "jobs";

/// The flag for lines of JSON.
pub const JSON: &str = "json";

/// The flag for tests.
pub const TAP: &str = "tap";

/// The failure that is shown.
pub const SHOW: &str = "show";

/// The words of the failures.
pub const DIFFERS: &str = "differs";

pub const STUCK: &str = "stuck";

pub const TRAPS: &str = "traps";

pub const FAILS: &str = "fails";

/// The most harts, pages and lanes of a board.
pub const MOST_HARTS: u64 = 8;

pub const MOST_PAGES: u64 = 256;

pub const MOST_LANES: u64 = 4;

/// The most preemptions of an order.
pub const MOST_PREEMPTIONS: u64 = 1000;

/// The most power-ons of an order.
pub const MOST_LIVES: u64 = 1000;

/// The most boards at which a search stops.
pub const MOST_BOARDS: u64 = 4_000_000_000;

/// The most threads that search.
pub const MOST_JOBS: u64 = 64;

/// The kernel's path, which is not empty.
fn kernel<'a>(alloc: Global) -> Arg<'a>
    ensures rule { rule_of result ≡ kernel_rule }
    ensures local { result.global ≡ false }
{
    Arg::new(alloc, KERNEL)
        .action(ArgAction::Set)
        .value_parser(ValueParser::NonEmptyString)
        .required(true)
        .help("The kernel's file: an ELF file, or raw bytes")
}

/// An option that can be given several times.
fn several<'a>(alloc: Global, id: &'a str, value: &'a str, help: &'a str) -> Arg<'a>
    ensures rule { rule_of result ≡ several_rule id.entry.now }
    ensures local { result.global ≡ false }
{
    option(alloc, id, value, help).action(ArgAction::Append)
}

/// An option with a number of `least` to `most`.
fn ranged<'a>(
    alloc: Global,
    id: &'a str,
    value: &'a str,
    least: u64,
    most: u64,
    help: &'a str,
) -> Arg<'a>
    ensures rule { rule_of result ≡ value_rule id.entry.now (Unsigned least most) }
    ensures local { result.global ≡ false }
{
    option(alloc, id, value, help).value_parser(ValueParser::unsigned(least, most))
}

/// The option with the reset reason.
fn reason<'a>(alloc: Global) -> Arg<'a>
    ensures rule { rule_of result ≡ reason_rule }
    ensures local { result.global ≡ false }
{
    let help = "The reset reason of the first boot, 0 or 1";
    ranged(alloc, REASON, "R", 0, 1, help).default_value("0")
}

/// The option with the bound on memory.
fn memory<'a>(alloc: Global) -> Arg<'a>
    ensures rule { rule_of result ≡ memory_rule }
    ensures local { result.global ≡ false }
{
    let help = "Stops at so many bytes of memory, as 500M or 8G";
    option(alloc, MEMORY, "SIZE", help).default_value("4G")
}

/// The command with one more argument, unless memory was refused before: what adds several has one way out.
fn with_arg<'a>(
    command: Result<Command<'a>, AllocError>,
    arg: Arg<'a>,
) -> Result<Command<'a>, AllocError>
    requires { arg.global ≡ false }
    ensures { (app : App) → IfOk command.entry (λ c. app_of c ≡ app) → IfOk result (λ c. app_of c ≡ with_rule app (rule_of arg.entry)) }
{
    command?.arg(arg)
}

/// The command with the options of the board, and with those that say what is looked at.
fn with_kernel<'a>(
    alloc: Global,
    command: Result<Command<'a>, AllocError>,
) -> Result<Command<'a>, AllocError>
    ensures { (app : App) → IfOk command.entry (λ c. app_of c ≡ app) → IfOk result (λ c. app_of c ≡ with_looks (with_board app)) }
{
    let harts = "How many harts the board has, 1 to 8";
    let pages = "How many pages of RAM it has, 1 to 256; as many as an ELF file needs if not said";
    let lanes = "How many saver lanes it has, 1 to 4, for the script of --show";
    let look = "Looks at NAME[:BYTES] or ADDRESS:BYTES; at `shown` if nothing is said";
    let expect = "Expects these bytes at each end: NAME=HEX or ADDRESS=HEX";
    let command = with_arg(command, number(alloc, HARTS, MOST_HARTS, "1", harts));
    let command = with_arg(command, ranged(alloc, PAGES, "N", 1, MOST_PAGES, pages));
    let command = with_arg(command, number(alloc, LANES, MOST_LANES, "1", lanes));
    let command = with_arg(command, reason(alloc));
    let command = with_arg(command, several(alloc, LOOK, "NAME", look));
    with_arg(command, several(alloc, EXPECT, "BYTES", expect))
}

/// The command with the options that say which orders are followed, how the search is bounded, and how the verdict is written.
fn with_search<'a>(
    alloc: Global,
    command: Result<Command<'a>, AllocError>,
) -> Result<Command<'a>, AllocError>
    ensures { (app : App) → IfOk command.entry (λ c. app_of c ≡ app)
        → IfOk result (λ c. app_of c ≡ with_writing (with_bounds (with_orders app))) }
{
    let without =
        "Leaves out power cuts, or refused sleeps and resets [possible values: cuts, refusals]";
    let preemptions = "Follows the orders with at most K preemptions, and no others";
    let lives =
        "Follows the orders with at most N power-ons, and no others; not with --preemptions";
    let boards = "Stops at N boards";
    let jobs = "How many threads search, 1 to 64; as many as there are processors if not said";
    let json = "Writes the verdict as lines of JSON";
    let tap = "Writes the verdict in the Test Anything Protocol";
    let show =
        "Writes its order as a script that sbibench runs [possible values: differs, stuck, traps, fails]";
    let command = with_arg(command, several(alloc, WITHOUT, "WHAT", without));
    let few = ranged(alloc, PREEMPTIONS, "K", 0, MOST_PREEMPTIONS, preemptions);
    let command = with_arg(command, few);
    let command = with_arg(command, ranged(alloc, LIVES, "N", 1, MOST_LIVES, lives));
    let most = number(alloc, BOARDS, MOST_BOARDS, "10000000", boards);
    let command = with_arg(command, most);
    let command = with_arg(command, memory(alloc));
    let command = with_arg(command, ranged(alloc, JOBS, "N", 1, MOST_JOBS, jobs));
    let command = with_arg(command, flag(alloc, JSON, json));
    let command = with_arg(command, flag(alloc, TAP, tap));
    with_arg(command, option(alloc, SHOW, "FAILURE", show))
}

/// The command.
pub fn command<'a>(alloc: Global) -> Result<Command<'a>, AllocError>
    ensures { IfOk result (λ c. app_of c ≡ sbicheck) }
{
    let command = Ok(program(alloc, "sbicheck", USAGE, ABOUT, STATUS));
    let command = with_arg(command, kernel(alloc));
    with_search(alloc, with_kernel(alloc, command))
}
