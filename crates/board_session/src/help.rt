//! The command, its options, and what `--help` says.

ghost use Rattle.std.specs.Prelude.{◌≡◌, false, IfOk};
ghost use Rattle.clap.specs.Words.{app_of, rule_of};
ghost use Rattle.clap.specs.declared.builder.value_parser.ValueParser.{ValueParser as Parser};
ghost use Rattle.board_session.specs.Usage.{TakesModes, mode_rule, board_line, with_shape, sbiboard};

use board_model::{command_lines, refusal_lines};
use clap::{Arg, Command};
use command_line::{flag, number, option, path, program, with_payloads};
use std::alloc::{AllocError, Global};

/// How the program is called.
pub const USAGE: &str = "sbiboard --disk PATH --mode MODE [--new] [--sync] [OPTIONS]";

const ABOUT: &str = "\
Runs a modelled RISC-V board, each hart on a thread of its own, and takes the
operator's commands from standard input.

The disk is a file: it is read at the start, or made with --new, and written at
the end. So leave by 'quit' or the end of input: a session that is killed
(Ctrl-C) LOSES all that it acknowledged. With --sync it loses nothing of it.";

/// The console's lines, the statuses, the refusals, and a first session. This program has words of its own for what it
/// is refused beside a disk, and never answers what a script is refused.
macro_rules! numbers {
    ([$($command:literal)*] [$($line:literal)*]) => {
        concat!(
            "\
Console, a line each:
",
            $($command,)*
            "  state      'state slot S reason R image X next N', and where the slot is on
             trial ' trial F L': the slot to fall back to, and the boots left
  wake       wakes a board that sleeps in its RAM: 'wake ok' or 'wake refused 18'
  quit       ends the harts after their turn, and the program
Anything else answers '?'. At the end of input the harts run out their turns.
After 'refused 7' the guest has ended its life by a reset or a suspension.

Status:
  0  the board was run, and the disk's file holds the disk
  1  standard error has 'sbiboard: refusal N', or 'sbiboard: file' where a file
     could not be read or written: a payload's, or the disk's, which is not
     there, no regular file, or another session's, or PATH.new beside it
  2  a fault of the command line

Refusals:
",
            $($line,)*
            "
A first session:
  printf 'slot 1\\nstate\\nquit\\n' | sbiboard --disk board.disk --mode fresh --new --sync

docs/CONSOLE.md of the source has the rest.",
        )
    };
    ([$($command:literal)*] [$($line:literal)*] [BadShape $next:literal] $($rest:tt)*) => {
        numbers!([$($command)*] [$($line)* "   3  the disk's file is not whole sectors or too small for its board, or a\n      payload is longer than RAM\n"] $($rest)*)
    };
    ([$($command:literal)*] [$($line:literal)*] [Memory $next:literal] $($rest:tt)*) => {
        numbers!([$($command)*] [$($line)* "  11  memory was refused, or a thread\n"] $($rest)*)
    };
    ([$($command:literal)*] [$($line:literal)*] [BadScript $next:literal] $($rest:tt)*) => {
        numbers!([$($command)*] [$($line)*] $($rest)*)
    };
    ([$($command:literal)*] [$($line:literal)*] [Output $next:literal] $($rest:tt)*) => {
        numbers!([$($command)*] [$($line)* "  16  an answer could not be written\n"] $($rest)*)
    };
    ([$($command:literal)*] [$($line:literal)*] [NotPlain $next:literal] $($rest:tt)*) => {
        numbers!([$($command)*] [$($line)*] $($rest)*)
    };
    ([$($command:literal)*] [$($line:literal)*] [$name:ident $next:literal] $($rest:tt)*) => {
        numbers!([$($command)*] [$($line)* $next] $($rest)*)
    };
}

macro_rules! with_commands {
    ([$names:literal] [$($command:literal)*]) => {
        refusal_lines!(numbers [$($command)*])
    };
}

const NUMBERS: &str = command_lines!(with_commands);

pub const DISK: &str = "disk";

pub const MODE: &str = "mode";

pub const NEW: &str = "new";

pub const SYNC: &str = "sync";

pub const TELL: &str = "tell";

pub const HARTS: &str = "harts";

pub const PAGES: &str = "pages";

pub const LANES: &str = "lanes";

pub const BLOCK: &str = "block";

pub const TURNS: &str = "turns";

/// The most bytes of a block.
const MOST_BLOCK: u64 = 65_536;

/// The most turns of a hart.
pub const MOST_TURNS: u64 = 1_000_000_000;

/// How the board is powered on.
fn mode<'a>(alloc: Global) -> Arg<'a>
    ensures rule { (modes : Parser) × TakesModes modes × (rule_of result ≡ mode_rule modes) }
    ensures local { result.global ≡ false }
{
    option(alloc, MODE, "MODE", "How the board is powered on")
        .value_parser(["fresh", "keep", "discard", "resume"].as_slice())
        .required(true)
}

/// The command with the disk's options.
fn board<'a>(alloc: Global) -> Result<Command<'a>, AllocError>
    ensures { IfOk result (λ c. (modes : Parser) × TakesModes modes × (app_of c ≡ board_line modes)) }
{
    program(alloc, "sbiboard", USAGE, ABOUT, NUMBERS)
        .arg(path(alloc, DISK, "The disk's file").required(true))?
        .arg(mode(alloc))?
        .arg(flag(
            alloc,
            NEW,
            "Makes and formats a blank disk of the shape below: REPLACES a disk that is there",
        ))?
        .arg(flag(
            alloc,
            SYNC,
            "Each sync of the disk waits for its file: a killed session loses nothing acknowledged",
        ))
}

/// The command with the shape of a new disk, and its blocks.
fn shaped<'a>(alloc: Global, command: Command<'a>) -> Result<Command<'a>, AllocError>
    ensures { IfOk result (λ c. app_of c ≡ with_shape (app_of command.entry)) }
{
    command
        .arg(number(alloc, HARTS, 8, "1", "Harts of a new disk's board, 1 to 8"))?
        .arg(number(alloc, PAGES, 256, "1", "Its pages of RAM, 1 to 256"))?
        .arg(number(alloc, LANES, 4, "1", "Its saver lanes, 1 to 4"))?
        .arg(number(
            alloc,
            BLOCK,
            MOST_BLOCK,
            "512",
            "Bytes of the block in which each of its sectors lies alone: 512, 1024, .. 65536",
        ))
}

/// The command.
pub fn command<'a>(alloc: Global) -> Result<Command<'a>, AllocError>
    ensures { IfOk result (λ c. (modes : Parser) × TakesModes modes × (app_of c ≡ sbiboard modes)) }
{
    let board = board(alloc)?;
    let shaped = shaped(alloc, board)?;
    with_payloads(alloc, shaped)?
        .arg(number(
            alloc,
            TURNS,
            MOST_TURNS,
            "1000000",
            "Turns that each hart makes at most, 1 to 1000000000",
        ))?
        .arg(flag(
            alloc,
            TELL,
            "Tells on standard error how each hart ended, as is done at a terminal anyway",
        ))
}
