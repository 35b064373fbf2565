//! The command line, and what `--help` says.

ghost use Rattle.std.specs.Prelude.{◌≡◌, false, map, None, IfErr, IfOk, IfSome};
ghost use Rattle.clap.specs.Words.{HasKind, app_of, fault_of, found_of, rule_of};
ghost use Rattle.command_line.specs.Parses.{AreParsed};
ghost use Rattle.board_session.specs.ExaminerUsage.{IsNamedBy, NamesNoPath, asked_of, path_rule, sbidisk};

use clap::{Arg, ArgAction, ArgMatches, Command, Error};
use command_line::{flag, parse, program, release};
use std::alloc::{AllocError, Global};
use std::convert::AsStr;

/// How the program is called.
pub const USAGE: &str = "sbidisk [--memory] PATH";

const ABOUT: &str = "\
Says what stands in the file of a modelled RISC-V board's disk, whatever bytes it
holds. Nothing is booted, and the file is not written.
With --memory the memory of the image that stands is written to standard output,
byte for byte, in the place of the lines.";

const LINES: &str = "\
Lines:
  inspect gate G live Y other Z image I
      which record the gate selects, 0 or 1; whether it and the other one are in
      their form, ok or bad; the image, none, whole or bad
  found slot S reason R image X next N
      the state that a power-on would find, where the selected record is in its
      form; it ends ' trial F L' where the slot is on trial: the slot to fall back
      to, and the boots left
  image hart H address A opaque V pages P
      the image of that state, where there is one
  block B
      each sector lies in a block of B bytes, where they do not lie one after
      the other

Status:
  0  the lines or the bytes were written
  1  standard error has 'sbidisk: refusal N', or 'sbidisk: file' where the file
     could not be read
  2  a fault of the command line
  3  the lines were written, and one says 'bad'

Refusals:
   1  the disk is not formatted
   3  the file is not whole sectors of 512 bytes, holds none, or is too small for
      its board, or the shape in it is no board's
   4  with --memory: the selected record is not in its form
   8  with --memory: no image stands
  11  memory was refused
  13  with --memory: the image is not whole
  16  the output could not be written

docs/STORE.md of the source has the format.";

/// The disk's file.
const PATH: &str = "PATH";

/// The flag that asks for the memory.
const MEMORY: &str = "memory";

/// What the command line asks for.
#[derive(Clone, Copy, Drop)]
pub enum DiskWork<'a> {
    /// What stands in the file of that path.
    Lines(&'a str),
    /// The memory of the image that stands there.
    Memory(&'a str),
}

/// The word that names the disk's file.
fn path<'a>(alloc: Global) -> Arg<'a>
    ensures rule { rule_of result ≡ path_rule }
    ensures local { result.global ≡ false }
{
    Arg::new(alloc, PATH)
        .required(true)
        .action(ArgAction::Set)
        .help("The disk's file")
}

/// The command.
fn command<'a>(alloc: Global) -> Result<Command<'a>, AllocError>
    ensures { IfOk result (λ c. app_of c ≡ sbidisk) }
{
    program(alloc, "sbidisk", USAGE, ABOUT, LINES)
        .arg(path(alloc))?
        .arg(flag(
            alloc,
            MEMORY,
            "Writes the memory of the image that stands, and nothing else",
        ))
}

/// The words as the command's parser reads them, the program's name first.
fn parsed<'a, S: AsStr>(alloc: Global, words: &'a [S]) -> Result<ArgMatches<'a>, Error>
    ensures parsed { IfOk result (λ m. AreParsed sbidisk (map S.text words.entry.now) (found_of m)) }
    // It fails for memory, or since the parser refuses the words.
    ensures refused { IfErr result (HasKind (fault_of sbidisk (map S.text words.entry.now))) }
{
    parse(command(alloc)?, words)
}

/// The work over the file at a path, by whether the memory is asked for.
fn asked_of(path: &str, is_memory: bool) -> DiskWork<'_>
    ensures { result ≡ asked_of path.entry is_memory }
{
    if is_memory {
        DiskWork::Memory(path)
    } else {
        DiskWork::Lines(path)
    }
}

/// The work that the words of a command line ask for, the program's name first. None where they name no path. The error is the
/// command line's own text: a fault, the help, the version, or that memory was refused.
pub fn work_of<'a, S: AsStr>(alloc: Global, words: &'a [S]) -> Result<Option<DiskWork<'a>>, Error>
    ensures named { IfOk result (λ found. IfSome found (IsNamedBy (map S.text words.entry.now))) }
    ensures none { IfOk result (λ found. found ≡ None → NamesNoPath (map S.text words.entry.now)) }
    // Else memory was refused, or the parser refuses the words. The kind of the error says which.
    ensures refused { IfErr result (HasKind (fault_of sbidisk (map S.text words.entry.now))) }
{
    let matches = parsed(alloc, words)?;
    let path = matches.get_str(PATH);
    let is_memory = matches.get_flag(MEMORY);
    release(matches);
    match path {
        Some(path) => Ok(Some(asked_of(path, is_memory))),
        None => Ok(None),
    }
}
