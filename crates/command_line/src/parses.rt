//! Words, as a command's parser reads them.

ghost use Rattle.std.specs.Prelude.{◌≡◌, true, map, IfErr, IfOk};
ghost use Rattle.clap.specs.Words.{HasKind, app_of, fault_of, found_of, is_simple_and_free, kind_of};
ghost use Rattle.command_line.specs.Parses.{AreParsed};

use clap::error::ErrorKind;
use clap::{ArgMatches, Command, Error};
use std::alloc::AllocError;
use std::convert::AsStr;

/// The words as the command's parser reads them, the program's name first. The error is the command's own text, which is the
/// help or the version too, or says that memory was refused.
pub fn parse<'a, S: AsStr>(command: Command<'a>, words: &'a [S]) -> Result<ArgMatches<'a>, Error>
    requires { is_simple_and_free (app_of command) ≡ true }
    ensures parsed { IfOk result (λ m. AreParsed (app_of command.entry) (map S.text words.entry.now) (found_of m)) }
    // The kind of the error says that memory was refused, or is one by which the parser refuses the words.
    ensures refused { IfErr result (HasKind (fault_of (app_of command.entry) (map S.text words.entry.now))) }
{
    command.try_get_matches_from(words)
}

/// The fault of values that the command's parser let through, in those words.
pub fn value_fault(mut command: Command<'_>, text: &str) -> Result<Error, AllocError>
    ensures { IfOk result (λ e. kind_of e ≡ ErrorKind.ValueValidation) }
{
    command.error(ErrorKind::ValueValidation, text)
}

/// The fault of a value that is out of its range, although the command's parser let it through.
pub fn out_of_range(command: Command<'_>) -> Result<Error, AllocError>
    ensures { IfOk result (λ e. kind_of e ≡ ErrorKind.ValueValidation) }
{
    value_fault(command, "a value is out of its range")
}

/// Lets go of what was parsed. A crate that does so itself has to prove for each part of it that it is let go of.
pub fn release(_matches: ArgMatches<'_>) {}
