//! From words to options.

ghost use Rattle.std.specs.Prelude.{◌≡◌, ◌<◌, ◌⊎◌, ◌^◌, ℕ, map, None, Some, IfErr, IfOk, IfSome, option_and_then};
ghost use Rattle.clap.specs.Words.{HasKind, fault_of, first_value, found_of, kind_of};
ghost use Rattle.command_line.specs.Parses.{AreParsed};
ghost use Rattle.script_lang.specs.Words.{number_of};
ghost use Rattle.sbigdb.specs.Limits.{IsBounded, IsUpTo};
ghost use Rattle.sbigdb.specs.Usage.{sbigdb};
ghost use Rattle.sbigdb.specs.Reads.{GivesNone, IsNamedBy, NamesNone, ReadsOptions, begin_in};

use crate::begin_words::{begin_named, with_row};
use crate::given::{Begin, DebugOptions};
use crate::help::{
    FAULTS, MOST, MOST_QUANTUM, MOST_TURNS, QUANTUM, ROW, SCHEDULE, SCRIPT, SEED, SWEEP, command,
};
use clap::error::ErrorKind;
use clap::{ArgMatches, Error};
use command_line::{parse, path_given, payload_paths, release, value_fault};
use script_lang::number as number_in;
use std::alloc::{AllocError, Global};
use std::convert::AsStr;

/// What is said of options that do not go together.
const APART: &str =
    "--seed, a number below 2^64, goes with --schedule alone, and --row with --sweep or --faults alone";

/// A number that was given, 1 to `most`, in decimal digits.
fn number(matches: &ArgMatches<'_>, id: &str, most: u64) -> Option<u32>
    requires { most < 2 ^ 32 }
    ensures range { IfSome result (IsUpTo most) }
    ensures named { IfSome result (λ n. option_and_then number_of (first_value (found_of matches.now) id.now) ≡ Some n) }
    ensures none { result ≡ None → (n : ℕ) → IsUpTo most n
        → option_and_then number_of (first_value (found_of matches.now) id.now) ≡ Some n → ⊥ }
{
    let Some(word) = matches.get_str(id) else {
        return None;
    };
    let Some(number) = number_in(word.as_bytes()) else {
        return None;
    };
    if number < 1 || most < number {
        return None;
    }
    Some(number as u32)
}

/// Where the session of a command line that was parsed begins. None where the words do not go together.
fn begin(matches: &ArgMatches<'_>) -> Option<Begin>
    ensures value { result ≡ begin_in (found_of matches.now) }
    ensures bounded { IfSome result IsBounded }
{
    let other = begin_named(matches.get_str(SCHEDULE), matches.get_str(SEED));
    with_row(
        matches.get_str(SWEEP),
        matches.get_str(FAULTS),
        matches.get_str(ROW),
        other,
    )
}

/// The options of a command line that was parsed. None where a value is missing or out of range, which the parser's own
/// checks let through nowhere, or where two of them do not go together.
fn options_in(alloc: Global, matches: &ArgMatches<'_>) -> Result<Option<DebugOptions>, AllocError>
    ensures reads { IfOk result (λ found. IfSome found (ReadsOptions (found_of matches.now))) }
    ensures bounded { IfOk result (λ found. IfSome found (λ o. IsBounded o.begin)) }
    ensures none { IfOk result (λ found. found ≡ None → GivesNone (found_of matches.now)) }
{
    let Some(begin) = begin(matches) else {
        return Ok(None);
    };
    let Some(quantum) = number(matches, QUANTUM, MOST_QUANTUM) else {
        return Ok(None);
    };
    let Some(most) = number(matches, MOST, MOST_TURNS) else {
        return Ok(None);
    };
    let Some(script) = path_given(alloc, matches, SCRIPT)? else {
        return Ok(None);
    };
    let payloads = payload_paths(alloc, matches)?;
    Ok(Some(DebugOptions {
        script,
        payloads,
        begin,
        quantum,
        most,
    }))
}

/// The words as the command's parser reads them, the program's name first.
fn parsed<'a, S: AsStr>(alloc: Global, words: &'a [S]) -> Result<ArgMatches<'a>, Error>
    ensures parsed { IfOk result (λ m. AreParsed sbigdb (map S.text words.entry.now) (found_of m)) }
    // It fails for memory, or since the parser refuses the words.
    ensures refused { IfErr result (HasKind (fault_of sbigdb (map S.text words.entry.now))) }
{
    parse(command(alloc)?, words)
}

/// The fault of options that do not go together.
fn apart(alloc: Global) -> Result<Error, AllocError>
    ensures { IfOk result (λ e. kind_of e ≡ ErrorKind.ValueValidation) }
{
    value_fault(command(alloc)?, APART)
}

/// Reads a command line, the program's name first. The error is the command line's own text, which is the help or the
/// version too, or says that memory was refused.
pub fn options_of<'a, S: AsStr>(alloc: Global, words: &'a [S]) -> Result<DebugOptions, Error>
    // Each option is what the words say, as the command line's parser reads them.
    ensures named { IfOk result (IsNamedBy (map S.text words.now)) }
    ensures bounded { IfOk result (λ o. IsBounded o.begin) }
    // Else memory was refused, or the words name no session. The kind of the error says which.
    ensures refused { IfErr result (λ e. (kind_of e ≡ ErrorKind.OutOfMemory)
        ⊎ NamesNone (map S.text words.now) (kind_of e)) }
{
    let matches = parsed(alloc, words)?;
    let found = options_in(alloc, &matches);
    release(matches);
    match found? {
        Some(options) => Ok(options),
        None => {
            let fault = apart(alloc)?;
            Err(fault)
        }
    }
}
