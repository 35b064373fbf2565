//! From words to options.

ghost use Rattle.std.specs.Prelude.{◌≡◌, ◌<◌, ◌⊎◌, map, ℕ, string_len, codes, None, Some, IfErr, IfOk, IfSome, IsTrue, option_and_then};
ghost use Rattle.board_files.specs.Blocks.{is_block_size};
ghost use Rattle.board_model.specs.Shapes.{IsSize, Size};
ghost use Rattle.clap.specs.Facts.{is_present};
ghost use Rattle.clap.specs.Words.{first_value, found_of, kind_of};
ghost use Rattle.clap.specs.declared.parser.matches.Found.{Found};
ghost use Rattle.board_session.specs.Limits.{AreTurns};
ghost use Rattle.board_session.specs.Parses.{AreParsed, AreRefused};
ghost use Rattle.board_session.specs.Reads.{ReadsOptions};
ghost use Rattle.board_session.specs.Refused.{AreNoOptions, GivesNone};
ghost use Rattle.script_lang.specs.Lines.{mode_of};
ghost use Rattle.script_lang.specs.Words.{number_of};

use crate::given::{Options, ShapeGiven};
use crate::help::{
    BLOCK, DISK, HARTS, LANES, MODE, MOST_TURNS, NEW, PAGES, SYNC, TELL, TURNS, command,
};
use board_files::BlockSize;
use board_model::{BootMode, Shape};
use clap::error::ErrorKind;
use clap::parser::ValueSource;
use clap::{ArgMatches, Error};
use command_line::{out_of_range, parse, path_given, payload_paths, release};
use script_lang::{mode, number as number_in};
use std::alloc::{AllocError, Global};
use std::convert::AsStr;

/// The boot mode that was named.
fn boot_mode(matches: &ArgMatches<'_>) -> Option<BootMode>
    ensures { result ≡ option_and_then mode_of (first_value (found_of matches.now) (codes "mode")) }
{
    mode(matches.get_str(MODE)?.as_bytes())
}

/// The number of an option, which is written in decimal digits.
fn number(matches: &ArgMatches<'_>, id: &str) -> Option<u64>
    ensures { result ≡ option_and_then number_of (first_value (found_of matches.now) id.now) }
{
    number_in(matches.get_str(id)?.as_bytes())
}

/// The shape of a new disk.
fn shape(matches: &ArgMatches<'_>) -> Option<Shape>
    ensures harts { IfSome result (λ size. option_and_then number_of (first_value (found_of matches.now) (codes "harts"))
        ≡ Some size.harts) }
    ensures pages { IfSome result (λ size. option_and_then number_of (first_value (found_of matches.now) (codes "pages"))
        ≡ Some size.pages) }
    ensures lanes { IfSome result (λ size. option_and_then number_of (first_value (found_of matches.now) (codes "lanes"))
        ≡ Some size.lanes) }
    ensures none { result ≡ None → (size : Size) → IsSize size
        → option_and_then number_of (first_value (found_of matches.now) (codes "harts")) ≡ Some size.harts
        → option_and_then number_of (first_value (found_of matches.now) (codes "pages")) ≡ Some size.pages
        → option_and_then number_of (first_value (found_of matches.now) (codes "lanes")) ≡ Some size.lanes → ⊥ }
{
    let harts = number(matches, HARTS)?;
    let pages = number(matches, PAGES)?;
    let lanes = number(matches, LANES)?;
    Shape::new(harts, pages, lanes).ok()
}

/// The block of each sector of a new disk.
fn block(matches: &ArgMatches<'_>) -> Option<BlockSize>
    ensures named { IfSome result (λ size. option_and_then number_of (first_value (found_of matches.now) (codes "block"))
        ≡ Some size.bytes) }
    ensures none { result ≡ None → (bytes : ℕ) → IsTrue (is_block_size bytes)
        → option_and_then number_of (first_value (found_of matches.now) (codes "block")) ≡ Some bytes → ⊥ }
{
    let bytes = number(matches, BLOCK)?;
    BlockSize::new(bytes)
}

/// Whether the words give a value of that name. A default does not count.
fn is_given(matches: &ArgMatches<'_>, id: &str) -> bool
    ensures { result ≡ is_present (found_of matches.now) id.now }
{
    matches.contains_id(id) && matches.value_source(id) != Some(ValueSource::DefaultValue)
}

/// Which numbers of the shape the words give.
fn shape_given(matches: &ArgMatches<'_>) -> ShapeGiven
    ensures harts { result.harts ≡ is_present (found_of matches.now) (codes "harts") }
    ensures pages { result.pages ≡ is_present (found_of matches.now) (codes "pages") }
    ensures lanes { result.lanes ≡ is_present (found_of matches.now) (codes "lanes") }
{
    ShapeGiven {
        harts: is_given(matches, HARTS),
        pages: is_given(matches, PAGES),
        lanes: is_given(matches, LANES),
    }
}

/// How many turns a hart makes at most.
fn turns(matches: &ArgMatches<'_>) -> Option<u64>
    ensures range { IfSome result AreTurns }
    ensures named { IfSome result (λ turns. option_and_then number_of (first_value (found_of matches.now) (codes "turns"))
        ≡ Some turns) }
    ensures none { result ≡ None → (turns : ℕ) → AreTurns turns
        → option_and_then number_of (first_value (found_of matches.now) (codes "turns")) ≡ Some turns → ⊥ }
{
    let turns = number(matches, TURNS)?;
    if turns < 1 || MOST_TURNS < turns {
        return None;
    }
    Some(turns)
}

/// The options of a command line that was parsed. None where a value is missing or out of range. The parser's own checks
/// let no such command line through.
fn options_of(alloc: Global, matches: &ArgMatches<'_>) -> Result<Option<Options>, AllocError>
    ensures reads { IfOk result (λ found. IfSome found (ReadsOptions (found_of matches.now))) }
    ensures none { IfOk result (λ found. found ≡ None → GivesNone (found_of matches.now)) }
{
    let Some(disk) = path_given(alloc, matches, DISK)? else {
        return Ok(None);
    };
    let payloads = payload_paths(alloc, matches)?;
    let Some(mode) = boot_mode(matches) else {
        return Ok(None);
    };
    let Some(shape) = shape(matches) else {
        return Ok(None);
    };
    let Some(block) = block(matches) else {
        return Ok(None);
    };
    let Some(turns) = turns(matches) else {
        return Ok(None);
    };
    Ok(Some(Options {
        disk,
        mode,
        new: matches.get_flag(NEW),
        sync: matches.get_flag(SYNC),
        tell: matches.get_flag(TELL),
        shape,
        block,
        given: shape_given(matches),
        payloads,
        turns,
    }))
}

/// The words as the command's parser reads them, the program's name first.
fn parsed<'a, S: AsStr>(alloc: Global, words: &'a [S]) -> Result<ArgMatches<'a>, Error>
    ensures matches { IfOk result (λ m. AreParsed (map S.text words.entry.now) (found_of m)) }
    // It fails for memory, or since the parser refuses the words.
    ensures refused { IfErr result (λ e. (kind_of e ≡ ErrorKind.OutOfMemory)
        ⊎ AreRefused (map S.text words.entry.now) (kind_of e)) }
{
    parse(command(alloc)?, words)
}

/// Reads a command line, the program's name first. Where it answers `Ok` there is a path, one of the four
/// boot modes, and each number is within its limit. The error is the command line's own text, which is the
/// help or the version too, or says that memory was refused.
pub fn read_options<'a, S: AsStr>(alloc: Global, words: &'a [S]) -> Result<Options, Error>
    ensures limits { IfOk result (λ o. (0 < string_len o.disk) × IsSize o.shape × AreTurns o.turns) }
    // And each option is what the words say, as the command line's parser reads them.
    ensures reads { IfOk result (λ o. (f : Found) × AreParsed (map S.text words.now) f × ReadsOptions f o) }
    // Else memory was refused, or the parser refuses the words, or their values give no options. The kind of the error says which.
    ensures refused { IfErr result (λ e. (kind_of e ≡ ErrorKind.OutOfMemory)
        ⊎ AreRefused (map S.text words.now) (kind_of e)
        ⊎ ((kind_of e ≡ ErrorKind.ValueValidation) × AreNoOptions (map S.text words.now))) }
{
    let matches = parsed(alloc, words)?;
    let found = options_of(alloc, &matches);
    release(matches);
    match found? {
        Some(options) => Ok(options),
        None => {
            let fault = out_of_range(command(alloc)?)?;
            Err(fault)
        }
    }
}
