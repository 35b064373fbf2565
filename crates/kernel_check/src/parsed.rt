//! From words to options.

ghost use Rattle.std.specs.Prelude.{◌≡◌, ◌++◌, List, true, Some, codes, map, string_bytes, IfErr, IfOk, IfSome};
ghost use Rattle.clap.specs.Words.{HasKind, fault_of, first_value, found_of};
ghost use Rattle.command_line.specs.Parses.{AreParsed};
ghost use Rattle.kernel_check.specs.Looks.{IsWordOf};
ghost use Rattle.kernel_check.specs.Options.{AreForms, AreLooked, AreNamedBy, AreOptions, IsAsked, IsBoundBy, IsBounded, IsGiven, IsShown, is_among, memory_of, number_in, reason_of, values_of};
ghost use Rattle.kernel_check.specs.Usage.{sbicheck};
ghost use Rattle.kernel_check.specs.declared.given.LookWord.{LookWord};

use crate::given::{Asked, CheckOptions, FailureKind, LookOption, LookWord};
use crate::help::{
    BOARDS, CUTS, EXPECT, HARTS, JOBS, JSON, KERNEL, LANES, LIVES, LOOK, MEMORY, MOST_BOARDS,
    MOST_HARTS, MOST_JOBS, MOST_LANES, MOST_LIVES, MOST_PAGES, MOST_PREEMPTIONS, PAGES,
    PREEMPTIONS, REASON, REFUSALS, SHOW, TAP, WITHOUT, command,
};
use crate::words::{failure_named, size_named, word_named};
use board_model::Reason;
use board_space::Bound;
use clap::{ArgMatches, Error};
use command_line::{parse, path_given, release, value_fault};
use script_lang::number as number_in;
use std::alloc::{AllocError, Global};
use std::convert::AsStr;

/// What is said of words that are out of their forms.
const FORMS: &str =
    "--look is NAME, NAME:BYTES or ADDRESS:BYTES, --expect NAME=HEX or ADDRESS=HEX, each of 1 to 4096 \
bytes and from 0x80000000 on, --without cuts or refusals, --memory a number of bytes, with K, M or G after it, and --show \
differs, stuck, traps or fails";

/// What is said where two bounds are given.
const BOUNDS: &str = "--lives comes without --preemptions: the orders of one bound are followed";

/// What is said of words that the command's parser takes, where they are no options all the same.
fn fault_text(matches: &ArgMatches<'_>) -> &'static str {
    if matches.get_str(PREEMPTIONS).is_some() && matches.get_str(LIVES).is_some() {
        BOUNDS
    } else {
        FORMS
    }
}

/// A number that was given, `least` to `most`, in decimal digits.
fn number(matches: &ArgMatches<'_>, id: &str, least: u64, most: u64) -> Option<u32>
    ensures { IfSome result (λ n. number_in least most (first_value (found_of matches.now) id.now) ≡ Some n) }
{
    let number = number_in(matches.get_str(id)?.as_bytes())?;
    if least <= number && number <= most {
        u32::try_from(number).ok()
    } else {
        None
    }
}

/// Whether power cuts and refusals are left out, by those words. None where one is neither.
fn left_out(words: &[&str]) -> Option<(bool, bool)>
    ensures cuts { IfSome result (λ out. out.0 ≡ is_among (codes "cuts") (map (λ w. w.now) words.now)) }
    ensures refusals { IfSome result (λ out. out.1 ≡ is_among (codes "refusals") (map (λ w. w.now) words.now)) }
{
    let mut cuts = false;
    let mut refusals = false;
    for word in words {
        if *word == CUTS {
            cuts = true;
        } else if *word == REFUSALS {
            refusals = true;
        } else {
            return None;
        }
    }
    Some((cuts, refusals))
}

/// Adds what some words of an option name. Whether each of them is in its form.
fn add_words(
    alloc: Global,
    option: LookOption,
    words: &[&str],
    looks: &mut Vec<LookWord>,
) -> Result<bool, AllocError>
    ensures { IfOk result (λ fine. fine ≡ true
        → (more : List LookWord) × (looks.new.items ≡ looks.old.items ++ more)
        × AreForms (IsWordOf option) (map (λ w. w.now) words.now) more) }
{
    for word in words {
        match word_named(alloc, option, word)? {
            Some(look) => looks.push(look)?,
            None => return Ok(false),
        }
    }
    Ok(true)
}

/// What is looked at, in the order of the words, what is expected last. None where a word is out of its form.
fn looks(alloc: Global, matches: &ArgMatches<'_>) -> Result<Option<Vec<LookWord>>, AllocError>
    ensures { IfOk result (λ found. IfSome found (λ looks. AreLooked (found_of matches.now) looks.items)) }
{
    let mut looks = Vec::new(alloc);
    if let Some(words) = matches.get_strs(LOOK)
        && !add_words(alloc, LookOption::Look, words, &mut looks)?
    {
        return Ok(None);
    }
    if let Some(words) = matches.get_strs(EXPECT)
        && !add_words(alloc, LookOption::Expect, words, &mut looks)?
    {
        return Ok(None);
    }
    Ok(Some(looks))
}

/// Whether power cuts and refusals are left out. None where a word is neither.
fn left_out_given(matches: &ArgMatches<'_>) -> Option<(bool, bool)>
    ensures cuts { IfSome result (λ out. out.0 ≡ is_among (codes "cuts") (values_of (found_of matches.now) (codes "without"))) }
    ensures refusals { IfSome result (λ out. out.1 ≡ is_among (codes "refusals") (values_of (found_of matches.now) (codes "without"))) }
{
    match matches.get_strs(WITHOUT) {
        Some(words) => left_out(words),
        None => Some((false, false)),
    }
}

/// The reset reason that the first boot finds. None where the word is no number.
fn reason_given(matches: &ArgMatches<'_>) -> Option<Reason>
    ensures { IfSome result (λ reason. reason ≡ reason_of (first_value (found_of matches.now) (codes "reason"))) }
{
    let Some(word) = matches.get_str(REASON) else {
        return Some(Reason::NoReason);
    };
    match number_in(word.as_bytes())? {
        1 => Some(Reason::SystemFailure),
        _ => Some(Reason::NoReason),
    }
}

/// What is done of each order. None where a word says nothing of it.
fn asked(matches: &ArgMatches<'_>) -> Option<Asked>
    ensures { IfSome result (IsAsked (found_of matches.now)) }
{
    let (cuts, refusals) = left_out_given(matches)?;
    let reason = reason_given(matches)?;
    Some(Asked {
        reason,
        cuts: !cuts,
        refusals: !refusals,
    })
}

/// The failure that is shown, if one is. None where the word is no failure.
fn shown(matches: &ArgMatches<'_>) -> Option<Option<FailureKind>>
    ensures { IfSome result (IsShown (first_value (found_of matches.now) (codes "show"))) }
{
    match matches.get_str(SHOW) {
        None => Some(None),
        Some(word) => Some(Some(failure_named(word)?)),
    }
}

/// A number that need not be given, `least` to `most`. None where it is out of this range.
fn number_given(matches: &ArgMatches<'_>, id: &str, least: u64, most: u64) -> Option<Option<u32>>
    ensures { IfSome result (IsGiven least most (first_value (found_of matches.now) id.now)) }
{
    match matches.get_str(id) {
        None => Some(None),
        Some(_) => Some(Some(number(matches, id, least, most)?)),
    }
}

/// The bound of the orders, where not two are given.
fn bound_by(preemptions: Option<u32>, lives: Option<u32>) -> Option<Bound>
    ensures { IfSome result (IsBoundBy preemptions lives) }
{
    match (preemptions, lives) {
        (None, None) => Some(Bound::Unbounded),
        (Some(most), None) => Some(Bound::Preemptions(most)),
        (None, Some(most)) => Some(Bound::PowerOns(most)),
        (Some(_), Some(_)) => None,
    }
}

/// How the orders are bounded. None where two bounds are given, or one is out of its range.
#[tactic(auto, using(crate::proofs::Bounding::bounded))]
fn bound(matches: &ArgMatches<'_>) -> Option<Bound>
    ensures { IfSome result (IsBounded (found_of matches.now)) }
{
    let preemptions = number_given(matches, PREEMPTIONS, 0, MOST_PREEMPTIONS)?;
    let lives = number_given(matches, LIVES, 1, MOST_LIVES)?;
    let bound = bound_by(preemptions, lives)?;
    Some(bound)
}

/// The numbers of a command line: harts, lanes, boards, and bytes of memory.
fn numbers(matches: &ArgMatches<'_>) -> Option<(u32, u32, u32, u64)>
    ensures harts { IfSome result (λ n. number_in 1 8 (first_value (found_of matches.now) (codes "harts")) ≡ Some n.0) }
    ensures lanes { IfSome result (λ n. number_in 1 4 (first_value (found_of matches.now) (codes "lanes")) ≡ Some n.1) }
    ensures boards { IfSome result (λ n. number_in 1 4000000000 (first_value (found_of matches.now) (codes "boards")) ≡ Some n.2) }
    ensures memory { IfSome result (λ n. memory_of (first_value (found_of matches.now) (codes "memory")) ≡ Some n.3) }
{
    let harts = number(matches, HARTS, 1, MOST_HARTS)?;
    let lanes = number(matches, LANES, 1, MOST_LANES)?;
    let boards = number(matches, BOARDS, 1, MOST_BOARDS)?;
    let memory = size_named(matches.get_str(MEMORY)?)?;
    Some((harts, lanes, boards, memory))
}

/// The options of a command line that was parsed. None where a value is out of its form or range.
fn options_in(alloc: Global, matches: &ArgMatches<'_>) -> Result<Option<CheckOptions>, AllocError>
    ensures { IfOk result (λ found. IfSome found (AreOptions (found_of matches.now))) }
{
    let (Some(numbers), Some(pages), Some(bound), Some(jobs)) = (
        numbers(matches),
        number_given(matches, PAGES, 1, MOST_PAGES),
        bound(matches),
        number_given(matches, JOBS, 1, MOST_JOBS),
    ) else {
        return Ok(None);
    };
    let (Some(asked), Some(show)) = (asked(matches), shown(matches)) else {
        return Ok(None);
    };
    let (harts, lanes, boards, memory) = numbers;
    let Some(kernel) = path_given(alloc, matches, KERNEL)? else {
        return Ok(None);
    };
    let Some(looks) = looks(alloc, matches)? else {
        return Ok(None);
    };
    Ok(Some(CheckOptions {
        kernel,
        harts,
        pages,
        lanes,
        looks,
        asked,
        bound,
        boards,
        memory,
        jobs,
        json: matches.get_flag(JSON),
        tap: matches.get_flag(TAP),
        show,
    }))
}

/// The words as the command's parser reads them, the program's name first.
fn parsed<'a, S: AsStr>(alloc: Global, words: &'a [S]) -> Result<ArgMatches<'a>, Error>
    ensures parsed { IfOk result (λ m. AreParsed sbicheck (map S.text words.entry.now) (found_of m)) }
    // It fails for memory, or since the parser refuses the words.
    ensures refused { IfErr result (HasKind (fault_of sbicheck (map S.text words.entry.now))) }
{
    parse(command(alloc)?, words)
}

/// Reads a command line, the program's name first. The error is the command line's own text, which is the help or the
/// version too, or says that memory was refused.
pub fn options_of<'a, S: AsStr>(alloc: Global, words: &'a [S]) -> Result<CheckOptions, Error>
    // They are what the words say, as the command's parser reads them.
    ensures { IfOk result (AreNamedBy (map S.text words.now)) }
{
    let matches = parsed(alloc, words)?;
    let text = fault_text(&matches);
    let found = options_in(alloc, &matches);
    release(matches);
    match found? {
        Some(options) => Ok(options),
        None => {
            let fault = value_fault(command(alloc)?, text)?;
            Err(fault)
        }
    }
}
