//! Options with a value, and those of the payload files.

ghost use Rattle.std.specs.Prelude.{◌≡◌, ◌<◌, false, map, string_bytes, string_len, IfOk, IfSome};
ghost use Rattle.std.specs.Option.{option_map};
ghost use Rattle.clap.specs.Words.{app_of, first_value, found_of, rule_of};
ghost use Rattle.command_line.specs.Options.{number_rule, option_rule, path_rule, path_named, payload_paths, with_payloads, with_rules};

use clap::builder::ValueParser;
use clap::{Arg, ArgAction, ArgMatches, Command};
use std::alloc::{AllocError, Global};

/// The options of the payload files, by slot.
const PAYLOADS: [&str; 4] = ["p0", "p1", "p2", "p3"];

/// An option with one value: its long name, and what `--help` calls the value and says of the option.
pub fn option<'a>(alloc: Global, id: &'a str, value: &'a str, help: &'a str) -> Arg<'a>
    ensures rule { rule_of result ≡ option_rule id.entry.now }
    ensures local { result.global ≡ false }
{
    Arg::new(alloc, id)
        .long(id)
        .value_name(value)
        .action(ArgAction::Set)
        .help(help)
}

/// An option with a path, which is not empty.
pub fn path<'a>(alloc: Global, id: &'a str, help: &'a str) -> Arg<'a>
    ensures rule { rule_of result ≡ path_rule id.entry.now }
    ensures local { result.global ≡ false }
{
    option(alloc, id, "PATH", help).value_parser(ValueParser::NonEmptyString)
}

/// An option with a number from 1 to `most`, which is `default` where the option is not given.
pub fn number<'a>(alloc: Global, id: &'a str, most: u64, default: &'a str, help: &'a str) -> Arg<'a>
    ensures rule { rule_of result ≡ number_rule id.entry.now most default.entry.now }
    ensures local { result.global ≡ false }
{
    option(alloc, id, "N", help)
        .value_parser(ValueParser::unsigned(1, most))
        .default_value(default)
}

/// The command with two more arguments. A chain of `arg` takes each proof of it several times as long.
pub fn with_two<'a>(
    command: Command<'a>,
    first: Arg<'a>,
    second: Arg<'a>,
) -> Result<Command<'a>, AllocError>
    requires first { first.global ≡ false }
    requires second { second.global ≡ false }
    ensures { IfOk result (λ c. app_of c ≡ with_rules (app_of command.entry) (rule_of first.entry) (rule_of second.entry)) }
{
    match command.arg(first) {
        Ok(command) => command.arg(second),
        Err(refused) => Err(refused),
    }
}

/// The command with the options of the payload files, `--p0` to `--p3`.
pub fn with_payloads<'a>(alloc: Global, command: Command<'a>) -> Result<Command<'a>, AllocError>
    ensures { IfOk result (λ c. app_of c ≡ with_payloads (app_of command.entry)) }
{
    let first = path(alloc, PAYLOADS[0], "What boot slot 0 boots");
    let second = path(alloc, PAYLOADS[1], "What boot slot 1 boots");
    let Ok(command) = with_two(command, first, second) else {
        return Err(AllocError);
    };
    let third = path(alloc, PAYLOADS[2], "What boot slot 2 boots");
    let fourth = path(alloc, PAYLOADS[3], "What boot slot 3 boots");
    with_two(command, third, fourth)
}

/// A path that was given; none that is empty.
pub fn path_given(
    alloc: Global,
    matches: &ArgMatches<'_>,
    id: &str,
) -> Result<Option<String>, AllocError>
    ensures some { IfOk result (λ path. IfSome path (λ text. 0 < string_len text)) }
    ensures named { IfOk result (λ path. option_map string_bytes path
        ≡ path_named (first_value (found_of matches.now) id.now)) }
{
    let Some(text) = matches.get_str(id) else {
        return Ok(None);
    };
    if text.is_empty() {
        return Ok(None);
    }
    let path = text.to_string(alloc)?;
    Ok(Some(path))
}

/// The payload files that were given, by slot.
pub fn payload_paths(
    alloc: Global,
    matches: &ArgMatches<'_>,
) -> Result<[Option<String>; 4], AllocError>
    ensures { IfOk result (λ paths. map (option_map string_bytes) paths ≡ payload_paths (found_of matches.now)) }
{
    Ok([
        path_given(alloc, matches, PAYLOADS[0])?,
        path_given(alloc, matches, PAYLOADS[1])?,
        path_given(alloc, matches, PAYLOADS[2])?,
        path_given(alloc, matches, PAYLOADS[3])?,
    ])
}
