//! What a line of the console says.

ghost use Rattle.std.specs.Prelude.{◌≡◌, ◌==◌, ◌<◌, IfSome, length, position};
ghost use Rattle.board_session.specs.Lines.{command_in, line_meaning, other_meaning};

use board_model::ConsoleCommand;
use script_lang::command_said;

/// The most bytes of a line, without its line feed.
pub const MOST_BYTES: usize = 256;

/// What a line says.
#[derive(Clone, Copy, PartialEq, Eq, Drop)]
pub enum Said {
    /// `slot S`, `discard`, `tries S N` or `good`: a durable command, with any numbers below 2^32.
    Command(ConsoleCommand),
    /// `state`
    State,
    /// `wake`
    Wake,
    /// `quit`
    Quit,
    /// Anything else.
    Other,
}

/// Where the first space is.
fn first_space(bytes: &[u8]) -> Option<usize>
    ensures at { result ≡ position (λ b. b == 32) bytes.now }
    ensures bound { IfSome result (λ at. at < length bytes.now) }
{
    bytes.iter().position(|b| *b == b' ')
}

/// The durable command that a line says, as a script says it (docs/SCRIPT.md), with one space between two words.
fn command_in(line: &[u8]) -> Option<ConsoleCommand>
    ensures { result ≡ command_in line.now }
{
    let Some(space) = first_space(line) else {
        return command_said(line, &[]);
    };
    let keyword = &line[..space];
    let words = &line[space + 1..];
    match first_space(words) {
        None => command_said(keyword, &[words]),
        Some(next) => command_said(keyword, &[&words[..next], &words[next + 1..]]),
    }
}

/// What a line says that says no durable command.
fn other_said(line: &[u8]) -> Said
    ensures { result ≡ other_meaning line.now }
{
    if line == b"state".as_slice() {
        return Said::State;
    }
    if line == b"wake".as_slice() {
        return Said::Wake;
    }
    if line == b"quit".as_slice() {
        return Said::Quit;
    }
    Said::Other
}

/// What a line says, given without its line feed. Words are in lower case with one space between them, and a
/// number is written as in scripts (docs/SCRIPT.md).
pub fn line_said(line: &[u8]) -> Said
    ensures { result ≡ line_meaning line.now }
{
    if MOST_BYTES < line.len() {
        return Said::Other;
    }
    match command_in(line) {
        Some(command) => Said::Command(command),
        None => other_said(line),
    }
}
