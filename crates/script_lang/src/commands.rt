//! The lines that ask the operator's console for a durable command.

ghost use Rattle.std.specs.Prelude.{◌≡◌, map, IfSome, Some};
ghost use Rattle.std.specs.List.{join_with_byte};
ghost use Rattle.script_lang.specs.Commands.{slot_of, tries_of, command_said, IsCommandInRange, command_spelling};

use crate::words::{alone, in_range, one, two};
use board_model::ConsoleCommand;
use std::fmt;

/// `slot S`: any number below 2^32.
fn slot(words: &[&[u8]]) -> Option<ConsoleCommand>
    ensures value { result ≡ slot_of (map (λ w. w.now) words.now) }
    ensures range { IfSome result IsCommandInRange }
{
    Some(ConsoleCommand::Slot(in_range(0, 1 << 32, one(words)?)?))
}

/// `tries S N`: any two numbers below 2^32.
fn tries(words: &[&[u8]]) -> Option<ConsoleCommand>
    ensures value { result ≡ tries_of (map (λ w. w.now) words.now) }
    ensures range { IfSome result IsCommandInRange }
{
    let (s, n) = two(words)?;
    let slot = in_range(0, 1 << 32, s)?;
    Some(ConsoleCommand::Tries(slot, in_range(0, 1 << 32, n)?))
}

/// The command that a keyword and the words after it say.
pub fn command_said(keyword: &[u8], words: &[&[u8]]) -> Option<ConsoleCommand>
    ensures value { result ≡ command_said keyword.now (map (λ w. w.now) words.now) }
    ensures range { IfSome result IsCommandInRange }
{
    if keyword == b"slot".as_slice() {
        return slot(words);
    }
    if keyword == b"discard".as_slice() {
        return alone(ConsoleCommand::Discard, words);
    }
    if keyword == b"tries".as_slice() {
        return tries(words);
    }
    if keyword == b"good".as_slice() {
        return alone(ConsoleCommand::Good, words);
    }
    None
}

/// A command as the language writes it.
#[derive(Drop)]
pub struct CommandText(pub ConsoleCommand);

impl fmt::Display for CommandText {
    ghost output = { λ c. Some (join_with_byte 32 (command_spelling c.0)) };

    fn fmt<W: fmt::Write>(&self, f: &mut fmt::Formatter<W>) -> fmt::Result {
        match self.0 {
            ConsoleCommand::Slot(slot) => write!(f, "slot {slot}"),
            ConsoleCommand::Discard => f.write_str("discard"),
            ConsoleCommand::Tries(slot, boots) => write!(f, "tries {slot} {boots}"),
            ConsoleCommand::Good => f.write_str("good"),
        }
    }
}
