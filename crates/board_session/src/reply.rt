//! Answers of the console.

ghost use Rattle.std.specs.Prelude.{Some};
ghost use Rattle.board_session.specs.Texts.{reply_text};

use crate::waking::Waking;
use board_model::{ConsoleCommand, Durable, Refusal, StateText};
use std::fmt;

/// The answer to a line, which prints without a line feed.
#[derive(Drop)]
pub enum Reply {
    /// `slot ok N`, or by the word of another command: its place among those of this life.
    Acknowledged(ConsoleCommand, u32),
    /// `slot refused N`, or by the word of another command
    Refused(ConsoleCommand, Refusal),
    /// `state slot S reason R image X next N`: the state now, as `StateText` has it.
    State(Durable),
    /// `wake ok`, or `wake refused 18` where no board dozes, or one that was woken already.
    Wake(Waking),
    /// `quit`
    Quit,
    /// `?`
    Unknown,
}

impl fmt::Display for Reply {
    ghost output = { λ a. Some (reply_text a) };

    fn fmt<W: fmt::Write>(&self, f: &mut fmt::Formatter<W>) -> fmt::Result {
        match *self {
            Reply::Acknowledged(command, n) => {
                let word = command.word();
                write!(f, "{word} ok {n}")
            }
            Reply::Refused(command, refusal) => {
                let word = command.word();
                let code = refusal.code();
                write!(f, "{word} refused {code}")
            }
            Reply::State(durable) => {
                let state = StateText(durable);
                write!(f, "state {state}")
            }
            Reply::Wake(ref waking) => match waking.outcome() {
                Ok(()) => f.write_str("wake ok"),
                Err(refusal) => {
                    let code = refusal.code();
                    write!(f, "wake refused {code}")
                }
            },
            Reply::Quit => f.write_str("quit"),
            Reply::Unknown => f.write_str("?"),
        }
    }
}
