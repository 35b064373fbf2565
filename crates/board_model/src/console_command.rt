//! The durable commands of the operator's console.

ghost use Rattle.std.specs.Prelude.{◌≡◌};
ghost use Rattle.board_model.specs.ConsoleCommands.{command_of, word_of};

use crate::durable::Command;

/// A durable command that the operator's console may issue, and that a script's line asks of it: the others are
/// the guest's and the boot's. `Slot` and `Tries` may name any number, as [`Command`] has them.
#[derive(Clone, Copy, PartialEq, Eq, Drop)]
pub enum ConsoleCommand {
    /// `slot S`: the boot slot.
    Slot(u32),
    /// `discard`: the image is dropped.
    Discard,
    /// `tries S N`: the boot slot becomes S, on trial for N boots.
    Tries(u32, u32),
    /// `good`: the slot on trial is kept.
    Good,
}

/// Hands the commands to the macro `$help` of a program: how a line names each, and then the lines that a help has for them.
#[macro_export]
macro_rules! command_lines {
    ($help:ident) => {
        $help! {
            ["slot S, tries S N, good, discard"]
            [
                "  slot S     sets the boot slot: 'slot ok K' or 'slot refused K'\n"
                "  discard    drops the image: 'discard ok K' or 'discard refused K'\n"
                "  tries S N  sets the boot slot on trial for N boots, 1 to 7, after which it falls\n             back to the slot before: 'tries ok K' or 'tries refused K'\n"
                "  good       keeps the slot on trial: 'good ok K' or 'good refused K'\n"
            ]
        }
    };
}

impl ConsoleCommand {
    /// The durable command that it is.
    pub fn command(self) -> Command
        ensures { result ≡ command_of self }
    {
        match self {
            ConsoleCommand::Slot(slot) => Command::Slot(slot),
            ConsoleCommand::Discard => Command::Discard,
            ConsoleCommand::Tries(slot, boots) => Command::Tries(slot, boots),
            ConsoleCommand::Good => Command::Good,
        }
    }

    /// The word by which a line names it, and by which it is answered.
    pub fn word(self) -> &'static str
        ensures { result.now ≡ word_of self }
    {
        match self {
            ConsoleCommand::Slot(_) => "slot",
            ConsoleCommand::Discard => "discard",
            ConsoleCommand::Tries(..) => "tries",
            ConsoleCommand::Good => "good",
        }
    }
}
