//! The lines of a report.

ghost use Rattle.std.specs.Prelude.{◌≡◌, ◌++◌, Some};
ghost use Rattle.std.specs.Fmt.{WritesOnOk, decimal};
ghost use Rattle.script_lang.specs.Lines.{mode_text};
ghost use Rattle.report_lines.specs.Texts.{line_text};
ghost use lib.Chars.{codes};

use crate::InspectionText;
use board_model::{BootMode, ConsoleCommand, Durable};
use machine::MachineLine;
use std::fmt;
use store::Inspection;

/// The last line that a line of a script makes, or the line of its board.
#[derive(Clone, Copy, PartialEq, Eq)]
pub enum Printed {
    /// `board H/P/L sectors N`
    Board(u32, u32, u32, usize),
    /// `format ok`
    Formatted,
    /// `format refused N`
    FormatRefused(u32),
    /// `on MODE`
    On(BootMode),
    /// `on refused N`
    OnRefused(u32),
    /// `slot ok N`, or by the word of another command of the console: its place among those of this life.
    Acknowledged(ConsoleCommand, u32),
    /// `slot refused N`, or by the word of another command
    CommandRefused(ConsoleCommand, u32),
    /// `cut`
    Cut,
    /// `armed`: a cut or a failure is armed.
    Armed,
    /// `power lost`: an armed cut struck within the line.
    PowerLost,
    /// `busy`: not while the board is on.
    Busy,
    /// `off`: not while the board is off.
    Off,
    /// What a line shows of memory and harts, or of the payloads.
    Shown(MachineLine),
    /// `poked`: the disk was written past the firmware.
    Poked,
    /// `inspect gate G live Y other Z image I`: what stands on the disk.
    Inspected(Inspection),
    /// `inspect refused N`
    InspectRefused(u32),
    /// `wake ok`: a board that slept to RAM is woken.
    Woken,
    /// `wake refused N`
    WakeRefused(u32),
}

/// All lines that a line of a script makes.
#[derive(Clone, Copy, PartialEq, Eq)]
pub struct Answer {
    /// What an open found, which is a line of its own before the other.
    pub found: Option<Durable>,
    pub line: Printed,
}

/// The word of a mode.
fn mode_name(mode: BootMode) -> &'static str
    ensures { result.now ≡ mode_text mode }
{
    match mode {
        BootMode::Fresh => "fresh",
        BootMode::Keep => "keep",
        BootMode::Discard => "discard",
        BootMode::Resume => "resume",
    }
}

/// `WORD ok N` or `WORD refused N`: `how` is the word in the middle.
fn write_numbered<W: fmt::Write>(
    f: &mut fmt::Formatter<W>,
    word: &str,
    how: &str,
    n: u32,
) -> fmt::Result
    ensures { WritesOnOk W.write_str_gives f.old result (word.now ++ codes " " ++ how.now ++ codes " " ++ decimal n) f.new }
{
    write!(f, "{word} {how} {n}")
}

impl fmt::Display for Printed {
    ghost output = { λ p. Some (line_text p) };

    fn fmt<W: fmt::Write>(&self, f: &mut fmt::Formatter<W>) -> fmt::Result {
        match *self {
            Printed::Board(harts, pages, lanes, sectors) => {
                write!(f, "board {harts}/{pages}/{lanes} sectors {sectors}")
            }
            Printed::Formatted => f.write_str("format ok"),
            Printed::FormatRefused(n) => write_numbered(f, "format", "refused", n),
            Printed::On(mode) => write!(f, "on {}", mode_name(mode)),
            Printed::OnRefused(n) => write_numbered(f, "on", "refused", n),
            Printed::Acknowledged(command, n) => write_numbered(f, command.word(), "ok", n),
            Printed::CommandRefused(command, n) => {
                write_numbered(f, command.word(), "refused", n)
            }
            Printed::Cut => f.write_str("cut"),
            Printed::Armed => f.write_str("armed"),
            Printed::PowerLost => f.write_str("power lost"),
            Printed::Busy => f.write_str("busy"),
            Printed::Off => f.write_str("off"),
            Printed::Shown(shown) => fmt::Display::fmt(&shown, f),
            Printed::Poked => f.write_str("poked"),
            Printed::Inspected(inspection) => {
                let text = InspectionText(inspection);
                write!(f, "inspect {text}")
            }
            Printed::InspectRefused(n) => write_numbered(f, "inspect", "refused", n),
            Printed::Woken => f.write_str("wake ok"),
            Printed::WakeRefused(n) => write_numbered(f, "wake", "refused", n),
        }
    }
}
