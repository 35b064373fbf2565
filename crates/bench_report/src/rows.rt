//! A row of turns of a hart, by what it did.

ghost use Rattle.std.specs.Prelude.{◌≡◌, ◌<◌, ◌+◌, ◌^◌};
ghost use Rattle.bench_report.specs.Rows.{goes_on, is_idle, is_idle_row, is_off, last_of, made_in, row_answer, row_then};

use board_model::HartId;
use machine::{Did, MachineLine, Word};
use report_lines::{Answer, Printed};

/// What a row of turns of a hart did.
#[derive(Clone, Copy, Drop)]
pub enum TurnRow {
    /// The board is off, or has no such hart, and nothing was done.
    Off,
    /// So many turns were made. The word says what the last one did.
    Made(u32, Word),
    /// So many turns were made. An armed cut struck in the last one, and power is lost.
    Lost(u32),
}

impl TurnRow {
    /// What the line `turn` of these turns answers.
    pub fn answer(self, hart: HartId) -> Answer
        ensures { result ≡ row_answer hart self }
    {
        let line = match self {
            TurnRow::Off => Printed::Shown(MachineLine::Off),
            TurnRow::Made(count, word) => Printed::Shown(MachineLine::Turn(hart, count, word)),
            TurnRow::Lost(_) => Printed::PowerLost,
        };
        Answer { found: None, line }
    }

    /// Whether no turn was made.
    pub fn is_off(self) -> bool
        ensures { result ≡ is_off self }
    {
        match self {
            TurnRow::Off => true,
            TurnRow::Made(_, _) | TurnRow::Lost(_) => false,
        }
    }

    /// Whether the last turn was idle.
    pub fn is_idle(self) -> bool
        ensures { result ≡ is_idle_row self }
    {
        match self {
            TurnRow::Made(_, word) => is_idle(word),
            TurnRow::Off | TurnRow::Lost(_) => false,
        }
    }

    /// Whether a further turn of the hart belongs to this row: the row has not ended.
    pub fn goes_on(self) -> bool
        ensures { result ≡ goes_on self }
    {
        match self {
            TurnRow::Made(_, word) => !word.ends_row(),
            TurnRow::Off | TurnRow::Lost(_) => false,
        }
    }

    /// The last of these turns alone.
    pub fn last(self) -> TurnRow
        ensures { result ≡ last_of self }
    {
        match self {
            TurnRow::Off => TurnRow::Off,
            TurnRow::Made(_, word) => TurnRow::Made(1, word),
            TurnRow::Lost(_) => TurnRow::Lost(1),
        }
    }

    /// This row and the next one, as one row.
    pub fn then(self, next: TurnRow) -> TurnRow
        requires { made_in self + made_in next < 2 ^ 32 }
        ensures { result ≡ row_then self next }
    {
        match next {
            TurnRow::Off => self,
            TurnRow::Made(count, word) => TurnRow::Made(self.made() + count, word),
            TurnRow::Lost(count) => TurnRow::Lost(self.made() + count),
        }
    }

    /// How many turns were made.
    pub fn made(self) -> u32
        ensures { result ≡ made_in self }
    {
        match self {
            TurnRow::Off => 0,
            TurnRow::Made(count, _) | TurnRow::Lost(count) => count,
        }
    }
}

/// Whether a hart had nothing to do, and its turn changed nothing.
pub fn is_idle(word: Word) -> bool
    ensures { result ≡ is_idle word }
{
    word == Word::Goes(Did::Idle)
}
