//! What is said of a turn or a call of a hart, where the store is at hand.

ghost use Rattle.std.specs.Prelude.{◌≡◌};
ghost use Rattle.sbi.specs.Words.{ends, life_goes_on};

use crate::resets::ResetType;
use sbi_calls::Did;

/// How a call of a hart ended the life, once its command was acknowledged.
#[derive(Clone, Copy, PartialEq, Eq, Drop)]
pub enum LifeEnd {
    /// The board sleeps, and its image is durable.
    Asleep,
    /// The board is reset.
    Reset(ResetType),
}

/// What is said of a turn or a call of a hart, where the store is at hand (docs/BOARD.md).
#[derive(Clone, Copy, PartialEq, Eq, Drop)]
pub enum Word {
    /// What the hart did. The life goes on.
    Goes(Did),
    /// The life is over.
    Over(LifeEnd),
}

impl Word {
    /// Whether the life goes on.
    pub fn goes_on(self) -> bool
        ensures { result ≡ life_goes_on self }
    {
        match self {
            Word::Goes(_) => true,
            Word::Over(_) => false,
        }
    }

    /// Whether no turn of the hart follows in a line: it stopped, the board dozes, or the life is over.
    pub fn ends_row(self) -> bool
        ensures { result ≡ ends self }
    {
        match self {
            Word::Goes(did) => did.ends_row(),
            Word::Over(_) => true,
        }
    }
}
