//! Why a call was refused.

ghost use Rattle.std.specs.Prelude.{◌≡◌, ◌≢◌, ◌⊎◌, ℕ};
ghost use Rattle.std.specs.IoError.{error_kind};
ghost use Rattle.board_model.specs.Views.{number_of_refusal};
ghost use Rattle.board_model.specs.declared.refusal.Refusal.TheVariants.{Memory};

use std::alloc::{AllocError, AllocFailed};
use std::io::{self, ErrorKind};
use thiserror::Error;

/// Why a call was refused. What stands after each refusal is said at the calls, and in docs/REFUSALS.md.
#[derive(Clone, Copy, Debug, PartialEq, Eq, Drop, Error)]
pub enum Refusal {
    #[error("the disk is not formatted")]
    NotFormatted,
    #[error("the disk is formatted already")]
    AlreadyFormatted,
    #[error("a number of the shape is out of its range, or the disk, the payload or the RAM does not fit the shape")]
    BadShape,
    #[error("the selected record is not in its form")]
    BadRecord,
    #[error("the device failed, and the durable state is unchanged")]
    Device,
    #[error("the fate of a command is in doubt until the disk is opened again")]
    Down,
    #[error("this life has ended by a reset or a suspension")]
    Over,
    #[error("no image stands")]
    NoImage,
    #[error("the boot slot is above 3")]
    BadSlot,
    #[error("the journal of this life is full")]
    JournalFull,
    #[error("memory was refused")]
    Memory,
    #[error("every serial has been given out")]
    SerialsSpent,
    #[error("a place of the image is not in its form")]
    BadImage,
    #[error("line {0} of the script is not in its form")]
    BadScript(u64),
    #[error("an image stands, and a fresh boot would leave it behind")]
    ImageThere,
    #[error("the report could not be written")]
    Output,
    #[error("the script has a line that no bench runs, or formats no disk")]
    NotPlain,
    #[error("the board does not doze, or was woken already")]
    NotDozing,
    #[error("a trial has 1 to 7 boots")]
    BadTries,
    #[error("no trial of a boot slot stands")]
    NoTrial,
}

/// Hands the refusals to the macro `$help` of a program, in the order of their numbers: an empty list, and then of
/// each refusal its name and the line that a help has for it. Such a macro goes from row to row, and puts into the
/// list the row's line, the program's own line for that refusal, or none where the program never answers it; where no
/// row is left it makes the text of the list. So a program's help says of the refusals only what is its own. What is given
/// after the macro's name stands before all that.
#[macro_export]
macro_rules! refusal_lines {
    ($help:ident $($given:tt)*) => {
        $help! {
            $($given)*
            []
            [NotFormatted "   1  the disk is not formatted\n"]
            [AlreadyFormatted "   2  the disk is formatted already\n"]
            [BadShape "   3  a number of the shape is out of its range, or the disk, the payload or\n      the RAM does not fit the shape\n"]
            [BadRecord "   4  the selected record is not in its form\n"]
            [Device "   5  the device failed, and the durable state is unchanged\n"]
            [Down "   6  the fate of a command is in doubt until the disk is opened again\n"]
            [Over "   7  this life has ended by a reset or a suspension\n"]
            [NoImage "   8  no image stands\n"]
            [BadSlot "   9  the boot slot is above 3\n"]
            [JournalFull "  10  the journal of this life is full\n"]
            [Memory "  11  memory was refused\n"]
            [SerialsSpent "  12  every serial has been given out\n"]
            [BadImage "  13  a place of the image is not in its form\n"]
            [BadScript "  14  line K of the script is not in its form\n"]
            [ImageThere "  15  an image stands, and a fresh boot would leave it behind\n"]
            [Output "  16  the report could not be written\n"]
            [NotPlain "  17  the script has a line that no bench runs, or formats no disk\n"]
            [NotDozing "  18  the board does not doze, or was woken already\n"]
            [BadTries "  19  a trial has 1 to 7 boots\n"]
            [NoTrial "  20  no trial of a boot slot stands\n"]
        }
    };
}

impl Refusal {
    /// The number of the refusal, as reports and fault texts print it (docs/REFUSALS.md).
    pub fn code(self) -> u32
        ensures { result ≡ number_of_refusal self }
    {
        match self {
            Refusal::NotFormatted => 1,
            Refusal::AlreadyFormatted => 2,
            Refusal::BadShape => 3,
            Refusal::BadRecord => 4,
            Refusal::Device => 5,
            Refusal::Down => 6,
            Refusal::Over => 7,
            Refusal::NoImage => 8,
            Refusal::BadSlot => 9,
            Refusal::JournalFull => 10,
            Refusal::Memory => 11,
            Refusal::SerialsSpent => 12,
            Refusal::BadImage => 13,
            Refusal::BadScript(_) => 14,
            Refusal::ImageThere => 15,
            Refusal::Output => 16,
            Refusal::NotPlain => 17,
            Refusal::NotDozing => 18,
            Refusal::BadTries => 19,
            Refusal::NoTrial => 20,
        }
    }
}

impl From<AllocError> for Refusal {
    ghost from_gives = { λ _ e. e ≡ Memory };

    fn from(_e: AllocError) -> Refusal {
        Refusal::Memory
    }
}

impl<T: Drop> From<AllocFailed<T>> for Refusal {
    ghost from_gives = { λ _ e. e ≡ Memory };

    fn from(_e: AllocFailed<T>) -> Refusal {
        Refusal::Memory
    }
}

/// Why a line was not written: `Memory` (11) where the writer was refused memory, and else `Output` (16), as docs/REFUSALS.md has them.
pub fn unwritten(error: io::Error) -> Refusal
    ensures { ((error_kind error ≡ ErrorKind.OutOfMemory) × (result ≡ Refusal.Memory))
        ⊎ ((error_kind error ≢ ErrorKind.OutOfMemory) × (result ≡ Refusal.Output)) }
{
    if error.kind() == ErrorKind::OutOfMemory {
        Refusal::Memory
    } else {
        Refusal::Output
    }
}
