//! What the words of a command line ask for.

ghost use Rattle.std.specs.Prelude.{◌<◌, string_len};
ghost use Rattle.board_session.specs.Limits.{AreTurns};

use board_files::BlockSize;
use board_model::{BootMode, Shape};

/// Which numbers of the shape stand on the command line. The others have their defaults.
#[derive(Clone, Copy)]
pub struct ShapeGiven {
    pub harts: bool,
    pub pages: bool,
    pub lanes: bool,
}

/// The board that the command line asks for, and its files.
#[derive(Drop)]
pub struct Options {
    /// The disk's file.
    pub disk: String,
    /// How the board is powered on.
    pub mode: BootMode,
    /// Whether a blank disk of the shape is made and formatted. Else the disk is read from its file, and the shape is what
    /// the file says.
    pub new: bool,
    /// Whether each sync of the disk waits for its file. Else the file is written at the end.
    pub sync: bool,
    /// Whether standard error tells how each hart ended. At a terminal it does in any case.
    pub tell: bool,
    /// The shape of a new disk.
    pub shape: Shape,
    /// The block in which each sector of a new disk lies; of 512 bytes where they lie one after the other.
    pub block: BlockSize,
    /// Which numbers of the shape stand on the command line.
    pub given: ShapeGiven,
    /// The file of each boot slot's payload, where one is named. The others are empty.
    pub payloads: [Option<String>; 4],
    /// How many turns each hart makes at most, 1 to 1,000,000,000.
    pub turns: u64,
    ghost path: { 0 < string_len disk },
    ghost range: { AreTurns turns },
}
