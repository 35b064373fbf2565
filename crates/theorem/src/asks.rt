//! What is asked of a disk in a story, and what is seen.

use board_model::{Command, Durable, Refusal};
use disk::ArmedFault;
use hart::Hart;
use ram::Ram;
use simdisk::Fill;
use store::{Receipt, Resumption};

/// What is asked of a disk.
#[derive(Drop)]
pub enum Asked {
    /// It is opened. A life that was going on ends.
    Open,
    /// This command is issued.
    Command(Command),
    /// This memory is suspended, to be resumed there.
    Suspend(Ram, Resumption),
    /// The memory of the image that stands is read.
    Load,
    /// A board goes on with the image that stands.
    Resume,
    /// This fault is armed, in place of an older one.
    Arm(ArmedFault),
    /// Power fails, and leaves this.
    Cut(Fill),
}

/// What is seen then.
#[derive(Drop)]
pub enum Seen {
    /// The open told this state.
    Opened(Durable),
    /// The command or the suspension was acknowledged.
    Acked(Receipt),
    /// This memory was read.
    Read(Ram),
    /// A board goes on: its one STARTED hart, and its memory.
    Woke(Hart, Ram),
    /// The call was refused. A command that was refused `Down` is in doubt.
    Denied(Refusal),
    /// No store is open, and nothing was done.
    NotOpen,
    /// It is armed, or power failed.
    Done,
}
