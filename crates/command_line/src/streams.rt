//! The standard streams, whose numbers no other file is given.

use std::fs::File;

/// What takes no byte and has none.
const NOTHING: &str = "/dev/null";

/// The numbers of the standard streams, held for as long as this value is there.
#[derive(Drop)]
pub struct HeldStreams {
    input: Option<File>,
    output: Option<File>,
    faults: Option<File>,
}

/// Holds the numbers of the three standard streams. A program calls it before it opens anything, and keeps the value to its end.
///
/// The system gives a file the lowest number that is free. So the file of a disk would stand for a stream that was closed when
/// the program began: its bytes would be read as input, or what is told would be written over it. Here such a stream is
/// `/dev/null` for reading alone: an input is at its end, and each write is refused.
pub fn hold_streams(rt: &HostRuntime) -> HeldStreams {
    let mut held = || File::open(rt, NOTHING).ok();
    HeldStreams {
        input: held(),
        output: held(),
        faults: held(),
    }
}
