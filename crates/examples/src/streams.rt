//! Streams in memory that fail as a process's own may: an input that fails in the place of its end, an output
//! that takes so many bytes and no more.

use std::alloc::Global;
use std::io::{self, ErrorKind, IsTerminal, Read, Write};

/// An input of these bytes.
#[derive(Drop)]
pub struct Input<'a> {
    left: &'a [u8],
    fails: bool,
}

impl<'a> Input<'a> {
    /// An input that ends after the bytes, or fails there.
    pub fn new(bytes: &'a [u8], fails: bool) -> Input<'a> {
        Input { left: bytes, fails }
    }
}

impl Read for Input<'_> {
    fn read(&mut self, buf: &mut [u8]) -> io::Result<usize> {
        if self.fails && self.left.is_empty() {
            return Err(io::Error::from(ErrorKind::ConnectionReset));
        }
        self.left.read(buf)
    }
}

/// How much an output takes, why it takes no more, and whether it is a terminal.
#[derive(Clone, Copy, Drop)]
pub struct Room {
    pub bytes: usize,
    pub fault: ErrorKind,
    pub is_terminal: bool,
}

/// A stream that takes all.
pub const ALL: Room = Room {
    bytes: usize::MAX,
    fault: ErrorKind::StorageFull,
    is_terminal: false,
};

/// An output that keeps what it takes.
#[derive(Drop)]
pub struct Output {
    taken: Vec<u8>,
    room: Room,
}

impl Output {
    /// An output that has taken nothing yet.
    pub fn new(alloc: Global, room: Room) -> Output {
        Output {
            taken: Vec::new(alloc),
            room,
        }
    }

    /// What it took.
    pub fn taken(&self) -> &[u8] {
        self.taken.as_slice()
    }
}

impl Write for Output {
    fn write(&mut self, buf: &[u8]) -> io::Result<usize> {
        if self.room.bytes == 0 {
            return Err(io::Error::from(self.room.fault));
        }
        let count = buf.len().min(self.room.bytes);
        self.taken.extend_from_slice(&buf[..count])?;
        self.room.bytes -= count;
        Ok(count)
    }

    fn flush(&mut self) -> io::Result<()> {
        Ok(())
    }
}

impl IsTerminal for Output {
    fn is_terminal(&self) -> bool {
        self.room.is_terminal
    }
}
