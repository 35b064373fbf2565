//! What a session's console reads and writes: lines that are typed, and answers that are seen one by one.

use crate::streams::{Input, Output};
use board_session::Answers;
use std::io::{self, ErrorKind, Read, Write};
use std::thread;
use std::time::{Clock, Duration};

/// An input that is typed: each byte comes by itself, a millisecond after a read that was interrupted.
#[derive(Drop)]
pub struct Typed<'a, R> {
    clock: &'a R,
    input: Input<'a>,
    is_interrupted: bool,
}

impl<'a, R: Clock> Typed<'a, R> {
    /// The bytes of that input, typed.
    pub fn new(clock: &'a R, input: Input<'a>) -> Typed<'a, R> {
        Typed {
            clock,
            input,
            is_interrupted: false,
        }
    }
}

impl<R: Clock> Read for Typed<'_, R> {
    fn read(&mut self, buf: &mut [u8]) -> io::Result<usize> {
        self.is_interrupted = !self.is_interrupted;
        if self.is_interrupted {
            thread::sleep(self.clock, Duration::from_millis(1));
            return Err(io::Error::from(ErrorKind::Interrupted));
        }
        let room = buf.len().min(1);
        self.input.read(&mut buf[..room])
    }
}

/// An output for answers. Each has to come by one write, with its line feed, and to be flushed before the next.
#[derive(Drop)]
pub struct Screen {
    pub shown: Output,
    is_waiting: bool,
}

impl Screen {
    /// A screen that shows what the output takes.
    pub fn new(shown: Output) -> Screen {
        Screen {
            shown,
            is_waiting: false,
        }
    }
}

/// Whether the bytes are one line, with its line feed.
fn is_line(bytes: &[u8]) -> bool {
    match bytes.strip_suffix(b"\n") {
        Some(line) => !line.contains(&b'\n'),
        None => false,
    }
}

impl Write for Screen {
    fn write(&mut self, buf: &[u8]) -> io::Result<usize> {
        if self.is_waiting || !is_line(buf) {
            return Err(io::Error::other("no answer that is whole and seen"));
        }
        self.is_waiting = true;
        self.shown.write(buf)
    }

    fn flush(&mut self) -> io::Result<()> {
        self.is_waiting = false;
        Ok(())
    }
}

impl Answers for Screen {
    fn begin(&mut self, _is_synced: bool) {}
}
