//! Hints for a person at a terminal, on standard error.

ghost use Rattle.std.specs.Io.KnownBytes.{Keeps, WriteAppends};
ghost use Rattle.std.specs.Io.{WritesAtMost};

use arrayvec::ArrayVec;
use board_model::command_lines;
use std::io::{self, IsTerminal, Read, Write};

macro_rules! welcome {
    ([$names:literal] [$($line:literal)*]) => {
        concat!(
            $names,
            ", state, wake, quit: a line each.
'quit' or Ctrl-D ends the session.",
        )
    };
}

const WELCOME: &str = command_lines!(welcome);

const UNSYNCED: &str = "\
Ctrl-C would lose what was acknowledged: the disk's file is written at the end (--sync).";

macro_rules! unknown {
    ([$names:literal] [$($line:literal)*]) => {
        concat!("? is no answer but to: ", $names, ", state, wake, quit.")
    };
}

const UNKNOWN: &str = command_lines!(unknown);

const OVER: &str = "\
7: the guest has ended this life by a reset or a suspension. 'quit' ends the session.";

const ENDED: &str = "\
The input has ended. Harts that run on make the turns that they have left (--turns); Ctrl-C ends them.";

/// A writer of answers that explains some of them to a person at a terminal.
#[derive(Drop)]
pub struct Hints<'a, W: Write + Drop> {
    inner: W,
    rt: &'a HostRuntime,
    is_on: bool,
    line: ArrayVec<u8, 64>,
}

impl<'a, W: Write + Drop> Hints<'a, W> {
    /// Hints are given only where lines are typed at a terminal and standard error is one too. The first of them says how to
    /// leave.
    pub fn new(rt: &'a HostRuntime, inner: W, is_synced: bool) -> Hints<'a, W> {
        let is_on = rt.stdin().is_terminal() && rt.stderr().is_terminal();
        if is_on {
            let _told = eprintln!(rt; "{WELCOME}");
            if !is_synced {
                let _told = eprintln!(rt; "{UNSYNCED}");
            }
        }
        Hints {
            inner,
            rt,
            is_on,
            line: ArrayVec::new(),
        }
    }
}

/// Gives the hint for an answer, where there is one.
fn explain(rt: &HostRuntime, answer: &[u8]) {
    if answer == b"?".as_slice() {
        let _told = eprintln!(rt; "{UNKNOWN}");
    } else if answer.ends_with(b" refused 7") {
        let _told = eprintln!(rt; "{OVER}");
    }
}

/// Takes in bytes that were written, and gives the hint for each answer that they end. `line` holds the answer so far.
fn follow(rt: &HostRuntime, line: &mut ArrayVec<u8, 64>, written: &[u8]) {
    for byte in written {
        if *byte == b'\n' {
            explain(rt, line.as_slice());
            line.clear();
        } else if !line.is_full() {
            line.push(*byte);
        }
    }
}

impl<'a, W: Write + Drop> Write for Hints<'a, W> {
    ghost contents = { λ h. W.contents h.inner };

    fn write(&mut self, buf: &[u8]) -> io::Result<usize>
        ensures bound { WritesAtMost result buf.now }
        ensures bytes { WriteAppends (W.contents self.old.inner) (W.contents self.new.inner) result buf.now }
    {
        let count = self.inner.write(buf)?;
        if self.is_on {
            follow(self.rt, &mut self.line, &buf[..count]);
        }
        Ok(count)
    }

    fn flush(&mut self) -> io::Result<()>
        ensures bytes { Keeps (W.contents self.old.inner) (W.contents self.new.inner) }
    {
        self.inner.flush()
    }
}

/// A reader of lines that tells a person at a terminal that the input has ended. The harts may still run then.
#[derive(Drop)]
pub struct EndHint<'a, R: Read + Drop> {
    inner: R,
    rt: &'a HostRuntime,
    is_on: bool,
}

impl<'a, R: Read + Drop> EndHint<'a, R> {
    /// The hint is given only where lines are typed at a terminal and standard error is one too.
    pub fn new(rt: &'a HostRuntime, inner: R) -> EndHint<'a, R> {
        let is_on = rt.stdin().is_terminal() && rt.stderr().is_terminal();
        EndHint { inner, rt, is_on }
    }
}

impl<'a, R: Read + Drop> Read for EndHint<'a, R> {
    ghost remaining = { λ h. R.remaining h.inner };

    fn read(&mut self, buf: &mut [u8]) -> io::Result<usize> {
        let read = self.inner.read(buf)?;
        if read == 0 && self.is_on && !buf.is_empty() {
            let _told = eprintln!(self.rt; "{ENDED}");
            self.is_on = false;
        }
        Ok(read)
    }
}
