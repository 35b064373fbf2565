//! A writer that knows whether its reader is gone.

ghost use Rattle.std.specs.Prelude.{◌≡◌, IfErr, OnOk, false};
ghost use Rattle.std.specs.Io.KnownBytes.{Keeps, WriteAppends};
ghost use Rattle.std.specs.Io.{WritesAtMost};
ghost use Rattle.command_line.specs.Pipes.{is_closed_pipe, pipe_contents, pipe_inner, ClosesBy};

use std::io::{self, ErrorKind, Write};

/// A writer that notes whether a write failed since nobody reads what it writes.
#[derive(Drop)]
pub struct Pipe<W: Write + Drop> {
    inner: W,
    closed: bool,
}

impl<W: Write + Drop> Pipe<W> {
    pub fn new(inner: W) -> Pipe<W>
        ensures inner { pipe_inner result ≡ inner }
        ensures open { is_closed_pipe result ≡ false }
    {
        Pipe {
            inner,
            closed: false,
        }
    }

    /// What it writes to.
    pub fn get_ref(&self) -> &W
        ensures { result.now ≡ pipe_inner self.now }
    {
        &self.inner
    }

    /// Whether a write failed since the reader is gone.
    pub fn is_closed(&self) -> bool
        ensures { result ≡ is_closed_pipe self.now }
    {
        self.closed
    }

    fn note(&mut self, e: io::Error) -> io::Error
        ensures error { result ≡ e }
        ensures inner { pipe_inner self.new ≡ pipe_inner self.old }
        ensures closed { ClosesBy e self.old self.new }
    {
        if e.kind() == ErrorKind::BrokenPipe {
            self.closed = true;
        }
        e
    }
}

impl<W: Write + Drop> Write for Pipe<W> {
    ghost contents = { pipe_contents W.contents };

    fn write(&mut self, buf: &[u8]) -> io::Result<usize>
        ensures bound { WritesAtMost result buf.now }
        ensures bytes { WriteAppends (pipe_contents W.contents self.old) (pipe_contents W.contents self.new) result buf.now }
        ensures open { OnOk result (is_closed_pipe self.new ≡ is_closed_pipe self.old) }
        ensures closed { IfErr result (λ e. ClosesBy e self.old self.new) }
    {
        match self.inner.write(buf) {
            Ok(n) => Ok(n),
            Err(e) => Err(self.note(e)),
        }
    }

    fn flush(&mut self) -> io::Result<()>
        ensures bytes { Keeps (pipe_contents W.contents self.old) (pipe_contents W.contents self.new) }
        ensures open { OnOk result (is_closed_pipe self.new ≡ is_closed_pipe self.old) }
        ensures closed { IfErr result (λ e. ClosesBy e self.old self.new) }
    {
        match self.inner.flush() {
            Ok(()) => Ok(()),
            Err(e) => Err(self.note(e)),
        }
    }
}
