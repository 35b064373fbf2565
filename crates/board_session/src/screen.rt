//! The terminal of the system, on which a person may be told what to type.

ghost use Rattle.std.specs.Prelude.{None};

use crate::Hints;
use crate::answers::Answers;
use std::io::{self, Printer, Write};

/// Standard output, with hints on standard error once the console of a session has begun.
#[derive(Drop)]
pub struct Screen<'a> {
    rt: &'a HostRuntime,
    hints: Option<Hints<'a, Printer<'a, HostRuntime>>>,
}

impl<'a> Screen<'a> {
    /// No console has begun, and so no hint is given.
    pub fn new(rt: &'a HostRuntime) -> Screen<'a> {
        Screen { rt, hints: None }
    }
}

impl<'a> Write for Screen<'a> {
    ghost contents = { λ screen. None };

    fn write(&mut self, buf: &[u8]) -> io::Result<usize> {
        match &mut self.hints {
            Some(hints) => hints.write(buf),
            None => io::writer(self.rt).write(buf),
        }
    }

    fn flush(&mut self) -> io::Result<()> {
        match &mut self.hints {
            Some(hints) => hints.flush(),
            None => io::writer(self.rt).flush(),
        }
    }
}

impl<'a> Answers for Screen<'a> {
    fn begin(&mut self, is_synced: bool) {
        self.hints = Some(Hints::new(self.rt, io::writer(self.rt), is_synced));
    }
}
