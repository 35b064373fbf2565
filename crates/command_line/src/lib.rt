//! The command line of a program: its words are read, and what it asks to be shown, or its fault, is shown; and
//! the faults with which a program over a disk's file ends.
#![tactic(auto)]

mod fault;
mod files;
mod flags;
mod heap;
mod options;
mod parses;
mod pipe;
mod programs;
mod reads;
mod streams;
mod written;

ghost use Rattle.std.specs.Prelude.{◌≡◌};
ghost use Rattle.clap.specs.Values.{kind_of};
ghost use Rattle.command_line.specs.Kinds.{no_work};
ghost use Rattle.command_line.specs.declared.NoWork.TheVariants as NoWork;

pub use crate::fault::{ProgramFault, ToldBy, file_fault, status_of, without_work};
pub use crate::files::{
    FileFault, end_with, explain_fault, first_of, not_regular, open_regular, read_file, tell_fault,
};
pub use crate::flags::flag;
pub use crate::heap::keep_heap;
pub use crate::options::{
    number, option, path, path_given, payload_paths, with_payloads, with_two,
};
pub use crate::parses::{out_of_range, parse, release, value_fault};
pub use crate::pipe::Pipe;
pub use crate::programs::program;
pub use crate::reads::read_at_most;
pub use crate::streams::{HeldStreams, hold_streams};
pub use crate::written::write_to_end;
use clap::Error;
use clap::error::ErrorKind;
use std::io::Write;
use std::{env, io};

/// Why a command line asks for no work.
#[derive(Clone, Copy, Drop)]
pub enum NoWork {
    /// The help or the version was asked for, and was shown.
    Shown,
    /// The command line has a fault, which was told on standard error.
    Usage,
    /// Memory was refused.
    Memory,
}

/// The words of the command line, the program's name first. A word that is no text is a fault of the command
/// line, and is told with the usage, as `clap` tells the other faults.
pub fn words(rt: &HostRuntime, usage: &str) -> Result<Vec<String>, NoWork> {
    match words_in(rt) {
        Ok(words) => Ok(words),
        Err(e) if e.kind() == io::ErrorKind::InvalidData => {
            let _told = eprint!(rt;
                "error: invalid UTF-8 was detected in one or more arguments\n\n\
                Usage: {usage}\n\n\
                For more information, try '--help'.\n"
            );
            Err(NoWork::Usage)
        }
        Err(_) => Err(NoWork::Memory),
    }
}

/// The words, as the host gives them.
fn words_in(rt: &HostRuntime) -> io::Result<Vec<String>> {
    let words = env::args(rt)?.collect(rt.alloc())?;
    Ok(words)
}

/// Shows what the command line's own text says: the help and the version on standard output, a fault on
/// standard error, as [`show_on`] does.
pub fn show(rt: &HostRuntime, text: &Error) -> NoWork
    ensures { result ≡ no_work (kind_of text.now) }
{
    show_on(&mut io::writer(rt), &mut rt.stderr(), text)
}

/// Shows what the command line's own text says: the help and the version on the first writer, a fault on the
/// second. Where nobody reads it, nothing is said of that: the status tells. Where memory was refused nothing
/// is shown.
pub fn show_on<O: Write, F: Write>(out: &mut O, faults: &mut F, text: &Error) -> NoWork
    ensures why { result ≡ no_work (kind_of text.now) }
    ensures out { (result ≡ NoWork.Shown → ⊥) → out.new ≡ out.old }
    ensures faults { (result ≡ NoWork.Usage → ⊥) → faults.new ≡ faults.old }
{
    match no_work(text.kind()) {
        NoWork::Shown => {
            let _shown = write_whole(out, text);
            NoWork::Shown
        }
        NoWork::Usage => {
            let _shown = write_whole(faults, text);
            NoWork::Usage
        }
        NoWork::Memory => NoWork::Memory,
    }
}

/// Writes the text, and what the writer held back of it.
fn write_whole<W: Write>(out: &mut W, text: &Error) -> io::Result<()> {
    write!(out, "{text}")?;
    out.flush()
}

/// Why a command line with an error of this kind asks for no work.
fn no_work(kind: ErrorKind) -> NoWork
    ensures { result ≡ no_work kind }
{
    match kind {
        ErrorKind::DisplayHelp | ErrorKind::DisplayVersion => NoWork::Shown,
        ErrorKind::OutOfMemory => NoWork::Memory,
        _ => NoWork::Usage,
    }
}
