//! Why a program over a disk's file ends with a fault: the status for it, and the line that says so.

ghost use Rattle.std.specs.Prelude.{◌≡◌, ◌≤◌, Some};
ghost use Rattle.command_line.specs.Faults.{fault_of_kind, fault_text, status_after, without_work};

use crate::NoWork;
use board_model::Refusal;
use std::fmt;
use std::io::ErrorKind;

/// Why the program ends with a fault.
#[derive(Clone, Copy, Drop)]
pub enum ProgramFault {
    /// The command line has a fault, which was told by the command line's own text.
    Usage,
    /// A refusal of the disk, of a boot, of a thread, of memory or of the output.
    Refused(Refusal),
    /// A file could not be read or written.
    File,
}

/// A fault as the program of that name tells it: a whole line, or nothing where it was told before.
#[derive(Clone, Copy, Drop)]
pub struct ToldBy(pub &'static str, pub ProgramFault);

impl fmt::Display for ToldBy {
    ghost output = { λ told. Some (fault_text told.0.now told.1) };

    fn fmt<W: fmt::Write>(&self, f: &mut fmt::Formatter<W>) -> fmt::Result {
        let program = self.0;
        match self.1 {
            ProgramFault::Usage => Ok(()),
            ProgramFault::Refused(refusal) => {
                let code = refusal.code();
                writeln!(f, "{program}: refusal {code}")
            }
            ProgramFault::File => writeln!(f, "{program}: file"),
        }
    }
}

/// The program's status: 0 where it did what it was asked, 2 for a fault of the command line, and 1 for any
/// other.
pub fn status_of(done: &Result<(), ProgramFault>) -> u8
    ensures status { result ≡ status_after done.now }
    ensures range { result ≤ 2 }
{
    match done {
        Ok(()) => 0,
        Err(ProgramFault::Usage) => 2,
        Err(_) => 1,
    }
}

/// What a program does that was asked for no work: nothing more where what it was asked for was shown.
pub fn without_work(why: NoWork) -> Result<(), ProgramFault>
    ensures { result ≡ without_work why }
{
    match why {
        NoWork::Shown => Ok(()),
        NoWork::Usage => Err(ProgramFault::Usage),
        NoWork::Memory => Err(ProgramFault::Refused(Refusal::Memory)),
    }
}

/// The fault of a file that could not be read or written, for an error of that kind: a refusal where it was memory
/// that was refused.
pub fn file_fault(why: ErrorKind) -> ProgramFault
    ensures { result ≡ fault_of_kind why }
{
    if why == ErrorKind::OutOfMemory {
        ProgramFault::Refused(Refusal::Memory)
    } else {
        ProgramFault::File
    }
}
