//! Files: what is no regular file is never waited for, and a fault says which file and why.

ghost use Rattle.std.specs.Prelude.{◌≡◌, ◌≤◌};
ghost use Rattle.std.specs.IoError.{error_kind};
ghost use Rattle.command_line.specs.Faults.{fault_of_kind, first_fault, status_after};
ghost use Rattle.command_line.specs.Told.{HasCauseOf, HasFileOf, fault_of, tells_loss};
ghost use Rattle.command_line.specs.declared.fault.ProgramFault.TheVariants.{Refused};

use crate::fault::{ProgramFault, ToldBy, file_fault, status_of};
use crate::reads::read_at_most;
use board_model::Refusal;
use std::alloc::Global;
use std::fmt::Display;
use std::fs::{self, File, OpenOptions};
use std::io::{self, IsTerminal, Write};
use thiserror::Error;

/// A fault of a program over files; of a file's fault which file it was, and why, and of a refusal which of its causes.
#[derive(Drop)]
pub struct FileFault {
    /// The fault.
    pub fault: ProgramFault,
    reason: Option<FaultReason>,
    cause: Option<&'static str>,
    is_loss: bool,
}

/// Which file could not be read or written, and what the system says of it.
#[derive(Debug, Drop, Error)]
#[error("{path}: {why}")]
struct FaultReason {
    path: String,
    why: io::Error,
}

impl FileFault {
    /// The file of that path could not be read or written. It is a refusal where it was memory that was refused; no
    /// reason is kept where there is no memory for it.
    pub fn new(alloc: Global, path: &str, why: io::Error) -> FileFault
        ensures { result.fault ≡ fault_of_kind (error_kind why) }
    {
        let fault = file_fault(why.kind());
        let reason = match path.to_string(alloc) {
            Ok(path) => Some(FaultReason { path, why }),
            Err(_) => None,
        };
        FileFault {
            fault,
            reason,
            cause: None,
            is_loss: false,
        }
    }

    /// This fault, of a refusal that has several causes, by the words for the one.
    pub fn caused_by(self, cause: &'static str) -> FileFault
        ensures fault { result.fault ≡ self.fault }
        ensures file { HasFileOf result self }
        ensures loss { tells_loss result ≡ tells_loss self }
    {
        FileFault {
            cause: Some(cause),
            ..self
        }
    }

    /// This fault, and whether commands were lost by it that had been acknowledged.
    pub fn losing(self, is_loss: bool) -> FileFault
        ensures fault { result.fault ≡ self.fault }
        ensures cause { HasCauseOf result self }
        ensures file { HasFileOf result self }
        ensures loss { tells_loss result ≡ is_loss }
    {
        FileFault { is_loss, ..self }
    }

    /// The first of two faults, with its cause. What is told of a file is told of the later one's too.
    pub fn before(self, later: FileFault) -> FileFault
        ensures fault { result.fault ≡ self.fault }
        ensures cause { HasCauseOf result self }
        ensures file { HasFileOf result later }
        ensures loss { tells_loss result ≡ tells_loss later }
    {
        FileFault {
            fault: self.fault,
            cause: self.cause,
            ..later
        }
    }

    /// A refusal, which is no file's fault.
    pub fn refused(refusal: Refusal) -> FileFault
        ensures { result.fault ≡ Refused refusal }
    {
        FileFault::from(ProgramFault::Refused(refusal))
    }
}

impl From<ProgramFault> for FileFault {
    ghost from_gives = { λ fault told. told.fault ≡ fault };

    fn from(fault: ProgramFault) -> FileFault {
        FileFault {
            fault,
            reason: None,
            cause: None,
            is_loss: false,
        }
    }
}

/// Writes a line that begins with the program's name. That nobody reads it changes nothing.
fn tell_line<F: Write, T: Display>(faults: &mut F, program: &'static str, what: &T) {
    let _told = writeln!(faults, "{program}: {what}");
}

/// Tells a fault: its line, as [`ToldBy`] has it; then, of a refusal with several causes, which it was; where a file could not
/// be read or written, its path and the system's reason; and whether commands are lost by that. That nobody reads it changes
/// nothing.
pub fn tell_fault<F: Write>(faults: &mut F, program: &'static str, fault: &FileFault) {
    let line = ToldBy(program, fault.fault);
    let _told = write!(faults, "{line}");
    if let Some(cause) = fault.cause {
        tell_line(faults, program, &cause);
    }
    if let Some(reason) = &fault.reason {
        tell_line(faults, program, reason);
    }
    if fault.is_loss {
        tell_line(faults, program, &"the commands of this session are lost");
    }
}

/// Says what the number of a refusal means, for those who read it at a terminal.
pub fn explain_fault<F: Write>(faults: &mut F, program: &'static str, fault: &FileFault) {
    if let ProgramFault::Refused(refusal) = fault.fault {
        let code = refusal.code();
        let _told = writeln!(faults, "{program}: {code}: {refusal}");
    }
}

/// Tells the fault of what was done, where it has one, and on a terminal also what the number of a refusal means.
/// Answers the status.
pub fn end_with<F: Write + IsTerminal>(
    faults: &mut F,
    program: &'static str,
    done: &Result<(), FileFault>,
) -> u8
    ensures status { result ≡ status_after (fault_of done.now) }
    ensures range { result ≤ 2 }
{
    match done {
        Ok(()) => status_of(&Ok(())),
        Err(fault) => {
            let is_seen = faults.is_terminal();
            tell_fault(faults, program, fault);
            if is_seen {
                explain_fault(faults, program, fault);
            }
            status_of(&Err(fault.fault))
        }
    }
}

/// The first fault of two, and what is told of the later one's file.
pub fn first_of(ran: Result<(), FileFault>, written: Result<(), FileFault>) -> Result<(), FileFault>
    ensures { fault_of result ≡ first_fault (fault_of ran) (fault_of written) }
{
    match (ran, written) {
        (Err(first), Err(later)) => Err(first.before(later)),
        (Err(first), Ok(())) => Err(first),
        (Ok(()), written) => written,
    }
}

/// Why a file is not read or written that is a folder, a device or a pipe.
pub fn not_regular() -> io::Error {
    io::Error::other("not a regular file")
}

/// The regular file of that path, opened so. What is none, as a folder, a device or a pipe, is refused before it is
/// opened, since an open of a pipe waits for its other end.
pub fn open_regular(rt: &HostRuntime, how: &OpenOptions, path: &str) -> io::Result<File> {
    if !fs::metadata(rt, path)?.is_file() {
        return Err(not_regular());
    }
    let file = how.open(rt, path)?;
    if file.metadata()?.is_file() {
        Ok(file)
    } else {
        Err(not_regular())
    }
}

/// The bytes of a regular file, at most so many of them.
pub fn read_file(rt: &HostRuntime, path: &str, most: u64) -> io::Result<Vec<u8>> {
    let mut how = OpenOptions::new();
    how.read(true);
    let file = open_regular(rt, &how, path)?;
    read_at_most(rt.alloc(), file, most)
}
