//! Why a program ends without a verdict.

ghost use Rattle.std.specs.Prelude.{◌≡◌, Err};
ghost use Rattle.command_line.specs.Faults.{status_after as status_of_fault};
ghost use Rattle.kernel_check.specs.Verdicts.{status_without};

use crate::given::FailureKind;
use crate::kernel::KernelFault;
use crate::looks::LookFault;
use crate::texts::failure_word;
use board_model::Refusal;
use command_line::{FileFault, explain_fault, status_of, tell_fault};
use std::alloc::{AllocError, AllocFailed};
use std::io::{IsTerminal, Write};

/// Why there is no verdict.
#[derive(Drop)]
pub enum CheckFault {
    /// The command line has a fault, which was told.
    Usage,
    /// A refusal, or a file that could not be read or written.
    Told(FileFault),
    /// The kernel's file is no kernel for this board.
    Kernel(KernelFault),
    /// A look names no bytes of the kernel: which, and why.
    Look(String, LookFault),
    /// No such failure was found.
    NotFound(FailureKind),
}

impl From<Refusal> for CheckFault {
    fn from(refusal: Refusal) -> CheckFault {
        CheckFault::Told(FileFault::refused(refusal))
    }
}

impl From<AllocError> for CheckFault {
    fn from(_error: AllocError) -> CheckFault {
        CheckFault::from(Refusal::Memory)
    }
}

impl<T: Drop> From<AllocFailed<T>> for CheckFault {
    fn from(_failed: AllocFailed<T>) -> CheckFault {
        CheckFault::from(Refusal::Memory)
    }
}

impl From<KernelFault> for CheckFault {
    fn from(fault: KernelFault) -> CheckFault {
        match fault {
            KernelFault::Memory => CheckFault::from(Refusal::Memory),
            fault => CheckFault::Kernel(fault),
        }
    }
}

/// Tells a fault of a file or a refusal, and on a terminal what a refusal's number means. Answers the status.
fn tell_told<F: Write + IsTerminal>(faults: &mut F, fault: &FileFault) -> u8
    ensures { result ≡ status_of_fault {A = Unit {0}} (Err fault.now.fault) }
{
    tell_fault(faults, "sbicheck", fault);
    if faults.is_terminal() {
        explain_fault(faults, "sbicheck", fault);
    }
    status_of(&Err(fault.fault))
}

/// Tells why a file is no kernel.
fn tell_kernel<F: Write>(faults: &mut F, fault: KernelFault) {
    let _told = match fault {
        KernelFault::Elf(why) => writeln!(faults, "sbicheck: {why}"),
        _ => writeln!(
            faults,
            "sbicheck: the kernel has more bytes than the board's RAM"
        ),
    };
}

/// Tells why a look names no bytes.
fn tell_look<F: Write>(faults: &mut F, name: &str, why: LookFault) {
    let _told = match why {
        LookFault::NoSymbol => writeln!(faults, "sbicheck: the kernel has no symbol {name}"),
        LookFault::OutsideRam => writeln!(
            faults,
            "sbicheck: the bytes of {name} are not all in RAM"
        ),
    };
}

/// Tells why there is no verdict. Answers the status.
pub fn tell<F: Write + IsTerminal>(faults: &mut F, fault: &CheckFault) -> u8
    ensures { result ≡ status_without fault.now }
{
    match fault {
        CheckFault::Usage => 2,
        CheckFault::Told(fault) => tell_told(faults, fault),
        CheckFault::Kernel(fault) => {
            tell_kernel(faults, *fault);
            1
        }
        CheckFault::Look(name, why) => {
            tell_look(faults, name, *why);
            2
        }
        CheckFault::NotFound(kind) => {
            let word = failure_word(*kind);
            let _told = writeln!(faults, "sbicheck: no failure '{word}' was found");
            1
        }
    }
}
