//! What the program does: its command line, the kernel's file, the search, and what is told of it (docs/CHECKING.md).

ghost use Rattle.std.specs.Prelude.{◌≡◌, List, ℕ, Result, Option, IfOk};
ghost use Rattle.std.specs.Process.{exit_status};
ghost use Rattle.kernel_check.specs.Asks.{IsRight, IsRightForLives, IsRightWithin};
ghost use Rattle.kernel_check.specs.Verdicts.{status_after};
ghost use Rattle.kernel_check.specs.declared.facts.Verdict.{Verdict as AnyVerdict};
ghost use Rattle.kernel_check.specs.declared.faults.CheckFault.{CheckFault as AnyFault};

use crate::checks::check_bytes;
use crate::facts::Verdict;
use crate::faults::{CheckFault, tell};
use crate::given::CheckOptions;
use crate::help::USAGE;
use crate::parsed::options_of;
use command_line::{
    FileFault, NoWork, ProgramFault, hold_streams, keep_heap, read_file, show, without_work, words,
};
use std::io::{self, BufWriter, IsTerminal, Write};
use std::process::ExitCode;
use std::thread::Threads;

/// More bytes than the file of any kernel has: longer ones are read so far.
const MOST_BYTES: u64 = 1 << 26;

/// The bytes of the kernel's file.
fn kernel_bytes(rt: &HostRuntime, path: &str) -> Result<Vec<u8>, CheckFault> {
    match read_file(rt, path, MOST_BYTES) {
        Ok(bytes) => Ok(bytes),
        Err(e) => Err(CheckFault::Told(FileFault::new(rt.alloc(), path, e))),
    }
}

/// Reads the command line, and shows what it asks to be shown, or its fault.
fn asked(rt: &HostRuntime) -> Result<CheckOptions, NoWork> {
    let words = words(rt, USAGE)?;
    options_of(rt.alloc(), words.as_slice()).map_err(|text| show(rt, &text))
}

/// What a command line comes to that asks for no work.
fn no_verdict(why: NoWork) -> Result<Option<Verdict>, CheckFault> {
    match without_work(why) {
        Ok(()) => Ok(None),
        Err(ProgramFault::Usage) => Err(CheckFault::Usage),
        Err(fault) => Err(CheckFault::Told(FileFault::from(fault))),
    }
}

/// Checks the kernel that the options name.
fn checked<R: Threads + Sync>(
    rt: &HostRuntime,
    threads: &R,
    options: &CheckOptions,
) -> Result<Verdict, CheckFault>
    // Of the bytes that were read, whichever they are.
    ensures holds { IfOk result (λ verdict. verdict ≡ Verdict.Holds → (bytes : List ℕ) × IsRight options.now bytes) }
    ensures within { IfOk result (λ verdict. (k : ℕ) → verdict ≡ Verdict.Within k → (bytes : List ℕ) × IsRightWithin k options.now bytes) }
    ensures lives { IfOk result (λ verdict. (n : ℕ) → verdict ≡ Verdict.Lives n → (bytes : List ℕ) × IsRightForLives n options.now bytes) }
{
    let bytes = kernel_bytes(rt, &options.kernel)?;
    let Ok(mut out) = BufWriter::new(rt.alloc(), io::writer(rt)) else {
        return Err(CheckFault::from(board_model::Refusal::Memory));
    };
    check_bytes(threads, rt.alloc(), options, bytes.as_slice(), &mut out)
}

/// Does what the command line asks for. None where it asks for no work.
fn run_program<R: Threads + Sync>(
    rt: &HostRuntime,
    threads: &R,
) -> Result<Option<Verdict>, CheckFault> {
    match asked(rt) {
        Ok(options) => Ok(Some(checked(rt, threads, &options)?)),
        Err(why) => no_verdict(why),
    }
}

/// Tells why there is no verdict, where there is none, and answers the status. That nobody reads it changes nothing.
fn end<F: Write + IsTerminal>(done: &Result<Option<Verdict>, CheckFault>, faults: &mut F) -> u8
    ensures { result ≡ status_after done.now }
{
    match done {
        Ok(None) => 0,
        Ok(Some(verdict)) => verdict.status(),
        Err(fault) => tell(faults, fault),
    }
}

/// The whole program: checks a kernel, and tells of it on standard output, or says on standard error why not. Answers the status that
/// docs/CHECKING.md has. `threads` makes the threads that search.
pub fn check<R: Threads + Sync>(rt: &HostRuntime, threads: &R) -> ExitCode
    // The status is the one of what was done.
    ensures { (done : Result (Option AnyVerdict) AnyFault) × (exit_status result ≡ status_after done) }
{
    let _held = hold_streams(rt);
    keep_heap(rt.alloc());
    let done = run_program(rt, threads);
    ExitCode::from(end(&done, &mut rt.stderr()))
}
