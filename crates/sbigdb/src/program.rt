//! What the program does: its command line, its files, the talk, and its status (docs/DEBUGGING.md).

ghost use Rattle.std.specs.Prelude.{◌≡◌, Result};
ghost use Rattle.std.specs.Process.{exit_status};
ghost use Rattle.command_line.specs.Faults.{status_after};
ghost use Rattle.command_line.specs.Told.{fault_of};
ghost use Rattle.command_line.specs.declared.files.FileFault.{FileFault};

use crate::files::start_read;
use crate::given::DebugOptions;
use crate::help::USAGE;
use crate::parsed::options_of;
use crate::streams::converse;
use board_model::Refusal;
use command_line::{
    FileFault, NoWork, ProgramFault, explain_fault, hold_streams, show, status_of, tell_fault,
    without_work, words,
};
use debug_session::SessionPlan;
use std::io::{IsTerminal, Write};
use std::process::ExitCode;
use std::sync::Wait;
use std::thread::Threads;

/// Reads the command line, and shows what it asks to be shown, or its fault.
fn asked(rt: &HostRuntime) -> Result<DebugOptions, NoWork> {
    let words = words(rt, USAGE)?;
    options_of(rt.alloc(), words.as_slice()).map_err(|text| show(rt, &text))
}

/// Does what the command line asks for.
fn run_program<R: Threads + Wait + Sync>(rt: &HostRuntime, threads: &R) -> Result<(), FileFault> {
    let options = match asked(rt) {
        Ok(options) => options,
        Err(why) => return without_work(why).map_err(FileFault::from),
    };
    let start = start_read::<R>(rt, &options)?;
    let plan = SessionPlan {
        quantum: options.quantum,
        most: u64::from(options.most),
    };
    converse(rt, threads, start, plan).map_err(FileFault::refused)
}

/// Tells a fault; of a script that has one, its line too.
fn tell<F: Write + IsTerminal>(faults: &mut F, fault: &FileFault) {
    if let ProgramFault::Refused(Refusal::BadScript(line)) = fault.fault {
        let code = Refusal::BadScript(line).code();
        let _told = writeln!(faults, "sbigdb: refusal {code} line {line}");
    } else {
        tell_fault(faults, "sbigdb", fault);
    }
    if faults.is_terminal() {
        explain_fault(faults, "sbigdb", fault);
    }
}

/// Tells the fault of what was done, where it has one: the status.
fn end<F: Write + IsTerminal>(faults: &mut F, done: &Result<(), FileFault>) -> u8
    ensures { result ≡ status_after (fault_of done.now) }
{
    match done {
        Ok(()) => status_of(&Ok(())),
        Err(fault) => {
            tell(faults, fault);
            status_of(&Err(fault.fault))
        }
    }
}

/// The whole program: debugs the board that a script leaves, with a debugger on standard input and output, or says on
/// standard error why not. Answers the status that docs/DEBUGGING.md has. The second handle makes the thread that
/// reads, and waits for it.
pub fn debug<R: Threads + Wait + Sync>(rt: &HostRuntime, threads: &R) -> ExitCode
    // The status is the one of what was done.
    ensures status { (done : Result (Unit {0}) FileFault) × (exit_status result ≡ status_after (fault_of done)) }
{
    let _held = hold_streams(rt);
    let done = run_program(rt, threads);
    ExitCode::from(end(&mut rt.stderr(), &done))
}
