//! The program over the files and the terminal of the system.

ghost use Rattle.std.specs.Prelude.{◌≤◌};
ghost use Rattle.std.specs.Process.{exit_status};

use crate::operates::operate_on;
use crate::screen::Screen;
use crate::{EndHint, Streams, USAGE};
use board_files::SystemFiles;
use board_model::Refusal;
use command_line::{FileFault, end_with, hold_streams, without_work, words};
use std::io::BufWriter;
use std::process::ExitCode;
use std::sync::Wait;
use std::thread::Threads;

/// Tells the fault of what was done, where it has one, and ends with its status.
fn end(rt: &HostRuntime, done: &Result<(), FileFault>) -> ExitCode
    ensures { exit_status result ≤ 2 }
{
    ExitCode::from(end_with(&mut rt.stderr(), "sbiboard", done))
}

/// The whole program: runs a board on threads with the operator's console on standard input and output, or
/// says on standard error why not. Answers the status that docs/CONSOLE.md, "Statuses and faults", has. The
/// second handle makes the threads of harts and lanes, and waits for them.
pub fn operate<R: Threads + Wait + Sync>(rt: &HostRuntime, threads: &R) -> ExitCode
    ensures { exit_status result ≤ 2 }
{
    let _held = hold_streams(rt);
    let words = match words(rt, USAGE) {
        Ok(words) => words,
        Err(why) => return end(rt, &without_work(why).map_err(FileFault::from)),
    };
    // A line of an answer is one write, since it is flushed as a whole.
    let Ok(out) = BufWriter::new(rt.alloc(), Screen::new(rt)) else {
        return end(rt, &Err(FileFault::refused(Refusal::Memory)));
    };
    // Not `rt.reader()`: it holds 8 KiB by value, and LLVM does not finish with a session that moves them.
    let streams = Streams {
        input: EndHint::new(rt, rt.stdin()),
        out,
    };
    let files = SystemFiles(rt);
    let ended = operate_on(
        rt.alloc(),
        threads,
        &files,
        words.as_slice(),
        streams,
        &mut rt.stderr(),
    );
    ExitCode::from(ended.status)
}
