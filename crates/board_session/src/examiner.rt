//! The program over the files and the streams of the system.

ghost use Rattle.std.specs.Prelude.{◌≤◌};
ghost use Rattle.std.specs.Process.{exit_status};

use crate::examiner_usage::USAGE;
use crate::examines::examine_on;
use board_files::SystemFiles;
use board_model::Refusal;
use command_line::{FileFault, Pipe, end_with, hold_streams, without_work, words};
use std::io::{self, BufWriter};
use std::process::ExitCode;

/// The whole program: says on standard output what stands in the disk's file that the command line names, or
/// writes the memory of its image there, or says on standard error why not; it says nothing where the reader of its
/// output is gone, as any filter. It boots nothing, and the file is never written. Answers the status that
/// docs/CONSOLE.md, "The program `sbidisk`", has.
pub fn examine(rt: &HostRuntime) -> ExitCode
    ensures { exit_status result ≤ 3 }
{
    let _held = hold_streams(rt);
    let mut faults = rt.stderr();
    let words = match words(rt, USAGE) {
        Ok(words) => words,
        Err(why) => {
            let done = without_work(why).map_err(FileFault::from);
            return ExitCode::from(end_with(&mut faults, "sbidisk", &done));
        }
    };
    let Ok(mut out) = BufWriter::new(rt.alloc(), Pipe::new(io::writer(rt))) else {
        let done = Err(FileFault::refused(Refusal::Memory));
        return ExitCode::from(end_with(&mut faults, "sbidisk", &done));
    };
    ExitCode::from(examine_on(
        rt.alloc(),
        &SystemFiles(rt),
        words.as_slice(),
        &mut out,
        &mut faults,
    ))
}
