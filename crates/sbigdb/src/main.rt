//! `sbigdb SCRIPT [--schedule K | --sweep --row R | --faults --row R] [--p0 PATH ..]`: GDB's Remote
//! Serial Protocol on standard input and output, over the board that the script leaves (docs/DEBUGGING.md). Status 0; 1 for a
//! refusal or a file that could not be read; 2 for a fault of the command line.
//!
//! `talk` has what is answered to each packet over a debugged board ("Debugging with GDB", appendix "GDB Remote Serial Protocol").
//! docs/DEBUGGING.md tells what of the protocol there is.
#![tactic(auto)]

mod acts;
mod answers;
mod asked;
mod begin_words;
mod begins;
mod files;
mod given;
mod help;
mod listening;
mod looks;
mod monitor;
mod parsed;
mod program;
mod replies;
mod resumes;
mod start;
mod stops;
mod streams;
mod strikes;
mod talk;
mod texts;
mod told;
mod wire;

use crate::program::debug;
use std::process::ExitCode;

fn main(rt: HostRuntime) -> ExitCode {
    debug(&rt, &rt)
}
