//! `sbidisk`: says what stands in the file of a disk (docs/CONSOLE.md). Status 0; 1 for a refusal or a file
//! that could not be read; 2 for a fault of the command line; 3 where a line says `bad`.
#![tactic(auto)]

use board_session::examine;
use std::process::ExitCode;

fn main(rt: HostRuntime) -> ExitCode {
    examine(&rt)
}
