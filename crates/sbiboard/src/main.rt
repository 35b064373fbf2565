//! `sbiboard`: a board whose harts run on threads, with the operator's console on standard input and output
//! (docs/CONSOLE.md). Status 0; 1 for a refusal or a file that could not be read or written; 2 for a fault of
//! the command line.
#![tactic(auto)]

use board_session::operate;
use std::process::ExitCode;

fn main(rt: HostRuntime) -> ExitCode {
    operate(&rt, &rt)
}
