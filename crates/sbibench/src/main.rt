//! `sbibench`: reads a script from a file or from standard input, and writes its report to standard output (docs/SCRIPT.md).
//! Status 0; 1 where the script could not be read, it was refused or its report was not written; 2 for a fault of
//! the command line; 3 where a bench found something wrong.
#![tactic(auto)]

use bench_program::bench;
use std::process::ExitCode;

fn main(rt: HostRuntime) -> ExitCode {
    bench(&rt, &rt)
}
