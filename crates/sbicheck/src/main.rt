//! `sbicheck KERNEL`: a kernel in every order of its harts, wherever power fails, and what it comes to (docs/CHECKING.md). Status 0 where
//! nothing is wrong in any of them; 1 for a refusal, or a file that is no kernel; 2 for a fault of the command line; 3 where a failure was
//! found; 4 where not every order was followed, or nothing is said.
#![tactic(auto)]

use kernel_check::check;
use std::process::ExitCode;

fn main(rt: HostRuntime) -> ExitCode {
    check(&rt, &rt)
}
