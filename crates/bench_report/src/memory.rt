//! Whether memory was refused within a line.

ghost use Rattle.std.specs.Prelude.{◌≡◌, ◌↔◌, true, false, MatchResult};
ghost use Rattle.bench_report.specs.Uncut.{HasEnough};

use crate::power::Power;
use crate::steps::{refused_suspension, says_refused_memory};
use report_lines::{Answer, Printed};
use std::alloc::AllocError;

/// Whether memory was refused in a line that says this and leaves this board: to a power-on, to an examination of the disk, or to a
/// suspension in the life of a board that is on.
pub fn lacked_memory(power: &Power, said: Printed) -> bool
    ensures { (result ≡ false) ↔ HasEnough power.now said }
{
    if says_refused_memory(said) {
        return true;
    }
    refused_suspension(power)
}

/// The same of a line that answers so: one that was refused memory itself answers nothing.
pub fn was_refused(power: &Power, answer: &Result<Answer, AllocError>) -> bool
    ensures { MatchResult answer.now (λ a. (result ≡ false) ↔ HasEnough power.now a.line) (λ e. result ≡ true) }
{
    match answer {
        Ok(answer) => lacked_memory(power, answer.line),
        Err(_) => true,
    }
}
