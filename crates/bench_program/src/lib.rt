//! What the program `sbibench` does: its command line, the script that it reads, the report or the lines of a
//! bench that it writes, and its status.
#![tactic(auto)]

mod asked;
mod conflicts;
mod digests;
mod fault;
mod orders;
mod remarks;
mod run_line;
mod standing;
mod streams;
mod taps;
mod traps;
mod usage;
mod watched;
mod works;

ghost use Rattle.std.specs.Prelude.{◌≡◌, ◌⊎◌, Result, IfOk, IfErr, IfSome};
ghost use Rattle.board_model.specs.declared.refusal.Refusal.TheVariants.{Memory};
ghost use Rattle.std.specs.Process.{exit_status};
ghost use Rattle.bench_program.specs.Faults.{status_after};
ghost use Rattle.bench_program.specs.declared.fault.BenchFault.{BenchFault};
ghost use Rattle.bench_program.specs.declared.fault.BenchFault.TheVariants.{Input, Refused};
ghost use Rattle.script_lang.specs.Scripts.{script_of};
ghost use Rattle.bench_program.specs.Written.{IsReadOf};

pub use crate::fault::BenchFault;
pub use crate::streams::run_on;
use crate::streams::{end, without_work};
use crate::usage::USAGE;
pub use crate::usage::{BenchOptions, DrawnSchedule, Savers, Work, options_of};
pub use crate::watched::Telling;
use board_model::{MAX_LINE_BYTES, MAX_SCRIPT_LINES, Refusal};
pub use command_line::Pipe;
use command_line::{NoWork, hold_streams, keep_heap, read_at_most, words};
use std::alloc::Global;
use std::io::{self, BufWriter, ErrorKind, IsTerminal, Read};
use std::process::ExitCode;
use std::thread::Threads;

/// How many bytes of a report are gathered before they are written into a pipe or a file. A terminal gets each at once.
const WRITTEN_AT_ONCE: usize = 65_536;

/// One byte more than the longest script has. The first fault of a script stands within so many bytes, so no more are
/// read.
pub const READ_AT_MOST: u64 = (MAX_SCRIPT_LINES * (MAX_LINE_BYTES + 1) + 1) as u64;

/// Reads the script: the input to its end, or as much of it as its first fault takes. The fault is `Input` where the input
/// failed, and the refusal `Memory` where memory was refused.
pub fn read_script<R: Read + Drop>(alloc: Global, input: R) -> Result<Vec<u8>, BenchFault>
    // It says what the whole input says, where its bytes are known: the script, or its first fault.
    ensures said { IfOk result (λ script. IfSome (R.remaining input) (λ bytes. script_of script.items
        ≡ script_of bytes)) }
    // It is the whole input, but for what is more than any script has.
    ensures bytes { IfOk result (λ script. IfSome (R.remaining input) (IsReadOf script.items)) }
    ensures failed { IfErr result (λ e. (e ≡ Input) ⊎ (e ≡ Refused Memory)) }
{
    match read_at_most(alloc, input, READ_AT_MOST) {
        Ok(script) => Ok(script),
        Err(e) if e.kind() == ErrorKind::OutOfMemory => Err(BenchFault::Refused(Refusal::Memory)),
        Err(_) => Err(BenchFault::Input),
    }
}

/// How many bytes of output are gathered before they are written. To a terminal none are.
fn at_once(is_terminal: bool) -> usize {
    if is_terminal { 0 } else { WRITTEN_AT_ONCE }
}

/// The whole program: reads a script from a file or from standard input and writes its report to standard output
/// (docs/SCRIPT.md), or says why not on standard error. Answers the status that docs/SCRIPT.md, "The program",
/// has. The second handle makes the threads of lanes, where the command line asks for these.
pub fn bench<R: Threads + Sync>(rt: &HostRuntime, threads: &R) -> ExitCode
    // The status is the one of what was done.
    ensures status { (done : Result (Unit {0}) BenchFault) × (exit_status result ≡ status_after done) }
{
    let _held = hold_streams(rt);
    let mut faults = rt.stderr();
    let words = match words(rt, USAGE) {
        Ok(words) => words,
        Err(why) => return ExitCode::from(end(&without_work(why), &mut faults)),
    };
    let alloc = rt.alloc();
    keep_heap(alloc);
    let is_shared = rt.stdout().is_terminal();
    let pipe = Pipe::new(io::writer(rt));
    match BufWriter::with_capacity(alloc, at_once(is_shared), pipe) {
        Ok(mut out) => {
            let words = words.as_slice();
            let telling = Telling {
                faults: &mut faults,
                clock: rt,
                is_shared,
                is_told: false,
            };
            let input = rt.reader();
            let status = run_on(alloc, threads, rt, words, input, &mut out, telling);
            ExitCode::from(status)
        }
        Err(_) => ExitCode::from(end(&without_work(NoWork::Memory), &mut faults)),
    }
}
