//! Why the program ends without a whole report: the status for it, and the text that says so.

ghost use Rattle.std.specs.Prelude.{◌≡◌, Some};
ghost use Rattle.bench_program.specs.Faults.{fault_text, refusal_text, status_after};

use board_model::Refusal;
use std::fmt;

/// Why the program ends without a whole report. As a text it is a whole line; of a fault that is told elsewhere, nothing.
#[derive(Clone, Copy, Drop)]
pub enum BenchFault {
    /// The command line has a fault. Its own text has told it already.
    Usage,
    /// The standard input failed.
    Input,
    /// A payload file could not be read. Which and why was told already.
    File,
    /// The script was refused, or its report could not be written.
    Refused(Refusal),
    /// Nobody reads the standard output any more. Nothing is written about it.
    Closed,
    /// A bench found something wrong, as its last line says.
    Wrong,
}

/// The number of a refusal, and of a malformed script the line too.
#[derive(Drop)]
struct RefusalText(Refusal);

impl fmt::Display for RefusalText {
    ghost output = { λ r. Some (refusal_text r.0) };

    fn fmt<W: fmt::Write>(&self, f: &mut fmt::Formatter<W>) -> fmt::Result {
        let code = self.0.code();
        match self.0 {
            Refusal::BadScript(line) => write!(f, "{code} line {line}"),
            _ => write!(f, "{code}"),
        }
    }
}

impl fmt::Display for BenchFault {
    ghost output = { λ fault. Some (fault_text fault) };

    fn fmt<W: fmt::Write>(&self, f: &mut fmt::Formatter<W>) -> fmt::Result {
        match *self {
            BenchFault::Input => f.write_str("sbibench: input\n"),
            BenchFault::Refused(refusal) => {
                let text = RefusalText(refusal);
                writeln!(f, "sbibench: refusal {text}")
            }
            BenchFault::Usage | BenchFault::File | BenchFault::Closed | BenchFault::Wrong => Ok(()),
        }
    }
}

/// The program's status (docs/SCRIPT.md, "The program"): 0 where it did what it was asked, 2 for a fault of the
/// command line, 3 where a bench found something wrong, and 1 for any other.
pub fn status_of(done: &Result<(), BenchFault>) -> u8
    ensures { result ≡ status_after done.now }
{
    match done {
        Ok(()) => 0,
        Err(BenchFault::Usage) => 2,
        Err(BenchFault::Wrong) => 3,
        Err(_) => 1,
    }
}
