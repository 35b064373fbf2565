//! Whether a script writes a report.
ghost use Rattle.std.specs.Prelude.{◌≡◌, ◌++◌, List, Ok, OnOk};
ghost use Rattle.script_lang.specs.Scripts.{script_of, Script as Said};
ghost use Rattle.bench_report.specs.Bench.{Bench};
ghost use Rattle.report_lines.specs.Texts.{report_text};
ghost use Rattle.bench_report.specs.Reports.{IsReport};
ghost use Rattle.report_lines.specs.declared.printed.Answer.{Answer};

use bench_report::run;
use bench_sweep::line_apart;
use board_model::Refusal;
use crew::Crew;
use std::alloc::Global;
use std::{fmt, io};
use thiserror::Error;

/// A script that writes just the report that it was compared with. Only [`compare_report`] makes one, so
/// nobody says "as reported" of a script that was not compared.
#[derive(Drop)]
pub struct AsReported<'a> {
    name: &'a str,
}

impl fmt::Display for AsReported<'_> {
    fn fmt<W: fmt::Write>(&self, f: &mut fmt::Formatter<W>) -> fmt::Result {
        let name = self.name;
        write!(f, "{name}.sbi as reported")
    }
}

/// Why a script is not as reported.
#[derive(Debug, Drop, Error)]
pub enum ExampleFault {
    #[error("a file was not read: {0}")]
    Unread(io::Error),
    #[error("refused: {0}")]
    Refused(Refusal),
    #[error("its report differs from line {0} on")]
    Differs(usize),
}

/// Runs the script of that name. `Ok` where it writes just this report, which is then one that the script may
/// have. By the law `bench_report::script_determines_report` it is the only such one, where none of its lines says that
/// memory was refused, that the disk failed or that power was lost.
pub fn compare_report<'a, C: Crew>(
    alloc: Global,
    name: &'a str,
    script: &[u8],
    crew: &C,
    report: &[u8],
) -> Result<AsReported<'a>, ExampleFault>
    ensures { OnOk result ((said : Said) × (answers : List Answer) × (end : Bench) × (script_of script.now ≡ Ok said)
        × IsReport said answers end × (report.now ≡ report_text answers)) }
{
    let mut out = Vec::new(alloc);
    run(alloc, script, crew, &mut out).map_err(ExampleFault::Refused)?;
    match line_apart(out.as_slice(), report) {
        None => Ok(AsReported { name }),
        Some(line) => Err(ExampleFault::Differs(line)),
    }
}
