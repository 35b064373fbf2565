//! The promise of scripts and their reports.
//! A law runs nothing, and tells the prover a fact: `scripts_read_as_written`.
ghost use Rattle.std.specs.Prelude.{◌≡◌, List, IfOk};
ghost use Rattle.std.specs.Io.KnownBytes.{Appends};
ghost use Rattle.script_lang.specs.Scripts.{Script as Said};
ghost use Rattle.script_lang.specs.Spellings.{script_text, IsWritable};
ghost use Rattle.report_lines.specs.Texts.{report_text};
ghost use Rattle.report_lines.specs.declared.printed.Answer.{Answer};
ghost use Rattle.bench_report.specs.Laws.{KeepsLaws};

use bench_report::{StoppedRun, run_left_with};
use board::Payloads;
use crew::Crew;
use disk::Disk;
use report_lines::Report;
use script_lang::scripts_read_as_written;
use simdisk::SimDisk;
use std::alloc::Global;
use std::io::Write;

/// *From the bytes of a script to those of its report.* The bytes are the text of a script, in its plain spelling. What was
/// written is the text of answers to its lines. Where no line writes the disk past the firmware, these answers keep the prefix
/// law (`prefix`). The disk that is left is the one that they tell of: each state that a crash may leave of it ends a history
/// that they tell (`ends`). Where it counted no failure, each power-on found what all acknowledged commands make (`all`). The
/// slots begin with any payloads. Which answers its lines may have at all, refusals with their numbers too, [`run_left_with`]
/// says, of the same answers and of a script in any spelling.
pub fn a_script<C: Crew, W: Write>(
    alloc: Global,
    script: &[u8],
    crew: &C,
    payloads: Payloads,
    out: &mut W,
) -> Result<(Report, SimDisk), StoppedRun>
    ensures { (said : Said) → IsWritable said → script.now ≡ script_text said
        → IfOk result (λ left. (answers : List Answer)
        × Appends (W.contents out.old) (W.contents out.new) (report_text answers)
        × KeepsLaws said answers (⟦<SimDisk as Disk>⟧.facts left.1)) }
{
    scripts_read_as_written();
    run_left_with(alloc, script, crew, payloads, out)
}
