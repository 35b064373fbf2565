//! Whole scripts.

ghost use Rattle.std.specs.Prelude.{◌≡◌, ◌⊎◌, ◌∷◌, [], ◌≤◌, length, take, Option, Result, ℕ, List, All, IfOk, IfErr, IfSome, OnErr, OnOk, Ok, Err, None, MatchResult};
ghost use Rattle.script_lang.specs.Lines.{IsLineInRange};
ghost use Rattle.script_lang.specs.Scripts.{script_of, Script as Said};
ghost use Rattle.store.specs.Leaves.{IsIdle};
ghost use Rattle.bench_report.specs.Reports.{AreByFirmware, board_answer, IsReport, IsReportWith, IsCutShort, IsCutShortWith};
ghost use Rattle.report_lines.specs.Counts.{Reported};
ghost use Rattle.bench_report.specs.Prefix.{KeepsPrefixLaw};
ghost use Rattle.bench_report.specs.Bench.{Bench, bench_with};
ghost use Rattle.bench_report.specs.Views.{facts};
ghost use Rattle.bench_report.specs.Agree.{OffIs, fills_after};
ghost use Rattle.bench_report.specs.Lives.{IsSound, Shows};
ghost use Rattle.bench_report.specs.Laws.{KeepsLaws};
ghost use Rattle.report_lines.specs.declared.printed.Answer.{Answer};
ghost use Rattle.board_model.specs.declared.refusal.Refusal.{Refusal};
ghost use Rattle.bench_report.specs.Happens.{off};
ghost use Rattle.bench_report.specs.Steps.{Run};

use crate::live::LiveBench;
use crate::setting::Setting;
use crate::steps::says;
use board::Payloads;
use board_model::{Refusal, Shape, unwritten};
use crew::Crew;
use report_lines::{Printed, Report, add};
use script_lang::{Line, parse_script};
use simdisk::SimDisk;
use std::alloc::{AllocError, Global};
use std::io::{self, Write};

/// A run that stopped before the end of its script.
#[derive(Drop)]
pub struct StoppedRun {
    /// Why it stopped.
    pub refusal: Refusal,
    /// The disk, off and with nothing of it lent, where a board was made.
    pub disk: Option<SimDisk>,
}

impl From<Refusal> for StoppedRun {
    ghost from_gives = { λ refusal stopped. stopped ≡ record { refusal = refusal; disk = None } };

    fn from(refusal: Refusal) -> StoppedRun {
        StoppedRun {
            refusal,
            disk: None,
        }
    }
}

impl From<AllocError> for StoppedRun {
    ghost from_gives = { λ refused stopped. stopped ≡ record { refusal = Refusal.Memory; disk = None } };

    fn from(_refused: AllocError) -> StoppedRun {
        StoppedRun {
            refusal: Refusal::Memory,
            disk: None,
        }
    }
}

/// Begins a report, by what the board line answers.
fn begin<W: Write>(alloc: Global, shape: &Shape, out: &mut W) -> io::Result<Report>
    ensures ok { IfOk result (λ report. Reported (W.contents out.old) (W.contents out.new) report (board_answer shape.now ∷ [])) }
    ensures lines { IfOk result (λ report. report.lines ≤ 2) }
{
    let mut report = Report {
        lines: 0,
        found: Vec::new(alloc),
    };
    let line = Printed::Board(shape.harts(), shape.pages(), shape.lanes(), shape.sectors());
    add(out, &mut report, &says(line))?;
    Ok(report)
}

/// Runs the lines after the board line, up to the first that is refused, which may have been run.
fn run_lines<C: Crew, W: Write>(
    setting: &Setting<'_, C>,
    lines: &[Line],
    bench: &mut LiveBench,
    out: &mut W,
) -> io::Result<Report>
    requires few { length lines.now ≤ 65535 }
    requires ranges { All (IsLineInRange setting.now.shape.now) lines.now }
    requires sound { IsSound bench.old }
    ensures fill { OnOk result (bench.new.fill ≡ fills_after lines.now bench.old.fill) }
    ensures ok { IfOk result (λ report. (b : Bench) → Shows setting.now.shape.now b bench.old
        → (answers : List Answer) × (new : Bench) × Run setting.now.shape.now b lines.now answers new
        × Shows setting.now.shape.now new bench.new
        × Reported (W.contents out.old) (W.contents out.new) report (board_answer setting.now.shape.now ∷ answers)) }
    ensures stopped { OnErr result ((b : Bench) → Shows setting.now.shape.now b bench.old
        → (n : ℕ) × (answers : List Answer) × (new : Bench) × Run setting.now.shape.now b (take n lines.now) answers new
        × Shows setting.now.shape.now new bench.new) }
{
    let mut report = begin(setting.alloc, setting.shape, out)?;
    for line in lines {
        let answer = bench.run(setting, line)?;
        add(out, &mut report, &answer)?;
    }
    Ok(report)
}

/// Runs a script that begins with these payloads: a slot boots its own until a line `payload` says otherwise. Writes
/// the script's report, as [`run`] does, and answers also the disk that is left, of a board whose power is off.
/// That disk counted each failure that the report answers (each refusal 5, and each 6 that begins a doubt), and
/// each growth that its record was refused. A payload may be of any length: where one of the four is longer than
/// RAM each power-on that the state allows is refused 3 (docs/BOARD.md, "Power on").
///
/// Refused as `run` is. Where a board was made its disk is given back, as the lines left it that ran: some
/// first of the script's.
pub fn run_left_with<C: Crew, W: Write>(
    alloc: Global,
    script: &[u8],
    crew: &C,
    payloads: Payloads,
    out: &mut W,
) -> Result<(Report, SimDisk), StoppedRun>
    // What was written is a report of the script and nothing else, and so are the count and the states; the disk
    // is the one of its end. Where no line is a poke, that report keeps the prefix law, from the script's bytes
    // to its own; and where the disk that is left counted no failure, each power-on finds what all acknowledged
    // commands make.
    ensures report { IfOk result (λ left. (said : Said) × (answers : List Answer) × (end : Bench)
        × (script_of script.now ≡ Ok said) × IsReportWith payloads said answers end
        × Reported (W.contents out.old) (W.contents out.new) left.0 answers × OffIs said.size (off end) left.1
        × KeepsLaws said answers (facts left.1)) }
    // Where it stopped, the disk is the one of the end of some first lines.
    ensures stopped { IfErr result (λ s. IfSome s.disk (λ disk. (said : Said) × (answers : List Answer)
        × (end : Bench) × (script_of script.now ≡ Ok said) × IsCutShortWith payloads said answers end
        × OffIs said.size (off end) disk)) }
    // A board can be powered on over it.
    ensures idle { MatchResult result (λ left. IsIdle (facts left.1)) (λ s. IfSome s.disk (λ disk. IsIdle
        (facts disk))) }
    // A refusal is the script's fault, or lack of memory, or the writer's.
    ensures refused { IfErr result (λ s. (s.refusal ≡ Refusal.Memory) ⊎ (s.refusal ≡ Refusal.Output)
        ⊎ (script_of script.now ≡ Err s.refusal)) }
    // A script with a fault runs nothing.
    ensures nothing { (e : Refusal) → script_of script.now ≡ Err e → (W.contents out.new ≡ W.contents out.old)
        × MatchResult result (λ left. ⊥) (λ s. ((s.refusal ≡ e) ⊎ (s.refusal ≡ Refusal.Memory)) × (s.disk ≡ None)) }
    // A run that gives no disk back has written nothing.
    ensures given { IfErr result (λ s. s.disk ≡ None → W.contents out.new ≡ W.contents out.old) }
{
    let script = parse_script(alloc, script)?;
    let mut bench = LiveBench::blank_with(alloc, &script.shape, payloads)?;
    let setting = Setting {
        alloc,
        crew,
        shape: &script.shape,
    };
    let ran = run_lines(&setting, &script.lines, &mut bench, out);
    let left = bench.into_disk();
    match ran {
        Ok(report) => Ok((report, left)),
        Err(error) => Err(StoppedRun {
            refusal: unwritten(error),
            disk: Some(left),
        }),
    }
}

/// Runs a script that begins with no payloads, as [`run_left_with`] does.
pub fn run_left<C: Crew, W: Write>(
    alloc: Global,
    script: &[u8],
    crew: &C,
    out: &mut W,
) -> Result<(Report, SimDisk), StoppedRun>
    // What was written is a report of the script and nothing else, and so are the count and the states; the disk
    // is the one of its end. Where no line is a poke, that report keeps the prefix law, from the script's bytes
    // to its own; and where the disk that is left counted no failure, each power-on finds what all acknowledged
    // commands make.
    ensures report { IfOk result (λ left. (said : Said) × (answers : List Answer) × (end : Bench)
        × (script_of script.now ≡ Ok said) × IsReport said answers end
        × Reported (W.contents out.old) (W.contents out.new) left.0 answers × OffIs said.size (off end) left.1
        × KeepsLaws said answers (facts left.1)) }
    // Where it stopped, the disk is the one of the end of some first lines.
    ensures stopped { IfErr result (λ s. IfSome s.disk (λ disk. (said : Said) × (answers : List Answer)
        × (end : Bench) × (script_of script.now ≡ Ok said) × IsCutShort said answers end
        × OffIs said.size (off end) disk)) }
    // A board can be powered on over it.
    ensures idle { MatchResult result (λ left. IsIdle (facts left.1)) (λ s. IfSome s.disk (λ disk. IsIdle
        (facts disk))) }
    // A refusal is the script's fault, or lack of memory, or the writer's.
    ensures refused { IfErr result (λ s. (s.refusal ≡ Refusal.Memory) ⊎ (s.refusal ≡ Refusal.Output)
        ⊎ (script_of script.now ≡ Err s.refusal)) }
    // A script with a fault runs nothing.
    ensures nothing { (e : Refusal) → script_of script.now ≡ Err e → (W.contents out.new ≡ W.contents out.old)
        × MatchResult result (λ left. ⊥) (λ s. ((s.refusal ≡ e) ⊎ (s.refusal ≡ Refusal.Memory)) × (s.disk ≡ None)) }
    // A run that gives no disk back has written nothing.
    ensures given { IfErr result (λ s. s.disk ≡ None → W.contents out.new ≡ W.contents out.old) }
{
    run_left_with(alloc, script, crew, Payloads::new(alloc), out)
}

/// Runs a script (docs/SCRIPT.md) that begins with these payloads, and writes its report. The crew writes the lanes
/// of an image; where no fault strikes, the report is the same for each. A slot boots its own payload until a line
/// `payload` says otherwise.
///
/// Refused `BadShape` or `BadScript` where the script has a fault, and then nothing ran and nothing is
/// written; `Memory` where memory was refused, to the writer too; `Output` where the writer failed else. After
/// the last two any part of the report may stand in the writer.
pub fn run_with<C: Crew, W: Write>(
    alloc: Global,
    script: &[u8],
    crew: &C,
    payloads: Payloads,
    out: &mut W,
) -> Result<Report, Refusal>
    // What was written is a report of the script and nothing else, and so are the count and the states. Where no
    // line is a poke, that report keeps the prefix law, from the script's bytes to its own.
    ensures report { IfOk result (λ report. (said : Said) × (answers : List Answer) × (end : Bench)
        × (script_of script.now ≡ Ok said) × IsReportWith payloads said answers end
        × Reported (W.contents out.old) (W.contents out.new) report answers
        × (AreByFirmware said.lines → KeepsPrefixLaw said.lines answers)) }
    // A refusal is the script's fault, or lack of memory, or the writer's.
    ensures refused { IfErr result (λ e. (e ≡ Refusal.Memory) ⊎ (e ≡ Refusal.Output) ⊎ (script_of script.now ≡ Err e)) }
    // A script with a fault runs nothing.
    ensures nothing { (e : Refusal) → script_of script.now ≡ Err e
        → (W.contents out.new ≡ W.contents out.old) × ((result ≡ Err e) ⊎ (result ≡ Err Refusal.Memory)) }
{
    match run_left_with(alloc, script, crew, payloads, out) {
        Ok((report, _disk)) => Ok(report),
        Err(stopped) => Err(stopped.refusal),
    }
}

/// Runs a script (docs/SCRIPT.md) that begins with no payloads, and writes its report. The crew writes the lanes of an image; where
/// no fault strikes, the report is the same for each.
///
/// Refused `BadShape` or `BadScript` where the script has a fault, and then nothing ran and nothing is
/// written; `Memory` where memory was refused, to the writer too; `Output` where the writer failed else. After
/// the last two any part of the report may stand in the writer.
pub fn run<C: Crew, W: Write>(
    alloc: Global,
    script: &[u8],
    crew: &C,
    out: &mut W,
) -> Result<Report, Refusal>
    // What was written is a report of the script and nothing else, and so are the count and the states. Where no
    // line is a poke, that report keeps the prefix law, from the script's bytes to its own.
    ensures report { IfOk result (λ report. (said : Said) × (answers : List Answer) × (end : Bench)
        × (script_of script.now ≡ Ok said) × IsReport said answers end
        × Reported (W.contents out.old) (W.contents out.new) report answers
        × (AreByFirmware said.lines → KeepsPrefixLaw said.lines answers)) }
    // A refusal is the script's fault, or lack of memory, or the writer's.
    ensures refused { IfErr result (λ e. (e ≡ Refusal.Memory) ⊎ (e ≡ Refusal.Output) ⊎ (script_of script.now ≡ Err e)) }
    // A script with a fault runs nothing.
    ensures nothing { (e : Refusal) → script_of script.now ≡ Err e
        → (W.contents out.new ≡ W.contents out.old) × ((result ≡ Err e) ⊎ (result ≡ Err Refusal.Memory)) }
{
    run_with(alloc, script, crew, Payloads::new(alloc), out)
}
