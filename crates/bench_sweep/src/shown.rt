//! A row of a bench is written as a script.
//! A law runs nothing, and tells the prover a fact: `scripts_read_as_written`.

ghost use Rattle.std.specs.Prelude.{◌≡◌, ◌⊎◌, ◌↔◌, ◌≤◌, ◌<◌, ◌+◌, ◌*◌, ◌++◌, length, All, Ok, Err, IsTrue, IfOk, IfErr, OnOk, MatchOption};
ghost use Rattle.std.specs.List.{AllZip};
ghost use Rattle.board_model.specs.Shapes.{Size, IsSize};
ghost use Rattle.board_model.specs.declared.refusal.Refusal.{Refusal as Refused};
ghost use Rattle.board_model.specs.declared.refusal.Refusal.TheVariants.{BadShape, Memory, NotPlain, Output};
ghost use Rattle.script_lang.specs.Armings.{IsArmingInRange};
ghost use Rattle.script_lang.specs.Lines.{IsLineInRange};
ghost use Rattle.script_lang.specs.Scripts.{script_of, Script as Said};
ghost use Rattle.bench_report.specs.Bench.{Bench};
ghost use Rattle.bench_report.specs.Happens.{unpowered};
ghost use Rattle.bench_sweep.specs.Made.{CallsIn, IsEnded, RunsArmed};
ghost use Rattle.bench_sweep.specs.Points.{callers, MadeCalls};
ghost use Rattle.bench_sweep.specs.Runs.{Runs, RunsAt, Sits};
ghost use Rattle.bench_sweep.specs.Shown.{arming, fill_at, row_lines, run_cell, runs_each, HasFewer, HasNoRun, HasRun, IsNamed, IsNthRun, IsRowOf, NoRow, NoRowOf, ShowsFrom, ShowsNone, ShownRow, WroteScript};
ghost use Rattle.bench_sweep.specs.Swept.{AreSwept, IsNotPlain, IsPlainLine, NoBenchRuns};

use crate::begins::run_to_format;
use crate::judging::{turn_off, turn_off_failed};
use crate::plain_runs::{calls_between, plain_script, run_plain};
use crate::points::{BenchKind, CALLERS, Caller, FILLS, Point, RunAt, cut_fill};
use crate::runner::Runner;
use crate::site::{Going, Site};
use bench_report::{Setting, lane_by_lane};
use board::Payloads;
use board_model::{BootMode, Refusal, Shape, shape_in_range};
use crew::Crew;
use script_lang::{Arming, Line, Script, fits, scripts_read_as_written, write_script};
use simdisk::Fill;
use std::alloc::{AllocError, Global};
use std::io::Write;
use std::thread::Threads;

/// How many lines a script has at most after its board line.
const MOST_LINES: usize = 65_535;

/// The last call that a line of a script arms.
const LAST_CALL: u64 = 1_000_000;

/// Which row of a bench is written as a script.
#[derive(Clone, Copy, Drop)]
pub struct WantedRow {
    pub bench: BenchKind,
    /// Its number among the runs of the report, from 1 on.
    pub number: u64,
}

/// The point of a bench at which the run of that place is, and which of the point's runs it is, both from 0 on.
fn point_of(bench: BenchKind, place: u64) -> (u64, u64)
    ensures value { place ≡ result.0 * runs_each bench + result.1 }
    ensures range { result.1 < runs_each bench }
{
    match bench {
        BenchKind::Cuts => (place / 5, place % 5),
        BenchKind::Fails => (place, 0),
    }
}

/// What the cut leaves in the run of that place at a point. A run with a failure has no fill.
fn fill_at(bench: BenchKind, place: u64) -> Option<Fill>
    requires { place < runs_each bench }
    ensures { result ≡ fill_at bench place }
{
    match bench {
        BenchKind::Cuts => Some(FILLS[place as usize]),
        BenchKind::Fails => None,
    }
}

/// How many calls each caller made from the one site to the other.
fn counts_of(alloc: Global, from: &Site, to: &Site) -> Result<Vec<u64>, AllocError>
    ensures counts { IfOk result (λ counts. AllZip (MadeCalls from.now.off.disk to.now.off.disk) callers counts.items) }
{
    let mut counts = Vec::new(alloc);
    for caller in CALLERS {
        let calls = calls_between(caller, from, to)?;
        counts.push(calls)?;
    }
    Ok(counts)
}

/// The run of that number, where `counts` says how many calls each caller made.
fn run_of_number(bench: BenchKind, counts: &[u64], number: u64) -> Option<RunAt>
    requires { length counts.now ≡ 5 }
    ensures { MatchOption result (HasFewer bench counts.now number) (λ run. IsNthRun bench counts.now number (run_cell run)) }
{
    if number == 0 {
        return None;
    }
    let (mut point, place) = point_of(bench, number - 1);
    for i in 0..5 {
        if point < counts[i] {
            return Some(RunAt {
                caller: CALLERS[i],
                call: point + 1,
                fill: fill_at(bench, place),
            });
        }
        point -= counts[i];
    }
    None
}

/// Runs the lines as they are, and answers how many calls each caller made in them.
fn count_calls<C: Crew>(runner: &Runner<'_, C>, site: &Site) -> Result<Vec<u64>, AllocError>
    requires lines { AreSwept runner.now.setting.shape.now runner.now.lines.now }
    requires sits { Sits runner.now.setting.shape.now site.now }
    ensures calls { IfOk result (λ counts. (b : Bench)
        → RunsAt runner.now.setting.shape.now b site.now
        → CallsIn runner.now.setting.shape.now site.now.off.disk (unpowered b) runner.now.lines.now counts.items) }
    ensures each { IfOk result (λ counts. length counts.items ≡ 5) }
{
    let end = run_plain(runner, site)?;
    let counts = counts_of(runner.setting.alloc, site, &end);
    end.release();
    counts
}

/// Runs the lines as they are, and answers which run of the bench has that number. Refused `BadShape` where none has.
fn find_run<C: Crew>(runner: &Runner<'_, C>, site: &Site, number: u64) -> Result<RunAt, Refusal>
    requires lines { AreSwept runner.now.setting.shape.now runner.now.lines.now }
    requires sits { Sits runner.now.setting.shape.now site.now }
    ensures found { IfOk result (λ run. (b : Bench)
        → RunsAt runner.now.setting.shape.now b site.now
        → HasRun runner.now.bench runner.now.setting.shape.now site.now.off.disk (unpowered b) runner.now.lines.now number (run_cell run)) }
    ensures refused { IfErr result (λ e. (e ≡ Memory) ⊎ ((e ≡ BadShape) × ((b : Bench)
        → RunsAt runner.now.setting.shape.now b site.now
        → HasNoRun runner.now.bench runner.now.setting.shape.now site.now.off.disk (unpowered b) runner.now.lines.now number))) }
{
    let counts = count_calls(runner, site)?;
    match run_of_number(runner.bench, &counts, number) {
        None => Err(Refusal::BadShape),
        Some(run) => Ok(run),
    }
}

/// Whether a line of a script for a board of that shape arms something in that run: the board has that caller, and the number
/// of the call is at most 1,000,000.
fn is_named(shape: &Shape, run: RunAt) -> bool
    ensures { IsTrue result ↔ IsNamed shape.now run.caller run.call }
{
    if LAST_CALL < run.call {
        return false;
    }
    match run.caller {
        Caller::Disk => true,
        Caller::Lane(lane) => lane < shape.lanes() as usize,
    }
}

/// What the line arms in that run, of a board of that shape.
fn arming_at(shape: &Shape, bench: BenchKind, run: RunAt) -> Arming
    requires size { IsSize shape.now }
    requires named { IsNamed shape.now run.caller run.call }
    ensures { result ≡ arming bench (run_cell run) }
{
    let _shape = shape;
    let call = run.call as u32;
    let fill = cut_fill(run.fill);
    match bench {
        BenchKind::Cuts => match run.caller {
            Caller::Disk => Arming::CutAt(call, fill),
            Caller::Lane(lane) => Arming::CutLane(lane as u32, call, fill),
        },
        BenchKind::Fails => match run.caller {
            Caller::Disk => Arming::FailAt(call),
            Caller::Lane(lane) => Arming::FailLane(lane as u32, call),
        },
    }
}

/// What a line arms in that run. Refused `BadShape` where none does.
fn arming_of(shape: &Shape, bench: BenchKind, run: RunAt) -> Result<Arming, Refusal>
    ensures arms { IfOk result (λ a. (a ≡ arming bench (run_cell run)) × IsArmingInRange shape.now a) }
    ensures refused { IfErr result (λ e. (e ≡ BadShape) × (IsArmingInRange shape.now (arming bench (run_cell run)) → ⊥)) }
{
    shape_in_range(shape);
    if !is_named(shape, run) {
        return Err(Refusal::BadShape);
    }
    Ok(arming_at(shape, bench, run))
}

/// Refused where a run of `count` of all those lines did not end as one of that bench does: a cut struck, or all lines ran and the call
/// failed.
fn check_ended(bench: BenchKind, going: Going, count: usize, all: usize) -> Result<(), AllocError>
    requires few { count ≤ all }
    ensures ended { OnOk result ((size : Size) (b : Bench)
        → Runs size b going → IsEnded bench count all b) }
{
    match bench {
        BenchKind::Cuts => {
            turn_off(going, true)?.release();
            Ok(())
        }
        BenchKind::Fails => {
            turn_off_failed(going, count, all)?.release();
            Ok(())
        }
    }
}

/// Runs the lines with what the bench does in that run armed, and answers how many ran: with a cut up to the one within which it
/// strikes, with a failure all.
fn count_armed<C: Crew>(
    runner: &Runner<'_, C>,
    site: &Site,
    run: RunAt,
) -> Result<usize, AllocError>
    requires lines { AreSwept runner.now.setting.shape.now runner.now.lines.now }
    requires sits { Sits runner.now.setting.shape.now site.now }
    ensures armed { IfOk result (λ count. (b : Bench)
        → RunsAt runner.now.setting.shape.now b site.now
        → RunsArmed runner.now.setting.shape.now runner.now.bench run.caller run.call (unpowered b) runner.now.lines.now count) }
    ensures few { IfOk result (λ count. count ≤ length runner.now.lines.now) }
{
    let point = Point {
        caller: run.caller,
        number: run.call,
        call: run.call,
        before: 0,
    };
    let from = site.begin(runner.setting.alloc)?;
    let mut armed = from.armed(runner.bench, point);
    let Ok(count) = armed.run_lines(&runner.setting, runner.lines, false) else {
        armed.release();
        return Err(AllocError);
    };
    check_ended(runner.bench, armed, count, runner.lines.len())?;
    Ok(count)
}

/// The lines of a row.
#[derive(Drop)]
struct RowLines<'a> {
    bench: BenchKind,
    /// Those in front of what is armed, the last of which formatted the disk.
    front: &'a [Line],
    arming: Arming,
    /// Those that then run.
    back: &'a [Line],
}

/// Puts copies of lines after others.
fn add_lines(alloc: Global, all: &mut Vec<Line>, lines: &[Line]) -> Result<(), AllocError>
    ensures { OnOk result (all.new.items ≡ all.old.items ++ lines.now) }
{
    for line in lines {
        let line = line.copy(alloc)?;
        all.push(line)?;
    }
    Ok(())
}

/// Those lines as a script has them: power is cut with zeros after a run with a failure, and then a power-on keeps the image.
fn script_lines(alloc: Global, row: &RowLines<'_>) -> Result<Vec<Line>, AllocError>
    ensures { IfOk result (λ v. v.items ≡ row_lines row.now.bench row.now.front.now row.now.arming row.now.back.now) }
{
    let mut lines = Vec::new(alloc);
    add_lines(alloc, &mut lines, row.front)?;
    lines.push(Line::Arm(row.arming))?;
    add_lines(alloc, &mut lines, row.back)?;
    match row.bench {
        BenchKind::Cuts => {}
        BenchKind::Fails => lines.push(Line::Cut(cut_fill(None)))?,
    }
    lines.push(Line::On(BootMode::Keep))?;
    Ok(lines)
}

/// Writes a row as a script. Refused `BadShape` where it has more lines than a script may have.
fn write_shown<W: Write>(
    alloc: Global,
    shape: &Shape,
    row: &RowLines<'_>,
    out: &mut W,
) -> Result<(), Refusal>
    requires front { All (IsLineInRange shape.now) row.now.front.now }
    requires arming { IsArmingInRange shape.now row.now.arming }
    requires back { All (IsLineInRange shape.now) row.now.back.now }
    ensures wrote { OnOk result (WroteScript (record {
      size = shape.now;
      lines = row_lines row.now.bench row.now.front.now row.now.arming row.now.back.now;
    }) (W.contents out.old) (W.contents out.new)) }
    ensures refused { IfErr result (λ e. (e ≡ Memory) ⊎ (e ≡ Output) ⊎ ((e ≡ BadShape)
        × (65535 < length (row_lines row.now.bench row.now.front.now row.now.arming row.now.back.now)))) }
    ensures none { result ≡ Err BadShape → W.contents out.new ≡ W.contents out.old }
{
    scripts_read_as_written();
    shape_in_range(shape);
    let lines = script_lines(alloc, row)?;
    fits(&lines);
    if MOST_LINES < lines.len() {
        return Err(Refusal::BadShape);
    }
    write_script(out, shape, &lines)
}

/// Writes the row of that number of a bench over those lines, from a site on, with the lines in front of it.
fn show_from<'a, C: Crew, W: Write>(
    runner: &Runner<'a, C>,
    site: &Site,
    number: u64,
    front: &'a [Line],
    out: &mut W,
) -> Result<(), Refusal>
    requires lines { AreSwept runner.now.setting.shape.now runner.now.lines.now }
    requires sits { Sits runner.now.setting.shape.now site.now }
    requires front { All (IsLineInRange runner.now.setting.shape.now) front.now }
    ensures shown { OnOk result ((b : Bench)
        → RunsAt runner.now.setting.shape.now b site.now
        → ShowsFrom runner.now.bench runner.now.setting.shape.now site.now.off.disk (unpowered b) front.now runner.now.lines.now number
        (W.contents out.old) (W.contents out.new)) }
    ensures refused { IfErr result (λ e. (e ≡ Memory) ⊎ (e ≡ Output) ⊎ ((e ≡ BadShape) × ((b : Bench)
        → RunsAt runner.now.setting.shape.now b site.now
        → ShowsNone runner.now.bench runner.now.setting.shape.now site.now.off.disk (unpowered b) front.now runner.now.lines.now number))) }
    ensures none { result ≡ Err BadShape → W.contents out.new ≡ W.contents out.old }
{
    let run = find_run(runner, site, number)?;
    let arming = arming_of(runner.setting.shape, runner.bench, run)?;
    let count = count_armed(runner, site, run)?;
    let row = RowLines {
        bench: runner.bench,
        front,
        arming,
        back: &runner.lines[..count],
    };
    write_shown(runner.setting.alloc, runner.setting.shape, &row, out)
}

/// Writes the wanted row of a bench over lines of a script that begins with these payloads.
fn show_lines<'a, C: Crew, W: Write>(
    setting: &Setting<'a, C>,
    wanted: WantedRow,
    lines: &'a [Line],
    payloads: &Payloads,
    out: &mut W,
) -> Result<(), Refusal>
    requires lines { AreSwept setting.now.shape.now lines.now }
    ensures shown { OnOk result (ShownRow wanted.bench setting.now.shape.now payloads.now lines.now wanted.number
        (W.contents out.old) (W.contents out.new)) }
    ensures refused { IfErr result (λ e. (e ≡ Memory) ⊎ (e ≡ Output)
        ⊎ ((e ≡ BadShape) × NoRow wanted.bench setting.now.shape.now payloads.now lines.now wanted.number)) }
    ensures none { result ≡ Err BadShape → W.contents out.new ≡ W.contents out.old }
{
    let (begin, site) = run_to_format(setting, lines, payloads)?;
    let runner = Runner {
        setting: *setting,
        bench: wanted.bench,
        lines: &lines[begin..],
    };
    show_from(&runner, &site, wanted.number, &lines[..begin], out)
}

/// Writes the wanted row of a bench over a script whose lines are all plain.
fn show_plain_script<R: Threads + Sync, W: Write>(
    alloc: Global,
    wanted: WantedRow,
    script: &Script,
    payloads: &Payloads,
    out: &mut W,
) -> Result<(), Refusal>
    requires ranges { All (IsLineInRange script.now.shape) script.now.lines.items }
    requires plain { All IsPlainLine script.now.lines.items }
    ensures shown { OnOk result (ShownRow wanted.bench script.now.shape payloads.now script.now.lines.items wanted.number
        (W.contents out.old) (W.contents out.new)) }
    ensures refused { IfErr result (λ e. (e ≡ Memory) ⊎ (e ≡ Output)
        ⊎ ((e ≡ BadShape) × NoRow wanted.bench script.now.shape payloads.now script.now.lines.items wanted.number)) }
    ensures none { result ≡ Err BadShape → W.contents out.new ≡ W.contents out.old }
{
    let crew = lane_by_lane::<R>();
    let setting = Setting {
        alloc,
        crew: &crew,
        shape: &script.shape,
    };
    show_lines(&setting, wanted, &script.lines, payloads, out)
}

/// Writes a row of a bench as a script (docs/SCRIPT.md, "The benches"): the script's lines up to its first `format` that is
/// answered ok, then what the row arms. The lines up to the one within which the cut strikes follow for the power-cut bench,
/// and all lines and `cut 00` for the fault bench. Then comes `on keep`, which says what the row says. The script is run
/// twice, once as it is and once with that armed, by these payloads; they are no part of what is written.
///
/// Refused as `run_bench` is, and `BadShape` where the bench has no run of that number, where no line arms its call,
/// or where the row has more lines than a script may have. Then nothing is written.
pub fn show_row<R: Threads + Sync, W: Write>(
    alloc: Global,
    wanted: WantedRow,
    script: &[u8],
    payloads: Payloads,
    out: &mut W,
) -> Result<(), Refusal>
    // What was written is the run of that number, and is read back as it. Its lines run to its end with just that armed.
    ensures shown { OnOk result (IsRowOf wanted.bench wanted.number payloads script.now (W.contents out.old) (W.contents out.new)) }
    // A refusal is want of memory, or the writer's, or the script's fault, or no bench runs the script, or there is no such row.
    ensures refused { IfErr result (λ e. (e ≡ Memory) ⊎ (e ≡ Output) ⊎ (script_of script.now ≡ Err e)
        ⊎ ((e ≡ NotPlain) × NoBenchRuns script.now)
        ⊎ ((e ≡ BadShape) × NoRowOf wanted.bench wanted.number payloads script.now)) }
    // A script with a fault runs nothing, and neither does one that no bench runs.
    ensures nothing { (e : Refused) → script_of script.now ≡ Err e
        → (W.contents out.new ≡ W.contents out.old) × ((result ≡ Err e) ⊎ (result ≡ Err Memory)) }
    ensures plain { (said : Said) → script_of script.now ≡ Ok said → IsNotPlain said.lines
        → (W.contents out.new ≡ W.contents out.old) × ((result ≡ Err NotPlain) ⊎ (result ≡ Err Memory)) }
    // Where there is no such row, nothing is written.
    ensures none { result ≡ Err BadShape → W.contents out.new ≡ W.contents out.old }
{
    let script = plain_script(alloc, script)?;
    show_plain_script::<R, W>(alloc, wanted, &script, &payloads, out)
}
