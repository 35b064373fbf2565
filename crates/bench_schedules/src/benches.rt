//! Whole benches.
//! A law runs nothing, and tells the prover a fact: `orders_keep_lines`, `scripts_read_as_written`.

ghost use Rattle.std.specs.Prelude.{◌≡◌, ◌⊎◌, ◌+◌, ◌-◌, ◌≤◌, ◌∷◌, [], ℕ, List, slice_index_or, length, All, IfErr, IfOk, OnOk, Ok, Err};
ghost use Rattle.std.specs.Io.KnownBytes.{Appends};
ghost use Rattle.board_model.specs.declared.refusal.Refusal.{Refusal as Refused};
ghost use Rattle.board_model.specs.declared.refusal.Refusal.TheVariants.{Memory, Output};
ghost use Rattle.script_lang.specs.Lines.{IsLineInRange};
ghost use Rattle.script_lang.specs.Scripts.{script_of, Script as Said};
ghost use Rattle.script_lang.specs.Views.{view};
ghost use Rattle.bench_schedules.specs.Drawable.{AreDrawable};
ghost use Rattle.bench_schedules.specs.Numbers.{number_of_other, place_of_other};
ghost use Rattle.bench_schedules.specs.Schedules.{Ran, RanOwn, RunText, Shown, Wrote, WroteSchedules, differing, has_tight, own_count, own_tight, tight_text};

use crate::laws::orders_keep_lines;
use crate::numbers::{line_numbers, number_at, number_of_other};
use crate::own_runs::{OwnRun, drawn_schedule, run_own};
use crate::runs::{Difference, run_until};
use crate::written::{write_count, write_difference, write_tight};
use bench_report::{Setting, lane_by_lane};
use board::Payloads;
use board_model::{Refusal, shape_in_range, unwritten};
use crew::{Crew, Jobs, Part, Progress, Sink, Task, Window, hand_on_all};
use script_lang::{Line, Script, fits, parse_script, scripts_read_as_written, write_script};
use std::alloc::{AllocError, Global};
use std::io::{self, Write};
use std::thread::Threads;

/// How many schedules were run, and how many of them gave another report than the script's own run.
#[derive(Clone, Copy, Drop)]
pub struct Compared {
    pub runs: u64,
    pub differ: u64,
}

/// Which schedules of a script are run.
#[derive(Clone, Copy, Drop)]
pub struct SchedulePlan {
    /// The seed from which they are drawn.
    pub seed: u64,
    /// How many they are, numbered from 1.
    pub count: u64,
    /// Of their numbers those of this part alone; where there is none, all.
    pub part: Option<Part>,
}

/// A script that is run by schedules.
#[derive(Drop)]
struct DrawnRunner<'a, C> {
    /// How its boards are made.
    setting: Setting<'a, C>,
    /// Its lines.
    lines: &'a [Line],
    /// What each slot boots before the first line.
    payloads: &'a Payloads,
    /// The number of its board line, and of each of its lines.
    numbers: &'a [u64],
    /// The seed from which schedules are drawn.
    seed: u64,
}

/// Runs schedule k of the script.
fn run_schedule<C: Crew>(
    runner: &DrawnRunner<'_, C>,
    own: &OwnRun,
    k: u64,
) -> Result<Option<Difference>, AllocError>
    requires drawable { AreDrawable runner.now.setting.shape.now runner.now.lines.now own.now.answers.items }
    ensures ran { IfOk result (λ differs.
        Ran (record { size = runner.now.setting.shape.now; lines = runner.now.lines.now }) runner.now.payloads.now
        own.now.answers.items differs) }
{
    orders_keep_lines();
    let lines = drawn_schedule(runner.setting.alloc, runner.lines, own, runner.seed, k)?;
    run_until(&runner.setting, runner.payloads, &lines, &own.answers)
}

/// Writes the line of a schedule where its run differs. Answers how many schedules that are: 1, or 0.
fn write_run<C, W: Write>(
    runner: &DrawnRunner<'_, C>,
    drawn: &DrawnRun,
    out: &mut W,
) -> io::Result<u64>
    requires few { length runner.now.lines.now ≤ 65535 }
    ensures ok { IfOk result (λ m. (text : List ℕ) × RunText (λ place. slice_index_or runner.now.numbers.now
        (1 + place_of_other place runner.now.lines.now) 0) drawn.now.number drawn.now.differs text
        × Appends (W.contents out.old) (W.contents out.new) text × (m ≡ differing (drawn.now.differs ∷ []))) }
{
    match &drawn.differs {
        None => Ok(0),
        Some(difference) => {
            let number = number_of_other(runner.numbers, runner.lines, difference.place);
            let k = drawn.number;
            write_difference(runner.setting.alloc, out, k, number, difference)?;
            Ok(1)
        }
    }
}

/// A schedule of the script that was run, by its number, and where it differs.
#[derive(Drop)]
struct DrawnRun {
    number: u64,
    differs: Option<Difference>,
}

/// The runs of the schedules of a script, each by its number.
#[derive(Drop)]
struct DrawnRuns<'a, 'b, 'c, C> {
    runner: &'a DrawnRunner<'b, C>,
    own: &'c OwnRun,
}

impl<'a, 'b, 'c, C: Crew + Sync> Task for DrawnRuns<'a, 'b, 'c, C> {
    ghost use Rattle.std.specs.Thread.{IsSync};
    ghost use Rattle.bench_schedules.specs.Drawn.{IsDrawn};

    type Row = DrawnRun;

    ghost has = { λ runs k. AreDrawable runs.runner.now.setting.shape.now runs.runner.now.lines.now runs.own.now.answers.items
        × IsSync C.Handle.row };

    ghost is_row = { λ runs k drawn. IsDrawn (record { size = runs.runner.now.setting.shape.now; lines = runs.runner.now.lines.now })
        runs.runner.now.payloads.now runs.own.now.answers.items k drawn };

    /// Runs the schedule of that number.
    fn row(&self, number: u64) -> Result<DrawnRun, AllocError> {
        let differs = run_schedule(self.runner, self.own, number)?;
        Ok(DrawnRun { number, differs })
    }
}

/// What is written of schedules, and how many of them differ.
#[derive(Drop)]
struct DrawnReport<'a, 'b, 'c, C, W> {
    runner: &'a DrawnRunner<'b, C>,
    out: &'c mut W,
    differ: u64,
    ghost few: { length runner.now.lines.now ≤ 65535 },
}

impl<'a, 'b, 'c, C, W: Write> Sink<DrawnRun> for DrawnReport<'a, 'b, 'c, C, W> {
    ghost use Rattle.bench_schedules.specs.Drawn.{TellsDrawn};

    ghost takes = { λ old drawn new. TellsDrawn W.contents old drawn new };

    /// Writes the line of a schedule where it differs, and counts it.
    fn take<P: Progress>(&mut self, drawn: DrawnRun, progress: &P) -> io::Result<()> {
        if drawn.differs.is_some() {
            progress.pause();
        }
        let differ = write_run(self.runner, &drawn, self.out)?;
        self.differ = self.differ.saturating_add(differ);
        progress.went(1);
        Ok(())
    }
}

/// Runs schedules of that window of their numbers, which begin with 1, by the threads of these jobs, and writes a line for each
/// that differs. Answers how many do.
fn run_schedules<R: Threads + Sync, P: Progress, C: Crew + Sync, W: Write>(
    jobs: &Jobs<'_, R, P>,
    runner: &DrawnRunner<'_, C>,
    own: &OwnRun,
    within: Window,
    out: &mut W,
) -> io::Result<u64>
    requires drawable { AreDrawable runner.now.setting.shape.now runner.now.lines.now own.now.answers.items }
    requires most { within.to ≤ 1000000 }
    ensures wrote { IfOk result (λ differ. Wrote (record { size = runner.now.setting.shape.now; lines = runner.now.lines.now })
        runner.now.payloads.now
        (λ place. slice_index_or runner.now.numbers.now (1 + place_of_other place runner.now.lines.now) 0)
        own.now.answers.items (1 + within.from) (within.to - within.from) (W.contents out.old) (W.contents out.new) differ) }
{
    let runs = DrawnRuns { runner, own };
    let mut report = DrawnReport {
        runner,
        out,
        differ: 0,
    };
    let Window { from, to } = within;
    let count = to - from;
    jobs.begin(count);
    hand_on_all(
        jobs,
        runner.setting.alloc,
        &runs,
        1 + from,
        count,
        &mut report,
    )?;
    Ok(report.differ)
}

/// Writes the line of a stretch that names few turns, by the place of its first line in the script.
fn write_one_tight<W: Write>(numbers: &[u64], place: usize, out: &mut W) -> io::Result<()>
    ensures ok { OnOk result ((told : List ℕ) × Appends (W.contents out.old) (W.contents out.new) (tight_text told)) }
{
    if 65_535 < place {
        return Ok(());
    }
    write_tight(out, number_at(numbers, place))
}

/// Whether a run of that part writes which stretches name few turns: the first does, and one of the whole.
fn writes_tight(part: Option<Part>) -> bool
    ensures { result ≡ has_tight part }
{
    match part {
        None => true,
        Some(part) => part.number == 1,
    }
}

/// Writes a line for each stretch that names few turns; of a part only the first does.
fn write_own_tight<W: Write>(
    numbers: &[u64],
    tight: &[usize],
    part: Option<Part>,
    out: &mut W,
) -> io::Result<()>
    ensures ok { OnOk result ((told : List ℕ) × Appends (W.contents out.old) (W.contents out.new) (tight_text (own_tight part told))) }
{
    if !writes_tight(part) {
        return Ok(());
    }
    for place in tight {
        write_one_tight(numbers, *place, out)?;
    }
    Ok(())
}

/// Runs schedules of the script beside its own run, by that plan. Writes which of its stretches name few turns, which schedules differ,
/// and how many. Answers how many were run, and how many differ.
fn compare_own<R: Threads + Sync, P: Progress, C: Crew + Sync, W: Write>(
    jobs: &Jobs<'_, R, P>,
    runner: &DrawnRunner<'_, C>,
    own: &OwnRun,
    plan: SchedulePlan,
    out: &mut W,
) -> io::Result<Compared>
    requires drawable { AreDrawable runner.now.setting.shape.now runner.now.lines.now own.now.answers.items }
    requires own { RanOwn runner.now.setting.shape.now runner.now.payloads.now runner.now.lines.now own.now.answers.items }
    requires most { plan.count ≤ 1000000 }
    ensures wrote { IfOk result (λ count. (count.runs ≡ own_count plan.part plan.count) × WroteSchedules (record { size = runner.now.setting.shape.now; lines = runner.now.lines.now })
        runner.now.payloads.now
        (λ place. slice_index_or runner.now.numbers.now (1 + place_of_other place runner.now.lines.now) 0)
        plan.part plan.count (W.contents out.old) (W.contents out.new) count.differ) }
{
    write_own_tight(runner.numbers, &own.stretches.tight, plan.part, out)?;
    let within = Window::of_part(plan.part, plan.count);
    let differ = run_schedules(jobs, runner, own, within, out)?;
    let Window { from, to } = within;
    let runs = to - from;
    write_count(out, plan.part, runs, differ)?;
    Ok(Compared { runs, differ })
}

/// Runs a script that was read as it stands, and then schedules of it, as `compare_own` does.
fn compare_script<'a, R: Threads + Sync, P: Progress, W: Write>(
    jobs: &Jobs<'_, R, P>,
    alloc: Global,
    script: &'a Script,
    payloads: &'a Payloads,
    numbers: &'a [u64],
    plan: SchedulePlan,
    out: &mut W,
) -> io::Result<Compared>
    requires few { length script.now.lines.items ≤ 65535 }
    requires ranges { All (IsLineInRange script.now.shape) script.now.lines.items }
    requires most { plan.count ≤ 1000000 }
    ensures wrote { IfOk result (λ count. (count.runs ≡ own_count plan.part plan.count) × WroteSchedules (view script.now) payloads.now
        (λ place. slice_index_or numbers.now (1 + place_of_other place script.now.lines.items) 0)
        plan.part plan.count (W.contents out.old) (W.contents out.new) count.differ) }
{
    let lines = script.lines.as_slice();
    shape_in_range(&script.shape);
    fits(lines);
    let crew = lane_by_lane::<R>();
    let runner = DrawnRunner {
        setting: Setting {
            alloc,
            crew: &crew,
            shape: &script.shape,
        },
        lines,
        payloads,
        numbers,
        seed: plan.seed,
    };
    let own = run_own(&runner.setting, payloads, lines)?;
    compare_own(jobs, &runner, &own, plan, out)
}

/// Writes schedule k of a script that was read. It is run first: its own run tells in which part of each stretch the order of turns
/// matters, and the schedule is drawn from that.
fn show_script<R: Threads + Sync, W: Write>(
    alloc: Global,
    script: &Script,
    payloads: &Payloads,
    seed: u64,
    k: u64,
    out: &mut W,
) -> Result<(), Refusal>
    requires few { length script.now.lines.items ≤ 65535 }
    requires ranges { All (IsLineInRange script.now.shape) script.now.lines.items }
    ensures shown { OnOk result (Shown (view script.now) (W.contents out.old) (W.contents out.new)) }
    ensures refused { IfErr result (λ e. (e ≡ Memory) ⊎ (e ≡ Output)) }
{
    scripts_read_as_written();
    shape_in_range(&script.shape);
    let lines = script.lines.as_slice();
    fits(lines);
    let crew = lane_by_lane::<R>();
    let setting = Setting {
        alloc,
        crew: &crew,
        shape: &script.shape,
    };
    let own = run_own(&setting, payloads, lines)?;
    let drawn = drawn_schedule(alloc, lines, &own, seed, k)?;
    write_script(out, &script.shape, &drawn)
}

/// The schedule bench (docs/SCRIPT.md, "Schedules"). It runs a script as it stands, with these payloads in the slots, and
/// then schedules of it, by that plan: the same lines, but with the turns of each stretch in another order. It compares their reports,
/// leaving out `turn` lines. Where a schedule's report differs, it writes the first line that does, with the number of the
/// script's line. At the end it writes how many differ. Each schedule is drawn from the seed and its number alone. The
/// schedules are run by the threads of these jobs; what is written is the same however many these are. Of a plan with a part
/// those of the part alone are run, under their own numbers, and counted.
///
/// Refused `BadShape` or `BadScript` where the script has a fault, and then nothing is written; `Memory` where memory was
/// refused in any run, to a power-on, a suspension, an examination of the disk or the disk's record, which is never a difference;
/// `Output` where the writer failed. After the last two any part may stand in the writer.
pub fn schedules<R: Threads + Sync, P: Progress, W: Write>(
    jobs: &Jobs<'_, R, P>,
    alloc: Global,
    script: &[u8],
    payloads: &Payloads,
    plan: SchedulePlan,
    out: &mut W,
) -> Result<Compared, Refusal>
    requires most { plan.count ≤ 1000000 }
    // All schedules, or those of the part, were run and compared with the script's own run, and those that differ were written and
    // counted.
    ensures wrote { IfOk result (λ count. (count.runs ≡ own_count plan.part plan.count) × (said : Said) × (script_of script.now ≡ Ok said)
        × WroteSchedules said payloads.now (number_of_other script.now said.lines) plan.part plan.count
        (W.contents out.old) (W.contents out.new) count.differ) }
    // A refusal is the script's fault, or want of memory, or the writer's.
    ensures refused { IfErr result (λ e. (e ≡ Memory) ⊎ (e ≡ Output) ⊎ (script_of script.now ≡ Err e)) }
    // A script with a fault runs nothing.
    ensures nothing { (e : Refused) → script_of script.now ≡ Err e
        → (W.contents out.new ≡ W.contents out.old) × ((result ≡ Err e) ⊎ (result ≡ Err Memory)) }
{
    let read = parse_script(alloc, script)?;
    let numbers = line_numbers(alloc, script)?;
    match compare_script::<R, P, W>(jobs, alloc, &read, payloads, &numbers, plan, out) {
        Ok(compared) => Ok(compared),
        Err(error) => Err(unwritten(error)),
    }
}

/// Writes schedule k of a script as a script: the one that [`schedules`] runs by that number, with the same seed and the same
/// payloads. The payloads are no part of what is written.
///
/// Refused as `schedules` is.
pub fn show<R: Threads + Sync, W: Write>(
    alloc: Global,
    script: &[u8],
    payloads: &Payloads,
    seed: u64,
    k: u64,
    out: &mut W,
) -> Result<(), Refusal>
    // What was written is a schedule of the script, and is read back as it.
    ensures shown { OnOk result ((said : Said) × (script_of script.now ≡ Ok said)
        × Shown said (W.contents out.old) (W.contents out.new)) }
    // A refusal is the script's fault, or want of memory, or the writer's.
    ensures refused { IfErr result (λ e. (e ≡ Memory) ⊎ (e ≡ Output) ⊎ (script_of script.now ≡ Err e)) }
    // A script with a fault runs nothing.
    ensures nothing { (e : Refused) → script_of script.now ≡ Err e
        → (W.contents out.new ≡ W.contents out.old) × ((result ≡ Err e) ⊎ (result ≡ Err Memory)) }
{
    let read = parse_script(alloc, script)?;
    show_script::<R, W>(alloc, &read, payloads, seed, k, out)
}
