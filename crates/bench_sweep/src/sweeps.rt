//! Whole benches.

ghost use Rattle.std.specs.Prelude.{◌≡◌, ◌⊎◌, ◌≤◌, ◌<◌, ◌+◌, ◌^◌, ◌∷◌, ◌++◌, [], ℕ, List, Option, length, take, All, Ok, Err, IfOk, IfErr, OnOk};
ghost use Rattle.std.specs.List.{AllZip};
ghost use Rattle.std.specs.Io.KnownBytes.{Appends};
ghost use Rattle.board_model.specs.declared.refusal.Refusal.{Refusal};
ghost use Rattle.board_model.specs.declared.refusal.Refusal.TheVariants.{Memory, Output, NotPlain};
ghost use Rattle.script_lang.specs.Lines.{IsLineInRange};
ghost use Rattle.script_lang.specs.Scripts.{script_of, Script as Said};
ghost use Rattle.bench_report.specs.Bench.{Bench};
ghost use Rattle.bench_report.specs.Happens.{unpowered};
ghost use Rattle.bench_sweep.specs.Points.{callers, calls_of, MadeCalls};
ghost use Rattle.bench_sweep.specs.Runs.{RunsAt, Sits, IsLife};
ghost use Rattle.bench_sweep.specs.Made.{IsRunOf};
ghost use Rattle.bench_sweep.specs.Rows.{sweep_text};
ghost use Rattle.bench_sweep.specs.Swept.{IsPlainLine, IsNotPlain, NoBenchRuns, AreSwept, all_points, own_points, points_from, WroteAll, IsBenchOf};
ghost use Rattle.bench_sweep.specs.Took.{RunTook};
ghost use Rattle.crew.specs.Parts.{window};
ghost use Rattle.bench_sweep.specs.Reports.{Reports, ReportsAll, ReportsScript, RunsAlong, TakesPoint};

use crate::begins::run_to_format;
use crate::chunks::{RunsAtCalls, chunk_size, marks_of};
use crate::judges::Sweep;
use crate::judging::PointRows;
use crate::plain_runs::{
    LifeSpan, calls_between, calls_of_all, plain_script, run_plain, stretch_of,
};
use crate::plan::SweepPlan;
use crate::points::{CALLERS, Caller};
use crate::rows::{write_rows, write_sweep};
use crate::runner::Runner;
use crate::site::Site;
use bench_report::{Setting, lane_by_lane};
use board::Payloads;
use board_model::{Refusal, unwritten};
use crew::{Chunk, Crew, Jobs, Part, Progress, Sink, Window, hand_on_all};
use script_lang::{Line, Script};
use std::alloc::{AllocError, Global};
use std::io::{self, Write};
use std::mem::replace;
use std::thread::Threads;

/// What a bench writes, and what it counts.
#[derive(Drop)]
struct SweepReport<'a, W> {
    out: &'a mut W,
    done: Sweep,
    /// The lines of a point are written only where one of its runs is wrong.
    quiet: bool,
}

impl<'a, W: Write> SweepReport<'a, W> {
    /// Writes the lines of a point, and counts it and its runs.
    fn take_point<P: Progress>(&mut self, made: &PointRows, progress: &P) -> io::Result<()>
        ensures took { OnOk result (TakesPoint W.contents self.old made.now self.new) }
    {
        let sweep = made.sweep;
        if !self.quiet || sweep.wrong != 0 {
            progress.pause();
            write_rows(self.out, made.rows.as_slice())?;
        }
        self.done.points = self.done.points.saturating_add(1);
        self.done.runs = self.done.runs.saturating_add(sweep.runs);
        self.done.wrong = self.done.wrong.saturating_add(sweep.wrong);
        progress.went(1);
        Ok(())
    }
}

impl<'a, W: Write> Sink<Chunk<PointRows>> for SweepReport<'a, W> {
    ghost use Rattle.std.specs.Prelude.{◌≡◌, true};
    ghost use Rattle.crew.specs.Handed.{TakesAll};
    ghost use Rattle.bench_sweep.specs.Reports.{TakesPoint};

    ghost takes = { λ old made new. (made.whole ≡ true) × TakesAll (TakesPoint W.contents) old made.rows.items new };

    /// Writes the lines of the points of a chunk, in order, and tells of each that it went. Refused after them where the chunk
    /// lacks some.
    fn take<P: Progress>(&mut self, made: Chunk<PointRows>, progress: &P) -> io::Result<()> {
        let Chunk { rows, whole } = made;
        for point in rows.as_slice() {
            self.take_point(point, progress)?;
        }
        if whole {
            Ok(())
        } else {
            Err(AllocError.into())
        }
    }
}

/// Calls of a caller that lines of the plain run make.
#[derive(Clone, Copy, Drop)]
struct Calls {
    caller: Caller,
    /// How many it has made before, from the first `format ok` on.
    made: u64,
    /// How many they are.
    count: u64,
}

/// Makes the runs at those calls, which the lines make from the site on: at those within a window of them, a chunk of them by one
/// thread. There are `count` lines up to the next site.
fn run_at_calls<R: Threads + Sync, P: Progress, C: Crew + Sync, W: Write>(
    jobs: &Jobs<'_, R, P>,
    runner: &Runner<'_, C>,
    count: usize,
    site: &Site,
    calls: Calls,
    within: Window,
    report: &mut SweepReport<'_, W>,
) -> io::Result<()>
    requires few { count ≤ length runner.now.lines.now }
    requires numbers { calls.made + calls.count < 2 ^ 64 }
    requires lines { AreSwept runner.now.setting.shape.now runner.now.lines.now }
    requires sits { Sits runner.now.setting.shape.now site.now }
    ensures wrote { OnOk result ((b : Bench)
        → RunsAt runner.now.setting.shape.now b site.now
        → Reports W.contents runner.now.bench (RunsAlong runner.now.setting.shape.now runner.now.bench calls.caller site.now calls.made (unpowered b) runner.now.lines.now)
        report.old report.new (window within.from within.to (points_from calls.caller (calls.made + 1) calls.count))) }
{
    let from = within.from.min(calls.count);
    let to = within.to.min(calls.count);
    if from == to {
        return Ok(());
    }
    let within = Window { from, to };
    let each = chunk_size(to - from, jobs.count());
    let marks = marks_of(runner, count, site, calls.caller)?;
    let task = RunsAtCalls {
        runner,
        count,
        site,
        caller: calls.caller,
        before: calls.made,
        within,
        each,
        marks: &marks,
    };
    let chunks = within.chunks(each);
    hand_on_all(jobs, runner.setting.alloc, &task, 0, chunks, report)
}

/// Goes over the points of that caller in the lines up to the next moment at which the board is off, as far as they lie within
/// the window, and puts the board of that moment in the place of this one. The caller made `made` before them. Answers how many
/// lines they are, and how many calls they made.
fn sweep_stretch<R: Threads + Sync, P: Progress, C: Crew + Sync, W: Write>(
    jobs: &Jobs<'_, R, P>,
    runner: &Runner<'_, C>,
    site: &mut Site,
    caller: Caller,
    made: u64,
    within: Window,
    report: &mut SweepReport<'_, W>,
) -> io::Result<(usize, u64)>
    requires lines { AreSwept runner.now.setting.shape.now runner.now.lines.now }
    requires sits { Sits runner.now.setting.shape.now site.old }
    requires made { made ≤ calls_of caller site.old.off.disk }
    ensures few { IfOk result (λ did. did.0 ≤ length runner.now.lines.now) }
    ensures some { IfOk result (λ did. 0 < length runner.now.lines.now → 0 < did.0) }
    ensures calls { IfOk result (λ did. calls_of caller site.new.off.disk ≡ calls_of caller site.old.off.disk + did.1) }
    ensures below { OnOk result (calls_of caller site.new.off.disk < 2 ^ 64) }
    ensures sits { OnOk result (Sits runner.now.setting.shape.now site.new) }
    ensures lives { IfOk result (λ did. (b : Bench)
        → RunsAt runner.now.setting.shape.now b site.old
        → IsLife runner.now.setting.shape.now b runner.now.lines.now did.0 site.new) }
    ensures took { IfOk result (λ did. RunTook runner.now.setting.shape.now (take did.0 runner.now.lines.now)
        site.old.off.disk site.new.off.disk) }
    ensures wrote { IfOk result (λ did. (b : Bench)
        → RunsAt runner.now.setting.shape.now b site.old
        → Reports W.contents runner.now.bench (RunsAlong runner.now.setting.shape.now runner.now.bench caller site.old made (unpowered b) runner.now.lines.now)
        report.old report.new (window within.from within.to (points_from caller (made + 1) did.1))) }
{
    let LifeSpan { count, next } = stretch_of(runner, site)?;
    let made_here = match calls_between(caller, site, &next) {
        Ok(calls) => calls,
        Err(refused) => {
            next.release();
            return Err(refused.into());
        }
    };
    let calls = Calls {
        caller,
        made,
        count: made_here,
    };
    if let Err(error) = run_at_calls(jobs, runner, count, site, calls, within, report) {
        next.release();
        return Err(error);
    }
    replace(site, next).release();
    Ok((count, made_here))
}

/// Goes over the points of that caller that lie within the window, and answers how many calls it made. Each run goes on from the
/// line in which its call lies. It ends with the life in which the last of `all` calls was made.
fn sweep_caller<R: Threads + Sync, P: Progress, C: Crew + Sync, W: Write>(
    jobs: &Jobs<'_, R, P>,
    runner: &Runner<'_, C>,
    begin: &Site,
    caller: Caller,
    all: u64,
    within: Window,
    report: &mut SweepReport<'_, W>,
) -> io::Result<u64>
    requires lines { AreSwept runner.now.setting.shape.now runner.now.lines.now }
    requires sits { Sits runner.now.setting.shape.now begin.now }
    ensures wrote { IfOk result (λ n. (b : Bench)
        → RunsAt runner.now.setting.shape.now b begin.now
        → Reports W.contents runner.now.bench (IsRunOf runner.now.setting.shape.now runner.now.bench begin.now.off.disk (unpowered b) runner.now.lines.now)
        report.old report.new (window within.from within.to (points_from caller 1 n))) }
{
    let mut site = begin.copy(runner.setting.alloc)?;
    let mut from = 0;
    let mut made = 0u64;
    let mut left = within;
    while from < runner.lines.len() && made < all {
        let rest = Runner {
            setting: runner.setting,
            bench: runner.bench,
            lines: &runner.lines[from..],
        };
        match sweep_stretch(jobs, &rest, &mut site, caller, made, left, report) {
            Ok((count, calls)) => {
                from += count;
                made += calls;
                left = left.behind(calls);
            }
            Err(error) => {
                site.release();
                return Err(error);
            }
        }
    }
    site.release();
    Ok(made)
}

/// Goes over the points of each caller in turn, over the lines from that site on, as far as they are of the part. Each caller has as
/// many as it made calls up to that end of the plain run. Answers how many they are of all callers. Refused where another run of the
/// lines made other calls: then the one or the other run was refused memory.
fn sweep_all_callers<R: Threads + Sync, P: Progress, C: Crew + Sync, W: Write>(
    jobs: &Jobs<'_, R, P>,
    runner: &Runner<'_, C>,
    site: &Site,
    end: &Site,
    part: Option<Part>,
    report: &mut SweepReport<'_, W>,
) -> io::Result<u64>
    requires lines { AreSwept runner.now.setting.shape.now runner.now.lines.now }
    requires sits { Sits runner.now.setting.shape.now site.now }
    ensures wrote { IfOk result (λ all. (b : Bench)
        → RunsAt runner.now.setting.shape.now b site.now
        → (counts : List ℕ) × AllZip (MadeCalls site.now.off.disk end.now.off.disk) callers counts
        × (all ≡ length (all_points callers counts)) × Reports W.contents runner.now.bench (IsRunOf runner.now.setting.shape.now runner.now.bench site.now.off.disk (unpowered b) runner.now.lines.now)
        report.old report.new (own_points part counts)) }
{
    let all = calls_of_all(site, end)?;
    let mut within = Window::of_part(part, all);
    jobs.begin(within.to - within.from);
    for caller in CALLERS {
        let calls = calls_between(caller, site, end)?;
        let made = sweep_caller(jobs, runner, site, caller, calls, within, report)?;
        if made != calls {
            return Err(AllocError.into());
        }
        within = within.behind(made);
    }
    Ok(all)
}

/// Runs the lines from that site on as they are, and then goes over the points of each caller, as far as they are of the part. Answers
/// how many points all callers have.
fn sweep_site<R: Threads + Sync, P: Progress, C: Crew + Sync, W: Write>(
    jobs: &Jobs<'_, R, P>,
    runner: &Runner<'_, C>,
    site: &Site,
    part: Option<Part>,
    report: &mut SweepReport<'_, W>,
) -> io::Result<u64>
    requires lines { AreSwept runner.now.setting.shape.now runner.now.lines.now }
    requires sits { Sits runner.now.setting.shape.now site.now }
    ensures wrote { IfOk result (λ all. (b : Bench)
        → RunsAt runner.now.setting.shape.now b site.now
        → ReportsAll W.contents runner.now.setting.shape.now runner.now.bench part site.now.off.disk (unpowered b) runner.now.lines.now
        all report.old report.new) }
{
    let end = run_plain(runner, site)?;
    sweep_all_callers(jobs, runner, site, &end, part, report)
}

/// Goes over the points of those lines, which stand in a script that begins with these payloads. Answers how many points it has in all.
fn sweep_lines<'a, R: Threads + Sync, P: Progress, C: Crew + Sync, W: Write>(
    jobs: &Jobs<'_, R, P>,
    setting: &Setting<'a, C>,
    plan: SweepPlan,
    lines: &'a [Line],
    payloads: &Payloads,
    report: &mut SweepReport<'_, W>,
) -> io::Result<u64>
    requires lines { AreSwept setting.now.shape.now lines.now }
    ensures wrote { IfOk result (λ all. ReportsScript W.contents setting.now.shape.now plan.bench plan.part payloads.now lines.now
        all report.old report.new) }
{
    let (count, site) = run_to_format(setting, lines, payloads)?;
    let runner = Runner {
        setting: *setting,
        bench: plan.bench,
        lines: &lines[count..],
    };
    sweep_site(jobs, &runner, &site, plan.part, report)
}

/// Writes the rows that the bench makes of those lines. Answers how many points it has in all, and its counts.
fn sweep_rows<'a, R: Threads + Sync, P: Progress, C: Crew + Sync, W: Write>(
    jobs: &Jobs<'_, R, P>,
    setting: &Setting<'a, C>,
    plan: SweepPlan,
    lines: &'a [Line],
    payloads: &Payloads,
    out: &mut W,
) -> io::Result<(u64, Sweep)>
    requires lines { AreSwept setting.now.shape.now lines.now }
    ensures wrote { IfOk result (λ made. (last : Option (List ℕ)) → Appends (W.contents out.new) last (sweep_text plan.part made.0 made.1 ++ 10 ∷ [])
        → WroteAll plan setting.now.shape.now payloads.now lines.now (W.contents out.old) last made.1) }
{
    let done = Sweep {
        points: 0,
        runs: 0,
        wrong: 0,
    };
    let mut report = SweepReport {
        out,
        done,
        quiet: plan.quiet,
    };
    let all = sweep_lines(jobs, setting, plan, lines, payloads, &mut report)?;
    Ok((all, report.done))
}

/// Writes the rows that the bench makes of those lines, and their counts, and answers these.
fn write_swept<'a, R: Threads + Sync, P: Progress, C: Crew + Sync, W: Write>(
    jobs: &Jobs<'_, R, P>,
    setting: &Setting<'a, C>,
    plan: SweepPlan,
    lines: &'a [Line],
    payloads: &Payloads,
    out: &mut W,
) -> io::Result<Sweep>
    requires lines { AreSwept setting.now.shape.now lines.now }
    ensures wrote { IfOk result (λ sweep. WroteAll plan setting.now.shape.now payloads.now lines.now
        (W.contents out.old) (W.contents out.new) sweep) }
{
    let (all, done) = sweep_rows(jobs, setting, plan, lines, payloads, out)?;
    write_sweep(out, plan.part, all, done)?;
    Ok(done)
}

/// Runs a bench by that plan over a script whose lines are all plain.
fn sweep_plain_script<R: Threads + Sync, P: Progress, W: Write>(
    jobs: &Jobs<'_, R, P>,
    alloc: Global,
    plan: SweepPlan,
    script: &Script,
    payloads: &Payloads,
    out: &mut W,
) -> io::Result<Sweep>
    requires ranges { All (IsLineInRange script.now.shape) script.now.lines.items }
    requires plain { All IsPlainLine script.now.lines.items }
    ensures wrote { IfOk result (λ sweep. WroteAll plan script.now.shape payloads.now script.now.lines.items
        (W.contents out.old) (W.contents out.new) sweep) }
{
    let crew = lane_by_lane::<R>();
    let setting = Setting {
        alloc,
        crew: &crew,
        shape: &script.shape,
    };
    write_swept(jobs, &setting, plan, &script.lines, payloads, out)
}

/// A bench (docs/SCRIPT.md, "The benches") over the script that begins with these payloads: a slot boots its own until a
/// line `payload` says otherwise.
///
/// The power-cut bench cuts power at each call of the disk, and of each of its lanes, that the script makes after its first
/// `format ok`, and lets the cut leave what each of five fills says of what was written since the last sync. The fault
/// bench lets the call fail, runs the script to its end, and then cuts power. A board is powered on after each run,
/// and keeps its image; what it found is judged. A line is written for each run, and one with the counts. The runs
/// are made by the threads of these jobs; what is written is the same however many these are. A plan with a part runs only
/// the points of that part, and counts them; a quiet one writes the last line alone, since none of these runs is wrong.
///
/// Refused `BadShape` or `BadScript` where the script has a fault, and `NotPlain` where a line of it arms a cut or a
/// failure, cuts power or pokes, or none is `format`: then nothing is written. Refused `Memory` where memory was, and
/// `Output` where the writer failed: then any first lines may stand in it.
pub fn run_bench<R: Threads + Sync, P: Progress, W: Write>(
    jobs: &Jobs<'_, R, P>,
    alloc: Global,
    plan: SweepPlan,
    script: &[u8],
    payloads: Payloads,
    out: &mut W,
) -> Result<Sweep, Refusal>
    // What was written is a line for each run, in order, and the line of the counts. The runs are those of the points
    // of each caller, from number 1 on, or those of the plan's part of them: as many as the script makes calls of it. Each is a
    // run of the script's own lines with that call armed, and tells what a power-on then said. None was wrong.
    ensures wrote { IfOk result (λ sweep. IsBenchOf plan payloads script.now (W.contents out.old) (W.contents out.new) sweep) }
    // A refusal is want of memory, or the writer's, or the script's fault, or no bench runs the script.
    ensures refused { IfErr result (λ e. (e ≡ Memory) ⊎ (e ≡ Output) ⊎ (script_of script.now ≡ Err e)
        ⊎ ((e ≡ NotPlain) × NoBenchRuns script.now)) }
    // A script with a fault runs nothing, and neither does one that no bench runs.
    ensures nothing { (e : Refusal) → script_of script.now ≡ Err e
        → (W.contents out.new ≡ W.contents out.old) × ((result ≡ Err e) ⊎ (result ≡ Err Memory)) }
    ensures plain { (said : Said) → script_of script.now ≡ Ok said → IsNotPlain said.lines
        → (W.contents out.new ≡ W.contents out.old) × ((result ≡ Err NotPlain) ⊎ (result ≡ Err Memory)) }
{
    let script = plain_script(alloc, script)?;
    match sweep_plain_script::<R, P, W>(jobs, alloc, plan, &script, &payloads, out) {
        Ok(sweep) => Ok(sweep),
        Err(error) => Err(unwritten(error)),
    }
}
