//! The runs at a chunk of neighbouring calls: one thread makes them, each from the line in which its call lies.

ghost use Rattle.std.specs.Prelude.{◌≡◌, ◌≤◌, ◌<◌, ◌+◌, ◌-◌, ◌^◌, [], length, IfOk, OnOk};
ghost use Rattle.bench_report.specs.Bench.{Bench};
ghost use Rattle.crew.specs.Handed.{AreRows};
ghost use Rattle.bench_sweep.specs.Reports.{IsOfCall, Judged, RunsAlong};
ghost use Rattle.bench_sweep.specs.Along.{CameTold};
ghost use Rattle.bench_sweep.specs.Runs.{Sits};
ghost use Rattle.bench_sweep.specs.Swept.{AreSwept, runs_of};

use crate::judging::{PointRows, run_at_point};
use crate::moments::Moment;
use crate::points::{Caller, Point};
use crate::runner::Runner;
use crate::site::{Going, Site};
use crew::{Chunk, Crew, Task, Window};
use std::alloc::AllocError;

/// The most calls of a chunk, and how many make it long beside what it costs to begin one.
const MOST_CALLS: u64 = 64;

const MANY_CALLS: u64 = 16;

/// How many calls each chunk of `calls` has, for `threads` threads. If there are as many calls, there are 32 chunks or more, ten or more
/// for each thread, and 32 or more for each where a chunk has more than 16 calls. So threads end at much the same time, what is written and
/// how far the run is are told often, and still few chunks begin within the same line.
pub fn chunk_size(calls: u64, threads: usize) -> u64
    requires { 0 < threads }
    ensures some { 0 < result }
    ensures most { result ≤ 64 }
{
    let threads = threads as u64;
    let few = calls / threads.saturating_mul(10).max(40);
    let many = calls / threads.saturating_mul(32);
    few.min(MANY_CALLS).max(many).clamp(1, MOST_CALLS)
}

/// Runs on up to `to` lines, and keeps how many calls the caller has made then from the site on.
fn mark_next<C: Crew>(
    runner: &Runner<'_, C>,
    site: &Site,
    caller: Caller,
    moment: &mut Moment,
    to: usize,
    marks: &mut Vec<u64>,
) -> Result<(), AllocError>
    requires lines { AreSwept runner.now.setting.shape.now runner.now.lines.now }
    requires order { moment.old.count ≤ to }
    requires few { to ≤ length runner.now.lines.now }
    requires sits { (b : Bench) × CameTold runner.now.setting.shape.now b runner.now.lines.now site.now moment.old }
    ensures sits { OnOk result ((b : Bench)
        × CameTold runner.now.setting.shape.now b runner.now.lines.now site.now moment.new) }
    ensures few { OnOk result (moment.new.count ≤ to) }
{
    moment.run_to(&runner.setting, runner.lines, to)?;
    let made = moment.going.calls_since(site, caller)?;
    marks.push(made)?;
    Ok(())
}

/// How many calls the caller has made from the site on, after each of the first `count` lines but the last. All others lie in that one.
/// This is a hint for chunks: a wrong one would make their runs longer, or have them refused.
pub fn marks_of<C: Crew>(
    runner: &Runner<'_, C>,
    count: usize,
    site: &Site,
    caller: Caller,
) -> Result<Vec<u64>, AllocError>
    requires few { count ≤ length runner.now.lines.now }
    requires lines { AreSwept runner.now.setting.shape.now runner.now.lines.now }
    requires sits { Sits runner.now.setting.shape.now site.now }
{
    let mut marks = Vec::new(runner.setting.alloc);
    let mut moment = Moment::at(runner.setting.alloc, site)?;
    let but_last = count.saturating_sub(1);
    for i in 0..but_last {
        let Ok(()) = mark_next(runner, site, caller, &mut moment, i + 1, &mut marks) else {
            moment.going.release();
            return Err(AllocError);
        };
    }
    moment.going.release();
    Ok(marks)
}

/// How many lines stand before the one in which the next call after `done` others lies, by these marks: `from` or more, which have run,
/// and no more than `count`.
fn line_of(marks: &[u64], from: usize, count: usize, done: u64) -> usize
    requires { from ≤ count }
    ensures order { from ≤ result }
    ensures few { result ≤ count }
{
    let last = count.min(marks.len());
    for i in from..last {
        if done < marks[i] {
            return i;
        }
    }
    last.max(from)
}

/// The runs at calls of a caller, which lines make from a site on.
#[derive(Drop)]
pub struct RunsAtCalls<'a, 'b, C> {
    pub runner: &'a Runner<'b, C>,
    /// How many lines stand up to the next site.
    pub count: usize,
    pub site: &'a Site,
    pub caller: Caller,
    /// How many calls the caller made up to the site.
    pub before: u64,
    /// Which of its calls from the site on, counted from 0.
    pub within: Window,
    /// How many of them a chunk has.
    pub each: u64,
    /// How many calls the caller has made after each line: a hint in which line a call lies.
    pub marks: &'a [u64],
}

impl<'a, 'b, C: Crew> RunsAtCalls<'a, 'b, C> {
    /// Makes the runs at the next call after `done` calls from the site on, from that moment. Refused also where the moment is
    /// after it: by the plain run it is not.
    fn rows_at(&self, moment: &mut Moment, done: u64) -> Result<PointRows, AllocError>
        requires few { self.now.count ≤ length self.now.runner.now.lines.now }
        requires order { moment.old.count ≤ self.now.count }
        requires lines { AreSwept self.now.runner.now.setting.shape.now self.now.runner.now.lines.now }
        requires room { self.now.before + done + 1 < 2 ^ 64 }
        requires sits { (b : Bench) × CameTold self.now.runner.now.setting.shape.now b self.now.runner.now.lines.now self.now.site.now moment.old }
        ensures stays { (b : Bench) → CameTold self.now.runner.now.setting.shape.now b self.now.runner.now.lines.now self.now.site.now moment.old
            → CameTold self.now.runner.now.setting.shape.now b self.now.runner.now.lines.now self.now.site.now moment.new }
        ensures count { moment.new.count ≡ moment.old.count }
        ensures judged { IfOk result (λ made. (b : Bench)
            → CameTold self.now.runner.now.setting.shape.now b self.now.runner.now.lines.now self.now.site.now moment.old
            → Judged (RunsAlong self.now.runner.now.setting.shape.now self.now.runner.now.bench self.now.caller self.now.site.now self.now.before b
            self.now.runner.now.lines.now) made
            (runs_of self.now.runner.now.bench self.now.caller (self.now.before + done + 1))) }
    {
        let made = moment.going.calls_since(self.site, self.caller)?;
        if done < made {
            return Err(AllocError);
        }
        let point = Point {
            caller: self.caller,
            number: self.before + done + 1,
            call: done - made + 1,
            before: self.before + made,
        };
        let runner = self.runner;
        let going = moment.going.copy(runner.setting.alloc)?;
        let behind = Runner {
            setting: runner.setting,
            bench: runner.bench,
            lines: &runner.lines[moment.count..],
        };
        run_at_point(&behind, self.count - moment.count, going, point)
    }

    /// Runs on to the line in which that call lies, and makes the runs at it.
    fn next_rows(&self, moment: &mut Moment, done: u64) -> Result<PointRows, AllocError>
        requires few { self.now.count ≤ length self.now.runner.now.lines.now }
        requires order { moment.old.count ≤ self.now.count }
        requires lines { AreSwept self.now.runner.now.setting.shape.now self.now.runner.now.lines.now }
        requires room { self.now.before + done + 1 < 2 ^ 64 }
        requires sits { (b : Bench) × CameTold self.now.runner.now.setting.shape.now b self.now.runner.now.lines.now self.now.site.now moment.old }
        ensures few { OnOk result (moment.new.count ≤ self.now.count) }
        ensures came { OnOk result ((b : Bench)
            → CameTold self.now.runner.now.setting.shape.now b self.now.runner.now.lines.now self.now.site.now moment.old
            → CameTold self.now.runner.now.setting.shape.now b self.now.runner.now.lines.now self.now.site.now moment.new) }
        ensures judged { IfOk result (λ made. (b : Bench)
            → CameTold self.now.runner.now.setting.shape.now b self.now.runner.now.lines.now self.now.site.now moment.old
            → Judged (RunsAlong self.now.runner.now.setting.shape.now self.now.runner.now.bench self.now.caller self.now.site.now self.now.before b
            self.now.runner.now.lines.now) made
            (runs_of self.now.runner.now.bench self.now.caller (self.now.before + done + 1))) }
    {
        let next = line_of(self.marks, moment.count, self.count, done);
        moment.run_to(&self.runner.setting, self.runner.lines, next)?;
        self.rows_at(moment, done)
    }

    /// Makes the runs at the calls of that window, one after another. Where one is refused, those made stay.
    fn rows_of(&self, window: Window, rows: &mut Vec<PointRows>) -> Result<(), AllocError>
        requires few { self.now.count ≤ length self.now.runner.now.lines.now }
        requires lines { AreSwept self.now.runner.now.setting.shape.now self.now.runner.now.lines.now }
        requires room { self.now.before + window.to < 2 ^ 64 }
        requires sits { Sits self.now.runner.now.setting.shape.now self.now.site.now }
        requires none { rows.old.items ≡ [] }
        ensures rows { OnOk result ((length rows.new.items ≡ window.to - window.from)
            × AreRows (IsOfCall self.now.runner.now.setting.shape.now self.now.runner.now.bench self.now.caller self.now.before
            self.now.runner.now.lines.now self.now.site.now) window.from rows.new.items) }
    {
        let Window { from, to } = window;
        let mut moment = Moment::at(self.runner.setting.alloc, self.site)?;
        for done in from..to {
            let Ok(made) = self.next_rows(&mut moment, done) else {
                moment.going.release();
                return Err(AllocError);
            };
            let Ok(()) = rows.push(made) else {
                moment.going.release();
                return Err(AllocError);
            };
        }
        moment.going.release();
        Ok(())
    }
}

impl<'a, 'b, C: Crew + Sync> Task for RunsAtCalls<'a, 'b, C> {
    ghost use Rattle.std.specs.Prelude.{◌≡◌, true};
    ghost use Rattle.std.specs.Thread.{IsSync};
    ghost use Rattle.crew.specs.Handed.{IsChunk};
    ghost use Rattle.bench_sweep.specs.Reports.{HasChunk, IsOfCall};

    type Row = Chunk<PointRows>;

    ghost has = { λ task k. HasChunk task.runner.now.setting.shape.now task.runner.now.lines.now
        task.count task.site.now task.before task.within.from task.within.to task.each k
        × IsSync C.Handle.row };

    ghost is_row = { λ task k made. made.whole ≡ true → IsChunk (IsOfCall task.runner.now.setting.shape.now task.runner.now.bench task.caller task.before
        task.runner.now.lines.now task.site.now)
        task.within.from task.within.to task.each k made.rows.items };

    /// Makes the runs at the calls of that chunk: the lines run on from the site as they are, and each call is armed on a copy of
    /// the board as it stands before the line in which the call lies.
    fn row(&self, number: u64) -> Result<Chunk<PointRows>, AllocError> {
        let window = self.within.chunk(self.each, number);
        let mut rows = Vec::new(self.runner.setting.alloc);
        let whole = self.rows_of(window, &mut rows).is_ok();
        Ok(Chunk { rows, whole })
    }
}
