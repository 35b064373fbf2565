//! The runs at a point: they are made, judged and counted.

ghost use Rattle.std.specs.Prelude.{◌≡◌, ◌⊎◌, ◌≤◌, ◌<◌, ◌+◌, ◌++◌, ◌^◌, ◌∷◌, [], ℕ, List, None, Some, false, length, Ok, IfOk, OnOk};
ghost use Rattle.disk.specs.Facts.{counted};
ghost use Rattle.disk.specs.FaultState.{Unarmed};
ghost use Rattle.disk.specs.WriteLog.{synced};
ghost use Rattle.simdisk.specs.declared.fill.Fill.{Fill as FillOf};
ghost use Rattle.bench_report.specs.Views.{sim_log_of};
ghost use Rattle.bench_sweep.specs.declared.rows.Row.{Row as RowOf};
ghost use Rattle.board_model.specs.Shapes.{Size};
ghost use Rattle.bench_report.specs.Bench.{Bench};
ghost use Rattle.bench_report.specs.Happens.{off};
ghost use Rattle.bench_report.specs.Agree.{OffIs};
ghost use Rattle.bench_sweep.specs.Runs.{LeftOff, Runs, RunsAt, RunsCalm, Sits, SitsCalm};
ghost use Rattle.bench_sweep.specs.Swept.{AreSwept, cell, runs_of};
ghost use Rattle.bench_sweep.specs.Reports.{again, Keeps, Judged, IsFoundOn, IsLeftBy};
ghost use Rattle.bench_sweep.specs.Made.{cut_content, RunsWith};
ghost use Rattle.bench_sweep.specs.Took.{own_disk};

use crate::finds::count_run;
use crate::judges::Sweep;
use crate::ledgers::RunLedger;
use crate::points::{BenchKind, FILLS, FIRST_FILLS, LAST_FILL, Point, cut_fill};
use crate::rows::Row;
use crate::runner::Runner;
use crate::site::{Going, Site};
use crate::sites::{cut_by, cut_off};
use bench_report::{OffDisk, Setting};
use crew::Crew;
use simdisk::Fill;
use std::alloc::{AllocError, Global};

/// What the runs at a point told, in their order, and how they were counted.
#[derive(Drop)]
pub struct PointRows {
    pub rows: Vec<Row>,
    pub sweep: Sweep,
}

impl PointRows {
    /// No run was made yet.
    fn none(alloc: Global) -> PointRows
        ensures rows { result.rows.items ≡ [] }
        ensures runs { result.sweep.runs ≡ 0 }
        ensures right { result.sweep.wrong ≡ 0 }
    {
        PointRows {
            rows: Vec::new(alloc),
            sweep: Sweep {
                points: 0,
                runs: 0,
                wrong: 0,
            },
        }
    }
}

/// Powers a board on over `off`, what a power cut left of the disk of a run, counts the run, and keeps what the power-on told as that of
/// the fill.
fn judge_left<C: Crew>(
    runner: &Runner<'_, C>,
    off: OffDisk,
    ledger: &RunLedger,
    point: Point,
    fill: Option<Fill>,
    made: &mut PointRows,
) -> Result<(), AllocError>
    requires left { (slots : List (List ℕ)) × (b : Bench) × LeftOff runner.now.setting.shape.now b off slots ledger.now }
    ensures kept { OnOk result ((b : Bench) → OffIs runner.now.setting.shape.now b off.disk
        → Keeps (IsFoundOn runner.now.setting.shape.now b off.disk) made.old made.new (cell point.caller point.number fill)) }
{
    let Setting { alloc, shape, .. } = runner.setting;
    let left = count_run(alloc, shape, off, ledger, &mut made.sweep)?;
    made.rows.push(Row {
        caller: point.caller,
        number: point.number,
        fill,
        left,
    })?;
    Ok(())
}

/// Cuts power, powers a board on over what that leaves of the disk, counts the run, and keeps what it told. What was not synced is
/// left by the run's fill; where a run has none, after a failure, with zeros.
fn judge_run<C: Crew>(
    runner: &Runner<'_, C>,
    site: &Site,
    point: Point,
    fill: Option<Fill>,
    made: &mut PointRows,
) -> Result<(), AllocError>
    requires sits { Sits runner.now.setting.shape.now site.now }
    ensures kept { OnOk result ((b : Bench)
        → RunsAt runner.now.setting.shape.now b site.now
        → Keeps (IsLeftBy runner.now.setting.shape.now b site.now.off.disk) made.old made.new (cell point.caller point.number fill)) }
{
    let off = cut_by(&site.off, cut_fill(fill))?;
    judge_left(runner, off, &site.ledger, point, fill, made)
}

/// Judges as [`judge_run`] does, at a site that nothing else is made of: its own disk is cut, and not another one like it.
fn judge_last<C: Crew>(
    runner: &Runner<'_, C>,
    site: Site,
    point: Point,
    fill: Option<Fill>,
    made: &mut PointRows,
) -> Result<(), AllocError>
    requires sits { Sits runner.now.setting.shape.now site }
    ensures kept { OnOk result ((b : Bench)
        → RunsAt runner.now.setting.shape.now b site
        → Keeps (IsLeftBy runner.now.setting.shape.now b site.off.disk) made.old made.new (cell point.caller point.number fill)) }
{
    let off = cut_off(site.off, cut_fill(fill));
    judge_left(runner, off, &site.ledger, point, fill, made)
}

/// Keeps the first of these rows for another fill, which leaves the same, and counts its run.
fn repeat(
    once: &PointRows,
    point: Point,
    fill: Fill,
    made: &mut PointRows,
) -> Result<(), AllocError>
    ensures kept { OnOk result ((first : RowOf) × (rest : List RowOf) × (once.now.rows.items ≡ first ∷ rest)
        × (made.new.rows.items ≡ made.old.rows.items ++ again first point.caller point.number fill ∷ [])) }
    ensures runs { OnOk result (made.new.sweep.runs ≡ counted made.old.sweep.runs 1) }
    ensures right { made.new.sweep.wrong ≡ made.old.sweep.wrong }
{
    let Some(first) = once.rows.first() else {
        return Err(AllocError);
    };
    made.rows.push(Row {
        caller: point.caller,
        number: point.number,
        fill: Some(fill),
        left: first.left,
    })?;
    made.sweep.runs = made.sweep.runs.saturating_add(1);
    Ok(())
}

/// Judges what a run that a cut ended leaves, where that is the same by each fill: once, and its row is kept for each.
fn judge_settled<C: Crew>(
    runner: &Runner<'_, C>,
    site: Site,
    point: Point,
) -> Result<PointRows, AllocError>
    requires sits { Sits runner.now.setting.shape.now site }
    requires same { (fill : FillOf) → cut_content site.off.disk fill ≡ synced (sim_log_of site.off.disk) }
    ensures judged { IfOk result (λ made. (b : Bench)
        → RunsAt runner.now.setting.shape.now b site
        → Judged (IsLeftBy runner.now.setting.shape.now b site.off.disk) made (runs_of BenchKind.Cuts point.caller point.number)) }
{
    let mut once = PointRows::none(runner.setting.alloc);
    judge_last(runner, site, point, None, &mut once)?;
    let mut made = PointRows::none(runner.setting.alloc);
    for fill in FILLS {
        repeat(&once, point, fill, &mut made)?;
    }
    Ok(made)
}

/// Judges what a run that a cut ended leaves by each fill. Where nothing was written since the last sync, each leaves the same.
fn judge_each_fill<C: Crew>(
    runner: &Runner<'_, C>,
    site: Site,
    point: Point,
) -> Result<PointRows, AllocError>
    requires sits { Sits runner.now.setting.shape.now site }
    ensures judged { IfOk result (λ made. (b : Bench)
        → RunsAt runner.now.setting.shape.now b site
        → Judged (IsLeftBy runner.now.setting.shape.now b site.off.disk) made (runs_of BenchKind.Cuts point.caller point.number)) }
{
    if site.off.disk.is_settled() {
        return judge_settled(runner, site, point);
    }
    let mut made = PointRows::none(runner.setting.alloc);
    for fill in FIRST_FILLS {
        judge_run(runner, &site, point, Some(fill), &mut made)?;
    }
    judge_last(runner, site, point, Some(LAST_FILL), &mut made)?;
    Ok(made)
}

/// Runs the lines on with a cut armed at that call, up to the one in which it strikes, and judges what each fill
/// leaves of it.
fn run_to_cut<C: Crew>(
    runner: &Runner<'_, C>,
    from: Going,
    point: Point,
) -> Result<PointRows, AllocError>
    requires lines { AreSwept runner.now.setting.shape.now runner.now.lines.now }
    requires sits { SitsCalm runner.now.setting.shape.now from }
    ensures judged { IfOk result (λ made. (b : Bench)
        → RunsCalm runner.now.setting.shape.now b from
        → Judged (RunsWith runner.now.setting.shape.now BenchKind.Cuts point.before b runner.now.lines.now) made
        (runs_of BenchKind.Cuts point.caller point.number)) }
{
    let mut armed = from.armed(BenchKind::Cuts, point);
    let Ok(_count) = armed.run_lines(&runner.setting, runner.lines, false) else {
        armed.release();
        return Err(AllocError);
    };
    // The plain run made the call. Only one that was refused memory can have missed it.
    let left = turn_off(armed, true)?;
    judge_each_fill(runner, left, point)
}

/// Runs the lines on to their end with a failure armed at that call, cuts power, and judges what is left.
fn run_past_failure<C: Crew>(
    runner: &Runner<'_, C>,
    from: Going,
    point: Point,
) -> Result<PointRows, AllocError>
    requires lines { AreSwept runner.now.setting.shape.now runner.now.lines.now }
    requires sits { SitsCalm runner.now.setting.shape.now from }
    ensures judged { IfOk result (λ made. (b : Bench)
        → RunsCalm runner.now.setting.shape.now b from
        → Judged (RunsWith runner.now.setting.shape.now BenchKind.Fails point.before b runner.now.lines.now) made
        (runs_of BenchKind.Fails point.caller point.number)) }
{
    let mut armed = from.armed(BenchKind::Fails, point);
    let Ok(count) = armed.run_lines(&runner.setting, runner.lines, false) else {
        armed.release();
        return Err(AllocError);
    };
    let left = turn_off_failed(armed, count, runner.lines.len())?;
    let mut made = PointRows::none(runner.setting.alloc);
    judge_last(runner, left, point, None, &mut made)?;
    Ok(made)
}

/// Turns the board off after lines in which an armed cut struck, or none did, as is said. Refused where that is not so, or
/// where the disk's record found no memory.
pub fn turn_off(going: Going, struck: bool) -> Result<Site, AllocError>
    ensures runs { IfOk result (λ site. (size : Size) (b : Bench)
        → Runs size b going
        → (b.fault_state.struck ≡ struck) × (b.fault_state.own ≡ 0) × RunsAt size (off b) site) }
    ensures disk { IfOk result (λ site. site.off.disk ≡ own_disk going) }
{
    if going.is_struck() != struck {
        going.release();
        return Err(AllocError);
    }
    let site = going.into_site();
    if site.off.disk.refused() != 0 {
        site.release();
        return Err(AllocError);
    }
    Ok(site)
}

/// Turns the board off after `count` lines, the last of `all`, with nothing armed any more: the call failed. Refused where something
/// is. As with a cut, only a run that was refused memory can have missed the call.
pub fn turn_off_failed(going: Going, count: usize, all: usize) -> Result<Site, AllocError>
    ensures whole { OnOk result (all ≤ count) }
    ensures runs { IfOk result (λ site. (size : Size) (b : Bench)
        → Runs size b going
        → (b.fault_state.struck ≡ false) × (b.fault_state.own ≡ 0) × (b.fault_state.armed ≡ Unarmed) × RunsAt size (off b) site) }
{
    // No cut is armed that could end the run before its last line.
    if count < all {
        going.release();
        return Err(AllocError);
    }
    let left = turn_off(going, false)?;
    if left.off.disk.is_armed() {
        left.release();
        return Err(AllocError);
    }
    Ok(left)
}

/// Makes the one run of the bench at that point, or the five, which go on from there. There are `count` lines up to the next site.
pub fn run_at_point<C: Crew>(
    runner: &Runner<'_, C>,
    count: usize,
    from: Going,
    point: Point,
) -> Result<PointRows, AllocError>
    requires few { count ≤ length runner.now.lines.now }
    requires lines { AreSwept runner.now.setting.shape.now runner.now.lines.now }
    requires sits { SitsCalm runner.now.setting.shape.now from }
    ensures judged { IfOk result (λ made. (b : Bench)
        → RunsCalm runner.now.setting.shape.now b from
        → Judged (RunsWith runner.now.setting.shape.now runner.now.bench point.before b runner.now.lines.now) made
        (runs_of runner.now.bench point.caller point.number)) }
{
    match runner.bench {
        BenchKind::Cuts => {
            let front = Runner {
                setting: runner.setting,
                bench: runner.bench,
                lines: &runner.lines[..count],
            };
            run_to_cut(&front, from, point)
        }
        BenchKind::Fails => run_past_failure(runner, from, point),
    }
}
