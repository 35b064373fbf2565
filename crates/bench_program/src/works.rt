//! What each work makes of a script, written to any writer, and how many of its runs tell that something is wrong.

ghost use Rattle.std.specs.Prelude.{◌≡◌, ◌⊎◌, ◌<◌, ◌≤◌, ℕ, List, [], true, Ok, Err, Some, IfOk, IfErr, OnOk, MatchResult};
ghost use Rattle.board_model.specs.declared.refusal.Refusal.TheVariants.{Memory, Output};
ghost use Rattle.script_lang.specs.Scripts.{script_of};
ghost use Rattle.bench_program.specs.Usage.{IsBounded};
ghost use Rattle.std.specs.Io.KnownBytes.{Appends};
ghost use Rattle.bench_sweep.specs.Swept.{IsBenchOf};
ghost use Rattle.bench_sweep.specs.declared.judges.Sweep.{Sweep as Counts};
ghost use Rattle.bench_program.specs.Digests.{part_tag, with_tag};
ghost use Rattle.bench_program.specs.Written.{HasOneOrder, HasOrders, IsBenchRefusal, IsCompared, IsMade, IsPut, IsRefusedWith, is_kept, put_text, shown_by, tested_text};

use crate::digests::{is_part, part_tag, with_tag};
use crate::orders::{has_orders, is_shown};
use crate::taps::write_tap;
use crate::usage::{BenchOptions, DrawnSchedule, MOST_JOBS, Savers, Work};
use crate::watched::Unpaused;
use bench_report::{StoppedRun, lane_by_lane, run_left_with};
use bench_schedules::{SchedulePlan, schedules, show, shrink};
use bench_sweep::{SweepPlan, run_bench, show_row};
use board::Payloads;
use board_model::{Refusal, unwritten};
use crew::{Jobs, Progress};
use script_lang::parse_script;
use std::alloc::{AllocError, Global};
use std::io::{self, Write};
use std::thread::{self, Threads};

/// How many threads make the runs of a bench, at most: as many as were asked for, or as there are processors.
fn jobs_of<R: Threads>(threads: &R, asked: Option<usize>) -> usize
    ensures { 0 < result }
{
    match asked {
        Some(count) => count.clamp(1, MOST_JOBS as usize),
        None => match thread::available_parallelism(threads) {
            Ok(count) => count.get().min(MOST_JOBS as usize),
            Err(_) => 1,
        },
    }
}

/// What comes of a work of which no run tells that something is wrong.
fn all_well<T: Drop>(done: Result<T, Refusal>) -> Result<u64, Refusal>
    ensures { MatchResult done (λ made. result ≡ Ok 0) (λ e. result ≡ Err e) }
{
    match done {
        Ok(_) => Ok(0),
        Err(refusal) => Err(refusal),
    }
}

/// What comes of a report.
fn reported<L: Drop>(ran: Result<L, StoppedRun>) -> Result<u64, Refusal>
    ensures { MatchResult ran (λ left. result ≡ Ok 0) (λ stopped. result ≡ Err stopped.refusal) }
{
    match ran {
        Ok(_) => Ok(0),
        Err(stopped) => Err(stopped.refusal),
    }
}

/// Refused `NotPlain` exactly where the script has no fault, and no stretch of rows of two harts: it has one order alone.
fn check_orders(alloc: Global, script: &[u8]) -> Result<(), Refusal>
    ensures several { OnOk result (HasOrders script.now) }
    ensures refused { IfErr result (λ e. (e ≡ Memory) ⊎ (script_of script.now ≡ Err e) ⊎ HasOneOrder script.now e) }
{
    let script = parse_script(alloc, script)?;
    if has_orders(&script.lines) {
        Ok(())
    } else {
        Err(Refusal::NotPlain)
    }
}

/// Compares schedules of the script with its own run. Refused `NotPlain` where it has one order alone.
fn compare<R: Threads + Sync, P: Progress, W: Write>(
    jobs: &Jobs<'_, R, P>,
    alloc: Global,
    plan: SchedulePlan,
    script: &[u8],
    payloads: &Payloads,
    out: &mut W,
) -> Result<u64, Refusal>
    requires most { plan.count ≤ 1000000 }
    ensures made { IfOk result (λ differ. HasOrders script.now
        × IsCompared plan payloads.now script.now (W.contents out.old) (W.contents out.new) differ) }
    ensures refused { IfErr result (λ e. (e ≡ Memory) ⊎ (e ≡ Output) ⊎ (script_of script.now ≡ Err e) ⊎ HasOneOrder script.now e) }
{
    check_orders(alloc, script)?;
    let compared = schedules(jobs, alloc, script, payloads, plan, out)?;
    Ok(compared.differ)
}

/// Makes the runs of a bench. None of them is wrong.
fn judge<R: Threads + Sync, P: Progress, W: Write>(
    jobs: &Jobs<'_, R, P>,
    alloc: Global,
    plan: SweepPlan,
    script: &[u8],
    payloads: Payloads,
    out: &mut W,
) -> Result<u64, Refusal>
    ensures made { IfOk result (λ differ. (differ ≡ 0) × (counts : Counts)
        × IsBenchOf plan payloads script.now (W.contents out.old) (W.contents out.new) counts) }
    ensures refused { IfErr result (IsBenchRefusal script.now) }
{
    match run_bench(jobs, alloc, plan, script, payloads, out) {
        Ok(counts) => Ok(counts.wrong),
        Err(refusal) => Err(refusal),
    }
}

/// Makes what the work makes of the script, with these payloads in the slots. Of a long run it is told how far that is.
pub fn make<R: Threads + Sync, P: Progress + Drop, W: Write>(
    alloc: Global,
    threads: &R,
    options: &BenchOptions,
    payloads: Payloads,
    script: &[u8],
    out: &mut W,
    progress: P,
) -> Result<u64, Refusal>
    requires most { IsBounded options.now.work }
    ensures made { IfOk result (λ differ. IsMade options.now.work payloads script.now differ
        (W.contents out.old) (W.contents out.new)) }
    ensures refused { IfErr result (IsRefusedWith options.now.work payloads script.now) }
{
    let jobs = Jobs::telling(threads, jobs_of(threads, options.jobs), progress);
    match options.work {
        Work::Report(Savers::Threads) => {
            let savers = crew::Threads::new(threads);
            reported(run_left_with(alloc, script, &savers, payloads, out))
        }
        Work::Report(Savers::Turns) => {
            let crew = lane_by_lane::<R>();
            reported(run_left_with(alloc, script, &crew, payloads, out))
        }
        Work::Judge(plan) => judge(&jobs, alloc, plan, script, payloads, out),
        Work::ShowRow(row) => all_well(show_row::<R, W>(alloc, row, script, payloads, out)),
        Work::Compare(plan) => compare(&jobs, alloc, plan, script, &payloads, out),
        Work::Show(drawn) => {
            let DrawnSchedule { seed, number } = drawn;
            all_well(show::<R, W>(alloc, script, &payloads, seed, number, out))
        }
        Work::Shrink(drawn) => {
            let DrawnSchedule { seed, number } = drawn;
            all_well(shrink::<R, W>(alloc, script, &payloads, seed, number, out))
        }
    }
}

/// Whether the text is made whole before any of it is written: where tests are written of it, or a part ends with its digest.
pub fn is_kept(options: &BenchOptions) -> bool
    ensures { result ≡ is_kept options.now }
{
    options.tap || is_part(options.work)
}

/// Whether a line of the script can show that an order differs, where the work compares orders.
pub fn shown_by(alloc: Global, work: Work, script: &[u8]) -> Result<bool, AllocError>
    ensures shown { IfOk result (λ shown. shown ≡ shown_by work script.now) }
{
    match work {
        Work::Compare(_) => match parse_script(alloc, script) {
            Ok(script) => Ok(is_shown(&script.lines)),
            Err(Refusal::Memory) => Err(AllocError),
            Err(_) => Ok(true),
        },
        _ => Ok(true),
    }
}

/// Writes a text, or the tests of it.
fn write_tested<W: Write>(
    alloc: Global,
    tap: bool,
    well: bool,
    shown: bool,
    text: &[u8],
    out: &mut W,
) -> io::Result<()>
    ensures ok { OnOk result (Appends (W.contents out.old) (W.contents out.new) (tested_text tap well shown text.now)) }
{
    if tap {
        return write_tap(alloc, text, well, shown, out);
    }
    out.write_all(text)
}

/// Makes what the work makes in memory. A part ends with its digest.
fn make_text<R: Threads + Sync, P: Progress + Drop>(
    alloc: Global,
    threads: &R,
    options: &BenchOptions,
    payloads: Payloads,
    script: &[u8],
    progress: P,
) -> Result<(u64, Vec<u8>), Refusal>
    requires most { IsBounded options.now.work }
    ensures made { IfOk result (λ made. (text : List ℕ)
        × IsMade options.now.work payloads script.now made.0 (Some []) (Some text)
        × (made.1.items ≡ with_tag (part_tag options.now.work payloads script.now) text)) }
    ensures refused { IfErr result (IsRefusedWith options.now.work payloads script.now) }
{
    let Ok(tag) = part_tag(alloc, options.work, &payloads, script) else {
        return Err(Refusal::Memory);
    };
    let mut text = Vec::new(alloc);
    let made = make::<R, P, Vec<u8>>(
        alloc, threads, options, payloads, script, &mut text, progress,
    );
    let differ = match made {
        Ok(differ) => differ,
        Err(refusal) => return Err(refusal),
    };
    let Ok(text) = with_tag(text, &tag) else {
        return Err(Refusal::Memory);
    };
    Ok((differ, text))
}

/// Makes what the work makes in memory, and then writes it, or the tests of it.
pub fn make_kept<R: Threads + Sync, P: Progress + Copy + Drop, W: Write>(
    alloc: Global,
    threads: &R,
    options: &BenchOptions,
    payloads: Payloads,
    script: &[u8],
    out: &mut W,
    progress: P,
) -> Result<u64, Refusal>
    requires most { IsBounded options.now.work }
    ensures made { IfOk result (λ differ. IsPut true
        (put_text options.now.tap options.now.work payloads script.now)
        (IsMade options.now.work payloads script.now) differ (W.contents out.old) (W.contents out.new)) }
    ensures refused { IfErr result (IsRefusedWith options.now.work payloads script.now) }
{
    let Ok(shown) = shown_by(alloc, options.work, script) else {
        return Err(Refusal::Memory);
    };
    let unpaused = Unpaused(progress);
    let made = make_text(alloc, threads, options, payloads, script, unpaused);
    progress.pause();
    let (differ, text) = match made {
        Ok(made) => made,
        Err(refusal) => return Err(refusal),
    };
    let written = write_tested(alloc, options.tap, differ == 0, shown, &text, out);
    match written {
        Ok(()) => Ok(differ),
        Err(error) => Err(unwritten(error)),
    }
}
