//! A history, run again.

ghost use Rattle.std.specs.Prelude.{◌≡◌, ℕ, List, IfOk, OnOk};
ghost use Rattle.bench_report.specs.Agree.{fill_after, fills_after};
ghost use Rattle.bench_report.specs.Bench.{Bench, bench_with};
ghost use Rattle.bench_report.specs.Steps.{Moves};
ghost use Rattle.report_lines.specs.declared.printed.Answer.{Answer};
ghost use Rattle.debug_session.specs.Notes.{AreInRange, Joins, Leaves};
ghost use Rattle.debug_session.specs.Ats.{GoesOnBy};
ghost use Rattle.bench_report.specs.Lives.{IsSound, Shows};
ghost use Rattle.script_lang.specs.Lines.{IsLineInRange};
ghost use Rattle.simdisk.specs.declared.fill.Fill.TheVariants as fills;

use bench_report::{LiveBench, Setting};
use board::Payloads;
use crew::Crew;
use script_lang::Line;
use std::alloc::AllocError;

/// Runs a line: whether it is a row of turns with which a further one is one row.
pub fn replay<C: Crew>(
    setting: &Setting<'_, C>,
    line: &Line,
    bench: &mut LiveBench,
) -> Result<bool, AllocError>
    requires range { IsLineInRange setting.now.shape.now line.now }
    requires sound { IsSound bench.old }
    ensures moves { IfOk result (λ joins. (b : Bench) → Shows setting.now.shape.now b bench.old
        → (answer : Answer) × (new : Bench) × Moves setting.now.shape.now line.now b answer new
        × Shows setting.now.shape.now new bench.new × GoesOnBy setting.now.shape.now joins line.now b new) }
    ensures sound { OnOk result (IsSound bench.new) }
    ensures fill { OnOk result (bench.new.fill ≡ fill_after line.now bench.old.fill) }
{
    match line {
        Line::Turn(hart, count) => {
            let row = bench.turns(setting, *hart, *count);
            Ok(row.goes_on() && row.made() == *count)
        }
        _ => {
            bench.run(setting, line)?;
            Ok(false)
        }
    }
}

/// Runs lines from the begin of a bench on: whether a further turn of the hart of the last line is one row with it.
fn replay_all<C: Crew>(
    setting: &Setting<'_, C>,
    lines: &[Line],
    bench: &mut LiveBench,
) -> Result<bool, AllocError>
    requires ranges { AreInRange setting.now.shape.now lines.now }
    requires sound { IsSound bench.old }
    ensures left { IfOk result (λ joins. (begins : List (List ℕ)) → Shows setting.now.shape.now (bench_with begins) bench.old
        → (b : Bench) × Leaves setting.now.shape.now (bench_with begins) lines.now b
        × Joins setting.now.shape.now (bench_with begins) joins lines.now b × Shows setting.now.shape.now b bench.new) }
    ensures sound { OnOk result (IsSound bench.new) }
    ensures fill { OnOk result (bench.new.fill ≡ fills_after lines.now bench.old.fill) }
{
    let mut joins = false;
    for line in lines {
        joins = replay(setting, line, bench)?;
    }
    Ok(joins)
}

/// The bench after these lines of a script that begins with these payloads, and whether a further turn of the hart
/// of the last line is one row with it.
pub(crate) fn replayed<C: Crew>(
    setting: &Setting<'_, C>,
    begins: &Payloads,
    lines: &[Line],
) -> Result<(LiveBench, bool), AllocError>
    requires ranges { AreInRange setting.now.shape.now lines.now }
    ensures left { IfOk result (λ did. (b : Bench) × Leaves setting.now.shape.now (bench_with begins.now) lines.now b
        × Joins setting.now.shape.now (bench_with begins.now) did.1 lines.now b × Shows setting.now.shape.now b did.0) }
    ensures sound { IfOk result (λ did. IsSound did.0) }
    ensures fill { IfOk result (λ did. did.0.fill ≡ fills_after lines.now fills.Old) }
{
    let mut bench = LiveBench::blank(setting.alloc, setting.shape, begins)?;
    match replay_all(setting, lines, &mut bench) {
        Ok(joins) => Ok((bench, joins)),
        Err(e) => {
            bench.release();
            Err(e)
        }
    }
}
