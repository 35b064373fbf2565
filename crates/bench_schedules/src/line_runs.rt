//! One line of a run, and the end of a run: where want of memory is found.

ghost use Rattle.std.specs.Prelude.{◌≡◌, IfOk, OnOk};
ghost use Rattle.script_lang.specs.Lines.{IsLineInRange};
ghost use Rattle.bench_schedules.specs.Orders.{is_other};
ghost use Rattle.bench_report.specs.Bench.{Bench};
ghost use Rattle.bench_report.specs.Lives.{IsSound, Shows};
ghost use Rattle.bench_schedules.specs.RunSoFar.{LineRan};

use bench_report::{LiveBench, Setting};
use board_model::Shape;
use crew::Crew;
use report_lines::Answer;
use script_lang::Line;
use std::alloc::AllocError;

/// Whether a line is another than `turn`. The answers of these lines are compared.
pub fn is_other(line: &Line) -> bool
    ensures { result ≡ is_other line.now }
{
    match line {
        Line::Turn(_, _) => false,
        _ => true,
    }
}

/// Runs a line. Refused where memory was in it, also to a suspension. The bench is then of no further use.
pub fn run_line<C: Crew>(
    setting: &Setting<'_, C>,
    line: &Line,
    live: &mut LiveBench,
) -> Result<Answer, AllocError>
    requires range { IsLineInRange setting.now.shape.now line.now }
    requires sound { IsSound live.old }
    ensures sound { OnOk result (IsSound live.new) }
    ensures stepped { IfOk result (λ answer. LineRan setting.now.shape.now line.now answer live.old live.new) }
{
    let answer = live.run(setting, line)?;
    if live.refused {
        return Err(AllocError);
    }
    Ok(answer)
}

/// Ends a run. Refused where, in this run, the disk was refused memory for its record of what it had to keep.
pub fn end_run(live: LiveBench, shape: &Shape) -> Result<(), AllocError>
    requires { IsSound live }
    ensures well { OnOk result ((b : Bench) → Shows shape.now b live → b.fault_state.own ≡ 0) }
{
    let _shape = shape;
    if live.into_disk().refused() != 0 {
        return Err(AllocError);
    }
    Ok(())
}
