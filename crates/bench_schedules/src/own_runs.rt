//! The script's own run, with which those of its schedules are compared.

ghost use Rattle.std.specs.Prelude.{◌≡◌, ◌≤◌, ℕ, List, length, All, IfOk, OnOk};
ghost use Rattle.std.specs.Option.{option_to_list};
ghost use Rattle.script_lang.specs.Lines.{IsLineInRange};
ghost use Rattle.bench_schedules.specs.Orders.{IsOrderFor, is_other, other_count};
ghost use Rattle.bench_report.specs.Bench.{bench_with};
ghost use Rattle.bench_report.specs.Lives.{IsSound, Shows};
ghost use Rattle.bench_schedules.specs.RunSoFar.{RunSoFar};
ghost use Rattle.bench_schedules.specs.Schedules.{RanOwn, other_answer};

use crate::drawn_orders::{generator, schedule};
use crate::line_runs::{end_run, is_other, run_line};
use crate::stretches::Stretches;
use bench_report::{LiveBench, Setting};
use board::Payloads;
use crew::Crew;
use report_lines::Answer;
use script_lang::Line;
use std::alloc::{AllocError, Global};

/// What is known after the script's own run.
#[derive(Drop)]
pub struct OwnRun {
    /// The answers of its lines that are no `turn`, in order.
    pub answers: Vec<Answer>,
    /// What it found of its stretches.
    pub stretches: Stretches,
}

/// The answer of a line that is no `turn`; of a `turn` line none.
fn other_answer(line: &Line, answer: Answer) -> Option<Answer>
    ensures { option_to_list result ≡ other_answer (is_other line.now) answer }
{
    if is_other(line) { Some(answer) } else { None }
}

/// Runs the lines of a script from the first on, notes them for its stretches, and answers what those answered that are no turns.
fn run_lines<C: Crew>(
    setting: &Setting<'_, C>,
    lines: &[Line],
    live: &mut LiveBench,
    stretches: &mut Stretches,
) -> Result<Vec<Answer>, AllocError>
    requires ranges { All (IsLineInRange setting.now.shape.now) lines.now }
    requires sound { IsSound live.old }
    ensures sound { OnOk result (IsSound live.new) }
    ensures ran { IfOk result (λ answers. (start : List (List ℕ)) → Shows setting.now.shape.now (bench_with start) live.old
        → RunSoFar setting.now.shape.now (bench_with start) lines.now answers.items live.new) }
{
    let mut answers = Vec::new(setting.alloc);
    let mut place = 0;
    for line in lines {
        let answer = run_line(setting, line, live)?;
        stretches.note(place, line, &answer)?;
        if let Some(told) = other_answer(line, answer) {
            answers.push(told)?;
        }
        place += 1;
    }
    Ok(answers)
}

/// Runs the script as it stands, with these payloads in the slots.
pub fn run_own<C: Crew>(
    setting: &Setting<'_, C>,
    payloads: &Payloads,
    lines: &[Line],
) -> Result<OwnRun, AllocError>
    requires ranges { All (IsLineInRange setting.now.shape.now) lines.now }
    ensures ran { IfOk result (λ own. RanOwn setting.now.shape.now payloads.now lines.now own.answers.items) }
    ensures count { IfOk result (λ own. length own.answers.items ≡ other_count lines.now) }
{
    let mut live = LiveBench::blank(setting.alloc, setting.shape, payloads)?;
    let mut stretches = Stretches::new(setting.alloc);
    let Ok(answers) = run_lines(setting, lines, &mut live, &mut stretches) else {
        live.release();
        return Err(AllocError);
    };
    end_run(live, setting.shape)?;
    stretches.close()?;
    Ok(OwnRun { answers, stretches })
}

/// Draws schedule k of a seed from the script's own run.
pub fn drawn_schedule(
    alloc: Global,
    lines: &[Line],
    own: &OwnRun,
    seed: u64,
    k: u64,
) -> Result<Vec<Line>, AllocError>
    requires { length lines.now ≤ 65535 }
    ensures order { IfOk result (λ new. IsOrderFor lines.now new.items) }
    ensures few { IfOk result (λ new. length new.items ≤ 65535) }
{
    let mut rng = generator(seed, k);
    schedule(alloc, &mut rng, lines, &own.stretches.fronts)
}
