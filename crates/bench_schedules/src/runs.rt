//! The run of one schedule.

ghost use Rattle.std.specs.Prelude.{◌≡◌, ◌<◌, ℕ, List, length, true, All, IfErr, IfOk, OnOk};
ghost use Rattle.script_lang.specs.Lines.{IsLineInRange};
ghost use Rattle.bench_schedules.specs.Orders.{is_other, other_count};
ghost use Rattle.bench_report.specs.Bench.{bench_with};
ghost use Rattle.bench_report.specs.Lives.{IsSound, Shows};
ghost use Rattle.bench_schedules.specs.Compared.{IsDifference, IsNextPlace};
ghost use Rattle.bench_schedules.specs.RunSoFar.{WentLike};
ghost use Rattle.bench_schedules.specs.Schedules.{RanLike};

use crate::line_runs::{end_run, is_other, run_line};
use bench_report::{LiveBench, Setting};
use board::Payloads;
use crew::Crew;
use report_lines::Answer;
use script_lang::Line;
use std::alloc::AllocError;

/// Where the run of a schedule first answers other than the script's own run.
#[derive(Clone, Copy, Drop)]
pub struct Difference {
    /// The place of the line among those that are no `turn` lines, from 0 on.
    pub place: usize,
    /// What the script's own run answered there.
    pub own: Answer,
    /// What the schedule's run answered there.
    pub answer: Answer,
}

/// Compares the answer of a line with that of the script's own run at a place, and answers the place of the next one to be
/// compared. A `turn` line is not compared. Where the two differ, that is the error.
fn next_place(
    own: &[Answer],
    place: usize,
    line: &Line,
    answer: Answer,
) -> Result<usize, Difference>
    requires { is_other line.now ≡ true → place < length own.now }
    ensures alike { IfOk result (λ next. IsNextPlace own.now place line.now answer next) }
    ensures apart { IfErr result (λ d. IsDifference own.now place line.now answer d) }
{
    if !is_other(line) {
        return Ok(place);
    }
    let said = own[place];
    if said == answer {
        return Ok(place + 1);
    }
    Err(Difference {
        place,
        own: said,
        answer,
    })
}

/// Runs lines up to the first that answers other than in the script's own run; `turn` lines are not compared. Answers where that
/// is.
fn run_lines<C: Crew>(
    setting: &Setting<'_, C>,
    lines: &[Line],
    own: &[Answer],
    live: &mut LiveBench,
) -> Result<Option<Difference>, AllocError>
    requires ranges { All (IsLineInRange setting.now.shape.now) lines.now }
    requires sound { IsSound live.old }
    requires count { length own.now ≡ other_count lines.now }
    ensures sound { OnOk result (IsSound live.new) }
    ensures went { IfOk result (λ differs. (start : List (List ℕ)) → Shows setting.now.shape.now (bench_with start) live.old
        → WentLike setting.now.shape.now start lines.now own.now differs live.new) }
{
    let mut place = 0;
    for line in lines {
        let answer = run_line(setting, line, live)?;
        match next_place(own, place, line, answer) {
            Ok(next) => place = next,
            Err(difference) => return Ok(Some(difference)),
        }
    }
    Ok(None)
}

/// Runs lines, with these payloads in the slots, up to the first that answers other than in the script's own run; `turn`
/// lines are not compared. Where the run was refused memory, nothing of it is told.
pub fn run_until<C: Crew>(
    setting: &Setting<'_, C>,
    payloads: &Payloads,
    lines: &[Line],
    own: &[Answer],
) -> Result<Option<Difference>, AllocError>
    requires ranges { All (IsLineInRange setting.now.shape.now) lines.now }
    requires count { length own.now ≡ other_count lines.now }
    ensures ran { IfOk result (λ differs. RanLike setting.now.shape.now payloads.now lines.now own.now differs) }
{
    let mut live = LiveBench::blank(setting.alloc, setting.shape, payloads)?;
    let Ok(differs) = run_lines(setting, lines, own, &mut live) else {
        live.release();
        return Err(AllocError);
    };
    end_run(live, setting.shape)?;
    Ok(differs)
}
