//! Where a bench begins: after the first format of its script that answers Ok.

ghost use Rattle.std.specs.Prelude.{◌≡◌, ◌≤◌, ℕ, List, true, length, take, All, IfOk, ◌↔◌, IsTrue};
ghost use Rattle.script_lang.specs.Lines.{IsLineInRange};
ghost use Rattle.bench_report.specs.Bench.{Bench};
ghost use Rattle.bench_report.specs.Lives.{IsSound, Shows};
ghost use Rattle.bench_report.specs.Steps.{Moves};
ghost use Rattle.bench_sweep.specs.Runs.{Begun, IsFormattedAt, Formats};

use crate::judging::turn_off;
use crate::ledgers::RunLedger;
use crate::site::{Going, Site};
use crate::sites::is_off;
use bench_report::{LiveBench, Setting};
use board::Payloads;
use board_model::Shape;
use crew::Crew;
use report_lines::{Answer, Printed};
use script_lang::Line;
use std::alloc::{AllocError, Global};

/// Whether the line formatted the disk.
fn is_formatted(line: &Line, answer: &Answer) -> bool
    ensures { IsTrue result ↔ Formats line.now answer.now }
{
    match line {
        Line::Format => answer.line == Printed::Formatted,
        _ => false,
    }
}

/// Runs a line before the disk is formatted, and answers whether it was by that. Refused where memory was.
fn run_before_format<C: Crew>(
    setting: &Setting<'_, C>,
    line: &Line,
    bench: &mut LiveBench,
) -> Result<bool, AllocError>
    requires range { IsLineInRange setting.now.shape.now line.now }
    requires sound { IsSound bench.old }
    ensures moved { IfOk result (λ formatted. (b : Bench) → Shows setting.now.shape.now b bench.old
        → (answer : Answer) × (new : Bench) × Moves setting.now.shape.now line.now b answer new
        × Shows setting.now.shape.now new bench.new × (new.growths ≡ b.growths)
        × (formatted ≡ true → Formats line.now answer)) }
    ensures sound { IsSound bench.new }
{
    // A board that is on, over a disk that no format has answered Ok on, takes a format which was refused memory.
    if !is_off(&bench.power) {
        return Err(AllocError);
    }
    let answer = bench.run(setting, line)?;
    if bench.refused {
        return Err(AllocError);
    }
    Ok(is_formatted(line, &answer))
}

/// Turns the board off after the format. Refused where the disk's record found no memory.
fn formatted_site(alloc: Global, shape: &Shape, bench: LiveBench) -> Result<Site, AllocError>
    ensures runs { IfOk result (λ site. (start : List (List ℕ)) (lines : List Line)
        → Begun shape.now start lines bench → IsFormattedAt shape.now start lines site) }
{
    let going = Going {
        bench,
        ledger: RunLedger::formatted(alloc),
    };
    turn_off(going, false)
}

/// Runs a script that begins with these payloads up to the first format that answers Ok: how many lines that were,
/// and the board then. Refused also where no format does.
pub fn run_to_format<C: Crew>(
    setting: &Setting<'_, C>,
    lines: &[Line],
    payloads: &Payloads,
) -> Result<(usize, Site), AllocError>
    requires { All (IsLineInRange setting.now.shape.now) lines.now }
    ensures few { IfOk result (λ did. did.0 ≤ length lines.now) }
    ensures runs { IfOk result (λ did. IsFormattedAt setting.now.shape.now payloads.now (take did.0 lines.now) did.1) }
{
    let alloc = setting.alloc;
    let shape = setting.shape;
    let mut bench = LiveBench::blank(alloc, shape, payloads)?;
    let mut count = 0;
    for line in lines {
        let Ok(formatted) = run_before_format(setting, line, &mut bench) else {
            bench.release();
            return Err(AllocError);
        };
        count += 1;
        if formatted {
            let site = formatted_site(alloc, shape, bench)?;
            return Ok((count, site));
        }
    }
    // A line formats the disk, which is blank, and nothing is armed. Only want of memory lets each format fail.
    bench.release();
    Err(AllocError)
}
