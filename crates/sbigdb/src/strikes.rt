//! Where what a row of a bench arms strikes in its script.

ghost use Rattle.std.specs.Prelude.{◌≡◌, ◌↔◌, ◌≤◌, ◌<◌, ◌+◌, ◌++◌, ◌∷◌, [], All, None, Some, true, false, length, take, IfOk, OnOk};
ghost use Rattle.disk.specs.FaultState.{Unarmed};
ghost use Rattle.script_lang.specs.Lines.{IsLineInRange};
ghost use Rattle.script_lang.specs.declared.line.Line.TheVariants as lines;
ghost use Rattle.bench_report.specs.Lives.{IsSound};
ghost use Rattle.debug_session.specs.Pasts.{some_turns};
ghost use Rattle.bench_report.specs.Views.{fault_state};
ghost use Rattle.sbigdb.specs.Strikes.{ArmedAfter, RanTo, StopsBefore, count_in, hart_in};

use bench_report::{LiveBench, Setting, lane_by_lane};
use bench_schedules::run_line;
use board::Payloads;
use board_model::HartId;
use crew::Crew;
use script_lang::{Line, Script};
use simdisk::SimDisk;
use std::alloc::{AllocError, Global};
use std::thread::Threads;

/// Runs lines, one after another. Where memory is refused the bench is of no use.
fn run_lines<C: Crew>(
    setting: &Setting<'_, C>,
    lines: &[Line],
    live: &mut LiveBench,
) -> Result<(), AllocError>
    requires ranges { All (IsLineInRange setting.now.shape.now) lines.now }
    requires sound { IsSound live.old }
    ensures sound { OnOk result (IsSound live.new) }
    ensures ran { OnOk result (RanTo setting.now.shape.now lines.now live.old live.new) }
{
    for line in lines {
        run_line(setting, line, live)?;
    }
    Ok(())
}

/// Whether a cut or a failure is armed on a disk. Refused where the disk was refused memory.
fn is_armed_on(disk: &SimDisk) -> Result<bool, AllocError>
    ensures told { IfOk result (λ armed. (armed ≡ false) ↔ ((fault_state disk.now).armed ≡ Unarmed)) }
{
    if disk.refused() != 0 {
        return Err(AllocError);
    }
    Ok(disk.is_armed())
}

/// Runs lines from a blank disk on, with these payloads in the slots. Answers whether a cut or a failure is armed then that has not
/// struck.
fn is_armed_after<C: Crew>(
    setting: &Setting<'_, C>,
    payloads: &Payloads,
    lines: &[Line],
) -> Result<bool, AllocError>
    requires ranges { All (IsLineInRange setting.now.shape.now) lines.now }
    ensures told { IfOk result (λ armed. ArmedAfter armed setting.now.shape.now payloads.now lines.now) }
{
    let mut live = LiveBench::blank(setting.alloc, setting.shape, payloads)?;
    match run_lines(setting, lines, &mut live) {
        Ok(()) => {
            let disk = live.into_disk();
            is_armed_on(&disk)
        }
        Err(e) => {
            live.release();
            Err(e)
        }
    }
}

/// The place after the first line that arms something.
fn place_armed(lines: &[Line]) -> usize
    ensures few { result ≤ length lines.now }
{
    for i in 0..lines.len() {
        if let Line::Arm(_) = &lines[i] {
            return i + 1;
        }
    }
    lines.len()
}

/// The place of the line within which it strikes, which is found by runs of first lines, half as many each time. Only a run that was
/// refused memory can have missed it.
fn struck_line<C: Crew>(
    setting: &Setting<'_, C>,
    payloads: &Payloads,
    lines: &[Line],
) -> Result<usize, AllocError>
    requires ranges { All (IsLineInRange setting.now.shape.now) lines.now }
    ensures within { IfOk result (λ place. place < length lines.now) }
    ensures armed { IfOk result (λ place. ArmedAfter true setting.now.shape.now payloads.now (take place lines.now)) }
    ensures struck { IfOk result (λ place. ArmedAfter false setting.now.shape.now payloads.now (take (place + 1) lines.now)) }
{
    let mut low = place_armed(lines);
    let mut high = lines.len();
    if high <= low {
        return Err(AllocError);
    }
    if !is_armed_after(setting, payloads, &lines[..low])? {
        return Err(AllocError);
    }
    if is_armed_after(setting, payloads, lines)? {
        return Err(AllocError);
    }
    while low + 1 < high {
        let middle = low + (high - low) / 2;
        if is_armed_after(setting, payloads, &lines[..middle])? {
            low = middle;
        } else {
            high = middle;
        }
    }
    Ok(low)
}

/// Whether a cut or a failure is armed that has not struck, after these lines and `count` turns of a hart.
fn is_armed_in<C: Crew>(
    setting: &Setting<'_, C>,
    payloads: &Payloads,
    front: &mut Vec<Line>,
    hart: HartId,
    count: u32,
) -> Result<bool, AllocError>
    requires ranges { All (IsLineInRange setting.now.shape.now) front.old.items }
    requires row { IsLineInRange setting.now.shape.now (lines.Turn hart count) }
    ensures told { IfOk result (λ armed. ArmedAfter armed setting.now.shape.now payloads.now
        (front.old.items ++ lines.Turn hart count ∷ [])) }
    ensures same { OnOk result (front.new.items ≡ front.old.items) }
{
    let count_before = front.len();
    front.push(Line::Turn(hart, count))?;
    let armed = is_armed_after(setting, payloads, front)?;
    front.truncate(count_before);
    Ok(armed)
}

/// How many turns of a row after these lines are made before the one in which it strikes, found by runs of its first turns, half as many
/// each time.
fn struck_turn<C: Crew>(
    setting: &Setting<'_, C>,
    payloads: &Payloads,
    front: &mut Vec<Line>,
    hart: HartId,
    count: u32,
) -> Result<u32, AllocError>
    requires ranges { All (IsLineInRange setting.now.shape.now) front.old.items }
    requires row { IsLineInRange setting.now.shape.now (lines.Turn hart count) }
    requires armed { ArmedAfter true setting.now.shape.now payloads.now front.old.items }
    requires struck { ArmedAfter false setting.now.shape.now payloads.now (front.old.items ++ lines.Turn hart count ∷ []) }
    ensures within { IfOk result (λ k. k < count) }
    ensures armed { IfOk result (λ k. ArmedAfter true setting.now.shape.now payloads.now (front.old.items ++ some_turns hart k)) }
    ensures struck { IfOk result (λ k. ArmedAfter false setting.now.shape.now payloads.now
        (front.old.items ++ lines.Turn hart (k + 1) ∷ [])) }
    ensures same { OnOk result (front.new.items ≡ front.old.items) }
{
    let mut low = 0;
    let mut high = count;
    while low + 1 < high {
        let middle = low + (high - low) / 2;
        if is_armed_in(setting, payloads, front, hart, middle)? {
            low = middle;
        } else {
            high = middle;
        }
    }
    Ok(low)
}

/// The hart of a row of turns.
fn hart_in(line: &Line) -> Option<HartId>
    ensures { result ≡ hart_in line.now }
{
    match line {
        Line::Turn(hart, _) => Some(*hart),
        _ => None,
    }
}

/// How many turns a row of them has.
fn count_in(line: &Line) -> u32
    ensures { result ≡ count_in line.now }
{
    match line {
        Line::Turn(_, count) => *count,
        _ => 0,
    }
}

/// Puts `count` turns of a hart after lines, where there are any.
fn add_turns(lines: &mut Vec<Line>, hart: HartId, count: u32) -> Result<(), AllocError>
    ensures added { OnOk result (lines.new.items ≡ lines.old.items ++ some_turns hart count) }
{
    if count != 0 {
        lines.push(Line::Turn(hart, count))?;
    }
    Ok(())
}

/// The lines up to where what they arm strikes.
fn lines_before<C: Crew>(
    setting: &Setting<'_, C>,
    payloads: &Payloads,
    lines: Vec<Line>,
) -> Result<Vec<Line>, AllocError>
    requires ranges { All (IsLineInRange setting.now.shape.now) lines.items }
    ensures stops { IfOk result (λ stop. StopsBefore setting.now.shape.now payloads.now lines.items stop.items) }
    ensures ranges { IfOk result (λ stop. All (IsLineInRange setting.now.shape.now) stop.items) }
{
    let place = struck_line(setting, payloads, &lines)?;
    let next = &lines[place];
    let hart = hart_in(next);
    let count = count_in(next);
    let mut front = lines;
    front.truncate(place);
    match hart {
        None => Ok(front),
        Some(hart) => {
            let turns = struck_turn(setting, payloads, &mut front, hart, count)?;
            add_turns(&mut front, hart, turns)?;
            Ok(front)
        }
    }
}

/// The script of a row up to where what it arms strikes, with these payloads in the slots.
pub fn before_strike<R: Threads + Sync>(
    alloc: Global,
    payloads: &Payloads,
    found: Script,
) -> Result<Script, AllocError>
    requires ranges { All (IsLineInRange found.shape) found.lines.items }
    ensures stops { IfOk result (λ stop. StopsBefore found.shape payloads.now found.lines.items stop.lines.items) }
    ensures board { IfOk result (λ stop. stop.shape ≡ found.shape) }
    ensures ranges { IfOk result (λ stop. All (IsLineInRange stop.shape) stop.lines.items) }
{
    let Script { shape, lines } = found;
    let crew = lane_by_lane::<R>();
    let setting = Setting {
        alloc,
        crew: &crew,
        shape: &shape,
    };
    let lines = lines_before(&setting, payloads, lines)?;
    Ok(Script { shape, lines })
}
