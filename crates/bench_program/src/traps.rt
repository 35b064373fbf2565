//! Harts that only trap: the first instruction of a trap's handler traps itself, and so on for ever.

ghost use Rattle.std.specs.Prelude.{◌<◌, length, All};
ghost use Rattle.script_lang.specs.Lines.{IsLineInRange};
ghost use Rattle.script_lang.specs.Looks.{IsLookInRange};
ghost use Rattle.bench_report.specs.Lives.{IsSound};

use bench_report::{LiveBench, Setting, lane_by_lane};
use board::Payloads;
use board_model::{HartId, Value};
use crew::Crew;
use machine::{Did, MachineLine, Word};
use report_lines::{Answer, Printed};
use script_lang::{Line, Look, parse_script};
use std::alloc::{AllocError, Global};
use std::io::Write;
use std::thread::Threads;

/// How many turns are made to find such harts, at most. A power-on and a call count as many, and any other line as one.
const MOST_TURNS: u64 = 2_000_000;

/// As how many turns a power-on or a call counts, which may read or write the memory of the largest board.
const LONG_LINE: u64 = 10_000;

/// The CSRs of a trap, by their numbers (the ISA's volume 2, "Supervisor trap handling").
const STVEC: u32 = 0x105;

const SEPC: u32 = 0x141;

const SCAUSE: u32 = 0x142;

/// Where a hart stands, the begin of its handler, and what its last trap left.
#[derive(Clone, Copy, Drop)]
struct Trap {
    pc: u64,
    handler: u64,
    at: u64,
    cause: u64,
}

impl Trap {
    /// The hart has just come to its handler from an instruction there.
    fn is_from(&self, pc: u64) -> bool {
        self.pc == self.handler && self.at == pc
    }
}

/// As how many turns a line counts.
fn turns_of(line: &Line) -> u64 {
    match line {
        Line::Turn(_, count) => u64::from(*count),
        Line::On(_) | Line::Call(_, _) => LONG_LINE,
        _ => 1,
    }
}

/// What a look shows of a hart; None where the board is off, or memory is refused.
fn shown<C: Crew>(setting: &Setting<'_, C>, live: &mut LiveBench, look: Look) -> Option<u64>
    requires range { IsLookInRange setting.now.shape.now look }
    requires sound { IsSound live.old }
    ensures sound { IsSound live.new }
{
    let Ok(answer) = live.run(setting, &Line::Show(look)) else {
        return None;
    };
    match answer.line {
        Printed::Shown(MachineLine::Pc(_, value)) => Some(value),
        Printed::Shown(MachineLine::Csr(_, _, value)) => Some(value),
        _ => None,
    }
}

/// Where that hart stands; None where the board is off, or memory is refused.
fn trap_of<C: Crew>(setting: &Setting<'_, C>, live: &mut LiveBench, hart: HartId) -> Option<Trap>
    requires hart { hart < setting.now.shape.now.harts }
    requires sound { IsSound live.old }
    ensures sound { IsSound live.new }
{
    let pc = shown(setting, live, Look::Pc(hart))?;
    let handler = shown(setting, live, Look::Csr(hart, STVEC))?;
    let at = shown(setting, live, Look::Csr(hart, SEPC))?;
    let cause = shown(setting, live, Look::Csr(hart, SCAUSE))?;
    Some(Trap {
        pc,
        handler,
        at,
        cause,
    })
}

/// Whether the hart has just come to its handler from the handler's first instruction; not where the board is off.
fn traps_at_handler<C: Crew>(setting: &Setting<'_, C>, live: &mut LiveBench, hart: HartId) -> bool
    requires hart { hart < setting.now.shape.now.harts }
    requires sound { IsSound live.old }
    ensures sound { IsSound live.new }
{
    match trap_of(setting, live, hart) {
        Some(now) => now.is_from(now.handler),
        None => false,
    }
}

/// Whether a hart made its turn: one that waits, or was not started, makes none.
fn is_made(answer: &Answer) -> bool {
    matches!(
        answer.line,
        Printed::Shown(MachineLine::Turn(_, _, Word::Goes(Did::Next)))
    )
}

/// A turn of that hart. Answers where it stands then, and whether the turn was made; None where the board is off, or memory is refused.
fn turn_of<C: Crew>(
    setting: &Setting<'_, C>,
    live: &mut LiveBench,
    hart: HartId,
) -> Option<(Trap, bool)>
    requires hart { hart < setting.now.shape.now.harts }
    requires sound { IsSound live.old }
    ensures sound { IsSound live.new }
{
    let Ok(answer) = live.run(setting, &Line::Turn(hart, 1)) else {
        return None;
    };
    let now = trap_of(setting, live, hart)?;
    Some((now, is_made(&answer)))
}

/// The trap from which on a hart only traps, in `count` turns from there on; None where there is none.
fn first_trap<C: Crew>(
    setting: &Setting<'_, C>,
    live: &mut LiveBench,
    hart: HartId,
    count: u32,
) -> Option<Trap>
    requires hart { hart < setting.now.shape.now.harts }
    requires sound { IsSound live.old }
{
    let mut before = trap_of(setting, live, hart)?;
    let mut first = before;
    for _ in 0..count {
        let (now, made) = turn_of(setting, live, hart)?;
        if made && now.is_from(before.pc) {
            if before.pc == now.handler {
                return Some(first);
            }
            first = now;
        }
        before = now;
    }
    None
}

/// Runs those lines.
fn run_lines<C: Crew>(
    setting: &Setting<'_, C>,
    lines: &[Line],
    live: &mut LiveBench,
) -> Result<(), AllocError>
    requires ranges { All (IsLineInRange setting.now.shape.now) lines.now }
    requires sound { IsSound live.old }
    ensures sound { IsSound live.new }
{
    for line in lines {
        live.run(setting, line)?;
    }
    Ok(())
}

/// The trap from which on a hart only traps, in `count` turns after those lines; None where there is none.
fn first_trap_after<C: Crew>(
    setting: &Setting<'_, C>,
    lines: &[Line],
    payloads: &Payloads,
    hart: HartId,
    count: u32,
) -> Option<Trap>
    requires ranges { All (IsLineInRange setting.now.shape.now) lines.now }
    requires hart { hart < setting.now.shape.now.harts }
{
    let Ok(mut live) = LiveBench::blank(setting.alloc, setting.shape, payloads) else {
        return None;
    };
    let found = match run_lines(setting, lines, &mut live) {
        Ok(()) => first_trap(setting, &mut live, hart, count),
        Err(_) => None,
    };
    live.release();
    found
}

/// Tells of a hart that only traps, and of the trap with which that began.
fn tell_trap<F: Write>(faults: &mut F, hart: HartId, trap: Trap) {
    let number = hart.number();
    let (handler, cause, at) = (Value(trap.handler), Value(trap.cause), Value(trap.at));
    let _told = writeln!(
        faults,
        "sbibench: hart {number} traps at its handler 0x{handler}: scause 0x{cause} sepc 0x{at}"
    );
}

/// The hart of the row at that place, and the trap from which on it only traps; None where it does not. The bench stands after the row.
fn trap_in_row<C: Crew>(
    setting: &Setting<'_, C>,
    live: &mut LiveBench,
    lines: &[Line],
    place: usize,
    payloads: &Payloads,
) -> Option<(HartId, Trap)>
    requires ranges { All (IsLineInRange setting.now.shape.now) lines.now }
    requires place { place < length lines.now }
    requires sound { IsSound live.old }
    ensures sound { IsSound live.new }
{
    let &Line::Turn(hart, count) = &lines[place] else {
        return None;
    };
    if !traps_at_handler(setting, live, hart) {
        return None;
    }
    let first = first_trap_after(setting, &lines[..place], payloads, hart, count)?;
    Some((hart, first))
}

/// Whether a line is a row of a hart of which it was told.
fn is_told(told: &[bool; 8], line: &Line) -> bool {
    match line {
        Line::Turn(hart, _) => told[hart.index()],
        _ => false,
    }
}

/// Runs those lines, and tells of each hart that comes to trap at its own handler for ever. Ends where memory is refused.
fn tell_while_running<C: Crew, F: Write>(
    setting: &Setting<'_, C>,
    lines: &[Line],
    live: &mut LiveBench,
    payloads: &Payloads,
    faults: &mut F,
)
    requires ranges { All (IsLineInRange setting.now.shape.now) lines.now }
    requires sound { IsSound live.old }
{
    let mut left = MOST_TURNS;
    let mut told = [false; 8];
    for place in 0..lines.len() {
        let line = &lines[place];
        let Some(less) = left.checked_sub(turns_of(line)) else {
            return;
        };
        left = less;
        if live.run(setting, line).is_err() {
            return;
        }
        if is_told(&told, line) {
            continue;
        }
        if let Some((hart, first)) = trap_in_row(setting, live, lines, place, payloads) {
            tell_trap(faults, hart, first);
            told[hart.index()] = true;
        }
    }
}

/// Tells of each hart of a script that comes to trap at its own handler for ever, which a report does not show: the cause and the
/// place of the trap with which that began. The script is run again, with these payloads in the slots, for some first turns. Where memory
/// is refused, no more is told.
pub fn tell_traps<R: Threads + Sync, F: Write>(
    alloc: Global,
    script: &[u8],
    payloads: &Payloads,
    faults: &mut F,
) {
    let Ok(script) = parse_script(alloc, script) else {
        return;
    };
    let Ok(mut live) = LiveBench::blank(alloc, &script.shape, payloads) else {
        return;
    };
    let crew = lane_by_lane::<R>();
    let setting = Setting {
        alloc,
        crew: &crew,
        shape: &script.shape,
    };
    tell_while_running(&setting, &script.lines, &mut live, payloads, faults);
    live.release();
}
