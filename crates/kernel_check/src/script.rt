//! An order as a script that `sbibench` runs.

use crate::facts::{Failure, OrderStep, StoreCall};
use crate::looks::Look;
use board_model::{BootMode, Bytes, CallWords, HartId, RAM_BASE, Reason, Shape, Slot};
use script_lang::{Arming, Line, Look as LineLook};
use simdisk::Fill;
use std::alloc::{AllocError, Global};

/// The most turns of a line.
const MOST_TURNS: u64 = 1_000_000;

/// The most bytes of a line that looks at memory.
const MOST_LOOK: u64 = 64;

/// The most bytes of a payload in a line.
pub const MOST_PAYLOAD: usize = 1024;

/// The extension of a reset (SBI specification 2.0, chapter 10).
const SRST: u64 = 0x5352_5354;

/// Adds a line.
fn add(lines: &mut Vec<Line>, line: Line) -> Result<(), AllocError> {
    lines.push(line)?;
    Ok(())
}

/// Lines of the turns of a hart.
fn add_turns(lines: &mut Vec<Line>, hart: HartId, turns: u64) -> Result<(), AllocError> {
    for _line in 0..turns / MOST_TURNS {
        lines.push(Line::Turn(hart, MOST_TURNS as u32))?;
    }
    let left = turns % MOST_TURNS;
    if left != 0 {
        lines.push(Line::Turn(hart, left as u32))?;
    }
    Ok(())
}

/// The call of the disk that fails where a command is refused: one before the gate is written where the store stays up, and that
/// which writes it where the store is down from then on (docs/STORE.md, "A commit" and "Suspending").
fn failing_call(call: StoreCall, down: bool) -> u32 {
    match (call, down) {
        (StoreCall::Sleep, false) | (StoreCall::Reset, false) => 1,
        (StoreCall::Sleep, true) => 4,
        (StoreCall::Reset, true) => 3,
    }
}

/// Lines of a turn of a hart, in which that call of the disk fails.
fn add_refused(lines: &mut Vec<Line>, hart: HartId, call: u32) -> Result<(), AllocError> {
    add(lines, Line::Arm(Arming::FailAt(call)))?;
    add(lines, Line::Turn(hart, 1))
}

/// How a board is powered on.
fn mode_of(resumes: bool) -> BootMode {
    if resumes {
        BootMode::Resume
    } else {
        BootMode::Fresh
    }
}

/// Lines of a step.
fn add_step(lines: &mut Vec<Line>, shape: &Shape, step: &OrderStep) -> Result<(), AllocError> {
    match step {
        OrderStep::PowerOn(resumes) => add(lines, Line::On(mode_of(*resumes))),
        OrderStep::Turns(hart, turns, _) => match shape.hart(u64::from(*hart)) {
            Some(hart) => add_turns(lines, hart, *turns),
            None => Ok(()),
        },
        OrderStep::Refused(hart, call, down) => match shape.hart(u64::from(*hart)) {
            Some(hart) => add_refused(lines, hart, failing_call(*call, *down)),
            None => Ok(()),
        },
        OrderStep::Wake => add(lines, Line::Wake),
        OrderStep::Cut => add(lines, Line::Cut(Fill::Old)),
    }
}

/// A line that looks at `bytes` bytes, from `start` bytes past the begin of RAM on.
fn look_line(start: u64, bytes: u64) -> Line {
    let address = RAM_BASE.saturating_add(start);
    Line::Show(LineLook::Mem(address, bytes.min(MOST_LOOK) as u32))
}

/// Lines that look at those bytes.
fn add_look(lines: &mut Vec<Line>, look: &Look) -> Result<(), AllocError> {
    let mut start = look.start as u64;
    let bytes = look.bytes as u64;
    for _line in 0..bytes / MOST_LOOK {
        lines.push(look_line(start, MOST_LOOK))?;
        start = start.saturating_add(MOST_LOOK);
    }
    let left = bytes % MOST_LOOK;
    if left != 0 {
        lines.push(look_line(start, left))?;
    }
    Ok(())
}

/// Lines after which the reset reason 1 stands.
fn add_failure(lines: &mut Vec<Line>) -> Result<(), AllocError> {
    if let Some(hart) = HartId::new(0) {
        let words = CallWords {
            eid: SRST,
            fid: 0,
            a0: 0,
            a1: 1,
            a2: 0,
        };
        lines.push(Line::On(BootMode::Fresh))?;
        lines.push(Line::Call(hart, words))?;
    }
    Ok(())
}

/// Lines before the first power-on: the payload, where a line has room for it, and the disk with its reset reason.
fn add_begin(
    alloc: Global,
    lines: &mut Vec<Line>,
    payload: &[u8],
    reason: Reason,
) -> Result<(), AllocError> {
    if !payload.is_empty()
        && payload.len() <= MOST_PAYLOAD
        && let Some(slot) = Slot::new(0)
    {
        let bytes = Bytes::new(Vec::from_slice(alloc, payload)?);
        lines.push(Line::Payload(slot, bytes))?;
    }
    lines.push(Line::Format)?;
    if reason == Reason::SystemFailure {
        add_failure(lines)?;
    }
    Ok(())
}

/// The lines of a script: the order of a failure, and what is looked at in the end. A board that is off then is powered on, which shows the
/// reset reason.
pub fn script_of(
    alloc: Global,
    shape: &Shape,
    payload: &[u8],
    reason: Reason,
    failure: &Failure,
    looks: &[Look],
) -> Result<Vec<Line>, AllocError> {
    let mut lines = Vec::new(alloc);
    add_begin(alloc, &mut lines, payload, reason)?;
    for step in &failure.order {
        add_step(&mut lines, shape, step)?;
    }
    if failure.is_on {
        for look in looks {
            add_look(&mut lines, look)?;
        }
    } else {
        lines.push(Line::On(BootMode::Keep))?;
    }
    Ok(lines)
}
