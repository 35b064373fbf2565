//! What is told on standard error beside what a work writes: which cause a refusal has, and that a bench tried or showed nothing.

use crate::fault::BenchFault;
use crate::usage::Work;
use crate::works::shown_by;
use bench_schedules::line_numbers;
use board_model::Refusal;
use command_line::{FileFault, explain_fault};
use script_lang::{Line, parse_script};
use std::alloc::Global;
use std::io::{IsTerminal, Write};

/// Whether a bench runs the line: it cuts nothing, lets nothing fail, and leaves the disk to the firmware.
fn is_plain(line: &Line) -> bool {
    !matches!(line, Line::Cut(_) | Line::Arm(_) | Line::Poke(_, _, _))
}

/// The place of the first line that no bench runs.
fn first_unplain(lines: &[Line]) -> Option<usize> {
    lines.iter().position(|line| !is_plain(line))
}

/// The number of the line at that place, counted from 1; the board line stands before all. 0 where memory is refused.
fn number_of(alloc: Global, script: &[u8], place: usize) -> u64 {
    match line_numbers(alloc, script) {
        Ok(numbers) => match numbers.get(place.saturating_add(1)) {
            Some(number) => *number,
            None => 0,
        },
        Err(_) => 0,
    }
}

/// Tells a line. That nobody reads it changes nothing.
fn tell_line<F: Write>(faults: &mut F, text: &str) {
    let _told = writeln!(faults, "sbibench: {text}");
}

/// Tells why no bench runs a script without a fault: it is refused 17.
fn tell_no_bench<F: Write>(alloc: Global, work: Work, bytes: &[u8], faults: &mut F) {
    let Ok(script) = parse_script(alloc, bytes) else {
        return;
    };
    if let Work::Compare(_) = work {
        tell_line(
            faults,
            "no stretch of `turn` lines is of two harts, so there is one order alone",
        );
    } else if let Some(place) = first_unplain(&script.lines) {
        let number = number_of(alloc, bytes, place);
        let _told = writeln!(
            faults,
            "sbibench: line {number}: a bench runs no script that cuts power, arms a fault or pokes"
        );
    } else {
        tell_line(faults, "no line formats the disk");
    }
}

/// Which number is out of its range: that of a run to show, where the script has no fault.
fn why_out_of_range(alloc: Global, bytes: &[u8]) -> &'static str {
    if parse_script(alloc, bytes).is_ok() {
        "there is none of that number to show"
    } else {
        "a number of the board line is out of its range"
    }
}

/// Tells which cause a refusal of a work has, where it has several.
fn tell_cause<F: Write>(alloc: Global, work: Work, refusal: Refusal, bytes: &[u8], faults: &mut F) {
    match refusal {
        Refusal::BadShape => tell_line(faults, why_out_of_range(alloc, bytes)),
        Refusal::NotPlain => tell_no_bench(alloc, work, bytes, faults),
        _ => {}
    }
}

/// Whether the work is a bench, which may have nothing to try.
fn is_bench(work: Work) -> bool {
    matches!(work, Work::Judge(_) | Work::Compare(_))
}

/// Whether what the number of the refusal means is more than its cause says: 17 means what it says of a script alone.
fn is_explained(work: Work, refusal: Refusal) -> bool {
    !(is_bench(work) && refusal == Refusal::NotPlain) || matches!(work, Work::Judge(_))
}

/// Whether all that is told of the refusal is specified: 17 of a sweep or of failures, which has no cause but on a terminal.
fn is_specified(work: Work, refusal: Refusal) -> bool {
    matches!(work, Work::Judge(_)) && refusal == Refusal::NotPlain
}

/// Tells a refusal of a work, with its cause, and on a terminal what its number means.
fn tell_refusal<F: Write + IsTerminal>(
    alloc: Global,
    work: Work,
    script: &[u8],
    refusal: Refusal,
    faults: &mut F,
) {
    let fault = BenchFault::Refused(refusal);
    let _told = write!(faults, "{fault}");
    let on_terminal = faults.is_terminal();
    if on_terminal || !is_specified(work, refusal) {
        tell_cause(alloc, work, refusal, script, faults);
    }
    if is_explained(work, refusal) && on_terminal {
        explain_fault(faults, "sbibench", &FileFault::refused(refusal));
    }
}

/// Tells that a bench made no run, or that none of its runs could show a difference.
fn tell_nothing<F: Write>(
    alloc: Global,
    work: Work,
    script: &[u8],
    is_tried: bool,
    faults: &mut F,
) {
    if is_bench(work) && !is_tried {
        tell_line(faults, "nothing was tried");
    }
    if let Ok(false) = shown_by(alloc, work, script) {
        tell_line(faults, "nothing is shown");
    }
}

/// Tells how a work ended: a refusal, with its cause, and on a terminal what its number means; or that a bench made no run, or that none
/// of its runs could show a difference. Another fault is told elsewhere.
pub fn tell_work<F: Write + IsTerminal>(
    alloc: Global,
    work: Work,
    script: &[u8],
    done: &Result<(), BenchFault>,
    is_tried: bool,
    faults: &mut F,
) {
    match done {
        Err(BenchFault::Refused(refusal)) => {
            tell_refusal(alloc, work, script, *refusal, faults);
        }
        Ok(()) | Err(BenchFault::Wrong) => tell_nothing(alloc, work, script, is_tried, faults),
        Err(_) => {}
    }
}
