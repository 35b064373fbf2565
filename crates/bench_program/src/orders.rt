//! Whether a script has several orders, and whether it can show that one of them differs.

ghost use Rattle.std.specs.Prelude.{◌≡◌};
ghost use Rattle.bench_program.specs.Orders.{are_of_two, has_orders, is_shown, meets_other, tells_any, tells_state};

use script_lang::Line;

/// Whether both are rows of turns, of two harts.
fn are_of_two(one: &Line, other: &Line) -> bool
    ensures { result ≡ are_of_two one.now other.now }
{
    match (one, other) {
        (Line::Turn(one, _), Line::Turn(other, _)) => one.number() != other.number(),
        _ => false,
    }
}

/// Whether the next of the lines after it is a row of another hart.
fn meets_other(line: &Line, more: &[Line]) -> bool
    ensures { result ≡ meets_other line.now more.now }
{
    match more.first() {
        Some(next) => are_of_two(line, next),
        None => false,
    }
}

/// Whether the line's answer tells what a board or a disk holds.
fn tells_state(line: &Line) -> bool
    ensures { result ≡ tells_state line.now }
{
    match line {
        Line::On(_) | Line::Call(_, _) | Line::Show(_) | Line::Inspect => true,
        _ => false,
    }
}

/// Whether one of the lines tells that.
fn tells_any(lines: &[Line]) -> bool
    ensures { result ≡ tells_any lines.now }
{
    for place in 0..lines.len() {
        if tells_state(&lines[place]) {
            return true;
        }
    }
    false
}

/// Whether a stretch of rows is of two harts, so that the lines have several orders.
pub fn has_orders(lines: &[Line]) -> bool
    ensures { result ≡ has_orders lines.now }
{
    for place in 0..lines.len() {
        if meets_other(&lines[place], &lines[place + 1..]) {
            return true;
        }
    }
    false
}

/// Whether a line after the first rows of two harts tells what a board or a disk holds, so that the report of an order can differ.
pub fn is_shown(lines: &[Line]) -> bool
    ensures { result ≡ is_shown lines.now }
{
    for place in 0..lines.len() {
        if meets_other(&lines[place], &lines[place + 1..]) {
            return tells_any(&lines[place + 1..]);
        }
    }
    false
}
