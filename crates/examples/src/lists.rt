//! What a line asks.

use crate::pages::memory_of;
use board_model::{Addr, Command, HartId, Reason, Shape};
use crew::Sequential;
use disk::ArmedFault;
use simdisk::Fill;
use std::alloc::Global;
use std::str::SplitWhitespace;
use std::thread::Threads;
use store::Resumption;
use theorem::Asked;

/// A board, a crew, and what is asked of its disk.
#[derive(Drop)]
pub struct List<R: Threads + Sync> {
    pub shape: Shape,
    pub crew: Sequential<R>,
    pub asked: Vec<Asked>,
}

/// The words of a part.
type Words<'a> = SplitWhitespace<'a>;

/// The next word, a number.
fn number(words: &mut Words<'_>) -> Option<u64> {
    words.next()?.parse().ok()
}

fn short(words: &mut Words<'_>) -> Option<u32> {
    u32::try_from(number(words)?).ok()
}

fn size(words: &mut Words<'_>) -> Option<usize> {
    usize::try_from(number(words)?).ok()
}

/// The shape of a board, and the order of its crew.
fn board_of(part: &str) -> Option<(Shape, [usize; 4])> {
    let mut words = part.split_whitespace();
    if words.next()? != "board" {
        return None;
    }
    let (harts, pages) = (number(&mut words)?, number(&mut words)?);
    let shape = Shape::new(harts, pages, number(&mut words)?).ok()?;
    let mut order = [0; 4];
    for place in order.iter_mut() {
        *place = size(&mut words)?;
    }
    Some((shape, order))
}

/// What the parts ask.
fn all_asked(alloc: Global, parts: &str) -> Option<Vec<Asked>> {
    let mut asked = Vec::new(alloc);
    for part in parts.split(';') {
        let one = asked_of(alloc, &mut part.split_whitespace())?;
        asked.push(one).ok()?;
    }
    Some(asked)
}

/// The list of a line.
pub fn list_of<R: Threads + Sync>(alloc: Global, line: &str) -> Option<List<R>> {
    let (board, asked) = match line.split_once(';') {
        Some((board, parts)) => (board, all_asked(alloc, parts)?),
        None => (line, Vec::new(alloc)),
    };
    let (shape, order) = board_of(board)?;
    let crew = Sequential::new(order).ok()?;
    Some(List { shape, crew, asked })
}

/// What the words of a part ask.
fn asked_of(alloc: Global, words: &mut Words<'_>) -> Option<Asked> {
    match words.next()? {
        "open" => Some(Asked::Open),
        "load" => Some(Asked::Load),
        "resume" => Some(Asked::Resume),
        "suspend" => suspension_of(alloc, words),
        "cut" => Some(Asked::Cut(fill_of(words.next()?)?)),
        word => match fault_of(word, words) {
            Some(fault) => Some(Asked::Arm(fault)),
            None => Some(Asked::Command(command_of(word, words)?)),
        },
    }
}

/// A suspension.
fn suspension_of(alloc: Global, words: &mut Words<'_>) -> Option<Asked> {
    let at = Resumption {
        hart: HartId::new(number(words)?)?,
        address: Addr::new(number(words)?)?,
        opaque: number(words)?,
    };
    let mut numbers: Vec<u64> = Vec::new(alloc);
    for word in words {
        numbers.push(word.parse().ok()?).ok()?;
    }
    let shape = Shape::new(1, numbers.len() as u64, 1).ok()?;
    Some(Asked::Suspend(memory_of(alloc, shape, &numbers)?, at))
}

/// What a cut leaves.
fn fill_of(word: &str) -> Option<Fill> {
    match word {
        "old" => Some(Fill::Old),
        "new" => Some(Fill::New),
        "alternating" => Some(Fill::Alternating),
        byte => Some(Fill::Byte(byte.parse().ok()?)),
    }
}

/// A fault, where the word is one's.
fn fault_of(word: &str, words: &mut Words<'_>) -> Option<ArmedFault> {
    match word {
        "fail" => Some(ArmedFault::FailAt(number(words)?)),
        "cut-at" => Some(ArmedFault::CutAt(number(words)?)),
        "fail-lane" => Some(ArmedFault::FailLane(size(words)?, number(words)?)),
        "cut-lane" => Some(ArmedFault::CutLane(size(words)?, number(words)?)),
        _ => None,
    }
}

/// A command.
fn command_of(word: &str, words: &mut Words<'_>) -> Option<Command> {
    match word {
        "slot" => Some(Command::Slot(short(words)?)),
        "reset" => Some(Command::Reset(match short(words)? {
            0 => Reason::NoReason,
            _ => Reason::SystemFailure,
        })),
        "consume" => Some(Command::Consume),
        "discard" => Some(Command::Discard),
        "tries" => Some(Command::Tries(short(words)?, short(words)?)),
        "good" => Some(Command::Good),
        "attempt" => Some(Command::Attempt),
        _ => None,
    }
}
