//! Commands of the console over a file.

use crate::files::{formatted_file, found, opened};
use crate::fixtures::{same, set_slot, slot_of};
use board_files::{FileDisk, FileFate, MemoryFile};
use board_model::{Refusal, Shape};
use disk::Sector;
use std::alloc::Global;
use std::process::Abort;
use store::Store;

/// A command: the slot that it sets, and what it answers where its process lives.
type Told = (u32, Option<Result<u32, Refusal>>);

/// Commands over a file: after how many calls of the file what happens to it, the commands, and the slot that the next process
/// finds.
type FateRow = (u64, FileFate, &'static [Told], u32);

/// The four calls of the disk are four of the file: the record's sector and its sync, the gate's sector and its sync. Before
/// the gate is written the state is the old one; a failure of its write or its sync leaves the command in doubt, and the next
/// process finds what the file then holds, which is the old state where a failed sync loses what was written. A process that
/// is killed leaves the state before the command until the gate was written, and then the one after it. What a failed sync left
/// out of the file, or lost, is written by the next one.
static ROWS: [FateRow; 14] = [
    (4, FileFate::Killed, &[(2, Some(Ok(1)))], 2),
    (4, FileFate::Fails, &[(3, Some(Ok(1)))], 3),
    (0, FileFate::Fails, &[(2, Some(Err(Refusal::Device)))], 0),
    (1, FileFate::Fails, &[(2, Some(Err(Refusal::Device)))], 0),
    (2, FileFate::Fails, &[(2, Some(Err(Refusal::Down)))], 0),
    (3, FileFate::Fails, &[(2, Some(Err(Refusal::Down)))], 2),
    (1, FileFate::Loses, &[(2, Some(Err(Refusal::Device)))], 0),
    (3, FileFate::Loses, &[(2, Some(Err(Refusal::Down)))], 0),
    (0, FileFate::Killed, &[(2, None)], 0),
    (1, FileFate::Killed, &[(2, None)], 0),
    (2, FileFate::Killed, &[(2, None)], 0),
    (3, FileFate::Killed, &[(2, None)], 2),
    (
        0,
        FileFate::Fails,
        &[(2, Some(Err(Refusal::Device))), (3, Some(Ok(1)))],
        3,
    ),
    (
        1,
        FileFate::Loses,
        &[(2, Some(Err(Refusal::Device))), (3, Some(Ok(1)))],
        3,
    ),
];

/// These commands are answered so.
fn are_answered(
    rt: &impl Abort,
    store: &mut Store<FileDisk<MemoryFile>>,
    commands: &'static [Told],
) {
    for &(slot, answer) in commands {
        let answered = set_slot(store, slot);
        same(rt, answered, answer.unwrap_or(answered));
    }
}

/// Commands over that file are answered as the row says, and the next process finds its slot.
fn comes_to(rt: &impl Abort, alloc: Global, file: &[Sector], row: &FateRow) {
    let (left, fate, commands, stands) = *row;
    let mut store = opened(rt, alloc, file, left, fate);
    are_answered(rt, &mut store, commands);
    let disk = found(rt, alloc, store);
    same(rt, slot_of(alloc, disk), Ok(stands));
}

#[test]
fn a_command_over_a_file_that_fails_or_whose_process_is_killed(rt: HostRuntime) {
    let shape = Shape::new(1, 1, 1).expect(&rt, "a shape");
    let file = formatted_file(&rt, rt.alloc(), &shape);
    for row in &ROWS {
        comes_to(&rt, rt.alloc(), &file, row);
    }
}
