//! The disk's file in a folder whose power fails at each call in turn (docs/CONSOLE.md, "The disk's file").

use crate::fixtures::same;
use board_files::{FormedFile, HeldFile, MemoryFolder, kept_file};
use std::alloc::Global;
use std::process::Abort;

/// A disk of two sectors, and eight bytes after it.
static OLD: [u8; 1032] = [1; 1032];

/// The disk that is written.
static DISK: [[u8; 512]; 2] = [[2; 512], [3; 512]];

/// The calls until the power fails, whether the call over the file answers `Ok`, and what a crash then leaves at the path.
type CutRow = (u64, bool, &'static str);

/// Of a new disk: the file beside is made, two sectors are written, they are made durable, it is renamed, and that is made durable.
static NEW: [CutRow; 7] = [
    (0, false, "old"),
    (1, false, "old"),
    (2, false, "old"),
    (3, false, "old"),
    (4, false, "old"),
    (5, false, "either"),
    (6, true, "new"),
];

/// Of a disk that was there the bytes after it are written too.
static KEPT: [CutRow; 8] = [
    (0, false, "old"),
    (1, false, "old"),
    (2, false, "old"),
    (3, false, "old"),
    (4, false, "old"),
    (5, false, "old"),
    (6, false, "either"),
    (7, true, "new"),
];

fn folder(rt: &impl Abort, alloc: Global, calls: u64) -> FormedFile<MemoryFolder> {
    let folder = MemoryFolder::of(alloc, &OLD, calls).expect(rt, "memory");
    let Ok(file) = FormedFile::found(folder) else {
        rt.panic("a read")
    };
    file
}

/// The file once the disk is written.
fn new_bytes(rt: &impl Abort, alloc: Global, is_new: bool) -> Vec<u8> {
    let mut bytes = Vec::from_slice(alloc, DISK.as_flattened()).expect(rt, "memory");
    if !is_new {
        bytes.extend_from_slice(&OLD[1024..]).expect(rt, "memory");
    }
    bytes
}

/// Which file a crash leaves at the path.
fn left(folder: &MemoryFolder, new: &[u8]) -> &'static str {
    if folder.leaves_either(&OLD, &OLD) {
        "old"
    } else if folder.leaves_either(new, new) {
        "new"
    } else if folder.leaves_either(&OLD, new) {
        "either"
    } else {
        "another"
    }
}

fn writes(rt: &impl Abort, alloc: Global, is_new: bool, rows: &[CutRow]) {
    let new = new_bytes(rt, alloc, is_new);
    for &(calls, is_written, leaves) in rows {
        let mut held = folder(rt, alloc, calls);
        let wrote = held.write(&DISK, is_new);
        same(rt, wrote.is_ok(), is_written);
        same(rt, left(&held.file, &new), leaves);
    }
}

#[test]
fn a_new_disk_is_there_whole_or_not_at_all(rt: HostRuntime) {
    writes(&rt, rt.alloc(), true, &NEW);
}

#[test]
fn a_disk_that_was_there_is_replaced_whole_or_not_at_all(rt: HostRuntime) {
    writes(&rt, rt.alloc(), false, &KEPT);
}

/// The file in which a session keeps a disk of two sectors: whether it is had, and whether a crash leaves just these bytes there.
fn keeps(rt: &impl Abort, alloc: Global, is_new: bool, bytes: &[u8], calls: u64) -> bool {
    let Ok(kept) = kept_file(folder(rt, alloc, calls), 2, is_new) else {
        return false;
    };
    assert!(rt; kept.leaves_either(bytes, bytes));
    true
}

/// A blank one is made, filled, made durable, renamed, and that is made durable.
#[test]
fn a_new_disk_is_kept_in_a_blank_file(rt: HostRuntime) {
    for calls in 0..7 {
        same(
            &rt,
            keeps(&rt, rt.alloc(), true, &[0; 1024], calls),
            calls >= 5,
        );
    }
}

#[test]
fn a_disk_that_was_there_is_kept_in_its_file_once_it_is_durable(rt: HostRuntime) {
    for calls in 0..3 {
        same(&rt, keeps(&rt, rt.alloc(), false, &OLD, calls), calls >= 1);
    }
}
