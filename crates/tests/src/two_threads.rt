//! Two threads issue commands to one store, each in a hold of its lock: the receipts agree with the journal.

use crate::fixtures::{formatted, open};
use board_model::{Command, Entry, Shape};
use disk::Disk;
use simdisk::SimDisk;
use std::alloc::Global;
use std::process::Abort;
use std::sync::{Mutex, Wait};
use std::thread::{Threads, join};
use store::Store;

/// How many commands a thread issues.
const COMMANDS: usize = 100;

/// Issues the command that sets that slot, so many times: the receipts, 0 in the place of one that was
/// refused.
fn issue<R: Wait, D: Disk + Drop>(rt: &R, store: &Mutex<Store<D>>, slot: u32) -> [u32; COMMANDS] {
    let mut receipts = [0; COMMANDS];
    for receipt in receipts.iter_mut() {
        if let Ok(acknowledged) = store.lock(rt).apply(Command::Slot(slot)) {
            *receipt = acknowledged.number();
        }
    }
    receipts
}

/// The receipts of a thread that sets slot 1, and of one that sets slot 2.
fn issue_both<R: Threads + Wait + Sync, D: Disk + Drop + Send>(
    rt: &R,
    store: &Mutex<Store<D>>,
) -> ([u32; COMMANDS], [u32; COMMANDS]) {
    join(rt, || issue(rt, store, 1), || issue(rt, store, 2))
}

/// Whether these receipts rise, and the journal has that command at the place of each.
fn are_of(store: &Store<SimDisk>, receipts: &[u32], slot: u32) -> bool {
    let wanted = Some(Entry::Command(Command::Slot(slot)));
    let mut before = 0;
    for &number in receipts {
        if number <= before || store.entry(u64::from(number)) != wanted {
            return false;
        }
        before = number;
    }
    true
}

/// The store of a new disk, which two threads share.
fn shared(rt: &impl Abort, alloc: Global) -> Mutex<Store<SimDisk>> {
    let shape = Shape::new(1, 1, 1).expect(rt, "a shape");
    let disk = formatted(alloc, &shape).expect(rt, "a format");
    Mutex::new(open(alloc, disk).expect(rt, "an open"))
}

/// A hundred receipts of each thread, in a journal of two hundred: so each number is the receipt of one command.
#[test]
fn receipts_of_two_threads_agree_with_the_journal(rt: HostRuntime) {
    let store = shared(&rt, rt.alloc());
    let (ones, twos) = issue_both(&rt, &store);
    let store = store.into_inner();
    assert!(&rt;
        are_of(&store, &ones, 1) && are_of(&store, &twos, 2) && store.entry(201).is_none()
    );
}
