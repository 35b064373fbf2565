//! docs/STORE.md, "A first use": between the lines of dashes the code stands there as it stands here.

use crate::fixtures::{same, slot_of};
use board_model::{Command, Refusal, Shape};
use simdisk::SimDisk;
use std::alloc::Global;
use store::{Receipt, Store, format};

/// A disk in memory is formatted and opened, and the boot slot is set.
fn first_slot(alloc: Global) -> Result<(Store<SimDisk>, Receipt), Refusal> {
    // ----
    let mut disk = SimDisk::blank(alloc, 26)?;
    format(&mut disk, &Shape::new(1, 1, 1)?)?;
    let mut store = match Store::open(alloc, disk) {
        Ok(store) => store,
        Err((_, refusal)) => return Err(refusal),
    };
    let receipt = store.apply(Command::Slot(1))?;
    // ----
    Ok((store, receipt))
}

#[test]
fn a_slot_is_set_and_found(rt: HostRuntime) {
    let (store, receipt) = first_slot(rt.alloc()).expect(&rt, "memory");
    let (now, found) = (store.now().slot, store.found().slot);
    same(
        &rt,
        (receipt.number(), now.number(), found.number()),
        (1, 1, 0),
    );
    same(&rt, slot_of(rt.alloc(), store.into_disk()), Ok(1));
}
