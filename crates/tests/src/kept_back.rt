//! Which sectors the device of a cache has, and when.
ghost use Rattle.std.specs.Prelude.{◌≡◌};

use crate::caches::{blank, cut};
use crate::fixtures::same;
use crate::last_bytes::{last_bytes, write_byte};
use disk::{ArmedFault, Disk, Fault};
use simdisk::{CachedDisk, Fill, SimDisk};
use std::alloc::Global;
use std::process::Abort;

/// Writes so many sectors, the k-th full of k + 1, with no sync.
fn write_each(rt: &impl Abort, disk: &mut CachedDisk<SimDisk>, count: u8)
    requires { (⟦<CachedDisk<SimDisk> as Disk>⟧.facts disk.old).lent.lanes ≡ 0 }
    ensures { (⟦<CachedDisk<SimDisk> as Disk>⟧.facts disk.new).lent.lanes ≡ 0 }
{
    for k in 0..count {
        let wrote = write_byte(rt, disk, usize::from(k), k.wrapping_add(1));
        same(rt, wrote, Ok(()));
    }
}

/// A cache of 12 sectors over zeros, after so many of these writes.
fn written(rt: &impl Abort, alloc: Global, count: u8) -> CachedDisk<SimDisk>
    ensures { (⟦<CachedDisk<SimDisk> as Disk>⟧.facts result).lent.lanes ≡ 0 }
{
    let mut disk = blank(rt, alloc, 12);
    write_each(rt, &mut disk, count);
    disk
}

/// What the device reads as that a power cut leaves.
fn left(rt: &impl Abort, disk: CachedDisk<SimDisk>) -> Result<[u8; 11], Fault> {
    let mut device = cut(disk);
    last_bytes(rt, &mut device)
}

const ONE: [u8; 11] = [1, 0, 0, 0, 0, 0, 0, 0, 0, 0, 0];

const EIGHT: [u8; 11] = [1, 2, 3, 4, 5, 6, 7, 8, 0, 0, 0];

const ELEVEN: [u8; 11] = [1, 2, 3, 4, 5, 6, 7, 8, 9, 10, 11];

/// Eight sectors wait: the device was not called, and a power cut leaves what stood before them.
#[test]
fn eight_sectors_wait_for_their_device(rt: HostRuntime) {
    let device = written(&rt, rt.alloc(), 8).into_device();
    same(&rt, device.calls(), 0);
    let mut device = device.after_cut(Fill::Byte(9));
    same(&rt, last_bytes(&rt, &mut device), Ok([0; 11]));
}

/// What hands so many sectors on that wait: from eight on the write of another, and of fewer a sync.
fn hand_on(rt: &impl Abort, disk: &mut CachedDisk<SimDisk>, count: u8) -> Result<(), Fault>
    requires { (⟦<CachedDisk<SimDisk> as Disk>⟧.facts disk.old).lent.lanes ≡ 0 }
    ensures { (⟦<CachedDisk<SimDisk> as Disk>⟧.facts disk.new).lent.lanes ≡ 0 }
{
    if count < 8 {
        return disk.sync();
    }
    write_byte(rt, disk, 11, 9)
}

/// So many sectors are handed on, and that call of the device fails meanwhile, none where it is 0. They read as before, and the next
/// sync keeps them.
fn are_kept(
    rt: &impl Abort,
    alloc: Global,
    count: u8,
    call: u64,
    handed: Result<(), Fault>,
    kept: [u8; 11],
) {
    let mut disk = written(rt, alloc, count);
    disk.arm(ArmedFault::FailAt(call));
    same(rt, hand_on(rt, &mut disk, count), handed);
    same(rt, last_bytes(rt, &mut disk), Ok(kept));
    same(rt, disk.sync(), Ok(()));
    same(rt, disk.failures(), u64::from(handed.is_err()));
    same(rt, left(rt, disk), Ok(kept));
}

/// A ninth sector finds no room: all of them go to the device, and a sync keeps them there.
#[test]
fn what_finds_no_room_is_handed_on_and_kept(rt: HostRuntime) {
    are_kept(&rt, rt.alloc(), 11, 0, Ok(()), ELEVEN);
}

/// Eight sectors go to the device for a ninth, each by a call that fails once. All eight wait on.
#[test]
fn what_the_device_fails_to_take_waits_on(rt: HostRuntime) {
    for call in 1..9 {
        are_kept(&rt, rt.alloc(), 8, call, Err(Fault), EIGHT);
    }
}

/// The device's write and then its sync fail in the sync of one sector.
#[test]
fn a_sync_that_failed_is_made_good_by_the_next(rt: HostRuntime) {
    for call in 1..3 {
        are_kept(&rt, rt.alloc(), 1, call, Err(Fault), ONE);
    }
}
