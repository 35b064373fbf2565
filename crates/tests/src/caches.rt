//! The caches that the tests begin with, and what a power cut leaves of them.
ghost use Rattle.std.specs.Prelude.{◌≡◌};

use crate::fixtures::blank_disk;
use disk::Disk;
use simdisk::{CachedDisk, Fill, SimDisk};
use std::alloc::Global;
use std::process::Abort;

/// A cache over a disk of so many sectors, all of them zeros.
pub fn blank(rt: &impl Abort, alloc: Global, sectors: usize) -> CachedDisk<SimDisk>
    ensures { (⟦<CachedDisk<SimDisk> as Disk>⟧.facts result).lent.lanes ≡ 0 }
{
    let device = blank_disk(rt, alloc, sectors);
    let Ok(disk) = CachedDisk::new(alloc, device) else {
        rt.panic("no memory")
    };
    disk
}

/// The device that a power cut leaves of a cache: each of its writes that no sync followed reads as 9 throughout.
pub fn cut(disk: CachedDisk<SimDisk>) -> SimDisk
    ensures { (⟦<SimDisk as Disk>⟧.facts result).lent.lanes ≡ 0 }
{
    disk.into_device().after_cut(Fill::Byte(9))
}
