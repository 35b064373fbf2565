//! The disks over files in memory, and the stores, that the tests begin with.
ghost use Rattle.std.specs.Prelude.{◌≡◌};

use crate::fixtures::{formatted, open};
use board_files::{FileDisk, FileFate, MemoryFile};
use board_model::Shape;
use disk::{Disk, Sector};
use simdisk::SimDisk;
use std::alloc::Global;
use std::process::Abort;
use store::Store;

/// A disk in memory of these sectors.
fn disk_of(rt: &impl Abort, alloc: Global, sectors: &[Sector]) -> SimDisk
    ensures { (⟦<SimDisk as Disk>⟧.facts result).lent.lanes ≡ 0 }
{
    let Ok(disk) = SimDisk::new(alloc, sectors.as_flattened()) else {
        rt.panic("no memory")
    };
    disk
}

/// The file of a disk that was formatted for that board.
pub fn formatted_file(rt: &impl Abort, alloc: Global, shape: &Shape) -> Vec<Sector> {
    let disk = formatted(alloc, shape).expect(rt, "a format");
    Vec::from_slice(alloc, disk.content()).expect(rt, "memory")
}

/// The store of a file to which that happens so many calls after its open.
pub fn opened(
    rt: &impl Abort,
    alloc: Global,
    sectors: &[Sector],
    left: u64,
    fate: FileFate,
) -> Store<FileDisk<MemoryFile>> {
    let memory = disk_of(rt, alloc, sectors);
    // An open makes one call of the file, its sync.
    let calls = left.saturating_add(1);
    let file = MemoryFile::of(alloc, memory.content(), calls, fate).expect(rt, "memory");
    let Ok(disk) = FileDisk::new(alloc, memory, file) else {
        rt.panic("no memory")
    };
    open(alloc, disk).expect(rt, "an open")
}

/// A disk of the file of a store, as the next process finds it.
pub fn found(rt: &impl Abort, alloc: Global, store: Store<FileDisk<MemoryFile>>) -> SimDisk
    ensures { (⟦<SimDisk as Disk>⟧.facts result).lent.lanes ≡ 0 }
{
    let sectors = store.into_disk().into_file().found();
    disk_of(rt, alloc, &sectors)
}
