//! A write of a board's memory to a disk for it, of which a test reads the answer and the calls alone.
ghost use Rattle.std.specs.Prelude.{◌≡◌, ◌≤◌, length};
ghost use Rattle.board_model.specs.Shapes.{ram_bytes_of, sectors_of};

use crate::fixtures::blank_disk;
use board_model::{Refusal, Shape};
use crew::Crew;
use disk::{ArmedFault, Disk};
use image::write_area;
use layout::Side;
use ram::Ram;
use savers::{LaneCounts, Snapshot};
use simdisk::SimDisk;
use std::alloc::Global;
use std::process::Abort;

/// A disk of zeros for a board of that shape.
fn disk_for(rt: &impl Abort, alloc: Global, shape: &Shape) -> SimDisk
    ensures none_out { (⟦<SimDisk as Disk>⟧.facts result).lent.lanes ≡ 0 }
    ensures enough { sectors_of shape.now ≤ length (⟦<SimDisk as Disk>⟧.facts result).content }
{
    let disk = blank_disk(rt, alloc, shape.sectors());
    assert!(rt; shape.sectors() <= disk.sectors());
    disk
}

/// A memory of zeros for a board of that shape.
fn memory(rt: &impl Abort, alloc: Global, shape: &Shape) -> Ram
    ensures { length result ≡ ram_bytes_of shape.now }
{
    let Ok(ram) = Ram::new(alloc, *shape) else {
        rt.panic("no memory")
    };
    ram
}

/// How many calls were made of lanes 0 to 3.
fn lane_calls(disk: &SimDisk) -> [u64; 4] {
    [
        disk.lane_calls(0),
        disk.lane_calls(1),
        disk.lane_calls(2),
        disk.lane_calls(3),
    ]
}

/// What a write of a board's memory, of zeros, into the first area answers, how many places of each lane are in use, and how many calls it
/// made of each lane. The disk has that fault.
pub fn saved<C: Crew>(
    rt: &impl Abort,
    alloc: Global,
    crew: &C,
    shape: &Shape,
    fault: ArmedFault,
) -> (Result<LaneCounts, Refusal>, [u64; 4]) {
    let ram = memory(rt, alloc, shape);
    let mut disk = disk_for(rt, alloc, shape);
    disk.arm(fault);
    let snapshot = Snapshot {
        shape,
        ram: &ram,
        serial: 7,
    };
    let counts = write_area(alloc, &mut disk, crew, Side::first(), &snapshot);
    (counts, lane_calls(&disk))
}
