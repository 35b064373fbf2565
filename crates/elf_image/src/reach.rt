//! Whether segments fit a RAM.

ghost use Rattle.std.specs.Prelude.{◌≡◌, ℕ, ◌<◌, OnOk, IfErr};
ghost use Rattle.elf_image.specs.Kernel.{IsMisplaced};
ghost use Rattle.elf_image.specs.Program.{AreLaidOut, FitsRam, IsAfterAll, Loads, segment_at};

use crate::fault::ElfFault;
use crate::fields::u64_at;
use crate::program::{RAM_BASE, Segment, segments};

/// Whether the segments are loaded in ascending order, none over another, each in a RAM of so many bytes, and the entry is its start.
pub fn check_layout(bytes: &[u8], ram: u32) -> Result<(), ElfFault>
    ensures ok { OnOk result (AreLaidOut bytes.now ram) }
    ensures misplaced { IfErr result (IsMisplaced bytes.now ram) }
{
    let entry = u64_at(bytes, 24);
    if entry != RAM_BASE {
        return Err(ElfFault::EntryElsewhere(entry));
    }
    let mut end = RAM_BASE;
    for k in 0..segments(bytes) {
        let segment = Segment::at(bytes, k);
        if segment.takes_memory() {
            if !segment.fits_ram(ram as u64) {
                return Err(ElfFault::OutsideRam(k, ram));
            }
            if segment.loaded_at < end {
                return Err(ElfFault::Overlapping(k));
            }
            end = segment.loaded_at + segment.memory_bytes;
        }
    }
    Ok(())
}
