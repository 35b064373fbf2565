//! The bytes of the segments, laid into memory.

ghost use Rattle.std.specs.Prelude.{◌≡◌, ℕ, ◌+◌, ◌-◌, ◌<◌, ◌≤◌, ◌++◌, IfOk, OnOk, length, replicate, vec_len};
ghost use Rattle.elf_image.specs.Fields.{part_of};
ghost use Rattle.elf_image.specs.Loading.{IsLoaded, IsLoadedTo};
ghost use Rattle.elf_image.specs.Program.{AreLaidOut, IsInFile, Loads, segment_at, segments_of, start_of};

use crate::program::{RAM_BASE, Segment, segments};
use std::alloc::{AllocError, Global};

/// Lays a segment's bytes after the memory before it, with zeros between.
fn lay(memory: &mut Vec<u8>, bytes: &[u8], segment: &Segment) -> Result<(), AllocError>
    requires above { 2147483648 ≤ segment.now.loaded_at }
    requires room { vec_len memory.old ≤ start_of segment.now }
    requires inside { IsInFile bytes.now segment.now }
    ensures { OnOk result (memory.new.items ≡ memory.old.items ++ replicate (start_of segment.now - vec_len memory.old) 0
        ++ part_of segment.now.offset segment.now.file_bytes bytes.now) }
{
    memory.resize((segment.loaded_at - RAM_BASE) as usize, 0)?;
    let start = segment.offset as usize;
    memory.extend_from_slice(&bytes[start..start + segment.file_bytes as usize])
}

/// Lays segment `k` after those before it. Nothing is laid of one that the file has no bytes of.
fn add(memory: &mut Vec<u8>, bytes: &[u8], k: u16) -> Result<(), AllocError>
    requires there { k < segments_of bytes.now }
    requires fits { (ram : ℕ) × AreLaidOut bytes.now ram }
    requires inside { (k : ℕ) → Loads bytes.now k → IsInFile bytes.now (segment_at bytes.now k) }
    requires before { IsLoadedTo bytes.now k memory.old.items }
    ensures { OnOk result (IsLoadedTo bytes.now (k + 1) memory.new.items) }
{
    let segment = Segment::at(bytes, k);
    if !segment.has_bytes() {
        return Ok(());
    }
    lay(memory, bytes, &segment)
}

/// The memory of a file whose segments are in it, and fit a RAM.
pub fn laid(alloc: Global, bytes: &[u8]) -> Result<Vec<u8>, AllocError>
    requires fits { (ram : ℕ) × AreLaidOut bytes.now ram }
    requires inside { (k : ℕ) → Loads bytes.now k → IsInFile bytes.now (segment_at bytes.now k) }
    ensures { IfOk result (λ memory. IsLoaded bytes.now memory.items) }
{
    let mut memory = Vec::new(alloc);
    for k in 0..segments(bytes) {
        add(&mut memory, bytes, k)?;
    }
    Ok(memory)
}
