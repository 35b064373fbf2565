//! The memory of the image on a disk, for a reader who wants to see what a guest left there.

ghost use Rattle.std.specs.Prelude.{◌≡◌, [], IfOk, IfErr, OnOk};
ghost use Rattle.std.specs.Io.Buffered.{writer_buffer, writer_contents};
ghost use Rattle.std.specs.Io.KnownBytes.{Appends};
ghost use Rattle.store.specs.Leaves.{IsIdle, IsSettled};
ghost use Rattle.report_lines.specs.Memories.{HoldsMemory, MemoryRefused};

use board_model::Refusal;
use disk::Disk;
use ram::Ram;
use std::alloc::Global;
use std::io::{BufWriter, Write};
use store::Store;

/// The memory of the image on a disk, byte for byte, as its area holds it. The disk is given back as the open leaves it:
/// nothing is written, unless its record is of version 1.
///
/// Refused `NotFormatted`, `BadShape` and `BadRecord` by what the disk holds, `NoImage` where there is no image, `BadImage`
/// where the image is not whole, `Device` where the disk failed in this call, and `Memory` where there is no room for the
/// memory or for the journal of the open.
pub fn image_memory<D: Disk + Drop>(alloc: Global, disk: D) -> (D, Result<Ram, Refusal>)
    requires none_out { IsIdle (D.facts disk) }
    ensures memory { IfOk result.1 (HoldsMemory (D.facts disk).content) }
    ensures refused { IfErr result.1 (λ e. MemoryRefused (D.facts disk) e (D.facts result.0)) }
    ensures settles { IsSettled (D.facts disk) (D.facts result.0) }
{
    let mut store = match Store::open(alloc, disk) {
        Ok(store) => store,
        Err((disk, refusal)) => return (disk, Err(refusal)),
    };
    let mut ram = match Ram::new(alloc, store.shape()) {
        Ok(ram) => ram,
        Err(refusal) => return (store.into_disk(), Err(refusal)),
    };
    match store.load_image(&mut ram) {
        Ok(()) => (store.into_disk(), Ok(ram)),
        Err(refusal) => (store.into_disk(), Err(refusal)),
    }
}

/// Writes the memory to the end, byte for byte and nothing else.
///
/// Refused `Output` where it could not be written.
pub fn write_memory<W: Write + Drop>(memory: &Ram, out: &mut BufWriter<W>) -> Result<(), Refusal>
    ensures written { OnOk result (Appends (writer_contents W.contents out.old)
        (writer_contents W.contents out.new) memory.now) }
    // Nothing of it is held back.
    ensures flushed { OnOk result (writer_buffer out.new ≡ []) }
    ensures refused { IfErr result (λ e. e ≡ Refusal.Output) }
{
    out.write_all(memory.bytes()).map_err(|_| Refusal::Output)?;
    out.flush().map_err(|_| Refusal::Output)
}
