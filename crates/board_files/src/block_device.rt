//! A device of larger blocks, and the file of sectors in it.

ghost use Rattle.std.specs.Prelude.{◌≡◌, IfOk, length};
ghost use Rattle.board_files.specs.Blocks.{HoldsSectors};
ghost use Rattle.board_files.specs.Files.{Goes};

use crate::block_size::{BlockSize, lay};
use crate::sector_file::SectorFile;
use disk::Sector;
use std::alloc::{AllocError, Global};
use std::io;

/// A device that is written in whole blocks, as a flash, an SD card, a disk of 4,096-byte sectors, or a file through the page
/// cache.
///
/// A write that fails, or in which power is lost, may leave any bytes in its block, and leaves every other block as it is. What is
/// known of the device is said as of a file of sectors ([`SectorFile`]), block by block.
pub trait BlockDevice {
    ghost use Rattle.std.specs.Prelude.{◌≡◌, ◌≤◌, ℕ, length};
    ghost use Rattle.disk.specs.Facts.{Content};
    ghost use Rattle.board_files.specs.Files.{FileKnown, IfKnown, Goes, WritesSector, SyncsFile};

    /// What a read gives and what a crash leaves, block by block, where that is known.
    ghost device_facts: { Self → FileKnown };

    /// How many bytes each block has.
    ghost block_bytes: { Self → ℕ };

    /// How many bytes each block has.
    fn block_size(&self) -> BlockSize
        ensures { result.bytes ≡ block_bytes self.now };

    /// Writes the block of that number, in place. At `Err` it may hold any bytes. No other block is touched.
    fn write_block(&mut self, number: usize, block: &[u8]) -> io::Result<()>
        requires { length block.now ≡ block_bytes self.old }
        ensures wrote { Goes (device_facts self.old) (device_facts self.new) (WritesSector number block.now result) }
        ensures same { block_bytes self.new ≡ block_bytes self.old };

    /// Makes durable what was written. At `Err` what was written since the last sync that answered `Ok` may be lost, also to a
    /// read.
    fn sync(&mut self) -> io::Result<()>
        ensures synced { Goes (device_facts self.old) (device_facts self.new) (SyncsFile result) }
        ensures same { block_bytes self.new ≡ block_bytes self.old };

    /// A process that is killed leaves what a read gives.
    ghost may_keep: { (device : Self) → IfKnown (device_facts device) (λ f. f.may_leave f.holds) };

    /// This moment is one of those since each earlier one.
    ghost counts_now: { (device : Self) → IfKnown (device_facts device) (λ f. (t : ℕ) (c : Content) → t ≤ f.syncs
        → f.may_leave c → f.since t c) };

    /// What a crash might have left since a moment, it might have left since an earlier one.
    ghost earlier: { (device : Self) → IfKnown (device_facts device) (λ f. (t u : ℕ) (c : Content) → t ≤ u → f.since u c
        → f.since t c) };
}

/// A file of sectors in a device of larger blocks: sector k lies alone in block k, and the first block says how many bytes a block has.
///
/// So it keeps the promises of a [`SectorFile`] over a device which in any write may lose a whole block.
#[derive(Drop)]
pub struct SectorsInBlocks<D: BlockDevice + Drop> {
    device: D,
    size: BlockSize,
    block: Vec<u8>,
    ghost fits: { size.bytes ≡ D.block_bytes device },
    ghost room: { length block.items ≡ size.bytes },
}

impl<D: BlockDevice + Drop> SectorsInBlocks<D> {
    /// The sectors of that device. It takes memory for one block. At `Err` memory was refused.
    pub fn new(alloc: Global, device: D) -> Result<SectorsInBlocks<D>, AllocError>
        ensures { IfOk result (λ file. Goes (D.device_facts device) (⟦<SectorsInBlocks<D> as SectorFile>⟧.file_facts file)
            (HoldsSectors (D.block_bytes device))) }
    {
        let size = device.block_size();
        let block = vec![in alloc; 0; size.bytes as usize]?;
        Ok(SectorsInBlocks {
            device,
            size,
            block,
        })
    }

    /// The device.
    pub fn into_device(self) -> D
        ensures { Goes (D.device_facts result) (⟦<SectorsInBlocks<D> as SectorFile>⟧.file_facts self)
            (HoldsSectors (D.block_bytes result)) }
    {
        self.device
    }
}

impl<D: BlockDevice + Drop> SectorFile for SectorsInBlocks<D> {
    ghost use Rattle.board_files.specs.Blocks.{counts_in, earlier_in, keeps_in, known_in};

    ghost file_facts = { λ s. known_in s.size.bytes (D.device_facts s.device) };

    fn write_sector(&mut self, number: usize, sector: &Sector) -> io::Result<()> {
        lay(&mut self.block, self.size, number, sector);
        self.device.write_block(number, &self.block)
    }

    fn sync(&mut self) -> io::Result<()> {
        self.device.sync()
    }

    ghost may_keep = { λ s. keeps_in s.size.bytes (D.device_facts s.device) (D.may_keep s.device) };

    ghost counts_now = { λ s. counts_in s.size.bytes (D.device_facts s.device) (D.counts_now s.device) };

    ghost earlier = { λ s. earlier_in s.size.bytes (D.device_facts s.device) (D.earlier s.device) };
}
