//! A file of the system as a device of larger blocks.

use crate::block_device::{BlockDevice, SectorsInBlocks};
use crate::block_size::BlockSize;
use crate::sector_file::SectorFile;
use disk::Sector;
use std::fs::File;
use std::io;
use std::os::unix::fs::FileExt;

/// A file of the system that is written in whole blocks, one after the other. Nothing is known of it.
#[derive(Drop)]
pub struct FileBlocks {
    pub file: File,
    /// How many bytes each block has.
    pub block: BlockSize,
}

impl BlockDevice for FileBlocks {
    ghost use Rattle.board_files.specs.Files.{Unknown};

    ghost device_facts = { λ _. Unknown };

    ghost block_bytes = { λ f. f.block.bytes };

    fn block_size(&self) -> BlockSize {
        self.block
    }

    fn write_block(&mut self, number: usize, block: &[u8]) -> io::Result<()> {
        let at = (number as u64).saturating_mul(self.block.bytes as u64);
        self.file.write_all_at(block, at)
    }

    fn sync(&mut self) -> io::Result<()> {
        self.file.sync_data()
    }

    ghost may_keep = { λ _. tt };

    ghost counts_now = { λ _. tt };

    ghost earlier = { λ _. tt };
}

/// A file of the system in which a session keeps the sectors of its disk, in blocks of any size. Nothing is known of it.
#[derive(Drop)]
pub struct KeptFile {
    pub sectors: SectorsInBlocks<FileBlocks>,
}

impl SectorFile for KeptFile {
    ghost use Rattle.board_files.specs.Files.{Unknown};

    ghost file_facts = { λ _. Unknown };

    fn write_sector(&mut self, number: usize, sector: &Sector) -> io::Result<()> {
        self.sectors.write_sector(number, sector)
    }

    fn sync(&mut self) -> io::Result<()> {
        self.sectors.sync()
    }

    ghost may_keep = { λ _. tt };

    ghost counts_now = { λ _. tt };

    ghost earlier = { λ _. tt };
}
