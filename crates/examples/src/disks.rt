//! The disk's file of a session in memory, and what fails of it. Contracts know nothing of its bytes.

ghost use Rattle.std.specs.Prelude.{None, IfErr};
ghost use Rattle.board_files.specs.Faults.{IsFileFault};

use crate::files::Folder;
use board_files::{
    BlockDevice, BlockSize, BoardFiles, ByteFile, DiskFile, DiskFiles, FormedFile, HeldFile,
    MemoryFolder, PayloadFiles, SectorFile, SectorsInBlocks, kept_file, unreached,
};
use board_model::Refusal;
use command_line::FileFault;
use disk::Sector;
use std::alloc::Global;
use std::fs::File;
use std::io::{self, ErrorKind};

/// What fails of the disk's file.
#[derive(Clone, Copy, Drop)]
pub enum Failing {
    Nothing,
    /// It can't be held.
    Hold,
    /// Each call that asks for its length.
    Length,
    /// Each call that reads it.
    Read,
    /// No file can be made beside it.
    Write,
}

/// The bytes of the disk's file.
fn bytes_in(alloc: Global, folder: &MemoryFolder) -> Option<Vec<u8>> {
    let count = folder.byte_count().ok()?;
    let mut bytes = vec![in alloc; 0; count as usize].ok()?;
    folder.read_at(0, &mut bytes).ok()?;
    Some(bytes)
}

/// The disk's file, in whatever form it holds the sectors. Faults name it `D`.
#[derive(Drop)]
pub struct MemoryDisk {
    alloc: Global,
    formed: FormedFile<MemoryFolder>,
    failing: Failing,
}

impl MemoryDisk {
    /// Its bytes.
    pub fn bytes(&self) -> Option<Vec<u8>> {
        bytes_in(self.alloc, &self.formed.file)
    }

    fn fault(&self) -> FileFault
        ensures { IsFileFault result.fault }
    {
        unreached(self.alloc, "D", io::Error::other("it fails"))
    }
}

impl DiskFile for MemoryDisk {
    ghost bytes = { λ disk. None };

    ghost block = { λ disk. disk.formed.block.bytes };

    fn block_size(&self) -> BlockSize {
        self.formed.block
    }

    fn length(&self) -> Result<u64, FileFault> {
        match self.failing {
            Failing::Length => Err(self.fault()),
            _ => self.formed.length(),
        }
    }

    fn read(&self, into: &mut [u8]) -> Result<(), FileFault> {
        match self.failing {
            Failing::Read => Err(self.fault()),
            _ => self.formed.read(into),
        }
    }
}

impl HeldFile for MemoryDisk {
    ghost use Rattle.board_files.specs.Folders.{left_of, no_facts};

    ghost left = { λ disk. left_of no_facts };

    fn write(&mut self, sectors: &[Sector], is_new: bool) -> Result<(), FileFault> {
        self.formed.write(sectors, is_new)
    }

    ghost counts_now = { λ disk. tt };
}

/// The bytes of a file that is written block by block.
#[derive(Drop)]
pub struct MemoryBlocks {
    pub bytes: Vec<u8>,
    size: BlockSize,
}

impl BlockDevice for MemoryBlocks {
    ghost use Rattle.board_files.specs.Files.{Unknown};

    ghost device_facts = { λ _. Unknown };

    ghost block_bytes = { λ d. d.size.bytes };

    fn block_size(&self) -> BlockSize {
        self.size
    }

    fn write_block(&mut self, number: usize, block: &[u8]) -> io::Result<()> {
        let at = number.saturating_mul(block.len());
        let (room, count) = (self.bytes.len(), block.len());
        if room < count || room - count < at {
            return Err(io::Error::from(ErrorKind::InvalidInput));
        }
        self.bytes[at..at + count].copy_from_slice(block);
        Ok(())
    }

    fn sync(&mut self) -> io::Result<()> {
        Ok(())
    }

    ghost may_keep = { λ _. tt };

    ghost counts_now = { λ _. tt };

    ghost earlier = { λ _. tt };
}

/// The sectors of a disk's file that a session keeps in it all along. Nothing is known of it.
#[derive(Drop)]
pub struct KeptBlocks {
    pub sectors: SectorsInBlocks<MemoryBlocks>,
}

impl SectorFile for KeptBlocks {
    ghost use Rattle.board_files.specs.Files.{Unknown};

    ghost file_facts = { λ _. Unknown };

    fn write_sector(&mut self, number: usize, sector: &Sector) -> io::Result<()> {
        self.sectors.write_sector(number, sector)
    }

    fn sync(&mut self) -> io::Result<()> {
        self.sectors.sync()
    }

    ghost may_keep = { λ _. tt };

    ghost counts_now = { λ _. tt };

    ghost earlier = { λ _. tt };
}

/// The payload files of a folder, and the disk's file of these bytes.
#[derive(Clone, Copy)]
pub struct SessionFiles<'a> {
    pub payloads: Folder<'a>,
    pub disk: &'a [u8],
    pub failing: Failing,
}

impl SessionFiles<'_> {
    /// The disk's file in its folder.
    fn folder(&self) -> Result<MemoryFolder, FileFault>
        ensures { IfErr result (λ e. IsFileFault e.fault) }
    {
        let alloc = self.payloads.rt.alloc();
        let calls = match self.failing {
            Failing::Hold => return Err(unreached(alloc, "D", io::Error::other("another has it"))),
            Failing::Write => 0,
            _ => u64::MAX,
        };
        match MemoryFolder::of(alloc, self.disk, calls) {
            Ok(folder) => Ok(folder),
            Err(_) => Err(FileFault::refused(Refusal::Memory)),
        }
    }
}

impl PayloadFiles for SessionFiles<'_> {
    type Opened = File;

    ghost bytes_at = { λ files path. None };

    fn open(&self, path: &str) -> io::Result<File> {
        PayloadFiles::open(&self.payloads, path)
    }
}

impl DiskFiles for SessionFiles<'_> {
    type Opened = MemoryDisk;

    ghost disk_at = { λ files path. None };

    fn open(&self, _path: &str) -> Result<MemoryDisk, FileFault> {
        let formed = FormedFile::found(self.folder()?)?;
        Ok(MemoryDisk {
            alloc: self.payloads.rt.alloc(),
            formed,
            failing: self.failing,
        })
    }
}

impl BoardFiles for SessionFiles<'_> {
    ghost use Rattle.std.specs.Prelude.{⊤};

    type Held = MemoryDisk;

    type Kept = KeptBlocks;

    ghost disk_at = { λ files path. None };

    ghost left_at = { λ files path c. ⊤ };

    fn hold(
        &self,
        _path: &str,
        is_new: bool,
        _is_synced: bool,
        block: BlockSize,
    ) -> Result<MemoryDisk, FileFault> {
        let file = self.folder()?;
        let formed = if is_new {
            FormedFile { file, block }
        } else {
            FormedFile::found(file)?
        };
        Ok(MemoryDisk {
            alloc: self.payloads.rt.alloc(),
            formed,
            failing: self.failing,
        })
    }

    fn keep(
        &self,
        held: MemoryDisk,
        sectors: &[Sector],
        is_new: bool,
    ) -> Result<KeptBlocks, FileFault> {
        let (alloc, size) = (held.alloc, held.formed.block);
        let folder = kept_file(held.formed, sectors.len(), is_new)?;
        let Some(bytes) = bytes_in(alloc, &folder) else {
            return Err(FileFault::refused(Refusal::Memory));
        };
        match SectorsInBlocks::new(alloc, MemoryBlocks { bytes, size }) {
            Ok(sectors) => Ok(KeptBlocks { sectors }),
            Err(_) => Err(FileFault::refused(Refusal::Memory)),
        }
    }
}
