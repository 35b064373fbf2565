//! The files of the system, of whose bytes nothing is known.

ghost use Rattle.std.specs.Prelude.{None, ⊤};

use crate::block_device::SectorsInBlocks;
use crate::block_size::BlockSize;
use crate::file_blocks::{FileBlocks, KeptFile};
use crate::files::{BoardFiles, DiskFile, DiskFiles, HeldFile, unreached};
use crate::formed_file::{ByteFile, FormedFile};
use crate::held::hold;
use crate::payload_files::PayloadFiles;
use crate::system_folder::SystemFolder;
use crate::written::kept_file;
use board_model::Refusal;
use command_line::{FileFault, open_regular};
use disk::Sector;
use std::fs::{File, OpenOptions};
use std::io;
use std::os::unix::fs::FileExt;

/// The files of the system.
#[derive(Clone, Copy)]
pub struct SystemFiles<'a>(pub &'a HostRuntime);

/// A file of the system that is open, and where it is.
#[derive(Drop)]
pub struct SystemFile<'a> {
    /// Whose file it is.
    pub rt: &'a HostRuntime,
    /// The path of the file. Of one that a session has, symbolic links were followed to it.
    pub path: String,
    /// Open for reading, and where a session has it for writing too: that is so for as long as this value is there.
    pub file: File,
}

impl<'a> ByteFile for SystemFile<'a> {
    ghost held = { λ file. None };

    fn byte_count(&self) -> Result<u64, FileFault> {
        match self.file.metadata() {
            Ok(found) => Ok(found.len()),
            Err(e) => Err(unreached(self.rt.alloc(), &self.path, e)),
        }
    }

    fn read_at(&self, at: u64, into: &mut [u8]) -> Result<(), FileFault> {
        match self.file.read_exact_at(into, at) {
            Ok(()) => Ok(()),
            Err(e) => Err(unreached(self.rt.alloc(), &self.path, e)),
        }
    }
}

/// A disk's file of the system in its folder, in whatever form it holds the sectors.
#[derive(Drop)]
pub struct SystemDisk<'a> {
    pub formed: FormedFile<SystemFolder<'a>>,
}

impl<'a> DiskFile for SystemDisk<'a> {
    ghost bytes = { λ disk. None };

    ghost block = { λ disk. disk.formed.block.bytes };

    fn block_size(&self) -> BlockSize {
        self.formed.block
    }

    fn length(&self) -> Result<u64, FileFault> {
        self.formed.length()
    }

    fn read(&self, into: &mut [u8]) -> Result<(), FileFault> {
        self.formed.read(into)
    }
}

impl<'a> HeldFile for SystemDisk<'a> {
    ghost use Rattle.board_files.specs.Folders.{left_of, no_facts};

    ghost left = { λ disk. left_of no_facts };

    fn write(&mut self, sectors: &[Sector], is_new: bool) -> Result<(), FileFault> {
        self.formed.write(sectors, is_new)
    }

    ghost counts_now = { λ disk. tt };
}

impl<'a> PayloadFiles for SystemFiles<'a> {
    type Opened = File;

    ghost bytes_at = { λ files path. None };

    fn open(&self, path: &str) -> io::Result<File> {
        PayloadFiles::open(self.0, path)
    }
}

impl<'a> BoardFiles for SystemFiles<'a> {
    type Held = SystemDisk<'a>;

    type Kept = KeptFile;

    ghost disk_at = { λ files path. None };

    ghost left_at = { λ files path c. ⊤ };

    fn hold(
        &self,
        path: &str,
        is_new: bool,
        is_synced: bool,
        block: BlockSize,
    ) -> Result<SystemDisk<'a>, FileFault> {
        let file = hold(self.0, path, is_new, is_synced)?;
        let formed = if is_new {
            FormedFile { file, block }
        } else {
            FormedFile::found(file)?
        };
        Ok(SystemDisk { formed })
    }

    fn keep(
        &self,
        held: SystemDisk<'a>,
        sectors: &[Sector],
        is_new: bool,
    ) -> Result<KeptFile, FileFault> {
        let (rt, block) = (self.0, held.formed.block);
        let file = kept_file(held.formed, sectors.len(), is_new)?.held.file;
        match SectorsInBlocks::new(rt.alloc(), FileBlocks { file, block }) {
            Ok(sectors) => Ok(KeptFile { sectors }),
            Err(_) => Err(FileFault::refused(Refusal::Memory)),
        }
    }
}

impl<'a> DiskFiles for SystemFiles<'a> {
    type Opened = SystemDisk<'a>;

    ghost disk_at = { λ files path. None };

    /// What is no regular file, as a folder, a device or a pipe, is a fault.
    fn open(&self, path: &str) -> Result<SystemDisk<'a>, FileFault> {
        let rt = self.0;
        let mut how = OpenOptions::new();
        how.read(true);
        let file = match open_regular(rt, &how, path) {
            Ok(file) => file,
            Err(e) => return Err(unreached(rt.alloc(), path, e)),
        };
        match path.to_string(rt.alloc()) {
            Ok(path) => {
                let file = SystemFile { rt, path, file };
                let formed = FormedFile::found(SystemFolder::new(file, String::new(rt.alloc())))?;
                Ok(SystemDisk { formed })
            }
            Err(_) => Err(FileFault::refused(Refusal::Memory)),
        }
    }
}
