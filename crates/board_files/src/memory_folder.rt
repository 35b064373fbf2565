//! A folder in memory.

ghost use Rattle.std.specs.Prelude.{◌≡◌, ◌⊎◌, true, Some, IfOk, OnErr, OnOk};

use crate::files::unreached;
use crate::folder::Folder;
use crate::formed_file::ByteFile;
use command_line::FileFault;
use std::alloc::{AllocError, Global};
use std::io::{self, ErrorKind};
use std::mem;

/// The bytes of a file.
#[derive(Drop)]
struct CachedBytes {
    /// As a read gives them.
    bytes: Vec<u8>,
    /// As they stood at the last sync.
    stood: Vec<u8>,
}

impl CachedBytes {
    /// A durable file of these bytes.
    fn of(alloc: Global, bytes: &[u8]) -> Result<CachedBytes, AllocError>
        ensures now { IfOk result (λ file. file.bytes.items ≡ bytes.now) }
        ensures stood { IfOk result (λ file. file.stood.items ≡ bytes.now) }
    {
        Ok(CachedBytes {
            bytes: Vec::from_slice(alloc, bytes)?,
            stood: Vec::from_slice(alloc, bytes)?,
        })
    }

    /// Makes it durable. Where memory is refused it stays as it is.
    fn sync(&mut self) -> Result<(), AllocError>
        ensures now { self.new.bytes ≡ self.old.bytes }
        ensures stood { OnOk result (self.new.stood.items ≡ self.old.bytes.items) }
        ensures kept { OnErr result (self.new.stood ≡ self.old.stood) }
    {
        self.stood = self.bytes.clone()?;
        Ok(())
    }

    /// Whether it is one of these two, and is so after a crash too.
    fn is_either(&self, one: &[u8], other: &[u8]) -> bool
        ensures now { result ≡ true → (self.now.bytes.items ≡ one.now) ⊎ (self.now.bytes.items ≡ other.now) }
        ensures stood { result ≡ true → (self.now.stood.items ≡ one.now) ⊎ (self.now.stood.items ≡ other.now) }
    {
        let is_now = &self.bytes[..] == one || &self.bytes[..] == other;
        let is_then = &self.stood[..] == one || &self.stood[..] == other;
        is_now && is_then
    }
}

/// Counts a call; an error where the power has failed.
fn called(left: &mut u64) -> io::Result<()> {
    if *left == 0 {
        return Err(io::Error::from(ErrorKind::StorageFull));
    }
    *left -= 1;
    Ok(())
}

/// The disk's file and the one beside it in memory, for trials. A crash loses what was not made durable, or leaves it. The power
/// fails at the call that it was told, and each call from then on answers an error. What a crash has left at earlier moments is not
/// known.
#[derive(Drop)]
pub struct MemoryFolder {
    alloc: Global,
    /// The disk's file.
    file: CachedBytes,
    beside: CachedBytes,
    /// Whether the file beside was renamed since the folder was last made durable.
    is_renamed: bool,
    /// The file that it then replaced.
    prior: CachedBytes,
    /// The calls until the power fails.
    left: u64,
}

impl MemoryFolder {
    ghost use Rattle.board_files.specs.Folders.{OneOfTwo};

    /// A folder with a disk's file of these bytes, all of it durable. After so many calls the power fails.
    pub fn of(alloc: Global, bytes: &[u8], left: u64) -> Result<MemoryFolder, AllocError>
        ensures { IfOk result (λ folder. ⟦<MemoryFolder as ByteFile>⟧.held folder ≡ Some bytes.now) }
    {
        Ok(MemoryFolder {
            alloc,
            file: CachedBytes::of(alloc, bytes)?,
            beside: CachedBytes::of(alloc, &[])?,
            is_renamed: false,
            prior: CachedBytes::of(alloc, &[])?,
            left,
        })
    }

    /// Whether a crash now leaves one of these two at the disk's path, and nothing else.
    #[tactic(auto, using(crate::proofs::InFolders::leaves_one))]
    pub fn leaves_either(&self, one: &[u8], other: &[u8]) -> bool
        ensures { result ≡ true → OneOfTwo one.now other.now (⟦<MemoryFolder as Folder>⟧.folder_facts self.now).at_path }
    {
        if self.is_renamed && !self.prior.is_either(one, other) {
            return false;
        }
        self.file.is_either(one, other)
    }
}

impl ByteFile for MemoryFolder {
    ghost held = { λ folder. Some folder.file.bytes.items };

    fn byte_count(&self) -> Result<u64, FileFault> {
        Ok(self.file.bytes.len() as u64)
    }

    fn read_at(&self, at: u64, into: &mut [u8]) -> Result<(), FileFault> {
        let (room, count) = (self.file.bytes.len(), into.len());
        if room < count || ((room - count) as u64) < at {
            return Err(self.fault(io::Error::from(ErrorKind::UnexpectedEof)));
        }
        let at = at as usize;
        into.copy_from_slice(&self.file.bytes[at..at + count]);
        Ok(())
    }
}

impl Folder for MemoryFolder {
    ghost use Rattle.board_files.specs.Folders.{cached_facts};
    ghost use Rattle.std.proofs.Common.{arith, inl, refl};

    ghost folder_facts = { λ folder. cached_facts folder.file.bytes.items folder.file.stood.items folder.beside.bytes.items
        folder.beside.stood.items folder.is_renamed folder.prior.bytes.items folder.prior.stood.items };

    fn alloc(&self) -> Global {
        self.alloc
    }

    #[tactic(auto, using(crate::proofs::InFolders::beside_made, crate::proofs::InFolders::beside_not_made))]
    fn create(&mut self, _is_locked: bool) -> io::Result<()> {
        called(&mut self.left)?;
        self.beside = CachedBytes::of(self.alloc, &[])?;
        Ok(())
    }

    #[tactic(auto, using(crate::proofs::InFolders::beside_made, crate::proofs::InFolders::beside_not_made))]
    fn append(&mut self, bytes: &[u8]) -> io::Result<()> {
        called(&mut self.left)?;
        self.beside.bytes.extend_from_slice(bytes)?;
        Ok(())
    }

    #[tactic(auto, using(crate::proofs::InFolders::beside_made, crate::proofs::InFolders::beside_not_made))]
    fn append_rest(&mut self, at: u64) -> io::Result<()> {
        called(&mut self.left)?;
        let at = (at as usize).min(self.file.bytes.len());
        self.beside.bytes.extend_from_slice(&self.file.bytes[at..])?;
        Ok(())
    }

    #[tactic(auto, using(crate::proofs::InFolders::beside_made, crate::proofs::InFolders::beside_not_made))]
    fn fill(&mut self, first: &[u8], count: u64) -> io::Result<()> {
        called(&mut self.left)?;
        self.beside.bytes = Vec::from_slice(self.alloc, first)?;
        if first.len() < count as usize {
            self.beside.bytes.resize(count as usize, 0)?;
        }
        Ok(())
    }

    #[tactic(auto, using(crate::proofs::InFolders::beside_synced, crate::proofs::InFolders::beside_not_synced))]
    fn sync_beside(&mut self) -> io::Result<()> {
        called(&mut self.left)?;
        self.beside.sync()?;
        Ok(())
    }

    #[tactic(auto, using(crate::proofs::InFolders::stays_cached))]
    fn remove(&mut self) {
        if let (Ok(()), Ok(none)) = (called(&mut self.left), CachedBytes::of(self.alloc, &[])) {
            self.beside = none;
        }
    }

    /// A second rename before the folder is durable is an error.
    #[tactic(auto, using(crate::proofs::InFolders::beside_renamed, crate::proofs::InFolders::beside_not_renamed))]
    fn rename(&mut self) -> io::Result<()> {
        called(&mut self.left)?;
        if self.is_renamed {
            return Err(io::Error::from(ErrorKind::ResourceBusy));
        }
        let none = CachedBytes::of(self.alloc, &[])?;
        let beside = mem::replace(&mut self.beside, none);
        self.prior = mem::replace(&mut self.file, beside);
        self.is_renamed = true;
        Ok(())
    }

    #[tactic(auto, using(crate::proofs::InFolders::path_synced, crate::proofs::InFolders::path_not_synced))]
    fn sync_folder(&mut self) -> io::Result<()> {
        called(&mut self.left)?;
        self.is_renamed = false;
        Ok(())
    }

    #[tactic(auto, using(crate::proofs::InFolders::file_synced, crate::proofs::InFolders::file_not_synced))]
    fn sync_held(&mut self) -> io::Result<()> {
        called(&mut self.left)?;
        self.file.sync()?;
        Ok(())
    }

    fn fault(&self, why: io::Error) -> FileFault {
        unreached(self.alloc, "D", why)
    }

    fn fault_beside(&self, why: io::Error) -> FileFault {
        unreached(self.alloc, "D.new", why)
    }

    ghost may_keep = { λ folder. inl refl };

    ghost counts_now = { λ folder. (λ c is. inl is, λ c is. tt) };

    ghost bounded = { λ folder. Prim.omega (arith, folder.file.bytes.ok.0, folder.file.bytes.small) };
}
