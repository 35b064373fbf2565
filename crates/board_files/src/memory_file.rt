//! A file in memory.
ghost use Rattle.std.specs.Prelude.{◌≡◌, IfOk, length};
ghost use Rattle.board_files.specs.Files.{IfKnown, IsDurable};

use crate::past::Past;
use crate::sector_file::SectorFile;
use disk::Sector;
use std::alloc::{AllocError, Global};
use std::io::{self, ErrorKind};

/// What becomes of a file's call and of those after it.
#[derive(Clone, Copy, Drop)]
pub enum FileFate {
    /// That call fails, and the later ones don't.
    Fails,
    /// That call fails, the later ones don't; and if it is a sync, what was written since the last one is lost, as Linux loses it.
    Loses,
    /// The process is killed at that call. What the file held then is kept apart.
    Killed,
}

/// A file in memory, for trials: it keeps its word, and fails, loses or keeps apart what it is told to.
#[derive(Drop)]
pub struct MemoryFile {
    /// As a read gives them now.
    sectors: Vec<Sector>,
    /// As they stood at the last sync.
    stood: Vec<Sector>,
    past: Past,
    /// What a process that was killed has left.
    left_behind: Option<Vec<Sector>>,
    /// The calls until the fate comes.
    left: u64,
    fate: FileFate,
    ghost as_long: { length stood.items ≡ length sectors.items },
}

impl MemoryFile {
    /// A file of these sectors, all of them durable, to which that happens after so many calls.
    pub fn of(
        alloc: Global,
        sectors: &[Sector],
        left: u64,
        fate: FileFate,
    ) -> Result<MemoryFile, AllocError>
        ensures { IfOk result (λ file. IfKnown (⟦<MemoryFile as SectorFile>⟧.file_facts file) (IsDurable sectors.now)) }
    {
        Ok(MemoryFile {
            sectors: Vec::from_slice(alloc, sectors)?,
            stood: Vec::from_slice(alloc, sectors)?,
            past: Past::begun(),
            left_behind: None,
            left,
            fate,
        })
    }

    /// The sectors that the next process finds.
    pub fn found(self) -> Vec<Sector> {
        self.left_behind.unwrap_or(self.sectors)
    }

    /// Counts a call; an error where it fails.
    fn called(&mut self) -> io::Result<()>
        ensures sectors { self.new.sectors ≡ self.old.sectors }
        ensures stood { self.new.stood ≡ self.old.stood }
        ensures past { self.new.past ≡ self.old.past }
    {
        if self.left > 0 {
            self.left -= 1;
            return Ok(());
        }
        self.left = u64::MAX;
        if self.fate == FileFate::Killed {
            self.left_behind = Some(self.sectors.clone()?);
            return Ok(());
        }
        Err(io::Error::from(ErrorKind::StorageFull))
    }
}

impl SectorFile for MemoryFile {
    ghost use Rattle.board_files.specs.Files.{Known};
    ghost use Rattle.board_files.specs.Kept.{earlier, kept_facts};
    ghost use Rattle.std.proofs.Common.{inl, refl};

    ghost file_facts = { λ k. Known (kept_facts k.sectors.items k.stood.items k.past.kept.log) };

    fn write_sector(&mut self, number: usize, sector: &Sector) -> io::Result<()> {
        self.called()?;
        if number >= self.sectors.len() {
            return Err(io::Error::from(ErrorKind::InvalidInput));
        }
        self.past.note(&self.sectors);
        self.sectors[number] = *sector;
        Ok(())
    }

    fn sync(&mut self) -> io::Result<()> {
        let Err(e) = self.called() else {
            self.past.note(&self.stood);
            self.past.sync();
            self.stood.copy_from_slice(&self.sectors);
            return Ok(());
        };
        if self.fate == FileFate::Loses {
            self.past.note(&self.sectors);
            self.sectors.copy_from_slice(&self.stood);
        }
        Err(e)
    }

    ghost may_keep = { λ k. inl refl };

    ghost counts_now = { λ k t c le left. inl left };

    ghost earlier = { λ k. earlier k.sectors.items k.stood.items k.past.kept.log };
}
