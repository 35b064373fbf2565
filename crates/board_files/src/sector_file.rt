//! A file of sectors.

use disk::Sector;
use std::fs::File;
use std::io;
use std::os::unix::fs::FileExt;

/// A file that holds a disk's sectors, one after the other.
///
/// What is known of it is said as of a disk: what a read gives, and what a crash leaves. Of a file of the system
/// nothing is known; whoever knows more of his own says so here, and then what a [`FileDisk`](crate::FileDisk)
/// promises of its file is proved of that one.
pub trait SectorFile {
    ghost use Rattle.std.specs.Prelude.{ℕ, ◌≤◌};
    ghost use Rattle.disk.specs.Facts.{Content};
    ghost use Rattle.board_files.specs.Files.{FileKnown, IfKnown, Goes, WritesSector, SyncsFile};

    /// What a read gives and what a crash leaves, where that is known.
    ghost file_facts: { Self → FileKnown };

    /// Writes the sector of that number, in place. At `Err` it may hold any bytes.
    fn write_sector(&mut self, number: usize, sector: &Sector) -> io::Result<()>
        ensures { Goes (file_facts self.old) (file_facts self.new) (WritesSector number sector.now result) };

    /// Makes durable what was written. At `Err` what was written since the last sync that answered `Ok` may be
    /// lost, also to a read.
    fn sync(&mut self) -> io::Result<()>
        ensures { Goes (file_facts self.old) (file_facts self.new) (SyncsFile result) };

    /// A process that is killed leaves what a read gives.
    ghost may_keep: { (file : Self) → IfKnown (file_facts file) (λ f. f.may_leave f.holds) };

    /// This moment is one of those since each earlier one.
    ghost counts_now: { (file : Self) → IfKnown (file_facts file) (λ f. (t : ℕ) (c : Content) → t ≤ f.syncs → f.may_leave c
        → f.since t c) };

    /// What a crash might have left since a moment, it might have left since an earlier one.
    ghost earlier: { (file : Self) → IfKnown (file_facts file) (λ f. (t u : ℕ) (c : Content) → t ≤ u → f.since u c
        → f.since t c) };
}

impl SectorFile for File {
    ghost use Rattle.board_files.specs.Files.{Unknown};

    ghost file_facts = { λ _. Unknown };

    fn write_sector(&mut self, number: usize, sector: &Sector) -> io::Result<()> {
        self.write_all_at(sector, (number as u64).saturating_mul(512))
    }

    fn sync(&mut self) -> io::Result<()> {
        self.sync_data()
    }

    ghost may_keep = { λ _. tt };

    ghost counts_now = { λ _. tt };

    ghost earlier = { λ _. tt };
}
