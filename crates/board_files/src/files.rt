//! What a program asks of the file of a disk, as traits: the system's files and files in memory meet them.

ghost use Rattle.board_files.specs.Faults.{IsFileFault};

use crate::block_size::BlockSize;
use crate::sector_file::SectorFile;
use command_line::FileFault;
use disk::Sector;
use std::alloc::Global;
use std::io;

/// The file of a disk, open for reading, as a disk's sectors one after the other, in whatever form it holds them.
pub trait DiskFile {
    ghost use Rattle.std.specs.Prelude.{◌≡◌, ◌%◌, ℕ, List, Option, IfOk, IfErr, IfSome, OnOk, length, take};
    ghost use Rattle.board_files.specs.Faults.{IsFileFault};

    /// The bytes of its sectors, where they are known.
    ghost bytes: { Self → Option (List ℕ) };

    /// How many bytes the block of each sector has; 512 where the sectors lie one after the other, as in each file whose bytes are
    /// known.
    ghost block: { Self → ℕ };

    /// How many bytes the block of each sector has.
    fn block_size(&self) -> BlockSize
        ensures told { result.bytes ≡ block self.now }
        ensures known { IfSome (bytes self.now) (λ all. result.bytes ≡ 512) };

    /// How many bytes its sectors have.
    fn length(&self) -> Result<u64, FileFault>
        ensures counted { IfOk result (λ n. IfSome (bytes self.now) (λ all. n ≡ length all)) }
        ensures failed { IfErr result (λ e. IsFileFault e.fault) };

    /// Reads its first bytes, as many whole sectors as the buffer takes. That it has fewer is a fault. After a fault the buffer
    /// holds any bytes.
    fn read(&self, into: &mut [u8]) -> Result<(), FileFault>
        requires { length into.old % 512 ≡ 0 }
        ensures read { OnOk result (IfSome (bytes self.now) (λ all. into.new ≡ take (length into.old) all)) }
        ensures failed { IfErr result (λ e. IsFileFault e.fault) };
}

/// The file of a disk that a session has taken. No other session can take it meanwhile.
pub trait HeldFile: DiskFile {
    ghost use Rattle.std.specs.Prelude.{◌≡◌, IfErr, IfSome, OnErr, OnOk};
    ghost use Rattle.board_files.specs.Disks.{HoldsDisk, KeepsOrHolds};
    ghost use Rattle.board_files.specs.Faults.{IsFileFault};
    ghost use Rattle.board_files.specs.Folders.{LeftAt, NoMore, PutsDisk};

    /// What a crash leaves at its path, where its bytes are known.
    ghost left: { Self → LeftAt };

    /// Writes the disk of these sectors into the file. Of a new disk the file then holds the sectors and nothing else. Of a
    /// disk that came from the file, the bytes after its sectors stay. After a fault the file is as it was, or as it was to
    /// become. A crash leaves it whole, at each moment.
    fn write(&mut self, sectors: &[Sector], is_new: bool) -> Result<(), FileFault>
        ensures written { OnOk result (IfSome (Self.bytes self.new)
            (HoldsDisk is_new sectors.now (Self.bytes self.old))) }
        ensures kept { OnErr result (IfSome (Self.bytes self.new)
            (KeepsOrHolds is_new sectors.now (Self.bytes self.old))) }
        ensures crash { IfSome (Self.bytes self.old) (λ all. PutsDisk is_new sectors.now all result (Self.bytes self.new)
            (left self.old) (left self.new)) }
        ensures formed { Self.block self.new ≡ Self.block self.old }
        ensures failed { IfErr result (λ e. IsFileFault e.fault) };

    /// This moment is one of all.
    ghost counts_now: { (file : Self) → IfSome (Self.bytes file) (λ all. NoMore (left file).ever (left file).now) };
}

/// Where the files of disks are.
pub trait BoardFiles {
    ghost use Rattle.std.specs.Prelude.{◌≡◌, ℕ, List, Option, IfOk, IfErr, IfSome, true};
    ghost use Rattle.board_files.specs.Folders.{NoMore};
    ghost use Rattle.board_files.specs.Files.{IfKnown, IsDurable};
    ghost use Rattle.board_files.specs.Faults.{IsFileFault};

    /// The file that a session has.
    type Held: HeldFile + Drop;

    /// The file of a session that keeps its disk in it all along.
    type Kept: SectorFile + Drop + Send;

    /// The bytes of the file at a path, where they are known. None are where there is no file.
    ghost disk_at: { Self → List ℕ → Option (List ℕ) };

    /// What a crash may leave at a path, where those are known.
    ghost left_at: { Self → List ℕ → List ℕ → Type 0 };

    /// Takes the file at that path for a session. Its disk is a new one or the file's. It is kept in the file all along, or
    /// written at the end. For a new disk the file is made if there is none, and its sectors lie in blocks of that size.
    fn hold(
        &self,
        path: &str,
        is_new: bool,
        is_synced: bool,
        block: BlockSize,
    ) -> Result<Self::Held, FileFault>
        ensures held { IfOk result (λ held. Self.Held.bytes held ≡ disk_at self.now path.now) }
        ensures left { IfOk result (λ held. IfSome (disk_at self.now path.now)
            (λ all. NoMore (left_at self.now path.now) (Self.Held.left held).ever)) }
        ensures formed { is_new ≡ true → IfOk result (λ held. Self.Held.block held ≡ block.bytes) }
        ensures failed { IfErr result (λ e. IsFileFault e.fault) };

    /// The file as one that holds these sectors, all of them durable. Of a new disk they are zeros, and they replace what the
    /// file held. Of another disk they are those that were read from the file.
    fn keep(
        &self,
        held: Self::Held,
        sectors: &[Sector],
        is_new: bool,
    ) -> Result<Self::Kept, FileFault>
        ensures kept { IfOk result (λ kept. IfKnown (Self.Kept.file_facts kept) (IsDurable sectors.now)) }
        ensures failed { IfErr result (λ e. IsFileFault e.fault) };
}

/// The fault of the file at that path, which could not be read or written for that reason.
#[tactic(auto, using(crate::proofs::FaultKinds::file_fault))]
pub fn unreached(alloc: Global, path: &str, why: io::Error) -> FileFault
    ensures { IsFileFault result.fault }
{
    FileFault::new(alloc, path, why)
}

/// Where the files of disks are, for a program that only reads them.
pub trait DiskFiles {
    ghost use Rattle.std.specs.Prelude.{◌≡◌, ℕ, List, Option, IfOk, IfErr};
    ghost use Rattle.board_files.specs.Faults.{IsFileFault};

    /// A file that is open.
    type Opened: DiskFile + Drop;

    /// The bytes of the file of a disk at a path, where they are known.
    ghost disk_at: { Self → List ℕ → Option (List ℕ) };

    /// Opens the file at that path.
    fn open(&self, path: &str) -> Result<Self::Opened, FileFault>
        ensures opened { IfOk result (λ file. Self.Opened.bytes file ≡ disk_at self.now path.now) }
        ensures failed { IfErr result (λ e. IsFileFault e.fault) };
}
