//! The disk that a file holds, for a session and for an examiner.

ghost use Rattle.std.specs.Prelude.{◌≡◌, ◌≢◌, ◌⊎◌, ◌≤◌, ◌*◌, ℕ, ◌%◌, ◌/◌, IfOk, IfErr, IfSome, MatchResult, length, take};
ghost use Rattle.disk.specs.FaultState.{no_fault};
ghost use Rattle.disk.specs.Facts.{IsFresh};
ghost use Rattle.board_model.specs.Shapes.{Size, sectors_of};
ghost use Rattle.layout.specs.Superblocks.{HasMagic, IsSuperblock};
ghost use Rattle.command_line.specs.declared.fault.ProgramFault.TheVariants.{Refused};
ghost use Rattle.board_files.specs.Disks.{IsDiskFile, IsLookedAt, IsNoDisk, first_sectors};
ghost use Rattle.board_files.specs.Faults.{IsFileFault};

use crate::block_size::BlockSize;
use crate::files::DiskFile;
use board_model::{Refusal, SECTOR_BYTES, Shape};
use command_line::FileFault;
use disk::{Disk, Sector};
use layout::parse_superblock;
use simdisk::SimDisk;
use std::alloc::Global;

/// The sectors of the largest board's disk.
const MOST_SECTORS: usize = 18_440;

/// The first sector of a file.
fn first_sector<F: DiskFile>(file: &F) -> Result<Sector, FileFault>
    ensures first { IfOk result (λ first. IfSome (F.bytes file.now) (λ all. first ≡ take 512 all)) }
    ensures failed { IfErr result (λ e. IsFileFault e.fault) }
{
    let mut first: Sector = [0; 512];
    file.read(&mut first)?;
    Ok(first)
}

/// How many bytes the file has, and its first sector. A file without one has zeros there.
#[tactic(auto, using(crate::proofs::FileSectors::long_begin, crate::proofs::FileSectors::short_begin))]
fn read_begin<F: DiskFile>(file: &F) -> Result<(u64, Sector), FileFault>
    ensures begin { IfOk result (λ begin. IfSome (F.bytes file.now)
        (λ all. (begin.0 ≡ length all) × (512 ≤ length all → begin.1 ≡ take 512 all))) }
    ensures failed { IfErr result (λ e. IsFileFault e.fault) }
{
    let bytes = file.length()?;
    if bytes < 512 {
        return Ok((bytes, [0; 512]));
    }
    let first = first_sector(file)?;
    Ok((bytes, first))
}

/// The shape of the board whose disk a file holds, by the file's length and its first sector. Refused `BadShape` where the
/// file is empty or not whole sectors; otherwise as `parse_superblock` refuses.
fn shape_of(bytes: u64, first: &Sector) -> Result<Shape, Refusal>
    ensures whole { IfOk result (λ shape. (bytes % 512 ≡ 0) × IsSuperblock shape first.now
        × (sectors_of shape ≤ bytes / 512)) }
    ensures exact { (size : Size) → IsSuperblock size first.now → bytes % 512 ≡ 0 → sectors_of size ≤ bytes / 512
        → result ≡ Ok size }
    ensures refused { IfErr result (λ e. ((e ≡ Refusal.BadShape) × ((bytes % 512 ≢ 0) ⊎ (bytes ≡ 0)))
        ⊎ ((bytes % 512 ≡ 0) × (512 ≤ bytes) × (((e ≡ Refusal.NotFormatted) × (HasMagic first.now → ⊥))
        ⊎ ((e ≡ Refusal.BadShape) × HasMagic first.now)))) }
{
    if bytes == 0 || bytes % 512 != 0 {
        return Err(Refusal::BadShape);
    }
    parse_superblock(first, (bytes / 512) as usize)
}

/// The cause of a refusal `BadShape` of a file of so many bytes that begins with this sector.
fn cause_of(bytes: u64, first: &Sector) -> &'static str {
    if bytes < 512 || bytes % 512 != 0 {
        return "the disk's file is empty, or not whole sectors of 512 bytes";
    }
    if BlockSize::told_by(first).bytes != 512 {
        return "the disk's file is not whole blocks, of as many bytes as its superblock says";
    }
    if parse_superblock(first, MOST_SECTORS).is_ok() {
        "the disk's file is too short for the board in its superblock"
    } else {
        "the superblock in the disk's file is no board's"
    }
}

/// The refusal of the disk that a file holds. `BadShape` has its cause: the file's length, or the superblock.
pub fn refused_disk<F: DiskFile>(file: &F, refusal: Refusal) -> FileFault
    ensures { result.fault ≡ Refused refusal }
{
    let fault = FileFault::refused(refusal);
    if refusal != Refusal::BadShape {
        return fault;
    }
    let Ok(begin) = read_begin(file) else {
        return fault;
    };
    let (bytes, first) = begin;
    fault.caused_by(cause_of(bytes, &first))
}

/// The shape of the board whose disk the file holds. Only the first sector is read. Refused where the file is no board's.
#[tactic(auto, using(crate::proofs::FileSectors::is_board, crate::proofs::FileSectors::exact_ok, crate::proofs::FileSectors::exact_err, crate::proofs::FileSectors::is_no_disk))]
pub fn shape_in<F: DiskFile>(file: &F) -> Result<Shape, FileFault>
    ensures board { IfOk result (λ shape. IfSome (F.bytes file.now) (IsDiskFile shape)) }
    ensures exact { IfSome (F.bytes file.now) (λ all. (size : Size) → IsDiskFile size all
        → MatchResult result (λ shape. shape ≡ size) (λ e. IsFileFault e.fault)) }
    ensures refused { IfErr result (λ e. IsFileFault e.fault ⊎ IsNoDisk (F.bytes file.now) e.fault) }
{
    let (bytes, first) = read_begin(file)?;
    match shape_of(bytes, &first) {
        Ok(shape) => Ok(shape),
        Err(e) => Err(refused_disk(file, e)),
    }
}

/// A disk of the first sectors of the file, with no fault armed.
#[tactic(auto, using(crate::proofs::FileSectors::is_fresh))]
fn sectors_in<F: DiskFile>(alloc: Global, file: &F, sectors: usize) -> Result<SimDisk, FileFault>
    requires { sectors ≤ 18440 }
    ensures none_out { IfOk result (λ d. (⟦<SimDisk as Disk>⟧.facts d).lent.lanes ≡ 0) }
    ensures unarmed { IfOk result (λ d. ⟦<SimDisk as Disk>⟧.fault_state d ≡ no_fault) }
    ensures disk { IfOk result (λ d. IfSome (F.bytes file.now)
        (λ all. IsFresh (first_sectors sectors all) (⟦<SimDisk as Disk>⟧.facts d))) }
    ensures failed { IfErr result (λ e. IsFileFault e.fault) }
{
    let Ok(mut bytes) = vec![in alloc; 0; sectors * SECTOR_BYTES] else {
        return Err(FileFault::refused(Refusal::Memory));
    };
    file.read(&mut bytes)?;
    match SimDisk::new(alloc, &bytes) {
        Ok(disk) => Ok(disk),
        Err(e) => Err(FileFault::refused(e)),
    }
}

/// The disk of a board of that shape, from its file. No fault of it is armed. The bytes after its sectors are no part of it,
/// and are not read.
pub fn disk_in<F: DiskFile>(alloc: Global, file: &F, shape: &Shape) -> Result<SimDisk, FileFault>
    ensures none_out { IfOk result (λ d. (⟦<SimDisk as Disk>⟧.facts d).lent.lanes ≡ 0) }
    ensures unarmed { IfOk result (λ d. ⟦<SimDisk as Disk>⟧.fault_state d ≡ no_fault) }
    ensures disk { IfOk result (λ d. IfSome (F.bytes file.now)
        (λ all. IsFresh (first_sectors (sectors_of shape.now) all) (⟦<SimDisk as Disk>⟧.facts d))) }
    ensures failed { IfErr result (λ e. IsFileFault e.fault) }
{
    sectors_in(alloc, file, shape.sectors())
}

/// How many sectors of a file an examiner looks at: those of the board whose superblock stands first. Of a file that begins
/// with no superblock it is the first sector alone. Refused `BadShape` where the file is not whole sectors.
#[tactic(auto, using(crate::proofs::FileSectors::looks_at_none, crate::proofs::FileSectors::looks_at_board, crate::proofs::FileSectors::looks_at_first, crate::proofs::FileSectors::is_broken))]
fn sectors_to_examine<F: DiskFile>(file: &F) -> Result<usize, FileFault>
    ensures few { IfOk result (λ n. n ≤ 18440) }
    ensures looked { IfOk result (λ n. IfSome (F.bytes file.now) (IsLookedAt n)) }
    ensures refused { IfErr result (λ e. IsFileFault e.fault ⊎ ((e.fault ≡ Refused Refusal.BadShape)
        × IfSome (F.bytes file.now) (λ all. length all % 512 ≢ 0))) }
{
    let bytes = file.length()?;
    if bytes % 512 != 0 {
        return Err(refused_disk(file, Refusal::BadShape));
    }
    if bytes == 0 {
        return Ok(0);
    }
    let first = first_sector(file)?;
    match parse_superblock(&first, (bytes / 512) as usize) {
        Ok(shape) => Ok(shape.sectors()),
        Err(_) => Ok(1),
    }
}

/// The disk of a file, as far as an examiner looks at it. No fault of it is armed. The bytes after the board's sectors are not
/// read. Of a file that is no board's, only the first sector is read.
#[tactic(auto, using(crate::proofs::FileSectors::is_seen))]
pub fn seen_in<F: DiskFile>(alloc: Global, file: &F) -> Result<SimDisk, FileFault>
    ensures none_out { IfOk result (λ d. (⟦<SimDisk as Disk>⟧.facts d).lent.lanes ≡ 0) }
    ensures unarmed { IfOk result (λ d. ⟦<SimDisk as Disk>⟧.fault_state d ≡ no_fault) }
    ensures disk { IfOk result (λ d. IfSome (F.bytes file.now) (λ all. (n : ℕ) × IsLookedAt n all
        × IsFresh (first_sectors n all) (⟦<SimDisk as Disk>⟧.facts d))) }
    ensures refused { IfErr result (λ e. IsFileFault e.fault ⊎ ((e.fault ≡ Refused Refusal.BadShape)
        × IfSome (F.bytes file.now) (λ all. length all % 512 ≢ 0))) }
{
    let sectors = sectors_to_examine(file)?;
    sectors_in(alloc, file, sectors)
}
