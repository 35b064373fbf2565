//! The disk that a session begins with.

ghost use Rattle.std.specs.Prelude.{◌≡◌, false, string_bytes, IfOk, IfErr, IfSome};
ghost use Rattle.board_files.specs.Folders.{NoMore};
ghost use Rattle.board_session.specs.Operated.{Begins, IsUnread};

use crate::Options;
use crate::notices::{tell_block, tell_shape};
use board_files::{BoardFiles, DiskFile, disk_in, shape_in};
use board_model::Refusal;
use command_line::FileFault;
use disk::Disk;
use simdisk::SimDisk;
use std::alloc::Global;
use std::io::{IsTerminal, Write};

/// The disk that a file holds. Where the first sector is no superblock of a board, or the file is too small for that board,
/// no more than this sector is read.
#[tactic(auto, using(crate::proofs::DiskBegun::begins_with, crate::proofs::DiskBegun::unread_file))]
fn read_disk<H: DiskFile, F: Write + IsTerminal>(
    alloc: Global,
    options: &Options,
    held: &H,
    faults: &mut F,
) -> Result<SimDisk, FileFault>
    ensures none_out { IfOk result (λ d. (⟦<SimDisk as Disk>⟧.facts d).lent.lanes ≡ 0) }
    ensures begins { IfOk result (λ d. Begins false options.now.shape (H.bytes held.now) (⟦<SimDisk as Disk>⟧.facts d)) }
    ensures failed { IfErr result (λ e. IsUnread false (H.bytes held.now) e.fault) }
{
    let shape = shape_in(held)?;
    tell_shape(faults, options, &shape);
    tell_block(faults, options, held.block_size());
    disk_in(alloc, held, &shape)
}

/// The disk that a session begins with: with `--new` a blank one of the shape, else the file's.
#[tactic(auto, using(crate::proofs::DiskBegun::begins_by, crate::proofs::DiskBegun::unread_by, crate::proofs::DiskBegun::unread_file))]
pub fn disk_of<H: DiskFile, F: Write + IsTerminal>(
    alloc: Global,
    options: &Options,
    held: &H,
    faults: &mut F,
) -> Result<SimDisk, FileFault>
    ensures none_out { IfOk result (λ d. (⟦<SimDisk as Disk>⟧.facts d).lent.lanes ≡ 0) }
    ensures begins { IfOk result (λ d. Begins options.now.new options.now.shape (H.bytes held.now)
        (⟦<SimDisk as Disk>⟧.facts d)) }
    ensures failed { IfErr result (λ e. IsUnread options.now.new (H.bytes held.now) e.fault) }
{
    if !options.new {
        return read_disk(alloc, options, held, faults);
    }
    match SimDisk::blank(alloc, options.shape.sectors()) {
        Ok(disk) => Ok(disk),
        Err(_) => Err(FileFault::refused(Refusal::Memory)),
    }
}

/// The file that a session has taken, and the disk that it begins with.
#[derive(Drop)]
pub struct TakenDisk<H: Drop> {
    pub held: H,
    pub disk: SimDisk,
}

/// Takes the disk's file for this session, and reads the disk or makes a blank one.
#[tactic(auto, using(crate::proofs::DiskBegun::left_by, crate::proofs::DiskBegun::begins_by, crate::proofs::DiskBegun::unread_by, crate::proofs::DiskBegun::unread_file))]
pub fn take_disk<B: BoardFiles, F: Write + IsTerminal>(
    alloc: Global,
    files: &B,
    options: &Options,
    faults: &mut F,
) -> Result<TakenDisk<B::Held>, FileFault>
    ensures none_out { IfOk result (λ b. (⟦<SimDisk as Disk>⟧.facts b.disk).lent.lanes ≡ 0) }
    ensures held { IfOk result (λ b. B.Held.bytes b.held ≡ B.disk_at files.now (string_bytes options.now.disk)) }
    ensures left { IfOk result (λ b. IfSome (B.disk_at files.now (string_bytes options.now.disk))
        (λ all. NoMore (B.left_at files.now (string_bytes options.now.disk)) (B.Held.left b.held).ever)) }
    ensures begins { IfOk result (λ b. Begins options.now.new options.now.shape
        (B.disk_at files.now (string_bytes options.now.disk)) (⟦<SimDisk as Disk>⟧.facts b.disk)) }
    ensures failed { IfErr result (λ e. IsUnread options.now.new
        (B.disk_at files.now (string_bytes options.now.disk)) e.fault) }
{
    let held = files.hold(&options.disk, options.new, options.sync, options.block)?;
    let disk = disk_of(alloc, options, &held, faults)?;
    Ok(TakenDisk { held, disk })
}
