//! The disk's file, written beside and renamed.

ghost use Rattle.std.specs.Prelude.{◌≡◌, ◌*◌, ◌-◌, ◌^◌, ◌++◌, [], None, false, true, min, IfErr, IfOk, IfSome, IsOk, OnOk, length, take};
ghost use Rattle.std.specs.List.{concat};
ghost use Rattle.board_files.specs.Faults.{IsFileFault};
ghost use Rattle.board_files.specs.Folders.{IsBlankOf, IsKept, IsReady, MakesBeside, Puts, Replaces, SyncsBeside, blank_disk, blocks_of, with_disk};

use crate::block_size::{BlockSize, lay};
use crate::files::{DiskFile, HeldFile};
use crate::folder::Folder;
use crate::formed_file::{ByteFile, FormedFile};
use command_line::FileFault;
use disk::Sector;
use std::alloc::{AllocError, Global};
use std::io;

/// A block of that size, in which sectors are laid in turn.
fn blank_block(alloc: Global, size: BlockSize) -> Result<Vec<u8>, AllocError>
    ensures { IfOk result (λ block. length block.items ≡ size.bytes) }
{
    vec![in alloc; 0; size.bytes as usize]
}

/// So many sectors, in bytes, each in a block of that size.
fn bytes_of(sectors: usize, size: BlockSize) -> u64
    ensures { result ≡ min (sectors * size.bytes) (2 ^ 64 - 1) }
{
    (sectors as u64).saturating_mul(size.bytes as u64)
}

/// Whether the file begins with just these sectors, each in a block of that size.
#[tactic(auto, using(crate::proofs::InFolders::none_there, crate::proofs::InFolders::all_there))]
fn begins_with<F: Folder>(file: &F, sectors: &[Sector], size: BlockSize) -> Result<bool, FileFault>
    ensures { IfOk result (λ begins. begins ≡ true → IfSome (F.held file.now)
        (λ all. take (size.bytes * length sectors.now) all ≡ concat (blocks_of size.bytes sectors.now))) }
{
    let (Ok(mut block), Ok(mut found)) = (
        blank_block(file.alloc(), size),
        blank_block(file.alloc(), size),
    ) else {
        return Ok(false);
    };
    for number in 0..sectors.len() {
        lay(&mut block, size, number, &sectors[number]);
        file.read_at(bytes_of(number, size), &mut found)?;
        if found != block {
            return Ok(false);
        }
    }
    Ok(true)
}

/// Whether the file holds the disk already, so that nothing is to be written. Of a disk that was there, more bytes may follow its
/// sectors, which are no part of it. Of a new disk none may.
#[tactic(auto, using(crate::proofs::InFolders::is_there))]
fn holds<F: Folder>(
    file: &F,
    sectors: &[Sector],
    size: BlockSize,
    is_new: bool,
) -> Result<bool, FileFault>
    ensures { IfOk result (λ holds. holds ≡ true → IfSome (F.held file.now)
        (λ all. with_disk size.bytes is_new sectors.now all ≡ all)) }
{
    let length = file.byte_count()?;
    let whole = bytes_of(sectors.len(), size);
    if length < whole || is_new && length != whole {
        return Ok(false);
    }
    begins_with(file, sectors, size)
}

/// Writes these sectors at the end of the file beside, each in a block of that size.
#[tactic(auto, using(crate::proofs::InFolders::no_block, crate::proofs::InFolders::none_appended, crate::proofs::InFolders::not_appended, crate::proofs::InFolders::all_appended))]
fn append_sectors<F: Folder>(file: &mut F, sectors: &[Sector], size: BlockSize) -> io::Result<()>
    ensures held { F.held file.new ≡ F.held file.old }
    ensures made { IfSome (F.held file.old) (λ all. MakesBeside
        ((F.folder_facts file.old).beside ++ concat (blocks_of size.bytes sectors.now)) result
        (F.folder_facts file.old) (F.folder_facts file.new)) }
{
    let mut block = blank_block(file.alloc(), size)?;
    for number in 0..sectors.len() {
        lay(&mut block, size, number, &sectors[number]);
        file.append(&block)?;
    }
    Ok(())
}

/// Writes the disk into the file beside.
#[tactic(auto, using(crate::proofs::InFolders::not_written, crate::proofs::InFolders::new_written, crate::proofs::InFolders::old_written))]
fn append_disk<F: Folder>(
    file: &mut F,
    sectors: &[Sector],
    size: BlockSize,
    is_new: bool,
) -> io::Result<()>
    ensures held { F.held file.new ≡ F.held file.old }
    ensures made { IfSome (F.held file.old) (λ all. MakesBeside
        ((F.folder_facts file.old).beside ++ with_disk size.bytes is_new sectors.now all) result
        (F.folder_facts file.old) (F.folder_facts file.new)) }
{
    append_sectors(file, sectors, size)?;
    if is_new {
        Ok(())
    } else {
        file.append_rest(bytes_of(sectors.len(), size))
    }
}

/// Makes the file beside durable, where it was written whole. Else it is removed.
#[tactic(auto, using(crate::proofs::InFolders::unsettled, crate::proofs::InFolders::unsynced))]
fn settle<F: Folder>(file: &mut F, wrote: io::Result<()>) -> io::Result<()>
    ensures held { F.held file.new ≡ F.held file.old }
    ensures whole { OnOk result (IsOk wrote) }
    ensures synced { IfSome (F.held file.old) (λ all. SyncsBeside result (F.folder_facts file.old) (F.folder_facts file.new)) }
{
    if let Err(e) = wrote {
        file.remove();
        return Err(e);
    }
    if let Err(e) = file.sync_beside() {
        file.remove();
        return Err(e);
    }
    Ok(())
}

/// Writes the disk into a file beside, and makes it durable.
#[tactic(auto, using(crate::proofs::InFolders::unready, crate::proofs::InFolders::is_ready))]
fn make_disk<F: Folder>(
    file: &mut F,
    sectors: &[Sector],
    size: BlockSize,
    is_new: bool,
) -> io::Result<()>
    ensures held { F.held file.new ≡ F.held file.old }
    ensures made { IfSome (F.held file.old) (λ all. IsReady (with_disk size.bytes is_new sectors.now all) result
        (F.folder_facts file.old) (F.folder_facts file.new)) }
{
    file.create(false)?;
    let wrote = append_disk(file, sectors, size, is_new);
    settle(file, wrote)
}

/// Renames the file beside over the disk's, and makes that durable.
#[tactic(auto, using(crate::proofs::InFolders::not_renamed, crate::proofs::InFolders::replaced, crate::proofs::InFolders::stays_unknown))]
fn replace<F: Folder>(file: &mut F) -> io::Result<()>
    ensures unknown { F.held file.old ≡ None → F.held file.new ≡ None }
    ensures replaced { IfSome (F.held file.old) (λ all. Replaces all result (F.held file.new)
        (F.folder_facts file.old) (F.folder_facts file.new)) }
{
    file.rename()?;
    file.sync_folder()
}

/// Writes the disk into its file, unless the file holds it already. It is written into a file beside, named `.new`, which is then
/// renamed over the disk's. So a host that crashes meanwhile leaves the old file or the new one whole, and perhaps the file beside.
/// Where that cannot be written whole it is removed.
#[tactic(auto, using(crate::proofs::InFolders::held_already, crate::proofs::InFolders::not_made, crate::proofs::InFolders::put_there, crate::proofs::InFolders::put_failed))]
fn write_disk<F: Folder>(
    file: &mut F,
    sectors: &[Sector],
    size: BlockSize,
    is_new: bool,
) -> Result<(), FileFault>
    ensures unknown { F.held file.old ≡ None → F.held file.new ≡ None }
    ensures put { IfSome (F.held file.old) (λ all. Puts size.bytes is_new sectors.now all result (F.held file.new)
        (F.folder_facts file.old) (F.folder_facts file.new)) }
    ensures failed { IfErr result (λ e. IsFileFault e.fault) }
{
    if let Ok(true) = holds(file, sectors, size, is_new) {
        return Ok(());
    }
    if let Err(e) = make_disk(file, sectors, size, is_new) {
        return Err(file.fault_beside(e));
    }
    match replace(file) {
        Ok(()) => Ok(()),
        Err(e) => Err(file.fault(e)),
    }
}

impl<F: Folder + Drop> HeldFile for FormedFile<F> {
    ghost use Rattle.std.specs.Prelude.{◌==◌};
    ghost use Rattle.board_files.specs.Folders.{counts_in, left_of};

    ghost left = { λ f. left_of (F.folder_facts f.file) };

    #[tactic(auto, using(crate::proofs::InFolders::disk_written, crate::proofs::InFolders::disk_kept, crate::proofs::InFolders::disk_left))]
    fn write(&mut self, sectors: &[Sector], is_new: bool) -> Result<(), FileFault> {
        write_disk(&mut self.file, sectors, self.block, is_new)
    }

    ghost counts_now = { λ f. counts_in (f.block.bytes == 512) (F.held f.file) (F.folder_facts f.file) (F.counts_now f.file) };
}

/// Makes the file beside, which is empty, one of so many zero sectors, each in a block of that size.
#[tactic(auto, using(crate::proofs::InFolders::no_block, crate::proofs::InFolders::plain_filled, crate::proofs::InFolders::blocks_filled))]
fn fill_blank<F: Folder>(file: &mut F, sectors: usize, size: BlockSize) -> io::Result<()>
    ensures held { F.held file.new ≡ F.held file.old }
    ensures made { IfSome (F.held file.old) (λ all. IsBlankOf size.bytes sectors → (F.folder_facts file.old).beside ≡ []
        → MakesBeside (blank_disk size.bytes sectors) result (F.folder_facts file.old) (F.folder_facts file.new)) }
{
    let count = bytes_of(sectors, size);
    if size.bytes == 512 {
        return file.fill(&[], count);
    }
    let mut block = blank_block(file.alloc(), size)?;
    lay(&mut block, size, 0, &[0; 512]);
    file.fill(&block, count)
}

/// Makes a blank file beside, and makes it durable. Its lock is taken first, so that no other session has it once it is renamed.
#[tactic(auto, using(crate::proofs::InFolders::unready_blank, crate::proofs::InFolders::is_blank_ready))]
fn make_blank<F: Folder>(file: &mut F, sectors: usize, size: BlockSize) -> io::Result<()>
    ensures held { F.held file.new ≡ F.held file.old }
    ensures made { IfSome (F.held file.old) (λ all. IsBlankOf size.bytes sectors
        → IsReady (blank_disk size.bytes sectors) result (F.folder_facts file.old) (F.folder_facts file.new)) }
{
    file.create(true)?;
    let wrote = fill_blank(file, sectors, size);
    settle(file, wrote)
}

/// Puts a blank file of so many sectors into the place of the disk's.
#[tactic(auto, using(crate::proofs::InFolders::kept_new))]
fn put_blank<F: Folder>(file: &mut F, sectors: usize, size: BlockSize) -> Result<(), FileFault>
    ensures put { OnOk result (IfSome (F.held file.old) (λ all. IsBlankOf size.bytes sectors
        → IsKept true (blank_disk size.bytes sectors) (F.held file.new) (F.folder_facts file.new))) }
    ensures failed { IfErr result (λ e. IsFileFault e.fault) }
{
    if let Err(e) = make_blank(file, sectors, size) {
        return Err(file.fault_beside(e));
    }
    match replace(file) {
        Ok(()) => Ok(()),
        Err(e) => Err(file.fault(e)),
    }
}

/// The file in which a session keeps its disk all along. For a new disk it is a blank one of so many sectors, which replaces what
/// was there. Else it is the one that was read, which is made durable first.
#[tactic(auto, using(crate::proofs::InFolders::kept_old))]
pub fn kept_file<F: Folder + Drop>(
    held: FormedFile<F>,
    sectors: usize,
    is_new: bool,
) -> Result<F, FileFault>
    ensures blank { is_new ≡ true → IfOk result (λ kept. IfSome (F.held held.file) (λ all. IsBlankOf held.block.bytes sectors
        → IsKept true (blank_disk held.block.bytes sectors) (F.held kept) (F.folder_facts kept))) }
    ensures old { is_new ≡ false → IfOk result (λ kept. IfSome (F.held held.file) (λ all.
        IsKept false all (F.held kept) (F.folder_facts kept))) }
    ensures failed { IfErr result (λ e. IsFileFault e.fault) }
{
    let FormedFile { mut file, block } = held;
    if is_new {
        put_blank(&mut file, sectors, block)?;
        return Ok(file);
    }
    match file.sync_held() {
        Ok(()) => Ok(file),
        Err(e) => Err(file.fault(e)),
    }
}
