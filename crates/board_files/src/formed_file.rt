//! A disk's file by its bytes, and the sectors in it, which lie one after the other or each in a block of its own.

ghost use Rattle.std.specs.Prelude.{◌≡◌, IfErr, IfOk, IfSome, length};
ghost use Rattle.board_files.specs.Faults.{IsFileFault};
ghost use Rattle.board_files.specs.Forms.{form_of};

use crate::block_size::BlockSize;
use crate::files::DiskFile;
use command_line::FileFault;

/// A file that is open for reading.
pub trait ByteFile {
    ghost use Rattle.std.specs.Prelude.{◌≡◌, ℕ, List, Option, IfOk, IfErr, IfSome, OnOk, length, take, drop};
    ghost use Rattle.board_files.specs.Faults.{IsFileFault};

    /// Its bytes, where they are known.
    ghost held: { Self → Option (List ℕ) };

    /// How many bytes it has.
    fn byte_count(&self) -> Result<u64, FileFault>
        ensures counted { IfOk result (λ n. IfSome (held self.now) (λ all. n ≡ length all)) }
        ensures failed { IfErr result (λ e. IsFileFault e.fault) };

    /// Reads its bytes from that place on, as many as the buffer takes. That it has fewer is a fault. After a fault the buffer
    /// holds any bytes.
    fn read_at(&self, at: u64, into: &mut [u8]) -> Result<(), FileFault>
        ensures read { OnOk result (IfSome (held self.now) (λ all. into.new ≡ take (length into.old) (drop at all))) }
        ensures failed { IfErr result (λ e. IsFileFault e.fault) };
}

/// A disk's file, and how its sectors lie in it: one after the other, or each alone in a block, as the file says.
#[derive(Drop)]
pub struct FormedFile<F: ByteFile + Drop> {
    pub file: F,
    /// How many bytes each sector's block has; 512 where they lie one after the other.
    pub block: BlockSize,
}

/// The blocks of a file of so many bytes, which begins with these 512.
fn form_by<F: ByteFile>(file: &F) -> Result<BlockSize, FileFault>
    ensures form { IfOk result (λ size. IfSome (F.held file.now) (λ all. size.bytes ≡ form_of all)) }
    ensures failed { IfErr result (λ e. IsFileFault e.fault) }
{
    let bytes = file.byte_count()?;
    if bytes < 512 {
        return Ok(BlockSize::sector());
    }
    let mut first = [0; 512];
    file.read_at(0, &mut first)?;
    let told = BlockSize::told_by(&first);
    if bytes % (told.bytes as u64) == 0 {
        Ok(told)
    } else {
        Ok(BlockSize::sector())
    }
}

impl<F: ByteFile + Drop> FormedFile<F> {
    /// The file with its sectors as it says: in blocks where its first bytes say how large, and it is whole blocks of them.
    pub fn found(file: F) -> Result<FormedFile<F>, FileFault>
        ensures found { IfOk result (λ formed. formed.file ≡ file) }
        ensures formed { IfOk result (λ formed. IfSome (F.held file) (λ all. formed.block.bytes ≡ form_of all)) }
        ensures failed { IfErr result (λ e. IsFileFault e.fault) }
    {
        let block = form_by(&file)?;
        Ok(FormedFile { file, block })
    }

    /// Reads the sector of that number, of 512 bytes, where the sectors lie in blocks. The mark of the first block is left out.
    fn read_sector(&self, number: usize, into: &mut [u8]) -> Result<(), FileFault>
        requires { length into.old ≡ 512 }
        ensures { IfErr result (λ e. IsFileFault e.fault) }
    {
        if number == 0 {
            self.file.read_at(0, &mut into[..20])?;
            self.file.read_at(24, &mut into[20..])
        } else {
            let at = (number as u64).saturating_mul(self.block.bytes as u64);
            self.file.read_at(at, into)
        }
    }
}

impl<F: ByteFile + Drop> DiskFile for FormedFile<F> {
    ghost use Rattle.std.specs.Prelude.{◌==◌, None, if◌then◌else◌};

    /// Of a file of blocks no bytes are known.
    ghost bytes = { λ f. if f.block.bytes == 512 then F.held f.file else None };

    ghost block = { λ f. f.block.bytes };

    fn block_size(&self) -> BlockSize {
        self.block
    }

    fn length(&self) -> Result<u64, FileFault> {
        let bytes = self.file.byte_count()?;
        if self.block.bytes == 512 {
            Ok(bytes)
        } else {
            Ok(bytes / (self.block.bytes as u64) * 512)
        }
    }

    fn read(&self, into: &mut [u8]) -> Result<(), FileFault> {
        if self.block.bytes == 512 {
            return self.file.read_at(0, into);
        }
        for number in 0..into.len() / 512 {
            self.read_sector(number, &mut into[512 * number..512 * number + 512])?;
        }
        Ok(())
    }
}
