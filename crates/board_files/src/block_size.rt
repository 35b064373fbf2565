//! The bytes of a device's blocks, and how a sector lies in a block (docs/DISK.md, "Larger blocks").

ghost use Rattle.std.specs.Prelude.{◌≡◌, ◌≢◌, ◌+◌, ◌≤◌, IfSome, IsTrue, None, false, length};
ghost use Rattle.board_files.specs.Blocks.{block_of, is_block_size, mark_at, sector_of, told_by};

use disk::Sector;

/// How many bytes a block of a device has: a power of 2 from 512 to 65,536.
#[derive(Clone, Copy)]
pub struct BlockSize {
    pub bytes: u32,
    ghost sized: { IsTrue (is_block_size bytes) },
    ghost least: { 512 ≤ bytes },
    ghost most: { bytes ≤ 65536 },
    ghost larger: { bytes ≢ 512 → 1024 ≤ bytes },
}

impl BlockSize {
    /// Blocks of one sector.
    pub fn sector() -> BlockSize
        ensures { result.bytes ≡ 512 }
    {
        BlockSize { bytes: 512 }
    }

    /// Blocks of so many bytes. None where that is no power of 2 from 512 to 65,536.
    pub fn new(bytes: u64) -> Option<BlockSize>
        ensures size { IfSome result (λ size. size.bytes ≡ bytes) }
        ensures none { result ≡ None → is_block_size bytes ≡ false }
    {
        match bytes {
            512 | 1024 | 2048 | 4096 | 8192 | 16384 | 32768 | 65536 => Some(BlockSize {
                bytes: bytes as u32,
            }),
            _ => None,
        }
    }

    /// The blocks of the file that begins with this sector, as it says.
    pub fn told_by(first: &Sector) -> BlockSize
        ensures { result.bytes ≡ told_by first.now }
    {
        let said = u32::from_le_bytes([first[20], first[21], first[22], first[23]]);
        match BlockSize::new(said as u64) {
            Some(size) => size,
            None => BlockSize::sector(),
        }
    }
}

/// Lays a sector into its block after that mark, with zeros after both.
fn lay_by(block: &mut [u8], mark: &[u8], sector: &Sector)
    requires { 512 + length mark.now ≤ length block.old }
    ensures { block.new ≡ block_of (length block.old) mark.now sector.now }
{
    let end = 20 + mark.len();
    block.fill(0);
    block[..20].copy_from_slice(&sector[..20]);
    block[20..end].copy_from_slice(mark);
    block[end..end + 492].copy_from_slice(&sector[20..]);
}

/// Lays the sector of that number into its block.
pub fn lay(block: &mut [u8], size: BlockSize, number: usize, sector: &Sector)
    requires { length block.old ≡ size.bytes }
    ensures { block.new ≡ block_of size.bytes (mark_at size.bytes number) sector.now }
{
    if number == 0 && size.bytes != 512 {
        lay_by(block, &size.bytes.to_le_bytes(), sector);
    } else {
        lay_by(block, &[], sector);
    }
}
