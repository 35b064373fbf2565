//! Sector 0.
ghost use Rattle.std.specs.Prelude.{◌≡◌, ℕ, ◌⊎◌, ◌≤◌, ◌↔◌, Ok, IsTrue, IfOk, IfErr};
ghost use Rattle.board_model.specs.Shapes.{Size, sectors_of};
ghost use Rattle.layout.specs.Superblocks.{HasMagic, IsSuperblock};

use crate::fields::{Filling, is_same, u32_at};
use board_model::{Refusal, Shape};

const MAGIC: [u8; 8] = *b"SBIDISK1";

/// The superblock of a board: the mark, harts, pages and lanes.
pub fn superblock_bytes(shape: &Shape) -> [u8; 512]
    ensures { IsSuperblock shape.now result }
{
    let mut sector = Filling::new();
    sector.bytes(&MAGIC);
    sector.u32(shape.harts());
    sector.u32(shape.pages());
    sector.u32(shape.lanes());
    sector.finish()
}

/// Whether sector 0 begins with the mark of a formatted disk.
pub fn has_magic(sector: &[u8; 512]) -> bool
    ensures { IsTrue result ↔ HasMagic sector.now }
{
    sector.starts_with(&MAGIC)
}

/// The shape that sector 0 of a disk of so many sectors has. Refused `NotFormatted` where the sector does not
/// begin with the mark; `BadShape` where a number is out of range, a byte of the rest is not 0, or the disk
/// is too small.
pub fn parse_superblock(sector: &[u8; 512], sectors: usize) -> Result<Shape, Refusal>
    ensures ok { IfOk result (λ shape. IsSuperblock shape sector.now × (sectors_of shape ≤ sectors)) }
    ensures exact { (size : Size) → IsSuperblock size sector.now → sectors_of size ≤ sectors → result ≡ Ok size }
    ensures marked { IfOk result (λ shape. HasMagic sector.now) }
    ensures refused { IfErr result (λ e. ((e ≡ Refusal.NotFormatted) × (HasMagic sector.now → ⊥))
        ⊎ ((e ≡ Refusal.BadShape) × HasMagic sector.now)) }
{
    if !has_magic(sector) {
        return Err(Refusal::NotFormatted);
    }
    let shape = shape_in(sector)?;
    if !is_same(&superblock_bytes(&shape), sector) || sectors < shape.sectors() {
        return Err(Refusal::BadShape);
    }
    Ok(shape)
}

/// The shape that the numbers of the sector make.
fn shape_in(sector: &[u8; 512]) -> Result<Shape, Refusal>
    ensures exact { (size : Size) → IsSuperblock size sector.now → result ≡ Ok size }
    ensures refused { IfErr result (λ e. e ≡ Refusal.BadShape) }
{
    let harts = u32_at(sector, 8);
    let pages = u32_at(sector, 12);
    let lanes = u32_at(sector, 16);
    Shape::new(harts as u64, pages as u64, lanes as u64)
}
