//! Little-endian numbers in bytes, of any place.

ghost use Rattle.std.specs.Prelude.{◌≡◌, MatchOption, drop, slice_index};
ghost use Rattle.elf_image.specs.Fields.{IsPart, number_at, part_of};

use byteorder::{ByteOrder, LittleEndian};

/// The byte at a place; 0 where there is none.
pub fn byte_at(bytes: &[u8], place: usize) -> u8
    ensures { result ≡ slice_index bytes.now place }
{
    bytes.get(place).copied().unwrap_or(0)
}

/// The number in the 2 bytes from a place on; 0 where they are not all there.
pub fn u16_at(bytes: &[u8], place: usize) -> u16
    ensures { result ≡ number_at 2 place bytes.now }
{
    let rest = rest_at(bytes, place as u64);
    if rest.len() < 2 {
        return 0;
    }
    LittleEndian::read_u16(rest)
}

/// The number in the 4 bytes from a place on; 0 where they are not all there.
pub fn u32_at(bytes: &[u8], place: usize) -> u32
    ensures { result ≡ number_at 4 place bytes.now }
{
    let rest = rest_at(bytes, place as u64);
    if rest.len() < 4 {
        return 0;
    }
    LittleEndian::read_u32(rest)
}

/// The number in the 8 bytes from a place on; 0 where they are not all there.
pub fn u64_at(bytes: &[u8], place: usize) -> u64
    ensures { result ≡ number_at 8 place bytes.now }
{
    let rest = rest_at(bytes, place as u64);
    if rest.len() < 8 {
        return 0;
    }
    LittleEndian::read_u64(rest)
}

/// The bytes from a place on; none where the place is past the end.
pub fn rest_at(bytes: &[u8], place: u64) -> &[u8]
    ensures { result.now ≡ drop place bytes.now }
{
    if bytes.len() as u64 <= place {
        return &[];
    }
    &bytes[place as usize..]
}

/// So many bytes from a place on, where they are all there.
pub fn part_at(bytes: &[u8], place: u64, count: u64) -> Option<&[u8]>
    ensures { MatchOption result (IsPart place count bytes.now → ⊥) (λ part. IsPart place count bytes.now × (part.now ≡ part_of place count bytes.now)) }
{
    let len = bytes.len() as u64;
    if len < place || len - place < count {
        return None;
    }
    Some(&rest_at(bytes, place)[..count as usize])
}
