//! Bytes of a kernel's memory that are looked at.

ghost use Rattle.std.specs.Prelude.{◌≡◌, ◌+◌, ◌≤◌, IfOk, IfSome};
ghost use Rattle.std.specs.Option.{option_map};
ghost use Rattle.kernel_check.specs.Looks.{IsLookOf, IsOwnLook, IsPlace, HasSymbol, bytes_or};
ghost use Rattle.kernel_check.specs.Shown.{IsIn, looked};

use crate::expected::parted;
use crate::given::LookWord;
use crate::words::is_address;
use board_model::RAM_BASE;
use elf_image::{Elf, Symbol};
use script_lang::number;
use std::alloc::{AllocError, Global};

/// Bytes of memory that are looked at where a board is at an end.
#[derive(Drop)]
pub struct Look {
    /// How they are named.
    pub name: String,
    /// Where the first one stands, from the start of RAM on.
    pub start: usize,
    /// How many there are.
    pub bytes: usize,
    /// What must be there.
    pub expected: Option<Vec<u8>>,
}

/// Why a word names no bytes of a kernel's memory.
#[derive(Clone, Copy, Drop)]
pub enum LookFault {
    /// The kernel has no symbol of that name.
    NoSymbol,
    /// The bytes are not all in RAM.
    OutsideRam,
}

/// The symbol that is looked at where nothing is said, and how many bytes: the eight words of the guest kit.
const SHOWN: &str = "shown";

const SHOWN_BYTES: u64 = 64;

/// The bytes of a look at a symbol that has no size.
const WORD_BYTES: u64 = 8;

/// The first symbol of that name.
fn symbol_of(elf: Option<&Elf<'_>>, name: &str) -> Option<Symbol>
    ensures { IfSome result (HasSymbol (option_map (λ e. e.now) elf.entry) name.now) }
{
    elf?.symbol(name.as_bytes())
}

/// The bytes of a symbol, and `bytes` where it has no size.
fn bytes_or(bytes: u64, symbol: Symbol) -> u64
    ensures { result ≡ bytes_or bytes symbol }
{
    if symbol.size == 0 { bytes } else { symbol.size }
}

/// Where a name stands and how many bytes it has: those of its symbol, or a word's.
fn place_of(elf: Option<&Elf<'_>>, name: &str) -> Option<(u64, u64)>
    ensures { IfSome result (λ place. IsPlace (option_map (λ e. e.now) elf.entry) name.now place.0 place.1) }
{
    if is_address(name) {
        return Some((number(name.as_bytes())?, WORD_BYTES));
    }
    let symbol = symbol_of(elf, name)?;
    Some((symbol.address, bytes_or(WORD_BYTES, symbol)))
}

/// The place of `bytes` bytes from an address on, from the start of RAM on, where they all are in a RAM of that size.
fn place_in(ram_bytes: usize, address: u64, bytes: u64) -> Option<usize>
    ensures at { IfSome result (λ start. 0x80000000 + start ≡ address) }
    ensures within { IfSome result (λ start. start + bytes ≤ ram_bytes) }
{
    let start = address.checked_sub(RAM_BASE)?;
    let ram_bytes = ram_bytes as u64;
    if ram_bytes < bytes || ram_bytes - bytes < start {
        return None;
    }
    Some(start as usize)
}

/// The bytes that a word names on a board with a RAM of `ram_bytes` bytes.
pub fn look_at(
    alloc: Global,
    elf: Option<&Elf<'_>>,
    ram_bytes: usize,
    word: &LookWord,
) -> Result<Result<Look, LookFault>, AllocError>
    ensures look { IfOk result (λ found. IfOk found (IsLookOf (option_map (λ e. e.now) elf.entry) word.now)) }
    ensures within { IfOk result (λ found. IfOk found (IsIn ram_bytes)) }
{
    let Some((address, size)) = place_of(elf, word.name.as_str()) else {
        return Ok(Err(LookFault::NoSymbol));
    };
    let bytes = match word.bytes {
        None => size,
        Some(count) => u64::from(count),
    };
    let Some(start) = place_in(ram_bytes, address, bytes) else {
        return Ok(Err(LookFault::OutsideRam));
    };
    let expected = match &word.expected {
        None => None,
        Some(bytes) => Some(Vec::from_slice(alloc, bytes.as_slice())?),
    };
    Ok(Ok(Look {
        name: word.name.clone()?,
        start,
        bytes: bytes as usize,
        expected,
    }))
}

/// The look where nothing is said: the words `shown`, where the kernel has that symbol and they are in RAM.
pub fn own_look(
    alloc: Global,
    elf: Option<&Elf<'_>>,
    ram_bytes: usize,
) -> Result<Option<Look>, AllocError>
    ensures look { IfOk result (λ found. IfSome found (IsOwnLook (option_map (λ e. e.now) elf.entry))) }
    ensures within { IfOk result (λ found. IfSome found (IsIn ram_bytes)) }
{
    let Some(symbol) = symbol_of(elf, SHOWN) else {
        return Ok(None);
    };
    let bytes = bytes_or(SHOWN_BYTES, symbol);
    let Some(start) = place_in(ram_bytes, symbol.address, bytes) else {
        return Ok(None);
    };
    Ok(Some(Look {
        name: SHOWN.to_string(alloc)?,
        start,
        bytes: bytes as usize,
        expected: None,
    }))
}

/// What a memory shows: the bytes of all looks, one look after the other.
pub fn bytes_shown(alloc: Global, looks: &[Look], memory: &[u8]) -> Result<Vec<u8>, AllocError>
    ensures { IfOk result (λ shown. shown.items ≡ looked looks.now memory.now) }
{
    let mut shown = Vec::new(alloc);
    for look in looks {
        let (_, rest) = parted(memory, look.start);
        let (part, _) = parted(rest, look.bytes);
        shown.extend_from_slice(part)?;
    }
    Ok(shown)
}
