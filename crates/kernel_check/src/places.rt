//! Addresses as texts, by the symbols of a kernel.

ghost use Rattle.std.specs.Prelude.{◌≡◌, false};
ghost use Rattle.kernel_check.specs.Failures.{IsOutside};

use board_model::{RAM_BASE, Shape};
use elf_image::Elf;
use std::alloc::{AllocError, Global};
use std::str;

/// Whether an address is in the RAM of a board of that shape.
pub fn is_in_ram(shape: &Shape, address: u64) -> bool
    ensures { result ≡ false → IsOutside shape.now address }
{
    RAM_BASE <= address && address - RAM_BASE < shape.ram_bytes() as u64
}

/// The symbol of code at or before an address, and how far the address is past it.
fn label_of<'a>(elf: Option<&Elf<'a>>, address: u64) -> Option<(&'a str, u64)> {
    let (name, offset) = elf?.symbol_at(address)?;
    match str::from_utf8(name) {
        Ok(name) => Some((name, offset)),
        Err(_) => None,
    }
}

/// An address of code as `symbol+0xoffset`; as a number where no symbol is before it, or where it is not in RAM.
pub fn place_text(
    alloc: Global,
    elf: Option<&Elf<'_>>,
    shape: &Shape,
    address: u64,
) -> Result<String, AllocError> {
    if !is_in_ram(shape, address) {
        return format!(in alloc; "{address:#x}");
    }
    match label_of(elf, address) {
        Some((name, offset)) => format!(in alloc; "{name}+{offset:#x}"),
        None => format!(in alloc; "{address:#x}"),
    }
}

/// How far past a label without a size its data reaches at most.
const MOST_DATA: u64 = 4096;

/// The symbol of data that has a byte of the word of 8 bytes at an address, and how far the word begins past it.
fn datum_of<'a>(elf: Option<&Elf<'a>>, address: u64) -> Option<(&'a str, u64)> {
    let elf = elf?;
    let (name, offset) = elf.data_at(address.saturating_add(7))?;
    let past = offset.saturating_sub(7);
    let size = match elf.symbol(name) {
        Some(symbol) if symbol.size != 0 => symbol.size,
        _ => MOST_DATA,
    };
    if size <= past {
        return None;
    }
    match str::from_utf8(name) {
        Ok(name) => Some((name, past)),
        Err(_) => None,
    }
}

/// The word of 8 bytes at an address as `symbol`, or `symbol+0xoffset`, where data has a name there.
pub fn data_text(
    alloc: Global,
    elf: Option<&Elf<'_>>,
    address: u64,
) -> Result<Option<String>, AllocError> {
    match datum_of(elf, address) {
        None => Ok(None),
        Some((name, 0)) => Ok(Some(name.to_string(alloc)?)),
        Some((name, past)) => Ok(Some(format!(in alloc; "{name}+{past:#x}")?)),
    }
}
