//! Symbols by addresses.

ghost use Rattle.std.specs.Prelude.{◌≡◌, ◌↔◌, ℕ, ◌-◌, ◌<◌, ◌≤◌, IsTrue, MatchOption, take_while, not, ◌==◌};
ghost use Rattle.elf_image.specs.Symbols.{IsAtOrBelow, IsLabel, IsNearest, address_of, entry_at, name_of, symbols_of, type_of};

use crate::fields::{byte_at, u16_at, u64_at};
use crate::sections::Tables;
use crate::symbols::names_from;

/// What a symbol names.
#[derive(Clone, Copy, Drop)]
pub enum Named {
    /// Code: a function, or a label in assembly.
    Code,
    /// Data: an object, or a label in assembly.
    Data,
}

/// `STT_OBJECT`, `STT_FUNC` and `STT_NOTYPE`.
const OBJECT: u8 = 1;

const FUNCTION: u8 = 2;

const UNTYPED: u8 = 0;
/// The first of the reserved sections (`SHN_LORESERVE`).
const RESERVED: u16 = 0xff00;

/// The type of the symbols that name such things.
fn type_of(named: Named) -> u8
    ensures { result ≡ type_of named }
{
    match named {
        Named::Code => FUNCTION,
        Named::Data => OBJECT,
    }
}

/// Whether a symbol names such a thing.
fn is_label(named: Named, names: &[u8], entry: &[u8]) -> bool
    ensures { IsTrue result ↔ IsLabel named names.now entry.now }
{
    let section = u16_at(entry, 6);
    let kind = byte_at(entry, 4) % 16;
    let letter = byte_at(names_from(names, entry), 0);
    0 < section
        && section < RESERVED
        && (kind == type_of(named) || kind == UNTYPED)
        && letter != 0
        && letter != b'$'
        && letter != b'.'
}

/// Whether symbol `k` names such a thing, at or below the address.
fn is_at_or_below(named: Named, tables: &Tables<'_>, address: u64, k: usize) -> bool
    requires { k < symbols_of tables.now.symbols.now }
    ensures { IsTrue result ↔ IsAtOrBelow named tables.now.symbols.now tables.now.names.now address k }
{
    let entry = &tables.symbols[24 * k..];
    is_label(named, tables.names, entry) && u64_at(entry, 8) <= address
}

/// The address of symbol `k`.
fn address_at(tables: &Tables<'_>, k: usize) -> u64
    requires { k < symbols_of tables.now.symbols.now }
    ensures { result ≡ address_of (entry_at tables.now.symbols.now k) }
{
    u64_at(&tables.symbols[24 * k..], 8)
}

/// The nearest symbol at or below the address that names such a thing; of those at one address the first.
fn nearest(named: Named, tables: &Tables<'_>, address: u64) -> Option<usize>
    ensures { MatchOption result
        ((k : ℕ) → k < symbols_of tables.now.symbols.now → IsAtOrBelow named tables.now.symbols.now tables.now.names.now address k → ⊥)
        (IsNearest named tables.now.symbols.now tables.now.names.now address (symbols_of tables.now.symbols.now)) }
{
    let mut best = None;
    for k in 0..tables.symbols.len() / 24 {
        if is_at_or_below(named, tables, address, k) {
            best = match best {
                Some(other) if address_at(tables, k) <= address_at(tables, other) => Some(other),
                _ => Some(k),
            };
        }
    }
    best
}

/// The bytes before the first zero.
fn text(names: &[u8]) -> &[u8]
    ensures { result.now ≡ take_while (λ b. not (b == 0)) names.now }
{
    for (i, b) in names.iter().enumerate() {
        if *b == 0 {
            return &names[..i];
        }
    }
    names
}

/// The name of the nearest symbol at or below the address that names such a thing, and how far below it is.
pub fn label_at<'a>(named: Named, tables: &Tables<'a>, address: u64) -> Option<(&'a [u8], u64)>
    ensures { MatchOption result
        ((k : ℕ) → k < symbols_of tables.now.symbols.now → IsAtOrBelow named tables.now.symbols.now tables.now.names.now address k → ⊥)
        (λ r. (k : ℕ) × IsNearest named tables.now.symbols.now tables.now.names.now address (symbols_of tables.now.symbols.now) k
        × (r.0.now ≡ name_of tables.now.names.now (entry_at tables.now.symbols.now k))
        × (r.1 ≡ address - address_of (entry_at tables.now.symbols.now k))) }
{
    match nearest(named, tables, address) {
        None => None,
        Some(k) => {
            let name = text(names_from(tables.names, &tables.symbols[24 * k..]));
            Some((name, address - address_at(tables, k)))
        }
    }
}
