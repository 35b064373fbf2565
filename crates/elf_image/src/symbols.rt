//! Symbols by their names.

ghost use Rattle.std.specs.Prelude.{◌≡◌, ◌↔◌, ℕ, ◌<◌, IsTrue, MatchOption};
ghost use Rattle.elf_image.specs.Symbols.{HasName, IsFirstNamed, entry_at, names_from, symbol_of, symbols_of};

use crate::fields::{rest_at, u32_at, u64_at};
use crate::sections::Tables;

/// A symbol: its address (`st_value`), and how many bytes what it names has (`st_size`).
#[derive(Clone, Copy, Debug, Drop)]
pub struct Symbol {
    pub address: u64,
    pub size: u64,
}

/// The names from a symbol's own on.
pub fn names_from<'a>(names: &'a [u8], entry: &[u8]) -> &'a [u8]
    ensures { result.now ≡ names_from names.now entry.now }
{
    rest_at(names, u32_at(entry, 0) as u64)
}

/// Whether a symbol has that name.
fn has_name(names: &[u8], name: &[u8], entry: &[u8]) -> bool
    ensures { IsTrue result ↔ HasName names.now name.now entry.now }
{
    let text = names_from(names, entry);
    text.starts_with(name) && text.get(name.len()).copied() == Some(0)
}

/// The symbol of an entry.
fn symbol_of(entry: &[u8]) -> Symbol
    ensures { result ≡ symbol_of entry.now }
{
    Symbol {
        address: u64_at(entry, 8),
        size: u64_at(entry, 16),
    }
}

/// The first symbol of that name.
pub fn first_named(tables: &Tables<'_>, name: &[u8]) -> Option<Symbol>
    ensures { MatchOption result
        ((k : ℕ) → k < symbols_of tables.now.symbols.now → HasName tables.now.names.now name.now (entry_at tables.now.symbols.now k) → ⊥)
        (λ s. (k : ℕ) × IsFirstNamed tables.now.symbols.now tables.now.names.now name.now k × (s ≡ symbol_of (entry_at tables.now.symbols.now k))) }
{
    for k in 0..tables.symbols.len() / 24 {
        let entry = &tables.symbols[24 * k..];
        if has_name(tables.names, name, entry) {
            return Some(symbol_of(entry));
        }
    }
    None
}
