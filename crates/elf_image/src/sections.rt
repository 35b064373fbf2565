//! The section headers, and the tables of symbols and of their names among them.

ghost use Rattle.std.specs.Prelude.{◌≡◌, ◌↔◌, ℕ, ◌<◌, IsTrue, OnOk, IfOk, IfErr, MatchOption};
ghost use Rattle.elf_image.specs.Fields.{IsPart, part_of};
ghost use Rattle.elf_image.specs.Kernel.{IsFaulty};
ghost use Rattle.elf_image.specs.Sections.{AreTables, HasNoSymbols, HasSections, HasTables, IsSectionIn, IsSymbolSection, bytes_of, section_at, sections_of};

use crate::fault::ElfFault;
use crate::fields::{part_at, rest_at, u16_at, u32_at, u64_at};

/// `SHT_SYMTAB`.
const SYMBOLS: u32 = 2;

/// A section, as its header says.
#[derive(Clone, Copy, Drop)]
struct Section {
    kind: u32,
    offset: u64,
    size: u64,
    link: u32,
}

/// The table of symbols, and that of their names.
#[derive(Clone, Copy, Drop)]
pub struct Tables<'a> {
    pub symbols: &'a [u8],
    pub names: &'a [u8],
}

/// How many sections a file has.
fn sections(bytes: &[u8]) -> u16
    ensures { result ≡ sections_of bytes.now }
{
    u16_at(bytes, 60)
}

impl Section {
    /// Section `k` of a file.
    #[tactic(auto, unfolding(crate::specs::Sections::section_at))]
    fn at(bytes: &[u8], k: u32) -> Section
        ensures { result ≡ section_at bytes.now k }
    {
        let entry = rest_at(rest_at(bytes, u64_at(bytes, 40)), 64 * k as u64);
        Section {
            kind: u32_at(entry, 4),
            offset: u64_at(entry, 24),
            size: u64_at(entry, 32),
            link: u32_at(entry, 40),
        }
    }

    /// Its bytes, where they are in the file.
    fn bytes<'a>(&self, file: &'a [u8]) -> Option<&'a [u8]>
        ensures { MatchOption result (IsSectionIn file.now self.now → ⊥) (λ part. IsSectionIn file.now self.now × (part.now ≡ bytes_of file.now self.now)) }
    {
        part_at(file, self.offset, self.size)
    }
}

/// Whether all section headers are in the file, where it has any.
fn has_sections(bytes: &[u8]) -> bool
    ensures { IsTrue result ↔ HasSections bytes.now }
{
    let start = u64_at(bytes, 40);
    let len = bytes.len() as u64;
    let count = sections(bytes);
    count == 0 || (u16_at(bytes, 58) == 64 && start <= len && 64 * count as u64 <= len - start)
}

/// The first section with symbols.
fn symbol_section(bytes: &[u8]) -> Option<u16>
    ensures { MatchOption result (HasNoSymbols bytes.now) (IsSymbolSection bytes.now) }
{
    for k in 0..sections(bytes) {
        if Section::at(bytes, k as u32).kind == SYMBOLS {
            return Some(k);
        }
    }
    None
}

/// The tables of section `k`, which has the symbols.
fn tables_of(bytes: &[u8], k: u16) -> Option<Tables<'_>>
    ensures { MatchOption result (HasTables bytes.now k → ⊥) (λ t. HasTables bytes.now k
        × (t.symbols.now ≡ bytes_of bytes.now (section_at bytes.now k))
        × (t.names.now ≡ bytes_of bytes.now (section_at bytes.now (section_at bytes.now k).link))) }
{
    let section = Section::at(bytes, k as u32);
    if section.link >= sections(bytes) as u32 {
        return None;
    }
    match (
        section.bytes(bytes),
        Section::at(bytes, section.link).bytes(bytes),
    ) {
        (Some(symbols), Some(names)) => Some(Tables { symbols, names }),
        _ => None,
    }
}

/// The tables of a file; empty ones where it has no symbols.
pub fn symbol_tables(bytes: &[u8]) -> Result<Tables<'_>, ElfFault>
    ensures sections { OnOk result (HasSections bytes.now) }
    ensures ok { IfOk result (λ t. AreTables bytes.now t.symbols.now t.names.now) }
    ensures faulty { IfErr result (IsFaulty bytes.now) }
{
    if !has_sections(bytes) {
        return Err(ElfFault::SectionHeaders);
    }
    match symbol_section(bytes) {
        None => Ok(Tables {
            symbols: &[],
            names: &[],
        }),
        Some(k) => match tables_of(bytes, k) {
            None => Err(ElfFault::SymbolTable),
            Some(tables) => Ok(tables),
        },
    }
}
