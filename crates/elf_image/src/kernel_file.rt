//! A kernel's ELF file.

ghost use Rattle.std.specs.Prelude.{◌≡◌, ℕ, ◌-◌, ◌<◌, ◌≤◌, vec_len, IfOk, IfErr, OnOk, IsOk, MatchOption, MatchResult};
ghost use Rattle.elf_image.specs.Header.{entry_of};
ghost use Rattle.elf_image.specs.declared.labels.Named.TheVariants.{Code, Data};
ghost use Rattle.elf_image.specs.Kernel.{IsFaulty, IsKernel, IsMisplaced};
ghost use Rattle.elf_image.specs.Loading.{IsLoaded};
ghost use Rattle.elf_image.specs.Program.{AreLaidOut};
ghost use Rattle.elf_image.specs.Sections.{AreTables};
ghost use Rattle.elf_image.specs.Symbols.{HasName, IsAtOrBelow, IsFirstNamed, IsNearest, address_of, entry_at, name_of, symbol_of, symbols_of};

use crate::fault::ElfFault;
use crate::fields::u64_at;
use crate::header::check_header;
use crate::labels::{Named, label_at};
use crate::laid::laid;
use crate::program::{check_bytes, check_program};
use crate::reach::check_layout;
use crate::sections::{Tables, symbol_tables};
use crate::symbols::{Symbol, first_named};
use std::alloc::Global;

/// A kernel's ELF file, as `parse` found it.
#[derive(Clone, Copy, Drop)]
pub struct Elf<'a> {
    bytes: &'a [u8],
    tables: Tables<'a>,
}

/// Reads a kernel's ELF file: an executable for RISC-V of 64 bits, with all its tables and all that it loads in the file. Else the
/// fault says what it is not, the first that is found in this order: the file header, the section headers, the symbols, the program
/// headers, the segments.
pub fn parse(bytes: &[u8]) -> Result<Elf<'_>, ElfFault>
    ensures kernel { OnOk result (IsKernel bytes.now) }
    ensures file { IfOk result (λ elf. (elf.bytes.now ≡ bytes.now) × AreTables bytes.now elf.tables.symbols.now elf.tables.names.now) }
    ensures faulty { IfErr result (IsFaulty bytes.now) }
    ensures exact { IsKernel bytes.now → IsOk result }
{
    check_header(bytes)?;
    let tables = symbol_tables(bytes)?;
    check_program(bytes)?;
    Ok(Elf { bytes, tables })
}

impl<'a> Elf<'a> {
    /// Where the kernel starts (`e_entry`).
    pub fn entry(&self) -> u64
        ensures { result ≡ entry_of self.now.bytes.now }
    {
        u64_at(self.bytes, 24)
    }

    /// What a RAM of so many bytes holds of it, from 0x80000000 on, up to the last byte that the file has; what comes after is zero.
    ///
    /// A segment stands where it is loaded (`p_paddr`), as objcopy and other loaders have it. The file's own headers are left out
    /// where the linker put them below RAM: the part below RAM of a segment that begins with the file's first byte and runs where it
    /// is loaded. Faults: a segment is not within the RAM, or not where it runs (`p_vaddr`), since no hart translates addresses; it
    /// begins before the end of those before it in the table; the entry is not 0x80000000; memory was refused.
    pub fn load(&self, alloc: Global, ram_bytes: u32) -> Result<Vec<u8>, ElfFault>
        ensures placed { OnOk result (AreLaidOut self.now.bytes.now ram_bytes) }
        ensures ok { IfOk result (λ memory. IsLoaded self.now.bytes.now memory.items) }
        ensures within { IfOk result (λ memory. vec_len memory ≤ ram_bytes) }
        ensures misplaced { IfErr result (IsMisplaced self.now.bytes.now ram_bytes) }
    {
        check_layout(self.bytes, ram_bytes)?;
        check_bytes(self.bytes)?;
        match laid(alloc, self.bytes) {
            Ok(memory) => Ok(memory),
            Err(_) => Err(ElfFault::Memory),
        }
    }

    /// The first symbol of that name in the table.
    pub fn symbol(&self, name: &[u8]) -> Option<Symbol>
        ensures { MatchOption result
            ((k : ℕ) → k < symbols_of self.now.tables.symbols.now
            → HasName self.now.tables.names.now name.now (entry_at self.now.tables.symbols.now k) → ⊥)
            (λ s. (k : ℕ) × IsFirstNamed self.now.tables.symbols.now self.now.tables.names.now name.now k
            × (s ≡ symbol_of (entry_at self.now.tables.symbols.now k))) }
    {
        first_named(&self.tables, name)
    }

    /// The name of the nearest symbol at or below the address that names code, and how many bytes below the address it is; of several
    /// at one address the first. Code is named by functions, and by the untyped labels of a section, but not by mapping symbols
    /// as `$x`, nor by an assembler's own labels as `.L1`.
    pub fn symbol_at(&self, address: u64) -> Option<(&'a [u8], u64)>
        ensures { MatchOption result
            ((k : ℕ) → k < symbols_of self.now.tables.symbols.now
            → IsAtOrBelow Code self.now.tables.symbols.now self.now.tables.names.now address k → ⊥)
            (λ r. (k : ℕ) × IsNearest Code self.now.tables.symbols.now self.now.tables.names.now address (symbols_of self.now.tables.symbols.now) k
            × (r.0.now ≡ name_of self.now.tables.names.now (entry_at self.now.tables.symbols.now k))
            × (r.1 ≡ address - address_of (entry_at self.now.tables.symbols.now k))) }
    {
        label_at(Named::Code, &self.tables, address)
    }

    /// The name of the nearest symbol at or below the address that names data, and how many bytes below the address it is; of several
    /// at one address the first. Data is named by objects, and by the untyped labels of a section, but not by mapping symbols
    /// as `$d`, nor by an assembler's own labels as `.L1`.
    pub fn data_at(&self, address: u64) -> Option<(&'a [u8], u64)>
        ensures { MatchOption result
            ((k : ℕ) → k < symbols_of self.now.tables.symbols.now
            → IsAtOrBelow Data self.now.tables.symbols.now self.now.tables.names.now address k → ⊥)
            (λ r. (k : ℕ) × IsNearest Data self.now.tables.symbols.now self.now.tables.names.now address (symbols_of self.now.tables.symbols.now) k
            × (r.0.now ≡ name_of self.now.tables.names.now (entry_at self.now.tables.symbols.now k))
            × (r.1 ≡ address - address_of (entry_at self.now.tables.symbols.now k))) }
    {
        label_at(Named::Data, &self.tables, address)
    }
}
