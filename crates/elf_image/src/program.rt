//! The program headers: what is loaded, and where.

ghost use Rattle.std.specs.Prelude.{◌≡◌, ◌↔◌, ℕ, ◌<◌, IsTrue, OnOk, IfErr};
ghost use Rattle.elf_image.specs.Kernel.{IsFaulty};
ghost use Rattle.elf_image.specs.Program.{FitsRam, HasHeaders, IsInFile, IsInRam, Loads, TakesMemory, segment_at, segments_of, without_headers};

use crate::fault::ElfFault;
use crate::fields::{rest_at, u16_at, u32_at, u64_at};

/// Where RAM begins, and each board starts.
pub const RAM_BASE: u64 = 0x8000_0000;
/// `PT_LOAD`.
const LOADED: u32 = 1;

/// A segment, as its program header says.
#[derive(Clone, Copy, Drop)]
pub struct Segment {
    kind: u32,
    /// Where its bytes stand in the file.
    pub offset: u64,
    /// Where it runs (`p_vaddr`).
    runs_at: u64,
    /// Where it is loaded (`p_paddr`).
    pub loaded_at: u64,
    /// How many bytes the file has of it.
    pub file_bytes: u64,
    /// How many bytes it takes; those after the file's are zero.
    pub memory_bytes: u64,
}

/// How many segments a file has.
pub fn segments(bytes: &[u8]) -> u16
    ensures { result ≡ segments_of bytes.now }
{
    u16_at(bytes, 56)
}

/// Whether so many bytes from an address on are in a RAM of so many.
fn is_in_ram(ram: u64, address: u64, count: u64) -> bool
    ensures { IsTrue result ↔ IsInRam ram address count }
{
    RAM_BASE <= address && address - RAM_BASE <= ram && count <= ram - (address - RAM_BASE)
}

/// A segment without the file's own headers, where the linker put them below RAM.
fn without_headers(s: Segment) -> Segment
    ensures { result ≡ without_headers s }
{
    if s.offset != 0 || RAM_BASE <= s.loaded_at || s.runs_at != s.loaded_at {
        return s;
    }
    let cut = (RAM_BASE - s.loaded_at).min(s.memory_bytes);
    Segment {
        kind: s.kind,
        offset: cut,
        runs_at: s.runs_at + cut,
        loaded_at: s.loaded_at + cut,
        file_bytes: s.file_bytes.saturating_sub(cut),
        memory_bytes: s.memory_bytes - cut,
    }
}

impl Segment {
    /// Segment `k` of a file.
    #[tactic(auto, unfolding(crate::specs::Program::segment_at))]
    pub fn at(bytes: &[u8], k: u16) -> Segment
        ensures { result ≡ segment_at bytes.now k }
    {
        let entry = rest_at(rest_at(bytes, u64_at(bytes, 32)), 56 * k as u64);
        without_headers(Segment {
            kind: u32_at(entry, 0),
            offset: u64_at(entry, 8),
            runs_at: u64_at(entry, 16),
            loaded_at: u64_at(entry, 24),
            file_bytes: u64_at(entry, 32),
            memory_bytes: u64_at(entry, 40),
        })
    }

    /// Whether it takes memory.
    pub fn takes_memory(&self) -> bool
        ensures { IsTrue result ↔ TakesMemory self.now }
    {
        self.kind == LOADED && 0 < self.memory_bytes
    }

    /// Whether it takes memory, and the file has bytes of it.
    pub fn has_bytes(&self) -> bool
        ensures { IsTrue result ↔ (TakesMemory self.now × (0 < self.now.file_bytes)) }
    {
        self.takes_memory() && 0 < self.file_bytes
    }

    /// Whether its bytes are in the file, and no more than its memory.
    fn is_in_file(&self, bytes: &[u8]) -> bool
        ensures { IsTrue result ↔ IsInFile bytes.now self.now }
    {
        let len = bytes.len() as u64;
        self.offset <= len
            && self.file_bytes <= len - self.offset
            && self.file_bytes <= self.memory_bytes
    }

    /// Whether it is loaded to, and runs in, a RAM of so many bytes.
    pub fn fits_ram(&self, ram: u64) -> bool
        ensures { IsTrue result ↔ FitsRam ram self.now }
    {
        is_in_ram(ram, self.loaded_at, self.memory_bytes)
            && is_in_ram(ram, self.runs_at, self.memory_bytes)
    }
}

/// Whether all program headers are in the file.
fn has_headers(bytes: &[u8]) -> bool
    ensures { IsTrue result ↔ HasHeaders bytes.now }
{
    let start = u64_at(bytes, 32);
    let len = bytes.len() as u64;
    u16_at(bytes, 54) == 56 && start <= len && 56 * segments(bytes) as u64 <= len - start
}

/// Whether the bytes of each segment that takes memory are in the file.
pub fn check_bytes(bytes: &[u8]) -> Result<(), ElfFault>
    ensures ok { OnOk result ((k : ℕ) → Loads bytes.now k → IsInFile bytes.now (segment_at bytes.now k)) }
    ensures faulty { IfErr result (λ e. (k : ℕ) × (e ≡ ElfFault.SegmentBytes k) × Loads bytes.now k
        × (IsInFile bytes.now (segment_at bytes.now k) → ⊥)) }
{
    for k in 0..segments(bytes) {
        let segment = Segment::at(bytes, k);
        if segment.takes_memory() && !segment.is_in_file(bytes) {
            return Err(ElfFault::SegmentBytes(k));
        }
    }
    Ok(())
}

/// Whether a segment takes memory.
fn loads_any(bytes: &[u8]) -> bool
    ensures any { IsTrue result → (k : ℕ) × Loads bytes.now k }
    ensures none { ((k : ℕ) × Loads bytes.now k) → IsTrue result }
{
    for k in 0..segments(bytes) {
        if Segment::at(bytes, k).takes_memory() {
            return true;
        }
    }
    false
}

/// Whether the program headers are in the file, and all that they load.
pub fn check_program(bytes: &[u8]) -> Result<(), ElfFault>
    ensures headers { OnOk result (HasHeaders bytes.now) }
    ensures segments { OnOk result ((k : ℕ) → Loads bytes.now k → IsInFile bytes.now (segment_at bytes.now k)) }
    ensures loads { OnOk result ((k : ℕ) × Loads bytes.now k) }
    ensures faulty { IfErr result (IsFaulty bytes.now) }
{
    if !has_headers(bytes) {
        return Err(ElfFault::ProgramHeaders);
    }
    check_bytes(bytes)?;
    if !loads_any(bytes) {
        return Err(ElfFault::NoSegment);
    }
    Ok(())
}
