//! The kernel's file: which board it needs, and what its memory holds at a boot.

ghost use Rattle.std.specs.Prelude.{◌≡◌, ◌≤◌, vec_len, IfOk, IfSome, OnOk};
ghost use Rattle.board_model.specs.Shapes.{ram_bytes_of};
ghost use Rattle.elf_image.specs.Header.{IsElf};
ghost use Rattle.elf_image.specs.Loading.{IsLoaded};
ghost use Rattle.kernel_check.specs.Kernels.{IsKernelFile};
ghost use Rattle.kernel_check.specs.Looks.{IsOwnLook};
ghost use Rattle.kernel_check.specs.Shown.{IsIn};

use crate::looks::{Look, own_look};
use board_model::{MAX_PAGES, PAGE_BYTES, RAM_BASE, Shape};
use elf_image::{Elf, ElfFault, is_elf, parse};
use std::alloc::{AllocError, Global};

/// Why a file is no kernel for a board.
#[derive(Clone, Copy, Drop)]
pub enum KernelFault {
    /// It is an ELF file, but none for this board.
    Elf(ElfFault),
    /// It has more bytes than the board's RAM.
    TooLong,
    /// Memory was refused.
    Memory,
}

impl From<AllocError> for KernelFault {
    fn from(_error: AllocError) -> KernelFault {
        KernelFault::Memory
    }
}

impl From<ElfFault> for KernelFault {
    fn from(fault: ElfFault) -> KernelFault {
        match fault {
            ElfFault::Memory => KernelFault::Memory,
            fault => KernelFault::Elf(fault),
        }
    }
}

/// A kernel, as its file has it: what RAM holds of it from 0x80000000 on, and how many pages it needs.
#[derive(Drop)]
pub struct Kernel<'a> {
    /// Its ELF file, where it is one.
    pub elf: Option<Elf<'a>>,
    /// What RAM holds at a boot; zeros come after it.
    pub payload: Vec<u8>,
    /// How many pages of RAM it needs at least, 1 to 256.
    pub pages: u32,
}

/// The symbol that the guest kit's linker script puts at the end of the RAM for which a kernel is built.
const RAM_END: &[u8] = b"stacks_end";

/// The fewest pages that hold `bytes` bytes, at least one.
fn pages_of(bytes: u64) -> u64 {
    bytes.div_ceil(PAGE_BYTES as u64).max(1)
}

/// The fewest pages at which the linker script of the guest kit ends RAM; 1 where the file does not say.
fn pages_linked(elf: &Elf<'_>) -> u64 {
    match elf.symbol(RAM_END) {
        Some(symbol) => pages_of(symbol.address.saturating_sub(RAM_BASE)).min(MAX_PAGES),
        None => 1,
    }
}

/// What a RAM of the fewest pages, but not fewer than that, holds of an ELF file, and how many these are.
fn laid(alloc: Global, elf: &Elf<'_>, fewest: u64) -> Result<(Vec<u8>, u32), ElfFault>
    ensures { IfOk result (λ laid. IsLoaded elf.now.bytes.now laid.0.items) }
{
    for pages in fewest..MAX_PAGES {
        let pages = pages as u32;
        match elf.load(alloc, pages * PAGE_BYTES as u32) {
            Err(ElfFault::OutsideRam(_, _)) => {}
            Err(fault) => return Err(fault),
            Ok(payload) => return Ok((payload, pages)),
        }
    }
    let pages = MAX_PAGES as u32;
    let payload = elf.load(alloc, pages * PAGE_BYTES as u32)?;
    Ok((payload, pages))
}

/// The kernel of an ELF file.
fn kernel_of_elf(alloc: Global, bytes: &[u8]) -> Result<Kernel<'_>, KernelFault>
    ensures { IfOk result (λ kernel. IsKernelFile bytes.now kernel.elf kernel.payload.items) }
{
    let elf = parse(bytes)?;
    let fewest = pages_linked(&elf);
    let (payload, pages) = laid(alloc, &elf, fewest)?;
    Ok(Kernel {
        elf: Some(elf),
        payload,
        pages,
    })
}

/// The kernel of a file: that of an ELF file, or the bytes as they are.
pub fn kernel_of(alloc: Global, bytes: &[u8]) -> Result<Kernel<'_>, KernelFault>
    ensures { IfOk result (λ kernel. IsKernelFile bytes.now kernel.elf kernel.payload.items) }
{
    if is_elf(bytes) {
        return kernel_of_elf(alloc, bytes);
    }
    let pages = pages_of(bytes.len() as u64);
    if MAX_PAGES < pages {
        return Err(KernelFault::TooLong);
    }
    Ok(Kernel {
        elf: None,
        payload: Vec::from_slice(alloc, bytes)?,
        pages: pages as u32,
    })
}

impl Kernel<'_> {
    /// Whether a board of that shape has room for it.
    pub fn check(&self, alloc: Global, shape: &Shape) -> Result<(), KernelFault>
        ensures { OnOk result (vec_len self.now.payload ≤ ram_bytes_of shape.now) }
    {
        let ram_bytes = shape.ram_bytes();
        if let Some(elf) = &self.elf {
            elf.load(alloc, ram_bytes as u32)?;
        }
        if ram_bytes < self.payload.len() {
            return Err(KernelFault::TooLong);
        }
        Ok(())
    }

    /// The look where nothing is said.
    pub fn own_look(&self, alloc: Global, shape: &Shape) -> Result<Option<Look>, AllocError>
        ensures look { IfOk result (λ found. IfSome found (IsOwnLook self.now.elf)) }
        ensures within { IfOk result (λ found. IfSome found (IsIn (ram_bytes_of shape.now))) }
    {
        own_look(alloc, self.elf.as_ref(), shape.ram_bytes())
    }
}
