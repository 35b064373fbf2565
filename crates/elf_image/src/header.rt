//! The file header.

ghost use Rattle.std.specs.Prelude.{◌≡◌, ◌↔◌, IsTrue, OnOk, IfErr};
ghost use Rattle.elf_image.specs.Header.{IsElf, IsRiscv64};
ghost use Rattle.elf_image.specs.Kernel.{IsFaulty};

use crate::fault::ElfFault;
use crate::fields::{byte_at, u16_at};

/// The first bytes of each ELF file.
const MAGIC: [u8; 4] = [0x7f, b'E', b'L', b'F'];
/// `EM_RISCV`.
const RISCV: u16 = 243;
/// `ET_EXEC`.
const EXECUTABLE: u16 = 2;

/// Whether bytes are an ELF file at all, of any kind: they begin with 7f 45 4c 46.
pub fn is_elf(bytes: &[u8]) -> bool
    ensures { IsTrue result ↔ IsElf bytes.now }
{
    bytes.starts_with(&MAGIC)
}

/// Whether the file is an executable for RISC-V of 64 bits; else what it is not.
pub fn check_header(bytes: &[u8]) -> Result<(), ElfFault>
    ensures ok { OnOk result (IsRiscv64 bytes.now) }
    ensures faulty { IfErr result (IsFaulty bytes.now) }
{
    if !is_elf(bytes) {
        return Err(ElfFault::NotElf);
    }
    if bytes.len() < 64 {
        return Err(ElfFault::CutOff);
    }
    if byte_at(bytes, 4) != 2 {
        return Err(ElfFault::Not64Bits);
    }
    if byte_at(bytes, 5) != 1 {
        return Err(ElfFault::NotLittleEndian);
    }
    let machine = u16_at(bytes, 18);
    if machine != RISCV {
        return Err(ElfFault::AnotherMachine(machine));
    }
    let kind = u16_at(bytes, 16);
    if kind != EXECUTABLE {
        return Err(ElfFault::NotExecutable(kind));
    }
    Ok(())
}
