//! What can be wrong with an ELF file.

use thiserror::Error;

/// Why an ELF file is no kernel for this board. Segments are counted from 0, in the order of their program headers.
#[derive(Clone, Copy, Debug, PartialEq, Eq, Drop, Error)]
pub enum ElfFault {
    #[error("no ELF file: it does not begin with the bytes 7f 45 4c 46")]
    NotElf,
    #[error("the ELF file is cut off within its first 64 bytes")]
    CutOff,
    #[error("the ELF file is not one of 64 bits")]
    Not64Bits,
    #[error("the ELF file is not little-endian")]
    NotLittleEndian,
    #[error("the ELF file is for machine {0}, and RISC-V is 243")]
    AnotherMachine(u16),
    #[error("the ELF file has type {0}, and an executable has 2: link it at fixed addresses, without -pie, -shared and -r")]
    NotExecutable(u16),
    #[error("the program headers are not all in the ELF file, or not of 56 bytes")]
    ProgramHeaders,
    #[error("the section headers are not all in the ELF file, or not of 64 bytes")]
    SectionHeaders,
    #[error("the symbol table or its string table is not in the ELF file")]
    SymbolTable,
    #[error("the bytes of segment {0} are not all in the ELF file, or more than its memory")]
    SegmentBytes(u16),
    #[error("the ELF file has no segment to load")]
    NoSegment,
    #[error("segment {0} is not within the RAM, which begins at 0x80000000 and has {1} bytes")]
    OutsideRam(u16, u32),
    #[error("segment {0} begins before the end of the one before it: segments overlap, or are not in ascending order")]
    Overlapping(u16),
    #[error("the entry is at {0:#x}, and a board starts at 0x80000000")]
    EntryElsewhere(u64),
    #[error("memory was refused")]
    Memory,
}
