//! A kernel's file against what objcopy and nm say of it, and files that are wrong in one place.

mod trapped;

use crate::fixtures::same;
use elf_image::{Elf, ElfFault, is_elf, parse};
use std::alloc::Global;
use std::process::Abort;
use trapped::{FILE, MEMORY};

/// The RAM of a board of one page.
const RAM: u32 = 4096;

/// What `nm -S` says of the file: each name with its address and size; and two that it does not have.
static NAMES: [(&[u8], Option<(u64, u64)>); 7] = [
    (b"start", Some((0x8000_0000, 0))),
    (b"shown", Some((0x8000_0040, 0))),
    (b"trap_stop", Some((0x8000_00b8, 0))),
    (b"kernel", Some((0x8000_0100, 80))),
    (b"first_traps", Some((0x8000_0180, 0))),
    (b"kerne", None),
    (b"kernels", None),
];

/// Addresses, and what `nm` has at or below each, and how far below.
static LABELS: [(u64, Option<(&[u8], u64)>); 5] = [
    (0x8000_0000, Some((b"start", 0))),
    (0x8000_00b7, Some((b"shown", 0x77))),
    (0x8000_00c0, Some((b"trap_stop", 8))),
    (0x8000_012c, Some((b"kernel", 0x2c))),
    (0x7fff_ffff, None),
];

/// A place of the file, a byte that is wrong there, and the fault. The places are those of the gABI: e_ident, e_type, e_machine, e_phoff,
/// e_phnum and e_shoff, then p_offset of segment 1, whose header is at 64 + 56. The last three depend on the board: e_entry, and p_paddr of
/// segment 1.
static WRONG: [(usize, u8, ElfFault); 12] = [
    (3, 71, ElfFault::NotElf),
    (4, 1, ElfFault::Not64Bits),
    (5, 2, ElfFault::NotLittleEndian),
    (18, 62, ElfFault::AnotherMachine(62)),
    (16, 3, ElfFault::NotExecutable(3)),
    (35, 1, ElfFault::ProgramHeaders),
    (56, 0, ElfFault::NoSegment),
    (43, 1, ElfFault::SectionHeaders),
    (131, 1, ElfFault::SegmentBytes(1)),
    (24, 4, ElfFault::EntryElsewhere(0x8000_0004)),
    (145, 0x10, ElfFault::OutsideRam(1, RAM)),
    (144, 0, ElfFault::Overlapping(1)),
];

fn parsed<'a>(rt: &impl Abort, file: &'a [u8]) -> Elf<'a> {
    match parse(file) {
        Ok(elf) => elf,
        Err(fault) => rt.panic(fault),
    }
}

#[test]
fn the_memory_is_what_objcopy_makes(rt: HostRuntime) {
    let elf = parsed(&rt, &FILE);
    match elf.load(rt.alloc(), RAM) {
        Ok(memory) => assert!(rt; memory.as_slice() == MEMORY.as_slice()),
        Err(fault) => rt.panic(fault),
    }
}

/// It enters at the start of RAM, and .bss ends 640 bytes from there.
#[test]
fn the_memory_begins_and_ends_where_nm_has_it(rt: HostRuntime) {
    let elf = parsed(&rt, &FILE);
    same(&rt, elf.entry(), 0x8000_0000);
    assert!(rt; elf.load(rt.alloc(), 640).is_ok());
    assert!(rt; elf.load(rt.alloc(), 639).is_err());
}

/// The address and the size of the symbol of that name.
fn place_of(elf: &Elf<'_>, name: &[u8]) -> Option<(u64, u64)> {
    let symbol = elf.symbol(name)?;
    Some((symbol.address, symbol.size))
}

#[test]
fn symbols_are_those_of_nm(rt: HostRuntime) {
    let elf = parsed(&rt, &FILE);
    for &(name, place) in &NAMES {
        same(&rt, place_of(&elf, name), place);
    }
}

#[test]
fn labels_are_those_of_nm(rt: HostRuntime) {
    let elf = parsed(&rt, &FILE);
    for &(address, label) in &LABELS {
        same(&rt, elf.symbol_at(address), label);
    }
    let data: (&[u8], u64) = (b"first_traps", 8);
    same(&rt, elf.data_at(0x8000_0188), Some(data));
}

fn fault_of(alloc: Global, place: usize, byte: u8) -> Option<ElfFault> {
    let mut file = FILE;
    if let Some(at) = file.get_mut(place) {
        *at = byte;
    }
    match parse(&file) {
        Err(fault) => Some(fault),
        Ok(elf) => elf.load(alloc, RAM).err(),
    }
}

#[test]
fn faults_are_told(rt: HostRuntime) {
    for &(place, byte, fault) in &WRONG {
        same(&rt, fault_of(rt.alloc(), place, byte), Some(fault));
    }
}

#[test]
fn the_mark_alone_is_cut_off(rt: HostRuntime) {
    assert!(rt; !is_elf(b"\x7fEL") && is_elf(b"\x7fELF"));
    same(&rt, parse(b"\x7fELF").err(), Some(ElfFault::CutOff));
}
