//! Notices on standard error, which are no faults (docs/CONSOLE.md, "The harts").

use crate::Options;
use crate::hart_lines::HartLines;
use board::Payloads;
use board_files::BlockSize;
use board_model::{SLOTS, Shape, Slot};
use hart_threads::HartEnd;
use std::io::{IsTerminal, Write};

/// The first bytes of an ELF file. A guest never begins with them, since they are no instruction.
const ELF: [u8; 4] = [0x7f, 0x45, 0x4c, 0x46];

/// Whether notices are wanted: `--tell` asks for them, or standard error is a terminal.
fn is_told<F: IsTerminal>(faults: &F, options: &Options) -> bool {
    options.tell || faults.is_terminal()
}

/// Where notices are wanted: tells how each hart ended, in the order of their numbers.
pub fn tell_harts<F: Write + IsTerminal>(faults: &mut F, options: &Options, harts: &[HartEnd]) {
    if is_told(faults, options) {
        let lines = HartLines(harts);
        let _told = write!(faults, "{lines}");
    }
}

/// Tells of each payload that is an ELF file. A board boots bare bytes, which `objcopy` takes out of such a file.
pub fn tell_elf<F: Write>(faults: &mut F, payloads: &Payloads) {
    for number in 0..SLOTS {
        let Some(slot) = Slot::new(number) else {
            continue;
        };
        if payloads.get(slot).starts_with(&ELF) {
            let _told = writeln!(
                faults,
                "sbiboard: payload {number} is an ELF file, which no guest is: see docs/KERNEL.md for objcopy"
            );
        }
    }
}

/// Where notices are wanted: tells that the command line asks for another board than the disk has.
pub fn tell_shape<F: Write + IsTerminal>(faults: &mut F, options: &Options, found: &Shape) {
    let (harts, pages, lanes) = (found.harts(), found.pages(), found.lanes());
    let (asked, given) = (&options.shape, options.given);
    let is_other = given.harts && asked.harts() != harts
        || given.pages && asked.pages() != pages
        || given.lanes && asked.lanes() != lanes;
    if is_other && is_told(faults, options) {
        let _told = writeln!(
            faults,
            "sbiboard: the disk's board is {harts}/{pages}/{lanes} (harts, pages, lanes): other numbers are for --new"
        );
    }
}

/// Where notices are wanted: tells that the command line asks for larger blocks than those of the disk's file.
pub fn tell_block<F: Write + IsTerminal>(faults: &mut F, options: &Options, found: BlockSize) {
    let (asked, found) = (options.block.bytes, found.bytes);
    if asked != 512 && asked != found && is_told(faults, options) {
        let _told = writeln!(
            faults,
            "sbiboard: each sector of the disk lies in a block of {found} bytes: another --block is for --new"
        );
    }
}
