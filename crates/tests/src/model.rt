//! The numbers and texts of docs/REFUSALS.md, and the numbers of reasons.
use crate::fixtures::same;
use board_model::{Reason, Refusal};
use std::alloc::Global;
use std::process::Abort;

/// The refusals of docs/REFUSALS.md, from 1 on.
static REFUSALS: [Refusal; 20] = [
    Refusal::NotFormatted,
    Refusal::AlreadyFormatted,
    Refusal::BadShape,
    Refusal::BadRecord,
    Refusal::Device,
    Refusal::Down,
    Refusal::Over,
    Refusal::NoImage,
    Refusal::BadSlot,
    Refusal::JournalFull,
    Refusal::Memory,
    Refusal::SerialsSpent,
    Refusal::BadImage,
    Refusal::BadScript(12),
    Refusal::ImageThere,
    Refusal::Output,
    Refusal::NotPlain,
    Refusal::NotDozing,
    Refusal::BadTries,
    Refusal::NoTrial,
];

/// The rows of that page.
const ROWS: &str = "\
1 the disk is not formatted
2 the disk is formatted already
3 a number of the shape is out of its range, or the disk, the payload or the RAM does not fit the shape
4 the selected record is not in its form
5 the device failed, and the durable state is unchanged
6 the fate of a command is in doubt until the disk is opened again
7 this life has ended by a reset or a suspension
8 no image stands
9 the boot slot is above 3
10 the journal of this life is full
11 memory was refused
12 every serial has been given out
13 a place of the image is not in its form
14 line 12 of the script is not in its form
15 an image stands, and a fresh boot would leave it behind
16 the report could not be written
17 the script has a line that no bench runs, or formats no disk
18 the board does not doze, or was woken already
19 a trial has 1 to 7 boots
20 no trial of a boot slot stands";

/// The refusal has that number and that text.
fn reads(rt: &impl Abort, alloc: Global, refusal: Refusal, row: &str) {
    let code = refusal.code();
    let written = format!(in alloc; "{code} {refusal}").expect(rt, "memory");
    same(rt, written.as_str(), row);
}

#[test]
fn refusals_have_their_numbers_and_texts(rt: HostRuntime) {
    let mut rows = ROWS.lines();
    for &refusal in &REFUSALS {
        let row = rows.next().expect(&rt, "a row");
        reads(&rt, rt.alloc(), refusal, row);
    }
    let reasons = (Reason::NoReason.number(), Reason::SystemFailure.number());
    same(&rt, reasons, (0, 1));
}
