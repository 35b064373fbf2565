//! Which pages of a board's memory are kept decoded, and where a page that is kept anew stands among those that are (docs/HART.md,
//! "Kept instructions").

use crate::fixtures::{blank_memory, same};
use board_model::PageNo;
use ram::{Access, Ram, Width};
use std::process::Abort;

const BASE: u64 = 0x8000_0000;

/// The first eight pages.
const EIGHT: &[u64] = &[0, 1, 2, 3, 4, 5, 6, 7];

/// The eight after the first one.
const NEXT: &[u64] = &[1, 2, 3, 4, 5, 6, 7, 8];

/// The first eight but the second.
const BUT_ONE: &[u64] = &[0, 2, 3, 4, 5, 6, 7];

const NONE: &[u64] = &[];

/// Of these pages, and of no other of the first ten, a word is kept decoded.
fn only_kept(rt: &impl Abort, ram: &Ram, pages: &[u64]) {
    for page in 0..10 {
        if let Some(number) = PageNo::new(page) {
            same(rt, ram.kept(number), pages.contains(&page));
        }
    }
}

/// Where that word of a page stands.
fn address(page: u64, word: u64) -> u64 {
    BASE + 4096 * (page % 256) + 4 * (word % 1024)
}

/// Of each of these pages that word is asked for as an instruction, which zeros are not.
fn asked(rt: &impl Abort, ram: &mut Ram, pages: &[u64], word: u64) {
    for page in pages {
        let kept = ram.instr(address(*page, word));
        assert!(rt; matches!(kept, Ok(None)));
    }
}

/// Pages of which a word is asked for, that word, and the pages that are kept then.
type KeptRow = (&'static [u64], u64, &'static [u64]);

/// After each row just its pages are kept.
fn keeps(rt: &impl Abort, ram: &mut Ram, rows: &[KeptRow]) {
    for (pages, word, kept) in rows {
        asked(rt, ram, pages, *word);
        only_kept(rt, ram, kept);
    }
}

/// A page of the memory is filled with zeros.
fn cleared(ram: &mut Ram, page: u64) {
    if let Some(page) = PageNo::new(page) {
        if page.index() < ram.pages() as usize {
            ram.fill_page(page, &[0; 4096]);
        }
    }
}

static EIGHT_AND_ONE: [KeptRow; 4] = [
    (&[], 0, &[]),
    (EIGHT, 0, EIGHT),
    (&[0], 0, EIGHT),
    (&[8], 0, NEXT),
];

/// What is asked for once a store went to page 3.
static BEHIND_A_STORE: [KeptRow; 5] = [
    (&[], 0, &[1, 2, 4, 5, 6, 7, 8]),
    (&[9], 0, &[1, 2, 4, 5, 6, 7, 8, 9]),
    (&[0], 0, &[0, 2, 4, 5, 6, 7, 8, 9]),
    (&[1], 0, &[0, 1, 4, 5, 6, 7, 8, 9]),
    (&[3], 0, &[0, 1, 3, 5, 6, 7, 8, 9]),
];

/// Eight pages are kept, and a ninth takes the place of the one that was taken in first, however lately that was
/// asked for. A store drops its page, and so does a page that is filled; the pages beside it stay. A page that is
/// then taken in goes after those that were there before it, wherever it stands.
#[test]
fn nine_pages_keep_eight(rt: HostRuntime) {
    let mut ram = blank_memory(&rt, rt.alloc(), 10);
    keeps(&rt, &mut ram, &EIGHT_AND_ONE);
    same(&rt, ram.store(BASE + 0x3ff8, Width::Byte, 0), Ok(()));
    keeps(&rt, &mut ram, &BEHIND_A_STORE);
}

/// Neither between words nor past ten pages stands an instruction.
fn asked_elsewhere(rt: &impl Abort, ram: &mut Ram) {
    let between = ram.instr(BASE + 2);
    assert!(rt; matches!(between, Err(Access::Misaligned)));
    let beyond = ram.instr(BASE + 10 * 4096);
    assert!(rt; matches!(beyond, Err(Access::Outside)));
}

/// A load, and a store that is refused.
fn touched(rt: &impl Abort, ram: &mut Ram) {
    same(rt, ram.load(BASE, Width::Double), Ok(0));
    let refused = ram.store(BASE + 1, Width::Word, 7);
    same(rt, refused, Err(Access::Misaligned));
}

static EIGHT_ALONE: [KeptRow; 2] = [(&[], 0, &[]), (EIGHT, 0, EIGHT)];

/// A load, a store that is refused and an address without an instruction keep and drop nothing.
#[test]
fn what_is_not_written_stays(rt: HostRuntime) {
    let mut ram = blank_memory(&rt, rt.alloc(), 10);
    asked_elsewhere(&rt, &mut ram);
    keeps(&rt, &mut ram, &EIGHT_ALONE);
    touched(&rt, &mut ram);
    only_kept(&rt, &ram, EIGHT);
}

/// A page that is filled, and a boot, drop what they write.
#[test]
fn what_is_written_is_dropped(rt: HostRuntime) {
    let mut ram = blank_memory(&rt, rt.alloc(), 10);
    keeps(&rt, &mut ram, &EIGHT_ALONE);
    cleared(&mut ram, 1);
    only_kept(&rt, &ram, BUT_ONE);
    ram.boot(&[]);
    only_kept(&rt, &ram, NONE);
}

/// The pages of a memory, and what is asked of it. The last word of a page keeps it. A further word of a page that is kept leaves
/// the page its place: it is still the one that was taken in first. Of a memory of fewer pages each is kept.
static MEMORIES: [(u64, &[KeptRow]); 3] = [
    (10, &[(&[3], 1023, &[3])]),
    (
        10,
        &[(EIGHT, 0, EIGHT), (&[0], 1023, EIGHT), (&[8], 0, NEXT)],
    ),
    (3, &[(&[2, 0, 1], 0, &[0, 1, 2]), (&[2], 1023, &[0, 1, 2])]),
];

#[test]
fn each_memory_keeps_its_pages(rt: HostRuntime) {
    for &(pages, rows) in &MEMORIES {
        keeps(&rt, &mut blank_memory(&rt, rt.alloc(), pages), rows);
    }
}

static TWO_ALONE: [KeptRow; 2] = [(&[], 0, &[]), (&[0, 9], 0, &[0, 9])];

/// After a boot no page stands before another, and there is room for eight: a page that was kept before it, and is
/// asked for first, is not the one that goes.
#[test]
fn a_boot_forgets_the_order(rt: HostRuntime) {
    let mut ram = blank_memory(&rt, rt.alloc(), 10);
    keeps(&rt, &mut ram, &EIGHT_ALONE);
    ram.boot(&[]);
    keeps(&rt, &mut ram, &TWO_ALONE);
}
