//! Stories: what lists ask of a disk each, and what is seen, a line for a line.
//!
//! A list is a line: `board HARTS PAGES LANES A B C D`, by which a crew goes in the order A, B, C, D, and then what is
//! asked, each part after `; `: `open`, a command as `slot 3` or `tries 1 2`, `suspend HART ADDRESS OPAQUE K..` with a
//! number for each page, `load`, `resume`, `fail N`, `cut-at N`, `fail-lane L N`, `cut-lane L N`, and `cut old`, `new`,
//! `alternating` or a byte. A line in no such form is answered `?`.

use crate::lists::list_of;
use crate::told::AllSeen;
use std::alloc::{AllocError, Global};
use std::io::{self, Write};
use std::thread::Threads;
use theorem::story;

/// What is seen of a list, as a line.
fn answer<R: Threads + Sync>(alloc: Global, line: &str) -> Result<String, AllocError> {
    let Some(list) = list_of::<R>(alloc, line) else {
        return String::from_str(alloc, "?");
    };
    match story(alloc, &list.shape, &list.crew, &list.asked) {
        Ok(seen) => {
            let told = AllSeen(&seen);
            format!(in alloc; "{told}")
        }
        Err(refusal) => {
            let number = refusal.code();
            format!(in alloc; "refused {number}")
        }
    }
}

/// Does what each list asks, of a disk of its own, and writes what is seen of it.
pub fn see_all<R: Threads + Sync, W: Write>(
    alloc: Global,
    lists: &str,
    out: &mut W,
) -> io::Result<()> {
    for line in lists.lines() {
        let seen = answer::<R>(alloc, line)?;
        writeln!(out, "{seen}")?;
    }
    Ok(())
}
