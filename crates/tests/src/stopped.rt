//! A power-on that is refused memory.

use crate::fixtures::{formatted, same};
use board::{Board, Payloads};
use board_model::{BootMode, Refusal, Shape};
use std::alloc::Global;
use std::process::Abort;

/// By what a power-on over a formatted disk for eight harts is refused, and whether it tells what its open found, and the same state now.
/// Nothing where it is not refused, or the disk is refused its memory.
fn refused(rt: &impl Abort, alloc: Global) -> Option<(Refusal, bool)> {
    let shape = Shape::new(8, 1, 1).expect(rt, "a shape");
    let Ok(disk) = formatted(alloc, &shape) else {
        return None;
    };
    match Board::power_on(alloc, disk, BootMode::Fresh, &Payloads::new(alloc)) {
        Ok(_board) => None,
        Err(left) => Some((left.refusal, left.found.is_some() && left.now == left.found)),
    }
}

/// By hand: with `rt try --test --fail-alloc N` for each N this fails where the open itself is refused its journal, and at no
/// other N, since a board that is refused memory after a good open tells what the open found.
#[test]
fn memory_refused_after_the_open_tells_what_it_found(rt: HostRuntime) {
    let told = (Refusal::Memory, true);
    same(&rt, refused(&rt, rt.alloc()).unwrap_or(told), told);
}
