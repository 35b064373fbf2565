//! Areas written (docs/STORE.md, "Images"): through one to four lanes in turn, and a lane that fails.

use crate::fixtures::{NEVER, in_order, same};
use crate::sites::saved;
use board_model::{Refusal, Shape};
use disk::ArmedFault;
use savers::LaneCounts;
use std::alloc::Global;
use std::process::Abort;
use std::thread;

/// How many places of each lane are in use, once a board's memory is written by turns in that order.
fn counts_by<R: Abort + thread::Threads + Sync>(
    rt: &R,
    alloc: Global,
    order: [usize; 4],
    pages: u64,
    lanes: u64,
) -> Result<LaneCounts, Refusal> {
    let turns = in_order(rt, order);
    let shape = Shape::new(1, pages, lanes).expect(rt, "a shape");
    saved(rt, alloc, &turns, &shape, NEVER).0
}

/// Lanes by turns: each lane in its order is filled while pages are left.
static LANES: [(u64, [usize; 4], LaneCounts); 8] = [
    (1, [2, 0, 3, 1], [5, 0, 0, 0]),
    (2, [2, 0, 3, 1], [3, 2, 0, 0]),
    (2, [2, 3, 1, 0], [2, 3, 0, 0]),
    (3, [2, 0, 3, 1], [2, 1, 2, 0]),
    (3, [1, 3, 2, 0], [1, 2, 2, 0]),
    (4, [0, 1, 2, 3], [2, 2, 1, 0]),
    (4, [3, 2, 1, 0], [0, 1, 2, 2]),
    (4, [2, 0, 3, 1], [2, 0, 2, 1]),
];

#[test]
fn lanes_are_filled_in_their_turn(rt: HostRuntime) {
    for &(lanes, order, counts) in &LANES {
        let found = counts_by(&rt, rt.alloc(), order, 5, lanes);
        same(&rt, found, Ok(counts));
    }
}

/// What a write of five pages through four lanes answers under that fault, and how many calls it makes of each lane.
fn calls_under<R: Abort + thread::Threads + Sync>(
    rt: &R,
    alloc: Global,
    fault: ArmedFault,
) -> (Result<LaneCounts, Refusal>, [u64; 4]) {
    let turns = in_order(rt, [0, 1, 2, 3]);
    let shape = Shape::new(1, 5, 4).expect(rt, "a shape");
    saved(rt, alloc, &turns, &shape, fault)
}

/// A lane's call that fails, and how many calls are made of each lane. Each place takes two.
static FAILURES: [(ArmedFault, [u64; 4]); 4] = [
    (ArmedFault::FailLane(0, 1), [1, 4, 4, 0]),
    (ArmedFault::FailLane(0, 2), [2, 4, 4, 0]),
    (ArmedFault::FailLane(1, 3), [4, 3, 2, 0]),
    (ArmedFault::FailLane(2, 2), [4, 4, 2, 0]),
];

/// The page whose write failed stands in no place, and the lanes after its own take the pages that are left.
#[test]
fn a_lane_ends_at_its_failure_and_the_others_go_on(rt: HostRuntime) {
    for &(fault, calls) in &FAILURES {
        let (answer, made) = calls_under(&rt, rt.alloc(), fault);
        same(&rt, answer, Err(Refusal::Device));
        same(&rt, made, calls);
    }
}

/// All places that are in use.
fn places(counts: &LaneCounts) -> u64 {
    let mut places = 0u64;
    for &count in counts {
        places = places.saturating_add(u64::from(count));
    }
    places
}

/// No number of pages is refused memory that there is. Every fifth one is tried, up to the most.
#[test]
fn a_memory_of_any_size_is_written(rt: HostRuntime) {
    for k in 0..52u64 {
        let pages = 5 * k + 1;
        let counts = counts_by(&rt, rt.alloc(), [1, 3, 0, 2], pages, k % 4 + 1);
        same(&rt, places(&counts.expect(&rt, "a write")), pages);
    }
}
