//! Two harts' turns overlap: at their gate each waits for the other, before and after every turn.

use crate::boards::{BoardTrial, driven};
use crate::fixtures::{has_come, same};
use board_model::HartId;
use hart_threads::Gate;
use std::sync::atomic::{AtomicBool, AtomicU64, Ordering};
use std::time::Clock;

/// A gate at which each of two harts waits until the other has come as far.
#[derive(Drop)]
struct Meeting<'a, R> {
    clock: &'a R,
    before: [AtomicU64; 2],
    after: [AtomicU64; 2],
    missed: AtomicBool,
}

impl<'a, R: Clock> Meeting<'a, R> {
    fn new(clock: &'a R) -> Meeting<'a, R> {
        Meeting {
            clock,
            before: [AtomicU64::new(0), AtomicU64::new(0)],
            after: [AtomicU64::new(0), AtomicU64::new(0)],
            missed: AtomicBool::new(false),
        }
    }

    /// Says that this hart has come so far, and waits until the other has.
    fn meet(&self, places: &[AtomicU64; 2], hart: HartId, turn: u64) {
        let mine = hart.index() % 2;
        let so_far = turn.wrapping_add(1);
        places[mine].store(so_far, Ordering::SeqCst);
        if !has_come(self.clock, &places[1 - mine], so_far) {
            self.missed.store(true, Ordering::SeqCst);
        }
    }
}

impl<'a, R: Clock> Gate for Meeting<'a, R> {
    ghost answers = { λ gate hart turn answer. Unit {0} };

    ghost hears = { λ gate hart turn. Unit {0} };

    fn before(&self, hart: HartId, turn: u64) -> bool {
        self.meet(&self.before, hart, turn);
        !self.missed.load(Ordering::SeqCst)
    }

    fn after(&self, hart: HartId, turn: u64) {
        self.meet(&self.after, hart, turn);
    }
}

#[test]
fn two_harts_meet_before_and_after_every_turn(rt: HostRuntime) {
    let gate = Meeting::new(&rt);
    let trial = BoardTrial {
        size: (2, 1, 1),
        ..BoardTrial::of(100)
    };
    driven(&rt, rt.alloc(), &gate, trial);
    assert!(&rt; !gate.missed.load(Ordering::SeqCst));
    for calls in &gate.after {
        same(&rt, calls.load(Ordering::SeqCst), 100);
    }
}
