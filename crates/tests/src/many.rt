//! Boards of three harts and of eight: each hart makes its turns, and the life of all ends with one's.

use crate::boards::{BoardTrial, ENDLESS, driven};
use crate::fixtures::same;
use crate::looped::STOPPER;
use board_model::HartId;
use hart_threads::Gate;
use std::process::Abort;
use std::sync::atomic::{AtomicU64, Ordering};

/// A hart of which a gate lets so many turns begin, if there is one.
pub type Short = Option<(usize, u64)>;

/// It lets every turn begin, but of one hart so many alone, and counts the turns of each hart.
#[derive(Drop)]
pub struct CountingGate {
    short: Short,
    made: [AtomicU64; 8],
}

impl CountingGate {
    pub fn new(short: Short) -> CountingGate {
        CountingGate {
            short,
            made: [
                AtomicU64::new(0),
                AtomicU64::new(0),
                AtomicU64::new(0),
                AtomicU64::new(0),
                AtomicU64::new(0),
                AtomicU64::new(0),
                AtomicU64::new(0),
                AtomicU64::new(0),
            ],
        }
    }

    /// How many turns a hart made.
    fn made_by(&self, hart: usize) -> u64 {
        self.made[hart % 8].load(Ordering::SeqCst)
    }
}

impl Gate for CountingGate {
    ghost answers = { λ gate hart turn answer. Unit {0} };

    ghost hears = { λ gate hart turn. Unit {0} };

    fn before(&self, hart: HartId, turn: u64) -> bool {
        let Some((short, turns)) = self.short else {
            return true;
        };
        hart.index() != short || turn < turns
    }

    fn after(&self, hart: HartId, _turn: u64) {
        self.made[hart.index() % 8].fetch_add(1, Ordering::SeqCst);
    }
}

/// Hart k made that many turns, for each k.
fn made_by_each(rt: &impl Abort, gate: &CountingGate, turns: &[u64]) {
    for (hart, wanted) in turns.iter().enumerate() {
        same(rt, gate.made_by(hart), *wanted);
    }
}

/// A board of so many harts that boots that, what its gate ends, how many turns a hart makes at most, and how many the first harts
/// make.
type CountedRow = (u64, &'static [u8], Short, u64, &'static [u64]);

static ROWS: [CountedRow; 3] = [
    // each of eight harts makes its turns, but one that the gate ends
    (8, &[], Some((3, 5)), 20, &[20, 20, 20, 5, 20, 20, 20, 20]),
    // the gate is asked past a million turns
    (1, &[], Some((0, 1_048_600)), ENDLESS, &[1_048_600]),
    // the life of all harts ends with a reset of one
    (3, &STOPPER, None, ENDLESS, &[6]),
];

#[test]
fn each_hart_makes_its_turns(rt: HostRuntime) {
    for &(harts, payload, short, turns, made) in &ROWS {
        let gate = CountingGate::new(short);
        let trial = BoardTrial {
            size: (harts, 1, 1),
            payload,
            ..BoardTrial::of(turns)
        };
        driven(&rt, rt.alloc(), &gate, trial);
        made_by_each(&rt, &gate, made);
    }
}
