//! One loop, by how it ends.

use crate::boards::{BoardTrial, driven};
use crate::fixtures::same;
use crate::many::{CountingGate, Short};
use hart_threads::Why;

/// A shutdown by `system_reset`: a0, a1 and a6 are set to 0, a7 to 0x53525354 by LUI and ADDI, then ECALL,
/// the sixth instruction.
pub const STOPPER: [u8; 28] = [
    0x13, 0x05, 0x00, 0x00, 0x93, 0x05, 0x00, 0x00, 0x13, 0x08, 0x00, 0x00, 0xb7, 0x58, 0x52, 0x53,
    0x93, 0x88, 0x48, 0x35, 0x73, 0x00, 0x00, 0x00, 0x6f, 0x00, 0x00, 0x00,
];

/// How many turns a loop made, why it ended, the hart's pc then, and the number of its receipt.
type Stopped = (u64, Why, u64, Option<u32>);

/// What the gate ends, how many turns the hart makes at most, and how its loop ends.
static LOOPS: [(Short, u64, Stopped); 3] = [
    (None, 3, (3, Why::Turns, 0x8000_000c, None)),
    (Some((0, 2)), 100, (2, Why::Gate, 0x8000_0008, None)),
    (None, 100, (6, Why::Life, 0x8000_0014, Some(1))),
];

#[test]
fn a_loop_ends_as_it_is_told(rt: HostRuntime) {
    for &(short, turns, wanted) in &LOOPS {
        let trial = BoardTrial {
            payload: &STOPPER,
            ..BoardTrial::of(turns)
        };
        let (end, _said) = driven(&rt, rt.alloc(), &CountingGate::new(short), trial);
        same(&rt, (end.made, end.why, end.pc, end.receipt), wanted);
    }
}
