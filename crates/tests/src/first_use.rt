//! docs/HART.md, "A first use": between the lines of dashes the code stands there as it stands here.

use crate::fixtures::same;
use board_model::{HartId, RAM_BASE, Refusal, Shape};
use hart::{Hart, Outcome};
use ram::Ram;
use rv_decode::Reg;
use std::alloc::Global;

/// What two steps of one hart come to, and a0 after the first one; and then its pc and a1: `addi x10, x0, 1`, and an ECALL that is
/// answered 0 with the value 7.
fn two_steps(alloc: Global, first: HartId) -> Result<(Outcome, u64, Outcome, (u64, u64)), Refusal> {
    // ----
    let mut ram = Ram::new(alloc, Shape::new(1, 1, 1)?)?;
    ram.boot(&[0x13, 0x05, 0x10, 0x00, 0x73, 0x00, 0x00, 0x00]);
    let mut hart = Hart::fresh(first, RAM_BASE, 0);
    let addi = hart.step(&mut ram, false);
    let one = hart.reg(Reg::new(10));
    let ecall = hart.step(&mut ram, false);
    hart.answer(0, 7);
    // ----
    Ok((addi, one, ecall, (hart.pc(), hart.reg(Reg::new(11)))))
}

#[test]
fn one_hart_makes_two_steps(rt: HostRuntime) {
    let first = HartId::new(0).expect(&rt, "hart 0");
    let steps = two_steps(rt.alloc(), first).expect(&rt, "memory");
    let wanted = (Outcome::Next, 1, Outcome::Ecall, (RAM_BASE + 8, 7));
    same(&rt, steps, wanted);
}
