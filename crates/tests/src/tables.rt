//! The hart table and the pending interrupts under threads.
ghost use Rattle.std.specs.Prelude.{◌≡◌};

use crate::crowd::{all_harts, take_all};
use crate::fixtures::same;
use crate::race::{ready_racers, rounds};
use crate::two_tables::{SeenState, first_use};
use board_model::{Addr, HartId, Shape};
use hsm::{HartTable, SeatTable, State};
use ipi::PendingTable;
use std::alloc::Global;
use std::process::Abort;
use std::thread::Threads;

#[test]
fn one_start_in_each_round(rt: HostRuntime) {
    let low = Addr::new(0x8000_0000).unwrap();
    let high = Addr::new(0x8000_1000).unwrap();
    let (table, racers) = ready_racers(&rt, rt.alloc(), ((low, 1), (high, 2)));
    same(&rt, rounds(&rt, &table, racers, 10_000), 10_000);
}

#[test]
fn eight_harts_raise_and_take(rt: HostRuntime) {
    let Ok(shape) = Shape::new(8, 1, 1) else {
        rt.panic("not a shape")
    };
    let Ok((table, whole)) = PendingTable::new(rt.alloc(), shape) else {
        rt.panic("no memory")
    };
    let (whole, sums) = all_harts(&rt, &table, whole, 0, 8, 100_000);
    let (_whole, left) = take_all(&table, whole);
    assert!(&rt; 0 < sums.raised);
    same(&rt, sums.raised, sums.taken.wrapping_add(left));
}

/// The first use of the tables of a board of two harts.
fn used<R: Abort + Threads + Sync>(rt: &R, alloc: Global, zero: HartId) -> SeenState
    requires { zero ≡ 0 }
{
    let Ok(shape) = Shape::new(2, 1, 1) else {
        rt.panic("not a shape")
    };
    let Ok((harts, whole)) = HartTable::new(alloc, shape, zero) else {
        rt.panic("no memory")
    };
    let Ok((pending, pairs)) = PendingTable::new(alloc, shape) else {
        rt.panic("no memory")
    };
    first_use(rt, &harts, whole, &pending, pairs)
}

#[test]
fn a_first_use(rt: HostRuntime) {
    let zero = HartId::new(0).unwrap();
    let address = Addr::new(0x8000_0000).unwrap();
    let (state, (entry, senders)) = used(&rt, rt.alloc(), zero);
    assert!(&rt; state != State::Stopped);
    same(&rt, entry, Some((address, 7)));
    assert!(&rt; senders.contains(zero));
}
