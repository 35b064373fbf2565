//! Two harts start a third at once.

ghost use Rattle.std.specs.Prelude.{◌≡◌, ◌<◌};
ghost use Rattle.hsm.specs.Rule.{stands};
ghost use Rattle.hsm.specs.Seating.{IsSeatOf, harts_of, harts_in, hart_view_of_seat};
ghost use Rattle.hsm.specs.Outcomes.{opening_view};
ghost use Rattle.hsm.specs.declared.view.Stage.TheVariants.{Running};
ghost use Rattle.tests.specs.Race.{AreReady};

use crate::two_tables::hart;
use board_model::{Addr, HartId, Shape};
use hsm::{HartSeat, HartTable, SeatTable, start, stop, try_enter};
use std::alloc::Global;
use std::process::Abort;
use std::thread::{Threads, join};

/// What a starter asks for: an address and an opaque value.
pub type StartPlan = (Addr, u64);

/// The seats of three harts, of which the first two have started, and what each of these two asks for.
#[derive(Drop)]
pub struct Racers {
    pub first: HartSeat,
    pub second: HartSeat,
    pub third: HartSeat,
    pub plans: (StartPlan, StartPlan),
}

/// Starts hart 2 as the plan says.
fn attempt(table: &HartTable, seat: HartSeat, by: HartId, plan: StartPlan) -> (HartSeat, bool)
    requires seat { IsSeatOf table.now seat }
    requires acts { stands by Running (harts_in seat) }
    requires harts { 2 < harts_of table.now }
    ensures seat { IsSeatOf table.entry.now result.0 }
    ensures stands { stands by Running (harts_in result.0) }
{
    start(table, seat, by, hart(2), plan.0, plan.1)
}

/// One round: both start the third hart, which enters and stops. True where just one was told that it did,
/// and what the third entered with is what that one asked for.
pub fn round<R: Threads + Sync>(rt: &R, table: &HartTable, racers: Racers) -> (Racers, bool)
    requires { AreReady table.now racers.first racers.second racers.third }
    ensures { AreReady table.entry.now result.0.first result.0.second result.0.third }
{
    let Racers {
        first,
        second,
        third,
        plans,
    } = racers;
    let ((first, one), (second, two)) = join(
        rt,
        move || -> (HartSeat, bool)
            requires { IsSeatOf table.now first × stands 0 Running (harts_in first) × (2 < harts_of table.now) }
            ensures { IsSeatOf table.entry.now result.0 × stands 0 Running (harts_in result.0) }
        { attempt(table, first, hart(0), plans.0) },
        move || -> (HartSeat, bool)
            requires { IsSeatOf table.now second × stands 1 Running (harts_in second) × (2 < harts_of table.now) }
            ensures { IsSeatOf table.entry.now result.0 × stands 1 Running (harts_in result.0) }
        { attempt(table, second, hart(1), plans.1) },
    );
    let (third, entry) = try_enter(table, third, hart(2));
    let (third, right) = match entry {
        Some(entered) => {
            let won = if one { plans.0 } else { plans.1 };
            (stop(table, third, hart(2)), one != two && won == entered)
        }
        None => (third, false),
    };
    (
        Racers {
            first,
            second,
            third,
            plans,
        },
        right,
    )
}

/// How many of the rounds went right.
pub fn rounds<R: Threads + Sync>(rt: &R, table: &HartTable, racers: Racers, count: u32) -> u32
    requires { AreReady table.now racers.first racers.second racers.third }
{
    let mut racers = racers;
    let mut right = 0u32;
    for _ in 0..count {
        let (next, ok) = round(rt, table, racers);
        racers = next;
        right = right.wrapping_add(u32::from(ok));
    }
    right
}

/// Parts the seat of three harts of which the first runs, and has the second started.
fn seated(
    rt: &impl Abort,
    table: &HartTable,
    whole: HartSeat,
    plans: (StartPlan, StartPlan),
) -> Racers
    requires seat { IsSeatOf table.now whole }
    requires opening { hart_view_of_seat whole ≡ opening_view 3 0 }
    requires harts { harts_of table.now ≡ 3 }
    ensures { AreReady table.entry.now result.first result.second result.third }
{
    let (first, rest) = table.split_first(whole);
    let (second, third) = table.split_first(rest);
    let plan = plans.0;
    let (first, _) = start(table, first, hart(0), hart(1), plan.0, plan.1);
    let (second, entry) = try_enter(table, second, hart(1));
    let None = entry else {
        return Racers {
            first,
            second,
            third,
            plans,
        };
    };
    rt.panic("it was not entered")
}

/// A table of three harts, of which the first and the second run.
pub fn ready_racers(
    rt: &impl Abort,
    alloc: Global,
    plans: (StartPlan, StartPlan),
) -> (HartTable, Racers)
    ensures { AreReady result.0 result.1.first result.1.second result.1.third }
{
    let Ok(shape) = Shape::new(3, 1, 1) else {
        rt.panic("not a shape")
    };
    let Ok((table, whole)) = HartTable::new(alloc, shape, hart(0)) else {
        rt.panic("no memory")
    };
    let racers = seated(rt, &table, whole, plans);
    (table, racers)
}
