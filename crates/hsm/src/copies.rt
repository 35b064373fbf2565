//! A table of the same states, which is made by the calls of its own harts: one of them runs from the start,
//! brings each other hart to its state, and comes to its own state last.

ghost use Rattle.std.specs.Prelude.{◌≡◌, ◌+◌, ◌<◌, ℕ, IfOk, IfErr, IfSome};
ghost use Rattle.board_model.specs.declared.refusal.Refusal.TheVariants.{Memory};
ghost use Rattle.hsm.specs.States.{stopped, start_pending, started, suspended};
ghost use Rattle.hsm.specs.Rule.{stands};
ghost use Rattle.hsm.specs.Seating.{IsSeatOf, harts_of, hart_view_of_seat, harts_in, IsOfAll};
ghost use Rattle.hsm.specs.declared.view.Stage.TheVariants.{Quiet};
ghost use Rattle.hsm.specs.Views.{AreStates, state_in, states_in};
ghost use Rattle.hsm.specs.Copies.{Becomes, IsAtRest, IsMade, IsSettled, IsShown, stage_by, state_told};

use crate::calls::{quiet, start, stop, suspend, try_enter};
use crate::standings::{Standing, find_alone, settled_hart, standing_of};
use crate::table::{HartSeat, HartTable};
use board_model::{Addr, HartId, RAM_BASE, Refusal, Shape};
use std::alloc::Global;

/// A STOPPED hart is started by one that runs, and does not enter.
fn pend(
    table: &HartTable,
    seat: HartSeat,
    by: HartId,
    hart: HartId,
    address: Addr,
    opaque: u64,
) -> HartSeat
    requires seat { IsSeatOf table.now seat }
    requires rests { IsAtRest (harts_of table.now) (hart_view_of_seat seat) }
    requires by { (by < harts_of table.now) × (state_in (hart_view_of_seat seat) by ≡ started) }
    requires hart { (hart < harts_of table.now) × (state_in (hart_view_of_seat seat) hart ≡ stopped) }
    ensures seat { IsSeatOf table.entry.now result }
    ensures becomes { Becomes (harts_of table.entry.now) hart (start_pending address opaque)
        (hart_view_of_seat seat) (hart_view_of_seat result) }
{
    let (seat, _) = start(table, seat, by, hart, address, opaque);
    seat
}

/// A START_PENDING hart enters.
fn begin(table: &HartTable, seat: HartSeat, hart: HartId) -> HartSeat
    requires seat { IsSeatOf table.now seat }
    requires rests { IsAtRest (harts_of table.now) (hart_view_of_seat seat) }
    requires hart { hart < harts_of table.now }
    requires pends { (a o : ℕ) × (state_in (hart_view_of_seat seat) hart ≡ start_pending a o) }
    ensures seat { IsSeatOf table.entry.now result }
    ensures becomes { Becomes (harts_of table.entry.now) hart started (hart_view_of_seat seat)
        (hart_view_of_seat result) }
{
    let (seat, _) = try_enter(table, seat, hart);
    seat
}

/// A STOPPED hart is started by one that runs, and enters.
fn run(table: &HartTable, seat: HartSeat, by: HartId, hart: HartId) -> HartSeat
    requires seat { IsSeatOf table.now seat }
    requires rests { IsAtRest (harts_of table.now) (hart_view_of_seat seat) }
    requires by { (by < harts_of table.now) × (state_in (hart_view_of_seat seat) by ≡ started) }
    requires hart { (hart < harts_of table.now) × (state_in (hart_view_of_seat seat) hart ≡ stopped) }
    ensures seat { IsSeatOf table.entry.now result }
    ensures becomes { Becomes (harts_of table.entry.now) hart started (hart_view_of_seat seat)
        (hart_view_of_seat result) }
{
    let address = Addr::new(RAM_BASE).unwrap();
    let seat = pend(table, seat, by, hart, address, 0);
    begin(table, seat, hart)
}

/// A STARTED hart is suspended.
fn sleep(table: &HartTable, seat: HartSeat, hart: HartId) -> HartSeat
    requires seat { IsSeatOf table.now seat }
    requires rests { IsAtRest (harts_of table.now) (hart_view_of_seat seat) }
    requires hart { (hart < harts_of table.now) × (state_in (hart_view_of_seat seat) hart ≡ started) }
    ensures seat { IsSeatOf table.entry.now result }
    ensures becomes { Becomes (harts_of table.entry.now) hart suspended (hart_view_of_seat seat)
        (hart_view_of_seat result) }
{
    suspend(table, seat, hart)
}

/// A STARTED hart is stopped.
fn halt(table: &HartTable, seat: HartSeat, hart: HartId) -> HartSeat
    requires seat { IsSeatOf table.now seat }
    requires rests { IsAtRest (harts_of table.now) (hart_view_of_seat seat) }
    requires hart { (hart < harts_of table.now) × (state_in (hart_view_of_seat seat) hart ≡ started) }
    ensures seat { IsSeatOf table.entry.now result }
    ensures becomes { Becomes (harts_of table.entry.now) hart stopped (hart_view_of_seat seat)
        (hart_view_of_seat result) }
{
    stop(table, seat, hart)
}

/// A STOPPED hart comes to a state, by a hart that runs.
fn bring(
    table: &HartTable,
    seat: HartSeat,
    by: HartId,
    hart: HartId,
    standing: Standing,
) -> HartSeat
    requires seat { IsSeatOf table.now seat }
    requires rests { IsAtRest (harts_of table.now) (hart_view_of_seat seat) }
    requires by { (by < harts_of table.now) × (state_in (hart_view_of_seat seat) by ≡ started) }
    requires hart { (hart < harts_of table.now) × (state_in (hart_view_of_seat seat) hart ≡ stopped) }
    ensures seat { IsSeatOf table.entry.now result }
    ensures becomes { Becomes (harts_of table.entry.now) hart (state_told standing) (hart_view_of_seat seat)
        (hart_view_of_seat result) }
{
    match standing {
        Standing::Stopped => seat,
        Standing::StartPending(address, opaque) => pend(table, seat, by, hart, address, opaque),
        Standing::Started => run(table, seat, by, hart),
        Standing::Suspended => {
            let seat = run(table, seat, by, hart);
            sleep(table, seat, hart)
        }
    }
}

/// A STARTED hart comes to a state in which no start of it is pending.
fn settle(table: &HartTable, seat: HartSeat, hart: HartId, standing: Standing) -> HartSeat
    requires seat { IsSeatOf table.now seat }
    requires rests { IsAtRest (harts_of table.now) (hart_view_of_seat seat) }
    requires hart { (hart < harts_of table.now) × (state_in (hart_view_of_seat seat) hart ≡ started) }
    requires settled { IsSettled (state_told standing) }
    ensures seat { IsSeatOf table.entry.now result }
    ensures becomes { Becomes (harts_of table.entry.now) hart (state_told standing) (hart_view_of_seat seat)
        (hart_view_of_seat result) }
{
    match standing {
        Standing::Started => seat,
        Standing::Suspended => sleep(table, seat, hart),
        Standing::Stopped => halt(table, seat, hart),
        Standing::StartPending(..) => unreachable!(),
    }
}

/// One hart of a table that is made comes to the state that it has in the other.
fn take_after(
    table: &HartTable,
    seat: &mut HartSeat,
    made: &HartTable,
    own: HartSeat,
    first: HartId,
    hart: HartId,
) -> HartSeat
    requires seat { IsSeatOf table.now seat.old }
    requires shown { IsShown (harts_of table.now) (hart_view_of_seat seat.old) }
    requires same { harts_of made.now ≡ harts_of table.now }
    requires own { IsSeatOf made.now own }
    requires harts { (first < harts_of table.now) × (hart < harts_of table.now) }
    requires made { IsMade (harts_of table.now) first hart (hart_view_of_seat seat.old) (hart_view_of_seat own) }
    ensures seat { IsSeatOf table.now seat.new }
    ensures stays { hart_view_of_seat seat.new ≡ hart_view_of_seat seat.old }
    ensures own { IsSeatOf made.now result }
    ensures made { IsMade (harts_of table.now) first (hart + 1) (hart_view_of_seat seat.old)
        (hart_view_of_seat result) }
{
    if hart == first {
        return own;
    }
    let standing = standing_of(table, seat, hart);
    bring(made, own, first, hart, standing)
}

/// The harts of a table that is made, of which only the first runs, come to the states that they have in the
/// other, and the first one last.
fn take_after_all(
    table: &HartTable,
    seat: &mut HartSeat,
    made: &HartTable,
    own: HartSeat,
    first: HartId,
    shape: &Shape,
) -> HartSeat
    requires seat { IsSeatOf table.now seat.old }
    requires shown { IsShown (harts_of table.now) (hart_view_of_seat seat.old) }
    requires harts { harts_of table.now ≡ shape.now.harts }
    requires same { harts_of made.now ≡ shape.now.harts }
    requires own { IsSeatOf made.now own }
    requires first { (first < shape.now.harts) × IsSettled (state_in (hart_view_of_seat seat.old) first) }
    requires made { IsMade shape.now.harts first 0 (hart_view_of_seat seat.old) (hart_view_of_seat own) }
    ensures seat { IsSeatOf table.now seat.new }
    ensures stays { hart_view_of_seat seat.new ≡ hart_view_of_seat seat.old }
    ensures own { IsSeatOf made.now result }
    ensures all { IsOfAll made.now result }
    ensures rests { IsAtRest shape.now.harts (hart_view_of_seat result) }
    ensures states { (k : ℕ) → k < shape.now.harts
        → state_in (hart_view_of_seat result) k ≡ state_in (hart_view_of_seat seat.old) k }
{
    let mut own = own;
    for number in 0..u64::from(shape.harts()) {
        let hart = shape.hart(number).unwrap();
        own = take_after(table, seat, made, own, first, hart);
    }
    let last = standing_of(table, seat, first);
    settle(made, own, first, last)
}

/// The hart that is quiet in the table that is copied, where one is, is quiet in its copy too. The seat of the
/// table that is copied stays as it was.
fn quiet_as(
    table: &HartTable,
    seat: &mut HartSeat,
    made: &HartTable,
    own: HartSeat,
    lone: Option<HartId>,
) -> HartSeat
    requires seat { IsSeatOf table.now seat.old }
    requires shown { IsShown (harts_of table.now) (hart_view_of_seat seat.old) }
    requires quiet { IfSome lone (λ h. (h < harts_of table.now) × stands h Quiet (harts_in seat.old)) }
    requires own { IsSeatOf made.now own }
    requires all { IsOfAll made.now own }
    requires same { harts_of made.now ≡ harts_of table.now }
    requires rests { IsAtRest (harts_of table.now) (hart_view_of_seat own) }
    requires states { (k : ℕ) → k < harts_of table.now
        → state_in (hart_view_of_seat own) k ≡ state_in (hart_view_of_seat seat.old) k }
    ensures seat { IsSeatOf table.now seat.new }
    ensures stays { hart_view_of_seat seat.new ≡ hart_view_of_seat seat.old }
    ensures own { IsSeatOf made.now result }
    ensures all { IsOfAll made.now result }
    ensures shown { IsShown (harts_of table.now) (hart_view_of_seat result) }
    ensures states { (k : ℕ) → k < harts_of table.now
        → state_in (hart_view_of_seat result) k ≡ state_in (hart_view_of_seat seat.old) k }
    ensures stands { (h : ℕ) → h < harts_of table.now
        → stands h (stage_by lone h (state_in (hart_view_of_seat seat.old) h)) (harts_in result) }
{
    match lone {
        None => own,
        Some(hart) => {
            find_alone(table, seat, hart);
            let (own, _) = quiet(made, own, hart);
            own
        }
    }
}

/// A table of the same states, with its seat of all harts, in which each hart rests where its state has it, but
/// for the one that is quiet, where one is. The seat of the table that is copied stays as it was. Refused `Memory` where
/// the words could not be had, and then nothing was made.
pub fn copy(
    alloc: Global,
    table: &HartTable,
    seat: &mut HartSeat,
    shape: &Shape,
    lone: Option<HartId>,
) -> Result<(HartTable, HartSeat), Refusal>
    requires seat { IsSeatOf table.now seat.old }
    requires harts { harts_of table.now ≡ shape.now.harts }
    requires shows { AreStates shape.now.harts (hart_view_of_seat seat.old)
        (states_in shape.now.harts (hart_view_of_seat seat.old)) }
    requires quiet { IfSome lone (λ h. (h < shape.now.harts) × stands h Quiet (harts_in seat.old)) }
    ensures stays { IsSeatOf table.now seat.new }
    ensures same { hart_view_of_seat seat.new ≡ hart_view_of_seat seat.old }
    ensures seat { IfOk result (λ t. IsSeatOf t.0 t.1) }
    ensures harts { IfOk result (λ t. harts_of t.0 ≡ shape.now.harts) }
    ensures all { IfOk result (λ t. IsOfAll t.0 t.1) }
    ensures stands { IfOk result (λ t. (h : ℕ) → h < shape.now.harts
        → stands h (stage_by lone h (state_in (hart_view_of_seat seat.old) h)) (harts_in t.1)) }
    ensures states { IfOk result (λ t. AreStates shape.now.harts (hart_view_of_seat t.1)
        (states_in shape.now.harts (hart_view_of_seat seat.old))) }
    ensures memory { IfErr result (λ e. e ≡ Memory) }
{
    let first = settled_hart(table, seat, shape);
    let (made, own) = HartTable::new(alloc, *shape, first)?;
    let own = take_after_all(table, seat, &made, own, first, shape);
    let own = quiet_as(table, seat, &made, own, lone);
    Ok((made, own))
}
