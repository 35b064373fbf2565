//! The steps that change the state of the acting hart alone: it stops, is suspended, wakes, is quiet or no longer so.

ghost use Rattle.std.specs.Prelude.{◌≡◌, ◌≢◌, ℕ, ◌+◌, ◌<◌, ◌↔◌, true, IsTrue};
ghost use Rattle.std.specs.Int.{bit_at};
ghost use Rattle.hsm.specs.Rule.{stands};
ghost use Rattle.hsm.specs.States.{IsStarted, Tells};
ghost use Rattle.hsm.specs.Outcomes.{Stops, Suspends, Wakes, Quiets, Unquiets, is_alone, after_quiet};
ghost use Rattle.hsm.specs.Seating.{IsSeatOf, harts_of, hart_view_of_seat, harts_in};
ghost use Rattle.hsm.specs.declared.view.Stage.TheVariants.{Out, Running, Suspended, Quiet};
ghost use Rattle.hsm.specs.declared.view.Action.TheVariants.{Stopped, Suspended as DidSuspend, Woke, Quieted, Unquieted};
ghost use Rattle.tallies.specs.Notes.{HasNoted};

use crate::table::{Acting, HartSeat, HartTable};
use crate::view::HartSeatView;
use atomic_table::Play;
use board_model::HartId;
use std::marker::PhantomData;

struct StopStep<J> {
    of: PhantomData<J>,
}

impl<J: Acting> Play<(), HartSeatView> for StopStep<J> {
    ghost then = { Stops J.by };
}

struct SuspendStep<J> {
    of: PhantomData<J>,
}

impl<J: Acting> Play<(), HartSeatView> for SuspendStep<J> {
    ghost then = { Suspends J.by };
}

struct WakeStep<J> {
    of: PhantomData<J>,
}

impl<J: Acting> Play<(), HartSeatView> for WakeStep<J> {
    ghost then = { Wakes J.by };
}

struct QuietStep<J> {
    of: PhantomData<J>,
}

impl<J: Acting> Play<(), HartSeatView> for QuietStep<J> {
    ghost then = { Quiets J.harts J.by };
}

struct UnquietStep<J> {
    of: PhantomData<J>,
}

impl<J: Acting> Play<(), HartSeatView> for UnquietStep<J> {
    ghost then = { Unquiets J.by };
}

/// Stops the hart: its four bits become clear. Answers the first word as the step found it.
pub fn stop<J: Acting>(table: &HartTable, seat: &mut HartSeat, by: HartId) -> u64
    requires named { J.by ≡ by }
    requires seat { IsSeatOf table.now seat.old }
    requires acts { stands by Running (harts_in seat.old) }
    requires by { by < harts_of table.now }
    ensures seat { IsSeatOf table.now seat.new }
    ensures told { HasNoted by Out (Stopped result) (harts_in seat.old) (harts_in seat.new) }
{
    let hart = by.number();
    let others = !(1u64 << hart)
        & !(1u64 << (8 + hart))
        & !(1u64 << (16 + hart))
        & !(1u64 << (24 + hart));
    table.table.shared.fetch_and::<StopStep<J>>(seat, 0, others)
}

/// Suspends the hart. Answers the first word as the step found it.
pub fn suspend<J: Acting>(table: &HartTable, seat: &mut HartSeat, by: HartId) -> u64
    requires named { J.by ≡ by }
    requires seat { IsSeatOf table.now seat.old }
    requires acts { stands by Running (harts_in seat.old) }
    requires by { by < harts_of table.now }
    ensures seat { IsSeatOf table.now seat.new }
    ensures told { HasNoted by Suspended (DidSuspend result) (harts_in seat.old) (harts_in seat.new) }
{
    let bit = 24 + by.number();
    table
        .table
        .shared
        .fetch_or::<SuspendStep<J>>(seat, 0, 1 << bit)
}

/// Wakes the hart. Answers the first word as the step found it.
pub fn wake<J: Acting>(table: &HartTable, seat: &mut HartSeat, by: HartId) -> u64
    requires named { J.by ≡ by }
    requires seat { IsSeatOf table.now seat.old }
    requires acts { stands by Suspended (harts_in seat.old) }
    requires by { by < harts_of table.now }
    ensures seat { IsSeatOf table.now seat.new }
    ensures told { HasNoted by Running (Woke result) (harts_in seat.old) (harts_in seat.new) }
{
    let bit = 24 + by.number();
    table
        .table
        .shared
        .fetch_and::<WakeStep<J>>(seat, 0, !(1u64 << bit))
}

/// One look by a hart that asks for quiet, or is quiet already. Where it alone is claimed, it is quiet from
/// here on. Answers the first word as the step found it.
pub fn quiet<J: Acting>(table: &HartTable, seat: &mut HartSeat, by: HartId) -> u64
    requires named { (J.harts ≡ harts_of table.now) × (J.by ≡ by) }
    requires seat { IsSeatOf table.now seat.old }
    requires acts { IsStarted by (harts_in seat.old) }
    ensures seat { IsSeatOf table.now seat.new }
    ensures told { HasNoted by (after_quiet (harts_of table.now) by result) (Quieted result) (harts_in seat.old)
        (harts_in seat.new) }
    ensures alone { IsTrue (is_alone (harts_of table.now) by result)
        ↔ ((t : ℕ) → t < harts_of table.now → t ≢ by → bit_at result t ≡ 0) }
    ensures still { stands by Quiet (harts_in seat.old) → is_alone (harts_of table.now) by result ≡ true }
    ensures tells { Tells (harts_of table.now) (hart_view_of_seat seat.old) result }
{
    table.table.shared.load::<QuietStep<J>>(seat, 0)
}

/// Ends the quiet of the hart. Answers the first word as the step found it.
pub fn unquiet<J: Acting>(table: &HartTable, seat: &mut HartSeat, by: HartId) -> u64
    requires named { J.by ≡ by }
    requires seat { IsSeatOf table.now seat.old }
    requires acts { stands by Quiet (harts_in seat.old) }
    ensures seat { IsSeatOf table.now seat.new }
    ensures told { HasNoted by Running (Unquieted result) (harts_in seat.old) (harts_in seat.new) }
{
    table.table.shared.load::<UnquietStep<J>>(seat, 0)
}
