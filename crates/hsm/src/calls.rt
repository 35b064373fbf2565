//! One function for each call on the hart table.

ghost use Rattle.std.specs.Prelude.{◌≡◌, ◌≢◌, ℕ, ◌+◌, ◌*◌, ◌<◌, ◌↔◌, true, false, IsTrue, List, [], MatchBool, MatchOption};
ghost use Rattle.std.specs.Int.{bit_at};
ghost use Rattle.hsm.specs.Rule.{stands};
ghost use Rattle.hsm.specs.States.{IsStarted, IsBetweenCalls, is_stopped, stopped, started, suspended, change_at, grant, entry, begin};
ghost use Rattle.hsm.specs.Outcomes.{after_quiet};
ghost use Rattle.hsm.specs.Seating.{IsSeatOf, harts_of, hart_view_of_seat, harts_in};
ghost use Rattle.hsm.specs.declared.view.Stage.TheVariants.{Out, Running, Suspended, Quiet};
ghost use Rattle.hsm.specs.declared.view.Action.TheVariants.{Looked, Stopped as DidStop, Suspended as DidSuspend, Woke, Quieted, Unquieted};
ghost use Rattle.hsm.specs.Calls.{stage_of, Sits, KeepsAll, KeepsOthers, IsOwnStatus, StandsBy, state_in_word, named, Starts, EntersAs, FindsNone, ActsAlone};
ghost use Rattle.tallies.specs.Notes.{HasNoted};

use crate::marks::{armed_in, claimed_in, entered_in};
use crate::state::{State, state_in};
use crate::table::{HartSeat, HartTable};
use crate::{changes, entries, looks, starts};
use board_model::{Addr, HartId, HartSet};
use std::marker::Brand;
use tallies::SeatTable;

/// Starts the target at the address with the opaque value, if it is STOPPED, and says whether it was. The
/// claim of the target is one step, so of all that start a hart at once just one is told true. The acting
/// hart is STARTED and not quiet (SBI specification 2.0, `sbi_hart_start`).
pub fn start(
    table: &HartTable,
    seat: HartSeat,
    by: HartId,
    target: HartId,
    address: Addr,
    opaque: u64,
) -> (HartSeat, bool)
    requires seat { IsSeatOf table.now seat }
    requires acts { stands by Running (harts_in seat) }
    requires target { target < harts_of table.now }
    ensures seat { IsSeatOf table.entry.now result.0 }
    ensures stands { stands by Running (harts_in result.0) }
    ensures others { KeepsOthers by (harts_in seat) (harts_in result.0) }
    ensures steps { Starts by target address opaque (harts_in seat) result.1 (harts_in result.0) }
    ensures alone { ActsAlone (harts_of table.entry.now) (hart_view_of_seat seat) (hart_view_of_seat result.0)
        (λ states. result.1 ≡ is_stopped (states target)) (change_at target (grant address opaque)) }
{
    let mut seat = seat;
    let site = address.value();
    let found = starts::claim::<Brand>(table, &mut seat, by, target, site, opaque);
    if claimed_in(found).contains(target) {
        return (seat, false);
    }
    starts::put_address::<Brand>(table, &mut seat, by, target, site, opaque);
    starts::put_opaque::<Brand>(table, &mut seat, by, target, site, opaque);
    starts::arm::<Brand>(table, &mut seat, by, target, site, opaque);
    (seat, true)
}

/// Enters where the hart is START_PENDING and armed, and then answers the address and the opaque value of the
/// one start that was granted. None where one look found it not armed, or entered already. The acting hart
/// has not entered. The step of the entry notes what stands `beside` it: the places of the steps that the hart had made in
/// another table, of which the caller knows. What is made there later has another place.
pub fn try_enter_beside(
    table: &HartTable,
    seat: HartSeat,
    by: HartId,
) -> (HartSeat, Option<(Addr, u64)>)
    ghost beside: { List ℕ }
    requires seat { IsSeatOf table.now seat }
    requires acts { stands by Out (harts_in seat) }
    requires by { by < harts_of table.now }
    ensures seat { IsSeatOf table.entry.now result.0 }
    ensures stands { MatchOption result.1 (stands by Out (harts_in result.0)) (λ _. stands by Running
        (harts_in result.0)) }
    ensures others { KeepsOthers by (harts_in seat) (harts_in result.0) }
    ensures steps { MatchOption result.1 (FindsNone by (harts_in seat) (harts_in result.0)) (λ e. EntersAs by
        (harts_in seat) e.0 e.1 beside (harts_in result.0)) }
    ensures alone { ActsAlone (harts_of table.entry.now) (hart_view_of_seat seat) (hart_view_of_seat result.0)
        (λ states. result.1 ≡ entry (states by)) (change_at by begin) }
{
    let mut seat = seat;
    let found = entries::poll::<Brand>(table, &mut seat, by);
    if !armed_in(found).contains(by) {
        return (seat, None);
    }
    if entered_in(found).contains(by) {
        return (seat, None);
    }
    let site = entries::read_address::<Brand>(table, &mut seat, by);
    let opaque = entries::read_opaque::<Brand>(table, &mut seat, by, site);
    entries::enter::<Brand>(table, &mut seat, by, site, opaque);
    let address = Addr::new(site).unwrap();
    (seat, Some((address, opaque)))
}

/// Enters as `try_enter_beside` does, with nothing beside the entry.
pub fn try_enter(table: &HartTable, seat: HartSeat, by: HartId) -> (HartSeat, Option<(Addr, u64)>)
    requires seat { IsSeatOf table.now seat }
    requires acts { stands by Out (harts_in seat) }
    requires by { by < harts_of table.now }
    ensures seat { IsSeatOf table.entry.now result.0 }
    ensures stands { MatchOption result.1 (stands by Out (harts_in result.0)) (λ _. stands by Running
        (harts_in result.0)) }
    ensures others { KeepsOthers by (harts_in seat) (harts_in result.0) }
    ensures steps { MatchOption result.1 (FindsNone by (harts_in seat) (harts_in result.0)) (λ e. EntersAs by
        (harts_in seat) e.0 e.1 [] (harts_in result.0)) }
    ensures alone { ActsAlone (harts_of table.entry.now) (hart_view_of_seat seat) (hart_view_of_seat result.0)
        (λ states. result.1 ≡ entry (states by)) (change_at by begin) }
{
    try_enter_beside(table, seat, by)
}

/// Stops the hart, in one step. The acting hart is STARTED and not quiet (SBI specification 2.0,
/// `sbi_hart_stop`).
pub fn stop(table: &HartTable, seat: HartSeat, by: HartId) -> HartSeat
    requires seat { IsSeatOf table.now seat }
    requires acts { stands by Running (harts_in seat) }
    requires by { by < harts_of table.now }
    ensures seat { IsSeatOf table.entry.now result }
    ensures stands { stands by Out (harts_in result) }
    ensures others { KeepsOthers by (harts_in seat) (harts_in result) }
    ensures steps { (found : ℕ) × HasNoted by Out (DidStop found) (harts_in seat) (harts_in result) }
    ensures alone { ActsAlone (harts_of table.entry.now) (hart_view_of_seat seat) (hart_view_of_seat result)
        (λ _. Unit {0}) (change_at by (λ _. stopped)) }
{
    let mut seat = seat;
    changes::stop::<Brand>(table, &mut seat, by);
    seat
}

/// The state of any hart of the board, by one look. The acting hart is one of the seat, in any state (SBI
/// specification 2.0, `sbi_hart_get_status`).
pub fn status(table: &HartTable, seat: HartSeat, by: HartId, hart: HartId) -> (HartSeat, State)
    requires seat { IsSeatOf table.now seat }
    requires acts { Sits by (harts_in seat) }
    requires hart { hart < harts_of table.now }
    ensures seat { IsSeatOf table.entry.now result.0 }
    ensures stays { KeepsAll (harts_in seat) (harts_in result.0) }
    ensures steps { (found : ℕ) × (result.1 ≡ state_in_word hart found)
        × HasNoted by (stage_of by (harts_in seat)) (Looked found) (harts_in seat) (harts_in result.0) }
    ensures fresh { IsOwnStatus hart (harts_in seat) result.1 }
    ensures own { IsBetweenCalls hart (harts_in seat) → StandsBy result.1 hart (harts_in result.0) }
    ensures alone { ActsAlone (harts_of table.entry.now) (hart_view_of_seat seat) (hart_view_of_seat result.0)
        (λ states. result.1 ≡ named (states hart)) (λ states. states) }
{
    let mut seat = seat;
    let found = looks::look::<Brand>(table, &mut seat, by);
    (seat, state_in(found, hart))
}

/// Suspends the hart, in one step. The acting hart is STARTED and not quiet (SBI specification 2.0,
/// `sbi_hart_suspend`).
pub fn suspend(table: &HartTable, seat: HartSeat, by: HartId) -> HartSeat
    requires seat { IsSeatOf table.now seat }
    requires acts { stands by Running (harts_in seat) }
    requires by { by < harts_of table.now }
    ensures seat { IsSeatOf table.entry.now result }
    ensures stands { stands by Suspended (harts_in result) }
    ensures others { KeepsOthers by (harts_in seat) (harts_in result) }
    ensures steps { (found : ℕ) × HasNoted by Suspended (DidSuspend found) (harts_in seat) (harts_in result) }
    ensures alone { ActsAlone (harts_of table.entry.now) (hart_view_of_seat seat) (hart_view_of_seat result)
        (λ _. Unit {0}) (change_at by (λ _. suspended)) }
{
    let mut seat = seat;
    changes::suspend::<Brand>(table, &mut seat, by);
    seat
}

/// Wakes the hart, in one step. The acting hart is SUSPENDED.
pub fn wake(table: &HartTable, seat: HartSeat, by: HartId) -> HartSeat
    requires seat { IsSeatOf table.now seat }
    requires acts { stands by Suspended (harts_in seat) }
    requires by { by < harts_of table.now }
    ensures seat { IsSeatOf table.entry.now result }
    ensures stands { stands by Running (harts_in result) }
    ensures others { KeepsOthers by (harts_in seat) (harts_in result) }
    ensures steps { (found : ℕ) × HasNoted by Running (Woke found) (harts_in seat) (harts_in result) }
    ensures alone { ActsAlone (harts_of table.entry.now) (hart_view_of_seat seat) (hart_view_of_seat result)
        (λ _. Unit {0}) (change_at by (λ _. started)) }
{
    let mut seat = seat;
    changes::wake::<Brand>(table, &mut seat, by);
    seat
}

/// Whether every other hart is STOPPED, by one look. From an answer of true on the hart is quiet: until
/// `unquiet` no other hart leaves STOPPED. The acting hart is STARTED; one that is quiet already is told true
/// again.
pub fn quiet(table: &HartTable, seat: HartSeat, by: HartId) -> (HartSeat, bool)
    requires seat { IsSeatOf table.now seat }
    requires acts { IsStarted by (harts_in seat) }
    requires by { by < harts_of table.now }
    ensures seat { IsSeatOf table.entry.now result.0 }
    ensures stands { MatchBool result.1 (stands by Quiet (harts_in result.0)) (stands by Running (harts_in result.0)) }
    ensures still { stands by Quiet (harts_in seat) → result.1 ≡ true }
    ensures others { KeepsOthers by (harts_in seat) (harts_in result.0) }
    ensures steps { (found : ℕ)
        × (IsTrue result.1 ↔ ((t : ℕ) → t < harts_of table.entry.now → t ≢ by → bit_at found t ≡ 0))
        × HasNoted by (after_quiet (harts_of table.entry.now) by found) (Quieted found) (harts_in seat)
        (harts_in result.0) }
    ensures alone { ActsAlone (harts_of table.entry.now) (hart_view_of_seat seat) (hart_view_of_seat result.0)
        (λ states. IsTrue result.1 ↔ ((t : ℕ) → t < harts_of table.entry.now → t ≢ by → states t ≡ stopped))
        (λ states. states) }
{
    let mut seat = seat;
    let found = changes::quiet::<Brand>(table, &mut seat, by);
    let harts = table.harts();
    (seat, claimed_in(found).below(harts) == HartSet::only(by))
}

/// Ends the quiet of the hart, in one step.
pub fn unquiet(table: &HartTable, seat: HartSeat, by: HartId) -> HartSeat
    requires seat { IsSeatOf table.now seat }
    requires acts { stands by Quiet (harts_in seat) }
    ensures seat { IsSeatOf table.entry.now result }
    ensures stands { stands by Running (harts_in result) }
    ensures others { KeepsOthers by (harts_in seat) (harts_in result) }
    ensures steps { (found : ℕ) × HasNoted by Running (Unquieted found) (harts_in seat) (harts_in result) }
    ensures alone { ActsAlone (harts_of table.entry.now) (hart_view_of_seat seat) (hart_view_of_seat result)
        (λ _. Unit {0}) (λ states. states) }
{
    let mut seat = seat;
    changes::unquiet::<Brand>(table, &mut seat, by);
    seat
}
