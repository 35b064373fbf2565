//! The steps by which a hart that was started enters.

ghost use Rattle.std.specs.Prelude.{◌≡◌, ◌+◌, ◌*◌, ◌<◌};
ghost use Rattle.hsm.specs.Rule.{IsSite, stands};
ghost use Rattle.hsm.specs.States.{Tells};
ghost use Rattle.hsm.specs.Outcomes.{after_look, PollsOutside, ReadsAddress, ReadsOpaque, IsOpenStart, Enters};
ghost use Rattle.hsm.specs.Seating.{IsSeatOf, harts_of, hart_view_of_seat, harts_in};
ghost use Rattle.hsm.specs.declared.view.Stage.TheVariants.{Out, Ready, Addressed, Loaded, Running};
ghost use Rattle.hsm.specs.declared.view.Action.TheVariants.{Looked, Read, Entered};
ghost use Rattle.tallies.specs.Notes.{HasNoted};

use crate::table::{Acting, HartSeat, HartTable};
use crate::view::HartSeatView;
use atomic_table::Play;
use board_model::HartId;
use std::marker::PhantomData;

struct LookOutStep<J> {
    of: PhantomData<J>,
}

impl<J: Acting> Play<(), HartSeatView> for LookOutStep<J> {
    ghost then = { PollsOutside J.harts J.by };
}

struct ReadAddressStep<J> {
    of: PhantomData<J>,
}

impl<J: Acting> Play<(), HartSeatView> for ReadAddressStep<J> {
    ghost then = { ReadsAddress J.by };
}

struct ReadOpaqueStep<J> {
    of: PhantomData<J>,
}

impl<J: Acting> Play<(), HartSeatView> for ReadOpaqueStep<J> {
    ghost then = { ReadsOpaque J.by J.address };
}

struct EnterStep<J> {
    of: PhantomData<J>,
}

impl<J: Acting> Play<(), HartSeatView> for EnterStep<J> {
    ghost then = { Enters J.harts J.by J.address J.opaque J.beside };
}

/// A look at the first word by a hart that has not entered.
pub fn poll<J: Acting>(table: &HartTable, seat: &mut HartSeat, by: HartId) -> u64
    requires named { (J.harts ≡ harts_of table.now) × (J.by ≡ by) }
    requires seat { IsSeatOf table.now seat.old }
    requires acts { stands by Out (harts_in seat.old) }
    ensures seat { IsSeatOf table.now seat.new }
    ensures told { HasNoted by (after_look by result) (Looked result) (harts_in seat.old) (harts_in seat.new) }
    ensures tells { Tells (harts_of table.now) (hart_view_of_seat seat.old) result }
{
    table.table.shared.load::<LookOutStep<J>>(seat, 0)
}

/// Loads the address at which an armed hart is to begin.
pub fn read_address<J: Acting>(table: &HartTable, seat: &mut HartSeat, by: HartId) -> u64
    requires named { J.by ≡ by }
    requires seat { IsSeatOf table.now seat.old }
    requires acts { stands by Ready (harts_in seat.old) }
    requires by { by < harts_of table.now }
    ensures seat { IsSeatOf table.now seat.new }
    ensures told { HasNoted by (Addressed result) (Read (1 + 2 * by) result) (harts_in seat.old) (harts_in seat.new) }
    ensures site { IsSite result }
{
    let word = 1 + 2 * by.index();
    table.table.shared.load::<ReadAddressStep<J>>(seat, word)
}

/// Loads the opaque value with which an armed hart is to begin.
pub fn read_opaque<J: Acting>(
    table: &HartTable,
    seat: &mut HartSeat,
    by: HartId,
    address: u64,
) -> u64
    requires named { (J.by ≡ by) × (J.address ≡ address) }
    requires seat { IsSeatOf table.now seat.old }
    requires acts { stands by (Addressed address) (harts_in seat.old) }
    requires by { by < harts_of table.now }
    ensures seat { IsSeatOf table.now seat.new }
    ensures told { HasNoted by (Loaded address result) (Read (2 + 2 * by) result) (harts_in seat.old)
        (harts_in seat.new) }
{
    let word = 2 + 2 * by.index();
    table.table.shared.load::<ReadOpaqueStep<J>>(seat, word)
}

/// Enters with the address and the opaque value that were loaded, which are those of the open start, and notes what the
/// caller says stands beside it.
pub fn enter<J: Acting>(
    table: &HartTable,
    seat: &mut HartSeat,
    by: HartId,
    address: u64,
    opaque: u64,
)
    requires named { (J.harts ≡ harts_of table.now) × (J.by ≡ by) × (J.address ≡ address) × (J.opaque ≡ opaque) }
    requires seat { IsSeatOf table.now seat.old }
    requires acts { stands by (Loaded address opaque) (harts_in seat.old) }
    requires by { by < harts_of table.now }
    ensures seat { IsSeatOf table.now seat.new }
    ensures told { HasNoted by Running (Entered by address opaque J.beside) (harts_in seat.old) (harts_in seat.new) }
    ensures open { IsOpenStart (harts_of table.now) (hart_view_of_seat seat.old) by address opaque }
{
    let bit = 16 + by.number();
    table
        .table
        .shared
        .fetch_or::<EnterStep<J>>(seat, 0, 1 << bit);
}
