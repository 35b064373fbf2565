//! Looks that a seat does not note, so that it stays as it was. To a seat of all harts they tell the state of
//! each hart, and what a START_PENDING one is to begin with.

ghost use Rattle.std.specs.Prelude.{◌≡◌, ◌<◌};
ghost use Rattle.hsm.specs.States.{Tells};
ghost use Rattle.hsm.specs.Outcomes.{HasSettled, IsAloneIn, IsStartAddress, IsStartOpaque, Peeks, PeeksAddress, PeeksOpaque};
ghost use Rattle.hsm.specs.Seating.{IsSeatOf, harts_of, hart_view_of_seat, harts_in};

use crate::table::{Acting, HartSeat, HartTable};
use crate::view::HartSeatView;
use atomic_table::Play;
use board_model::HartId;
use std::marker::PhantomData;

struct PeekStep<J> {
    of: PhantomData<J>,
}

impl<J: Acting> Play<(), HartSeatView> for PeekStep<J> {
    ghost then = { Peeks J.harts };
}

struct PeekAddressStep<J> {
    of: PhantomData<J>,
}

impl<J: Acting> Play<(), HartSeatView> for PeekAddressStep<J> {
    ghost then = { PeeksAddress J.harts J.target };
}

struct PeekOpaqueStep<J> {
    of: PhantomData<J>,
}

impl<J: Acting> Play<(), HartSeatView> for PeekOpaqueStep<J> {
    ghost then = { PeeksOpaque J.harts J.target };
}

/// The first word. By it a quiet hart of the seat finds every other one STOPPED, and some hart is not
/// START_PENDING: the one that made the last start ran, and no hart can start itself.
pub fn peek<J: Acting>(table: &HartTable, seat: &mut HartSeat) -> u64
    requires named { J.harts ≡ harts_of table.now }
    requires seat { IsSeatOf table.now seat.old }
    ensures seat { IsSeatOf table.now seat.new }
    ensures same { hart_view_of_seat seat.new ≡ hart_view_of_seat seat.old }
    ensures tells { Tells (harts_of table.now) (hart_view_of_seat seat.old) result }
    ensures alone { IsAloneIn (harts_of table.now) (harts_in seat.old) result }
    ensures settled { HasSettled (harts_of table.now) result }
{
    table.table.shared.load::<PeekStep<J>>(seat, 0)
}

/// The address at which a START_PENDING hart is to begin. Of any other hart the answer says nothing.
pub fn peek_address<J: Acting>(table: &HartTable, seat: &mut HartSeat, hart: HartId) -> u64
    requires named { (J.harts ≡ harts_of table.now) × (J.target ≡ hart) }
    requires seat { IsSeatOf table.now seat.old }
    requires hart { hart < harts_of table.now }
    ensures seat { IsSeatOf table.now seat.new }
    ensures same { hart_view_of_seat seat.new ≡ hart_view_of_seat seat.old }
    ensures start { IsStartAddress (harts_of table.now) (hart_view_of_seat seat.old) hart result }
{
    let word = 1 + 2 * hart.index();
    table.table.shared.load::<PeekAddressStep<J>>(seat, word)
}

/// The opaque value with which a START_PENDING hart is to begin. Of any other hart the answer says nothing.
pub fn peek_opaque<J: Acting>(table: &HartTable, seat: &mut HartSeat, hart: HartId) -> u64
    requires named { (J.harts ≡ harts_of table.now) × (J.target ≡ hart) }
    requires seat { IsSeatOf table.now seat.old }
    requires hart { hart < harts_of table.now }
    ensures seat { IsSeatOf table.now seat.new }
    ensures same { hart_view_of_seat seat.new ≡ hart_view_of_seat seat.old }
    ensures start { IsStartOpaque (harts_of table.now) (hart_view_of_seat seat.old) hart result }
{
    let word = 2 + 2 * hart.index();
    table.table.shared.load::<PeekOpaqueStep<J>>(seat, word)
}
