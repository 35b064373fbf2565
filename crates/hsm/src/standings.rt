//! The state of a hart with what a pending start is for.

ghost use Rattle.std.specs.Prelude.{◌≡◌, ◌≢◌, ◌<◌, ℕ};
ghost use Rattle.hsm.specs.Rule.{stands};
ghost use Rattle.hsm.specs.States.{stopped};
ghost use Rattle.hsm.specs.Seating.{IsSeatOf, harts_of, hart_view_of_seat, harts_in};
ghost use Rattle.hsm.specs.declared.view.Stage.TheVariants.{Quiet};
ghost use Rattle.hsm.specs.Views.{state_in};
ghost use Rattle.hsm.specs.Copies.{IsSettled, IsShown, state_told};

use crate::peeks;
use crate::state::{State, state_in};
use crate::table::{HartSeat, HartTable};
use board_model::{Addr, HartId, Shape};
use std::marker::Brand;

/// The state of a hart, and of a START_PENDING one the address and the opaque value with which it is to begin.
#[derive(Clone, Copy, PartialEq, Eq, Drop)]
pub enum Standing {
    Stopped,
    StartPending(Addr, u64),
    Started,
    Suspended,
}

/// A quiet hart finds every other one STOPPED, by a look that the seat does not note: it stays as it was.
pub(crate) fn find_alone(table: &HartTable, seat: &mut HartSeat, hart: HartId)
    requires seat { IsSeatOf table.now seat.old }
    requires shown { IsShown (harts_of table.now) (hart_view_of_seat seat.old) }
    requires quiet { stands hart Quiet (harts_in seat.old) }
    ensures seat { IsSeatOf table.now seat.new }
    ensures same { hart_view_of_seat seat.new ≡ hart_view_of_seat seat.old }
    ensures alone { (t : ℕ) → t < harts_of table.now → t ≢ hart
        → state_in (hart_view_of_seat seat.old) t ≡ stopped }
{
    peeks::peek::<Brand>(table, seat);
}

/// A hart of which no start is pending, which every table has, by a look that the seat does not note: it stays as
/// it was.
pub(crate) fn settled_hart(table: &HartTable, seat: &mut HartSeat, shape: &Shape) -> HartId
    requires seat { IsSeatOf table.now seat.old }
    requires shown { IsShown (harts_of table.now) (hart_view_of_seat seat.old) }
    requires harts { harts_of table.now ≡ shape.now.harts }
    ensures seat { IsSeatOf table.now seat.new }
    ensures same { hart_view_of_seat seat.new ≡ hart_view_of_seat seat.old }
    ensures hart { result < harts_of table.now }
    ensures settled { IsSettled (state_in (hart_view_of_seat seat.old) result) }
{
    let found = peeks::peek::<Brand>(table, seat);
    for number in 0..u64::from(shape.harts()) {
        let hart = shape.hart(number).unwrap();
        match state_in(found, hart) {
            State::StartPending => {}
            _ => return hart,
        }
    }
    unreachable!()
}

/// The state in which the seat of all harts shows a hart, by looks that the seat does not note: it stays as it
/// was.
pub fn standing_of(table: &HartTable, seat: &mut HartSeat, hart: HartId) -> Standing
    requires seat { IsSeatOf table.now seat.old }
    requires shown { IsShown (harts_of table.now) (hart_view_of_seat seat.old) }
    requires hart { hart < harts_of table.now }
    ensures seat { IsSeatOf table.now seat.new }
    ensures same { hart_view_of_seat seat.new ≡ hart_view_of_seat seat.old }
    ensures standing { state_told result ≡ state_in (hart_view_of_seat seat.old) hart }
{
    let found = peeks::peek::<Brand>(table, seat);
    match state_in(found, hart) {
        State::Started => Standing::Started,
        State::Stopped => Standing::Stopped,
        State::Suspended => Standing::Suspended,
        State::StartPending => {
            let site = peeks::peek_address::<Brand>(table, seat, hart);
            let opaque = peeks::peek_opaque::<Brand>(table, seat, hart);
            let address = Addr::new(site).unwrap();
            Standing::StartPending(address, opaque)
        }
    }
}
