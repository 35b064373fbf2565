//! The steps by which a hart starts another.

ghost use Rattle.std.specs.Prelude.{◌≡◌, ◌+◌, ◌*◌, ◌<◌};
ghost use Rattle.hsm.specs.Rule.{IsSite, stands};
ghost use Rattle.hsm.specs.States.{Tells};
ghost use Rattle.hsm.specs.Outcomes.{after_claim, Claims, PutsAddress, PutsOpaque, Arms};
ghost use Rattle.hsm.specs.Seating.{IsSeatOf, harts_of, hart_view_of_seat, harts_in};
ghost use Rattle.hsm.specs.declared.view.Stage.TheVariants.{Running, Claiming, Half, Stored};
ghost use Rattle.hsm.specs.declared.view.Action.TheVariants.{Claimed, Wrote, Armed};
ghost use Rattle.tallies.specs.Notes.{HasNoted};

use crate::table::{Acting, HartSeat, HartTable};
use crate::view::HartSeatView;
use atomic_table::Play;
use board_model::HartId;
use std::marker::PhantomData;

struct ClaimStep<J> {
    of: PhantomData<J>,
}

impl<J: Acting> Play<(), HartSeatView> for ClaimStep<J> {
    ghost then = { Claims J.harts J.by J.target J.address J.opaque };
}

struct PutAddressStep<J> {
    of: PhantomData<J>,
}

impl<J: Acting> Play<(), HartSeatView> for PutAddressStep<J> {
    ghost then = { PutsAddress J.by J.target J.address J.opaque };
}

struct PutOpaqueStep<J> {
    of: PhantomData<J>,
}

impl<J: Acting> Play<(), HartSeatView> for PutOpaqueStep<J> {
    ghost then = { PutsOpaque J.by J.target J.address J.opaque };
}

struct ArmStep<J> {
    of: PhantomData<J>,
}

impl<J: Acting> Play<(), HartSeatView> for ArmStep<J> {
    ghost then = { Arms J.by J.target };
}

/// Claims the target for a start, and answers the first word as the step found it. It was unclaimed where its
/// bit of that word is clear.
pub fn claim<J: Acting>(
    table: &HartTable,
    seat: &mut HartSeat,
    by: HartId,
    target: HartId,
    address: u64,
    opaque: u64,
) -> u64
    requires named { (J.harts ≡ harts_of table.now) × (J.by ≡ by) × (J.target ≡ target) × (J.address ≡ address)
        × (J.opaque ≡ opaque) }
    requires seat { IsSeatOf table.now seat.old }
    requires acts { stands by Running (harts_in seat.old) }
    requires target { target < harts_of table.now }
    requires site { IsSite address }
    ensures seat { IsSeatOf table.now seat.new }
    ensures told { HasNoted by (after_claim target address opaque result) (Claimed target address opaque result)
        (harts_in seat.old) (harts_in seat.new) }
    ensures tells { Tells (harts_of table.now) (hart_view_of_seat seat.old) result }
{
    let bit = target.number();
    table
        .table
        .shared
        .fetch_or::<ClaimStep<J>>(seat, 0, 1 << bit)
}

/// Stores the address of the claim in the target's first argument word.
pub fn put_address<J: Acting>(
    table: &HartTable,
    seat: &mut HartSeat,
    by: HartId,
    target: HartId,
    address: u64,
    opaque: u64,
)
    requires named { (J.by ≡ by) × (J.target ≡ target) × (J.address ≡ address) × (J.opaque ≡ opaque) }
    requires seat { IsSeatOf table.now seat.old }
    requires acts { stands by (Claiming target address opaque) (harts_in seat.old) }
    requires target { target < harts_of table.now }
    ensures seat { IsSeatOf table.now seat.new }
    ensures told { HasNoted by (Half target address opaque) (Wrote (1 + 2 * target) address) (harts_in seat.old)
        (harts_in seat.new) }
{
    let word = 1 + 2 * target.index();
    table
        .table
        .shared
        .store::<PutAddressStep<J>>(seat, word, address)
}

/// Stores the opaque value of the claim in the target's second argument word.
pub fn put_opaque<J: Acting>(
    table: &HartTable,
    seat: &mut HartSeat,
    by: HartId,
    target: HartId,
    address: u64,
    opaque: u64,
)
    requires named { (J.by ≡ by) × (J.target ≡ target) × (J.address ≡ address) × (J.opaque ≡ opaque) }
    requires seat { IsSeatOf table.now seat.old }
    requires acts { stands by (Half target address opaque) (harts_in seat.old) }
    requires target { target < harts_of table.now }
    ensures seat { IsSeatOf table.now seat.new }
    ensures told { HasNoted by (Stored target address opaque) (Wrote (2 + 2 * target) opaque) (harts_in seat.old)
        (harts_in seat.new) }
{
    let word = 2 + 2 * target.index();
    table
        .table
        .shared
        .store::<PutOpaqueStep<J>>(seat, word, opaque)
}

/// Arms the target, whose argument words are stored. From now on it may enter.
pub fn arm<J: Acting>(
    table: &HartTable,
    seat: &mut HartSeat,
    by: HartId,
    target: HartId,
    address: u64,
    opaque: u64,
)
    requires named { (J.by ≡ by) × (J.target ≡ target) }
    requires seat { IsSeatOf table.now seat.old }
    requires acts { stands by (Stored target address opaque) (harts_in seat.old) }
    requires target { target < harts_of table.now }
    ensures seat { IsSeatOf table.now seat.new }
    ensures told { HasNoted by Running (Armed target) (harts_in seat.old) (harts_in seat.new) }
{
    let bit = 8 + target.number();
    table.table.shared.fetch_or::<ArmStep<J>>(seat, 0, 1 << bit);
}
