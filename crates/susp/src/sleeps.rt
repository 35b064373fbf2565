//! A board is suspended.

ghost use Rattle.std.specs.Prelude.{◌≡◌, ◌<◌, ℕ};
ghost use Rattle.hsm.specs.declared.view.Stage.TheVariants.{Running, Quiet};
ghost use Rattle.hsm.specs.Rule.{stands};
ghost use Rattle.hsm.specs.Calls.{KeepsOthers, ActsAlone};
ghost use Rattle.hsm.specs.Seating.{IsSeatOf, harts_of, hart_view_of_seat, harts_in};
ghost use Rattle.susp.specs.Checks.{IsChecked};
ghost use Rattle.susp.specs.Sleeps.{stage_after, FallsAsleep, FallsAsleepBy, Sleeps, SleepsAlone};

use crate::buses::{Bus, Doze};
use board_model::{Addr, HartId, Shape};
use crew::Crew;
use disk::Disk;
use hsm::{HartSeat, HartTable};
use sbi_abi::SbiError;
use store::{Resumption, Saving, Store};

/// The two ways to sleep.
#[derive(Clone, Copy, Drop)]
pub enum Sleep {
    /// The board dozes, until the wake-up device calls.
    ToRam,
    /// Its image is durable, and its life is over.
    ToDisk,
}

/// The arguments of a system suspend as the registers hold them: not checked yet.
#[derive(Clone, Copy, Drop)]
pub struct SuspendWords {
    /// The type of the sleep.
    pub kind: u32,
    /// The address at which the hart begins again.
    pub address: u64,
    /// The value that it then finds in a1.
    pub opaque: u64,
}

/// Suspend to disk (SBI specification 2.0, `sbi_system_suspend`: a platform-specific type).
const TO_DISK: u32 = 0x8000_0001;

/// How the board is to sleep, and where it is resumed. Checked in this order: -3 for a type that is neither;
/// -5 for an address that is not valid.
fn asked_sleep(shape: &Shape, kind: u32, address: u64) -> Result<(Sleep, Addr), SbiError>
    ensures { IsChecked shape.now kind address result }
{
    let sleep = match kind {
        0 => Sleep::ToRam,
        TO_DISK => Sleep::ToDisk,
        _ => return Err(SbiError::InvalidParam),
    };
    match shape.address(address) {
        Some(site) => Ok((sleep, site)),
        None => Err(SbiError::InvalidAddress),
    }
}

/// Has the board sleep for a hart that is quiet: to RAM it dozes, and nothing is asked of the store; to disk
/// -1 where the store refuses, and then the quiet ends.
fn fall_asleep<D: Disk + Drop, C: Crew>(
    saving: Saving<'_, C>,
    seat: HartSeat,
    table: &HartTable,
    bus: &mut Bus,
    store: &mut Store<D>,
    sleep: Sleep,
    at: Resumption,
) -> (HartSeat, Result<Sleep, SbiError>)
    requires seat { IsSeatOf table.now seat }
    requires quiet { stands at.hart Quiet (harts_in seat) }
    ensures seat { IsSeatOf table.entry.now result.0 }
    ensures stands { stands at.hart (stage_after result.1) (harts_in result.0) }
    ensures others { KeepsOthers at.hart (harts_in seat) (harts_in result.0) }
    ensures falls { FallsAsleep sleep at.hart at.address at.opaque (harts_in seat) bus.old store.old result.1
        (harts_in result.0) bus.new store.new }
    ensures alone { ActsAlone (harts_of table.entry.now) (hart_view_of_seat seat)
        (hart_view_of_seat result.0)
        (λ states. FallsAsleepBy sleep at.hart at.address at.opaque bus.old store.old result.1 bus.new store.new)
        (λ states. states) }
{
    let by = at.hart;
    match sleep {
        Sleep::ToRam => {
            bus.doze = Some(Doze { at, woken: false });
            (seat, Ok(sleep))
        }
        Sleep::ToDisk => match store.suspend(saving, &bus.ram, at) {
            Ok(_) => (seat, Ok(sleep)),
            Err(_) => (hsm::unquiet(table, seat, by), Err(SbiError::Failed)),
        },
    }
}

/// Has the board sleep for a hart of it: `sbi_system_suspend` by these words. The hart is STARTED and not
/// quiet, and is one of the seat.
///
/// Its arguments are checked first, -3 and -5; then one look at the hart table, -4 where another hart is not
/// STOPPED. To RAM (type 0) the board then dozes: neither the store is asked nor the memory changed. To disk
/// the store is asked, -1 where it refuses, and the quiet of the hart ends; the board sleeps only once its
/// suspension was acknowledged: the image has the memory of the bus that was lent, and the hart, address and
/// opaque value. The seat is given back; while it is quiet no other hart leaves STOPPED.
pub fn suspend<D: Disk + Drop, C: Crew>(
    saving: Saving<'_, C>,
    seat: HartSeat,
    by: HartId,
    table: &HartTable,
    bus: &mut Bus,
    store: &mut Store<D>,
    asked: SuspendWords,
) -> (HartSeat, Result<Sleep, SbiError>)
    requires seat { IsSeatOf table.now seat }
    requires acts { stands by Running (harts_in seat) }
    requires by { by < harts_of table.now }
    ensures seat { IsSeatOf table.entry.now result.0 }
    ensures stands { stands by (stage_after result.1) (harts_in result.0) }
    ensures others { KeepsOthers by (harts_in seat) (harts_in result.0) }
    ensures sleeps { Sleeps (harts_of table.entry.now) by asked.kind asked.address asked.opaque (harts_in seat)
        bus.old store.old result.1 (harts_in result.0) bus.new store.new }
    ensures alone { ActsAlone (harts_of table.entry.now) (hart_view_of_seat seat)
        (hart_view_of_seat result.0)
        (λ states. SleepsAlone (harts_of table.entry.now) by asked.kind asked.address asked.opaque states bus.old
        store.old result.1 bus.new store.new) (λ states. states) }
{
    let (sleep, address) = match asked_sleep(&store.shape(), asked.kind, asked.address) {
        Ok(checked) => checked,
        Err(error) => return (seat, Err(error)),
    };
    let (seat, quiet) = hsm::quiet(table, seat, by);
    if !quiet {
        return (seat, Err(SbiError::Denied));
    }
    let at = Resumption {
        hart: by,
        address,
        opaque: asked.opaque,
    };
    fall_asleep(saving, seat, table, bus, store, sleep, at)
}
