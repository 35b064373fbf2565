//! A durable call of the model board, where the store acknowledges what it is asked, or refuses it.
//! A law runs nothing, and tells the prover a fact: `machine::machine_determines_turn`.

ghost use Rattle.std.specs.Prelude.{◌≡◌, ◌<◌, true, false};
ghost use Rattle.sbi_abi.specs.Calls.{call_of};
ghost use Rattle.sbi.specs.Resets.{reset_of};
ghost use Rattle.susp.specs.Checks.{IsChecked};
ghost use Rattle.machine.specs.Machine.{hart_at};
ghost use Rattle.model_board.specs.Events.{Asks, TurnsBy};
ghost use Rattle.model_board.specs.Held.{HeldBy, AsksStore, Sleeps, SleptBy, reset_by, slept_by, refused};
ghost use Rattle.model_board.specs.Maps.{Map, KeepsMap, SameOutside};
ghost use Rattle.model_board.specs.Plain.{Settles, HasSleeper};

use crate::plain::PlainMachine;
use board_model::{Addr, HartId, Reason, Shape};
use sbi::{ResetType, reset_of};
use sbi_abi::{Call, SbiError};
use sbi_calls::Turned;
use store::Resumption;
use susp::Sleep;

/// Suspend to disk (SBI specification 2.0, `sbi_system_suspend`: a platform-specific type).
const TO_DISK: u32 = 0x8000_0001;

/// What a turn makes of the life in which it is made.
#[derive(Clone, Copy, Drop)]
pub enum Settled {
    /// The life goes on.
    GoesOn,
    /// It ended by a reset, for that reason.
    Resets(ResetType, Reason),
    /// The board sleeps, and an image stands.
    Sleeps(Resumption),
}

/// The hart finds an error, and goes on.
fn refuse(machine: &mut PlainMachine, hart: HartId, error: SbiError) -> Settled
    requires { hart < machine.old.size.harts }
    ensures settles { Settles (λ l c. c ≡ refused error hart l) machine.old result machine.new }
    ensures size { machine.new.size ≡ machine.old.size }
    ensures memory { machine.new.memory ≡ machine.old.memory }
    ensures sleeper { HasSleeper machine.old.size.harts result }
{
    machine.refuse(hart, error);
    Settled::GoesOn
}

fn reset(machine: &mut PlainMachine, hart: HartId, granted: bool, kind: u32, reason: u32) -> Settled
    requires { hart < machine.old.size.harts }
    ensures settles { Settles (λ l c. c ≡ reset_by granted hart l (reset_of kind reason)) machine.old result machine.new }
    ensures size { machine.new.size ≡ machine.old.size }
    ensures memory { machine.new.memory ≡ machine.old.memory }
    ensures sleeper { HasSleeper machine.old.size.harts result }
{
    match reset_of(kind, reason) {
        Err(error) => refuse(machine, hart, error),
        Ok((reset, why)) => {
            if granted {
                Settled::Resets(reset, why)
            } else {
                refuse(machine, hart, SbiError::Failed)
            }
        }
    }
}

/// How the board is to sleep, and where it is resumed. Checked in this order: -3 for a type that is neither;
/// -5 for an address that is not valid.
fn asked_sleep(shape: &Shape, kind: u32, address: u64) -> Result<(Sleep, Addr), SbiError>
    ensures { IsChecked shape.now kind address result }
{
    let sleep = match kind {
        0 => Sleep::ToRam,
        TO_DISK => Sleep::ToDisk,
        _ => return Err(SbiError::InvalidParam),
    };
    match shape.address(address) {
        Some(site) => Ok((sleep, site)),
        None => Err(SbiError::InvalidAddress),
    }
}

/// The board sleeps for a hart, where every other one is STOPPED.
fn fall_asleep(machine: &mut PlainMachine, granted: bool, sleep: Sleep, at: Resumption) -> Settled
    requires { at.hart < machine.old.size.harts }
    ensures settles { Settles (λ l c. c ≡ slept_by granted sleep at.address at.opaque at.hart l)
        machine.old result machine.new }
    ensures size { machine.new.size ≡ machine.old.size }
    ensures memory { machine.new.memory ≡ machine.old.memory }
    ensures sleeper { HasSleeper machine.old.size.harts result }
{
    match sleep {
        Sleep::ToRam => {
            machine.fall_into_doze(at);
            Settled::GoesOn
        }
        Sleep::ToDisk => {
            if granted {
                Settled::Sleeps(at)
            } else {
                refuse(machine, at.hart, SbiError::Failed)
            }
        }
    }
}

/// A suspend whose arguments were checked.
fn sleep(
    machine: &mut PlainMachine,
    hart: HartId,
    granted: bool,
    asked: Result<(Sleep, Addr), SbiError>,
    opaque: u64,
) -> Settled
    requires { hart < machine.old.size.harts }
    ensures settles { Settles (λ l c. SleptBy granted hart l asked opaque c) machine.old result machine.new }
    ensures size { machine.new.size ≡ machine.old.size }
    ensures memory { machine.new.memory ≡ machine.old.memory }
    ensures sleeper { HasSleeper machine.old.size.harts result }
{
    match asked {
        Err(error) => refuse(machine, hart, error),
        Ok((kind, address)) => {
            if machine.is_alone(hart) {
                let at = Resumption {
                    hart,
                    address,
                    opaque,
                };
                fall_asleep(machine, granted, kind, at)
            } else {
                refuse(machine, hart, SbiError::Denied)
            }
        }
    }
}

/// The durable call at which a hart stands.
fn hold(machine: &mut PlainMachine, hart: HartId, granted: bool) -> Settled
    requires { hart < machine.old.size.harts }
    ensures settles { Settles (λ l c. HeldBy granted hart l (call_of (hart_at machine.old hart)) c)
        machine.old result machine.new }
    ensures size { machine.new.size ≡ machine.old.size }
    ensures memory { machine.new.memory ≡ machine.old.memory }
    ensures sleeper { HasSleeper machine.old.size.harts result }
{
    match Call::of(machine.hart(hart)) {
        Call::SystemReset { kind, reason } => reset(machine, hart, granted, kind, reason),
        Call::SystemSuspend {
            kind,
            address,
            opaque,
        } => {
            let asked = asked_sleep(machine.shape(), kind, address);
            sleep(machine, hart, granted, asked, opaque)
        }
        _ => refuse(machine, hart, SbiError::NotSupported),
    }
}

/// A turn of a hart of a board that is on, where the store grants what it is asked or does not.
pub fn turn_by(machine: &mut PlainMachine, hart: HartId, granted: bool) -> Settled
    requires { hart < machine.old.size.harts }
    ensures settles { Settles (λ l c. TurnsBy granted hart l c) machine.old result machine.new }
    ensures size { machine.new.size ≡ machine.old.size }
    ensures outside { (map : Map) → KeepsMap map hart machine.old
        → SameOutside map machine.old.memory machine.new.memory }
    ensures sleeper { HasSleeper machine.old.size.harts result }
{
    match machine.turn(hart) {
        Turned::Made(_) => Settled::GoesOn,
        Turned::Durable => hold(machine, hart, granted),
    }
}

/// Whether the call at which a hart stands asks the store.
fn asks(machine: &PlainMachine, hart: HartId) -> bool
    requires { hart < machine.now.size.harts }
    ensures asks { result ≡ true → AsksStore hart machine.now (call_of (hart_at machine.now hart)) }
    ensures none { result ≡ false → AsksStore hart machine.now (call_of (hart_at machine.now hart)) → ⊥ }
{
    match Call::of(machine.hart(hart)) {
        Call::SystemReset { kind, reason } => reset_of(kind, reason).is_ok(),
        Call::SystemSuspend {
            kind,
            address,
            opaque: _,
        } => {
            kind == TO_DISK && machine.shape().address(address).is_some() && machine.is_alone(hart)
        }
        _ => false,
    }
}

/// A turn of a hart of a board that is on, whose command the store refuses where it asks one, and is down or not from then
/// on. Whether it asked one, and whether the store is down.
pub fn turn_refused(machine: &mut PlainMachine, hart: HartId, down: bool) -> (Settled, bool, bool)
    requires { hart < machine.old.size.harts }
    ensures asked { result.1 ≡ true → Asks hart machine.old
        × Settles (λ l c. TurnsBy false hart l c) machine.old result.0 machine.new }
    ensures none { result.1 ≡ false → (Asks hart machine.old → ⊥)
        × Settles (λ l c. TurnsBy true hart l c) machine.old result.0 machine.new }
    ensures size { machine.new.size ≡ machine.old.size }
    ensures outside { (map : Map) → KeepsMap map hart machine.old
        → SameOutside map machine.old.memory machine.new.memory }
    ensures sleeper { HasSleeper machine.old.size.harts result.0 }
    ensures fell { result.1 ≡ true → result.2 ≡ down }
    ensures up { result.1 ≡ false → result.2 ≡ false }
{
    machine::machine_determines_turn();
    match machine.turn(hart) {
        Turned::Made(_) => (Settled::GoesOn, false, false),
        Turned::Durable => {
            let asked = asks(machine, hart);
            (hold(machine, hart, !asked), asked, asked && down)
        }
    }
}
