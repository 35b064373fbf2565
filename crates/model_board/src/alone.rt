//! Whether the next step of a hart keeps a map, and steps that are local by it.

ghost use Rattle.std.specs.Prelude.{◌≡◌, ◌≢◌, ◌⊎◌, ℕ, ◌<◌, true, false, IsTrue, IsOk, Some, Ok};
ghost use Rattle.board_model.specs.HartSets.{Has};
ghost use Rattle.hart.specs.Means.{Steps};
ghost use Rattle.sbi_abi.specs.Calls.{call_of};
ghost use Rattle.sbi_calls.specs.Requests.{request_of};
ghost use Rattle.model_board.specs.Maps.{WritesAlone, ReadsAlone, HearsNone, StepKeeps, StepsAlone};
ghost use Rattle.model_board.specs.Masks.{map_of, MaySend, IsAloneBy};

use crate::footprints::{Footprint, footprint_of};
use crate::touches::{Break, TouchMap};
use board_model::{HartId, HartSet, MAX_HARTS, Shape};
use hart::{Hart, Outcome};
use ram::Ram;
use sbi_abi::Call;
use sbi_calls::{Request, request_of};

/// A word that is read, where there is one, may be.
fn check_read(map: &TouchMap, hart: HartId, word: Option<u64>) -> Result<(), Break>
    ensures { IsOk result → (k : ℕ) → word ≡ Some k → IsTrue ((map_of map.now).reads hart k) }
{
    match word {
        Some(word) => {
            if map.may_read(hart, word) {
                Ok(())
            } else {
                Err(Break::Reads(word))
            }
        }
        None => Ok(()),
    }
}

/// A word that is written, where there is one, may be.
fn check_write(map: &TouchMap, hart: HartId, word: Option<u64>) -> Result<(), Break>
    ensures { IsOk result → (k : ℕ) → word ≡ Some k → IsTrue ((map_of map.now).writes hart k) }
{
    match word {
        Some(word) => {
            if map.may_write(hart, word) {
                Ok(())
            } else {
                Err(Break::Writes(word))
            }
        }
        None => Ok(()),
    }
}

/// Whether the harts of a set are of the eight that there may be. They always are, which no contract of the set says.
#[tactic(auto, using(crate::proofs::Masked::of_eight))]
fn is_of_eight(targets: HartSet) -> bool
    ensures { result ≡ true → (t : ℕ) → Has t targets → t < 8 }
{
    targets.below(8) == targets
}

/// The hart may send to each of those.
fn check_targets(map: &TouchMap, hart: HartId, targets: HartSet) -> Result<(), Break>
    ensures { IsOk result → (t : ℕ) → Has t targets → IsTrue ((map_of map.now).sends hart t) }
{
    for number in 0..MAX_HARTS {
        let target = HartId::new(number).unwrap();
        if targets.contains(target) && !map.may_send(hart, target) {
            return Err(Break::Sends(target));
        }
    }
    if is_of_eight(targets) {
        Ok(())
    } else {
        Err(Break::Sends(hart))
    }
}

/// What a request sends, it may.
fn check_request(map: &TouchMap, hart: HartId, request: Request) -> Result<(), Break>
    ensures { IsOk result → MaySend (map_of map.now) hart (Ok request) }
{
    match request {
        Request::Send(targets) => check_targets(map, hart, targets),
        Request::Value(_) => Ok(()),
        Request::Start(_, _, _) => Ok(()),
        Request::Stop => Ok(()),
        Request::Status(_) => Ok(()),
        Request::Suspend => Ok(()),
        Request::SuspendAfresh(_, _) => Ok(()),
        Request::Command => Ok(()),
    }
}

/// What the call at which a hart stands sends, it may.
fn check_call(hart: &Hart, shape: &Shape, map: &TouchMap) -> Result<(), Break>
    ensures { IsOk result → MaySend (map_of map.now) hart.now.id (request_of shape.now (call_of hart.now)) }
{
    match request_of(Call::of(hart), shape) {
        Ok(request) => check_request(map, hart.id(), request),
        Err(_) => Ok(()),
    }
}

/// Whether what the next step of a hart touches, it may by the map.
pub fn step_keeps(
    hart: &Hart,
    ram: &mut Ram,
    shape: &Shape,
    pending: bool,
    map: &TouchMap,
) -> Result<(), Break>
    ensures same { ram.new ≡ ram.old }
    ensures keeps { IsOk result → StepKeeps (map_of map.now) hart.now.id shape.now pending hart.now ram.old }
{
    let footprint = footprint_of(hart, ram, pending);
    check_read(map, hart.id(), footprint.fetched)?;
    check_read(map, hart.id(), footprint.loaded)?;
    check_write(map, hart.id(), footprint.stored)?;
    if footprint.calls {
        check_call(hart, shape, map)?;
    }
    Ok(())
}

/// Whether a word that is read, where there is one, no other hart may write.
fn is_read_alone(map: &TouchMap, hart: HartId, word: Option<u64>) -> bool
    ensures { result ≡ true → (k : ℕ) → word ≡ Some k → IsTrue ((map_of map.now).reads hart k) × WritesAlone (map_of map.now) hart k }
{
    match word {
        Some(word) => map.may_read(hart, word) && map.writes_alone(hart, word),
        None => true,
    }
}

/// Whether a word that is written, where there is one, no other hart may touch.
fn is_written_alone(map: &TouchMap, hart: HartId, word: Option<u64>) -> bool
    ensures { result ≡ true → (k : ℕ) → word ≡ Some k
        → IsTrue ((map_of map.now).writes hart k) × ReadsAlone (map_of map.now) hart k × WritesAlone (map_of map.now) hart k }
{
    match word {
        Some(word) => {
            map.may_write(hart, word) && map.reads_alone(hart, word) && map.writes_alone(hart, word)
        }
        None => true,
    }
}

/// Whether no other hart changes what a step finds pending: it is taken as an interrupt, or not asked for, or none may send.
fn is_sure(footprint: &Footprint, map: &TouchMap, hart: HartId) -> bool
    ensures { result ≡ true → (footprint.now.interrupts ≡ true)
        ⊎ ((footprint.now.pending ≡ false) ⊎ HearsNone (map_of map.now) hart) }
{
    footprint.interrupts || !footprint.pending || map.hears_none(hart)
}

/// Whether a step that touches this asks nothing of the firmware, and no other hart can change what it does.
fn is_local(footprint: &Footprint, map: &TouchMap, hart: HartId) -> bool
    ensures { result ≡ true → IsAloneBy (map_of map.now) hart footprint.now }
{
    if !is_read_alone(map, hart, footprint.fetched) {
        return false;
    }
    if !is_read_alone(map, hart, footprint.loaded) {
        return false;
    }
    if !is_written_alone(map, hart, footprint.stored) {
        return false;
    }
    is_sure(footprint, map, hart)
}

/// Whether a step that was made from one pc to another asks nothing, and the hart stands at another instruction after it.
fn goes_on(outcome: Outcome, from: u64, to: u64) -> bool
    ensures goes { result ≡ true → (outcome ≡ Outcome.Next) × (to ≢ from) }
    ensures stays { result ≡ false → outcome ≡ Outcome.Next → to ≡ from }
{
    match outcome {
        Outcome::Next => to != from,
        Outcome::Ecall => false,
        Outcome::TakePending => false,
    }
}

/// Makes a step that asks nothing of the firmware and after which the hart stands at another instruction. Whether it did; if
/// not, the hart is put back, and the memory is as it was.
fn step_on(hart: &mut Hart, ram: &mut Ram, pending: bool) -> bool
    ensures steps { result ≡ true → Steps pending hart.old ram.old hart.new ram.new Outcome.Next }
    ensures moves { result ≡ true → hart.new.pc ≢ hart.old.pc }
    ensures stays { result ≡ false → (hart.new ≡ hart.old) × (ram.new ≡ ram.old) }
{
    let before = hart.copy();
    let outcome = hart.step(ram, pending);
    let moved = goes_on(outcome, before.pc(), hart.pc());
    if !moved {
        *hart = before;
    }
    moved
}

/// Makes the next step of a hart where it is local by the map and changes the pc. Whether it did; if not, nothing changes.
pub fn step_alone(hart: &mut Hart, ram: &mut Ram, pending: bool, map: &TouchMap) -> bool
    ensures alone { result ≡ true → StepsAlone (map_of map.now) hart.old.id pending hart.old ram.old hart.new ram.new }
    ensures moves { result ≡ true → hart.new.pc ≢ hart.old.pc }
    ensures stays { result ≡ false → (hart.new ≡ hart.old) × (ram.new ≡ ram.old) }
{
    let footprint = footprint_of(hart, ram, pending);
    if !is_local(&footprint, map, hart.id()) {
        return false;
    }
    step_on(hart, ram, pending)
}
