//! From an opened store to a board that stands at its first instruction, or goes on with its image.

ghost use Rattle.std.specs.Prelude.{◌≡◌, ◌≢◌, ◌⊎◌, ◌≤◌, ◌<◌, ◌*◌, ℕ, length, OnOk, IfOk, IfErr, MatchResult, None};
ghost use Rattle.disk.specs.Facts.{counted};
ghost use Rattle.board_model.specs.Durable.{DurableState};
ghost use Rattle.board_model.specs.Shapes.{ram_bytes_of};
ghost use Rattle.board_model.specs.Views.{durable_of};
ghost use Rattle.board_model.specs.declared.boot_mode.BootMode.{BootMode};
ghost use Rattle.board_model.specs.declared.refusal.Refusal.{Refusal};
ghost use Rattle.store.specs.Views.{disk_of, size_of_store, found_state, now_state, view_of};
ghost use Rattle.machine.specs.Machine.{resting};
ghost use Rattle.board.specs.Begins.{HasItsHart, boot_hart, IsBegun, IsLateRefusal, Issues, RefusesBoot};
ghost use Rattle.board.specs.Boots.{boot_refusal, PayloadsFit, booted};
ghost use Rattle.board.specs.Issues.{TakesCommands, AreIssued, AreStopped, drops_by};
ghost use Rattle.board.specs.Moments.{attempts_of};
ghost use Rattle.board.specs.Readies.{IsOpen, IsIssued, IsUnissued, boot_calls, UnbootedCalls};
ghost use Rattle.board.specs.Unbooted.{IsStartRefusal, RefusesMode};

use crate::payloads::Payloads;
use board_model::{BootMode, Command, Durable, HartId, Refusal};
use disk::Disk;
use machine::BegunMachine;
use std::alloc::Global;
use store::Store;

/// The refusal of a mode that the state does not allow.
fn mode_refusal(mode: BootMode, found: &Durable) -> Option<Refusal>
    ensures { (s : DurableState) → found.now ≡ durable_of s → RefusesMode (boot_refusal s mode) result }
{
    let stands = found.image.is_some();
    match mode {
        BootMode::Keep => None,
        BootMode::Fresh => if stands {
            Some(Refusal::ImageThere)
        } else {
            None
        },
        BootMode::Discard | BootMode::Resume => if stands { None } else { Some(Refusal::NoImage) },
    }
}

/// The hart that begins: hart 0, or on a resume the image's.
fn first_hart<D: Disk + Drop>(store: &Store<D>, mode: BootMode) -> HartId
    requires { HasItsHart (size_of_store store.now) (found_state store.now) }
    ensures first { result ≡ boot_hart mode (found_state store.now) }
    ensures range { result < (size_of_store store.now).harts }
{
    let zero = store.shape().hart(0).unwrap();
    match mode {
        BootMode::Fresh | BootMode::Keep | BootMode::Discard => zero,
        BootMode::Resume => match store.found().image {
            Some(head) => head.hart,
            None => zero,
        },
    }
}

/// The board of an open store before a boot by the mode. Refused 3 where a payload does not fit, else 11
/// because memory ran out.
fn resting<D: Disk + Drop>(
    alloc: Global,
    store: &Store<D>,
    mode: BootMode,
    payloads: &Payloads,
) -> Result<BegunMachine, Refusal>
    requires { HasItsHart (size_of_store store.now) (found_state store.now) }
    ensures fits { OnOk result (PayloadsFit (size_of_store store.now) payloads.now) }
    ensures least { 4096 ≤ ram_bytes_of (size_of_store store.now) }
    ensures machine { IfOk result (λ m. m
        ≡ resting (size_of_store store.now) (boot_hart mode (found_state store.now))) }
    ensures refused { IfErr result (λ e. IsStartRefusal (size_of_store store.now) payloads.now e) }
{
    let shape = store.shape();
    if !payloads.fit(&shape) {
        return Err(Refusal::BadShape);
    }
    BegunMachine::new(alloc, &shape, first_hart(store, mode))
}

/// Boots the slot of the state now, on a board that was just made.
fn boot_slot<D: Disk + Drop>(machine: &mut BegunMachine, store: &Store<D>, payloads: &Payloads)
    requires resting { machine.old ≡ resting (size_of_store store.now) 0 }
    requires fits { PayloadsFit (size_of_store store.now) payloads.now }
    ensures { machine.new ≡ booted payloads.now (now_state store.now) (size_of_store store.now) }
{
    let now = store.now();
    machine.boot(&store.shape(), payloads.get(now.slot), now.reason);
}

/// Drops the image that stands, where the mode asks for it.
fn drop_image<D: Disk + Drop>(store: &mut Store<D>, mode: BootMode) -> Result<(), Refusal>
    requires opened { IsOpen (view_of store.old) }
    requires allowed { boot_refusal (found_state store.old) mode ≡ None }
    ensures issued { OnOk result (AreIssued (drops_by mode) (view_of store.old) (view_of store.new)) }
    ensures stopped { IfErr result (λ e. AreStopped (drops_by mode) (view_of store.old) e (view_of store.new)) }
    ensures calls { OnOk result
        ((disk_of store.new).calls ≡ counted (disk_of store.old).calls (4 * length (drops_by mode))) }
{
    match mode {
        BootMode::Discard => {
            store.apply(Command::Discard)?;
        }
        BootMode::Fresh | BootMode::Keep | BootMode::Resume => {}
    }
    Ok(())
}

/// Counts a boot of the slot where a trial of it stands.
fn count_boot<D: Disk + Drop>(store: &mut Store<D>) -> Result<(), Refusal>
    requires { TakesCommands (view_of store.old) }
    ensures issued { OnOk result
        (AreIssued (attempts_of (now_state store.old).trial) (view_of store.old) (view_of store.new)) }
    ensures stopped { IfErr result
        (λ e. AreStopped (attempts_of (now_state store.old).trial) (view_of store.old) e (view_of store.new)) }
    ensures calls { OnOk result ((disk_of store.new).calls
        ≡ counted (disk_of store.old).calls (4 * length (attempts_of (now_state store.old).trial))) }
{
    if store.now().trial.is_some() {
        store.apply(Command::Attempt)?;
    }
    Ok(())
}

/// Issues the commands of a mode that boots a slot: an image that it discards is dropped, and then the boot is
/// counted where a trial stands.
fn issue_boot<D: Disk + Drop>(store: &mut Store<D>, mode: BootMode) -> Result<(), Refusal>
    requires opened { IsOpen (view_of store.old) }
    requires allowed { boot_refusal (found_state store.old) mode ≡ None }
    requires boots { mode ≢ BootMode.Resume }
    ensures issued { OnOk result (IsIssued mode (view_of store.old) (view_of store.new)) }
    ensures refused { IfErr result (λ e. ((e ≡ Refusal.Device) ⊎ (e ≡ Refusal.Down))
        × Issues mode (found_state store.old)) }
    ensures unissued { IfErr result (λ e. IsUnissued mode (view_of store.old) e (view_of store.new)) }
    ensures calls { OnOk result ((disk_of store.new).calls
        ≡ counted (disk_of store.old).calls (boot_calls mode (size_of_store store.old) (found_state store.old))) }
{
    drop_image(store, mode)?;
    count_boot(store)
}

/// Begins what the mode asks for, on a board that was just made: boots the slot that stands once the mode's
/// commands were acknowledged; or goes on with the image.
fn begin<D: Disk + Drop>(
    machine: &mut BegunMachine,
    store: &mut Store<D>,
    mode: BootMode,
    payloads: &Payloads,
) -> Result<(), Refusal>
    requires opened { IsOpen (view_of store.old) }
    requires allowed { boot_refusal (found_state store.old) mode ≡ None }
    requires resting { machine.old ≡ resting (size_of_store store.old) (boot_hart mode (found_state store.old)) }
    requires least { 4096 ≤ ram_bytes_of (size_of_store store.old) }
    requires fits { PayloadsFit (size_of_store store.old) payloads.now }
    ensures issued { OnOk result (IsIssued mode (view_of store.old) (view_of store.new)) }
    ensures begun { OnOk result
        (IsBegun mode (size_of_store store.old) payloads.now (found_state store.old) machine.new) }
    ensures refused { IfErr result (λ e. IsLateRefusal mode (size_of_store store.old) payloads.now
        (found_state store.old) e) }
    ensures unissued { IfErr result (λ e. IsUnissued mode (view_of store.old) e (view_of store.new)) }
    ensures calls { MatchResult result (λ _. (disk_of store.new).calls
        ≡ counted (disk_of store.old).calls (boot_calls mode (size_of_store store.old) (found_state store.old)))
        (λ e. UnbootedCalls (size_of_store store.old) e (disk_of store.old).calls (disk_of store.new).calls) }
{
    match mode {
        BootMode::Fresh | BootMode::Keep | BootMode::Discard => {
            issue_boot(store, mode)?;
            boot_slot(machine, store, payloads);
        }
        BootMode::Resume => machine.resume(store)?,
    }
    Ok(())
}

/// Makes the board of a store that was just opened, and begins what the mode asks for. The checks come in the
/// order of docs/BOARD.md; all memory is taken before a command is issued.
pub fn ready<D: Disk + Drop>(
    alloc: Global,
    store: &mut Store<D>,
    mode: BootMode,
    payloads: &Payloads,
) -> Result<BegunMachine, Refusal>
    requires { IsOpen (view_of store.old) }
    ensures allowed { OnOk result (boot_refusal (found_state store.old) mode ≡ None) }
    ensures fits { OnOk result (PayloadsFit (size_of_store store.old) payloads.now) }
    ensures issued { OnOk result (IsIssued mode (view_of store.old) (view_of store.new)) }
    ensures begun { IfOk result (λ m. IsBegun mode (size_of_store store.old) payloads.now (found_state store.old) m) }
    ensures refused { IfErr result (λ e. RefusesBoot mode (size_of_store store.old) payloads.now (found_state store.old)
        e) }
    ensures unissued { IfErr result (λ e. IsUnissued mode (view_of store.old) e (view_of store.new)) }
    ensures calls { MatchResult result (λ _. (disk_of store.new).calls
        ≡ counted (disk_of store.old).calls (boot_calls mode (size_of_store store.old) (found_state store.old)))
        (λ e. UnbootedCalls (size_of_store store.old) e (disk_of store.old).calls (disk_of store.new).calls) }
{
    if let Some(refusal) = mode_refusal(mode, &store.found()) {
        return Err(refusal);
    }
    let mut machine = resting(alloc, store, mode, payloads)?;
    begin(&mut machine, store, mode, payloads)?;
    Ok(machine)
}
