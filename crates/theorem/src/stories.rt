//! What whoever runs the firmware asks of one disk, and what is seen, as one run.
//! A law runs nothing, and tells the prover a fact: `blank_disks`, `content_determines_state`, `kept_disks`, `whole_images_load`.
ghost use Rattle.std.specs.Prelude.{◌≡◌, ◌⊎◌, ◌≤◌, ℕ, [], None, length, vec_len, vec_capacity, IfOk, IfErr};
ghost use Rattle.board_model.specs.Durable.{Suspend};
ghost use Rattle.board_model.specs.Shapes.{Size};
ghost use Rattle.board_model.specs.Views.{change_of};
ghost use Rattle.board_model.specs.declared.refusal.Refusal.{Refusal};
ghost use Rattle.disk.specs.FaultState.{no_fault};
ghost use Rattle.store.specs.Leaves.{IsIdle};
ghost use Rattle.store.specs.Views.{doubt_of, view_of};
ghost use Rattle.theorem.specs.Story.{Now, begin, Opens, Commands, Loads, Resumes, Step, Tells};
ghost use Rattle.theorem.specs.Told.{IsOn, IsOff, IsAt, Rests, IsCall, Answers, unpowered, cut_off, arming, seen_of};

use crate::asks::{Asked, Seen};
use crate::power::{Power, Resting};
use board_model::{Command, Refusal, Shape, shape_in_range};
use crew::Crew;
use disk::{ArmedFault, Disk};
use ram::Ram;
use simdisk::{Fill, SimDisk};
use std::alloc::Global;
use store::{
    Receipt, Resumption, Saving, Store, blank_disks, content_determines_state, format, kept_disks,
    whole_images_load,
};
use susp::wake_image;

/// *The theorem, as a run.* Formats a new disk in memory, does what is asked, in its order, and answers what was seen of
/// each. What was seen is a story: the state that an open finds is what the acknowledged commands make of the formatted one,
/// with at most the one in doubt; and no image goes on twice.
///
/// Refused `Memory` where there is no room for the disk or for the answers, and `Device` where the disk failed by itself in
/// the format. [`story_on`] says the same of any disk.
pub fn story<C: Crew>(
    alloc: Global,
    shape: &Shape,
    crew: &C,
    asked: &[Asked],
) -> Result<Vec<Seen>, Refusal>
    ensures told { IfOk result (λ seen. (w : Now) × Tells shape.now (begin no_fault) asked.now seen.items w) }
    ensures refused { IfErr result (λ e. (e ≡ Refusal.Memory) ⊎ (e ≡ Refusal.Device)) }
{
    blank_disks::<SimDisk>();
    let mut disk = SimDisk::blank(alloc, shape.sectors())?;
    format(&mut disk, shape)?;
    match story_on(alloc, disk, shape, crew, asked) {
        Ok((seen, _disk)) => Ok(seen),
        Err(_disk) => Err(Refusal::Memory),
    }
}

/// The same of any disk in memory that stands for what an open may find, as a format leaves it, or another story; and so it
/// stands again at the end, byte for byte, whatever power that fails then leaves of it. Without room for the answers nothing
/// is asked of the disk.
pub fn story_on<C: Crew>(
    alloc: Global,
    disk: SimDisk,
    shape: &Shape,
    crew: &C,
    asked: &[Asked],
) -> Result<(Vec<Seen>, SimDisk), SimDisk>
    requires { IsIdle (⟦<SimDisk as Disk>⟧.facts disk) }
    ensures told { IfOk result (λ run. (w : Now)
        → Rests shape.now w (⟦<SimDisk as Disk>⟧.facts disk) (⟦<SimDisk as Disk>⟧.fault_state disk)
        → (v : Now) × Tells shape.now (unpowered w) asked.now run.0.items v
        × Rests shape.now v (⟦<SimDisk as Disk>⟧.facts run.1) (⟦<SimDisk as Disk>⟧.fault_state run.1)) }
    ensures idle { IfOk result (λ run. IsIdle (⟦<SimDisk as Disk>⟧.facts run.1)) }
    ensures refused { IfErr result (λ left. left ≡ disk) }
{
    content_determines_state();
    let Ok(seen) = Vec::with_capacity(alloc, asked.len()) else {
        return Err(disk);
    };
    Ok(all_seen(alloc, shape, crew, asked, disk, seen))
}

/// What is asked is done, in its order. What is seen goes into that list, which has room for it.
fn all_seen<C: Crew>(
    alloc: Global,
    shape: &Shape,
    crew: &C,
    asked: &[Asked],
    disk: SimDisk,
    mut seen: Vec<Seen>,
) -> (Vec<Seen>, SimDisk)
    requires idle { IsIdle (⟦<SimDisk as Disk>⟧.facts disk) }
    requires none { seen.items ≡ [] }
    requires empty { vec_len seen ≡ 0 }
    requires room { length asked.now ≤ vec_capacity seen }
    ensures idle { IsIdle (⟦<SimDisk as Disk>⟧.facts result.1) }
    ensures told { (w : Now)
        → IsOff shape.now w (⟦<SimDisk as Disk>⟧.facts disk) (⟦<SimDisk as Disk>⟧.fault_state disk)
        → (v : Now) × Tells shape.now w asked.now result.0.items v
        × IsOff shape.now (unpowered v) (⟦<SimDisk as Disk>⟧.facts result.1) (⟦<SimDisk as Disk>⟧.fault_state result.1) }
{
    let mut power = Power::Off(Resting { disk });
    for ask in asked {
        let (next, answer) = step(alloc, shape, crew, power, ask);
        power = next;
        seen.push_reserved(answer);
    }
    (seen, left(power))
}

/// What is asked is done.
fn step<C: Crew>(alloc: Global, shape: &Shape, crew: &C, power: Power, ask: &Asked) -> (Power, Seen)
    ensures { (w : Now) → IsAt shape.now w power
        → (v : Now) × Step shape.now w ask.now result.1 v × IsAt shape.now v result.0 }
{
    match ask {
        Asked::Open => open(alloc, left(power)),
        Asked::Arm(fault) => (armed(power, *fault), Seen::Done),
        Asked::Cut(fill) => (cut(left(power), *fill), Seen::Done),
        call => called(alloc, shape, crew, power, call),
    }
}

/// The disk, out of its store where it is in one.
fn left(power: Power) -> SimDisk
    ensures idle { IsIdle (⟦<SimDisk as Disk>⟧.facts result) }
    ensures off { (size : Size) (w : Now) → IsAt size w power → IsOff size (unpowered w)
        (⟦<SimDisk as Disk>⟧.facts result) (⟦<SimDisk as Disk>⟧.fault_state result) }
{
    match power {
        Power::Off(resting) => {
            let Resting { disk } = resting;
            disk
        }
        Power::On(store) => store.into_disk(),
    }
}

/// The disk is opened.
fn open(alloc: Global, disk: SimDisk) -> (Power, Seen)
    requires { IsIdle (⟦<SimDisk as Disk>⟧.facts disk) }
    ensures { (size : Size) (w : Now)
        → IsOff size w (⟦<SimDisk as Disk>⟧.facts disk) (⟦<SimDisk as Disk>⟧.fault_state disk)
        → (v : Now) × Opens w result.1 v × IsAt size v result.0 }
{
    kept_disks::<SimDisk>();
    match Store::open(alloc, disk) {
        Ok(store) => {
            let found = store.found();
            (Power::On(store), Seen::Opened(found))
        }
        Err((disk, refusal)) => (Power::Off(Resting { disk }), Seen::Denied(refusal)),
    }
}

/// A fault is armed.
fn armed(power: Power, fault: ArmedFault) -> Power
    ensures { (size : Size) (w : Now) → IsAt size w power → IsAt size (arming fault w) result }
{
    match power {
        Power::Off(resting) => {
            let Resting { mut disk } = resting;
            disk.arm(fault);
            Power::Off(Resting { disk })
        }
        Power::On(mut store) => {
            store.arm(fault);
            Power::On(store)
        }
    }
}

/// Power fails.
fn cut(disk: SimDisk, fill: Fill) -> Power
    ensures { (size : Size) (w : Now)
        → IsOff size w (⟦<SimDisk as Disk>⟧.facts disk) (⟦<SimDisk as Disk>⟧.fault_state disk)
        → IsAt size (cut_off w) result }
{
    Power::Off(Resting {
        disk: disk.after_cut(fill),
    })
}

/// A call of the store, where one is open.
fn called<C: Crew>(
    alloc: Global,
    shape: &Shape,
    crew: &C,
    power: Power,
    call: &Asked,
) -> (Power, Seen)
    requires { IsCall call.now }
    ensures { (w : Now) → IsAt shape.now w power
        → (v : Now) × Step shape.now w call.now result.1 v × IsAt shape.now v result.0 }
{
    match power {
        Power::Off(resting) => (Power::Off(resting), Seen::NotOpen),
        Power::On(mut store) => {
            let seen = answered(alloc, shape, crew, &mut store, call);
            (Power::On(store), seen)
        }
    }
}

/// A call of an open store.
fn answered<C: Crew>(
    alloc: Global,
    shape: &Shape,
    crew: &C,
    store: &mut Store<SimDisk>,
    call: &Asked,
) -> Seen
    requires { IsCall call.now }
    ensures { (w : Now) → IsOn shape.now w (view_of store.old)
        → (v : Now) × Answers shape.now w call.now result v × IsOn shape.now v (view_of store.new) }
{
    match call {
        Asked::Command(command) => command_seen(store, *command),
        Asked::Suspend(ram, at) => suspension_seen(store, Saving { alloc, crew }, ram, *at),
        Asked::Load => load_seen(alloc, shape, store),
        Asked::Resume => resume_seen(alloc, shape, store),
        _ => unreachable!(),
    }
}

/// What is seen of a command or a suspension that is answered so.
fn seen_of(answer: Result<Receipt, Refusal>) -> Seen
    ensures { result ≡ seen_of answer }
{
    match answer {
        Ok(receipt) => Seen::Acked(receipt),
        Err(refusal) => Seen::Denied(refusal),
    }
}

/// A command is issued.
fn command_seen(store: &mut Store<SimDisk>, command: Command) -> Seen
    ensures { (size : Size) (w : Now) → IsOn size w (view_of store.old)
        → (v : Now) × Commands size w (change_of command) result v × IsOn size v (view_of store.new) }
{
    let answer = store.apply(command);
    seen_of(answer)
}

/// A memory is suspended.
fn suspension_seen<C: Crew>(
    store: &mut Store<SimDisk>,
    saving: Saving<'_, C>,
    ram: &Ram,
    at: Resumption,
) -> Seen
    ensures { (size : Size) (w : Now) → IsOn size w (view_of store.old)
        → (v : Now) × Commands size w (Suspend at.hart at.address at.opaque ram.now) result v
        × IsOn size v (view_of store.new) }
{
    let answer = store.suspend(saving, ram, at);
    seen_of(answer)
}

/// The memory of the image is read.
fn load_seen(alloc: Global, shape: &Shape, store: &mut Store<SimDisk>) -> Seen
    ensures { (w : Now) → IsOn shape.now w (view_of store.old)
        → (v : Now) × Loads w result v × IsOn shape.now v (view_of store.new) }
{
    let Ok(mut ram) = Ram::new(alloc, *shape) else {
        return Seen::Denied(Refusal::Memory);
    };
    shape_in_range(shape);
    whole_images_load::<SimDisk>();
    match store.load_image(&mut ram) {
        Ok(()) => Seen::Read(ram),
        Err(refusal) => Seen::Denied(refusal),
    }
}

/// A board goes on with the image. With a command in doubt it is refused as a command is.
fn resume_seen(alloc: Global, shape: &Shape, store: &mut Store<SimDisk>) -> Seen
    ensures { (w : Now) → IsOn shape.now w (view_of store.old)
        → (v : Now) × Resumes shape.now w result v × IsOn shape.now v (view_of store.new) }
{
    match store.in_doubt() {
        Some(_doubt) => Seen::Denied(Refusal::Down),
        None => wake_seen(alloc, shape, store),
    }
}

/// A board goes on with the image, of a store without a command in doubt.
fn wake_seen(alloc: Global, shape: &Shape, store: &mut Store<SimDisk>) -> Seen
    requires { doubt_of store.old ≡ None }
    ensures { (w : Now) → IsOn shape.now w (view_of store.old)
        → (v : Now) × Resumes shape.now w result v × IsOn shape.now v (view_of store.new) }
{
    let Ok(mut ram) = Ram::new(alloc, *shape) else {
        return Seen::Denied(Refusal::Memory);
    };
    shape_in_range(shape);
    whole_images_load::<SimDisk>();
    match wake_image(store, &mut ram) {
        Ok(hart) => Seen::Woke(hart, ram),
        Err(refusal) => Seen::Denied(refusal),
    }
}
