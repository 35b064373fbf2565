//! Lines that ask something of the disk of a board that is off.
//! A law runs nothing, and tells the prover a fact: `kept_disks`, `blank_disks`, `content_determines_state`.

ghost use Rattle.std.specs.Prelude.{◌≡◌, ◌<◌, ◌≤◌, length, Some, Ok, Err, IfOk, OnOk, OnErr, MatchResult};
ghost use Rattle.board_model.specs.Shapes.{Size};
ghost use Rattle.bench_report.specs.Views.{facts};
ghost use Rattle.bench_report.specs.Bench.{Bench};
ghost use Rattle.bench_report.specs.Happens.{says, shows};
ghost use Rattle.bench_report.specs.PowerOns.{FormatsOn, PowersOn, TellsNow};
ghost use Rattle.bench_report.specs.Examined.{InspectsOn, InspectStep, AnswersOf, OpensOf};
ghost use Rattle.bench_report.specs.Asides.{AsideStep};
ghost use Rattle.bench_report.specs.Deeds.{SetSlot, WritePast};
ghost use Rattle.bench_report.specs.Steps.{FormatStep, OnStep};
ghost use Rattle.simdisk.specs.declared.SimDisk.{SimDisk};
ghost use Rattle.bench_report.specs.Agree.{Pokes, Inspects, OpensAt, Agrees, OffIs, IsBench, IsUnstruck, Matches, StepsTo};

use crate::power::{OffDisk, Power};
use crate::steps::says;
use board::{Board, Payloads};
use board_model::{BootMode, Bytes, Durable, Shape};
use machine::MachineLine;
use report_lines::{Answer, Printed};
use simdisk::SimDisk;
use std::alloc::{AllocError, Global};
use store::{blank_disks, content_determines_state, format, inspect, kept_disks};

/// Formats the disk of a board that is off.
fn format_disk(shape: &Shape, off: OffDisk) -> (Power, Answer)
    ensures { (b : Bench) → OffIs shape.now b off.disk
        → StepsTo shape.now b result.0 (FormatsOn b.disk_state b result.1) }
{
    kept_disks::<SimDisk>();
    blank_disks::<SimDisk>();
    content_determines_state();
    let OffDisk { mut disk } = off;
    match format(&mut disk, shape) {
        Ok(()) => (Power::Off(OffDisk { disk }), says(Printed::Formatted)),
        Err(e) => (
            Power::Off(OffDisk { disk }),
            says(Printed::FormatRefused(e.code())),
        ),
    }
}

/// Powers a board on that is off: the board, what the line says, and where the open found a state the one then,
/// without a command in doubt. The state that is shown is the one that the disk's content stands for, also of a disk that was
/// written past the firmware.
pub fn power_on(
    alloc: Global,
    mode: BootMode,
    off: OffDisk,
    payloads: &Payloads,
) -> (Power, Answer, Option<Durable>)
    ensures reported { (size : Size) (b : Bench) → OffIs size b off.disk → payloads.now ≡ b.payloads
        → StepsTo size b result.0
        (λ new. PowersOn size mode b result.1 new × TellsNow result.1.found result.2 new) }
    ensures exact { OpensOf (facts off.disk).content result.1 }
{
    kept_disks::<SimDisk>();
    blank_disks::<SimDisk>();
    match Board::power_on(alloc, off.disk, mode, payloads) {
        Ok(board) => {
            let booted = Answer {
                found: Some(board.found()),
                line: Printed::On(mode),
            };
            let now = board.now();
            (Power::On(board), booted, Some(now))
        }
        Err(unpowered) => {
            let refused = Answer {
                found: unpowered.found,
                line: Printed::OnRefused(unpowered.refusal.code()),
            };
            (
                Power::Off(OffDisk {
                    disk: unpowered.disk,
                }),
                refused,
                unpowered.now,
            )
        }
    }
}

/// Examines the disk of a board that is off.
fn inspect_disk(alloc: Global, off: OffDisk) -> (Power, Answer)
    ensures reported { (size : Size) (b : Bench) → OffIs size b off.disk
        → StepsTo size b result.0 (InspectsOn size b result.1) }
    ensures exact { AnswersOf (facts off.disk).content result.1 }
{
    kept_disks::<SimDisk>();
    let OffDisk { mut disk } = off;
    match inspect(alloc, &mut disk) {
        Ok(inspection) => (
            Power::Off(OffDisk { disk }),
            says(Printed::Inspected(inspection)),
        ),
        Err(e) => (
            Power::Off(OffDisk { disk }),
            says(Printed::InspectRefused(e.code())),
        ),
    }
}

pub(crate) fn format_line(shape: &Shape, power: Power) -> (Power, Answer)
    ensures { (b : Bench) → Agrees shape.now b power
        → StepsTo shape.now b result.0 (FormatStep b.power b result.1) }
{
    match power {
        Power::Off(disk) => format_disk(shape, disk),
        Power::On(board) => (Power::On(board), says(Printed::Busy)),
    }
}

pub(crate) fn inspect_line(alloc: Global, power: Power) -> (Power, Answer)
    ensures reported { (size : Size) (b : Bench) → Agrees size b power
        → StepsTo size b result.0 (InspectStep size b.power b result.1) }
    ensures exact { Inspects power result.1 }
{
    match power {
        Power::Off(disk) => inspect_disk(alloc, disk),
        Power::On(board) => (Power::On(board), says(Printed::Busy)),
    }
}

/// Powers a board on that is off, by that mode and with these payloads. Answers what it says and, where the open found a state, the one
/// then. It is passed by name.
pub(crate) fn powered(
    power: Power,
    asked: (Global, BootMode, &Payloads),
) -> (Power, (Answer, Option<Durable>))
    ensures said { (size : Size) (b : Bench) → Agrees size b power → asked.entry.2.now ≡ b.payloads
        → StepsTo size b result.0 (λ new. OnStep size b.power asked.entry.1 b result.1.0 new × TellsNow result.1.0.found result.1.1 new) }
    ensures exact { OpensAt power result.1.0 }
{
    let (alloc, mode, payloads) = asked;
    match power {
        Power::Off(off) => {
            let (power, answer, now) = power_on(alloc, mode, off, payloads);
            (power, (answer, now))
        }
        Power::On(board) => (Power::On(board), (says(Printed::Busy), None)),
    }
}

/// Keeps a payload for the next boots.
pub(crate) fn payload_line(
    alloc: Global,
    slot: board_model::Slot,
    bytes: &Bytes,
    power: &Power,
    payloads: &mut Payloads,
) -> Result<MachineLine, AllocError>
    requires bytes { length bytes.now ≤ 1024 }
    ensures reported { IfOk result (λ line. (size : Size) (b : Bench) → IsBench size b power.now payloads.old
        → (new : Bench) × AsideStep (SetSlot slot bytes.now) b.power b (shows line) new
        × Matches size new power.now payloads.new) }
    ensures slots { length payloads.new ≡ length payloads.old }
    ensures refused { OnErr result (payloads.new ≡ payloads.old) }
{
    match power {
        Power::On(_board) => Ok(MachineLine::Busy),
        Power::Off(_disk) => {
            let count = bytes.len();
            let mut copy = Vec::with_capacity(alloc, count)?;
            copy.extend_from_slice(bytes.as_slice())?;
            payloads.set(slot, copy);
            Ok(MachineLine::Payload(slot, count))
        }
    }
}

/// Writes bytes into a sector past the firmware, while the board is off. Refused where there is no memory for
/// it, and then the bench is as it was.
pub(crate) fn poke_line(
    sector: u32,
    offset: u32,
    bytes: &Bytes,
    power: Power,
) -> (Power, Result<Answer, AllocError>)
    ensures reported { (size : Size) (b : Bench) → Agrees size b power → MatchResult result.1
        (λ answer. StepsTo size b result.0 (AsideStep WritePast b.power b answer)) (λ e. Agrees size b result.0) }
    ensures pokes { OnOk result.1 (Pokes sector offset bytes.now power result.0) }
    ensures calm { OnErr result.1 (IsUnstruck result.0) }
{
    kept_disks::<SimDisk>();
    match power {
        Power::On(board) => (Power::On(board), Ok(says(Printed::Busy))),
        Power::Off(off) => {
            let OffDisk { mut disk } = off;
            match disk.poke(sector as usize, offset as usize, bytes.as_slice()) {
                Ok(()) => (Power::Off(OffDisk { disk }), Ok(says(Printed::Poked))),
                Err(_refused) => (Power::Off(OffDisk { disk }), Err(AllocError)),
            }
        }
    }
}
