//! One line of a script.
//! A law runs nothing, and tells the prover a fact: `kept_disks`.

ghost use Rattle.std.specs.Prelude.{◌≡◌, true, false, ◌<◌, length, None, Ok, Err, OnErr, MatchResult};
ghost use Rattle.board_model.specs.Shapes.{Size};
ghost use Rattle.script_lang.specs.Lines.{IsLineInRange};
ghost use Rattle.store.specs.Leaves.{IsIdle};
ghost use Rattle.bench_report.specs.Views.{arms, facts};
ghost use Rattle.bench_report.specs.Bench.{Bench};
ghost use Rattle.bench_report.specs.Happens.{armed_with, off, SaysEnough, unpowered, says, shows};
ghost use Rattle.bench_report.specs.Steps.{ArmStep, Step};
ghost use Rattle.bench_report.specs.Uncut.{IsOtherLine, KeepsBytes};
ghost use Rattle.simdisk.specs.declared.SimDisk.{SimDisk};
ghost use Rattle.bench_report.specs.Agree.{HasDisk, IsCutBy, IsArmed, ArmsIts, CutsIts, PokesIts, StepsEnough, InspectsIts, fill_after, Agrees, HadEnough, OffIs, IsBench, IsUnstruck, Matches, StepsTo};

use crate::armings::{fault_of, newest_fill};
use crate::looks::look_line;
use crate::off_lines::{format_line, inspect_line, payload_line, poke_line};
use crate::on_lines::{call_line, wake_line};
use crate::power::{OffDisk, Power};
use crate::setting::Setting;
use board::Payloads;
use crew::Crew;
use disk::{ArmedFault, Disk};
use machine::MachineLine;
use report_lines::{Answer, Printed};
use script_lang::Line;
use simdisk::{Fill, SimDisk};
use std::alloc::AllocError;
use store::kept_disks;

/// An answer of that line alone.
pub(crate) fn says(line: Printed) -> Answer
    ensures { result ≡ says line }
{
    Answer { found: None, line }
}

/// The disk of a board whose life ends here, with nothing of it lent.
pub fn disk_left(power: Power) -> SimDisk
    ensures reported { (size : Size) (b : Bench) → Agrees size b power → OffIs size (off b) result }
    ensures resting { IsIdle (facts result) }
    ensures disk { HasDisk power result }
{
    match power {
        Power::Off(off) => off.disk,
        Power::On(board) => board.into_disk(),
    }
}

/// Takes power from a board, which is off then. Each range that was written since the last sync holds what the fill says.
pub fn cut(power: Power, fill: Fill) -> Power
    ensures reported { (size : Size) (b : Bench) → Agrees size b power → Agrees size (unpowered b) result }
    ensures exact { (disk : SimDisk) × HasDisk power disk × IsCutBy fill disk result }
    ensures calm { IsUnstruck result }
{
    kept_disks::<SimDisk>();
    Power::Off(OffDisk {
        disk: disk_left(power).after_cut(fill),
    })
}

/// Takes power from a board, as [`cut`] does, in its place.
pub(crate) fn lose_power(power: Power, fill: Fill) -> (Power, ())
    ensures reported { (size : Size) (b : Bench) → Agrees size b power → Agrees size (unpowered b) result.0 }
    ensures exact { (disk : SimDisk) × HasDisk power disk × IsCutBy fill disk result.0 }
    ensures calm { IsUnstruck result.0 }
{
    (cut(power, fill), ())
}

/// Arms a cut or a failure of a disk of a board that is off, or of one of its lanes, in the place of an older one.
pub fn arm_disk(off: OffDisk, fault: ArmedFault) -> OffDisk
    ensures reported { (size : Size) (b : Bench) → OffIs size b off.disk
        → OffIs size (armed_with fault b) result.disk }
    ensures arms { arms result.disk fault }
{
    kept_disks::<SimDisk>();
    let OffDisk { mut disk } = off;
    disk.arm(fault);
    OffDisk { disk }
}

/// Arms a cut or a failure of a board's disk, with the board on or off.
fn arm(power: Power, fault: ArmedFault) -> (Power, Answer)
    ensures reported { (size : Size) (b : Bench) → Agrees size b power
        → StepsTo size b result.0 (ArmStep fault b result.1) }
    ensures arms { IsArmed fault result.0 }
{
    match power {
        Power::Off(off) => (Power::Off(arm_disk(off, fault)), says(Printed::Armed)),
        Power::On(mut board) => {
            board.arm(fault);
            (Power::On(board), says(Printed::Armed))
        }
    }
}

/// What an armed cut is to leave after this line, by what it was to leave before.
pub(crate) fn fill_after(line: &Line, fill: Fill) -> Fill
    ensures { result ≡ fill_after line.now fill }
{
    match line {
        Line::Arm(arming) => newest_fill(*arming, fill),
        _ => fill,
    }
}

/// Whether an armed cut has struck.
pub fn struck(power: &Power) -> bool
    ensures reported { (size : Size) (b : Bench) → Agrees size b power.now → result ≡ b.fault_state.struck }
    ensures calm { result ≡ false → IsUnstruck power.now }
{
    match power {
        Power::Off(off) => off.disk.struck(),
        Power::On(board) => board.struck(),
    }
}

/// Whether a line says that memory was refused, to a power-on or to an examination of the disk.
pub fn says_refused_memory(said: Printed) -> bool
    ensures enough { result ≡ false → SaysEnough said }
    ensures refused { result ≡ true → SaysEnough said → ⊥ }
{
    match said {
        Printed::OnRefused(number) => number == 11,
        Printed::InspectRefused(number) => number == 11,
        _ => false,
    }
}

/// Whether memory was refused to a suspension in the life of a board that is on.
pub fn refused_suspension(power: &Power) -> bool
    ensures enough { result ≡ false → HadEnough power.now }
    ensures refused { result ≡ true → HadEnough power.now → ⊥ }
{
    match power {
        Power::Off(_) => false,
        Power::On(board) => board.was_refused_memory(),
    }
}

/// A line that is never refused.
fn answered(did: (Power, Answer)) -> (Power, Result<Answer, AllocError>)
    ensures power { result.0 ≡ did.0 }
    ensures answer { result.1 ≡ Ok did.1 }
{
    let (after, answer) = did;
    (after, Ok(answer))
}

/// A line that shows memory or harts, which is never refused.
fn shown(did: (Power, MachineLine)) -> (Power, Result<Answer, AllocError>)
    ensures power { result.0 ≡ did.0 }
    ensures answer { result.1 ≡ Ok (shows did.1) }
{
    let (after, line) = did;
    (after, Ok(says(Printed::Shown(line))))
}

/// A line of a script but a power-on, a command of the console and a row of turns, as far as no armed cut strikes. Refused only where there
/// is no memory for a payload or a poke, and then the bench is as it was.
pub fn line_alone<C: Crew>(
    setting: &Setting<'_, C>,
    line: &Line,
    power: Power,
    payloads: &mut Payloads,
) -> (Power, Result<Answer, AllocError>)
    requires range { IsLineInRange setting.now.shape.now line.now }
    requires other { IsOtherLine line.now }
    requires calm { IsUnstruck power }
    ensures reported { (b : Bench) → IsBench setting.now.shape.now b power payloads.old → MatchResult result.1
        (λ answer. (new : Bench) × Step setting.now.shape.now line.now b answer new
        × Matches setting.now.shape.now new result.0 payloads.new)
        (λ e. Matches setting.now.shape.now b result.0 payloads.new) }
    ensures arms { ArmsIts line.now result.0 }
    ensures cuts { CutsIts line.now power result.0 }
    ensures pokes { PokesIts line.now power result.1 result.0 }
    ensures inspects { InspectsIts line.now power result.1 }
    ensures enough { StepsEnough setting.now.shape.now line.now power payloads.old result.1 result.0 payloads.new }
    ensures slots { length payloads.new ≡ length payloads.old }
    ensures refused { OnErr result.1 (KeepsBytes line.now × IsUnstruck result.0) }
{
    let Setting { alloc, crew, shape } = *setting;
    match line {
        Line::Format => answered(format_line(shape, power)),
        Line::Cut(fill) => (cut(power, *fill), Ok(says(Printed::Cut))),
        Line::Payload(slot, bytes) => {
            match payload_line(alloc, *slot, bytes, &power, payloads) {
                Ok(shown) => (power, Ok(says(Printed::Shown(shown)))),
                Err(refusal) => (power, Err(refusal)),
            }
        }
        Line::Call(hart, words) => shown(call_line(alloc, crew, *hart, *words, power)),
        Line::Show(look) => shown(look_line(*look, power)),
        Line::Arm(arming) => answered(arm(power, fault_of(*arming))),
        Line::Poke(sector, offset, bytes) => poke_line(*sector, *offset, bytes, power),
        Line::Inspect => answered(inspect_line(alloc, power)),
        Line::Wake => answered(wake_line(power)),
        Line::On(_) | Line::Command(_) | Line::Turn(..) => unreachable!(),
    }
}
