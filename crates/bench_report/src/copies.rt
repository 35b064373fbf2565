//! The board of a bench is copied as it stands, armed, and looked into.
//! A law runs nothing, and tells the prover a fact: `kept_disks`.

ghost use Rattle.std.specs.Prelude.{◌≡◌, IfOk};
ghost use Rattle.disk.specs.declared.device.ArmedFault.{ArmedFault};
ghost use Rattle.board_model.specs.Shapes.{Size};
ghost use Rattle.bench_report.specs.Agree.{Agrees, HasDisk, IsArmed, IsCopyOf, is_struck, OffIs, OnIs};
ghost use Rattle.bench_report.specs.Bench.{Bench};
ghost use Rattle.bench_report.specs.Happens.{armed_with};
ghost use Rattle.bench_report.specs.Views.{disk_in};
ghost use Rattle.simdisk.specs.declared.SimDisk.{SimDisk};

use crate::power::{OffDisk, Power};
use crate::steps::arm_disk;
use board::Board;
use disk::{ArmedFault, CopyDisk};
use simdisk::SimDisk;
use std::alloc::{AllocError, Global};
use store::kept_disks;

/// A disk that no store holds is copied.
fn copy_off(off: &OffDisk) -> Result<OffDisk, AllocError>
    ensures copy { IfOk result (λ copy. (size : Size) (b : Bench) → OffIs size b off.now.disk → OffIs size b copy.disk) }
    ensures alike { IfOk result (λ copy. IsCopyOf off.now.disk copy.disk) }
{
    kept_disks::<SimDisk>();
    let disk = off.disk.copy()?;
    Ok(OffDisk { disk })
}

/// A board that is on is copied, with its disk.
fn copy_on(alloc: Global, board: &mut Board<SimDisk>) -> Result<Board<SimDisk>, AllocError>
    ensures stays { (size : Size) (b : Bench) → OnIs size b board.old → OnIs size b board.new }
    ensures same { disk_in board.new ≡ disk_in board.old }
    ensures calm { is_struck (Power.On board.new) ≡ is_struck (Power.On board.old) }
    ensures copy { IfOk result (λ copy. (size : Size) (b : Bench) → OnIs size b board.old → OnIs size b copy) }
    ensures alike { IfOk result (λ copy. IsCopyOf (disk_in board.old) (disk_in copy)) }
    ensures copy_calm { IfOk result (λ copy. is_struck (Power.On copy) ≡ is_struck (Power.On board.old)) }
{
    kept_disks::<SimDisk>();
    match board.copy(alloc) {
        Ok(copy) => Ok(copy),
        Err(_) => Err(AllocError),
    }
}

/// A board that stands as this one, off or on, with a disk of its own that holds what this one's holds, has counted the same
/// calls and has the same armed. This one stays as it is.
pub fn copy_power(alloc: Global, power: &mut Power) -> Result<Power, AllocError>
    ensures stays { (size : Size) (b : Bench) → Agrees size b power.old → Agrees size b power.new }
    ensures same { (d : SimDisk) → HasDisk power.old d → HasDisk power.new d }
    ensures calm { is_struck power.new ≡ is_struck power.old }
    ensures copy { IfOk result (λ copy. (size : Size) (b : Bench) → Agrees size b power.old → Agrees size b copy) }
    ensures alike { IfOk result (λ copy. (d e : SimDisk) → HasDisk power.old d → HasDisk copy e → IsCopyOf d e) }
    ensures copy_calm { IfOk result (λ copy. is_struck copy ≡ is_struck power.old) }
{
    match power {
        Power::Off(off) => Ok(Power::Off(copy_off(off)?)),
        Power::On(board) => Ok(Power::On(copy_on(alloc, board)?)),
    }
}

/// The board with a cut or a failure armed on its disk, or on one of its lanes, in the place of an older one.
pub fn arm_power(power: Power, fault: ArmedFault) -> Power
    ensures reported { (size : Size) (b : Bench) → Agrees size b power → Agrees size (armed_with fault b) result }
    ensures arms { IsArmed fault result }
{
    match power {
        Power::Off(off) => Power::Off(arm_disk(off, fault)),
        Power::On(mut board) => {
            board.arm(fault);
            Power::On(board)
        }
    }
}

/// The disk of a board that is off, or the one that its store holds.
pub fn disk_of(power: &Power) -> &SimDisk
    ensures { HasDisk power.now result.now }
{
    match power {
        Power::Off(off) => &off.disk,
        Power::On(board) => board.disk(),
    }
}
