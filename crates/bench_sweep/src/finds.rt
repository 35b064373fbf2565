//! What a run left: a power-on that keeps its image, and the judge's word of what that found.
//! A law runs nothing, and tells the prover a fact: `whole_images_load`.

ghost use Rattle.std.specs.Prelude.{◌≡◌, ◌⊎◌, ℕ, List, None, Some, true, is_some, IfOk, OnOk};
ghost use Rattle.board_model.specs.Plains.{IsPlainOf};
ghost use Rattle.board_model.specs.Shapes.{Size};
ghost use Rattle.board_model.specs.declared.plain.Plain.{Plain as State};
ghost use Rattle.disk.specs.Facts.{counted};
ghost use Rattle.bench_report.specs.declared.power.Power.TheVariants.{On};
ghost use Rattle.report_lines.specs.declared.printed.Printed.{Printed as Said};
ghost use Rattle.report_lines.specs.declared.printed.Printed.TheVariants.{OnRefused};
ghost use Rattle.bench_report.specs.Agree.{OffIs};
ghost use Rattle.bench_report.specs.Bench.{Bench};
ghost use Rattle.bench_report.specs.Examined.{OpensOf};
ghost use Rattle.bench_report.specs.Views.{facts, fault_state, store_in};
ghost use Rattle.bench_sweep.specs.Made.{LooksAt};
ghost use Rattle.bench_sweep.specs.Runs.{LeftOff, Finds, FoundSo, IsJudged, IsSpoilt, PowerFinds};

use crate::judges::Sweep;
use crate::ledgers::RunLedger;
use bench_report::{OffDisk, Power, power_on, says_refused_memory};
use board::{Board, BoardParts, Payloads};
use board_model::{BootMode, Bytes, Durable, Plain, Shape, shape_in_range};
use ram::Ram;
use report_lines::{Answer, Printed};
use simdisk::SimDisk;
use std::alloc::{AllocError, Global};
use store::{Store, whole_images_load};

/// The state found with its memory, where it was found and its image loaded; and what the power-on said.
#[derive(Drop)]
struct FoundPlain {
    plain: Option<Plain>,
    left: Answer,
}

/// The image was not loaded. Refused where the disk's record found no memory.
fn unloaded(disk: SimDisk) -> Result<Option<Plain>, AllocError>
    ensures spoilt { IfOk result (λ found. IsSpoilt (fault_state disk) → ⊥) }
{
    if disk.refused() != 0 {
        return Err(AllocError);
    }
    Ok(None)
}

/// The state found, with that memory where it has an image.
fn plain_of(found: &Durable, memory: Vec<u8>) -> Option<Plain>
    ensures { (p : State) × (result ≡ Some p) × IsPlainOf found.now memory.items p }
{
    let plain = Plain::of(found, Bytes::new(memory));
    Some(plain)
}

/// The store of that board, and its memory.
fn store_and_ram(board: Board<SimDisk>) -> (Store<SimDisk>, Ram)
    ensures { result.0 ≡ store_in board }
{
    let BoardParts { store, bus, .. } = board.into_parts();
    (store, bus.ram)
}

/// Lets go of a store and its memory. The proof for their many parts is made here.
fn let_go(store: Store<SimDisk>, ram: Ram) {
    let _both = (store, ram);
}

/// The state found, with the memory of its image, which is loaded into that RAM: none where the load was refused. Refused where the disk's
/// record found no memory.
fn with_memory(
    found: &Durable,
    mut store: Store<SimDisk>,
    mut ram: Ram,
) -> Result<Option<Plain>, AllocError>
    requires image { is_some found.now.image ≡ true }
    ensures told { IfOk result (λ plain. FoundSo plain found.now store) }
{
    whole_images_load::<SimDisk>();
    // A board has as much memory as its disk's shape says.
    if ram.pages() != store.shape().pages() {
        let_go(store, ram);
        return Err(AllocError);
    }
    match store.load_image(&mut ram) {
        Ok(()) => {
            let plain = plain_of(found, ram.into_bytes());
            Ok(plain)
        }
        Err(_) => unloaded(store.into_disk()),
    }
}

/// The state that the open of that board found, with the memory of its image, which is loaded into the board's own: none where
/// the load was refused. Refused where the disk's record found no memory.
fn loaded(
    alloc: Global,
    found: &Durable,
    board: Board<SimDisk>,
) -> Result<Option<Plain>, AllocError>
    ensures told { IfOk result (λ plain. FoundSo plain found.now (store_in board)) }
{
    let (store, ram) = store_and_ram(board);
    if found.image.is_some() {
        return with_memory(found, store, ram);
    }
    let_go(store, ram);
    Ok(plain_of(found, Vec::new(alloc)))
}

/// A power-on that was refused, which found no state to judge. Refused where memory was.
fn unbooted(disk: SimDisk, said: Printed) -> Result<Option<Plain>, AllocError>
    ensures spoilt { IfOk result (λ found. (said ≡ OnRefused 11) ⊎ IsSpoilt (fault_state disk) → ⊥) }
{
    if says_refused_memory(said) {
        return Err(AllocError);
    }
    unloaded(disk)
}

/// The state that the open of a board found, which is on.
fn found_on(
    alloc: Global,
    board: Board<SimDisk>,
    found: Option<Durable>,
) -> Result<Option<Plain>, AllocError>
    ensures told { IfOk result (λ plain. (size : Size) (said : Said) → PowerFinds size (On board) found said plain) }
{
    match found {
        None => unloaded(board.into_disk()),
        Some(found) => loaded(alloc, &found, board),
    }
}

/// The state that a power-on found, by what its open found and what it said. Refused where memory was.
fn found_by(
    alloc: Global,
    power: Power,
    found: Option<Durable>,
    said: Printed,
) -> Result<Option<Plain>, AllocError>
    ensures told { IfOk result (λ plain. (size : Size) → PowerFinds size power found said plain) }
{
    match power {
        Power::Off(off) => unbooted(off.disk, said),
        Power::On(board) => found_on(alloc, board, found),
    }
}

/// Powers a board on that keeps its image, and looks what was found. Its slots are empty, whatever the script's are:
/// it makes no turn, and is not refused for a payload that is longer than RAM.
fn look_at(alloc: Global, shape: &Shape, off: OffDisk) -> Result<FoundPlain, AllocError>
    ensures finds { IfOk result (λ found. (b : Bench) (slots : List (List ℕ)) (ledger : RunLedger)
        → LeftOff shape.now b off slots ledger → Finds ledger found.plain found.left) }
    ensures says { IfOk result (λ found. (b : Bench) → OffIs shape.now b off.disk
        → (after : Bench) × LooksAt shape.now b found.left after) }
    ensures exact { IfOk result (λ found. OpensOf (facts off.disk).content found.left) }
{
    shape_in_range(shape);
    let empty = Payloads::new(alloc);
    let (power, left, _now) = power_on(alloc, BootMode::Keep, off, &empty);
    let plain = found_by(alloc, power, left.found, left.line)?;
    Ok(FoundPlain { plain, left })
}

/// Counts a run that left that disk, and answers what the power-on after it said.
pub fn count_run(
    alloc: Global,
    shape: &Shape,
    off: OffDisk,
    ledger: &RunLedger,
    sweep: &mut Sweep,
) -> Result<Answer, AllocError>
    requires { (slots : List (List ℕ)) × (b : Bench) × LeftOff shape.now b off slots ledger.now }
    ensures says { IfOk result (λ left. (b : Bench) → OffIs shape.now b off.disk
        → (after : Bench) × LooksAt shape.now b left after) }
    ensures exact { IfOk result (λ left. OpensOf (facts off.disk).content left) }
    ensures judged { IfOk result (λ left. IsJudged ledger.now left) }
    ensures points { sweep.new.points ≡ sweep.old.points }
    ensures runs { OnOk result (sweep.new.runs ≡ counted sweep.old.runs 1) }
    ensures right { OnOk result (sweep.new.wrong ≡ sweep.old.wrong) }
{
    let found = look_at(alloc, shape, off)?;
    ledger.counts(found.plain.as_ref(), sweep);
    Ok(found.left)
}
