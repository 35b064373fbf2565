//! An examiner: what stands on a disk, whatever bytes it holds.
ghost use Rattle.std.specs.Prelude.{◌≡◌, ◌≤◌, ◌<◌, length, Err, IfOk, IfErr, OnOk, MatchResult, ◌⊎◌};
ghost use Rattle.board_model.specs.Shapes.{Size};
ghost use Rattle.board_model.specs.declared.refusal.Refusal.{Refusal};
ghost use Rattle.disk.specs.Facts.{Stays};
ghost use Rattle.disk.specs.Calls.{MakesCalls};
ghost use Rattle.layout.specs.Records.{IsRecord};
ghost use Rattle.layout.specs.declared.records.Record.{Record};
ghost use Rattle.store.specs.Leaves.{IsIdle, ReadsAlone};
ghost use Rattle.store.specs.Opens.{IsBoard, ReadsAs, CausedRefusal, FailsForCause};
ghost use Rattle.store.specs.Standing.{selected, live_sector, other_sector};
ghost use Rattle.store.specs.Inspects.{IsImageSeen, seen_by, IsInspected, InspectRefused, SeenCalls, ExaminedCalls, InspectCalls};

use crate::commits::{GATE, RECORDS};
use board_model::{Refusal, Shape};
use disk::{Disk, Fault, Sector, read_sector};
use image::read_area;
use layout::{Record, parse_record, parse_superblock, selected};
use ram::Ram;
use std::alloc::Global;

/// What an examiner says of the live image.
#[derive(Clone, Copy, PartialEq, Eq, Drop)]
pub enum ImageSeen {
    /// The selected record is not in its form, or has no image.
    Absent,
    /// It can be loaded.
    Whole,
    /// A place of it is not in its form.
    Bad,
}

/// What an examiner says of the disk of a board.
#[derive(Clone, Copy, PartialEq, Eq, Drop)]
pub struct Inspection {
    /// Which record the gate selects: 0 or 1.
    pub gate: u32,
    /// Whether that record is in its form.
    pub live: bool,
    /// Whether the other one is.
    pub other: bool,
    pub image: ImageSeen,
}

/// The two records, as a disk holds them.
#[derive(Clone, Copy, Drop)]
struct Records {
    gate: u32,
    live: Sector,
    other: Sector,
}

/// Reads gate and records.
fn read_records<D: Disk>(disk: &mut D) -> Result<Records, Fault>
    requires none_out { IsIdle (D.facts disk.old) }
    requires enough { 4 ≤ length (D.facts disk.old).content }
    ensures gate { IfOk result (λ r. r.gate ≡ selected (D.facts disk.old).content) }
    ensures live { IfOk result (λ r. r.live ≡ live_sector (D.facts disk.old).content) }
    ensures other { IfOk result (λ r. r.other ≡ other_sector (D.facts disk.old).content) }
    ensures unsynced { (D.facts disk.new).moment ≡ (D.facts disk.old).moment }
    ensures called { MakesCalls 3 Stays (D.facts disk.old) (D.facts disk.new) (D.fault_state disk.old)
        (D.fault_state disk.new) result }
{
    let gate = selected(&read_sector(disk, GATE)?);
    let first = read_sector(disk, RECORDS)?;
    let second = read_sector(disk, RECORDS + 1)?;
    if gate.number() == 0 {
        Ok(Records {
            gate: 0,
            live: first,
            other: second,
        })
    } else {
        Ok(Records {
            gate: 1,
            live: second,
            other: first,
        })
    }
}

/// What is said of the image of a record. Its memory is read into a RAM of its own.
fn see_image<D: Disk>(
    alloc: Global,
    disk: &mut D,
    shape: &Shape,
    live: &Result<Record, Refusal>,
) -> Result<ImageSeen, Refusal>
    requires none_out { IsIdle (D.facts disk.old) }
    requires board { IsBoard shape.now (D.facts disk.old).content }
    requires live { IfOk live.now (λ r. IsRecord shape.now r (live_sector (D.facts disk.old).content)) }
    requires exact { (r : Record) → IsRecord shape.now r (live_sector (D.facts disk.old).content) → live.now ≡ Ok r }
    ensures seen { IfOk result (IsImageSeen shape.now (D.facts disk.old).content) }
    ensures refused { IfErr result (λ e. InspectRefused (D.facts disk.old) e (D.facts disk.new)) }
    ensures reads_alone { ReadsAlone (D.facts disk.old) (D.facts disk.new) }
    ensures unsynced { (D.facts disk.new).moment ≡ (D.facts disk.old).moment }
    ensures cause { FailsForCause (D.facts disk.old) (D.fault_state disk.old) result (D.facts disk.new)
        (D.fault_state disk.new) }
    ensures calls { SeenCalls shape.now result (D.facts disk.old).calls (D.facts disk.new).calls }
{
    let Ok(record) = live else {
        return Ok(ImageSeen::Absent);
    };
    let Some(saved) = record.image else {
        return Ok(ImageSeen::Absent);
    };
    let mut ram = Ram::new(alloc, *shape)?;
    let read = read_area(disk, shape, &saved, &mut ram);
    seen(read)
}

/// What a read of an image's area tells of it.
fn seen(read: Result<(), Refusal>) -> Result<ImageSeen, Refusal>
    ensures { result ≡ seen_by read }
{
    match read {
        Ok(()) => Ok(ImageSeen::Whole),
        Err(Refusal::BadImage) => Ok(ImageSeen::Bad),
        Err(refusal) => Err(refusal),
    }
}

/// What is said of the disk of a board of that shape.
fn examine<D: Disk>(alloc: Global, disk: &mut D, shape: &Shape) -> Result<Inspection, Refusal>
    requires none_out { IsIdle (D.facts disk.old) }
    requires board { IsBoard shape.now (D.facts disk.old).content }
    ensures inspected { IfOk result (IsInspected shape.now (D.facts disk.old).content) }
    ensures refused { IfErr result (λ e. InspectRefused (D.facts disk.old) e (D.facts disk.new)) }
    ensures reads_alone { ReadsAlone (D.facts disk.old) (D.facts disk.new) }
    ensures unsynced { (D.facts disk.new).moment ≡ (D.facts disk.old).moment }
    ensures cause { FailsForCause (D.facts disk.old) (D.fault_state disk.old) result (D.facts disk.new)
        (D.fault_state disk.new) }
    ensures calls { ExaminedCalls shape.now result (D.facts disk.old).calls (D.facts disk.new).calls }
{
    let Ok(records) = read_records(disk) else {
        return Err(Refusal::Device);
    };
    let live = parse_record(&records.live, shape);
    let other = parse_record(&records.other, shape);
    let image = see_image(alloc, disk, shape, &live)?;
    Ok(Inspection {
        gate: records.gate,
        live: live.is_ok(),
        other: other.is_ok(),
        image,
    })
}

/// Examines a disk, whatever bytes it holds: which record the gate selects, whether it and the other one are in
/// their form, and the image of the selected one. Sectors 0 to 3 are read, then the image where one stands, up
/// to the first place that is not in its form; nothing is written or synced. What it says is of the bytes
/// that a read gives, which a crash need not leave.
///
/// Refused `NotFormatted` and `BadShape` by what the disk reads as, as `Store::open` is; `Device` where the
/// disk failed in this call; and `Memory` where there is no room for the memory of an image that stands.
pub fn inspect<D: Disk>(alloc: Global, disk: &mut D) -> Result<Inspection, Refusal>
    requires none_out { IsIdle (D.facts disk.old) }
    ensures inspected { IfOk result (λ i. (size : Size) × IsBoard size (D.facts disk.old).content
        × IsInspected size (D.facts disk.old).content i) }
    ensures refused { IfErr result (λ e. InspectRefused (D.facts disk.old) e (D.facts disk.new)) }

    // And the other way: a disk that reads as 1 or 3 is refused so, or by 5; one of a board is inspected, but for
    // 5 and 11.
    ensures unformatted { ReadsAs (D.facts disk.old).content Refusal.NotFormatted
        → MatchResult result (λ i. ⊥) (λ e. (e ≡ Refusal.NotFormatted) ⊎ (e ≡ Refusal.Device)) }
    ensures bad_shape { ReadsAs (D.facts disk.old).content Refusal.BadShape
        → MatchResult result (λ i. ⊥) (λ e. (e ≡ Refusal.BadShape) ⊎ (e ≡ Refusal.Device)) }
    ensures board { (size : Size) → IsBoard size (D.facts disk.old).content
        → IfErr result (λ e. (e ≡ Refusal.Device) ⊎ (e ≡ Refusal.Memory)) }

    ensures no_sectors { length (D.facts disk.old).content ≡ 0
        → (result ≡ Err Refusal.BadShape) × (disk.new ≡ disk.old) }
    ensures reads_alone { ReadsAlone (D.facts disk.old) (D.facts disk.new) }
    ensures unsynced { (D.facts disk.new).moment ≡ (D.facts disk.old).moment }
    ensures cause { MatchResult result (λ _. D.fault_state disk.new ≡ D.fault_state disk.old) (λ e. CausedRefusal
        (D.fault_state disk.old) e (D.fault_state disk.new)) }
    ensures no_failure { OnOk result ((D.facts disk.new).failures ≡ (D.facts disk.old).failures) }
    ensures calls { 0 < length (D.facts disk.old).content
        → InspectCalls (D.facts disk.old).content result (D.facts disk.old).calls (D.facts disk.new).calls }
{
    let sectors = disk.sectors();
    if sectors == 0 {
        return Err(Refusal::BadShape);
    }
    let Ok(superblock) = read_sector(disk, 0) else {
        return Err(Refusal::Device);
    };
    let shape = parse_superblock(&superblock, sectors)?;
    examine(alloc, disk, &shape)
}
