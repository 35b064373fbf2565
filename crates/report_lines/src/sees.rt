//! What an examiner tells of a whole disk: its inspection, and the state that an open finds.

ghost use Rattle.std.specs.Prelude.{◌≡◌, ◌⊎◌, IfOk, IfErr, MatchResult};
ghost use Rattle.board_model.specs.Shapes.{Size};
ghost use Rattle.store.specs.Leaves.{IsIdle, IsSettled};
ghost use Rattle.store.specs.Opens.{IsBoard, ReadsAs};
ghost use Rattle.report_lines.specs.Sights.{Finds, IsSeen, SeeRefused, unrecorded};

use board_model::{Durable, Refusal};
use disk::Disk;
use std::alloc::Global;
use store::{Inspection, Store, inspect};

/// The durable state that an open finds, and how many pages its board has.
#[derive(Clone, Copy, Drop)]
pub struct FoundState {
    /// The state.
    pub state: Durable,
    /// The pages of the board, and so of the state's image, 1 to 256.
    pub pages: u32,
}

/// What an examiner tells of a disk.
#[derive(Clone, Copy, Drop)]
pub struct Seen {
    /// What `store::inspect` says of its records and its image.
    pub inspection: Inspection,
    /// What an open finds. None where the selected record is in no form, which an open refuses with 4.
    pub found: Option<FoundState>,
}

/// What an examiner makes of the refusal of an open. A bad record is no refusal here: there is just no state to find.
fn unrecorded(refusal: Refusal) -> Result<Option<FoundState>, Refusal>
    ensures { result ≡ unrecorded refusal }
{
    match refusal {
        Refusal::BadRecord => Ok(None),
        _ => Err(refusal),
    }
}

/// What an open of the disk finds. None where the selected record is in no form. The disk is given back as the open leaves
/// it.
fn find<D: Disk + Drop>(alloc: Global, disk: D) -> (D, Result<Option<FoundState>, Refusal>)
    requires none_out { IsIdle (D.facts disk) }
    ensures found { IfOk result.1 (Finds (D.facts disk).content) }
    ensures refused { IfErr result.1 (λ e. SeeRefused (D.facts disk) e (D.facts result.0)) }
    ensures settles { IsSettled (D.facts disk) (D.facts result.0) }
{
    match Store::open(alloc, disk) {
        Ok(store) => {
            let state = store.found();
            let pages = store.shape().pages();
            (store.into_disk(), Ok(Some(FoundState { state, pages })))
        }
        Err((disk, refusal)) => (disk, unrecorded(refusal)),
    }
}

/// Examines a disk, whatever bytes it holds: what `store::inspect` says of it, and what an open finds. The disk is given back
/// as the open leaves it. A record of version 1 was then written anew in version 2, with the same state (docs/STORE.md,
/// "Migration"); else nothing was written.
///
/// Refused `NotFormatted` and `BadShape` by what the disk holds, `Device` where it failed in this call, and `Memory` where
/// there is no room for the memory of an image or for the journal of the open.
pub fn see_disk<D: Disk + Drop>(alloc: Global, mut disk: D) -> (D, Result<Seen, Refusal>)
    requires none_out { IsIdle (D.facts disk) }
    ensures seen { IfOk result.1 (IsSeen (D.facts disk).content) }
    ensures refused { IfErr result.1 (λ e. SeeRefused (D.facts disk) e (D.facts result.0)) }

    // And the other way round: a disk that an open refuses with 1 or 3 is refused with that number, or with 5. The disk of a
    // board is refused with 5 or 11 alone.
    ensures unformatted { ReadsAs (D.facts disk).content Refusal.NotFormatted
        → MatchResult result.1 (λ seen. ⊥) (λ e. (e ≡ Refusal.NotFormatted) ⊎ (e ≡ Refusal.Device)) }
    ensures bad_shape { ReadsAs (D.facts disk).content Refusal.BadShape
        → MatchResult result.1 (λ seen. ⊥) (λ e. (e ≡ Refusal.BadShape) ⊎ (e ≡ Refusal.Device)) }
    ensures board { (size : Size) → IsBoard size (D.facts disk).content
        → IfErr result.1 (λ e. (e ≡ Refusal.Device) ⊎ (e ≡ Refusal.Memory)) }

    ensures settles { IsSettled (D.facts disk) (D.facts result.0) }
{
    let inspection = match inspect(alloc, &mut disk) {
        Ok(inspection) => inspection,
        Err(refusal) => return (disk, Err(refusal)),
    };
    let (disk, found) = find(alloc, disk);
    match found {
        Ok(found) => (disk, Ok(Seen { inspection, found })),
        Err(refusal) => (disk, Err(refusal)),
    }
}
