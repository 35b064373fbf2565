//! The migration: a record of version 1 is written anew in version 2, as the same state.
ghost use Rattle.std.specs.Prelude.{◌≡◌, ◌≤◌, ℕ, None, IfOk, IfErr};
ghost use Rattle.disk.specs.Calls.{MakesCalls};
ghost use Rattle.disk.specs.Facts.{Content, LeavesSince, Failed, counted};
ghost use Rattle.layout.specs.Records.{IsInRange};
ghost use Rattle.store.specs.Commits.{SameAreas, Keeps};
ghost use Rattle.store.specs.Leaves.{IsSettled};
ghost use Rattle.store.specs.Opens.{FailsForCause, RenewalCalls};
ghost use Rattle.store.specs.Renewals.{IsKeptAnew};
ghost use Rattle.store.specs.Standing.{StandsFor, state_of};

use crate::commits::commit;
use crate::next_records::in_version_two;
use crate::opens::FoundRecord;
use board_model::Refusal;
use disk::Disk;
use layout::{Record, Version};

/// Writes the next record, which is of the same state, by one commit. At each moment of the call, and whatever
/// it answers, a crash leaves a content that stands for that state. Refused `Device` where the disk failed in
/// this call, before the gate was written or at it.
fn renewed<D: Disk>(disk: &mut D, found: FoundRecord, next: &Record) -> Result<FoundRecord, Refusal>
    requires keeps { Keeps (D.facts disk.old) found.shape found.side found.record None }
    requires in_range { IsInRange found.shape next.now }
    requires same { (c : Content) → state_of found.shape next.now c ≡ state_of found.shape found.record c }
    ensures keeps { IfOk result (λ f. Keeps (D.facts disk.new) f.shape f.side f.record None
        × (f.shape ≡ found.shape) × (f.record ≡ next.now)) }
    ensures any_moment { LeavesSince (D.facts disk.old) (D.facts disk.new) (λ c. StandsFor c found.shape
        (state_of found.shape found.record (D.facts disk.old).content)) }
    ensures refused { IfErr result (λ e. e ≡ Refusal.Device) }
    ensures called { MakesCalls 4 SameAreas (D.facts disk.old) (D.facts disk.new) (D.fault_state disk.old)
        (D.fault_state disk.new) result }
    ensures no_fewer { (D.facts disk.old).failures ≤ (D.facts disk.new).failures }
{
    match commit(disk, found.side, next) {
        Ok(()) => Ok(FoundRecord {
            record: *next,
            side: found.side.other(),
            ..found
        }),
        Err(_) => Err(Refusal::Device),
    }
}

/// What an open has found, with its record as this firmware writes it: one of version 1 is written anew, as the
/// same state (docs/STORE.md, "Migration"). At each moment a crash leaves that state. Refused `Device` where
/// the disk failed in this call; then too, each crash leaves that state.
pub fn migrated<D: Disk>(disk: &mut D, found: FoundRecord) -> Result<FoundRecord, Refusal>
    requires keeps { Keeps (D.facts disk.old) found.shape found.side found.record None }
    ensures kept { IfOk result (λ kept. IsKeptAnew (D.facts disk.old) found (D.facts disk.new) kept) }
    ensures settles { IsSettled (D.facts disk.old) (D.facts disk.new) }
    ensures refused { IfErr result (λ e. (e ≡ Refusal.Device)
        × Failed (D.facts disk.old).failures (D.facts disk.new).failures) }
    ensures cause { FailsForCause (D.facts disk.old) (D.fault_state disk.old) result (D.facts disk.new)
        (D.fault_state disk.new) }
    ensures calls { (start : ℕ) → (D.facts disk.old).calls ≡ counted start 4
        → RenewalCalls (D.facts disk.old).content start result (D.facts disk.new).calls }
{
    match found.record.version {
        Version::Two => Ok(found),
        Version::One => {
            let next = in_version_two(&found.record);
            let kept = renewed(disk, found, &next)?;
            Ok(kept)
        }
    }
}
