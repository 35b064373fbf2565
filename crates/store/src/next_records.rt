//! The records that a format, a renewal, a command and a suspension make.

ghost use Rattle.std.specs.Prelude.{◌≡◌, ◌+◌, ◌-◌, ◌<◌, ◌^◌, Some, None, IfOk, IfErr, OnOk};
ghost use Rattle.board_model.specs.Durable.{refusal_of};
ghost use Rattle.board_model.specs.Shapes.{Size};
ghost use Rattle.board_model.specs.Views.{change_of, number_of_refusal};
ghost use Rattle.disk.specs.Facts.{Content};
ghost use Rattle.layout.specs.declared.saved.Saved.{Saved};
ghost use Rattle.store.specs.Follows.{next_of, durable_after, suspended, Follows};
ghost use Rattle.store.specs.Formats.{formatted_record};
ghost use Rattle.store.specs.Opens.{renewed_record};
ghost use Rattle.store.specs.Standing.{state_of};

use crate::saving::Resumption;
use board_model::{Command, Durable, Entry, Reason, Refusal, Slot};
use layout::{Record, Saved, Side, Version};
use savers::LaneCounts;

/// The record of a disk that was just formatted.
pub fn formatted_record() -> Record
    ensures { result ≡ formatted_record }
{
    Record {
        version: Version::Two,
        slot: Slot::new(0).unwrap(),
        reason: Reason::NoReason,
        next: 0,
        image: None,
        trial: None,
    }
}

/// That record in version 2.
pub fn in_version_two(r: &Record) -> Record
    ensures { result ≡ renewed_record r.now }
{
    Record {
        version: Version::Two,
        ..*r
    }
}

/// The record that the command makes. Refused by the table of commands, and so by none of the refusals that a
/// store has of its own.
pub fn record_after(old: &Record, command: Command) -> Result<Record, Refusal>
    ensures ok { IfOk result (λ next. (size : Size) (content : Content)
        → (refusal_of (state_of size old.now content) (change_of command) ≡ None)
        × Follows size old.now (Entry.Command command) next) }
    ensures refused { IfErr result (λ e. (size : Size) (content : Content)
        → refusal_of (state_of size old.now content) (change_of command) ≡ Some (number_of_refusal e)) }
    ensures others { IfErr result
        (λ e. (e ≡ Refusal.Device → ⊥) × (e ≡ Refusal.Down → ⊥) × (e ≡ Refusal.Memory → ⊥)) }
{
    let durable = old.durable().after(command)?;
    Ok(next_record(old, &durable))
}

/// The record of that durable state, whose image, where it has one, is the old record's.
fn next_record(old: &Record, durable: &Durable) -> Record
    ensures { result ≡ next_of old.now durable.now }
{
    Record {
        version: Version::Two,
        slot: durable.slot,
        reason: durable.reason,
        next: durable.next,
        image: if durable.image.is_some() {
            old.image
        } else {
            None
        },
        trial: durable.trial,
    }
}

/// The area that the record's image does not use, area 0 where there is none.
pub(crate) fn free_area(r: &Record) -> Side
    ensures free { (saved : Saved) → r.now.image ≡ Some saved
        → (result ≡ 0 → saved.area ≡ 0 → ⊥) × (result ≡ 1 → saved.area ≡ 1 → ⊥) }
    ensures first { r.now.image ≡ None → result ≡ 0 }
    ensures range { result < 2 }
{
    match r.image {
        None => Side::first(),
        Some(saved) => saved.area.other(),
    }
}

/// The durable state that a suspension makes of a record's. Refused `SerialsSpent` by the table of commands.
pub(crate) fn suspended_state(old: &Record, at: Resumption) -> Result<Durable, Refusal>
    ensures ok { OnOk result (old.now.next + 1 < 2 ^ 64) }
    ensures after { IfOk result (λ durable. durable ≡ durable_after old.now at) }
    ensures refused { IfErr result (λ e. (e ≡ Refusal.SerialsSpent) × (old.now.next ≡ 2 ^ 64 - 1)) }
{
    let _serial = old.next;
    old.durable().after_suspend(at.hart, at.address, at.opaque)
}

/// The record of that durable state, where the memory of its image stands in that area.
pub(crate) fn suspended(durable: &Durable, area: Side, counts: LaneCounts) -> Record
    ensures { result ≡ suspended durable.now area counts }
{
    Record {
        version: Version::Two,
        slot: durable.slot,
        reason: durable.reason,
        next: durable.next,
        image: durable.image.map(|head| Saved { head, area, counts }),
        trial: durable.trial,
    }
}
