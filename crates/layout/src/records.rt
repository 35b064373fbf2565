//! The record, in both versions.

ghost use Rattle.std.specs.Prelude.{◌≡◌, Ok, Some, IfOk, IfErr, IfSome, length};
ghost use Rattle.board_model.specs.Views.{reason_number};
ghost use Rattle.board_model.specs.declared.durable.Reason.{Reason};
ghost use Rattle.layout.specs.Fields.{fields_bytes};
ghost use Rattle.layout.specs.Records.{version_number, head_fields, record_of, durable_in, IsInRange, IsRecord};

use crate::fields::{Filling, is_same, u32_at, u64_at};
use crate::saved::{Saved, fill_image, presence_of, saved_in};
use crate::trials::{fill_trial, trial_in};
use board_model::{Durable, Reason, Refusal, Shape, Slot, Trial};

/// The form of a record.
#[derive(Clone, Copy, PartialEq, Eq, Drop)]
pub enum Version {
    /// Without a trial. It is read, and never written.
    One,
    /// With a trial, where one stands.
    Two,
}

impl Version {
    /// The number in a record's first bytes.
    fn number(self) -> u32
        ensures { result ≡ version_number self }
    {
        match self {
            Version::One => 1,
            Version::Two => 2,
        }
    }
}

/// A record: the durable state, and where its image stands.
#[derive(Clone, Copy, PartialEq, Eq, Drop)]
pub struct Record {
    pub version: Version,
    pub slot: Slot,
    pub reason: Reason,
    /// The serial of the next suspension.
    pub next: u64,
    pub image: Option<Saved>,
    /// The trial of the slot, where one stands: in version 2 alone.
    pub trial: Option<Trial>,
}

impl Record {
    /// The durable state, without the image's memory.
    pub fn durable(&self) -> Durable
        ensures { result ≡ durable_in self.now }
    {
        Durable {
            image: match self.image {
                None => None,
                Some(saved) => Some(saved.head),
            },
            slot: self.slot,
            reason: self.reason,
            next: self.next,
            trial: self.trial,
        }
    }
}

/// The record's bytes (docs/STORE.md, "Record").
pub fn record_bytes(r: &Record) -> [u8; 512]
    ensures { result ≡ record_of r.now }
{
    let mut sector = head_of(r);
    fill_image(&mut sector, &r.image);
    fill_trial(&mut sector, &r.trial);
    sector.finish()
}

/// The first 24 bytes.
fn head_of(r: &Record) -> Filling
    ensures value { result ≡ fields_bytes (head_fields r.now) }
    ensures length { length result ≡ 24 }
{
    let mut sector = Filling::new();
    sector.u32(r.version.number());
    sector.u32(r.slot.number());
    sector.u32(r.reason.number());
    sector.u32(presence_of(&r.image));
    sector.u64(r.next);
    sector
}

/// The record that the sector is the one spelling of, on a board of that shape. Refused `BadRecord` where
/// there is none: a version that is neither 1 nor 2, a number out of its range, or a byte that is not 0 where
/// the form has 0.
pub fn parse_record(sector: &[u8; 512], shape: &Shape) -> Result<Record, Refusal>
    ensures ok { IfOk result (λ r. IsRecord shape.now r sector.now) }
    ensures exact { (r : Record) → IsRecord shape.now r sector.now → result ≡ Ok r }
    ensures refused { IfErr result (λ e. e ≡ Refusal.BadRecord) }
{
    let found = record_in(sector, shape).ok_or(Refusal::BadRecord)?;
    if !is_same(&record_bytes(&found), sector) {
        return Err(Refusal::BadRecord);
    }
    Ok(found)
}

/// The record that the numbers of the sector make, where each is in its range.
fn record_in(sector: &[u8; 512], shape: &Shape) -> Option<Record>
    ensures in_range { IfSome result (λ r. IsInRange shape.now r) }
    ensures exact { (r : Record) → IsRecord shape.now r sector.now → result ≡ Some r }
{
    let version = version_of(u32_at(sector, 0))?;
    let slot = Slot::new(u32_at(sector, 4))?;
    let reason = reason_of(u32_at(sector, 8))?;
    let next = u64_at(sector, 16);
    let image = match u32_at(sector, 12) {
        0 => None,
        1 => Some(saved_in(sector, shape, next)?),
        _ => return None,
    };
    let trial = trial_in(sector, version)?;
    Some(Record {
        version,
        slot,
        reason,
        next,
        image,
        trial,
    })
}

fn version_of(number: u32) -> Option<Version>
    ensures exact { (v : Version) → number ≡ version_number v → result ≡ Some v }
{
    match number {
        1 => Some(Version::One),
        2 => Some(Version::Two),
        _ => None,
    }
}

fn reason_of(number: u32) -> Option<Reason>
    ensures some { IfSome result (λ r. number ≡ reason_number r) }
    ensures exact { (r : Reason) → number ≡ reason_number r → result ≡ Some r }
{
    match number {
        0 => Some(Reason::NoReason),
        1 => Some(Reason::SystemFailure),
        _ => None,
    }
}
