//! The trial of a record.

ghost use Rattle.std.specs.Prelude.{◌≡◌, ◌≤◌, ◌++◌, Some, IfSome, length};
ghost use Rattle.board_model.specs.Shapes.{Size};
ghost use Rattle.board_model.specs.declared.durable.Trial.{Trial};
ghost use Rattle.layout.specs.Fields.{fields_bytes, number_at};
ghost use Rattle.layout.specs.Records.{trial_fields, IsTrialIn, IsRecord};
ghost use Rattle.layout.specs.declared.records.Record.{Record};
ghost use Rattle.layout.specs.declared.records.Version.{Version};

use crate::fields::{Filling, u32_at};
use crate::records::Version;
use board_model::{Boots, Slot, Trial};

/// The 12 bytes of a trial, or of none.
pub(crate) fn fill_trial(sector: &mut Filling, trial: &Option<Trial>)
    requires { length sector.old ≡ 72 }
    ensures { sector.new ≡ sector.old ++ fields_bytes (trial_fields trial.now) }
{
    match trial {
        None => sector.bytes(&[0; 12]),
        Some(trial) => {
            sector.u32(1);
            sector.u32(trial.fallback.number());
            sector.u32(trial.left.number());
        }
    }
}

/// The trial that the numbers of the sector make, where each is in its range; none in version 1.
pub(crate) fn trial_in(sector: &[u8; 512], version: Version) -> Option<Option<Trial>>
    ensures in_range { IfSome result (λ trial. IsTrialIn version trial) }
    ensures exact { (r : Record) (size : Size) → IsRecord size r sector.now → version ≡ r.version
        → result ≡ Some r.trial }
{
    match u32_at(sector, 72) {
        0 => Some(None),
        1 => Some(Some(standing_trial(sector, version)?)),
        _ => None,
    }
}

fn standing_trial(sector: &[u8; 512], version: Version) -> Option<Trial>
    ensures in_range { IfSome result (λ t. (version ≡ Version.Two) × (t.fallback ≤ 3) × (t.left ≤ 7)) }
    ensures exact { (t : Trial) → version ≡ Version.Two → t.fallback ≤ 3 → t.left ≤ 7
        → number_at 4 76 sector.now ≡ t.fallback → number_at 4 80 sector.now ≡ t.left → result ≡ Some t }
{
    if version == Version::One {
        return None;
    }
    let fallback = Slot::new(u32_at(sector, 76))?;
    let left = Boots::new(u32_at(sector, 80))?;
    Some(Trial { fallback, left })
}
