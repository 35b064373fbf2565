//! Calls for one sector.
ghost use Rattle.std.specs.Prelude.{◌≡◌, ◌<◌, [], ◌∷◌, length, OnOk, IfOk};
ghost use Rattle.disk.specs.Facts.{sector, Torn, Written, Stays, Only};
ghost use Rattle.disk.specs.Calls.{MakesCalls};

use crate::{Disk, Fault, Sector};

/// Writes a sector and makes it durable: `write` for one sector, and then `sync`. At `Err` one of
/// the two failed, and a crash may leave any bytes in that sector.
pub fn write_synced<D: Disk>(disk: &mut D, at: usize, bytes: &Sector) -> Result<(), Fault>
    requires within { at < length (D.facts disk.old).content }
    requires none_out { (D.facts disk.old).lent.lanes ≡ 0 }
    ensures written { OnOk result (Written at (bytes.now ∷ []) (D.facts disk.old).content (D.facts disk.new).content) }
    ensures durable { OnOk result (Only (D.facts disk.new).content (D.facts disk.new).may_leave) }
    ensures called { MakesCalls 2 (Torn at 1) (D.facts disk.old) (D.facts disk.new) (D.fault_state disk.old)
        (D.fault_state disk.new) result }
{
    disk.write(at, &[*bytes])?;
    disk.sync()
}

/// What stands in a sector: `read` for one sector, which makes nothing durable.
pub fn read_sector<D: Disk>(disk: &mut D, at: usize) -> Result<Sector, Fault>
    requires within { at < length (D.facts disk.old).content }
    requires none_out { (D.facts disk.old).lent.lanes ≡ 0 }
    ensures found { IfOk result (λ bytes. bytes ≡ sector (D.facts disk.old).content at) }
    ensures unsynced { (D.facts disk.new).moment ≡ (D.facts disk.old).moment }
    ensures called { MakesCalls 1 Stays (D.facts disk.old) (D.facts disk.new) (D.fault_state disk.old)
        (D.fault_state disk.new) result }
{
    let mut sectors = [[0; 512]];
    disk.read(at, &mut sectors)?;
    Ok(sectors[0])
}
