//! A disk that somebody writes past the firmware.
ghost use Rattle.std.specs.Prelude.{◌≡◌, ◌≤◌, ◌<◌, ◌+◌, ◌-◌, ◌^◌, ◌++◌, [], ◌∷◌, length, IsOk, OnOk, OnErr, IfOk};
ghost use Rattle.std.specs.List.{flat_map};
ghost use Rattle.disk.specs.Calls.{NoCall};
ghost use Rattle.disk.specs.Facts.{Content, Unchanged};
ghost use Rattle.simdisk.specs.Pokes.{bytes_put, poked, parted, poked_log, PokeFits, StandsSo, StandsByEach};
ghost use Rattle.disk.specs.WriteLog.{synced};
ghost use Rattle.simdisk.specs.Views.{piece, pieces};

use crate::history::History;
use crate::laid::overwrite;
use crate::logged::Logged;
use crate::patch::Patch;
use crate::remembered::Remembered;
use crate::sim::SimDisk;
use disk::{Disk, Sector};
use std::alloc::{AllocError, Global};

/// Puts these bytes into the sector, from that one on.
fn put_bytes(sector: &mut Sector, offset: usize, bytes: &[u8])
    requires { offset + length bytes.now ≤ 512 }
    ensures { sector.new ≡ bytes_put offset bytes.now sector.old }
{
    sector[offset..offset + bytes.len()].copy_from_slice(bytes);
}

impl Patch {
    /// Adds its sectors but that one.
    fn push_parts(&self, sector: usize, out: &mut Vec<Patch>) -> Result<(), AllocError>
        requires { sector < 2 ^ 64 - 1 }
        ensures { OnOk result (pieces out.new.items ≡ pieces out.old.items ++ parted sector (piece self.now)) }
    {
        if sector < self.first || self.count <= sector - self.first {
            return push_to(out, self.behind(0));
        }
        let at = sector - self.first;
        push_to(out, self.before(at))?;
        push_to(out, self.behind(at + 1))
    }
}

/// Adds a patch.
fn push_to(out: &mut Vec<Patch>, patch: Patch) -> Result<(), AllocError>
    ensures { OnOk result (pieces out.new.items ≡ pieces out.old.items ++ piece patch ∷ []) }
{
    out.push(patch)?;
    Ok(())
}

/// The patches without that sector.
fn parts_of(alloc: Global, patches: &[Patch], sector: usize) -> Result<Vec<Patch>, AllocError>
    requires { sector < 2 ^ 64 - 1 }
    ensures { IfOk result (λ out. pieces out.items ≡ flat_map (parted sector) (pieces patches.now)) }
{
    let mut out = Vec::new(alloc);
    for patch in patches {
        patch.push_parts(sector, &mut out)?;
    }
    Ok(out)
}

impl History {
    ghost use Rattle.simdisk.specs.History.{log_of, Stands};

    /// The write log of a disk of that content begins anew, with these bytes in that sector, and without what was
    /// written to it since the last sync. At `Err` nothing has changed.
    fn set_sector(
        &mut self,
        alloc: Global,
        content: &[Sector],
        sector: usize,
        bytes: Sector,
    ) -> Result<(), AllocError>
        requires within { sector < length (synced (log_of self.old)) }
        requires stands { Stands content.now self.old }
        ensures log { OnOk result (log_of self.new ≡ poked_log sector bytes (log_of self.old)) }
        ensures refused { OnErr result (log_of self.new ≡ log_of self.old) }
        ensures apart { OnOk result ((c : Content) → length c ≡ length content.now → Stands c self.new) }
        ensures stays { OnErr result (Stands content.now self.new) }
    {
        let written = parts_of(alloc, &self.written, sector)?;
        self.stood.part(content);
        overwrite(&mut self.stood.sectors, sector, &[bytes]);
        self.written = written;
        self.past = Remembered::of(&self.stood.sectors);
        Ok(())
    }
}

impl SimDisk {
    /// Puts these bytes into a sector, from that byte of it on, past the firmware. A read then gives
    /// them, and the sector stands as it then reads, whatever a cut leaves of the others. It is no
    /// call of the disk, and what is armed stays. The write log begins anew.
    ///
    /// Nothing changes where the bytes don't end in a sector that the disk has, nor where memory is
    /// refused.
    pub fn poke(&mut self, sector: usize, offset: usize, bytes: &[u8]) -> Result<(), AllocError>
        requires { (⟦<SimDisk as Disk>⟧.facts self.old).lent.lanes ≡ 0 }
        ensures stands { OnOk result (PokeFits sector offset bytes.now (⟦<SimDisk as Disk>⟧.facts self.old).content
            → StandsSo sector (poked sector offset bytes.now (⟦<SimDisk as Disk>⟧.facts self.old).content)
            (⟦<SimDisk as Disk>⟧.facts self.old) (⟦<SimDisk as Disk>⟧.facts self.new)) }
        ensures fills { OnOk result (PokeFits sector offset bytes.now (⟦<SimDisk as Disk>⟧.facts self.old).content
            → StandsByEach sector (poked sector offset bytes.now (⟦<SimDisk as Disk>⟧.facts self.old).content)
            (⟦<SimDisk as Logged>⟧.log self.old) (⟦<SimDisk as Logged>⟧.log self.new)) }
        ensures log { OnOk result (PokeFits sector offset bytes.now (⟦<SimDisk as Disk>⟧.facts self.old).content
            → ⟦<SimDisk as Logged>⟧.log self.new
            ≡ poked_log sector (poked sector offset bytes.now (⟦<SimDisk as Disk>⟧.facts self.old).content)
            (⟦<SimDisk as Logged>⟧.log self.old)) }
        ensures outside { (PokeFits sector offset bytes.now (⟦<SimDisk as Disk>⟧.facts self.old).content → ⊥)
            → IsOk result × Unchanged (⟦<SimDisk as Disk>⟧.facts self.old) (⟦<SimDisk as Disk>⟧.facts self.new)
            × (⟦<SimDisk as Logged>⟧.log self.new ≡ ⟦<SimDisk as Logged>⟧.log self.old) }
        ensures refused { OnErr result
            (Unchanged (⟦<SimDisk as Disk>⟧.facts self.old) (⟦<SimDisk as Disk>⟧.facts self.new)
            × (⟦<SimDisk as Logged>⟧.log self.new ≡ ⟦<SimDisk as Logged>⟧.log self.old)) }
        ensures no_call { NoCall (⟦<SimDisk as Disk>⟧.facts self.old) (⟦<SimDisk as Disk>⟧.facts self.new)
            (⟦<SimDisk as Disk>⟧.fault_state self.old) (⟦<SimDisk as Disk>⟧.fault_state self.new) }
        ensures lent { (⟦<SimDisk as Disk>⟧.facts self.new).lent ≡ (⟦<SimDisk as Disk>⟧.facts self.old).lent }
        ensures as_long { length (⟦<SimDisk as Disk>⟧.facts self.new).content
            ≡ length (⟦<SimDisk as Disk>⟧.facts self.old).content }
        ensures armed { ⟦<SimDisk as Logged>⟧.armed self.new ≡ ⟦<SimDisk as Logged>⟧.armed self.old }
    {
        if self.content.len() <= sector || 512 < offset || 512 - offset < bytes.len() {
            return Ok(());
        }
        let mut stands = self.content[sector];
        put_bytes(&mut stands, offset, bytes);
        self.history
            .set_sector(self.alloc, &self.content, sector, stands)?;
        overwrite(&mut self.content, sector, &[stands]);
        self.latest.write(sector, &[stands]);
        Ok(())
    }
}
