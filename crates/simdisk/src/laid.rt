//! Patches laid over a content.
ghost use Rattle.std.specs.Prelude.{◌≡◌, ◌≤◌, ◌<◌, ◌+◌, length, map, replicate};
ghost use Rattle.disk.specs.Facts.{Written};
ghost use Rattle.disk.specs.WriteLog.{laid_over, replay, piece_in, filled, ranges, AreWithin};
ghost use Rattle.simdisk.specs.Views.{alternating, pieces};

use crate::patch::Patch;
use disk::Sector;

/// Writes these sectors over those from that place on.
pub(crate) fn overwrite(content: &mut Vec<Sector>, first: usize, sectors: &[Sector])
    requires { first + length sectors.now ≤ length content.old.items }
    ensures written { Written first sectors.now content.old.items content.new.items }
    ensures put { content.new.items ≡ laid_over (first, sectors.now) content.old.items }
{
    content[first..first + sectors.len()].copy_from_slice(sectors);
}

/// Takes over from the content what stands in the sectors of these patches.
#[tactic(auto, using(disk::proofs::Pieces::length_replay))]
pub(crate) fn copy_patches(stood: &mut Vec<Sector>, patches: &[Patch], content: &[Sector])
    requires as_long { length content.now ≡ length stood.old.items }
    requires fits { AreWithin (length stood.old.items) (ranges (pieces patches.now)) }
    ensures { stood.new.items ≡ replay (map (piece_in content.now) (pieces patches.now)) stood.old.items }
{
    for patch in patches {
        patch.copy(stood, content);
    }
}

/// Fills the sectors of these patches each with those bytes.
#[tactic(auto, using(disk::proofs::Pieces::length_replay))]
pub(crate) fn fill_patches(content: &mut Vec<Sector>, patches: &[Patch], bytes: &Sector)
    requires { AreWithin (length content.old.items) (ranges (pieces patches.now)) }
    ensures content { content.new.items ≡ replay (map (filled bytes.now) (pieces patches.now)) content.old.items }
    ensures as_long { length content.new.items ≡ length content.old.items }
{
    for patch in patches {
        patch.fill(content, bytes);
    }
}

/// Fills so many sectors from that one on each with those bytes.
pub(crate) fn fill_range(content: &mut Vec<Sector>, first: usize, count: usize, bytes: &Sector)
    requires { first + count ≤ length content.old.items }
    ensures { content.new.items ≡ laid_over (first, replicate count bytes.now) content.old.items }
{
    fill_all(&mut content[first..first + count], bytes);
}

/// Fills all these sectors each with those bytes.
fn fill_all(sectors: &mut [Sector], bytes: &Sector)
    ensures { sectors.new ≡ replicate (length sectors.old) bytes.now }
{
    for sector in sectors.iter_mut() {
        *sector = *bytes;
    }
}

/// A sector with 0x55 at each even place of it, and 0xaa at each odd one.
pub(crate) fn alternating() -> Sector
    ensures { result ≡ alternating }
{
    let pairs = [[0x55, 0xaa]; 256];
    let mut sector = [0; 512];
    sector.copy_from_slice(pairs.as_flattened());
    sector
}
