//! What a crash may leave, to the letter.
ghost use Rattle.std.specs.Prelude.{◌≡◌, ◌⊎◌, ◌≤◌, ◌<◌, ◌+◌, ◌*◌, ◌↔◌, ℕ, length, take, drop};
ghost use Rattle.disk.specs.Facts.{Content, lent_sectors};
ghost use Rattle.disk.specs.WriteLog.{synced, synced_after, ranges, AgreesOutside, Untouched, Had};

use crate::logged::Logged;
use crate::sim::SimDisk;
use disk::Disk;

/// What a crash may leave, to the letter: each content that agrees with the one at the last sync
/// outside the ranges written since, whatever bytes are in them, and no other; and the same for
/// each moment since an earlier one. What is lent is among the ranges written.
pub fn exactly_the_model(disk: &SimDisk)
    ensures now { (c : Content) → (⟦<SimDisk as Disk>⟧.facts disk.now).may_leave c
        ↔ AgreesOutside (synced (⟦<SimDisk as Logged>⟧.log disk.now))
        (ranges (⟦<SimDisk as Logged>⟧.log disk.now).written) c }
    ensures moment { (⟦<SimDisk as Disk>⟧.facts disk.now).moment
        ≡ length (⟦<SimDisk as Logged>⟧.log disk.now).past }
    ensures since { (t : ℕ) (c : Content) → (⟦<SimDisk as Disk>⟧.facts disk.now).since t c
        ↔ ((⟦<SimDisk as Disk>⟧.facts disk.now).may_leave c
        ⊎ Had (synced_after (take t (⟦<SimDisk as Logged>⟧.log disk.now).past)
        (⟦<SimDisk as Logged>⟧.log disk.now).began)
        (drop t (⟦<SimDisk as Logged>⟧.log disk.now).past) c) }
    ensures lent { (k : ℕ) → (⟦<SimDisk as Disk>⟧.facts disk.now).lent.first ≤ k
        → k < (⟦<SimDisk as Disk>⟧.facts disk.now).lent.first + lent_sectors (⟦<SimDisk as Disk>⟧.facts disk.now).lent
        → Untouched (ranges (⟦<SimDisk as Logged>⟧.log disk.now).written) k → ⊥ }
{}
