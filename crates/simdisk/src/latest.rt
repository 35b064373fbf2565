//! What was written last on a disk.
ghost use Rattle.std.specs.Prelude.{◌≡◌, ◌≤◌, ◌<◌, ◌+◌, ◌*◌, ℕ, length, map, true, false, IfOk};
ghost use Rattle.disk.specs.Facts.{Content, Joined, lane_at};
ghost use Rattle.simdisk.specs.Lanes.{lane_view, newest_view};
ghost use Rattle.disk.specs.WriteLog.{laid_over, ranges, AgreesOutside, AreWithin};
ghost use Rattle.simdisk.specs.Views.{pieces};

use crate::laid::{copy_patches, overwrite};
use crate::lane::{LaneBytes, SimLane};
use crate::lending::{lay_row, stays_in_step};
use crate::loan::Loan;
use crate::patch::Patch;
use disk::Sector;
use std::alloc::{AllocError, Global};

/// What would stand had each failed write gone through: what a read gives, until a write fails, and
/// from then on these sectors. Their room is there from the start, so that a failure takes no memory.
#[derive(Drop)]
pub(crate) struct Latest {
    pub(crate) sectors: Vec<Sector>,
    pub(crate) as_read: bool,
}

impl Latest {
    ghost use Rattle.simdisk.specs.Latest.{latest_of, HasPlace};
    ghost use Rattle.simdisk.specs.Views.{lent_of};

    /// That of a disk of so many sectors on which no write has failed.
    pub(crate) fn begun(alloc: Global, count: usize) -> Result<Latest, AllocError>
        ensures { IfOk result (λ latest. (latest.as_read ≡ true) × HasPlace count latest) }
    {
        Ok(Latest {
            sectors: Vec::with_capacity(alloc, count)?,
            as_read: true,
        })
    }

    /// What it is on a disk of that content.
    pub(crate) fn over<'a>(&'a self, content: &'a [Sector]) -> &'a [Sector]
        ensures { result.now ≡ latest_of self.now content.now }
    {
        if self.as_read { content } else { &self.sectors }
    }

    /// Keeps it apart from what a read gives.
    pub(crate) fn part(&mut self, content: &[Sector])
        requires { HasPlace (length content.now) self.old }
        ensures apart { self.new.as_read ≡ false }
        ensures same { self.new.sectors.items ≡ latest_of self.old content.now }
        ensures as_long { length self.new.sectors.items ≡ length content.now }
        ensures place { HasPlace (length content.now) self.new }
    {
        if self.as_read {
            self.sectors.clear();
            let _ = self.sectors.extend_from_slice(content);
            self.as_read = false;
        }
    }

    /// It is what a read gives once more, where it differs in the sectors of these patches alone.
    pub(crate) fn catch_up(&mut self, patches: &[Patch], content: &[Sector])
        requires place { HasPlace (length content.now) self.old }
        requires fits { AreWithin (length content.now) (ranges (pieces patches.now)) }
        requires agrees { AgreesOutside (latest_of self.old content.now) (ranges (pieces patches.now)) content.now }
        ensures same { latest_of self.new content.now ≡ content.now }
        ensures place { HasPlace (length content.now) self.new }
    {
        if !self.as_read {
            copy_patches(&mut self.sectors, patches, content);
        }
    }

    /// Takes over a write of these sectors from that one on.
    pub(crate) fn write(&mut self, first: usize, sectors: &[Sector])
        requires { self.old.as_read ≡ false → first + length sectors.now ≤ length self.old.sectors.items }
        ensures written { (c : Content)
            → latest_of self.new (laid_over (first, sectors.now) c)
            ≡ laid_over (first, sectors.now) (latest_of self.old c) }
        ensures apart { self.old.as_read ≡ false
            → (self.new.as_read ≡ false)
            × (self.new.sectors.items ≡ laid_over (first, sectors.now) self.old.sectors.items) }
        ensures as_long { (n : ℕ) → HasPlace n self.old → HasPlace n self.new }
    {
        if !self.as_read {
            overwrite(&mut self.sectors, first, sectors);
        }
    }

    /// Takes over a failed write of these sectors, on a disk of that content.
    pub(crate) fn write_failed(&mut self, content: &[Sector], first: usize, sectors: &[Sector])
        requires long { HasPlace (length content.now) self.old }
        requires within { first + length sectors.now ≤ length content.now }
        ensures written { latest_of self.new content.now
            ≡ laid_over (first, sectors.now) (latest_of self.old content.now) }
        ensures as_long { HasPlace (length content.now) self.new }
    {
        self.part(content);
        overwrite(&mut self.sectors, first, sectors);
    }

    /// Takes over what was written last in the lanes of that loan, which come back to a disk of that content.
    pub(crate) fn join(&mut self, content: &[Sector], loan: Loan, lanes: &[SimLane])
        requires long { HasPlace (length content.now) self.old }
        requires count { length lanes.now ≡ loan.lanes }
        requires each { (i : ℕ) → i < loan.lanes → length (lane_at (map newest_view lanes.now) i).content ≡ loan.each }
        requires within { loan.first + loan.lanes * loan.each ≤ length content.now }
        ensures joined { (c : Content) → Joined (lent_of loan) (map lane_view lanes.now) content.now c
            → Joined (lent_of loan) (map newest_view lanes.now) (latest_of self.old content.now)
            (latest_of self.new c) }
        ensures as_long { HasPlace (length content.now) self.new }
    {
        if stays_in_step(self.as_read, lanes) {
            return;
        }
        self.part(content);
        lay_row(
            &mut self.sectors,
            loan.first,
            loan.lanes,
            loan.each,
            lanes,
            LaneBytes::Written,
        );
    }
}
