//! How the log of writes and syncs grows.
ghost use Rattle.std.specs.Prelude.{◌≡◌, ◌≤◌, ◌<◌, ◌+◌, ◌*◌, ℕ, [], ◌∷◌, length, map, true, OnOk, OnErr, IfOk};
ghost use Rattle.disk.specs.Facts.{Content, Handed, Torn};
ghost use Rattle.simdisk.specs.Views.{IsLatest, left_by_fill, pieces};
ghost use Rattle.disk.specs.WriteLog.{new_log, more_written, more_synced, lent_piece, newest, replay, synced, ranges, AgreesOutside, AreWithin};

use crate::copies::are_empty;
use crate::faults::Faults;
use crate::fill::Fill;
use crate::history::History;
use crate::laid::{alternating, fill_patches};
use crate::lane::SimLane;
use crate::latest::Latest;
use crate::lending::lend;
use crate::loan::Loan;
use crate::patch::{Patch, copy_of};
use crate::remembered::Remembered;
use disk::Sector;
use std::alloc::{AllocError, Global};

/// What a crash leaves by that fill of a disk on which those sectors were written, and these would stand had
/// each write gone through.
fn leave(content: &mut Vec<Sector>, written: &[Patch], fill: Fill, last: &[Sector])
    requires fits { AreWithin (length content.old.items) (ranges (pieces written.now)) }
    requires last { last.now ≡ replay (pieces written.now) content.old.items }
    requires as_long { length last.now ≡ length content.old.items }
    ensures { content.new.items ≡ left_by_fill fill content.old.items (pieces written.now) }
{
    match fill {
        Fill::Byte(byte) => fill_patches(content, written, &[byte; 512]),
        Fill::Alternating => fill_patches(content, written, &alternating()),
        Fill::Old => {}
        Fill::New => content.copy_from_slice(last),
    }
}

impl History {
    ghost use Rattle.simdisk.specs.History.{log_of, Stands};
    ghost use Rattle.simdisk.specs.Latest.{latest_of, HasPlace};
    ghost use Rattle.simdisk.specs.Views.{lent_of};
    ghost use Rattle.simdisk.specs.Lanes.{lane_view, lane_state};
    ghost use Rattle.simdisk.specs.LaneStates.{AreLent};

    /// The log of a disk that begins with these sectors.
    pub(crate) fn begun(alloc: Global, sectors: &[Sector]) -> Result<History, AllocError>
        ensures log { IfOk result (λ h. log_of h ≡ new_log sectors.now) }
        ensures stands { IfOk result (λ h. Stands sectors.now h) }
    {
        Ok(History {
            stood: Latest::begun(alloc, sectors.len())?,
            written: Vec::new(alloc),
            past: Remembered::of(sectors),
        })
    }

    /// Notes a write of these sectors, on a disk of that content, and keeps what stood apart from it. At `Err`
    /// nothing has changed.
    pub(crate) fn note(
        &mut self,
        content: &[Sector],
        first: usize,
        sectors: &[Sector],
    ) -> Result<(), AllocError>
        requires within { first + length sectors.now ≤ length (synced (log_of self.old)) }
        requires stands { Stands content.now self.old }
        ensures noted { OnOk result (log_of self.new ≡ more_written (first, sectors.now) (log_of self.old)) }
        ensures refused { OnErr result (log_of self.new ≡ log_of self.old) }
        ensures synced { synced (log_of self.new) ≡ synced (log_of self.old) }
        ensures apart { OnOk result ((c : Content) → length c ≡ length content.now → Stands c self.new) }
        ensures stays { OnErr result (Stands content.now self.new) }
    {
        self.written.reserve(1)?;
        self.stood.part(content);
        self.written.push_reserved(Patch::of(first, sectors));
        Ok(())
    }

    /// Notes a sync of that content. From now on these patches are written.
    pub(crate) fn sync(&mut self, content: &[Sector], next: Vec<Patch>)
        requires agrees { AgreesOutside (synced (log_of self.old)) (ranges (pieces self.old.written.items))
            content.now }
        requires fits { AreWithin (length (synced (log_of self.old))) (ranges (pieces next.items)) }
        requires stands { Stands content.now self.old }
        ensures noted { log_of self.new ≡ more_synced content.now (pieces next.items) (log_of self.old) }
        ensures synced { synced (log_of self.new) ≡ content.now }
        ensures stands { Stands content.now self.new }
    {
        self.past.sync(&self.written, content);
        self.stood.catch_up(&self.written, content);
        self.written = next;
    }

    /// Notes a sync of content that is lent in part: that part stays written.
    pub(crate) fn end_epoch(
        &mut self,
        alloc: Global,
        content: &Vec<Sector>,
        loan: Loan,
    ) -> Result<(), AllocError>
        requires agrees { AgreesOutside (synced (log_of self.old)) (ranges (pieces self.old.written.items))
            content.now.items }
        requires within { loan.first + loan.lanes * loan.each ≤ length content.now.items }
        requires stands { Stands content.now.items self.old }
        ensures noted { OnOk result
            (log_of self.new
            ≡ more_synced content.now.items (lent_piece (lent_of loan) content.now.items ∷ []) (log_of self.old)) }
        ensures synced { OnOk result (synced (log_of self.new) ≡ content.now.items) }
        ensures refused { OnErr result
            ((log_of self.new ≡ log_of self.old) × (synced (log_of self.new) ≡ synced (log_of self.old))) }
        ensures stands { Stands content.now.items self.new }
    {
        let end = loan.first + loan.lanes * loan.each;
        let lent = Patch::of(loan.first, &content[loan.first..end]);
        let next = vec![in alloc; lent]?;
        self.sync(content, next);
        Ok(())
    }

    /// Lends the lanes of that loan, of a disk with that content, and notes it. The second content would
    /// stand had each failed write gone through; where they are in step, it is the first. At `Err`
    /// nothing has changed.
    pub(crate) fn lend(
        &mut self,
        alloc: Global,
        content: &[Sector],
        last: &[Sector],
        in_step: bool,
        faults: Faults,
        loan: Loan,
    ) -> Result<Vec<SimLane>, AllocError>
        requires few { loan.lanes ≤ 4 }
        requires within { loan.first + loan.lanes * loan.each ≤ length content.now }
        requires as_long { length last.now ≡ length content.now }
        requires in_step { in_step ≡ true → last.now ≡ content.now }
        requires long { length content.now ≡ length (synced (log_of self.old)) }
        requires stands { Stands content.now self.old }
        ensures handed { IfOk result (λ out. Handed (lent_of loan) content.now (map lane_view out.items)) }
        ensures lent { IfOk result (λ out. AreLent (lent_of loan) last.now faults.armed faults.cut
            (map lane_state out.items)) }
        ensures noted { OnOk result
            (log_of self.new ≡ more_written (lent_piece (lent_of loan) last.now) (log_of self.old)) }
        ensures refused { OnErr result (log_of self.new ≡ log_of self.old) }
        ensures synced { synced (log_of self.new) ≡ synced (log_of self.old) }
        ensures apart { OnOk result ((c : Content) → length c ≡ length content.now → Stands c self.new) }
        ensures stays { OnErr result (Stands content.now self.new) }
    {
        let out = lend(
            alloc, content, last, in_step, faults, loan.first, loan.lanes, loan.each,
        )?;
        let end = loan.first + loan.lanes * loan.each;
        self.note(content, loan.first, &last[loan.first..end])?;
        Ok(out)
    }

    /// Takes over what would stand now, had each failed write gone through, after the lanes of that loan
    /// came back.
    pub(crate) fn take_newest(&mut self, loan: Loan, last: &[Sector])
        requires torn { Torn loan.first (loan.lanes * loan.each) (newest (log_of self.old)) last.now }
        requires noted { 0 < loan.lanes
            → IsLatest (ranges (pieces self.old.written.items)) loan.patch (loan.first, loan.lanes * loan.each) }
        ensures ranges { ranges (pieces self.new.written.items) ≡ ranges (pieces self.old.written.items) }
        ensures past { (log_of self.new).past ≡ (log_of self.old).past }
        ensures began { (log_of self.new).began ≡ (log_of self.old).began }
        ensures synced { synced (log_of self.new) ≡ synced (log_of self.old) }
        ensures newest { newest (log_of self.new) ≡ last.now }
        ensures stands { (c : Content) → Stands c self.old → Stands c self.new }
    {
        if loan.lanes == 0 {
            return;
        }
        self.written[loan.patch].retake(last);
    }

    /// What a crash leaves by that fill of a disk of that content, where those sectors would stand had each write
    /// gone through.
    pub(crate) fn content_left(
        &self,
        alloc: Global,
        fill: Fill,
        content: &[Sector],
        last: &[Sector],
    ) -> Result<Vec<Sector>, AllocError>
        requires last { last.now ≡ newest (log_of self.now) }
        requires stands { Stands content.now self.now }
        ensures { IfOk result (λ content. content.items
            ≡ left_by_fill fill (synced (log_of self.now)) (pieces self.now.written.items)) }
    {
        if matches!(fill, Fill::New) {
            return copy_of(alloc, last);
        }
        let mut left = copy_of(alloc, self.stood.over(content))?;
        leave(&mut left, &self.written, fill, last);
        Ok(left)
    }

    /// Makes of that content what a crash by that fill leaves of its disk, on which that was written last. Where nothing was
    /// written since the last sync it stays, and nothing is copied.
    pub(crate) fn cut(&mut self, fill: Fill, content: &mut Vec<Sector>, latest: &Latest)
        requires newest { newest (log_of self.old) ≡ latest_of latest.now content.old.items }
        requires agrees { AgreesOutside (synced (log_of self.old)) (ranges (pieces self.old.written.items)) content.old.items }
        requires stands { Stands content.old.items self.old }
        ensures left { content.new.items ≡ left_by_fill fill (synced (log_of self.old)) (pieces self.old.written.items) }
        ensures place { HasPlace (length content.new.items) self.new.stood }
        ensures as_long { length content.new.items ≡ length content.old.items }
    {
        if are_empty(&self.written) {
            return;
        }
        self.stood.part(content);
        let last = latest.over(content);
        leave(&mut self.stood.sectors, &self.written, fill, last);
        content.copy_from_slice(&self.stood.sectors);
    }

    /// The log of a disk that begins with these sectors, in the room of this one.
    pub(crate) fn begun_anew(self, alloc: Global, sectors: &[Sector]) -> History
        requires place { HasPlace (length sectors.now) self.stood }
        ensures log { log_of result ≡ new_log sectors.now }
        ensures stands { Stands sectors.now result }
    {
        let mut stood = self.stood;
        stood.as_read = true;
        History {
            stood,
            written: Vec::new(alloc),
            past: Remembered::of(sectors),
        }
    }
}
