//! A disk that hands each call on to another: the skeleton of docs/PORTING.md, "A disk of your own". What is to be copied stands between
//! the lines of dashes.
// ----
ghost use Rattle.disk.specs.Facts.{Unchanged};

use disk::{ArmedFault, Disk, Fault, Sector};
use std::alloc::AllocError;

/// A disk that hands each call on to another.
#[derive(Drop)]
pub struct Mine<D: Disk + Drop> {
    inner: D,
}

impl<D: Disk + Drop> Mine<D> {
    /// The disk over that one.
    pub fn new(inner: D) -> Mine<D>
        ensures { Unchanged (D.facts inner) (⟦<Mine<D> as Disk>⟧.facts result) }
    {
        Mine { inner }
    }
}

impl<D: Disk + Drop> Disk for Mine<D> {
    ghost use Rattle.std.specs.Prelude.{◌≡◌, map};
    ghost use Rattle.disk.specs.Facts.{Stays, Passes, InRow, Joined, counted, nothing, lane_failures};
    ghost use Rattle.disk.specs.FaultState.{CausedInLanes};

    type Lane = D::Lane;

    ghost facts = { λ m. D.facts m.inner };

    ghost fault_state = { λ m. D.fault_state m.inner };

    ghost arms = { λ m f. D.arms m.inner f };

    fn sectors(&self) -> usize {
        self.inner.sectors()
    }

    fn read(&mut self, first: usize, sectors: &mut [Sector]) -> Result<(), Fault> {
        self.inner.read(first, sectors)
    }

    fn write(&mut self, first: usize, sectors: &[Sector]) -> Result<(), Fault> {
        self.inner.write(first, sectors)
    }

    fn sync(&mut self) -> Result<(), Fault> {
        self.inner.sync()
    }

    fn split(
        &mut self,
        first: usize,
        lanes: usize,
        each: usize,
    ) -> Result<Vec<D::Lane>, AllocError> {
        self.inner.split(first, lanes, each)
    }

    fn join(&mut self, lanes: Vec<D::Lane>)
        requires { InRow (D.facts self.old.inner).lent (map D.Lane.lane_facts lanes.items) }
        ensures content { Joined (D.facts self.old.inner).lent (map D.Lane.lane_facts lanes.items)
            (D.facts self.old.inner).content (D.facts self.new.inner).content }
        ensures back { (D.facts self.new.inner).lent ≡ nothing }
        ensures crash { Passes (D.facts self.old.inner) (D.facts self.new.inner) Stays }
        ensures failures { (D.facts self.new.inner).failures
            ≡ counted (D.facts self.old.inner).failures (lane_failures (map D.Lane.lane_facts lanes.items)) }
        ensures calls { (D.facts self.new.inner).calls ≡ (D.facts self.old.inner).calls }
        ensures cause { CausedInLanes (D.fault_state self.old.inner) (D.fault_state self.new.inner)
            (lane_failures (map D.Lane.lane_facts lanes.items)) }
    {
        self.inner.join(lanes);
    }

    fn failures(&self) -> u64 {
        self.inner.failures()
    }

    fn arm(&mut self, fault: ArmedFault) {
        self.inner.arm(fault);
    }

    fn struck(&self) -> bool {
        self.inner.struck()
    }

    ghost may_keep = { λ m. D.may_keep m.inner };

    ghost counts_now = { λ m t c. D.counts_now m.inner t c };

    ghost only_now = { λ m c. D.only_now m.inner c };

    ghost bounded = { λ m. D.bounded m.inner };

    ghost bounded_calls = { λ m. D.bounded_calls m.inner };
}
// ----
