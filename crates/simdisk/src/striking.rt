//! How armed faults come to their calls.
ghost use Rattle.std.specs.Prelude.{◌≡◌, ◌⊎◌, ◌↔◌, ◌<◌, map, true, false, None, IsTrue, IsFalse};
ghost use Rattle.disk.specs.Facts.{counted};
ghost use Rattle.simdisk.specs.Armings.{Strikes, Struck, Waits, FailsNext, one_call_on, cuts};
ghost use Rattle.simdisk.specs.LaneStates.{armed_in, state_at, counted_on, HasStruck, CameBack};
ghost use Rattle.simdisk.specs.Lanes.{lane_state};

use crate::faults::Faults;
use crate::lane::SimLane;
use disk::{ArmedFault, Fault};

/// One failure more.
pub(crate) fn failed(failures: &mut u64) -> Fault
    ensures { failures.new ≡ counted failures.old 1 }
{
    *failures = failures.saturating_add(1);
    Fault
}

impl Faults {
    /// Nothing is armed.
    pub(crate) fn none() -> Faults
        ensures { (result.armed ≡ None) × (result.cut ≡ false) }
    {
        Faults {
            armed: None,
            cut: false,
        }
    }

    /// Whether what was written last in a lane stays what a read gives: it is so now, and no call of
    /// the lane can fail.
    pub(crate) fn stays_in_step(&self, in_step: bool) -> bool
        ensures now { IsTrue result → in_step ≡ true }
        ensures calm { IsTrue result → (self.now.armed ≡ None) × (self.now.cut ≡ false) }
    {
        in_step && self.armed.is_none() && !self.cut
    }

    /// Whether the next call of the disk, or of the lane whose faults these are, fails. It counts
    /// that call.
    pub(crate) fn strikes(&mut self) -> bool
        ensures due { IsTrue result ↔ FailsNext self.old.cut self.old.armed }
        ensures strikes { IsTrue result → Strikes self.old self.new }
        ensures struck { IsTrue result → Struck self.old.cut self.old.armed self.new.cut self.new.armed }
        ensures waits { IsFalse result → Waits self.old self.new }
        ensures counts { IsFalse result → self.new.armed ≡ one_call_on self.old.armed }
    {
        if self.cut {
            return true;
        }
        match self.armed {
            Some(ArmedFault::FailAt(1)) => {
                self.armed = None;
                true
            }
            Some(ArmedFault::CutAt(1)) => {
                self.armed = None;
                self.cut = true;
                true
            }
            Some(ArmedFault::FailAt(call)) => {
                self.armed = Some(ArmedFault::FailAt(call.saturating_sub(1)));
                false
            }
            Some(ArmedFault::CutAt(call)) => {
                self.armed = Some(ArmedFault::CutAt(call.saturating_sub(1)));
                false
            }
            Some(ArmedFault::FailLane(_, _)) => false,
            Some(ArmedFault::CutLane(_, _)) => false,
            None => false,
        }
    }

    /// Counts a call that failed by itself. What would have struck there strikes at the next call.
    pub(crate) fn pass(&mut self)
        ensures waits { Waits self.old self.new }
        ensures counts { (FailsNext self.old.cut self.old.armed → ⊥) → self.new.armed ≡ one_call_on self.old.armed }
        ensures due { FailsNext self.old.cut self.old.armed → self.new ≡ self.old }
    {
        let before = *self;
        if self.strikes() {
            *self = before;
        }
    }

    /// The faults of a lane, which counts its own calls.
    pub(crate) fn of_lane(self, lane: usize) -> Faults
        ensures { (result.armed ≡ armed_in lane self.armed) × (result.cut ≡ self.cut) }
    {
        let armed = match self.armed {
            Some(ArmedFault::FailLane(i, call)) if i == lane => Some(ArmedFault::FailAt(call)),
            Some(ArmedFault::CutLane(i, call)) if i == lane => Some(ArmedFault::CutAt(call)),
            _ => None,
        };
        Faults {
            armed,
            cut: self.cut,
        }
    }

    /// The lanes came back after so many failures. Answers 1 where nothing that was armed explains
    /// them, else 0.
    pub(crate) fn come_back(&mut self, lanes: &[SimLane], failures: u64) -> u64
        ensures none { failures ≡ 0 → (result ≡ 0) × Waits self.old self.new }
        ensures some { 0 < failures
            → ((result ≡ 0) × Strikes self.old self.new) ⊎ ((result ≡ 1) × Waits self.old self.new) }
        ensures exact { CameBack self.old.armed self.old.cut (map lane_state lanes.now) failures self.new.armed
            self.new.cut result }
    {
        if failures == 0 {
            self.count_on(lanes);
            return 0;
        }
        if self.struck_in(lanes) { 0 } else { 1 }
    }

    /// Takes over from the lane that has the fault how many calls are left to it.
    fn count_on(&mut self, lanes: &[SimLane])
        ensures waits { Waits self.old self.new }
        ensures counted { self.new.armed ≡ counted_on self.old.armed (map lane_state lanes.now) }
    {
        match self.armed {
            Some(ArmedFault::FailLane(i, _)) => {
                if let Some(ArmedFault::FailAt(call)) = armed_of(lanes, i) {
                    self.armed = Some(ArmedFault::FailLane(i, call));
                }
            }
            Some(ArmedFault::CutLane(i, _)) => {
                if let Some(ArmedFault::CutAt(call)) = armed_of(lanes, i) {
                    self.armed = Some(ArmedFault::CutLane(i, call));
                }
            }
            Some(ArmedFault::FailAt(_)) => {}
            Some(ArmedFault::CutAt(_)) => {}
            None => {}
        }
    }

    /// Whether what was armed struck in its lane, or power was cut before.
    fn struck_in(&mut self, lanes: &[SimLane]) -> bool
        ensures strikes { IsTrue result → Strikes self.old self.new }
        ensures waits { IsFalse result → Waits self.old self.new }
        ensures dark { self.old.cut ≡ true → IsTrue result × (self.new ≡ self.old) }
        ensures struck { self.old.cut ≡ false → HasStruck self.old.armed (map lane_state lanes.now)
            → IsTrue result × (self.new.armed ≡ None) × (self.new.cut ≡ cuts self.old.armed) }
        ensures strange { self.old.cut ≡ false → (HasStruck self.old.armed (map lane_state lanes.now) → ⊥)
            → IsFalse result × (self.new ≡ self.old) }
    {
        if self.cut {
            return true;
        }
        match self.armed {
            Some(ArmedFault::FailLane(i, _)) if armed_of(lanes, i).is_none() => {
                self.armed = None;
                true
            }
            Some(ArmedFault::CutLane(i, _)) if armed_of(lanes, i).is_none() => {
                self.armed = None;
                self.cut = true;
                true
            }
            _ => false,
        }
    }
}

/// What is armed in that lane, if there is one.
fn armed_of(lanes: &[SimLane], lane: usize) -> Option<ArmedFault>
    ensures { result ≡ (state_at (map lane_state lanes.now) lane).armed }
{
    lanes.get(lane).and_then(|lane| lane.faults.armed)
}
