//! The write log of a disk in memory and the state of its lanes, for contracts.
ghost use Rattle.std.specs.Prelude.{ℕ, List, Option};
ghost use Rattle.disk.specs.declared.device.ArmedFault.{ArmedFault};
ghost use Rattle.disk.specs.WriteLog.{WriteLog};
ghost use Rattle.simdisk.specs.LaneStates.{LaneState};

use crate::lane::SimLane;
use crate::sim::SimDisk;

/// A disk that keeps a log of its writes and syncs, the fault that is armed, with the calls that
/// are left to it, and how many calls were made of the lanes of each number.
pub trait Logged {
    ghost log: { Self → WriteLog };

    ghost armed: { Self → Option ArmedFault };

    ghost lane_calls: { Self → List ℕ };
}

impl Logged for SimDisk {
    ghost use Rattle.simdisk.specs.History.{log_of};

    ghost log = { λ d. log_of d.history };

    ghost armed = { λ d. d.faults.armed };

    ghost lane_calls = { λ d. d.lane_calls };
}

/// A lane that keeps what was written last beside what a read gives, and what is armed in it.
pub trait Stateful {
    ghost state: { Self → LaneState };
}

impl Stateful for SimLane {
    ghost use Rattle.simdisk.specs.Lanes.{lane_state};

    ghost state = { lane_state };
}
