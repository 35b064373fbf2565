//! Places at which power is cut, or a call fails, and what the cuts leave.

ghost use Rattle.std.specs.Prelude.{◌≡◌, ◌≤◌, ◌+◌};
ghost use Rattle.bench_sweep.specs.Points.{calls_of, cut_fill, cut_of, failure_of, fault_at};

use disk::ArmedFault;
use simdisk::{Fill, SimDisk};

/// Whose calls are counted: the disk's, or those of the lanes of a number.
#[derive(Clone, Copy, Drop)]
pub enum Caller {
    Disk,
    Lane(usize),
}

impl Caller {
    /// How many calls of it that disk has counted.
    pub fn calls(self, disk: &SimDisk) -> u64
        ensures { result ≡ calls_of self disk.now }
    {
        match self {
            Caller::Disk => disk.calls(),
            Caller::Lane(lane) => disk.lane_calls(lane),
        }
    }

    /// Power is cut within its call of that number from now on.
    fn cut_at(self, call: u64) -> ArmedFault
        ensures { result ≡ cut_of self call }
    {
        match self {
            Caller::Disk => ArmedFault::CutAt(call),
            Caller::Lane(lane) => ArmedFault::CutLane(lane, call),
        }
    }

    /// Its call of that number from now on fails.
    fn fail_at(self, call: u64) -> ArmedFault
        ensures { result ≡ failure_of self call }
    {
        match self {
            Caller::Disk => ArmedFault::FailAt(call),
            Caller::Lane(lane) => ArmedFault::FailLane(lane, call),
        }
    }
}

/// What is done at each point.
#[derive(Clone, Copy, Drop)]
pub enum BenchKind {
    /// Power is cut.
    Cuts,
    /// The call fails, and power stays.
    Fails,
}

impl BenchKind {
    /// What the bench does at the caller's call of that number from now on.
    pub fn fault_at(self, caller: Caller, call: u64) -> ArmedFault
        ensures { result ≡ fault_at self caller call }
    {
        match self {
            BenchKind::Cuts => caller.cut_at(call),
            BenchKind::Fails => caller.fail_at(call),
        }
    }
}

/// A call at which power is cut, or which fails.
#[derive(Clone, Copy, Drop)]
pub struct Point {
    pub caller: Caller,
    /// The number of the call from the first `format ok` on, from 1.
    pub number: u64,
    /// The number of the call from the site on at which its run begins, from 1.
    pub call: u64,
    /// How many calls the caller made up to that site.
    pub before: u64,
    ghost counts: { number ≡ before + call },
}

/// Which run of a bench a row is.
#[derive(Clone, Copy, Drop)]
pub struct RunAt {
    /// The caller at whose call power is cut, or whose call fails.
    pub caller: Caller,
    /// The number of the call from the first `format ok` on, from 1.
    pub call: u64,
    /// What the cut leaves of what was written since the last sync.
    pub fill: Option<Fill>,
    ghost some: { 1 ≤ call },
}

/// All callers, in the order of their points.
pub const CALLERS: [Caller; 5] = [
    Caller::Disk,
    Caller::Lane(0),
    Caller::Lane(1),
    Caller::Lane(2),
    Caller::Lane(3),
];

/// What the cuts of a point leave, in the order of their runs.
pub const FILLS: [Fill; 5] = [
    Fill::Byte(0),
    Fill::Byte(255),
    Fill::Alternating,
    Fill::Old,
    Fill::New,
];

/// What all of them but the last leave.
pub const FIRST_FILLS: [Fill; 4] = [Fill::Byte(0), Fill::Byte(255), Fill::Alternating, Fill::Old];

/// What the last of them leaves.
pub const LAST_FILL: Fill = Fill::New;

/// What a cut leaves of what was written since the last sync, by the fill of its run: a run with a failure has none, and is cut
/// with zeros.
pub fn cut_fill(fill: Option<Fill>) -> Fill
    ensures { result ≡ cut_fill fill }
{
    match fill {
        None => Fill::Byte(0),
        Some(fill) => fill,
    }
}
