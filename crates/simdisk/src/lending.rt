//! How sectors are lent and taken back.
ghost use Rattle.std.specs.Prelude.{◌≡◌, ◌≤◌, ◌<◌, ◌+◌, ◌*◌, ℕ, length, map, true, IsTrue, IfOk};
ghost use Rattle.disk.specs.Facts.{Content, Handed, Joined, counted, lane_failures, lane_at};
ghost use Rattle.simdisk.specs.Lanes.{lane_view, newest_view, lane_state, lane_view_of};
ghost use Rattle.simdisk.specs.Views.{last_of, IsAsRead};
ghost use Rattle.simdisk.specs.LaneStates.{AreLent, state_at, CountsLanes};

use crate::faults::Faults;
use crate::laid::overwrite;
use crate::lane::{LaneBytes, Last, SimLane};
use crate::patch::copy_of;
use crate::remembered::Remembered;
use disk::Sector;
use std::alloc::{AllocError, Global};

/// Lanes over these sectors, in a row. Of the two contents, the second has failed writes too; where
/// they are in step there is none.
pub(crate) fn lend(
    alloc: Global,
    content: &[Sector],
    newest: &[Sector],
    in_step: bool,
    faults: Faults,
    first: usize,
    lanes: usize,
    each: usize,
) -> Result<Vec<SimLane>, AllocError>
    requires few { lanes ≤ 4 }
    requires within { first + lanes * each ≤ length content.now }
    requires as_long { length newest.now ≡ length content.now }
    requires in_step { in_step ≡ true → newest.now ≡ content.now }
    ensures handed { IfOk result (λ out. Handed (record { first = first; lanes = lanes; each = each }) content.now
        (map lane_view out.items)) }
    ensures lent { IfOk result (λ out. AreLent (record { first = first; lanes = lanes; each = each }) newest.now
        faults.armed faults.cut (map lane_state out.items)) }
{
    let mut out = Vec::new(alloc);
    for lane in 0..lanes {
        let start = first + lane * each;
        let faults = faults.of_lane(lane);
        let as_read = faults.stays_in_step(in_step);
        let log = Remembered::no_call();
        out.push(SimLane {
            first: start,
            sectors: copy_of(alloc, &content[start..start + each])?,
            last: last_in(alloc, &newest[start..start + each], as_read)?,
            failures: 0,
            calls: 0,
            faults,
            log,
        })?;
    }
    Ok(out)
}

/// What was written last in a lane: these sectors, which are kept apart unless a read gives them.
fn last_in(alloc: Global, newest: &[Sector], as_read: bool) -> Result<Last, AllocError>
    ensures value { IfOk result (λ last. (c : Content) → (as_read ≡ true → newest.now ≡ c)
        → last_of last c ≡ newest.now) }
    ensures as_read { IfOk result (λ last. IsAsRead last → as_read ≡ true) }
{
    if as_read {
        return Ok(Last::AsRead);
    }
    Ok(Last::Apart(copy_of(alloc, newest)?))
}

/// Whether a disk is in step once these lanes came back: it was, and so is each of them.
pub(crate) fn stays_in_step(in_step: bool, lanes: &[SimLane]) -> bool
    ensures now { IsTrue result → in_step ≡ true }
    ensures lanes { IsTrue result → map newest_view lanes.now ≡ map lane_view lanes.now }
{
    in_step && as_read(lanes)
}

/// Whether what was written last in each of these lanes is what a read gives.
fn as_read(lanes: &[SimLane]) -> bool
    ensures { IsTrue result → map newest_view lanes.now ≡ map lane_view lanes.now }
{
    match lanes.split_first() {
        None => true,
        Some((first, rest)) => match &first.last {
            Last::AsRead => as_read(rest),
            Last::Apart(_) => false,
        },
    }
}

/// How often these lanes failed.
pub(crate) fn failures_of(lanes: &[SimLane]) -> u64
    ensures { result ≡ counted 0 (lane_failures (map lane_view lanes.now)) }
{
    let mut failures = 0u64;
    for lane in lanes {
        failures = failures.saturating_add(lane.failures);
    }
    failures
}

/// How many calls were made of the lane of that number, where there is one.
fn calls_of(lanes: &[SimLane], lane: usize) -> u64
    ensures { result ≡ (state_at (map lane_state lanes.now) lane).calls }
{
    match lanes.get(lane) {
        None => 0,
        Some(lane) => lane.calls,
    }
}

/// Counts the calls that were made of these lanes.
pub(crate) fn count_calls(counts: &mut [u64; 4], lanes: &[SimLane])
    ensures { CountsLanes (map lane_state lanes.now) counts.old counts.new }
{
    for (i, count) in counts.iter_mut().enumerate() {
        *count = count.saturating_add(calls_of(lanes, i));
    }
}

/// Lays what the lanes hold in a row from that place on.
pub(crate) fn lay_row(
    content: &mut Vec<Sector>,
    first: usize,
    count: usize,
    each: usize,
    lanes: &[SimLane],
    bytes: LaneBytes,
)
    requires count { length lanes.now ≡ count }
    requires each { (i : ℕ) → i < count → length (lane_at (map (lane_view_of bytes) lanes.now) i).content ≡ each }
    requires within { first + count * each ≤ length content.old.items }
    ensures { Joined (record { first = first; lanes = count; each = each }) (map (lane_view_of bytes) lanes.now)
        content.old.items content.new.items }
{
    for (i, lane) in lanes.iter().enumerate() {
        overwrite(content, first + i * each, lane.bytes(bytes));
    }
}
