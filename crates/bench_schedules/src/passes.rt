//! The passes of a search, each of which keeps fewer turns. Which slices they keep is craft: the schedule that the last ones lead is
//! run again.

ghost use Rattle.bench_schedules.specs.Shrunk.{IsSearchable};

use crate::search::{KeptSlices, MOST_RUNS, Search, try_slices};
use crate::slices::{exchanged, lessened, turns_at, weight};
use crew::Crew;
use std::alloc::AllocError;

/// How often a number of 64 bits can be halved.
const HALVES: u64 = 64;

/// Tries the schedule whose slices from one place up to another have at most `turns` turns. Answers whether it is kept.
fn try_lessened<C: Crew>(
    search: &Search<'_, C>,
    kept: &mut KeptSlices,
    from: usize,
    to: usize,
    turns: u64,
) -> Result<bool, AllocError>
    requires { IsSearchable search.now.setting.shape.now search.now.lines.now search.now.own.now }
{
    let slices = lessened(search.setting.alloc, &kept.slices, from, to, turns)?;
    try_slices(search, kept, slices)
}

/// Tries the schedule in which the slice at that place and the one after it are exchanged, where that makes fewer slices: one
/// joins another of its hart. Answers whether it is kept.
fn try_exchanged<C: Crew>(
    search: &Search<'_, C>,
    kept: &mut KeptSlices,
    place: usize,
) -> Result<bool, AllocError>
    requires { IsSearchable search.now.setting.shape.now search.now.lines.now search.now.own.now }
{
    let slices = exchanged(search.setting.alloc, &kept.slices, place)?;
    if kept.slices.len() <= slices.len() {
        return Ok(false);
    }
    try_slices(search, kept, slices)
}

/// Cuts slices off at the end, by bisection.
fn cut<C: Crew>(search: &Search<'_, C>, kept: &mut KeptSlices) -> Result<(), AllocError>
    requires { IsSearchable search.now.setting.shape.now search.now.lines.now search.now.own.now }
{
    let mut low = 0;
    for _ in 0..HALVES {
        let high = kept.slices.len();
        if low < high {
            let middle = low + (high - low) / 2;
            if !try_lessened(search, kept, middle, high, 0)? {
                low = middle + 1;
            }
        }
    }
    Ok(())
}

/// Drops `size` slices together, where that can be, from the first on.
fn drop_by<C: Crew>(
    search: &Search<'_, C>,
    kept: &mut KeptSlices,
    size: usize,
) -> Result<(), AllocError>
    requires { IsSearchable search.now.setting.shape.now search.now.lines.now search.now.own.now }
{
    let mut place = 0usize;
    for _ in 0..MOST_RUNS {
        if place < kept.slices.len() {
            let after = place.saturating_add(size);
            if !try_lessened(search, kept, place, after, 0)? {
                place = after;
            }
        }
    }
    Ok(())
}

/// Drops slices by halves of all of them, then by fourths, and so on, to one at a time.
fn drop_slices<C: Crew>(search: &Search<'_, C>, kept: &mut KeptSlices) -> Result<(), AllocError>
    requires { IsSearchable search.now.setting.shape.now search.now.lines.now search.now.own.now }
{
    let mut size = kept.slices.len() / 2;
    'halves: for _ in 0..HALVES {
        drop_by(search, kept, size.max(1))?;
        if size <= 1 {
            return Ok(());
        }
        size /= 2;
    }
    Ok(())
}

/// Joins slices of a hart by exchanging neighbours, where that can be, from the first on.
fn join_slices<C: Crew>(search: &Search<'_, C>, kept: &mut KeptSlices) -> Result<(), AllocError>
    requires { IsSearchable search.now.setting.shape.now search.now.lines.now search.now.own.now }
{
    let mut place = 0usize;
    for _ in 0..MOST_RUNS {
        if place < kept.slices.len() && !try_exchanged(search, kept, place)? {
            place = place.saturating_add(1);
        }
    }
    Ok(())
}

/// Finds the fewest turns of the slice at that place, by bisection.
fn lessen_at<C: Crew>(
    search: &Search<'_, C>,
    kept: &mut KeptSlices,
    place: usize,
) -> Result<(), AllocError>
    requires { IsSearchable search.now.setting.shape.now search.now.lines.now search.now.own.now }
{
    let mut low = 0;
    for _ in 0..HALVES {
        let high = turns_at(&kept.slices, place);
        if low < high {
            let middle = low + (high - low) / 2;
            if !try_lessened(search, kept, place, place.saturating_add(1), middle)? {
                low = middle + 1;
            }
        }
    }
    Ok(())
}

/// Finds the fewest turns of each slice, from the last on.
fn lessen<C: Crew>(search: &Search<'_, C>, kept: &mut KeptSlices) -> Result<(), AllocError>
    requires { IsSearchable search.now.setting.shape.now search.now.lines.now search.now.own.now }
{
    let count = kept.slices.len();
    for n in 0..count {
        lessen_at(search, kept, count - 1 - n)?;
    }
    Ok(())
}

/// All passes, again until none helps.
pub fn search_all<C: Crew>(search: &Search<'_, C>, kept: &mut KeptSlices) -> Result<(), AllocError>
    requires { IsSearchable search.now.setting.shape.now search.now.lines.now search.now.own.now }
{
    'rounds: for _ in 0..MOST_RUNS {
        let before = weight(&kept.slices);
        cut(search, kept)?;
        drop_slices(search, kept)?;
        lessen(search, kept)?;
        join_slices(search, kept)?;
        drop_slices(search, kept)?;
        if before <= weight(&kept.slices) {
            return Ok(());
        }
    }
    Ok(())
}
