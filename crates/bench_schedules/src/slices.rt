//! The slices that lead the stretches of a schedule. What stands in them is craft: any slices lead to a schedule.

ghost use Rattle.std.specs.Prelude.{◌<◌};

use crate::led_orders::Slice;
use script_lang::Line;
use std::alloc::{AllocError, Global};

/// The most turns of a slice.
const MOST_TURNS: u64 = 1_000_000;

/// The last of the slices and this one as one slice, where they are of one hart and one stretch.
fn joined(slices: &Vec<Slice>, slice: &Slice) -> Option<Slice> {
    match slices.last() {
        Some(last) if last.stretch == slice.stretch && last.hart == slice.hart => {
            let turns = last.turns.saturating_add(slice.turns);
            if MOST_TURNS < turns {
                return None;
            }
            Some(Slice {
                stretch: slice.stretch,
                hart: slice.hart,
                turns,
            })
        }
        _ => None,
    }
}

/// Adds a slice after the others, or to the last of them. One of no turns is none.
fn add(slices: &mut Vec<Slice>, slice: Slice) -> Result<(), AllocError> {
    if slice.turns == 0 {
        return Ok(());
    }
    if let Some(both) = joined(slices, &slice) {
        slices.pop();
        slices.push(both)?;
        return Ok(());
    }
    slices.push(slice)?;
    Ok(())
}

/// The slices of all stretches of these lines, whole.
pub fn slices_of(alloc: Global, lines: &[Line]) -> Result<Vec<Slice>, AllocError> {
    let mut slices = Vec::new(alloc);
    let mut stretch = 0usize;
    let mut within = false;
    for line in lines {
        if let Line::Turn(hart, count) = line {
            let turns = u64::from(*count);
            add(
                &mut slices,
                Slice {
                    stretch,
                    hart: *hart,
                    turns,
                },
            )?;
            within = true;
        } else {
            stretch = stretch.saturating_add(usize::from(within));
            within = false;
        }
    }
    Ok(slices)
}

/// The slices, where those from one place up to another have at most `turns` turns. None with 0 turns is left.
pub fn lessened(
    alloc: Global,
    slices: &[Slice],
    from: usize,
    to: usize,
    turns: u64,
) -> Result<Vec<Slice>, AllocError> {
    let mut new = Vec::new(alloc);
    let mut place = 0usize;
    for slice in slices {
        let most = if from <= place && place < to {
            turns
        } else {
            MOST_TURNS
        };
        let fewer = Slice {
            stretch: slice.stretch,
            hart: slice.hart,
            turns: slice.turns.min(most),
        };
        add(&mut new, fewer)?;
        place = place.saturating_add(1);
    }
    Ok(new)
}

/// Which of `count` slices comes to the place `at`, where the one at `place` and the next one, if there is one, are exchanged.
fn exchanged_with(at: usize, place: usize, count: usize) -> usize
    requires { at < count }
    ensures { result < count }
{
    if at == place && at < count - 1 {
        at + 1
    } else if 0 < at && at - 1 == place {
        place
    } else {
        at
    }
}

/// The slices, with the one at that place and the next one exchanged.
pub fn exchanged(alloc: Global, slices: &[Slice], place: usize) -> Result<Vec<Slice>, AllocError> {
    let mut new = Vec::new(alloc);
    for at in 0..slices.len() {
        add(&mut new, slices[exchanged_with(at, place, slices.len())])?;
    }
    Ok(new)
}

/// How many turns the slice at that place has; 0 where there is none.
pub fn turns_at(slices: &[Slice], place: usize) -> u64 {
    match slices.get(place) {
        Some(slice) => slice.turns,
        None => 0,
    }
}

/// How many slices and turns these are, together. Whatever is taken from slices makes it less.
pub fn weight(slices: &[Slice]) -> u64 {
    let mut all = 0u64;
    for slice in slices {
        all = all.saturating_add(slice.turns).saturating_add(1);
    }
    all
}
