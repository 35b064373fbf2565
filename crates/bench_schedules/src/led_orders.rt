//! Orders whose stretches begin with turns that were chosen. After them stand the script's own lines, less those turns.

ghost use Rattle.std.specs.Prelude.{◌≡◌, ◌+◌, ◌≤◌, ◌<◌, length, All, IfOk, OnOk};
ghost use Rattle.bench_schedules.specs.Orders.{IsTurn, IsRowOf, IsOrderFor, IsPartAdded, TakesPlaceOf};
ghost use Rattle.bench_schedules.specs.Deals.{GoesOn};

use crate::copies::copied_row;
use crate::deal::Deal;
use crate::rows::{is_row, is_turn, part_length, turns_named};
use board_model::HartId;
use script_lang::Line;
use std::alloc::{AllocError, Global};

/// Turns of a hart, one after another, at the begin of a stretch.
#[derive(Clone, Copy, Drop)]
pub struct Slice {
    /// The number of the stretch among those of the script, from 0 on.
    pub stretch: usize,
    pub hart: HartId,
    /// How many turns.
    pub turns: u64,
}

/// Whether one of the slices stands in that stretch.
fn leads(slices: &[Slice], stretch: usize) -> bool {
    for slice in slices {
        if slice.stretch == stretch {
            return true;
        }
    }
    false
}

/// Deals the slices of that stretch, and answers how many turns of each hart those are.
#[tactic(auto, using(crate::proofs::Deals::goes_on_same, crate::proofs::Deals::goes_on_twice))]
fn deal_led(deal: &mut Deal, slices: &[Slice], stretch: usize) -> Result<[u64; 8], AllocError>
    ensures { OnOk result (GoesOn deal.old deal.new) }
{
    let mut dealt = [0u64; 8];
    for slice in slices {
        if slice.stretch == stretch {
            let given = deal.give(slice.hart, slice.turns)?;
            let place = slice.hart.index();
            dealt[place] = dealt[place].saturating_add(given);
        }
    }
    Ok(dealt)
}

/// Deals the turns of a line, less those of its hart that were dealt before it was reached.
#[tactic(auto, using(crate::proofs::Deals::goes_on_same, crate::proofs::Deals::goes_on_twice))]
fn deal_line(deal: &mut Deal, line: &Line, dealt: &mut [u64; 8]) -> Result<(), AllocError>
    ensures { OnOk result (GoesOn deal.old deal.new) }
{
    if let Line::Turn(hart, count) = line {
        let place = hart.index();
        let turns = u64::from(*count);
        let less = dealt[place].min(turns);
        dealt[place] -= less;
        deal.give(*hart, turns - less)?;
    }
    Ok(())
}

/// Deals the turns of a row line by line, less those that were dealt before.
#[tactic(auto, using(crate::proofs::Deals::goes_on_same, crate::proofs::Deals::goes_on_twice))]
fn deal_row(deal: &mut Deal, row: &[Line], dealt: &mut [u64; 8]) -> Result<(), AllocError>
    ensures { OnOk result (GoesOn deal.old deal.new) }
{
    for line in row {
        deal_line(deal, line, dealt)?;
    }
    Ok(())
}

/// An order of a row: first the slices of that stretch, and then the row's own lines, less the turns of the slices.
fn led_row(
    alloc: Global,
    row: &[Line],
    slices: &[Slice],
    stretch: usize,
) -> Result<Vec<Line>, AllocError>
    requires few { length row.now ≤ 65535 }
    requires turns { All IsTurn row.now }
    ensures order { IfOk result (λ order. IsRowOf row.now order.items) }
{
    let turns = turns_named(row);
    let mut deal = Deal::new(alloc, turns);
    let mut dealt = deal_led(&mut deal, slices, stretch)?;
    deal_row(&mut deal, row, &mut dealt)?;
    deal.rest()?;
    Ok(deal.lines)
}

/// A part of a script's lines, led by the slices of that stretch. A row without slices stays as it is, of which there is no clause,
/// and so does a line that is no `turn`.
#[tactic(auto, using(crate::proofs::Parts::line_takes_place))]
fn led_part(
    alloc: Global,
    part: &[Line],
    slices: &[Slice],
    stretch: usize,
) -> Result<Vec<Line>, AllocError>
    requires few { length part.now ≤ 65535 }
    ensures placed { IfOk result (λ new. TakesPlaceOf part.now new.items) }
{
    if leads(slices, stretch) && is_row(part) {
        led_row(alloc, part, slices, stretch)
    } else {
        copied_row(alloc, part)
    }
}

/// Adds the next part of a script's lines, led by the slices of that stretch. Answers how many lines it has.
fn add_led(
    alloc: Global,
    rest: &[Line],
    slices: &[Slice],
    stretch: usize,
    made: &mut Vec<Line>,
) -> Result<usize, AllocError>
    requires some { 0 < length rest.now }
    requires few { length rest.now ≤ 65535 }
    ensures { IfOk result (λ n. IsPartAdded rest.now made.old.items made.new.items n) }
{
    let count = part_length(rest);
    let mut new = led_part(alloc, &rest[..count], slices, stretch)?;
    made.append(&mut new)?;
    Ok(count)
}

/// The schedule of a script's lines whose stretches begin with these slices, whatever they are. A slice ends early where its
/// hart has no more turns in the stretch, and one of more than 1,000,000 turns after these. After the slices of a stretch
/// stand its own lines, less the turns of the slices.
///
/// Refused only where memory is.
pub fn led(alloc: Global, lines: &[Line], slices: &[Slice]) -> Result<Vec<Line>, AllocError>
    requires { length lines.now ≤ 65535 }
    ensures { IfOk result (λ new. IsOrderFor lines.now new.items) }
{
    let mut made = Vec::new(alloc);
    let mut stretch = 0usize;
    let mut rest = lines;
    while !rest.is_empty() {
        let begins = is_turn(&rest[0]);
        let count = add_led(alloc, rest, slices, stretch, &mut made)?;
        rest = &rest[count..];
        stretch = stretch.saturating_add(usize::from(begins));
    }
    Ok(made)
}
