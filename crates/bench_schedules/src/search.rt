//! The runs of a search: which candidates are kept.
//! A law runs nothing, and tells the prover a fact: `orders_keep_lines`.

ghost use Rattle.std.specs.Prelude.{◌≡◌, true, IfOk, IfSome};
ghost use Rattle.bench_schedules.specs.Orders.{IsOrderFor};
ghost use Rattle.bench_schedules.specs.Shrunk.{IsFound, IsSearchable};

use crate::laws::orders_keep_lines;
use crate::led_orders::{Slice, led};
use crate::runs::run_until;
use bench_report::Setting;
use board::Payloads;
use crew::Crew;
use report_lines::Answer;
use script_lang::Line;
use std::alloc::AllocError;

/// The lines of the longest script, without its board line.
const MOST_LINES: usize = 65_535;

/// How many runs a search makes at most, beside the first of the schedule.
pub const MOST_RUNS: u64 = 490;

/// What is searched: a schedule of the script whose run first differs at that place.
#[derive(Drop)]
pub struct Search<'a, C> {
    /// How its boards are made.
    pub setting: Setting<'a, C>,
    /// The lines of the script.
    pub lines: &'a [Line],
    /// What each slot boots before the first line.
    pub payloads: &'a Payloads,
    /// What the lines of the script answered that are no turns, in its own run.
    pub own: &'a [Answer],
    /// The place among those, from 0 on.
    pub place: usize,
}

/// The slices that were kept last.
#[derive(Drop)]
pub struct KeptSlices {
    pub slices: Vec<Slice>,
    /// Whether they were tried: before the first are kept, they are those of the schedule that was drawn.
    pub tried: bool,
    /// How many runs were made.
    pub runs: u64,
}

/// Whether the run of these lines first differs at the place that is searched.
#[tactic(auto, using(crate::proofs::Shortened::found_at))]
fn differs_there<C: Crew>(search: &Search<'_, C>, lines: &[Line]) -> Result<bool, AllocError>
    requires searchable { IsSearchable search.now.setting.shape.now search.now.lines.now search.now.own.now }
    requires order { IsOrderFor search.now.lines.now lines.now }
    ensures found { IfOk result (λ yes. yes ≡ true → IsFound search.now.setting.shape.now search.now.payloads.now
        search.now.lines.now search.now.own.now search.now.place lines.now) }
{
    orders_keep_lines();
    if MOST_LINES < lines.len() {
        return Ok(false);
    }
    match run_until(&search.setting, search.payloads, lines, search.own)? {
        Some(difference) => Ok(difference.place == search.place),
        None => Ok(false),
    }
}

/// The lines of the schedule that these slices lead, where its run still first differs there.
pub fn led_there<C: Crew>(
    search: &Search<'_, C>,
    slices: &[Slice],
) -> Result<Option<Vec<Line>>, AllocError>
    requires searchable { IsSearchable search.now.setting.shape.now search.now.lines.now search.now.own.now }
    ensures found { IfOk result (λ found. IfSome found (λ lines. IsFound search.now.setting.shape.now search.now.payloads.now
        search.now.lines.now search.now.own.now search.now.place lines.items)) }
{
    let lines = led(search.setting.alloc, search.lines, slices)?;
    if !differs_there(search, &lines)? {
        return Ok(None);
    }
    Ok(Some(lines))
}

/// Tries the schedule that these slices lead, and keeps them where its run still first differs there. Answers whether they are
/// kept. After the last run nothing more is tried.
pub fn try_slices<C: Crew>(
    search: &Search<'_, C>,
    kept: &mut KeptSlices,
    slices: Vec<Slice>,
) -> Result<bool, AllocError>
    requires { IsSearchable search.now.setting.shape.now search.now.lines.now search.now.own.now }
{
    if MOST_RUNS <= kept.runs {
        return Ok(false);
    }
    kept.runs = kept.runs.saturating_add(1);
    if led_there(search, &slices)?.is_none() {
        return Ok(false);
    }
    kept.slices = slices;
    kept.tried = true;
    Ok(true)
}
