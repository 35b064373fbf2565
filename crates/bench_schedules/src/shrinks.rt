//! Schedules that are shrunk, whole.
//! A law runs nothing, and tells the prover a fact: `orders_keep_lines`, `scripts_read_as_written`.

ghost use Rattle.std.specs.Prelude.{◌≡◌, ◌⊎◌, ◌≤◌, length, All, IfErr, IfOk, OnOk, Ok, Err};
ghost use Rattle.board_model.specs.declared.refusal.Refusal.{Refusal as Refused};
ghost use Rattle.board_model.specs.declared.refusal.Refusal.TheVariants.{Memory, Output};
ghost use Rattle.script_lang.specs.Lines.{IsLineInRange};
ghost use Rattle.script_lang.specs.Scripts.{script_of, Script as Said};
ghost use Rattle.script_lang.specs.Views.{view};
ghost use Rattle.bench_schedules.specs.Orders.{IsOrderFor};
ghost use Rattle.bench_schedules.specs.Schedules.{RanLike};
ghost use Rattle.bench_schedules.specs.Shrunk.{IsFound, IsSearchable, IsShortened, Shrunk};

use crate::laws::orders_keep_lines;
use crate::own_runs::{drawn_schedule, run_own};
use crate::passes::search_all;
use crate::runs::{Difference, run_until};
use crate::search::{KeptSlices, Search, led_there};
use crate::slices::slices_of;
use bench_report::{Setting, lane_by_lane};
use board::Payloads;
use board_model::{Refusal, shape_in_range};
use crew::Crew;
use report_lines::Answer;
use script_lang::{Line, Script, fits, parse_script, scripts_read_as_written, write_script};
use std::alloc::{AllocError, Global};
use std::io::Write;
use std::thread::Threads;

/// A schedule with few turns of those that were drawn, whose run first differs where the run of the drawn one does.
fn searched<C: Crew>(search: &Search<'_, C>, drawn: Vec<Line>) -> Result<Vec<Line>, AllocError>
    requires searchable { IsSearchable search.now.setting.shape.now search.now.lines.now search.now.own.now }
    requires found { IsFound search.now.setting.shape.now search.now.payloads.now search.now.lines.now search.now.own.now
        search.now.place drawn.items }
    ensures found { IfOk result (λ lines. IsFound search.now.setting.shape.now search.now.payloads.now search.now.lines.now
        search.now.own.now search.now.place lines.items) }
{
    let slices = slices_of(search.setting.alloc, &drawn)?;
    let mut kept = KeptSlices {
        slices,
        tried: false,
        runs: 0,
    };
    search_all(search, &mut kept)?;
    if !kept.tried {
        return Ok(drawn);
    }
    match led_there(search, &kept.slices)? {
        Some(lines) => Ok(lines),
        None => Ok(drawn),
    }
}

/// Runs a drawn schedule.
fn run_drawn<C: Crew>(
    setting: &Setting<'_, C>,
    payloads: &Payloads,
    lines: &[Line],
    own: &[Answer],
    drawn: &[Line],
) -> Result<Option<Difference>, AllocError>
    requires searchable { IsSearchable setting.now.shape.now lines.now own.now }
    requires order { IsOrderFor lines.now drawn.now }
    ensures ran { IfOk result (λ differs. RanLike setting.now.shape.now payloads.now drawn.now own.now differs) }
{
    orders_keep_lines();
    let _lines = lines;
    run_until(setting, payloads, drawn, own)
}

/// A drawn schedule whose run differs there, shrunk; or as it is, where its run differs nowhere.
#[tactic(auto, using(crate::proofs::Shortened::found_by, crate::proofs::Shortened::stays, crate::proofs::Shortened::shortened_to))]
fn shortened_from<'a, C: Crew>(
    setting: Setting<'a, C>,
    payloads: &'a Payloads,
    lines: &'a [Line],
    own: &'a [Answer],
    drawn: Vec<Line>,
    differs: Option<Difference>,
) -> Result<Vec<Line>, AllocError>
    requires searchable { IsSearchable setting.shape.now lines.now own.now }
    requires order { IsOrderFor lines.now drawn.items }
    requires few { length drawn.items ≤ 65535 }
    requires ran { RanLike setting.shape.now payloads.now drawn.items own.now differs }
    ensures shortened { IfOk result (λ new.
        IsShortened setting.entry.shape.now payloads.now lines.now own.now drawn.items new.items) }
{
    match differs {
        None => Ok(drawn),
        Some(difference) => {
            let search = Search {
                setting,
                lines,
                payloads,
                own,
                place: difference.place,
            };
            searched(&search, drawn)
        }
    }
}

/// A drawn schedule, shrunk; or as it is, where its run differs nowhere.
fn shortened<'a, C: Crew>(
    setting: Setting<'a, C>,
    payloads: &'a Payloads,
    lines: &'a [Line],
    own: &'a [Answer],
    drawn: Vec<Line>,
) -> Result<Vec<Line>, AllocError>
    requires searchable { IsSearchable setting.shape.now lines.now own.now }
    requires order { IsOrderFor lines.now drawn.items }
    requires few { length drawn.items ≤ 65535 }
    ensures shortened { IfOk result (λ new.
        IsShortened setting.entry.shape.now payloads.now lines.now own.now drawn.items new.items) }
{
    let differs = run_drawn(&setting, payloads, lines, own, &drawn)?;
    shortened_from(setting, payloads, lines, own, drawn, differs)
}

/// Writes schedule k of a script that was read, shrunk.
fn shrink_script<R: Threads + Sync, W: Write>(
    alloc: Global,
    script: &Script,
    payloads: &Payloads,
    seed: u64,
    k: u64,
    out: &mut W,
) -> Result<(), Refusal>
    requires few { length script.now.lines.items ≤ 65535 }
    requires ranges { All (IsLineInRange script.now.shape) script.now.lines.items }
    ensures shrunk { OnOk result (Shrunk (view script.now) payloads.now (W.contents out.old) (W.contents out.new)) }
    ensures refused { IfErr result (λ e. (e ≡ Memory) ⊎ (e ≡ Output)) }
{
    scripts_read_as_written();
    shape_in_range(&script.shape);
    let lines = script.lines.as_slice();
    fits(lines);
    let crew = lane_by_lane::<R>();
    let setting = Setting {
        alloc,
        crew: &crew,
        shape: &script.shape,
    };
    let own = run_own(&setting, payloads, lines)?;
    let drawn = drawn_schedule(alloc, lines, &own, seed, k)?;
    let new = shortened(setting, payloads, lines, &own.answers, drawn)?;
    write_script(out, &script.shape, &new)
}

/// Writes schedule k of a script as a script, as [`crate::show`] does, but shrunk: with few of the turns that were
/// drawn, such that its report still first differs from the script's own in the same line. The script's own `turn` lines of
/// each stretch stand after them, less those turns. Where schedule k differs nowhere, it is written as it is.
///
/// It makes at most 500 runs. Refused as `crate::schedules` is.
pub fn shrink<R: Threads + Sync, W: Write>(
    alloc: Global,
    script: &[u8],
    payloads: &Payloads,
    seed: u64,
    k: u64,
    out: &mut W,
) -> Result<(), Refusal>
    // What was written is a schedule of the script, is read back as it, and first differs where another one does, which was drawn.
    ensures shrunk { OnOk result ((said : Said) × (script_of script.now ≡ Ok said)
        × Shrunk said payloads.now (W.contents out.old) (W.contents out.new)) }
    // A refusal is the script's fault, or want of memory, or the writer's.
    ensures refused { IfErr result (λ e. (e ≡ Memory) ⊎ (e ≡ Output) ⊎ (script_of script.now ≡ Err e)) }
    // A script with a fault runs nothing.
    ensures nothing { (e : Refused) → script_of script.now ≡ Err e
        → (W.contents out.new ≡ W.contents out.old) × ((result ≡ Err e) ⊎ (result ≡ Err Memory)) }
{
    let read = parse_script(alloc, script)?;
    shrink_script::<R, W>(alloc, &read, payloads, seed, k, out)
}
