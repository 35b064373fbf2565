//! Running back: where the way back ends.

ghost use Rattle.std.specs.Prelude.{◌≡◌, ◌<◌, All, replicate, take, IfOk, IfSome, IfNone, OnOk};
ghost use Rattle.board_model.specs.Shapes.{Size};
ghost use Rattle.debug_session.specs.Notes.{AreInRange};
ghost use Rattle.debug_session.specs.Pasts.{moments, singles};
ghost use Rattle.bench_report.specs.Bench.{Bench, bench_with};
ghost use Rattle.debug_session.specs.Ats.{IsPlace};
ghost use Rattle.debug_session.specs.Backs.{FoundIn, FoundOf, IfEnded, IsEnd, IsRowPast, IsSeen, MayMove, halt_back, later_place, later_turn};
ghost use Rattle.debug_session.specs.Firsts.{one_turn};
ghost use Rattle.debug_session.specs.Steps.{MakesNone};
ghost use Rattle.bench_report.specs.Lives.{IsSound, Shows};
ghost use Rattle.script_lang.specs.Lines.{IsLineInRange};

use crate::halts::{HaltReason, Stop};
use crate::loads::next_load;
use crate::looks::stands_at;
use crate::replays::replay;
use crate::stops::{Stops, Watchpoint, first_touched};
use crate::timeline::Timeline;
use bench_report::{LiveBench, Setting};
use board_model::HartId;
use crew::Crew;
use script_lang::Line;
use std::alloc::AllocError;
use std::sync::atomic::{AtomicBool, Ordering};

/// A place in a history: a line, and how many of its turns stand before it.
#[derive(Clone, Copy, Drop)]
pub(crate) struct TurnPlace {
    pub(crate) line: usize,
    pub(crate) turns: u32,
    pub(crate) stop: Stop,
}

/// What looking for a place came to.
#[derive(Clone, Copy, Drop)]
pub(crate) enum Way {
    /// That place was found, or there is none.
    Ended(Option<TurnPlace>),
    /// The debugger asked that it end.
    Interrupted,
}

/// The first turn of a history.
#[tactic(auto, using(crate::proofs::Histories::place_at, crate::proofs::Histories::row_some))]
fn first_turn<C: Crew>(setting: &Setting<'_, C>, lines: &[Line]) -> Option<TurnPlace>
    requires { AreInRange setting.now.shape.now lines.now }
    ensures some { IfSome result (λ place. IsPlace place.stop.hart place.line place.turns lines.now) }
    ensures first { IfSome result (λ place. (place.turns ≡ 0) × (place.stop.halt ≡ HaltReason.Begin)
        × All MakesNone (take place.line lines.now)) }
    ensures none { IfNone result (All MakesNone lines.now) }
{
    for (i, line) in lines.iter().enumerate() {
        if let Line::Turn(by, _) = line {
            return Some(TurnPlace {
                line: i,
                turns: 0,
                stop: Stop {
                    hart: *by,
                    halt: HaltReason::Begin,
                },
            });
        }
    }
    None
}

/// Why the way back ends before a turn, by whether the hart stood at a breakpoint, and the watchpoint that it touched.
fn halt_back(stands: bool, touched: Option<Watchpoint>) -> Option<HaltReason>
    ensures { result ≡ halt_back stands touched }
{
    match touched {
        Some(watch) => Some(HaltReason::Watched(watch)),
        None => {
            if stands {
                Some(HaltReason::Point)
            } else {
                None
            }
        }
    }
}

/// One turn of a hart: why the way back ends before it, if it does. The hart stood at a breakpoint, or the turn touched
/// a watchpoint.
fn seen_back<C: Crew>(
    setting: &Setting<'_, C>,
    stops: &Stops,
    bench: &mut LiveBench,
    hart: HartId,
) -> Result<Option<HaltReason>, AllocError>
    requires sound { IsSound bench.old }
    ensures seen { IfOk result (λ halt. (size : Size) (b : Bench) → Shows size b bench.old → (new : Bench)
        × (MayMove size (one_turn hart) b new × IsSeen halt stops.now hart b new) × Shows size new bench.new) }
    ensures sound { OnOk result (IsSound bench.new) }
{
    let load = next_load(bench, hart);
    let stands = stands_at(bench, hart, stops.points());
    let before = stops.watched(setting.alloc, bench)?;
    bench.turns(setting, hart, 1);
    let touched = first_touched(bench, load, &before);
    Ok(halt_back(stands, touched))
}

/// What was found before, or later: the turn of a hart after `turns` others.
fn later_turn(
    found: Option<(u32, Stop)>,
    turns: u32,
    hart: HartId,
    halt: Option<HaltReason>,
) -> Option<(u32, Stop)>
    ensures { result ≡ later_turn found turns hart halt }
{
    match halt {
        Some(halt) => Some((turns, Stop { hart, halt })),
        None => found,
    }
}

/// What was found before, or later: in a line.
fn later_place(
    found: Option<TurnPlace>,
    line: usize,
    last: Option<(u32, Stop)>,
) -> Option<TurnPlace>
    ensures { result ≡ later_place found line last }
{
    match last {
        Some((turns, stop)) => Some(TurnPlace { line, turns, stop }),
        None => found,
    }
}

/// Makes `turns` turns. Answers the last of them before which the way back ends: how many stand before it, and why.
fn last_halt_in<C: Crew>(
    setting: &Setting<'_, C>,
    stops: &Stops,
    bench: &mut LiveBench,
    hart: HartId,
    turns: u32,
) -> Result<Option<(u32, Stop)>, AllocError>
    requires sound { IsSound bench.old }
    ensures within { IfOk result (λ found. IfSome found (λ f. (f.1.hart ≡ hart) × (f.0 < turns))) }
    ensures found { IfOk result (λ found. (size : Size) (b : Bench) → Shows size b bench.old → (new : Bench)
        × FoundIn size stops.now found (replicate turns (one_turn hart)) b new × Shows size new bench.new) }
    ensures sound { OnOk result (IsSound bench.new) }
{
    let mut found = None;
    for k in 0..turns {
        let halt = seen_back(setting, stops, bench, hart)?;
        found = later_turn(found, k, hart, halt);
    }
    Ok(found)
}

/// Runs a line of a history: the last of its turns before which something halts.
fn last_halt_of<C: Crew>(
    setting: &Setting<'_, C>,
    stops: &Stops,
    bench: &mut LiveBench,
    line: &Line,
) -> Result<Option<(u32, Stop)>, AllocError>
    requires range { IsLineInRange setting.now.shape.now line.now }
    requires sound { IsSound bench.old }
    ensures row { IfOk result (λ found. IfSome found (IsRowPast line.now)) }
    ensures found { IfOk result (λ found. (b : Bench) → Shows setting.now.shape.now b bench.old → (new : Bench)
        × FoundIn setting.now.shape.now stops.now found (singles line.now) b new × Shows setting.now.shape.now new bench.new) }
    ensures sound { OnOk result (IsSound bench.new) }
{
    match line {
        Line::Turn(hart, count) => last_halt_in(setting, stops, bench, *hart, *count),
        other => {
            replay(setting, other, bench)?;
            Ok(None)
        }
    }
}

/// Runs the history again on a bench at its begin, turn by turn: the last turn before which its hart stood at a breakpoint, or
/// that touched a watchpoint. The interrupt is looked at before each line.
fn last_halt_along<C: Crew>(
    setting: &Setting<'_, C>,
    stops: &Stops,
    timeline: &Timeline,
    interrupt: &AtomicBool,
    bench: &mut LiveBench,
) -> Result<Way, AllocError>
    requires ranges { AreInRange setting.now.shape.now timeline.now.history }
    requires shows { Shows setting.now.shape.now (bench_with timeline.now.begins) bench.old }
    requires sound { IsSound bench.old }
    ensures place { IfOk result (λ way. IfEnded way (λ found. IfSome found (λ place. IsPlace place.stop.hart place.line
        place.turns timeline.now.history))) }
    ensures found { IfOk result (λ way. IfEnded way (λ found. (last : Bench) × FoundOf setting.now.shape.now stops.now found
        timeline.now.history (moments timeline.now.history) (bench_with timeline.now.begins) last)) }
{
    let mut found = None;
    let lines = timeline.lines();
    for (number, line) in lines.iter().enumerate() {
        if interrupt.swap(false, Ordering::SeqCst) {
            return Ok(Way::Interrupted);
        }
        let last = last_halt_of(setting, stops, bench, line)?;
        found = later_place(found, number, last);
    }
    Ok(Way::Ended(found))
}

/// Where the way back ends: before the last turn of which the hart stood at a breakpoint, or that touched a
/// watchpoint; where there is none, before the first turn.
pub(crate) fn place_back<C: Crew>(
    setting: &Setting<'_, C>,
    stops: &Stops,
    timeline: &Timeline,
    interrupt: &AtomicBool,
) -> Result<Way, AllocError>
    requires ranges { AreInRange setting.now.shape.now timeline.now.history }
    ensures place { IfOk result (λ way. IfEnded way (λ found. IfSome found (λ place. IsPlace place.stop.hart place.line
        place.turns timeline.now.history))) }
    ensures end { IfOk result (λ way. IfEnded way (λ found. IfSome found (λ place. IsEnd setting.now.shape.now stops.now
        place timeline.now.history (bench_with timeline.now.begins)))) }
    ensures none { IfOk result (λ way. IfEnded way (λ found. IfNone found (All MakesNone timeline.now.history))) }
{
    let mut bench = LiveBench::blank(setting.alloc, setting.shape, timeline.begins())?;
    let way = last_halt_along(setting, stops, timeline, interrupt, &mut bench);
    bench.release();
    let Way::Ended(found) = way? else {
        return Ok(Way::Interrupted);
    };
    match found {
        Some(place) => Ok(Way::Ended(Some(place))),
        None => Ok(Way::Ended(first_turn(setting, timeline.lines()))),
    }
}
