//! Running forward: turns of one hart, and of harts in turn.

ghost use Rattle.std.specs.Prelude.{◌≡◌, ◌≤◌, ◌<◌, ◌+◌, ℕ, true, false, slice_index_or, None, Some, IfErr, IfOk, IfSome, OnOk};
ghost use Rattle.bench_report.specs.declared.rows.TurnRow.{TurnRow};
ghost use Rattle.debug_session.specs.Ats.{IsAt};
ghost use Rattle.debug_session.specs.Steps.{Went};
ghost use Rattle.debug_session.specs.Withins.{MadeOne};
ghost use Rattle.debug_session.specs.Firsts.{Stretched, ToHalt, halt_after, halt_seen, halts_all, is_of_turn, seen_in, touched_since, TellsTouched};
ghost use Rattle.debug_session.specs.Lives.{machine_of, pc_in, stands_in};

use crate::halts::{HaltReason, Stop};
use crate::loads::Load;
use crate::looks::stands_at;
use crate::orders::{Ahead, ScriptOrder};
use crate::rounds::{NextPart, Round};
use crate::stops::{SeenBytes, Stops, Watchpoint, first_touched};
use crate::timeline::Timeline;
use bench_report::{Setting, TurnRow};
use board_model::{HartId, Shape};
use crew::Crew;
use machine::{Did, Word};
use report_lines::Answer;
use script_lang::Line;
use std::alloc::AllocError;
use std::sync::atomic::{AtomicBool, Ordering};

/// What came of a hart's part of a round.
#[derive(Clone, Copy, Drop)]
pub(crate) struct RoundPart {
    /// Why everything halts, if it does.
    pub(crate) halt: Option<HaltReason>,
    /// How many turns were made.
    pub(crate) made: u32,
    /// Whether the hart has nothing to do.
    pub(crate) rests: bool,
}

/// Whether everything halts after a turn of which this is said: the board dozes, or its life is over.
fn halts_all(word: Word) -> bool
    ensures { result ≡ halts_all word }
{
    match word {
        Word::Over(_) => true,
        Word::Goes(Did::Dozing) => true,
        Word::Goes(_) => false,
    }
}

/// Why everything halts after these turns of a hart, if it does.
fn halt_behind(
    timeline: &Timeline,
    points: &[u64],
    hart: HartId,
    row: TurnRow,
    rests: bool,
) -> Option<HaltReason>
    ensures { result ≡ halt_after row rests (stands_in points.now (pc_in hart (machine_of timeline.now.bench))) }
{
    match row {
        TurnRow::Off if rests => None,
        TurnRow::Off => Some(HaltReason::Off),
        TurnRow::Lost(_) => Some(HaltReason::Ended),
        TurnRow::Made(_, word) => {
            if halts_all(word) {
                Some(HaltReason::Ended)
            } else if stands_at(timeline.bench(), hart, points) {
                Some(HaltReason::Point)
            } else {
                None
            }
        }
    }
}

/// Why a turn halts, which may have touched a watchpoint.
fn halt_seen(halt: Option<HaltReason>, touched: Option<Watchpoint>) -> Option<HaltReason>
    ensures { result ≡ halt_seen halt touched }
{
    match (halt, touched) {
        (None, Some(watch)) => Some(HaltReason::Watched(watch)),
        (Some(HaltReason::Point), Some(watch)) => Some(HaltReason::Watched(watch)),
        (_, _) => halt,
    }
}

/// The first watchpoint that a turn touched, which read that, where one was made.
fn touched_behind(
    timeline: &Timeline,
    made: u32,
    load: Option<Load>,
    before: &Vec<SeenBytes>,
) -> Option<Watchpoint>
    ensures none { made ≡ 0 → result ≡ None }
    ensures told { (made ≡ 0 → ⊥) → result ≡ touched_since (machine_of timeline.now.bench) load (seen_in before.now.items) }
{
    if made == 0 {
        return None;
    }
    first_touched(timeline.bench(), load, before)
}

/// Up to `most` turns of a hart, to the first that halts everything; what the line `turn` would have said of the
/// last is told where it does so by itself.
fn stretch<C: Crew>(
    setting: &Setting<'_, C>,
    points: &[u64],
    timeline: &mut Timeline,
    hart: HartId,
    most: u32,
    told: &mut Vec<Answer>,
) -> Result<RoundPart, AllocError>
    requires at { IsAt setting.now.shape.now timeline.old }
    requires hart { hart < setting.now.shape.now.harts }
    requires most { most ≤ 1000000 }
    ensures at { OnOk result (IsAt setting.now.shape.now timeline.new) }
    ensures made { IfOk result (λ part. Stretched setting.now.shape.now hart most points.now part.made part.rests part.halt
        timeline.old timeline.new) }
    ensures begins { timeline.new.begins ≡ timeline.old.begins }
{
    let (row, rests) = timeline.turns_to(setting, hart, most, points)?;
    let halt = halt_behind(timeline, points, hart, row, rests);
    if matches!(halt, Some(HaltReason::Ended | HaltReason::Off)) {
        told.push(row.last().answer(hart))?;
    }
    Ok(RoundPart {
        halt,
        made: row.made(),
        rests,
    })
}

/// One turn of a hart, where bytes are watched.
pub(crate) fn watched_turn<C: Crew>(
    setting: &Setting<'_, C>,
    stops: &Stops,
    before: &Vec<SeenBytes>,
    timeline: &mut Timeline,
    hart: HartId,
    told: &mut Vec<Answer>,
) -> Result<RoundPart, AllocError>
    requires at { IsAt setting.now.shape.now timeline.old }
    requires hart { hart < setting.now.shape.now.harts }
    requires tells { TellsTouched (machine_of timeline.old.bench) stops.now.watches.items (seen_in before.now.items) }
    ensures at { OnOk result (IsAt setting.now.shape.now timeline.new) }
    ensures went { IfOk result (λ part. Went (λ h. h ≡ hart) part.made setting.now.shape.now timeline.old timeline.new) }
    ensures first { IfOk result (λ part. ToHalt setting.now.shape.now stops.now hart part.halt timeline.old timeline.new) }
    ensures one { IfOk result (λ part. part.made ≤ 1) }
    ensures made { IfOk result (λ part. MadeOne setting.now.shape.now hart stops.now.points.items part timeline.old timeline.new) }
    ensures tells { IfOk result (λ part. (part.made ≡ 0 → ⊥) → part.halt ≡ None
        → TellsTouched (machine_of timeline.new.bench) stops.now.watches.items (seen_in before.now.items)) }
    ensures begins { timeline.new.begins ≡ timeline.old.begins }
{
    let load = timeline.load_among(hart, before);
    let part = stretch(setting, stops.points(), timeline, hart, 1, told)?;
    let touched = touched_behind(timeline, part.made, load, before);
    let halt = halt_seen(part.halt, touched);
    Ok(RoundPart {
        halt,
        made: part.made,
        rests: part.rests,
    })
}

/// A hart's part of a round where bytes are watched, turn by turn.
fn watched_part<C: Crew>(
    setting: &Setting<'_, C>,
    stops: &Stops,
    timeline: &mut Timeline,
    hart: HartId,
    most: u32,
    told: &mut Vec<Answer>,
) -> Result<RoundPart, AllocError>
    requires at { IsAt setting.now.shape.now timeline.old }
    requires hart { hart < setting.now.shape.now.harts }
    ensures went { IfOk result (λ part. Went (λ h. h ≡ hart) part.made setting.now.shape.now timeline.old timeline.new) }
    ensures first { IfOk result (λ part. ToHalt setting.now.shape.now stops.now hart part.halt timeline.old timeline.new) }
    ensures few { IfOk result (λ part. part.made ≤ most) }
{
    let before = stops.watched(setting.alloc, timeline.bench())?;
    let mut sum = 0;
    while sum < most {
        let part = watched_turn(setting, stops, &before, timeline, hart, told)?;
        sum += part.made;
        if part.halt.is_some() || part.rests || part.made == 0 {
            return Ok(RoundPart {
                halt: part.halt,
                made: sum,
                rests: part.rests,
            });
        }
    }
    Ok(RoundPart {
        halt: None,
        made: sum,
        rests: false,
    })
}

/// A hart's part of a round: up to `most` turns.
fn run_part<C: Crew>(
    setting: &Setting<'_, C>,
    stops: &Stops,
    timeline: &mut Timeline,
    hart: HartId,
    most: u32,
    told: &mut Vec<Answer>,
) -> Result<RoundPart, AllocError>
    requires at { IsAt setting.now.shape.now timeline.old }
    requires hart { hart < setting.now.shape.now.harts }
    requires most { most ≤ 1000000 }
    ensures went { IfOk result (λ part. Went (λ h. h ≡ hart) part.made setting.now.shape.now timeline.old timeline.new) }
    ensures first { IfOk result (λ part. ToHalt setting.now.shape.now stops.now hart part.halt timeline.old timeline.new) }
    ensures few { IfOk result (λ part. part.made ≤ most) }
{
    if stops.watch() {
        watched_part(setting, stops, timeline, hart, most, told)
    } else {
        stretch(setting, stops.points(), timeline, hart, most, told)
    }
}

/// Whether an order goes on with a line that is no row of turns.
fn is_line(ahead: &Option<Ahead>) -> bool {
    match ahead {
        Some(Ahead::Other(_)) => true,
        _ => false,
    }
}

/// The next part of a round after this history; none where the hart whose part comes may not run. Else why nothing goes on.
fn next_part(
    shape: &Shape,
    order: &ScriptOrder,
    history: &[Line],
    round: &mut Round,
) -> Result<Option<NextPart>, HaltReason>
    ensures hart { IfOk result (λ next. IfSome next (λ part. (part.hart < shape.now.harts)
        × (slice_index_or round.old.harts part.hart false ≡ true))) }
    ensures most { IfOk result (λ next. IfSome next (λ part. (part.most ≤ round.old.left) × (part.most ≤ 1000000))) }
    ensures harts { round.new.harts ≡ round.old.harts }
    ensures left { round.new.left ≡ round.old.left }
    ensures over { IfErr result (λ halt. is_of_turn halt ≡ false) }
{
    if round.left == 0 {
        return Err(HaltReason::Spent);
    }
    if shape.harts() <= round.resting {
        return Err(HaltReason::Idle);
    }
    let ahead = order.next(history);
    if is_line(&ahead) {
        return Err(HaltReason::AtLine);
    }
    Ok(round.next(shape, &ahead))
}

/// The part of a round that a hart has: why everything halts, if it does.
fn round_part<C: Crew>(
    setting: &Setting<'_, C>,
    stops: &Stops,
    timeline: &mut Timeline,
    part: NextPart,
    round: &mut Round,
    told: &mut Vec<Answer>,
) -> Result<Option<HaltReason>, AllocError>
    requires at { IsAt setting.now.shape.now timeline.old }
    requires hart { part.hart < setting.now.shape.now.harts }
    requires most { (part.most ≤ round.old.left) × (part.most ≤ 1000000) }
    ensures went { OnOk result ((n : ℕ) × (round.new.left + n ≡ round.old.left)
        × Went (λ h. h ≡ part.hart) n setting.now.shape.now timeline.old timeline.new) }
    ensures first { IfOk result (λ halt. ToHalt setting.now.shape.now stops.now part.hart halt timeline.old timeline.new) }
    ensures harts { OnOk result (round.new.harts ≡ round.old.harts) }
{
    let did = run_part(setting, stops, timeline, part.hart, part.most, told)?;
    round.made(did.made);
    Ok(did.halt)
}

/// Goes on with the harts of a round, in turn, to the first halt; or, while the history is a begin of that order, along it. The interrupt is
/// looked at before each hart's part.
pub(crate) fn go<C: Crew>(
    setting: &Setting<'_, C>,
    stops: &Stops,
    order: &ScriptOrder,
    timeline: &mut Timeline,
    round: Round,
    interrupt: &AtomicBool,
    told: &mut Vec<Answer>,
) -> Result<Stop, AllocError>
    requires at { IsAt setting.now.shape.now timeline.old }
    requires first { round.first < setting.now.shape.now.harts }
    ensures went { OnOk result ((n : ℕ) × (n ≤ round.left)
        × Went (λ h. slice_index_or round.harts h false ≡ true) n setting.now.shape.now timeline.old timeline.new) }
    ensures first { IfOk result (λ stop. ToHalt setting.now.shape.now stops.now stop.hart (Some stop.halt) timeline.old timeline.new) }
    ensures there { IfOk result (λ stop. stop.hart < setting.now.shape.now.harts) }
{
    let first = round.first;
    let mut round = round;
    'parts: for _ in 0..u64::MAX {
        let next = match next_part(setting.shape, order, timeline.lines(), &mut round) {
            Ok(next) => next,
            Err(halt) => return Ok(Stop { hart: first, halt }),
        };
        let Some(part) = next else {
            continue;
        };
        let hart = part.hart;
        if interrupt.swap(false, Ordering::SeqCst) {
            return Ok(Stop {
                hart,
                halt: HaltReason::Interrupted,
            });
        }
        if let Some(halt) = round_part(setting, stops, timeline, part, &mut round, told)? {
            return Ok(Stop { hart, halt });
        }
    }
    Ok(Stop {
        hart: first,
        halt: HaltReason::Spent,
    })
}
