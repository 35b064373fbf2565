//! Steps of one hart: one, or while its pc lies within addresses.

ghost use Rattle.std.specs.Prelude.{◌≡◌, ◌≤◌, ◌<◌, ℕ, None, Some, IfOk, OnOk};
ghost use Rattle.debug_session.specs.Ats.{IsAt};
ghost use Rattle.debug_session.specs.declared.timeline.Timeline.{Timeline};
ghost use Rattle.debug_session.specs.Steps.{Went, halt_step};
ghost use Rattle.debug_session.specs.Withins.{StayedWithin, StepsWithin, WithinTo, halt_within, is_in};
ghost use Rattle.debug_session.specs.Firsts.{ToHalt, seen_in, TellsTouched};
ghost use Rattle.debug_session.specs.Lives.{machine_of, pc_in};

use crate::forth::{RoundPart, watched_turn};
use crate::halts::{HaltReason, Stop};
use crate::looks::pc;
use crate::stops::{SeenBytes, Stops};
use crate::timeline::Timeline;
use bench_report::Setting;
use board_model::HartId;
use crew::Crew;
use report_lines::Answer;
use std::alloc::AllocError;
use std::sync::atomic::{AtomicBool, Ordering};

/// Addresses within which a hart steps, from the first on and before the end, and how many turns it makes at most.
#[derive(Clone, Copy, Drop)]
pub(crate) struct StepRange {
    pub(crate) first: u64,
    pub(crate) end: u64,
    pub(crate) most: u64,
}

/// Why a step ends so: of no turn, since the hart has nothing to do.
pub(crate) fn halt_step(halt: Option<HaltReason>, made: u32) -> HaltReason
    ensures { result ≡ halt_step halt made }
{
    match halt {
        Some(halt) => halt,
        None if made == 0 => HaltReason::Idle,
        None => HaltReason::Stepped,
    }
}

/// Whether the pc of a hart lies within these addresses.
fn stands_within(timeline: &Timeline, hart: HartId, within: StepRange) -> bool
    ensures { result ≡ is_in within (pc_in hart (machine_of timeline.now.bench)) }
{
    match pc(timeline.bench(), hart) {
        Some(pc) => within.first <= pc && pc < within.end,
        None => false,
    }
}

/// Why a hart steps no more within addresses, by what came of its turn and whether its pc lies there then.
fn halt_within(part: RoundPart, stands: bool) -> Option<HaltReason>
    ensures { result ≡ halt_within part.halt part.made stands }
{
    match part.halt {
        Some(halt) => Some(halt),
        None if part.made == 0 => Some(HaltReason::Idle),
        None if stands => None,
        None => Some(HaltReason::Stepped),
    }
}

/// One turn of a hart that steps while its pc lies within these addresses: why it steps no more, if it does not.
fn turn_within<C: Crew>(
    setting: &Setting<'_, C>,
    stops: &Stops,
    before: &Vec<SeenBytes>,
    timeline: &mut Timeline,
    hart: HartId,
    within: StepRange,
    told: &mut Vec<Answer>,
) -> Result<Option<HaltReason>, AllocError>
    requires at { IsAt setting.now.shape.now timeline.old }
    requires hart { hart < setting.now.shape.now.harts }
    requires tells { TellsTouched (machine_of timeline.old.bench) stops.now.watches.items (seen_in before.now.items) }
    ensures went { OnOk result ((n : ℕ) × (n ≤ 1) × Went (λ h. h ≡ hart) n setting.now.shape.now timeline.old timeline.new) }
    ensures first { IfOk result (λ halt. ToHalt setting.now.shape.now stops.now hart halt timeline.old timeline.new) }
    // So do the turns before it and this one.
    ensures within { IfOk result (λ halt. (first : Timeline) (n : ℕ) → StayedWithin setting.now.shape.now within hart n first timeline.old
        → WithinTo setting.now.shape.now within hart n halt first timeline.new) }
    ensures tells { IfOk result (λ halt. halt ≡ None
        → TellsTouched (machine_of timeline.new.bench) stops.now.watches.items (seen_in before.now.items)) }
{
    let part = watched_turn(setting, stops, before, timeline, hart, told)?;
    let stands = stands_within(timeline, hart, within);
    Ok(halt_within(part, stands))
}

/// Steps a hart while its pc lies within these addresses, to the first halt.
pub(crate) fn step_within<C: Crew>(
    setting: &Setting<'_, C>,
    stops: &Stops,
    timeline: &mut Timeline,
    hart: HartId,
    within: StepRange,
    interrupt: &AtomicBool,
    told: &mut Vec<Answer>,
) -> Result<Stop, AllocError>
    requires at { IsAt setting.now.shape.now timeline.old }
    requires hart { hart < setting.now.shape.now.harts }
    ensures went { OnOk result ((n : ℕ) × (n ≤ within.most) × Went (λ h. h ≡ hart) n setting.now.shape.now timeline.old timeline.new) }
    ensures first { IfOk result (λ stop. ToHalt setting.now.shape.now stops.now stop.hart (Some stop.halt) timeline.old timeline.new) }
    ensures within { IfOk result (λ stop. StepsWithin setting.now.shape.now within hart stop.halt timeline.old timeline.new) }
    ensures there { IfOk result (λ stop. stop.hart ≡ hart) }
{
    let before = stops.watched(setting.alloc, timeline.bench())?;
    let mut done = 0;
    while done < within.most {
        if let Some(halt) = turn_within(setting, stops, &before, timeline, hart, within, told)? {
            return Ok(Stop { hart, halt });
        }
        done += 1;
        if interrupt.swap(false, Ordering::SeqCst) {
            return Ok(Stop {
                hart,
                halt: HaltReason::Interrupted,
            });
        }
    }
    Ok(Stop {
        hart,
        halt: HaltReason::Spent,
    })
}
