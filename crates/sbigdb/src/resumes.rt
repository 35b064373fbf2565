//! What a `vCont` asks of the harts of a board.

ghost use Rattle.std.specs.Prelude.{◌≡◌, ◌<◌, ◌+◌, false, map, codes, IfOk, IfNone, IfSome};
ghost use Rattle.sbigdb.specs.Resumes.{goers_by, is_going, steps, IsAskedBy, IsAskedIn, NoneSteps};
ghost use Rattle.debug_session.specs.Actions.{first_asked};
ghost use Rattle.debug_session.specs.Fields.{stripped};

use crate::asked::VCont;
use board_model::Shape;
use debug_session::{ResumeAction, action_for, are_known, parts, strip_prefix};
use std::alloc::{AllocError, Global};

/// The step that a hart is to make, if it is to make one.
fn step_of(shape: &Shape, words: &[&[u8]], number: u64) -> Option<VCont>
    requires { number < shape.now.harts }
    ensures some { IfSome result (IsAskedIn shape.now (map (λ w. w.now) words.now)) }
    ensures none { IfNone result (steps (first_asked (number + 1) (map (λ w. w.now) words.now)) ≡ false) }
{
    let hart = shape.hart(number)?;
    match action_for(words, number + 1) {
        None => None,
        Some(ResumeAction::Go) => None,
        Some(ResumeAction::Step) => Some(VCont::Step(hart)),
        Some(ResumeAction::StepWithin(first, end)) => Some(VCont::StepWithin(hart, first, end)),
    }
}

/// The step of the first hart that is to make one.
fn first_step(shape: &Shape, words: &[&[u8]]) -> Option<VCont>
    ensures some { IfSome result (IsAskedIn shape.now (map (λ w. w.now) words.now)) }
    ensures none { IfNone result (NoneSteps shape.now.harts (map (λ w. w.now) words.now)) }
{
    for number in 0..u64::from(shape.harts()) {
        if let Some(asked) = step_of(shape, words, number) {
            return Some(asked);
        }
    }
    None
}

/// Whether a hart is to go on.
fn is_going(words: &[&[u8]], number: u64) -> bool
    requires { number < 8 }
    ensures { result ≡ is_going number (map (λ w. w.now) words.now) }
{
    match action_for(words, number + 1) {
        Some(ResumeAction::Go) => true,
        _ => false,
    }
}

/// The harts that are to go on, of all eight that a board may have.
fn goers(words: &[&[u8]]) -> [bool; 8]
    ensures { result ≡ goers_by (map (λ w. w.now) words.now) }
{
    [
        is_going(words, 0),
        is_going(words, 1),
        is_going(words, 2),
        is_going(words, 3),
        is_going(words, 4),
        is_going(words, 5),
        is_going(words, 6),
        is_going(words, 7),
    ]
}

/// What these words ask: the step of the first hart that is to make one, or else that those go on that are to.
fn asked_in(shape: &Shape, words: &[&[u8]]) -> VCont
    ensures { IsAskedIn shape.now (map (λ w. w.now) words.now) result }
{
    if !are_known(words) {
        return VCont::Nothing;
    }
    match first_step(shape, words) {
        Some(asked) => asked,
        None => VCont::Go(goers(words)),
    }
}

/// What the packet of a `vCont` asks.
pub(crate) fn asked_by(alloc: Global, shape: &Shape, packet: &[u8]) -> Result<VCont, AllocError>
    ensures { IfOk result (IsAskedBy shape.now (stripped (codes "vCont;") packet.now)) }
{
    let Some(actions) = strip_prefix(packet, b"vCont;") else {
        return Ok(VCont::Nothing);
    };
    let words = parts(alloc, actions)?;
    Ok(asked_in(shape, &words))
}
