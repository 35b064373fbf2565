//! The state of a hart.

ghost use Rattle.std.specs.Prelude.{◌≡◌};
ghost use Rattle.hsm.specs.Calls.{code_of, state_in_word};

use crate::marks::{claimed_in, entered_in, suspended_in};
use board_model::HartId;

/// The state of a hart (SBI specification 2.0, chapter HSM). The standard's STOP_PENDING, SUSPEND_PENDING and
/// RESUME_PENDING are never answered, since those changes are one step each.
#[derive(Clone, Copy, PartialEq, Eq)]
pub enum State {
    Started,
    Stopped,
    StartPending,
    Suspended,
}

impl State {
    /// The number of the state in the answer of `hart_get_status`: 0, 1, 2 or 4.
    pub fn code(self) -> u64
        ensures { result ≡ code_of self }
    {
        match self {
            State::Started => 0,
            State::Stopped => 1,
            State::StartPending => 2,
            State::Suspended => 4,
        }
    }
}

/// The state of a hart, by the first word of the table.
pub(crate) fn state_in(found: u64, hart: HartId) -> State
    ensures { result ≡ state_in_word hart found }
{
    if !claimed_in(found).contains(hart) {
        State::Stopped
    } else if !entered_in(found).contains(hart) {
        State::StartPending
    } else if !suspended_in(found).contains(hart) {
        State::Started
    } else {
        State::Suspended
    }
}
