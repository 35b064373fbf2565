//! Why a board stands.

use crate::stops::Watchpoint;
use board_model::HartId;

/// Why nothing runs.
#[derive(Clone, Copy, Drop)]
pub enum HaltReason {
    /// The step was made, or nothing was asked yet.
    Stepped,
    /// A hart came to a breakpoint.
    Point,
    /// A turn touched this watchpoint.
    Watched(Watchpoint),
    /// The board dozes, its life is over, or an armed cut struck: the console has the line.
    Ended,
    /// The board is off.
    Off,
    /// No hart that may run, or is to step, has anything to do.
    Idle,
    /// The turns that one command may make are made.
    Spent,
    /// The script with which the session began goes on with a line that is no row of turns.
    AtLine,
    /// The debugger asked for it.
    Interrupted,
    /// Nothing stands before this place in the history.
    Begin,
}

/// Why nothing runs, and the hart that is shown.
#[derive(Clone, Copy, Drop)]
pub struct Stop {
    /// The hart that is shown.
    pub hart: HartId,
    /// Why nothing runs.
    pub halt: HaltReason,
}
