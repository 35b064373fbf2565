//! What is asked of the harts of a board.

use board_model::HartId;

/// What a `vCont` asks.
#[derive(Clone, Copy, Drop)]
pub enum VCont {
    /// Nothing, since an action is not known, or a thread is none.
    Nothing,
    /// That hart makes one turn.
    Step(HartId),
    /// It makes turns while its pc lies from the first address on and before the second.
    StepWithin(HartId, u64, u64),
    /// Those harts go on.
    Go([bool; 8]),
}
