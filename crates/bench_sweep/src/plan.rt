//! What a bench is asked to do.

use crate::points::BenchKind;
use crew::Part;

/// What a bench is asked to do over a script.
#[derive(Clone, Copy, Drop)]
pub struct SweepPlan {
    pub bench: BenchKind,
    /// The points of this part alone, in the order of the report; where there is none, all.
    pub part: Option<Part>,
    /// The lines of a point are written only where one of its runs is wrong.
    pub quiet: bool,
}
