//! How the orders are bounded that a search follows.

/// How orders are bounded.
#[derive(Clone, Copy, PartialEq, Eq, Debug, Drop)]
pub enum Bound {
    /// Not at all.
    Unbounded,
    /// At most so many harts are preempted: another hart's turn follows a hart's that does not wait. A hart waits where at most 100 turns
    /// of its own lead back to the same board.
    Preemptions(u32),
    /// There are at most so many power-ons: a boot, a resume and the power-on after a cut is one each, and a wake is none.
    PowerOns(u32),
}
