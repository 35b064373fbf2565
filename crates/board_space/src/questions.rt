//! What a program asks of a kernel.

use crate::bounds::Bound;
use crate::space::Failures;
use board_model::{Reason, Shape};
use state_space::Limits;

/// What is asked of a kernel.
#[derive(Drop)]
pub struct Question<'a> {
    /// The board.
    pub shape: Shape,
    /// The kernel: what its boot slot holds, at most as long as RAM.
    pub payload: &'a [u8],
    /// The reset reason that its first boot finds.
    pub reason: Reason,
    /// Which failures may come.
    pub failures: Failures,
    /// How the orders are bounded that are followed.
    pub bound: Bound,
    /// Where the search is given up.
    pub limits: Limits,
    /// How many threads search. What is found is the same by any number of them; each has tables of its own, which count to no limit.
    pub threads: usize,
}
