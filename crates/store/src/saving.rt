//! What a call is given that may suspend a board.

use board_model::{Addr, HartId};
use std::alloc::{AllocError, Global};

/// What an image is written with.
pub struct Saving<'a, C> {
    /// Where the memory comes from that it takes.
    pub alloc: Global,
    /// Who writes its lanes.
    pub crew: &'a C,
}

impl<'a, C> Clone for Saving<'a, C> {
    fn clone(&self) -> Result<Saving<'a, C>, AllocError> {
        Ok(*self)
    }
}

impl<'a, C> Copy for Saving<'a, C> {}

/// Where a suspended board goes on.
#[derive(Clone, Copy, PartialEq, Eq, Drop)]
pub struct Resumption {
    /// The hart that suspended the board, and that goes on.
    pub hart: HartId,
    /// The address at which it begins again.
    pub address: Addr,
    /// The value that it then finds in a1.
    pub opaque: u64,
}
