//! All of a board but its harts and its memory.

use crate::powers::Power;
use crate::tables::TableCopy;
use board_model::Reason;
use susp::Doze;

/// All of a board but its harts and its memory, as plain data.
#[derive(Clone, Copy, PartialEq, Eq, Drop)]
pub struct Rest {
    /// Whether it is on.
    pub power: Power,
    /// The reset reason that stands.
    pub reason: Reason,
    /// Whether the store is down.
    pub down: bool,
    /// The doze, where the board sleeps in its RAM.
    pub doze: Option<Doze>,
    /// The tables that the harts share.
    pub tables: TableCopy,
}
