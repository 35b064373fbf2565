//! What a seat of a ticket knows.

use std::collections::LinkedList;

/// How often a seat may draw still, and what it has drawn, in order. Views stand in contracts alone: no value
/// of this type is ever made.
pub struct TicketView {
    pub left: u64,
    pub drawn: LinkedList<u64>,
}
