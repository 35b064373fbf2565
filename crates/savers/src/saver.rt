//! A saver: who fills a lane.

use crate::ticket::TicketSeat;

/// A saver: its lane, its seat at the ticket, and how many places of the lane it has filled.
#[derive(Drop)]
pub(crate) struct Saver<L> {
    pub(crate) lane: L,
    pub(crate) seat: TicketSeat,
    pub(crate) filled: u32,
}
