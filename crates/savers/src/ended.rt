//! What was drawn from a ticket that has ended.

ghost use Rattle.savers.specs.Draws.{AreEachOnce};

use crate::ticket::TicketSeat;
use std::snapshot::Snapshot;

/// All that was drawn from a ticket, which has ended. It takes no bytes: contracts alone read it, by
/// `numbers_of`. Nothing but [`Ticket::end`](crate::Ticket::end) makes one.
#[derive(Drop)]
pub struct Drawn {
    pub(crate) last: Snapshot<TicketSeat>,
    ghost once: { AreEachOnce last.value.me.0.drawn },
}
