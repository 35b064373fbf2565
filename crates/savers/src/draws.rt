//! The calls of a ticket.

ghost use Rattle.std.specs.Prelude.{◌≡◌, ◌<◌, ◌≤◌, ◌-◌, ◌++◌, ◌∷◌, [], IfOk};
ghost use Rattle.savers.specs.Draws.{ticket_view, unused_view, draws_each, together, AreEachOnce};
ghost use Rattle.savers.specs.Seats.{IsSeatOf, ticket_view_of, IsWhole};
ghost use Rattle.savers.specs.Ended.{numbers_of};

use crate::ended::Drawn;
use crate::ticket::{ByDraws, Draw, Ticket, TicketSeat};
use atomic_table::Table;
use std::alloc::{AllocError, Global};
use std::snapshot::Snapshot;

impl Ticket {
    /// A ticket of which nothing is drawn, and its one seat, which may draw 1,024 times. `Err` where memory
    /// was refused.
    pub fn new(alloc: Global) -> Result<(Ticket, TicketSeat), AllocError>
        ensures seat { IfOk result (λ made. IsSeatOf made.0 made.1) }
        ensures unused { IfOk result (λ made. ticket_view_of made.1 ≡ unused_view) }
    {
        let (table, seat) = Table::of_words(alloc, &[0], &())?;
        Ok((Ticket { table }, seat))
    }

    /// Draws the next number, in one step.
    pub fn draw(&self, seat: &mut TicketSeat) -> u64
        requires seat { IsSeatOf self.now seat.old }
        requires may { 0 < (ticket_view_of seat.old).left }
        ensures seat { IsSeatOf self.now seat.new }
        ensures drawn { ticket_view_of seat.new
            ≡ ticket_view ((ticket_view_of seat.old).left - 1) ((ticket_view_of seat.old).drawn ++ result ∷ []) }
    {
        self.table.shared.fetch_add::<Draw>(seat, 0, 1)
    }

    /// Parts a seat off for another thread, which may draw 256 times.
    pub fn part(&self, seat: &mut TicketSeat) -> TicketSeat
        requires seat { IsSeatOf self.now seat.old }
        requires may { draws_each ≤ (ticket_view_of seat.old).left }
        ensures seat { IsSeatOf self.now seat.new }
        ensures left { ticket_view_of seat.new
            ≡ ticket_view ((ticket_view_of seat.old).left - draws_each) (ticket_view_of seat.old).drawn }
        ensures part { IsSeatOf self.now result }
        ensures new { ticket_view_of result ≡ ticket_view draws_each [] }
    {
        self.table.shared.split_seat::<ByDraws>(seat)
    }

    /// Takes a seat in, with what it drew and with its draws that are left.
    pub fn take_in(&self, seat: &mut TicketSeat, other: TicketSeat)
        requires seat { IsSeatOf self.now seat.old }
        requires other { IsSeatOf self.now other }
        ensures seat { IsSeatOf self.now seat.new }
        ensures both { ticket_view_of seat.new ≡ together (ticket_view_of seat.old) (ticket_view_of other) }
    {
        self.table.shared.join_seat::<ByDraws>(seat, other);
    }

    /// Ends the ticket, with a seat that has taken in all others. What it drew is all that was drawn, and that
    /// are the numbers below their count, each once.
    pub fn end(self, seat: TicketSeat) -> Drawn
        requires seat { IsSeatOf self seat }
        requires whole { IsWhole (ticket_view_of seat) }
        ensures all { numbers_of result ≡ (ticket_view_of seat).drawn }
        ensures once { AreEachOnce (numbers_of result) }
    {
        let last = Snapshot::of(&seat);
        let closed = self.table.close_with(seat);
        closed.free();
        Drawn { last }
    }
}
