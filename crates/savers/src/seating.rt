//! Savers are made of lanes and seats, and taken apart again. Neither takes memory.
ghost use Rattle.std.specs.Prelude.{◌≡◌, ◌<◌, ◌≤◌, ◌+◌, ◌*◌, ℕ, [], All, length, map, flat_map, vec_capacity, slice_index, slice_index_or};
ghost use Rattle.savers.specs.Jobs.{IsReady, IsSeated, drawn_by, lane_of};
ghost use Rattle.savers.specs.Draws.{unused_view, all_draws, draws_each};
ghost use Rattle.savers.specs.Seats.{IsSeatOf, ticket_view_of, IsWhole};

use crate::saver::Saver;
use crate::ticket::{Ticket, TicketSeat};
use disk::Lane;

/// Makes a saver of each lane, in their order, with a seat of its own that is parted off from this one. The
/// list of savers has room for them.
pub(crate) fn hand_out<L: Lane + Drop>(
    ticket: &Ticket,
    seat: &mut TicketSeat,
    lanes: &mut Vec<L>,
    savers: &mut Vec<Saver<L>>,
)
    requires seat { IsSeatOf ticket.now seat.old }
    requires unused { ticket_view_of seat.old ≡ unused_view }
    requires few { length lanes.old.items ≤ 4 }
    requires none { savers.old.items ≡ [] }
    requires room { length lanes.old.items ≤ vec_capacity savers.old }
    ensures seat { IsSeatOf ticket.now seat.new }
    ensures drawn { (ticket_view_of seat.new).drawn ≡ [] }
    ensures left { (ticket_view_of seat.new).left + draws_each * length savers.new.items ≡ all_draws }
    ensures ready { All (IsReady ticket.now) savers.new.items }
    ensures lanes { map (lane_of L.lane_facts) savers.new.items ≡ map L.lane_facts lanes.old.items }
    ensures many { length savers.new.items ≡ length lanes.old.items }
    ensures empty { lanes.new.items ≡ [] }
    ensures room { length lanes.old.items ≤ vec_capacity lanes.new }
{
    while !lanes.is_empty() {
        let lane = lanes.remove(0);
        let part = ticket.part(seat);
        savers.push_reserved(Saver {
            lane,
            seat: part,
            filled: 0,
        });
    }
}

/// Gives back the lanes of savers whose jobs have ended, in their order, and says how many places of each are
/// filled: 0 for lanes that there are not. The seat takes in those of all savers.
pub(crate) fn take_back<L: Lane + Drop>(
    ticket: &Ticket,
    seat: &mut TicketSeat,
    lanes: &mut Vec<L>,
    savers: Vec<Saver<L>>,
) -> [u32; 4]
    requires seat { IsSeatOf ticket.now seat.old }
    requires drawn { (ticket_view_of seat.old).drawn ≡ [] }
    requires left { (ticket_view_of seat.old).left + draws_each * length savers.items ≡ all_draws }
    requires seated { All (IsSeated ticket.now) savers.items }
    requires empty { lanes.old.items ≡ [] }
    requires room { length savers.items ≤ vec_capacity lanes.old }
    requires few { length savers.items ≤ 4 }
    ensures seat { IsSeatOf ticket.now seat.new }
    ensures whole { IsWhole (ticket_view_of seat.new) }
    ensures drawn { (ticket_view_of seat.new).drawn ≡ flat_map drawn_by savers.items }
    ensures lanes { map L.lane_facts lanes.new.items ≡ map (lane_of L.lane_facts) savers.items }
    ensures counts { (i : ℕ) (d : _) → i < length savers.items
        → slice_index result i ≡ (slice_index_or savers.items i d).filled }
    ensures others { (i : ℕ) → length savers.items ≤ i → slice_index result i ≡ 0 }
    ensures four { length result ≡ 4 }
{
    let mut counts = [0; 4];
    let mut savers = savers;
    while !savers.is_empty() {
        let saver = savers.remove(0);
        counts[lanes.len()] = saver.filled;
        lanes.push_reserved(saver.lane);
        ticket.take_in(seat, saver.seat);
    }
    counts
}
