//! Saving: a saver for each lane, which draws its pages from one ticket.
ghost use Rattle.std.specs.Prelude.{◌≡◌, ◌==◌, ◌<◌, ◌≤◌, ℕ, [], All, length, map, vec_capacity, slice_index_or, IfOk, IfErr};
ghost use Rattle.disk.specs.Facts.{lane_failures};
ghost use Rattle.layout.specs.Sizes.{lane_sectors};
ghost use Rattle.savers.specs.Saved.{SamePlaces};
ghost use Rattle.savers.specs.Saves.{AreFresh, HasSaved, AreEnded, SaveRefused};
ghost use Rattle.savers.specs.Jobs.{IsReady, IsSeated, JobDone, lane_of};
ghost use Rattle.savers.specs.Draws.{unused_view};
ghost use Rattle.savers.specs.Ended.{numbers_of};
ghost use Rattle.savers.specs.Seats.{IsSeatOf, ticket_view_of};

use crate::ended::Drawn;
use crate::fill::fill;
use crate::saver::Saver;
use crate::seating::{hand_out, take_back};
use crate::snapshot::Snapshot;
use crate::ticket::{Ticket, TicketSeat};
use board_model::Refusal;
use crew::Crew;
use disk::Lane;
use std::alloc::Global;

/// How many places of lanes 0 to 3 hold pages.
pub type LaneCounts = [u32; 4];

/// What a save answers: how many places of each lane are in use, and all that its savers drew from their
/// ticket, which contracts alone read.
#[derive(Drop)]
pub struct SavedPages {
    pub counts: LaneCounts,
    pub drawn: Drawn,
}

/// Saves the memory through the lanes, each lane by one job of the crew, and gives the lanes back, each where
/// it was. Each job draws pages from one ticket and writes each into the next place of its lane, its header and
/// then its data: what all of them drew, put together, is each page of the board once. `Ok` has how many
/// places of each lane are in use; each page stands in one of them, under its serial. The first call of a lane
/// that fails is its last, and the others go on; then `Device` is refused, and any bytes may stand in the lanes.
/// `Memory` is refused where none was had for the ticket or for the list of savers; then no job began, and no
/// lane was called (docs/STORE.md, "The ticket").
pub fn save<C: Crew, L: Lane + Send + Drop>(
    alloc: Global,
    crew: &C,
    lanes: Vec<L>,
    snapshot: &Snapshot,
) -> (Vec<L>, Result<SavedPages, Refusal>)
    requires fresh { AreFresh snapshot.now.shape.now (map L.lane_facts lanes.items) }
    ensures places { SamePlaces (map L.lane_facts lanes.items) (map L.lane_facts result.0.items) }
    ensures saved { IfOk result.1 (λ saved. HasSaved snapshot.now.shape.now snapshot.now.ram.now snapshot.now.serial
        (numbers_of saved.drawn) saved.counts (map L.lane_facts lanes.items) (map L.lane_facts result.0.items)) }
    ensures refused { IfErr result.1 (λ e. SaveRefused snapshot.now.shape.now (map L.lane_facts lanes.items) e
        (map L.lane_facts result.0.items)) }
{
    let Ok((ticket, seat)) = Ticket::new(alloc) else {
        return (lanes, Err(Refusal::Memory));
    };
    let Ok(savers) = Vec::with_capacity(alloc, lanes.len()) else {
        return (lanes, Err(Refusal::Memory));
    };
    let (lanes, saved) = save_by(crew, ticket, seat, savers, lanes, snapshot);
    if !none_failed(lanes.as_slice()) {
        return (lanes, Err(Refusal::Device));
    }
    (lanes, Ok(saved))
}

/// All jobs, by a ticket of which nothing is drawn, its one seat, and a list with room for the savers. It takes
/// no memory.
fn save_by<C: Crew, L: Lane + Send + Drop>(
    crew: &C,
    ticket: Ticket,
    seat: TicketSeat,
    savers: Vec<Saver<L>>,
    lanes: Vec<L>,
    snapshot: &Snapshot,
) -> (Vec<L>, SavedPages)
    requires seat { IsSeatOf ticket seat }
    requires unused { ticket_view_of seat ≡ unused_view }
    requires none { savers.items ≡ [] }
    requires space { length lanes.items ≤ vec_capacity savers }
    requires fresh { AreFresh snapshot.now.shape.now (map L.lane_facts lanes.items) }
    ensures places { SamePlaces (map L.lane_facts lanes.items) (map L.lane_facts result.0.items) }
    ensures saved { lane_failures (map L.lane_facts result.0.items) ≡ 0
        → HasSaved snapshot.now.shape.now snapshot.now.ram.now snapshot.now.serial (numbers_of result.1.drawn)
        result.1.counts (map L.lane_facts lanes.items) (map L.lane_facts result.0.items) }
    ensures ended { AreEnded snapshot.now.shape.now (map L.lane_facts lanes.items) (map L.lane_facts result.0.items) }
{
    let mut seat = seat;
    let mut lanes = lanes;
    let mut savers = savers;
    let _lanes = snapshot.shape.lanes();
    hand_out(&ticket, &mut seat, &mut lanes, &mut savers);
    run_jobs(crew, &ticket, &mut savers, snapshot);
    let counts = take_back(&ticket, &mut seat, &mut lanes, savers);
    let drawn = ticket.end(seat);
    (lanes, SavedPages { counts, drawn })
}

/// Runs each saver's job by the crew. What failed is read off the lanes afterwards.
fn run_jobs<C: Crew, L: Lane + Send>(
    crew: &C,
    ticket: &Ticket,
    savers: &mut Vec<Saver<L>>,
    snapshot: &Snapshot,
)
    requires few { length savers.old.items ≤ 4 }
    requires ready { All (IsReady ticket.now) savers.old.items }
    requires room { All (λ s. length (lane_of L.lane_facts s).content ≡ lane_sectors snapshot.now.shape.now)
        savers.old.items }
    ensures as_many { length savers.new.items ≡ length savers.old.items }
    ensures seated { All (IsSeated ticket.now) savers.new.items }
    ensures each { (i : ℕ) (d : _) → i < length savers.old.items
        → JobDone L.lane_facts ticket.now snapshot.now.shape.now snapshot.now.ram.now snapshot.now.serial
        (slice_index_or savers.old.items i d) (slice_index_or savers.new.items i d) }
{
    run_each(crew, ticket, savers, snapshot);
}

/// Runs the job of each saver of a slice by the crew.
fn run_each<C: Crew, L: Lane + Send>(
    crew: &C,
    ticket: &Ticket,
    savers: &mut [Saver<L>],
    snapshot: &Snapshot,
)
    requires few { length savers.old ≤ 4 }
    requires ready { All (IsReady ticket.now) savers.old }
    requires room { All (λ s. length (lane_of L.lane_facts s).content ≡ lane_sectors snapshot.now.shape.now)
        savers.old }
    ensures as_many { length savers.new ≡ length savers.old }
    ensures seated { All (IsSeated ticket.now) savers.new }
    ensures each { (i : ℕ) (d : _) → i < length savers.old
        → JobDone L.lane_facts ticket.now snapshot.now.shape.now snapshot.now.ram.now snapshot.now.serial
        (slice_index_or savers.old i d) (slice_index_or savers.new i d) }
{
    crew.each(
        savers,
        &|_i: usize, saver: &mut Saver<L>|
            requires { IsReady ticket.now saver.old
                × (length (lane_of L.lane_facts saver.old).content ≡ lane_sectors snapshot.now.shape.now) }
            ensures { JobDone L.lane_facts ticket.entry.now snapshot.entry.now.shape.now snapshot.entry.now.ram.now
                snapshot.entry.now.serial saver.old saver.new }
        {
            let _ = fill(saver, ticket, snapshot);
        },
    );
}

/// Whether no call of any lane has failed.
fn none_failed<L: Lane>(lanes: &[L]) -> bool
    ensures { result ≡ (lane_failures (map L.lane_facts lanes.now) == 0) }
{
    match lanes.split_first() {
        None => true,
        Some((first, rest)) => first.failures() == 0 && none_failed(rest),
    }
}
