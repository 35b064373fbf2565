//! Where a hart stood once its loop had ended.

ghost use Rattle.std.specs.Prelude.{◌≡◌, ◌∷◌, ◌<◌, IfSome, IsTrue, is_some};
ghost use Rattle.hsm.specs.Calls.{StandsBy};
ghost use Rattle.sbi_calls.specs.Both.{AreSeatsOfBoth, Known, harts_of_both, known, views};
ghost use Rattle.store.specs.Views.{journal_of};
ghost use Rattle.hart_threads.specs.Called.{IsLastOf};
ghost use Rattle.hart_threads.specs.Ends.{HasGone, IsClosedBy, IsEnding, IsStateOf, over_of, own_receipt};
ghost use Rattle.hart_threads.specs.Seated.{AreNamed, AreOfHart, AreSeatsIn, StandsAfter};
ghost use Rattle.hart_threads.specs.Threads.{seated};
ghost use Rattle.hart_threads.specs.Views.{inside, moments_with, parts_with};
ghost use Rattle.hart_threads.specs.declared.loops.Why.TheVariants.{Life};

use crate::bus_turns::BusPart;
use crate::closing::{Closing, HaltSet, Parted, Shut, agree};
use crate::loops::{Ended, Why};
use crate::over::LastReceipt;
use crate::shared::HartLocal;
use crate::threaded::Threaded;
use crate::unshared::Unshared;
use board_model::Entry;
use disk::Disk;
use hart::Hart;
use hsm::State;
use sbi_calls::{Seats, Tables};
use susp::Doze;

/// A loop that ended, and the state of its hart then. Its hart is one of the life's board, and went from where the boot left it
/// to where it stands by just the turns that it made; after these it made one look at the hart table. Its seats are of the life's
/// tables, and of its hart alone. Where it ended the life the halt was set.
#[derive(Drop)]
pub struct Rested<'a, J: Threaded> {
    pub ended: Ended<'a, J>,
    state: State,
    set: Option<HaltSet<J>>,
    pub ghost halted: { (ended.why ≡ Life → IsTrue (is_some set)) },
    pub ghost theirs: { AreSeatsIn J.starts J.raises ended.local.seats },
    pub ghost alone: { AreOfHart ended.hart.id ended.local.seats },
    pub ghost gone: { ∥ ((k : Known) × HasGone J.machine J.turns ended.made
        (seated ended.hart k ended.local.doze ended.local.run) ended.why ended.told
        × IsStateOf state ended.hart.id k (known ended.local.seats)) ∥₁ },
}

/// How a hart's loop ended and where the hart then stood, as plain data that does not name the life.
#[derive(Drop)]
pub struct HartEnd {
    /// The hart, as its last turn left it.
    pub hart: Hart,
    /// Its state, as `hart_get_status` answers it.
    pub state: State,
    /// Its own copy of its doze, where its board dozes by it.
    pub doze: Option<Doze>,
    /// How many turns it made.
    pub made: u64,
    /// Why its loop ended.
    pub why: Why,
    /// The command that ended the life, its own or another hart's, and its place in the journal, from 1; none where no command ended it.
    pub over: Option<(u32, Entry)>,
}

/// The state of the hart of a loop that has ended, by one look at the hart table.
pub(crate) fn at_rest<'a, J: Threaded>(
    ended: Ended<'a, J>,
    set: Option<HaltSet<J>>,
    tables: &Tables,
) -> Rested<'a, J>
    requires halted { ended.why ≡ Life → IsTrue (is_some set) }
    requires named { AreNamed J.starts J.raises tables.now }
    requires seats { AreSeatsOfBoth tables.now ended.local.seats }
    requires alone { AreOfHart ended.hart.id ended.local.seats }
    requires hart { ended.hart.id < harts_of_both tables.now }
    requires stands { StandsAfter ended.why ended.local.doze ended.hart.id ended.local.seats }
    requires gone { ∥ HasGone J.machine J.turns ended.made
        (seated ended.hart (known ended.local.seats) ended.local.doze ended.local.run) ended.why ended.told ∥₁ }
    ensures state { StandsBy result.state ended.entry.hart.id (views result.ended.local.seats) }
    ensures hart { result.ended.hart ≡ ended.entry.hart }
    ensures doze { result.ended.local.doze ≡ ended.entry.local.doze }
    ensures run { result.ended.local.run ≡ ended.entry.local.run }
    ensures same { (result.ended.made ≡ ended.entry.made) × (result.ended.why ≡ ended.entry.why) }
{
    let Ended {
        hart,
        local,
        asked,
        made,
        why,
        shut,
        told,
    } = ended;
    let HartLocal {
        seats,
        doze,
        part,
        run,
    } = local;
    let Seats { harts, pending } = seats;
    let (harts, state) = hsm::status(&tables.harts, harts, hart.id(), hart.id());
    let seats = Seats { harts, pending };
    let local = HartLocal {
        seats,
        doze,
        part,
        run,
    };
    let ended = Ended {
        hart,
        local,
        asked,
        made,
        why,
        shut,
        told,
    };
    Rested { ended, state, set }
}

/// The place of a command, and the command, of a receipt.
fn told_of<J: Threaded>(told: &Option<LastReceipt<J>>) -> Option<(u32, Entry)>
    ensures { result ≡ told.now }
{
    match told {
        Some(told) => Some((told.number(), told.entry())),
        None => None,
    }
}

/// The command of another hart that ended all loops, which is the last of the journal; none where the console halted the harts. It agrees
/// with what the console said when it left.
fn closed_by<'a, D: Disk + Drop, J: Threaded>(
    whole: &mut Unshared<D, J>,
    closing: &Closing<J>,
    shut: Option<Shut<'a, J>>,
    parted: &Parted<'a, J>,
) -> Option<(u32, Entry)>
    ensures store { inside whole.new ≡ inside whole.old }
    ensures moments { moments_with whole.new ≡ moments_with whole.old }
    ensures parts { parts_with whole.new ≡ parts_with whole.old }
    ensures closed { IsTrue (is_some shut.entry) → IsClosedBy parted.now.token.value result }
    ensures last { IfSome result (λ t. IsLastOf (journal_of (inside whole.new)) t.0 t.1) }
{
    match shut {
        Some(Shut::Life(over)) => Some(whole.ended_by(closing, over)),
        Some(Shut::Console(halted)) => {
            agree(&halted, parted);
            None
        }
        None => None,
    }
}

/// The command that ended the life, where it ended the loop: its hart's own, or another hart's.
fn over_by<J: Threaded>(
    why: Why,
    told: &Option<LastReceipt<J>>,
    closed: Option<(u32, Entry)>,
) -> Option<(u32, Entry)>
    ensures { result ≡ over_of why told.now closed }
{
    match why {
        Why::Life => told_of(told),
        Why::Closed => closed,
        Why::Gate => None,
        Why::Turns => None,
    }
}

impl<'a, J: Threaded> Rested<'a, J> {
    /// How the hart ended, with its seats and its part of the history of the bus; its part of the receipts comes back to the store.
    /// `parted` holds what its console said of the harts when it left. Where a command ended its loop, its own or another hart's, it is the
    /// last of the store's journal.
    pub fn end<D: Disk + Drop>(
        self,
        whole: &mut Unshared<D, J>,
        closing: &Closing<J>,
        parted: &Parted<'a, J>,
    ) -> (HartEnd, Seats, BusPart<J>)
        ensures store { inside whole.new ≡ inside whole.old }
        ensures moments { moments_with whole.new ≡ moments_with whole.old }
        ensures parts { parts_with whole.new ≡ self.entry.ended.local.part ∷ parts_with whole.old }
        ensures hart { result.0.hart ≡ self.entry.ended.hart }
        ensures told { own_receipt result.0 ≡ self.entry.ended.told }
        ensures theirs { AreSeatsIn J.starts J.raises result.1 }
        ensures alone { AreOfHart result.0.hart.id result.1 }
        ensures well { IsEnding J.machine J.turns J.gated parted.now.token.value result.2 (known result.1) result.0 }
        ensures last { IfSome result.0.over (λ t. IsLastOf (journal_of (inside whole.new)) t.0 t.1) }
    {
        let Rested {
            ended,
            state,
            set: _,
        } = self;
        let Ended {
            hart,
            local,
            asked: _,
            made,
            why,
            shut,
            told,
        } = ended;
        let HartLocal {
            seats,
            doze,
            part,
            run,
        } = local;
        whole.gather_told(part);
        let closed = closed_by(whole, closing, shut, parted);
        let over = over_by(why, &told, closed);
        let end = HartEnd {
            hart,
            state,
            doze,
            made,
            why,
            over,
        };
        (end, seats, run)
    }
}
