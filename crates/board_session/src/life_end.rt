//! The end of a life: the receipts that were told, and the disk.

ghost use Rattle.std.specs.Prelude.{◌≡◌, ◌≤◌, ◌+◌, [], ◌∷◌, true, None, Some, All, length, map, vec_len, vec_capacity};
ghost use Rattle.store.specs.Leaves.{IsIdle};
ghost use Rattle.store.specs.Taken.{are_taken};
ghost use Rattle.store.specs.Views.{size_of_store, found_state, journal_of, life_of, doubt_of, failures_at_open, disk_of};
ghost use Rattle.hart_threads.specs.Noted.{boot_told};
ghost use Rattle.hart_threads.specs.Begun.{AreFromLast};
ghost use Rattle.hart_threads.specs.Bused.{AreSaved, AreWakes};
ghost use Rattle.hart_threads.specs.Views.{bus_parts, inside, moments_with, parts_with};
ghost use Rattle.hart_threads.specs.Ends.{AreNumberedFrom, own_receipt};
ghost use Rattle.arrayvec.specs.ArrayVec.{array_vec_len};
ghost use Rattle.hsm.specs.Seating.{all_harts};
ghost use Rattle.ipi.specs.Seating.{all_pending_views};
ghost use Rattle.hart_threads.specs.declared.bus_turns.BusTurn.{BusTurn as TurnView};
ghost use Rattle.tallies.specs.Logs.{Log};
ghost use Rattle.board_session.specs.Backs.{AreBack};
ghost use Rattle.board_session.specs.Histories.{EndsHistory, EndsWith};
ghost use Rattle.board_session.specs.Sessions.{IsOfLife, IsOver};

use crate::seats_back::SeatsBack;
use board_model::Entry;
use disk::Disk;
use hart_threads::{
    BookPart, BusPart, Closing, HartEnd, HartLocal, HartParts, Heard, Moments, Parted, Rested,
    SharedBus, Threaded, Unshared,
};
use store::Store;

/// How the harts of those loops ended, in the order of their numbers, from 0. In the list of loops the highest number comes first.
/// `parted` holds what their console said of the harts when it left. The parts of the loops come back to the store and to the bus, and
/// their seats of the tables are given back. A command that ended a loop is the last of the journal.
pub(crate) fn ends_of<'c, D: Disk + Drop, J: Threaded>(
    whole: &mut Unshared<D, J>,
    bus: &mut SharedBus<J>,
    loops: Vec<Rested<'c, J>>,
    closing: &Closing<J>,
    parted: &Parted<'c, J>,
    room: Vec<HartEnd>,
) -> (Vec<HartEnd>, SeatsBack<J>)
    requires none { length (parts_with whole.old) ≡ 0 }
    requires empty { vec_len room ≡ 0 }
    requires room { vec_len loops ≤ vec_capacity room }
    requires few { vec_len loops ≤ 8 }
    requires numbered { AreFromLast 0 (λ r. r.ended.hart.id) loops.items }
    ensures store { inside whole.new ≡ inside whole.old }
    ensures moments { moments_with whole.new ≡ moments_with whole.old }
    ensures back { (back : AreBack (parts_with whole.new)) × (back.harts ≡ map own_receipt result.0.items) }
    ensures parts { length (parts_with whole.new) ≡ vec_len loops.entry }
    ensures many { vec_len result.0 ≡ vec_len loops.entry }
    ensures numbered { AreNumberedFrom 0 result.0.items }
    ensures seats { array_vec_len result.1.starts ≡ vec_len loops.entry }
    ensures well { All (EndsWith J.machine J.turns J.gated parted.now.token.value (bus_parts bus.new)
        (all_harts result.1.starts.items) (all_pending_views result.1.raises.items)) result.0.items }
    ensures over { All (IsOver (journal_of (inside whole.new))) result.0.items }
{
    let (mut loops, mut ends) = (loops, room);
    let mut back = SeatsBack::new();
    while let Some(rested) = loops.pop() {
        let (end, seats, run) = rested.end(whole, closing, parted);
        ends.push_reserved(end);
        bus.gather(run);
        back.push(seats);
    }
    (ends, back)
}

/// The history of the bus of a life that has ended, once the parts of its loops are back: with them the store's part and the console's,
/// in this order.
pub(crate) fn end_history<J: Threaded>(bus: SharedBus<J>, runs: (BusPart<J>, BusPart<J>))
    ensures { (log : Log TurnView) × EndsHistory J.size J.memory log runs.0 runs.1 (bus_parts bus) }
{
    let (own, woken) = runs;
    let mut bus = bus;
    bus.gather(own);
    bus.gather(woken);
    bus.close();
}

/// The parts of loops that ended come back to the store.
pub(crate) fn gather_loops<D: Disk + Drop, J: Threaded>(
    whole: &mut Unshared<D, J>,
    loops: Vec<Rested<'_, J>>,
)
    requires back { AreBack (parts_with whole.old) }
    ensures store { inside whole.new ≡ inside whole.old }
    ensures moments { moments_with whole.new ≡ moments_with whole.old }
    ensures back { AreBack (parts_with whole.new) }
    ensures many { length (parts_with whole.new) ≡ length (parts_with whole.old) + vec_len loops.entry }
{
    let mut loops = loops;
    while let Some(rested) = loops.pop() {
        let ended = rested.ended;
        let HartLocal {
            seats: _,
            doze: _,
            part,
            run: _,
        } = ended.local;
        whole.gather(part);
    }
}

/// Parts that were given to no loop come back to the store.
pub(crate) fn gather_parts<D: Disk + Drop, J: Threaded>(
    whole: &mut Unshared<D, J>,
    parts: Vec<HartParts<J>>,
)
    requires back { AreBack (parts_with whole.old) }
    requires fresh { All (λ p. p.receipts.told ≡ []) parts.items }
    ensures store { inside whole.new ≡ inside whole.old }
    ensures moments { moments_with whole.new ≡ moments_with whole.old }
    ensures back { AreBack (parts_with whole.new) }
    ensures many { length (parts_with whole.new) ≡ length (parts_with whole.old) + vec_len parts }
{
    let mut parts = parts;
    while let Some(part) = parts.pop() {
        whole.gather(part.receipts);
    }
}

/// The console's part and the boot's come back.
fn gather_last<D: Disk + Drop, J: Threaded>(
    whole: &mut Unshared<D, J>,
    console: BookPart<J, Entry>,
    boot: BookPart<J, Entry>,
)
    ensures store { inside whole.new ≡ inside whole.old }
    ensures moments { moments_with whole.new ≡ moments_with whole.old }
    ensures parts { parts_with whole.new ≡ boot ∷ console ∷ parts_with whole.old }
{
    whole.gather(console);
    whole.gather(boot);
}

/// The disk of a store whose life ends here, once the harts' parts are back, and the console's and the boot's with them, and what the
/// console heard; the moments of its receipts; and what the store and the console did with the bus.
pub(crate) fn disk_of<D: Disk + Drop, J: Threaded>(
    whole: Unshared<D, J>,
    console: BookPart<J, Entry>,
    heard: Heard<J>,
    boot: BookPart<J, Entry>,
) -> (D, Moments, (BusPart<J>, BusPart<J>))
    requires harts { length (parts_with whole) ≡ J.size.harts }
    requires boot { boot.told ≡ boot_told J.issued }
    requires all { J.parts ≡ J.size.harts + 2 }
    ensures none_out { IsIdle (D.facts result.0) }
    ensures moments { result.1.at ≡ moments_with whole }
    ensures life { (back : AreBack (parts_with whole))
        → (life : IsOfLife J.size J.found J.issued J.failures J.earlier J.moment result.1.at console.told
        heard.doubt (D.facts result.0)) × (life.acknowledged.harts ≡ back.harts)
        × (life.journal ≡ journal_of (inside whole)) × (life.doubt ≡ doubt_of (inside whole)) }
    ensures saved { AreSaved J.size (life_of (inside whole)) result.2.0 }
    ensures woken { AreWakes heard.woken result.2.1 }
{
    let mut whole = whole;
    gather_last(&mut whole, console, boot);
    let (store, moments, runs) = whole.close(heard);
    (store.into_disk(), moments, runs)
}

/// The disk of a store whose life ends as the boot left it, before any part of the receipts was handed out.
pub(crate) fn disk_at_once<D: Disk + Drop>(store: Store<D>) -> (D, Moments)
    requires taken { are_taken (found_state store) (journal_of store) ≡ true }
    requires few { length (journal_of store) ≤ 2 }
    requires up { doubt_of store ≡ None }
    ensures none_out { IsIdle (D.facts result.0) }
    ensures life { (life : IsOfLife (size_of_store store) (found_state store) (journal_of store) (failures_at_open store)
        (disk_of store).since (disk_of store).moment result.1.at [] None (D.facts result.0))
        × (life.journal ≡ journal_of store) × (life.doubt ≡ doubt_of store) }
{
    let moments = Moments::first(&store);
    (store.into_disk(), moments)
}
