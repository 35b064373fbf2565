//! The harts of a board on their threads, and the console beside them.

ghost use Rattle.std.specs.Prelude.{◌≡◌, ◌≤◌, ◌+◌, ℕ, List, [], All, length, Some, None, true, false, IfOk, IfErr, map, vec_len, vec_capacity};
ghost use Rattle.disk.specs.Facts.{Content};
ghost use Rattle.board_model.specs.declared.durable.Entry.{Entry};
ghost use Rattle.tallies.specs.BookViews.{id_of, parts_of};
ghost use Rattle.tallies.specs.Books.{fresh_from};
ghost use Rattle.tallies.specs.Halts.{watched};
ghost use Rattle.hart_threads.specs.Begun.{AreFromLast};
ghost use Rattle.hart_threads.specs.Bused.{begun_bus};
ghost use Rattle.hart_threads.specs.Heard.{heard_nothing};
ghost use Rattle.hart_threads.specs.Seated.{AreNamed};
ghost use Rattle.hart_threads.specs.Views.{parts_with};
ghost use Rattle.machine.specs.Held.{AreUntouched, IsHeld, board_of};
ghost use Rattle.store.specs.Leaves.{IsIdle};
ghost use Rattle.store.specs.Taken.{are_taken};
ghost use Rattle.store.specs.Views.{disk_of, doubt_of, failures_at_open, found_state, journal_of, life_of, size_of_store};
ghost use Rattle.board_session.specs.Commands.{party};
ghost use Rattle.board_session.specs.Dialogues.{Talks, dialogue_ends, output_of};
ghost use Rattle.board_session.specs.Histories.{HasHistory, IsUnended, harts_after};
ghost use Rattle.board_session.specs.Sessions.{AreOfLife, IsOfLife, TalksIf, outcome_of};

use crate::gate::{Open, harts_after};
use crate::provisions::Provisions;
use crate::session_end::{after_console, without_console};
use crate::sessions::{SessionEnd, Streams};
use crate::talks::{Left, console};
use board_model::{Entry, Shape};
use disk::Disk;
use hart::Hart;
use hart_threads::{
    BookPart, BootedHarts, Closing, HaltReason, Heard, Journal, Locks, Parted, Rested, SharedBoard,
    SharedBus, SharedStore, Threaded, Undriven, Unshared, drive,
};
use sbi_calls::{Seats, Tables};
use std::alloc::Global;
use std::io::{Read, Write};
use std::sync::{Mutex, Wait};
use std::thread::Threads;
use store::{Saving, Store};
use susp::{Bus, Doze};

/// The harts of a board that is on, the one seat of them all, the doze of their bus, and how many turns each makes at most.
#[derive(Drop)]
pub(crate) struct HartsOn {
    pub(crate) harts: Vec<Hart>,
    pub(crate) seats: Seats,
    pub(crate) doze: Option<Doze>,
    pub(crate) turns: u64,
}

/// What the harts of a board that is on share beside its store.
#[derive(Drop)]
pub(crate) struct Hardware {
    pub(crate) shape: Shape,
    pub(crate) tables: Tables,
    pub(crate) bus: Bus,
}

/// The same, with the bus as its threads share it.
#[derive(Drop)]
pub(crate) struct SharedHardware<J: Journal> {
    pub(crate) shape: Shape,
    pub(crate) tables: Tables,
    pub(crate) bus: SharedBus<J>,
}

/// The streams of a console, its part of the receipts, and what it heard beside them.
#[derive(Drop)]
pub(crate) struct ConsoleSide<J: Journal, I: Read + Drop, W: Write + Drop> {
    pub(crate) streams: Streams<I, W>,
    pub(crate) part: BookPart<J, Entry>,
    pub(crate) heard: Heard<J>,
}

/// A console that is to be begun, and where it says why it halts the harts.
#[derive(Drop)]
struct Attending<'a, 'c, J: Threaded, I: Read + Drop, W: Write + Drop> {
    side: ConsoleSide<J, I, W>,
    reason: &'a Mutex<HaltReason<'c, J>>,
}

/// A console that has left, and what it said of the harts.
#[derive(Drop)]
pub(crate) struct Talked<'c, J: Threaded, I: Read + Drop, W: Write + Drop> {
    pub(crate) side: ConsoleSide<J, I, W>,
    pub(crate) left: Left,
    pub(crate) parted: Parted<'c, J>,
    ghost parts: { parted.token.value ≡ harts_after left },
}

/// The console beside the harts. The harts are halted after `quit`, and where an answer could not be written; where the
/// input ends or fails they run out their turns.
fn attend<'c, R: Wait, D: Disk + Drop, J: Threaded, I: Read + Drop, W: Write + Drop>(
    rt: &R,
    bus: &Mutex<SharedBus<J>>,
    store: &Mutex<SharedStore<D, J>>,
    attending: Attending<'_, 'c, J, I, W>,
) -> Talked<'c, J, I, W>
    ensures { Talks J.found J.issued result.left
        (dialogue_ends (I.remaining attending.entry.side.streams.input) (output_of W.contents attending.entry.side.streams.out)
        (party attending.entry.side.part.told attending.entry.side.heard))
        (dialogue_ends (I.remaining result.side.streams.input) (output_of W.contents result.side.streams.out)
        (party result.side.part.told result.side.heard)) }
{
    let Attending { side, reason } = attending;
    let ConsoleSide {
        streams,
        part,
        heard,
    } = side;
    let Streams { mut input, mut out } = streams;
    let mut heard = heard;
    let mut locks = Locks::new(bus, store);
    let (part, left) = console(rt, &mut locks, part, &mut heard, &mut input, &mut out);
    let closing = reason.lock(rt).closing();
    let parted = closing.part(rt, reason, harts_after(left));
    Talked {
        side: ConsoleSide {
            streams: Streams { input, out },
            part,
            heard,
        },
        left,
        parted,
    }
}

/// Runs the harts of a board on threads and the console beside them, and gives back the disk, the input and the output. Refused
/// `Memory` where a thread could not be started, and `Output` where an answer could not be written. The book of receipts has a
/// part for each hart, one for the console and one for the boot.
pub(crate) fn run_board<
    D: Disk + Drop + Send,
    J: Threaded + Send + Sync,
    R: Threads + Wait + Sync,
    I: Read + Drop,
    W: Write + Drop,
>(
    rt: &R,
    alloc: Global,
    store: Store<D>,
    hardware: Hardware,
    on: HartsOn,
    provisions: Provisions,
    streams: Streams<I, W>,
) -> SessionEnd<D, I, W>
    requires held { IsHeld hardware.shape on.harts.items hardware.tables (Some on.seats) on.doze }
    requires harts { vec_len on.harts ≡ J.size.harts }
    requires shape { hardware.shape ≡ J.size }
    requires store { (size_of_store store ≡ J.size) × (found_state store ≡ J.found) × (journal_of store ≡ J.issued) }
    requires bus { hardware.bus ≡ begun_bus J.memory }
    requires machine { J.machine ≡ board_of hardware.shape J.memory on.doze on.harts.items on.seats }
    requires untouched { AreUntouched hardware.shape.harts hardware.tables on.seats }
    requires tables { AreNamed J.starts J.raises hardware.tables }
    requires unended { IsUnended (life_of store) }
    requires turns { on.turns ≡ J.turns }
    requires lock { provisions.lock.id ≡ J.parting }
    requires halt { (provisions.halt ≡ J.halt) × (provisions.first ≡ watched J.halt true 0 None) }
    requires over { (provisions.over ≡ J.over) × (provisions.ender ≡ watched J.over true 0 None) }
    requires ungated { J.gated ≡ false }
    requires taken { (are_taken J.found J.issued ≡ true) × (length J.issued ≤ 2) }
    requires book { (id_of provisions.book ≡ J.book) × (parts_of provisions.book ≡ J.parts)
        × (J.parts ≡ J.size.harts + 2) }
    requires doubts { (id_of provisions.doubts ≡ J.doubts) × (parts_of provisions.doubts ≡ 2) }
    requires runs { (id_of provisions.runs ≡ J.runs) × (parts_of provisions.runs ≡ J.size.harts + 2) }
    requires room { (vec_len provisions.room ≡ 0) × (J.size.harts ≤ vec_capacity provisions.room) }
    requires up { doubt_of store ≡ None }
    requires opened { failures_at_open store ≡ J.failures }
    requires moment { (disk_of store).moment ≡ J.moment }
    requires earlier { (t : ℕ) (c : Content) → (disk_of store).since t c → J.earlier t c }
    ensures none_out { IsIdle (D.facts result.disk) }
    ensures life { (console : List (ℕ × Entry))
        × (life : IsOfLife J.size J.found J.issued J.failures J.earlier J.moment result.moments.at console
        result.heard.doubt (D.facts result.disk))
        × TalksIf J.found J.issued result.console_left
        (dialogue_ends (I.remaining streams.input) (output_of W.contents streams.out) (party [] heard_nothing))
        (dialogue_ends (I.remaining result.streams.input) (output_of W.contents result.streams.out) (party console result.heard))
        × AreOfLife life.acknowledged.harts life.journal result.console_left result.harts.items
        × HasHistory J.size J.machine J.turns life.journal life.doubt result.heard.woken result.console_left
        result.harts.items }
    ensures ran { result.ran ≡ outcome_of result.console_left }
    ensures unheard { result.console_left ≡ None → (result.streams ≡ streams) × (result.heard ≡ heard_nothing) }
{
    let Provisions {
        book,
        doubts,
        runs,
        halt,
        first,
        over,
        ender,
        lock,
        room,
    } = provisions;
    let Hardware { shape, tables, bus } = hardware;
    let mut bus = SharedBus::<J>::new(bus, runs);
    let (mut whole, boot, heard) = Unshared::<D, J>::new(store, book, doubts, &mut bus, ender);
    let part = whole.hand_out();
    let side = ConsoleSide {
        streams,
        part,
        heard,
    };
    let Ok(parts) = whole.hand_out_all(alloc, on.harts.len(), &mut bus) else {
        drop((shape, tables, on));
        return without_console(
            alloc,
            (whole, bus),
            Vec::new(alloc),
            Vec::new(alloc),
            side,
            boot,
        );
    };
    let booted = BootedHarts {
        harts: on.harts,
        seats: on.seats,
        doze: on.doze,
        parts,
        turns: on.turns,
    };
    let closing = Closing::new(lock, halt, over);
    let reason = Mutex::new(closing.reason(first));
    let shared = SharedHardware { shape, tables, bus };
    let (whole, shared, driven) = drive_beside_console(
        rt, alloc, &reason, shared, whole, booted, side,
    );
    match driven {
        Ok((loops, talked)) => after_console((whole, shared), loops, &closing, talked, boot, room),
        Err(back) => without_console(
            alloc,
            (whole, shared.bus),
            back.loops,
            back.parts,
            back.side.side,
            boot,
        ),
    }
}

/// The loops that ended and the console that has left, or what comes back where no console could be begun.
type Driven<'r, 'c, J, I, W> = Result<
    (Vec<Rested<'c, J>>, Talked<'c, J, I, W>),
    Undriven<'c, J, Attending<'r, 'c, J, I, W>>,
>;

/// Runs the harts on threads and the console beside them, with the bus and the store behind their locks, until all have ended.
/// Then they are shared no longer, and come back with the tables.
fn drive_beside_console<
    'r,
    'c,
    D: Disk + Drop + Send,
    J: Threaded + Send + Sync,
    R: Threads + Wait + Sync,
    I: Read + Drop,
    W: Write + Drop,
>(
    rt: &R,
    alloc: Global,
    reason: &'r Mutex<HaltReason<'c, J>>,
    hardware: SharedHardware<J>,
    whole: Unshared<D, J>,
    booted: BootedHarts<J>,
    side: ConsoleSide<J, I, W>,
) -> (Unshared<D, J>, SharedHardware<J>, Driven<'r, 'c, J, I, W>)
    requires none { length (parts_with whole) ≡ 0 }
    requires shape { hardware.shape ≡ J.size }
    requires turns { booted.turns ≡ J.turns }
    requires parts { vec_len booted.parts ≡ vec_len booted.harts }
    requires runs { map (λ p. p.run) booted.parts.items ≡ fresh_from 2 (vec_len booted.parts) }
    requires fresh { All (λ p. p.receipts.told ≡ []) booted.parts.items }
    requires held { IsHeld hardware.shape booted.harts.items hardware.tables (Some booted.seats) booted.doze }
    requires machine { J.machine ≡ board_of hardware.shape J.memory booted.doze booted.harts.items booted.seats }
    requires untouched { AreUntouched hardware.shape.harts hardware.tables booted.seats }
    requires tables { AreNamed J.starts J.raises hardware.tables }
    ensures none { length (parts_with result.0) ≡ 0 }
    ensures tables { result.1.tables ≡ hardware.tables }
    ensures said { IfOk result.2 (λ r. Talks J.found J.issued r.1.left
        (dialogue_ends (I.remaining side.streams.input) (output_of W.contents side.streams.out) (party side.part.told side.heard))
        (dialogue_ends (I.remaining r.1.side.streams.input) (output_of W.contents r.1.side.streams.out)
        (party r.1.side.part.told r.1.side.heard))) }
    ensures loops { IfOk result.2 (λ r. vec_len r.0 ≡ vec_len booted.harts) }
    ensures numbered { IfOk result.2 (λ r. AreFromLast 0 (λ x. x.ended.hart.id) r.0.items) }
    ensures side { IfErr result.2 (λ e. e.side.side ≡ side) }
    ensures back { IfErr result.2 (λ e. vec_len e.loops + vec_len e.parts ≡ vec_len booted.harts) }
    ensures fresh { IfErr result.2 (λ e. All (λ p. p.receipts.told ≡ []) e.parts.items) }
{
    let SharedHardware { shape, tables, bus } = hardware;
    let bus_lock: Mutex<SharedBus<J>> = Mutex::new(bus);
    let store_lock: Mutex<SharedStore<D, J>> = Mutex::new(whole.share());
    let (bus, store) = (&bus_lock, &store_lock);
    let closing = reason.lock(rt).closing();
    let crew = crew::Threads::new(rt);
    let board = SharedBoard {
        saving: Saving { alloc, crew: &crew },
        tables: &tables,
        shape: &shape,
        bus,
        store,
        closing,
        reason,
    };
    let driven = drive(
        rt,
        &Open,
        board,
        booted,
        Attending { side, reason },
        move |given| -> Talked<'_, J, I, W>
            ensures { Talks J.found J.issued result.left
                (dialogue_ends (I.remaining given.entry.side.streams.input) (output_of W.contents given.entry.side.streams.out)
                (party given.entry.side.part.told given.entry.side.heard))
                (dialogue_ends (I.remaining result.side.streams.input) (output_of W.contents result.side.streams.out)
                (party result.side.part.told result.side.heard)) }
        { attend(rt, bus, store, given) },
    );
    let whole = store_lock.into_inner().unshare();
    let bus = bus_lock.into_inner();
    (whole, SharedHardware { shape, tables, bus }, driven)
}
