//! Boards that are about to be run, and their runs.

ghost use Rattle.std.specs.Prelude.{◌≡◌, ◌+◌, ℕ, [], true, None, Some, All, IfOk, map, vec_len};
ghost use Rattle.disk.specs.Facts.{Content};
ghost use Rattle.store.specs.Views.{disk_of, found_state, failures_at_open};
ghost use Rattle.hart_threads.specs.Bused.{begun_bus};
ghost use Rattle.hart_threads.specs.Seated.{AreNamed};
ghost use Rattle.hart_threads.specs.Views.{bus_parts};
ghost use Rattle.machine.specs.Held.{AreUntouched, IsHeld, board_of};
ghost use Rattle.tallies.specs.BookViews.{id_of, parts_of};
ghost use Rattle.tallies.specs.Books.{fresh_from};
ghost use Rattle.tallies.specs.Halts.{watched};
ghost use Rattle.tests.specs.Begun.{IsBegun};

use crate::dozing::UntilWoken;
use crate::fixtures::formatted;
use board::{BegunBoard, BoardParts, Payloads};
use board_model::{BootMode, Entry, Refusal, Shape, Slot};
use board_session::console;
use hart_threads::{
    AfterConsole, BookPart, BootedHarts, BusTurn, Closing, Gate, HartParts, Heard, Locks, NewBook,
    Rested, SharedBoard, SharedBus, SharedStore, Threaded, Unshared, Why, drive,
};
use rv_decode::Reg;
use simdisk::SimDisk;
use std::alloc::Global;
use std::io::BufWriter;
use std::marker::Brand;
use std::process::Abort;
use std::sync::{Mutex, OnceLock, Wait};
use std::thread::Threads;
use std::time::Clock;
use store::{Saving, Store};
use tallies::{Halt, Watch};

/// Slot 0 boots these bytes, and the other slots nothing.
fn booting(alloc: Global, payload: &[u8]) -> Result<Payloads, Refusal> {
    let mut bytes = Vec::new(alloc);
    bytes.extend_from_slice(payload)?;
    let mut payloads = Payloads::new(alloc);
    payloads.set(Slot::new(0).ok_or(Refusal::BadShape)?, bytes);
    Ok(payloads)
}

/// The parts of a board that was powered on fresh over a new disk, and its shape.
pub fn parts_of(
    alloc: Global,
    shape: &Shape,
    payload: &[u8],
) -> Result<(BoardParts<SimDisk>, Shape), Refusal>
    ensures held { IfOk result (λ p. IsHeld p.1 p.0.harts.items p.0.tables (Some p.0.seats) p.0.bus.doze) }
    ensures untouched { IfOk result (λ p. AreUntouched p.1.harts p.0.tables p.0.seats) }
    ensures begun { IfOk result (λ p. IsBegun p.1 p.0.store) }
    ensures awake { IfOk result (λ p. p.0.bus.doze ≡ None) }
{
    let disk = formatted(alloc, shape)?;
    let payloads = booting(alloc, payload)?;
    match BegunBoard::power_on(alloc, disk, BootMode::Fresh, &payloads) {
        Ok(board) => {
            let shape = board.store.shape();
            Ok((board.into_parts(), shape))
        }
        Err(unpowered) => Err(unpowered.refusal),
    }
}

/// More turns than a test has time for.
pub const ENDLESS: u64 = 1_000_000_000_000;

/// A board's run on threads.
#[derive(Clone, Copy, Drop)]
pub struct BoardTrial<'a> {
    /// The harts, pages and lanes of the board, and what it boots.
    pub size: (u64, u64, u64),
    pub payload: &'a [u8],
    /// How many turns a hart makes at most.
    pub turns: u64,
    /// What the console reads; it waits for this gate first, and tells it when it has left.
    pub input: &'a [u8],
    pub until: Option<&'a UntilWoken>,
}

impl<'a> BoardTrial<'a> {
    /// So many turns of one hart that boots nothing, and a console that returns at once.
    pub fn of(turns: u64) -> BoardTrial<'a> {
        BoardTrial {
            size: (1, 1, 1),
            payload: &[],
            turns,
            input: b"",
            until: None,
        }
    }
}

/// How a loop ended: how many turns it made and why it ended, the hart's a0, a1 and pc then, and the number of its receipt.
#[derive(Drop)]
pub struct End {
    pub made: u64,
    pub why: Why,
    pub regs: (u64, u64),
    pub pc: u64,
    pub receipt: Option<u32>,
}

/// How the first of these loops ended.
fn end_of<J: Threaded>(loops: &[Rested<'_, J>]) -> Option<End> {
    let ended = &loops.first()?.ended;
    Some(End {
        made: ended.made,
        why: ended.why,
        regs: (ended.hart.reg(Reg::new(10)), ended.hart.reg(Reg::new(11))),
        pc: ended.hart.pc(),
        receipt: match &ended.told {
            Some(told) => Some(told.number()),
            None => None,
        },
    })
}

/// What the console of a trial writes.
fn talk<J: Threaded, R: Wait + Clock + Abort>(
    rt: &R,
    alloc: Global,
    bus: &Mutex<SharedBus<J>>,
    store: &Mutex<SharedStore<SimDisk, J>>,
    part: BookPart<J, Entry>,
    heard: Heard<J>,
    trial: BoardTrial<'_>,
) -> Vec<u8> {
    let mut out = BufWriter::new(alloc, Vec::new(alloc)).expect(rt, "memory");
    let (mut input, mut heard) = (trial.input, heard);
    let mut locks = Locks::new(bus, store);
    if let Some(gate) = trial.until {
        gate.wait(rt);
    }
    let (_part, _left) = console(rt, &mut locks, part, &mut heard, &mut input, &mut out);
    if let Some(gate) = trial.until {
        gate.tell();
    }
    let (shown, _held) = out.into_parts();
    shown
}

/// The books of a life: of its commands, of what is in doubt, and of the history of its bus.
#[derive(Drop)]
struct Books {
    commands: NewBook<Entry>,
    doubts: NewBook<Entry>,
    runs: NewBook<BusTurn>,
}

/// A word, with the watch that may set it.
type Word = (Halt, Watch);

/// The marks of a life: its books, and what ends its loops: what the console says, the halt, and the word that says that the life is over.
type Marks = (Books, (OnceLock<AfterConsole>, (Word, Word)));

/// New marks, of which the books of commands and of the bus have so many parts.
fn new_marks(rt: &impl Abort, alloc: Global, parts: u32) -> Marks
    ensures { (parts_of result.0.commands ≡ parts) × (parts_of result.0.doubts ≡ 2) × (parts_of result.0.runs ≡ parts)
        × (result.1.1.0.1 ≡ watched result.1.1.0.0 true 0 None) × (result.1.1.1.1 ≡ watched result.1.1.1.0 true 0 None) }
{
    let commands = NewBook::new(alloc, parts).expect(rt, "memory");
    let doubts = NewBook::new(alloc, 2).expect(rt, "memory");
    let runs = NewBook::new(alloc, parts).expect(rt, "memory");
    let halt = Halt::new(alloc).expect(rt, "memory");
    let over = Halt::new(alloc).expect(rt, "memory");
    let books = Books {
        commands,
        doubts,
        runs,
    };
    (books, (OnceLock::new(), (halt, over)))
}

/// Runs the harts of a board that was powered on fresh under that gate, with its console: how the loop of its first hart ends, and what
/// its console writes.
pub fn driven<R: Threads + Wait + Clock + Abort + Sync, G: Gate + Sync>(
    rt: &R,
    alloc: Global,
    gate: &G,
    trial: BoardTrial<'_>,
) -> (End, Vec<u8>) {
    let (harts, pages, lanes) = trial.size;
    let Ok(size) = Shape::new(harts, pages, lanes) else {
        rt.panic("not a shape")
    };
    let Ok((parts, shape)) = parts_of(alloc, &size, trial.payload) else {
        rt.panic("no board")
    };
    let marks = new_marks(rt, alloc, shape.harts() + 2);
    driven_as::<Brand, R, G>(rt, alloc, gate, trial, parts, marks, &shape)
}

/// The store of a life that has just begun, with its books, shared by its console and so many harts; the console's part, those of the
/// harts, and what the console has heard.
fn shared<J: Threaded>(
    rt: &impl Abort,
    alloc: Global,
    begun: (Store<SimDisk>, (NewBook<Entry>, NewBook<Entry>)),
    bus: &mut SharedBus<J>,
    ender: Watch,
    harts: usize,
) -> (
    SharedStore<SimDisk, J>,
    BookPart<J, Entry>,
    Vec<HartParts<J>>,
    Heard<J>,
)
    requires begun { IsBegun J.size begun.0 }
    requires named { (J.found ≡ found_state begun.0) × (J.issued ≡ []) }
    requires book { (id_of begun.1.0 ≡ J.book) × (parts_of begun.1.0 ≡ J.parts) × (J.parts ≡ harts + 2) }
    requires doubts { (id_of begun.1.1 ≡ J.doubts) × (parts_of begun.1.1 ≡ 2) }
    requires bus { (bus_parts bus.old ≡ fresh_from 0 (J.size.harts + 2)) × (J.size.harts ≡ harts) }
    requires ender { ender ≡ watched J.over true 0 None }
    requires opened { failures_at_open begun.0 ≡ J.failures }
    requires moment { (disk_of begun.0).moment ≡ J.moment }
    requires earlier { (t : ℕ) (c : Content) → (disk_of begun.0).since t c → J.earlier t c }
    ensures many { vec_len result.2 ≡ harts }
    ensures fresh { All (λ p. p.receipts.told ≡ []) result.2.items }
    ensures runs { map (λ p. p.run) result.2.items ≡ fresh_from 2 harts }
{
    let (store, books) = begun;
    let (mut whole, _boot, heard) = Unshared::<SimDisk, J>::new(
        store, books.0, books.1, bus, ender,
    );
    let part = whole.hand_out();
    let Ok(given) = whole.hand_out_all(alloc, harts, bus) else {
        rt.panic("no memory")
    };
    (whole.share(), part, given, heard)
}

/// Runs those parts of a board, of a journal that has a name, with the marks of its life.
fn driven_as<J: Threaded + Send + Sync, R: Threads + Wait + Clock + Abort + Sync, G: Gate + Sync>(
    rt: &R,
    alloc: Global,
    gate: &G,
    trial: BoardTrial<'_>,
    parts: BoardParts<SimDisk>,
    marks: Marks,
    shape: &Shape,
) -> (End, Vec<u8>)
    requires held { IsHeld shape.now parts.harts.items parts.tables (Some parts.seats) parts.bus.doze }
    requires untouched { AreUntouched shape.now.harts parts.tables parts.seats }
    requires begun { IsBegun shape.now parts.store }
    requires named { (J.size ≡ shape.now) × (J.found ≡ found_state parts.store) × (J.issued ≡ [])
        × (J.memory ≡ parts.bus.ram) }
    requires book { (id_of marks.0.commands ≡ J.book) × (parts_of marks.0.commands ≡ J.parts)
        × (J.parts ≡ shape.now.harts + 2) }
    requires doubts { (id_of marks.0.doubts ≡ J.doubts) × (parts_of marks.0.doubts ≡ 2) }
    requires runs { (id_of marks.0.runs ≡ J.runs) × (parts_of marks.0.runs ≡ J.size.harts + 2) }
    requires awake { parts.bus ≡ begun_bus J.memory }
    requires opened { failures_at_open parts.store ≡ J.failures }
    requires moment { (disk_of parts.store).moment ≡ J.moment }
    requires earlier { (t : ℕ) (c : Content) → (disk_of parts.store).since t c → J.earlier t c }
    requires machine { J.machine ≡ board_of shape.now J.memory parts.bus.doze parts.harts.items parts.seats }
    requires tables { AreNamed J.starts J.raises parts.tables }
    requires driven { (marks.1.0.id ≡ J.parting) × (marks.1.1.0.0 ≡ J.halt) × (trial.turns ≡ J.turns) × (J.gated ≡ true)
        × (marks.1.1.0.1 ≡ watched J.halt true 0 None) }
    requires over { (marks.1.1.1.0 ≡ J.over) × (marks.1.1.1.1 ≡ watched J.over true 0 None) }
{
    let BoardParts {
        harts,
        seats,
        tables,
        bus,
        store,
    } = parts;
    let (books, (lock, ((halt, first), (over, ender)))) = marks;
    let Books {
        commands,
        doubts,
        runs,
    } = books;
    let doze = bus.doze;
    let mut bus = SharedBus::<J>::new(bus, runs);
    let (store, part, given, heard) = shared::<J>(
        rt,
        alloc,
        (store, (commands, doubts)),
        &mut bus,
        ender,
        harts.len(),
    );
    let booted = BootedHarts {
        harts,
        seats,
        doze,
        parts: given,
        turns: trial.turns,
    };
    let bus: Mutex<SharedBus<J>> = Mutex::new(bus);
    let store = Mutex::new(store);
    let closing = Closing::new(lock, halt, over);
    let reason = Mutex::new(closing.reason(first));
    let closing = reason.lock(rt).closing();
    let crew = crew::Threads::new(rt);
    let (rung, told, size) = (&bus, &store, *shape);
    let board = SharedBoard {
        saving: Saving { alloc, crew: &crew },
        tables: &tables,
        shape: &size,
        bus: &bus,
        store: &store,
        closing,
        reason: &reason,
    };
    let done = drive(
        rt,
        gate,
        board,
        booted,
        part,
        move |part| talk(rt, alloc, rung, told, part, heard, trial),
    );
    let Ok((loops, said)) = done else {
        rt.panic("a thread was not had")
    };
    (end_of(&loops).expect(rt, "a loop"), said)
}
