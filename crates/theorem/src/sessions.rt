//! The promises of a board on threads, beside an operator's console.
//! A law runs nothing, and tells the prover a fact: `content_determines_state`.
ghost use Rattle.std.specs.Prelude.{◌≡◌, ◌≤◌, ℕ, List, false, None, IfOk, [], length, take};
ghost use Rattle.board_model.specs.Durable.{Change, DurableState, fold};
ghost use Rattle.board_model.specs.Shapes.{Size};
ghost use Rattle.board.specs.Moments.{commands_by};
ghost use Rattle.board_session.specs.Commands.{party};
ghost use Rattle.board_session.specs.Dialogues.{dialogue_ends, output_of};
ghost use Rattle.board_session.specs.Sessions.{TalksIf};
ghost use Rattle.hart_threads.specs.Heard.{heard_nothing};
ghost use Rattle.hart_threads.specs.Since.{IsOfFirst, sent};
ghost use Rattle.board_files.specs.Files.{IfKnown};
ghost use Rattle.disk.specs.Facts.{Content};
ghost use Rattle.store.specs.Leaves.{IsIdle, LeavesOnly};
ghost use Rattle.store.specs.Standing.{StandsFor};
ghost use Rattle.store.specs.Views.{disk_of, found_state};
ghost use Rattle.theorem.specs.Sessions.{FindsSession, IsCutAnywhere, KeepsJournal, KeepsSession};

use board::Payloads;
use board_files::{FileDisk, Filed, SectorFile};
use board_model::Refusal;
use board_session::{ConsoleHeard, Left, Options, SessionEnd, Streams, session};
use disk::Disk;
use hart_threads::HartEnd;
use simdisk::{Fill, SimDisk};
use std::alloc::Global;
use std::io::{Read, Write};
use std::sync::Wait;
use std::thread::Threads;
use store::{Store, content_determines_state};

/// *Is kept what was acknowledged?* Of a session whose console was begun, over a disk whose bytes stand for the state s, whatever order
/// harts, console and savers run in. It has one journal: what its boot issued, and then the commands that were acknowledged to the console
/// and to harts, each at the place of its receipt, and no other. A crash leaves what they make of s, or with a command in doubt that or
/// the state after it; and at each moment of the session, within a command and within a call of the disk too, what some first of them
/// make, with all that had been acknowledged by then. A command is in doubt only where the disk failed in the session. It is the one that
/// the console has in doubt, which was answered 6; or, where the console has none, a reset or a suspension that a call of a hart asks for.
pub fn a_session_keeps<
    R: Threads + Wait + Sync,
    D: Disk + Drop + Send,
    I: Read + Drop,
    W: Write + Drop,
>(
    rt: &R,
    alloc: Global,
    options: &Options,
    disk: D,
    payloads: &Payloads,
    streams: Streams<I, W>,
) -> SessionEnd<D, I, W>
    requires { IsIdle (D.facts disk) }
    ensures { (size : Size) (s : DurableState) → options.now.new ≡ false → StandsFor (D.facts disk).content size s
        → (result.console_left ≡ None → ⊥) → KeepsJournal size s (commands_by options.now.mode s) (D.facts disk)
        (D.facts result.disk) result.moments.at result.heard }
{
    a_session_answers(rt, alloc, options, disk, payloads, streams)
}

/// *What does the console answer?* The same, and what was read and answered is of that journal: each line has its answer, in order, and
/// each `ok N` has its command at the place N (`TalksIf`). What the harts did [`session`] says, clause `ended`.
pub fn a_session_answers<
    R: Threads + Wait + Sync,
    D: Disk + Drop + Send,
    I: Read + Drop,
    W: Write + Drop,
>(
    rt: &R,
    alloc: Global,
    options: &Options,
    disk: D,
    payloads: &Payloads,
    streams: Streams<I, W>,
) -> SessionEnd<D, I, W>
    requires { IsIdle (D.facts disk) }
    ensures { (size : Size) (s : DurableState) → options.now.new ≡ false → StandsFor (D.facts disk).content size s
        → (result.console_left ≡ None → ⊥) → (kept : KeepsJournal size s (commands_by options.now.mode s) (D.facts disk)
        (D.facts result.disk) result.moments.at result.heard)
        × TalksIf s (commands_by options.now.mode s) result.console_left
        (dialogue_ends (I.remaining streams.input) (output_of W.contents streams.out) (party [] heard_nothing))
        (dialogue_ends (I.remaining result.streams.input) (output_of W.contents result.streams.out)
        (party kept.console result.heard)) }
{
    content_determines_state();
    session(rt, alloc, options, disk, payloads, streams)
}

/// *Wherever power fails while a session runs.* The same, over a disk that stands for the state s alone: each content that a crash has
/// left at some moment of the session, within a command and within a call of the disk too, stands for what some first commands of that
/// journal make of s, or these and the one in doubt (`IsCutAnywhere`). All are among them that had been acknowledged by then: from the
/// moment of each receipt on, which the shared store notes as it makes the receipt, each command up to that one (`KeepsJournal`).
pub fn a_session_cut_anywhere<
    R: Threads + Wait + Sync,
    D: Disk + Drop + Send,
    I: Read + Drop,
    W: Write + Drop,
>(
    rt: &R,
    alloc: Global,
    options: &Options,
    disk: D,
    payloads: &Payloads,
    streams: Streams<I, W>,
) -> SessionEnd<D, I, W>
    requires { IsIdle (D.facts disk) }
    ensures { (size : Size) (s : DurableState) → options.now.new ≡ false → StandsFor (D.facts disk).content size s
        → LeavesOnly (D.facts disk) size s → (result.console_left ≡ None → ⊥)
        → (kept : KeepsJournal size s (commands_by options.now.mode s) (D.facts disk) (D.facts result.disk) result.moments.at result.heard)
        × TalksIf s (commands_by options.now.mode s) result.console_left
        (dialogue_ends (I.remaining streams.input) (output_of W.contents streams.out) (party [] heard_nothing))
        (dialogue_ends (I.remaining result.streams.input) (output_of W.contents result.streams.out)
        (party kept.console result.heard))
        × IsCutAnywhere size s (sent kept.life.journal kept.life.doubt) (D.facts disk) (D.facts result.disk) }
{
    content_determines_state();
    crashes_now(&disk);
    a_session_answers(rt, alloc, options, disk, payloads, streams)
}

/// *Wherever the process of a session is killed, or its host crashes, whose disk is kept in a file* (`sbiboard --sync`). The same holds of
/// the file: each content that a crash has left in it at some moment of the session, within a call of the file too, is of some first
/// commands, with all that had been acknowledged by then; and what it leaves at the end, of all of them (`KeepsSession`). That is so of
/// any file which does what [`SectorFile`](board_files::SectorFile) says of it; of a file of the system nothing is known (`IfKnown`).
pub fn a_session_in_a_file_cut_anywhere<
    R: Threads + Wait + Sync,
    F: SectorFile + Drop + Send,
    I: Read + Drop,
    W: Write + Drop,
>(
    rt: &R,
    alloc: Global,
    options: &Options,
    disk: FileDisk<F>,
    payloads: &Payloads,
    streams: Streams<I, W>,
) -> SessionEnd<FileDisk<F>, I, W>
    requires { IsIdle (⟦<FileDisk<F> as Disk>⟧.facts disk) }
    ensures { (size : Size) (s : DurableState) → options.now.new ≡ false
        → StandsFor (⟦<FileDisk<F> as Disk>⟧.facts disk).content size s
        → LeavesOnly (⟦<FileDisk<F> as Disk>⟧.facts disk) size s → (result.console_left ≡ None → ⊥)
        → (kept : KeepsJournal size s (commands_by options.now.mode s) (⟦<FileDisk<F> as Disk>⟧.facts disk)
        (⟦<FileDisk<F> as Disk>⟧.facts result.disk) result.moments.at result.heard)
        × TalksIf s (commands_by options.now.mode s) result.console_left
        (dialogue_ends (I.remaining streams.input) (output_of W.contents streams.out) (party [] heard_nothing))
        (dialogue_ends (I.remaining result.streams.input) (output_of W.contents result.streams.out)
        (party kept.console result.heard))
        × IfKnown (⟦<FileDisk<F> as Filed>⟧.file result.disk) (KeepsSession size s (sent kept.life.journal kept.life.doubt)
        (length (commands_by options.now.mode s)) (length kept.life.journal) (⟦<FileDisk<F> as Disk>⟧.facts disk).moment
        (⟦<FileDisk<F> as Disk>⟧.facts result.disk) result.moments.at) }
{
    let end = a_session_cut_anywhere(rt, alloc, options, disk, payloads, streams);
    crashes_now(&end.disk);
    end.disk.stands();
    end
}

/// What holds of each disk: what a crash has left since this moment, it may leave now; and what it may leave now, it may have left since
/// each earlier one.
fn crashes_now<D: Disk>(disk: &D)
    ensures only { (c : Content) → (D.facts disk.now).since (D.facts disk.now).moment c → (D.facts disk.now).may_leave c }
    ensures counts { (t : ℕ) (c : Content) → t ≤ (D.facts disk.now).moment → (D.facts disk.now).may_leave c
        → (D.facts disk.now).since t c }
{
    let _ = disk;
}

/// *And the next open finds it.* Where the bytes of a disk, as a crash left them, stand for what some first of these commands make of s,
/// with so many of them at least, an open that answers Ok finds that state. An image of it is the one of the last suspension among
/// them, with its memory.
pub fn an_open_finds_some_first<D: Disk + Drop>(
    alloc: Global,
    left: D,
) -> Result<Store<D>, (D, Refusal)>
    requires { IsIdle (D.facts left) }
    ensures { (size : Size) (s : DurableState) (commands : List Change) (least : ℕ)
        → ∥ IsOfFirst size s commands least (D.facts left).content ∥₁ → IfOk result (λ next. ∥ ((k : ℕ) × (least ≤ k)
        × (k ≤ length commands) × (found_state next ≡ fold s (take k commands))) ∥₁) }
{
    content_determines_state();
    Store::open(alloc, left)
}

/// What a session gives back but for its disk.
#[derive(Drop)]
pub struct SessionSaid<I: Read + Drop, W: Write + Drop> {
    /// Why it was refused, if it was.
    pub ran: Result<(), Refusal>,
    /// What the console left of its input, and its output.
    pub streams: Streams<I, W>,
    /// Why the console left; `None` where it was not begun.
    pub console_left: Option<Left>,
    /// What the console heard of the store beside its receipts.
    pub heard: ConsoleHeard,
    /// The harts as their loops ended.
    pub harts: Vec<HartEnd>,
}

/// *A session as one run of a disk in memory.* A session has ended, power fails, and the next cold boot finds what the
/// acknowledged commands make of s, or these and the one in doubt, where the disk failed.
pub fn power_lost_between_sessions<R: Threads + Wait + Sync, I: Read + Drop, W: Write + Drop>(
    rt: &R,
    alloc: Global,
    options: &Options,
    disk: SimDisk,
    payloads: &Payloads,
    streams: Streams<I, W>,
    fill: Fill,
) -> (
    SessionSaid<I, W>,
    Result<Store<SimDisk>, (SimDisk, Refusal)>,
)
    requires { IsIdle (⟦<SimDisk as Disk>⟧.facts disk) }
    ensures { (size : Size) (s : DurableState) → options.now.new ≡ false
        → StandsFor (⟦<SimDisk as Disk>⟧.facts disk).content size s → (result.0.console_left ≡ None → ⊥)
        → IfOk result.1 (λ next. FindsSession size s options.now.mode
        (⟦<SimDisk as Disk>⟧.facts disk).failures (disk_of next).failures result.0.console_left
        (dialogue_ends (I.remaining streams.input) (output_of W.contents streams.out) (party [] heard_nothing))
        (I.remaining result.0.streams.input) (output_of W.contents result.0.streams.out) result.0.heard (found_state next)) }
{
    content_determines_state();
    let SessionEnd {
        disk,
        ran,
        streams,
        console_left,
        heard,
        harts,
        moments: _,
    } = session(rt, alloc, options, disk, payloads, streams);
    let said = SessionSaid {
        ran,
        streams,
        console_left,
        heard,
        harts,
    };
    (said, Store::open(alloc, disk.after_cut(fill)))
}
