//! A session, from the power-on of its board to the end of its threads.

ghost use Rattle.std.specs.Prelude.{◌≡◌, ◌⊎◌, None, []};
ghost use Rattle.board_model.specs.Shapes.{Size};
ghost use Rattle.hart_threads.specs.Heard.{heard_nothing};
ghost use Rattle.store.specs.Leaves.{IsIdle, IsKept};
ghost use Rattle.board_session.specs.Commands.{party};
ghost use Rattle.board_session.specs.Dialogues.{dialogue_ends, output_of};
ghost use Rattle.board_session.specs.Sessions.{RanOver, RefusesSession, outcome_of};

use crate::beside_threads::{Hardware, HartsOn, run_board};
use crate::given::Options;
use crate::heard::ConsoleHeard;
use crate::life_end::disk_at_once;
use crate::power::powered;
use crate::provisions::provide;
use crate::session_end::unbegun;
use crate::talks::Left;
use board::{BoardParts, Payloads};
use board_model::Refusal;
use disk::Disk;
use hart_threads::{HartEnd, Moments};
use std::alloc::Global;
use std::io::{BufWriter, Read, Write};
use std::marker::Brand;
use std::sync::Wait;
use std::thread::Threads;

/// What a console reads its lines from, and what it writes its answers to: each is a line, which is written at once.
#[derive(Drop)]
pub struct Streams<I: Read + Drop, W: Write + Drop> {
    pub input: I,
    pub out: BufWriter<W>,
}

/// What a session gives back.
#[derive(Drop)]
pub struct SessionEnd<D: Disk + Drop, I: Read + Drop, W: Write + Drop> {
    /// The disk, as the session leaves it.
    pub disk: D,
    /// Why it was refused, if it was.
    pub ran: Result<(), Refusal>,
    /// What the console left of its input, and its output.
    pub streams: Streams<I, W>,
    /// Why the console left; `None` where it was not begun.
    pub console_left: Option<Left>,
    /// What the console heard of the store beside its receipts.
    pub heard: ConsoleHeard,
    /// The harts as their loops ended, in the order of their numbers; none where the console was not begun.
    pub harts: Vec<HartEnd>,
    /// The moments of the disk at which the boot was over and each receipt was made; none where no board was on. They are there for
    /// contracts alone.
    pub moments: Moments,
}

/// What the program does between the reading of its files and the writing of the disk's: formats the disk
/// where it is new, powers the board on, runs its harts on threads and the console on this one until all have
/// ended, and gives back the disk.
///
/// A refusal is the first in this order: that of the format, of the open and of the boot (`Board::power_on`);
/// `Memory` where a thread could not be started; `Output` where an answer could not be written, which ends
/// the session as `quit` does. Input that fails has ended, and then the harts run out their turns. The disk,
/// the input and the output are given back in each case.
pub fn session<R: Threads + Wait + Sync, D: Disk + Drop + Send, I: Read + Drop, W: Write + Drop>(
    rt: &R,
    alloc: Global,
    options: &Options,
    disk: D,
    payloads: &Payloads,
    streams: Streams<I, W>,
) -> SessionEnd<D, I, W>
    requires { IsIdle (D.facts disk) }
    ensures none_out { IsIdle (D.facts result.disk) }
    // A refusal is the first of the format's, the open's and the boot's, before any line is read or answered; or
    // the board was on over the disk that was given, and the disk given back is that of its life, to which what
    // was read and answered belongs: each command of its journal was acknowledged to the boot, the console or a
    // hart, and no other was. A command is in doubt only where the disk failed, and it was asked for by the console, which was
    // answered 6, or by a hart. A reset or a suspension of the life has its moment in the one history of its bus, at which a hart had
    // just made the call that asked for it; that of one in doubt was answered -1.
    // Of the steps on each of its tables there is one log, which begins with the session: none was noted before.
    // Each hart went from where the power-on left it by its own turns: it made all of them, or one of them ended the life
    // by the last command of its journal, whose receipt it was told, or the console left so that they were halted. It is then
    // refused by why the console left alone. The moments given back are those at which its boot was over and its receipts were made: from each on a crash has
    // left a state that all commands have made which had been acknowledged by then.
    ensures ended { (RefusesSession options.now.new options.now.shape options.now.mode payloads.now (D.facts disk)
        result.ran (D.facts result.disk) × (result.console_left ≡ None))
        ⊎ (RanOver options.now.new options.now.shape options.now.mode payloads.now options.now.turns (D.facts disk)
        (D.facts result.disk) result.moments.at result.console_left
        (dialogue_ends (I.remaining streams.input) (output_of W.contents streams.out) (party [] heard_nothing))
        (I.remaining result.streams.input) (output_of W.contents result.streams.out) result.heard result.harts.items
        × (result.ran ≡ outcome_of result.console_left)) }
    ensures unheard { result.console_left ≡ None → (result.streams ≡ streams) × (result.heard ≡ heard_nothing) }
    // Whatever it answers, a disk of which each crash leaves a state is given back as one.
    ensures kept { (size : Size) → IsKept (D.facts disk) size → (z : Size) × IsKept (D.facts result.disk) z }
{
    let board = match powered(alloc, options, disk, payloads) {
        Ok(board) => board,
        Err((disk, refusal)) => return unbegun(alloc, disk, Moments::none(), refusal, streams),
    };
    let shape = board.store.shape();
    let parts = board.into_parts();
    let BoardParts {
        harts,
        seats,
        tables,
        bus,
        store,
    } = parts;
    let on = HartsOn {
        harts,
        seats,
        doze: bus.doze,
        turns: options.turns,
    };
    let hardware = Hardware { shape, tables, bus };
    let Ok(provisions) = provide(alloc, &hardware.shape) else {
        drop((hardware, on));
        let (disk, moments) = disk_at_once(store);
        return unbegun(alloc, disk, moments, Refusal::Memory, streams);
    };
    run_board::<D, Brand, R, I, W>(rt, alloc, store, hardware, on, provisions, streams)
}
