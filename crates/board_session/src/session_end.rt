//! What a session gives back, once its threads have ended or where none was begun.

ghost use Rattle.std.specs.Prelude.{◌≡◌, ◌≤◌, ◌<◌, ◌+◌, ℕ, [], All, length, Some, None, false, Err, vec_len, vec_capacity};
ghost use Rattle.board_model.specs.declared.refusal.Refusal.TheVariants.{Memory};
ghost use Rattle.hart_threads.specs.Begun.{AreFromLast};
ghost use Rattle.hart_threads.specs.Heard.{heard_nothing};
ghost use Rattle.hart_threads.specs.Noted.{boot_told};
ghost use Rattle.hart_threads.specs.Seated.{AreNamed};
ghost use Rattle.hart_threads.specs.Views.{parts_with};
ghost use Rattle.hsm.specs.Seating.{started_in};
ghost use Rattle.machine.specs.Machine.{only_first};
ghost use Rattle.sbi_calls.specs.Both.{AreTablesOf};
ghost use Rattle.store.specs.Leaves.{IsIdle};
ghost use Rattle.board_session.specs.Backs.{AreBack};
ghost use Rattle.board_session.specs.Histories.{HasHistory};
ghost use Rattle.board_session.specs.Sessions.{AreOfLife, IsOfLife, outcome_of};

use crate::beside_threads::{ConsoleSide, SharedHardware, Talked};
use crate::heard::ConsoleHeard;
use crate::life_end::{disk_of, end_history, ends_of, gather_loops, gather_parts};
use crate::sessions::{SessionEnd, Streams};
use crate::talks::Left;
use board_model::{Entry, Refusal};
use disk::Disk;
use hart_threads::{
    BookPart, Closing, HartEnd, HartParts, Moments, Rested, SharedBus, Threaded, Unshared,
};
use std::alloc::Global;
use std::io::{Read, Write};

/// Whether the session was refused, by why its console left: `Output` where an answer could not be written.
fn outcome(left: Left) -> Result<(), Refusal>
    ensures { result ≡ outcome_of (Some left) }
{
    match left {
        Left::Quit | Left::EndOfInput | Left::InputFailed => Ok(()),
        Left::Unwritten => Err(Refusal::Output),
    }
}

/// What a session gives back whose console has left, once the loops of all harts have ended. `room` is for how they ended. The history of
/// the bus ends with it, and so do the logs of the tables.
pub(crate) fn after_console<'c, D: Disk + Drop, J: Threaded, I: Read + Drop, W: Write + Drop>(
    shared: (Unshared<D, J>, SharedHardware<J>),
    loops: Vec<Rested<'c, J>>,
    closing: &Closing<J>,
    talked: Talked<'c, J, I, W>,
    boot: BookPart<J, Entry>,
    room: Vec<HartEnd>,
) -> SessionEnd<D, I, W>
    requires none { length (parts_with shared.0) ≡ 0 }
    requires harts { vec_len loops ≡ J.size.harts }
    requires numbered { AreFromLast 0 (λ r. r.ended.hart.id) loops.items }
    requires boot { boot.told ≡ boot_told J.issued }
    requires all { J.parts ≡ J.size.harts + 2 }
    requires ungated { J.gated ≡ false }
    requires machine { J.machine.memory ≡ J.memory }
    requires tables { AreTablesOf J.size shared.1.tables }
    requires named { AreNamed J.starts J.raises shared.1.tables }
    requires first { J.machine.table.states ≡ only_first J.size.harts (started_in shared.1.tables.harts) }
    requires some { (0 < vec_len loops) × (vec_len loops ≤ 8) }
    requires empty { vec_len room ≡ 0 }
    requires room { vec_len loops ≤ vec_capacity room }
    ensures none_out { IsIdle (D.facts result.disk) }
    ensures life { (life : IsOfLife J.size J.found J.issued J.failures J.earlier J.moment result.moments.at
        talked.entry.side.part.told talked.entry.side.heard.doubt (D.facts result.disk))
        × AreOfLife life.acknowledged.harts life.journal (Some talked.entry.left) result.harts.items
        × HasHistory J.size J.machine J.turns life.journal life.doubt talked.entry.side.heard.woken
        (Some talked.entry.left) result.harts.items }
    ensures streams { result.streams ≡ talked.entry.side.streams }
    ensures heard { result.heard ≡ talked.entry.side.heard }
    ensures console_left { result.console_left ≡ Some talked.entry.left }
    ensures ran { result.ran ≡ outcome_of (Some talked.entry.left) }
{
    let (mut whole, hardware) = shared;
    let SharedHardware {
        shape: _,
        tables,
        mut bus,
    } = hardware;
    let Talked { side, left, parted } = talked;
    let (harts, seats) = ends_of(&mut whole, &mut bus, loops, closing, &parted, room);
    seats.join(&tables);
    let ConsoleSide {
        streams,
        part,
        heard,
    } = side;
    let told = ConsoleHeard::of(&heard);
    let (disk, moments, runs) = disk_of(whole, part, heard, boot);
    end_history(bus, runs);
    SessionEnd {
        disk,
        ran: outcome(left),
        streams,
        console_left: Some(left),
        heard: told,
        harts,
        moments,
    }
}

/// What a session gives back whose console was not begun, once the loops that were begun have ended. It is refused `Memory`. The history
/// of the bus ends with it.
pub(crate) fn without_console<D: Disk + Drop, J: Threaded, I: Read + Drop, W: Write + Drop>(
    alloc: Global,
    shared: (Unshared<D, J>, SharedBus<J>),
    loops: Vec<Rested<'_, J>>,
    parts: Vec<HartParts<J>>,
    side: ConsoleSide<J, I, W>,
    boot: BookPart<J, Entry>,
) -> SessionEnd<D, I, W>
    requires back { AreBack (parts_with shared.0) }
    requires fresh { All (λ p. p.receipts.told ≡ []) parts.items }
    requires harts { length (parts_with shared.0) + vec_len loops + vec_len parts ≡ J.size.harts }
    requires boot { boot.told ≡ boot_told J.issued }
    requires all { J.parts ≡ J.size.harts + 2 }
    requires machine { J.machine.memory ≡ J.memory }
    requires first { (first : ℕ) × (J.machine.table.states ≡ only_first J.size.harts first) }
    requires unheard { side.heard ≡ heard_nothing }
    ensures none_out { IsIdle (D.facts result.disk) }
    ensures life { (life : IsOfLife J.size J.found J.issued J.failures J.earlier J.moment result.moments.at side.part.told
        result.heard.doubt (D.facts result.disk))
        × HasHistory J.size J.machine J.turns life.journal life.doubt result.heard.woken None result.harts.items }
    ensures streams { result.streams ≡ side.streams }
    ensures heard { result.heard ≡ heard_nothing }
    ensures console_left { result.console_left ≡ None }
    ensures ran { result.ran ≡ Err Memory }
    ensures harts { result.harts.items ≡ [] }
{
    let ConsoleSide {
        streams,
        part,
        heard,
    } = side;
    let (mut whole, bus) = shared;
    gather_loops(&mut whole, loops);
    gather_parts(&mut whole, parts);
    let (disk, moments, runs) = disk_of(whole, part, heard, boot);
    end_history(bus, runs);
    unbegun(alloc, disk, moments, Refusal::Memory, streams)
}

/// What a session gives back whose console was not begun.
pub(crate) fn unbegun<D: Disk + Drop, I: Read + Drop, W: Write + Drop>(
    alloc: Global,
    disk: D,
    moments: Moments,
    refusal: Refusal,
    streams: Streams<I, W>,
) -> SessionEnd<D, I, W>
    ensures disk { result.disk ≡ disk }
    ensures moments { result.moments ≡ moments }
    ensures ran { result.ran ≡ Err refusal }
    ensures streams { result.streams ≡ streams }
    ensures console_left { result.console_left ≡ None }
    ensures heard { result.heard ≡ heard_nothing }
    ensures harts { result.harts.items ≡ [] }
{
    SessionEnd {
        disk,
        ran: Err(refusal),
        streams,
        console_left: None,
        heard: ConsoleHeard::nothing(),
        harts: Vec::new(alloc),
        moments,
    }
}
