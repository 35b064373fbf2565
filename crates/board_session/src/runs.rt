//! From the files that a command line names to the file of the session's disk.

ghost use Rattle.std.specs.Prelude.{◌≡◌, ℕ, List, Option, IfErr, IfOk, IfSome, OnErr, OnOk, string_bytes};
ghost use Rattle.store.specs.Leaves.{IsIdle};
ghost use Rattle.command_line.specs.Told.{fault_of};
ghost use Rattle.board_session.specs.Dialogues.{output_of};
ghost use Rattle.board_files.specs.Disks.{HoldsDisk, KeepsOrHolds};
ghost use Rattle.board_files.specs.Faults.{IsFileFault};
ghost use Rattle.board_files.specs.Folders.{PutsDisk};
ghost use Rattle.disk.specs.Facts.{Unchanged};
ghost use Rattle.board_session.specs.Operated.{EndsInFile, HasLeft, IsWritten, StaysInFile, known};
ghost use Rattle.board_session.specs.Ran.{HasRun, told_of};
ghost use Rattle.command_line.specs.declared.fault.ProgramFault.TheVariants.{Refused};

use crate::answers::Answers;
use crate::disks::{TakenDisk, take_disk};
use crate::notices::{tell_elf, tell_harts};
use crate::{Options, SessionEnd, Streams, session};
use board::Payloads;
use board_files::{
    BoardFiles, DiskFile, FileDisk, HeldFile, PayloadFiles, SectorFile, read_payloads,
};
use board_model::Refusal;
use command_line::{FileFault, first_of};
use disk::Disk;
use hart_threads::Moments;
use simdisk::SimDisk;
use std::alloc::Global;
use std::io::{BufReader, BufWriter, IsTerminal, Read, Write};
use std::sync::Wait;
use std::thread::Threads;
use store::format;

/// The board that the command line asks for, and the bytes that its slots boot.
#[derive(Clone, Copy)]
struct BoardSetup<'a> {
    options: &'a Options,
    payloads: &'a Payloads,
}

/// What stands of the file of a session's disk, once the session has ended.
#[derive(Drop)]
pub enum FileLeft<H: Drop, K: Drop> {
    /// No session was begun.
    None,
    /// The file, and the disk that was to be written into it at the end.
    AtEnd(H, SimDisk),
    /// The file in which the disk was kept all along, and the moments of the disk at which receipts were made.
    AllAlong(K, Moments),
}

/// What a run gives back: what stands of the file, what the answers were written to, and the fault, where there is one.
#[derive(Drop)]
pub struct RunEnd<H: Drop, K: Drop, O: Write + Drop> {
    pub file_left: FileLeft<H, K>,
    pub out: BufWriter<O>,
    pub ended: Result<(), FileFault>,
}

/// Whether commands are lost with a disk that could not be written. Of a new disk none are, as long as it is what the
/// format leaves.
fn has_commands(alloc: Global, options: &Options, disk: &SimDisk) -> bool {
    if !options.new {
        return true;
    }
    let Ok(mut fresh) = SimDisk::blank(alloc, options.shape.sectors()) else {
        return false;
    };
    format(&mut fresh, &options.shape).is_ok() && fresh.content() != disk.content()
}

/// Writes the disk into its file. A fault says whether commands are lost by it.
#[tactic(auto, using(crate::proofs::FaultsEnded::same_fault, crate::proofs::FaultsEnded::put_not))]
fn write_disk<H: HeldFile>(
    alloc: Global,
    options: &Options,
    held: &mut H,
    disk: &SimDisk,
) -> Result<(), FileFault>
    ensures written { OnOk result (IfSome (H.bytes held.new)
        (HoldsDisk options.now.new (⟦<SimDisk as Disk>⟧.facts disk.now).content (H.bytes held.old))) }
    ensures kept { OnErr result (IfSome (H.bytes held.new)
        (KeepsOrHolds options.now.new (⟦<SimDisk as Disk>⟧.facts disk.now).content (H.bytes held.old))) }
    ensures crash { IfSome (H.bytes held.old) (λ all. PutsDisk options.now.new (⟦<SimDisk as Disk>⟧.facts disk.now).content all result
        (H.bytes held.new) (H.left held.old) (H.left held.new)) }
    ensures failed { IfErr result (λ e. IsFileFault e.fault) }
{
    match held.write(disk.content(), options.new) {
        Ok(()) => Ok(()),
        Err(fault) => Err(fault.losing(has_commands(alloc, options, disk))),
    }
}

/// Writes the disk into its file at the end of a session, also of one that was refused. Of two faults the first is told.
fn write_at_the_end<H: HeldFile>(
    alloc: Global,
    options: &Options,
    held: &mut H,
    disk: &SimDisk,
    ran: Result<(), Refusal>,
) -> Result<(), FileFault>
    ensures { IsWritten options.now.new (⟦<SimDisk as Disk>⟧.facts disk.now) ran (H.bytes held.old) (H.bytes held.new)
        (H.left held.old).ever (H.left held.new) (fault_of result) }
{
    let written = write_disk(alloc, options, held, disk);
    first_of(as_file_fault(ran), written)
}

/// The program's fault for a session that was refused. The shape is the disk's own, so `BadShape` is of a payload.
fn as_file_fault(ran: Result<(), Refusal>) -> Result<(), FileFault>
    ensures { fault_of result ≡ told_of ran }
{
    match ran {
        Ok(()) => Ok(()),
        Err(e) => Err(refused_session(e)),
    }
}

/// The fault of a session that was refused so.
fn refused_session(refusal: Refusal) -> FileFault
    ensures { result.fault ≡ Refused refusal }
{
    let fault = FileFault::refused(refusal);
    match refusal {
        Refusal::BadShape => fault.caused_by("a payload is longer than the board's RAM"),
        _ => fault,
    }
}

/// The disk in memory as one that is kept in its file: each of its syncs waits for the file.
fn disk_in_file<B: BoardFiles>(
    alloc: Global,
    files: &B,
    options: &Options,
    held: B::Held,
    memory: SimDisk,
) -> Result<FileDisk<B::Kept>, FileFault>
    requires { IsIdle (⟦<SimDisk as Disk>⟧.facts memory) }
    ensures none_out { IfOk result (λ d. IsIdle (⟦<FileDisk<B::Kept> as Disk>⟧.facts d)) }
    ensures same { IfOk result (λ d. Unchanged (⟦<SimDisk as Disk>⟧.facts memory)
        (⟦<FileDisk<B::Kept> as Disk>⟧.facts d)) }
    ensures failed { IfErr result (λ e. IsFileFault e.fault) }
{
    let file = files.keep(held, memory.content(), options.new)?;
    match FileDisk::new(alloc, memory, file) {
        Ok(disk) => Ok(disk),
        Err(_) => Err(FileFault::refused(Refusal::Memory)),
    }
}

/// What a run gives back where that fault kept it from beginning a session.
fn no_session<H: Drop, K: Drop, O: Write + Drop>(
    out: BufWriter<O>,
    fault: FileFault,
) -> RunEnd<H, K, O>
    ensures file_left { result.file_left ≡ FileLeft.None }
    ensures out { result.out ≡ out }
    ensures ended { result.ended ≡ Err fault }
{
    RunEnd {
        file_left: FileLeft::None,
        out,
        ended: Err(fault),
    }
}

/// Tells the writer below an output that a console begins. Of the output nothing changes.
fn begin<O: Answers + Drop>(out: &mut BufWriter<O>, is_synced: bool)
    ensures { output_of O.contents out.new ≡ output_of O.contents out.old }
{
    out.get_mut().begin(is_synced);
}

/// Runs the session over the disk. The output is told that its console begins, and where notices are wanted, how each hart ended
/// is told.
fn run_session<
    R: Threads + Wait + Sync,
    D: Disk + Drop + Send,
    I: Read + Drop,
    O: Answers + Drop,
    F: Write + IsTerminal,
>(
    alloc: Global,
    threads: &R,
    setup: &BoardSetup<'_>,
    disk: D,
    streams: Streams<I, O>,
    faults: &mut F,
) -> SessionEnd<D, I, O>
    requires { IsIdle (D.facts disk) }
    ensures { HasRun setup.now.options.now setup.now.payloads.now (D.facts disk) (D.facts result.disk)
        result.moments.at (I.remaining streams.input) (output_of O.contents streams.out) (output_of O.contents result.streams.out) result.ran }
{
    let BoardSetup { options, payloads } = *setup;
    let Streams { input, mut out } = streams;
    begin(&mut out, options.sync);
    let streams = Streams { input, out };
    let end = session(threads, alloc, options, disk, payloads, streams);
    tell_harts(faults, options, &end.harts);
    end
}

/// Runs the session over the disk in memory, and then writes the disk into its file.
fn run_then_write<
    R: Threads + Wait + Sync,
    H: HeldFile + Drop,
    K: Drop,
    I: Read + Drop,
    O: Answers + Drop,
    F: Write + IsTerminal,
>(
    alloc: Global,
    threads: &R,
    setup: &BoardSetup<'_>,
    held: H,
    disk: SimDisk,
    streams: Streams<I, O>,
    faults: &mut F,
) -> RunEnd<H, K, O>
    requires { IsIdle (⟦<SimDisk as Disk>⟧.facts disk) }
    ensures { EndsInFile H.bytes H.left ⟦<SimDisk as Disk>⟧.facts setup.now.options.now setup.now.payloads.now
        (⟦<SimDisk as Disk>⟧.facts disk) (H.left held).ever
        (known (H.bytes held) (I.remaining streams.input) (output_of O.contents streams.out) (output_of O.contents result.out))
        result.file_left (fault_of result.ended) }
{
    let mut held = held;
    let end = run_session(alloc, threads, setup, disk, streams, faults);
    let ended = write_at_the_end(alloc, setup.options, &mut held, &end.disk, end.ran);
    RunEnd {
        file_left: FileLeft::AtEnd(held, end.disk),
        out: end.streams.out,
        ended,
    }
}

/// Runs the session over a disk that is kept in its file all along. The file is given back.
fn run_in_file<
    R: Threads + Wait + Sync,
    H: Drop,
    K: SectorFile + Drop + Send,
    I: Read + Drop,
    O: Answers + Drop,
    F: Write + IsTerminal,
>(
    alloc: Global,
    threads: &R,
    setup: &BoardSetup<'_>,
    disk: FileDisk<K>,
    streams: Streams<I, O>,
    faults: &mut F,
) -> RunEnd<H, K, O>
    requires { IsIdle (⟦<FileDisk<K> as Disk>⟧.facts disk) }
    ensures { (bytes : Option (List ℕ)) → StaysInFile ⟦<FileDisk<K> as Disk>⟧.facts K.file_facts setup.now.options.now
        setup.now.payloads.now (⟦<FileDisk<K> as Disk>⟧.facts disk)
        (known bytes (I.remaining streams.input) (output_of O.contents streams.out) (output_of O.contents result.out))
        result.file_left (fault_of result.ended) }
{
    let SessionEnd {
        disk,
        ran,
        streams,
        console_left: _,
        heard: _,
        harts: _,
        moments,
    } = run_session(alloc, threads, setup, disk, streams, faults);
    let Streams { input: _, out } = streams;
    RunEnd {
        file_left: FileLeft::AllAlong(disk.into_file(), moments),
        out,
        ended: as_file_fault(ran),
    }
}

/// Runs the board that the options ask for: reads the payloads and the disk, runs the session, and leaves the disk in its
/// file. With `--sync` the disk is kept in the file all along. Else the file is written at the end, also after a refusal,
/// unless its bytes are the same. Of two faults the first is told. The input is read through a buffer; where memory is
/// refused for it, no file of a disk is touched.
#[tactic(auto, using(crate::proofs::FilesLeft::none_left, crate::proofs::DiskBegun::unread_file, crate::proofs::FilesLeft::no_memory))]
pub fn run_from_files<
    R: Threads + Wait + Sync,
    B: PayloadFiles + BoardFiles,
    I: Read + Drop,
    O: Answers + Drop,
    F: Write + IsTerminal,
>(
    alloc: Global,
    threads: &R,
    files: &B,
    options: &Options,
    streams: Streams<I, O>,
    faults: &mut F,
) -> RunEnd<B::Held, B::Kept, O>
    ensures { HasLeft B.Held.bytes B.Held.left ⟦<SimDisk as Disk>⟧.facts ⟦<FileDisk<B::Kept> as Disk>⟧.facts B.Kept.file_facts
        options.now (B.bytes_at files.now) (B.left_at files.now (string_bytes options.now.disk))
        (known (B.disk_at files.now (string_bytes options.now.disk)) (I.remaining streams.input)
        (output_of O.contents streams.out) (output_of O.contents result.out))
        result.file_left (fault_of result.ended) }
{
    let Streams { input, out } = streams;
    let payloads = match read_payloads(alloc, files, &options.payloads) {
        Ok(payloads) => payloads,
        Err(fault) => return no_session(out, fault),
    };
    tell_elf(faults, &payloads);
    let Ok(input) = BufReader::new(alloc, input) else {
        return no_session(out, FileFault::refused(Refusal::Memory));
    };
    let TakenDisk { held, disk } = match take_disk(alloc, files, options, faults) {
        Ok(taken) => taken,
        Err(fault) => return no_session(out, fault),
    };
    let setup = BoardSetup {
        options,
        payloads: &payloads,
    };
    let streams = Streams { input, out };
    if !options.sync {
        return run_then_write(alloc, threads, &setup, held, disk, streams, faults);
    }
    match disk_in_file(alloc, files, options, held, disk) {
        Ok(disk) => run_in_file(alloc, threads, &setup, disk, streams, faults),
        Err(fault) => no_session(streams.out, fault),
    }
}
