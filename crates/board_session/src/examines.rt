//! The program over files and streams: it tells what a disk's file holds (docs/CONSOLE.md, "The program `sbidisk`").

ghost use Rattle.std.specs.Prelude.{◌≡◌, ◌≤◌, [], map, false, IfErr, IfOk, OnOk};
ghost use Rattle.std.specs.Io.Buffered.{writer_buffer, writer_contents, writer_inner};
ghost use Rattle.command_line.specs.Faults.{status_after, without_work};
ghost use Rattle.command_line.specs.Pipes.{is_closed_pipe, pipe_contents};
ghost use Rattle.command_line.specs.Told.{fault_of};
ghost use Rattle.board_session.specs.Examined.{IsExamined, IsFaultOf, IsFaultOver, IsWorked, RefusesLines, RefusesMemory, WritesMemory, WritesNothing, WritesSeen, WritesWork, has_bad, status_of};

use crate::examiner_usage::{DiskWork, work_of};
use crate::shows::write_seen;
use board_files::{DiskFile, DiskFiles, refused_disk, seen_in};
use command_line::{FileFault, NoWork, Pipe, end_with, show_on, without_work};
use report_lines::{Seen, image_memory, see_disk, write_memory};
use std::alloc::Global;
use std::convert::AsStr;
use std::io::{BufWriter, IsTerminal, Write};
use store::ImageSeen;

/// What the lines or the bytes are written to.
type Out<W> = BufWriter<Pipe<W>>;

/// Whether a line says `bad`: of a record that is not in its form, or of the image.
fn has_bad(seen: &Seen) -> bool
    ensures { result ≡ has_bad seen.now }
{
    let seen = seen.inspection;
    if seen.live && seen.other {
        match seen.image {
            ImageSeen::Absent | ImageSeen::Whole => false,
            ImageSeen::Bad => true,
        }
    } else {
        true
    }
}

/// Writes the lines that tell what the file holds. Answers whether one says `bad`.
#[tactic(auto, using(crate::proofs::FileSeen::writes_seen, crate::proofs::FileSeen::unread, crate::proofs::FileSeen::not_whole, crate::proofs::FileSeen::lines_refused, crate::proofs::FileSeen::unwritten, crate::proofs::FileSeen::output_failed))]
fn look<D: DiskFiles, W: Write + Drop>(
    alloc: Global,
    files: &D,
    path: &str,
    out: &mut Out<W>,
) -> Result<bool, FileFault>
    ensures done { IfOk result (λ bad. WritesSeen (D.disk_at files.now path.now) bad
        (writer_contents (pipe_contents W.contents) out.old) (writer_contents (pipe_contents W.contents) out.new)) }
    ensures flushed { OnOk result (writer_buffer out.new ≡ []) }
    ensures failed { IfErr result (λ e. IsFaultOver RefusesLines (D.disk_at files.now path.now) e.fault) }
    ensures untouched { IfErr result (λ e. WritesNothing e.fault
        (writer_contents (pipe_contents W.contents) out.old) (writer_contents (pipe_contents W.contents) out.new)) }
{
    let file = files.open(path)?;
    let disk = seen_in(alloc, &file)?;
    let (_disk, seen) = see_disk(alloc, disk);
    let seen = match seen {
        Ok(seen) => seen,
        Err(e) => return Err(refused_disk(&file, e)),
    };
    let is_bad = has_bad(&seen);
    let block = file.block_size();
    match write_seen(&seen, block.bytes, out) {
        Ok(()) => Ok(is_bad),
        Err(e) => Err(FileFault::refused(e)),
    }
}

/// Writes the memory of the image that the file holds.
#[tactic(auto, using(crate::proofs::FileSeen::writes_memory, crate::proofs::FileSeen::unread, crate::proofs::FileSeen::not_whole, crate::proofs::FileSeen::memory_refused, crate::proofs::FileSeen::unwritten, crate::proofs::FileSeen::output_failed))]
fn recall<D: DiskFiles, W: Write + Drop>(
    alloc: Global,
    files: &D,
    path: &str,
    out: &mut Out<W>,
) -> Result<(), FileFault>
    ensures done { OnOk result (WritesMemory (D.disk_at files.now path.now)
        (writer_contents (pipe_contents W.contents) out.old) (writer_contents (pipe_contents W.contents) out.new)) }
    ensures flushed { OnOk result (writer_buffer out.new ≡ []) }
    ensures failed { IfErr result (λ e. IsFaultOver RefusesMemory (D.disk_at files.now path.now) e.fault) }
    ensures untouched { IfErr result (λ e. WritesNothing e.fault
        (writer_contents (pipe_contents W.contents) out.old) (writer_contents (pipe_contents W.contents) out.new)) }
{
    let file = files.open(path)?;
    let disk = seen_in(alloc, &file)?;
    let (_disk, memory) = image_memory(alloc, disk);
    let memory = match memory {
        Ok(memory) => memory,
        Err(e) => return Err(refused_disk(&file, e)),
    };
    match write_memory(&memory, out) {
        Ok(()) => Ok(()),
        Err(e) => Err(FileFault::refused(e)),
    }
}

/// Does the work that the words name. Answers whether a line says `bad`.
fn do_work<D: DiskFiles, W: Write + Drop>(
    alloc: Global,
    files: &D,
    work: DiskWork<'_>,
    out: &mut Out<W>,
) -> Result<bool, FileFault>
    ensures done { IfOk result (λ bad. WritesWork (D.disk_at files.now) work.entry bad
        (writer_contents (pipe_contents W.contents) out.old) (writer_contents (pipe_contents W.contents) out.new)) }
    ensures flushed { OnOk result (writer_buffer out.new ≡ []) }
    ensures failed { IfErr result (λ e. IsFaultOf (D.disk_at files.now) work.entry e.fault) }
    ensures untouched { IfErr result (λ e. WritesNothing e.fault
        (writer_contents (pipe_contents W.contents) out.old) (writer_contents (pipe_contents W.contents) out.new)) }
{
    match work {
        DiskWork::Lines(path) => look(alloc, files, path, out),
        DiskWork::Memory(path) => {
            recall(alloc, files, path, out)?;
            Ok(false)
        }
    }
}

/// The status of what was done, which is 3 where a line says `bad`. A fault is told.
fn end_work<F: Write + IsTerminal>(faults: &mut F, done: Result<bool, FileFault>) -> u8
    ensures range { result ≤ 3 }
    ensures status { result ≡ status_of (fault_of done) }
{
    match done {
        Ok(true) => 3,
        Ok(false) => 0,
        Err(fault) => end_with(faults, "sbidisk", &Err(fault)),
    }
}

/// Does the work that the words name, and answers the status. A fault is told, unless the reader of the output is gone.
#[tactic(auto, using(crate::proofs::FileSeen::ends_closed, crate::proofs::FileSeen::ends_open))]
fn examine_by<D: DiskFiles, W: Write + Drop, F: Write + IsTerminal>(
    alloc: Global,
    files: &D,
    work: DiskWork<'_>,
    out: &mut Out<W>,
    faults: &mut F,
) -> u8
    ensures range { result ≤ 3 }
    ensures worked { IsWorked (D.disk_at files.now) work.entry
        (writer_contents (pipe_contents W.contents) out.old) (writer_contents (pipe_contents W.contents) out.new)
        (writer_buffer out.new) (is_closed_pipe (writer_inner out.new)) result }
{
    let done = do_work(alloc, files, work, out);
    if out.get_ref().is_closed() {
        return 1;
    }
    end_work(faults, done)
}

/// The status where the words ask for no work. A fault of the command line was told before.
fn end_without<F: Write + IsTerminal>(faults: &mut F, why: NoWork) -> u8
    ensures range { result ≤ 2 }
    ensures status { result ≡ status_after (without_work why) }
{
    let done = match without_work(why) {
        Ok(()) => Ok(()),
        Err(fault) => Err(FileFault::from(fault)),
    };
    end_with(faults, "sbidisk", &done)
}

/// The program over files and streams. `words` are those of a command line, the program's name first. It writes to `out` what
/// the words ask for: the lines of a disk's file, the memory of the image in it, or a text of the command line itself. A fault
/// goes to `faults`; none is told where the reader of the output is gone, as with any filter. It boots nothing, and the file
/// is never written. Answers the status that docs/CONSOLE.md, "The program `sbidisk`", has.
#[tactic(auto, using(crate::proofs::FileSeen::asks_for_none))]
pub fn examine_on<D: DiskFiles, S: AsStr, W: Write + Drop, F: Write + IsTerminal>(
    alloc: Global,
    files: &D,
    words: &[S],
    out: &mut BufWriter<Pipe<W>>,
    faults: &mut F,
) -> u8
    ensures range { result ≤ 3 }
    // The status is the one of the work that the words name, or 1 where nobody reads the output any more. It is 0 only where
    // the lines or the memory of the file that they name were written whole, and nothing else, and nothing of them is held
    // back, or where the words ask for the help or the version; and 3 just where a line that was written so says `bad`. A work
    // that fails has a fault that it may have over that file, so 2 is the status of words alone that name none; and it wrote
    // nothing, unless the output failed.
    ensures status { IsExamined (D.disk_at files.now) (map S.text words.now)
        (writer_contents (pipe_contents W.contents) out.old) (writer_contents (pipe_contents W.contents) out.new)
        (writer_buffer out.new) (is_closed_pipe (writer_inner out.new)) result }
{
    match work_of(alloc, words) {
        Ok(Some(work)) => examine_by(alloc, files, work, out, faults),
        Ok(None) => end_without(faults, NoWork::Usage),
        Err(text) => {
            let why = show_on(out, faults, &text);
            end_without(faults, why)
        }
    }
}
