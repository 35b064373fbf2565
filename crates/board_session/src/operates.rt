//! What the program does with the words of its command line.

ghost use Rattle.std.specs.Prelude.{◌≡◌, ◌≤◌, ◌⊎◌, map, string_bytes, Result};
ghost use Rattle.board_session.specs.Dialogues.{output_of};
ghost use Rattle.board_session.specs.declared.given.Options.{Options};
ghost use Rattle.command_line.specs.Faults.{status_after, without_work};
ghost use Rattle.command_line.specs.Told.{fault_of};
ghost use Rattle.command_line.specs.declared.NoWork.{NoWork};
ghost use Rattle.command_line.specs.declared.fault.ProgramFault.{ProgramFault};
ghost use Rattle.board_session.specs.Operated.{AskForNone, GiveNoOptions, HasLeft, IsReadFrom, known};

use crate::answers::Answers;
use crate::runs::{FileLeft, run_from_files};
use crate::{Streams, options};
use board_files::{BoardFiles, FileDisk, PayloadFiles};
use command_line::{FileFault, NoWork, end_with, show_on, without_work};
use disk::Disk;
use simdisk::SimDisk;
use std::alloc::Global;
use std::convert::AsStr;
use std::io::{BufWriter, IsTerminal, Read, Write};
use std::sync::Wait;
use std::thread::Threads;

/// How the program has ended.
#[derive(Drop)]
pub struct Operated<H: Drop, K: Drop, O: Write + Drop> {
    /// Its status.
    pub status: u8,
    /// What stands of the file of its disk.
    pub file_left: FileLeft<H, K>,
    /// What the answers were written to.
    pub out: BufWriter<O>,
}

/// What is done where the words ask for no session.
fn no_work(why: NoWork) -> Result<(), FileFault>
    ensures { fault_of result ≡ without_work why }
{
    match without_work(why) {
        Ok(()) => Ok(()),
        Err(fault) => Err(FileFault::from(fault)),
    }
}

/// The program over files and streams: runs the board that the words of a command line ask for, the program's name first,
/// on threads, with the console on these streams; or writes there what the words ask to be shown. Faults are told on
/// `faults`. Answers the status that docs/CONSOLE.md, "Statuses and faults", has. The handle makes the threads of harts
/// and lanes, and waits for them.
pub fn operate_on<
    R: Threads + Wait + Sync,
    B: PayloadFiles + BoardFiles,
    S: AsStr,
    I: Read + Drop,
    O: Answers + Drop,
    F: Write + IsTerminal,
>(
    alloc: Global,
    threads: &R,
    files: &B,
    words: &[S],
    streams: Streams<I, O>,
    faults: &mut F,
) -> Operated<B::Held, B::Kept, O>
    ensures range { result.status ≤ 2 }
    // The status is the one of what was done; and what was done is what the words ask for, over the files and the streams,
    // where they ask for a session. Else none is begun, and the fault is the one of the words, or refused memory.
    ensures status { (done : Result (Unit {0}) ProgramFault) × (result.status ≡ status_after done)
        × (((options : Options) × IsReadFrom (map S.text words.now) options
        × HasLeft B.Held.bytes B.Held.left ⟦<SimDisk as Disk>⟧.facts ⟦<FileDisk<B::Kept> as Disk>⟧.facts B.Kept.file_facts options
        (B.bytes_at files.now) (B.left_at files.now (string_bytes options.disk))
        (known (B.disk_at files.now (string_bytes options.disk)) (I.remaining streams.input) (output_of O.contents streams.out)
        (output_of O.contents result.out))
        result.file_left done)
        ⊎ ((why : NoWork) × AskForNone (map S.text words.now) why × (done ≡ without_work why)
        × (result.file_left ≡ FileLeft.None))) }
    // 2 is the status of words that are no command line, and of no session.
    ensures usage { result.status ≡ 2 → GiveNoOptions (map S.text words.now) }
{
    match options(alloc, words) {
        Ok(options) => {
            let done = run_from_files(alloc, threads, files, &options, streams, faults);
            Operated {
                status: end_with(faults, "sbiboard", &done.ended),
                file_left: done.file_left,
                out: done.out,
            }
        }
        Err(text) => {
            let Streams { input: _, mut out } = streams;
            let why = show_on(&mut out, faults, &text);
            let done = no_work(why);
            Operated {
                status: end_with(faults, "sbiboard", &done),
                file_left: FileLeft::None,
                out,
            }
        }
    }
}
