//! The program over any streams: it does what the command line asks for, from a reader to a writer.

ghost use Rattle.std.specs.Prelude.{◌≡◌, ◌⊎◌, ◌<◌, ℕ, map, Ok, Err, Result, OnOk, IfOk, IfErr, IfSome};
ghost use Rattle.board_model.specs.declared.refusal.Refusal.TheVariants.{Memory};
ghost use Rattle.std.specs.Io.Buffered.{writer_inner};
ghost use Rattle.std.specs.Io.KnownBytes.{Keeps};
ghost use Rattle.bench_program.specs.Faults.{fault_by, status_after, unread_by, without_work, IsEndOf};
ghost use Rattle.command_line.specs.Pipes.{is_closed_pipe};
ghost use Rattle.board_files.specs.Named.{AreFilesOf};
ghost use Rattle.bench_program.specs.Usage.{payload_files, IsBounded, NamesNoWork};
ghost use Rattle.bench_program.specs.Written.{AreDone, IsDone, IsFault, IsFaultIn, IsFaultOf, IsHandedOn, IsReadOf, IsUnread, IsWritten, source_of};
ghost use Rattle.bench_program.specs.declared.fault.BenchFault.{BenchFault};
ghost use Rattle.bench_program.specs.declared.fault.BenchFault.TheVariants.{Closed, Input, Refused, Wrong};
ghost use Rattle.script_lang.specs.Scripts.{script_of};

use crate::fault::{BenchFault, status_of};
use crate::remarks::tell_work;
use crate::traps::tell_traps;
use crate::usage::{BenchOptions, Work, options_of};
use crate::watched::{Telling, Watched};
use crate::works::{is_kept, make, make_kept};
use crate::{READ_AT_MOST, read_script};
use board::Payloads;
use board_files::{PayloadFiles, read_payloads};
use board_model::Refusal;
use command_line::{
    FileFault, NoWork, Pipe, ProgramFault, explain_fault, read_at_most, show_on, tell_fault,
};
use crew::Progress;
use std::alloc::Global;
use std::convert::AsStr;
use std::io::{self, BufReader, BufWriter, IsTerminal, Read, Write};
use std::thread::Threads;
use std::time::Clock;

/// How many bytes of a script are read at once.
const READ_AT_ONCE: usize = 262_144;

/// The script of an input. The buffer that it is read through is freed before anything runs.
fn input_script<I: Read + Drop>(alloc: Global, input: I) -> Result<Vec<u8>, BenchFault>
    ensures said { IfOk result (λ script. IfSome (I.remaining input) (λ bytes. script_of script.items ≡ script_of bytes)) }
    // It is the whole input, but for what is more than any script has.
    ensures bytes { IfOk result (λ script. IfSome (I.remaining input) (IsReadOf script.items)) }
    ensures failed { IfErr result (λ fault. (fault ≡ Input) ⊎ (fault ≡ Refused Memory)) }
{
    match BufReader::with_capacity(alloc, READ_AT_ONCE, input) {
        Ok(input) => read_script(alloc, input),
        Err(_) => Err(BenchFault::Refused(Refusal::Memory)),
    }
}

/// The fault of a work that was refused. Where the reader of the output is gone, it is `Closed`, which is not told; else it is the refusal.
fn fault_of<O: Write + Drop>(refusal: Refusal, out: &BufWriter<Pipe<O>>) -> BenchFault
    ensures which { result ≡ fault_by (is_closed_pipe (writer_inner out.now)) refusal }
    ensures either { (result ≡ Closed) ⊎ (result ≡ Refused refusal) }
{
    if out.get_ref().is_closed() {
        BenchFault::Closed
    } else {
        BenchFault::Refused(refusal)
    }
}

/// Hands on what a work wrote, and says how it ended: `made` is how many of its runs tell that something is wrong, or its refusal.
fn ended<O: Write + Drop>(
    made: Result<u64, Refusal>,
    out: &mut BufWriter<Pipe<O>>,
) -> Result<(), BenchFault>
    ensures well { OnOk result ((made ≡ Ok 0) × IsHandedOn O.contents Keeps out.old out.new) }
    ensures wrong { result ≡ Err Wrong → (differ : ℕ) × (0 < differ) × (made ≡ Ok differ)
        × IsHandedOn O.contents Keeps out.old out.new }
    ensures faults { IfErr result (λ fault. IsEndOf made (is_closed_pipe (writer_inner out.new)) fault) }
{
    match made {
        Err(refusal) => Err(fault_of(refusal, out)),
        Ok(differ) => match out.flush() {
            Ok(()) if differ == 0 => Ok(()),
            Ok(()) => Err(BenchFault::Wrong),
            Err(_) => Err(fault_of(Refusal::Output, out)),
        },
    }
}

/// How the program ends where the command line asks for no work.
pub fn without_work(why: NoWork) -> Result<(), BenchFault>
    ensures { result ≡ without_work why }
{
    match why {
        NoWork::Shown => Ok(()),
        NoWork::Usage => Err(BenchFault::Usage),
        NoWork::Memory => Err(BenchFault::Refused(Refusal::Memory)),
    }
}

/// The fault of a payload file that could not be read, which is told here: which file, and why. Where memory was refused,
/// it is that refusal, which is told at the end.
fn unread<F: Write>(fault: &FileFault, faults: &mut F) -> BenchFault
    ensures { result ≡ unread_by fault.now.fault }
{
    match fault.fault {
        ProgramFault::Usage => BenchFault::Usage,
        ProgramFault::Refused(refusal) => BenchFault::Refused(refusal),
        ProgramFault::File => {
            tell_fault(faults, "sbibench", fault);
            BenchFault::File
        }
    }
}

/// The payloads, from the files that the command line names. The first that cannot be read is told.
fn named_payloads<P: PayloadFiles, F: Write>(
    alloc: Global,
    files: &P,
    options: &BenchOptions,
    faults: &mut F,
) -> Result<Payloads, BenchFault>
    ensures read { IfOk result (AreFilesOf (P.bytes_at files.now) (payload_files options.now)) }
    ensures failed { IfErr result (λ fault. IsUnread options.now fault ⊎ (fault ≡ Refused Memory)) }
{
    match read_payloads(alloc, files, &options.payloads) {
        Ok(payloads) => Ok(payloads),
        Err(fault) => Err(unread(&fault, faults)),
    }
}

/// The text of the file at that path, or as much of it as the first fault of a script takes.
fn file_text<P: PayloadFiles>(alloc: Global, files: &P, path: &str) -> io::Result<Vec<u8>>
    ensures bytes { IfOk result (λ text. IfSome (P.bytes_at files.now path.now) (IsReadOf text.items)) }
{
    read_at_most(alloc, files.open(path)?, READ_AT_MOST)
}

/// The script: of the file that the command line names, or else of the input. A file that cannot be read is told.
fn named_script<P: PayloadFiles, I: Read + Drop, F: Write>(
    alloc: Global,
    files: &P,
    options: &BenchOptions,
    input: I,
    faults: &mut F,
) -> Result<Vec<u8>, BenchFault>
    ensures bytes { IfOk result (λ script. IfSome (source_of options.now (P.bytes_at files.now) (I.remaining input))
        (IsReadOf script.items)) }
    ensures failed { IfErr result (λ fault. IsUnread options.now fault ⊎ (fault ≡ Refused Memory)) }
{
    match &options.script {
        None => input_script(alloc, input),
        Some(path) => match file_text(alloc, files, path) {
            Ok(script) => Ok(script),
            Err(error) => Err(unread(&FileFault::new(alloc, path, error), faults)),
        },
    }
}

/// Does the work of the options, and writes what it makes, or what comes of that, to the end.
fn run_work<R: Threads + Sync, P: Progress + Copy + Drop, O: Write + Drop>(
    alloc: Global,
    threads: &R,
    options: &BenchOptions,
    payloads: Payloads,
    script: &[u8],
    out: &mut BufWriter<Pipe<O>>,
    progress: P,
) -> Result<(), BenchFault>
    requires most { IsBounded options.now.work }
    ensures worked { OnOk result (IsHandedOn O.contents
        (IsWritten options.now payloads script.now 0) out.old out.new) }
    ensures wrong { result ≡ Err Wrong → (differ : ℕ) × (0 < differ) × IsHandedOn O.contents
        (IsWritten options.now payloads script.now differ) out.old out.new }
    ensures faults { IfErr result (IsFaultIn options.now.work payloads script.now
        (is_closed_pipe (writer_inner out.new))) }
{
    if is_kept(options) {
        let made = make_kept(alloc, threads, options, payloads, script, out, progress);
        return ended(made, out);
    }
    let made = make(alloc, threads, options, payloads, script, out, progress);
    ended(made, out)
}

/// Tells of the harts that only trap, where the work is the report of a script. That memory was refused for it changes nothing.
fn tell_traps_of<R: Threads + Sync, F: Write>(
    alloc: Global,
    work: Work,
    script: &[u8],
    payloads: &Payloads,
    faults: &mut F,
) {
    if let Work::Report(_) = work {
        tell_traps::<R, F>(alloc, script, payloads, faults);
    }
}

/// Does what the options ask for. The files of payloads are read before the script. How the work ended is told, and
/// of a report first which harts only trap.
fn run_options<
    R: Threads + Sync,
    P: PayloadFiles,
    I: Read + Drop,
    O: Write + Drop,
    F: Write + IsTerminal,
    C: Clock,
>(
    alloc: Global,
    threads: &R,
    files: &P,
    options: &BenchOptions,
    input: I,
    out: &mut BufWriter<Pipe<O>>,
    telling: &mut Telling<'_, F, C>,
) -> Result<(), BenchFault>
    requires most { IsBounded options.now.work }
    ensures done { OnOk result (IsHandedOn O.contents (AreDone options.now (P.bytes_at files.now) (I.remaining input) 0) out.old out.new) }
    ensures wrong { result ≡ Err Wrong → (differ : ℕ) × (0 < differ)
        × IsHandedOn O.contents (AreDone options.now (P.bytes_at files.now) (I.remaining input) differ) out.old out.new }
    ensures faults { IfErr result (λ fault. IsUnread options.now fault ⊎ (fault ≡ Refused Memory)
        ⊎ IsFaultOf options.now (P.bytes_at files.now) (I.remaining input)
        (is_closed_pipe (writer_inner out.new)) fault) }
{
    let payloads = named_payloads(alloc, files, options, telling.faults)?;
    let script = named_script(alloc, files, options, input, telling.faults)?;
    tell_traps_of::<R, F>(alloc, options.work, &script, &payloads, telling.faults);
    let watched = Watched::new(
        telling.faults,
        telling.clock,
        telling.is_shared,
        options.work,
    );
    let done = run_work(alloc, threads, options, payloads, &script, out, &watched);
    let is_tried = watched.end().went_on();
    tell_work(
        alloc,
        options.work,
        &script,
        &done,
        is_tried,
        telling.faults,
    );
    telling.is_told = true;
    done
}

/// Tells a fault that was not told yet, and on a terminal also what the number of a refusal means.
fn tell<F: Write + IsTerminal>(fault: BenchFault, faults: &mut F) {
    let _told = write!(faults, "{fault}");
    if let BenchFault::Refused(refusal) = fault {
        if faults.is_terminal() {
            explain_fault(faults, "sbibench", &FileFault::refused(refusal));
        }
    }
}

/// Tells the fault, where there is one, and answers the status. That nobody reads the fault changes nothing.
pub fn end<F: Write + IsTerminal>(done: &Result<(), BenchFault>, faults: &mut F) -> u8
    ensures { result ≡ status_after done.now }
{
    if let Err(fault) = done {
        tell(*fault, faults);
    }
    status_of(done)
}

/// Tells the fault, where there is one that was not told yet, and answers the status.
fn end_told<F: Write + IsTerminal>(
    done: &Result<(), BenchFault>,
    is_told: bool,
    faults: &mut F,
) -> u8
    ensures { result ≡ status_after done.now }
{
    if is_told {
        return status_of(done);
    }
    end(done, faults)
}

/// The program over files and streams: does what the words of a command line ask for, the program's name first, with
/// the payload files that they name and the script, read in that order: it is the file that they name, or else the input. The report,
/// the lines of a bench, or what the words ask to be shown goes to `out`. A fault is told where `telling` says, and there too that a
/// bench tried or showed nothing, and where that is a terminal how far a long run is. Answers the status that docs/SCRIPT.md, "The program", has. The handle makes the threads of lanes,
/// where the words ask for these.
pub fn run_on<
    R: Threads + Sync,
    P: PayloadFiles,
    S: AsStr,
    I: Read + Drop,
    O: Write + Drop,
    F: Write + IsTerminal,
    C: Clock,
>(
    alloc: Global,
    threads: &R,
    files: &P,
    words: &[S],
    input: I,
    out: &mut BufWriter<Pipe<O>>,
    telling: Telling<'_, F, C>,
) -> u8
    // The status is the one of what was done; and what was done is the work that the words name, whole, where they
    // name any: nothing of what it wrote is held back. A fault is one that this work may have over that input, or that
    // the command line has.
    ensures status { (done : Result (Unit {0}) BenchFault) × (result ≡ status_after done)
        × OnOk done (IsHandedOn O.contents (IsDone (map S.text words.now) (P.bytes_at files.now) (I.remaining input) 0) out.old out.new
        ⊎ NamesNoWork (map S.text words.now) NoWork.Shown)
        × IfErr done (λ fault. IsFault (map S.text words.now) (P.bytes_at files.now) (I.remaining input)
        (is_closed_pipe (writer_inner out.new)) fault)
        × (done ≡ Err Wrong → (differ : ℕ) × (0 < differ)
        × IsHandedOn O.contents (IsDone (map S.text words.now) (P.bytes_at files.now) (I.remaining input) differ) out.old out.new) }
{
    let mut telling = telling;
    match options_of(alloc, words) {
        Ok(options) => {
            let done = run_options(alloc, threads, files, &options, input, out, &mut telling);
            end_told(&done, telling.is_told, telling.faults)
        }
        Err(text) => {
            let done = without_work(show_on(out, telling.faults, &text));
            end(&done, telling.faults)
        }
    }
}
