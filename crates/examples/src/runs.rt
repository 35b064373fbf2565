//! Runs of `sbibench` by the words of a command line, over streams in memory (README.md, "Runs").

use crate::files::Folder;
use crate::streams::{ALL, Input, Output, Room};
use bench_program::{Pipe, Telling, run_on};
use bench_sweep::line_apart;
use std::alloc::Global;
use std::fmt;
use std::io::{self, BufWriter, ErrorKind};
use std::thread::Threads;
use std::time::{Clock, Duration};
use thiserror::Error;

/// A run that came to just what its file says. Only [`compare_run`] makes one.
#[derive(Drop)]
pub struct AsTold<'a> {
    name: &'a str,
}

impl fmt::Display for AsTold<'_> {
    fn fmt<W: fmt::Write>(&self, f: &mut fmt::Formatter<W>) -> fmt::Result {
        let name = self.name;
        write!(f, "{name}.run as told")
    }
}

/// Why a run is not as its file says.
#[derive(Debug, Drop, Error)]
pub enum RunFault {
    #[error("it was not read: {0}")]
    Unread(io::Error),
    #[error("it is in no form of a run")]
    Form,
    #[error("memory was refused")]
    Memory,
    #[error("its status is {0}")]
    Status(u8),
    #[error("standard output differs from line {0} on")]
    Output(usize),
    #[error("standard error differs from line {0} on")]
    Faults(usize),
}

/// The streams of a run.
#[derive(Clone, Copy, Drop)]
struct GivenStreams {
    input_fails: bool,
    output: Room,
    faults: Room,
}

/// A stream of which the reader is gone.
const CLOSED: Room = Room {
    bytes: 0,
    fault: ErrorKind::BrokenPipe,
    is_terminal: false,
};

/// Streams of which none fails.
const WHOLE: GivenStreams = GivenStreams {
    input_fails: false,
    output: ALL,
    faults: ALL,
};

/// What a file says of a run, and what has to come of it.
#[derive(Drop)]
struct CommandRun<'a> {
    words: &'a str,
    status: u8,
    streams: GivenStreams,
    input: &'a str,
    /// Whether only the end of the output is told.
    is_end: bool,
    output: &'a str,
    faults: &'a str,
}

/// The streams by their name in a file.
fn streams_of(text: &str) -> Option<GivenStreams> {
    if text == "whole" {
        return Some(WHOLE);
    }
    if text == "input fails" {
        return Some(GivenStreams {
            input_fails: true,
            ..WHOLE
        });
    }
    if text == "error closed" {
        return Some(GivenStreams {
            faults: CLOSED,
            ..WHOLE
        });
    }
    if text == "error a terminal" {
        return Some(GivenStreams {
            faults: Room {
                is_terminal: true,
                ..ALL
            },
            ..WHOLE
        });
    }
    Some(GivenStreams {
        output: output_of(text)?,
        ..WHOLE
    })
}

/// The room of an output that fails.
fn output_of(text: &str) -> Option<Room> {
    if let Some(bytes) = text.strip_prefix("output closed after ") {
        let bytes = bytes.parse().ok()?;
        return Some(Room { bytes, ..CLOSED });
    }
    let bytes = text.strip_prefix("output full after ")?.parse().ok()?;
    Some(Room { bytes, ..ALL })
}

/// Whether only the end of an output is told, by what stands after its name.
fn end_of(text: &str) -> Option<bool> {
    if text.is_empty() {
        return Some(false);
    }
    if text == " ends" { Some(true) } else { None }
}

/// The words, the status and the streams of a run, a line each, and what comes after them.
fn lines_of(text: &str) -> Option<(&str, &str, &str, &str)> {
    let (words, text) = text.split_once('\n')?;
    let (status, text) = text.split_once('\n')?;
    let (streams, text) = text.split_once('\n')?;
    Some((words, status, streams, text))
}

/// What is said of a run up to the input is passed over. The input, the output and the faults come each after a line of
/// its name; what stands in that line after the output's name comes before the output.
fn texts_of(text: &str) -> Option<(&str, &str, &str, &str)> {
    let (_said, text) = text.split_once("--- input\n")?;
    let (input, text) = text.split_once("--- output")?;
    let (end, text) = text.split_once('\n')?;
    let (output, faults) = text.split_once("--- error\n")?;
    Some((input, end, output, faults))
}

/// The run that a file asks for: its lines, and then its texts.
fn run_of(text: &str) -> Option<CommandRun<'_>> {
    let (words, status, streams, text) = lines_of(text)?;
    let (input, end, output, faults) = texts_of(text)?;
    Some(CommandRun {
        words,
        status: status.strip_prefix("status ")?.parse().ok()?,
        streams: streams_of(streams)?,
        input,
        is_end: end_of(end)?,
        output,
        faults,
    })
}

/// Compares what the run wrote, or the end of it.
fn compare_output(run: &CommandRun<'_>, written: &[u8]) -> Result<(), RunFault> {
    let told = run.output.as_bytes();
    if run.is_end && written.ends_with(told) {
        return Ok(());
    }
    match line_apart(written, told) {
        None => Ok(()),
        Some(line) => Err(RunFault::Output(line)),
    }
}

/// A clock that stands still, by which no run is a long one.
#[derive(Clone, Copy, Drop)]
struct StoppedClock;

impl Clock for StoppedClock {
    fn monotonic(&self) -> io::Result<Duration> {
        Ok(Duration::ZERO)
    }

    fn since_1970(&self) -> io::Result<Duration> {
        Ok(Duration::ZERO)
    }
}

/// Makes the run with an output that holds back so many bytes, and compares what comes of it.
fn compare_held<R: Threads + Sync>(
    alloc: Global,
    threads: &R,
    files: &Folder<'_>,
    run: &CommandRun<'_>,
    held_back: usize,
) -> Result<(), RunFault> {
    let words: Vec<&str> = match run.words.split(' ').collect(alloc) {
        Ok(words) => words,
        Err(_) => return Err(RunFault::Memory),
    };
    let input = Input::new(run.input.as_bytes(), run.streams.input_fails);
    let output = Output::new(alloc, run.streams.output);
    let mut faults = Output::new(alloc, run.streams.faults);
    let Ok(mut out) = BufWriter::with_capacity(alloc, held_back, Pipe::new(output)) else {
        return Err(RunFault::Memory);
    };
    let status = run_on(
        alloc,
        threads,
        files,
        words.as_slice(),
        input,
        &mut out,
        Telling {
            faults: &mut faults,
            clock: &StoppedClock,
            is_shared: false,
            is_told: false,
        },
    );
    if status != run.status {
        return Err(RunFault::Status(status));
    }
    compare_output(run, out.get_ref().get_ref().taken())?;
    if let Some(line) = line_apart(faults.taken(), run.faults.as_bytes()) {
        return Err(RunFault::Faults(line));
    }
    Ok(())
}

/// Makes the run that the text asks for, with payload files of that folder, and with an output as a terminal is and as a pipe
/// is. `Ok` where each time the status and both outputs are those of the text.
pub fn compare_run<'a, R: Threads + Sync>(
    alloc: Global,
    threads: &R,
    files: &Folder<'_>,
    name: &'a str,
    text: &str,
) -> Result<AsTold<'a>, RunFault> {
    let run = run_of(text).ok_or(RunFault::Form)?;
    compare_held(alloc, threads, files, &run, 0)?;
    compare_held(alloc, threads, files, &run, 65_536)?;
    Ok(AsTold { name })
}
