//! Sessions of `sbiboard` and looks of `sbidisk`, one after another over a disk's file in memory, against a transcript (README.md,
//! "Sessions").
//!
//! A transcript has parts, with an empty line after each. A part that begins with `$ ` is a run: its command line, how its world is not
//! whole (`with ..`), the lines that are typed (`< ..`, the last one also `<~ ..`, without its line feed), and then what comes of it. Any
//! other part begins with another disk's file, an empty one, or one of so many zeros where it says `D has N zeros`.

use crate::console::{Screen, Typed};
use crate::disks::{Failing, KeptBlocks, MemoryDisk, SessionFiles};
use crate::files::Folder;
use crate::streams::{ALL, Input, Output, Room};
use bench_program::Pipe;
use board_session::{FileLeft, Streams, examine_on, operate_on};
use std::alloc::{AllocError, Global};
use std::io::{self, BufWriter, Write};
use std::sync::Wait;
use std::thread::Threads;

/// How the line of a command begins.
const PROMPT: &str = "$ ";

/// How a line begins that says what is not whole.
const WITH: &str = "with ";

/// How a line begins that is typed.
const TYPED: &str = "< ";

/// How one begins that is typed without its line feed.
const CUT_OFF: &str = "<~ ";

/// The world of a run, and whether its status alone is told.
#[derive(Clone, Copy, Drop)]
struct World {
    failing: Failing,
    input_fails: bool,
    room: Room,
    is_status_alone: bool,
}

/// A world in which nothing fails.
const WHOLE: World = World {
    failing: Failing::Nothing,
    input_fails: false,
    room: ALL,
    is_status_alone: false,
};

/// An output of so many bytes, by what a line says.
fn room_of(said: &str) -> Option<Room> {
    let bytes = said.strip_prefix("an output of ")?.strip_suffix(" bytes")?;
    let bytes = bytes.parse().ok()?;
    Some(Room { bytes, ..ALL })
}

/// The world in which that is so too, which a line says. What is in no such form changes nothing.
fn world_with(world: World, said: &str) -> World {
    if let Some(room) = room_of(said) {
        return World { room, ..world };
    }
    let failing = match said {
        "a file that another has" => Failing::Hold,
        "a file whose length fails" => Failing::Length,
        "a file whose reads fail" => Failing::Read,
        "a folder that takes no file" => Failing::Write,
        _ => world.failing,
    };
    World {
        failing,
        input_fails: world.input_fails || said == "an input that fails",
        is_status_alone: world.is_status_alone || said == "its status alone",
        ..world
    }
}

/// What a part asks for.
#[derive(Drop)]
struct Asked<'a> {
    line: &'a str,
    world: World,
    typed: Vec<u8>,
}

fn asked_by(alloc: Global, part: &str) -> Result<Asked<'_>, AllocError> {
    let mut asked = Asked {
        line: "",
        world: WHOLE,
        typed: Vec::new(alloc),
    };
    for line in part.split('\n') {
        if let Some(command) = line.strip_prefix(PROMPT) {
            asked.line = command;
        } else if let Some(said) = line.strip_prefix(WITH) {
            asked.world = world_with(asked.world, said);
        } else if let Some(said) = line.strip_prefix(TYPED) {
            asked.typed.extend_from_slice(said.as_bytes())?;
            asked.typed.extend_from_slice(b"\n")?;
        } else if let Some(said) = line.strip_prefix(CUT_OFF) {
            asked.typed.extend_from_slice(said.as_bytes())?;
        }
    }
    Ok(asked)
}

/// Writes the lines of a part that say what the run is given, and not what comes of it.
fn tell_given(out: &mut Vec<u8>, part: &str) -> io::Result<()> {
    for line in part.split('\n') {
        if line.starts_with(PROMPT)
            || line.starts_with(WITH)
            || line.starts_with(TYPED)
            || line.starts_with(CUT_OFF)
        {
            writeln!(out, "{line}")?;
        }
    }
    Ok(())
}

/// What has come of a run: its status, its output, the faults that it told, and the bytes of the disk's file.
#[derive(Drop)]
struct Came {
    status: u8,
    told: Output,
    faults: Output,
    disk: Vec<u8>,
}

/// What then stands in the file of the disk, where those bytes stood before. Where memory was refused it is empty.
fn bytes_left(files: &SessionFiles<'_>, left: FileLeft<MemoryDisk, KeptBlocks>) -> Vec<u8> {
    let alloc = files.payloads.rt.alloc();
    let bytes = match left {
        FileLeft::None => Vec::from_slice(alloc, files.disk).ok(),
        FileLeft::AtEnd(held, _disk) => held.bytes(),
        FileLeft::AllAlong(kept, _moments) => Some(kept.sectors.into_device().bytes),
    };
    bytes.unwrap_or(Vec::new(alloc))
}

/// What comes of `sbiboard` over these files.
fn operated<R: Threads + Wait + Sync>(
    threads: &R,
    files: &SessionFiles<'_>,
    words: &[&str],
    asked: &Asked<'_>,
) -> io::Result<Came> {
    let rt = files.payloads.rt;
    let screen = Screen::new(Output::new(rt.alloc(), asked.world.room));
    let mut faults = Output::new(rt.alloc(), ALL);
    let typed = Input::new(asked.typed.as_slice(), asked.world.input_fails);
    let streams = Streams {
        input: Typed::new(rt, typed),
        out: BufWriter::new(rt.alloc(), screen)?,
    };
    let ended = operate_on(rt.alloc(), threads, files, words, streams, &mut faults);
    let (screen, _unwritten) = ended.out.into_parts();
    Ok(Came {
        status: ended.status,
        told: screen.shown,
        faults,
        disk: bytes_left(files, ended.file_left),
    })
}

/// What comes of `sbidisk` over these files.
fn examined(files: &SessionFiles<'_>, words: &[&str], asked: &Asked<'_>) -> io::Result<Came> {
    let alloc = files.payloads.rt.alloc();
    let output = Output::new(alloc, asked.world.room);
    let mut faults = Output::new(alloc, ALL);
    let mut out = BufWriter::new(alloc, Pipe::new(output))?;
    let status = examine_on(alloc, files, words, &mut out, &mut faults);
    let mut told = Output::new(alloc, ALL);
    told.write_all(out.get_ref().get_ref().taken())?;
    Ok(Came {
        status,
        told,
        faults,
        disk: Vec::from_slice(alloc, files.disk)?,
    })
}

/// Writes the lines of a text, each after that mark.
fn tell_lines(out: &mut Vec<u8>, mark: &str, text: &str) -> io::Result<()> {
    for line in text.lines() {
        writeln!(out, "{mark}{line}")?;
    }
    Ok(())
}

/// Writes how many bytes there are, and in hexadecimal those up to the last one that is not zero.
fn tell_bytes(out: &mut Vec<u8>, bytes: &[u8]) -> io::Result<()> {
    let count = bytes.len();
    write!(out, "> {count} bytes: ")?;
    let last = bytes.iter().rposition(|byte| *byte != 0);
    let end = last.unwrap_or(0).saturating_add(1);
    for &byte in bytes.get(..end).unwrap_or(bytes) {
        write!(out, "{byte:02x}")?;
    }
    writeln!(out)
}

/// Writes what has come of a run, but for its status.
fn tell_streams(out: &mut Vec<u8>, came: &Came) -> io::Result<()> {
    let told = came.told.taken();
    match str::from_utf8(told) {
        Ok(text) => tell_lines(out, "> ", text)?,
        Err(_) => tell_bytes(out, told)?,
    }
    match str::from_utf8(came.faults.taken()) {
        Ok(text) => tell_lines(out, "! ", text),
        Err(_) => tell_bytes(out, came.faults.taken()),
    }
}

/// What comes of the run that a part asks for, over a file of these bytes.
fn come_of<R: Threads + Wait + Sync>(
    threads: &R,
    folder: Folder<'_>,
    disk: &[u8],
    asked: &Asked<'_>,
) -> io::Result<Came> {
    let words: Vec<&str> = asked.line.split(' ').collect(folder.rt.alloc())?;
    let files = SessionFiles {
        payloads: folder,
        disk,
        failing: asked.world.failing,
    };
    if asked.line.starts_with("sbidisk ") {
        examined(&files, words.as_slice(), asked)
    } else {
        operated(threads, &files, words.as_slice(), asked)
    }
}

/// Makes the run that a part asks for, over a file of these bytes, and writes the part anew. The bytes that are left.
fn rerun<R: Threads + Wait + Sync>(
    threads: &R,
    folder: Folder<'_>,
    disk: &[u8],
    part: &str,
    out: &mut Vec<u8>,
) -> io::Result<Vec<u8>> {
    let asked = asked_by(folder.rt.alloc(), part)?;
    let came = come_of(threads, folder, disk, &asked)?;
    tell_given(out, part)?;
    if !asked.world.is_status_alone {
        tell_streams(out, &came)?;
    }
    let status = came.status;
    writeln!(out, "status {status}\n")?;
    Ok(came.disk)
}

/// How many zeros the disk's file has at first, where a line says it.
fn zeros_in(line: &str) -> Option<usize> {
    let count = line.strip_prefix("D has ")?.strip_suffix(" zeros")?;
    count.parse().ok()
}

/// The disk's file with which a part begins.
fn file_at_first(alloc: Global, part: &str) -> Result<Vec<u8>, AllocError> {
    let mut bytes = Vec::new(alloc);
    for line in part.split('\n') {
        if let Some(count) = zeros_in(line) {
            bytes = vec![in alloc; 0; count]?;
        }
    }
    Ok(bytes)
}

/// The transcript written anew: its parts, each with what comes of it. Payload files are those of that folder.
pub fn recite<R: Threads + Wait + Sync>(
    threads: &R,
    folder: Folder<'_>,
    transcript: &str,
) -> io::Result<Vec<u8>> {
    let alloc = folder.rt.alloc();
    let mut out = Vec::new(alloc);
    let mut disk = Vec::new(alloc);
    for part in transcript.split("\n\n") {
        if part.starts_with(PROMPT) {
            disk = rerun(threads, folder, &disk, part, &mut out)?;
        } else if !part.is_empty() {
            writeln!(out, "{part}\n")?;
            disk = file_at_first(alloc, part)?;
        }
    }
    Ok(out)
}
