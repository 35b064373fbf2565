//! The files that a command line names.

ghost use Rattle.std.specs.Prelude.{◌≡◌, ℕ, List, All, length, IfOk};
ghost use Rattle.script_lang.specs.Lines.{IsLineInRange};
ghost use Rattle.script_lang.specs.Views.{view};
ghost use Rattle.sbigdb.specs.Begins.{BeginsAt};

use crate::begins::begun;
use crate::given::DebugOptions;
use crate::start::Start;
use board_files::read_payloads;
use board_model::Refusal;
use command_line::{FileFault, read_file};
use script_lang::parse_script;
use std::thread::Threads;

/// More bytes than any script has: 65,537 lines of 4,096 bytes with their line feeds. A longer file is refused as one
/// of this length is.
const MOST_BYTES: u64 = 268_505_089;

/// The bytes of the script's file.
fn script_bytes(rt: &HostRuntime, path: &str) -> Result<Vec<u8>, FileFault> {
    match read_file(rt, path, MOST_BYTES) {
        Ok(bytes) => Ok(bytes),
        Err(e) => Err(FileFault::new(rt.alloc(), path, e)),
    }
}

/// The fault of a script that is refused so.
fn refused_script(refusal: Refusal) -> FileFault {
    let fault = FileFault::refused(refusal);
    match refusal {
        Refusal::BadShape => fault.caused_by("a number of the board line is out of its range"),
        _ => fault,
    }
}

/// The fault where no session begins there.
fn refused_begin(refusal: Refusal) -> FileFault {
    let fault = FileFault::refused(refusal);
    match refusal {
        Refusal::BadShape => fault.caused_by("there is none of that number"),
        Refusal::NotPlain => {
            fault.caused_by("a line cuts power, arms a fault or pokes, or none formats the disk")
        }
        _ => fault,
    }
}

/// What the session begins with: the script up to there, and the payloads. The script is read first.
pub fn start_read<R: Threads + Sync>(
    rt: &HostRuntime,
    options: &DebugOptions,
) -> Result<Start, FileFault>
    ensures ranges { IfOk result (λ start. All (IsLineInRange start.script.shape) start.script.lines.items) }
    ensures four { IfOk result (λ start. length start.payloads ≡ 4) }
    // It is the script of the file's bytes, up to where the options say.
    ensures begins { IfOk result (λ start. (bytes : List ℕ) × BeginsAt options.now.begin bytes start.payloads (view start.script)) }
{
    let alloc = rt.alloc();
    let bytes = script_bytes(rt, &options.script)?;
    let own = parse_script(alloc, &bytes).map_err(refused_script)?;
    let payloads = read_payloads(alloc, rt, &options.payloads)?;
    let script = begun::<R>(alloc, options.begin, own, &bytes, &payloads).map_err(refused_begin)?;
    Ok(Start { script, payloads })
}
