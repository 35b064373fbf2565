//! Why nothing runs, as a packet.

ghost use Rattle.std.specs.Prelude.{◌≡◌, ◌++◌, IfOk, OnOk};
ghost use Rattle.sbigdb.specs.Stops.{reason_text, signal_text, stop_text, watch_text, watch_word};

use board_model::HartId;
use debug_session::{HaltReason, Stop, WatchKind, Watchpoint, digit};
use std::alloc::{AllocError, Global};

/// The number of GDB's signal that says why nothing runs, as two digits: SIGINT, SIGPWR where the board is off or
/// dozes, none where nothing was to be done, the turns of a command were made or the script has another line next, and else SIGTRAP.
fn signal_text(halt: HaltReason) -> &'static [u8; 2]
    ensures { result.now ≡ signal_text halt }
{
    match halt {
        HaltReason::Interrupted => b"02",
        HaltReason::Ended | HaltReason::Off => b"20",
        HaltReason::Idle | HaltReason::Spent | HaltReason::AtLine => b"00",
        HaltReason::Stepped | HaltReason::Point | HaltReason::Watched(_) | HaltReason::Begin =>
            b"05",
    }
}

/// Writes the reason, where GDB has a word for it. `swbreak` stands only where GDB offered to take it: else it answers
/// "Unexpected swbreak stop reason".
fn put_reason(
    alloc: Global,
    out: &mut Vec<u8>,
    halt: HaltReason,
    takes_swbreak: bool,
) -> Result<(), AllocError>
    ensures { OnOk result (out.new.items ≡ out.old.items ++ reason_text halt takes_swbreak) }
{
    match halt {
        HaltReason::Point if takes_swbreak => out.extend_from_slice(b"swbreak:;"),
        HaltReason::Watched(watch) => put_watch(alloc, out, watch),
        HaltReason::Begin => out.extend_from_slice(b"replaylog:begin;"),
        _ => Ok(()),
    }
}

/// GDB's word for a watchpoint.
fn watch_word(kind: WatchKind) -> &'static str
    ensures { result.now ≡ watch_word kind }
{
    match kind {
        WatchKind::Changes => "watch",
        WatchKind::Reads => "rwatch",
        WatchKind::Accesses => "awatch",
    }
}

/// Writes the watchpoint that was touched.
fn put_watch(alloc: Global, out: &mut Vec<u8>, watch: Watchpoint) -> Result<(), AllocError>
    ensures { OnOk result (out.new.items ≡ out.old.items ++ watch_text watch) }
{
    let word = watch_word(watch.kind);
    let address = watch.address;
    let text = format!(in alloc; "{word}:{address:x};")?;
    out.extend_from_slice(text.as_bytes())
}

/// Writes the stop reply ("Stop Reply Packets").
fn put_stop(
    alloc: Global,
    out: &mut Vec<u8>,
    stop: Stop,
    takes_swbreak: bool,
) -> Result<(), AllocError>
    ensures { OnOk result (out.new.items ≡ out.old.items ++ stop_text stop takes_swbreak) }
{
    out.extend_from_slice(b"T")?;
    out.extend_from_slice(signal_text(stop.halt))?;
    out.extend_from_slice(b"thread:")?;
    out.push(digit(stop.hart.number() as u8 + 1))?;
    out.push(b';')?;
    put_reason(alloc, out, stop.halt, takes_swbreak)
}

/// The stop reply.
pub fn stop_text(alloc: Global, stop: Stop, takes_swbreak: bool) -> Result<Vec<u8>, AllocError>
    ensures { IfOk result (λ v. v.items ≡ stop_text stop takes_swbreak) }
{
    let mut out = Vec::new(alloc);
    put_stop(alloc, &mut out, stop, takes_swbreak)?;
    Ok(out)
}

/// What the console says of a hart that was to step and has nothing to do, which is in that state.
pub fn idle_text(alloc: Global, hart: HartId, state: &str) -> Result<String, AllocError> {
    let number = hart.number();
    format!(in alloc; "hart {number} has nothing to do: it is {state}\n")
}

/// What the console says of a stop of harts that went on, where GDB has no words for it.
pub fn told_of(halt: HaltReason) -> &'static str {
    match halt {
        HaltReason::Idle => "every hart that may run has nothing to do\n",
        HaltReason::Spent => "the turns of one command are made: continue goes on\n",
        _ => "",
    }
}
