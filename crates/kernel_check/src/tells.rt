//! What is told of a kernel, in words or as lines of JSON.

use crate::facts::{Failure, OwnOrder, SearchFacts, Verdict};
use crate::given::{Asked, CheckOptions};
use crate::json::{end_value, failure_value, kernel_value, own_value, search_value, verdict_value};
use crate::judged::Judged;
use crate::looks::Look;
use crate::script::script_of;
use crate::taps::write_tap;
use crate::texts::{write_failure, write_kernel, write_own, write_search, write_unseen};
use crate::verdict_texts::{write_stop, write_verdict};
use board_model::{Reason, Refusal, Shape, unwritten};
use script_lang::write_script;
use serde_json::Value;
use std::alloc::{AllocError, Global};
use std::io::{self, Write};

/// What a write comes to.
pub fn written(done: io::Result<()>) -> Result<(), Refusal> {
    done.map_err(|error| unwritten(error))
}

/// Writes a line of JSON.
fn write_value<W: Write>(
    alloc: Global,
    out: &mut W,
    value: Result<Value, AllocError>,
) -> Result<(), Refusal> {
    let text = value?.to_string(alloc)?;
    written(writeln!(out, "{text}"))
}

/// Writes what is checked.
pub fn tell_kernel<W: Write>(
    alloc: Global,
    out: &mut W,
    options: &CheckOptions,
    bytes: usize,
    shape: &Shape,
) -> Result<(), Refusal> {
    let name = options.kernel.as_str();
    if options.json {
        let value = kernel_value(alloc, name, bytes, shape, options.asked);
        return write_value(alloc, out, value);
    }
    written(write_kernel(out, name, bytes, shape))
}

/// Writes the kernel's own order.
pub fn tell_own<W: Write>(
    alloc: Global,
    out: &mut W,
    options: &CheckOptions,
    own: &OwnOrder,
    looks: &[Look],
) -> Result<(), Refusal> {
    if options.json {
        return write_value(alloc, out, own_value(alloc, own, looks));
    }
    written(write_own(out, own, looks))
}

/// Writes how far a search went.
pub fn tell_search<W: Write>(
    alloc: Global,
    out: &mut W,
    options: &CheckOptions,
    search: &SearchFacts,
) -> Result<(), Refusal> {
    if options.json {
        return write_value(alloc, out, search_value(alloc, search));
    }
    written(write_search(out, search))
}

/// Writes in words why the search of every order was given up, unless a script is asked for.
pub fn tell_stop<W: Write>(
    out: &mut W,
    options: &CheckOptions,
    search: &SearchFacts,
) -> Result<(), Refusal> {
    match search.stop {
        Some(stop) if !options.json && options.tells_all() => written(write_stop(out, stop)),
        _ => Ok(()),
    }
}

/// Writes what was found as lines of JSON.
fn tell_values<W: Write>(
    alloc: Global,
    out: &mut W,
    looks: &[Look],
    judged: &Judged,
) -> Result<(), Refusal> {
    for kind in &judged.kinds {
        write_value(alloc, out, end_value(alloc, kind, looks))?;
    }
    for failure in &judged.failures {
        write_value(alloc, out, failure_value(alloc, failure))?;
    }
    write_value(
        alloc,
        out,
        verdict_value(alloc, judged.verdict, judged.search.bound),
    )
}

/// Writes what was found in words.
fn write_words<W: Write>(
    out: &mut W,
    asked: Asked,
    looks: &[Look],
    judged: &Judged,
) -> io::Result<()> {
    let kinds = judged.kinds.as_slice();
    for failure in &judged.failures {
        write_failure(out, failure, kinds, looks)?;
    }
    if matches!(
        judged.verdict,
        Verdict::Holds | Verdict::Within(_) | Verdict::Lives(_)
    ) {
        write_unseen(out, kinds, looks)?;
    }
    write_verdict(out, judged.verdict, &judged.search, asked)
}

/// Writes what was found, and the verdict.
pub fn tell_judged<W: Write>(
    alloc: Global,
    out: &mut W,
    options: &CheckOptions,
    looks: &[Look],
    judged: &Judged,
) -> Result<(), Refusal> {
    if options.tap {
        written(write_tap(out, judged))
    } else if options.json {
        tell_values(alloc, out, looks, judged)
    } else {
        written(write_words(out, options.asked, looks, judged))
    }
}

/// Writes the order of a failure as a script.
pub fn tell_script<W: Write>(
    alloc: Global,
    out: &mut W,
    shape: &Shape,
    payload: &[u8],
    reason: Reason,
    failure: &Failure,
    looks: &[Look],
) -> Result<(), Refusal> {
    let lines = script_of(alloc, shape, payload, reason, failure, looks)?;
    write_script(out, shape, lines.as_slice())
}
