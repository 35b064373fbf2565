//! The verdict in words.

use crate::expected::parted;
use crate::facts::{
    EndKind, EndShown, Failure, HartFacts, HartState, OwnEnd, OwnOrder, SearchFacts, SharedWord,
    StoreCall, TrapFacts,
};
use crate::given::FailureKind;
use crate::looks::Look;
use crate::step_texts::write_order;
use board_model::Shape;
use board_space::Bound;
use std::fmt;
use std::io::{self, Write};

/// A number of things, with their noun: `1 end`, `2 ends`.
#[derive(Drop)]
pub struct Count(pub u64, pub &'static str);

impl fmt::Display for Count {
    fn fmt<W: fmt::Write>(&self, f: &mut fmt::Formatter<W>) -> fmt::Result {
        let Count(number, noun) = self;
        let end = if *number == 1 { "" } else { "s" };
        write!(f, "{number} {noun}{end}")
    }
}

/// A list, with a comma between two.
#[derive(Drop)]
struct Listed<'a, T>(&'a [T]);

impl<T: fmt::Display> fmt::Display for Listed<'_, T> {
    fn fmt<W: fmt::Write>(&self, f: &mut fmt::Formatter<W>) -> fmt::Result {
        let mut mark = "";
        for item in self.0 {
            write!(f, "{mark}{item}")?;
            mark = ", ";
        }
        Ok(())
    }
}

/// Bytes in hexadecimal digits.
#[derive(Drop)]
pub struct Hex<'a>(pub &'a [u8]);

impl fmt::Display for Hex<'_> {
    fn fmt<W: fmt::Write>(&self, f: &mut fmt::Formatter<W>) -> fmt::Result {
        for byte in self.0 {
            write!(f, "{byte:02x}")?;
        }
        Ok(())
    }
}

/// What an end shows.
#[derive(Drop)]
struct ShownText<'a>(&'a EndShown, &'a [Look]);

/// Writes the bytes of looks, by their names.
fn write_looks<W: fmt::Write>(
    f: &mut fmt::Formatter<W>,
    looks: &[Look],
    bytes: &[u8],
) -> fmt::Result {
    let mut rest = bytes;
    let mut mark = "";
    for look in looks {
        let (part, others) = parted(rest, look.bytes);
        let name = &look.name;
        let part = Hex(part);
        write!(f, "{mark}{name} {part}")?;
        rest = others;
        mark = ", ";
    }
    Ok(())
}

impl fmt::Display for ShownText<'_> {
    fn fmt<W: fmt::Write>(&self, f: &mut fmt::Formatter<W>) -> fmt::Result {
        match self.0 {
            EndShown::Shutdown(reason) => {
                let number = reason.number();
                write!(f, "shutdown, reason {number}")
            }
            EndShown::On(_) if self.1.is_empty() => {
                f.write_str("nothing, since nothing is looked at")
            }
            EndShown::On(bytes) => write_looks(f, self.1, bytes.as_slice()),
        }
    }
}

/// The word of a failure.
pub fn failure_word(kind: FailureKind) -> &'static str {
    match kind {
        FailureKind::Differs => "differs",
        FailureKind::Stuck => "stuck",
        FailureKind::Traps => "traps",
        FailureKind::Fails => "fails",
    }
}

/// The name of a state (SBI specification 2.0, chapter HSM).
pub fn state_word(state: HartState) -> &'static str {
    match state {
        HartState::Stopped => "STOPPED",
        HartState::StartPending => "START_PENDING",
        HartState::Started => "STARTED",
        HartState::Suspended => "SUSPENDED",
    }
}

/// The word for what a hart asks of the store.
pub fn call_word(call: StoreCall) -> &'static str {
    match call {
        StoreCall::Sleep => "sleep",
        StoreCall::Reset => "reset",
    }
}

/// What a trap's cause is called (the ISA's volume 2, table of scause).
fn cause_words(cause: u64) -> &'static str {
    match cause {
        0 => "a misaligned instruction address",
        1 => "no instruction there",
        2 => "an illegal instruction",
        3 => "EBREAK",
        4 => "a misaligned load",
        5 => "a load outside of RAM",
        6 => "a misaligned store",
        7 => "a store outside of RAM",
        _ => "the software interrupt",
    }
}

/// Writes what is checked, as `own.elf: 917 bytes at 0x80000000, 2 harts, 2 pages`.
pub fn write_kernel<W: Write>(
    out: &mut W,
    name: &str,
    bytes: usize,
    shape: &Shape,
) -> io::Result<()> {
    let bytes = Count(bytes as u64, "byte");
    let harts = Count(u64::from(shape.harts()), "hart");
    let pages = Count(u64::from(shape.pages()), "page");
    writeln!(out, "{name}: {bytes} at 0x80000000, {harts}, {pages}")
}

/// Writes a number of things after a comma, unless there are none.
fn write_some<W: Write>(out: &mut W, number: u64, noun: &'static str) -> io::Result<()> {
    if number == 0 {
        return Ok(());
    }
    let things = Count(number, noun);
    write!(out, ", {things}")
}

/// Writes how long the kernel's own order is.
fn write_counts<W: Write>(out: &mut W, own: &OwnOrder) -> io::Result<()> {
    let word = match &own.end {
        OwnEnd::Ends(_) => "ends",
        OwnEnd::Runs(_) => "still runs",
    };
    let turns = Count(own.turns, "turn");
    write!(out, "own order: {word} after {turns}")?;
    write_some(out, own.sleeps, "sleep")?;
    write_some(out, own.reboots, "reboot")
}

/// Writes how the kernel's own order ends.
pub fn write_own<W: Write>(out: &mut W, own: &OwnOrder, looks: &[Look]) -> io::Result<()> {
    write_counts(out, own)?;
    match &own.end {
        OwnEnd::Ends(shown) => {
            let shown = ShownText(shown, looks);
            writeln!(out, ": {shown}")
        }
        OwnEnd::Runs(harts) => {
            writeln!(out, "")?;
            write_harts(out, harts.as_slice())
        }
    }
}

/// How many names of shared words are told.
const MOST_NAMES: usize = 4;

impl fmt::Display for SharedWord {
    fn fmt<W: fmt::Write>(&self, f: &mut fmt::Formatter<W>) -> fmt::Result {
        match &self.name {
            Some(name) => f.write_str(name.as_str()),
            None => {
                let address = self.address;
                write!(f, "{address:#x}")
            }
        }
    }
}

/// The names of shared words, the first few.
#[derive(Drop)]
struct SharedText<'a>(&'a [SharedWord]);

impl fmt::Display for SharedText<'_> {
    fn fmt<W: fmt::Write>(&self, f: &mut fmt::Formatter<W>) -> fmt::Result {
        if self.0.is_empty() {
            return Ok(());
        }
        let words = Listed(self.0.get(..MOST_NAMES).unwrap_or(self.0));
        let end = if MOST_NAMES < self.0.len() {
            ", .."
        } else {
            ""
        };
        write!(f, " ({words}{end})")
    }
}

/// How orders are bounded; nothing where they are not.
#[derive(Drop)]
pub struct BoundText(pub Bound);

impl fmt::Display for BoundText {
    fn fmt<W: fmt::Write>(&self, f: &mut fmt::Formatter<W>) -> fmt::Result {
        let (most, noun) = match self.0 {
            Bound::Unbounded => return Ok(()),
            Bound::Preemptions(most) => (most, "preemption"),
            Bound::PowerOns(most) => (most, "power-on"),
        };
        let most = Count(u64::from(most), noun);
        write!(f, "at most {most}")
    }
}

/// Writes how far a search went.
pub fn write_search<W: Write>(out: &mut W, search: &SearchFacts) -> io::Result<()> {
    if search.bound != Bound::Unbounded {
        let bound = BoundText(search.bound);
        write!(out, "{bound}: ")?;
    }
    let boards = Count(search.boards as u64, "board");
    let shared = Count(search.shared.len() as u64, "shared word");
    let names = SharedText(search.shared.as_slice());
    let images = Count(search.images as u64, "image");
    let ends = Count(search.ends as u64, "end");
    writeln!(out, "{boards}, {shared}{names}, {images}, {ends}")?;
    write_counting(out, search)
}

/// Writes what counted on where a search was given up, if anything did.
fn write_counting<W: Write>(out: &mut W, search: &SearchFacts) -> io::Result<()> {
    if search.counting.is_empty() {
        return Ok(());
    }
    let no_end = if search.ends == 0 {
        "no end was found; "
    } else {
        ""
    };
    let advice = if search.bound == Bound::Unbounded {
        "; --lives N bounds what counts sleeps or boots"
    } else {
        ""
    };
    let names = Listed(search.counting.as_slice());
    writeln!(
        out,
        "  endless: {no_end}these count on, by the look of it: {names}{advice}"
    )
}

/// Writes what some ends show.
fn write_end<W: Write>(out: &mut W, kind: &EndKind, looks: &[Look]) -> io::Result<()> {
    let ends = Count(kind.count as u64, "end");
    let shown = ShownText(&kind.shown, looks);
    let own = if kind.is_own {
        ", as in its own order"
    } else {
        ""
    };
    let expected = if kind.is_expected {
        ""
    } else {
        ", not as expected"
    };
    writeln!(out, "  {ends}{own}{expected}: {shown}")
}

/// How many kinds of ends are told.
const MOST_KINDS: usize = 8;

/// Writes what ends show, the first few kinds.
fn write_ends<W: Write>(out: &mut W, kinds: &[EndKind], looks: &[Look]) -> io::Result<()> {
    for (place, kind) in kinds.iter().enumerate() {
        if place == MOST_KINDS {
            let kinds = kinds.len();
            return writeln!(out, "  .. of {kinds} kinds of ends");
        }
        write_end(out, kind, looks)?;
    }
    Ok(())
}

/// Writes what ends show where the kernel's own order came to none of them.
pub fn write_unseen<W: Write>(out: &mut W, kinds: &[EndKind], looks: &[Look]) -> io::Result<()> {
    for kind in kinds {
        if kind.is_own {
            return Ok(());
        }
    }
    write_ends(out, kinds, looks)
}

/// Writes a trap that has no handler.
fn write_trap<W: Write>(out: &mut W, trap: &TrapFacts) -> io::Result<()> {
    let words = cause_words(trap.cause);
    let TrapFacts {
        cause,
        place,
        value,
    } = trap;
    write!(
        out,
        ", after a trap at {place} with no handler: {words} (scause {cause}, stval {value:#x})"
    )
}

/// Writes where a hart stands, or stood when it stopped.
fn write_hart<W: Write>(out: &mut W, hart: &HartFacts) -> io::Result<()> {
    let number = hart.hart;
    let state = state_word(hart.state);
    let place = &hart.place;
    let pending = if hart.is_pending {
        ", an interrupt is pending"
    } else {
        ""
    };
    write!(out, "  hart {number}: {state} at {place}{pending}")?;
    if let Some(trap) = &hart.trap {
        write_trap(out, trap)?;
    }
    writeln!(out, "")
}

/// Writes where harts stand.
fn write_harts<W: Write>(out: &mut W, harts: &[HartFacts]) -> io::Result<()> {
    for hart in harts {
        write_hart(out, hart)?;
    }
    Ok(())
}

/// What a failure is.
fn failure_words(kind: FailureKind) -> &'static str {
    match kind {
        FailureKind::Differs => "two ends show different things, or one shows what is not expected",
        FailureKind::Stuck =>
            "no order leads from here to an end, or harts wait for an interrupt that no hart sends",
        FailureKind::Traps => "a hart stands after a trap that has no handler",
        FailureKind::Fails => "the kernel shuts down with reason 1, system failure",
    }
}

/// Writes what a failure is, and how many ends show it.
fn write_failing<W: Write>(out: &mut W, failure: &Failure) -> io::Result<()> {
    let word = failure_word(failure.kind);
    let words = failure_words(failure.kind);
    if failure.ends == 0 || failure.kind == FailureKind::Differs {
        return writeln!(out, "{word}: {words}");
    }
    let ends = Count(failure.ends as u64, "end");
    writeln!(out, "{word}: {words} ({ends})")
}

/// Writes a failure: what it is, the order that leads there, and the harts there.
pub fn write_failure<W: Write>(
    out: &mut W,
    failure: &Failure,
    kinds: &[EndKind],
    looks: &[Look],
) -> io::Result<()> {
    write_failing(out, failure)?;
    if failure.kind == FailureKind::Differs {
        write_ends(out, kinds, looks)?;
    }
    if failure.order.is_empty() {
        return writeln!(out, "  from the first boot on");
    }
    write_order(out, failure.order.as_slice())?;
    write_harts(out, failure.harts.as_slice())
}
