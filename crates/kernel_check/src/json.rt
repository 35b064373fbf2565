//! The verdict as lines of JSON, an object each (docs/CHECKING.md, "Statuses, and lines of JSON").

use crate::expected::parted;
use crate::facts::{
    EndKind, EndShown, Failure, HartFacts, OrderStep, OwnEnd, OwnOrder, RunEnd, SearchFacts,
    SharedWord, Stop, StoreCall, TrapFacts, Verdict,
};
use crate::given::Asked;
use crate::looks::Look;
use crate::texts::{Hex, call_word, failure_word, state_word};
use board_model::Shape;
use board_space::Bound;
use serde_json::{Map, ToValue, Value};
use std::alloc::{AllocError, Global};

/// An object as it is built, member after member. Once memory was refused it takes no more: a function that builds it has one way out, where
/// `json!` has two for each member.
#[derive(Drop)]
struct Object {
    alloc: Global,
    members: Result<Map<String, Value>, AllocError>,
}

/// The members with one more.
fn with_member(
    alloc: Global,
    members: Result<Map<String, Value>, AllocError>,
    name: &str,
    value: Result<Value, AllocError>,
) -> Result<Map<String, Value>, AllocError> {
    let mut members = members?;
    let value = value?;
    let name = name.to_string(alloc)?;
    let _before = members.insert(name, value)?;
    Ok(members)
}

impl Object {
    /// With no member.
    fn new(alloc: Global) -> Object {
        Object {
            alloc,
            members: Ok(Map::new(alloc)),
        }
    }

    /// With one more member.
    fn with<V: ToValue>(self, name: &str, value: V) -> Object {
        let Object { alloc, members } = self;
        let value = value.to_value(alloc);
        Object {
            alloc,
            members: with_member(alloc, members, name, value),
        }
    }

    /// With one more member, for which memory may have been refused.
    fn with_made(self, name: &str, value: Result<Value, AllocError>) -> Object {
        let Object { alloc, members } = self;
        Object {
            alloc,
            members: with_member(alloc, members, name, value),
        }
    }

    /// What was built.
    fn value(self) -> Result<Value, AllocError> {
        let Object { members, .. } = self;
        Ok(Value::Object(members?))
    }
}

/// What is told as a value of JSON.
trait ToJson {
    fn to_json(&self, alloc: Global) -> Result<Value, AllocError>;
}

/// Null where there is none.
impl<T: ToJson> ToJson for Option<T> {
    fn to_json(&self, alloc: Global) -> Result<Value, AllocError> {
        match self {
            None => Ok(Value::Null),
            Some(told) => told.to_json(alloc),
        }
    }
}

impl ToJson for String {
    fn to_json(&self, alloc: Global) -> Result<Value, AllocError> {
        self.as_str().to_value(alloc)
    }
}

/// The values of a list.
fn list_value<T: ToJson>(alloc: Global, list: &[T]) -> Result<Value, AllocError> {
    let mut values = Vec::new(alloc);
    for item in list {
        values.push(item.to_json(alloc)?)?;
    }
    Ok(Value::Array(values))
}

/// A line of that kind, with no other member.
fn line(alloc: Global, kind: &str) -> Object {
    Object::new(alloc).with("line", kind)
}

/// An address or a register as a text, since a number of JSON may lose its last bits.
fn hex_value(alloc: Global, number: u64) -> Result<Value, AllocError> {
    Ok(Value::from(format!(in alloc; "{number:#x}")?))
}

/// What is checked: the line "kernel".
pub fn kernel_value(
    alloc: Global,
    name: &str,
    bytes: usize,
    shape: &Shape,
    asked: Asked,
) -> Result<Value, AllocError> {
    line(alloc, "kernel")
        .with("name", name)
        .with("bytes", bytes)
        .with("harts", shape.harts())
        .with("pages", shape.pages())
        .with("lanes", shape.lanes())
        .with("reason", asked.reason.number())
        .with("cuts", asked.cuts)
        .with("refusals", asked.refusals)
        .value()
}

/// A look by its name, and what it shows.
fn look_value(alloc: Global, name: &str, bytes: &[u8]) -> Result<Value, AllocError> {
    let shown = Hex(bytes);
    let text = format!(in alloc; "{shown}")?;
    Object::new(alloc)
        .with("name", name)
        .with("bytes", text)
        .value()
}

/// The looks of an end, by their names.
fn looks_value(alloc: Global, looks: &[Look], bytes: &[u8]) -> Result<Value, AllocError> {
    let mut shown = Vec::new(alloc);
    let mut rest = bytes;
    for look in looks {
        let (part, others) = parted(rest, look.bytes);
        shown.push(look_value(alloc, look.name.as_str(), part)?)?;
        rest = others;
    }
    Ok(Value::Array(shown))
}

/// What an end shows in the looks; null where the kernel was shut down.
fn looks_shown(alloc: Global, looks: &[Look], shown: &EndShown) -> Result<Value, AllocError> {
    match shown {
        EndShown::On(bytes) => looks_value(alloc, looks, bytes.as_slice()),
        EndShown::Shutdown(_) => Ok(Value::Null),
    }
}

/// The reason of the shutdown at an end; null where there was none.
fn shutdown_shown(shown: &EndShown) -> Value {
    match shown {
        EndShown::On(_) => Value::Null,
        EndShown::Shutdown(reason) => Value::from(reason.number()),
    }
}

/// What the kernel's own order shows at its end; null where it has none, or was shut down.
fn own_looks(alloc: Global, own: &OwnOrder, looks: &[Look]) -> Result<Value, AllocError> {
    match &own.end {
        OwnEnd::Ends(shown) => looks_shown(alloc, looks, shown),
        OwnEnd::Runs(_) => Ok(Value::Null),
    }
}

/// The reason of its shutdown; null where there was none.
fn own_shutdown(own: &OwnOrder) -> Value {
    match &own.end {
        OwnEnd::Ends(shown) => shutdown_shown(shown),
        OwnEnd::Runs(_) => Value::Null,
    }
}

/// The harts where it still runs; null where it ends.
fn own_harts(alloc: Global, own: &OwnOrder) -> Result<Value, AllocError> {
    match &own.end {
        OwnEnd::Ends(_) => Ok(Value::Null),
        OwnEnd::Runs(harts) => list_value(alloc, harts.as_slice()),
    }
}

/// The kernel's own order: the line "own".
pub fn own_value(alloc: Global, own: &OwnOrder, looks: &[Look]) -> Result<Value, AllocError> {
    line(alloc, "own")
        .with("turns", own.turns)
        .with("sleeps", own.sleeps)
        .with("reboots", own.reboots)
        .with_made("looks", own_looks(alloc, own, looks))
        .with("shutdown", own_shutdown(own))
        .with_made("harts", own_harts(alloc, own))
        .value()
}

/// The word for what stopped a search.
impl ToJson for Stop {
    fn to_json(&self, alloc: Global) -> Result<Value, AllocError> {
        let word = match self {
            Stop::Boards => "boards",
            Stop::Memory => "memory",
            Stop::Map => "map",
            Stop::Switches => "preemptions",
            Stop::Lives => "lives",
            Stop::Untold => "untold",
        };
        word.to_value(alloc)
    }
}

/// How many preemptions an order may have; null where that is not bounded.
fn preemptions_value(bound: Bound) -> Value {
    match bound {
        Bound::Preemptions(most) => Value::from(most),
        _ => Value::Null,
    }
}

/// How many power-ons one may have; null where that is not bounded.
fn lives_value(bound: Bound) -> Value {
    match bound {
        Bound::PowerOns(most) => Value::from(most),
        _ => Value::Null,
    }
}

/// With how the orders were bounded.
fn with_bound(line: Object, bound: Bound) -> Object {
    line.with("preemptions", preemptions_value(bound))
        .with("lives", lives_value(bound))
}

/// A word that harts share.
impl ToJson for SharedWord {
    fn to_json(&self, alloc: Global) -> Result<Value, AllocError> {
        Object::new(alloc)
            .with_made("address", hex_value(alloc, self.address))
            .with_made("name", self.name.to_json(alloc))
            .value()
    }
}

/// How far a search went: a line "search".
pub fn search_value(alloc: Global, search: &SearchFacts) -> Result<Value, AllocError> {
    let line = line(alloc, "search").with_made("stopped", search.stop.to_json(alloc));
    with_bound(line, search.bound)
        .with("boards", search.boards)
        .with("images", search.images)
        .with("ends", search.ends)
        .with_made("counting", list_value(alloc, search.counting.as_slice()))
        .with_made("shared", list_value(alloc, search.shared.as_slice()))
        .value()
}

/// Ends that show the same: a line "end".
pub fn end_value(alloc: Global, kind: &EndKind, looks: &[Look]) -> Result<Value, AllocError> {
    line(alloc, "end")
        .with("ends", kind.count)
        .with("expected", kind.is_expected)
        .with("own", kind.is_own)
        .with_made("looks", looks_shown(alloc, looks, &kind.shown))
        .with("shutdown", shutdown_shown(&kind.shown))
        .value()
}

/// How a run of turns ends.
fn run_end_value(alloc: Global, end: &RunEnd) -> Result<Value, AllocError> {
    let word = match end {
        RunEnd::At(place) => place.as_str(),
        RunEnd::Stops => "stops",
        RunEnd::Suspends => "suspends",
        RunEnd::Sleeps => "sleeps",
        RunEnd::ShutsDown(_) => "shutdown",
        RunEnd::Reboots => "reboot",
        RunEnd::Traps => "traps",
    };
    word.to_value(alloc)
}

/// A step of that kind, with no other member.
fn begun(alloc: Global, step: &str) -> Object {
    Object::new(alloc).with("step", step)
}

/// Turns of a hart in a row.
fn turns_value(alloc: Global, hart: u32, turns: u64, end: &RunEnd) -> Result<Value, AllocError> {
    begun(alloc, "turns")
        .with("hart", hart)
        .with("turns", turns)
        .with_made("to", run_end_value(alloc, end))
        .value()
}

/// What a hart asks of the store and is refused.
fn refused_value(
    alloc: Global,
    hart: u32,
    call: StoreCall,
    down: bool,
) -> Result<Value, AllocError> {
    begun(alloc, "refused")
        .with("hart", hart)
        .with("call", call_word(call))
        .with("down", down)
        .value()
}

/// A step of an order.
impl ToJson for OrderStep {
    fn to_json(&self, alloc: Global) -> Result<Value, AllocError> {
        match self {
            OrderStep::PowerOn(false) => begun(alloc, "boot").value(),
            OrderStep::PowerOn(true) => begun(alloc, "resume").value(),
            OrderStep::Turns(hart, turns, end) => turns_value(alloc, *hart, *turns, end),
            OrderStep::Refused(hart, call, down) => refused_value(alloc, *hart, *call, *down),
            OrderStep::Wake => begun(alloc, "wake").value(),
            OrderStep::Cut => begun(alloc, "cut").value(),
        }
    }
}

/// A trap that has no handler.
impl ToJson for TrapFacts {
    fn to_json(&self, alloc: Global) -> Result<Value, AllocError> {
        Object::new(alloc)
            .with_made("scause", hex_value(alloc, self.cause))
            .with("at", self.place.as_str())
            .with_made("stval", hex_value(alloc, self.value))
            .value()
    }
}

/// A hart where a failure shows.
impl ToJson for HartFacts {
    fn to_json(&self, alloc: Global) -> Result<Value, AllocError> {
        Object::new(alloc)
            .with("hart", self.hart)
            .with("state", state_word(self.state))
            .with("at", self.place.as_str())
            .with("pending", self.is_pending)
            .with_made("trap", self.trap.to_json(alloc))
            .value()
    }
}

/// A failure: a line "failure".
pub fn failure_value(alloc: Global, failure: &Failure) -> Result<Value, AllocError> {
    line(alloc, "failure")
        .with("failure", failure_word(failure.kind))
        .with("ends", failure.ends)
        .with_made("order", list_value(alloc, failure.order.as_slice()))
        .with_made("harts", list_value(alloc, failure.harts.as_slice()))
        .value()
}

/// The word of a verdict.
fn verdict_word(verdict: Verdict) -> &'static str {
    match verdict {
        Verdict::Holds => "ok",
        Verdict::Within(_) | Verdict::Lives(_) => "within",
        Verdict::Found => "found",
        Verdict::Open(_) | Verdict::Blank => "open",
    }
}

/// The verdict: the line "verdict".
pub fn verdict_value(alloc: Global, verdict: Verdict, bound: Bound) -> Result<Value, AllocError> {
    with_bound(line(alloc, "verdict"), bound)
        .with("verdict", verdict_word(verdict))
        .with("status", verdict.status())
        .value()
}
