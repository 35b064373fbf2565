//! Packets, read as requests.

ghost use Rattle.std.specs.Prelude.{◌≡◌};
ghost use Rattle.debug_session.specs.Asked.{alone, backward, by_letter, by_number, by_numbers, choice, chosen, chosen_thread, is_any, is_point, is_write, looked, moved, part, placed, plain_query, point, point_at, query, request_of, setting, talk, transfer, unchosen, verbose, watching};

use crate::fields::{is_text, number, strip_prefix, two_numbers};
use crate::requests::{GdbLook, GdbRequest, Move, Object, Watching};

/// What has nothing after it.
fn alone(asked: GdbRequest, rest: &[u8]) -> GdbRequest
    ensures { result ≡ alone asked rest.now }
{
    if rest.is_empty() {
        asked
    } else {
        GdbRequest::Look(GdbLook::Unknown)
    }
}

/// Whether a word means any thread.
fn is_any(word: &[u8]) -> bool
    ensures { result ≡ is_any word.now }
{
    is_text(word, b"0") || is_text(word, b"-1")
}

/// `H` of any thread, with its kind: by `c` none runs but the one that is shown.
fn unchosen(kind: u8) -> GdbRequest
    ensures { result ≡ unchosen kind }
{
    if kind == b'c' {
        GdbRequest::Look(GdbLook::RunSelected)
    } else {
        GdbRequest::Look(GdbLook::AnyThread)
    }
}

/// `H` of a thread, with its kind: by `g` it is shown from then on, and by `c` it runs.
fn chosen_thread(kind: u8, thread: u64) -> GdbRequest
    ensures { result ≡ chosen_thread kind thread }
{
    match kind {
        b'g' => GdbRequest::Look(GdbLook::Show(thread)),
        b'c' => GdbRequest::Look(GdbLook::Run(thread)),
        _ => GdbRequest::Look(GdbLook::IsAlive(thread)),
    }
}

/// `H` with its kind.
fn chosen(kind: u8, thread: &[u8]) -> GdbRequest
    ensures { result ≡ chosen kind thread.now }
{
    if is_any(thread) {
        return unchosen(kind);
    }
    match number(thread) {
        None => GdbRequest::Look(GdbLook::Malformed),
        Some(thread) => chosen_thread(kind, thread),
    }
}

/// `H`
fn choice(rest: &[u8]) -> GdbRequest
    ensures { result ≡ choice rest.now }
{
    match rest.split_first() {
        None => GdbRequest::Look(GdbLook::Unknown),
        Some((kind, thread)) => chosen(*kind, thread),
    }
}

/// Whether a kind of point is there: breakpoints, and watches.
fn is_point(kind: u8) -> bool
    ensures { result ≡ is_point kind }
{
    b'0' <= kind && kind <= b'4'
}

/// What a kind of point watches, if it does.
fn watching(kind: u8) -> Option<Watching>
    ensures { result ≡ watching kind }
{
    match kind {
        b'2' => Some(Watching::Writes),
        b'3' => Some(Watching::Reads),
        b'4' => Some(Watching::Accesses),
        _ => None,
    }
}

/// A point that is set, or cleared.
fn point_at(sets: bool, kind: u8, address: u64, count: u64) -> GdbRequest
    ensures { result ≡ point_at sets kind address count }
{
    match (watching(kind), sets) {
        (Some(what), true) => GdbRequest::Look(GdbLook::SetWatch(what, address, count)),
        (Some(what), false) => GdbRequest::Look(GdbLook::ClearWatch(what, address, count)),
        (None, true) => GdbRequest::Look(GdbLook::SetPoint(address)),
        (None, false) => GdbRequest::Look(GdbLook::ClearPoint(address)),
    }
}

/// A point of that kind at its place.
fn placed(sets: bool, kind: u8, place: &[u8]) -> GdbRequest
    ensures { result ≡ placed sets kind place.now }
{
    if !is_point(kind) {
        return GdbRequest::Look(GdbLook::Unknown);
    }
    match two_numbers(place) {
        None => GdbRequest::Look(GdbLook::Malformed),
        Some((address, count)) => point_at(sets, kind, address, count),
    }
}

/// `Z` and `z`.
fn point(sets: bool, rest: &[u8]) -> GdbRequest
    ensures { result ≡ point sets rest.now }
{
    let Some((kind, rest)) = rest.split_first() else {
        return GdbRequest::Look(GdbLook::Unknown);
    };
    match strip_prefix(rest, b",") {
        None => GdbRequest::Look(GdbLook::Unknown),
        Some(place) => placed(sets, *kind, place),
    }
}

/// A part of an object: `OFFSET,LENGTH`.
fn part(object: Object, place: &[u8]) -> GdbRequest
    ensures { result ≡ part object place.now }
{
    match two_numbers(place) {
        None => GdbRequest::Look(GdbLook::Malformed),
        Some((offset, count)) => GdbRequest::Look(GdbLook::Part(object, offset, count)),
    }
}

/// `qXfer`
fn transfer(object: &[u8]) -> GdbRequest
    ensures { result ≡ transfer object.now }
{
    if let Some(place) = strip_prefix(object, b"features:read:target.xml:") {
        return part(Object::Description, place);
    }
    if let Some(place) = strip_prefix(object, b"memory-map:read::") {
        return part(Object::MemoryMap, place);
    }
    match strip_prefix(object, b"threads:read::") {
        None => GdbRequest::Look(GdbLook::Unknown),
        Some(place) => part(Object::Threads, place),
    }
}

/// `q` of a word without arguments, of which `qAttached` may have one.
fn plain_query(word: &[u8]) -> GdbRequest
    ensures { result ≡ plain_query word.now }
{
    if is_text(word, b"C") {
        return GdbRequest::Look(GdbLook::CurrentThread);
    }
    if is_text(word, b"fThreadInfo") {
        return GdbRequest::Look(GdbLook::FirstThreads);
    }
    if is_text(word, b"sThreadInfo") {
        return GdbRequest::Look(GdbLook::MoreThreads);
    }
    match strip_prefix(word, b"Attached") {
        None => GdbRequest::Look(GdbLook::Unknown),
        Some(_) => GdbRequest::Look(GdbLook::IsAttached),
    }
}

/// `q`
fn query(word: &[u8]) -> GdbRequest
    ensures { result ≡ query word.now }
{
    if let Some(_) = strip_prefix(word, b"Supported") {
        return GdbRequest::Look(GdbLook::Supports);
    }
    if let Some(object) = strip_prefix(word, b"Xfer:") {
        return transfer(object);
    }
    match strip_prefix(word, b"Rcmd,") {
        None => plain_query(word),
        Some(_) => GdbRequest::Move(Move::Monitor),
    }
}

/// `v`
fn verbose(word: &[u8]) -> GdbRequest
    ensures { result ≡ verbose word.now }
{
    if is_text(word, b"Cont?") {
        return GdbRequest::Look(GdbLook::Actions);
    }
    if let Some(_) = strip_prefix(word, b"Cont;") {
        return GdbRequest::Move(Move::Resume);
    }
    match strip_prefix(word, b"Kill") {
        None => GdbRequest::Look(GdbLook::Unknown),
        Some(_) => GdbRequest::Look(GdbLook::Detach),
    }
}

/// `b`
fn backward(word: &[u8]) -> GdbRequest
    ensures { result ≡ backward word.now }
{
    if is_text(word, b"s") {
        return GdbRequest::Move(Move::StepBack);
    }
    if is_text(word, b"c") {
        return GdbRequest::Move(Move::GoBack);
    }
    GdbRequest::Look(GdbLook::Unknown)
}

/// `Q`
fn setting(word: &[u8]) -> GdbRequest
    ensures { result ≡ setting word.now }
{
    if is_text(word, b"StartNoAckMode") {
        GdbRequest::Look(GdbLook::NoAcks)
    } else {
        GdbRequest::Look(GdbLook::Unknown)
    }
}

/// The letters that ask for what stands, or else that other request.
fn looked(letter: u8, rest: &[u8], other: GdbRequest) -> GdbRequest
    ensures { result ≡ looked letter rest.now other }
{
    match letter {
        b'?' => alone(GdbRequest::Look(GdbLook::Reason), rest),
        b'g' => alone(GdbRequest::Look(GdbLook::Registers), rest),
        b'p' => {
            match number(rest) {
                None => GdbRequest::Look(GdbLook::Malformed),
                Some(number) => GdbRequest::Look(GdbLook::Register(number)),
            }
        }
        b'm' => {
            match two_numbers(rest) {
                None => GdbRequest::Look(GdbLook::Malformed),
                Some((address, count)) => GdbRequest::Look(GdbLook::Memory(address, count)),
            }
        }
        b'H' => choice(rest),
        b'T' => {
            match number(rest) {
                None => GdbRequest::Look(GdbLook::Malformed),
                Some(thread) => GdbRequest::Look(GdbLook::IsAlive(thread)),
            }
        }
        _ => other,
    }
}

/// The letters that move the board, or else that other request.
fn moved(letter: u8, rest: &[u8], other: GdbRequest) -> GdbRequest
    ensures { result ≡ moved letter rest.now other }
{
    match letter {
        b's' => alone(GdbRequest::Move(Move::Step), rest),
        b'c' => alone(GdbRequest::Move(Move::Go), rest),
        b'b' => backward(rest),
        _ => other,
    }
}

/// Whether a letter asks that registers or memory be written.
fn is_write(letter: u8) -> bool
    ensures { result ≡ is_write letter }
{
    letter == b'G' || letter == b'P' || letter == b'M'
}

/// The letters of the talk itself.
fn talk(letter: u8, rest: &[u8]) -> GdbRequest
    ensures { result ≡ talk letter rest.now }
{
    match letter {
        b'Z' => point(true, rest),
        b'z' => point(false, rest),
        b'D' => GdbRequest::Look(GdbLook::Detach),
        b'k' => GdbRequest::Look(GdbLook::Kill),
        b'q' => query(rest),
        b'v' => verbose(rest),
        b'Q' => setting(rest),
        _ => GdbRequest::Look(GdbLook::Unknown),
    }
}

/// What a packet asks that begins with that letter.
fn by_letter(letter: u8, rest: &[u8]) -> GdbRequest
    ensures { result ≡ by_letter letter rest.now }
{
    if is_write(letter) {
        return GdbRequest::Look(GdbLook::Write);
    }
    looked(letter, rest, moved(letter, rest, talk(letter, rest)))
}

/// What a packet asks.
pub fn request_of(packet: &[u8]) -> GdbRequest
    ensures { result ≡ request_of packet.now }
{
    match packet.split_first() {
        None => GdbRequest::Look(GdbLook::Unknown),
        Some((letter, rest)) => by_letter(*letter, rest),
    }
}
