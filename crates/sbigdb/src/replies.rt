//! What is replied to a request that moves nothing.

ghost use Rattle.std.specs.Prelude.{◌≡◌, ◌+◌, ◌++◌, ◌∷◌, [], Some, codes, IfOk};
ghost use Rattle.debug_session.specs.Packets.{digit_of};
ghost use Rattle.debug_session.specs.Replies.{memory_map_text, part_text, registers_text};
ghost use Rattle.sbigdb.specs.Texts.{threads_object};
ghost use Rattle.debug_session.specs.Lives.{memory_in, register_in};
ghost use Rattle.debug_session.specs.Sessions.{bench_of, machine_of_session, size_of};
ghost use Rattle.sbigdb.specs.Replies.{features_text, hart_named, memory_reply, register_reply, thread_reply, IsLookReply, IsPart};
ghost use Rattle.sbigdb.specs.Stops.{stop_text};

use crate::stops::stop_text;
use crate::texts::threads_object;
use board_model::{HartId, Shape};
use crew::Crew;
use debug_session::{
    DESCRIPTION, GdbLook, Object, REGISTERS, Session, Stop, digit, memory_map, part, put_hex,
    put_register, threads,
};
use std::alloc::{AllocError, Global};

/// The most bytes of a packet, as GDB is told.
const PACKET_BYTES: usize = 0x4000;

/// A payload with that text.
pub(crate) fn payload(alloc: Global, text: &[u8]) -> Result<Vec<u8>, AllocError>
    ensures { IfOk result (λ v. v.items ≡ text.now) }
{
    Vec::from_slice(alloc, text)
}

/// All registers of a hart, in the order of their numbers.
fn registers<C: Crew>(session: &mut Session<'_, C>, hart: HartId) -> Result<Vec<u8>, AllocError>
    ensures same { session.new ≡ session.old }
    ensures text { IfOk result (λ v. v.items
        ≡ registers_text 42 (λ n. register_in hart n (machine_of_session session.old))) }
{
    let mut out = Vec::new(session.setting().alloc);
    for number in 0..REGISTERS {
        let value = session.register(hart, number);
        put_register(&mut out, number, value)?;
    }
    Ok(out)
}

/// One register of a hart.
fn register<C: Crew>(
    session: &mut Session<'_, C>,
    hart: HartId,
    number: u64,
) -> Result<Vec<u8>, AllocError>
    ensures same { session.new ≡ session.old }
    ensures text { IfOk result (λ v. v.items
        ≡ register_reply number (register_in hart number (machine_of_session session.old))) }
{
    let alloc = session.setting().alloc;
    if REGISTERS <= number {
        return payload(alloc, b"E01");
    }
    let value = session.register(hart, number);
    let mut out = Vec::new(alloc);
    put_register(&mut out, number, value)?;
    Ok(out)
}

/// Bytes of memory, where all of them lie in RAM of a board that is on; else the error 0e, and 01 where none are asked for.
fn memory<C: Crew>(
    session: &Session<'_, C>,
    address: u64,
    count: u64,
) -> Result<Vec<u8>, AllocError>
    ensures { IfOk result (λ v. v.items ≡ memory_reply (memory_in address count (machine_of_session session.now))) }
{
    let alloc = session.setting().alloc;
    match debug_session::memory(session.bench(), address, count) {
        Some(bytes) if bytes.is_empty() => payload(alloc, b"E01"),
        Some(bytes) => {
            let mut out = Vec::new(alloc);
            put_hex(&mut out, bytes)?;
            Ok(out)
        }
        None => payload(alloc, b"E0e"),
    }
}

/// The hart of a thread's number, which is one more than its own.
pub(crate) fn hart_of(shape: &Shape, thread: u64) -> Option<HartId>
    ensures { result ≡ hart_named shape.now thread }
{
    match thread.checked_sub(1) {
        Some(number) => shape.hart(number),
        None => None,
    }
}

/// Whether there is that thread.
fn alive(alloc: Global, shape: &Shape, thread: u64) -> Result<Vec<u8>, AllocError>
    ensures { IfOk result (λ v. v.items ≡ thread_reply shape.now thread) }
{
    match hart_of(shape, thread) {
        Some(_) => payload(alloc, b"OK"),
        None => payload(alloc, b"E01"),
    }
}

/// The thread that is shown.
fn current(alloc: Global, hart: HartId) -> Result<Vec<u8>, AllocError>
    ensures { IfOk result (λ v. v.items ≡ codes "QC" ++ digit_of (hart + 1) ∷ []) }
{
    let mut out = Vec::from_slice(alloc, b"QC")?;
    out.push(digit(hart.number() as u8 + 1))?;
    Ok(out)
}

/// A part of the memory map.
fn map_part(alloc: Global, shape: &Shape, offset: u64, count: u64) -> Result<Vec<u8>, AllocError>
    ensures { IfOk result (λ v. v.items ≡ part_text (memory_map_text shape.now) offset count) }
{
    let text = memory_map(alloc, shape)?;
    part(alloc, text.as_bytes(), offset, count)
}

/// A part of the list of threads.
fn threads_part<C: Crew>(
    session: &mut Session<'_, C>,
    offset: u64,
    count: u64,
) -> Result<Vec<u8>, AllocError>
    ensures same { session.new ≡ session.old }
    ensures text { IfOk result (λ v. v.items ≡ part_text (threads_object (size_of session.old) (bench_of session.old)) offset count) }
{
    let text = threads_object(session)?;
    part(session.setting().alloc, text.as_bytes(), offset, count)
}

/// A part of an object.
fn part_of<C: Crew>(
    session: &mut Session<'_, C>,
    object: Object,
    offset: u64,
    count: u64,
) -> Result<Vec<u8>, AllocError>
    ensures same { session.new ≡ session.old }
    ensures text { IfOk result (λ v. IsPart object (size_of session.old) (bench_of session.old) offset count v.items) }
{
    let alloc = session.setting().alloc;
    match object {
        Object::Description => part(alloc, DESCRIPTION.as_bytes(), offset, count),
        Object::MemoryMap => map_part(alloc, session.setting().shape, offset, count),
        Object::Threads => threads_part(session, offset, count),
    }
}

/// What this stub can.
fn features(alloc: Global) -> Result<Vec<u8>, AllocError>
    ensures { IfOk result (λ v. v.items ≡ features_text) }
{
    let text = format!(in alloc;
        "PacketSize={PACKET_BYTES:x};QStartNoAckMode+;qXfer:features:read+;qXfer:memory-map:read+;qXfer:threads:read+;\
        ReverseStep+;ReverseContinue+;vContSupported+;swbreak+"
    )?;
    payload(alloc, text.as_bytes())
}

/// The text that a request which moves nothing is replied, of a session whose hart is shown and that stands so.
pub(crate) fn text_of<C: Crew>(
    session: &mut Session<'_, C>,
    hart: HartId,
    last: Stop,
    takes_swbreak: bool,
    asked: GdbLook,
) -> Result<Vec<u8>, AllocError>
    requires sends { asked ≡ GdbLook.Kill → ⊥ }
    ensures same { session.new ≡ session.old }
    ensures replied { IfOk result (λ v. IsLookReply asked (size_of session.old) hart (bench_of session.old)
        (stop_text last takes_swbreak) (Some v.items)) }
{
    let alloc = session.setting().alloc;
    let shape = session.setting().shape;
    match asked {
        GdbLook::Reason => stop_text(alloc, last, takes_swbreak),
        GdbLook::Registers => registers(session, hart),
        GdbLook::Register(number) => register(session, hart, number),
        GdbLook::Memory(address, count) => memory(session, address, count),
        GdbLook::Show(thread) | GdbLook::Run(thread) | GdbLook::IsAlive(thread) => {
            alive(alloc, shape, thread)
        }
        GdbLook::Supports => features(alloc),
        GdbLook::Part(object, offset, count) => part_of(session, object, offset, count),
        GdbLook::CurrentThread => current(alloc, hart),
        GdbLook::IsAttached => payload(alloc, b"1"),
        GdbLook::FirstThreads => Ok(threads(alloc, shape.harts())?),
        GdbLook::MoreThreads => payload(alloc, b"l"),
        GdbLook::Actions => payload(alloc, b"vCont;c;C;s;S;r"),
        GdbLook::RunSelected
        | GdbLook::AnyThread
        | GdbLook::SetPoint(_)
        | GdbLook::ClearPoint(_)
        | GdbLook::SetWatch(_, _, _)
        | GdbLook::ClearWatch(_, _, _)
        | GdbLook::NoAcks
        | GdbLook::Detach => payload(alloc, b"OK"),
        GdbLook::Write | GdbLook::Malformed => payload(alloc, b"E01"),
        GdbLook::Unknown | GdbLook::Kill => payload(alloc, b""),
    }
}
