//! Listening: what comes on an input is handed on to the talk.

ghost use Rattle.std.specs.Prelude.{◌≡◌, true, false};
ghost use Rattle.sbigdb.specs.Hearings.{HandedOn, ends_talk, is_last};

use crossbeam_channel::Sender;
use debug_session::{Decoder, GdbLook, GdbRequest, PacketEvent, request_of};
use std::alloc::Global;
use std::io::Read;
use std::sync::Wait;
use std::sync::atomic::{AtomicBool, Ordering};

/// Why no more is heard.
#[derive(Drop)]
pub(crate) enum Silence {
    /// The input has ended.
    InputEnded,
    /// A read of it failed.
    InputFailed,
    /// Memory was refused.
    Memory,
    /// What was heard last was said to be the last that is wanted.
    Unwanted,
}

/// What both threads tell one another beside what is handed on.
#[derive(Drop)]
pub(crate) struct Signals {
    /// The debugger asks that what runs stop.
    pub(crate) interrupt: AtomicBool,
    /// A packet was handed on, and nothing of its answer is sent yet.
    pub(crate) answering: AtomicBool,
}

impl Signals {
    /// Nothing is asked, and nothing is to be answered.
    pub(crate) fn new() -> Signals {
        Signals {
            interrupt: AtomicBool::new(false),
            answering: AtomicBool::new(false),
        }
    }
}

/// Whether a request ends the talk.
fn ends_talk(asked: GdbRequest) -> bool
    ensures { result ≡ ends_talk asked }
{
    match asked {
        GdbRequest::Look(GdbLook::Detach) => true,
        GdbRequest::Look(GdbLook::Kill) => true,
        _ => false,
    }
}

/// Hands on what was heard, but for an interrupt, which is told at once: whether more is to be read. That an answer came
/// damaged is passed over while nothing of it is sent: the debugger grew impatient.
pub(crate) fn hand_on<R: Wait>(
    rt: &R,
    what: PacketEvent,
    heard: &Sender<PacketEvent>,
    signals: &Signals,
) -> bool
    // Nothing is read after what ends the talk.
    ensures last { is_last what ≡ true → result ≡ false }
    // An interrupt ends nothing but the run.
    ensures goes_on { what ≡ PacketEvent.Interrupt → result ≡ true }
{
    match what {
        PacketEvent::Interrupt => {
            signals.interrupt.store(true, Ordering::SeqCst);
            true
        }
        // That an answer came well says nothing that the talk needs.
        PacketEvent::Nothing | PacketEvent::Received => true,
        PacketEvent::Again => {
            signals.answering.load(Ordering::SeqCst) || heard.send(rt, PacketEvent::Again).is_ok()
        }
        PacketEvent::Packet(packet) => {
            let last = ends_talk(request_of(&packet));
            signals.answering.store(true, Ordering::SeqCst);
            heard.send(rt, PacketEvent::Packet(packet)).is_ok() && !last
        }
        PacketEvent::Damaged => heard.send(rt, PacketEvent::Damaged).is_ok(),
    }
}

/// Reads an input, and hands on what its bytes complete, in its order, until it ends or fails, no more is wanted, or memory
/// is refused. Says which. A read that was interrupted is made again.
pub(crate) fn listen<I: Read + Drop, F: FnMut(PacketEvent) -> bool>(
    alloc: Global,
    input: I,
    mut give: F,
) -> Silence
    requires { F.IsAlwaysCallable give }
    ensures { HandedOn F.step result give (I.remaining input) }
{
    let mut decoder = Decoder::new(alloc);
    for byte in input.bytes() {
        let Ok(byte) = byte else {
            return Silence::InputFailed;
        };
        let Ok(what) = decoder.take(byte) else {
            return Silence::Memory;
        };
        if !give(what) {
            return Silence::Unwanted;
        }
    }
    Silence::InputEnded
}
