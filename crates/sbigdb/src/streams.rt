//! The talk on the process's own streams. One thread reads, so that an interrupt is heard while turns run.

ghost use Rattle.std.specs.Prelude.{◌≡◌, ℕ, List, [], All, length, codes, if◌then◌else◌, IfOk, OnOk, OnSome};
ghost use Rattle.std.specs.Io.KnownBytes.{Appends};
ghost use Rattle.std.specs.Iterator.{IsFinite};
ghost use Rattle.debug_session.specs.Ats.{IsAt};
ghost use Rattle.script_lang.specs.Lines.{IsLineInRange};
ghost use Rattle.debug_session.specs.Sessions.{size_of, timeline_of};
ghost use Rattle.sbigdb.specs.Talks.{acknowledges_in, session_in};
ghost use Rattle.sbigdb.specs.declared.talk.Talk.{Talk};
ghost use Rattle.sbigdb.specs.Responses.{AnswersAll, AnswersFrom, Begins, Says, next_ack};

use crate::listening::{Signals, Silence, hand_on, listen};
use crate::start::Start;
use crate::talk::Talk;
use crate::told::{PayloadScript, told_payloads};
use crate::wire::{acknowledge, reply_again, send_answer};
use bench_report::{Setting, lane_by_lane};
use board_model::{Refusal, Shape};
use crew::Crew;
use crossbeam_channel::{Receiver, bounded};
use debug_session::{PacketEvent, Session, SessionPlan, packets};
use script_lang::Script;
use std::alloc::{AllocError, Global};
use std::io::{self, BufReader, Write};
use std::sync::Wait;
use std::sync::atomic::Ordering;
use std::thread::{self, Threads};

/// How much is heard at most while turns run: a debugger waits for each answer. Who sends more waits for the talk.
const MOST_HEARD: usize = 64;

/// What is sent for a packet that came damaged.
fn again<C: Crew>(talk: &Talk<'_, C>) -> &'static [u8]
    ensures { result.now ≡ (if acknowledges_in talk.now then codes "-" else []) }
{
    if talk.acknowledges() {
        b"-".as_slice()
    } else {
        b"".as_slice()
    }
}

/// Acknowledges what was heard, where it is a packet, and that is wanted.
fn confirm<W: Write>(
    acknowledges: bool,
    what: &Option<PacketEvent>,
    out: &mut W,
) -> Result<(), Refusal>
    ensures { OnOk result (Appends (W.contents out.old) (W.contents out.new) (next_ack acknowledges what.now)) }
{
    match what {
        Some(PacketEvent::Packet(_)) => acknowledge(acknowledges, out),
        _ => acknowledge(false, out),
    }
}

/// Answers what was heard, which is acknowledged already: a packet; and where packets are acknowledged one that came
/// damaged, and that the last answer did.
fn respond<C: Crew, W: Write>(
    talk: &mut Talk<'_, C>,
    what: PacketEvent,
    signals: &Signals,
    out: &mut W,
) -> Result<(), Refusal>
    requires at { IsAt (size_of (session_in talk.old)) (timeline_of (session_in talk.old)) }
    ensures at { OnOk result (IsAt (size_of (session_in talk.new)) (timeline_of (session_in talk.new))) }
    ensures sent { OnOk result ((said : List ℕ) × Says what talk.old talk.new said
        × Appends (W.contents out.old) (W.contents out.new) said) }
{
    match what {
        PacketEvent::Packet(packet) => {
            let payloads = talk.answer(&packet, &signals.interrupt)?;
            let sent = packets(talk.alloc(), &payloads)?;
            talk.keep(sent);
            // From its first byte on the answer may be said to have come damaged.
            signals.answering.store(false, Ordering::SeqCst);
            send_answer(talk, out)
        }
        PacketEvent::Damaged => {
            let again = again(talk);
            out.write_all(again).map_err(|_| Refusal::Output)
        }
        PacketEvent::Again => reply_again(talk, out),
        _ => Ok(()),
    }
}

/// Answers the first thing that was heard, which is acknowledged already, and then whatever is heard, in its order, until the
/// talk is over or no more is heard.
fn answers<I: Iterator<Item = PacketEvent>, C: Crew, W: Write>(
    talk: &mut Talk<'_, C>,
    first: Option<PacketEvent>,
    heard: I,
    signals: &Signals,
    out: &mut W,
) -> Result<(), Refusal>
    requires at { IsAt (size_of (session_in talk.old)) (timeline_of (session_in talk.old)) }
    requires can { OnSome first (I.can_next heard) }
    requires ends { IsFinite (I.remaining heard) }
    // Each thing heard is answered in its turn, and nothing else is sent.
    ensures sent { OnOk result ((sent : List ℕ) × AnswersFrom first I.next_gives heard talk.old talk.new sent
        × Appends (W.contents out.old) (W.contents out.new) sent) }
{
    let mut heard = heard;
    let mut next = first;
    while let Some(what) = next {
        respond(talk, what, signals, out)?;
        if talk.is_over() {
            return Ok(());
        }
        next = heard.next();
        confirm(talk.acknowledges(), &next, out)?;
    }
    Ok(())
}

/// The talk that begins about the board that a script's lines leave.
fn begin_talk<'a, C: Crew>(
    setting: Setting<'a, C>,
    plan: SessionPlan,
    told: PayloadScript,
) -> Result<Talk<'a, C>, AllocError>
    requires ranges { All (IsLineInRange setting.shape.now) told.lines.items }
    ensures at { IfOk result (λ talk. IsAt (size_of (session_in talk)) (timeline_of (session_in talk))) }
    ensures begins { IfOk result (Begins setting.entry.shape.now plan told.begins told.lines.items) }
{
    let PayloadScript { lines, begins } = told;
    let session = Session::new(setting, plan, begins, lines)?;
    let talk = Talk::new(session);
    Ok(talk)
}

/// The talk about the board that a script's lines leave. The first packet is acknowledged before the lines are run, since
/// a debugger asks again where that takes long.
fn discuss<I: Iterator<Item = PacketEvent>, C: Crew, W: Write>(
    setting: Setting<'_, C>,
    plan: SessionPlan,
    told: PayloadScript,
    heard: I,
    signals: &Signals,
    out: &mut W,
) -> Result<(), Refusal>
    requires ranges { All (IsLineInRange setting.shape.now) told.lines.items }
    requires four { length told.begins ≡ 4 }
    requires can { I.can_next heard }
    requires ends { IsFinite (I.remaining heard) }
    // The talk begins there, and what is sent is the answers to whatever is heard.
    ensures sent { OnOk result ((first : Talk C) × (last : Talk C) × (sent : List ℕ)
        × Begins setting.entry.shape.now plan told.begins told.lines.items first
        × AnswersAll I.next_gives heard first last sent × Appends (W.contents out.old) (W.contents out.new) sent) }
{
    let mut heard = heard;
    let first = heard.next();
    let Ok(()) = confirm(true, &first, out) else {
        return Err(Refusal::Output);
    };
    let Ok(mut talk) = begin_talk(setting, plan, told) else {
        return Err(Refusal::Memory);
    };
    answers(&mut talk, first, heard, signals, out)
}

/// The shape of the board, and the script with its payloads told.
fn script_told(alloc: Global, start: Start) -> Result<(Shape, PayloadScript), Refusal>
    requires ranges { All (IsLineInRange start.script.shape) start.script.lines.items }
    requires four { length start.payloads ≡ 4 }
    ensures ranges { IfOk result (λ told. All (IsLineInRange told.0) told.1.lines.items) }
    ensures four { IfOk result (λ told. length told.1.begins ≡ 4) }
{
    let Start { script, payloads } = start;
    let Script { shape, lines } = script;
    let told = told_payloads(alloc, lines, &payloads)?;
    Ok((shape, told))
}

/// The session and its talk. Nothing more is heard after it.
fn serve<R: Threads + Wait + Sync>(
    rt: &R,
    host: &HostRuntime,
    start: Start,
    plan: SessionPlan,
    heard: Receiver<PacketEvent>,
    signals: &Signals,
) -> Result<(), Refusal>
    requires ranges { All (IsLineInRange start.script.shape) start.script.lines.items }
    requires four { length start.payloads ≡ 4 }
{
    let alloc = host.alloc();
    let (shape, told) = script_told(alloc, start)?;
    let crew = lane_by_lane::<R>();
    let setting = Setting {
        alloc,
        crew: &crew,
        shape: &shape,
    };
    let mut out = io::writer(host);
    discuss(setting, plan, told, heard.iter(rt), signals, &mut out)
}

/// The whole talk. Refused `Memory`, to what listens too, and `Output` where the debugger does not read.
pub fn converse<R: Threads + Wait + Sync>(
    host: &HostRuntime,
    rt: &R,
    start: Start,
    plan: SessionPlan,
) -> Result<(), Refusal>
    requires ranges { All (IsLineInRange start.script.shape) start.script.lines.items }
    requires four { length start.payloads ≡ 4 }
{
    let alloc = host.alloc();
    let signals = Signals::new();
    let signals = &signals;
    let Ok((sender, receiver)) = bounded::<PacketEvent, _>(alloc, MOST_HEARD) else {
        return Err(Refusal::Memory);
    };
    thread::scope(
        thread::scope_env(),
        rt,
        move |scope| -> Result<(), Refusal>
            requires { All (IsLineInRange start.script.shape) start.script.lines.items × (length start.payloads ≡ 4) }
        {
            let reader = scope.spawn(move || -> Silence {
                let Ok(input) = BufReader::new(alloc, host.stdin()) else {
                    return Silence::Memory;
                };
                listen(alloc, input, |what| hand_on(rt, what, &sender, signals))
            });
            let Ok(reader) = reader else {
                return Err(Refusal::Memory);
            };
            serve(rt, host, start, plan, receiver, signals)?;
            match reader.join(rt) {
                Silence::Memory => Err(Refusal::Memory),
                _ => Ok(()),
            }
        },
    )
}
