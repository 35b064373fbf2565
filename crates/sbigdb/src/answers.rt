//! What is answered to a packet.

ghost use Rattle.std.specs.Prelude.{◌≡◌, ◌<◌, true, false, [], None, map, IfOk, OnOk};
ghost use Rattle.debug_session.specs.Ats.{IsAt};
ghost use Rattle.debug_session.specs.Sessions.{bench_of, size_of, stops_of, timeline_of, KeepsPlan, KeepsRest};
ghost use Rattle.sbigdb.specs.Replies.{Replied, Shown};
ghost use Rattle.sbigdb.specs.Answers.{IsAllBut};
ghost use Rattle.sbigdb.specs.Kept.{IsTalk, Keeps, Listed};
ghost use Rattle.sbigdb.specs.Moved.{Moved};
ghost use Rattle.sbigdb.specs.Stops.{stop_text};
ghost use Rattle.sbigdb.specs.Talks.{acknowledges_in, hart_in, is_over_in, last_in, runner_in, selected_in, sent_in, session_in, takes_in};
ghost use Rattle.debug_session.specs.Asked.{request_of};
ghost use Rattle.debug_session.specs.declared.requests.GdbLook.{GdbLook};
ghost use Rattle.debug_session.specs.declared.requests.GdbRequest.TheVariants as asks;

use crate::replies::payload;
use crate::talk::Talk;
use board_model::{HartId, Shape};
use crew::Crew;
use debug_session::{GdbRequest, HaltReason, Move, Session, Stop, request_of};
use std::alloc::{AllocError, Global};
use std::sync::atomic::AtomicBool;

/// The payloads of packets to be sent, in their order.
pub type PacketPayloads = Vec<Vec<u8>>;

/// Hart 0, which each board has.
fn first_hart(shape: &Shape) -> HartId
    ensures first { result ≡ 0 }
    ensures there { result < shape.now.harts }
{
    let harts = shape.harts();
    prove!(0 < harts);
    shape.hart(0).unwrap()
}

impl<'a, C: Crew> Talk<'a, C> {
    /// A talk about a session, whose hart 0 is shown and selected.
    pub fn new(session: Session<'a, C>) -> Talk<'a, C>
        ensures session { session_in result ≡ session.entry }
        ensures first { hart_in result ≡ 0 }
        ensures runner { runner_in result ≡ None }
        ensures selected { selected_in result ≡ 0 }
        ensures last { last_in result ≡ record { hart = 0; halt = HaltReason.Stepped } }
        ensures acknowledges { acknowledges_in result ≡ true }
        ensures ongoing { is_over_in result ≡ false }
        ensures sent { sent_in result ≡ [] }
    {
        let hart = first_hart(session.setting().shape);
        let alloc = session.setting().alloc;
        let last = Stop {
            hart,
            halt: HaltReason::Stepped,
        };
        Talk {
            session,
            hart,
            runner: None,
            selected: hart,
            last,
            takes_swbreak: false,
            acknowledges: true,
            is_over: false,
            sent: Vec::new(alloc),
        }
    }

    /// Answers a packet: the payloads to be sent, in their order. The interrupt stops what goes on.
    ///
    /// Where memory is refused the talk is of no use.
    pub fn answer(
        &mut self,
        packet: &[u8],
        interrupt: &AtomicBool,
    ) -> Result<PacketPayloads, AllocError>
        requires at { IsAt (size_of (session_in self.old)) (timeline_of (session_in self.old)) }
        ensures at { OnOk result (IsAt (size_of (session_in self.new)) (timeline_of (session_in self.new))) }
        ensures rest { KeepsPlan (session_in self.old) (session_in self.new) }
        // Looking disturbs nothing: whatever is no step, no way on or back and no line leaves bench and history.
        ensures looks { (look : GdbLook) → request_of packet.now ≡ asks.Look look
            → timeline_of (session_in self.new) ≡ timeline_of (session_in self.old) }
        // What is shown is the board's.
        ensures replied { IfOk result (λ out. Replied (request_of packet.now) (size_of (session_in self.old)) (hart_in self.old)
            (bench_of (session_in self.old)) (stop_text (last_in self.old) (takes_in self.old)) (map (λ v. v.items) out.items)) }
        // A hart is shown until another one is asked for, or a stop shows it.
        ensures shown { OnOk result (Shown (request_of packet.now) (size_of (session_in self.old)) (hart_in self.old)
            (hart_in self.new)) }
        // What moves the board changes its history so, and tells its stop last.
        ensures moved { IfOk result (λ out. Moved (request_of packet.now) packet.now self.old self.new
            (map (λ v. v.items) out.items)) }
        // A breakpoint or a watchpoint is set or taken away where a packet names it, and no other.
        ensures listed { OnOk result (Listed (request_of packet.now) (stops_of (session_in self.old))
            (stops_of (session_in self.new))) }
        // The talk stays as it was, but for what the packet says of it.
        ensures kept { OnOk result (Keeps (request_of packet.now) self.old self.new) }
    {
        match request_of(packet) {
            GdbRequest::Look(asked) => self.answer_look(asked, packet),
            GdbRequest::Move(asked) => self.answer_move(asked, packet, interrupt),
        }
    }

    /// Answers what may move the board: texts for the console, and then the stop.
    fn answer_move(
        &mut self,
        asked: Move,
        packet: &[u8],
        interrupt: &AtomicBool,
    ) -> Result<PacketPayloads, AllocError>
        requires at { IsAt (size_of self.old.session) (timeline_of self.old.session) }
        ensures at { OnOk result (IsAt (size_of self.new.session) (timeline_of self.new.session)) }
        ensures rest { KeepsRest self.old.session self.new.session }
        ensures moved { IfOk result (λ out. Moved (asks.Move asked) packet.now self.old self.new (map (λ v. v.items) out.items)) }
        ensures talk { IsTalk self.new.last self.old.runner self.old.takes_swbreak self.old.acknowledges self.old.is_over self.new }
    {
        let mut out = Vec::new(self.alloc());
        let answer = self.act(asked, packet, interrupt, &mut out)?;
        out.push(answer)?;
        Ok(out)
    }

    /// Keeps what is sent in answer to a packet, since it may be wanted again.
    pub(crate) fn keep(&mut self, sent: Vec<u8>)
        ensures rest { IsAllBut self.old self.new }
        ensures sent { sent_in self.new ≡ sent.items }
    {
        self.sent = sent;
    }

    /// Whether packets are acknowledged.
    pub fn acknowledges(&self) -> bool
        ensures { result ≡ acknowledges_in self.now }
    {
        self.acknowledges
    }

    /// Whether the debugger has left.
    pub fn is_over(&self) -> bool
        ensures { result ≡ is_over_in self.now }
    {
        self.is_over
    }

    /// Where memory comes from.
    pub(crate) fn alloc(&self) -> Global {
        self.session.setting().alloc
    }

    /// A payload with that text.
    pub(crate) fn said(&self, text: &[u8]) -> Result<Vec<u8>, AllocError>
        ensures { IfOk result (λ v. v.items ≡ text.now) }
    {
        payload(self.alloc(), text)
    }
}
