//! Requests that may move the board.

ghost use Rattle.std.specs.Prelude.{◌≡◌, ◌<◌, [], codes, map, IfOk, OnOk};
ghost use Rattle.debug_session.specs.Ats.{IsAt};
ghost use Rattle.debug_session.specs.Sessions.{size_of, timeline_of, KeepsRest};
ghost use Rattle.sbigdb.specs.Kept.{IsTalk, StaysOpen};
ghost use Rattle.sbigdb.specs.Moved.{IsTold, MovedBy, ResumedBy, Took};
ghost use Rattle.sbigdb.specs.Talks.{runs_in};
ghost use Rattle.debug_session.specs.Fields.{stripped};

use crate::answers::PacketPayloads;
use crate::asked::VCont;
use crate::resumes::asked_by;
use crate::stops::{idle_text, stop_text, told_of};
use crate::talk::Talk;
use crate::texts::{report_text, tell};
use board_model::HartId;
use crew::Crew;
use debug_session::{HaltReason, Move, Session, Stop};
use report_lines::Answer;
use script_lang::{Line, LineText};
use std::alloc::{AllocError, Global};
use std::sync::atomic::AtomicBool;

/// How a hart, or harts from it on, move the board to a stop.
#[derive(Clone, Copy, Drop)]
pub(crate) enum Course {
    /// It makes one turn.
    Step,
    /// It makes turns while its pc lies from the first address on and before the second.
    StepWithin(u64, u64),
    /// These harts go on.
    Go([bool; 8]),
    /// Back before its last turn.
    StepBack,
    /// Back to the last halt.
    GoBack,
}

/// Moves the board: where it stands then. What ended the run is told.
fn taken<C: Crew>(
    session: &mut Session<'_, C>,
    hart: HartId,
    course: Course,
    interrupt: &AtomicBool,
    told: &mut Vec<Answer>,
) -> Result<Stop, AllocError>
    requires at { IsAt (size_of session.old) (timeline_of session.old) }
    requires hart { hart < (size_of session.old).harts }
    ensures at { OnOk result (IsAt (size_of session.new) (timeline_of session.new)) }
    ensures rest { KeepsRest session.old session.new }
    ensures took { IfOk result (λ stop. Took course hart stop session.old session.new) }
    ensures there { IfOk result (λ stop. stop.hart < (size_of session.old).harts) }
{
    match course {
        Course::Step => session.step(hart, told),
        Course::StepWithin(first, end) => session.step_within(hart, first, end, interrupt, told),
        Course::Go(harts) => session.go(hart, &harts, interrupt, told),
        Course::StepBack => session.step_back(hart),
        Course::GoBack => session.go_back(hart, interrupt),
    }
}

/// Tells the line with which the script goes on, where there is one.
fn tell_next(
    alloc: Global,
    line: Option<&Line>,
    out: &mut PacketPayloads,
) -> Result<(), AllocError> {
    let Some(line) = line else {
        return Ok(());
    };
    let word = LineText(line);
    let text = format!(in alloc; "the script goes on with: {word}\n")?;
    tell(alloc, text.as_bytes(), out)
}

/// Tells the report of what ended a run, and what GDB has no words for.
fn tell_stop<C: Crew>(
    session: &mut Session<'_, C>,
    course: Course,
    stop: &Stop,
    told: &[Answer],
    out: &mut PacketPayloads,
) -> Result<(), AllocError>
    ensures { session.new ≡ session.old }
{
    let alloc = session.setting().alloc;
    let report = report_text(alloc, told)?;
    tell(alloc, report.as_bytes(), out)?;
    match (stop.halt, course) {
        (HaltReason::AtLine, _) => tell_next(alloc, session.next_line(), out),
        (HaltReason::Idle, Course::Step | Course::StepWithin(_, _)) => {
            let text = idle_text(alloc, stop.hart, session.state_text(stop.hart))?;
            tell(alloc, text.as_bytes(), out)
        }
        (halt, _) => tell(alloc, told_of(halt).as_bytes(), out),
    }
}

impl<'a, C: Crew> Talk<'a, C> {
    /// Answers a request that may move the board; texts for the console go before.
    pub(crate) fn act(
        &mut self,
        asked: Move,
        packet: &[u8],
        interrupt: &AtomicBool,
        out: &mut PacketPayloads,
    ) -> Result<Vec<u8>, AllocError>
        requires at { IsAt (size_of self.old.session) (timeline_of self.old.session) }
        requires none { out.old.items ≡ [] }
        ensures at { OnOk result (IsAt (size_of self.new.session) (timeline_of self.new.session)) }
        ensures rest { KeepsRest self.old.session self.new.session }
        ensures moved { IfOk result (λ v. MovedBy asked packet.now self.old self.new (map (λ v. v.items) out.new.items) v.items) }
        ensures talk { IsTalk self.new.last self.old.runner self.old.takes_swbreak self.old.acknowledges self.old.is_over self.new }
    {
        let hart = self.runs();
        match asked {
            Move::Step => self.take(hart, Course::Step, interrupt, out),
            Move::Go => self.take(hart, Course::Go([true; 8]), interrupt, out),
            Move::StepBack => self.take(hart, Course::StepBack, interrupt, out),
            Move::GoBack => self.take(hart, Course::GoBack, interrupt, out),
            Move::Resume => self.resume(packet, interrupt, out),
            Move::Monitor => self.monitor(packet, interrupt, out),
        }
    }

    /// The hart that steps, and that goes on first.
    fn runs(&self) -> HartId
        ensures is { result ≡ runs_in self.now }
        ensures there { result < (size_of self.now.session).harts }
    {
        match self.runner {
            Some(hart) => hart,
            None => self.selected,
        }
    }

    /// `vCont`: what it asks is done.
    fn resume(
        &mut self,
        packet: &[u8],
        interrupt: &AtomicBool,
        out: &mut PacketPayloads,
    ) -> Result<Vec<u8>, AllocError>
        requires at { IsAt (size_of self.old.session) (timeline_of self.old.session) }
        ensures at { OnOk result (IsAt (size_of self.new.session) (timeline_of self.new.session)) }
        ensures rest { KeepsRest self.old.session self.new.session }
        ensures moved { IfOk result (λ v. ResumedBy (stripped (codes "vCont;") packet.now) self.old self.new v.items) }
        ensures talk { IsTalk self.new.last self.old.runner self.old.takes_swbreak self.old.acknowledges self.old.is_over self.new }
    {
        let asked = asked_by(self.alloc(), self.session.setting().shape, packet)?;
        match asked {
            VCont::Nothing => self.said(b"E01"),
            VCont::Step(hart) => self.take(hart, Course::Step, interrupt, out),
            VCont::StepWithin(hart, first, end) => {
                self.take(hart, Course::StepWithin(first, end), interrupt, out)
            }
            VCont::Go(harts) => self.take(self.hart, Course::Go(harts), interrupt, out),
        }
    }

    /// Moves the board, and tells why it stands; texts for the console go before.
    fn take(
        &mut self,
        hart: HartId,
        course: Course,
        interrupt: &AtomicBool,
        out: &mut PacketPayloads,
    ) -> Result<Vec<u8>, AllocError>
        requires at { IsAt (size_of self.old.session) (timeline_of self.old.session) }
        requires hart { hart < (size_of self.old.session).harts }
        ensures at { OnOk result (IsAt (size_of self.new.session) (timeline_of self.new.session)) }
        ensures rest { KeepsRest self.old.session self.new.session }
        ensures took { OnOk result (Took course hart self.new.last self.old.session self.new.session) }
        ensures told { IfOk result (λ v. IsTold self.old self.new v.items) }
        ensures talk { IsTalk self.new.last self.old.runner self.old.takes_swbreak self.old.acknowledges self.old.is_over self.new }
    {
        let mut told = Vec::new(self.alloc());
        let stop = taken(&mut self.session, hart, course, interrupt, &mut told)?;
        tell_stop(&mut self.session, course, &stop, &told, out)?;
        self.stopped_at(stop)
    }

    /// The board stands so from now on.
    fn stopped_at(&mut self, stop: Stop) -> Result<Vec<u8>, AllocError>
        requires there { stop.hart < (size_of self.old.session).harts }
        ensures same { self.new.session ≡ self.old.session }
        ensures told { IfOk result (λ v. IsTold self.old self.new v.items) }
        ensures last { OnOk result (self.new.last ≡ stop) }
        ensures talk { IsTalk self.new.last self.old.runner self.old.takes_swbreak self.old.acknowledges self.old.is_over self.new }
    {
        self.last = stop;
        self.hart = stop.hart;
        self.select_shown();
        Ok(stop_text(self.alloc(), stop, self.takes_swbreak)?)
    }

    /// The hart that is shown is selected from now on.
    fn select_shown(&mut self)
        ensures same { self.new.session ≡ self.old.session }
        ensures talk { StaysOpen self.old self.new }
        ensures hart { self.new.hart ≡ self.old.hart }
        ensures selected { self.new.selected ≡ self.old.hart }
    {
        self.selected = self.hart;
    }
}
