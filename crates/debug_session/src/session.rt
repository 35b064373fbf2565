//! A board under a debugger.

ghost use Rattle.std.specs.Prelude.{◌≡◌, ◌⊎◌, ◌≤◌, ◌<◌, ◌-◌, ℕ, [], length, replicate, slice_index_or, true, false, string_bytes, Ok, Some, IfOk, OnErr, OnOk};
ghost use Rattle.debug_session.specs.Pasts.{IsBack, NoRow};
ghost use Rattle.bench_report.specs.Bench.{no_payloads};
ghost use Rattle.debug_session.specs.Notes.{AreInRange};
ghost use Rattle.debug_session.specs.Ats.{IsAt, Ran};
ghost use Rattle.debug_session.specs.Steps.{AreNoted, IsStep, Went};
ghost use Rattle.debug_session.specs.Lives.{register_in};
ghost use Rattle.debug_session.specs.Texts.{state_text, history_text};
ghost use Rattle.debug_session.specs.Sessions.{begins_of, bench_of, history_of, machine_of_session, plan_of, points_of, size_of, stops_of, timeline_of, watches_of, KeepsPlan, KeepsRest};
ghost use Rattle.debug_session.specs.Backs.{BackTo, StaysBack};
ghost use Rattle.debug_session.specs.Firsts.{ToHalt};
ghost use Rattle.debug_session.specs.Points.{with_point, with_watch, without_point, without_watch};
ghost use Rattle.debug_session.specs.Withins.{StepsWithin, within_plan};
ghost use Rattle.debug_session.specs.Turns.{WentTo, lives_begun, turns_told};
ghost use Rattle.script_lang.specs.Lines.{IsLineInRange};
ghost use Rattle.script_lang.specs.Scripts.{script_of};
ghost use Rattle.script_lang.specs.Spellings.{IsWritable};

use crate::back::{TurnPlace, Way, place_back};
use crate::counts::turn_after;
use crate::forth::watched_turn;
use crate::halts::{HaltReason, Stop};
use crate::orders::ScriptOrder;
use crate::rounds::Round;
use crate::starts::begun;
use crate::steps::{StepRange, halt_step};
use crate::stops::{Stops, Watchpoint};
use crate::timeline::Timeline;
use crate::{counts, forth, looks, script, steps};
use bench_report::{LiveBench, Power, Setting};
use board::Payloads;
use board_model::HartId;
use crew::Crew;
use machine::State;
use report_lines::Answer;
use script_lang::Line;
use std::alloc::AllocError;
use std::sync::atomic::AtomicBool;

/// How a session goes on.
#[derive(Clone, Copy, Drop)]
pub struct SessionPlan {
    /// How many turns a hart makes before the next one's, 1 to 1,000,000: more are as many.
    pub quantum: u32,
    /// How many turns a command makes at most.
    pub most: u64,
}

/// A board under a debugger: its timeline, its breakpoints and watchpoints. A call that is refused leaves it of no use.
#[derive(Drop)]
pub struct Session<'a, C> {
    setting: Setting<'a, C>,
    plan: SessionPlan,
    timeline: Timeline,
    /// The lines with which it began.
    order: ScriptOrder,
    stops: Stops,
}

impl<'a, C: Crew> Session<'a, C> {
    /// A session that stands after those lines, of a script that begins with these payloads.
    pub fn new(
        setting: Setting<'a, C>,
        plan: SessionPlan,
        begins: Payloads,
        lines: Vec<Line>,
    ) -> Result<Session<'a, C>, AllocError>
        requires ranges { AreInRange setting.shape.now lines.items }
        ensures at { IfOk result (λ s. IsAt (size_of s) (timeline_of s)) }
        ensures size { IfOk result (λ s. size_of s ≡ setting.entry.shape.now) }
        ensures noted { IfOk result (λ s. AreNoted lines.items [] (history_of s)) }
        ensures begins { IfOk result (λ s. begins_of s ≡ begins) }
        ensures plan { IfOk result (λ s. plan_of s ≡ plan) }
        ensures points { IfOk result (λ s. points_of s ≡ []) }
        ensures watches { IfOk result (λ s. watches_of s ≡ []) }
    {
        let timeline = begun(&setting, begins, lines)?;
        let Ok(order) = ScriptOrder::new(&setting, timeline.begins(), timeline.lines()) else {
            timeline.release();
            return Err(AllocError);
        };
        Ok(Session {
            setting,
            plan,
            timeline,
            order,
            stops: Stops::new(setting.alloc),
        })
    }

    /// What the boards are made with.
    pub fn setting(&self) -> &Setting<'a, C>
        ensures { result.now.shape.now ≡ size_of self.now }
    {
        &self.setting
    }

    /// The bench as it stands.
    pub fn bench(&self) -> &LiveBench
        ensures { result.now ≡ bench_of self.now }
    {
        self.timeline.bench()
    }

    /// How many lines its history has.
    pub fn lines(&self) -> usize
        ensures { result ≡ length (history_of self.now) }
    {
        self.timeline.lines().len()
    }

    /// How many turns of any harts its history has, at most 2^64 - 1.
    pub fn turns(&self) -> u64
        ensures { result ≡ turns_told (history_of self.now) }
    {
        counts::turns_told(self.timeline.lines())
    }

    /// How many lines of its history switch the power on.
    pub fn lives(&self) -> usize
        ensures { result ≡ lives_begun (history_of self.now) }
    {
        counts::lives_begun(self.timeline.lines())
    }

    /// The text of the history as a script, without a last line feed: `sbibench` runs it to the same reports. A
    /// comment after the board line names each payload with which a slot begins, since no line has room for it.
    pub fn script(&self) -> Result<String, AllocError>
        ensures text { IfOk result (λ text. string_bytes text
            ≡ history_text (size_of self.now) (begins_of self.now) (history_of self.now)) }
        ensures read { begins_of self.now ≡ no_payloads
            → IsWritable (record { size = size_of self.now; lines = history_of self.now })
            → IfOk result (λ text. script_of (string_bytes text)
            ≡ Ok (record { size = size_of self.now; lines = history_of self.now })) }
    {
        script::script_of(
            self.setting.alloc,
            self.setting.shape,
            self.timeline.begins(),
            self.timeline.lines(),
        )
    }

    /// A register of a hart of a board that is on, as `looks::register_of` shows it. It is a look: the board stays as it was.
    pub fn register(&mut self, hart: HartId, number: u64) -> Option<u64>
        ensures same { self.new ≡ self.old }
        ensures shown { result ≡ register_in hart number (machine_of_session self.old) }
    {
        match &mut self.timeline.bench.power {
            Power::On(board) => {
                if board.machine().has(hart) {
                    looks::register_of(board, hart, number)
                } else {
                    None
                }
            }
            Power::Off(_) => None,
        }
    }

    /// Runs a line of the script language, which becomes part of the history: what it says.
    pub fn line(&mut self, line: Line) -> Result<Answer, AllocError>
        requires at { IsAt (size_of self.old) (timeline_of self.old) }
        requires range { IsLineInRange (size_of self.old) line }
        ensures at { OnOk result (IsAt (size_of self.new) (timeline_of self.new)) }
        ensures ran { IfOk result (λ answer. Ran (size_of self.old) line answer (timeline_of self.old) (timeline_of self.new)) }
        ensures rest { KeepsRest self.old self.new }
        ensures begins { begins_of self.new ≡ begins_of self.old }
    {
        self.order
            .follow(self.setting.alloc, self.timeline.lines(), &line)?;
        self.timeline.line(&self.setting, line)
    }

    /// The line with which the script goes on where the session began, if the history is a begin of it and the line is no row of turns.
    pub fn next_line(&self) -> Option<&Line> {
        self.order.next_line(self.timeline.lines())
    }

    /// Sets a breakpoint, once.
    pub fn set_point(&mut self, address: u64) -> Result<(), AllocError>
        ensures points { OnOk result (points_of self.new ≡ with_point address (points_of self.old)) }
        ensures unset { OnErr result (points_of self.new ≡ points_of self.old) }
        ensures watches { watches_of self.new ≡ watches_of self.old }
        ensures timeline { timeline_of self.new ≡ timeline_of self.old }
        ensures rest { KeepsPlan self.old self.new }
    {
        self.stops.set_point(address)
    }

    /// Takes a breakpoint away, where it is set.
    pub fn clear_point(&mut self, address: u64)
        ensures points { points_of self.new ≡ without_point address (points_of self.old) }
        ensures watches { watches_of self.new ≡ watches_of self.old }
        ensures timeline { timeline_of self.new ≡ timeline_of self.old }
        ensures rest { KeepsPlan self.old self.new }
    {
        self.stops.clear_point(address);
    }

    /// Watches bytes, once.
    pub fn set_watch(&mut self, watch: Watchpoint) -> Result<(), AllocError>
        ensures watches { OnOk result (watches_of self.new ≡ with_watch watch (watches_of self.old)) }
        ensures unset { OnErr result (watches_of self.new ≡ watches_of self.old) }
        ensures points { points_of self.new ≡ points_of self.old }
        ensures timeline { timeline_of self.new ≡ timeline_of self.old }
        ensures rest { KeepsPlan self.old self.new }
    {
        self.stops.set_watch(watch)
    }

    /// Watches them no more, where they are watched.
    pub fn clear_watch(&mut self, watch: Watchpoint)
        ensures watches { watches_of self.new ≡ without_watch watch (watches_of self.old) }
        ensures points { points_of self.new ≡ points_of self.old }
        ensures timeline { timeline_of self.new ≡ timeline_of self.old }
        ensures rest { KeepsPlan self.old self.new }
    {
        self.stops.clear_watch(watch);
    }

    /// The state of a hart in the words of the SBI specification 2.0, chapter HSM; that the power is off, where no board
    /// is on that has the hart. It is a look: the board stays as it was.
    pub fn state_text(&mut self, hart: HartId) -> &'static str
        ensures same { self.new ≡ self.old }
        ensures text { result.now ≡ state_text hart (bench_of self.old) }
    {
        match looks::state(&mut self.timeline.bench, hart) {
            None => "power off",
            Some(State::Started) => "STARTED",
            Some(State::Stopped) => "STOPPED",
            Some(State::StartPending) => "START_PENDING",
            Some(State::Suspended) => "SUSPENDED",
        }
    }

    /// Steps a hart once: `Idle` where it has nothing to do, and `Stepped` where its turn was made. What its turn says is
    /// told where it ends everything, or where the board is off.
    pub fn step(&mut self, hart: HartId, told: &mut Vec<Answer>) -> Result<Stop, AllocError>
        requires at { IsAt (size_of self.old) (timeline_of self.old) }
        requires hart { hart < (size_of self.old).harts }
        ensures at { OnOk result (IsAt (size_of self.new) (timeline_of self.new)) }
        ensures step { IfOk result (λ stop. IsStep (size_of self.old) hart stop.halt (timeline_of self.old) (timeline_of self.new)) }
        ensures first { IfOk result (λ stop. ToHalt (size_of self.old) (stops_of self.old) hart (Some stop.halt)
            (timeline_of self.old) (timeline_of self.new)) }
        ensures there { IfOk result (λ stop. stop.hart ≡ hart) }
        ensures rest { KeepsRest self.old self.new }
        ensures begins { OnOk result (begins_of self.new ≡ begins_of self.old) }
    {
        let before = self
            .stops
            .watched(self.setting.alloc, self.timeline.bench())?;
        let part = watched_turn(
            &self.setting,
            &self.stops,
            &before,
            &mut self.timeline,
            hart,
            told,
        )?;
        let halt = halt_step(part.halt, part.made);
        Ok(Stop { hart, halt })
    }

    /// Steps a hart while its pc lies from the first address on and before the second, to the first halt: `Stepped` where a
    /// turn left the pc outside, `Idle` where the hart has nothing to do, `Spent` where `most` turns were made.
    pub fn step_within(
        &mut self,
        hart: HartId,
        first: u64,
        end: u64,
        interrupt: &AtomicBool,
        told: &mut Vec<Answer>,
    ) -> Result<Stop, AllocError>
        requires at { IsAt (size_of self.old) (timeline_of self.old) }
        requires hart { hart < (size_of self.old).harts }
        ensures went { OnOk result ((n : ℕ) × (n ≤ self.old.plan.most)
            × Went (λ h. h ≡ hart) n (size_of self.old) (timeline_of self.old) (timeline_of self.new)) }
        ensures first { IfOk result (λ stop. ToHalt (size_of self.old) (stops_of self.old) hart (Some stop.halt)
            (timeline_of self.old) (timeline_of self.new)) }
        // It steps on while its pc lies there.
        ensures within { IfOk result (λ stop. StepsWithin (size_of self.old)
            (within_plan first end (plan_of self.old)) hart stop.halt (timeline_of self.old)
            (timeline_of self.new)) }
        ensures there { IfOk result (λ stop. stop.hart ≡ hart) }
        ensures rest { KeepsRest self.old self.new }
    {
        let within = StepRange {
            first,
            end,
            most: self.plan.most,
        };
        steps::step_within(
            &self.setting,
            &self.stops,
            &mut self.timeline,
            hart,
            within,
            interrupt,
            told,
        )
    }

    /// Goes on with these harts, in turn, from that one on: up to `quantum` turns of each, to the first halt. While the history is a begin of
    /// the lines with which the session began, their turns are made, up to a line that is none. The
    /// interrupt is looked at before each hart's part.
    pub fn go(
        &mut self,
        first: HartId,
        harts: &[bool; 8],
        interrupt: &AtomicBool,
        told: &mut Vec<Answer>,
    ) -> Result<Stop, AllocError>
        requires at { IsAt (size_of self.old) (timeline_of self.old) }
        requires first { first < (size_of self.old).harts }
        ensures went { OnOk result ((n : ℕ) × (n ≤ self.old.plan.most)
            × Went (λ h. slice_index_or harts.now h false ≡ true) n (size_of self.old) (timeline_of self.old) (timeline_of self.new)) }
        ensures first { IfOk result (λ stop. ToHalt (size_of self.old) (stops_of self.old) stop.hart (Some stop.halt)
            (timeline_of self.old) (timeline_of self.new)) }
        ensures there { IfOk result (λ stop. stop.hart < (size_of self.old).harts) }
        ensures rest { KeepsRest self.old self.new }
    {
        let round = Round::new(first, *harts, self.plan.quantum, self.plan.most);
        forth::go(
            &self.setting,
            &self.stops,
            &self.order,
            &mut self.timeline,
            round,
            interrupt,
            told,
        )
    }

    /// Goes on with all harts, in turn, from that one on, until the history has `turns` turns of any harts, to the first
    /// halt; `most` turns at most. The interrupt is looked at before each hart's part.
    pub fn go_on_to(
        &mut self,
        first: HartId,
        turns: u64,
        interrupt: &AtomicBool,
        told: &mut Vec<Answer>,
    ) -> Result<Stop, AllocError>
        requires at { IsAt (size_of self.old) (timeline_of self.old) }
        requires first { first < (size_of self.old).harts }
        ensures went { OnOk result ((n : ℕ) × (n ≤ turns - turns_told (history_of self.old)) × (n ≤ self.old.plan.most)
            × Went (λ h. slice_index_or (replicate 8 true) h false ≡ true) n (size_of self.old) (timeline_of self.old)
            (timeline_of self.new)) }
        ensures first { IfOk result (λ stop. ToHalt (size_of self.old) (stops_of self.old) stop.hart (Some stop.halt)
            (timeline_of self.old) (timeline_of self.new)) }
        ensures rest { KeepsRest self.old self.new }
    {
        let most = counts::turns_left(self.timeline.lines(), turns, self.plan.most);
        let round = Round::new(first, [true; 8], self.plan.quantum, most);
        forth::go(
            &self.setting,
            &self.stops,
            &self.order,
            &mut self.timeline,
            round,
            interrupt,
            told,
        )
    }

    /// Goes back to before the last turn of that hart, and forgets it and whatever came after, and nothing else. Where it
    /// made none nothing changes.
    pub fn step_back(&mut self, hart: HartId) -> Result<Stop, AllocError>
        requires at { IsAt (size_of self.old) (timeline_of self.old) }
        requires hart { hart < (size_of self.old).harts }
        ensures at { OnOk result (IsAt (size_of self.new) (timeline_of self.new)) }
        ensures back { IfOk result (λ stop. (stop.hart ≡ hart)
            × (((stop.halt ≡ HaltReason.Stepped) × IsBack hart (history_of self.old) (history_of self.new))
            ⊎ ((stop.halt ≡ HaltReason.Begin) × NoRow hart (history_of self.old) × (timeline_of self.new ≡ timeline_of self.old)))) }
        ensures there { IfOk result (λ stop. stop.hart < (size_of self.old).harts) }
        ensures rest { KeepsRest self.old self.new }
        ensures begins { begins_of self.new ≡ begins_of self.old }
    {
        let found = self.timeline.step_back(&self.setting, hart)?;
        let halt = if found {
            HaltReason::Stepped
        } else {
            HaltReason::Begin
        };
        Ok(Stop { hart, halt })
    }

    /// Goes back to before the last turn of which the hart stood at a breakpoint, or that touched a watchpoint;
    /// where there is none, to before the first turn; and forgets whatever came after. Where no turn was made nothing
    /// changes, nor where the interrupt asks that it end, which is looked at before each line of the history.
    #[tactic(auto, using(crate::proofs::Histories::place_hart))]
    pub fn go_back(&mut self, hart: HartId, interrupt: &AtomicBool) -> Result<Stop, AllocError>
        requires at { IsAt (size_of self.old) (timeline_of self.old) }
        requires hart { hart < (size_of self.old).harts }
        ensures at { OnOk result (IsAt (size_of self.new) (timeline_of self.new)) }
        ensures back { IfOk result (λ stop. BackTo (size_of self.old) (stops_of self.old) stop (timeline_of self.old) (timeline_of self.new)
            ⊎ StaysBack stop hart (timeline_of self.old) (timeline_of self.new)) }
        ensures there { IfOk result (λ stop. stop.hart < (size_of self.old).harts) }
        ensures rest { KeepsRest self.old self.new }
        ensures begins { OnOk result (begins_of self.new ≡ begins_of self.old) }
    {
        let Way::Ended(found) = place_back(&self.setting, &self.stops, &self.timeline, interrupt)?
        else {
            return Ok(Stop {
                hart,
                halt: HaltReason::Interrupted,
            });
        };
        match found {
            Some(place) => {
                let TurnPlace { line, turns, stop } = place;
                self.timeline
                    .go_back(&self.setting, stop.hart, line, turns)?;
                Ok(stop)
            }
            None => Ok(Stop {
                hart,
                halt: HaltReason::Begin,
            }),
        }
    }

    /// Goes back to before the turn that came after `turns` others of any harts, and forgets it and whatever came after: whether
    /// there was one. Nothing changes where there was none.
    pub fn go_to(&mut self, turns: u64) -> Result<bool, AllocError>
        requires at { IsAt (size_of self.old) (timeline_of self.old) }
        ensures at { OnOk result (IsAt (size_of self.new) (timeline_of self.new)) }
        ensures went { IfOk result (λ found. WentTo turns found (timeline_of self.old) (timeline_of self.new)) }
        ensures rest { KeepsRest self.old self.new }
        ensures begins { begins_of self.new ≡ begins_of self.old }
    {
        let Some(found) = turn_after(self.timeline.lines(), turns) else {
            return Ok(false);
        };
        self.timeline
            .go_back(&self.setting, found.0, found.1, found.2)?;
        Ok(true)
    }
}
