//! The bench with its history.

ghost use Rattle.std.specs.Prelude.{◌≡◌, ◌⊎◌, ◌≤◌, ◌<◌, ◌++◌, ◌∷◌, [], true, false, take, IfOk, OnOk, MatchResult, ⊤};
ghost use Rattle.std.specs.Bool.{MatchBool};
ghost use Rattle.debug_session.specs.Pasts.{IsBack, NoRow, some_turns};
ghost use Rattle.bench_report.specs.Bench.{Bench};
ghost use Rattle.bench_report.specs.Steps.{Moves};
ghost use Rattle.debug_session.specs.Notes.{AreInRange};
ghost use Rattle.debug_session.specs.Ats.{IsAt, IsBefore, IsLeft, IsPlace, MadeTurns, Ran};
ghost use Rattle.debug_session.specs.Firsts.{ReadsAs, seen_in};
ghost use Rattle.debug_session.specs.Lives.{HasHalted, machine_of};
ghost use Rattle.bench_report.specs.Rows.{IsWithin, made_in, row_answer};
ghost use Rattle.script_lang.specs.Lines.{IsLineInRange};
ghost use Rattle.script_lang.specs.declared.line.Line.TheVariants as lines;

use crate::loads::Load;
use crate::notes::note;
use crate::past::LineHistory;
use crate::reads::load_among;
use crate::replays::replayed;
use crate::stops::SeenBytes;
use crate::to_points::turns_to;
use bench_report::{LiveBench, Setting, TurnRow};
use board::Payloads;
use board_model::{HartId, Shape};
use crew::Crew;
use report_lines::Answer;
use script_lang::Line;
use std::alloc::{AllocError, Global};
use std::mem::replace;

/// The bench that a history leaves, with that history.
#[derive(Drop)]
pub struct Timeline {
    begins: Payloads,
    history: LineHistory,
    joins: bool,
    /// The bench that the history leaves.
    pub(crate) bench: LiveBench,
}

impl Timeline {
    /// Before the first line of a script that begins with these payloads.
    pub fn blank(alloc: Global, shape: &Shape, begins: Payloads) -> Result<Timeline, AllocError>
        ensures at { IfOk result (IsAt shape.now) }
        ensures history { IfOk result (λ t. t.history ≡ []) }
        ensures begins { IfOk result (λ t. t.begins ≡ begins) }
    {
        let bench = LiveBench::blank(alloc, shape, &begins)?;
        Ok(Timeline {
            begins,
            history: LineHistory::new(alloc),
            joins: false,
            bench,
        })
    }

    /// Lets go of a timeline.
    pub(crate) fn release(self) {
        self.bench.release();
    }

    /// The lines that were run, of a script that runs them again.
    pub fn lines(&self) -> &[Line]
        ensures { result.now ≡ self.now.history }
    {
        self.history.lines()
    }

    /// The payloads with which that script begins.
    pub fn begins(&self) -> &Payloads
        ensures { result.now ≡ self.now.begins }
    {
        &self.begins
    }

    /// The bench as it stands.
    pub fn bench(&self) -> &LiveBench
        ensures { result.now ≡ self.now.bench }
    {
        &self.bench
    }

    /// What the next turn of a hart reads of what is minded, as `reads::load_among` shows it.
    pub(crate) fn load_among(&mut self, hart: HartId, before: &Vec<SeenBytes>) -> Option<Load>
        ensures same { self.new ≡ self.old }
        ensures reads { ReadsAs (machine_of self.old.bench) hart (seen_in before.now.items) result }
    {
        load_among(&mut self.bench, hart, before)
    }

    /// Up to `count` turns of a hart, which become part of the history: what came of them. Where memory is refused the timeline is of no
    /// use.
    fn turns<C: Crew>(
        &mut self,
        setting: &Setting<'_, C>,
        hart: HartId,
        count: u32,
    ) -> Result<TurnRow, AllocError>
        requires at { IsAt setting.now.shape.now self.old }
        requires hart { hart < setting.now.shape.now.harts }
        requires count { (1 ≤ count) × (count ≤ 1000000) }
        ensures at { OnOk result (IsAt setting.now.shape.now self.new) }
        ensures ran { IfOk result (λ row. Ran setting.now.shape.now (lines.Turn hart count) (row_answer hart row) self.old
            self.new) }
        ensures begins { self.new.begins ≡ self.old.begins }
    {
        let row = self.bench.turns(setting, hart, count);
        self.joins = note(&mut self.history, self.joins, hart, row)?;
        Ok(row)
    }

    /// Turns of a hart up to an address, an end, or an idle turn, as `to_points::turns_to` makes them, which become
    /// part of the history: what came of them, and whether the next turn is idle. Where memory is refused
    /// the timeline is of no use.
    pub fn turns_to<C: Crew>(
        &mut self,
        setting: &Setting<'_, C>,
        hart: HartId,
        most: u32,
        points: &[u64],
    ) -> Result<(TurnRow, bool), AllocError>
        requires at { IsAt setting.now.shape.now self.old }
        requires hart { hart < setting.now.shape.now.harts }
        requires most { most ≤ 1000000 }
        ensures at { OnOk result (IsAt setting.now.shape.now self.new) }
        ensures made { IfOk result (λ did. MadeTurns setting.now.shape.now hart points.now did.0 did.1 self.old self.new) }
        ensures within { IfOk result (λ did. IsWithin most did.0) }
        ensures why { IfOk result (λ did. did.1 ≡ false
            → (made_in did.0 ≡ most) ⊎ HasHalted hart points.now did.0 (machine_of self.new.bench)) }
        ensures begins { self.new.begins ≡ self.old.begins }
    {
        let (row, rests) = turns_to(setting, &mut self.bench, hart, most, points);
        self.joins = note(&mut self.history, self.joins, hart, row)?;
        Ok((row, rests))
    }

    /// Notes a line that was run, and answered that.
    fn noted(&mut self, line: Line, answer: Answer) -> Result<Answer, AllocError>
        ensures answer { IfOk result (λ said. said ≡ answer) }
        ensures grew { OnOk result (self.new.history ≡ self.old.history ++ line ∷ []) }
        ensures apart { OnOk result (self.new.joins ≡ false) }
        ensures bench { self.new.bench ≡ self.old.bench }
        ensures begins { self.new.begins ≡ self.old.begins }
    {
        self.history.add(line)?;
        self.joins = false;
        Ok(answer)
    }

    /// Runs a line as it is, and notes it.
    fn whole_line<C: Crew>(
        &mut self,
        setting: &Setting<'_, C>,
        line: Line,
    ) -> Result<Answer, AllocError>
        requires at { IsAt setting.now.shape.now self.old }
        requires range { IsLineInRange setting.now.shape.now line }
        ensures at { OnOk result (IsAt setting.now.shape.now self.new) }
        ensures moves { IfOk result (λ answer. (b : Bench) → IsLeft setting.now.shape.now self.old b
            → (new : Bench) × Moves setting.now.shape.now line b answer new × IsLeft setting.now.shape.now self.new new) }
        ensures grew { OnOk result (self.new.history ≡ self.old.history ++ line ∷ []) }
        ensures begins { self.new.begins ≡ self.old.begins }
    {
        match self.bench.run(setting, &line) {
            Ok(answer) => self.noted(line, answer),
            Err(e) => Err(e),
        }
    }

    /// Runs a line, which becomes part of the history: what it says. A row of turns becomes so with as many as were
    /// made. Where memory is refused the timeline is of no use.
    pub fn line<C: Crew>(
        &mut self,
        setting: &Setting<'_, C>,
        line: Line,
    ) -> Result<Answer, AllocError>
        requires at { IsAt setting.now.shape.now self.old }
        requires range { IsLineInRange setting.now.shape.now line }
        ensures at { OnOk result (IsAt setting.now.shape.now self.new) }
        ensures ran { IfOk result (λ answer. Ran setting.now.shape.now line answer self.old self.new) }
        ensures begins { self.new.begins ≡ self.old.begins }
    {
        match line {
            Line::Turn(hart, count) => {
                let row = self.turns(setting, hart, count)?;
                Ok(row.answer(hart))
            }
            other => self.whole_line(setting, other),
        }
    }

    /// Runs the history again from its begin.
    fn again<C: Crew>(&mut self, setting: &Setting<'_, C>) -> Result<(), AllocError>
        requires ranges { AreInRange setting.now.shape.now self.old.history }
        ensures at { OnOk result (IsAt setting.now.shape.now self.new) }
        ensures history { self.new.history ≡ self.old.history }
        ensures begins { self.new.begins ≡ self.old.begins }
    {
        let (bench, joins) = replayed(setting, &self.begins, self.history.lines())?;
        let before = replace(&mut self.bench, bench);
        before.release();
        self.joins = joins;
        Ok(())
    }

    /// Goes back to before the last turn of that hart, and forgets it and whatever came after it: whether there was
    /// one. Where there was none nothing changes. Where memory is refused the timeline is of no use.
    #[tactic(auto, using(crate::proofs::Histories::row_cut_ranges))]
    pub fn step_back<C: Crew>(
        &mut self,
        setting: &Setting<'_, C>,
        hart: HartId,
    ) -> Result<bool, AllocError>
        requires at { IsAt setting.now.shape.now self.old }
        ensures at { OnOk result (IsAt setting.now.shape.now self.new) }
        ensures back { MatchResult result (λ found. MatchBool found (IsBack hart self.old.history self.new.history)
            (NoRow hart self.old.history × (self.new ≡ self.old))) (λ e. ⊤) }
        ensures begins { self.new.begins ≡ self.old.begins }
    {
        if !self.history.step_back(hart)? {
            return Ok(false);
        }
        self.again(setting)?;
        Ok(true)
    }

    /// Goes back to after the first `place` lines and `turns` turns of that hart in the next line, which has more, and forgets
    /// whatever came after. Where memory is refused the timeline is of no use.
    #[tactic(auto, using(crate::proofs::Histories::cut_ranges, crate::proofs::Histories::place_before))]
    pub fn go_back<C: Crew>(
        &mut self,
        setting: &Setting<'_, C>,
        hart: HartId,
        place: usize,
        turns: u32,
    ) -> Result<(), AllocError>
        requires at { IsAt setting.now.shape.now self.old }
        requires row { IsPlace hart place turns self.old.history }
        ensures at { OnOk result (IsAt setting.now.shape.now self.new) }
        ensures history { OnOk result (self.new.history ≡ take place self.old.history ++ some_turns hart turns) }
        ensures back { OnOk result (IsBefore hart self.old.history self.new.history) }
        ensures begins { self.new.begins ≡ self.old.begins }
    {
        self.history.cut_to(hart, place, turns)?;
        self.again(setting)
    }
}
