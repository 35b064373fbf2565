//! The lines that were run.

use crate::places::last_row;
use board_model::HartId;
use script_lang::Line;
use std::alloc::{AllocError, Global};
use std::marker::Model;

/// The most turns of a line.
const MOST_TURNS: u32 = 1_000_000;

/// The lines that were run, in their order, which contracts see as their list. A row of turns of one hart may stand
/// in one line.
#[derive(Drop)]
pub struct LineHistory {
    lines: Vec<Line>,
}

impl Model for LineHistory {
    ghost use Rattle.std.specs.Prelude.{List};
    ghost use Rattle.script_lang.specs.declared.line.Line.{Line};

    ghost Value = { List Line };

    ghost view = { λ h. h.lines.items };
}

impl LineHistory {
    ghost use Rattle.std.specs.Prelude.{◌≡◌, ◌≤◌, ◌++◌, ◌∷◌, [], false, take, replicate, OnOk, MatchResult, ⊤};
    ghost use Rattle.std.specs.Bool.{MatchBool};
    ghost use Rattle.script_lang.specs.declared.line.Line.TheVariants as lines;
    ghost use Rattle.debug_session.specs.Pasts.{IsAdded, IsBack, IsOpen, IsRowCut, moments, NoRow, some_turns};

    /// No lines.
    pub fn new(alloc: Global) -> LineHistory
        ensures { result ≡ [] }
    {
        LineHistory {
            lines: Vec::new(alloc),
        }
    }

    /// The lines.
    pub fn lines(&self) -> &[Line]
        ensures { result.now ≡ self.now }
    {
        &self.lines
    }

    /// Adds a line.
    pub fn add(&mut self, line: Line) -> Result<(), AllocError>
        ensures { OnOk result (self.new ≡ self.old ++ line ∷ []) }
    {
        self.lines.push(line)?;
        Ok(())
    }

    /// The turns that the last line has, where it is a row of that hart with room for `more`.
    fn open_row(&self, hart: HartId, more: u32) -> Option<u32>
        requires { more ≤ 1000000 }
        ensures { IsOpen hart more self.now result }
    {
        match self.lines.last() {
            Some(Line::Turn(by, count)) if *by == hart && *count <= MOST_TURNS - more => Some(
                *count,
            ),
            _ => None,
        }
    }

    /// Adds turns of a hart to the last line, where they are to join it and it is a row of that hart with room for
    /// them; else as a line of their own.
    fn put_turns(&mut self, hart: HartId, count: u32, joins: bool) -> Result<(), AllocError>
        requires { count ≤ 1000000 }
        ensures { OnOk result (IsAdded hart count joins self.old self.new) }
    {
        if joins && let Some(before) = self.open_row(hart, count) {
            let last = self.lines.len() - 1;
            self.lines[last] = Line::Turn(hart, before + count);
            return Ok(());
        }
        self.lines.push(Line::Turn(hart, count))?;
        Ok(())
    }

    /// Adds turns of a hart, at most 1,000,000: to the last line, where they are to join it and it is a row of that
    /// hart with room for them; else as a line of their own. Where memory is refused the history is of no use.
    pub fn add_turns(&mut self, hart: HartId, count: u32, joins: bool) -> Result<(), AllocError>
        requires { count ≤ 1000000 }
        ensures added { OnOk result (moments self.new ≡ moments self.old ++ replicate count (lines.Turn hart 1)) }
        ensures line { OnOk result (IsAdded hart count joins self.old self.new) }
        // A row that has ended is never made longer: run again, it would end before the new turns.
        ensures apart { joins ≡ false → OnOk result (self.new ≡ self.old ++ lines.Turn hart count ∷ []) }
    {
        self.put_turns(hart, count, joins)?;
        Ok(())
    }

    /// Goes back to before the last turn of that hart, and forgets it and whatever came after it, and nothing else:
    /// whether there was one. Where there was none nothing changes.
    pub fn step_back(&mut self, hart: HartId) -> Result<bool, AllocError>
        ensures back { MatchResult result
            (λ found. MatchBool found (IsBack hart self.old self.new) (NoRow hart self.old × (self.new ≡ self.old)))
            (λ e. ⊤) }
        ensures line { MatchResult result
            (λ found. MatchBool found (IsRowCut hart self.old self.new) (self.new ≡ self.old)) (λ e. ⊤) }
    {
        let Some((place, count)) = last_row(&self.lines, hart) else {
            return Ok(false);
        };
        self.cut_to(hart, place, count - 1)?;
        Ok(true)
    }

    /// Forgets all but the first `lines` lines, and puts `turns` turns of that hart after them, in one line.
    pub fn cut_to(&mut self, hart: HartId, lines: usize, turns: u32) -> Result<(), AllocError>
        ensures { OnOk result (self.new ≡ take lines self.old ++ some_turns hart turns) }
    {
        self.lines.truncate(lines);
        if 0 < turns {
            self.lines.push(Line::Turn(hart, turns))?;
        }
        Ok(())
    }
}
