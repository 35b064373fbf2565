//! A line of a bench as far as no armed cut strikes: one that struck within it stays untold, and what it leaves is for the caller to make.

ghost use Rattle.std.specs.Prelude.{◌≡◌, ◌↔◌, true, false, length, IfOk, OnErr, MatchResult};
ghost use Rattle.board_model.specs.Shapes.{Size};
ghost use Rattle.bench_report.specs.Agree.{Agrees, HasDisk, Matches, fill_after};
ghost use Rattle.bench_report.specs.Uncut.{HasEnough, IsOtherLine, KeepsBytes, LineLeft, TellsIts};
ghost use Rattle.bench_report.specs.Bench.{Bench};
ghost use Rattle.bench_report.specs.Deeds.{IsNoRow, deed_of};
ghost use Rattle.bench_report.specs.Lives.{IsAfter, IsSound, Shows};
ghost use Rattle.bench_report.specs.Steps.{Step};
ghost use Rattle.script_lang.specs.Lines.{IsLineInRange};
ghost use Rattle.simdisk.specs.declared.SimDisk.{SimDisk};
ghost use denote.Param.Send.{IsSync};

use crate::live::LiveBench;
use crate::memory::{lacked_memory, was_refused};
use crate::off_lines::powered;
use crate::on_lines::{after, console};
use crate::power::Power;
use crate::setting::Setting;
use crate::steps::{fill_after, line_alone};
use board_model::Durable;
use core::mem::replace_with;
use crew::Crew;
use machine::Word;
use report_lines::Answer;
use script_lang::Line;
use std::alloc::AllocError;

/// A bench after a line but a power-on, a command of the console and a row of turns, as far as no armed cut strikes, and what that answers.
/// It moves the board. It is passed by name, and so asks for `sync`, which the bound of `C` would give it else.
fn moved<C: Crew>(
    bench: LiveBench,
    asked: (&Setting<'_, C>, &Line),
) -> (LiveBench, Result<Answer, AllocError>)
    requires sync { IsSync C.Handle.row }
    requires range { IsLineInRange asked.0.now.shape.now asked.1.now }
    requires other { IsOtherLine asked.1.now }
    requires sound { IsSound bench }
    ensures said { IfOk result.1 (λ answer. (b : Bench) → Shows asked.entry.0.now.shape.now b bench
        → (new : Bench) × Step asked.entry.0.now.shape.now asked.entry.1.now b answer new
        × Matches asked.entry.0.now.shape.now new result.0.power result.0.payloads) }
    ensures well { result.0.refused ≡ false → IfOk result.1 (λ answer. (b : Bench) → Shows asked.entry.0.now.shape.now b bench
        → (new : Bench) × Step asked.entry.0.now.shape.now asked.entry.1.now b answer new
        × Matches asked.entry.0.now.shape.now new result.0.power result.0.payloads × (new.growths ≡ b.growths)) }
    ensures does { IfOk result.1 (λ answer. LineLeft asked.entry.1.now answer bench.power result.0.power) }
    ensures stopped { OnErr result.1 ((b : Bench) → Shows asked.entry.0.now.shape.now b bench
        → Shows asked.entry.0.now.shape.now b result.0) }
    ensures refused { OnErr result.1 (KeepsBytes asked.entry.1.now × IsSound result.0) }
    ensures told { MatchResult result.1 (λ answer. (result.0.refused ≡ false) ↔ HasEnough result.0.power answer.line)
        (λ e. result.0.refused ≡ true) }
    ensures fill { result.0.fill ≡ fill_after asked.entry.1.now bench.fill }
    ensures slots { length result.0.payloads ≡ length bench.payloads }
{
    let (setting, line) = asked;
    let LiveBench {
        power,
        mut payloads,
        fill,
        ..
    } = bench;
    let fill = fill_after(line, fill);
    let (power, answer) = line_alone(setting, line, power, &mut payloads);
    let refused = was_refused(&power, &answer);
    let after = LiveBench {
        power,
        payloads,
        fill,
        refused,
    };
    (after, answer)
}

/// A board that was on, after a turn or a call with that word: off where that ended the life. It is passed by name.
fn ended(power: Power, word: Word) -> (Power, ())
    ensures after { (size : Size) (b : Bench) → IsAfter size word b power → Agrees size b result.0 }
    ensures disk { (d : SimDisk) → HasDisk result.0 d → HasDisk power d }
{
    match power {
        Power::On(board) => (after(board, word), ()),
        Power::Off(off) => (Power::Off(off), ()),
    }
}

impl LiveBench {
    /// Runs a line that is no row of turns, as [`LiveBench::run`] does, but as far as no armed cut strikes. Answers what it says and, of
    /// one that powers a board on whose open found a state, the state then. Refused as `run` is, and then the bench is as it was. The board
    /// stays where it is for a command: a run of many would pay for moving it more than for them.
    pub fn alone<C: Crew>(
        &mut self,
        setting: &Setting<'_, C>,
        line: &Line,
    ) -> Result<(Answer, Option<Durable>), AllocError>
        requires range { IsLineInRange setting.now.shape.now line.now }
        requires other { IsNoRow (deed_of line.now) }
        requires sound { IsSound self.old }
        ensures said { IfOk result (λ did. (b : Bench) → Shows setting.now.shape.now b self.old
            → (new : Bench) × Step setting.now.shape.now line.now b did.0 new × TellsIts line.now did.0 did.1 new
            × Matches setting.now.shape.now new self.new.power self.new.payloads) }
        ensures well { self.new.refused ≡ false → IfOk result (λ did. (b : Bench) → Shows setting.now.shape.now b self.old
            → (new : Bench) × Step setting.now.shape.now line.now b did.0 new × TellsIts line.now did.0 did.1 new
            × Matches setting.now.shape.now new self.new.power self.new.payloads × (new.growths ≡ b.growths)) }
        ensures does { IfOk result (λ did. LineLeft line.now did.0 self.old.power self.new.power) }
        ensures stopped { OnErr result ((b : Bench) → Shows setting.now.shape.now b self.old → Shows setting.now.shape.now b self.new) }
        ensures refused { OnErr result (KeepsBytes line.now × IsSound self.new) }
        // Whether memory was refused is told just so.
        ensures told { MatchResult result (λ did. (self.new.refused ≡ false) ↔ HasEnough self.new.power did.0.line)
            (λ e. self.new.refused ≡ true) }
        ensures fill { self.new.fill ≡ fill_after line.now self.old.fill }
        ensures slots { length self.new.payloads ≡ length self.old.payloads }
    {
        match line {
            Line::Command(command) => {
                let answer = console(*command, &mut self.power);
                self.refused = lacked_memory(&self.power, answer.line);
                Ok((answer, None))
            }
            Line::On(mode) => {
                let asked = (setting.alloc, *mode, &self.payloads);
                let (answer, now) = replace_with(&mut self.power, asked, powered);
                self.refused = lacked_memory(&self.power, answer.line);
                Ok((answer, now))
            }
            _ => {
                let answer = replace_with(self, (setting, line), moved)?;
                Ok((answer, None))
            }
        }
    }

    /// Ends turns or a call of a hart, which were made in place: where the last of them ended the life, by its word, the board is off. The
    /// disk is the same.
    pub fn end(&mut self, word: Word)
        ensures after { (size : Size) (b : Bench) → IsAfter size word b self.old.power → Agrees size b self.new.power }
        ensures disk { (d : SimDisk) → HasDisk self.new.power d → HasDisk self.old.power d }
        ensures payloads { self.new.payloads ≡ self.old.payloads }
        ensures fill { self.new.fill ≡ self.old.fill }
        ensures memory { self.new.refused ≡ self.old.refused }
    {
        replace_with(&mut self.power, word, ended)
    }
}
