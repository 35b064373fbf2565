//! The bench between two lines.
//! A law runs nothing, and tells the prover a fact: `blank_disks`.

ghost use Rattle.std.specs.Prelude.{◌≡◌, ◌≤◌, true, false, length, IfOk, OnErr};
ghost use Rattle.simdisk.specs.declared.SimDisk.{SimDisk};
ghost use Rattle.board_model.specs.Shapes.{Size};
ghost use Rattle.bench_report.specs.Agree.{Agrees, HasDisk, IsCutBy, OffIs, fill_after};
ghost use Rattle.bench_report.specs.Bench.{Bench, bench_with};
ghost use Rattle.bench_report.specs.Happens.{off, unpowered};
ghost use Rattle.bench_report.specs.Steps.{Moves};
ghost use Rattle.bench_report.specs.Views.{facts};
ghost use Rattle.bench_report.specs.Lives.{IsSettled, IsSound, LineDid, Shows};
ghost use Rattle.bench_report.specs.Uncut.{KeepsBytes};
ghost use Rattle.bench_report.specs.Rows.{IsWithin, RowMoves, row_answer};
ghost use Rattle.script_lang.specs.Lines.{IsLineInRange};
ghost use Rattle.script_lang.specs.declared.line.Line.TheVariants as lines;
ghost use Rattle.simdisk.specs.declared.fill.Fill.TheVariants as fills;
ghost use Rattle.store.specs.Leaves.{IsIdle};

use crate::in_place::{in_place, is_still_on};
use crate::power::{OffDisk, Power};
use crate::rows::TurnRow;
use crate::setting::Setting;
use crate::steps::{disk_left, lose_power, refused_suspension, says, struck};
use board::Payloads;
use board_model::{HartId, Shape};
use core::mem::replace_with;
use crew::Crew;
use machine::Word;
use report_lines::{Answer, Printed};
use script_lang::Line;
use simdisk::{Fill, SimDisk};
use std::alloc::{AllocError, Global};
use store::blank_disks;

/// A board between two lines of a script, what its slots boot, and what an armed cut is to leave.
#[derive(Drop)]
pub struct LiveBench {
    /// The board, off or on.
    pub power: Power,
    /// What each slot boots.
    pub payloads: Payloads,
    /// What an armed cut is to leave.
    pub fill: Fill,
    /// Whether memory was refused: to a power-on, to an examination of the disk, or to a suspension, whose hart is told -1.
    pub refused: bool,
}

impl LiveBench {
    /// The bench before its first line: a blank disk of the size that the board needs, and these payloads.
    pub(crate) fn blank_with(
        alloc: Global,
        shape: &Shape,
        payloads: Payloads,
    ) -> Result<LiveBench, AllocError>
        ensures shows { IfOk result (λ live. Shows shape.now (bench_with payloads) live) }
        ensures sound { IfOk result (λ live. IsSound live) }
        ensures fill { IfOk result (λ live. live.fill ≡ fills.Old) }
        ensures memory { IfOk result (λ live. live.refused ≡ false) }
    {
        blank_disks::<SimDisk>();
        let disk = SimDisk::blank(alloc, shape.sectors())?;
        Ok(LiveBench {
            power: Power::Off(OffDisk { disk }),
            payloads,
            fill: Fill::Old,
            refused: false,
        })
    }

    /// The bench before its first line, with a copy of these payloads.
    pub fn blank(alloc: Global, shape: &Shape, begins: &Payloads) -> Result<LiveBench, AllocError>
        ensures shows { IfOk result (λ live. Shows shape.now (bench_with begins.now) live) }
        ensures sound { IfOk result (λ live. IsSound live) }
        ensures fill { IfOk result (λ live. live.fill ≡ fills.Old) }
        ensures memory { IfOk result (λ live. live.refused ≡ false) }
    {
        let payloads = begins.copy()?;
        LiveBench::blank_with(alloc, shape, payloads)
    }

    /// Runs a line, with the cut that a line before it may have armed: where that strikes within the line, the answer is
    /// `power lost`, the board is off, and what was written since the last sync holds what the newest armed cut is to leave.
    /// Refused only where there is no memory for a payload or a poke, and then the bench is as it was. Source: docs/SCRIPT.md.
    pub fn run<C: Crew>(
        &mut self,
        setting: &Setting<'_, C>,
        line: &Line,
    ) -> Result<Answer, AllocError>
        requires range { IsLineInRange setting.now.shape.now line.now }
        requires sound { IsSound self.old }
        ensures reported { IfOk result (λ answer. (b : Bench) → Shows setting.now.shape.now b self.old
            → (new : Bench) × Moves setting.now.shape.now line.now b answer new × Shows setting.now.shape.now new self.new) }
        ensures well { self.new.refused ≡ false → IfOk result (λ answer. (b : Bench) → Shows setting.now.shape.now b self.old
            → (new : Bench) × Moves setting.now.shape.now line.now b answer new × Shows setting.now.shape.now new self.new
            × (new.growths ≡ b.growths)) }
        ensures does { IfOk result (λ answer. (b : Bench) → Shows setting.now.shape.now b self.old
            → LineDid setting.now.shape.now line.now self.new.fill b answer self.old.power self.new.power) }
        ensures stopped { OnErr result ((b : Bench) → Shows setting.now.shape.now b self.old → Shows setting.now.shape.now b self.new) }
        ensures refused { OnErr result (KeepsBytes line.now) }
        ensures sound { IsSound self.new }
        ensures fill { self.new.fill ≡ fill_after line.now self.old.fill }
        ensures slots { length self.new.payloads ≡ length self.old.payloads }
    {
        match line {
            Line::Turn(hart, count) => {
                let row = self.turns(setting, *hart, *count);
                Ok(row.answer(*hart))
            }
            _ => {
                let (answer, _now) = self.alone(setting, line)?;
                if self.strike() {
                    Ok(says(Printed::PowerLost))
                } else {
                    Ok(answer)
                }
            }
        }
    }

    /// Takes power where an armed cut has struck, and answers whether one has: what was written since the last sync holds what the newest
    /// armed cut is to leave. The board is moved only then.
    fn strike(&mut self) -> bool
        ensures told { (size : Size) (b : Bench) → Agrees size b self.old.power → result ≡ b.fault_state.struck }
        ensures kept { result ≡ false → self.new.power ≡ self.old.power }
        ensures lost { result ≡ true → (size : Size) (b : Bench) → Agrees size b self.old.power
            → Agrees size (unpowered b) self.new.power }
        ensures exact { result ≡ true → (disk : SimDisk) × HasDisk self.old.power disk × IsCutBy self.old.fill disk self.new.power }
        ensures sound { IsSound self.new }
        ensures payloads { self.new.payloads ≡ self.old.payloads }
        ensures fill { self.new.fill ≡ self.old.fill }
        ensures memory { self.new.refused ≡ self.old.refused }
    {
        if struck(&self.power) {
            replace_with(&mut self.power, self.fill, lose_power);
            return true;
        }
        false
    }

    /// Up to `count` turns of a hart, one after another: what the line `turn` does, and many times as fast, since
    /// a board that stays on is not moved.
    pub fn turns<C: Crew>(&mut self, setting: &Setting<'_, C>, hart: HartId, count: u32) -> TurnRow
        requires some { 1 ≤ count }
        requires sound { IsSound self.old }
        ensures reported { (size : Size) (b : Bench) → Shows size b self.old → (new : Bench)
            × RowMoves size hart result b new × Moves size (lines.Turn hart count) b (row_answer hart result) new
            × Shows size new self.new }
        ensures well { self.new.refused ≡ false → (size : Size) (b : Bench) → Shows size b self.old → (new : Bench)
            × RowMoves size hart result b new × Moves size (lines.Turn hart count) b (row_answer hart result) new
            × Shows size new self.new × (new.growths ≡ b.growths) }
        ensures does { (size : Size) (b : Bench) → Shows size b self.old
            → LineDid size (lines.Turn hart count) self.new.fill b (row_answer hart result) self.old.power self.new.power }
        ensures range { IsWithin count result }
        ensures sound { IsSound self.new }
        ensures fill { self.new.fill ≡ self.old.fill }
        ensures payloads { self.new.payloads ≡ self.old.payloads }
    {
        let Some((made, word)) = in_place(setting, &mut self.power, hart, count) else {
            return TurnRow::Off;
        };
        self.refused = refused_suspension(&self.power);
        if is_still_on(&self.power, word) {
            return TurnRow::Made(made, word);
        }
        if self.settle(word) {
            TurnRow::Lost(made)
        } else {
            TurnRow::Made(made, word)
        }
    }

    /// Settles a board that is on after turns: `word` is what was said of the last. Answers whether an armed cut struck in them.
    /// This is a function of its own, since it moves the board, which `turns` is to do only where a row has ended.
    fn settle(&mut self, word: Word) -> bool
        ensures settled { IsSettled word self.old.fill self.old.power self.new.power result }
        ensures sound { IsSound self.new }
        ensures payloads { self.new.payloads ≡ self.old.payloads }
        ensures fill { self.new.fill ≡ self.old.fill }
        ensures memory { self.new.refused ≡ self.old.refused }
    {
        self.end(word);
        self.strike()
    }

    /// Lets go of a bench. The proof for its board's many parts is made here, and not for each function that has a bench.
    pub fn release(self) {}

    /// The disk of a bench that goes no further, of a board whose power is off.
    pub fn into_disk(self) -> SimDisk
        ensures left { (size : Size) (b : Bench) → Shows size b self → OffIs size (off b) result }
        ensures idle { IsIdle (facts result) }
    {
        disk_left(self.power)
    }
}
