//! Lines that move harts, turn by turn, so that the ledger sees each command that they make.

ghost use Rattle.std.specs.Prelude.{◌≡◌, ◌≤◌, ◌<◌, false, true, length, IfOk, OnOk};
ghost use Rattle.board_model.specs.Shapes.{Size};
ghost use Rattle.script_lang.specs.Lines.{IsLineInRange};
ghost use Rattle.script_lang.specs.declared.line.Line.TheVariants as lines;
ghost use Rattle.bench_report.specs.Views.{machine_in, store_in};
ghost use Rattle.store.specs.Views.{was_refused_memory};
ghost use Rattle.bench_report.specs.Bench.{Bench};
ghost use Rattle.bench_report.specs.Agree.{OnIs};
ghost use Rattle.bench_sweep.specs.Runs.{Follows, RunsCalm};
ghost use Rattle.bench_sweep.specs.Lines.{TurnsOnce, TurnsMany, DoesLine, HartGoes, LineGoes, LineMoves};
ghost use Rattle.bench_sweep.specs.Told.{moves_harts};

use crate::follows::record_hart;
use crate::ledgers::RunLedger;
use crate::site::Going;
use bench_report::{Power, Setting};
use board::Board;
use board_model::{CallWords, HartId};
use crew::Crew;
use machine::Word;
use script_lang::Line;
use simdisk::SimDisk;
use std::alloc::AllocError;

/// Refused where memory was refused to a suspension of that board, whose hart found -1 alone.
fn suspended_well(board: &Board<SimDisk>) -> Result<(), AllocError>
    ensures enough { OnOk result (was_refused_memory (store_in board.now) ≡ false) }
{
    if board.was_refused_memory() {
        return Err(AllocError);
    }
    Ok(())
}

/// One turn of a hart, and the ledger follows it.
fn turn_once<C: Crew>(
    setting: &Setting<'_, C>,
    board: &mut Board<SimDisk>,
    hart: HartId,
    ledger: &mut RunLedger,
) -> Result<Word, AllocError>
    requires hart { hart < length (machine_in board.old).harts }
    ensures harts { length (machine_in board.new).harts ≡ length (machine_in board.old).harts }
    ensures goes { IfOk result (λ word. (size : Size) (b : Bench) → OnIs size b board.old → Follows size b ledger.old
        → HartGoes size b (TurnsOnce hart b word) word board.new ledger.new) }
    ensures resumed { ledger.new.resumed ≡ ledger.old.resumed }
{
    let word = board.turn(setting.alloc, setting.crew, hart);
    suspended_well(board)?;
    record_hart(ledger, setting.alloc, board, word)?;
    Ok(word)
}

/// Turns of a hart, as `Board::turns` makes them; the ledger follows each.
fn turn_many<C: Crew>(
    setting: &Setting<'_, C>,
    board: &mut Board<SimDisk>,
    hart: HartId,
    count: u32,
    ledger: &mut RunLedger,
) -> Result<Word, AllocError>
    requires hart { hart < length (machine_in board.old).harts }
    requires some { 1 ≤ count }
    ensures goes { IfOk result (λ word. (size : Size) (b : Bench) → OnIs size b board.old → Follows size b ledger.old
        → HartGoes size b (TurnsMany hart count b word) word board.new ledger.new) }
    ensures resumed { ledger.new.resumed ≡ ledger.old.resumed }
{
    let mut word = turn_once(setting, board, hart, ledger)?;
    let mut left = count - 1;
    while 0 < left && !word.ends_row() && !board.struck() {
        word = turn_once(setting, board, hart, ledger)?;
        left -= 1;
    }
    Ok(word)
}

/// A call in the place of a hart, and the ledger follows it. None where the hart is not started, or dozes.
fn call_once<C: Crew>(
    setting: &Setting<'_, C>,
    board: &mut Board<SimDisk>,
    hart: HartId,
    words: CallWords,
    ledger: &mut RunLedger,
) -> Result<Option<Word>, AllocError>
    requires hart { hart < length (machine_in board.old).harts }
    ensures goes { IfOk result (λ said. (size : Size) (b : Bench) → OnIs size b board.old → Follows size b ledger.old
        → LineGoes size b (DoesLine size (lines.Call hart words) b) said board.new ledger.new) }
    ensures resumed { ledger.new.resumed ≡ ledger.old.resumed }
{
    match board.call(setting.alloc, setting.crew, hart, words) {
        None => Ok(None),
        Some(word) => {
            suspended_well(board)?;
            record_hart(ledger, setting.alloc, board, word)?;
            Ok(Some(word))
        }
    }
}

/// What a line of turns did: none where the board has not the hart.
fn turn_in_place<C: Crew>(
    setting: &Setting<'_, C>,
    board: &mut Board<SimDisk>,
    hart: HartId,
    count: u32,
    ledger: &mut RunLedger,
) -> Result<Option<Word>, AllocError>
    requires some { 1 ≤ count }
    ensures goes { IfOk result (λ said. (size : Size) (b : Bench) → OnIs size b board.old → Follows size b ledger.old
        → LineGoes size b (DoesLine size (lines.Turn hart count) b) said board.new ledger.new) }
    ensures resumed { ledger.new.resumed ≡ ledger.old.resumed }
{
    if !board.machine().has(hart) {
        return Ok(None);
    }
    let word = turn_many(setting, board, hart, count, ledger)?;
    Ok(Some(word))
}

/// What a line of a call did: none where the board has not the hart, or it makes no call.
fn call_in_place<C: Crew>(
    setting: &Setting<'_, C>,
    board: &mut Board<SimDisk>,
    hart: HartId,
    words: CallWords,
    ledger: &mut RunLedger,
) -> Result<Option<Word>, AllocError>
    ensures goes { IfOk result (λ said. (size : Size) (b : Bench) → OnIs size b board.old → Follows size b ledger.old
        → LineGoes size b (DoesLine size (lines.Call hart words) b) said board.new ledger.new) }
    ensures resumed { ledger.new.resumed ≡ ledger.old.resumed }
{
    if !board.machine().has(hart) {
        return Ok(None);
    }
    call_once(setting, board, hart, words, ledger)
}

/// What a line of harts did: none where the board has not the hart, or it makes no call.
fn run_in_place<C: Crew>(
    setting: &Setting<'_, C>,
    board: &mut Board<SimDisk>,
    line: &Line,
    ledger: &mut RunLedger,
) -> Result<Option<Word>, AllocError>
    requires range { IsLineInRange setting.now.shape.now line.now }
    requires of_harts { moves_harts line.now ≡ true }
    ensures goes { IfOk result (λ said. (size : Size) (b : Bench) → OnIs size b board.old → Follows size b ledger.old
        → LineGoes size b (DoesLine size line.now b) said board.new ledger.new) }
    ensures resumed { ledger.new.resumed ≡ ledger.old.resumed }
{
    match line {
        Line::Turn(hart, count) => turn_in_place(setting, board, *hart, *count, ledger),
        Line::Call(hart, words) => call_in_place(setting, board, *hart, *words, ledger),
        _ => Ok(None),
    }
}

impl Going {
    /// Runs a line of harts, and the ledger follows each turn of it. It does nothing on a board that is off. The run is of no use where
    /// that is refused.
    pub fn harts<C: Crew>(
        &mut self,
        setting: &Setting<'_, C>,
        line: &Line,
    ) -> Result<(), AllocError>
        requires range { IsLineInRange setting.now.shape.now line.now }
        requires of_harts { moves_harts line.now ≡ true }
        ensures runs { OnOk result ((b : Bench) → RunsCalm setting.now.shape.now b self.old
            → LineMoves setting.now.shape.now line.now b self.old self.new) }
    {
        let Power::On(board) = &mut self.bench.power else {
            return Ok(());
        };
        if let Some(word) = run_in_place(setting, board, line, &mut self.ledger)? {
            self.bench.end(word);
        }
        Ok(())
    }
}

/// Whether harts move by the line.
pub fn is_of_harts(line: &Line) -> bool
    ensures { result ≡ moves_harts line.now }
{
    match line {
        Line::Turn(_, _) | Line::Call(_, _) => true,
        _ => false,
    }
}
