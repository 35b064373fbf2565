//! What a ledger takes from the answers of a script's lines.

ghost use Rattle.std.specs.Prelude.{◌≡◌, ◌↔◌, ℕ, List, ◌∷◌, Some, None, false, true, is_some, IsTrue, IsSomeAnd, MatchOption, OnOk};
ghost use Rattle.board_model.specs.Durable.{Change, Suspend, Consume, Discard, CarriesWhole};
ghost use Rattle.board_model.specs.Kept.{Kept, found_of};
ghost use Rattle.board_model.specs.Shapes.{Size};
ghost use Rattle.board_model.specs.ConsoleCommands.{console_change};
ghost use Rattle.board_model.specs.Views.{change_in, durable_of};
ghost use Rattle.board_model.specs.declared.durable.ImageHead.{ImageHead};
ghost use Rattle.board_model.specs.declared.refusal.Refusal.TheVariants.{Memory};
ghost use Rattle.board.specs.Moments.{attempts_of};
ghost use Rattle.sbi_calls.specs.declared.words.Did.{Did};
ghost use Rattle.sbi.specs.declared.resets.ResetType.{ResetType};
ghost use Rattle.sbi.specs.declared.words.Word.TheVariants as words;
ghost use Rattle.sbi.specs.declared.words.LifeEnd.TheVariants as life_ends;
ghost use Rattle.bench_report.specs.Bench.{Bench};
ghost use Rattle.bench_sweep.specs.Runs.{TellsWhole, Follows, HartMoves};
ghost use Rattle.bench_sweep.specs.Resumes.{image_told, serial_of, consumed, booted, powered, power_resumes, line_resumes, Resumes};
ghost use Rattle.bench_sweep.specs.Told.{IssuedTold, CommandTold, BootTold, BootSaid, NowTold, PowerTold, LineTold, commands_told};

use crate::ledgers::RunLedger;
use board::Board;
use board_model::{BootMode, Command, ConsoleCommand, Durable, Entry, Refusal, Trial};
use machine::{LifeEnd, Word};
use report_lines::{Answer, Printed};
use script_lang::Line;
use simdisk::SimDisk;
use std::alloc::{AllocError, Global};

/// Want of memory alone stops a bench. A ledger also refuses what the table of commands refuses, and of that nothing
/// changed, whatever was answered.
fn only_memory(refusal: Refusal) -> Result<(), AllocError>
    ensures other { OnOk result (refusal ≡ Memory → ⊥) }
{
    match refusal {
        Refusal::Memory => Err(AllocError),
        _ => Ok(()),
    }
}

/// A command was answered, by its receipt or by the number with which it was refused.
fn record_command(
    ledger: &mut RunLedger,
    alloc: Global,
    entry: Entry,
    memory: &[u8],
    refused: Option<u32>,
) -> Result<(), AllocError>
    ensures kept { OnOk result ((size : Size) (old new : Kept) → TellsWhole size ledger.old old
        → CarriesWhole size (change_in entry memory.now) → IssuedTold refused (change_in entry memory.now) old new
        → TellsWhole size ledger.new new) }
    ensures already { OnOk result ((size : Size) (kept : Kept) (d : Change) (n : ℕ) → TellsWhole size ledger.old kept
        → kept.doubt ≡ Some d → refused ≡ Some n → TellsWhole size ledger.new kept) }
    ensures resumed { ledger.new.resumed ≡ ledger.old.resumed }
{
    match ledger.answered(alloc, entry, memory, refused) {
        Ok(()) => Ok(()),
        Err(refusal) => only_memory(refusal),
    }
}

/// The image that stands was resumed.
fn record_resume(ledger: &mut RunLedger, alloc: Global) -> Result<(), AllocError>
    ensures kept { OnOk result ((size : Size) (old new : Kept) → TellsWhole size ledger.old old
        → IssuedTold None Consume old new → TellsWhole size ledger.new new) }
    ensures serial { OnOk result (Resumes ledger.old ledger.new (serial_of (image_told ledger.old))) }
{
    match ledger.resumes(alloc) {
        Ok(()) => Ok(()),
        Err(refusal) => only_memory(refusal),
    }
}

/// The Consume of a resume was acknowledged, or refused by that number.
fn record_consume(
    ledger: &mut RunLedger,
    alloc: Global,
    refused: Option<u32>,
) -> Result<(), AllocError>
    ensures kept { OnOk result ((size : Size) (old new : Kept) → TellsWhole size ledger.old old
        → IssuedTold refused Consume old new → TellsWhole size ledger.new new) }
    ensures serial { OnOk result (Resumes ledger.old ledger.new (consumed refused (image_told ledger.old))) }
{
    match refused {
        None => record_resume(ledger, alloc),
        Some(_) => {
            let entry = Entry::Command(Command::Consume);
            record_command(ledger, alloc, entry, &[], refused)
        }
    }
}

/// The attempt of a boot was acknowledged, or refused by that number, where the slot is on trial so.
fn record_attempt(
    ledger: &mut RunLedger,
    alloc: Global,
    trial: Option<Trial>,
    refused: Option<u32>,
) -> Result<(), AllocError>
    ensures kept { OnOk result ((size : Size) (old new : Kept) → TellsWhole size ledger.old old
        → BootTold refused (attempts_of trial) old new → TellsWhole size ledger.new new) }
    ensures resumed { ledger.new.resumed ≡ ledger.old.resumed }
{
    match trial {
        None => Ok(()),
        Some(_) => {
            let entry = Entry::Command(Command::Attempt);
            record_command(ledger, alloc, entry, &[], refused)
        }
    }
}

/// Whether the image that an open found was dropped since, by the state now.
fn is_dropped(found: &Durable, now: Option<Durable>) -> bool
    ensures { IsTrue result ↔ ((is_some found.now.image ≡ true) × IsSomeAnd now (λ d. d.image ≡ None)) }
{
    match now {
        None => false,
        Some(now) => found.image.is_some() && now.image.is_none(),
    }
}

/// A boot that drops the image was refused by that number, at its first command or after it: the state then tells which.
fn record_stopped_discard(
    ledger: &mut RunLedger,
    alloc: Global,
    found: &Durable,
    now: Option<Durable>,
    number: u32,
) -> Result<(), AllocError>
    ensures kept { OnOk result ((size : Size) (old new : Kept) → TellsWhole size ledger.old old
        → found.now ≡ durable_of (found_of old.changes)
        → BootTold (Some number) (Discard ∷ attempts_of found.now.trial) old new → NowTold now new
        → TellsWhole size ledger.new new) }
    ensures resumed { ledger.new.resumed ≡ ledger.old.resumed }
{
    let entry = Entry::Command(Command::Discard);
    if is_dropped(found, now) {
        record_command(ledger, alloc, entry, &[], None)?;
        record_attempt(ledger, alloc, found.trial, Some(number))
    } else {
        record_command(ledger, alloc, entry, &[], Some(number))
    }
}

/// A boot that drops the image was made, or refused by that number.
fn record_discard(
    ledger: &mut RunLedger,
    alloc: Global,
    found: &Durable,
    now: Option<Durable>,
    refused: Option<u32>,
) -> Result<(), AllocError>
    ensures kept { OnOk result ((size : Size) (old new : Kept) → TellsWhole size ledger.old old
        → found.now ≡ durable_of (found_of old.changes)
        → BootTold refused (Discard ∷ attempts_of found.now.trial) old new → NowTold now new
        → TellsWhole size ledger.new new) }
    ensures resumed { ledger.new.resumed ≡ ledger.old.resumed }
{
    match refused {
        None => {
            let entry = Entry::Command(Command::Discard);
            record_command(ledger, alloc, entry, &[], None)?;
            record_attempt(ledger, alloc, found.trial, None)
        }
        Some(number) => record_stopped_discard(ledger, alloc, found, now, number),
    }
}

/// A boot by that mode was made, or refused by that number, of the state that its open found, and the state is then
/// that one.
fn record_boot(
    ledger: &mut RunLedger,
    alloc: Global,
    mode: BootMode,
    found: &Durable,
    now: Option<Durable>,
    refused: Option<u32>,
) -> Result<(), AllocError>
    ensures kept { OnOk result ((size : Size) (old new : Kept) → TellsWhole size ledger.old old
        → found.now ≡ durable_of (found_of old.changes)
        → BootTold refused (commands_told mode found.now.trial) old new → NowTold now new
        → TellsWhole size ledger.new new) }
    ensures serial { OnOk result (Resumes ledger.old ledger.new (booted refused mode (image_told ledger.old))) }
{
    match mode {
        BootMode::Fresh | BootMode::Keep => record_attempt(ledger, alloc, found.trial, refused),
        BootMode::Discard => record_discard(ledger, alloc, found, now, refused),
        BootMode::Resume => record_consume(ledger, alloc, refused),
    }
}

/// What a power-on by that mode said after its found line. Refused where memory was.
fn record_answer(
    ledger: &mut RunLedger,
    alloc: Global,
    mode: BootMode,
    found: &Durable,
    said: Printed,
    now: Option<Durable>,
) -> Result<(), AllocError>
    ensures kept { OnOk result ((size : Size) (old new : Kept) → TellsWhole size ledger.old old
        → found.now ≡ durable_of (found_of old.changes)
        → BootSaid said (commands_told mode found.now.trial) old new → NowTold now new
        → TellsWhole size ledger.new new) }
    ensures serial { OnOk result (Resumes ledger.old ledger.new (powered said mode (image_told ledger.old))) }
{
    match said {
        Printed::On(_) => record_boot(ledger, alloc, mode, found, now, None),
        Printed::OnRefused(number) => {
            if number == 11 {
                Err(AllocError)
            } else {
                record_boot(ledger, alloc, mode, found, now, Some(number))
            }
        }
        _ => Ok(()),
    }
}

/// A power-on by that mode gave that answer, and the state is then that one: what the open found settles the command
/// in doubt. Refused where the power-on was, or the ledger is; then the ledger is of no use.
fn record_power_on(
    ledger: &mut RunLedger,
    alloc: Global,
    mode: BootMode,
    answer: &Answer,
    now: Option<Durable>,
) -> Result<(), AllocError>
    ensures kept { OnOk result ((size : Size) (old new : Kept) → TellsWhole size ledger.old old
        → PowerTold mode answer.now.found answer.now.line now old new → TellsWhole size ledger.new new) }
    ensures serial { OnOk result ((size : Size) (old new : Kept) → TellsWhole size ledger.old old
        → PowerTold mode answer.now.found answer.now.line now old new
        → Resumes ledger.old ledger.new (power_resumes mode answer.now.found answer.now.line)) }
{
    match answer.found {
        None => Ok(()),
        Some(found) => {
            ledger.settles(&found);
            record_answer(ledger, alloc, mode, &found, answer.line, now)
        }
    }
}

/// A command of the console gave that answer.
fn record_console(
    ledger: &mut RunLedger,
    alloc: Global,
    command: ConsoleCommand,
    said: Printed,
) -> Result<(), AllocError>
    ensures kept { OnOk result ((size : Size) (old new : Kept) → TellsWhole size ledger.old old
        → CommandTold said (console_change command) old new → TellsWhole size ledger.new new) }
    ensures resumed { ledger.new.resumed ≡ ledger.old.resumed }
{
    match said {
        Printed::Acknowledged(_, _) => {
            let entry = Entry::Command(command.command());
            record_command(ledger, alloc, entry, &[], None)
        }
        Printed::CommandRefused(_, number) => {
            let entry = Entry::Command(command.command());
            record_command(ledger, alloc, entry, &[], Some(number))
        }
        _ => Ok(()),
    }
}

/// A line that moves no hart gave that answer, and the state is then that one, where the line powers a board on. The ledger is of no use
/// where that is refused.
pub fn record_line(
    ledger: &mut RunLedger,
    alloc: Global,
    line: &Line,
    answer: &Answer,
    now: Option<Durable>,
) -> Result<(), AllocError>
    ensures kept { OnOk result ((size : Size) (old new : Kept) → TellsWhole size ledger.old old
        → LineTold line.now answer.now now old new → TellsWhole size ledger.new new) }
    ensures serial { OnOk result ((size : Size) (old new : Kept) → TellsWhole size ledger.old old
        → LineTold line.now answer.now now old new → Resumes ledger.old ledger.new (line_resumes line.now answer.now)) }
{
    match line {
        Line::On(mode) => record_power_on(ledger, alloc, *mode, answer, now),
        Line::Command(command) => record_console(ledger, alloc, *command, answer.line),
        _ => Ok(()),
    }
}

/// A hart of that board goes on: a command of it may be in doubt.
fn record_in_doubt(
    ledger: &mut RunLedger,
    alloc: Global,
    board: &Board<SimDisk>,
) -> Result<(), AllocError>
    ensures kept { OnOk result ((size : Size) (b new : Bench) (did : Did) → Follows size b ledger.old
        → HartMoves size b (words.Goes did) new board.now → Follows size new ledger.new) }
    ensures resumed { ledger.new.resumed ≡ ledger.old.resumed }
{
    match board.in_doubt() {
        None => Ok(()),
        Some(entry) => {
            let memory = board.ram().bytes();
            record_command(ledger, alloc, entry, memory, Some(6))
        }
    }
}

/// The suspension that made the image that stands, without its memory. None where no image stands.
fn suspension_in(now: Durable) -> Option<Entry>
    ensures { MatchOption result (now.image ≡ None) (λ entry. (head : ImageHead) × (now.image ≡ Some head)
        × ((memory : List ℕ) → change_in entry memory ≡ Suspend head.hart head.address head.opaque memory)) }
{
    let head = now.image?;
    Some(Entry::Suspend(head.hart, head.address, head.opaque))
}

/// That board sleeps; the memory of its suspension is still the one of the call.
fn record_sleep(
    ledger: &mut RunLedger,
    alloc: Global,
    board: &Board<SimDisk>,
) -> Result<(), AllocError>
    ensures kept { OnOk result ((size : Size) (b new : Bench) → Follows size b ledger.old
        → HartMoves size b (words.Over life_ends.Asleep) new board.now → Follows size new ledger.new) }
    ensures resumed { ledger.new.resumed ≡ ledger.old.resumed }
{
    match suspension_in(board.now()) {
        None => Ok(()),
        Some(entry) => {
            let memory = board.ram().bytes();
            record_command(ledger, alloc, entry, memory, None)
        }
    }
}

/// That board was reset.
fn record_reset(
    ledger: &mut RunLedger,
    alloc: Global,
    board: &Board<SimDisk>,
) -> Result<(), AllocError>
    ensures kept { OnOk result ((size : Size) (b new : Bench) (kind : ResetType) → Follows size b ledger.old
        → HartMoves size b (words.Over (life_ends.Reset kind)) new board.now → Follows size new ledger.new) }
    ensures resumed { ledger.new.resumed ≡ ledger.old.resumed }
{
    let entry = Entry::Command(Command::Reset(board.now().reason));
    record_command(ledger, alloc, entry, &[], None)
}

/// A hart of that board ended the life so.
fn record_end(
    ledger: &mut RunLedger,
    alloc: Global,
    board: &Board<SimDisk>,
    end: LifeEnd,
) -> Result<(), AllocError>
    ensures kept { OnOk result ((size : Size) (b new : Bench) → Follows size b ledger.old
        → HartMoves size b (words.Over end) new board.now → Follows size new ledger.new) }
    ensures resumed { ledger.new.resumed ≡ ledger.old.resumed }
{
    match end {
        LifeEnd::Asleep => record_sleep(ledger, alloc, board),
        LifeEnd::Reset(_) => record_reset(ledger, alloc, board),
    }
}

/// A turn of a hart of that board, or its call, ended so. The hart asked for one command at most, and the memory
/// is still the one that the command found.
pub fn record_hart(
    ledger: &mut RunLedger,
    alloc: Global,
    board: &Board<SimDisk>,
    word: Word,
) -> Result<(), AllocError>
    ensures kept { OnOk result ((size : Size) (b new : Bench) → Follows size b ledger.old
        → HartMoves size b word new board.now → Follows size new ledger.new) }
    ensures resumed { ledger.new.resumed ≡ ledger.old.resumed }
{
    match word {
        Word::Goes(_) => record_in_doubt(ledger, alloc, board),
        Word::Over(end) => record_end(ledger, alloc, board, end),
    }
}
