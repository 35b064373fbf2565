//! Lines that ask something of a board that is on.

ghost use Rattle.std.specs.Prelude.{◌≡◌, Some, None, Ok, Err};
ghost use Rattle.board_model.specs.Shapes.{Size};
ghost use Rattle.bench_report.specs.Views.{disk_in};
ghost use Rattle.bench_report.specs.Bench.{Bench, BenchLife};
ghost use Rattle.bench_report.specs.Happens.{says, shows};
ghost use Rattle.bench_report.specs.Asides.{AsideStep};
ghost use Rattle.bench_report.specs.Deeds.{CallWake};
ghost use Rattle.bench_report.specs.Steps.{ConsoleStep, CallStep};
ghost use Rattle.simdisk.specs.declared.SimDisk.{SimDisk};
ghost use Rattle.bench_report.specs.Agree.{CountsNone, HasDisk, StaysOn, Agrees, OnIs, BoardAfter, StepsTo};

use crate::power::{OffDisk, Power};
use crate::steps::says;
use board::Board;
use board_model::{CallWords, ConsoleCommand, HartId};
use crew::Crew;
use machine::{MachineLine, Word};
use report_lines::{Answer, Printed};
use simdisk::SimDisk;
use std::alloc::Global;

/// Calls the wake-up device of a board that is on.
fn wake(board: &mut Board<SimDisk>) -> Answer
    ensures { (size : Size) (b : Bench) (life : BenchLife) → b.power ≡ Some life → OnIs size b board.old
        → (new : Bench) × AsideStep CallWake (Some life) b result new × OnIs size new board.new
        × (new.payloads ≡ b.payloads) }
{
    match board.wake() {
        Ok(()) => says(Printed::Woken),
        Err(e) => says(Printed::WakeRefused(e.code())),
    }
}

/// Issues a command of the console, where the board is on.
pub fn console(command: ConsoleCommand, power: &mut Power) -> Answer
    ensures { (size : Size) (b : Bench) → Agrees size b power.old
        → StepsTo size b power.new (ConsoleStep command b.power b result) }
{
    match power {
        Power::Off(_) => says(Printed::Off),
        Power::On(board) => match board.console(command) {
            Ok(receipt) => says(Printed::Acknowledged(command, receipt.number())),
            Err(e) => says(Printed::CommandRefused(command, e.code())),
        },
    }
}

pub(crate) fn wake_line(power: Power) -> (Power, Answer)
    ensures { (size : Size) (b : Bench) → Agrees size b power
        → StepsTo size b result.0 (AsideStep CallWake b.power b result.1) }
{
    match power {
        Power::Off(disk) => (Power::Off(disk), says(Printed::Off)),
        Power::On(mut board) => {
            let answer = wake(&mut board);
            (Power::On(board), answer)
        }
    }
}

/// A board after what is said of a turn or a call of a hart: off where that ended the life. A board that dozes
/// is on.
pub fn after(board: Board<SimDisk>, word: Word) -> Power
    ensures reported { (size : Size) (b : Bench) → BoardAfter size word b board → Agrees size b result }
    ensures disk { (d : SimDisk) → HasDisk result d → d ≡ disk_in board }
    ensures on { StaysOn word board result }
{
    match word {
        Word::Goes(_) => Power::On(board),
        Word::Over(_) => Power::Off(OffDisk {
            disk: board.into_disk(),
        }),
    }
}

/// A call that is made in the place of a hart of a board that is on.
fn call<C: Crew>(
    alloc: Global,
    crew: &C,
    mut board: Board<SimDisk>,
    hart: HartId,
    words: CallWords,
) -> (Power, MachineLine)
    ensures { (size : Size) (b : Bench) → OnIs size b board → StepsTo size b result.0
        (λ new. CallStep b.power hart words b (shows result.1) new × CountsNone result.0 b new) }
{
    if !board.machine().has(hart) {
        return (Power::On(board), MachineLine::Off);
    }
    let said = board.call(alloc, crew, hart, words);
    let line = machine::called(board.machine(), hart, said);
    match said {
        None => (Power::On(board), line),
        Some(word) => (after(board, word), line),
    }
}

pub(crate) fn call_line<C: Crew>(
    alloc: Global,
    crew: &C,
    hart: HartId,
    words: CallWords,
    power: Power,
) -> (Power, MachineLine)
    ensures { (size : Size) (b : Bench) → Agrees size b power → StepsTo size b result.0
        (λ new. CallStep b.power hart words b (shows result.1) new × CountsNone result.0 b new) }
{
    match power {
        Power::Off(disk) => (Power::Off(disk), MachineLine::Off),
        Power::On(board) => call(alloc, crew, board, hart, words),
    }
}
