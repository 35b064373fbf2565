//! Turns of a hart of a board that is not moved.
//! A law runs nothing, and tells the prover a fact: `idle_turns_change_nothing`.

ghost use Rattle.std.specs.Prelude.{◌≡◌, ◌≤◌, true, false, IfSome, IfNone, MatchOption};
ghost use Rattle.board_model.specs.Shapes.{Size};
ghost use Rattle.bench_report.specs.Agree.{Agrees, IsUnstruck};
ghost use Rattle.bench_report.specs.Bench.{Bench};
ghost use Rattle.bench_report.specs.Happens.{shows};
ghost use Rattle.bench_report.specs.Steps.{TurnStep};
ghost use Rattle.bench_report.specs.Views.{machine_in, store_in, store_fault_state};
ghost use Rattle.bench_report.specs.Lives.{WentInPlace};
ghost use Rattle.machine.specs.Shows.{HasHart};
ghost use Rattle.machine.specs.declared.line.MachineLine.TheVariants as shown;
ghost use Rattle.sbi.specs.Words.{life_goes_on};

use crate::power::Power;
use crate::row_laws::idle_turns_change_nothing;
use crate::rows::is_idle;
use crate::setting::Setting;
use crate::steps::struck;
use board::Board;
use board_model::HartId;
use crew::Crew;
use machine::Word;
use simdisk::SimDisk;
use std::alloc::Global;

/// Makes turns of a hart of a board that is on. Answers how many, and the word of the last. An idle turn changes nothing: so a
/// row that begins with one is idle to its end, and its other turns need not be made.
fn row_on<C: Crew>(
    alloc: Global,
    crew: &C,
    board: &mut Board<SimDisk>,
    hart: HartId,
    count: u32,
) -> (u32, Word)
    requires hart { HasHart (machine_in board.old) hart }
    requires some { 1 ≤ count }
    requires calm { (store_fault_state (store_in board.old)).struck ≡ false }
    ensures reported { (size : Size) (b : Bench) → Agrees size b (Power.On board.old)
        → WentInPlace size hart count b result.0 result.1 (Power.On board.new) }
    ensures range { (1 ≤ result.0) × (result.0 ≤ count) }
{
    idle_turns_change_nothing();
    let (first, said) = board.turns(alloc, crew, hart, 1);
    let struck = board.struck();
    if is_idle(said) && !struck {
        return (count, said);
    }
    if count == 1 || said.ends_row() || struck {
        return (first, said);
    }
    let (more, word) = board.turns(alloc, crew, hart, count - 1);
    (first + more, word)
}

/// Makes turns of a hart without moving the board. Answers how many, and the word of the last. None where the board is off or
/// lacks the hart, and then nothing has changed.
pub fn in_place<C: Crew>(
    setting: &Setting<'_, C>,
    power: &mut Power,
    hart: HartId,
    count: u32,
) -> Option<(u32, Word)>
    requires some { 1 ≤ count }
    requires calm { IsUnstruck power.old }
    ensures reported { (size : Size) (b : Bench) → Agrees size b power.old → MatchOption result
        (TurnStep b.power hart count b (shows shown.Off) b)
        (λ did. WentInPlace size hart count b did.0 did.1 power.new) }
    ensures range { IfSome result (λ did. (1 ≤ did.0) × (did.0 ≤ count)) }
    ensures none { IfNone result (power.new ≡ power.old) }
{
    match power {
        Power::Off(_) => None,
        Power::On(board) => {
            if board.machine().has(hart) {
                Some(row_on(setting.alloc, setting.crew, board, hart, count))
            } else {
                None
            }
        }
    }
}

/// Whether the board is still on after a turn, by the turn's word, and no armed cut struck in that turn.
pub fn is_still_on(power: &Power, word: Word) -> bool
    ensures on { result ≡ true → life_goes_on word ≡ true }
    ensures calm { result ≡ true → IsUnstruck power.now }
    ensures reported { result ≡ true → (size : Size) (b : Bench) → Agrees size b power.now → b.fault_state.struck ≡ false }
{
    let hit = struck(power);
    word.goes_on() && !hit
}
