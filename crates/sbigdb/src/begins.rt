//! Where a session begins: at the end of its script, where what a bench found of it parts from it, or where what a bench arms strikes.

ghost use Rattle.std.specs.Prelude.{◌≡◌, ◌⊎◌, ◌≤◌, ◌<◌, ◌++◌, ◌∷◌, [], List, All, Ok, Err, IfErr, IfOk, drop, length, take};
ghost use Rattle.std.specs.Option.{option_to_list};
ghost use Rattle.board_model.specs.Shapes.{Size};
ghost use Rattle.board_model.specs.declared.refusal.Refusal.TheVariants.{Memory, Output};
ghost use Rattle.script_lang.specs.Lines.{IsLineInRange};
ghost use Rattle.script_lang.specs.Scripts.{script_of, Script as Said};
ghost use Rattle.script_lang.specs.Spellings.{script_text};
ghost use Rattle.script_lang.specs.Views.{view};
ghost use Rattle.script_lang.specs.declared.line.Line.{Line as SaidLine};
ghost use Rattle.bench_schedules.specs.Orders.{AreOrderOf, IsScheduleOf};
ghost use Rattle.sbigdb.specs.declared.given.Begin.TheVariants.{Schedule};
ghost use Rattle.sbigdb.specs.Begins.{BeginsAt, HasNone, IsRow, NoRow, PartsAt, both_turn, is_same_row, turns_of_both};
ghost use Rattle.sbigdb.specs.Strikes.{StopsBefore};

use crate::given::{Begin, ScheduleChoice};
use crate::strikes::before_strike;
use bench_schedules::show;
use bench_sweep::{BenchKind, WantedRow, show_row};
use board::Payloads;
use board_model::Refusal;
use script_lang::{Line, Script, parse_script};
use std::alloc::{AllocError, Global};
use std::thread::Threads;

/// Whether both lines are the same row of turns, or neither is one.
fn is_same_row(one: &Line, other: &Line) -> bool
    ensures { result ≡ is_same_row one.now other.now }
{
    match one {
        Line::Turn(hart, count) => match other {
            Line::Turn(by, turns) => hart == by && count == turns,
            _ => false,
        },
        _ => match other {
            Line::Turn(_, _) => false,
            _ => true,
        },
    }
}

/// The turns that both lines make, where these are rows of one hart.
fn turns_of_both(one: &Line, other: &Line) -> Option<Line>
    ensures { result ≡ turns_of_both one.now other.now }
{
    match one {
        Line::Turn(hart, count) => match other {
            Line::Turn(by, turns) => {
                if hart == by {
                    Some(Line::Turn(*hart, (*count).min(*turns)))
                } else {
                    None
                }
            }
            _ => None,
        },
        _ => None,
    }
}

/// Those of the first line of both.
#[tactic(auto, using(crate::proofs::Partings::both_first, crate::proofs::Partings::none_left, crate::proofs::Partings::none_right))]
fn first_turns(left: &[Line], right: &[Line]) -> Option<Line>
    ensures { option_to_list result ≡ both_turn left.now right.now }
{
    if left.is_empty() || right.is_empty() {
        return None;
    }
    turns_of_both(&left[0], &right[0])
}

/// How many lines both scripts begin with.
#[tactic(auto, using(crate::proofs::Partings::one_more_same, crate::proofs::Partings::part_here, crate::proofs::Partings::part_at_end))]
fn parting(own: &[Line], other: &[Line]) -> usize
    requires order { AreOrderOf own.now other.now }
    ensures few { result ≤ length own.now }
    ensures fewer { result ≤ length other.now }
    ensures same { take result own.now ≡ take result other.now }
    ensures parts { (line : SaidLine) (a b : List SaidLine) → drop result own.now ≡ line ∷ a → drop result other.now ≡ line ∷ b → ⊥ }
{
    let both = own.len().min(other.len());
    for i in 0..both {
        if !is_same_row(&own[i], &other[i]) {
            return i;
        }
    }
    both
}

/// Lines, and a row of turns after them, where there is one.
fn with_turns(lines: Vec<Line>, next: Option<Line>) -> Result<Vec<Line>, AllocError>
    ensures { IfOk result (λ made. made.items ≡ lines.items ++ option_to_list next) }
{
    match next {
        None => Ok(lines),
        Some(row) => {
            let mut lines = lines;
            lines.push(row)?;
            Ok(lines)
        }
    }
}

/// The lines up to where the other ones part from these.
fn lines_to(own: &[Line], other: Vec<Line>) -> Result<Vec<Line>, AllocError>
    requires order { AreOrderOf own.now other.items }
    ensures parts { IfOk result (λ lines. PartsAt own.now other.items lines.items) }
    ensures ranges { IfOk result (λ lines. (size : Size) → All (IsLineInRange size) own.now
        → All (IsLineInRange size) other.items → All (IsLineInRange size) lines.items) }
{
    let place = parting(own, &other);
    let next = first_turns(&own[place..], &other[place..]);
    let mut lines = other;
    lines.truncate(place);
    with_turns(lines, next)
}

/// A script up to where a schedule of it parts from it.
fn script_to(own: &Script, found: Script) -> Result<Script, AllocError>
    requires order { IsScheduleOf (view own.now) (view found) }
    requires own_ranges { All (IsLineInRange own.now.shape) own.now.lines.items }
    requires ranges { All (IsLineInRange found.shape) found.lines.items }
    ensures parts { IfOk result (λ script. PartsAt own.now.lines.items found.lines.items script.lines.items) }
    ensures board { IfOk result (λ script. script.shape ≡ own.now.shape) }
    ensures ranges { IfOk result (λ script. All (IsLineInRange script.shape) script.lines.items) }
{
    let lines = lines_to(&own.lines, found.lines)?;
    Ok(Script {
        shape: own.shape,
        lines,
    })
}

/// The script that a text is, which has a line feed after its last line.
fn read_back(alloc: Global, text: &[u8]) -> Result<Script, Refusal>
    ensures read { (said : Said) → script_of (script_text said) ≡ Ok said → text.now ≡ script_text said ++ 10 ∷ []
        → IfOk result (λ script. view script ≡ said) }
    ensures ranges { IfOk result (λ script. All (IsLineInRange script.shape) script.lines.items) }
    ensures refused { (said : Said) → script_of (script_text said) ≡ Ok said → text.now ≡ script_text said ++ 10 ∷ []
        → IfErr result (λ e. e ≡ Memory) }
{
    let end = text.len().saturating_sub(1);
    parse_script(alloc, &text[..end])
}

/// The schedule of a script that [`bench_schedules::show`] writes.
fn schedule_found<R: Threads + Sync>(
    alloc: Global,
    drawn: ScheduleChoice,
    script: &[u8],
    payloads: &Payloads,
) -> Result<Script, Refusal>
    ensures found { IfOk result (λ found. (said : Said) × (script_of script.now ≡ Ok said) × IsScheduleOf said (view found)) }
    ensures ranges { IfOk result (λ found. All (IsLineInRange found.shape) found.lines.items) }
    ensures refused { IfErr result (λ e. (e ≡ Memory) ⊎ (e ≡ Output) ⊎ (script_of script.now ≡ Err e)) }
{
    let mut text = Vec::new(alloc);
    show::<R, Vec<u8>>(alloc, script, payloads, drawn.seed, drawn.number, &mut text)?;
    read_back(alloc, &text)
}

/// A script up to where a schedule of it parts from it.
fn schedule_to<R: Threads + Sync>(
    alloc: Global,
    drawn: ScheduleChoice,
    own: &Script,
    script: &[u8],
    payloads: &Payloads,
) -> Result<Script, Refusal>
    requires read { script_of script.now ≡ Ok (view own.now) }
    requires ranges { All (IsLineInRange own.now.shape) own.now.lines.items }
    ensures begins { IfOk result (λ begun. BeginsAt (Schedule drawn) script.now payloads.now (view begun)) }
    ensures ranges { IfOk result (λ begun. All (IsLineInRange begun.shape) begun.lines.items) }
    ensures refused { IfErr result (λ e. (e ≡ Memory) ⊎ (e ≡ Output)) }
{
    let found = schedule_found::<R>(alloc, drawn, script, payloads)?;
    let begun = script_to(own, found)?;
    Ok(begun)
}

/// The script of a row that [`bench_sweep::show_row`] writes.
fn row_found<R: Threads + Sync>(
    alloc: Global,
    wanted: WantedRow,
    script: &[u8],
    payloads: &Payloads,
) -> Result<Script, Refusal>
    ensures found { IfOk result (λ found. (said : Said) × (script_of script.now ≡ Ok said) × ((view found).size ≡ said.size)
        × IsRow wanted.bench wanted.number said payloads.now (view found)) }
    ensures ranges { IfOk result (λ found. All (IsLineInRange found.shape) found.lines.items) }
    ensures refused { IfErr result (λ e. (e ≡ Memory) ⊎ (e ≡ Output) ⊎ (script_of script.now ≡ Err e)
        ⊎ NoRow wanted.bench wanted.number script.now payloads.now e) }
{
    let mut text = Vec::new(alloc);
    let begins = payloads.copy()?;
    show_row::<R, Vec<u8>>(alloc, wanted, script, begins, &mut text)?;
    read_back(alloc, &text)
}

/// The script of a row up to where what it arms strikes.
fn row_to<R: Threads + Sync>(
    alloc: Global,
    wanted: WantedRow,
    script: &[u8],
    payloads: &Payloads,
) -> Result<Script, Refusal>
    ensures stops { IfOk result (λ stop. (said : Said) × (found : Said) × (script_of script.now ≡ Ok said)
        × IsRow wanted.bench wanted.number said payloads.now found × ((view stop).size ≡ said.size)
        × StopsBefore said.size payloads.now found.lines (view stop).lines) }
    ensures ranges { IfOk result (λ stop. All (IsLineInRange stop.shape) stop.lines.items) }
    ensures refused { IfErr result (λ e. (e ≡ Memory) ⊎ (e ≡ Output) ⊎ (script_of script.now ≡ Err e)
        ⊎ NoRow wanted.bench wanted.number script.now payloads.now e) }
{
    let found = row_found::<R>(alloc, wanted, script, payloads)?;
    let stop = before_strike::<R>(alloc, payloads, found)?;
    Ok(stop)
}

/// A script up to where the session begins: to its end; to where what a bench finds of it, with these payloads in the slots, parts from it;
/// or to where what a row of a bench arms strikes.
///
/// Refused `Memory`; `BadShape` where the bench has no such row, or the row has more lines than a script may have; and `NotPlain` where no
/// bench runs the script.
pub fn begun<R: Threads + Sync>(
    alloc: Global,
    begin: Begin,
    own: Script,
    script: &[u8],
    payloads: &Payloads,
) -> Result<Script, Refusal>
    requires read { script_of script.now ≡ Ok (view own) }
    requires ranges { All (IsLineInRange own.shape) own.lines.items }
    ensures begins { IfOk result (λ begun. BeginsAt begin script.now payloads.now (view begun)) }
    ensures ranges { IfOk result (λ begun. All (IsLineInRange begun.shape) begun.lines.items) }
    ensures refused { IfErr result (λ e. (e ≡ Memory) ⊎ (e ≡ Output) ⊎ HasNone begin script.now payloads.now e) }
{
    match begin {
        Begin::End => Ok(own),
        Begin::Schedule(drawn) => schedule_to::<R>(alloc, drawn, &own, script, payloads),
        Begin::Cut(number) => {
            let wanted = WantedRow {
                bench: BenchKind::Cuts,
                number,
            };
            row_to::<R>(alloc, wanted, script, payloads)
        }
        Begin::Failure(number) => {
            let wanted = WantedRow {
                bench: BenchKind::Fails,
                number,
            };
            row_to::<R>(alloc, wanted, script, payloads)
        }
    }
}
