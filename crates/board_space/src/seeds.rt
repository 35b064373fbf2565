//! A map to begin with, by runs at random. It is a guess: what it lacks is found by the search, which then starts over.

ghost use Rattle.std.specs.Prelude.{◌≡◌, ◌<◌, ◌≤◌, length};
ghost use Rattle.board_model.specs.Shapes.{ram_bytes_of};

use crate::guesses::{Broke, Guess};
use crate::questions::Question;
use crate::space::Failures;
use board_model::HartId;
use model_board::{Board, Status};
use state_space::Refused;
use std::alloc::Global;

/// How many turns a run from a boot has, and one that goes on from where a search was given up.
const TURNS: u64 = 50_000;

const TURNS_ON: u64 = 20_000;

/// In how many turns power fails once, one is made that the store refuses if it is asked, and one of a store that is down from then on.
const CUT_IN: u64 = 8191;

const REFUSED_IN: u64 = 3;

const DOWN_IN: u64 = 12;

/// The next number of a sequence that looks random (Marsaglia, Xorshift RNGs, 2003).
fn draw(state: &mut u64) -> u64 {
    *state ^= *state << 13;
    *state ^= *state >> 7;
    *state ^= *state << 17;
    *state
}

/// Widens the map by what the next turn of a hart touches, which is four things at most.
fn widen(board: &mut Board, guess: &mut Guess, hart: HartId)
    requires { hart < board.old.size.harts }
    ensures { board.new ≡ board.old }
{
    for touch in 0..12u8 {
        match board.keeps(hart, &guess.map) {
            Ok(()) => return,
            Err(broke) => guess.widen(Broke::Touches(hart, broke)),
        }
    }
}

/// Brings a board on where it is off, and wakes it where it dozes. Whether it is on then.
fn bring_on(board: &mut Board, payload: &[u8]) -> bool
    requires { length payload.now ≤ ram_bytes_of board.old.size }
    ensures { board.new.size ≡ board.old.size }
{
    match board.status() {
        Status::On => {
            let _woke = board.wake();
            true
        }
        Status::Off => board.power_on(payload),
        Status::Ended => false,
    }
}

/// A turn of a hart, of which the store may refuse what it asks, or before which power may fail, where that is asked for.
fn make_turn(board: &mut Board, failures: Failures, hart: HartId, drawn: u64)
    requires { hart < board.old.size.harts }
    ensures { board.new.size ≡ board.old.size }
{
    if failures.cuts && drawn % CUT_IN == 0 {
        board.cut();
    } else if failures.refusals && drawn % REFUSED_IN == 0 {
        let _refused = board.refused(hart, drawn % DOWN_IN == 0);
    } else {
        board.turn(hart);
    }
}

/// What a hart did at a turn.
#[derive(Clone, Copy, Drop)]
struct Use {
    hart: HartId,
    pc: u64,
    /// The registers that it read, and those that it wrote.
    reads: u32,
    writes: u32,
}

/// Adds what the next turn of a hart does.
fn trace(board: &mut Board, hart: HartId, uses: &mut Vec<Use>) -> Result<(), Refused>
    requires { hart < board.old.size.harts }
    ensures { board.new ≡ board.old }
{
    let (reads, writes) = board.uses(hart);
    let _sized = board.machine();
    let pc = board.machine().hart(hart).pc();
    uses.push(Use {
        hart,
        pc,
        reads,
        writes,
    })?;
    Ok(())
}

/// What each hart read again, from each of its turns on.
fn look_back(uses: &[Use], guess: &mut Guess) {
    let mut live = [0u32; 8];
    for back in 0..uses.len() {
        let used = uses[uses.len() - 1 - back];
        let place = used.hart.index();
        live[place] = live[place] & !used.writes | used.reads;
        guess.widen(Broke::Reads(used.pc, live[place]));
    }
}

/// How the harts of a run are drawn.
#[derive(Clone, Copy, Drop)]
struct Draws {
    /// How many turns it has.
    turns: u64,
    /// A hart makes fewer turns in a row, and one at least.
    longest: u64,
    /// What may fail.
    failures: Failures,
}

/// Nothing fails.
const NONE_FAILS: Failures = Failures {
    cuts: false,
    refusals: false,
};

/// A run of turns of harts that are drawn.
fn run(
    board: &mut Board,
    question: &Question,
    guess: &mut Guess,
    draws: Draws,
    state: &mut u64,
    uses: &mut Vec<Use>,
) -> Result<(), Refused>
    requires fits { length question.now.payload.now ≤ ram_bytes_of question.now.shape }
    requires size { board.old.size ≡ question.now.shape }
    requires some { 0 < draws.longest }
    ensures { board.new.size ≡ board.old.size }
{
    let harts = u64::from(question.shape.harts());
    let mut left = 0;
    let mut turning = None;
    for turn in 0..draws.turns {
        if left == 0 {
            if !bring_on(board, question.payload) {
                return Ok(());
            }
            turning = question.shape.hart(draw(state) % harts);
            left = 1 + draw(state) % draws.longest;
        }
        left -= 1;
        if let Some(hart) = turning {
            widen(board, guess, hart);
            trace(board, hart, uses)?;
            make_turn(board, draws.failures, hart, draw(state));
        }
    }
    Ok(())
}

/// Widens a guess by what a run from a boot does.
fn seed_by(
    alloc: Global,
    question: &Question,
    guess: &mut Guess,
    draws: Draws,
    state: &mut u64,
) -> Result<(), Refused>
    requires fits { length question.now.payload.now ≤ ram_bytes_of question.now.shape }
    requires some { 0 < draws.longest }
{
    let Ok(mut board) = Board::new(alloc, &question.shape, question.reason) else {
        return Err(Refused::Memory);
    };
    let mut uses = Vec::new(alloc);
    run(&mut board, question, guess, draws, state, &mut uses)?;
    look_back(uses.as_slice(), guess);
    Ok(())
}

/// Widens a guess by what some runs from a boot do, of which in the first nothing fails.
pub(crate) fn seed(alloc: Global, question: &Question, guess: &mut Guess) -> Result<(), Refused>
    requires { length question.now.payload.now ≤ ram_bytes_of question.now.shape }
{
    let mut state = 0x9e37_79b9_7f4a_7c15;
    let whole = Draws {
        turns: TURNS,
        longest: 1,
        failures: NONE_FAILS,
    };
    seed_by(alloc, question, guess, whole, &mut state)?;
    for longest in [1, 10, 100, 1000] {
        let draws = Draws {
            turns: TURNS,
            longest,
            failures: question.failures,
        };
        seed_by(alloc, question, guess, draws, &mut state)?;
    }
    Ok(())
}

/// Widens a guess by what some runs do that go on from the board at which a search found it wrong. What comes after such a board is likely to
/// be guessed wrong too, and would cost a search each time.
pub(crate) fn seed_on(
    alloc: Global,
    question: &Question,
    board: &mut Board,
    guess: &mut Guess,
) -> Result<(), Refused>
    requires fits { length question.now.payload.now ≤ ram_bytes_of question.now.shape }
    requires size { board.old.size ≡ question.now.shape }
{
    let mut state = 0x9e37_79b9_7f4a_7c15;
    for longest in [1000, 100] {
        let draws = Draws {
            turns: TURNS_ON,
            longest,
            failures: question.failures,
        };
        let mut uses = Vec::new(alloc);
        run(board, question, guess, draws, &mut state, &mut uses)?;
        look_back(uses.as_slice(), guess);
    }
    Ok(())
}
