//! A kernel's own order: each hart makes a turn after the one before it, nothing is refused, and power does not fail.

ghost use Rattle.std.specs.Prelude.{◌≡◌, ◌<◌, ◌≤◌, length, IfOk};
ghost use Rattle.board_model.specs.Shapes.{ram_bytes_of};
ghost use Rattle.kernel_check.specs.Tells.{ShownBy};

use crate::facts::{EndShown, OwnEnd, OwnOrder};
use crate::looks::{Look, bytes_shown};
use crate::walks::{Setting, harts_of};
use board_model::HartId;
use hart::Hart;
use model_board::{Board, Power, Rest, Status};
use std::alloc::{AllocError, Global};

/// How many rounds of turns a life has at most.
const MOST_ROUNDS: u32 = 1_000_000;

/// After how many turns that moved a hart on an order is left.
const MOST_TURNS: u64 = 1_000_000;

/// How often power comes on at most, which takes as long as many turns.
const MOST_LIVES: u64 = 1000;

/// What is counted of an order.
#[derive(Drop)]
struct Counts {
    turns: u64,
    sleeps: u64,
    reboots: u64,
}

/// Where a board stands, but for its memory.
#[derive(Drop)]
struct Stand {
    rest: Rest,
    harts: Vec<Hart>,
}

/// Where a board stands.
fn stand_of(alloc: Global, board: &Board) -> Result<Stand, AllocError> {
    let mut harts = Vec::new(alloc);
    for number in 0..8u64 {
        if let Some(hart) = board.machine().shape().hart(number) {
            harts.push(board.machine().hart(hart).copy())?;
        }
    }
    Ok(Stand {
        rest: board.rest(),
        harts,
    })
}

/// Whether a board stands as that one. A turn that changes its memory moves a hart on.
fn stands_as(board: &Board, stand: &Stand) -> bool {
    if board.rest() != stand.rest {
        return false;
    }
    for number in 0..8u64 {
        if let Some(hart) = board.machine().shape().hart(number)
            && let Some(other) = stand.harts.get(hart.index())
            && !board.machine().hart(hart).is_as(other)
        {
            return false;
        }
    }
    true
}

/// A turn of a hart, and whether it moved the hart on.
fn turn(board: &mut Board, hart: HartId) -> bool
    requires { hart < board.old.size.harts }
    ensures size { board.new.size ≡ board.old.size }
{
    let before = board.machine().hart(hart).pc();
    board.turn(hart);
    board.machine().hart(hart).pc() != before
}

/// A turn of each hart, and how many of them moved their hart on.
fn round(board: &mut Board) -> u64
    ensures size { board.new.size ≡ board.old.size }
{
    let mut moved = 0u64;
    for number in 0..8u64 {
        if let Some(hart) = board.machine().shape().hart(number)
            && board.status() == Status::On
            && turn(board, hart)
        {
            moved = moved.saturating_add(1);
        }
    }
    moved
}

/// A round of turns, and whether nothing changed in it.
fn rests(alloc: Global, board: &mut Board, counts: &mut Counts) -> Result<bool, AllocError>
    ensures size { board.new.size ≡ board.old.size }
{
    let stand = stand_of(alloc, board)?;
    let moved = round(board);
    counts.turns = counts.turns.saturating_add(moved);
    Ok(stands_as(board, &stand))
}

/// Rounds of turns until the board is not on, or nothing changes any more. Whether it came so far.
fn run_life(alloc: Global, board: &mut Board, counts: &mut Counts) -> Result<bool, AllocError>
    ensures size { board.new.size ≡ board.old.size }
{
    for _round in 0..MOST_ROUNDS {
        let moved = round(board);
        counts.turns = counts.turns.saturating_add(moved);
        if board.status() != Status::On {
            return Ok(true);
        }
        if moved == 0 && rests(alloc, board, counts)? {
            return Ok(true);
        }
        if MOST_TURNS <= counts.turns {
            return Ok(false);
        }
    }
    Ok(false)
}

/// Goes on with a board that came to no end: powers it on, or wakes it. Whether there was anything to do.
fn go_on(board: &mut Board, payload: &[u8], counts: &mut Counts) -> bool
    requires { length payload.now ≤ ram_bytes_of board.old.size }
    ensures size { board.new.size ≡ board.old.size }
{
    match board.rest().power {
        Power::On => {
            if board.wake() {
                counts.sleeps = counts.sleeps.saturating_add(1);
                true
            } else {
                false
            }
        }
        Power::Off(Some(_)) => {
            counts.sleeps = counts.sleeps.saturating_add(1);
            board.power_on(payload)
        }
        Power::Off(None) => {
            counts.reboots = counts.reboots.saturating_add(1);
            board.power_on(payload)
        }
        Power::Ended => false,
    }
}

/// What a board at an end shows.
pub fn end_shown(alloc: Global, looks: &[Look], board: &Board) -> Result<EndShown, AllocError>
    ensures { IfOk result (ShownBy looks.now board.now.board) }
{
    if board.status() == Status::Ended {
        return Ok(EndShown::Shutdown(board.rest().reason));
    }
    let bytes = bytes_shown(alloc, looks, board.machine().ram().bytes())?;
    Ok(EndShown::On(bytes))
}

/// Lives until a board comes to an end, and what it shows there. None where it still runs after so many.
fn run_lives(
    alloc: Global,
    board: &mut Board,
    payload: &[u8],
    looks: &[Look],
    counts: &mut Counts,
) -> Result<Option<EndShown>, AllocError>
    requires { length payload.now ≤ ram_bytes_of board.old.size }
    ensures size { board.new.size ≡ board.old.size }
{
    for _life in 0..MOST_LIVES {
        if !run_life(alloc, board, counts)? {
            return Ok(None);
        }
        if !go_on(board, payload, counts) {
            return Ok(Some(end_shown(alloc, looks, board)?));
        }
    }
    Ok(None)
}

/// The own order of a kernel on a board that was never on.
pub fn own_order(
    setting: Setting<'_>,
    board: &mut Board,
    payload: &[u8],
    looks: &[Look],
) -> Result<OwnOrder, AllocError>
    requires { length payload.now ≤ ram_bytes_of board.old.size }
{
    let mut counts = Counts {
        turns: 0,
        sleeps: 0,
        reboots: 0,
    };
    board.power_on(payload);
    let shown = run_lives(setting.alloc, board, payload, looks, &mut counts)?;
    let end = match shown {
        Some(shown) => OwnEnd::Ends(shown),
        None => OwnEnd::Runs(harts_of(setting, board)?),
    };
    Ok(OwnOrder {
        turns: counts.turns,
        sleeps: counts.sleeps,
        reboots: counts.reboots,
        end,
    })
}
