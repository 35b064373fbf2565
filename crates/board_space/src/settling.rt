//! Local turns, made until one is not: what a board settles to. How far they go is a guess; that each is local is not.

ghost use Rattle.std.specs.Prelude.{◌≡◌, ◌<◌, ◌≤◌, IfSome, true, false};
ghost use Rattle.model_board.specs.Maps.{SameOutside};
ghost use Rattle.board_space.specs.Mapped.{map_in};
ghost use Rattle.board_space.specs.Space.{IsSureTurn, SettlesSure};

use crate::leaving::reads_kept;
use board_model::{HartId, Shape};
use hart::Hart;
use model_board::{Board, TouchMap};
use rv_decode::Reg;

/// The most turns of a hart in one go.
const MOST_TURNS: u32 = 10_000;

/// Whether a hart stands before another, by its pc and its registers in their order: any order would do.
fn is_less(a: &Hart, b: &Hart) -> bool {
    if a.pc() != b.pc() {
        return a.pc() < b.pc();
    }
    for number in 1..32u8 {
        let register = Reg::new(number);
        if a.reg(register) != b.reg(register) {
            return a.reg(register) < b.reg(register);
        }
    }
    false
}

/// Makes the next turn of a hart where it is local by the map, and where it reads no register that is left out, if some may be. Whether it
/// did; if not, nothing changes.
#[inline(always)]
fn move_on(board: &mut Board, map: &TouchMap, leaves: bool, hart: HartId) -> bool
    requires { hart < board.old.size.harts }
    ensures local { result ≡ true → IsSureTurn board.old.size (map_in map.now) leaves hart board.old.board board.new.board }
    ensures stays { result ≡ false → board.new ≡ board.old }
    ensures size { board.new.size ≡ board.old.size }
    ensures raw { board.new.machine.size ≡ board.old.machine.size }
    ensures outside { SameOutside (map_in map.now) board.old.machine.memory board.new.machine.memory }
{
    if !reads_kept(board, leaves, hart) {
        return false;
    }
    board.move_alone(hart, map)
}

/// Makes local turns of a hart until one is not, or until the hart stands as it stood before. How many they were, and whether it does.
#[tactic(auto, using(crate::proofs::Chains::settled, crate::proofs::Chains::settles_by, crate::proofs::Chains::same_outside, crate::proofs::Chains::outside_on))]
fn run(board: &mut Board, map: &TouchMap, leaves: bool, hart: HartId) -> (u32, bool)
    requires { hart < board.old.size.harts }
    ensures few { result.0 ≤ 10000 }
    ensures settles { SettlesSure board.old.size (map_in map.now) leaves board.old.board board.new.board }
    ensures size { board.new.size ≡ board.old.size }
    ensures raw { board.new.machine.size ≡ board.old.machine.size }
    ensures memory { SameOutside (map_in map.now) board.old.machine.memory board.new.machine.memory }
{
    let mut seen = board.machine().hart(hart).copy();
    let mut next = 16;
    for turn in 1..=MOST_TURNS {
        if !move_on(board, map, leaves, hart) {
            return (turn - 1, false);
        }
        let stands = board.machine().hart(hart);
        if stands.is_as(&seen) {
            return (turn, true);
        }
        if turn == next {
            seen = stands.copy();
            next *= 2;
        }
    }
    (MOST_TURNS, false)
}

/// The least that a hart stands as, while it goes round once more, and how many turns these are.
#[tactic(auto, using(crate::proofs::Chains::settled, crate::proofs::Chains::settles_by, crate::proofs::Chains::same_outside, crate::proofs::Chains::outside_on))]
fn go_round(board: &mut Board, map: &TouchMap, leaves: bool, hart: HartId) -> (u32, Hart)
    requires { hart < board.old.size.harts }
    ensures few { result.0 ≤ 10000 }
    ensures settles { SettlesSure board.old.size (map_in map.now) leaves board.old.board board.new.board }
    ensures size { board.new.size ≡ board.old.size }
    ensures raw { board.new.machine.size ≡ board.old.machine.size }
    ensures memory { SameOutside (map_in map.now) board.old.machine.memory board.new.machine.memory }
{
    let first = board.machine().hart(hart).copy();
    let mut least = first.copy();
    for turn in 1..=MOST_TURNS {
        if !move_on(board, map, leaves, hart) {
            return (turn - 1, least);
        }
        let stands = board.machine().hart(hart);
        if stands.is_as(&first) {
            return (turn, least);
        }
        if is_less(stands, &least) {
            least = stands.copy();
        }
    }
    (MOST_TURNS, least)
}

/// Makes local turns of a hart until it stands so, and answers how many.
#[tactic(auto, using(crate::proofs::Chains::settled, crate::proofs::Chains::settles_by, crate::proofs::Chains::same_outside, crate::proofs::Chains::outside_on))]
fn run_to(board: &mut Board, map: &TouchMap, leaves: bool, hart: HartId, at: &Hart) -> u32
    requires { hart < board.old.size.harts }
    ensures few { result ≤ 10000 }
    ensures settles { SettlesSure board.old.size (map_in map.now) leaves board.old.board board.new.board }
    ensures size { board.new.size ≡ board.old.size }
    ensures raw { board.new.machine.size ≡ board.old.machine.size }
    ensures memory { SameOutside (map_in map.now) board.old.machine.memory board.new.machine.memory }
{
    for turn in 0..MOST_TURNS {
        if board.machine().hart(hart).is_as(at) || !move_on(board, map, leaves, hart) {
            return turn;
        }
    }
    MOST_TURNS
}

/// Makes local turns of a hart, and answers how many. Where it goes round in them, it ends at the least that it stands as.
#[tactic(auto, using(crate::proofs::Chains::settled, crate::proofs::Chains::settles_on, crate::proofs::Chains::same_outside, crate::proofs::Chains::outside_on))]
pub(crate) fn settle_one(board: &mut Board, map: &TouchMap, leaves: bool, hart: HartId) -> u32
    requires { hart < board.old.size.harts }
    ensures settles { SettlesSure board.old.size (map_in map.now) leaves board.old.board board.new.board }
    ensures size { board.new.size ≡ board.old.size }
    ensures raw { board.new.machine.size ≡ board.old.machine.size }
    ensures memory { SameOutside (map_in map.now) board.old.machine.memory board.new.machine.memory }
{
    let (turns, is_round) = run(board, map, leaves, hart);
    if !is_round {
        return turns;
    }
    let (round, least) = go_round(board, map, leaves, hart);
    turns + round + run_to(board, map, leaves, hart, &least)
}

/// The hart of that number, where the board has it and its bit is set.
pub(crate) fn one_of(board: &Board, harts: u32, number: u64) -> Option<HartId>
    requires { number < 32 }
    ensures { IfSome result (λ h. h < board.now.size.harts) }
{
    if harts >> number & 1 == 0 {
        return None;
    }
    board.machine().shape().hart(number)
}

/// Makes local turns of those harts in turn whose bits are set.
#[tactic(auto, using(crate::proofs::Chains::settled, crate::proofs::Chains::settles_on, crate::proofs::Chains::same_outside, crate::proofs::Chains::outside_on))]
pub(crate) fn settle(board: &mut Board, map: &TouchMap, leaves: bool, harts: u32)
    ensures settles { SettlesSure board.old.size (map_in map.now) leaves board.old.board board.new.board }
    ensures size { board.new.size ≡ board.old.size }
    ensures raw { board.new.machine.size ≡ board.old.machine.size }
    ensures memory { SameOutside (map_in map.now) board.old.machine.memory board.new.machine.memory }
{
    for number in 0..8u64 {
        if let Some(hart) = one_of(board, harts, number) {
            let _turns = settle_one(board, map, leaves, hart);
        }
    }
}
