//! Registers that are left out of a board.
//! A law runs nothing, and tells the prover a fact: `model_board::left_out_registers_change_nothing`.

ghost use Rattle.std.specs.Prelude.{◌≡◌, ◌<◌, true, false};
ghost use Rattle.model_board.specs.Events.{Turn};
ghost use Rattle.model_board.specs.LeftOut.{IsLeftOut, StandsFor, held_at, PROBE as PROBE_HELD};
ghost use Rattle.model_board.specs.Registers.{board_holding};
ghost use Rattle.board_space.specs.Leaving.{IsLeft};
ghost use Rattle.board_space.specs.Space.{IsFor, ReadsKept};
ghost use Rattle.board_space.specs.Standing.{Standing};

use crate::guesses::Broke;
use crate::lives::Lives;
use crate::settling::one_of;
use board_model::HartId;
use hart::Hart;
use model_board::{Board, LEFT_OUT, PROBE, Status};
use rv_decode::Reg;

/// What is known of boards that stand for others.
pub(crate) fn boards_stand()
    ensures { Standing }
{
    model_board::left_out_registers_change_nothing();
}

/// Whether the next turn of a hart reads no register that is left out, if any may be.
#[inline(always)]
pub(crate) fn reads_kept(board: &mut Board, leaves: bool, hart: HartId) -> bool
    requires { hart < board.old.size.harts }
    ensures same { board.new ≡ board.old }
    ensures kept { result ≡ true → ReadsKept leaves (Turn hart) board.old.board }
{
    if !leaves {
        return true;
    }
    if let Some(_register) = board.source_left_out(hart) {
        return false;
    }
    true
}

/// The hart, with those registers left out that are none of the bits of a number.
#[tactic(auto, using(crate::proofs::LeftHarts::left_none, crate::proofs::LeftHarts::left_more))]
fn left_out(own: &Hart, live: u32) -> Hart
    ensures id { result.id ≡ own.now.id }
    ensures left { IsLeft own.now result }
{
    let mut left = own.copy();
    for number in 1..32u8 {
        if live >> number & 1 == 0 {
            left.put(Reg::new(number), LEFT_OUT);
        }
    }
    left
}

/// Which registers of a hart are left out and are bits of a number, as the bits of one; and whether some is none of its bits and is not left
/// out.
fn missed(own: &Hart, live: u32) -> (u32, bool) {
    let mut missed = 0;
    let mut has_more = false;
    for number in 1..32u8 {
        let is_live = live >> number & 1 == 1;
        let is_left = own.reg(Reg::new(number)) == LEFT_OUT;
        if is_live && is_left {
            missed |= 1 << number;
        }
        if !is_live && !is_left {
            has_more = true;
        }
    }
    (missed, has_more)
}

/// Leaves out those registers of a hart that are not read again, as it is guessed. Answers which were left out before and are read again, as
/// the bits of a number.
fn leave_out(board: &mut Board, lives: &Lives, hart: HartId) -> u32
    requires { hart < board.old.size.harts }
    ensures stands { StandsFor board.new.board board.old.board }
    ensures memory { board.new.machine.memory ≡ board.old.machine.memory }
    ensures size { board.new.size ≡ board.old.size }
    ensures raw { board.new.machine.size ≡ board.old.machine.size }
{
    match board.status() {
        Status::On => {
            let own = board.machine().hart(hart);
            let live = lives.at(own.pc());
            let (missed, has_more) = missed(own, live);
            if !has_more {
                return missed;
            }
            let left = left_out(own, live);
            let _plain = board.rest();
            board.put_hart(left);
            missed
        }
        Status::Off => 0,
        Status::Ended => 0,
    }
}

/// Puts a probe into a register of a hart where it is left out, and answers whether it is.
pub(crate) fn put_probe(board: &mut Board, hart: HartId, number: u8) -> bool
    requires hart { hart < board.old.size.harts }
    requires number { number < 32 }
    ensures probed { result ≡ true → board.new.board ≡ board_holding hart number PROBE_HELD board.old.board }
    ensures left { result ≡ true → IsLeftOut hart number board.old.board }
    ensures other { result ≡ false → IsLeftOut hart number board.old.board → ⊥ }
    ensures stays { result ≡ false → board.new ≡ board.old }
    ensures memory { board.new.machine.memory ≡ board.old.machine.memory }
    ensures size { board.new.size ≡ board.old.size }
    ensures raw { board.new.machine.size ≡ board.old.machine.size }
{
    let _plain = board.rest();
    match board.status() {
        Status::On => {
            let own = board.machine().hart(hart);
            let value = own.reg(Reg::new(number));
            if value != LEFT_OUT {
                return false;
            }
            let mut probed = own.copy();
            probed.put(Reg::new(number), PROBE);
            board.put_hart(probed);
            true
        }
        Status::Off => false,
        Status::Ended => false,
    }
}

/// Whether a register of a hart holds a probe, on a board that is on.
pub(crate) fn holds_probe(board: &Board, hart: HartId, number: u8) -> bool
    requires hart { hart < board.now.size.harts }
    requires number { number < 32 }
    ensures { result ≡ true → held_at hart number board.now.board ≡ PROBE_HELD }
{
    match board.status() {
        Status::On => {
            let value = board.machine().hart(hart).reg(Reg::new(number));
            value == PROBE
        }
        Status::Off => false,
        Status::Ended => false,
    }
}

/// What was guessed wrong, where registers were left out before and are read again.
fn also(broke: Option<Broke>, pc: u64, missed: u32) -> Option<Broke> {
    if missed == 0 {
        broke
    } else {
        Some(Broke::Reads(pc, missed))
    }
}

/// Leaves out those registers of each hart whose bit is set that are not read again, as it is guessed, if any are to be left out. What was
/// guessed wrong: where some were left out before, as the harts stood there, and are read again, it is that.
pub(crate) fn leave_all(
    board: &mut Board,
    lives: &Lives,
    stood: &[u64; 8],
    leaves: bool,
    harts: u32,
    broke: Option<Broke>,
) -> Option<Broke>
    ensures stands { IsFor leaves board.new.board board.old.board }
    ensures memory { board.new.machine.memory ≡ board.old.machine.memory }
    ensures size { board.new.size ≡ board.old.size }
    ensures raw { board.new.machine.size ≡ board.old.machine.size }
{
    let mut broke = broke;
    if !leaves {
        return broke;
    }
    for number in 0..8u64 {
        if let Some(hart) = one_of(board, harts, number) {
            let missed = leave_out(board, lives, hart);
            broke = also(broke, stood[hart.index()], missed);
        }
    }
    broke
}
