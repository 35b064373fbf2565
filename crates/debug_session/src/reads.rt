//! What the next turn of a hart reads, as far as it tells what of the watched bytes that turn touches.

ghost use Rattle.std.specs.Prelude.{◌≡◌, ◌<◌, length, true, false, None, Some};
ghost use Rattle.bench_report.specs.Views.{machine_in};
ghost use Rattle.debug_session.specs.Firsts.{ReadsAs, seen_in};
ghost use Rattle.debug_session.specs.Lives.{machine_of};
ghost use Rattle.debug_session.specs.Loads.{LoadsNone};

use crate::loads::{Load, instruction, load_in, next_load};
use crate::stops::{SeenBytes, are_unread};
use bench_report::{LiveBench, Power};
use board::Board;
use board_model::HartId;
use simdisk::SimDisk;

/// Whether the word at the pc of a hart may be that of a load: the lowest seven bits of each are 3, and of no other instruction.
#[tactic(auto, using(crate::proofs::Unread::no_load_word))]
fn may_load(board: &Board<SimDisk>, hart: HartId) -> bool
    requires { hart < length (machine_in board.now).harts }
    ensures { result ≡ false → LoadsNone (machine_in board.now) hart }
{
    match board.ram().fetch(board.hart(hart).pc()) {
        Ok(word) => word % 128 == 3,
        Err(_) => true,
    }
}

/// Whether it is seen at once that the next turn of a hart of this board reads nothing that is minded. Of most instructions it is seen by
/// the word alone; of a load by the bytes that it names, whether or not they are there, and the turn is that of an instruction.
#[tactic(auto, using(crate::proofs::Unread::reads_none, crate::proofs::Unread::reads_unread))]
fn is_unread_at(board: &Board<SimDisk>, hart: HartId, before: &Vec<SeenBytes>) -> bool
    requires { hart < length (machine_in board.now).harts }
    ensures { result ≡ true → ReadsAs (Some (machine_in board.now)) hart (seen_in before.now.items) None }
{
    if !may_load(board, hart) {
        return true;
    }
    let found = instruction(board, hart);
    let load = load_in(&found, board.hart(hart));
    are_unread(before, load)
}

/// Whether it is seen at once that the next turn of a hart reads nothing that is minded.
fn is_unread_next(bench: &LiveBench, hart: HartId, before: &Vec<SeenBytes>) -> bool
    ensures { result ≡ true → ReadsAs (machine_of bench.now) hart (seen_in before.now.items) None }
{
    match &bench.power {
        Power::On(board) if board.machine().has(hart) => is_unread_at(board, hart, before),
        _ => false,
    }
}

/// What the next turn of a hart reads; or none, where that is nothing that is minded of what was seen. The look leaves the board as
/// it was.
#[tactic(auto, using(crate::proofs::Unread::reads_next))]
pub(crate) fn load_among(
    bench: &mut LiveBench,
    hart: HartId,
    before: &Vec<SeenBytes>,
) -> Option<Load>
    ensures same { bench.new ≡ bench.old }
    ensures reads { ReadsAs (machine_of bench.old) hart (seen_in before.now.items) result }
{
    if is_unread_next(bench, hart, before) {
        None
    } else {
        next_load(bench, hart)
    }
}
