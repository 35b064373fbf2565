//! The lines that show memory or harts.

ghost use Rattle.std.specs.Prelude.{◌≡◌, ◌<◌, ◌≤◌, ◌+◌, ◌*◌, ◌^◌, if◌then◌else◌};
ghost use Rattle.board_model.specs.Shapes.{Size};
ghost use Rattle.machine.specs.Shows.{waits, CsrLine, pending_line};
ghost use Rattle.bench_report.specs.Agree.{Agrees, StepsTo};
ghost use Rattle.bench_report.specs.Bench.{Bench};
ghost use Rattle.bench_report.specs.Happens.{shows};
ghost use Rattle.bench_report.specs.Looks.{IsShown};
ghost use Rattle.bench_report.specs.Steps.{ReadStep};
ghost use Rattle.bench_report.specs.Views.{store_in, machine_in};

use crate::power::Power;
use board::Board;
use board_model::HartId;
use machine::MachineLine;
use script_lang::Look;
use simdisk::SimDisk;

/// Whether the board has the hart, and an interrupt is pending for it. The board stays as it was.
fn waits(board: &mut Board<SimDisk>, hart: HartId) -> bool
    ensures value { result ≡ waits (machine_in board.old) hart }
    ensures machine { machine_in board.new ≡ machine_in board.old }
    ensures store { store_in board.new ≡ store_in board.old }
{
    board.machine().has(hart) && board.pending(hart)
}

/// A control and status register of a hart of a board that is on, which stays as it was.
fn csr(board: &mut Board<SimDisk>, hart: HartId, number: u32) -> MachineLine
    ensures reported { CsrLine hart number (machine_in board.old) result }
    ensures machine { machine_in board.new ≡ machine_in board.old }
    ensures store { store_in board.new ≡ store_in board.old }
{
    let pending = waits(board, hart);
    machine::csr_of(board.machine(), hart, number, pending)
}

/// The bit of each hart in a set of harts.
const BITS: [u32; 8] = [1, 2, 4, 8, 16, 32, 64, 128];

/// A set of harts below that number, and this one where it is to be in it.
fn with_hart(set: u32, number: u64, waits: bool) -> u32
    requires number { number < 8 }
    requires few { set ≤ 128 * number }
    ensures value { result ≡ set + (if waits then 2 ^ number else 0) }
    ensures few { result ≤ 128 * number + 128 }
{
    if waits {
        set + BITS[number as usize]
    } else {
        set
    }
}

/// The harts of a board that is on for which an interrupt is pending. The board stays as it was.
fn pending(board: &mut Board<SimDisk>) -> MachineLine
    ensures reported { result ≡ pending_line (machine_in board.old) }
    ensures machine { machine_in board.new ≡ machine_in board.old }
    ensures store { store_in board.new ≡ store_in board.old }
{
    let mut set = 0;
    for number in 0..8 {
        let hart = HartId::new(number).unwrap();
        let waits = waits(board, hart);
        set = with_hart(set, number, waits);
    }
    MachineLine::Pending(set)
}

/// What a line shows of a board that is on. The board stays as it was.
fn shown(board: &mut Board<SimDisk>, look: Look) -> MachineLine
    ensures reported { IsShown look (machine_in board.old) result }
    ensures machine { machine_in board.new ≡ machine_in board.old }
    ensures store { store_in board.new ≡ store_in board.old }
{
    match look {
        Look::Reg(hart, register) => machine::reg(board.machine(), hart, register),
        Look::Pc(hart) => machine::pc(board.machine(), hart),
        Look::Csr(hart, number) => csr(board, hart, number),
        Look::Pending => pending(board),
        Look::Mem(address, count) => machine::mem(board.machine(), address, count),
    }
}

/// A line that shows memory or harts, where the board is on.
pub fn look_line(look: Look, power: Power) -> (Power, MachineLine)
    ensures { (size : Size) (b : Bench) → Agrees size b power
        → StepsTo size b result.0 (ReadStep b.power (IsShown look) b (shows result.1)) }
{
    match power {
        Power::Off(disk) => (Power::Off(disk), MachineLine::Off),
        Power::On(mut board) => {
            let line = shown(&mut board, look);
            (Power::On(board), line)
        }
    }
}
