//! What a look at a board shows. A look leaves the board as it was.

ghost use Rattle.std.specs.Prelude.{◌≡◌, ◌<◌, None, Some, length, MatchOption};
ghost use Rattle.bench_report.specs.Views.{machine_in};
ghost use Rattle.debug_session.specs.Lives.{csr_shown, machine_of, memory_in, pc_in, register_at, stands_in, state_in};
ghost use Rattle.hart.specs.Csrs.{csr_number};

use bench_report::{LiveBench, Power};
use board::Board;
use board_model::{HartId, RAM_BASE};
use machine::{MachineLine, State, csr_of};
use rv_decode::{Reg, SATP, SCAUSE, SEPC, SIE, SIP, SSCRATCH, SSTATUS, STVAL, STVEC};
use simdisk::SimDisk;

/// The number of the pc.
pub const PC: u64 = 32;

/// How many registers a hart shows: 32 of its own, the pc, and nine control and status registers.
pub const REGISTERS: u64 = 42;

/// The number of the control and status register that is shown as that register, 33 to 41.
fn csr_at(number: u64) -> u32
    ensures { result ≡ csr_number (csr_shown number) }
{
    match number {
        33 => SSTATUS,
        34 => SIE,
        35 => STVEC,
        36 => SSCRATCH,
        37 => SEPC,
        38 => SCAUSE,
        39 => STVAL,
        40 => SIP,
        _ => SATP,
    }
}

/// A register of a hart that a board has: 0 to 31 its own, 32 the pc, 33 to 41 `sstatus`, `sie`, `stvec`, `sscratch`, `sepc`,
/// `scause`, `stval`, `sip` and `satp`.
pub(crate) fn register_of(board: &mut Board<SimDisk>, hart: HartId, number: u64) -> Option<u64>
    requires { hart < length (machine_in board.old).harts }
    ensures same { board.new ≡ board.old }
    ensures shown { result ≡ register_at (machine_in board.old) hart number }
{
    if number < 32 {
        return Some(board.machine().hart(hart).reg(Reg::new(number as u8)));
    }
    if number == PC {
        return Some(board.machine().hart(hart).pc());
    }
    if REGISTERS <= number {
        return None;
    }
    let csr = csr_at(number);
    let pending = board.pending(hart);
    match csr_of(board.machine(), hart, csr, pending) {
        MachineLine::Csr(_, _, value) => Some(value),
        _ => None,
    }
}

/// The state of a hart of a board that is on, as `sbi_hart_get_status` names it.
pub(crate) fn state(bench: &mut LiveBench, hart: HartId) -> Option<State>
    ensures same { bench.new ≡ bench.old }
    ensures shown { result ≡ state_in hart (machine_of bench.old) }
{
    match &mut bench.power {
        Power::On(board) => {
            if board.machine().has(hart) {
                Some(board.state(hart))
            } else {
                None
            }
        }
        Power::Off(_) => None,
    }
}

/// Bytes of RAM of a board that is on, where it has all of them.
pub fn memory(bench: &LiveBench, address: u64, count: u64) -> Option<&[u8]>
    ensures { MatchOption result (memory_in address count (machine_of bench.now) ≡ None)
        (λ bytes. memory_in address count (machine_of bench.now) ≡ Some bytes.now) }
{
    let board = match &bench.power {
        Power::On(board) => board,
        Power::Off(_) => return None,
    };
    let bytes = board.ram().bytes();
    if address < RAM_BASE {
        return None;
    }
    let first = address - RAM_BASE;
    let room = bytes.len() as u64;
    if room < count || room - count < first {
        return None;
    }
    let first = first as usize;
    Some(&bytes[first..first + count as usize])
}

/// The pc of a hart of a board that is on.
pub fn pc(bench: &LiveBench, hart: HartId) -> Option<u64>
    ensures { result ≡ pc_in hart (machine_of bench.now) }
{
    match &bench.power {
        Power::On(board) if board.machine().has(hart) => Some(board.machine().hart(hart).pc()),
        _ => None,
    }
}

/// Whether a hart stands at one of these addresses.
pub(crate) fn stands_at(bench: &LiveBench, hart: HartId, points: &[u64]) -> bool
    ensures { result ≡ stands_in points.now (pc_in hart (machine_of bench.now)) }
{
    match pc(bench, hart) {
        Some(pc) => points.contains(&pc),
        None => false,
    }
}
