//! What the next turn of a hart reads. A look at it leaves the board as it was.

ghost use Rattle.std.specs.Prelude.{◌≡◌, ◌<◌, length, Some, IfSome};
ghost use Rattle.bench_report.specs.Views.{machine_in};
ghost use Rattle.debug_session.specs.Lives.{machine_of};
ghost use Rattle.debug_session.specs.Loads.{Fetches, LoadsAt, LoadsNext, is_interrupted, is_set, is_stepping, is_there, load_in, made_load};
ghost use Rattle.hart.specs.Means.{load_bytes, sum};
ghost use Rattle.hart.specs.Values.{residue};
ghost use Rattle.machine.specs.Machine.{hart_at};

use crate::looks::register_of;
use bench_report::{LiveBench, Power};
use board::Board;
use board_model::{HartId, RAM_BASE};
use hart::Hart;
use machine::State;
use rv_decode::{Instr, LoadOp, decode};
use simdisk::SimDisk;

/// Bytes of memory that a turn reads.
#[derive(Clone, Copy, Drop)]
pub struct Load {
    /// Where they begin.
    pub address: u64,
    /// How many they are: 1, 2, 4 or 8.
    pub count: u64,
}

/// Whether bit 1 of a register is set.
fn is_set(value: Option<u64>) -> bool
    ensures { result ≡ is_set value }
{
    match value {
        Some(value) => 2 <= value % 4,
        None => false,
    }
}

/// Whether a hart that makes a turn takes an interrupt.
fn is_interrupted(board: &mut Board<SimDisk>, hart: HartId) -> bool
    requires { hart < length (machine_in board.old).harts }
    ensures same { board.new ≡ board.old }
    ensures is { result ≡ is_interrupted (machine_in board.old) hart }
{
    if !is_set(register_of(board, hart, 41)) {
        return false;
    }
    if !is_set(register_of(board, hart, 34)) {
        return false;
    }
    is_set(register_of(board, hart, 33))
}

/// Whether the next turn of a hart is that of an instruction.
fn is_stepping(board: &mut Board<SimDisk>, hart: HartId) -> bool
    requires { hart < length (machine_in board.old).harts }
    ensures same { board.new ≡ board.old }
    ensures is { result ≡ is_stepping (machine_in board.old) hart }
{
    let interrupted = is_interrupted(board, hart);
    match board.state(hart) {
        State::Started => !interrupted,
        _ => false,
    }
}

/// Whether `count` bytes of a memory are there, from an address on that is a multiple of their number.
fn is_there(bytes: &[u8], address: u64, count: u64) -> bool
    requires { 0 < count }
    ensures { result ≡ is_there bytes.now address count }
{
    let room = bytes.len() as u64;
    if address % count != 0 || address < RAM_BASE {
        return false;
    }
    count <= room && address - RAM_BASE <= room - count
}

/// The instruction at the pc of a hart, where there is one.
pub(crate) fn instruction(board: &Board<SimDisk>, hart: HartId) -> Option<Instr>
    requires { hart < length (machine_in board.now).harts }
    ensures { Fetches (machine_in board.now).memory (hart_at (machine_in board.now) hart).pc result }
{
    match board.ram().fetch(board.hart(hart).pc()) {
        Ok(word) => decode(word),
        Err(_) => None,
    }
}

/// How many bytes an operation loads.
fn width(op: LoadOp) -> u64
    ensures is { result ≡ load_bytes op }
    ensures some { 0 < result }
{
    match op {
        LoadOp::Lb | LoadOp::Lbu => 1,
        LoadOp::Lh | LoadOp::Lhu => 2,
        LoadOp::Lw | LoadOp::Lwu => 4,
        LoadOp::Ld => 8,
    }
}

/// An immediate, sign-extended to 64 bits.
fn wide(imm: i32) -> u64
    ensures { result ≡ residue imm }
{
    i64::from(imm).cast_unsigned()
}

/// An address plus an immediate.
fn moved(from: u64, by: i32) -> u64
    ensures { result ≡ sum from by }
{
    from.wrapping_add(wide(by))
}

/// The bytes that an instruction loads in that state of a hart, wherever they lie.
pub(crate) fn load_in(found: &Option<Instr>, hart: &Hart) -> Option<Load>
    ensures is { result ≡ load_in found.now hart.now }
    ensures some { IfSome result (λ load. 0 < load.count) }
{
    match found {
        Some(Instr::Load { op, rs1, imm, .. }) => Some(Load {
            address: moved(hart.reg(*rs1), imm.value()),
            count: width(*op),
        }),
        _ => None,
    }
}

/// The bytes that are to be loaded, where all of them are there.
fn made_load(bytes: &[u8], load: Option<Load>) -> Option<Load>
    requires { IfSome load (λ load. 0 < load.count) }
    ensures { result ≡ made_load bytes.now load }
{
    match load {
        Some(load) => {
            if is_there(bytes, load.address, load.count) {
                Some(load)
            } else {
                None
            }
        }
        None => None,
    }
}

/// What the next turn of a hart of this board reads. Of most instructions it is none, whatever else is so: then no more is looked at.
#[tactic(auto, using(crate::proofs::OneLoad::loads_none, crate::proofs::OneLoad::loads_there))]
fn load_at(board: &mut Board<SimDisk>, hart: HartId) -> Option<Load>
    requires { hart < length (machine_in board.old).harts }
    ensures same { board.new ≡ board.old }
    ensures loads { LoadsAt (machine_in board.old) hart result }
{
    let found = instruction(board, hart);
    let load = load_in(&found, board.hart(hart));
    let made = made_load(board.ram().bytes(), load);
    if made.is_none() {
        return None;
    }
    if !is_stepping(board, hart) {
        return None;
    }
    made
}

/// The bytes of memory that the next turn of a hart reads, if it reads any: those that its instruction loads. The look
/// leaves the board as it was.
pub(crate) fn next_load(bench: &mut LiveBench, hart: HartId) -> Option<Load>
    ensures same { bench.new ≡ bench.old }
    ensures loads { LoadsNext (machine_of bench.old) hart result }
{
    match &mut bench.power {
        Power::On(board) => {
            if board.machine().has(hart) {
                load_at(board, hart)
            } else {
                None
            }
        }
        Power::Off(_) => None,
    }
}
