//! The lines, from the machine of a board.

ghost use Rattle.std.specs.Prelude.{◌≡◌, ◌<◌, ◌≤◌, ◌++◌, ◌-◌, length, replicate};
ghost use Rattle.machine.specs.Machine.{hart_at};
ghost use Rattle.machine.specs.Shows.{own_line, made_line, called_line, waits, reg_line, pc_line, CsrLine, mem_line};

use crate::line::{MachineLine, MemBytes};
use crate::machine::Machine;
use board_model::{HartId, RAM_BASE};
use rv_decode::{CsrNumber, Reg};
use sbi::{Did, Word};

/// `reg H R`: a register, 0 to 31.
pub fn reg(machine: &Machine, hart: HartId, register: u32) -> MachineLine
    ensures { result ≡ reg_line hart register machine.now }
{
    if !machine.has(hart) || 32 <= register {
        return MachineLine::Off;
    }
    let value = machine.hart(hart).reg(Reg::new(register as u8));
    MachineLine::Reg(hart, register, value)
}

/// `pc H`
pub fn pc(machine: &Machine, hart: HartId) -> MachineLine
    ensures { result ≡ pc_line hart machine.now }
{
    if !machine.has(hart) {
        return MachineLine::Off;
    }
    MachineLine::Pc(hart, machine.hart(hart).pc())
}

/// The line of a call of a hart of the board, by what the hart did. An answered call left its answer in a0 and a1.
fn own(machine: &Machine, hart: HartId, did: Did) -> MachineLine
    requires { hart < length machine.now.harts }
    ensures { result ≡ own_line hart (hart_at machine.now hart) did }
{
    if !did.is_answered() {
        return MachineLine::Called(hart, Word::Goes(did));
    }
    let state = machine.hart(hart);
    MachineLine::Answered(hart, state.reg(Reg::new(10)), state.reg(Reg::new(11)))
}

/// The line of a call that was made.
fn made(machine: &Machine, hart: HartId, word: Word) -> MachineLine
    requires { hart < length machine.now.harts }
    ensures { result ≡ made_line hart (hart_at machine.now hart) word }
{
    match word {
        Word::Goes(did) => own(machine, hart, did),
        Word::Over(_) => MachineLine::Called(hart, word),
    }
}

/// The line of `call H EID FID A0 A1 A2`, by the word of the call that was made instead of an instruction of the hart. There is
/// no word where the hart is not STARTED, and no call was made.
pub fn called(machine: &Machine, hart: HartId, word: Option<Word>) -> MachineLine
    requires { hart < length machine.now.harts }
    ensures { result ≡ called_line hart (hart_at machine.now hart) word }
{
    match word {
        None => MachineLine::NotStarted(hart),
        Some(said) => made(machine, hart, said),
    }
}

/// The line of `csr H C`, where `pending` says whether an interrupt is pending for the hart.
pub fn csr_of(machine: &Machine, hart: HartId, number: u32, pending: bool) -> MachineLine
    requires { pending ≡ waits machine.now hart }
    ensures { CsrLine hart number machine.now result }
{
    if !machine.has(hart) || 4096 <= number {
        return MachineLine::Off;
    }
    match machine
        .hart(hart)
        .csr(CsrNumber::new(number as u16), pending)
    {
        Some(value) => MachineLine::Csr(hart, number, value),
        None => MachineLine::Off,
    }
}

/// `mem A N`: up to 64 bytes from an address on.
pub fn mem(machine: &Machine, address: u64, count: u32) -> MachineLine
    ensures { result ≡ mem_line address count machine.now }
{
    let memory = machine.ram().bytes();
    if address < RAM_BASE || 64 < count {
        return MachineLine::Off;
    }
    let length = count as usize;
    let offset = address - RAM_BASE;
    if memory.len() < length || ((memory.len() - length) as u64) < offset {
        return MachineLine::Off;
    }
    let first = offset as usize;
    MachineLine::Mem(mem_bytes(&memory[first..first + length]))
}

/// At most 64 bytes, as a line shows them.
fn mem_bytes(from: &[u8]) -> MemBytes
    requires { length from.now ≤ 64 }
    ensures { result ≡ record { bytes = from.now ++ replicate (64 - length from.now) 0; count = length from.now } }
{
    let mut bytes = [0; 64];
    let (head, _zeros) = bytes.split_at_mut(from.len());
    head.copy_from_slice(from);
    MemBytes {
        bytes,
        count: from.len(),
    }
}
