//! The lines that show memory or harts.

ghost use Rattle.std.specs.Prelude.{◌≡◌, map, IfSome, Some};
ghost use Rattle.std.specs.List.{join_with_byte};
ghost use Rattle.script_lang.specs.Looks.{reg_of, pc_of, csr_number_of, csr_of, mem_of, look_said, IsCsr, IsLookInRange, look_spelling};

use crate::words::{alone, hart, in_range, number, one, two};
use board_model::{HartId, RAM_BASE, Shape};
use rv_decode::{SATP, SCAUSE, SEPC, SIE, SIP, SSCRATCH, SSTATUS, STVAL, STVEC};
use std::fmt;

/// What a line shows of a board that is on.
#[derive(Clone, Copy, Drop)]
pub enum Look {
    /// `reg H R`: a register, 0 to 31.
    Reg(HartId, u32),
    /// `pc H`
    Pc(HartId),
    /// `csr H C`: one of the nine CSRs, by its number.
    Csr(HartId, u32),
    /// `pending`
    Pending,
    /// `mem A N`: that many bytes of RAM from an address on, 1 to 64.
    Mem(u64, u32),
}

/// `reg H R`: a register below 32.
fn reg(shape: &Shape, words: &[&[u8]]) -> Option<Look>
    ensures value { result ≡ reg_of shape.now (map (λ w. w.now) words.now) }
    ensures range { IfSome result (IsLookInRange shape.now) }
{
    let (h, r) = two(words)?;
    let hart = hart(shape, h)?;
    Some(Look::Reg(hart, in_range(0, 32, r)?))
}

/// `pc H`.
fn pc(shape: &Shape, words: &[&[u8]]) -> Option<Look>
    ensures value { result ≡ pc_of shape.now (map (λ w. w.now) words.now) }
    ensures range { IfSome result (IsLookInRange shape.now) }
{
    Some(Look::Pc(hart(shape, one(words)?)?))
}

/// The number of one of the nine CSRs (RISC-V privileged ISA, supervisor CSRs).
fn csr_number(word: &[u8]) -> Option<u32>
    ensures value { result ≡ csr_number_of word.now }
    ensures range { IfSome result IsCsr }
{
    let number = u32::try_from(number(word)?).ok()?;
    match number {
        SSTATUS | SIE | STVEC | SSCRATCH | SEPC | SCAUSE | STVAL | SIP | SATP => Some(number),
        _ => None,
    }
}

/// `csr H C`: the hart and the number of a CSR.
fn csr(shape: &Shape, words: &[&[u8]]) -> Option<Look>
    ensures value { result ≡ csr_of shape.now (map (λ w. w.now) words.now) }
    ensures range { IfSome result (IsLookInRange shape.now) }
{
    let (h, c) = two(words)?;
    let hart = hart(shape, h)?;
    Some(Look::Csr(hart, csr_number(c)?))
}

/// `mem A N`: 1 to 64 bytes, all of them in RAM.
fn mem(shape: &Shape, words: &[&[u8]]) -> Option<Look>
    ensures value { result ≡ mem_of shape.now (map (λ w. w.now) words.now) }
    ensures range { IfSome result (IsLookInRange shape.now) }
{
    let (a, n) = two(words)?;
    let address = number(a)?;
    let count = in_range(1, 65, n)?;
    if address < RAM_BASE || shape.ram_bytes() as u64 - u64::from(count) < address - RAM_BASE {
        return None;
    }
    Some(Look::Mem(address, count))
}

/// What a keyword and the words after it are to show.
pub fn look_said(shape: &Shape, keyword: &[u8], words: &[&[u8]]) -> Option<Look>
    ensures value { result ≡ look_said shape.now keyword.now (map (λ w. w.now) words.now) }
    ensures range { IfSome result (IsLookInRange shape.now) }
{
    if keyword == b"reg".as_slice() {
        return reg(shape, words);
    }
    if keyword == b"pc".as_slice() {
        return pc(shape, words);
    }
    if keyword == b"csr".as_slice() {
        return csr(shape, words);
    }
    if keyword == b"pending".as_slice() {
        return alone(Look::Pending, words);
    }
    if keyword == b"mem".as_slice() {
        return mem(shape, words);
    }
    None
}

/// A look as the language writes it.
#[derive(Drop)]
pub struct LookText(pub Look);

impl fmt::Display for LookText {
    ghost output = { λ l. Some (join_with_byte 32 (look_spelling l.0)) };

    fn fmt<W: fmt::Write>(&self, f: &mut fmt::Formatter<W>) -> fmt::Result {
        match self.0 {
            Look::Reg(hart, register) => {
                let number = hart.number();
                write!(f, "reg {number} {register}")
            }
            Look::Pc(hart) => {
                let number = hart.number();
                write!(f, "pc {number}")
            }
            Look::Csr(hart, csr) => {
                let number = hart.number();
                write!(f, "csr {number} {csr}")
            }
            Look::Pending => f.write_str("pending"),
            Look::Mem(address, count) => write!(f, "mem {address} {count}"),
        }
    }
}
