//! The instruction words of RV64I with Zicsr, read and written, and the operations that they spell.
//!
//! [`decode`] answers the instruction that a word of 32 bits spells, or `None` where no
//! instruction of this profile is written so; [`encode`] writes an instruction as its one word.
//! What an instruction is written as stands in `specs/Spells.antt`, as a relation between
//! instructions and numbers: fields times powers of two. [`word_determines_instruction`] is the law that the
//! relation is one to one. An instruction prints as an assembler writes it.
//! [`flatten`] gives an instruction in one flat form, for who carries it out.
//!
//! For each group of operations `tables` has one table, which serves the reading of a word (`.._op`), its
//! writing (`.._code`) and its printing (`.._name`). Its numbers stand in `specs/Codes.antt`.
//!
//! The source is the RISC-V Unprivileged ISA 20191213, chapters 2, 5, 9 and the tables of
//! chapter 24, and the Privileged ISA 1.11, chapter 5. M, A, F, D, C, FENCE.I and the privileged
//! instructions other than SRET and WFI are left out: their words have no instruction here. No memory is taken.
#![tactic(auto)]

mod code;
mod csrs;
mod display;
mod fields;
mod flat;
mod instr;
mod opcode;
mod ops;
mod tables;
mod word;

pub use code::{decode, encode, word_determines_instruction};
pub use csrs::{SATP, SCAUSE, SEPC, SIE, SIP, SSCRATCH, SSTATUS, STVAL, STVEC};
pub use fields::{
    BranchOffset, CsrNumber, CsrUimm, Imm12, Imm20, JumpOffset, Reg, Shamt, WordShamt,
};
pub use flat::{FlatInstr, FlatOp, flatten};
pub use instr::Instr;
pub use ops::{
    ArithOp, ArithWordOp, BranchOp, CsrOp, ImmOp, LoadOp, ShiftOp, StoreOp, SystemOp, UpperOp,
};
