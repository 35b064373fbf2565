//! The operations of the instructions, each an enum of those that are spelled alike. The sections named are those of the RISC-V
//! Unprivileged ISA 20191213.

/// What is done with the upper 20 bits of a number (section 2.4).
#[derive(Clone, Copy, Drop)]
pub enum UpperOp {
    /// They are loaded.
    Lui,
    /// They are added to the address of the instruction.
    Auipc,
}

/// The comparison of a branch (section 2.5): equal, not equal, less than, at least, and the last
/// two without sign.
#[derive(Clone, Copy, Drop)]
pub enum BranchOp {
    Beq,
    Bne,
    Blt,
    Bge,
    Bltu,
    Bgeu,
}

/// What is loaded (sections 2.6 and 5.3): 1, 2, 4 or 8 bytes with sign, then 1, 2 or 4 without.
#[derive(Clone, Copy, Drop)]
pub enum LoadOp {
    Lb,
    Lh,
    Lw,
    Ld,
    Lbu,
    Lhu,
    Lwu,
}

/// What is stored (sections 2.6 and 5.3): 1, 2, 4 or 8 bytes.
#[derive(Clone, Copy, Drop)]
pub enum StoreOp {
    Sb,
    Sh,
    Sw,
    Sd,
}

/// An operation on a register and an immediate (section 2.4).
#[derive(Clone, Copy, Drop)]
pub enum ImmOp {
    Addi,
    Slti,
    Sltiu,
    Xori,
    Ori,
    Andi,
}

/// A shift by an immediate: to the left, to the right with zeros, to the right with the sign.
#[derive(Clone, Copy, Drop)]
pub enum ShiftOp {
    Sll,
    Srl,
    Sra,
}

/// An operation on two registers of 64 bits (sections 2.4 and 5.2).
#[derive(Clone, Copy, Drop)]
pub enum ArithOp {
    Add,
    Sub,
    Sll,
    Slt,
    Sltu,
    Xor,
    Srl,
    Sra,
    Or,
    And,
}

/// An operation on the low 32 bits of two registers (section 5.2).
#[derive(Clone, Copy, Drop)]
pub enum ArithWordOp {
    Addw,
    Subw,
    Sllw,
    Srlw,
    Sraw,
}

/// How a control and status register is changed (section 9.1): written, or the bits that are
/// ones in the operand set or cleared.
#[derive(Clone, Copy, Drop)]
pub enum CsrOp {
    Write,
    Set,
    Clear,
}

/// An instruction that is one whole word: ECALL and EBREAK (section 2.8), SRET and WFI (RISC-V
/// Privileged ISA 1.11, sections 3.2.2 and 3.2.3).
#[derive(Clone, Copy, Drop)]
pub enum SystemOp {
    Ecall,
    Ebreak,
    Sret,
    Wfi,
}
