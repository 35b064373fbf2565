//! What the next step of a hart touches.
//! A law runs nothing, and tells the prover a fact: `word_determines_instruction`.

ghost use Rattle.std.specs.Prelude.{◌≡◌, ◌≤◌, ◌<◌, ◌/◌, ◌%◌, ◌==◌, true, false};
ghost use Rattle.hart.specs.State.{reg};
ghost use Rattle.hart.specs.Csrs.{csr_number, csr_read};
ghost use Rattle.hart.specs.declared.csr.Csr.{Csr};
ghost use Rattle.hart.specs.Means.{sum};
ghost use Rattle.rv_decode.specs.Flat.{reading};
ghost use Rattle.model_board.specs.Footprints.{accessed, touch_read, footprint_at, quiet, IsSized, Covers};
ghost use Rattle.model_board.specs.Touches.{IsOpen};

use board_model::RAM_BASE;
use hart::Hart;
use ram::Ram;
use rv_decode::{CsrNumber, FlatInstr, FlatOp, word_determines_instruction};

/// What the next step of a hart touches, by the hart and the memory before it. Words are numbered from the start of RAM, 8
/// bytes each.
#[derive(Clone, Copy, Drop)]
pub struct Footprint {
    /// Whether an interrupt is taken, and nothing else done.
    pub interrupts: bool,
    /// The word of the instruction that is fetched.
    pub fetched: Option<u64>,
    /// The word that is loaded.
    pub loaded: Option<u64>,
    /// The word that is stored to.
    pub stored: Option<u64>,
    /// Whether it is asked what is pending for the hart: interrupts are open, or sip is accessed.
    pub pending: bool,
    /// Whether it is an ECALL.
    pub calls: bool,
}

/// What an instruction touches, beside the word in which it stands.
#[derive(Clone, Copy, Drop)]
pub enum Touch {
    /// Nothing but registers.
    Nothing,
    /// A load of so many bytes at that address.
    Loads(u64, u64),
    /// A store of so many bytes at that address.
    Stores(u64, u64),
    /// An exchange with a control and status register, and whether it is sip.
    Exchanges(bool),
    /// An ECALL.
    Calls,
}

/// The control and status register of what is pending (RISC-V Privileged ISA 20190608, 4.1.4).
const SIP: u32 = 0x144;

/// A register's value plus an immediate.
#[inline(always)]
fn address(hart: &Hart, flat: FlatInstr) -> u64
    ensures { result ≡ sum (reg hart.now flat.rs1) flat.imm }
{
    hart.reg(flat.rs1)
        .wrapping_add(i64::from(flat.imm).cast_unsigned())
}

/// An arm for each flat operation: of those that load, store, exchange and call, and of the others.
macro_rules! touches {
    ($flat:ident, $at:expr, $sip:expr; loads { $($load:ident $loads:literal),* } stores { $($store:ident $stores:literal),* }
        exchanges { $($csr:ident)* } calls { $($call:ident)* } others { $($other:ident)* }) => {
        match $flat.op {
            $(FlatOp::$load => Touch::Loads($loads, $at),)*
            $(FlatOp::$store => Touch::Stores($stores, $at),)*
            $(FlatOp::$csr => Touch::Exchanges($sip),)*
            $(FlatOp::$call => Touch::Calls,)*
            $(FlatOp::$other => Touch::Nothing,)*
        }
    };
}

/// What an instruction of a hart touches.
#[inline(always)]
fn touched(hart: &Hart, flat: FlatInstr) -> Touch
    ensures touch { result ≡ touch_read (reading flat) hart.now }
    ensures sized { IsSized result }
{
    touches!(flat, address(hart, flat), flat.imm.cast_unsigned() == SIP;
        loads { Lb 1, Lh 2, Lw 4, Ld 8, Lbu 1, Lhu 2, Lwu 4 }
        stores { Sb 1, Sh 2, Sw 4, Sd 8 }
        exchanges { Csrrw Csrrs Csrrc Csrrwi Csrrsi Csrrci }
        calls { Ecall }
        others { Illegal Lui Auipc Jal Jalr Beq Bne Blt Bge Bltu Bgeu Addi Slti Sltiu Xori Ori Andi Slli Srli Srai Add Sub
            Sll Slt Sltu Xor Srl Sra Or And AddWord Slliw Srliw Sraiw Addw Subw Sllw Srlw Sraw Fence Ebreak Sret Wfi })
}

/// The word of an access, where it is made.
#[inline(always)]
fn accessed(ram: &Ram, address: u64, count: u64) -> Option<u64>
    requires { (1 ≤ count) × (count ≤ 8) }
    ensures { result ≡ accessed ram.now address count }
{
    let room = ram.bytes().len() as u64;
    if address % count != 0 || address < RAM_BASE || room - count < address - RAM_BASE {
        return None;
    }
    Some((address - RAM_BASE) / 8)
}

/// Whether bit 1 of a control and status register is set.
fn has_bit(hart: &Hart, number: u16) -> bool
    requires { number < 4096 }
    ensures { (c : Csr) → csr_number c ≡ number → result ≡ (csr_read c hart.now false / 2 % 2 == 1) }
{
    match hart.csr(CsrNumber::new(number), false) {
        Some(value) => value / 2 % 2 == 1,
        None => false,
    }
}

/// Whether interrupts are open: sstatus.SIE and sie.SSIE (RISC-V Privileged ISA 20190608, 4.1.1 and 4.1.4).
fn is_open(hart: &Hart) -> bool
    ensures opened { result ≡ true → IsOpen hart.now }
    ensures closed { result ≡ false → IsOpen hart.now → ⊥ }
{
    has_bit(hart, 0x100) && has_bit(hart, 0x104)
}

/// A step that touches nothing but what is pending, where interrupts are open, and by which one is taken or not.
#[inline(always)]
fn quiet(opened: bool, interrupts: bool) -> Footprint
    ensures { result ≡ quiet opened interrupts }
{
    Footprint {
        interrupts,
        fetched: None,
        loaded: None,
        stored: None,
        pending: opened,
        calls: false,
    }
}

/// What an instruction touches that is fetched from a word.
#[inline(always)]
fn with_word(touch: Touch, ram: &Ram, word: u64, opened: bool) -> Footprint
    requires { IsSized touch }
    ensures { result ≡ footprint_at touch ram.now word opened }
{
    let fetched = Footprint {
        fetched: Some(word),
        ..quiet(opened, false)
    };
    match touch {
        Touch::Nothing => fetched,
        Touch::Loads(count, at) => Footprint {
            loaded: accessed(ram, at, count),
            ..fetched
        },
        Touch::Stores(count, at) => Footprint {
            stored: accessed(ram, at, count),
            ..fetched
        },
        Touch::Exchanges(sip) => Footprint {
            pending: sip || opened,
            ..fetched
        },
        Touch::Calls => Footprint {
            calls: true,
            ..fetched
        },
    }
}

/// What the next step of a hart touches, where an interrupt is pending for it or not.
pub fn footprint_of(hart: &Hart, ram: &mut Ram, pending: bool) -> Footprint
    ensures same { ram.new ≡ ram.old }
    ensures covers { Covers pending hart.now ram.old result }
{
    let opened = is_open(hart);
    if pending && opened {
        return quiet(true, true);
    }
    let pc = hart.pc();
    match ram.flat_instr(pc) {
        Ok(flat) => {
            word_determines_instruction();
            with_word(touched(hart, flat), ram, (pc - RAM_BASE) / 8, opened)
        }
        Err(_) => quiet(opened, false),
    }
}
