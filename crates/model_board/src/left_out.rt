//! Registers that are left out: a board stands for each that holds something else in them.
//! A law runs nothing, and tells the prover a fact: `rv_decode::word_determines_instruction`, `machine::machine_determines_turn`.

ghost use Rattle.std.specs.Prelude.{◌≡◌, ◌⊎◌, ◌<◌, ℕ, List, None, false};
ghost use Rattle.board_model.specs.Shapes.{Size};
ghost use Rattle.hart.specs.State.{reg};
ghost use Rattle.rv_decode.specs.Flat.{reading};
ghost use Rattle.model_board.specs.Boards.{Board};
ghost use Rattle.model_board.specs.Events.{Event, Turn, TurnOn, Does};
ghost use Rattle.model_board.specs.LeftOut.{LEFT_OUT as LEFT, Filled, StandsFor, ReadsNone, AreProbed};
ghost use Rattle.model_board.specs.Maps.{Map, Keeps, Local};
ghost use Rattle.model_board.specs.Registers.{MovesPc};
ghost use Rattle.model_board.specs.Sources.{sources_read, IsAmong, IsUnreadAt};

use hart::Hart;
use ram::Ram;
use rv_decode::{FlatInstr, FlatOp, Reg};

/// What a register holds that is left out.
pub const LEFT_OUT: u64 = 0xd7f5_0d1e_c0de_aa57;
/// What a probe puts into such a register.
pub const PROBE: u64 = 4370;

/// The registers that an instruction reads.
#[derive(Clone, Copy, Drop)]
pub enum Sources {
    /// None.
    Nothing,
    /// That one.
    One(Reg),
    /// Those two.
    Two(Reg, Reg),
    /// Those of a call: a0 to a2, a6 and a7.
    OfCall,
}

/// An arm for each flat operation, by how many registers it reads.
macro_rules! sources_by {
    ($flat:ident; none { $($none:ident)* } one { $($one:ident)* } two { $($two:ident)* } call { $($call:ident)* }) => {
        match $flat.op {
            $(FlatOp::$none => Sources::Nothing,)*
            $(FlatOp::$one => Sources::One($flat.rs1),)*
            $(FlatOp::$two => Sources::Two($flat.rs1, $flat.rs2),)*
            $(FlatOp::$call => Sources::OfCall,)*
        }
    };
}

/// The registers that an instruction reads.
#[inline(always)]
fn sources_of(flat: FlatInstr) -> Sources
    ensures { result ≡ sources_read (reading flat) }
{
    sources_by!(flat;
        none { Illegal Lui Auipc Jal Fence Csrrwi Csrrsi Csrrci Ebreak Sret Wfi }
        one { Jalr Lb Lh Lw Ld Lbu Lhu Lwu Addi Slti Sltiu Xori Ori Andi Slli Srli Srai AddWord Slliw Srliw Sraiw
            Csrrw Csrrs Csrrc }
        two { Beq Bne Blt Bge Bltu Bgeu Sb Sh Sw Sd Add Sub Sll Slt Sltu Xor Srl Sra Or And Addw Subw Sllw Srlw Sraw }
        call { Ecall })
}

/// The register, where it is left out.
#[inline(always)]
fn left_out(hart: &Hart, register: Reg) -> Option<Reg>
    ensures { result ≡ None → reg hart.now register ≡ LEFT → ⊥ }
{
    if hart.reg(register) == LEFT_OUT {
        Some(register)
    } else {
        None
    }
}

/// The first of two registers that is left out.
#[inline(always)]
fn either_left_out(hart: &Hart, first: Reg, second: Reg) -> Option<Reg>
    ensures first { result ≡ None → reg hart.now first ≡ LEFT → ⊥ }
    ensures second { result ≡ None → reg hart.now second ≡ LEFT → ⊥ }
{
    match left_out(hart, first) {
        Some(register) => Some(register),
        None => left_out(hart, second),
    }
}

/// A register of a call that is left out.
fn of_call_left_out(hart: &Hart) -> Option<Reg>
    ensures { result ≡ None → (k : ℕ) → IsAmong Sources.OfCall k → reg hart.now k ≡ LEFT → ⊥ }
{
    if let Some(register) = either_left_out(hart, Reg::new(10), Reg::new(11)) {
        return Some(register);
    }
    if let Some(register) = either_left_out(hart, Reg::new(16), Reg::new(17)) {
        return Some(register);
    }
    left_out(hart, Reg::new(12))
}

/// A register that is left out, whichever it is.
fn any_left_out(hart: &Hart) -> Option<Reg>
    ensures { result ≡ None → (k : ℕ) → k < 32 → reg hart.now k ≡ LEFT → ⊥ }
{
    for number in 0..32 {
        if let Some(register) = left_out(hart, Reg::new(number)) {
            return Some(register);
        }
    }
    None
}

/// One of the sources that is left out.
#[inline(always)]
fn first_left_out(hart: &Hart, sources: Sources) -> Option<Reg>
    ensures { result ≡ None → (k : ℕ) → IsAmong sources k → reg hart.now k ≡ LEFT → ⊥ }
{
    match sources {
        Sources::Nothing => None,
        Sources::One(register) => left_out(hart, register),
        Sources::Two(first, second) => either_left_out(hart, first, second),
        Sources::OfCall => of_call_left_out(hart),
    }
}

/// A register that is left out and that the instruction reads at which a hart stands, or any where it stands at none.
#[inline(always)]
pub fn source_left_out(hart: &Hart, ram: &mut Ram) -> Option<Reg>
    ensures same { ram.new ≡ ram.old }
    ensures none { result ≡ None → (k : ℕ) → k < 32 → reg hart.now k ≡ LEFT → IsUnreadAt k hart.now ram.old }
{
    match ram.flat_instr(hart.pc()) {
        Ok(flat) => first_left_out(hart, sources_of(flat)),
        Err(_) => any_left_out(hart),
    }
}

/// The registers of a number whose bits they are.
#[inline(always)]
fn bits(sources: Sources) -> u32 {
    match sources {
        Sources::Nothing => 0,
        Sources::One(register) => 1 << register.number(),
        Sources::Two(first, second) => 1 << first.number() | 1 << second.number(),
        Sources::OfCall => 0x3_1c00,
    }
}

/// The registers that the instruction reads at which a hart stands, and those that it writes, as the bits of numbers. It serves guesses:
/// nothing is promised of it.
pub fn uses(hart: &Hart, ram: &mut Ram) -> (u32, u32)
    ensures { ram.new ≡ ram.old }
{
    let Ok(flat) = ram.flat_instr(hart.pc()) else {
        return (0, 0);
    };
    let writes = 1 << flat.rd.number();
    match flat.op {
        FlatOp::Ecall => (bits(Sources::OfCall), 0xc00),
        _ => (bits(sources_of(flat)), writes),
    }
}

/// A board stands for another where they are one but for registers that are left out of the first. What happens to it happens to each
/// board for which it stands, where the event reads none of these.
///
/// - `event`: an event that leads from it to a board leads from the other to one for which that stands.
/// - `back`: and the other way about.
/// - `keeps`: it keeps a map at the other too.
/// - `local`: a local turn that changes the pc is local at the other too.
/// - `rests`: where a turn leads back to it, and leaves a probe in each register that is left out of the hart, the turn leads from the other
///   back to that.
pub fn left_out_registers_change_nothing()
    ensures event { (payload : List ℕ) (size : Size) (n : ℕ) (e : Event) (b c d : Board) → Filled n b d → ReadsNone e b
        → Does payload size e b c → (f : Board) × Does payload size e d f × StandsFor c f }
    ensures back { (payload : List ℕ) (size : Size) (n : ℕ) (e : Event) (b d f : Board) → Filled n b d → ReadsNone e b
        → Does payload size e d f → (c : Board) × Does payload size e b c × StandsFor c f }
    ensures keeps { (map : Map) (n : ℕ) (e : Event) (b d : Board) → Filled n b d → ReadsNone e b → Keeps map e b → Keeps map e d }
    ensures local { (map : Map) (n g : ℕ) (b c d : Board) → Filled n b d → ReadsNone (Turn g) b → MovesPc g b c → Local map g b c
        → (f : Board) × Local map g d f × StandsFor c f }
    ensures rests { (payload : List ℕ) (size : Size) (n g : ℕ) (b d : Board) → Filled n b d → ReadsNone (Turn g) b
        → AreProbed g b → TurnOn g b b → TurnOn g d d }
{
    rv_decode::word_determines_instruction();
    machine::machine_determines_turn();
}
