//! The lines, and their texts.

ghost use Rattle.std.specs.Prelude.{◌≡◌, ◌++◌, ◌≤◌, Some, take};
ghost use Rattle.std.specs.Fmt.{WritesOnOk};
ghost use Rattle.machine.specs.declared.line.MachineLine.TheVariants as lines;
ghost use Rattle.board_model.specs.Texts.{hex_text};
ghost use Rattle.machine.specs.Texts.{did_text, end_text, word_text, bytes_text, machine_line_text};

use board_model::{HartId, Slot, Value};
use sbi::{Did, LifeEnd, ResetType, Word};
use std::fmt;

/// Up to 64 bytes of memory.
#[derive(Clone, Copy, PartialEq, Eq)]
pub struct MemBytes {
    /// The bytes, and zeros after them.
    pub bytes: [u8; 64],
    /// How many they are.
    pub count: usize,
}

/// A report line about memory or harts.
#[derive(Clone, Copy, PartialEq, Eq)]
pub enum MachineLine {
    /// `turn H K WORD`: K turns were made. The word says what the last of them did.
    Turn(HartId, u32, Word),
    /// `call H error E value V`: the call was answered with this error and this value. The error is signed, as a0 holds it.
    Answered(HartId, u64, u64),
    /// `call H WORD`: the call was made, and no answer came.
    Called(HartId, Word),
    /// `call H not started`: the hart is not STARTED, and nothing was done.
    NotStarted(HartId),
    /// `reg H R V`
    Reg(HartId, u32, u64),
    /// `pc H V`
    Pc(HartId, u64),
    /// `csr H C V`
    Csr(HartId, u32, u64),
    /// `pending 0xMM`: the harts for which an interrupt is pending, below 256, with bit h for hart h.
    Pending(u32),
    /// `mem HEX`
    Mem(MemBytes),
    /// `payload S N`: the slot, and how many bytes it boots.
    Payload(Slot, usize),
    /// `busy`: not while the board is on.
    Busy,
    /// `off`: the board is off, or it lacks the hart or one of the bytes.
    Off,
}

/// What a hart did.
fn did_name(did: Did) -> &'static str
    ensures { result.now ≡ did_text did }
{
    match did {
        Did::Idle => "idle",
        Did::Entered => "entered",
        Did::Woke => "woke",
        Did::Resumed => "resumed",
        Did::Next => "next",
        Did::Suspended => "suspended",
        Did::Stopped => "stopped",
        Did::Dozing => "dozing",
    }
}

/// How the life ended.
fn end_name(end: LifeEnd) -> &'static str
    ensures { result.now ≡ end_text end }
{
    match end {
        LifeEnd::Asleep => "asleep",
        LifeEnd::Reset(ResetType::Shutdown) => "shutdown",
        LifeEnd::Reset(ResetType::ColdReboot) => "reboot",
    }
}

/// The word of a turn or of a call.
fn word_name(word: Word) -> &'static str
    ensures { result.now ≡ word_text word }
{
    match word {
        Word::Goes(did) => did_name(did),
        Word::Over(end) => end_name(end),
    }
}

/// The number of a control and status register in 3 hexadecimal digits.
#[derive(Drop)]
struct CsrName(u32);

impl fmt::Display for CsrName {
    ghost output = { λ n. Some (hex_text 3 n.0) };

    fn fmt<W: fmt::Write>(&self, f: &mut fmt::Formatter<W>) -> fmt::Result {
        let number = self.0;
        write!(f, "{number:03x}")
    }
}

/// A set of harts in 2 hexadecimal digits.
#[derive(Drop)]
struct Set(u32);

impl fmt::Display for Set {
    ghost output = { λ s. Some (hex_text 2 s.0) };

    fn fmt<W: fmt::Write>(&self, f: &mut fmt::Formatter<W>) -> fmt::Result {
        let harts = self.0;
        write!(f, "{harts:02x}")
    }
}

/// A byte in 2 hexadecimal digits.
#[derive(Drop)]
struct Byte(u8);

impl fmt::Display for Byte {
    ghost output = { λ b. Some (hex_text 2 b.0) };

    fn fmt<W: fmt::Write>(&self, f: &mut fmt::Formatter<W>) -> fmt::Result {
        let byte = self.0;
        write!(f, "{byte:02x}")
    }
}

/// Bytes, each in 2 hexadecimal digits.
#[derive(Drop)]
struct Hex<'a>(&'a [u8]);

impl<'a> fmt::Display for Hex<'a> {
    ghost output = { λ h. Some (bytes_text h.0.now) };

    fn fmt<W: fmt::Write>(&self, f: &mut fmt::Formatter<W>) -> fmt::Result {
        for byte in self.0 {
            let text = Byte(*byte);
            write!(f, "{text}")?;
        }
        Ok(())
    }
}

impl MemBytes {
    /// The bytes without the zeros after them.
    fn shown(&self) -> &[u8]
        ensures { result.now ≡ take self.now.count self.now.bytes }
    {
        match self.bytes.get(..self.count) {
            Some(shown) => shown,
            None => &self.bytes,
        }
    }
}

/// `turn H K WORD`
fn write_turn<W: fmt::Write>(
    f: &mut fmt::Formatter<W>,
    hart: HartId,
    count: u32,
    word: Word,
) -> fmt::Result
    ensures { WritesOnOk W.write_str_gives f.old result (machine_line_text (lines.Turn hart count word)) f.new }
{
    write!(f, "turn {} {count} {}", hart.number(), word_name(word))
}

/// `call H error E value V`
fn write_answered<W: fmt::Write>(
    f: &mut fmt::Formatter<W>,
    hart: HartId,
    error: u64,
    value: u64,
) -> fmt::Result
    ensures { WritesOnOk W.write_str_gives f.old result (machine_line_text (lines.Answered hart error value)) f.new }
{
    let error = error.cast_signed();
    let text = Value(value);
    write!(f, "call {} error {error} value 0x{text}", hart.number())
}

/// `call H WORD`
fn write_called<W: fmt::Write>(f: &mut fmt::Formatter<W>, hart: HartId, word: Word) -> fmt::Result
    ensures { WritesOnOk W.write_str_gives f.old result (machine_line_text (lines.Called hart word)) f.new }
{
    write!(f, "call {} {}", hart.number(), word_name(word))
}

/// `call H not started`
fn write_not_started<W: fmt::Write>(f: &mut fmt::Formatter<W>, hart: HartId) -> fmt::Result
    ensures { WritesOnOk W.write_str_gives f.old result (machine_line_text (lines.NotStarted hart)) f.new }
{
    write!(f, "call {} not started", hart.number())
}

/// `reg H R V`
fn write_reg<W: fmt::Write>(
    f: &mut fmt::Formatter<W>,
    hart: HartId,
    register: u32,
    value: u64,
) -> fmt::Result
    ensures { WritesOnOk W.write_str_gives f.old result (machine_line_text (lines.Reg hart register value)) f.new }
{
    write!(f, "reg {} {register} 0x{}", hart.number(), Value(value))
}

/// `pc H V`
fn write_pc<W: fmt::Write>(f: &mut fmt::Formatter<W>, hart: HartId, value: u64) -> fmt::Result
    ensures { WritesOnOk W.write_str_gives f.old result (machine_line_text (lines.Pc hart value)) f.new }
{
    write!(f, "pc {} 0x{}", hart.number(), Value(value))
}

/// `csr H C V`
fn write_csr<W: fmt::Write>(
    f: &mut fmt::Formatter<W>,
    hart: HartId,
    csr: u32,
    value: u64,
) -> fmt::Result
    ensures { WritesOnOk W.write_str_gives f.old result (machine_line_text (lines.Csr hart csr value)) f.new }
{
    let name = CsrName(csr);
    write!(f, "csr {} 0x{name} 0x{}", hart.number(), Value(value))
}

/// `pending 0xMM`
fn write_pending<W: fmt::Write>(f: &mut fmt::Formatter<W>, harts: u32) -> fmt::Result
    ensures { WritesOnOk W.write_str_gives f.old result (machine_line_text (lines.Pending harts)) f.new }
{
    write!(f, "pending 0x{}", Set(harts))
}

/// `mem HEX`
fn write_mem<W: fmt::Write>(f: &mut fmt::Formatter<W>, bytes: &MemBytes) -> fmt::Result
    ensures { WritesOnOk W.write_str_gives f.old result (machine_line_text (lines.Mem bytes.now)) f.new }
{
    write!(f, "mem {}", Hex(bytes.shown()))
}

/// `payload S N`
fn write_payload<W: fmt::Write>(f: &mut fmt::Formatter<W>, slot: Slot, count: usize) -> fmt::Result
    ensures { WritesOnOk W.write_str_gives f.old result (machine_line_text (lines.Payload slot count)) f.new }
{
    write!(f, "payload {} {count}", slot.number())
}

impl fmt::Display for MachineLine {
    ghost output = { λ line. Some (machine_line_text line) };

    fn fmt<W: fmt::Write>(&self, f: &mut fmt::Formatter<W>) -> fmt::Result {
        match *self {
            MachineLine::Turn(hart, count, word) => write_turn(f, hart, count, word),
            MachineLine::Answered(hart, error, value) => write_answered(f, hart, error, value),
            MachineLine::Called(hart, word) => write_called(f, hart, word),
            MachineLine::NotStarted(hart) => write_not_started(f, hart),
            MachineLine::Reg(hart, register, value) => write_reg(f, hart, register, value),
            MachineLine::Pc(hart, value) => write_pc(f, hart, value),
            MachineLine::Csr(hart, csr, value) => write_csr(f, hart, csr, value),
            MachineLine::Pending(harts) => write_pending(f, harts),
            MachineLine::Mem(bytes) => write_mem(f, &bytes),
            MachineLine::Payload(slot, count) => write_payload(f, slot, count),
            MachineLine::Busy => f.write_str("busy"),
            MachineLine::Off => f.write_str("off"),
        }
    }
}
