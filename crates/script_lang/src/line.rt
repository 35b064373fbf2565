//! What a line of a script says, and its text, which `lines_read_as_spelled` reads back.

ghost use Rattle.std.specs.Prelude.{◌≡◌, map, IfOk, IfSome, Some};
ghost use Rattle.std.specs.Fmt.{WritesOnOk};
ghost use Rattle.script_lang.specs.declared.line.Line.TheVariants as lines;
ghost use Rattle.script_lang.specs.Lines.{other_said, line_of, mode_text, text_of, IsLineInRange};

use crate::armings::{Arming, ArmingText, arming_said};
use crate::commands::{CommandText, command_said};
use crate::looks::{Look, LookText, look_said};
use crate::pairs::{FillText, HexText};
use crate::rows;
use crate::words::alone;
use board_model::{BootMode, Bytes, CallWords, ConsoleCommand, HartId, Shape, Slot};
use simdisk::Fill;
use std::alloc::{AllocError, Global};
use std::fmt;

/// A line after the board line. Harts, lanes, addresses and sectors are in the ranges of that board.
#[derive(Drop)]
pub enum Line {
    /// `payload S HEX`: what the slot boots, 1 to 1,024 bytes.
    Payload(Slot, Bytes),
    /// `format`
    Format,
    /// `on MODE`: power on.
    On(BootMode),
    /// `slot S`, `discard`, `tries S N` or `good`: a durable command of the console, with any numbers below 2^32.
    Command(ConsoleCommand),
    /// `turn H N`: up to N turns of the hart, 1 to 1,000,000.
    Turn(HartId, u32),
    /// `call H EID FID A0 A1 A2`: an SBI call of the hart; missing arguments are 0.
    Call(HartId, CallWords),
    /// `reg H R`, `pc H`, `csr H C`, `pending` or `mem A N`: what is shown of a board that is on.
    Show(Look),
    /// `cutat N FILL`, `cutlane I N FILL`, `failat N` or `faillane I N`: a fault of the disk is armed.
    Arm(Arming),
    /// `cut FILL`: power fails now.
    Cut(Fill),
    /// `poke SECTOR OFFSET HEX`: bytes written into one sector past the firmware.
    Poke(u32, u32, Bytes),
    /// `inspect`: what stands on the disk.
    Inspect,
    /// `wake`: the wake-up device calls a board that sleeps to RAM.
    Wake,
}

impl Line {
    /// A line that says the same. Refused where memory is.
    pub fn copy(&self, alloc: Global) -> Result<Line, AllocError>
        ensures { IfOk result (λ copy. copy ≡ self.now) }
    {
        match self {
            Line::Payload(slot, bytes) => Ok(Line::Payload(*slot, bytes.copy(alloc)?)),
            Line::Format => Ok(Line::Format),
            Line::On(mode) => Ok(Line::On(*mode)),
            Line::Command(command) => Ok(Line::Command(*command)),
            Line::Turn(hart, count) => Ok(Line::Turn(*hart, *count)),
            Line::Call(hart, words) => Ok(Line::Call(*hart, *words)),
            Line::Show(look) => Ok(Line::Show(*look)),
            Line::Arm(arming) => Ok(Line::Arm(*arming)),
            Line::Cut(fill) => Ok(Line::Cut(*fill)),
            Line::Poke(sector, offset, bytes) => {
                Ok(Line::Poke(*sector, *offset, bytes.copy(alloc)?))
            }
            Line::Inspect => Ok(Line::Inspect),
            Line::Wake => Ok(Line::Wake),
        }
    }
}

/// The line of no class that a keyword and the words after it say.
fn other_said(
    alloc: Global,
    shape: &Shape,
    keyword: &[u8],
    words: &[&[u8]],
) -> Result<Option<Line>, AllocError>
    ensures value { IfOk result (λ line. line ≡ other_said shape.now keyword.now (map (λ w. w.now) words.now)) }
    ensures range { IfOk result (λ line. IfSome line (IsLineInRange shape.now)) }
{
    if keyword == b"payload".as_slice() {
        return rows::payload(alloc, words);
    }
    if keyword == b"format".as_slice() {
        return Ok(alone(Line::Format, words));
    }
    if keyword == b"on".as_slice() {
        return Ok(rows::on(words));
    }
    if keyword == b"turn".as_slice() {
        return Ok(rows::turn(shape, words));
    }
    if keyword == b"call".as_slice() {
        return Ok(rows::call(shape, words));
    }
    if keyword == b"cut".as_slice() {
        return Ok(rows::cut(words));
    }
    if keyword == b"poke".as_slice() {
        return rows::poke(alloc, shape, words);
    }
    if keyword == b"inspect".as_slice() {
        return Ok(alone(Line::Inspect, words));
    }
    if keyword == b"wake".as_slice() {
        return Ok(alone(Line::Wake, words));
    }
    Ok(None)
}

/// The line that its words say on a board of this shape; None where they are no line.
pub fn line_said(alloc: Global, shape: &Shape, words: &[&[u8]]) -> Result<Option<Line>, AllocError>
    ensures value { IfOk result (λ line. line ≡ line_of shape.now (map (λ w. w.now) words.now)) }
    ensures range { IfOk result (λ line. IfSome line (IsLineInRange shape.now)) }
{
    let [keyword, others @ ..] = words else {
        return Ok(None);
    };
    if let Some(command) = command_said(keyword, others) {
        return Ok(Some(Line::Command(command)));
    }
    if let Some(look) = look_said(shape, keyword, others) {
        return Ok(Some(Line::Show(look)));
    }
    if let Some(arming) = arming_said(shape, keyword, others) {
        return Ok(Some(Line::Arm(arming)));
    }
    other_said(alloc, shape, keyword, others)
}

/// A line in one spelling: decimal numbers, and hexadecimal digits in lower case.
#[derive(Drop)]
pub struct LineText<'a>(pub &'a Line);

#[derive(Drop)]
struct ModeText(BootMode);

impl fmt::Display for ModeText {
    ghost output = { λ m. Some (mode_text m.0) };

    fn fmt<W: fmt::Write>(&self, f: &mut fmt::Formatter<W>) -> fmt::Result {
        match self.0 {
            BootMode::Fresh => f.write_str("fresh"),
            BootMode::Keep => f.write_str("keep"),
            BootMode::Discard => f.write_str("discard"),
            BootMode::Resume => f.write_str("resume"),
        }
    }
}

/// `payload S HEX`
#[tactic(auto, using(crate::proofs::BytePairs::pairs_encode))]
fn write_payload<W: fmt::Write>(f: &mut fmt::Formatter<W>, slot: Slot, bytes: &Bytes) -> fmt::Result
    ensures { WritesOnOk W.write_str_gives f.old result (text_of (lines.Payload slot bytes.now)) f.new }
{
    write!(f, "payload {} {}", slot.number(), HexText(bytes))
}

/// `turn H N`
fn write_turns<W: fmt::Write>(f: &mut fmt::Formatter<W>, hart: HartId, count: u32) -> fmt::Result
    ensures { WritesOnOk W.write_str_gives f.old result (text_of (lines.Turn hart count)) f.new }
{
    write!(f, "turn {} {count}", hart.number())
}

/// `call H EID FID A0 A1 A2`
fn write_call<W: fmt::Write>(
    f: &mut fmt::Formatter<W>,
    hart: HartId,
    words: CallWords,
) -> fmt::Result
    ensures { WritesOnOk W.write_str_gives f.old result (text_of (lines.Call hart words)) f.new }
{
    let CallWords {
        eid,
        fid,
        a0,
        a1,
        a2,
    } = words;
    write!(f, "call {} {eid} {fid} {a0} {a1} {a2}", hart.number())
}

/// `poke SECTOR OFFSET HEX`
#[tactic(auto, using(crate::proofs::BytePairs::pairs_encode))]
fn write_poke<W: fmt::Write>(
    f: &mut fmt::Formatter<W>,
    sector: u32,
    offset: u32,
    bytes: &Bytes,
) -> fmt::Result
    ensures { WritesOnOk W.write_str_gives f.old result (text_of (lines.Poke sector offset bytes.now)) f.new }
{
    write!(f, "poke {sector} {offset} {}", HexText(bytes))
}

impl<'a> fmt::Display for LineText<'a> {
    ghost output = { λ t. Some (text_of t.0.now) };

    fn fmt<W: fmt::Write>(&self, f: &mut fmt::Formatter<W>) -> fmt::Result {
        match self.0 {
            Line::Payload(slot, bytes) => write_payload(f, *slot, bytes),
            Line::Format => f.write_str("format"),
            Line::On(mode) => write!(f, "on {}", ModeText(*mode)),
            Line::Command(command) => write!(f, "{}", CommandText(*command)),
            Line::Turn(hart, count) => write_turns(f, *hart, *count),
            Line::Call(hart, words) => write_call(f, *hart, *words),
            Line::Show(look) => write!(f, "{}", LookText(*look)),
            Line::Arm(arming) => write!(f, "{}", ArmingText(*arming)),
            Line::Cut(fill) => write!(f, "cut {}", FillText(*fill)),
            Line::Poke(sector, offset, bytes) => write_poke(f, *sector, *offset, bytes),
            Line::Inspect => f.write_str("inspect"),
            Line::Wake => f.write_str("wake"),
        }
    }
}
