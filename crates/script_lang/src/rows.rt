//! The rows of the lines that are of no class: what the words after each keyword say.

ghost use Rattle.std.specs.Prelude.{◌≡◌, ◌≤◌, ◌<◌, map, length, IfOk, IfSome};
ghost use Rattle.std.specs.Option.{option_map};
ghost use Rattle.script_lang.specs.Words.{ranged};
ghost use Rattle.board_model.specs.Shapes.{Size, sectors_of};
ghost use Rattle.script_lang.specs.Lines.{payload_of, mode_of, on_of, turn_of, extension_of, argument_of, call_head_of, call_line_of, cut_of, place_of, poke_of, IsLineInRange};

use crate::line::Line;
use crate::words::{bytes, calls, fill, hart, in_range, none, number, one, three, two};
use board_model::{BootMode, CallWords, SECTOR_BYTES, Shape, Slot};
use std::alloc::{AllocError, Global};

/// A boot slot, 0 to 3.
fn boot_slot(word: &[u8]) -> Option<Slot>
    ensures { result ≡ ranged 0 4 word.now }
{
    Slot::new(in_range(0, 4, word)?)
}

/// `payload S HEX`: the slot below 4, and 1 to 1,024 bytes.
pub fn payload(alloc: Global, words: &[&[u8]]) -> Result<Option<Line>, AllocError>
    ensures value { IfOk result (λ line. line ≡ payload_of (map (λ w. w.now) words.now)) }
    ensures range { (size : Size) → IfOk result (λ line. IfSome line (IsLineInRange size)) }
{
    let Some((s, h)) = two(words) else {
        return Ok(None);
    };
    let Some(slot) = boot_slot(s) else {
        return Ok(None);
    };
    let Some(bytes) = bytes(alloc, h)? else {
        return Ok(None);
    };
    if 1024 < bytes.len() {
        return Ok(None);
    }
    Ok(Some(Line::Payload(slot, bytes)))
}

/// A way to power on, by its name: `fresh`, `keep`, `discard` or `resume`.
pub fn mode(word: &[u8]) -> Option<BootMode>
    ensures { result ≡ mode_of word.now }
{
    if word == b"fresh".as_slice() {
        return Some(BootMode::Fresh);
    }
    if word == b"keep".as_slice() {
        return Some(BootMode::Keep);
    }
    if word == b"discard".as_slice() {
        return Some(BootMode::Discard);
    }
    if word == b"resume".as_slice() {
        return Some(BootMode::Resume);
    }
    None
}

/// `on MODE`.
pub fn on(words: &[&[u8]]) -> Option<Line>
    ensures value { result ≡ on_of (map (λ w. w.now) words.now) }
    ensures range { (size : Size) → IfSome result (IsLineInRange size) }
{
    Some(Line::On(mode(one(words)?)?))
}

/// `turn H N`.
pub fn turn(shape: &Shape, words: &[&[u8]]) -> Option<Line>
    ensures value { result ≡ turn_of shape.now (map (λ w. w.now) words.now) }
    ensures range { IfSome result (IsLineInRange shape.now) }
{
    let (h, n) = two(words)?;
    let hart = hart(shape, h)?;
    Some(Line::Turn(hart, calls(n)?))
}

/// An SBI extension, by its name or its number.
fn extension(word: &[u8]) -> Option<u64>
    ensures { result ≡ extension_of word.now }
{
    if word == b"base".as_slice() {
        return Some(0x10);
    }
    if word == b"hsm".as_slice() {
        return Some(0x48534D);
    }
    if word == b"ipi".as_slice() {
        return Some(0x735049);
    }
    if word == b"srst".as_slice() {
        return Some(0x53525354);
    }
    if word == b"susp".as_slice() {
        return Some(0x53555350);
    }
    number(word)
}

/// The number of the next word, 0 where no word is left, and the words after it.
fn argument<'a, 'b>(words: &'b [&'a [u8]]) -> Option<(u64, &'b [&'a [u8]])>
    ensures { option_map (λ found. (found.0, map (λ w. w.now) found.1.now)) result
        ≡ argument_of (map (λ w. w.now) words.now) }
{
    match words {
        [] => Some((0, words)),
        [word, others @ ..] => Some((number(word)?, others)),
    }
}

/// The first three words, and the others.
fn head<'a, 'b>(words: &'b [&'a [u8]]) -> Option<(&'a [u8], &'a [u8], &'a [u8], &'b [&'a [u8]])>
    ensures { option_map (λ h. (h.0.now, h.1.now, h.2.now, map (λ w. w.now) h.3.now)) result
        ≡ call_head_of (map (λ w. w.now) words.now) }
{
    match words {
        [a, b, c, others @ ..] => Some((*a, *b, *c, others)),
        _ => None,
    }
}

/// `call H EID FID [A0 [A1 [A2]]]`: the extension by its number or its name (SBI specification 2.0, chapters
/// Base, HSM, IPI, SRST and SUSP); missing arguments are 0.
pub fn call(shape: &Shape, words: &[&[u8]]) -> Option<Line>
    ensures value { result ≡ call_line_of shape.now (map (λ w. w.now) words.now) }
    ensures range { IfSome result (IsLineInRange shape.now) }
{
    let (h, e, f, others) = head(words)?;
    let hart = hart(shape, h)?;
    let eid = extension(e)?;
    let fid = number(f)?;
    let (a0, others) = argument(others)?;
    let (a1, others) = argument(others)?;
    let (a2, others) = argument(others)?;
    none(others)?;
    let words = CallWords {
        eid,
        fid,
        a0,
        a1,
        a2,
    };
    Some(Line::Call(hart, words))
}

/// `cut FILL`.
pub fn cut(words: &[&[u8]]) -> Option<Line>
    ensures value { result ≡ cut_of (map (λ w. w.now) words.now) }
    ensures range { (size : Size) → IfSome result (IsLineInRange size) }
{
    Some(Line::Cut(fill(one(words)?)?))
}

/// `poke SECTOR OFFSET HEX`: bytes within one sector of the disk.
pub fn poke(alloc: Global, shape: &Shape, words: &[&[u8]]) -> Result<Option<Line>, AllocError>
    ensures value { IfOk result (λ line. line ≡ poke_of shape.now (map (λ w. w.now) words.now)) }
    ensures range { IfOk result (λ line. IfSome line (IsLineInRange shape.now)) }
{
    let Some((sector, offset, h)) = place(shape, words) else {
        return Ok(None);
    };
    let Some(bytes) = bytes(alloc, h)? else {
        return Ok(None);
    };
    if SECTOR_BYTES - (offset as usize) < bytes.len() {
        return Ok(None);
    }
    Ok(Some(Line::Poke(sector, offset, bytes)))
}

/// The sector and the offset of a `poke`, and the word of its bytes.
fn place<'a>(shape: &Shape, words: &[&'a [u8]]) -> Option<(u32, u32, &'a [u8])>
    ensures value { option_map (λ p. (p.0, p.1, p.2.now)) result ≡ place_of shape.now (map (λ w. w.now) words.now) }
    ensures range { IfSome result (λ p. (p.0 < sectors_of shape.now) × (p.1 < 512)) }
{
    let (s, o, h) = three(words)?;
    let sector = in_range(0, shape.sectors() as u64, s)?;
    let offset = in_range(0, SECTOR_BYTES as u64, o)?;
    Some((sector, offset, h))
}
