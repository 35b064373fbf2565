//! What the types of a line's numbers and bytes say of them.

ghost use Rattle.std.specs.Prelude.{All, ◌<◌, ◌^◌};
ghost use Rattle.hex.specs.Hex.{IsBytes};
ghost use Rattle.script_lang.specs.Armings.{FitsArming};
ghost use Rattle.script_lang.specs.Lines.{FitsLine};
ghost use Rattle.script_lang.specs.Words.{FitsFill};

use crate::armings::Arming;
use crate::line::Line;
use board_model::{Bytes, CallWords};
use simdisk::Fill;

fn slice_fits(bytes: &[u8])
    ensures { IsBytes bytes.now }
{
    let _count = bytes.len();
}

fn bytes_fit(bytes: &Bytes)
    ensures { IsBytes bytes.now }
{
    slice_fits(bytes.as_slice());
}

fn fill_fits(fill: Fill)
    ensures { FitsFill fill }
{
    if let Fill::Byte(byte) = fill {
        let _byte = byte;
    }
}

fn arming_fits(arming: Arming)
    ensures { FitsArming arming }
{
    match arming {
        Arming::CutAt(_, fill) => fill_fits(fill),
        Arming::CutLane(_, _, fill) => fill_fits(fill),
        Arming::FailAt(_) | Arming::FailLane(..) => {}
    }
}

fn words_fit(words: CallWords)
    ensures { (words.eid < 2 ^ 64) × (words.fid < 2 ^ 64) × (words.a0 < 2 ^ 64) × (words.a1 < 2 ^ 64) × (words.a2 < 2 ^ 64) }
{
    let _eid = words.eid;
    let _fid = words.fid;
    let _a0 = words.a0;
    let _a1 = words.a1;
    let _a2 = words.a2;
}

/// Each number and byte of a line fits the type that the code has for it.
fn line_fits(line: &Line)
    ensures { FitsLine line.now }
{
    match line {
        Line::Payload(_, bytes) => bytes_fit(bytes),
        Line::Call(_, words) => words_fit(*words),
        Line::Arm(arming) => arming_fits(*arming),
        Line::Cut(fill) => fill_fits(*fill),
        Line::Poke(sector, _, bytes) => {
            let _sector = *sector;
            bytes_fit(bytes)
        }
        _ => {}
    }
}

/// Each number and byte of these lines fits the type that the code has for it, as a script that is to be read from its
/// text needs.
pub fn fits(lines: &[Line])
    ensures { All FitsLine lines.now }
{
    for line in lines {
        line_fits(line);
    }
}
