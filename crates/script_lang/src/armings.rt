//! The lines that arm a fault of the disk.

ghost use Rattle.std.specs.Prelude.{◌≡◌, ◌<◌, map, IfSome, Some};
ghost use Rattle.std.specs.List.{join_with_byte};
ghost use Rattle.board_model.specs.Shapes.{Size};
ghost use Rattle.script_lang.specs.Words.{ranged};
ghost use Rattle.script_lang.specs.Armings.{cutat_of, cutlane_of, failat_of, faillane_of, arming_said, IsArmingInRange, arming_spelling};

use crate::pairs::FillText;
use crate::words::{calls, fill, in_range, one, three, two};
use board_model::Shape;
use simdisk::Fill;
use std::fmt;

/// A fault of the disk that a line arms; of several cuts that are armed the newest says what a cut leaves.
#[derive(Clone, Copy, Drop)]
pub enum Arming {
    /// `cutat N FILL`: power fails at the N-th disk call from here on, 1 to 1,000,000.
    CutAt(u32, Fill),
    /// `cutlane I N FILL`: power fails at the N-th call of that lane from here on.
    CutLane(u32, u32, Fill),
    /// `failat N`: the N-th disk call from here on fails.
    FailAt(u32),
    /// `faillane I N`: the N-th call of that lane from here on fails.
    FailLane(u32, u32),
}

/// A saver lane of the board.
fn lane(shape: &Shape, word: &[u8]) -> Option<u32>
    ensures value { result ≡ ranged 0 shape.now.lanes word.now }
    ensures range { IfSome result (λ i. i < shape.now.lanes) }
{
    in_range(0, u64::from(shape.lanes()), word)
}

/// `cutat N FILL`.
fn cutat(words: &[&[u8]]) -> Option<Arming>
    ensures value { result ≡ cutat_of (map (λ w. w.now) words.now) }
    ensures range { (size : Size) → IfSome result (IsArmingInRange size) }
{
    let (n, f) = two(words)?;
    let calls = calls(n)?;
    Some(Arming::CutAt(calls, fill(f)?))
}

/// `cutlane I N FILL`.
fn cutlane(shape: &Shape, words: &[&[u8]]) -> Option<Arming>
    ensures value { result ≡ cutlane_of shape.now (map (λ w. w.now) words.now) }
    ensures range { IfSome result (IsArmingInRange shape.now) }
{
    let (i, n, f) = three(words)?;
    let lane = lane(shape, i)?;
    let calls = calls(n)?;
    Some(Arming::CutLane(lane, calls, fill(f)?))
}

/// `failat N`.
fn failat(words: &[&[u8]]) -> Option<Arming>
    ensures value { result ≡ failat_of (map (λ w. w.now) words.now) }
    ensures range { (size : Size) → IfSome result (IsArmingInRange size) }
{
    Some(Arming::FailAt(calls(one(words)?)?))
}

/// `faillane I N`.
fn faillane(shape: &Shape, words: &[&[u8]]) -> Option<Arming>
    ensures value { result ≡ faillane_of shape.now (map (λ w. w.now) words.now) }
    ensures range { IfSome result (IsArmingInRange shape.now) }
{
    let (i, n) = two(words)?;
    let lane = lane(shape, i)?;
    Some(Arming::FailLane(lane, calls(n)?))
}

/// What a keyword and the words after it arm.
pub fn arming_said(shape: &Shape, keyword: &[u8], words: &[&[u8]]) -> Option<Arming>
    ensures value { result ≡ arming_said shape.now keyword.now (map (λ w. w.now) words.now) }
    ensures range { IfSome result (IsArmingInRange shape.now) }
{
    if keyword == b"cutat".as_slice() {
        return cutat(words);
    }
    if keyword == b"cutlane".as_slice() {
        return cutlane(shape, words);
    }
    if keyword == b"failat".as_slice() {
        return failat(words);
    }
    if keyword == b"faillane".as_slice() {
        return faillane(shape, words);
    }
    None
}

/// An armed fault as the language writes it.
#[derive(Drop)]
pub struct ArmingText(pub Arming);

impl fmt::Display for ArmingText {
    ghost output = { λ a. Some (join_with_byte 32 (arming_spelling a.0)) };

    fn fmt<W: fmt::Write>(&self, f: &mut fmt::Formatter<W>) -> fmt::Result {
        match self.0 {
            Arming::CutAt(calls, fill) => {
                let fill = FillText(fill);
                write!(f, "cutat {calls} {fill}")
            }
            Arming::CutLane(lane, calls, fill) => {
                let fill = FillText(fill);
                write!(f, "cutlane {lane} {calls} {fill}")
            }
            Arming::FailAt(calls) => write!(f, "failat {calls}"),
            Arming::FailLane(lane, calls) => write!(f, "faillane {lane} {calls}"),
        }
    }
}
