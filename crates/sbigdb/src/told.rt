//! The payload files in the lines of a session's script, as far as a line has room for them.

ghost use Rattle.std.specs.Prelude.{◌≡◌, ◌≤◌, ◌++◌, ◌∷◌, [], All, length, slice_set, IfOk, OnOk};
ghost use Rattle.board.specs.Boots.{payload_at};
ghost use Rattle.board_model.specs.Shapes.{Size};
ghost use Rattle.script_lang.specs.Lines.{IsLineInRange};
ghost use Rattle.sbigdb.specs.Tellings.{AreTold, begin_for, line_for};

use board::Payloads;
use board_model::{Bytes, Slot};
use script_lang::Line;
use std::alloc::{AllocError, Global};

/// The most bytes that a line `payload` has.
const MOST_BYTES: usize = 1024;

/// The lines of a script that says itself what its slots boot, as far as a line has room for it; and the payloads with
/// which it begins, which are the others.
#[derive(Drop)]
pub struct PayloadScript {
    /// The lines, those of payloads first.
    pub lines: Vec<Line>,
    /// The payloads that no line has room for, and those that are empty.
    pub begins: Payloads,
}

/// Tells the payload of one slot: in a line, where it has 1 to 1,024 bytes, else as one with which the script begins.
#[tactic(auto, using(crate::proofs::Ranges::payload_ranged))]
fn tell(
    alloc: Global,
    payloads: &Payloads,
    number: u32,
    told: &mut PayloadScript,
) -> Result<(), AllocError>
    requires { number ≤ 3 }
    ensures line { OnOk result (told.new.lines.items ≡ told.old.lines.items ++ line_for number (payload_at payloads.now number)) }
    ensures begin { OnOk result (told.new.begins ≡ slice_set told.old.begins number (begin_for (payload_at payloads.now number))) }
    ensures ranges { OnOk result ((size : Size) → All (IsLineInRange size) told.old.lines.items
        → All (IsLineInRange size) told.new.lines.items) }
{
    let Some(slot) = Slot::new(number) else {
        return Ok(());
    };
    let bytes = Vec::from_slice(alloc, payloads.get(slot))?;
    if bytes.is_empty() || MOST_BYTES < bytes.len() {
        told.begins.set(slot, bytes);
        return Ok(());
    }
    told.begins.set(slot, Vec::new(alloc));
    told.lines.push(Line::Payload(slot, Bytes::new(bytes)))?;
    Ok(())
}

/// Tells the payloads of all slots, and then these lines, to a script that says nothing yet.
fn tell_all(
    alloc: Global,
    payloads: &Payloads,
    lines: &mut Vec<Line>,
    told: &mut PayloadScript,
) -> Result<(), AllocError>
    requires four { length payloads.now ≡ 4 }
    requires none { told.old.lines.items ≡ [] }
    requires begins { told.old.begins ≡ [] ∷ [] ∷ [] ∷ [] ∷ [] }
    ensures told { OnOk result (AreTold payloads.now lines.old.items told.new.lines.items told.new.begins) }
    ensures four { OnOk result (length told.new.begins ≡ 4) }
    ensures ranges { OnOk result ((size : Size) → All (IsLineInRange size) lines.old.items
        → All (IsLineInRange size) told.new.lines.items) }
{
    tell(alloc, payloads, 0, told)?;
    tell(alloc, payloads, 1, told)?;
    tell(alloc, payloads, 2, told)?;
    tell(alloc, payloads, 3, told)?;
    told.lines.append(lines)?;
    Ok(())
}

/// The payloads of all slots told, and then these lines.
pub fn told_payloads(
    alloc: Global,
    lines: Vec<Line>,
    payloads: &Payloads,
) -> Result<PayloadScript, AllocError>
    requires { length payloads.now ≡ 4 }
    ensures told { IfOk result (λ told. AreTold payloads.now lines.items told.lines.items told.begins) }
    ensures four { IfOk result (λ told. length told.begins ≡ 4) }
    ensures ranges { IfOk result (λ told. (size : Size) → All (IsLineInRange size) lines.items
        → All (IsLineInRange size) told.lines.items) }
{
    let mut told = PayloadScript {
        lines: Vec::new(alloc),
        begins: Payloads::new(alloc),
    };
    let mut lines = lines;
    tell_all(alloc, payloads, &mut lines, &mut told)?;
    Ok(told)
}
