//! Copies of lines.

ghost use Rattle.std.specs.Prelude.{◌≡◌, IfOk};

use script_lang::Line;
use std::alloc::{AllocError, Global};

/// Lines that say the same, in their order.
pub fn copied_row(alloc: Global, row: &[Line]) -> Result<Vec<Line>, AllocError>
    ensures { IfOk result (λ copy. copy.items ≡ row.now) }
{
    let mut copy = Vec::new(alloc);
    for line in row {
        let line = line.copy(alloc)?;
        copy.push(line)?;
    }
    Ok(copy)
}
