//! An input that is read to its end, or up to a bound.

ghost use Rattle.std.specs.Prelude.{◌≡◌, IfOk, IfSome, take};

use std::alloc::Global;
use std::io::{self, Read};

/// The bytes of the input, as many as that and no more. The error is the input's own, or `OutOfMemory`.
pub fn read_at_most<R: Read + Drop>(alloc: Global, input: R, most: u64) -> io::Result<Vec<u8>>
    // It is the whole input where that is no longer, and else so many first bytes of it.
    ensures { IfOk result (λ read. IfSome (R.remaining input) (λ bytes. read.items ≡ take most bytes)) }
{
    let mut bytes = Vec::new(alloc);
    input.take(most).read_to_end(&mut bytes)?;
    Ok(bytes)
}
