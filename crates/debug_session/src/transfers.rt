//! Parts of the objects that `qXfer` reads.

ghost use Rattle.std.specs.Prelude.{◌≡◌, IfOk};
ghost use Rattle.debug_session.specs.Replies.{part_text};

use crate::bytes::behind_sign;
use std::alloc::{AllocError, Global};

/// From an offset on so many bytes of an object, after `m` where there are more and `l` where there are none.
pub fn part(alloc: Global, object: &[u8], offset: u64, count: u64) -> Result<Vec<u8>, AllocError>
    ensures { IfOk result (λ v. v.items ≡ part_text object.now offset count) }
{
    let length = object.len() as u64;
    let first = if offset < length { offset } else { length };
    if count < length - first {
        behind_sign(
            alloc,
            b'm',
            &object[first as usize..(first + count) as usize],
        )
    } else {
        behind_sign(alloc, b'l', &object[first as usize..])
    }
}
