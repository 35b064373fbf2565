//! The harts as threads, whose numbers are one more, since 0 means any thread in the protocol.

ghost use Rattle.std.specs.Prelude.{◌≡◌, ◌+◌, ◌++◌, ◌≤◌, ◌<◌, ◌∷◌, [], IfOk, OnOk};
ghost use Rattle.debug_session.specs.Packets.{digit_of};
ghost use Rattle.debug_session.specs.Replies.{others_text, threads_text};

use crate::bytes::behind_sign;
use crate::digits::digit;
use std::alloc::{AllocError, Global};

/// Writes the thread of a hart after a comma.
fn put_thread(out: &mut Vec<u8>, hart: u32) -> Result<(), AllocError>
    requires { hart < 8 }
    ensures { OnOk result (out.new.items ≡ out.old.items ++ 44 ∷ digit_of (hart + 1) ∷ []) }
{
    out.push(b',')?;
    out.push(digit(hart as u8 + 1))?;
    Ok(())
}

/// The threads of so many harts, each after a comma.
fn others(alloc: Global, harts: u32) -> Result<Vec<u8>, AllocError>
    requires { harts ≤ 8 }
    ensures { IfOk result (λ v. v.items ≡ others_text harts) }
{
    let mut out = Vec::new(alloc);
    for hart in 0..harts {
        put_thread(&mut out, hart)?;
    }
    Ok(out)
}

/// The numbers of the threads of so many harts, as `qfThreadInfo` is answered.
pub fn threads(alloc: Global, harts: u32) -> Result<Vec<u8>, AllocError>
    requires { harts ≤ 8 }
    ensures { IfOk result (λ v. v.items ≡ threads_text harts) }
{
    let others = others(alloc, harts)?;
    if others.is_empty() {
        behind_sign(alloc, b'm', b"")
    } else {
        behind_sign(alloc, b'm', &others[1..])
    }
}
