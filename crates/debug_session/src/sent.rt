//! Payloads in their packets.

ghost use Rattle.std.specs.Prelude.{◌≡◌, map, IfOk};
ghost use Rattle.debug_session.specs.Replies.{packets_of};

use crate::frames::put_framed;
use std::alloc::{AllocError, Global};

/// Payloads one after another, each in its packet.
pub fn packets(alloc: Global, payloads: &[Vec<u8>]) -> Result<Vec<u8>, AllocError>
    ensures { IfOk result (λ v. v.items ≡ packets_of (map (λ p. p.items) payloads.now)) }
{
    let mut out = Vec::new(alloc);
    for payload in payloads {
        put_framed(alloc, &mut out, payload)?;
    }
    Ok(out)
}
