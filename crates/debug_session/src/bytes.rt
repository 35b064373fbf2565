//! Bytes in hexadecimal digits.

ghost use Rattle.std.specs.Prelude.{◌≡◌, ◌∷◌, ◌++◌, IfOk, OnOk};
ghost use Rattle.debug_session.specs.Replies.{pair_of, pairs_of};

use crate::digits::digit;
use std::alloc::{AllocError, Global};

/// Writes a byte in two digits.
pub(crate) fn put_pair(out: &mut Vec<u8>, byte: u8) -> Result<(), AllocError>
    ensures { OnOk result (out.new.items ≡ out.old.items ++ pair_of byte) }
{
    out.push(digit(byte / 16))?;
    out.push(digit(byte % 16))?;
    Ok(())
}

/// A text after a sign.
pub(crate) fn behind_sign(alloc: Global, sign: u8, text: &[u8]) -> Result<Vec<u8>, AllocError>
    ensures { IfOk result (λ v. v.items ≡ sign ∷ text.now) }
{
    let mut out = Vec::new(alloc);
    out.push(sign)?;
    out.extend_from_slice(text)?;
    Ok(out)
}

/// Writes bytes in two digits each.
pub fn put_hex(out: &mut Vec<u8>, bytes: &[u8]) -> Result<(), AllocError>
    ensures { OnOk result (out.new.items ≡ out.old.items ++ pairs_of bytes.now) }
{
    for byte in bytes {
        put_pair(out, *byte)?;
    }
    Ok(())
}
