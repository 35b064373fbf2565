//! Payloads in frames, and back.

ghost use Rattle.std.specs.Prelude.{◌≡◌, ◌∷◌, ◌++◌, ℕ, List, false, IfOk, OnOk};
ghost use Rattle.std.specs.Option.{option_map};
ghost use Rattle.debug_session.specs.Replies.{pair_of};
ghost use Rattle.debug_session.specs.Packets.{is_special, toggled, escaped, body_of, sum_of, framed_of, led_by, spelled_by, payload_read};

use crate::bytes::put_pair;
use crate::digits::value;
use std::alloc::{AllocError, Global};

/// Whether a byte stands in a packet by an escape alone.
fn is_special(byte: u8) -> bool
    ensures { result ≡ is_special byte }
{
    byte == b'#' || byte == b'$' || byte == b'}' || byte == b'*'
}

/// The byte after an escape, and the byte that it stands for.
fn toggled(byte: u8) -> u8
    ensures { result ≡ toggled byte }
{
    if byte % 64 < 32 { byte + 32 } else { byte - 32 }
}

/// Writes a byte of a payload.
fn escape(byte: u8, out: &mut Vec<u8>) -> Result<(), AllocError>
    ensures { OnOk result (out.new.items ≡ out.old.items ++ escaped byte) }
{
    if is_special(byte) {
        out.push(b'}')?;
        out.push(toggled(byte))?;
    } else {
        out.push(byte)?;
    }
    Ok(())
}

/// What stands between `$` and `#` for a payload.
pub fn body(alloc: Global, payload: &[u8]) -> Result<Vec<u8>, AllocError>
    ensures { IfOk result (λ v. v.items ≡ body_of payload.now) }
{
    let mut out = Vec::new(alloc);
    for byte in payload {
        escape(*byte, &mut out)?;
    }
    Ok(out)
}

/// The sum of the bytes between `$` and `#`, modulo 256.
pub fn checksum(body: &[u8]) -> u8
    ensures { result ≡ sum_of body.now }
{
    let mut sum: u8 = 0;
    for byte in body {
        sum = sum.wrapping_add(*byte);
    }
    sum
}

/// Writes a packet of that body, with that sum.
fn put_body(out: &mut Vec<u8>, body: &[u8], sum: u8) -> Result<(), AllocError>
    ensures { OnOk result (out.new.items ≡ out.old.items ++ 36 ∷ (body.now ++ 35 ∷ pair_of sum)) }
{
    out.push(b'$')?;
    out.extend_from_slice(body)?;
    out.push(b'#')?;
    put_pair(out, sum)
}

/// Writes a payload in its packet.
pub(crate) fn put_framed(alloc: Global, out: &mut Vec<u8>, payload: &[u8]) -> Result<(), AllocError>
    ensures { OnOk result (out.new.items ≡ out.old.items ++ framed_of payload.now) }
{
    let body = body(alloc, payload)?;
    let sum = checksum(&body);
    put_body(out, &body, sum)
}

/// A payload in its packet.
pub fn framed(alloc: Global, payload: &[u8]) -> Result<Vec<u8>, AllocError>
    ensures { IfOk result (λ v. v.items ≡ framed_of payload.now) }
{
    let mut out = Vec::new(alloc);
    put_framed(alloc, &mut out, payload)?;
    Ok(out)
}

/// Reads a byte of a body, after an escape or not: whether the next one stands after one.
#[tactic(auto, using(crate::proofs::Spelled::led_both))]
fn spell(byte: u8, after_escape: bool, out: &mut Vec<u8>) -> Result<bool, AllocError>
    ensures { IfOk result (λ next. (more : List ℕ) → led_by out.new.items (spelled_by next more)
        ≡ led_by out.old.items (spelled_by after_escape (byte ∷ more))) }
{
    if after_escape {
        out.push(toggled(byte))?;
        return Ok(false);
    }
    if byte == b'}' {
        return Ok(true);
    }
    out.push(byte)?;
    Ok(false)
}

/// The payload that a body spells: none where it ends with an escape.
fn unescaped(alloc: Global, body: &[u8]) -> Result<Option<Vec<u8>>, AllocError>
    ensures { IfOk result (λ found. option_map (λ v. v.items) found ≡ spelled_by false body.now) }
{
    let mut out = Vec::new(alloc);
    let mut after_escape = false;
    for byte in body {
        after_escape = spell(*byte, after_escape, &mut out)?;
    }
    if after_escape {
        Ok(None)
    } else {
        Ok(Some(out))
    }
}

/// The payload of a packet, by what stands between `$` and `#` and the two digits after it: none where these
/// are no digits, or not those of its sum, or the body ends with an escape.
pub fn payload_of(
    alloc: Global,
    body: &[u8],
    high: u8,
    low: u8,
) -> Result<Option<Vec<u8>>, AllocError>
    ensures { IfOk result (λ found. option_map (λ v. v.items) found ≡ payload_read body.now high low) }
{
    let (Some(high), Some(low)) = (value(high), value(low)) else {
        return Ok(None);
    };
    if high * 16 + low != checksum(body) {
        return Ok(None);
    }
    unescaped(alloc, body)
}
