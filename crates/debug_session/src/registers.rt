//! The registers of a hart as GDB reads them.

ghost use Rattle.std.specs.Prelude.{◌≡◌, ◌++◌, OnOk};
ghost use Rattle.debug_session.specs.Replies.{register_text};

use crate::bytes::put_hex;
use std::alloc::AllocError;

/// The number of the pc.
const PC: u64 = 32;

/// Writes a register by its number and value, its lowest byte first. Of what is not available each digit is `x`; but
/// the pc reads 0 then, since GDB takes no stop without one.
pub fn put_register(out: &mut Vec<u8>, number: u64, value: Option<u64>) -> Result<(), AllocError>
    ensures { OnOk result (out.new.items ≡ out.old.items ++ register_text number value) }
{
    match value {
        Some(value) => put_hex(out, &value.to_le_bytes()),
        None if number == PC => out.extend_from_slice(b"0000000000000000"),
        None => out.extend_from_slice(b"xxxxxxxxxxxxxxxx"),
    }
}
