//! The bytes that say something alone.

ghost use Rattle.std.specs.Prelude.{◌≡◌};
ghost use Rattle.debug_session.specs.Streams.{sign_of};

use crate::heard::PacketEvent;

/// What a byte between packets says.
pub(crate) fn sign(byte: u8) -> PacketEvent
    ensures { result ≡ sign_of byte }
{
    match byte {
        b'+' => PacketEvent::Received,
        b'-' => PacketEvent::Again,
        3 => PacketEvent::Interrupt,
        _ => PacketEvent::Nothing,
    }
}
