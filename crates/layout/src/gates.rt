//! The gate, which selects one of the two records.

ghost use Rattle.std.specs.Prelude.{◌≡◌, ◌<◌};
ghost use Rattle.layout.specs.Records.{selected_by, gate_of};

use crate::fields::Filling;
use crate::side::Side;

/// The gate that selects record 0 or 1: its number in byte 0, and 0 in all others.
pub fn gate_bytes(side: Side) -> [u8; 512]
    ensures bytes { result ≡ gate_of side }
    ensures selects { selected_by result ≡ side }
{
    let mut sector = Filling::new();
    sector.bytes(&[side.number() as u8]);
    sector.finish()
}

/// The record that a gate selects, whatever bytes it holds: even selects record 0, odd record 1.
pub fn selected(sector: &[u8; 512]) -> Side
    ensures value { result ≡ selected_by sector.now }
    ensures range { result < 2 }
{
    if sector[0] % 2 == 0 {
        Side::first()
    } else {
        Side::first().other()
    }
}
