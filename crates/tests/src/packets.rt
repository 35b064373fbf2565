//! Packets as gdb-multiarch 13.1 wrote and read them (`set debug remote 1`).

use crate::fixtures::same;
use debug_session::{Decoder, PacketEvent, framed};
use std::alloc::Global;
use std::process::Abort;

/// Payloads, each with its packet.
static FRAMED: [(&[u8], &[u8]); 9] = [
    (b"?", b"$?#3f"),
    (b"g", b"$g#67"),
    (b"QStartNoAckMode", b"$QStartNoAckMode#b0"),
    (b"m80000000,4", b"$m80000000,4#55"),
    (
        b"qXfer:threads:read::0,1000",
        b"$qXfer:threads:read::0,1000#92",
    ),
    (b"vCont;c", b"$vCont;c#a8"),
    (b"Z0,800000e4,4", b"$Z0,800000e4,4#d7"),
    (b"", b"$#00"),
    (b"a#$}*\x03", b"$a}\x03}\x04}]}\n\x03#c6"),
];

#[test]
fn packets_are_as_gdb_writes_them(rt: HostRuntime) {
    for &(payload, packet) in &FRAMED {
        let made = framed(rt.alloc(), payload).expect(&rt, "memory");
        same(&rt, made.as_slice(), packet);
    }
}

/// What a reader hears of a stream: how many packets came, and the last one.
fn heard(rt: &impl Abort, alloc: Global, bytes: &[u8]) -> (usize, Vec<u8>) {
    let mut decoder = Decoder::new(alloc);
    let mut count: usize = 0;
    let mut last = Vec::new(alloc);
    for byte in bytes {
        if let PacketEvent::Packet(payload) = decoder.take(*byte).expect(rt, "memory") {
            count = count.wrapping_add(1);
            last = payload;
        }
    }
    (count, last)
}

/// Streams, with how many packets each has and the last of them: signs and noise beside packets, wrong sums, escapes.
static STREAMS: [(&[u8], usize, &[u8]); 3] = [
    (b"+$?#3f+noise\x03$g#67$m80000000,4#55", 3, b"m80000000,4"),
    (b"$g#68$broken$#0g", 0, b""),
    (b"$a}\x03}\x04}]}\n\x03#c6", 1, b"a#$}*\x03"),
];

#[test]
fn packets_are_heard_in_a_stream(rt: HostRuntime) {
    for &(bytes, packets, payload) in &STREAMS {
        let (count, last) = heard(&rt, rt.alloc(), bytes);
        same(&rt, (count, last.as_slice()), (packets, payload));
    }
}
