//! Laws of the definitions, each the contract of a function that does nothing.

ghost use Rattle.std.specs.Prelude.{◌≡◌, ◌/◌, ◌%◌, ◌≤◌, ℕ, List, ◌∷◌, ◌++◌, Some, length};
ghost use Rattle.debug_session.specs.Packets.{body_of, digit_of, framed_of, payload_read, sum_of};
ghost use Rattle.debug_session.specs.Streams.{Hears, Standing, packets_in, packets_read};
ghost use Rattle.debug_session.specs.declared.heard.PacketEvent.{PacketEvent};
ghost use Rattle.debug_session.specs.declared.heard.PacketPlace.TheVariants as places;

/// What is framed is read back.
#[tactic(auto, using(crate::proofs::Spelled::frame_read))]
pub fn frames_are_read_back()
    ensures { (payload : List ℕ) → payload_read (body_of payload) (digit_of (sum_of (body_of payload) / 16))
        (digit_of (sum_of (body_of payload) % 16)) ≡ Some payload }
{}

/// A reader between packets hears a packet that was framed as that packet, and stands between packets after it.
#[tactic(auto, using(crate::proofs::StreamHeard::frame_heard))]
pub fn packets_are_heard()
    ensures { (payload before more : List ℕ) → length (body_of payload) ≤ 65536
        → packets_read places.Between before (framed_of payload ++ more)
        ≡ payload ∷ packets_read places.Between (body_of payload) more }
{}

/// Of what a reader hears the packets are those in the bytes.
pub fn heard_packets_are_those_in_the_bytes()
    ensures { (now last : Standing) (bytes : List ℕ) (heard : List PacketEvent) → Hears now bytes heard last
        → packets_in heard ≡ packets_read now.place now.body bytes }
{}
