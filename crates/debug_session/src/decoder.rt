//! Bytes as they come, read as packets.

use crate::frames::payload_of;
use crate::heard::{PacketEvent, PacketPlace};
use crate::signs::sign;
use std::alloc::{AllocError, Global};
use std::marker::Model;

/// The most bytes between `$` and `#`; a longer packet is damaged.
const LONGEST: usize = 65_536;

/// Reads packets byte by byte. Contracts see where it stands, and what came since `$`.
#[derive(Drop)]
pub struct Decoder {
    alloc: Global,
    place: PacketPlace,
    body: Vec<u8>,
}

impl Model for Decoder {
    ghost use Rattle.debug_session.specs.Streams.{Standing};

    ghost Value = { Standing };

    ghost view = { λ d. record { place = d.place; body = d.body.items } };
}

impl Decoder {
    ghost use Rattle.std.specs.Prelude.{◌≡◌, [], IfOk};
    ghost use Rattle.debug_session.specs.Streams.{Completes, Standing, standing_after};
    ghost use Rattle.debug_session.specs.declared.heard.PacketPlace.TheVariants as places;

    /// One that stands between packets.
    pub fn new(alloc: Global) -> Decoder
        ensures { result ≡ record { place = places.Between; body = [] } }
    {
        Decoder {
            alloc,
            place: PacketPlace::Between,
            body: Vec::new(alloc),
        }
    }

    /// A packet begins.
    fn begin(&mut self)
        ensures { self.new ≡ record { place = places.Body; body = [] } }
    {
        self.body.clear();
        self.place = PacketPlace::Body;
    }

    /// A byte between packets.
    fn outside(&mut self, byte: u8) -> PacketEvent
        requires { self.old.place ≡ places.Between }
        ensures standing { self.new ≡ standing_after places.Between self.old.body byte }
        ensures told { Completes places.Between self.old.body byte result }
    {
        if byte == b'$' {
            self.begin();
            return PacketEvent::Nothing;
        }
        sign(byte)
    }

    /// A byte after `$`. One more `$` begins anew.
    fn inside(&mut self, byte: u8) -> Result<PacketEvent, AllocError>
        requires { self.old.place ≡ places.Body }
        ensures standing { IfOk result (λ _. self.new ≡ standing_after places.Body self.old.body byte) }
        ensures told { IfOk result (λ heard. Completes places.Body self.old.body byte heard) }
    {
        if byte == b'$' {
            self.begin();
        } else if byte == b'#' {
            self.place = PacketPlace::Sum;
        } else if LONGEST <= self.body.len() {
            self.place = PacketPlace::Between;
            return Ok(PacketEvent::Damaged);
        } else {
            self.body.push(byte)?;
        }
        Ok(PacketEvent::Nothing)
    }

    /// The last digit of a packet whose first is `high`.
    fn end(&mut self, high: u8, low: u8) -> Result<PacketEvent, AllocError>
        ensures standing { IfOk result (λ _. self.new ≡ standing_after (places.LastDigit high) self.old.body low) }
        ensures told { IfOk result (λ heard. Completes (places.LastDigit high) self.old.body low heard) }
    {
        self.place = PacketPlace::Between;
        match payload_of(self.alloc, &self.body, high, low)? {
            Some(payload) => Ok(PacketEvent::Packet(payload)),
            None => Ok(PacketEvent::Damaged),
        }
    }

    /// Takes the next byte: what it completes. Where memory is refused the reader is of no use.
    pub fn take(&mut self, byte: u8) -> Result<PacketEvent, AllocError>
        ensures standing { IfOk result (λ _. self.new ≡ standing_after self.old.place self.old.body byte) }
        ensures told { IfOk result (λ heard. Completes self.old.place self.old.body byte heard) }
    {
        match self.place {
            PacketPlace::Between => Ok(self.outside(byte)),
            PacketPlace::Body => self.inside(byte),
            PacketPlace::Sum => {
                self.place = PacketPlace::LastDigit(byte);
                Ok(PacketEvent::Nothing)
            }
            PacketPlace::LastDigit(high) => self.end(high, byte),
        }
    }
}
