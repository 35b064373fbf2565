//! Fields of a sector: numbers in little-endian order.
ghost use Rattle.std.specs.Prelude.{◌≡◌, ℕ, ◌+◌, ◌-◌, ◌≤◌, List, [], ◌++◌, ◌↔◌, IsTrue, length, take, drop, replicate};
ghost use Rattle.layout.specs.Fields.{number_bytes, sector_of, number_at};

use byteorder::{ByteOrder, LittleEndian};
use std::marker::Model;

/// A sector that is being filled from its first byte on. What is not filled is 0.
#[derive(Drop)]
pub struct Filling {
    sector: [u8; 512],
    filled: usize,
}

impl Model for Filling {
    ghost Value = { List ℕ };

    ghost view = { λ f. take f.filled f.sector };

    ghost invariant = { λ f. (f.filled ≤ 512) × (length f.sector ≡ 512)
        × (drop f.filled f.sector ≡ replicate (512 - f.filled) 0) };
}

impl Filling {
    pub fn new() -> Filling
        ensures { result ≡ [] }
    {
        Filling {
            sector: [0; 512],
            filled: 0,
        }
    }

    /// Adds these bytes.
    pub fn bytes(&mut self, bytes: &[u8])
        requires { length self.old + length bytes.now ≤ 512 }
        ensures value { self.new ≡ self.old ++ bytes.now }
        ensures longer { length self.new ≡ length self.old + length bytes.now }
    {
        let end = self.filled + bytes.len();
        self.sector[self.filled..end].copy_from_slice(bytes);
        self.filled = end;
    }

    /// Adds a number of 4 bytes.
    #[tactic(auto, unfolding(crate::specs::Fields::number_bytes))]
    pub fn u32(&mut self, number: u32)
        requires { length self.old + 4 ≤ 512 }
        ensures value { self.new ≡ self.old ++ number_bytes 4 number }
        ensures longer { length self.new ≡ length self.old + 4 }
    {
        let mut bytes = [0; 4];
        LittleEndian::write_u32(&mut bytes, number);
        self.bytes(&bytes);
    }

    /// Adds a number of 8 bytes.
    #[tactic(auto, unfolding(crate::specs::Fields::number_bytes))]
    pub fn u64(&mut self, number: u64)
        requires { length self.old + 8 ≤ 512 }
        ensures value { self.new ≡ self.old ++ number_bytes 8 number }
        ensures longer { length self.new ≡ length self.old + 8 }
    {
        let mut bytes = [0; 8];
        LittleEndian::write_u64(&mut bytes, number);
        self.bytes(&bytes);
    }

    /// The sector.
    pub fn finish(self) -> [u8; 512]
        ensures { result ≡ sector_of self }
    {
        self.sector
    }
}

/// The number in the 4 bytes from that place on.
pub fn u32_at(sector: &[u8; 512], place: usize) -> u32
    requires { place + 4 ≤ 512 }
    ensures { result ≡ number_at 4 place sector.now }
{
    LittleEndian::read_u32(&sector[place..])
}

/// The number in the 8 bytes from that place on.
pub fn u64_at(sector: &[u8; 512], place: usize) -> u64
    requires { place + 8 ≤ 512 }
    ensures { result ≡ number_at 8 place sector.now }
{
    LittleEndian::read_u64(&sector[place..])
}

/// Whether two sectors hold the same bytes.
pub fn is_same(one: &[u8; 512], other: &[u8; 512]) -> bool
    ensures { IsTrue result ↔ (one.now ≡ other.now) }
{
    *one == *other
}
