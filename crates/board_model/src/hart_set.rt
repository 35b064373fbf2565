//! Sets of harts.

ghost use Rattle.std.specs.Prelude.{◌≡◌, ℕ, ◌+◌, ◌*◌, ◌/◌, ◌%◌, ◌^◌, ◌<◌, ◌≤◌, ◌↔◌, false, IsTrue};
ghost use Rattle.std.specs.Int.{bit_at};
ghost use Rattle.board_model.specs.HartSets.{Has};

use crate::numbers::HartId;
use std::marker::Model;

/// A set of harts. Contracts see it as a number whose bit `h` tells whether the hart `h` is in it (`Has`).
#[derive(Clone, Copy, PartialEq, Eq, Drop)]
pub struct HartSet {
    bits: u64,
}

impl Model for HartSet {
    ghost Value = { ℕ };

    ghost view = { λ s. s.bits };

    ghost invariant = { λ s. s.bits < 256 };

    ghost inverse = { λ n. record { bits = n } };
}

impl HartSet {
    /// The harts whose bits are set.
    pub fn of(bits: u64) -> HartSet
        requires { bits < 256 }
        ensures { result ≡ bits }
    {
        HartSet { bits }
    }

    /// The harts whose bits are set in one byte of a word. Byte 0 is the lowest.
    pub fn in_byte(word: u64, byte: u32) -> HartSet
        requires { byte < 8 }
        ensures value { result ≡ word / 2 ^ (8 * byte) % 256 }
        ensures bits { (h : ℕ) → h < 8 → bit_at result h ≡ bit_at word (8 * byte + h) }
    {
        HartSet {
            bits: (word >> (8 * byte)) % 256,
        }
    }

    /// The set of one hart.
    pub fn only(hart: HartId) -> HartSet
        ensures { result ≡ 2 ^ hart }
    {
        HartSet {
            bits: 1 << hart.number(),
        }
    }

    /// Those that a board of so many harts has.
    pub fn below(self, harts: u32) -> HartSet
        requires { harts ≤ 8 }
        ensures { result ≡ self % 2 ^ harts }
    {
        HartSet {
            bits: self.bits % (1 << harts),
        }
    }

    /// Whether the hart is in the set.
    pub fn contains(self, hart: HartId) -> bool
        ensures { IsTrue result ↔ Has hart self }
    {
        let number = hart.number();
        self.bits >> number & 1 == 1
    }

    /// Whether no hart is in the set.
    pub fn is_empty(self) -> bool
        ensures none { IsTrue result ↔ ((h : ℕ) → Has h self → ⊥) }
        ensures some { result ≡ false → (h : ℕ) × Has h self }
    {
        self.bits == 0
    }
}
