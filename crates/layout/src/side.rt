//! One of two.
ghost use Rattle.std.specs.Prelude.{◌≡◌, ℕ, ◌-◌, ◌<◌, ◌≤◌, IfSome, IfNone};

use std::marker::Model;

/// 0 or 1: which of the two records, or of the two areas.
#[derive(Clone, Copy, PartialEq, Eq, Drop)]
pub struct Side {
    number: u32,
}

impl Model for Side {
    ghost Value = { ℕ };

    ghost view = { λ s. s.number };

    ghost invariant = { λ s. s.number < 2 };

    ghost inverse = { λ n. record { number = n } };
}

impl Side {
    /// Side 0.
    pub fn first() -> Side
        ensures { result ≡ 0 }
    {
        Side { number: 0 }
    }

    /// The side of that number, or None above 1.
    pub fn new(number: u32) -> Option<Side>
        ensures some { IfSome result (λ s. (s ≡ number) × (number < 2)) }
        ensures none { IfNone result (2 ≤ number) }
    {
        if number < 2 {
            Some(Side { number })
        } else {
            None
        }
    }

    /// The number, 0 or 1.
    pub fn number(self) -> u32
        ensures value { result ≡ self }
        ensures range { result < 2 }
    {
        self.number
    }

    /// The number as a place in a list of two.
    pub fn index(self) -> usize
        ensures value { result ≡ self }
        ensures range { result < 2 }
    {
        self.number as usize
    }

    /// The other one.
    pub fn other(self) -> Side
        ensures value { result ≡ 1 - self }
        ensures range { result < 2 }
    {
        Side {
            number: 1 - self.number,
        }
    }
}
