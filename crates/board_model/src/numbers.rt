//! Numbers of harts, pages and slots and addresses of instructions, each in its range by construction.

ghost use Rattle.std.specs.Prelude.{◌≡◌, ℕ, ◌+◌, ◌-◌, ◌*◌, ◌<◌, ◌≤◌, ◌%◌, Some, None, IfSome, IfNone};
ghost use Rattle.board_model.specs.Shapes.{IsAddressIn};

use crate::limits::{MAX_BOOTS, MAX_HARTS, MAX_PAGES, PAGE_BYTES, RAM_BASE, SLOTS};
use std::marker::Model;

/// The number of a hart, 0 to 7 (SBI specification 2.0, chapter HSM). `Shape::hart` tells whether a board has
/// it.
#[derive(Clone, Copy, PartialEq, Eq, Drop)]
pub struct HartId {
    number: u32,
}

impl Model for HartId {
    ghost Value = { ℕ };

    ghost view = { λ h. h.number };

    ghost invariant = { λ h. h.number < 8 };

    ghost inverse = { λ n. record { number = n } };
}

impl HartId {
    /// The hart of that number, or None from 8 on.
    pub fn new(number: u64) -> Option<HartId>
        ensures some { IfSome result (λ h. (h ≡ number) × (number < 8)) }
        ensures none { IfNone result (8 ≤ number) }
    {
        if number < MAX_HARTS {
            Some(HartId {
                number: number as u32,
            })
        } else {
            None
        }
    }

    /// The number, 0 to 7.
    pub fn number(self) -> u32
        ensures value { result ≡ self }
        ensures range { result < 8 }
    {
        self.number
    }

    /// The number as a place in a list of harts.
    pub fn index(self) -> usize
        ensures value { result ≡ self }
        ensures range { result < 8 }
    {
        self.number as usize
    }
}

/// The number of a page of RAM, 0 to 255. `Shape::page` tells whether a board has it.
#[derive(Clone, Copy, PartialEq, Eq, Drop)]
pub struct PageNo {
    number: u32,
}

impl Model for PageNo {
    ghost Value = { ℕ };

    ghost view = { λ p. p.number };

    ghost invariant = { λ p. p.number < 256 };

    ghost inverse = { λ n. record { number = n } };
}

impl PageNo {
    /// The page of that number, or None from 256 on.
    pub fn new(number: u64) -> Option<PageNo>
        ensures some { IfSome result (λ p. (p ≡ number) × (number < 256)) }
        ensures none { IfNone result (256 ≤ number) }
    {
        if number < MAX_PAGES {
            Some(PageNo {
                number: number as u32,
            })
        } else {
            None
        }
    }

    /// The number, 0 to 255.
    pub fn number(self) -> u32
        ensures value { result ≡ self }
        ensures range { result < 256 }
    {
        self.number
    }

    /// The number as a place in a list of pages.
    pub fn index(self) -> usize
        ensures value { result ≡ self }
        ensures range { result < 256 }
    {
        self.number as usize
    }
}

/// The number of a boot slot, 0 to 3.
#[derive(Clone, Copy, PartialEq, Eq, Drop)]
pub struct Slot {
    number: u32,
}

impl Model for Slot {
    ghost Value = { ℕ };

    ghost view = { λ s. s.number };

    ghost invariant = { λ s. s.number < 4 };

    ghost inverse = { λ n. record { number = n } };
}

impl Slot {
    /// The slot of that number, or None above 3.
    pub fn new(number: u32) -> Option<Slot>
        ensures some { IfSome result (λ s. (s ≡ number) × (number ≤ 3)) }
        ensures none { IfNone result (3 < number) }
    {
        if number < SLOTS {
            Some(Slot { number })
        } else {
            None
        }
    }

    /// The number, 0 to 3.
    pub fn number(self) -> u32
        ensures value { result ≡ self }
        ensures range { result ≤ 3 }
    {
        self.number
    }

    /// The number as a place in a list of slots.
    pub fn index(self) -> usize
        ensures value { result ≡ self }
        ensures range { result < 4 }
    {
        self.number as usize
    }
}

/// How many boots are left to a trial, 0 to 7.
#[derive(Clone, Copy, PartialEq, Eq, Drop)]
pub struct Boots {
    number: u32,
}

impl Model for Boots {
    ghost Value = { ℕ };

    ghost view = { λ b. b.number };

    ghost invariant = { λ b. b.number < 8 };

    ghost inverse = { λ n. record { number = n } };
}

impl Boots {
    /// That many boots, or None above 7.
    pub fn new(number: u32) -> Option<Boots>
        ensures some { IfSome result (λ b. (b ≡ number) × (number ≤ 7)) }
        ensures none { IfNone result (7 < number) }
    {
        if number <= MAX_BOOTS {
            Some(Boots { number })
        } else {
            None
        }
    }

    /// The number, 0 to 7.
    pub fn number(self) -> u32
        ensures value { result ≡ self }
        ensures range { result ≤ 7 }
    {
        self.number
    }

    /// One less, or None where none is left.
    pub fn fewer(self) -> Option<Boots>
        ensures some { IfSome result (λ b. (b ≡ self - 1) × (0 < self)) }
        ensures none { IfNone result (self ≡ 0) }
    {
        if self.number == 0 {
            return None;
        }
        Some(Boots {
            number: self.number - 1,
        })
    }
}

/// An address of an instruction in the RAM of the largest board: from 0x80000000 on, a multiple of 4.
/// `Shape::address` tells whether it lies in the RAM of a board.
#[derive(Clone, Copy, PartialEq, Eq, Drop)]
pub struct Addr {
    address: u64,
}

impl Model for Addr {
    ghost Value = { ℕ };

    ghost view = { λ a. a.address };

    ghost invariant = { λ a. IsAddressIn (256 * 4096) a.address };

    ghost inverse = { λ n. record { address = n } };
}

impl Addr {
    /// The address as a type, or None where the largest RAM does not have it or it is no multiple of 4.
    pub fn new(address: u64) -> Option<Addr>
        ensures some { IfSome result (λ a. (a ≡ address) × IsAddressIn (256 * 4096) address) }
        ensures none { IfNone result (IsAddressIn (256 * 4096) address → ⊥) }
    {
        let end = RAM_BASE + MAX_PAGES * PAGE_BYTES as u64;
        if address < RAM_BASE || end <= address || address % 4 != 0 {
            return None;
        }
        Some(Addr { address })
    }

    /// The address in bytes: from 0x80000000 on, a multiple of 4.
    pub fn value(self) -> u64
        ensures value { result ≡ self }
        ensures range { IsAddressIn (256 * 4096) result }
    {
        self.address
    }
}
