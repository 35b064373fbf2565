//! The shape of a board, and which numbers are valid on it.

ghost use Rattle.std.specs.Prelude.{◌≡◌, ℕ, ◌+◌, ◌*◌, ◌<◌, ◌≤◌, ◌↔◌, IfOk, IsOk, IfErr, IfSome, IfNone};
ghost use Rattle.board_model.specs.Shapes.{Size, IsSize, board_size, ram_bytes_of, IsValidAddress, places_of, area_sectors_of, sectors_of};
ghost use Rattle.board_model.specs.declared.refusal.Refusal.TheVariants.{BadShape};

use crate::limits::{MAX_HARTS, MAX_LANES, MAX_PAGES, PAGE_BYTES, RAM_BASE};
use crate::numbers::{Addr, HartId, PageNo};
use crate::refusal::Refusal;
use std::marker::Model;

/// How large a board is: 1 to 8 harts, 1 to 256 pages of RAM, 1 to 4 saver lanes.
#[derive(Clone, Copy, PartialEq, Eq, Drop)]
pub struct Shape {
    harts: u32,
    pages: u32,
    lanes: u32,
}

impl Model for Shape {
    ghost Value = { Size };

    ghost view = { λ s. board_size s.harts s.pages s.lanes };

    ghost invariant = { λ s. IsSize (board_size s.harts s.pages s.lanes) };

    ghost inverse = { λ z. record { harts = z.harts; pages = z.pages; lanes = z.lanes } };
}

impl Shape {
    /// The shape with those numbers. Refused `BadShape` exactly where one of them is out of its range.
    pub fn new(harts: u64, pages: u64, lanes: u64) -> Result<Shape, Refusal>
        ensures shape { IfOk result (λ shape. shape ≡ board_size harts pages lanes) }
        ensures ok { IsOk result ↔ IsSize (board_size harts pages lanes) }
        ensures bad { IfErr result (λ e. e ≡ BadShape) }
    {
        if harts < 1
            || MAX_HARTS < harts
            || pages < 1
            || MAX_PAGES < pages
            || lanes < 1
            || MAX_LANES < lanes
        {
            return Err(Refusal::BadShape);
        }
        Ok(Shape {
            harts: harts as u32,
            pages: pages as u32,
            lanes: lanes as u32,
        })
    }

    /// The number of harts, 1 to 8.
    pub fn harts(&self) -> u32
        ensures value { result ≡ self.now.harts }
        ensures range { (1 ≤ result) × (result ≤ 8) }
    {
        self.harts
    }

    /// The number of pages of RAM, 1 to 256.
    pub fn pages(&self) -> u32
        ensures value { result ≡ self.now.pages }
        ensures range { (1 ≤ result) × (result ≤ 256) }
    {
        self.pages
    }

    /// The number of saver lanes, 1 to 4.
    pub fn lanes(&self) -> u32
        ensures value { result ≡ self.now.lanes }
        ensures range { (1 ≤ result) × (result ≤ 4) }
    {
        self.lanes
    }

    /// The bytes of RAM.
    pub fn ram_bytes(&self) -> usize
        ensures value { result ≡ ram_bytes_of self.now }
        ensures range { (4096 ≤ result) × (result ≤ 256 * 4096) }
    {
        self.pages as usize * PAGE_BYTES
    }

    /// The places of a lane in one area of the disk: its pages by its lanes, rounded up. A place keeps one
    /// page.
    pub fn places(&self) -> usize
        ensures value { result ≡ places_of self.now }
        ensures range { (1 ≤ result) × (result ≤ 256) }
    {
        (self.pages as usize).div_ceil(self.lanes as usize)
    }

    /// The sectors of one of the disk's two areas.
    pub fn area_sectors(&self) -> usize
        ensures value { result ≡ area_sectors_of self.now }
        ensures range { (9 ≤ result) × (result ≤ 9 * 4 * 256) }
    {
        9 * self.lanes as usize * self.places()
    }

    /// The sectors of the smallest disk for this board.
    pub fn sectors(&self) -> usize
        ensures value { result ≡ sectors_of self.now }
        ensures range { (26 ≤ result) × (result ≤ 8 + 2 * (9 * 4 * 256)) }
    {
        8 + 2 * self.area_sectors()
    }

    /// The hart of that number, where this board has it.
    pub fn hart(&self, number: u64) -> Option<HartId>
        ensures some { IfSome result (λ h. (h ≡ number) × (number < self.now.harts)) }
        ensures none { IfNone result (self.now.harts ≤ number) }
    {
        if number < self.harts as u64 {
            HartId::new(number)
        } else {
            None
        }
    }

    /// The page of that number, where this board has it.
    pub fn page(&self, number: u64) -> Option<PageNo>
        ensures some { IfSome result (λ p. (p ≡ number) × (number < self.now.pages)) }
        ensures none { IfNone result (self.now.pages ≤ number) }
    {
        if number < self.pages as u64 {
            PageNo::new(number)
        } else {
            None
        }
    }

    /// The address, where it is valid on this board: in RAM, and a multiple of 4.
    pub fn address(&self, address: u64) -> Option<Addr>
        ensures some { IfSome result (λ a. (a ≡ address) × IsValidAddress self.now address) }
        ensures none { IfNone result (IsValidAddress self.now address → ⊥) }
    {
        let bytes = self.ram_bytes() as u64;
        if address < RAM_BASE || bytes <= address - RAM_BASE {
            return None;
        }
        Addr::new(address)
    }
}

/// Each number of a shape is within its range.
pub fn shape_in_range(shape: &Shape)
    ensures { IsSize shape.now }
{
    let _harts = shape.harts;
}
