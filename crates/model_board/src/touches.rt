//! A fixed map of which hart may read and write which word of RAM, and send an interrupt to which.

ghost use Rattle.std.specs.Prelude.{◌≡◌, ◌≢◌, ℕ, true, ◌↔◌, IsTrue, IfOk, OnErr, Err, slice_index};
ghost use Rattle.board_model.specs.HartSets.{Has};
ghost use Rattle.board_model.specs.declared.refusal.Refusal.TheVariants.{Memory};
ghost use Rattle.model_board.specs.Maps.{WritesAlone, ReadsAlone, HearsNone};
ghost use Rattle.model_board.specs.Masks.{map_of};

use board_model::{HartId, Refusal, Shape};
use std::alloc::Global;
use std::marker::Model;

/// Which harts may read and which may write each word of 8 bytes of RAM, and which may send to which. Words are numbered from
/// the start of RAM.
#[derive(Drop)]
pub struct TouchMap {
    /// For each word a number whose bits are the harts that may.
    readers: Vec<u8>,
    writers: Vec<u8>,
    /// For each hart a number whose bits are the harts that may send to it.
    senders: [u8; 8],
}

impl Model for TouchMap {
    ghost use Rattle.model_board.specs.Masks.{Masks};

    ghost Value = { Masks };

    ghost view = { λ m. record { readers = m.readers.items; writers = m.writers.items; senders = m.senders } };
}

/// What a turn touches that the map does not let it.
#[derive(Clone, Copy, Drop)]
pub enum Break {
    /// It reads the word of that number.
    Reads(u64),
    /// It writes the word of that number.
    Writes(u64),
    /// It sends an interrupt to that hart.
    Sends(HartId),
}

/// The harts of a word, none where the list lacks it.
#[inline(always)]
fn mask(words: &[u8], word: u64) -> u8
    ensures { result ≡ slice_index words.now word }
{
    if word < words.len() as u64 {
        words[word as usize]
    } else {
        0
    }
}

/// Adds a hart to those of a word, where the list has it.
fn let_one(words: &mut [u8], hart: HartId, word: u64) {
    if word < words.len() as u64 {
        words[word as usize] |= 1 << hart.number();
    }
}

/// Whether that hart is among those of a mask.
#[inline(always)]
fn has(mask: u8, hart: HartId) -> bool
    ensures { result ≡ true → Has hart mask }
{
    mask >> hart.number() & 1 == 1
}

/// Whether no other hart is among those of a mask.
#[inline(always)]
fn is_alone(mask: u8, hart: HartId) -> bool
    ensures { result ≡ true → (g : ℕ) → g ≢ hart → Has g mask → ⊥ }
{
    mask == 0 || mask == 1 << hart.number()
}

impl TouchMap {
    /// A map of a board of that shape by which no hart may touch anything. Refused 11 where there is no room for it.
    pub fn new(alloc: Global, shape: &Shape) -> Result<Self, Refusal>
        ensures refused { OnErr result (result ≡ Err Memory) }
    {
        let words = shape.ram_bytes() / 8;
        Ok(TouchMap {
            readers: vec![in alloc; 0; words]?,
            writers: vec![in alloc; 0; words]?,
            senders: [0; 8],
        })
    }

    /// The same map. Refused 11 where there is no room for it.
    pub fn copy(&self, alloc: Global) -> Result<Self, Refusal>
        ensures same { IfOk result (λ map. map ≡ self.now) }
        ensures refused { OnErr result (result ≡ Err Memory) }
    {
        Ok(TouchMap {
            readers: self.readers.as_slice().to_vec(alloc)?,
            writers: self.writers.as_slice().to_vec(alloc)?,
            senders: self.senders,
        })
    }

    /// How many words it has.
    pub fn words(&self) -> u64 {
        self.readers.len() as u64
    }

    /// Lets a hart read a word, of those that it has.
    pub fn let_read(&mut self, hart: HartId, word: u64) {
        let_one(self.readers.as_mut_slice(), hart, word);
    }

    /// Lets a hart write a word, of those that it has.
    pub fn let_write(&mut self, hart: HartId, word: u64) {
        let_one(self.writers.as_mut_slice(), hart, word);
    }

    /// Lets a hart send an interrupt to another.
    pub fn let_send(&mut self, by: HartId, target: HartId) {
        self.senders[target.index()] |= 1 << by.number();
    }

    /// The harts that may read a word, as the bits of a number.
    pub fn readers(&self, word: u64) -> u8
        ensures { (h : ℕ) → IsTrue ((map_of self.now).reads h word) ↔ Has h result }
    {
        mask(self.readers.as_slice(), word)
    }

    /// The harts that may write a word, as the bits of a number.
    pub fn writers(&self, word: u64) -> u8
        ensures { (h : ℕ) → IsTrue ((map_of self.now).writes h word) ↔ Has h result }
    {
        mask(self.writers.as_slice(), word)
    }

    /// The harts that may send to a hart, as the bits of a number.
    pub fn senders(&self, target: HartId) -> u8
        ensures { (h : ℕ) → IsTrue ((map_of self.now).sends h target) ↔ Has h result }
    {
        self.senders[target.index()]
    }

    /// Whether a hart may read a word.
    pub fn may_read(&self, hart: HartId, word: u64) -> bool
        ensures { result ≡ true → IsTrue ((map_of self.now).reads hart word) }
    {
        has(self.readers(word), hart)
    }

    /// Whether a hart may write a word.
    pub fn may_write(&self, hart: HartId, word: u64) -> bool
        ensures { result ≡ true → IsTrue ((map_of self.now).writes hart word) }
    {
        has(self.writers(word), hart)
    }

    /// Whether a hart may send an interrupt to another.
    pub fn may_send(&self, by: HartId, target: HartId) -> bool
        ensures { result ≡ true → IsTrue ((map_of self.now).sends by target) }
    {
        has(self.senders(target), by)
    }

    /// Whether no other hart may read a word.
    pub fn reads_alone(&self, hart: HartId, word: u64) -> bool
        ensures { result ≡ true → ReadsAlone (map_of self.now) hart word }
    {
        is_alone(self.readers(word), hart)
    }

    /// Whether no other hart may write a word.
    pub fn writes_alone(&self, hart: HartId, word: u64) -> bool
        ensures { result ≡ true → WritesAlone (map_of self.now) hart word }
    {
        is_alone(self.writers(word), hart)
    }

    /// Whether no other hart may send to a hart.
    pub fn hears_none(&self, hart: HartId) -> bool
        ensures { result ≡ true → HearsNone (map_of self.now) hart }
    {
        is_alone(self.senders(hart), hart)
    }
}
