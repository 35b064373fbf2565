//! Slices of words, end to end.

ghost use Rattle.std.specs.Prelude.{◌≡◌, ◌*◌, ◌+◌, ◌≤◌, ◌<◌, ◌-◌, ℕ, zero, suc, length, slice_range, slice_index, [], IfOk};
ghost use Rattle.std.specs.Vec.{vec_len};
ghost use Rattle.state_space.specs.Hash.{hash_from, HASH_SEED};
ghost use Rattle.state_space.specs.Begins.{begin_of};

use crate::hash::hash_words;
use crate::pools::Pool;
use crate::refusal::Refused;
use std::alloc::Global;

/// Slices of words, end to end.
#[derive(Drop)]
pub struct WordPool {
    words: Vec<u64>,
    /// Where each entry ends.
    ends: Vec<usize>,
    ghost within: { (k : ℕ) → k < vec_len ends → slice_index ends.items k ≤ vec_len words },
    ghost in_order: { (k : ℕ) → k < vec_len ends → begin_of ends.items k ≤ slice_index ends.items k },
    ghost whole: { begin_of ends.items (vec_len ends) ≡ vec_len words },
}

impl WordPool {
    /// No entry.
    pub fn new(alloc: Global) -> WordPool
        ensures { vec_len result.ends ≡ 0 }
    {
        WordPool {
            words: Vec::new(alloc),
            ends: Vec::new(alloc),
        }
    }

    /// The same entries.
    pub fn copy(&self, alloc: Global) -> Result<WordPool, Refused>
        ensures words { IfOk result (λ pool. pool.words.items ≡ self.now.words.items) }
        ensures ends { IfOk result (λ pool. pool.ends.items ≡ self.now.ends.items) }
    {
        let words = self.words.as_slice().to_vec(alloc)?;
        let ends = self.ends.as_slice().to_vec(alloc)?;
        Ok(WordPool { words, ends })
    }
}

/// Where the entry of that number begins, by where each ends.
#[inline]
pub(crate) fn begin(ends: &[usize], number: usize) -> usize
    requires { number ≤ length ends.now }
    ensures { result ≡ begin_of ends.now number }
{
    if number == 0 { 0 } else { ends[number - 1] }
}

impl Pool<u64> for WordPool {
    ghost use Rattle.state_space.specs.Stores.{word_entry};

    ghost count = { λ p. vec_len p.ends };

    ghost entry = { word_entry };

    ghost hash_of = { hash_from HASH_SEED };

    ghost common = { λ _. 0 };

    ghost fits = { λ _ _. Unit {0} };

    #[inline]
    fn count(&self) -> usize {
        self.ends.len()
    }

    #[inline]
    fn hash(&self, key: &[u64]) -> u64 {
        hash_words(key)
    }

    #[inline]
    fn get(&self, number: usize) -> &[u64] {
        let from = begin(&self.ends, number);
        &self.words[from..self.ends[number]]
    }

    #[inline]
    fn is_at(&self, number: usize, key: &[u64]) -> bool {
        self.get(number) == key
    }

    #[tactic(auto, using(crate::proofs::Parts::words_stay, crate::proofs::Parts::part_last))]
    fn push(&mut self, key: &[u64]) -> Result<(), Refused> {
        self.ends.reserve(1)?;
        self.words.extend_from_slice(key)?;
        let end = self.words.len();
        self.ends.push(end)?;
        Ok(())
    }

    fn bytes(&self) -> u64 {
        (self.words.capacity() as u64)
            .saturating_add(self.ends.capacity() as u64)
            .saturating_mul(8)
    }
}
