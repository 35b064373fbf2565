//! Slices of words of any length, pairwise distinct.

ghost use Rattle.std.specs.Prelude.{◌≡◌, ◌<◌, IfOk, OnErr, [], ℕ};
ghost use Rattle.std.specs.Vec.{vec_len};
ghost use Rattle.state_space.specs.Hash.{hash_from, HASH_SEED};
ghost use Rattle.state_space.specs.Pools.{AreKept, IsPut, Stay};
ghost use Rattle.state_space.specs.Stores.{word_entry};

use crate::distinct::Distinct;
use crate::refusal::Refused;
use crate::word_pool::WordPool;
use std::alloc::Global;

/// Slices of words to numbers and back. They are pairwise distinct, at most 2^32 - 2, and numbered as they came.
#[derive(Drop)]
pub struct Interner {
    entries: Distinct<u64, WordPool>,
    pub ghost kept: { AreKept (word_entry entries.pool) (vec_len entries.pool.ends) (hash_from HASH_SEED) entries.slots.items },
}

impl Interner {
    ghost use Rattle.state_space.specs.Numbered.{word_count, words_of};

    /// No slice.
    pub fn new(alloc: Global) -> Result<Interner, Refused>
        ensures { IfOk result (λ interner. word_count interner ≡ 0) }
    {
        let entries = Distinct::new(alloc, WordPool::new(alloc))?;
        Ok(Interner { entries })
    }

    /// How many slices there are.
    #[inline]
    pub fn count(&self) -> usize
        ensures { result ≡ word_count self.now }
    {
        self.entries.count()
    }

    /// The slice of that number.
    #[inline]
    pub fn get(&self, number: usize) -> &[u64]
        requires { number < word_count self.now }
        ensures { result.now ≡ words_of self.now number }
    {
        self.entries.get(number)
    }

    /// How much memory they take, in bytes.
    pub fn bytes(&self) -> u64 {
        self.entries.bytes()
    }

    /// The number of the slice that equals this one. Where there is none it is added at the end. At `Err` the slices are as they were.
    pub fn put(&mut self, words: &[u64]) -> Result<usize, Refused>
        ensures put { IfOk result (IsPut (words_of self.old) (word_count self.old) (words_of self.new) (word_count self.new)
            words.now) }
        ensures stay { Stay (words_of self.old) (word_count self.old) (words_of self.new) }
        ensures refused { OnErr result (word_count self.new ≡ word_count self.old) }
    {
        self.entries.put(words)
    }
}
