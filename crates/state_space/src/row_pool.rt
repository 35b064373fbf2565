//! Rows of one width, end to end.

ghost use Rattle.std.specs.Prelude.{◌≡◌, ◌*◌, ◌+◌, length, slice_range, [], OnOk, OnErr};
ghost use Rattle.std.specs.Vec.{vec_len};
ghost use Rattle.state_space.specs.Hash.{hash_from, HASH_SEED};

use crate::hash::hash_row;
use crate::pools::Pool;
use crate::refusal::Refused;
use std::alloc::Global;

/// Rows of one width, end to end.
#[derive(Drop)]
pub struct RowPool {
    width: usize,
    numbers: Vec<u32>,
    count: usize,
    ghost whole: { vec_len numbers ≡ count * width },
}

impl RowPool {
    /// No row.
    pub fn new(alloc: Global, width: usize) -> RowPool
        ensures none { result.count ≡ 0 }
        ensures width { result.width ≡ width }
    {
        RowPool {
            width,
            numbers: Vec::new(alloc),
            count: 0,
        }
    }

    /// How many numbers each row has.
    #[inline]
    pub(crate) fn width(&self) -> usize
        ensures { result ≡ self.now.width }
    {
        self.width
    }

    /// Forgets all rows, and keeps the memory.
    #[inline]
    pub(crate) fn clear(&mut self)
        ensures none { self.new.count ≡ 0 }
        ensures width { self.new.width ≡ self.old.width }
    {
        self.numbers.clear();
        self.count = 0;
    }
}

impl Pool<u32> for RowPool {
    ghost use Rattle.state_space.specs.Stores.{row_entry};

    ghost count = { λ p. p.count };

    ghost entry = { row_entry };

    ghost hash_of = { hash_from HASH_SEED };

    ghost common = { λ p. p.width };

    ghost fits = { λ width row. length row ≡ width };

    #[inline]
    fn count(&self) -> usize {
        self.count
    }

    #[inline]
    fn hash(&self, key: &[u32]) -> u64 {
        hash_row(key)
    }

    #[inline]
    fn get(&self, number: usize) -> &[u32] {
        let from = number * self.width;
        &self.numbers[from..from + self.width]
    }

    #[inline]
    fn is_at(&self, number: usize, key: &[u32]) -> bool {
        self.get(number) == key
    }

    #[tactic(auto, using(crate::proofs::Parts::row_stays, crate::proofs::Parts::part_last))]
    fn push(&mut self, key: &[u32]) -> Result<(), Refused> {
        let Some(count) = self.count.checked_add(1) else {
            return Err(Refused::Numbers);
        };
        self.numbers.extend_from_slice(key)?;
        self.count = count;
        Ok(())
    }

    fn bytes(&self) -> u64 {
        (self.numbers.capacity() as u64).saturating_mul(4)
    }
}
