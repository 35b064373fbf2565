//! Rows of one width, pairwise distinct.

ghost use Rattle.std.specs.Prelude.{◌≡◌, ◌<◌, length, IfOk, IfSome, OnErr, [], ℕ};
ghost use Rattle.state_space.specs.Hash.{hash_from, HASH_SEED};
ghost use Rattle.state_space.specs.Pools.{AreKept, IsPut, Stay};
ghost use Rattle.state_space.specs.Stores.{row_entry};

use crate::distinct::Distinct;
use crate::refusal::Refused;
use crate::row_pool::RowPool;
use std::alloc::Global;

/// Rows of one width to numbers and back. They are pairwise distinct, at most 2^32 - 2, and numbered as they came.
#[derive(Drop)]
pub struct Rows {
    entries: Distinct<u32, RowPool>,
    pub ghost kept: { AreKept (row_entry entries.pool) entries.pool.count (hash_from HASH_SEED) entries.slots.items },
}

impl Rows {
    ghost use Rattle.state_space.specs.Numbered.{row_count, row_of, row_width};

    /// No row, of that width.
    pub fn new(alloc: Global, width: usize) -> Result<Rows, Refused>
        ensures none { IfOk result (λ rows. row_count rows ≡ 0) }
        ensures width { IfOk result (λ rows. row_width rows ≡ width) }
    {
        let entries = Distinct::new(alloc, RowPool::new(alloc, width))?;
        Ok(Rows { entries })
    }

    /// How many rows there are.
    #[inline]
    pub fn count(&self) -> usize
        ensures { result ≡ row_count self.now }
    {
        self.entries.count()
    }

    /// The row of that number.
    #[inline]
    pub fn get(&self, number: usize) -> &[u32]
        requires { number < row_count self.now }
        ensures row { result.now ≡ row_of self.now number }
        ensures width { length result.now ≡ row_width self.now }
    {
        self.entries.get(number)
    }

    /// How much memory they take, in bytes.
    pub fn bytes(&self) -> u64 {
        self.entries.bytes()
    }

    /// The number of the row that equals this one, where it is found.
    #[inline]
    pub fn find(&self, row: &[u32]) -> Option<usize>
        ensures within { IfSome result (λ n. n < row_count self.now) }
        ensures is { IfSome result (λ n. row_of self.now n ≡ row.now) }
    {
        self.entries.find(row)
    }

    /// The number of the row that equals this one. Where there is none it is added at the end. At `Err` the rows are as they were.
    pub fn put(&mut self, row: &[u32]) -> Result<usize, Refused>
        requires { length row.now ≡ row_width self.old }
        ensures put { IfOk result (IsPut (row_of self.old) (row_count self.old) (row_of self.new) (row_count self.new) row.now) }
        ensures stay { Stay (row_of self.old) (row_count self.old) (row_of self.new) }
        ensures refused { OnErr result (row_count self.new ≡ row_count self.old) }
        ensures width { row_width self.new ≡ row_width self.old }
    {
        self.entries.put(row)
    }
}
