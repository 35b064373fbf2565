//! Pairwise distinct entries.

ghost use Rattle.std.specs.Prelude.{◌≡◌, ◌<◌, ◌+◌, ℕ, IfOk, OnOk, OnErr, length, IfSome};
ghost use Rattle.state_space.specs.Tables.{EMPTY as FREE, IsTable, IsFree};
ghost use Rattle.state_space.specs.Pools.{AreKept, IsPut, Stay};

use crate::pools::Pool;
use crate::probes::{EMPTY, Probed, free_slot, probe};
use crate::refusal::Refused;
use std::alloc::Global;
use std::marker::PhantomData;

/// How many slots a table has at first.
const FIRST_SLOTS: usize = 1024;
/// The most entries: two numbers are left for other uses.
const MOST_ENTRIES: usize = 0xffff_fffe;
/// A table of more slots is not made larger.
const MOST_SLOTS: usize = 1 << 33;

/// Entries of a pool that are pairwise distinct, and the table by which an equal one is found.
#[derive(Drop)]
pub struct Distinct<T, P: Pool<T>> {
    alloc: Global,
    pool: P,
    slots: Vec<u32>,
    of: PhantomData<T>,
}

/// A table of so many slots for all entries.
#[tactic(auto, using(crate::proofs::Slots::table_grown, crate::proofs::Slots::table_empty))]
fn filled<T, P: Pool<T>>(alloc: Global, pool: &P, count: usize) -> Result<Vec<u32>, Refused>
    requires some { 0 < count }
    requires room { P.count pool.now < FREE }
    ensures { IfOk result (λ slots. IsTable slots.items (λ k. P.hash_of (P.entry pool.now k)) (P.count pool.now)) }
{
    let mut slots = vec![in alloc; EMPTY; count]?;
    for number in 0..pool.count() {
        let Some(place) = free_slot(&slots, pool.hash(pool.get(number))) else {
            return Err(Refused::Numbers);
        };
        slots[place] = number as u32;
    }
    Ok(slots)
}

impl<T, P: Pool<T>> Distinct<T, P> {
    /// No entry yet: the pool is empty.
    pub fn new(alloc: Global, pool: P) -> Result<Distinct<T, P>, Refused>
        requires { P.count pool ≡ 0 }
        ensures pool { IfOk result (λ made. made.pool ≡ pool) }
        ensures kept { IfOk result (λ made. AreKept (P.entry made.pool) (P.count made.pool) P.hash_of made.slots.items) }
    {
        let slots = filled(alloc, &pool, FIRST_SLOTS)?;
        Ok(Distinct {
            alloc,
            pool,
            slots,
            of: PhantomData,
        })
    }

    /// How many entries there are, at most 2^32 - 2.
    #[inline]
    pub fn count(&self) -> usize
        ensures { result ≡ P.count self.now.pool }
    {
        self.pool.count()
    }

    /// The entry of that number.
    #[inline]
    pub fn get(&self, number: usize) -> &[T]
        requires { number < P.count self.now.pool }
        ensures { result.now ≡ P.entry self.now.pool number }
    {
        self.pool.get(number)
    }

    /// The number of an entry that equals the key, where one is found.
    pub fn find(&self, key: &[T]) -> Option<usize>
        requires kept { AreKept (P.entry self.now.pool) (P.count self.now.pool) P.hash_of self.now.slots.items }
        ensures within { IfSome result (λ n. n < P.count self.now.pool) }
        ensures is { IfSome result (λ n. P.entry self.now.pool n ≡ key.now) }
    {
        match probe(&self.pool, &self.slots, key) {
            Probed::Found(number) => Some(number),
            _ => None,
        }
    }

    /// How much memory the entries and the table take, in bytes.
    pub fn bytes(&self) -> u64 {
        self.pool
            .bytes()
            .saturating_add((self.slots.capacity() as u64).saturating_mul(4))
    }

    /// Makes the table twice as large where six in ten slots are taken.
    fn make_room(&mut self) -> Result<(), Refused>
        requires { AreKept (P.entry self.old.pool) (P.count self.old.pool) P.hash_of self.old.slots.items }
        ensures pool { self.new.pool ≡ self.old.pool }
        ensures kept { AreKept (P.entry self.new.pool) (P.count self.new.pool) P.hash_of self.new.slots.items }
    {
        let slots = self.slots.len();
        if MOST_SLOTS < slots || self.pool.count() < slots / 10 * 6 {
            return Ok(());
        }
        self.slots = filled(self.alloc, &self.pool, slots * 2)?;
        Ok(())
    }

    /// The number of an entry that equals the key. Where there is none the key is added at the end. At `Err` the entries are as they
    /// were.
    pub fn put(&mut self, key: &[T]) -> Result<usize, Refused>
        requires fits { P.fits (P.common self.old.pool) key.now }
        requires kept { AreKept (P.entry self.old.pool) (P.count self.old.pool) P.hash_of self.old.slots.items }
        ensures put { IfOk result (IsPut (P.entry self.old.pool) (P.count self.old.pool) (P.entry self.new.pool)
            (P.count self.new.pool) key.now) }
        ensures stay { Stay (P.entry self.old.pool) (P.count self.old.pool) (P.entry self.new.pool) }
        ensures refused { OnErr result (P.count self.new.pool ≡ P.count self.old.pool) }
        ensures kept { AreKept (P.entry self.new.pool) (P.count self.new.pool) P.hash_of self.new.slots.items }
        ensures common { P.common self.new.pool ≡ P.common self.old.pool }
    {
        self.make_room()?;
        match probe(&self.pool, &self.slots, key) {
            Probed::Found(number) => Ok(number),
            Probed::Free(place) => self.add(place, key),
            Probed::Full => Err(Refused::Numbers),
        }
    }

    #[tactic(auto, using(crate::proofs::Kept::kept_grown, crate::proofs::Kept::kept_same))]
    /// Adds a key that is not among the entries, and that belongs into that slot.
    fn add(&mut self, place: usize, key: &[T]) -> Result<usize, Refused>
        requires fits { P.fits (P.common self.old.pool) key.now }
        requires kept { AreKept (P.entry self.old.pool) (P.count self.old.pool) P.hash_of self.old.slots.items }
        requires is_free { IsFree self.old.slots.items (P.hash_of key.now) place }
        requires absent { (k : ℕ) → k < P.count self.old.pool → P.entry self.old.pool k ≡ key.now → ⊥ }
        ensures put { IfOk result (IsPut (P.entry self.old.pool) (P.count self.old.pool) (P.entry self.new.pool)
            (P.count self.new.pool) key.now) }
        ensures stay { Stay (P.entry self.old.pool) (P.count self.old.pool) (P.entry self.new.pool) }
        ensures refused { OnErr result (P.count self.new.pool ≡ P.count self.old.pool) }
        ensures kept { AreKept (P.entry self.new.pool) (P.count self.new.pool) P.hash_of self.new.slots.items }
        ensures common { P.common self.new.pool ≡ P.common self.old.pool }
    {
        let number = self.pool.count();
        if MOST_ENTRIES <= number {
            return Err(Refused::Numbers);
        }
        self.pool.push(key)?;
        self.slots[place] = number as u32;
        Ok(number)
    }
}
