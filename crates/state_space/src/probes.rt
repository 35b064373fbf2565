//! A table of slots, searched slot after slot from the one that a hash names.

ghost use Rattle.std.specs.Prelude.{◌≡◌, ◌<◌, ◌≤◌, ◌-◌, ℕ, length, slice_set, IfSome, slice_index};
ghost use Rattle.state_space.specs.Tables.{IsTable, IsFree, IsHeld, AreBelow, EMPTY as FREE};
ghost use Rattle.state_space.specs.Pools.{IsProbed};

use crate::pools::Pool;

/// What stands in a free slot.
pub(crate) const EMPTY: u32 = u32::MAX;

/// What a search for a key found.
#[derive(Clone, Copy)]
pub enum Probed {
    /// The number of an equal entry.
    Found(usize),
    /// No entry is equal, and the new one belongs into that slot.
    Free(usize),
    /// No slot of all was free.
    Full,
}

/// Searches a key.
#[inline]
#[tactic(auto, using(crate::proofs::Slots::slot_first, crate::proofs::Slots::slot_next, crate::proofs::Slots::slot_within, crate::proofs::Slots::taken_more, crate::proofs::Slots::others_more, crate::proofs::Slots::free_made, crate::proofs::Kept::absent_at))]
pub(crate) fn probe<T, P: Pool<T>>(pool: &P, slots: &[u32], key: &[T]) -> Probed
    requires { IsTable slots.now (λ k. P.hash_of (P.entry pool.now k)) (P.count pool.now) }
    ensures { IsProbed (P.entry pool.now) (P.count pool.now) slots.now (P.hash_of key.now) key.now result }
{
    let mask = slots.len() - 1;
    let mut place = pool.hash(key) as usize & mask;
    for step in 0..slots.len() {
        let number = slots[place];
        if number == EMPTY {
            return Probed::Free(place);
        }
        if pool.is_at(number as usize, key) {
            return Probed::Found(number as usize);
        }
        place = (place + 1) & mask;
    }
    Probed::Full
}

/// The slot of an entry that is not in the table.
#[inline]
#[tactic(auto, using(crate::proofs::Slots::slot_first, crate::proofs::Slots::slot_next, crate::proofs::Slots::slot_within, crate::proofs::Slots::taken_more, crate::proofs::Slots::free_made))]
pub(crate) fn free_slot(slots: &[u32], hash: u64) -> Option<usize>
    requires { 0 < length slots.now }
    ensures { IfSome result (λ place. IsFree slots.now hash place) }
{
    let mask = slots.len() - 1;
    let mut place = hash as usize & mask;
    for step in 0..slots.len() {
        if slots[place] == EMPTY {
            return Some(place);
        }
        place = (place + 1) & mask;
    }
    None
}
