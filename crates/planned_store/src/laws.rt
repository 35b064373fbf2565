//! What an open store promises between its commands, as the contract of a function that does nothing.

ghost use Rattle.std.specs.Prelude.{◌≡◌, false};
ghost use Rattle.store.specs.Leaves.{LeavesOnly};
ghost use Rattle.planned_store.specs.Stores.{Holds, state_now};
ghost use Rattle.planned_store.specs.declared.stores.OpenStore.{OpenStore};

use disk::Disk;

/// Of a disk that an open store holds, and without a command in doubt, a crash leaves the state now and nothing else.
pub fn open_stores_stand<D: Disk>()
    ensures { (disk : D) (store : OpenStore) → Holds (D.facts disk) store → store.down ≡ false
        → LeavesOnly (D.facts disk) store.selected.shape (state_now store (D.facts disk).content) }
{}
