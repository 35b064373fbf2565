//! The disk of a story, between two steps.
ghost use Rattle.store.specs.Leaves.{IsIdle};

use disk::Disk;
use simdisk::SimDisk;
use store::Store;

/// A disk of which nothing is lent.
pub struct Resting {
    pub disk: SimDisk,
    ghost idle: { IsIdle (⟦<SimDisk as Disk>⟧.facts disk) },
}

/// The disk between two steps: without a store, or in one.
pub enum Power {
    Off(Resting),
    On(Store<SimDisk>),
}
