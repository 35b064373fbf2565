//! The board of the bench.

ghost use Rattle.store.specs.Leaves.{IsIdle};
ghost use Rattle.bench_report.specs.Views.{facts};

use board::Board;
use simdisk::SimDisk;

/// A disk that no store holds.
#[derive(Drop)]
pub struct OffDisk {
    pub disk: SimDisk,
    ghost idle: { IsIdle (facts disk) },
}

/// The board, off or on, with what it holds.
#[derive(Drop)]
pub enum Power {
    Off(OffDisk),
    On(Board<SimDisk>),
}
