//! A disk in memory, which meets the whole contract of [`disk::Disk`] with nothing assumed. It
//! keeps a log of all its writes and syncs (`disk`), from which what a crash may leave is
//! read to the letter, and it can be cut, with a fill that says what the crash leaves. docs/DISK.md has the model.
//!
//! Disks over a device, which don't keep all of their sectors in memory: [`LoggedDisk`] hands each call on, and [`CachedDisk`] keeps some
//! sectors back until a sync. Their facts are those of a write log (`disk`), which stands in contracts alone, and what they take of the
//! device they take from the contracts of its calls. They are skeletons: docs/PORTING.md walks through them.
#![tactic(auto)]

mod cached_disk;
mod copies;
mod device;
mod exactness;
mod faults;
mod fill;
mod history;
mod laid;
mod lane;
mod latest;
mod lending;
mod loan;
mod logged;
mod logged_disk;
mod made;
mod noting;
mod patch;
mod poked;
mod remembered;
mod sim;
mod striking;
mod waiting;

pub use cached_disk::CachedDisk;
pub use exactness::exactly_the_model;
pub use fill::Fill;
pub use lane::SimLane;
pub use logged::{Logged, Stateful};
pub use logged_disk::LoggedDisk;
pub use sim::SimDisk;
