//! A disk of sectors, as the firmware above it knows one: what a read gives, what a crash may
//! leave, and how often it has failed. Whatever stands on a disk is written over [`Disk`] and is
//! proved once for all of them. docs/DISK.md has the model in plain words.
//!
//! The log of a disk's writes and syncs, from which what a crash may leave is read to the letter
//! (`specs/WriteLog.antt`), with its laws. It stands in contracts alone: any disk may hold one beside what it really
//! keeps. docs/PORTING.md says how.
#![tactic(auto)]

mod copies;
mod device;
mod log;
mod synced;

pub use copies::CopyDisk;
pub use device::{ArmedFault, Disk, Fault, Lane, LaneCall, Sector};
pub use log::Log;
pub use synced::{read_sector, write_synced};
