//! A board is suspended to its disk, and wakes from it (SBI specification 2.0, chapter 13; docs/SBI.md): by
//! the hart table, the memory and the store, which are at hand for one moment.
#![tactic(auto)]

mod buses;
mod sleeps;
mod wakes;

pub use buses::{Bus, Doze, doze_of, wake};
pub use sleeps::{Sleep, SuspendWords, suspend};
pub use wakes::wake_image;
