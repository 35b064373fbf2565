//! The store as planned calls, for who can't hand it a disk: a plan says which call of the disk comes next, its caller makes
//! that call and tells how it ended. A plan takes no memory, calls nothing back and keeps no journal.
//!
//! [`run`] is the caller's loop, over any disk. What [`format`], [`open`] and [`apply`] make by it is what the calls of the
//! crate `store` make.
//!
//! Images are planned calls too ([`plan_load`], [`plan_suspend`]): for a call of a page a plan says which page of the caller's
//! memory it is of. It starts no thread. [`run_load`] and [`run_saving`] are the caller's loops, over any disk and memory. What
//! [`load_image`] and [`suspend`] make by them is what those of the crate `store` make.
#![tactic(auto)]

mod commits;
mod formats;
mod laws;
mod load_runs;
mod loads;
mod opens;
mod places;
mod plans;
mod requests;
mod runs;
mod save_runs;
mod saves;
mod stores;

pub use commits::{Commit, CommitStep, Selected};
pub use formats::{FormatStep, Formatting, format};
pub use laws::open_stores_stand;
pub use load_runs::{load_image, run_load};
pub use loads::{LoadStep, Loading, plan_load};
pub use opens::open;
pub use plans::{Plan, Request};
pub use requests::ImageRequest;
pub use runs::run;
pub use save_runs::{run_saving, suspend};
pub use saves::{SaveStep, Saving, plan_suspend};
pub use stores::{OpenStore, apply};
