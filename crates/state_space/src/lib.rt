//! The search of any system of states and events.
#![tactic(auto)]

mod carries;
mod counted;
mod distinct;
mod ends;
mod explores;
mod found;
mod graph;
mod hash;
mod interner;
mod limits;
mod orders;
mod pools;
mod preempted;
mod probes;
mod refusal;
mod row_pool;
mod rows;
mod switched;
mod systems;
mod told;
mod ways;
mod windows;
mod word_pool;
mod workers;

pub use carries::Carries;
pub use counted::{Counting, Counts};
pub use distinct::Distinct;
pub use ends::{at_end, first_dead, reaching};
pub use explores::explore_by;
pub use found::Successors;
pub use graph::Graph;
pub use interner::Interner;
pub use limits::{Limits, Verdict};
pub use orders::{Orders, all_orders};
pub use pools::Pool;
pub use preempted::{Preemptions, bounded_orders};
pub use probes::Probed;
pub use refusal::Refused;
pub use row_pool::RowPool;
pub use rows::Rows;
pub use switched::{Preempted, Switching};
pub use systems::{Expansion, System};
pub use told::search_tells;
pub use ways::way_to;
pub use word_pool::WordPool;
