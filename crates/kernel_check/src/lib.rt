//! What the program `sbicheck` does: a kernel in every order of its harts, or in those with few preemptions, and what it comes to
//! (docs/CHECKING.md).
#![tactic(auto)]

mod checks;
mod comes;
mod counting;
mod ends;
mod expected;
mod facts;
mod faults;
mod given;
mod help;
mod json;
mod judged;
mod kernel;
mod looks;
mod own;
mod parsed;
mod places;
mod program;
mod script;
mod standing;
mod step_texts;
mod taps;
mod tells;
mod texts;
mod told;
mod verdict_texts;
mod walks;
mod words;

pub use crate::checks::check_bytes;
pub use crate::facts::{Stop, Verdict};
pub use crate::faults::CheckFault;
pub use crate::given::{Asked, CheckOptions, FailureKind, LookWord};
pub use crate::kernel::KernelFault;
pub use crate::looks::LookFault;
pub use crate::parsed::options_of;
pub use crate::program::check;
