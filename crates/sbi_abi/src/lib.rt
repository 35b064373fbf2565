//! The binary interface of SBI calls (SBI specification 2.0, chapter 3; docs/SBI.md): which call a hart's
//! registers ask for, which harts a mask names, and how a call is answered. No call takes memory.
#![tactic(auto)]

mod call;
mod laws;
mod masks;
mod ret;

pub use call::{Call, Extension};
pub use laws::registers_determine_call;
pub use masks::targets;
pub use ret::{SbiError, SbiRet, put};
