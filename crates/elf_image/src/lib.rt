//! A kernel's ELF file: what a board's RAM holds of it, and its symbols.
//!
//! Any bytes are answered: with a kernel for this board, or with a fault that says what is wrong. The fields and tables are those of
//! the System V gABI for 64 bits in little-endian order; RISC-V's machine number and its mapping symbols are those of the RISC-V psABI.
#![tactic(auto)]

mod fault;
mod fields;
mod header;
mod kernel_file;
mod labels;
mod laid;
mod program;
mod reach;
mod sections;
mod symbols;

pub use fault::ElfFault;
pub use header::is_elf;
pub use kernel_file::{Elf, parse};
pub use symbols::Symbol;
