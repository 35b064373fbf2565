//! The words of the board that every crate above speaks: numbers in their range, sets of harts, the shape of a
//! board, the durable state with its commands and its text, and the refusals. docs/DURABLE.md tells the rules in plain words.
#![tactic(auto)]

mod boot_mode;
mod bytes;
mod call_words;
mod console_command;
mod durable;
mod hart_set;
mod image_text;
mod laws;
mod limits;
mod numbers;
mod plain;
mod refusal;
mod shape;
mod state_text;
mod values;

pub use boot_mode::BootMode;
pub use bytes::Bytes;
pub use call_words::CallWords;
pub use console_command::ConsoleCommand;
pub use durable::{Command, Durable, Entry, ImageHead, Reason, Trial};
pub use hart_set::HartSet;
pub use image_text::ImageText;
pub use laws::{
    a_trial_ends, image_never_again, images_stay_whole, longer_list, no_memory_is_read,
    other_commands_leave_the_trial, serials_rise, the_image_by_kind, the_table_keeps_its_ranges,
};
pub use limits::{
    MAX_BOOTS, MAX_COMMANDS, MAX_HARTS, MAX_LANES, MAX_LINE_BYTES, MAX_PAGES, MAX_SCRIPT_LINES,
    PAGE_BYTES, RAM_BASE, SECTOR_BYTES, SLOTS,
};
pub use numbers::{Addr, Boots, HartId, PageNo, Slot};
pub use plain::{Plain, PlainImage};
pub use refusal::{Refusal, unwritten};
pub use shape::{Shape, shape_in_range};
pub use state_text::StateText;
pub use values::Value;
