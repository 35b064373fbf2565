//! The bench of a debugger with its history: the lines that were run, and how it goes forward and back. Its state is one
//! that its history may leave.
//!
//! A board under a debugger: a session over its timeline, how it runs forward and back, and its history as a script;
//! docs/DEBUGGING.md has it in plain words.
//!
//! GDB's Remote Serial Protocol ("Debugging with GDB", appendix "GDB Remote Serial Protocol"): its packets, which are `$`, the
//! payload with four bytes escaped, `#` and two hexadecimal digits of a sum; what they ask of a stub; and a stub's replies, as
//! texts of the values that they tell. docs/DEBUGGING.md tells which packets there are.
#![tactic(auto)]

mod actions;
mod asked;
mod back;
mod bytes;
mod counts;
mod decoder;
mod digits;
mod fields;
mod forth;
mod frames;
mod halts;
mod heard;
mod laws;
mod lists;
mod loads;
mod looks;
mod notes;
mod orders;
mod past;
mod places;
mod reads;
mod registers;
mod replays;
mod requests;
mod rounds;
mod script;
mod sent;
mod session;
mod signs;
mod starts;
mod steps;
mod stops;
mod target;
mod timeline;
mod to_points;
mod transfers;

pub use actions::{ResumeAction, action_for, are_known, parts};
pub use asked::request_of;
pub use bench_report::{LiveBench, TurnRow};
pub use bytes::put_hex;
pub use decoder::Decoder;
pub use digits::{digit, value};
pub use fields::{number, parted, strip_prefix, two_numbers};
pub use frames::{body, checksum, framed, payload_of};
pub use halts::{HaltReason, Stop};
pub use heard::{PacketEvent, PacketPlace};
pub use laws::{frames_are_read_back, heard_packets_are_those_in_the_bytes, packets_are_heard};
pub use lists::threads;
pub use loads::Load;
pub use looks::{PC, REGISTERS, memory, pc};
pub use notes::note;
pub use past::LineHistory;
pub use registers::put_register;
pub use replays::replay;
pub use requests::{GdbLook, GdbRequest, Move, Object, Watching};
pub use sent::packets;
pub use session::{Session, SessionPlan};
pub use stops::{WatchKind, Watchpoint};
pub use target::{DESCRIPTION, memory_map};
pub use timeline::Timeline;
pub use transfers::part;
