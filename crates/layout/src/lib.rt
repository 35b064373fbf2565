//! What the sectors of a disk hold, to bytes and back: superblock, gate, record and place header
//! (docs/STORE.md).
//!
//! Each sector has exactly one spelling: reading a sector back is an answer only where the sector is the
//! spelling of what was read. Nothing here takes memory.
#![tactic(auto)]

mod fields;
mod gates;
mod laws;
mod places;
mod records;
mod saved;
mod side;
mod sizes;
mod superblocks;
mod trials;

pub use gates::{gate_bytes, selected};
pub use laws::{bytes_determine_place_head, bytes_determine_record, bytes_determine_superblock};
pub use places::{PlaceHead, parse_place_head, place_head_bytes};
pub use records::{Record, Version, parse_record, record_bytes};
pub use saved::Saved;
pub use side::Side;
pub use sizes::{area_start, lane_start, place_start};
pub use superblocks::{has_magic, parse_superblock, superblock_bytes};
