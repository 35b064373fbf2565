//! A command whose fate is in doubt.
use board_model::Entry;
use layout::Record;

/// A command that reached the disk, and of which nobody knows whether the gate selects its record.
#[derive(Clone, Copy, Drop)]
pub struct Doubt {
    pub entry: Entry,
    pub next: Record,
}
