//! The durable state on a disk (docs/STORE.md).
#![tactic(auto)]

mod commits;
mod doubts;
mod formats;
mod inspects;
mod journals;
mod laws;
mod next_records;
mod opens;
mod receipts;
mod renews;
mod saving;
mod stores;

pub use formats::format;
pub use inspects::{ImageSeen, Inspection, inspect};
pub use laws::{
    blank_disks, content_determines_inspection, content_determines_state, formats_in_order,
    kept_disks, whole_images_load,
};
pub use next_records::{formatted_record, in_version_two, record_after};
pub use receipts::Receipt;
pub use saving::{Resumption, Saving};
pub use stores::Store;
