//! The lines of a report, and what writes them (docs/SCRIPT.md, "The report"). Which lines a script has is said in `bench_report`.
//!
//! What an examiner tells of a disk (docs/STORE.md, "Examining"): the line about its records and its image, the state that an open
//! finds, and the memory of the image. It has an answer whatever bytes a disk holds.
#![tactic(auto)]

mod laws;
mod line;
mod memory;
mod printed;
mod report;
mod sees;

pub use laws::every_content;
pub use line::InspectionText;
pub use memory::{image_memory, write_memory};
pub use printed::{Answer, Printed};
pub use report::{Report, add};
pub use sees::{FoundState, Seen, see_disk};
