//! What the plan of an image asks for.

use board_model::PageNo;

/// A call of the disk that a plan asks for: of one sector, of the 8 sectors of a page of the caller's memory, or of none.
#[derive(Clone, Copy, PartialEq, Eq, Drop)]
pub enum ImageRequest {
    /// The sector of that number is read.
    Read(usize),
    /// The 8 sectors from that number on are read into that page, by one call.
    ReadPage(usize, PageNo),
    /// The sector of that number is written.
    Write(usize),
    /// That page is written into the 8 sectors from that number on, by one call.
    WritePage(usize, PageNo),
    /// What was written is made durable.
    Sync,
    /// Nothing more is asked for.
    Done,
}
