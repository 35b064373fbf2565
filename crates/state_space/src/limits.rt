//! When a search stops, and how it ended.

/// When a search stops before it is closed.
#[derive(Clone, Copy)]
pub struct Limits {
    /// At that many rows or more.
    pub rows: usize,
    /// Where the rows, the steps and the system's tables take that many bytes or more.
    pub bytes: u64,
}

/// How a search ended.
#[derive(Clone, Copy, PartialEq, Eq, Debug)]
pub enum Verdict {
    /// Each row that was found is expanded.
    Closed,
    /// It reached the limit of rows.
    AtRows,
    /// It reached the limit of bytes.
    AtBytes,
    /// The system wanted no more.
    Halted,
}
