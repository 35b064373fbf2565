//! The rows of a chunk, which one thread makes.

/// Rows of a chunk, in order: all of them; or, where memory was refused on the way, some first ones.
#[derive(Drop)]
pub struct Chunk<Row> {
    pub rows: Vec<Row>,
    /// They are all.
    pub whole: bool,
}
