//! How far a long run is.

/// Who is told how far a run of rows is. What is told changes nothing of the run. A row of a task may stand for several of these: who
/// takes it says for how many.
pub trait Progress {
    /// So many rows are about to be made.
    fn begin(&self, rows: u64);

    /// So many more were made and taken.
    fn went(&self, rows: u64);

    /// Something of a row is about to be written.
    fn pause(&self);
}

/// Nobody is told.
impl Progress for () {
    fn begin(&self, rows: u64) {
        let _rows = rows;
    }

    fn went(&self, rows: u64) {
        let _rows = rows;
    }

    fn pause(&self) {}
}
