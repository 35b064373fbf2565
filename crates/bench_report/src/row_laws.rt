//! Laws of rows of turns, each the contract of a function that does nothing.

ghost use Rattle.bench_report.specs.Rows.{IdleTurnStays, RowsJoin};

/// Two rows of turns of one hart, one after the other, are one row with all of their turns, unless the first row has ended.
pub fn rows_join()
    ensures { RowsJoin }
{}

/// An idle turn of a hart leaves the bench as it was.
pub fn idle_turns_change_nothing()
    ensures { IdleTurnStays }
{}
