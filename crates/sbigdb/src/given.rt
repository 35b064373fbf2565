//! What the words of a command line ask for.

ghost use Rattle.sbigdb.specs.Limits.{IsUpTo};

/// A schedule of the script (docs/SCRIPT.md, "Schedules").
#[derive(Clone, Copy, Drop)]
pub struct ScheduleChoice {
    /// What it is drawn from.
    pub seed: u64,
    /// Its number, 1 to 1,000,000.
    pub number: u64,
}

/// Where a session begins.
#[derive(Clone, Copy, Drop)]
pub enum Begin {
    /// At the end of the script.
    End,
    /// Where a schedule parts from it.
    Schedule(ScheduleChoice),
    /// Where the cut of that row of the power-cut bench strikes, 1 to 1,000,000 (docs/SCRIPT.md, "The benches").
    Cut(u64),
    /// Where the failure of that row of the fault bench strikes, 1 to 1,000,000.
    Failure(u64),
}

/// What the command line asks for.
#[derive(Drop)]
pub struct DebugOptions {
    /// The script's file.
    pub script: String,
    /// The file of each boot slot's payload, where one is named. The others are empty.
    pub payloads: [Option<String>; 4],
    /// Where the session begins.
    pub begin: Begin,
    /// How many turns a hart makes before the next one's, 1 to 1,000,000.
    pub quantum: u32,
    /// How many turns a command makes at most, 1 to 1,000,000,000.
    pub most: u32,
    ghost quanta: { IsUpTo 1000000 quantum },
    ghost turns: { IsUpTo 1000000000 most },
}
