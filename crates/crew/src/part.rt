//! A part of a run.

ghost use Rattle.std.specs.Prelude.{◌≡◌, ◌⊎◌, ◌<◌, ◌≤◌, MatchOption};

/// The most parts of a run.
pub const MOST_PARTS: u64 = 4_096;

/// One of several parts of a run, for several machines: part `number` of `of`, 1 <= number <= of <= 4,096. Of n things it has
/// those from (number - 1) * n / of, counted from 0, up to, not including, number * n / of (docs/SCRIPT.md, "Over many machines").
#[derive(Clone, Copy, Drop)]
pub struct Part {
    pub number: u64,
    pub of: u64,
    ghost some: { 1 ≤ number },
    ghost within: { number ≤ of },
    ghost most: { of ≤ 4096 },
}

impl Part {
    /// Part `number` of `of`; none exactly where one of the two is out of its range.
    pub fn new(number: u64, of: u64) -> Option<Part>
        ensures { MatchOption result ((number < 1) ⊎ (of < number) ⊎ (4096 < of)) (λ part. (part.number ≡ number) × (part.of ≡ of)) }
    {
        if number < 1 || of < number || MOST_PARTS < of {
            None
        } else {
            Some(Part { number, of })
        }
    }
}
