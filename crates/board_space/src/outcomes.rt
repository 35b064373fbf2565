//! What a board shows at its end.

ghost use Rattle.std.specs.Prelude.{◌≡◌, true};

use board_model::Reason;

/// What a board shows at its end.
#[derive(Drop)]
pub enum Outcome {
    /// No turn of a hart changes it, and these are the bytes that were asked for.
    Rests(Vec<u8>),
    /// It ended by its own shutdown, with that reason.
    Ends(Reason),
}

impl Outcome {
    ghost use Rattle.board_space.specs.Shown.{IsSame};

    /// Whether it is shown to be the same.
    pub fn is_as(&self, other: &Outcome) -> bool
        ensures { result ≡ true → IsSame other.now self.now }
    {
        match (self, other) {
            (Outcome::Rests(bytes), Outcome::Rests(others)) => {
                bytes.as_slice() == others.as_slice()
            }
            (Outcome::Ends(reason), Outcome::Ends(others)) => *reason == *others,
            _ => false,
        }
    }
}
