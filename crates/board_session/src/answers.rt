//! The writer of the console's answers.

use std::io::Write;

/// A writer of the console's answers, which is told when the console begins.
pub trait Answers: Write {
    ghost use Rattle.std.specs.Prelude.{◌≡◌};

    /// The console of a session begins, whose disk is kept in its file all along or not. A person at a terminal may be
    /// told what that means. No answer is written.
    fn begin(&mut self, is_synced: bool)
        ensures { Self.contents self.new ≡ Self.contents self.old };
}
