//! Entries in a row.

use crate::refusal::Refused;

/// Entries in a row, each a slice, told by their numbers from 0. Each is found by a hash that it determines.
pub trait Pool<T>: Drop {
    ghost use Rattle.std.specs.Prelude.{◌≡◌, ◌<◌, ◌+◌, ◌↔◌, ℕ, List, IsTrue, OnOk, OnErr};

    ghost count: { Self → ℕ };

    ghost entry: { Self → ℕ → List T };

    ghost hash_of: { List T → ℕ };

    /// What the entries have in common, as their length, and which entries have it.
    ghost common: { Self → ℕ };

    ghost fits: { ℕ → List T → Type 0 };

    /// How many entries there are.
    fn count(&self) -> usize
        ensures { result ≡ count self.now };

    /// The hash of an entry.
    fn hash(&self, key: &[T]) -> u64
        ensures { result ≡ hash_of key.now };

    /// The entry of that number.
    fn get(&self, number: usize) -> &[T]
        requires { number < count self.now }
        ensures { result.now ≡ entry self.now number };

    /// Whether the entry of that number is the key.
    fn is_at(&self, number: usize, key: &[T]) -> bool
        requires { number < count self.now }
        ensures { IsTrue result ↔ (entry self.now number ≡ key.now) };

    /// Adds an entry at the end. At `Err` all is as it was.
    fn push(&mut self, key: &[T]) -> Result<(), Refused>
        requires { fits (common self.old) key.now }
        ensures counted { OnOk result (count self.new ≡ count self.old + 1) }
        ensures added { OnOk result (entry self.new (count self.old) ≡ key.now) }
        ensures stay { (k : ℕ) → k < count self.old → entry self.new k ≡ entry self.old k }
        ensures refused { OnErr result (count self.new ≡ count self.old) }
        ensures common { common self.new ≡ common self.old };

    /// How much memory the entries take, in bytes.
    fn bytes(&self) -> u64;
}
