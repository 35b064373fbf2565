//! Where a turn finds the memory.

ghost use Rattle.std.specs.Prelude.{◌≡◌, ℕ, List, refl};
ghost use Rattle.hart.specs.Means.{Steps};

use hart::{Hart, Outcome};
use ram::Ram;

/// Where a hart's step finds the memory: at hand, or behind a lock that is taken for that one step.
pub trait MemoryBus {
    /// That memory may be found there. Of one behind a lock nothing is known before the lock is taken.
    ghost may_hold: { Self → List ℕ → Type 0 };

    /// One step of a hart took it from the first to the second: the step found that memory there, and left that one.
    ghost stepped: { Self → Self → List ℕ → List ℕ → Type 0 };

    /// One step of the hart, for which an interrupt is pending or not: of a memory that was found there, and
    /// of no other.
    fn step(&mut self, hart: &mut Hart, pending: bool) -> Outcome
        ensures { (found : List ℕ) × (left : List ℕ) × stepped self.old self.new found left
            × Steps pending hart.old found hart.new left result };

    /// There is a memory that may be found.
    ghost holds_one: { (bus : Self) → (memory : List ℕ) × may_hold bus memory };
}

/// The memory at hand, which is the one that is found.
impl MemoryBus for Ram {
    ghost may_hold = { λ ram memory. memory ≡ ram };

    ghost stepped = { λ ram after found left. (found ≡ ram) × (left ≡ after) };

    ghost holds_one = { λ ram. (ram, refl) };

    #[inline(always)]
    fn step(&mut self, hart: &mut Hart, pending: bool) -> Outcome {
        hart.step(self, pending)
    }
}
