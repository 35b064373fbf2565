//! A system of states and events.

use crate::found::Successors;
use crate::refusal::Refused;

/// What a system says of a row when it was expanded.
#[derive(Clone, Copy, Debug)]
pub enum Expansion {
    /// The state is at no end.
    Goes,
    /// The state is at an end.
    Ends,
    /// The system wants no more of the search.
    Halts,
}

/// A system whose states are told as rows of numbers. A row may stand for many states: what it says of its successors and of ends holds for
/// each of them. The system's tables may grow from call to call, and what a row stands for stays.
pub trait System: Drop {
    ghost use Rattle.std.specs.Prelude.{◌≡◌, ℕ, List, length, IfOk, true, false};
    ghost use Rattle.state_space.specs.Systems.{Rules, IsExpanded, Says, Stay, UnlessHalts};
    ghost use Rattle.state_space.specs.Successors.{found_count, found_event, found_row, found_width};

    ghost State: { Type 0 };

    /// What stays the same from call to call.
    ghost Setting: { Type 0 };

    ghost setting: { Self → Setting };

    ghost rules: { Setting → Rules State };

    ghost width: { Setting → ℕ };

    /// The states that a row stands for.
    ghost stands: { Self → List ℕ → State → Type 0 };

    /// The row of the state in which the system starts.
    fn start(&mut self) -> Result<Vec<u32>, Refused>
        ensures setting { setting self.new ≡ setting self.old }
        ensures width { IfOk result (λ row. length row.items ≡ width (setting self.new)) }
        ensures first { IfOk result (λ row. (b : State) × (rules (setting self.new)).settles (rules (setting self.new)).start b
            × stands self.new row.items b) };

    /// Adds the successors of the states that a row stands for, and says whether they are at an end.
    fn expand(&mut self, row: &[u32], found: &mut Successors) -> Result<Expansion, Refused>
        requires known { (b : State) × stands self.old row.now b }
        requires width { found_width found.old ≡ width (setting self.old) }
        requires none { found_count found.old ≡ 0 }
        ensures setting { setting self.new ≡ setting self.old }
        ensures stays { Stay (stands self.old) (stands self.new) }
        ensures width { found_width found.new ≡ found_width found.old }
        ensures successors { IfOk result (λ said. (b : State) → stands self.old row.now b
            → UnlessHalts said (IsExpanded (rules (setting self.new)) (stands self.new) (found_count found.new)
            (found_event found.new) (found_row found.new) b)) }
        ensures ends { IfOk result (λ said. (b : State) → stands self.old row.now b
            → Says said ((rules (setting self.new)).is_end b)) };

    /// Whether a state goes on by such an event where nothing fails. By a failure it comes to no end.
    fn goes(&self, event: u8) -> bool
        ensures goes { result ≡ true → (rules (setting self.now)).goes event }
        ensures fails { result ≡ false → (rules (setting self.now)).goes event → ⊥ };

    /// How much memory the system's tables take, in bytes.
    fn bytes(&self) -> u64;
}
