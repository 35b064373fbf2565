//! Systems that carry rows over from one another.

use crate::refusal::Refused;
use crate::systems::System;

/// A system of which several of one setting may be at work, each with tables of its own: what a row of one stands for, a row of any other
/// can stand for.
pub trait Carries: System + Send + Sync {
    ghost use Rattle.std.specs.Prelude.{◌≡◌, ℕ, List, length, IfOk, Ok, true};
    ghost use Rattle.state_space.specs.Systems.{Stay};

    /// What a system remembers of another one's numbers. A row is carried over by it, and what is remembered is not compared again.
    type Memo: Send + Sync + Drop;

    /// What a system remembers of the numbers of another one, the first, is right.
    ghost knows: { Self → Self → Self.Memo → Type 0 };

    /// Another system of the same setting, with empty tables.
    fn another(&self) -> Result<Self, Refused>
        ensures { IfOk result (λ other. Self.setting other ≡ Self.setting self.now) };

    /// Nothing is remembered yet.
    fn memo(&self) -> Self::Memo
        ensures { (from to : Self) → knows from to result };

    /// Whether the row of this one is known that stands for the same as a row of another system. It is put in place of what was in `out`.
    fn find(
        &self,
        from: &Self,
        memo: &Self::Memo,
        row: &[u32],
        out: &mut Vec<u32>,
    ) -> Result<bool, Refused>
        requires setting { Self.setting self.now ≡ Self.setting from.now }
        requires known { (b : Self.State) × Self.stands from.now row.now b }
        requires knows { knows from.now self.now memo.now }
        ensures stands { result ≡ Ok true → (b : Self.State) → Self.stands from.now row.now b → Self.stands self.now out.new.items b };

    /// Makes of a row of another system the row of this one that stands for the same, in place of what was in `out`.
    fn carry(
        &mut self,
        from: &Self,
        memo: &mut Self::Memo,
        row: &[u32],
        out: &mut Vec<u32>,
    ) -> Result<(), Refused>
        requires setting { Self.setting self.old ≡ Self.setting from.now }
        requires known { (b : Self.State) × Self.stands from.now row.now b }
        requires knows { knows from.now self.old memo.old }
        ensures setting { Self.setting self.new ≡ Self.setting self.old }
        ensures stays { Stay (Self.stands self.old) (Self.stands self.new) }
        ensures width { IfOk result (λ _. length out.new.items ≡ Self.width (Self.setting self.new)) }
        ensures stands { IfOk result (λ _. (b : Self.State) → Self.stands from.now row.now b → Self.stands self.new out.new.items b) }
        ensures knows { knows from.now self.new memo.new };

    /// It stays right while the tables of both grow.
    ghost knows_on: { (from to later after : Self) (memo : Self.Memo)
        → Self.setting later ≡ Self.setting from → Self.setting after ≡ Self.setting to
        → Stay (Self.stands from) (Self.stands later) → Stay (Self.stands to) (Self.stands after)
        → knows from to memo → knows later after memo };
}
