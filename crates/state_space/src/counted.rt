//! A system within a number of events of a kind, as a system of its own.

ghost use Rattle.std.specs.Prelude.{◌≡◌, ◌<◌, ◌+◌, ℕ, IfSome, IfNone, IfOk};
ghost use Rattle.state_space.specs.Counted.{AreCounted, Counted, IsCounted, Spends, StandsCounted, counted_rules};
ghost use Rattle.state_space.specs.Successors.{found_count, found_width};

use crate::carries::Carries;
use crate::found::Successors;
use crate::refusal::Refused;
use crate::systems::{Expansion, System};
use std::alloc::Global;

/// A system of whose events some are counted.
pub trait Counts: System {
    ghost use Rattle.std.specs.Prelude.{◌≡◌, ℕ, Bool};

    /// Whether the event of a number is counted.
    ghost is_counted: { ℕ → Bool };

    /// Whether an event is counted.
    fn counts(&self, event: u8) -> bool
        ensures { result ≡ is_counted event };
}

/// What is left after an event, where enough is.
fn left_after(counts: bool, left: u32) -> Option<u32>
    ensures some { IfSome result (λ after. Spends counts left after) }
    ensures none { IfNone result ((after : ℕ) → Spends counts left after → ⊥) }
{
    if counts {
        left.checked_sub(1)
    } else {
        Some(left)
    }
}

/// Adds the successor of that number, with what is left after it, where enough is.
fn add<S: Counts>(
    system: &S,
    left: u32,
    successors: &Successors,
    index: usize,
    row: &mut Vec<u32>,
    found: &mut Successors,
) -> Result<(), Refused>
    requires index { index < found_count successors.now }
    requires width { found_width found.old ≡ found_width successors.now + 1 }
    ensures told { IfOk result (λ _. IsCounted S.is_counted left successors.now found.old found.new index) }
    ensures width { found_width found.new ≡ found_width found.old }
{
    let event = successors.event(index);
    let Some(after) = left_after(system.counts(event), left) else {
        return Ok(());
    };
    row.clear();
    row.push(after)?;
    row.extend_from_slice(successors.row(index))?;
    found.push(event, row)
}

/// A system within a number of events that are counted. Its rows have one number more, the first: how many are left.
#[derive(Drop)]
pub struct Counting<S: System> {
    alloc: Global,
    system: S,
    most: u32,
    row: Vec<u32>,
}

impl<S: Counts> Counting<S> {
    /// The system, from whose start so many events that are counted may come.
    pub fn new(alloc: Global, system: S, most: u32) -> Counting<S>
        ensures { (result.system ≡ system) × (result.most ≡ most) }
    {
        Counting {
            alloc,
            system,
            most,
            row: Vec::new(alloc),
        }
    }

    /// The system, once it is searched or its search was refused.
    pub fn into_system(self) -> S
        ensures { result ≡ self.system }
    {
        let Counting { system, .. } = self;
        system
    }

    /// Adds the successors for which enough is left.
    fn add_all(
        &mut self,
        left: u32,
        successors: &Successors,
        found: &mut Successors,
    ) -> Result<(), Refused>
        requires width { found_width found.old ≡ found_width successors.now + 1 }
        requires none { found_count found.old ≡ 0 }
        ensures listed { IfOk result (λ _. AreCounted S.is_counted left successors.now found.new (found_count successors.now)) }
        ensures width { found_width found.new ≡ found_width found.old }
        ensures same { (self.new.system ≡ self.old.system) × (self.new.most ≡ self.old.most) }
    {
        for index in 0..successors.count() {
            add(&self.system, left, successors, index, &mut self.row, found)?;
        }
        Ok(())
    }
}

impl<S: Counts> System for Counting<S> {
    ghost use Rattle.std.specs.Prelude.{◌≡◌, ◌+◌, ℕ, List};
    ghost use Rattle.state_space.specs.Counted.{Counted, StandsCounted, counted_rules};

    ghost State = { Counted S.State };

    ghost Setting = { S.Setting × ℕ };

    ghost setting = { λ s. (S.setting s.system, s.most) };

    ghost rules = { λ s. counted_rules (S.rules s.0) S.is_counted s.1 };

    ghost width = { λ s. S.width s.0 + 1 };

    ghost stands = { λ s. StandsCounted (S.stands s.system) };

    fn start(&mut self) -> Result<Vec<u32>, Refused> {
        let mut row = self.system.start()?;
        row.insert(0, self.most)?;
        Ok(row)
    }

    #[tactic(auto, using(crate::proofs::Spending::stays_counted))]
    fn expand(&mut self, row: &[u32], found: &mut Successors) -> Result<Expansion, Refused> {
        let left = row[0];
        let mut successors = Successors::new(self.alloc, found.width() - 1);
        match self.system.expand(&row[1..], &mut successors)? {
            Expansion::Halts => Ok(Expansion::Halts),
            said => {
                self.add_all(left, &successors, found)?;
                Ok(said)
            }
        }
    }

    fn goes(&self, event: u8) -> bool {
        self.system.goes(event)
    }

    fn bytes(&self) -> u64 {
        self.system.bytes()
    }
}

impl<S: Counts + Carries> Carries for Counting<S> {
    ghost use Rattle.std.proofs.Common.{ℕ, ap};
    ghost use Rattle.state_space.specs.Counted.{counted_inner};

    type Memo = S::Memo;

    ghost knows = { λ from to memo. S.knows from.system to.system memo };

    ghost knows_on = { λ from to later after memo first other stays grows knows.
        S.knows_on from.system to.system later.system after.system memo
        (ap (λ (t : S.Setting × ℕ). t.0) first) (ap (λ (t : S.Setting × ℕ). t.0) other)
        (counted_inner (S.stands from.system) (S.stands later.system) stays)
        (counted_inner (S.stands to.system) (S.stands after.system) grows) knows };

    fn another(&self) -> Result<Self, Refused> {
        Ok(Counting::new(self.alloc, self.system.another()?, self.most))
    }

    fn memo(&self) -> S::Memo {
        self.system.memo()
    }

    fn find(
        &self,
        from: &Self,
        memo: &S::Memo,
        row: &[u32],
        out: &mut Vec<u32>,
    ) -> Result<bool, Refused> {
        if !self.system.find(&from.system, memo, &row[1..], out)? {
            return Ok(false);
        }
        out.insert(0, row[0])?;
        Ok(true)
    }

    fn carry(
        &mut self,
        from: &Self,
        memo: &mut S::Memo,
        row: &[u32],
        out: &mut Vec<u32>,
    ) -> Result<(), Refused> {
        self.system.carry(&from.system, memo, &row[1..], out)?;
        out.insert(0, row[0])?;
        Ok(())
    }
}
