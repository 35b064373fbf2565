//! A system within a number of switches from one process to another, as a system of its own.

ghost use Rattle.std.specs.Prelude.{◌≡◌, ◌≤◌, ◌<◌, ◌+◌, ◌∷◌, ℕ, List, IfSome, IfNone, IfOk, OnOk, Ok, true, false, length};
ghost use Rattle.state_space.specs.Bounded.{Budget, Waits};
ghost use Rattle.state_space.specs.Successors.{found_count, found_event, found_width};
ghost use Rattle.state_space.specs.Switched.{last_number, StandsWithin, IsPriced, AreListed, IsTold, Switched};

use crate::carries::Carries;
use crate::found::Successors;
use crate::refusal::Refused;
use crate::systems::{Expansion, System};
use std::alloc::Global;

/// A system of whose events some are turns of processes.
pub trait Preempted: System {
    ghost use Rattle.std.specs.Prelude.{◌≡◌, ℕ, List, Option, Ok, true, false};
    ghost use Rattle.state_space.specs.Bounded.{Waits};
    ghost use Rattle.state_space.specs.Systems.{Stay};

    /// The process whose turn the event of a number is, if it is one.
    ghost by: { ℕ → Option ℕ };

    /// The number of a process's turn.
    ghost turn: { ℕ → ℕ };

    /// A process waits where at most so many turns of its own lead back to the same state: a switch from it is free there.
    ghost most: { ℕ };

    /// The process whose turn an event is.
    fn process(&self, event: u8) -> Option<u8>
        ensures { result ≡ by event };

    /// Whether a process waits in the state of a row.
    fn waits(&mut self, row: &[u32], process: u8) -> Result<bool, Refused>
        requires known { (b : Self.State) × Self.stands self.old row.now b }
        ensures setting { Self.setting self.new ≡ Self.setting self.old }
        ensures stays { Stay (Self.stands self.old) (Self.stands self.new) }
        ensures waits { result ≡ Ok true → (b : Self.State) → Self.stands self.old row.now b
            → Waits (Self.rules (Self.setting self.new)).steps turn most process b }
        ensures goes { result ≡ Ok false → (b : Self.State) → Self.stands self.old row.now b
            → Waits (Self.rules (Self.setting self.new)).steps turn most process b → ⊥ };
}

/// What is left after a turn of that process, or an event of none, where it can be paid: the number of the process that made the last
/// turn, and how many switches. `is_free`: no process made the last turn, or one that waits.
#[tactic(auto, using(crate::proofs::Priced::none_paid, crate::proofs::Priced::own_paid, crate::proofs::Priced::other_paid, crate::proofs::Priced::none_left))]
fn paid(is_free: bool, last: u32, left: u32, process: Option<u8>) -> Option<(u32, u32)>
    ensures some { IfSome result (λ next. (w : Budget) → last ≡ last_number w.last → left ≡ w.left
        → (u : Budget) × (next.0 ≡ last_number u.last) × (next.1 ≡ u.left) × IsPriced is_free w process u) }
    ensures none { IfNone result ((w u : Budget) → last ≡ last_number w.last → left ≡ w.left
        → IsPriced is_free w process u → ⊥) }
{
    let Some(process) = process else {
        return Some((0, left));
    };
    let number = process as u32 + 1;
    if is_free || last == number {
        return Some((number, left));
    }
    Some((number, left.checked_sub(1)?))
}

/// Puts two numbers before those of a row.
fn put_first(one: u32, other: u32, row: &mut Vec<u32>) -> Result<(), Refused>
    ensures { OnOk result (row.new.items ≡ one ∷ other ∷ row.old.items) }
{
    row.insert(0, other)?;
    row.insert(0, one)?;
    Ok(())
}

/// Adds the successor of that number, with what is left after it, where it can be paid.
fn add<S: Preempted>(
    system: &S,
    budget: (u32, u32),
    is_free: bool,
    successors: &Successors,
    index: usize,
    row: &mut Vec<u32>,
    found: &mut Successors,
) -> Result<(), Refused>
    requires index { index < found_count successors.now }
    requires width { found_width found.old ≡ found_width successors.now + 2 }
    ensures told { IfOk result (λ _. (w : Budget) → budget.0 ≡ last_number w.last → budget.1 ≡ w.left
        → IsTold S.by is_free w successors.now found.old found.new index) }
    ensures width { found_width found.new ≡ found_width found.old }
{
    let event = successors.event(index);
    let Some((last, left)) = paid(is_free, budget.0, budget.1, system.process(event)) else {
        return Ok(());
    };
    row.clear();
    row.push(last)?;
    row.push(left)?;
    row.extend_from_slice(successors.row(index))?;
    found.push(event, row)
}

/// A system within a number of switches. Its rows have two numbers more, the first: of the process that made the last turn, one more than
/// its number, or 0; and how many switches are left.
#[derive(Drop)]
pub struct Switching<S: System> {
    alloc: Global,
    system: S,
    switches: u32,
    row: Vec<u32>,
}

impl<S: Preempted> Switching<S> {
    ghost use Rattle.state_space.specs.Switched.{IsSaid};
    ghost use Rattle.state_space.specs.Systems.{Stay};

    /// The system, from whose start so many switches may be made.
    pub fn new(alloc: Global, system: S, switches: u32) -> Switching<S>
        ensures { (result.system ≡ system) × (result.switches ≡ switches) }
    {
        Switching {
            alloc,
            system,
            switches,
            row: Vec::new(alloc),
        }
    }

    /// The system, once it is searched or its search was refused.
    pub fn into_system(self) -> S
        ensures { result ≡ self.system }
    {
        let Switching { system, .. } = self;
        system
    }

    /// Whether no process made the last turn, or one that waits.
    fn is_free(&mut self, row: &[u32], last: u32) -> Result<bool, Refused>
        requires known { (b : S.State) × S.stands self.old.system row.now b }
        ensures setting { S.setting self.new.system ≡ S.setting self.old.system }
        ensures switches { self.new.switches ≡ self.old.switches }
        ensures stays { Stay (S.stands self.old.system) (S.stands self.new.system) }
        ensures said { IfOk result (λ free. (w : Budget) (b : S.State) → last ≡ last_number w.last → S.stands self.old.system row.now b
            → IsSaid (Waits (S.rules (S.setting self.new.system)).steps S.turn S.most) free w b) }
    {
        if last == 0 {
            return Ok(true);
        }
        let Ok(process) = u8::try_from(last - 1) else {
            return Err(Refused::Numbers);
        };
        self.system.waits(row, process)
    }

    /// Adds the successors that can be paid.
    fn add_all(
        &mut self,
        budget: (u32, u32),
        is_free: bool,
        successors: &Successors,
        found: &mut Successors,
    ) -> Result<(), Refused>
        requires width { found_width found.old ≡ found_width successors.now + 2 }
        requires none { found_count found.old ≡ 0 }
        ensures listed { IfOk result (λ _. (w : Budget) → budget.0 ≡ last_number w.last → budget.1 ≡ w.left
            → AreListed S.by is_free w successors.now found.new (found_count successors.now)) }
        ensures width { found_width found.new ≡ found_width found.old }
        ensures same { (self.new.system ≡ self.old.system) × (self.new.switches ≡ self.old.switches) }
    {
        for index in 0..successors.count() {
            add(
                &self.system,
                budget,
                is_free,
                successors,
                index,
                &mut self.row,
                found,
            )?;
        }
        Ok(())
    }
}

impl<S: Preempted> System for Switching<S> {
    ghost use Rattle.std.specs.Prelude.{◌≡◌, ◌+◌, ℕ, List};
    ghost use Rattle.state_space.specs.Bounded.{Waits};
    ghost use Rattle.state_space.specs.Switched.{Switched, StandsWithin, within_rules};

    ghost State = { Switched S.State };

    ghost Setting = { S.Setting × ℕ };

    ghost setting = { λ s. (S.setting s.system, s.switches) };

    ghost rules = { λ s. within_rules (S.rules s.0) S.by (Waits (S.rules s.0).steps S.turn S.most) s.1 };

    ghost width = { λ s. S.width s.0 + 2 };

    ghost stands = { λ s. StandsWithin (S.stands s.system) };

    fn start(&mut self) -> Result<Vec<u32>, Refused> {
        let mut row = self.system.start()?;
        put_first(0, self.switches, &mut row)?;
        Ok(row)
    }

    #[tactic(auto, using(crate::proofs::Priced::stays_on, crate::proofs::Priced::stays_within))]
    fn expand(&mut self, row: &[u32], found: &mut Successors) -> Result<Expansion, Refused> {
        let budget = (row[0], row[1]);
        let is_free = self.is_free(&row[2..], budget.0)?;
        let mut successors = Successors::new(self.alloc, found.width() - 2);
        match self.system.expand(&row[2..], &mut successors)? {
            Expansion::Halts => Ok(Expansion::Halts),
            said => {
                self.add_all(budget, is_free, &successors, found)?;
                Ok(said)
            }
        }
    }

    fn goes(&self, event: u8) -> bool {
        self.system.goes(event)
    }

    fn bytes(&self) -> u64 {
        self.system.bytes()
    }
}

impl<S: Preempted + Carries> Carries for Switching<S> {
    ghost use Rattle.std.proofs.Common.{ℕ, ap};
    ghost use Rattle.state_space.specs.Switched.{within_inner};

    type Memo = S::Memo;

    ghost knows = { λ from to memo. S.knows from.system to.system memo };

    ghost knows_on = { λ from to later after memo first other stays grows knows.
        S.knows_on from.system to.system later.system after.system memo
        (ap (λ (t : S.Setting × ℕ). t.0) first) (ap (λ (t : S.Setting × ℕ). t.0) other)
        (within_inner (S.stands from.system) (S.stands later.system) stays)
        (within_inner (S.stands to.system) (S.stands after.system) grows) knows };

    fn another(&self) -> Result<Self, Refused> {
        Ok(Switching::new(self.alloc, self.system.another()?, self.switches))
    }

    fn memo(&self) -> S::Memo {
        self.system.memo()
    }

    fn find(
        &self,
        from: &Self,
        memo: &S::Memo,
        row: &[u32],
        out: &mut Vec<u32>,
    ) -> Result<bool, Refused> {
        if !self.system.find(&from.system, memo, &row[2..], out)? {
            return Ok(false);
        }
        put_first(row[0], row[1], out)?;
        Ok(true)
    }

    fn carry(
        &mut self,
        from: &Self,
        memo: &mut S::Memo,
        row: &[u32],
        out: &mut Vec<u32>,
    ) -> Result<(), Refused> {
        self.system.carry(&from.system, memo, &row[2..], out)?;
        put_first(row[0], row[1], out)?;
        Ok(())
    }
}
