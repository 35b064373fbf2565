//! The rows that a search found, with the steps between them.

ghost use Rattle.std.specs.Prelude.{◌≡◌, ◌≢◌, ◌<◌, ◌+◌, ◌≤◌, ◌-◌, ℕ, length, IfOk, IfSome, OnOk, slice_index, slice_index_or, slice_range, true, false};
ghost use Rattle.std.specs.Vec.{vec_len};
ghost use Rattle.state_space.specs.Carried.{NOWHERE};

use crate::found::Successors;
use crate::refusal::Refused;
use crate::rows::Rows;
use std::alloc::Global;

/// The rows found, in the order in which they were, and the steps from those that are expanded, which are the first ones.
#[derive(Drop)]
pub struct Graph {
    rows: Rows,
    /// Of each expanded row, up to which step its own are.
    ends_at: Vec<u32>,
    /// Where each step leads to, and by which event.
    targets: Vec<u32>,
    events: Vec<u8>,
    /// Of each expanded row, whether its state is at an end.
    is_end: Vec<bool>,
}

/// The number of no row.
pub(crate) const NO_ROW: u32 = u32::MAX;

/// The number in that place, where there is one, else the number of no row.
#[inline]
fn known_at(numbers: &[u32], place: usize) -> u32
    ensures { result ≢ NOWHERE → (place < length numbers.now) × (slice_index numbers.now place ≡ result) }
{
    if place < numbers.len() {
        numbers[place]
    } else {
        NO_ROW
    }
}

impl Graph {
    ghost use Rattle.state_space.specs.Graphs.{count_of, expanded_of, row_at, first_step, end_step, target_of, event_of, IsWhole, IsAdded};
    ghost use Rattle.state_space.specs.Carried.{AreTargets, IsTarget};
    ghost use Rattle.state_space.specs.Growing.{IsStepAdded, IsGrowing};
    ghost use Rattle.state_space.specs.Numbered.{row_width};
    ghost use Rattle.state_space.specs.Pools.{IsPut, Stay};
    ghost use Rattle.state_space.specs.Successors.{found_count, found_width};

    /// The start alone.
    pub(crate) fn new(alloc: Global, start: &[u32]) -> Result<Graph, Refused>
        ensures one { IfOk result (λ graph. count_of graph ≡ 1) }
        ensures start { IfOk result (λ graph. row_at graph 0 ≡ start.now) }
        ensures none { IfOk result (λ graph. expanded_of graph ≡ 0) }
        ensures whole { IfOk result IsWhole }
        ensures width { IfOk result (λ graph. row_width graph.rows ≡ length start.now) }
    {
        let mut rows = Rows::new(alloc, start.len())?;
        rows.put(start)?;
        Ok(Graph {
            rows,
            ends_at: Vec::new(alloc),
            targets: Vec::new(alloc),
            events: Vec::new(alloc),
            is_end: Vec::new(alloc),
        })
    }

    /// How many rows were found.
    #[inline]
    pub fn count(&self) -> usize
        ensures { result ≡ count_of self.now }
    {
        self.rows.count()
    }

    /// How many of them are expanded, which are the first ones.
    #[inline]
    pub fn expanded(&self) -> usize
        ensures { result ≡ expanded_of self.now }
    {
        self.ends_at.len()
    }

    /// How many steps there are between them.
    pub fn steps(&self) -> usize
        ensures { result ≡ length self.now.targets.items }
    {
        self.targets.len()
    }

    /// A row.
    #[inline]
    pub fn row(&self, number: usize) -> &[u32]
        requires { number < count_of self.now }
        ensures row { result.now ≡ row_at self.now number }
        ensures width { length result.now ≡ row_width self.now.rows }
    {
        self.rows.get(number)
    }

    /// The number of a row, where it is found.
    #[inline]
    pub(crate) fn find(&self, row: &[u32]) -> Option<usize>
        ensures within { IfSome result (λ n. n < count_of self.now) }
        ensures is { IfSome result (λ n. row_at self.now n ≡ row.now) }
    {
        self.rows.find(row)
    }

    /// Whether the state of an expanded row is at an end.
    #[inline]
    pub fn is_end(&self, number: usize) -> bool
        requires expanded { number < expanded_of self.now }
        requires whole { IsWhole self.now }
        ensures { result ≡ slice_index_or self.now.is_end.items number false }
    {
        self.is_end[number]
    }

    /// How much memory all this takes, in bytes.
    pub fn bytes(&self) -> u64 {
        let words = (self.targets.capacity() as u64).saturating_add(self.ends_at.capacity() as u64);
        let marks = (self.events.capacity() as u64).saturating_add(self.is_end.capacity() as u64);
        self.rows
            .bytes()
            .saturating_add(words.saturating_mul(4))
            .saturating_add(marks)
    }

    /// The first step of an expanded row, counted from 0 over all rows.
    #[inline]
    pub fn first_step(&self, number: usize) -> usize
        requires { number < expanded_of self.now }
        ensures { result ≡ first_step self.now number }
    {
        if number == 0 {
            0
        } else {
            self.ends_at[number - 1] as usize
        }
    }

    /// The step after the last one of an expanded row.
    #[inline]
    pub fn end_step(&self, number: usize) -> usize
        requires { number < expanded_of self.now }
        ensures { result ≡ end_step self.now number }
    {
        self.ends_at[number] as usize
    }

    /// The row that a step leads to.
    #[inline]
    pub fn target(&self, step: usize) -> usize
        requires { step < length self.now.targets.items }
        ensures { result ≡ target_of self.now step }
    {
        self.targets[step] as usize
    }

    /// The event of a step.
    #[inline]
    pub fn event(&self, step: usize) -> u8
        requires { step < length self.now.events.items }
        ensures { result ≡ event_of self.now step }
    {
        self.events[step]
    }

    /// The number of a row, which is added where it is not known. At `Err` the graph is of no more use.
    #[inline]
    fn number_of(&mut self, row: &[u32], known: u32) -> Result<u32, Refused>
        requires width { length row.now ≡ row_width self.old.rows }
        requires known { known ≢ NOWHERE → IsTarget self.old row.now known }
        ensures put { IfOk result (IsPut (row_at self.old) (count_of self.old) (row_at self.new) (count_of self.new) row.now) }
        ensures stay { Stay (row_at self.old) (count_of self.old) (row_at self.new) }
        ensures width { row_width self.new.rows ≡ row_width self.old.rows }
        ensures steps { (self.new.targets.items ≡ self.old.targets.items) × (self.new.events.items ≡ self.old.events.items) }
        ensures ends { (self.new.ends_at.items ≡ self.old.ends_at.items) × (self.new.is_end.items ≡ self.old.is_end.items) }
    {
        if known != NO_ROW {
            return Ok(known);
        }
        Ok(self.rows.put(row)? as u32)
    }

    /// Adds a step to a row, which is new where its number is not known. At `Err` the graph is of no more use.
    #[inline]
    fn add_step(&mut self, event: u8, row: &[u32], known: u32) -> Result<(), Refused>
        requires width { length row.now ≡ row_width self.old.rows }
        requires known { known ≢ NOWHERE → IsTarget self.old row.now known }
        ensures { OnOk result (IsStepAdded self.old self.new event row.now) }
    {
        let target = self.number_of(row, known)?;
        self.targets.push(target)?;
        self.events.push(event)?;
        Ok(())
    }

    #[tactic(auto, using(crate::proofs::Growth::growing_more, crate::proofs::Growth::growing_none))]
    /// Adds the next row's steps. At `Err` the graph is of no more use.
    fn add_steps(&mut self, found: &Successors, numbers: &[u32]) -> Result<(), Refused>
        requires width { found_width found.now ≡ row_width self.old.rows }
        requires numbers { AreTargets self.old found.now numbers.now }
        ensures { OnOk result (IsGrowing self.old self.new found.now (found_count found.now)) }
    {
        for number in 0..found.count() {
            let known = known_at(numbers, number);
            self.add_step(found.event(number), found.row(number), known)?;
        }
        Ok(())
    }

    #[tactic(auto, using(crate::proofs::Growth::added, crate::proofs::Growth::whole_added))]
    /// Adds what the next row leads to. The numbers are of these rows, as far as they are known. At `Err` the graph is of no more use.
    pub(crate) fn add(
        &mut self,
        found: &Successors,
        numbers: &[u32],
        is_end: bool,
    ) -> Result<(), Refused>
        requires whole { IsWhole self.old }
        requires width { found_width found.now ≡ row_width self.old.rows }
        requires numbers { AreTargets self.old found.now numbers.now }
        ensures added { OnOk result (IsAdded self.old self.new found.now is_end) }
        ensures whole { OnOk result (IsWhole self.new) }
    {
        self.add_steps(found, numbers)?;
        let Ok(end) = u32::try_from(self.targets.len()) else {
            return Err(Refused::Numbers);
        };
        self.is_end.push(is_end)?;
        self.ends_at.push(end)?;
        Ok(())
    }
}
