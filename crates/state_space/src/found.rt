//! The successors of a row.

ghost use Rattle.std.specs.Prelude.{◌≡◌, ◌<◌, ◌+◌, ℕ, length, OnOk, OnErr};
ghost use Rattle.std.specs.Vec.{vec_len};

use crate::pools::Pool;
use crate::refusal::Refused;
use crate::row_pool::RowPool;
use std::alloc::Global;

/// The successors of a row, in the order of the events that lead to them.
#[derive(Drop)]
pub struct Successors {
    rows: RowPool,
    events: Vec<u8>,
    ghost one_each: { vec_len events ≡ rows.count },
}

impl Successors {
    ghost use Rattle.state_space.specs.Successors.{found_count, found_event, found_row, found_width};

    /// None yet, of rows of that width.
    pub fn new(alloc: Global, width: usize) -> Successors
        ensures none { found_count result ≡ 0 }
        ensures width { found_width result ≡ width }
    {
        Successors {
            rows: RowPool::new(alloc, width),
            events: Vec::new(alloc),
        }
    }

    /// How many numbers each row has.
    #[inline]
    pub fn width(&self) -> usize
        ensures { result ≡ found_width self.now }
    {
        self.rows.width()
    }

    /// Forgets all, and keeps the memory.
    #[inline]
    pub fn clear(&mut self)
        ensures none { found_count self.new ≡ 0 }
        ensures width { found_width self.new ≡ found_width self.old }
    {
        self.rows.clear();
        self.events.clear();
    }

    /// How many there are.
    #[inline]
    pub fn count(&self) -> usize
        ensures { result ≡ found_count self.now }
    {
        self.events.len()
    }

    /// The row of one.
    #[inline]
    pub fn row(&self, number: usize) -> &[u32]
        requires { number < found_count self.now }
        ensures row { result.now ≡ found_row self.now number }
        ensures width { length result.now ≡ found_width self.now }
    {
        self.rows.get(number)
    }

    /// The event of one.
    #[inline]
    pub fn event(&self, number: usize) -> u8
        requires { number < found_count self.now }
        ensures { result ≡ found_event self.now number }
    {
        self.events[number]
    }

    /// Adds the row that this event leads to. At `Err` all is as it was.
    #[inline]
    pub fn push(&mut self, event: u8, row: &[u32]) -> Result<(), Refused>
        requires { length row.now ≡ found_width self.old }
        ensures counted { OnOk result (found_count self.new ≡ found_count self.old + 1) }
        ensures event { OnOk result (found_event self.new (found_count self.old) ≡ event) }
        ensures row { OnOk result (found_row self.new (found_count self.old) ≡ row.now) }
        ensures events_stay { (k : ℕ) → k < found_count self.old → found_event self.new k ≡ found_event self.old k }
        ensures rows_stay { (k : ℕ) → k < found_count self.old → found_row self.new k ≡ found_row self.old k }
        ensures refused { OnErr result (found_count self.new ≡ found_count self.old) }
        ensures width { found_width self.new ≡ found_width self.old }
    {
        self.events.reserve(1)?;
        self.rows.push(row)?;
        if self.events.push(event).is_err() {
            unreachable!()
        }
        Ok(())
    }
}
