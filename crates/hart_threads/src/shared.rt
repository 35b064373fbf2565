//! What the threads of a board's harts share, and what each has of its own.

ghost use Rattle.std.specs.Prelude.{◌≡◌};

use crate::bus_turns::BusPart;
use crate::buses::SharedBus;
use crate::closing::{Closing, HaltReason};
use crate::over::LastReceipt;
use crate::shared_store::SharedStore;
use crate::threaded::Threaded;
use board_model::{Entry, Shape};
use disk::Disk;
use sbi::Word;
use sbi_calls::{Seats, Tables};
use std::alloc::AllocError;
use std::sync::Mutex;
use store::Saving;
use susp::Doze;
use tallies::{BookPart, Journal};

/// A board as the threads of its harts share it: the two tables, whose words change in single steps, the bus and the
/// store, each behind its lock, what ends the loops of all harts and why it did, and what an image is written with.
pub struct SharedBoard<'a, 'c, D: Disk + Drop, J: Threaded, C> {
    pub saving: Saving<'a, C>,
    pub tables: &'a Tables,
    pub shape: &'a Shape,
    pub bus: &'a Mutex<SharedBus<J>>,
    pub store: &'a Mutex<SharedStore<D, J>>,
    pub closing: &'c Closing<J>,
    pub reason: &'a Mutex<HaltReason<'c, J>>,
}

impl<'a, 'c, D: Disk + Drop, J: Threaded, C> Copy for SharedBoard<'a, 'c, D, J, C> {}

impl<'a, 'c, D: Disk + Drop, J: Threaded, C> Clone for SharedBoard<'a, 'c, D, J, C> {
    fn clone(&self) -> Result<SharedBoard<'a, 'c, D, J, C>, AllocError> {
        Ok(*self)
    }
}

impl<'a, 'c, D: Disk + Drop, J: Threaded, C> SharedBoard<'a, 'c, D, J, C> {
    /// What the loop of a hart has of it.
    pub(crate) fn of_loop(self) -> LoopBoard<'a, 'c, J, C>
        ensures tables { result.tables.now ≡ self.entry.tables.now }
        ensures shape { result.shape.now ≡ self.entry.shape.now }
    {
        LoopBoard {
            saving: self.saving,
            tables: self.tables,
            shape: self.shape,
            closing: self.closing,
            reason: self.reason,
        }
    }
}

/// A shared board as the loop of a hart has it: without its locks, which the loop reaches by its `Locks` alone.
pub struct LoopBoard<'a, 'c, J: Threaded, C> {
    pub saving: Saving<'a, C>,
    pub tables: &'a Tables,
    pub shape: &'a Shape,
    pub closing: &'c Closing<J>,
    pub reason: &'a Mutex<HaltReason<'c, J>>,
}

impl<'a, 'c, J: Threaded, C> Copy for LoopBoard<'a, 'c, J, C> {}

impl<'a, 'c, J: Threaded, C> Clone for LoopBoard<'a, 'c, J, C> {
    fn clone(&self) -> Result<LoopBoard<'a, 'c, J, C>, AllocError> {
        Ok(*self)
    }
}

/// What a hart has on its thread beside its registers, from one turn to the next.
#[derive(Drop)]
pub struct HartLocal<J: Journal> {
    /// The seats by which it acts.
    pub seats: Seats,
    /// Its own copy of its doze, where the board dozes by it.
    pub doze: Option<Doze>,
    /// Its part of the journal's receipts.
    pub part: BookPart<J, Entry>,
    /// Its part of the history of the bus.
    pub run: BusPart<J>,
}

/// What the loop of a hart has of the books of its life: its part of the receipts, and of the history of the bus.
#[derive(Drop)]
pub struct HartParts<J: Journal> {
    pub receipts: BookPart<J, Entry>,
    pub run: BusPart<J>,
}

/// What a turn of a hart came to.
#[derive(Drop)]
pub(crate) struct TurnEnd<J: Threaded> {
    /// What the hart then has beside its registers.
    pub(crate) local: HartLocal<J>,
    pub(crate) word: Word,
    /// The receipt of the command with which the turn ended the life.
    pub(crate) told: Option<LastReceipt<J>>,
}
