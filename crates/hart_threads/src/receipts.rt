//! What a named store acknowledged.

ghost use Rattle.std.specs.Prelude.{◌≡◌, ℕ};
ghost use Rattle.board_model.specs.declared.durable.Entry.{Entry};
ghost use Rattle.hart_threads.specs.Legal.{IsToldOf};

use board_model::Entry;
use std::marker::{Model, PhantomData};
use tallies::Journal;

/// The receipt of a command that a store of the life J acknowledged: its place, and the command. Only a store
/// of that life makes one.
#[derive(Drop)]
pub struct CommandReceipt<J: Journal> {
    number: u32,
    entry: Entry,
    of: PhantomData<J>,
}

impl<J: Journal> Model for CommandReceipt<J> {
    ghost Value = { ℕ × Entry };

    ghost view = { λ t. (t.number, t.entry) };

    ghost invariant = { λ t. IsToldOf J.found t.number t.entry };
}

impl<J: Journal> CommandReceipt<J> {
    /// The receipt of that place.
    pub(crate) fn new(number: u32, entry: Entry) -> CommandReceipt<J>
        requires { IsToldOf J.found number entry }
        ensures { result ≡ (number, entry) }
    {
        CommandReceipt {
            number,
            entry,
            of: PhantomData,
        }
    }

    /// The place, from 1.
    pub fn number(&self) -> u32
        ensures { result ≡ self.now.0 }
    {
        self.number
    }

    /// The command.
    pub fn entry(&self) -> Entry
        ensures { result ≡ self.now.1 }
    {
        self.entry
    }

    /// Some commands that the table takes, one after another from what this life found, have this one at
    /// this place.
    pub fn stands(&self)
        ensures { IsToldOf J.found self.now.0 self.now.1 }
    {
        let _ = &self.number;
    }
}
