//! The journal of a life: the commands that were acknowledged.
ghost use Rattle.std.specs.Prelude.{◌≡◌, ◌≤◌, ◌<◌, ◌++◌, ◌∷◌, [], length, get_or, true, vec_capacity, IfOk};
ghost use Rattle.store.specs.Entries.{are_plain};
ghost use Rattle.store.specs.Journals.{FitsKept, FitsJournal, command_in};

use crate::saving::Resumption;
use board_model::{Command, Entry, MAX_COMMANDS, Reason};
use std::alloc::{AllocError, Global};
use std::marker::Model;

/// A command that was acknowledged, in 3 bytes: its numbers are a slot and a number of boots, which the table of commands found in their
/// ranges.
#[derive(Clone, Copy, Drop)]
pub enum Kept {
    Slot(u8),
    Reset(Reason),
    Consume,
    Discard,
    Tries(u8, u8),
    Good,
    Attempt,
}

/// The entries of a life's journal, which contracts see as their list, in room for as many as a life takes. Only the last can be a
/// suspension, since that ends the life.
#[derive(Drop)]
pub struct Journal {
    commands: Vec<Kept>,
    suspended: Option<Resumption>,
}

impl Model for Journal {
    ghost use Rattle.std.specs.Prelude.{◌≡◌, List, vec_capacity};
    ghost use Rattle.board_model.specs.declared.durable.Entry.{Entry};
    ghost use Rattle.store.specs.Journals.{entries_in};

    ghost Value = { List Entry };

    ghost view = { λ j. entries_in j.commands.items j.suspended };

    ghost invariant = { λ j. vec_capacity j.commands ≡ 4096 };
}

/// How a command is kept.
fn packed(command: Command) -> Kept
    requires { FitsKept command }
    ensures { command_in result ≡ command }
{
    match command {
        Command::Slot(number) => Kept::Slot(number as u8),
        Command::Reset(reason) => Kept::Reset(reason),
        Command::Consume => Kept::Consume,
        Command::Discard => Kept::Discard,
        Command::Tries(number, boots) => Kept::Tries(number as u8, boots as u8),
        Command::Good => Kept::Good,
        Command::Attempt => Kept::Attempt,
    }
}

/// The command that is kept so.
fn command_of(one: Kept) -> Command
    ensures { result ≡ command_in one }
{
    match one {
        Kept::Slot(number) => Command::Slot(u32::from(number)),
        Kept::Reset(reason) => Command::Reset(reason),
        Kept::Consume => Command::Consume,
        Kept::Discard => Command::Discard,
        Kept::Tries(number, boots) => Command::Tries(u32::from(number), u32::from(boots)),
        Kept::Good => Command::Good,
        Kept::Attempt => Command::Attempt,
    }
}

/// A copy of these commands, with room for as many as a journal may have.
fn copy_commands(alloc: Global, commands: &[Kept]) -> Result<Vec<Kept>, AllocError>
    requires { length commands.now ≤ 4096 }
    ensures items { IfOk result (λ copies. copies.items ≡ commands.now) }
    ensures room { IfOk result (λ copies. vec_capacity copies ≡ 4096) }
{
    let mut copies = Vec::with_capacity(alloc, MAX_COMMANDS)?;
    for command in commands {
        copies.push_reserved(*command);
    }
    Ok(copies)
}

impl Journal {
    /// The journal of a life that begins.
    pub fn new(alloc: Global) -> Result<Journal, AllocError>
        ensures { IfOk result (λ journal. journal ≡ []) }
    {
        Ok(Journal {
            commands: Vec::with_capacity(alloc, MAX_COMMANDS)?,
            suspended: None,
        })
    }

    /// How many entries it has.
    pub fn len(&self) -> usize
        ensures { result ≡ length self.now }
    {
        let commands = self.commands.len();
        match self.suspended {
            None => commands,
            Some(_) => commands + 1,
        }
    }

    /// The entry at that place, from 0.
    pub fn entry(&self, place: usize) -> Entry
        requires { place < length self.now }
        ensures { result ≡ get_or self.now place result }
    {
        if place < self.commands.len() {
            return Entry::Command(command_of(self.commands[place]));
        }
        match self.suspended {
            Some(at) => Entry::Suspend(at.hart, at.address, at.opaque),
            None => unreachable!(),
        }
    }

    /// Adds an entry that the table of commands took, in a life that goes on.
    pub fn push(&mut self, entry: Entry)
        requires room { length self.old < 4096 }
        requires plain { are_plain self.old ≡ true }
        requires fits { FitsJournal entry }
        ensures { self.new ≡ self.old ++ entry ∷ [] }
    {
        match entry {
            Entry::Command(command) => self.commands.push_reserved(packed(command)),
            Entry::Suspend(hart, address, opaque) => {
                self.suspended = Some(Resumption {
                    hart,
                    address,
                    opaque,
                });
            }
        }
    }

    /// A copy, in memory of its own.
    pub fn copy(&self, alloc: Global) -> Result<Journal, AllocError>
        ensures { IfOk result (λ copy. copy ≡ self.now) }
    {
        Ok(Journal {
            commands: copy_commands(alloc, &self.commands)?,
            suspended: self.suspended,
        })
    }
}
