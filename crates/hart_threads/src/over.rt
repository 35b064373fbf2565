//! The word that says that a life is over, and those who know it set.

ghost use Rattle.std.specs.Prelude.{◌≡◌, true, None, IfSome, is_some};
ghost use Rattle.hart_threads.specs.Threads.{is_end};

use crate::receipts::CommandReceipt;
use crate::threaded::Threaded;
use board_model::Entry;
use std::marker::{Model, PhantomData};
use tallies::{Halt, Watch};

/// A command has ended the life J, and its store said so by the word. A contract sees no more.
#[derive(Drop)]
pub struct LifeOver<J: Threaded> {
    watch: Watch,
    of: PhantomData<J>,
}

impl<J: Threaded> Model for LifeOver<J> {
    ghost use Rattle.std.specs.Prelude.{◌≡◌, true, is_some};

    ghost Value = { Unit {0} };

    ghost view = { λ o. tt };

    ghost invariant = { λ o. (o.watch.of ≡ J.over) × (is_some o.watch.sum ≡ true) };
}

/// The word that says that the life J is over. The one watch that may set it lies with the store of that life, under its lock, until a
/// command ends the life.
#[derive(Drop)]
pub struct OverWord<J: Threaded> {
    word: Halt,
    of: PhantomData<J>,
    ghost named: { word ≡ J.over },
}

impl<J: Threaded> OverWord<J> {
    /// That word.
    pub(crate) fn new(word: Halt) -> OverWord<J>
        requires { word ≡ J.over }
    {
        OverWord {
            word,
            of: PhantomData,
        }
    }

    /// A command ended the life, and the watch that may set the word does, and is used up.
    pub(crate) fn set(&self, ender: Watch) -> LifeOver<J>
        requires { (ender.of ≡ J.over) × (ender.may_set ≡ true) }
    {
        let mut watch = ender;
        self.word.set(&mut watch);
        LifeOver {
            watch,
            of: PhantomData,
        }
    }

    /// Another one who knows it.
    pub(crate) fn again(&self, over: &mut LifeOver<J>) -> LifeOver<J>
        ensures { over.new ≡ over.old }
    {
        LifeOver {
            watch: self.word.known(&mut over.watch),
            of: PhantomData,
        }
    }

    /// Where one knows that the life is over, the watch that may set the word was used up.
    pub(crate) fn is_used(&self, ender: &mut Option<Watch>, over: LifeOver<J>)
        requires { IfSome ender.old (λ w. (w.of ≡ J.over) × (w.may_set ≡ true)) }
        ensures { (ender.old ≡ None) × (ender.new ≡ None) }
    {
        let mut over = over;
        if let Some(ender) = ender {
            self.word.compare(ender, &mut over.watch);
            unreachable!()
        }
    }
}

/// The receipt of the command with which a hart ended the life J. Only the store that issued it makes one.
#[derive(Drop)]
pub struct LastReceipt<J: Threaded> {
    receipt: CommandReceipt<J>,
    over: LifeOver<J>,
}

impl<J: Threaded> Model for LastReceipt<J> {
    ghost use Rattle.std.specs.Prelude.{◌≡◌, ℕ, true};
    ghost use Rattle.board_model.specs.declared.durable.Entry.{Entry};
    ghost use Rattle.hart_threads.specs.Threads.{is_end};

    ghost Value = { ℕ × Entry };

    ghost view = { λ l. l.receipt };

    ghost invariant = { λ l. is_end l.receipt.1 ≡ true };
}

impl<J: Threaded> LastReceipt<J> {
    /// That receipt, of a life that is over.
    pub(crate) fn new(receipt: CommandReceipt<J>, over: LifeOver<J>) -> LastReceipt<J>
        requires { is_end receipt.1 ≡ true }
        ensures { result ≡ receipt }
    {
        LastReceipt { receipt, over }
    }

    /// What another loop is told of it: the life is over.
    pub(crate) fn over(&mut self, word: &OverWord<J>) -> LifeOver<J>
        ensures { self.new ≡ self.old }
    {
        word.again(&mut self.over)
    }

    /// The place of the command in the journal, from 1.
    pub fn number(&self) -> u32
        ensures { result ≡ self.now.0 }
    {
        self.receipt.number()
    }

    /// The command.
    pub fn entry(&self) -> Entry
        ensures { result ≡ self.now.1 }
    {
        self.receipt.entry()
    }
}
