//! What ends the loops of all harts before they made their turns.

ghost use Rattle.std.specs.Prelude.{◌≡◌, ◌<◌, ◌+◌, ◌-◌, ◌^◌, ℕ, true, None, Some, IsTrue, MatchResult, is_none, is_some};
ghost use Rattle.hart_threads.specs.Locks.{no_locks};
ghost use Rattle.hart_threads.specs.declared.closing.AfterConsole.TheVariants as afters;
ghost use Rattle.tallies.specs.Halts.{watched};

use crate::locks::Locks;
use crate::over::{LastReceipt, LifeOver, OverWord};
use crate::threaded::Threaded;
use disk::Disk;
use std::marker::{Model, PhantomData};
use std::sync::{Mutex, OnceLock, OnceToken, Wait};
use tallies::{Halt, Watch};

/// What the harts do once the console has left.
#[derive(Clone, Copy, Drop)]
pub enum AfterConsole {
    /// They go on until they made their turns, or the life ends.
    RunOut,
    /// No further turn begins.
    Halt,
}

/// The console has halted the harts.
#[derive(Drop)]
pub struct Halted<'a, J: Threaded> {
    token: OnceToken<'a, AfterConsole>,
    of: PhantomData<J>,
}

impl<'a, J: Threaded> Model for Halted<'a, J> {
    ghost use Rattle.std.specs.Prelude.{◌≡◌};
    ghost use Rattle.hart_threads.specs.declared.closing.AfterConsole.{AfterConsole};
    ghost use Rattle.hart_threads.specs.declared.closing.AfterConsole.TheVariants.{Halt};

    ghost Value = { AfterConsole };

    ghost view = { λ h. h.token.value };

    ghost invariant = { λ h. (h.token.of ≡ J.parting) × (h.token.value ≡ Halt) };
}

impl<'a, J: Threaded> Halted<'a, J> {
    fn again(&self) -> Halted<'a, J>
        ensures { result ≡ self.now }
    {
        Halted {
            token: self.token.again(),
            of: PhantomData,
        }
    }
}

/// The halt of the life J was set: no look at it finds it unset from then on.
#[derive(Drop)]
pub struct HaltSet<J: Threaded> {
    watch: Watch,
    of: PhantomData<J>,
    ghost named: { watch.of ≡ J.halt },
    ghost set: { is_some watch.sum ≡ true },
}

/// What the console of the life J said when it left. Where it halted the harts the halt was set.
#[derive(Drop)]
pub struct Parted<'a, J: Threaded> {
    token: OnceToken<'a, AfterConsole>,
    set: Option<HaltSet<J>>,
    pub ghost named: { token.of ≡ J.parting },
    pub ghost halts: { (token.value ≡ afters.Halt → IsTrue (is_some set)) },
}

/// What ended a loop before it made its turns.
#[derive(Drop)]
pub enum Shut<'a, J: Threaded> {
    /// A hart ended the life.
    Life(LifeOver<J>),
    /// The console has left, and halted the harts.
    Console(Halted<'a, J>),
}

impl<'a, J: Threaded> Shut<'a, J> {
    fn again(&mut self, closing: &Closing<J>) -> Shut<'a, J>
        ensures same { self.new ≡ self.old }
        ensures again { result ≡ self.old }
    {
        match self {
            Shut::Life(over) => Shut::Life(closing.over.again(over)),
            Shut::Console(halted) => Shut::Console(halted.again()),
        }
    }
}

/// Why the halt of the life J was set, where it was, and the right to set it where it was not. It lies behind a lock. The halt is set only
/// together with its reason: so whoever finds it set finds here why.
#[derive(Drop)]
pub struct HaltReason<'c, J: Threaded> {
    closing: &'c Closing<J>,
    watch: Watch,
    why: Option<Shut<'c, J>>,
    pub ghost named: { watch.of ≡ J.halt },
    pub ghost right: { watch.may_set ≡ is_none why },
    pub ghost set: { is_some watch.sum ≡ is_some why },
}

impl<'c, J: Threaded> HaltReason<'c, J> {
    /// What closes that life.
    pub fn closing(&self) -> &'c Closing<J> {
        self.closing
    }

    /// Why the halt was set, for one who found it set.
    fn found(&mut self, watch: &mut Watch) -> Shut<'c, J>
        requires watch { watch.old.of ≡ J.halt }
        requires set { is_some watch.old.sum ≡ true }
        ensures same { watch.new ≡ watch.old }
        ensures why { self.old.why ≡ Some result }
    {
        match &mut self.why {
            Some(why) => why.again(self.closing),
            None => {
                self.closing.halt.compare(&mut self.watch, watch);
                unreachable!()
            }
        }
    }

    /// Sets the halt for that reason. Where it was set before, the first reason stands.
    fn set(&mut self, why: Shut<'c, J>) -> HaltSet<J>
        ensures first { self.old.why ≡ None → self.new.why ≡ Some why.entry }
        ensures stands { is_some self.old.why ≡ true → self.new.why ≡ self.old.why }
    {
        let halt = &self.closing.halt;
        match self.why {
            Some(_) => {}
            None => {
                self.why = Some(why);
                halt.set(&mut self.watch);
            }
        }
        HaltSet {
            watch: halt.known(&mut self.watch),
            of: PhantomData,
        }
    }
}

/// How often a loop asked whether it goes on, and it did. Only a look at the life's halt that found it unset counts here.
#[derive(Drop)]
pub struct HaltPolls<J: Threaded> {
    times: u64,
    watch: Watch,
    of: PhantomData<J>,
}

impl<J: Threaded> Model for HaltPolls<J> {
    ghost Value = { ℕ };

    ghost view = { λ a. a.times };

    ghost invariant = { λ a. (a.watch.of ≡ J.halt) × (a.watch.unset ≡ a.times) };
}

impl<J: Threaded> HaltPolls<J> {
    /// Not yet.
    pub(crate) fn none(closing: &Closing<J>) -> HaltPolls<J>
        ensures { result ≡ 0 }
    {
        HaltPolls {
            times: 0,
            watch: closing.halt.watch(),
            of: PhantomData,
        }
    }
}

/// The locks of a hart, one look of which found the halt unset: with it the hart may ask for its next turn. Only
/// `Closing::look` gives one, for the locks that the turn before gave back. So after each look there is one turn at most.
#[derive(Drop)]
pub(crate) struct Unhalted<'l, D: Disk + Drop, J: Threaded> {
    locks: Locks<'l, D, J>,
    ghost free: { locks ≡ no_locks },
}

impl<'l, D: Disk + Drop, J: Threaded> Unhalted<'l, D, J> {
    /// The locks, of which none is held.
    pub(crate) fn into_locks(self) -> Locks<'l, D, J>
        ensures { result ≡ no_locks }
    {
        self.locks
    }
}

/// What ends the loops of all harts: the halt, and the lock in which the console says once what the harts do when it has left. What the
/// loops look at is the halt. Why it was set lies behind a lock of its own (`HaltReason`). Beside them is the word by which the store
/// says that the life is over.
#[derive(Drop)]
pub struct Closing<J: Threaded> {
    console: OnceLock<AfterConsole>,
    halt: Halt,
    pub(crate) over: OverWord<J>,
    of: PhantomData<J>,
    pub ghost named: { console.id ≡ J.parting },
    pub ghost halts: { halt ≡ J.halt },
}

impl<J: Threaded> Closing<J> {
    /// Nothing was said yet. The lock is the console's, and nothing was written into it; neither word is set.
    pub fn new(console: OnceLock<AfterConsole>, halt: Halt, over: Halt) -> Closing<J>
        requires console { console.id ≡ J.parting }
        requires halt { halt ≡ J.halt }
        requires over { over ≡ J.over }
    {
        Closing {
            console,
            halt,
            over: OverWord::new(over),
            of: PhantomData,
        }
    }

    /// No reason yet: the halt is not set, and `first` may set it.
    pub fn reason<'c>(&'c self, first: Watch) -> HaltReason<'c, J>
        requires { first ≡ watched J.halt true 0 None }
    {
        HaltReason {
            closing: self,
            watch: first,
            why: None,
        }
    }

    /// One look before a turn, by a hart that holds no lock: what ends its loop now, or the right to ask for the turn. A look that
    /// finds the halt unset is counted, and only such a look gives that right. One that finds it set takes the lock of its reason.
    pub(crate) fn look<'c, 'l, R: Wait, D: Disk + Drop>(
        &self,
        rt: &R,
        reason: &Mutex<HaltReason<'c, J>>,
        asked: &mut HaltPolls<J>,
        locks: Locks<'l, D, J>,
    ) -> Result<Unhalted<'l, D, J>, Shut<'c, J>>
        requires few { asked.old < 2 ^ 64 - 1 }
        requires free { locks ≡ no_locks }
        ensures { MatchResult result (λ going. asked.new ≡ asked.old + 1) (λ shut. asked.new ≡ asked.old) }
    {
        if self.halt.is_set(&mut asked.watch) {
            return Err(reason.lock(rt).found(&mut asked.watch));
        }
        asked.times += 1;
        Ok(Unhalted { locks })
    }

    /// A loop ended with that receipt: where it ended the life the halt is set, and no further turn of any hart begins.
    pub(crate) fn end_by<'c, R: Wait>(
        &self,
        rt: &R,
        reason: &Mutex<HaltReason<'c, J>>,
        told: &mut Option<LastReceipt<J>>,
    ) -> Option<HaltSet<J>>
        ensures same { told.new ≡ told.old }
        ensures set { IsTrue (is_some told.old) → IsTrue (is_some result) }
    {
        match told {
            Some(told) => {
                let over = told.over(&self.over);
                Some(reason.lock(rt).set(Shut::Life(over)))
            }
            None => None,
        }
    }

    /// The harts are halted before the console was begun.
    pub(crate) fn halt<'c, R: Wait>(&'c self, rt: &R, reason: &Mutex<HaltReason<'c, J>>) {
        let token = match self.console.try_insert(rt, AfterConsole::Halt) {
            Ok(token) => token,
            Err((token, _said)) => token,
        };
        let _set = self.close_for(rt, reason, &token);
    }

    /// Sets the halt where the console halts the harts.
    fn close_for<'c, R: Wait>(
        &'c self,
        rt: &R,
        reason: &Mutex<HaltReason<'c, J>>,
        token: &OnceToken<'c, AfterConsole>,
    ) -> Option<HaltSet<J>>
        requires { token.now.of ≡ J.parting }
        ensures { token.now.value ≡ afters.Halt → IsTrue (is_some result) }
    {
        match *self.console.value(token) {
            AfterConsole::Halt => {
                let halted = Halted {
                    token: token.again(),
                    of: PhantomData,
                };
                Some(reason.lock(rt).set(Shut::Console(halted)))
            }
            AfterConsole::RunOut => None,
        }
    }

    /// The console has left, and the harts do this from now on. It says so once: a second call waits for ever.
    pub fn part<'c, R: Wait>(
        &'c self,
        rt: &R,
        reason: &Mutex<HaltReason<'c, J>>,
        parting: AfterConsole,
    ) -> Parted<'c, J>
        ensures { result.token.value ≡ parting }
    {
        match self.console.set(rt, parting) {
            Ok(token) => {
                let set = self.close_for(rt, reason, &token);
                Parted { token, set }
            }
            Err(_) => {
                for _ in rt.forever() {}
                unreachable!()
            }
        }
    }
}

/// The lock of the console holds one value.
pub(crate) fn agree<'a, J: Threaded>(halted: &Halted<'a, J>, parted: &Parted<'a, J>)
    ensures { parted.now.token.value ≡ afters.Halt }
{
    halted.token.agrees(&parted.token);
}
