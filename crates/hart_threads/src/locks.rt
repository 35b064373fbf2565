//! The locks of a bus and a store, as one thread takes them: the bus first.

ghost use Rattle.std.specs.Prelude.{◌≡◌, ℕ, List, true, false};
ghost use Rattle.hart.specs.Means.{Steps};
ghost use Rattle.hart_threads.specs.Bused.{StepsBus};
ghost use Rattle.hart_threads.specs.Locks.{Held, no_locks, with_bus, with_store};

use crate::bus_turns::BusPart;
use crate::buses::SharedBus;
use crate::shared_store::SharedStore;
use crate::threaded::Threaded;
use disk::Disk;
use hart::{Hart, Outcome};
use std::marker::{Brand, Model};
use std::sync::{Mutex, MutexGuard, Wait};
use tallies::Journal;

/// A bus and a store, each behind its lock, and which of the two locks their holder has. Each thread has one of these, made
/// where its work begins, and reaches neither lock otherwise. The bus is taken only by a holder of none, and the store at
/// most once: so no thread that holds the store waits for the bus, and none for a lock that it has itself.
#[derive(Drop)]
pub struct Locks<'a, D: Disk + Drop, J: Threaded> {
    bus: &'a Mutex<SharedBus<J>>,
    store: &'a Mutex<SharedStore<D, J>>,
    has_bus: bool,
    has_store: bool,
}

impl<'a, D: Disk + Drop, J: Threaded> Model for Locks<'a, D, J> {
    ghost Value = { Held };

    ghost view = { λ l. record { bus = l.has_bus; store = l.has_store } };
}

impl<'a, D: Disk + Drop, J: Threaded> Locks<'a, D, J> {
    /// For a thread that holds neither.
    pub fn new(bus: &'a Mutex<SharedBus<J>>, store: &'a Mutex<SharedStore<D, J>>) -> Locks<'a, D, J>
        ensures { result ≡ no_locks }
    {
        Locks {
            bus,
            store,
            has_bus: false,
            has_store: false,
        }
    }

    /// Takes the bus, and waits for it; neither is held.
    #[inline(always)]
    pub fn take_bus<R: Wait>(&mut self, rt: &R) -> MutexGuard<'a, SharedBus<J>>
        requires { self.old ≡ no_locks }
        ensures { self.new ≡ with_bus true self.old }
    {
        self.has_bus = true;
        self.bus.lock(rt)
    }

    /// Gives the bus back.
    #[inline(always)]
    pub fn give_bus(&mut self, bus: MutexGuard<'a, SharedBus<J>>)
        ensures { self.new ≡ with_bus false self.old }
    {
        drop(bus);
        self.has_bus = false;
    }

    /// Takes the store, and waits for it; it is not held.
    pub fn take_store<R: Wait>(&mut self, rt: &R) -> MutexGuard<'a, SharedStore<D, J>>
        requires { self.old.store ≡ false }
        ensures { self.new ≡ with_store true self.old }
    {
        self.has_store = true;
        self.store.lock(rt)
    }

    /// Gives the store back.
    pub fn give_store(&mut self, store: MutexGuard<'a, SharedStore<D, J>>)
        ensures { self.new ≡ with_store false self.old }
    {
        drop(store);
        self.has_store = false;
    }

    /// The lock of the bus apart, for steps of a hart, by a holder of none. Until it is back no other lock is taken.
    #[inline(always)]
    pub fn apart(self) -> (BusLock<'a, J>, Apart<'a, D, J>)
        requires { self ≡ no_locks }
    {
        let Locks {
            bus,
            store,
            has_bus: _,
            has_store: _,
        } = self;
        (BusLock { bus }, Apart { store })
    }
}

/// The lock of a bus, for one step of a hart after another.
#[derive(Drop)]
pub struct BusLock<'a, J: Journal> {
    bus: &'a Mutex<SharedBus<J>>,
}

impl<'a, J: Journal> BusLock<'a, J> {
    /// One step of the hart, as `SharedBus::step`, in one hold of the bus.
    #[inline(always)]
    pub fn step<R: Wait>(
        &mut self,
        rt: &R,
        hart: &mut Hart,
        pending: bool,
        part: BusPart<J>,
    ) -> (Outcome, BusPart<J>)
        ensures { (found : List ℕ) × (left : List ℕ) × StepsBus part result.1 found left
            × Steps pending hart.old found hart.new left result.0 }
    {
        let mut bus = self.bus.lock(rt);
        bus.step::<Brand>(hart, pending, part)
    }
}

/// What is left of a thread's locks meanwhile: nothing is taken with it.
#[derive(Drop)]
pub struct Apart<'a, D: Disk + Drop, J: Threaded> {
    store: &'a Mutex<SharedStore<D, J>>,
}

impl<'a, D: Disk + Drop, J: Threaded> Apart<'a, D, J> {
    /// The lock of the bus is back.
    #[inline(always)]
    pub fn whole(self, bus: BusLock<'a, J>) -> Locks<'a, D, J>
        ensures { result ≡ no_locks }
    {
        let BusLock { bus } = bus;
        Locks::new(bus, self.store)
    }
}
