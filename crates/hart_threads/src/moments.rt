//! When the receipts of a life were made. It takes no memory, and nothing is done for it at run time.
ghost use Rattle.std.specs.Prelude.{◌≡◌, ◌++◌, ℕ, List, [], ◌∷◌};
ghost use Rattle.std.specs.Borrow.{ftrue};
ghost use Rattle.store.specs.Views.{disk_of};

use disk::Disk;
use std::marker::{Model, PhantomData};
use store::Store;

/// The moments of a store's disk at which it made its receipts, in their order, after that at which its boot was over. Nothing
/// adds one but a shared store, as it makes a receipt.
#[derive(Drop)]
pub struct Moments {
    marker: PhantomData<u8>,
    pub ghost at: { List ℕ },
}

impl Model for Moments {
    ghost also_owns = { λ _. ftrue };
}

// It holds no data, so it may go to any thread, and any threads may share it.
unsafe impl Send for Moments {}

unsafe impl Sync for Moments {}

impl Moments {
    /// None: no boot was over.
    pub fn none() -> Moments
        ensures { result.at ≡ [] }
    {
        Moments::picked(&())
    }

    /// The moment of that store alone, as its boot is over.
    pub fn first<D: Disk + Drop>(store: &Store<D>) -> Moments
        ensures { result.at ≡ (disk_of store.now).moment ∷ [] }
    {
        Moments::picked(store)
    }

    /// One more.
    pub(crate) fn add<D: Disk + Drop>(&mut self, store: &Store<D>)
        ensures { self.new.at ≡ self.old.at ++ (disk_of store.now).moment ∷ [] }
    {
        let now = Moments::first(store);
        *self = Moments::picked(&(&*self, &now));
    }

    /// All that the caller's proof picks, from the values that are passed. No other function makes the struct.
    fn picked<T>(_values: &T) -> Moments
        ghost picked: { List ℕ }
        ensures { result.at ≡ picked }
    {
        Moments {
            marker: PhantomData,
        }
    }
}
