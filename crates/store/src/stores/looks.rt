//! What a store tells of its life.
ghost use Rattle.std.specs.Prelude.{◌≡◌, ◌≤◌, ◌<◌, ◌-◌, ◌⊎◌, ℕ, List, get_or, None, IfSome, MatchOption};
ghost use Rattle.board_model.specs.Views.{change_in};

use super::Store;
use board_model::{Durable, Entry, Shape};
use disk::Disk;

impl<D: Disk + Drop> Store<D> {
    ghost use Rattle.board_model.specs.Views.{durable_of};
    ghost use Rattle.store.specs.Views.{size_of_store, found_state, journal_of, now_state, receipts, doubt_of};

    /// The shape of the board that the disk was formatted for.
    pub fn shape(&self) -> Shape
        ensures { result ≡ size_of_store self.now }
    {
        self.shape
    }

    /// The durable state that the open found.
    pub fn found(&self) -> Durable
        ensures { result ≡ durable_of (found_state self.now) }
    {
        self.opened.durable()
    }

    /// The durable state now: what was found and the journal, without a command in doubt.
    pub fn now(&self) -> Durable
        ensures { result ≡ durable_of (now_state self.now) }
    {
        self.current.durable()
    }

    /// The command of this life that is in doubt, a suspension without its memory; none where the store is up.
    pub fn in_doubt(&self) -> Option<Entry>
        ensures { MatchOption result (doubt_of self.now ≡ None) (λ e. (memory : List ℕ)
            × (doubt_of self.now ≡ Some (change_in e memory))) }
    {
        let doubt = self.doubt?;
        Some(doubt.entry)
    }

    /// The entry of this life's journal at that place, from 1 as receipts count; none past its end.
    pub fn entry(&self, number: u64) -> Option<Entry>
        ensures some { IfSome result (λ e. (1 ≤ number) × (number ≤ receipts self.now)
            × ((memory : List ℕ)
            × (get_or (journal_of self.now) (number - 1) (change_in e memory) ≡ change_in e memory))) }
        ensures none { result ≡ None → (number ≡ 0) ⊎ (receipts self.now < number) }
    {
        if number == 0 {
            return None;
        }
        if (self.journal.len() as u64) < number {
            return None;
        }
        Some(self.journal.entry(number as usize - 1))
    }
}
