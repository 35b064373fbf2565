//! An open store: what is kept of one life from one command to the next.
ghost use Rattle.std.specs.Prelude.{◌≡◌, ◌-◌, ◌^◌, ◌<◌, ◌⊎◌, Err, IfOk, IfErr, OnOk, true, false};
ghost use Rattle.board_model.specs.Views.{change_of};
ghost use Rattle.disk.specs.Facts.{Content};
ghost use Rattle.layout.specs.Records.{durable_in};
ghost use Rattle.planned_store.specs.Stores.{begun, state_now, Holds, Told, Asked, PlansCommand, receipt_of, store_after};

use crate::commits::{Commit, CommitStep, Selected};
use crate::plans::Plan;
use crate::runs::run;
use board_model::{Command, Durable, Entry, Refusal};
use disk::Disk;
use store::record_after;

/// An open store, over a disk that nobody else writes: what is selected there, and the receipts of this life.
#[derive(Clone, Copy, Drop)]
pub struct OpenStore {
    pub selected: Selected,
    /// How many commands of this life were acknowledged.
    pub receipts: u64,
    /// A reset has ended the life.
    pub over: bool,
    /// A command is in doubt until the next open.
    pub down: bool,
}

impl OpenStore {
    /// The store that an open makes.
    pub(crate) fn begun(selected: Selected) -> OpenStore
        ensures { result ≡ begun selected }
    {
        OpenStore {
            selected,
            receipts: 0,
            over: false,
            down: false,
        }
    }

    /// The durable state now, without a command in doubt.
    pub fn now(&self) -> Durable
        ensures { result ≡ durable_in self.now.selected.live }
    {
        self.selected.live.durable()
    }

    /// The plan of that command, where it may go to the disk. Refused `Down` where an earlier command of this life is in
    /// doubt; `Over` after a reset; `JournalFull` after 2^64 - 1 commands; `BadSlot`, `NoImage`, `BadTries` and `NoTrial`
    /// by docs/DURABLE.md.
    pub fn plan(&self, command: Command) -> Result<Plan, Refusal>
        ensures ok { IfOk result (λ plan. PlansCommand self.now command plan) }
        ensures up { OnOk result (self.now.down ≡ false) }
        ensures refused { IfErr result (λ e. self.now.down ≡ false → (c : Content)
            → Told self.now (state_now self.now c) (change_of command) (Err e) self.now (state_now self.now c)) }
        ensures others { IfErr result
            (λ e. self.now.down ≡ false → (e ≡ Refusal.Device → ⊥) × (e ≡ Refusal.Down → ⊥)) }
        ensures down { self.now.down ≡ true → result ≡ Err Refusal.Down }
    {
        self.takes()?;
        let next = record_after(&self.selected.live, command)?;
        Ok(Plan::Committing(Commit::new(self.selected, next)))
    }

    /// What each command is asked first: refused `Down`, `Over` and `JournalFull` as [`OpenStore::plan`].
    pub fn takes(&self) -> Result<(), Refusal>
        ensures ok { OnOk result
            ((self.now.down ≡ false) × (self.now.over ≡ false) × (self.now.receipts < 2 ^ 64 - 1)) }
        ensures refused { IfErr result (λ e. self.now.down ≡ false
            → ((e ≡ Refusal.Over) × (self.now.over ≡ true))
            ⊎ ((e ≡ Refusal.JournalFull) × (self.now.over ≡ false) × (self.now.receipts ≡ 2 ^ 64 - 1))) }
        ensures down { self.now.down ≡ true → result ≡ Err Refusal.Down }
    {
        if self.down {
            return Err(Refusal::Down);
        }
        if self.over {
            return Err(Refusal::Over);
        }
        if self.receipts == u64::MAX {
            return Err(Refusal::JournalFull);
        }
        Ok(())
    }

    /// The receipt of the command whose plan has ended so, where `ends` says whether it ends the life. A receipt is the
    /// number of commands acknowledged in this life. Refused `Device` where a crash leaves the state before, and `Down`
    /// where the command is in doubt until the next open.
    pub fn ended(&mut self, ends: bool, plan: &Plan) -> Result<u64, Refusal>
        ensures receipt { result ≡ receipt_of self.old plan.now }
        ensures store { self.new ≡ store_after self.old ends plan.now }
    {
        let Plan::Committing(commit) = plan else {
            return Err(Refusal::Device);
        };
        match commit.step {
            CommitStep::Committed => {
                let receipts = self.receipts.saturating_add(1);
                *self = OpenStore {
                    selected: commit.made(),
                    receipts,
                    over: ends,
                    down: false,
                };
                Ok(receipts)
            }
            CommitStep::InDoubt => {
                self.down = true;
                Err(Refusal::Down)
            }
            _ => Err(Refusal::Device),
        }
    }
}

/// Issues a command, as `Store::apply` of the crate `store` does.
pub fn apply<D: Disk>(disk: &mut D, store: &mut OpenStore, command: Command) -> Result<u64, Refusal>
    requires holds { Holds (D.facts disk.old) store.old }
    ensures asked { Asked D.facts D.fault_state disk.old store.old (change_of command) result disk.new store.new }
    ensures holds { Holds (D.facts disk.new) store.new }
{
    let mut plan = store.plan(command)?;
    run(disk, &mut plan);
    store.ended(Entry::Command(command).ends_life(), &plan)
}
