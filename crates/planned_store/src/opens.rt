//! An open by its plan.
ghost use Rattle.std.specs.Prelude.{◌≡◌, IfOk};
ghost use Rattle.store.specs.Leaves.{IsIdle};
ghost use Rattle.planned_store.specs.Opens.{opened_by, OpensTo};
ghost use Rattle.planned_store.specs.Stores.{Holds};

use crate::commits::CommitStep;
use crate::plans::Plan;
use crate::runs::run;
use crate::stores::OpenStore;
use board_model::Refusal;
use disk::Disk;

impl Plan {
    /// What an open that has ended answers.
    pub fn opened(&self) -> Result<OpenStore, Refusal>
        ensures { result ≡ opened_by self.now }
    {
        match self {
            Plan::Found(found) => Ok(OpenStore::begun(*found)),
            Plan::Renewing(commit) => match commit.step {
                CommitStep::Committed => Ok(OpenStore::begun(commit.made())),
                _ => Err(Refusal::Device),
            },
            Plan::Refused(refusal) => Err(*refusal),
            _ => Err(Refusal::Device),
        }
    }
}

/// Opens a disk, as `Store::open` of the crate `store` does.
pub fn open<D: Disk>(disk: &mut D) -> Result<OpenStore, Refusal>
    requires none_out { IsIdle (D.facts disk.old) }
    ensures opens { OpensTo D.facts D.fault_state disk.old result disk.new }
    ensures holds { IfOk result (λ store. Holds (D.facts disk.new) store) }
    ensures none_out { IsIdle (D.facts disk.new) }
{
    let mut plan = Plan::open(disk.sectors());
    run(disk, &mut plan);
    plan.opened()
}
