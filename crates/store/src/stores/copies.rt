//! A store is copied, with its disk.
ghost use Rattle.std.specs.Prelude.{◌≡◌, ◌↔◌, Err, IfOk, OnErr};
ghost use Rattle.disk.specs.declared.device.ArmedFault.{ArmedFault};

use super::Store;
use board_model::Refusal;
use disk::CopyDisk;
use std::alloc::Global;

impl<D: CopyDisk + Drop> Store<D> {
    ghost use Rattle.disk.specs.Facts.{Unchanged};
    ghost use Rattle.store.specs.Views.{device_of, disk_of, fault_state_of, arms_of, size_of_store, life_of, failures_at_open, was_refused_memory};

    /// A store that stands as this one, over a disk of its own that stands as this one's. This one stays as it
    /// is. Refused `Memory` where memory is refused.
    #[tactic(auto, using(crate::proofs::Copied::same_life))]
    pub fn copy(&self, alloc: Global) -> Result<Store<D>, Refusal>
        ensures life { IfOk result (λ copy. life_of copy ≡ life_of self.now) }
        ensures facts { IfOk result (λ copy. Unchanged (disk_of self.now) (disk_of copy)) }
        ensures fault_state { IfOk result (λ copy. fault_state_of copy ≡ fault_state_of self.now) }
        ensures arms { IfOk result
            (λ copy. (fault : ArmedFault) → arms_of copy fault ↔ arms_of self.now fault) }
        ensures alike { IfOk result (λ copy. D.alike (device_of self.now) (device_of copy)) }
        ensures board { IfOk result (λ copy. size_of_store copy ≡ size_of_store self.now) }
        ensures opened { IfOk result (λ copy. failures_at_open copy ≡ failures_at_open self.now) }
        ensures memory { IfOk result (λ copy. was_refused_memory copy ≡ was_refused_memory self.now) }
        ensures refused { OnErr result (result ≡ Err Refusal.Memory) }
    {
        let disk = self.disk.copy()?;
        let journal = self.journal.copy(alloc)?;
        Ok(Store {
            disk,
            shape: self.shape,
            side: self.side,
            opened: self.opened,
            current: self.current,
            journal,
            doubt: self.doubt,
            over: self.over,
            failures_at_open: self.failures_at_open,
            refused_memory: self.refused_memory,
        })
    }

    /// The disk below, as it stands.
    pub fn disk(&self) -> &D
        ensures { result.now ≡ device_of self.now }
    {
        &self.disk
    }
}
