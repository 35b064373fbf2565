//! A board is copied, with its disk.

ghost use Rattle.std.specs.Prelude.{◌≡◌, ◌↔◌, Err, IfOk, OnErr};
ghost use Rattle.disk.specs.declared.device.ArmedFault.{ArmedFault};

use super::Board;
use board_model::Refusal;
use disk::CopyDisk;
use std::alloc::Global;

impl<D: CopyDisk + Drop> Board<D> {
    ghost use Rattle.disk.specs.Facts.{Unchanged};
    ghost use Rattle.store.specs.Views.{device_of, disk_of, fault_state_of, arms_of, size_of_store, life_of, failures_at_open, was_refused_memory};
    ghost use Rattle.board.specs.Views.{store_of, machine_of};

    /// A board that stands as this one: its memory, its harts and its tables, and its store over a disk of its
    /// own that stands as this one's. This one stays as it is. Refused `Memory` where memory is refused.
    pub fn copy(&mut self, alloc: Global) -> Result<Board<D>, Refusal>
        ensures stays { (machine_of self.new ≡ machine_of self.old) × (store_of self.new ≡ store_of self.old) }
        ensures machine { IfOk result (λ copy. machine_of copy ≡ machine_of self.old) }
        ensures life { IfOk result (λ copy. life_of (store_of copy) ≡ life_of (store_of self.old)) }
        ensures facts { IfOk result
            (λ copy. Unchanged (disk_of (store_of self.old)) (disk_of (store_of copy))) }
        ensures fault_state { IfOk result
            (λ copy. fault_state_of (store_of copy) ≡ fault_state_of (store_of self.old)) }
        ensures arms { IfOk result (λ copy. (fault : ArmedFault) → arms_of (store_of copy) fault
            ↔ arms_of (store_of self.old) fault) }
        ensures alike { IfOk result
            (λ copy. D.alike (device_of (store_of self.old)) (device_of (store_of copy))) }
        ensures board { IfOk result (λ copy. size_of_store (store_of copy) ≡ size_of_store (store_of self.old)) }
        ensures opened { IfOk result
            (λ copy. failures_at_open (store_of copy) ≡ failures_at_open (store_of self.old)) }
        ensures memory { IfOk result
            (λ copy. was_refused_memory (store_of copy) ≡ was_refused_memory (store_of self.old)) }
        ensures refused { OnErr result (result ≡ Err Refusal.Memory) }
    {
        let machine = self.machine.copy(alloc)?;
        let store = self.store.copy(alloc)?;
        Ok(Board { store, machine })
    }

    /// The disk below, as it stands.
    pub fn disk(&self) -> &D
        ensures { result.now ≡ device_of (store_of self.now) }
    {
        self.store.disk()
    }
}
