//! Disks that can be copied.

use crate::device::Disk;
use std::alloc::AllocError;

/// A disk of which there can be a second one.
pub trait CopyDisk: Disk {
    ghost use Rattle.std.specs.Prelude.{◌≡◌, ◌↔◌, IfOk};
    ghost use Rattle.disk.specs.Facts.{Unchanged};
    ghost use Rattle.disk.specs.declared.device.ArmedFault.{ArmedFault};

    /// The second disk stands as the first also in what only disks of this kind have.
    ghost alike: { Self → Self → Type 0 };

    /// A disk of its own that stands as this one, which stays as it is: what a read gives and what a crash may
    /// leave, how many calls were made and failed, and which fault is to strike within which call. At `Err`
    /// memory was refused.
    fn copy(&self) -> Result<Self, AllocError>
    where
        Self: Sized,
        requires none_out { (Self.facts self.now).lent.lanes ≡ 0 }
        ensures facts { IfOk result (λ copy. Unchanged (Self.facts self.now) (Self.facts copy)) }
        ensures fault_state { IfOk result (λ copy. Self.fault_state copy ≡ Self.fault_state self.now) }
        ensures arms { IfOk result
            (λ copy. (fault : ArmedFault) → Self.arms copy fault ↔ Self.arms self.now fault) }
        ensures alike { IfOk result (λ copy. alike self.now copy) };
}
