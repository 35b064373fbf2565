//! What only contracts remember of a disk. It takes no memory, and nothing is done for it at run time.
ghost use Rattle.std.specs.Prelude.{◌≡◌, List};
ghost use Rattle.std.specs.Borrow.{ftrue};
ghost use Rattle.disk.specs.Facts.{Content};
ghost use Rattle.disk.specs.declared.device.ArmedFault.{ArmedFault};
ghost use Rattle.disk.specs.declared.device.LaneCall.{LaneCall};
ghost use Rattle.disk.specs.WriteLog.{WriteLog, more_written};

use crate::device::Sector;
use std::marker::{Model, PhantomData};

/// The log of a disk's writes and syncs, for its contracts. A disk may besides have it remember the calls of a lane, the faults
/// that were armed, and contents.
#[derive(Drop)]
pub struct Log {
    marker: PhantomData<u8>,
    pub ghost log: { WriteLog },
    pub ghost calls: { List LaneCall },
    pub ghost armings: { List ArmedFault },
    pub ghost contents: { List Content },
}

impl Model for Log {
    ghost also_owns = { λ _. ftrue };
}

// It holds no data, so it may go to any thread, and any threads may share it.
unsafe impl Send for Log {}

unsafe impl Sync for Log {}

impl Log {
    /// One write more, of these sectors from that one on.
    pub fn note(&mut self, first: usize, sectors: &[Sector])
        ensures { self.new.log ≡ more_written (first, sectors.now) self.old.log }
    {
        *self = Log::picked(&(&*self, first, sectors));
    }

    /// The log that the caller's proof picks, from the values that are passed, and nothing besides.
    pub fn picked<T>(_values: &T) -> Log
        ghost picked: { WriteLog }
        ensures { result.log ≡ picked }
    {
        Log::with_parts(&())
    }

    /// All that the caller's proof picks, from the values that are passed. No other function makes the struct, so that one
    /// proof by hand is enough.
    pub fn with_parts<T>(_values: &T) -> Log
        ghost parts: { WriteLog × List LaneCall × List ArmedFault × List Content }
        ensures { (result.log ≡ parts.0) × (result.calls ≡ parts.1) × (result.armings ≡ parts.2)
            × (result.contents ≡ parts.3) }
    {
        Log {
            marker: PhantomData,
        }
    }
}
