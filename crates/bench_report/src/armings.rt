//! The lines that arm a fault of the disk.

ghost use Rattle.std.specs.Prelude.{◌≡◌};
ghost use Rattle.bench_report.specs.Armings.{fault_of, newest_fill};

use disk::ArmedFault;
use script_lang::Arming;
use simdisk::Fill;

/// The fault that a line arms.
pub fn fault_of(arming: Arming) -> ArmedFault
    ensures { result ≡ fault_of arming }
{
    match arming {
        Arming::CutAt(call, _) => ArmedFault::CutAt(u64::from(call)),
        Arming::CutLane(lane, call, _) => ArmedFault::CutLane(lane as usize, u64::from(call)),
        Arming::FailAt(call) => ArmedFault::FailAt(u64::from(call)),
        Arming::FailLane(lane, call) => ArmedFault::FailLane(lane as usize, u64::from(call)),
    }
}

/// What an armed cut is to leave after this line, by what it was to leave before.
pub fn newest_fill(arming: Arming, fill: Fill) -> Fill
    ensures { result ≡ newest_fill arming fill }
{
    match arming {
        Arming::CutAt(_, newest) => newest,
        Arming::CutLane(_, _, newest) => newest,
        Arming::FailAt(_) | Arming::FailLane(..) => fill,
    }
}
