//! A write of one sector, and what a disk of 12 sectors reads as.
ghost use Rattle.std.specs.Prelude.{◌≡◌};

use disk::{Disk, Fault};
use std::process::Abort;

/// Writes one sector full of a byte.
pub fn write_byte<D: Disk>(rt: &impl Abort, disk: &mut D, at: usize, byte: u8) -> Result<(), Fault>
    requires { (D.facts disk.old).lent.lanes ≡ 0 }
    ensures { (D.facts disk.new).lent.lanes ≡ 0 }
{
    assert!(rt; at < disk.sectors());
    disk.write(at, &[[byte; 512]])
}

/// The last byte of each of the first 11 sectors, as one read of a disk of 12 gives them.
pub fn last_bytes<D: Disk>(rt: &impl Abort, disk: &mut D) -> Result<[u8; 11], Fault>
    requires { (D.facts disk.old).lent.lanes ≡ 0 }
    ensures { (D.facts disk.new).lent.lanes ≡ 0 }
{
    assert!(rt; disk.sectors() == 12);
    let mut found = [[0; 512]; 11];
    disk.read(0, &mut found)?;
    let mut last = [0; 11];
    for k in 0..11 {
        last[k] = found[k][511];
    }
    Ok(last)
}
