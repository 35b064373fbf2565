//! Sectors in a row, and how they are laid over a content.
ghost use Rattle.std.specs.Prelude.{◌≡◌, length, IfOk};

use crate::laid::{fill_range, overwrite};
use crate::remembered::Remembered;
use disk::Sector;
use std::alloc::{AllocError, Global};

/// Sectors in a row that were written, from the first that it names on. Which bytes were written is
/// for contracts alone: what stands, and what was written last, are kept for the whole disk.
#[derive(Drop)]
pub(crate) struct Patch {
    pub(crate) first: usize,
    pub(crate) count: usize,
    pub(crate) bytes: Remembered,
    ghost long: { length bytes.kept.log.began ≡ count },
}

impl Patch {
    ghost use Rattle.std.specs.Prelude.{◌≡◌, ◌≤◌, ◌<◌, ◌+◌, ◌^◌, length, take, drop};
    ghost use Rattle.disk.specs.WriteLog.{laid_over, piece_in, filled};
    ghost use Rattle.simdisk.specs.Views.{piece};

    /// These sectors, from that one on.
    pub(crate) fn of(first: usize, sectors: &[Sector]) -> Patch
        ensures { piece result ≡ (first, sectors.now) }
    {
        Patch {
            first,
            count: sectors.len(),
            bytes: Remembered::of(sectors),
        }
    }

    /// Takes over from that content what stands in its sectors.
    pub(crate) fn copy(&self, stood: &mut Vec<Sector>, content: &[Sector])
        requires as_long { length content.now ≡ length stood.old.items }
        requires within { self.now.first + self.now.count ≤ length content.now }
        ensures put { stood.new.items ≡ laid_over (piece_in content.now (piece self.now)) stood.old.items }
        ensures as_long { length stood.new.items ≡ length stood.old.items }
    {
        let end = self.first + self.count;
        overwrite(stood, self.first, &content[self.first..end]);
    }

    /// Fills its sectors of that content each with those bytes.
    pub(crate) fn fill(&self, content: &mut Vec<Sector>, bytes: &Sector)
        requires { self.now.first + self.now.count ≤ length content.old.items }
        ensures put { content.new.items ≡ laid_over (filled bytes.now (piece self.now)) content.old.items }
        ensures as_long { length content.new.items ≡ length content.old.items }
    {
        fill_range(content, self.first, self.count, bytes);
    }

    /// Its sectors before that one of them.
    pub(crate) fn before(&self, at: usize) -> Patch
        requires { at ≤ self.now.count }
        ensures { piece result ≡ (self.now.first, take at (piece self.now).1) }
    {
        Patch {
            first: self.first,
            count: at,
            bytes: self.bytes.part(0, at),
        }
    }

    /// Its sectors from that one of them on.
    pub(crate) fn behind(&self, at: usize) -> Patch
        requires within { at ≤ self.now.count }
        requires first { self.now.first + at < 2 ^ 64 }
        ensures { piece result ≡ (self.now.first + at, drop at (piece self.now).1) }
    {
        let count = self.count - at;
        Patch {
            first: self.first + at,
            count,
            bytes: self.bytes.part(at, count),
        }
    }

    /// Its sectors as they stand in that content.
    pub(crate) fn retake(&mut self, content: &[Sector])
        requires { self.old.first + self.old.count ≤ length content.now }
        ensures { piece self.new ≡ piece_in content.now (piece self.old) }
    {
        let end = self.first + self.count;
        *self = Patch::of(self.first, &content[self.first..end]);
    }
}

/// A copy of these sectors.
pub(crate) fn copy_of(alloc: Global, sectors: &[Sector]) -> Result<Vec<Sector>, AllocError>
    ensures { IfOk result (λ copy. copy.items ≡ sectors.now) }
{
    Vec::from_slice(alloc, sectors)
}
