//! What is lent.
ghost use Rattle.std.specs.Prelude.{◌≡◌};

/// The sectors that are lent: so many lanes of so many sectors each, in a row from the first.
/// Nothing is lent where there are no lanes.
#[derive(Clone, Copy)]
pub(crate) struct Loan {
    pub(crate) first: usize,
    pub(crate) lanes: usize,
    pub(crate) each: usize,
    /// Where the write log has them among what was written.
    pub(crate) patch: usize,
}

impl Loan {
    ghost use Rattle.disk.specs.Facts.{nothing};
    ghost use Rattle.simdisk.specs.Views.{lent_of};

    /// Nothing is lent.
    pub(crate) fn nothing() -> Loan
        ensures { lent_of result ≡ nothing }
    {
        Loan {
            first: 0,
            lanes: 0,
            each: 0,
            patch: 0,
        }
    }
}
