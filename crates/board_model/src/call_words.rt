//! What an SBI call is made with.

/// The words of an SBI call (SBI specification 2.0, chapter 3). No call that the board has takes more than three
/// arguments.
#[derive(Clone, Copy, Drop)]
pub struct CallWords {
    /// The extension, in a7.
    pub eid: u64,
    /// The function, in a6.
    pub fid: u64,
    /// The first argument, in a0.
    pub a0: u64,
    /// The second argument, in a1.
    pub a1: u64,
    /// The third argument, in a2.
    pub a2: u64,
}
