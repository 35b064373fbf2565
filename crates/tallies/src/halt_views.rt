//! What a watch knows. Views stand in contracts alone, and no value of this type is ever made.

/// Whether it may set the word; how many of its looks found the word unset; and where it set the word, or found it set, how many looks of
/// all watches had found it unset by then.
pub struct HaltView {
    pub may_set: bool,
    pub unset: u64,
    pub sum: Option<u64>,
}
