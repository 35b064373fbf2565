//! Faults that are armed, and how they come to their calls.

use disk::ArmedFault;

/// What is armed, with the calls that are left to it, and whether power was cut. After a cut every
/// call fails.
#[derive(Clone, Copy)]
pub(crate) struct Faults {
    pub(crate) armed: Option<ArmedFault>,
    pub(crate) cut: bool,
}
