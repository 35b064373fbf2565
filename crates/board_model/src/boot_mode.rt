//! The ways to power on.

/// The four ways to power on a board (docs/BOARD.md).
#[derive(Clone, Copy, PartialEq, Eq, Drop)]
pub enum BootMode {
    /// Boots the slot; refused where an image stands.
    Fresh,
    /// Boots the slot, and leaves an image where it is.
    Keep,
    /// Drops the image, then boots the slot; refused without an image.
    Discard,
    /// Goes on with the image; refused without one.
    Resume,
}
