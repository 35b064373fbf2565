//! What a power cut leaves, where it is to be chosen.

/// What a range that was written since the last sync holds after a power cut.
#[derive(Clone, Copy, Drop)]
pub enum Fill {
    /// This byte throughout.
    Byte(u8),
    /// 0x55 at each even place of a sector, and 0xaa at each odd one.
    Alternating,
    /// What stood there at that sync.
    Old,
    /// The bytes of the last write there, also of one that failed or was cut.
    New,
}
