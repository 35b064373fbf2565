//! Memory that is given back and taken again.

use std::alloc::Global;

/// How many bytes [`keep_heap`] asks for: a little less than the 32 MiB up to which glibc takes its threshold.
const HEAP_BYTES: usize = 33_000_000;

/// Has the C library keep what is given back, for the next board that is powered on.
///
/// glibc takes the size of the largest block that it mapped and was given back for the least that it maps from then on,
/// and twice that for what it keeps of free memory. No byte of this block is touched, so asking for it costs nothing. Where
/// memory is refused, or the C library is another, nothing happens.
pub fn keep_heap(alloc: Global) {
    if let Ok(block) = Vec::<u8>::with_capacity(alloc, HEAP_BYTES) {
        drop(block);
    }
}
