//! Hashes of slices. Nothing is promised of how they spread.

ghost use Rattle.std.specs.Prelude.{◌≡◌};
ghost use Rattle.state_space.specs.Hash.{mixed, hash_from, HASH_SEED};

/// Where a hash begins.
pub(crate) const SEED: u64 = 0x9e37_79b9_7f4a_7c15;
/// An odd number with bits everywhere.
const FACTOR: u64 = 0xd6e8_feb8_6659_fd93;

/// Spreads a word's bits over all of it.
#[tactic(auto, unfolding(crate::specs::Hash::mixed))]
#[inline(always)]
pub(crate) fn mix(word: u64) -> u64
    ensures { result ≡ mixed word }
{
    let folded = (word ^ (word >> 32)).wrapping_mul(FACTOR);
    folded ^ (folded >> 29)
}

/// The hash of words.
#[inline]
#[tactic(auto, using(crate::proofs::Hashes::hash_more, crate::proofs::Hashes::hash_all))]
pub(crate) fn hash_words(words: &[u64]) -> u64
    ensures { result ≡ hash_from HASH_SEED words.now }
{
    let mut hash = SEED;
    for word in words {
        hash = mix(hash ^ *word);
    }
    hash
}

/// The hash of a row.
#[inline]
#[tactic(auto, using(crate::proofs::Hashes::hash_more, crate::proofs::Hashes::hash_all))]
pub(crate) fn hash_row(row: &[u32]) -> u64
    ensures { result ≡ hash_from HASH_SEED row.now }
{
    let mut hash = SEED;
    for number in row {
        hash = mix(hash ^ (*number as u64));
    }
    hash
}
