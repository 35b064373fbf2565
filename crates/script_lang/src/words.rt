//! Numbers, fills and bytes as the words of a line write them.

ghost use Rattle.std.specs.Prelude.{◌≡◌, ◌≤◌, ◌*◌, ◌^◌, ◌<◌, length, map, IfSome, IfOk};
ghost use Rattle.std.specs.Option.{option_map};
ghost use Rattle.script_lang.specs.Words.{digits_after, numeral_of, number_of, ranged, fill_of, hex_of, seed_of, alone, none_of, IsCount, one_of, two_of, three_of};

use board_model::{Bytes, HartId, Shape};
use hex::FromHexError;
use simdisk::Fill;
use std::alloc::{AllocError, Global};

/// The number that at most 20 digits write.
fn digits(radix: u8, word: &[u8]) -> Option<u128>
    requires low { 2 ≤ radix }
    requires radix { radix ≤ 16 }
    requires short { length word.now ≤ 20 }
    ensures value { result ≡ digits_after radix 0 word.now }
    ensures small { IfSome result (λ n. n < 2 ^ (4 * length word.now)) }
{
    let mut value: u128 = 0;
    for b in word {
        let digit = char::from(*b).to_digit(u32::from(radix))?;
        value = value * u128::from(radix) + u128::from(digit);
    }
    Some(value)
}

/// A number of 1 to `most` digits, below 2^64.
fn numeral(radix: u8, most: usize, word: &[u8]) -> Option<u64>
    requires low { 2 ≤ radix }
    requires radix { radix ≤ 16 }
    requires short { most ≤ 20 }
    ensures { result ≡ numeral_of radix most word.now }
{
    if word.is_empty() || most < word.len() {
        return None;
    }
    let value = digits(radix, word)?;
    if value < 1 << 64 {
        Some(value as u64)
    } else {
        None
    }
}

/// A number as scripts write it: 1 to 20 decimal digits, or `0x` and 1 to 16 hexadecimal digits, below 2^64.
pub fn number(word: &[u8]) -> Option<u64>
    ensures { result ≡ number_of word.now }
{
    match word {
        [b'0', b'x', digits @ ..] => numeral(16, 16, digits),
        _ => numeral(10, 20, word),
    }
}

/// A number from `least` on and below `bound`.
pub fn in_range(least: u64, bound: u64, word: &[u8]) -> Option<u32>
    requires { bound ≤ 2 ^ 32 }
    ensures value { result ≡ ranged least bound word.now }
    ensures range { IfSome result (λ n. (least ≤ n) × (n < bound)) }
{
    let n = number(word)?;
    if least <= n && n < bound {
        Some(n as u32)
    } else {
        None
    }
}

/// The seed that a word spells; 1 without a word.
pub fn seed_of(word: Option<&str>) -> Option<u64>
    ensures { result ≡ seed_of (option_map (λ s. s.now) word.entry) }
{
    match word {
        None => Some(1),
        Some(word) => number(word.as_bytes()),
    }
}

/// A hart of the board.
pub fn hart(shape: &Shape, word: &[u8]) -> Option<HartId>
    ensures value { result ≡ ranged 0 shape.now.harts word.now }
    ensures range { IfSome result (λ h. h < shape.now.harts) }
{
    shape.hart(number(word)?)
}

/// A number of disk calls, 1 to 1,000,000.
pub fn calls(word: &[u8]) -> Option<u32>
    ensures value { result ≡ ranged 1 1000001 word.now }
    ensures range { IfSome result IsCount }
{
    in_range(1, 1_000_001, word)
}

/// `old`, `new`, `alt` or two hexadecimal digits.
pub fn fill(word: &[u8]) -> Option<Fill>
    ensures { result ≡ fill_of word.now }
{
    if word == b"old".as_slice() {
        return Some(Fill::Old);
    }
    if word == b"new".as_slice() {
        return Some(Fill::New);
    }
    if word == b"alt".as_slice() {
        return Some(Fill::Alternating);
    }
    if word.len() != 2 {
        return None;
    }
    let byte = digits(16, word)?;
    Some(Fill::Byte(byte as u8))
}

/// The bytes that an even number of hexadecimal digits write, two digits at least.
pub fn bytes(alloc: Global, word: &[u8]) -> Result<Option<Bytes>, AllocError>
    ensures value { IfOk result (λ found. found ≡ hex_of word.now) }
    ensures some { IfOk result (λ found. IfSome found (λ bytes. 1 ≤ length bytes)) }
{
    if word.is_empty() {
        return Ok(None);
    }
    match hex::decode(alloc, word) {
        Ok(items) => Ok(Some(Bytes::new(items))),
        Err(FromHexError::OutOfMemory) => Err(AllocError),
        Err(_) => Ok(None),
    }
}

/// Just no words.
pub fn none(words: &[&[u8]]) -> Option<()>
    ensures { result ≡ none_of (map (λ w. w.now) words.now) }
{
    if words.is_empty() { Some(()) } else { None }
}

/// What has no words of its own.
pub fn alone<T: Drop>(said: T, words: &[&[u8]]) -> Option<T>
    ensures { result ≡ alone said (map (λ w. w.now) words.now) }
{
    none(words)?;
    Some(said)
}

/// Just one word.
pub fn one<'a>(words: &[&'a [u8]]) -> Option<&'a [u8]>
    ensures { option_map (λ w. w.now) result ≡ one_of (map (λ w. w.now) words.now) }
{
    match words {
        [a] => Some(*a),
        _ => None,
    }
}

/// Just two words.
pub fn two<'a>(words: &[&'a [u8]]) -> Option<(&'a [u8], &'a [u8])>
    ensures { option_map (λ w. (w.0.now, w.1.now)) result ≡ two_of (map (λ w. w.now) words.now) }
{
    match words {
        [a, b] => Some((*a, *b)),
        _ => None,
    }
}

/// Just three words.
pub fn three<'a>(words: &[&'a [u8]]) -> Option<(&'a [u8], &'a [u8], &'a [u8])>
    ensures { option_map (λ w. (w.0.now, w.1.now, w.2.now)) result ≡ three_of (map (λ w. w.now) words.now) }
{
    match words {
        [a, b, c] => Some((*a, *b, *c)),
        _ => None,
    }
}
