//! The words of single options.

ghost use Rattle.std.specs.Prelude.{◌≡◌, IfOk, IfSome};
ghost use Rattle.kernel_check.specs.Looks.{IsExpectWord, IsLookWord, IsWordOf, is_address};
ghost use Rattle.kernel_check.specs.Sizes.{failure_named, size_of};

use crate::given::{FailureKind, LookOption, LookWord};
use crate::help::{DIFFERS, FAILS, STUCK, TRAPS};
use board_model::RAM_BASE;
use script_lang::number;
use std::alloc::{AllocError, Global};

/// The most bytes of a look.
pub const MOST_BYTES: u64 = 4096;

/// Whether a word is an address: it begins with a digit, as no symbol does.
pub fn is_address(name: &str) -> bool
    ensures { result ≡ is_address name.now }
{
    matches!(name.as_bytes(), [b'0'..=b'9', ..])
}

/// Whether a word may name bytes of memory: a symbol, or an address.
fn is_name(name: &str) -> bool {
    if is_address(name) {
        number(name.as_bytes()).is_some_and(|address| RAM_BASE <= address)
    } else {
        !name.is_empty()
    }
}

/// `NAME`, `NAME:BYTES` or `ADDRESS:BYTES`. None where the word is neither.
fn look_named(alloc: Global, word: &str) -> Result<Option<LookWord>, AllocError>
    ensures { IfOk result (λ found. IfSome found (IsLookWord word.now)) }
{
    let (name, bytes) = match word.split_once(':') {
        None => (word, None),
        Some((name, bytes)) => match number(bytes.as_bytes()) {
            Some(count) if 1 <= count && count <= MOST_BYTES => (name, Some(count as u32)),
            _ => return Ok(None),
        },
    };
    if !is_name(name) || (is_address(name) && bytes.is_none()) {
        return Ok(None);
    }
    Ok(Some(LookWord {
        name: name.to_string(alloc)?,
        bytes,
        expected: None,
    }))
}

/// `NAME=HEX` or `ADDRESS=HEX`: 1 to 4,096 bytes in hexadecimal digits, the first byte first. None where the word is neither.
fn expect_named(alloc: Global, word: &str) -> Result<Option<LookWord>, AllocError>
    ensures { IfOk result (λ found. IfSome found (IsExpectWord word.now)) }
{
    let Some((name, digits)) = word.split_once('=') else {
        return Ok(None);
    };
    if !is_name(name) || digits.is_empty() {
        return Ok(None);
    }
    let bytes = match hex::decode(alloc, digits) {
        Ok(bytes) => bytes,
        Err(hex::FromHexError::OutOfMemory) => return Err(AllocError),
        Err(_) => return Ok(None),
    };
    if MOST_BYTES < bytes.len() as u64 {
        return Ok(None);
    }
    Ok(Some(LookWord {
        name: name.to_string(alloc)?,
        bytes: Some(bytes.len() as u32),
        expected: Some(bytes),
    }))
}

/// What a word of that option names. None where it is out of the option's form.
pub fn word_named(
    alloc: Global,
    option: LookOption,
    word: &str,
) -> Result<Option<LookWord>, AllocError>
    ensures { IfOk result (λ found. IfSome found (IsWordOf option word.now)) }
{
    match option {
        LookOption::Look => look_named(alloc, word),
        LookOption::Expect => expect_named(alloc, word),
    }
}

/// A size in bytes: a number, with K, M or G after it for 2^10, 2^20 or 2^30.
pub fn size_named(word: &str) -> Option<u64>
    ensures { result ≡ size_of word.now }
{
    let bytes = word.as_bytes();
    let (digits, unit) = match bytes {
        [digits @ .., b'K'] => (digits, 1 << 10),
        [digits @ .., b'M'] => (digits, 1 << 20),
        [digits @ .., b'G'] => (digits, 1 << 30),
        _ => (bytes, 1),
    };
    number(digits)?.checked_mul(unit)
}

/// The failure of that name.
pub fn failure_named(word: &str) -> Option<FailureKind>
    ensures { result ≡ failure_named word.now }
{
    match word {
        DIFFERS => Some(FailureKind::Differs),
        STUCK => Some(FailureKind::Stuck),
        TRAPS => Some(FailureKind::Traps),
        FAILS => Some(FailureKind::Fails),
        _ => None,
    }
}
