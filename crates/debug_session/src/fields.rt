//! The fields of a packet.

ghost use Rattle.std.specs.Prelude.{◌≡◌, ◌<◌, Some, IfSome, bytes_eq};
ghost use Rattle.std.specs.Option.{option_map};
ghost use Rattle.debug_session.specs.Packets.{value_of};
ghost use Rattle.debug_session.specs.Fields.{number_of, parted_at, shifted, stripped, two_numbers};

use crate::digits::value;

/// A number with the digit after it.
fn with_digit(number: u64, digit: u8) -> Option<u64>
    ensures { result ≡ shifted number (value_of digit) }
{
    match (number.checked_mul(16), value(digit)) {
        (Some(shifted), Some(digit)) => shifted.checked_add(u64::from(digit)),
        (_, _) => None,
    }
}

/// The number below 2^64 that hexadecimal digits of either case write, one digit at least.
#[tactic(auto, using(crate::proofs::Numbers::stopped_at))]
pub fn number(word: &[u8]) -> Option<u64>
    ensures { result ≡ number_of word.now }
{
    if word.is_empty() {
        return None;
    }
    let mut number: u64 = 0;
    for digit in word {
        let Some(more) = with_digit(number, *digit) else {
            return None;
        };
        number = more;
    }
    Some(number)
}

/// What stands before the first such byte and after it.
pub fn parted(word: &[u8], byte: u8) -> Option<(&[u8], &[u8])>
    ensures { option_map (λ parts. (parts.0.now, parts.1.now)) result ≡ parted_at byte word.now }
{
    for i in 0..word.len() {
        if word[i] == byte {
            return Some((&word[..i], &word[i + 1..]));
        }
    }
    None
}

/// Two numbers with a comma between them.
pub fn two_numbers(word: &[u8]) -> Option<(u64, u64)>
    ensures { result ≡ two_numbers word.now }
{
    let Some((a, b)) = parted(word, b',') else {
        return None;
    };
    match (number(a), number(b)) {
        (Some(a), Some(b)) => Some((a, b)),
        (_, _) => None,
    }
}

/// Whether a word is that text.
pub(crate) fn is_text(word: &[u8], text: &[u8]) -> bool
    ensures { result ≡ bytes_eq word.now text.now }
{
    word == text
}

/// What stands after a prefix.
pub fn strip_prefix<'a>(word: &'a [u8], prefix: &[u8]) -> Option<&'a [u8]>
    ensures { option_map (λ rest. rest.now) result ≡ stripped prefix.now word.now }
{
    if word.len() < prefix.len() || &word[..prefix.len()] != prefix {
        return None;
    }
    Some(&word[prefix.len()..])
}
