//! What an end shows, beside what is expected of it.

ghost use Rattle.std.specs.Prelude.{◌≡◌, ◌↔◌, All, IfSome, IsTrue, None, drop, take};
ghost use Rattle.kernel_check.specs.Shown.{IsAsExpected, Meet, ShowsSome};

use crate::facts::EndShown;
use crate::looks::Look;

/// The first bytes, `count` if there are, and those after them.
pub fn parted(bytes: &[u8], count: usize) -> (&[u8], &[u8])
    ensures front { result.0.now ≡ take count bytes.now }
    ensures back { result.1.now ≡ drop count bytes.now }
{
    match bytes.split_at_checked(count) {
        Some(parts) => parts,
        None => (bytes, &[]),
    }
}

/// Whether these are the bytes that are expected, where some are.
fn is_met(expected: &Option<Vec<u8>>, shown: &[u8]) -> bool
    ensures { IsTrue result ↔ IfSome expected.now (λ bytes. shown.now ≡ bytes.items) }
{
    match expected {
        None => true,
        Some(bytes) => shown == bytes.as_slice(),
    }
}

/// Whether the bytes of looks are as expected, one look after the other.
fn meet(looks: &[Look], shown: &[u8]) -> bool
    ensures { IsTrue result ↔ Meet looks.now shown.now }
{
    let mut rest = shown;
    for look in looks {
        let (part, others) = parted(rest, look.bytes);
        if !is_met(&look.expected, part) {
            return false;
        }
        rest = others;
    }
    true
}

/// Whether nothing is expected.
fn expects_nothing(looks: &[Look]) -> bool
    ensures { IsTrue result ↔ All (λ look. look.expected ≡ None) looks.now }
{
    for look in looks {
        match &look.expected {
            None => {}
            Some(_) => return false,
        }
    }
    true
}

/// Whether what is shown is what is expected: a board that was shut down shows no bytes.
pub fn is_as_expected(looks: &[Look], shown: &EndShown) -> bool
    ensures { IsTrue result ↔ IsAsExpected looks.now shown.now }
{
    match shown {
        EndShown::On(bytes) => meet(looks, bytes.as_slice()),
        EndShown::Shutdown(_) => expects_nothing(looks),
    }
}

/// Whether an end shows something.
pub fn shows_some(looks: &[Look], shown: &EndShown) -> bool
    ensures { IsTrue result ↔ ShowsSome looks.now shown.now }
{
    match shown {
        EndShown::On(_) => !looks.is_empty(),
        EndShown::Shutdown(_) => true,
    }
}
