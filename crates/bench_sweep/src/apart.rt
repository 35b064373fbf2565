//! Whether what was written is what was wanted.

ghost use Rattle.std.specs.Prelude.{◌≡◌, ◌↔◌, ◌≤◌, length, None, IfSome};
ghost use Rattle.bench_sweep.specs.Apart.{common, ends_of, line_behind};

/// How many lines end within the first bytes that both have.
fn ends_alike(one: &[u8], other: &[u8]) -> usize
    ensures ends { result ≡ ends_of (common one.now other.now) }
    ensures few { result ≤ length one.now }
{
    let mut ends = 0;
    for i in 0..one.len().min(other.len()) {
        if one[i] != other[i] {
            return ends;
        }
        if one[i] == b'\n' {
            ends += 1;
        }
    }
    ends
}

/// None where the one has just the bytes of the other, else the first line, from 1, in which they differ.
pub fn line_apart(one: &[u8], other: &[u8]) -> Option<usize>
    ensures none { (result ≡ None) ↔ (one.now ≡ other.now) }
    ensures line { IfSome result (λ n. n ≡ line_behind one.now other.now) }
{
    if one == other {
        return None;
    }
    Some(ends_alike(one, other) + 1)
}
