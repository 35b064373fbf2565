//! What a part of a run has of so many things.

ghost use Rattle.std.specs.Prelude.{◌≡◌, ◌-◌, ◌+◌, ◌*◌, ◌/◌, ◌<◌, ◌≤◌, ℕ, List, Some};
ghost use Rattle.crew.specs.Parts.{begin_of, end_of, chunk_from, chunk_to, joined, part_text};

use crate::part::Part;
use std::fmt;

/// k * n / of, in whole numbers.
#[tactic(auto, using(crate::proofs::Pieces::scaled_is, crate::proofs::Pieces::scaled_few, crate::proofs::Pieces::quotient_few, crate::proofs::Pieces::rest_few))]
fn scaled(k: u64, n: u64, of: u64) -> u64
    requires some { 0 < of }
    requires within { k ≤ of }
    requires most { of ≤ 4096 }
    ensures is { result ≡ k * n / of }
    ensures few { result ≤ n }
{
    k * (n / of) + k * (n % of) / of
}

/// Which of so many things a run has: those from a number on, counted from 0, up to another one.
#[derive(Clone, Copy, Drop)]
pub struct Window {
    pub from: u64,
    pub to: u64,
    ghost order: { from ≤ to },
}

impl Window {
    /// Those of a part of n things; all of them where there is no part.
    pub fn of_part(part: Option<Part>, n: u64) -> Window
        ensures from { result.from ≡ begin_of part n }
        ensures to { result.to ≡ end_of part n }
        ensures few { result.to ≤ n }
    {
        match part {
            None => Window { from: 0, to: n },
            Some(part) => {
                let Part { number, of } = part;
                let from = scaled(number - 1, n, of);
                let to = scaled(number, n, of);
                Window { from, to }
            }
        }
    }

    /// These ones, numbered without the first n of all things: a number up to n becomes 0.
    pub fn behind(self, n: u64) -> Window
        ensures from { result.from ≡ self.from - n }
        ensures to { result.to ≡ self.to - n }
    {
        Window {
            from: self.from.saturating_sub(n),
            to: self.to.saturating_sub(n),
        }
    }

    /// How many chunks of `each` numbers they are: each chunk has some, and the last may have fewer.
    #[tactic(auto, using(crate::proofs::Chunked::chunks_cover, crate::proofs::Chunked::chunk_begins))]
    pub fn chunks(self, each: u64) -> u64
        requires { 0 < each }
        ensures cover { self.to - self.from ≤ result * each }
        ensures some { (k : ℕ) → k < result → chunk_from self.from each k < self.to }
    {
        (self.to - self.from).div_ceil(each)
    }

    /// Chunk k, k from 0, where a chunk has `each`.
    pub fn chunk(self, each: u64, k: u64) -> Window
        requires { chunk_from self.from each k < self.to }
        ensures from { result.from ≡ chunk_from self.from each k }
        ensures to { result.to ≡ chunk_to self.from self.to each k }
    {
        let from = self.from + k * each;
        Window {
            from,
            to: self.to.min(from.saturating_add(each)),
        }
    }
}

/// How the last line of a part begins; nothing where there is no part.
#[derive(Clone, Copy, Drop)]
pub struct PartText(pub Option<Part>);

impl fmt::Display for PartText {
    ghost output = { λ text. Some (part_text text.0) };

    fn fmt<W: fmt::Write>(&self, f: &mut fmt::Formatter<W>) -> fmt::Result {
        match self.0 {
            None => Ok(()),
            Some(part) => {
                let Part { number, of } = part;
                write!(f, "part {number}/{of} ")
            }
        }
    }
}

/// The parts of a run make the whole: one after another, in their order, they are all that there is.
#[tactic(auto, using(crate::proofs::Pieces::joined_all))]
pub fn parts_make_all<X>()
    ensures { (of : ℕ) (xs : List X) → 0 < of → joined of of xs ≡ xs }
{}
