//! Rounds of harts that run in turn.

ghost use Rattle.std.specs.Prelude.{◌≡◌, ◌≤◌, ◌<◌, ◌+◌, true, false, slice_index_or, IfSome};

use crate::orders::Ahead;
use board_model::{HartId, Shape};

/// The most turns of a hart before the next one's.
const MOST_TURNS: u32 = 1_000_000;

/// The next part of a round.
#[derive(Clone, Copy, Drop)]
pub(crate) struct NextPart {
    /// The hart whose part it is.
    pub(crate) hart: HartId,
    /// How many turns it may have.
    pub(crate) most: u32,
}

/// A round of harts that run in turn.
#[derive(Clone, Copy, Drop)]
pub(crate) struct Round {
    /// The hart whose part comes first, and which is told where no turn is why all halts.
    pub(crate) first: HartId,
    /// Which may run.
    pub(crate) harts: [bool; 8],
    /// The number of the hart whose part is next.
    pub(crate) place: u64,
    /// How many turns each makes before the next one's.
    pub(crate) quantum: u32,
    /// How many turns may still be made.
    pub(crate) left: u64,
    /// How many parts without a turn came one after another.
    pub(crate) resting: u32,
}

impl Round {
    /// A round of these harts from that one on, which may make `left` turns.
    pub(crate) fn new(first: HartId, harts: [bool; 8], quantum: u32, left: u64) -> Round
        ensures first { result.first ≡ first }
        ensures harts { result.harts ≡ harts }
        ensures left { result.left ≡ left }
    {
        Round {
            first,
            harts,
            place: u64::from(first.number()),
            quantum,
            left,
            resting: 0,
        }
    }

    /// A part of that hart, where the board has it and it may run.
    fn part_of(&self, shape: &Shape, number: u64, most: u32) -> Option<NextPart>
        ensures hart { IfSome result (λ part. (part.hart < shape.now.harts) × (slice_index_or self.now.harts part.hart false ≡ true)) }
        ensures most { IfSome result (λ part. (part.most ≤ self.now.left) × (part.most ≤ 1000000)) }
    {
        let hart = shape.hart(number)?;
        if self.harts[hart.index()] {
            Some(NextPart {
                hart,
                most: self.turns().min(most),
            })
        } else {
            None
        }
    }

    /// The part that an order has next, where its hart may run.
    fn ahead(&self, shape: &Shape, ahead: &Option<Ahead>) -> Option<NextPart>
        ensures hart { IfSome result (λ part. (part.hart < shape.now.harts) × (slice_index_or self.now.harts part.hart false ≡ true)) }
        ensures most { IfSome result (λ part. (part.most ≤ self.now.left) × (part.most ≤ 1000000)) }
    {
        match ahead {
            Some(Ahead::Turns(hart, turns)) => {
                self.part_of(shape, u64::from(hart.number()), *turns)
            }
            _ => None,
        }
    }

    /// The part that is next, where its hart may run: the one that an order has next, or else that of the hart whose part comes. The
    /// part of the hart after it comes then.
    pub(crate) fn next(&mut self, shape: &Shape, ahead: &Option<Ahead>) -> Option<NextPart>
        requires few { self.old.resting < 8 }
        ensures hart { IfSome result (λ part. (part.hart < shape.now.harts) × (slice_index_or self.old.harts part.hart false ≡ true)) }
        ensures most { IfSome result (λ part. (part.most ≤ self.old.left) × (part.most ≤ 1000000)) }
        ensures harts { self.new.harts ≡ self.old.harts }
        ensures left { self.new.left ≡ self.old.left }
    {
        self.resting += 1;
        if let Some(part) = self.ahead(shape, ahead) {
            return Some(part);
        }
        let number = self.place % u64::from(shape.harts());
        self.place = number + 1;
        self.part_of(shape, number, MOST_TURNS)
    }

    /// How many turns the next part may have.
    fn turns(&self) -> u32
        ensures left { result ≤ self.now.left }
        ensures few { result ≤ 1000000 }
    {
        let most = if self.quantum < MOST_TURNS {
            self.quantum
        } else {
            MOST_TURNS
        };
        if self.left < u64::from(most) {
            self.left as u32
        } else {
            most
        }
    }

    /// A part made `count` turns.
    pub(crate) fn made(&mut self, count: u32)
        requires left { count ≤ self.old.left }
        ensures harts { self.new.harts ≡ self.old.harts }
        ensures left { self.new.left + count ≡ self.old.left }
    {
        self.left -= u64::from(count);
        if 0 < count {
            self.resting = 0;
        }
    }
}
