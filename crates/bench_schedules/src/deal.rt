//! Turns that are dealt out to lines.

ghost use Rattle.std.specs.Prelude.{◌≡◌, ◌+◌, ◌≤◌, ◌<◌, ℕ, [], length, All, OnOk, IfOk};
ghost use Rattle.script_lang.specs.declared.line.Line.TheVariants as variants;
ghost use Rattle.script_lang.specs.Lines.{turns_in};
ghost use Rattle.bench_schedules.specs.Orders.{IsTurn, named, left_of};
ghost use Rattle.bench_schedules.specs.Deals.{GoesOn, IsOpen};

use board_model::HartId;
use script_lang::Line;
use std::alloc::{AllocError, Global};

/// The most turns that a line may name.
const MOST_TURNS: u32 = 1_000_000;

/// How many turns the last line names, where it is of that hart and may name so many more.
fn open_row(made: &Vec<Line>, hart: HartId, count: u32) -> Option<u32>
    requires { count ≤ 1000000 }
    ensures { IsOpen hart count made.now.items result }
{
    match made.last() {
        Some(Line::Turn(by, n)) if *by == hart && *n <= MOST_TURNS - count => Some(*n),
        _ => None,
    }
}

/// Adds turns of a hart after the lines: to the last of them, where that is of the same hart and may name so many
/// more, and else in a line of their own.
#[tactic(auto, using(crate::proofs::Deals::named_push, crate::proofs::Deals::turns_push, crate::proofs::Deals::named_grown, crate::proofs::Deals::turns_grown))]
fn add_turns(made: &mut Vec<Line>, hart: HartId, count: u32) -> Result<(), AllocError>
    requires some { 1 ≤ count }
    requires most { count ≤ 1000000 }
    ensures named { OnOk result ((h : ℕ) → named h made.new.items
        ≡ named h made.old.items + turns_in h (variants.Turn hart count)) }
    ensures turns { All IsTurn made.old.items → OnOk result (All IsTurn made.new.items) }
{
    if let Some(n) = open_row(made, hart, count) {
        made.pop();
        made.push(Line::Turn(hart, n + count))?;
        return Ok(());
    }
    made.push(Line::Turn(hart, count))?;
    Ok(())
}

/// Turns of each hart, of which some stand in lines and the others are left.
#[derive(Drop)]
pub struct Deal {
    /// How many turns are left, by the hart's number.
    pub left: [u64; 8],
    /// The turns that are dealt.
    pub lines: Vec<Line>,
}

impl Deal {
    /// All turns are left.
    pub fn new(alloc: Global, turns: [u64; 8]) -> Deal
        ensures left { result.left ≡ turns }
        ensures lines { result.lines.items ≡ [] }
    {
        Deal {
            left: turns,
            lines: Vec::new(alloc),
        }
    }

    /// Deals that hart up to so many turns, in one line at most, and answers how many. Whatever is asked for, no
    /// hart has more or fewer of them, dealt and left together.
    #[tactic(auto, using(crate::proofs::Deals::gives))]
    pub fn give(&mut self, hart: HartId, most: u64) -> Result<u64, AllocError>
        ensures goes_on { OnOk result (GoesOn self.old self.new) }
        ensures given { IfOk result (λ n. left_of hart self.new.left + n ≡ left_of hart self.old.left) }
        ensures others { OnOk result ((h : ℕ) → (h ≡ hart → ⊥) → left_of h self.new.left ≡ left_of h self.old.left) }
        ensures some { 0 < most → 0 < left_of hart self.old.left → IfOk result (λ n. 0 < n) }
        ensures most { IfOk result (λ n. n ≤ most) }
    {
        let place = hart.index();
        let now = self.left[place].min(most).min(u64::from(MOST_TURNS));
        if now == 0 {
            return Ok(0);
        }
        add_turns(&mut self.lines, hart, now as u32)?;
        self.left[place] -= now;
        Ok(now)
    }

    /// Deals that hart all turns that are left to it.
    #[tactic(auto, using(crate::proofs::Deals::goes_on_same, crate::proofs::Deals::goes_on_twice))]
    fn rest_of(&mut self, hart: HartId) -> Result<(), AllocError>
        ensures goes_on { OnOk result (GoesOn self.old self.new) }
        ensures dealt { OnOk result (left_of hart self.new.left ≡ 0) }
        ensures others { OnOk result ((h : ℕ) → (h ≡ hart → ⊥) → left_of h self.new.left ≡ left_of h self.old.left) }
    {
        let place = hart.index();
        while 0 < self.left[place] {
            self.give(hart, u64::from(MOST_TURNS))?;
        }
        Ok(())
    }

    /// Deals each hart all turns that are left to it, hart by hart.
    #[tactic(auto, using(crate::proofs::Deals::goes_on_same, crate::proofs::Deals::goes_on_twice))]
    pub fn rest(&mut self) -> Result<(), AllocError>
        ensures goes_on { OnOk result (GoesOn self.old self.new) }
        ensures dealt { OnOk result ((h : ℕ) → h < 8 → left_of h self.new.left ≡ 0) }
    {
        for number in 0..8 {
            let hart = HartId::new(number).unwrap();
            self.rest_of(hart)?;
        }
        Ok(())
    }
}
