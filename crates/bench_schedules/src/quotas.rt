//! How many turns of each hart are still to be drawn.

ghost use Rattle.std.specs.Prelude.{◌≤◌, ◌<◌};

use board_model::HartId;
use rand_core::Rng;

/// How many turns of each hart, by its number, a stretch names up to the last of its lines that did something in
/// the script's own run. The part of the stretch in which an order matters.
#[derive(Clone, Copy, Drop)]
pub struct Front {
    pub turns: [u64; 8],
}

/// A number below a bound, each with the same chance as near as 64 bits tell; 0 where the bound is 0.
pub fn below<R: Rng>(rng: &mut R, bound: u64) -> u64
    ensures { 0 < bound → result < bound }
{
    if bound == 0 {
        return 0;
    }
    rng.next_u64() % bound
}

/// The turns of all harts together, or the largest number.
pub fn total(turns: &[u64; 8]) -> u64 {
    let mut all = 0u64;
    for count in turns {
        all = all.saturating_add(*count);
    }
    all
}

/// How many harts have turns.
pub fn harts(turns: &[u64; 8]) -> u64 {
    let mut all = 0u64;
    for count in turns {
        if 0 < *count {
            all = all.saturating_add(1);
        }
    }
    all
}

/// The n-th hart that has turns, from 0 on, but for the one of that number.
pub fn hart_at(turns: &[u64; 8], n: u64, but: u64) -> Option<HartId> {
    let mut left = n;
    for number in 0..8 {
        let hart = HartId::new(number).unwrap();
        if number != but && 0 < turns[hart.index()] {
            if left == 0 {
                return Some(hart);
            }
            left -= 1;
        }
    }
    None
}

/// How many turns of each hart are drawn: half of them at most, and five quarters of the front at most.
pub fn drawn_part(turns: &[u64; 8], front: &Front) -> [u64; 8] {
    let mut part = [0; 8];
    for place in 0..8usize {
        let used = front.turns[place];
        part[place] = (turns[place] / 2).min(used.saturating_add(used / 4));
    }
    part
}

/// That share of each hart's turns, in thousandths, taken from them.
pub fn take_share(turns: &mut [u64; 8], share: u64) -> [u64; 8] {
    let mut taken = [0; 8];
    for place in 0..8usize {
        let part = (turns[place].saturating_mul(share) / 1000).min(turns[place]);
        taken[place] = part;
        turns[place] -= part;
    }
    taken
}

/// A part of a number of lines, as that front's turns are of so many.
pub fn part_of(spare: usize, front: &Front, all: u64) -> usize
    ensures { result ≤ spare }
{
    let room = spare as u64;
    let part = room.saturating_mul(total(&front.turns)) / all.max(1);
    part.min(room) as usize
}
