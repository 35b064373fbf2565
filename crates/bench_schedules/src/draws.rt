//! How an order is drawn. What is drawn is craft: a deal gives each hart its turns whatever is asked of it.

ghost use Rattle.std.specs.Prelude.{◌<◌, OnOk};
ghost use Rattle.bench_schedules.specs.Deals.{GoesOn};

use crate::deal::Deal;
use crate::quotas::{Front, below, drawn_part, hart_at, harts, take_share, total};
use board_model::HartId;
use rand_core::Rng;
use std::alloc::AllocError;

/// No hart is held.
const NO_HART: u64 = 8;

/// In how many of 1,000 slices a hart begins to be held, in a stretch that holds at all.
const HOLDS: u64 = 20;

/// The mean of the longest class of slices, in turns.
const LONG_SLICE: u64 = 64;

/// Slices of drawn lengths.
#[derive(Drop)]
struct Slices {
    /// How many turns of each hart are still to be drawn.
    quota: [u64; 8],
    /// The most turns of a slice: 2 to 128.
    size: u64,
    /// In how many of 1,000 slices a hold begins.
    holds: u64,
    /// The number of the hart that is held, or 8.
    held: u64,
    /// So many turns are made before the hold ends.
    until: u64,
    /// How many turns were drawn.
    made: u64,
}

impl Slices {
    /// Draws the class of the slices, and whether there are holds.
    fn begin<R: Rng>(rng: &mut R, quota: [u64; 8]) -> Slices {
        let class = below(rng, 7);
        let holds = if below(rng, 2) == 0 { 0 } else { HOLDS };
        Slices {
            quota,
            size: 2u64 << class,
            holds,
            held: NO_HART,
            until: 0,
            made: 0,
        }
    }

    /// Ends a hold that is over, and begins one by chance.
    fn hold<R: Rng>(&mut self, rng: &mut R) {
        if self.made < self.until {
            return;
        }
        self.held = NO_HART;
        let live = harts(&self.quota);
        if below(rng, 1000) < self.holds && 1 < live {
            let n = below(rng, live);
            if let Some(hart) = hart_at(&self.quota, n, NO_HART) {
                self.held = u64::from(hart.number());
                let class = below(rng, 12);
                let length = below(rng, 8u64 << class);
                self.until = self.made.saturating_add(length).saturating_add(1);
            }
        }
    }

    /// The hart of the next slice: none where only the held one has turns, and then the hold is over.
    fn next_hart<R: Rng>(&mut self, rng: &mut R) -> Option<HartId> {
        self.hold(rng);
        let live = harts(&self.quota);
        let others = if self.held < NO_HART {
            live.saturating_sub(1)
        } else {
            live
        };
        let n = below(rng, others);
        let hart = hart_at(&self.quota, n, self.held);
        if hart.is_none() {
            self.until = self.made;
        }
        hart
    }

    /// Deals the next slice.
    fn deal_one<R: Rng>(&mut self, deal: &mut Deal, rng: &mut R) -> Result<(), AllocError>
        ensures { OnOk result (GoesOn deal.old deal.new) }
    {
        let Some(hart) = self.next_hart(rng) else {
            return Ok(());
        };
        let place = hart.index();
        let most = below(rng, self.size)
            .saturating_add(1)
            .min(self.quota[place]);
        deal.give(hart, most)?;
        self.quota[place] -= most;
        self.made = self.made.saturating_add(most);
        Ok(())
    }
}

/// Deals slices of drawn lengths, while there is room for lines.
#[tactic(auto, using(crate::proofs::Deals::goes_on_same, crate::proofs::Deals::goes_on_twice))]
fn deal_slices<R: Rng>(
    deal: &mut Deal,
    rng: &mut R,
    quota: [u64; 8],
    room: usize,
) -> Result<(), AllocError>
    ensures { OnOk result (GoesOn deal.old deal.new) }
{
    let mut slices = Slices::begin(rng, quota);
    let end = deal.lines.len().saturating_add(room);
    'slices: for _ in 0..u64::MAX {
        let next = deal.lines.len().saturating_add(1);
        if end <= next || total(&slices.quota) == 0 {
            return Ok(());
        }
        slices.deal_one(deal, rng)?;
    }
    Ok(())
}

/// Deals each hart its part of what is left to it, where so many rounds are to come.
#[tactic(auto, using(crate::proofs::Deals::goes_on_same, crate::proofs::Deals::goes_on_twice))]
fn deal_round(deal: &mut Deal, left: &mut [u64; 8], rounds: u64) -> Result<(), AllocError>
    requires { 0 < rounds }
    ensures { OnOk result (GoesOn deal.old deal.new) }
{
    for number in 0..8 {
        let hart = HartId::new(number).unwrap();
        let place = hart.index();
        let most = left[place].div_ceil(rounds).min(left[place]);
        deal.give(hart, most)?;
        left[place] -= most;
    }
    Ok(())
}

/// Deals these turns round by round.
#[tactic(auto, using(crate::proofs::Deals::goes_on_same, crate::proofs::Deals::goes_on_twice))]
fn deal_fairly(deal: &mut Deal, turns: [u64; 8], rounds: u64) -> Result<(), AllocError>
    ensures { OnOk result (GoesOn deal.old deal.new) }
{
    let mut left = turns;
    for round in 0..rounds {
        deal_round(deal, &mut left, rounds - round)?;
    }
    Ok(())
}

/// Where not all drawn turns have room, a part of them at a drawn place is drawn, and those before it are dealt
/// fairly.
#[tactic(auto, using(crate::proofs::Deals::goes_on_same, crate::proofs::Deals::goes_on_twice))]
fn deal_before<R: Rng>(
    deal: &mut Deal,
    rng: &mut R,
    quota: &mut [u64; 8],
    room: u64,
) -> Result<(), AllocError>
    ensures { OnOk result (GoesOn deal.old deal.new) }
{
    let all = total(quota);
    let most = (room / 2).saturating_mul(LONG_SLICE);
    if all <= most {
        return Ok(());
    }
    let window = most.saturating_mul(1000) / all.max(1);
    let share = below(rng, 1000u64.saturating_sub(window));
    let before = take_share(quota, share);
    let live = harts(&before).max(1);
    deal_fairly(deal, before, (room / 8 / live).max(1))
}

/// Draws an order of a deal's turns in at most so many lines: the first part of the stretch, where the script's own
/// run did something, in slices of drawn lengths, and the rest round by round. So many lines the stretch has itself.
#[tactic(auto, using(crate::proofs::Deals::goes_on_same, crate::proofs::Deals::goes_on_twice))]
pub fn draw<R: Rng>(
    deal: &mut Deal,
    rng: &mut R,
    front: &Front,
    count: usize,
    room: usize,
) -> Result<(), AllocError>
    ensures { OnOk result (GoesOn deal.old deal.new) }
{
    let live = harts(&deal.left).max(1);
    let mut quota = drawn_part(&deal.left, front);
    deal_before(deal, rng, &mut quota, room as u64)?;
    deal_slices(deal, rng, quota, room / 2)?;
    let spare = room.saturating_sub(deal.lines.len()) as u64;
    let own = (count as u64).saturating_mul(4) / live;
    let rounds = (spare / live).saturating_sub(8).min(own.max(200));
    let left = deal.left;
    deal_fairly(deal, left, rounds)
}
