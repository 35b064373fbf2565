//! The seats of loops that have ended, which come back to the tables of their life.

ghost use Rattle.std.specs.Prelude.{◌≡◌, ◌<◌, ◌+◌, ◌++◌, []};
ghost use Rattle.std.proofs.Props.{props};
ghost use Rattle.std.specs.Coded.{×_prop};
ghost use Rattle.arrayvec.specs.ArrayVec.{array_vec_len};
ghost use Rattle.hsm.specs.Rule.{HasSteps};
ghost use Rattle.hsm.specs.Seating.{all_harts, started_in};
ghost use Rattle.ipi.specs.Ledger.{HasSteps as HasRaises};
ghost use Rattle.ipi.specs.Seating.{all_pending_views};
ghost use Rattle.tallies.specs.Seats.{AreSeats, IsSeatIn};
ghost use Rattle.sbi_calls.specs.Both.{harts_of_both, pending_views, views};
ghost use Rattle.hart_threads.specs.Seated.{AreNamed, AreSeatsIn};
ghost use Rattle.board_session.specs.Seats.{AreSeats-prop};

use arrayvec::ArrayVec;
use hart_threads::Threaded;
use sbi_calls::{Seats, Tables};
use std::marker::PhantomData;

/// Seats of both tables of a life, of one loop after another.
#[derive(Drop)]
pub(crate) struct SeatsBack<J: Threaded> {
    starts: hsm::Seats,
    raises: ipi::Seats,
    of: PhantomData<J>,
    ghost theirs: { AreSeats (IsSeatIn J.starts) starts.items × AreSeats (IsSeatIn J.raises) raises.items } by { ×_prop (AreSeats-prop (IsSeatIn J.starts) starts.items (λ s. Prim.hlevel props))
        (AreSeats-prop (IsSeatIn J.raises) raises.items (λ s. Prim.hlevel props)) },
    ghost many: { array_vec_len raises ≡ array_vec_len starts },
}

impl<J: Threaded> SeatsBack<J> {
    /// None yet.
    pub(crate) fn new() -> SeatsBack<J>
        ensures none { array_vec_len result.starts ≡ 0 }
        ensures starts { all_harts result.starts.items ≡ [] }
        ensures raises { all_pending_views result.raises.items ≡ [] }
    {
        let starts = ArrayVec::new();
        let raises = ArrayVec::new();
        SeatsBack {
            starts,
            raises,
            of: PhantomData,
        }
    }

    /// The seats of one loop more.
    pub(crate) fn push(&mut self, seats: Seats)
        requires theirs { AreSeatsIn J.starts J.raises seats }
        requires room { array_vec_len self.old.starts < 8 }
        ensures many { array_vec_len self.new.starts ≡ array_vec_len self.old.starts + 1 }
        ensures starts { all_harts self.new.starts.items ≡ all_harts self.old.starts.items ++ views seats }
        ensures raises { all_pending_views self.new.raises.items
            ≡ all_pending_views self.old.raises.items ++ pending_views seats }
    {
        let Seats { harts, pending } = seats;
        self.starts.push(Some(harts));
        self.raises.push(Some(pending));
    }

    /// The seats are joined, by which the harts of each are known to have their steps in the one log of its table.
    pub(crate) fn join(self, tables: &Tables)
        requires named { AreNamed J.starts J.raises tables.now }
        requires some { 0 < array_vec_len self.starts }
        ensures starts { HasSteps (harts_of_both tables.now) (started_in tables.now.harts) (all_harts self.starts.items) }
        ensures raises { HasRaises (harts_of_both tables.now) (all_pending_views self.raises.items) }
    {
        let SeatsBack {
            starts,
            raises,
            of: _,
        } = self;
        tables.harts.join(starts);
        tables.pending.join(raises);
    }
}
