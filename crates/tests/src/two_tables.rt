//! The use of both tables that docs/TABLES.md, "A first use", names.

ghost use Rattle.std.specs.Prelude.{◌≡◌, ◌<◌};
ghost use Rattle.hsm.specs.Rule.{stands};
ghost use Rattle.hsm.specs.declared.view.Stage.TheVariants.{Out, Running};
ghost use Rattle.hsm.specs.Seating.{IsSeatOf, harts_of, hart_view_of_seat, harts_in};
ghost use Rattle.hsm.specs.Outcomes.{opening_view};
ghost use Rattle.ipi.specs.Ledger.{opening_pending_view as opening_pairs};
ghost use Rattle.ipi.specs.Pairs.{Sits};
ghost use Rattle.ipi.specs.Seating.{IsSeatOf as IsPairSeatOf, harts_of as targets_of, pending_view_of_seat as pairs_of};

use board_model::{Addr, HartId, HartSet};
use hsm::{HartSeat, HartTable, SeatTable, State, start, status, try_enter};
use ipi::{IpiSeat, PendingTable};
use std::thread::{Threads, join};

/// What hart 0 sees of hart 1, what hart 1 begins with, and who has interrupted it.
pub type SeenState = (State, (Option<(Addr, u64)>, HartSet));

// ----
/// The hart of that number.
pub fn hart(number: u64) -> HartId
    requires { number < 8 }
    ensures { result ≡ number }
{
    HartId::new(number).unwrap()
}

/// Hart 0 starts hart 1 and interrupts it. Hart 1 begins on a thread of its own, and takes the interrupt.
pub fn first_use<R: Threads + Sync>(
    rt: &R,
    harts: &HartTable,
    whole: HartSeat,
    pending: &PendingTable,
    pairs: IpiSeat,
) -> SeenState
    requires harts { (harts_of harts.now ≡ 2) × IsSeatOf harts.now whole × (hart_view_of_seat whole ≡ opening_view 2 0) }
    requires pending { (targets_of pending.now ≡ 2) × IsPairSeatOf pending.now pairs × (pairs_of pairs ≡ opening_pairs 2) }
{
    let address = Addr::new(0x8000_0000).unwrap();
    let (seat, seat_of_one) = harts.split_first(whole);
    let (pair, pair_of_one) = pending.split_first(pairs);
    let (seat, _granted) = start(harts, seat, hart(0), hart(1), address, 7);
    let (_pair, _newly) = pending.raise(pair, hart(0), hart(1));
    join(
        rt,
        move || -> State
            requires { IsSeatOf harts.now seat × stands 0 Running (harts_in seat) × (1 < harts_of harts.now) }
        { status(harts, seat, hart(0), hart(1)).1 },
        move || -> (Option<(Addr, u64)>, HartSet)
            requires harts { IsSeatOf harts.now seat_of_one × stands 1 Out (harts_in seat_of_one) × (1 < harts_of harts.now) }
            requires pending { IsPairSeatOf pending.now pair_of_one × Sits 1 (pairs_of pair_of_one) × (1 < targets_of pending.now) }
        {
            let (_seat, entry) = try_enter(harts, seat_of_one, hart(1));
            let (_pair, senders) = pending.take(pair_of_one, hart(1));
            (entry, senders)
        },
    )
}
// ----
