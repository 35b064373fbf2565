//! Turns of a hart, one by one, up to an address.
//! A law runs nothing, and tells the prover a fact: `rows_join`, `idle_turns_change_nothing`.

ghost use Rattle.std.specs.Prelude.{◌≡◌, ◌⊎◌, ◌≤◌, ◌<◌, ◌+◌, ℕ, true, false};
ghost use Rattle.board_model.specs.Shapes.{Size};
ghost use Rattle.bench_report.specs.Bench.{Bench};
ghost use Rattle.bench_report.specs.Lives.{IsSound, Shows};
ghost use Rattle.debug_session.specs.Lives.{HasHalted, Rests, machine_of, pc_in, stands_in};
ghost use Rattle.debug_session.specs.Passes.{GoesTo, machine_left};
ghost use Rattle.bench_report.specs.Rows.{IsOpenRow, IsWithin, RowMoves, is_idle_row, is_off, made_in};

use crate::looks::stands_at;
use bench_report::{LiveBench, Setting, TurnRow, idle_turns_change_nothing, rows_join};
use board_model::HartId;
use crew::Crew;

/// Whether a row of turns goes on.
#[derive(Clone, Copy, Drop)]
enum Next {
    /// The next turn is idle.
    Rests,
    /// It has come to its end, or to an address.
    Halts,
    /// Another may follow.
    Goes,
}

/// One turn more of a row that may go on, and how that goes on. An idle turn changes nothing and is left out.
fn one_more<C: Crew>(
    setting: &Setting<'_, C>,
    bench: &mut LiveBench,
    hart: HartId,
    row: TurnRow,
    points: &[u64],
) -> (TurnRow, Next)
    requires goes { IsOpenRow row }
    requires busy { is_idle_row row ≡ false }
    requires few { made_in row < 1000000 }
    requires some { IsWithin 1000000 row }
    requires sound { IsSound bench.old }
    ensures reported { (size : Size) (b mid : Bench) → RowMoves size hart row b mid → Shows size mid bench.old
        → GoesTo size hart points.now row b mid
        → (is_off row ≡ false → stands_in points.now (pc_in hart (machine_left mid.power)) ≡ false)
        → (new : Bench) × RowMoves size hart result.0 b new × Shows size new bench.new
        × (result.1 ≡ Next.Rests → Rests size hart true new) × GoesTo size hart points.now result.0 b new
        × (result.1 ≡ Next.Goes → stands_in points.now (pc_in hart (machine_left new.power)) ≡ false) }
    ensures within { (most : ℕ) → made_in row < most → IsWithin most row → IsWithin most result.0 }
    ensures busy { is_idle_row result.0 ≡ false }
    ensures goes { result.1 ≡ Next.Goes → IsOpenRow result.0 × (made_in result.0 ≡ made_in row + 1) }
    ensures halts { result.1 ≡ Next.Halts → (size : Size) (b : Bench) → Shows size b bench.old
        → HasHalted hart points.now result.0 (machine_of bench.new) }
    ensures sound { IsSound bench.new }
    ensures fill { bench.new.fill ≡ bench.old.fill }
{
    rows_join();
    idle_turns_change_nothing();
    let next = bench.turns(setting, hart, 1);
    if next.is_idle() {
        return (row, Next::Rests);
    }
    if !next.goes_on() {
        return (row.then(next), Next::Halts);
    }
    if stands_at(bench, hart, points) {
        return (row.then(next), Next::Halts);
    }
    (row.then(next), Next::Goes)
}

/// Turns of a hart one by one, `most` of them at most: up to one after which the hart stands at one of these
/// addresses, one that ends a row of turns, and one before an idle turn, which changes nothing and is left out.
/// What came of them, where any was made; and whether the next turn of the hart is idle.
pub(crate) fn turns_to<C: Crew>(
    setting: &Setting<'_, C>,
    bench: &mut LiveBench,
    hart: HartId,
    most: u32,
    points: &[u64],
) -> (TurnRow, bool)
    requires most { most ≤ 1000000 }
    requires sound { IsSound bench.old }
    ensures reported { (size : Size) (b : Bench) → Shows size b bench.old → (new : Bench)
        × RowMoves size hart result.0 b new × Shows size new bench.new × Rests size hart result.1 new
        × GoesTo size hart points.now result.0 b new }
    ensures range { IsWithin most result.0 }
    ensures busy { is_idle_row result.0 ≡ false }
    // No fewer are made without a reason.
    ensures why { result.1 ≡ false → (size : Size) (b : Bench) → Shows size b bench.old
        → (made_in result.0 ≡ most) ⊎ HasHalted hart points.now result.0 (machine_of bench.new) }
    ensures sound { IsSound bench.new }
    ensures fill { bench.new.fill ≡ bench.old.fill }
{
    let mut row = TurnRow::Off;
    let mut made = 0;
    while made < most {
        let (longer, next) = one_more(setting, bench, hart, row, points);
        row = longer;
        made = row.made();
        match next {
            Next::Rests => return (row, true),
            Next::Halts => return (row, false),
            Next::Goes => {}
        }
    }
    (row, false)
}
