//! Laws of orders, each the contract of a function that does nothing.

ghost use Rattle.std.specs.Prelude.{◌≡◌, ℕ, List, ◌++◌, All};
ghost use Rattle.script_lang.specs.declared.line.Line.{Line};
ghost use Rattle.bench_schedules.specs.Orders.{IsTurn, named, other_count, AreOrderOf};

/// Where lines of turns take the place of others, and each hart has as many turns in them, the lines are an order of
/// the others: whatever stands before and after them.
#[tactic(auto, using(crate::proofs::SeenRows::order_of_rows))]
pub fn rows_may_change()
    ensures { (front old new back : List Line) → All IsTurn old → All IsTurn new
        → ((h : ℕ) → named h new ≡ named h old) → AreOrderOf (front ++ (old ++ back)) (front ++ (new ++ back)) }
{}

/// An order of lines has as many lines that are no turns.
#[tactic(auto, using(crate::proofs::SeenRows::others_stay))]
pub fn orders_keep_lines()
    ensures { (old new : List Line) → AreOrderOf old new → other_count new ≡ other_count old }
{}
