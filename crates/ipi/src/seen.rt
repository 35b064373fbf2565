//! A law of the definitions, the contract of a function that does nothing: a view of all harts shows one set
//! of pairs.

ghost use Rattle.std.specs.Prelude.{◌≡◌, ◌<◌, ◌≤◌, ℕ, Bool, false, List};
ghost use Rattle.tallies.specs.Seats.{numbers_from};
ghost use Rattle.ipi.specs.Ledger.{HasEveryHart, PendingSeatView};
ghost use Rattle.ipi.specs.Pairs.{Shows, with_pair, without_target};
ghost use Rattle.ipi.specs.Views.{pair_in, pairs_in, pair_at, AreRows, ArePairs, pairs_with, pairs_without};
ghost use Rattle.tallies.specs.Notes.{numbers};

/// The pending pairs that the view of a seat of all harts shows are those that `pair_in` computes of it, and
/// `pairs_in` as a list. A pair with a sender that the board lacks is never pending.
pub fn seat_determines_pairs()
    ensures one { (harts : ℕ) (c : PendingSeatView) (pairs : ℕ → ℕ → Bool) → Shows harts c pairs → (sender target : ℕ)
        → pair_in c sender target ≡ pairs sender target }
    ensures seen { (harts : ℕ) (c : PendingSeatView) → HasEveryHart harts c → Shows harts c (pair_in c) }
    ensures range { (harts : ℕ) (c : PendingSeatView) → numbers c.harts ≡ numbers_from 0 harts
        → (sender target : ℕ) → harts ≤ sender → pair_in c sender target ≡ false }
    ensures list { (harts : ℕ) (c : PendingSeatView) (pairs : List (List Bool)) → ArePairs harts c pairs
        → pairs_in harts c ≡ pairs }
    ensures read { (harts : ℕ) (c : PendingSeatView) (sender target : ℕ) → sender < harts → target < harts
        → pair_at (pairs_in harts c) sender target ≡ pair_in c sender target }
    ensures raised { (harts : ℕ) (c : PendingSeatView) (sender target : ℕ) (pairs : List (List Bool))
        → AreRows harts pairs → sender < harts → target < harts
        → Shows harts c (with_pair sender target (pair_at pairs)) → ArePairs harts c (pairs_with sender target pairs) }
    ensures taken { (harts : ℕ) (c : PendingSeatView) (target : ℕ) (pairs : List (List Bool)) → AreRows harts pairs
        → target < harts
        → Shows harts c (without_target target (pair_at pairs)) → ArePairs harts c (pairs_without target pairs) }
{}
