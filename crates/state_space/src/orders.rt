//! Every order of turns, by a set that does not hold them all.

ghost use Rattle.std.specs.Prelude.{◌≡◌, ℕ, List};
ghost use Rattle.state_space.specs.Orders.{Runs, Chain, Reduction, IsClosed, Meets, CanEnd};

/// Processes whose turns come in any order, beside other events. It stands in contracts alone.
pub trait Orders {
    ghost State: { Type 0 };

    ghost Event: { Type 0 };

    /// Which sets of states there are.
    ghost Set: { Type 0 };

    ghost does: { Event → State → State → Type 0 };

    ghost turn: { ℕ → Event };

    /// By which events a state goes on where nothing fails: each turn is one.
    ghost goes: { Event → Type 0 };

    ghost is_end: { State → Type 0 };

    ghost keeps: { Event → State → Type 0 };

    ghost is_local: { ℕ → State → State → Type 0 };

    ghost is_in: { Set → State → Type 0 };
}

/// A set that is closed but for local turns speaks of each state that any list of events leads to.
///
/// - `meets`: such a state is in the set if it is at an end, and some events lead from it into the set.
/// - `no_dead_end`: where some events by which a state goes on lead from each state of the set to an end, some do from such a state.
pub fn all_orders<S: Orders>()
    ensures meets { (set : S.Set) (n : ℕ) (start first last : S.State) (events : List S.Event)
        → Reduction S.does S.turn S.is_end S.keeps S.is_local → ((p : ℕ) → S.goes (S.turn p))
        → IsClosed S.does S.keeps S.is_local (S.is_in set)
        → Chain S.is_local n start first → S.is_in set first → Runs S.does events start last
        → Meets S.does S.goes S.is_end S.keeps (S.is_in set) last }
    ensures no_dead_end { (set : S.Set) (n : ℕ) (start first last : S.State) (events : List S.Event)
        → Reduction S.does S.turn S.is_end S.keeps S.is_local → ((p : ℕ) → S.goes (S.turn p))
        → IsClosed S.does S.keeps S.is_local (S.is_in set)
        → ((x : S.State) → S.is_in set x → CanEnd S.does S.goes S.is_end x)
        → Chain S.is_local n start first → S.is_in set first → Runs S.does events start last
        → CanEnd S.does S.goes S.is_end last }
{}
