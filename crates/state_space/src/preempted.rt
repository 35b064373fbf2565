//! Every order with a bounded number of preemptions.

ghost use Rattle.std.specs.Prelude.{◌≡◌, ℕ, List, Option};
ghost use Rattle.state_space.specs.Orders.{Chain, Reduction, CanEnd};
ghost use Rattle.state_space.specs.Bounded.{Budget, Within, Richer, Switching, IsClosedWithin, MeetsWithin};

/// Processes whose turns come in any order in which few of them are preempted. It stands in contracts alone.
pub trait Preemptions {
    ghost State: { Type 0 };

    ghost Event: { Type 0 };

    /// Which sets of states, each with what is left of the switches, there are.
    ghost Set: { Type 0 };

    ghost does: { Event → State → State → Type 0 };

    ghost turn: { ℕ → Event };

    /// The process whose turn an event is, if it is one.
    ghost by: { Event → Option ℕ };

    /// By which events a state goes on where nothing fails: each turn is one.
    ghost goes: { Event → Type 0 };

    ghost is_end: { State → Type 0 };

    /// Where no turn changes anything.
    ghost is_off: { State → Type 0 };

    ghost keeps: { Event → State → Type 0 };

    ghost is_local: { ℕ → State → State → Type 0 };

    ghost is_in: { Set → State → Budget → Type 0 };
}

/// A set that is closed but for local turns within a number of switches speaks of each state that a list of events within it leads to.
///
/// - `meets`: such a state is in the set if it is at an end, and some events lead from it into the set.
/// - `no_dead_end`: where some events by which a state goes on lead from each state of the set to an end, some do from such a state.
pub fn bounded_orders<S: Preemptions>()
    ensures meets { (set : S.Set) (most n : ℕ) (start first last : S.State) (w v r : Budget) (events : List S.Event)
        → Reduction S.does S.turn S.is_end S.keeps S.is_local → Switching S.does S.turn S.keeps S.is_local S.by S.is_off
        → ((p : ℕ) → S.goes (S.turn p)) → IsClosedWithin S.does S.turn S.by most S.keeps S.is_local (S.is_in set)
        → Chain S.is_local n start first → S.is_in set first v → Richer v w
        → Within S.does S.turn S.by most events start w last r
        → MeetsWithin S.does S.turn S.by most S.goes S.is_end S.keeps (S.is_in set) last r }
    ensures no_dead_end { (set : S.Set) (most n : ℕ) (start first last : S.State) (w v r : Budget) (events : List S.Event)
        → Reduction S.does S.turn S.is_end S.keeps S.is_local → Switching S.does S.turn S.keeps S.is_local S.by S.is_off
        → ((p : ℕ) → S.goes (S.turn p)) → IsClosedWithin S.does S.turn S.by most S.keeps S.is_local (S.is_in set)
        → ((x : S.State) (u : Budget) → S.is_in set x u → CanEnd S.does S.goes S.is_end x)
        → Chain S.is_local n start first → S.is_in set first v → Richer v w
        → Within S.does S.turn S.by most events start w last r → CanEnd S.does S.goes S.is_end last }
{}
