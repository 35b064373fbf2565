//! What a search tells of all states.

ghost use Rattle.std.specs.Prelude.{◌≡◌, ◌<◌, ℕ, List};
ghost use Rattle.state_space.specs.Graphs.{IsSearched, IsFound, IsCovered, IsEndless, count_of, expanded_of, row_at};
ghost use Rattle.state_space.specs.Deads.{ReachesEnd};
ghost use Rattle.state_space.specs.Orders.{Leads, CanEnd};
ghost use Rattle.state_space.specs.Systems.{Moves};
ghost use Rattle.state_space.specs.declared.graph.Graph.{Graph};

use crate::systems::System;

/// What a search tells of the states of a system.
///
/// - `reached`: some state of each row is reached from the start by moves, closed or not.
/// - `closed`: where all rows are expanded, each step of a state found settles to one that was found, and each keeps the system's map.
/// - `can_end`: where a row reaches an end, some moves by which a state goes on lead from its state to an end.
/// - `dead`: where all rows are expanded, the states of the rows that reach no end have no end: each step by which one goes on settles to
///   one of them.
pub fn search_tells<S: System>()
    ensures reached { (system : S) (graph : Graph)
        (searched : IsSearched (S.rules (S.setting system)) (S.stands system) graph) (k : ℕ) → k < count_of graph
        → (b : S.State) × S.stands system (row_at graph k) b × Leads (Moves (S.rules (S.setting system))) searched.start.0 b }
    ensures closed { (system : S) (graph : Graph) → IsSearched (S.rules (S.setting system)) (S.stands system) graph
        → expanded_of graph ≡ count_of graph → IsCovered (S.rules (S.setting system)) (IsFound (S.stands system) graph) }
    ensures can_end { (system : S) (graph : Graph) (k : ℕ) (b : S.State)
        → IsSearched (S.rules (S.setting system)) (S.stands system) graph
        → ReachesEnd (S.rules (S.setting system)).goes graph k → S.stands system (row_at graph k) b
        → CanEnd (Moves (S.rules (S.setting system))) (S.rules (S.setting system)).goes (S.rules (S.setting system)).is_end b }
    ensures dead { (system : S) (graph : Graph) → IsSearched (S.rules (S.setting system)) (S.stands system) graph
        → expanded_of graph ≡ count_of graph
        → IsEndless (S.rules (S.setting system)) (λ b. (k : ℕ) × (k < count_of graph)
        × (ReachesEnd (S.rules (S.setting system)).goes graph k → ⊥) × S.stands system (row_at graph k) b) }
{}
