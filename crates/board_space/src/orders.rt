//! Every order of the turns of the harts of a board, and of what else may happen to it; or those in which few harts are preempted, or with few
//! power-ons.
//! A law runs nothing, and tells the prover a fact: `model_board::local_turns_change_places`.

ghost use Rattle.std.specs.Prelude.{◌≡◌, ◌<◌, ◌≤◌, ℕ, List, Bool};
ghost use Rattle.model_board.specs.Boards.{Board};
ghost use Rattle.model_board.specs.Events.{Event, IsEnd, GoesOn};
ghost use Rattle.model_board.specs.Maps.{Map};
ghost use Rattle.state_space.specs.Orders.{Runs, Leads, CanEnd};
ghost use Rattle.state_space.specs.Graphs.{IsFound, count_of, expanded_of, row_at};
ghost use Rattle.state_space.specs.Deads.{IsMarked, Reaches};
ghost use Rattle.state_space.specs.Systems.{Moves};
ghost use Rattle.state_space.specs.Ways.{IsWay};
ghost use Rattle.state_space.specs.declared.graph.Graph.{Graph};
ghost use Rattle.board_space.specs.Few.{IsLastBy, RunsBy};
ghost use Rattle.board_space.specs.Moving.{Moving};
ghost use Rattle.board_space.specs.Searches.{IsFollowed, IsSearchBy, StandsBy};
ghost use Rattle.board_space.specs.Space.{Asked, Happens, Settles, start_of, board_rules, GoesBy};
ghost use Rattle.board_space.specs.declared.bounds.Bound.{Bound as AnyBound};

/// What rows of numbers stand for. It stands in contracts alone.
pub trait StandsFor {
    ghost Tables: { Type 0 };

    /// The boards for which a row stands, by some tables.
    ghost stands: { Tables → List ℕ → Board → Type 0 };
}

/// What is known of the turns of the harts of a board.
fn board_moves()
    ensures { Moving }
{
    model_board::local_turns_change_places();
}

/// A search speaks of the boards that the orders that are asked for lead to, from a board that was never on: every order, those in which
/// at most so many harts are preempted, or those with at most so many power-ons.
///
/// - `ends`: where the search is closed, a row of the graph stands for such a board if it is at an end.
/// - `no_dead_end`: where besides each row reaches a goal by events that are no failures, some such events lead from such a board to an
///   end, or, where power-ons are bounded, to where the next one is due: the goals are such.
/// - `stuck`: from a board of a row no such events lead to an end, where none of the rows that they lead to is a goal: those are at no
///   end, and all that follows them is known.
/// - `settles`: local turns are events.
/// - `ways`: the events of a way lead from the board to which the first one settles to one of its row, where the board settles after each.
/// - `reached`: some events lead to a board of each row, whether or not the search is closed.
pub fn every_order<S: StandsFor>()
    ensures ends { (asked : Asked) (map : Map) (bound : AnyBound) (tables : S.Tables) (graph : Graph)
        → IsSearchBy asked map bound (S.stands tables) graph → expanded_of graph ≡ count_of graph → asked.size.harts ≤ 8
        → (events : List Event) (last : Board) → RunsBy asked bound events last
        → IsEnd last → IsFound (StandsBy bound (S.stands tables)) graph last }
    ensures no_dead_end { (asked : Asked) (map : Map) (bound : AnyBound) (tables : S.Tables) (graph : Graph) (goals : List Bool)
        → IsSearchBy asked map bound (S.stands tables) graph → expanded_of graph ≡ count_of graph → asked.size.harts ≤ 8
        → ((k : ℕ) → IsMarked goals k → (b : Board) → StandsBy bound (S.stands tables) (row_at graph k) b → IsLastBy bound b)
        → ((k : ℕ) → k < count_of graph → Reaches (GoesBy asked) graph goals k)
        → (events : List Event) (last : Board) → RunsBy asked bound events last
        → CanEnd (Happens asked) GoesOn (IsLastBy bound) last }
    ensures stuck { (asked : Asked) (map : Map) (bound : AnyBound) (tables : S.Tables) (graph : Graph) (goals : List Bool)
        → IsSearchBy asked map bound (S.stands tables) graph → asked.size.harts ≤ 8
        → ((k : ℕ) → k < count_of graph → (IsMarked goals k → ⊥) → IsFollowed asked.size.harts bound (S.stands tables) graph k)
        → (k : ℕ) (b : Board) → k < count_of graph → (Reaches (GoesBy asked) graph goals k → ⊥)
        → StandsBy bound (S.stands tables) (row_at graph k) b → CanEnd (Happens asked) GoesOn IsEnd b → ⊥ }
    ensures settles { (asked : Asked) (map : Map) (b c : Board) → Settles asked.size map b c → Leads (Happens asked) b c }
    ensures ways { (asked : Asked) (map : Map) (bound : AnyBound) (tables : S.Tables) (graph : Graph)
        → IsSearchBy asked map bound (S.stands tables) graph → (way : List ℕ) (row : ℕ) → IsWay graph way row
        → (first : Board) × (b : Board) × Settles asked.size map (start_of asked) first
        × Runs (Moves (board_rules asked map)) way first b × StandsBy bound (S.stands tables) (row_at graph row) b }
    ensures reached { (asked : Asked) (map : Map) (bound : AnyBound) (tables : S.Tables) (graph : Graph)
        → IsSearchBy asked map bound (S.stands tables) graph → (k : ℕ) → k < count_of graph
        → (b : Board) × StandsBy bound (S.stands tables) (row_at graph k) b × Leads (Happens asked) (start_of asked) b }
{
    board_moves();
}
