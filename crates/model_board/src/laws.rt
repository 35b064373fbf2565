//! Laws of the definitions, the contracts of functions that do nothing.

ghost use Rattle.std.specs.Prelude.{◌≡◌, ◌⊎◌, ℕ, List};
ghost use Rattle.board_model.specs.Shapes.{Size};
ghost use Rattle.machine.specs.Machine.{Machine};
ghost use Rattle.machine.specs.Turns.{MakesTurn};
ghost use Rattle.sbi_calls.specs.declared.words.Turned.{Turned};
ghost use Rattle.model_board.specs.Boards.{Board};
ghost use Rattle.model_board.specs.Events.{Event, Turn, Does, IsEnd, IsOff};
ghost use Rattle.model_board.specs.Maps.{Map, Keeps, KeepsMap, Local, SameOutside};

/// What a local turn of a hart does, it does at any later moment too, as long as each other event keeps the map.
///
/// - `turns`, `one`: a local turn is the turn of its hart, and its one outcome.
/// - `moves`: a board of which a hart has a local turn is at no end.
/// - `decides`: an event is the turn of the hart or it is not.
/// - `keeps_back`: what keeps the map after a local turn keeps it before.
/// - `keeps_own`: so does the local turn itself.
/// - `swaps`: another event that keeps the map after the local turn leads to the same board without it, which is off, since
///   what the turn did is lost; or the turn is local after the event too, and both orders meet.
pub fn local_turns_change_places()
    ensures turns { (payload : List ℕ) (size : Size) (map : Map) (h : ℕ) (b b' : Board) → Local map h b b'
        → Does payload size (Turn h) b b' }
    ensures one { (payload : List ℕ) (size : Size) (map : Map) (h : ℕ) (b b' c : Board) → Local map h b b'
        → Does payload size (Turn h) b c → c ≡ b' }
    ensures moves { (map : Map) (h : ℕ) (b b' : Board) → Local map h b b' → IsEnd b → ⊥ }
    ensures decides { (h : ℕ) (e : Event) → (e ≡ Turn h) ⊎ (e ≡ Turn h → ⊥) }
    ensures keeps_back { (map : Map) (h : ℕ) (e : Event) (b b' : Board) → Local map h b b' → Keeps map e b'
        → Keeps map e b }
    ensures keeps_own { (map : Map) (h : ℕ) (b b' : Board) → Local map h b b' → Keeps map (Turn h) b }
    ensures swaps { (payload : List ℕ) (size : Size) (map : Map) (h : ℕ) (e : Event) (b b' c : Board) → Local map h b b'
        → (e ≡ Turn h → ⊥) → Keeps map e b' → Does payload size e b c
        → (Does payload size e b' c × IsOff c) ⊎ ((c' : Board) × Does payload size e b' c' × Local map h c c') }
{
    machine::machine_determines_turn();
}

/// An event leads from a board to one board at most.
pub fn event_determines_board()
    ensures { (payload : List ℕ) (size : Size) (e : Event) (b c d : Board) → Does payload size e b c
        → Does payload size e b d → c ≡ d }
{
    machine::machine_determines_turn();
}

/// What a turn that keeps a map leaves of the memory: each byte of a word that no hart may write by the map.
pub fn turn_outside()
    ensures { (map : Map) (h : ℕ) (m n : Machine) (word : Turned) → KeepsMap map h m → MakesTurn h m n word
        → SameOutside map m.memory n.memory }
{}
