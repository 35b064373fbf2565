//! Registers that a turn does not read.
//! A law runs nothing, and tells the prover a fact: `rv_decode::word_determines_instruction`.

ghost use Rattle.std.specs.Prelude.{◌⊎◌, ℕ, List};
ghost use Rattle.board_model.specs.Shapes.{Size};
ghost use Rattle.model_board.specs.Boards.{Board};
ghost use Rattle.model_board.specs.Events.{Event, Does};
ghost use Rattle.model_board.specs.Maps.{Map, Keeps, Local};
ghost use Rattle.model_board.specs.Registers.{KnowsHart, MovesPc, board_holding, EventUnread, TurnsUnread};

/// What happens to a board does not depend on register k of hart h where the event does not read it: boards that differ in registers which are
/// written before they are read come to the same.
///
/// - `same`: the event does the same whatever the register holds, and leaves it as it is or overwrites it.
/// - `keeps`: it keeps a map whatever the register holds.
/// - `local`: a local turn that changes the pc is local whatever the register holds.
pub fn unread_register()
    ensures same { (h k x : ℕ) (payload : List ℕ) (size : Size) (e : Event) (b c : Board)
        → KnowsHart h b → EventUnread e h k b → Does payload size e b c
        → Does payload size e (board_holding h k x b) (board_holding h k x c)
        ⊎ Does payload size e (board_holding h k x b) c }
    ensures keeps { (map : Map) (h k x : ℕ) (e : Event) (b : Board) → KnowsHart h b → EventUnread e h k b → Keeps map e b
        → Keeps map e (board_holding h k x b) }
    ensures local { (map : Map) (h k x g : ℕ) (b c : Board) → KnowsHart h b → TurnsUnread g h k b → MovesPc g b c
        → Local map g b c → Local map g (board_holding h k x b) (board_holding h k x c) ⊎ Local map g (board_holding h k x b) c }
{
    rv_decode::word_determines_instruction();
}
