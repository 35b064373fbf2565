//! A board beside the model board over which every order of its harts is explored: what happens to it is such an event.
//! A law runs nothing, and tells the prover a fact: `hart::step_keeps_number`.
ghost use Rattle.std.specs.Prelude.{◌≡◌, ◌<◌, ℕ, List, None, Some, IfOk, OnOk, length};
ghost use Rattle.board_model.specs.Durable.{Change};
ghost use Rattle.disk.specs.Facts.{LeavesSince};
ghost use Rattle.store.specs.Leaves.{IsIdle, Leaves, LeavesOnly};
ghost use Rattle.store.specs.Views.{disk_of, size_of_store, life_of, found_state, now_state, doubt_of};
ghost use Rattle.board.specs.Boots.{payload_at};
ghost use Rattle.board.specs.Views.{store_of, machine_of};
ghost use Rattle.model_board.specs.Boards.{Off};
ghost use Rattle.model_board.specs.Events.{Event, PowerOn, Wake, Does};
ghost use Rattle.theorem.specs.Models.{IsLeftBy, IsOfBoard, IsTurnOf, kept_of, rule_by, shown_after, shown_on};

use board::{Board, Payloads, Unpowered};
use board_model::{BootMode, HartId, Refusal};
use crew::Crew;
use disk::Disk;
use sbi::Word;
use std::alloc::Global;

/// *Each turn of a board is an event of the model board*: the turn of that hart, or where the store refuses the sleep or the reset
/// that it asks for, that refusal. The model's board before it is this board's machine, with what stands on the disk; the one
/// after it is too.
pub fn a_turn_is_an_event<D: Disk + Drop, C: Crew>(
    alloc: Global,
    board: &mut Board<D>,
    crew: &C,
    hart: HartId,
) -> Word
    requires board { IsOfBoard (size_of_store (store_of board.old)) (machine_of board.old) }
    requires hart { hart < length (machine_of board.old).harts }
    ensures event { (payload : List ℕ) → (e : Event) × IsTurnOf hart e
        × Does payload (size_of_store (store_of board.old)) e
        (shown_on (machine_of board.old) (life_of (store_of board.old)))
        (shown_after result (machine_of board.new) (life_of (store_of board.new))) }
    // Where no command is in doubt, and a crash just before it leaves the state then alone: what a crash leaves at any moment of the
    // turn, within a call of the disk too.
    ensures cuts { doubt_of (store_of board.old) ≡ None
        → LeavesOnly (disk_of (store_of board.old)) (size_of_store (store_of board.old)) (now_state (store_of board.old))
        → LeavesSince (disk_of (store_of board.old)) (disk_of (store_of board.new)) (IsLeftBy (machine_of board.old) (store_of board.old)) }
    // And after it again the state then alone, unless its command is in doubt now.
    ensures sure { doubt_of (store_of board.old) ≡ None → doubt_of (store_of board.new) ≡ None
        → LeavesOnly (disk_of (store_of board.old)) (size_of_store (store_of board.old)) (now_state (store_of board.old))
        → LeavesOnly (disk_of (store_of board.new)) (size_of_store (store_of board.new)) (now_state (store_of board.new)) }
    // With a command in doubt nothing goes to the disk: what a crash leaves is what one left within the turn that asked for that command.
    ensures down { (c : Change) → doubt_of (store_of board.old) ≡ Some c → store_of board.new ≡ store_of board.old }
    ensures board { IsOfBoard (size_of_store (store_of board.new)) (machine_of board.new) }
{
    hart::step_keeps_number();
    board.turn(alloc, crew, hart)
}

/// *Each power-on by the operator's rule is an event of the model board*, resume where an image stands and else fresh: of a model board
/// that is off, with what the state that the open found keeps, which a crash could have left. Then no command is in doubt, and a crash
/// leaves the state then alone.
pub fn a_power_on_is_an_event<D: Disk + Drop>(
    alloc: Global,
    disk: D,
    mode: BootMode,
    payloads: &Payloads,
) -> Result<Board<D>, Unpowered<D>>
    requires { IsIdle (D.facts disk) }
    ensures event { IfOk result (λ board. mode ≡ rule_by (found_state (store_of board)).image
        → Does (payload_at payloads.now (now_state (store_of board)).slot) (size_of_store (store_of board)) PowerOn
        (Off (kept_of (found_state (store_of board)))) (shown_on (machine_of board) (life_of (store_of board)))) }
    ensures found { IfOk result (λ board. Leaves (D.facts disk) (size_of_store (store_of board)) (found_state (store_of board))) }
    ensures sure { IfOk result (λ board. (doubt_of (store_of board) ≡ None)
        × LeavesOnly (disk_of (store_of board)) (size_of_store (store_of board)) (now_state (store_of board))) }
    ensures board { IfOk result (λ board. IsOfBoard (size_of_store (store_of board)) (machine_of board)) }
{
    Board::power_on(alloc, disk, mode, payloads)
}

/// *A wake of a board that dozes is an event of the model board.*
pub fn a_wake_is_an_event<D: Disk + Drop>(board: &mut Board<D>) -> Result<(), Refusal>
    ensures event { OnOk result ((payload : List ℕ) → Does payload (size_of_store (store_of board.old)) Wake
        (shown_on (machine_of board.old) (life_of (store_of board.old)))
        (shown_on (machine_of board.new) (life_of (store_of board.new)))) }
{
    board.wake()
}
