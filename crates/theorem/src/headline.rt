//! The promises, in order.
//!
//! Five words carry them all. `DurableState` is what a board keeps without power, and `after` is what a command
//! makes of it (board_model). `StandsFor c size s`: these bytes, as the content of a disk, are the state s, with
//! the memory of its image (store). Of the facts of a disk, `may_leave` has each content that may be there where
//! power fails now, and `since` each that might have been there where it failed at a moment since (disk).
//! A law runs nothing, and tells the prover a fact: `content_determines_state`.
ghost use Rattle.std.specs.Prelude.{◌+◌, ◌++◌, ◌<◌, ◌≤◌, ◌≡◌, ◌⊎◌, ◌↔◌, ℕ, Some, None, IfOk, MatchOption, MatchResult, length, map, take};
ghost use Rattle.board_model.specs.Durable.{DurableState, Image, Change, Consume, after};
ghost use Rattle.board_model.specs.Shapes.{Size};
ghost use Rattle.board_model.specs.Views.{change_of};
ghost use Rattle.board_model.specs.declared.boot_mode.BootMode.{BootMode};
ghost use Rattle.board_model.specs.declared.refusal.Refusal.{Refusal};
ghost use Rattle.disk.specs.Facts.{Content};
ghost use Rattle.store.specs.Asked.{Asked};
ghost use Rattle.store.specs.Leaves.{IsIdle, Leaves, LeavesOnly};
ghost use Rattle.store.specs.Lives.{Applied};
ghost use Rattle.store.specs.Standing.{StandsFor};
ghost use Rattle.store.specs.Views.{disk_of, size_of_store, found_state, now_state, doubt_of, journal_of};
ghost use Rattle.board.specs.Views.{store_of, machine_of};
ghost use Rattle.machine.specs.Machine.{woken};
ghost use Rattle.theorem.specs.Prefixes.{IsAfterFirst, in_doubt};

use board::{Board, BoardParts, Payloads, Unpowered};
use board_model::{BootMode, Command, Refusal};
use disk::Disk;
use ram::Ram;
use simdisk::{Fill, SimDisk};
use std::alloc::Global;
use store::{Receipt, Store, content_determines_state};
use susp::Bus;

/// Issues a command.
fn issue<D: Disk + Drop>(store: &mut Store<D>, command: &Command) -> Result<Receipt, Refusal>
    ensures { Asked Applied store.old (change_of command.now) result store.new }
{
    store.apply(*command)
}

/// *After a prefix of the commands that holds every acknowledged one.* Of a row of commands of one life, up to the
/// first that is not acknowledged: a crash at any moment of it leaves what could have been left at its start, or
/// what some first of the commands make of the state before it, and so for each moment from which one looks on; a
/// crash at its end leaves what the acknowledged ones make, and where the row ended with a 6 that, or what these and the next
/// one make: a command that was refused by another number is not kept. Answers how many were acknowledged: the journal of the
/// life grew by just these; and the refusal at which the row ended, which is 6 just where a command is in doubt.
pub fn commands_in_a_row<D: Disk + Drop>(
    store: &mut Store<D>,
    commands: &[Command],
) -> (usize, Option<Refusal>)
    requires up { doubt_of store.old ≡ None }
    ensures wherever_power_fails { (t : ℕ) (c : Content) → t ≤ (disk_of store.old).moment
        → (disk_of store.new).since t c → (disk_of store.old).since t c
        ⊎ IsAfterFirst (size_of_store store.old) (now_state store.old) commands.now 0 (result.0 + 1) c }
    ensures holds_every_acknowledged_one { (c : Content) → (disk_of store.new).may_leave c
        → IsAfterFirst (size_of_store store.old) (now_state store.old) commands.now result.0
        (result.0 + in_doubt result.1) c }
    ensures acknowledged { journal_of store.new ≡ journal_of store.old ++ map change_of (take result.0 commands.now) }
    ensures ended { MatchOption result.1 (result.0 ≡ length commands.now) (λ e. result.0 < length commands.now) }
    ensures doubtful { (result.1 ≡ Some Refusal.Down) ↔ ((c : Change) × (doubt_of store.new ≡ Some c)) }
{
    store.stands();
    let mut acknowledged = 0;
    for command in commands {
        match issue(store, command) {
            Ok(_) => acknowledged += 1,
            Err(refusal) => return (acknowledged, Some(refusal)),
        }
    }
    (acknowledged, None)
}

/// *A cold boot finds.* An open that answers Ok finds the state that the bytes of the disk stand for, and one that
/// a crash just before it could have left; and from then on a crash leaves no other.
pub fn a_cold_boot_finds_what_stands<D: Disk + Drop>(
    alloc: Global,
    disk: D,
) -> Result<Store<D>, (D, Refusal)>
    requires { IsIdle (D.facts disk) }
    ensures finds { (size : Size) (s : DurableState) → StandsFor (D.facts disk).content size s
        → IfOk result (λ store. (size_of_store store ≡ size) × (found_state store ≡ s)) }
    ensures left { IfOk result (λ store. Leaves (D.facts disk) (size_of_store store) (found_state store)) }
    ensures settled { IfOk result (λ store. LeavesOnly (disk_of store) (size_of_store store) (found_state store)) }
{
    content_determines_state();
    Store::open(alloc, disk)
}

/// *Its suspension's memory byte for byte, with every hart stopped but one, which is resumed at its address with
/// its number and opaque value.* A board that is powered on to resume, and is on, goes on with the image of the
/// state that its open found: it is `woken` from it, and only once the image is consumed: from then on no crash
/// leaves it.
pub fn a_board_is_resumed<D: Disk + Drop>(
    alloc: Global,
    disk: D,
    payloads: &Payloads,
) -> Result<Board<D>, Unpowered<D>>
    requires { IsIdle (D.facts disk) }
    ensures resumed { IfOk result (λ board. (i : Image) × ((found_state (store_of board)).image ≡ Some i)
        × (machine_of board ≡ woken i (size_of_store (store_of board)))) }
    ensures found { IfOk result (λ board. Leaves (D.facts disk) (size_of_store (store_of board))
        (found_state (store_of board))) }
    ensures consumed { IfOk result (λ board. LeavesOnly (disk_of (store_of board)) (size_of_store (store_of board))
        (after (found_state (store_of board)) Consume)) }
{
    Board::power_on(alloc, disk, BootMode::Resume, payloads)
}

/// *An image whose consumption was acknowledged is never resumed again.* The two as one run of a disk in memory,
/// whatever fault it is armed with: a board is resumed from an image that a crash could have left, power fails, and no next
/// power-on resumes a board: no image stands (8), or the disk failed, or memory was refused. Answers the memory that was
/// resumed, byte for byte the image's, and what came of that power-on.
pub fn never_resumed_again(
    alloc: Global,
    disk: SimDisk,
    payloads: &Payloads,
    fill: Fill,
) -> Result<(Ram, Result<Board<SimDisk>, Unpowered<SimDisk>>), Unpowered<SimDisk>>
    requires { IsIdle (⟦<SimDisk as Disk>⟧.facts disk) }
    ensures { IfOk result (λ run. (size : Size) × (s : DurableState) × (i : Image)
        × Leaves (⟦<SimDisk as Disk>⟧.facts disk) size s × (s.image ≡ Some i) × (run.0 ≡ i.memory)
        × MatchResult run.1 (λ board. ⊥) (λ e. (e.refusal ≡ Refusal.NoImage) ⊎ (e.refusal ≡ Refusal.Device)
        ⊎ (e.refusal ≡ Refusal.Memory))) }
{
    content_determines_state();
    let first = Board::power_on(alloc, disk, BootMode::Resume, payloads)?;
    let BoardParts {
        harts: _,
        seats: _,
        tables: _,
        bus,
        store,
    } = first.into_parts();
    let Bus { ram, doze: _ } = bus;
    let left = store.into_disk().after_cut(fill);
    let again = Board::power_on(alloc, left, BootMode::Resume, payloads);
    Ok((ram, again))
}
