//! A board as a power-on begins it.

use crate::payloads::Payloads;
use crate::powered::{Board, BoardParts, Unpowered};
use crate::ready::ready;
use board_model::BootMode;
use disk::Disk;
use machine::BegunMachine;
use std::alloc::Global;
use store::Store;

/// A board that was powered on and that no hart has made a turn on. A board that shares its tables with threads begins so.
#[derive(Drop)]
pub struct BegunBoard<D: Disk + Drop> {
    /// The durable state, with its disk.
    pub store: Store<D>,
    /// The memory and the harts.
    pub machine: BegunMachine,
}

impl<D: Disk + Drop> BegunBoard<D> {
    ghost use Rattle.std.specs.Prelude.{◌≡◌, ◌⊎◌, ◌<◌, ◌+◌, length, None, Some, IfOk, IfErr, MatchResult};
    ghost use Rattle.board_model.specs.declared.refusal.Refusal.{Refusal};
    ghost use Rattle.disk.specs.Facts.{counted};
    ghost use Rattle.store.specs.Leaves.{IsIdle};
    ghost use Rattle.store.specs.Opens.{ReadsAs, open_calls};
    ghost use Rattle.store.specs.Views.{disk_of, fault_state_of, size_of_store, found_state, view_of};
    ghost use Rattle.machine.specs.Held.{AreUntouched, IsHeld, board_of};
    ghost use Rattle.board.specs.Views.{store_of, machine_of};
    ghost use Rattle.board.specs.PowersOn.{IsOn, IsUnpowered, OffCalls, KeepsDisk, GivesDisk};
    ghost use Rattle.board.specs.Readies.{boot_calls};

    /// Powers a board on, and makes no turn on it: as `Board::power_on`, which has what it does and how it is refused.
    pub fn power_on(
        alloc: Global,
        disk: D,
        mode: BootMode,
        payloads: &Payloads,
    ) -> Result<BegunBoard<D>, Unpowered<D>>
        requires { IsIdle (D.facts disk) }
        ensures on { IfOk result (λ board. IsOn mode payloads.now (D.facts disk) (view_of board.store)
            board.machine) }
        ensures off { IfErr result (λ e. IsUnpowered mode payloads.now e.found e.now (D.facts disk) e.refusal
            (D.facts e.disk)) }

        // A disk that reads as no state is refused so, or for its failure; one without sectors before any
        // call of it.
        ensures refuses { (e : Refusal) → ReadsAs (D.facts disk).content e
            → MatchResult result (λ board. ⊥) (λ f. (f.found ≡ None)
            × ((f.refusal ≡ e) ⊎ (f.refusal ≡ Refusal.Device))) }
        ensures no_sectors { length (D.facts disk).content ≡ 0
            → MatchResult result (λ board. ⊥) (λ f. (f.refusal ≡ Refusal.BadShape) × (f.found ≡ None)
            × (f.disk ≡ disk)) }

        // Of a disk that has sectors.
        ensures calls { 0 < length (D.facts disk).content
            → MatchResult result (λ board. (disk_of board.store).calls
            ≡ counted (D.facts disk).calls (open_calls (D.facts disk).content
            + boot_calls mode (size_of_store board.store) (found_state board.store)))
            (λ e. OffCalls (D.facts disk).content e.found e.refusal (D.facts disk).calls (D.facts e.disk).calls) }

        ensures keeps { MatchResult result (λ board. KeepsDisk (D.facts disk) (D.fault_state disk)
            (disk_of board.store) (fault_state_of board.store))
            (λ e. GivesDisk (D.facts disk) (D.fault_state disk) e.refusal (D.facts e.disk) (D.fault_state e.disk)) }
    {
        let mut store = match Store::open(alloc, disk) {
            Ok(store) => store,
            Err((disk, refusal)) => {
                return Err(Unpowered {
                    disk,
                    found: None,
                    now: None,
                    refusal,
                });
            }
        };
        match ready(alloc, &mut store, mode, payloads) {
            Ok(machine) => Ok(BegunBoard { store, machine }),
            Err(refusal) => Err(Unpowered {
                found: Some(store.found()),
                now: Some(store.now()),
                disk: store.into_disk(),
                refusal,
            }),
        }
    }

    /// The board, on which the harts may make turns.
    pub fn into_board(self) -> Board<D>
        ensures store { store_of result ≡ self.store }
        ensures machine { machine_of result ≡ self.machine }
    {
        let BegunBoard { store, machine } = self;
        Board::of(store, machine.into_machine())
    }

    /// Takes the board apart. No step was noted in its tables.
    pub fn into_parts(self) -> BoardParts<D>
        ensures machine { self.machine ≡ board_of self.machine.size result.bus.ram result.bus.doze result.harts.items result.seats }
        ensures held { IsHeld self.machine.size result.harts.items result.tables (Some result.seats) result.bus.doze }
        ensures untouched { AreUntouched self.machine.size.harts result.tables result.seats }
        ensures store { result.store ≡ self.store }
    {
        let BegunBoard { store, machine } = self;
        let machine::Parts {
            harts,
            seats,
            tables,
            bus,
        } = machine.into_parts();
        BoardParts {
            harts,
            seats,
            tables,
            bus,
            store,
        }
    }
}
