//! A machine as a power-on begins it.
//! A law runs nothing, and tells the prover a fact: `hsm::seat_determines_states`, `ipi::seat_determines_pairs`.

ghost use Rattle.std.specs.Prelude.{◌≡◌, ◌⊎◌, ◌≤◌, ◌<◌, ◌+◌, ◌-◌, ◌*◌, ◌++◌, ℕ, length, replicate, IfOk, IfErr, IsErrOf, OnOk, OnErr, Ok, Err, Some};
ghost use Rattle.board_model.specs.Durable.{Image};
ghost use Rattle.board_model.specs.Shapes.{ram_bytes_of};
ghost use Rattle.board_model.specs.declared.refusal.Refusal.TheVariants.{Memory};
ghost use Rattle.disk.specs.Facts.{Failed, counted};
ghost use Rattle.machine.specs.Held.{AreUntouched, IsHeld, board_of};
ghost use Rattle.machine.specs.Machine.{stopped_harts, resting, machine_begun, woken};
ghost use Rattle.store.specs.Answers.{StaysOpen};
ghost use Rattle.store.specs.Lives.{IsLoaded};
ghost use Rattle.store.specs.Views.{disk_of, size_of_store, now_state, failures_at_open, view_of};
ghost use Rattle.susp.specs.Wakes.{IsUnloaded, IsConsumed, WakeStops};

use crate::machine::Machine;
use crate::parts::Parts;
use board_model::{HartId, RAM_BASE, Reason, Refusal, Shape};
use disk::Disk;
use hart::Hart;
use hsm::HartTable;
use ipi::PendingTable;
use ram::Ram;
use sbi_calls::{Seats, Tables};
use std::alloc::Global;
use std::marker::Model;
use store::Store;
use susp::{Bus, wake_image};

/// A machine that no hart has made a turn on: its tables are as they were made, and no hart has noted a step in them. Contracts
/// see it as the record `Machine` of specs/.
#[derive(Drop)]
pub struct BegunMachine {
    parts: Parts,
    shape: Shape,
}

impl Model for BegunMachine {
    ghost use Rattle.std.specs.Prelude.{Some};
    ghost use Rattle.machine.specs.Machine.{Machine};
    ghost use Rattle.machine.specs.Held.{AreUntouched, IsHeld, board_of};

    ghost Value = { Machine };

    ghost view = { λ m. board_of m.shape m.parts.bus.ram m.parts.bus.doze m.parts.harts.items m.parts.seats };

    ghost invariant = { λ m. IsHeld m.shape m.parts.harts.items m.parts.tables (Some m.parts.seats) m.parts.bus.doze
        × AreUntouched m.shape.harts m.parts.tables m.parts.seats };
}

/// The harts of a board, none of which ever ran.
fn stopped_harts(alloc: Global, shape: &Shape) -> Result<Vec<Hart>, Refusal>
    ensures harts { IfOk result (λ harts. harts.items ≡ stopped_harts shape.now.harts) }
    ensures refused { OnErr result (result ≡ Err Memory) }
{
    let mut harts = Vec::new(alloc);
    for number in 0..u64::from(shape.harts()) {
        if let Some(id) = shape.hart(number) {
            harts.push(Hart::stopped(id))?;
        }
    }
    Ok(harts)
}

/// Puts the payload first in a memory of zeros, that of a board of that shape. Without a payload nothing is written.
fn put_payload(shape: &Shape, ram: &mut Ram, payload: &[u8])
    requires zeros { ram.old ≡ replicate (ram_bytes_of shape.now) 0 }
    requires fits { length payload.now ≤ ram_bytes_of shape.now }
    ensures { ram.new ≡ payload.now ++ replicate (ram_bytes_of shape.now - length payload.now) 0 }
{
    if !payload.is_empty() {
        ram.boot(payload);
    }
}

impl BegunMachine {
    /// A board of that shape before a boot, whose hart `first` is to begin: RAM is zeros, every other hart is
    /// STOPPED, and no interrupt is pending. Refused 11 where there is no room for it.
    pub fn new(alloc: Global, shape: &Shape, first: HartId) -> Result<Self, Refusal>
        requires { first < shape.now.harts }
        ensures resting { IfOk result (λ m. m ≡ resting shape.now first) }
        ensures refused { OnErr result (result ≡ Err Memory) }
    {
        let ram = Ram::new(alloc, *shape)?;
        let all = stopped_harts(alloc, shape)?;
        let starts = HartTable::new(alloc, *shape, first)?;
        let raises = PendingTable::new(alloc, *shape)?;
        hsm::seat_determines_states();
        ipi::seat_determines_pairs();
        let parts = Parts {
            bus: Bus { ram, doze: None },
            harts: all,
            tables: Tables {
                harts: starts.0,
                pending: raises.0,
            },
            seats: Seats {
                harts: starts.1,
                pending: raises.1,
            },
        };
        Ok(BegunMachine {
            parts,
            shape: *shape,
        })
    }

    /// Boots a payload on a board of that shape that was just made, whose hart 0 is to begin.
    pub fn boot(&mut self, shape: &Shape, payload: &[u8], reason: Reason)
        requires resting { self.old ≡ resting shape.now 0 }
        requires fits { length payload.now ≤ ram_bytes_of shape.now }
        ensures { self.new ≡ machine_begun payload.now reason shape.now }
    {
        put_payload(shape, &mut self.parts.bus.ram, payload);
        if let Some(first) = shape.hart(0) {
            self.parts.harts[0] = Hart::fresh(first, RAM_BASE, u64::from(reason.number()));
        }
    }

    /// Resumes a board that was just made, whose first hart is that of the image that stands, as
    /// `susp::wake_image` has it: the memory of the image is loaded, then the image is consumed, and only
    /// then its hart stands at its address. No memory is taken. After a refusal the machine is of no use.
    pub fn resume<D: Disk + Drop>(&mut self, store: &mut Store<D>) -> Result<(), Refusal>
        requires resting { (i : Image) → (now_state store.old).image ≡ Some i
            → (self.old ≡ resting (size_of_store store.old) i.hart) × (i.hart < (size_of_store store.old).harts) }
        ensures woken { OnOk result
            ((i : Image) × ((now_state store.old).image ≡ Some i) × (self.new ≡ woken i (size_of_store store.old))
            × (length i.memory ≡ length self.old.memory)) }
        ensures consumed { OnOk result ((n : ℕ) × IsConsumed store.old (Ok n) store.new) }
        ensures refused { IfErr result (λ e. IsUnloaded store.old self.old.memory e store.new
            ⊎ (IsLoaded (now_state store.old) self.new.memory × IsConsumed store.old (Err e) store.new)) }
        ensures untouched { IfErr result (λ e. (e ≡ Refusal.BadShape) ⊎ (e ≡ Refusal.NoImage)
            → (self.new ≡ self.old) × (store.new ≡ store.old)) }
        ensures life { IsErrOf result Refusal.Down
            → Failed (failures_at_open store.new) (disk_of store.new).failures }
        ensures stays { StaysOpen (view_of store.old) (view_of store.new) }
        ensures calls { OnOk result ((disk_of store.new).calls
            ≡ counted (disk_of store.old).calls (2 * (size_of_store store.old).pages + 4)) }
        ensures stops { IfErr result (λ e. WakeStops (size_of_store store.old).pages e (disk_of store.old).calls
            (disk_of store.new).calls) }
    {
        let hart = wake_image(store, &mut self.parts.bus.ram)?;
        let place = hart.id().index();
        self.parts.harts[place] = hart;
        Ok(())
    }

    /// The machine, on which the harts may make turns.
    pub fn into_machine(self) -> Machine
        ensures { result ≡ self }
    {
        let BegunMachine { parts, shape } = self;
        Machine::of(shape, parts)
    }

    /// The parts of the machine, with the seat of all harts, by which `split` makes one for each. No step was noted in its tables.
    pub fn into_parts(self) -> Parts
        ensures is { self ≡ board_of self.size result.bus.ram result.bus.doze result.harts.items result.seats }
        ensures held { IsHeld self.size result.harts.items result.tables (Some result.seats) result.bus.doze }
        ensures untouched { AreUntouched self.size.harts result.tables result.seats }
    {
        let BegunMachine { parts, shape: _ } = self;
        parts
    }
}
