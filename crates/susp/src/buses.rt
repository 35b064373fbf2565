//! What stands behind the bus lock of a board.

ghost use Rattle.std.specs.Prelude.{◌≡◌, ◌↔◌, true, IsOk, OnOk, IfErr};
ghost use Rattle.board_model.specs.declared.refusal.Refusal.{Refusal};
ghost use Rattle.susp.specs.Dozes.{doze_of, can_wake, after_wake};

use board_model::{HartId, Refusal};
use ram::Ram;
use store::Resumption;

/// The memory of a board, and its doze where it sleeps to RAM: on a board of threads, the value of the bus
/// lock.
#[derive(Drop)]
pub struct Bus {
    /// The memory.
    pub ram: Ram,
    /// The doze, where the board sleeps to RAM.
    pub doze: Option<Doze>,
}

/// A board that sleeps to RAM (SBI specification 2.0, `sbi_system_suspend`, type 0).
#[derive(Clone, Copy, PartialEq, Eq, Drop)]
pub struct Doze {
    /// Where it goes on: by the hart that put it to sleep. Every other hart is STOPPED.
    pub at: Resumption,
    /// Whether the wake-up device has called.
    pub woken: bool,
}

/// The doze, where it is that hart's.
pub fn doze_of(doze: &Option<Doze>, by: HartId) -> Option<Doze>
    ensures { result ≡ doze_of by doze.now }
{
    let own = (*doze)?;
    if own.at.hart == by { Some(own) } else { None }
}

/// Calls the wake-up device: a board that dozes is woken, once. Refused `NotDozing` where none dozes or it was
/// woken already, and then nothing changes.
pub fn wake(bus: &mut Bus) -> Result<(), Refusal>
    ensures ok { IsOk result ↔ (can_wake bus.old.doze ≡ true) }
    ensures ram { bus.new.ram ≡ bus.old.ram }
    ensures woken { OnOk result (bus.new.doze ≡ after_wake bus.old.doze) }
    ensures refused { IfErr result (λ e. (e ≡ Refusal.NotDozing) × (bus.new ≡ bus.old)) }
{
    let Some(doze) = bus.doze else {
        return Err(Refusal::NotDozing);
    };
    if doze.woken {
        return Err(Refusal::NotDozing);
    }
    bus.doze = Some(Doze {
        woken: true,
        ..doze
    });
    Ok(())
}
