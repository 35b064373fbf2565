//! What a machine holds is copied: its harts, and both tables with the one seat of all harts.
//! A law runs nothing, and tells the prover a fact: `hsm::seat_determines_states`, `ipi::seat_determines_pairs`.

ghost use Rattle.std.specs.Prelude.{◌≡◌, IfOk, OnErr};
ghost use Rattle.board_model.specs.declared.refusal.Refusal.TheVariants.{Memory};
ghost use Rattle.sbi_calls.specs.Both.{AreTablesOf};
ghost use Rattle.machine.specs.Held.{AreWhole, quiet_in, shown_by};

use board_model::{HartId, Refusal, Shape};
use hart::Hart;
use sbi_calls::{Seats, Tables};
use std::alloc::Global;
use susp::Doze;

/// Harts that stand as these. Refused `Memory` where there is no room for them.
pub fn copy_harts(alloc: Global, harts: &[Hart]) -> Result<Vec<Hart>, Refusal>
    ensures same { IfOk result (λ copies. copies.items ≡ harts.now) }
    ensures refused { OnErr result (result ≡ Err Memory) }
{
    let mut copies = Vec::new(alloc);
    for hart in harts {
        copies.push(hart.copy())?;
    }
    Ok(copies)
}

/// The hart that is quiet in a doze, where the board has it.
fn quiet_hart(doze: &Option<Doze>, shape: &Shape) -> Option<HartId>
    ensures { result ≡ quiet_in shape.now.harts doze.now }
{
    let doze = (*doze)?;
    shape.hart(u64::from(doze.at.hart.number()))
}

/// Tables that show the same states and pairs, with the one seat of all harts. The seats that are copied stay as
/// they were. Refused `Memory` where there is no room for them.
pub fn copy_tables(
    alloc: Global,
    tables: &Tables,
    seats: &mut Seats,
    shape: &Shape,
    doze: &Option<Doze>,
) -> Result<(Tables, Seats), Refusal>
    requires tables { AreTablesOf shape.now tables.now }
    requires whole { AreWhole shape.now.harts tables.now seats.old doze.now }
    ensures whole { AreWhole shape.now.harts tables.now seats.new doze.now }
    ensures same { shown_by shape.now.harts seats.new ≡ shown_by shape.now.harts seats.old }
    ensures tables { IfOk result (λ t. AreTablesOf shape.now t.0) }
    ensures seats { IfOk result (λ t. AreWhole shape.now.harts t.0 t.1 doze.now) }
    ensures shows { IfOk result (λ t. shown_by shape.now.harts t.1 ≡ shown_by shape.now.harts seats.old) }
    ensures refused { OnErr result (result ≡ Err Memory) }
{
    hsm::seat_determines_states();
    ipi::seat_determines_pairs();
    let quiet = quiet_hart(doze, shape);
    let (harts, all) = hsm::copy(alloc, &tables.harts, &mut seats.harts, shape, quiet)?;
    let (pending, pairs) = tables.pending.copy(alloc, &mut seats.pending, shape)?;
    Ok((
        Tables { harts, pending },
        Seats {
            harts: all,
            pending: pairs,
        },
    ))
}
