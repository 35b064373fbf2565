//! What the boot slots hold.

ghost use Rattle.std.specs.Prelude.{◌≡◌, ◌≤◌, ◌↔◌, ℕ, List, [], ◌∷◌, length, IsTrue, IfOk, slice_set, All};
ghost use Rattle.board_model.specs.Shapes.{ram_bytes_of};
ghost use Rattle.board.specs.Boots.{PayloadsFit, payload_at};

use board_model::{Shape, Slot};
use std::alloc::{AllocError, Global};
use std::marker::Model;

/// The bytes that each of the four boot slots boots, which contracts see as a list of four lists.
#[derive(Drop)]
pub struct Payloads {
    slots: [Vec<u8>; 4],
}

impl Model for Payloads {
    ghost use Rattle.std.specs.Prelude.{ℕ, List, map};

    ghost Value = { List (List ℕ) };

    ghost view = { λ p. map (λ v. v.items) p.slots };
}

/// Whether each of the lists fits into the RAM of a board.
fn all_fit(lists: &[Vec<u8>], shape: &Shape) -> bool
    ensures told { IsTrue result ↔ All (λ v. length v.items ≤ ram_bytes_of shape.now) lists.now }
    ensures least { 4096 ≤ ram_bytes_of shape.now }
{
    let bytes = shape.ram_bytes();
    lists.iter().all(|list| list.len() <= bytes)
}

impl Payloads {
    /// Four empty payloads.
    pub fn new(alloc: Global) -> Self
        ensures { result ≡ [] ∷ [] ∷ [] ∷ [] ∷ [] }
    {
        Payloads {
            slots: [
                Vec::new(alloc),
                Vec::new(alloc),
                Vec::new(alloc),
                Vec::new(alloc),
            ],
        }
    }

    /// Replaces what a slot boots.
    pub fn set(&mut self, slot: Slot, payload: Vec<u8>)
        ensures { self.new ≡ slice_set self.old slot payload.items }
    {
        self.slots[slot.index()] = payload;
    }

    /// What a slot boots.
    pub fn get(&self, slot: Slot) -> &[u8]
        ensures { result.now ≡ payload_at self.now slot }
    {
        self.slots[slot.index()].as_slice()
    }

    /// A copy of the payloads, in memory of its own. Refused `AllocError` where memory is.
    pub fn copy(&self) -> Result<Payloads, AllocError>
        ensures { IfOk result (λ copy. copy ≡ self.now) }
    {
        let slots = self.slots.clone()?;
        Ok(Payloads { slots })
    }

    /// Whether each of them fits into the RAM of a board.
    pub fn fit(&self, shape: &Shape) -> bool
        ensures told { IsTrue result ↔ PayloadsFit shape.now self.now }
        ensures least { 4096 ≤ ram_bytes_of shape.now }
    {
        all_fit(&self.slots, shape)
    }
}
