//! A memory is copied.

ghost use Rattle.std.specs.Prelude.{◌≡◌, IfOk, OnErr};
ghost use Rattle.board_model.specs.declared.refusal.Refusal.TheVariants.{Memory};

use crate::Ram;
use crate::kept::Kept;
use board_model::Refusal;
use std::alloc::Global;

impl Ram {
    /// A memory of the same bytes, of which no word is kept decoded yet. Refused `Memory` where there is no room
    /// for it.
    pub fn copy(&self, alloc: Global) -> Result<Ram, Refusal>
        ensures same { IfOk result (λ copy. copy ≡ self.now) }
        ensures refused { OnErr result (result ≡ Err Memory) }
    {
        let bytes = Vec::from_slice(alloc, self.bytes.as_slice())?;
        Ok(Ram {
            bytes,
            kept: Kept::new(alloc, self.pages() as usize)?,
        })
    }
}
