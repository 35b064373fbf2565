//! The durable state with the memory of its image: what the benches compare with what an open finds.

ghost use Rattle.std.specs.Prelude.{◌≡◌, IfOk};
ghost use Rattle.board_model.specs.Views.{change_in};

use crate::bytes::Bytes;
use crate::durable::{Command, Durable, Entry, ImageHead, Reason, Trial};
use crate::numbers::{Addr, HartId, Slot};
use crate::refusal::Refusal;
use std::alloc::{AllocError, Global};

/// An image with its memory.
#[derive(PartialEq, Eq, Drop)]
pub struct PlainImage {
    pub head: ImageHead,
    /// The byte at address 0x80000000 first.
    pub memory: Bytes,
}

/// The durable state with the memory of its image.
#[derive(PartialEq, Eq, Drop)]
pub struct Plain {
    pub slot: Slot,
    pub reason: Reason,
    /// The serial of the next suspension.
    pub next: u64,
    /// The trial of the slot, where one stands.
    pub trial: Option<Trial>,
    pub image: Option<PlainImage>,
}

impl Plain {
    ghost use Rattle.board_model.specs.Durable.{Suspend, formatted};
    ghost use Rattle.board_model.specs.Views.{change_of, durable_of, head_of};
    ghost use Rattle.board_model.specs.Plains.{state_in, IsPlainNext, IsPlainOf};

    /// What a format leaves.
    pub fn formatted() -> Plain
        ensures { state_in result ≡ formatted }
    {
        Plain {
            slot: Slot::new(0).unwrap(),
            reason: Reason::NoReason,
            next: 0,
            trial: None,
            image: None,
        }
    }

    /// The state after a command, as docs/DURABLE.md, "Commands", says it; a suspension carries this memory,
    /// and no other command reads it.
    ///
    /// Refused as `Durable::after` and `Durable::after_suspend` say, and else `Memory` where memory is refused.
    pub fn after(&self, alloc: Global, entry: Entry, memory: &[u8]) -> Result<Plain, Refusal>
        ensures { IsPlainNext (state_in self.now) (change_in entry memory.now) result }
    {
        match entry {
            Entry::Command(command) => self.after_command(alloc, command),
            Entry::Suspend(hart, address, opaque) => {
                self.suspended(alloc, hart, address, opaque, memory)
            }
        }
    }

    fn after_command(&self, alloc: Global, command: Command) -> Result<Plain, Refusal>
        ensures { IsPlainNext (state_in self.now) (change_of command) result }
    {
        let next = self.durable().after(command)?;
        let image = match next.image {
            None => None,
            Some(_) => self.image_copy(alloc)?,
        };
        Ok(Plain {
            slot: next.slot,
            reason: next.reason,
            next: next.next,
            trial: next.trial,
            image,
        })
    }

    fn image_copy(&self, alloc: Global) -> Result<Option<PlainImage>, AllocError>
        ensures { IfOk result (λ copy. copy ≡ self.now.image) }
    {
        let Some(image) = &self.image else {
            return Ok(None);
        };
        let memory = image.memory.copy(alloc)?;
        Ok(Some(PlainImage {
            head: image.head,
            memory,
        }))
    }

    fn suspended(
        &self,
        alloc: Global,
        hart: HartId,
        address: Addr,
        opaque: u64,
        memory: &[u8],
    ) -> Result<Plain, Refusal>
        ensures { IsPlainNext (state_in self.now) (Suspend hart address opaque memory.now) result }
    {
        let serial = self.next;
        let next = serial.checked_add(1).ok_or(Refusal::SerialsSpent)?;
        let memory = Bytes::new(Vec::from_slice(alloc, memory)?);
        let head = ImageHead {
            serial,
            hart,
            address,
            opaque,
        };
        Ok(Plain {
            slot: self.slot,
            reason: self.reason,
            next,
            trial: self.trial,
            image: Some(PlainImage { head, memory }),
        })
    }

    /// A state of its own, equal to this one, with the memory of its image.
    pub fn copy(&self, alloc: Global) -> Result<Plain, AllocError>
        ensures { IfOk result (λ copy. copy ≡ self.now) }
    {
        let image = self.image_copy(alloc)?;
        Ok(Plain {
            slot: self.slot,
            reason: self.reason,
            next: self.next,
            trial: self.trial,
            image,
        })
    }

    /// The durable state, without the memory.
    pub fn durable(&self) -> Durable
        ensures { result ≡ durable_of (state_in self.now) }
    {
        Durable {
            image: self.head(),
            slot: self.slot,
            reason: self.reason,
            next: self.next,
            trial: self.trial,
        }
    }

    fn head(&self) -> Option<ImageHead>
        ensures { result ≡ head_of (state_in self.now).image }
    {
        match &self.image {
            None => None,
            Some(image) => Some(image.head),
        }
    }

    /// A durable state with that memory, where it has an image. Else the memory goes.
    pub fn of(durable: &Durable, memory: Bytes) -> Plain
        ensures { IsPlainOf durable.now memory result }
    {
        let image = match durable.image {
            None => None,
            Some(head) => Some(PlainImage { head, memory }),
        };
        Plain {
            slot: durable.slot,
            reason: durable.reason,
            next: durable.next,
            trial: durable.trial,
            image,
        }
    }
}
