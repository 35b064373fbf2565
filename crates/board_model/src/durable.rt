//! The durable state as the code knows it, and its commands.

ghost use Rattle.std.specs.Prelude.{◌≡◌, ℕ, List};
ghost use Rattle.board_model.specs.Durable.{DurableState, Suspend, Consume, Discard, Tries, Good, Attempt, ends_life};
ghost use Rattle.board_model.specs.Views.{reason_number, change_of, change_in, durable_of, IsNextOf};

use crate::numbers::{Addr, Boots, HartId, Slot};
use crate::refusal::Refusal;

/// Why the board was reset (SBI specification 2.0, chapter SRST).
#[derive(Clone, Copy, PartialEq, Eq, Drop)]
pub enum Reason {
    NoReason,
    SystemFailure,
}

impl Reason {
    /// The number that SRST gives it: 0 no reason, 1 system failure.
    pub fn number(self) -> u32
        ensures { result ≡ reason_number self }
    {
        match self {
            Reason::NoReason => 0,
            Reason::SystemFailure => 1,
        }
    }
}

/// A durable command that carries no memory. `Slot` and `Tries` may name any number: a slot is refused above 3,
/// and a trial has 1 to 7 boots.
#[derive(Clone, Copy, PartialEq, Eq, Drop)]
pub enum Command {
    Slot(u32),
    Reset(Reason),
    Consume,
    Discard,
    /// The slot becomes this one, on trial for so many boots.
    Tries(u32, u32),
    /// The slot on trial is kept.
    Good,
    /// A boot uses up one of the trial's, or falls back where none is left.
    Attempt,
}

/// A durable command as a journal keeps it. A suspension stands there without its memory, which the image
/// reads as.
#[derive(Clone, Copy, PartialEq, Eq, Drop)]
pub enum Entry {
    Command(Command),
    /// The hart that suspended the board, the address at which it is resumed, and the value that it is given
    /// in a1.
    Suspend(HartId, Addr, u64),
}

impl Entry {
    /// Whether the command ends the life in which it is issued: a reset and a suspension do.
    pub fn ends_life(&self) -> bool
        ensures { (memory : List ℕ) → result ≡ ends_life (change_in self.now memory) }
    {
        match self {
            Entry::Command(Command::Reset(_)) => true,
            Entry::Command(_) => false,
            Entry::Suspend(..) => true,
        }
    }
}

/// What stands of an image beside its memory.
#[derive(Clone, Copy, PartialEq, Eq, Drop)]
pub struct ImageHead {
    /// The serial that its suspension took.
    pub serial: u64,
    /// The hart that suspended the board, and that is resumed.
    pub hart: HartId,
    /// The address at which it is resumed.
    pub address: Addr,
    /// The value that it is resumed with, in a1.
    pub opaque: u64,
}

/// The trial of a boot slot.
#[derive(Clone, Copy, PartialEq, Eq, Drop)]
pub struct Trial {
    /// The slot to fall back to.
    pub fallback: Slot,
    /// How many boots are left.
    pub left: Boots,
}

/// The durable state without the image's memory.
#[derive(Clone, Copy, PartialEq, Eq, Drop)]
pub struct Durable {
    pub image: Option<ImageHead>,
    pub slot: Slot,
    pub reason: Reason,
    /// The serial of the next suspension.
    pub next: u64,
    /// The trial of the slot, where one stands.
    pub trial: Option<Trial>,
}

impl Durable {
    /// The state after the command: docs/DURABLE.md, "Commands". Refused `BadSlot` for a slot above 3, then
    /// `BadTries` for a trial of other than 1 to 7 boots, `NoImage` for Consume or Discard without an image, and
    /// `NoTrial` for Good or Attempt without a trial.
    pub fn after(&self, command: Command) -> Result<Durable, Refusal>
        ensures { (s : DurableState) → durable_of s ≡ self.now → IsNextOf s (change_of command) result }
    {
        match command {
            Command::Slot(number) => {
                let slot = Slot::new(number).ok_or(Refusal::BadSlot)?;
                Ok(Durable {
                    slot,
                    trial: None,
                    ..*self
                })
            }
            Command::Reset(reason) => Ok(Durable { reason, ..*self }),
            Command::Consume => self.without_image(),
            Command::Discard => self.without_image(),
            Command::Tries(number, boots) => self.on_trial(number, boots),
            Command::Good => self.confirmed(),
            Command::Attempt => self.attempted(),
        }
    }

    /// The state after a suspension by `hart`, to be resumed at `address` with `opaque` in a1, whatever the
    /// memory. Refused `SerialsSpent` where the next serial is 2^64 - 1.
    pub fn after_suspend(
        &self,
        hart: HartId,
        address: Addr,
        opaque: u64,
    ) -> Result<Durable, Refusal>
        ensures { (s : DurableState) (memory : List ℕ) → durable_of s ≡ self.now
            → IsNextOf s (Suspend hart address opaque memory) result }
    {
        let serial = self.next;
        let next = serial.checked_add(1).ok_or(Refusal::SerialsSpent)?;
        let image = ImageHead {
            serial,
            hart,
            address,
            opaque,
        };
        Ok(Durable {
            image: Some(image),
            next,
            ..*self
        })
    }

    fn without_image(&self) -> Result<Durable, Refusal>
        ensures consume { (s : DurableState) → durable_of s ≡ self.now → IsNextOf s Consume result }
        ensures discard { (s : DurableState) → durable_of s ≡ self.now → IsNextOf s Discard result }
    {
        if self.image.is_none() {
            return Err(Refusal::NoImage);
        }
        Ok(Durable {
            image: None,
            ..*self
        })
    }

    /// The slot of that number on trial for so many boots, with the fallback of a trial that stands.
    fn on_trial(&self, number: u32, boots: u32) -> Result<Durable, Refusal>
        ensures { (s : DurableState) → durable_of s ≡ self.now → IsNextOf s (Tries number boots) result }
    {
        let slot = Slot::new(number).ok_or(Refusal::BadSlot)?;
        if boots == 0 {
            return Err(Refusal::BadTries);
        }
        let left = Boots::new(boots).ok_or(Refusal::BadTries)?;
        let fallback = match self.trial {
            None => self.slot,
            Some(trial) => trial.fallback,
        };
        Ok(Durable {
            slot,
            trial: Some(Trial { fallback, left }),
            ..*self
        })
    }

    fn confirmed(&self) -> Result<Durable, Refusal>
        ensures { (s : DurableState) → durable_of s ≡ self.now → IsNextOf s Good result }
    {
        if self.trial.is_none() {
            return Err(Refusal::NoTrial);
        }
        Ok(Durable {
            trial: None,
            ..*self
        })
    }

    fn attempted(&self) -> Result<Durable, Refusal>
        ensures { (s : DurableState) → durable_of s ≡ self.now → IsNextOf s Attempt result }
    {
        let Some(trial) = self.trial else {
            return Err(Refusal::NoTrial);
        };
        match trial.left.fewer() {
            Some(left) => Ok(Durable {
                trial: Some(Trial { left, ..trial }),
                ..*self
            }),
            None => Ok(Durable {
                slot: trial.fallback,
                trial: None,
                ..*self
            }),
        }
    }
}
