//! The wake-up device of a board.

ghost use Rattle.std.specs.Prelude.{◌≡◌, Result};
ghost use Rattle.board_model.specs.declared.refusal.Refusal.{Refusal};
ghost use Rattle.hart_threads.specs.Heard.{after_waking};
ghost use Rattle.hart_threads.specs.Views.{bus_in};
ghost use Rattle.board_session.specs.Wakes.{Wakes, MayWake};

use board_model::Refusal;
use hart_threads::{Heard, Journal, SharedBus};
use std::marker::{Brand, Model};

/// What a call of the wake-up device came to. Nothing but a call makes one, so the console answers `wake` only after one.
#[derive(Drop)]
pub struct Waking {
    answered: Result<(), Refusal>,
}

impl Model for Waking {
    ghost Value = { Result (Unit {0}) Refusal };

    ghost view = { λ w. w.answered };

    ghost inverse = { λ r. record { answered = r } };
}

impl Waking {
    /// Calls the wake-up device, as `SharedBus::wake`: a board that dozes is woken, once, and the console hears of it. Refused
    /// `NotDozing` where none dozes or it was woken already; then nothing changes.
    pub fn call<J: Journal>(bus: &mut SharedBus<J>, heard: &mut Heard<J>) -> Waking
        ensures wakes { Wakes (bus_in bus.old) (bus_in bus.new) result }
        ensures may { MayWake result }
        ensures heard { heard.new ≡ after_waking result heard.old }
    {
        let answered = bus.wake::<Brand>(heard);
        Waking { answered }
    }

    /// What it came to.
    pub fn outcome(&self) -> Result<(), Refusal>
        ensures { result ≡ self.now }
    {
        self.answered
    }
}
