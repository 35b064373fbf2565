//! What the console of a session heard.

ghost use Rattle.std.specs.Prelude.{◌≡◌};
ghost use Rattle.hart_threads.specs.Heard.{Hearing, heard_nothing};

use board_model::{Command, Durable, Refusal};
use hart_threads::{Heard, Journal};
use std::marker::Model;

/// What the console of a session heard of the store beside its receipts: nothing where it was not begun.
#[derive(Drop)]
pub struct ConsoleHeard {
    refused: u64,
    refusal: Option<(Command, Refusal)>,
    doubt: Option<Command>,
    shown: u64,
    state: Option<Durable>,
    woken: u64,
}

impl Model for ConsoleHeard {
    ghost Value = { Hearing };

    ghost view = { λ h. record { refused = h.refused; refusal = h.refusal; doubt = h.doubt; shown = h.shown; state = h.state; woken = h.woken } };
}

impl ConsoleHeard {
    /// No console was begun.
    pub(crate) fn nothing() -> ConsoleHeard
        ensures { result ≡ heard_nothing }
    {
        ConsoleHeard {
            refused: 0,
            refusal: None,
            doubt: None,
            shown: 0,
            state: None,
            woken: 0,
        }
    }

    /// A console has left, which heard that.
    pub(crate) fn of<J: Journal>(heard: &Heard<J>) -> ConsoleHeard
        ensures { result ≡ heard.now }
    {
        ConsoleHeard {
            refused: heard.refused(),
            refusal: heard.refusal(),
            doubt: heard.in_doubt(),
            shown: heard.shown(),
            state: heard.state(),
            woken: heard.woken(),
        }
    }

    /// How many commands were refused. The count begins anew at 2^64.
    pub fn refused(&self) -> u64
        ensures { result ≡ self.now.refused }
    {
        self.refused
    }

    /// The command of the console that is in doubt, if one is: it was answered with refusal 6.
    pub fn in_doubt(&self) -> Option<Command>
        ensures { result ≡ self.now.doubt }
    {
        self.doubt
    }

    /// How often the state was shown. The count begins anew at 2^64.
    pub fn shown(&self) -> u64
        ensures { result ≡ self.now.shown }
    {
        self.shown
    }
}
