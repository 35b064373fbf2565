//! What a holder of a shared store heard that is no receipt.

ghost use Rattle.std.specs.Prelude.{◌≡◌, [], false};
ghost use Rattle.hart_threads.specs.Bused.{AreWakes, HoldsWakes, console_part};
ghost use Rattle.hart_threads.specs.Doubts.{HoldsDoubt, doubt_told};
ghost use Rattle.tallies.specs.Books.{part_view};
ghost use Rattle.hart_threads.specs.Heard.{Hearing, after_look, after_refusal, heard_nothing};

use crate::bus_turns::BusPart;
use crate::doubts::OfDoubts;
use board_model::{Command, Durable, Entry, Refusal};
use std::marker::Model;
use tallies::{BookPart, Journal};

/// How many commands of the console were refused, the last of these with its refusal, and the one of them that is in doubt;
/// how often the console was shown the state, and which it was last; and how often it woke the board. Only a shared store and a
/// shared bus add to it: so one that has more of them asked a store or a bus, and nobody wakes the board without it. A life has
/// one, which comes with its store before that is shared (`Unshared::new`) and goes back once
/// the life has ended. A count begins anew at 2^64.
#[derive(Drop)]
pub struct Heard<J: Journal> {
    refused: u64,
    refusal: Option<(Command, Refusal)>,
    pub(crate) doubt: Option<Command>,
    shown: u64,
    state: Option<Durable>,
    pub(crate) woken: u64,
    // Its part of the book of what is in doubt, which stays here but for the moment in which that book notes a command.
    pub(crate) part: Option<BookPart<OfDoubts<J>, Entry>>,
    // Its part of the history of the bus, the same: it was told each time that the console woke the board.
    pub(crate) run: Option<BusPart<J>>,
}

impl<J: Journal> Model for Heard<J> {
    ghost Value = { Hearing };

    ghost view = { λ h. record { refused = h.refused; refusal = h.refusal; doubt = h.doubt; shown = h.shown; state = h.state; woken = h.woken } };

    ghost invariant = { λ h. HoldsDoubt h.part h.doubt × HoldsWakes h.run h.woken };
}

impl<J: Journal> Heard<J> {
    /// Nothing yet.
    pub(crate) fn nothing(part: BookPart<OfDoubts<J>, Entry>, run: BusPart<J>) -> Heard<J>
        requires part { part.told ≡ [] }
        requires run { run ≡ part_view console_part [] }
        ensures { result ≡ heard_nothing }
    {
        Heard {
            refused: 0,
            refusal: None,
            doubt: None,
            shown: 0,
            state: None,
            woken: 0,
            part: Some(part),
            run: Some(run),
        }
    }

    /// A command was refused, which did not put it in doubt.
    pub(crate) fn refuse(&mut self, command: Command, refusal: Refusal)
        ensures { self.new ≡ after_refusal false command refusal self.old }
    {
        self.refused = self.refused.wrapping_add(1);
        self.refusal = Some((command, refusal));
    }

    /// The state was shown.
    pub(crate) fn show(&mut self, state: Durable)
        ensures { self.new ≡ after_look state self.old }
    {
        self.shown = self.shown.wrapping_add(1);
        self.state = Some(state);
    }

    /// The life has ended: what the book of what is in doubt was told of the console, and what it did with the bus.
    pub(crate) fn into_parts(self) -> (BookPart<OfDoubts<J>, Entry>, BusPart<J>)
        ensures doubt { result.0.told ≡ doubt_told self.doubt }
        ensures woken { AreWakes self.woken result.1 }
    {
        let Heard { part, run, .. } = self;
        let Some(part) = part else { unreachable!() };
        let Some(run) = run else { unreachable!() };
        (part, run)
    }

    /// How many commands were refused.
    pub fn refused(&self) -> u64
        ensures { result ≡ self.now.refused }
    {
        self.refused
    }

    /// The last of them, and why.
    pub fn refusal(&self) -> Option<(Command, Refusal)>
        ensures { result ≡ self.now.refusal }
    {
        self.refusal
    }

    /// The one of them that is in doubt: it was refused 6, and no command of the life was in doubt before it.
    pub fn in_doubt(&self) -> Option<Command>
        ensures { result ≡ self.now.doubt }
    {
        self.doubt
    }

    /// How often the state was shown.
    pub fn shown(&self) -> u64
        ensures { result ≡ self.now.shown }
    {
        self.shown
    }

    /// The state that was shown last.
    pub fn state(&self) -> Option<Durable>
        ensures { result ≡ self.now.state }
    {
        self.state
    }

    /// How often the board was woken.
    pub fn woken(&self) -> u64
        ensures { result ≡ self.now.woken }
    {
        self.woken
    }
}
