//! The lines that tell how the harts of a session ended (docs/CONSOLE.md, "The harts").

ghost use Rattle.std.specs.Prelude.{◌≡◌, ◌<◌, Some, false, is_some};
ghost use Rattle.hart.specs.Csrs.{csr_number, csr_read};
ghost use Rattle.hart.specs.declared.csr.Csr.{Csr};
ghost use Rattle.board_session.specs.HartTexts.{doze_text, line_text, lines_text, loop_text, place_text, reason_text, state_text, trap_text};

use board_model::{Entry, Value};
use hart::Hart;
use hart_threads::{HartEnd, Why};
use hsm::State;
use rv_decode::{CsrNumber, SCAUSE, SEPC, STVAL};
use std::fmt;

/// The name of a state.
#[derive(Drop)]
struct StateName(State);

impl fmt::Display for StateName {
    ghost output = { λ s. Some (state_text s.0) };

    fn fmt<W: fmt::Write>(&self, f: &mut fmt::Formatter<W>) -> fmt::Result {
        match self.0 {
            State::Started => f.write_str("started"),
            State::Stopped => f.write_str("stopped"),
            State::StartPending => f.write_str("start_pending"),
            State::Suspended => f.write_str("suspended"),
        }
    }
}

/// What is told of a hart by which its board dozes.
#[derive(Drop)]
struct DozeName(bool);

impl fmt::Display for DozeName {
    ghost output = { λ d. Some (doze_text d.0) };

    fn fmt<W: fmt::Write>(&self, f: &mut fmt::Formatter<W>) -> fmt::Result {
        if self.0 {
            f.write_str(" dozing")
        } else {
            f.write_str("")
        }
    }
}

/// Why a loop ended, and the command that ended the life, where one ended the loop.
#[derive(Drop)]
struct ShutReason(Why, Option<(u32, Entry)>);

impl fmt::Display for ShutReason {
    ghost output = { λ r. Some (reason_text r.0 r.1) };

    fn fmt<W: fmt::Write>(&self, f: &mut fmt::Formatter<W>) -> fmt::Result {
        match self.0 {
            Why::Life => f.write_str("life"),
            Why::Gate => f.write_str("quit"),
            Why::Turns => f.write_str("turns"),
            Why::Closed => match self.1 {
                Some(_) => f.write_str("life"),
                None => f.write_str("quit"),
            },
        }
    }
}

/// Which hart, its state, and whether its board dozes by it.
#[derive(Drop)]
struct HartPlace {
    number: u32,
    state: State,
    dozing: bool,
}

impl fmt::Display for HartPlace {
    ghost output = { λ p. Some (place_text p.number p.state p.dozing) };

    fn fmt<W: fmt::Write>(&self, f: &mut fmt::Formatter<W>) -> fmt::Result {
        let number = self.number;
        let (state, dozing) = (StateName(self.state), DozeName(self.dozing));
        write!(f, "hart {number} {state}{dozing}")
    }
}

/// Where a hart stands, and what its last trap left.
#[derive(Drop)]
struct Trap {
    pc: u64,
    scause: u64,
    sepc: u64,
    stval: u64,
}

impl fmt::Display for Trap {
    ghost output = { λ t. Some (trap_text t.pc t.scause t.sepc t.stval) };

    fn fmt<W: fmt::Write>(&self, f: &mut fmt::Formatter<W>) -> fmt::Result {
        let (pc, scause) = (Value(self.pc), Value(self.scause));
        let (sepc, stval) = (Value(self.sepc), Value(self.stval));
        write!(
            f,
            "pc 0x{pc} scause 0x{scause} sepc 0x{sepc} stval 0x{stval}"
        )
    }
}

/// How many turns a hart made, and why its loop ended.
#[derive(Drop)]
struct LoopEnd {
    made: u64,
    why: Why,
    over: Option<(u32, Entry)>,
}

impl fmt::Display for LoopEnd {
    ghost output = { λ l. Some (loop_text l.made l.why l.over) };

    fn fmt<W: fmt::Write>(&self, f: &mut fmt::Formatter<W>) -> fmt::Result {
        let (made, why) = (self.made, ShutReason(self.why, self.over));
        write!(f, "turns {made} ended {why}")
    }
}

fn place_of(end: &HartEnd) -> HartPlace
    ensures number { result.number ≡ end.now.hart.id }
    ensures state { result.state ≡ end.now.state }
    ensures dozing { result.dozing ≡ is_some end.now.doze }
{
    HartPlace {
        number: end.hart.id().number(),
        state: end.state,
        dozing: end.doze.is_some(),
    }
}

/// One of a hart's control and status registers that no pending interrupt shows in.
fn csr(hart: &Hart, number: u32) -> u64
    requires { number < 4096 }
    ensures { (c : Csr) → csr_number c ≡ number → result ≡ csr_read c hart.now false }
{
    hart.csr(CsrNumber::new(number as u16), false).unwrap_or(0)
}

fn trap_of(hart: &Hart) -> Trap
    ensures pc { result.pc ≡ hart.now.pc }
    ensures scause { result.scause ≡ hart.now.scause }
    ensures sepc { result.sepc ≡ hart.now.sepc }
    ensures stval { result.stval ≡ hart.now.stval }
{
    Trap {
        pc: hart.pc(),
        scause: csr(hart, SCAUSE),
        sepc: csr(hart, SEPC),
        stval: csr(hart, STVAL),
    }
}

fn loop_end_of(end: &HartEnd) -> LoopEnd
    ensures made { result.made ≡ end.now.made }
    ensures why { result.why ≡ end.now.why }
    ensures over { result.over ≡ end.now.over }
{
    LoopEnd {
        made: end.made,
        why: end.why,
        over: end.over,
    }
}

/// A hart whose loop has ended, in a line with its line feed: its number, its state as `hart_get_status` answers it, with
/// `dozing` where its board dozes by it, its pc, `scause`, `sepc` and `stval`, how many turns it made, and why its loop
/// ended: `life`, by its own command or another hart's; `quit`, by the console; or `turns`.
#[derive(Drop)]
pub struct HartLine<'a>(pub &'a HartEnd);

impl<'a> fmt::Display for HartLine<'a> {
    ghost output = { λ l. Some (line_text l.0.now) };

    fn fmt<W: fmt::Write>(&self, f: &mut fmt::Formatter<W>) -> fmt::Result {
        let (place, trap) = (place_of(self.0), trap_of(&self.0.hart));
        let last = loop_end_of(self.0);
        writeln!(f, "sbiboard: {place} {trap} {last}")
    }
}

/// The lines of those harts, in their order.
#[derive(Drop)]
pub struct HartLines<'a>(pub &'a [HartEnd]);

impl<'a> fmt::Display for HartLines<'a> {
    ghost output = { λ l. Some (lines_text l.0.now) };

    fn fmt<W: fmt::Write>(&self, f: &mut fmt::Formatter<W>) -> fmt::Result {
        for end in self.0 {
            let line = HartLine(end);
            write!(f, "{line}")?;
        }
        Ok(())
    }
}
