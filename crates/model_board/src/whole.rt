//! One turn of a hart on plain tables.
//! A law runs nothing, and tells the prover a fact: `hart::step_keeps_number`.

ghost use Rattle.std.specs.Prelude.{◌≡◌, ◌<◌, length};
ghost use Rattle.hart.specs.declared.Outcome.TheVariants as outcomes;
ghost use Rattle.sbi_calls.specs.Answers.{Ends};
ghost use Rattle.turns.specs.Turns.{Finishes, TurnOf, moment};

use crate::tables::PlainTables;
use board_model::Shape;
use hart::{Hart, Outcome};
use ram::Ram;
use sbi_abi::{Call, put};
use sbi_calls::{Did, Ending, Turned, request_of};
use turns::Ready;

/// Gives the hart what its call ends with. What a suspended hart finds when it wakes is put at once.
fn end(hart: &mut Hart, ending: Ending) -> Turned
    ensures { Ends ending hart.old hart.new result }
{
    match ending {
        Ending::Answers(answer) => {
            put(hart, answer);
            Turned::Made(Did::Next)
        }
        Ending::Stops => Turned::Made(Did::Stopped),
        Ending::Suspends => {
            put(hart, Ok(0));
            Turned::Made(Did::Suspended)
        }
        Ending::SuspendsAfresh(site, opaque) => {
            *hart = Hart::fresh(hart.id(), site.value(), opaque);
            Turned::Made(Did::Suspended)
        }
        Ending::Defers => Turned::Durable,
    }
}

/// What follows a step, by what it asks.
fn finish(outcome: Outcome, hart: &mut Hart, tables: &mut PlainTables, shape: &Shape) -> Turned
    requires known { hart.old.id < length tables.old.states }
    requires harts { length tables.old.states ≡ shape.now.harts }
    ensures { Finishes shape.now outcome tables.old hart.old tables.new hart.new result }
{
    match outcome {
        Outcome::Next => Turned::Made(Did::Next),
        Outcome::TakePending => {
            tables.take(hart.id());
            Turned::Made(Did::Next)
        }
        Outcome::Ecall => {
            let asked = request_of(Call::of(hart), shape);
            let ending = tables.answer(hart.id(), asked);
            end(hart, ending)
        }
    }
}

/// One turn of a hart. A durable call is left as it is (`Turned::Durable`).
pub fn turn(hart: &mut Hart, tables: &mut PlainTables, ram: &mut Ram, shape: &Shape) -> Turned
    requires known { hart.old.id < length tables.old.states }
    requires harts { length tables.old.states ≡ shape.now.harts }
    ensures { TurnOf shape.now (moment tables.old hart.old ram.old) (moment tables.new hart.new ram.new) result }
{
    match tables.begin(hart.id()) {
        Ready::Idle => Turned::Made(Did::Idle),
        Ready::Woke => Turned::Made(Did::Woke),
        Ready::Enters(address, opaque) => {
            *hart = Hart::fresh(hart.id(), address.value(), opaque);
            Turned::Made(Did::Entered)
        }
        Ready::Steps(pending) => {
            let outcome = hart.step(ram, pending);
            hart::step_keeps_number();
            finish(outcome, hart, tables, shape)
        }
    }
}
