//! Texts of a session: an answer, its harts.

ghost use Rattle.std.specs.Prelude.{◌≡◌, ◌++◌, ◌<◌, ℕ, List, map, string_bytes, IfOk, OnOk};
ghost use Rattle.debug_session.specs.Sessions.{bench_of, history_of, size_of};
ghost use Rattle.report_lines.specs.Texts.{found_line, answer_text, report_text};
ghost use Rattle.sbigdb.specs.Texts.{HandOver, console_packet, hart_line, hart_lines, thread_line, thread_lines, threads_object, when_text};

use crate::answers::PacketPayloads;
use board_model::{Durable, HartId, StateText};
use crew::Crew;
use debug_session::{Session, pc, put_hex};
use report_lines::Answer;
use std::alloc::{AllocError, Global};

/// The most bytes of a text for the console in one packet.
const CONSOLE_BYTES: usize = 4096;

/// The packet of a piece of text for the console.
fn console_packet(alloc: Global, piece: &[u8]) -> Result<Vec<u8>, AllocError>
    ensures { IfOk result (λ v. v.items ≡ console_packet piece.now) }
{
    let mut packet = Vec::from_slice(alloc, b"O")?;
    put_hex(&mut packet, piece)?;
    Ok(packet)
}

/// Text for the console, in packets that are short enough.
pub fn tell(alloc: Global, text: &[u8], out: &mut PacketPayloads) -> Result<(), AllocError>
    ensures told { OnOk result ((told : List (List ℕ)) × HandOver text.now told
        × (map (λ v. v.items) out.new.items ≡ map (λ v. v.items) out.old.items ++ told)) }
{
    for piece in text.chunks(CONSOLE_BYTES) {
        let packet = console_packet(alloc, piece)?;
        out.push(packet)?;
    }
    Ok(())
}

/// Adds the line of a report that says what an open found, where there is one.
fn add_found(found: &Option<Durable>, text: &mut String) -> Result<(), AllocError>
    ensures { OnOk result (string_bytes text.new ≡ string_bytes text.old ++ found_line found.now) }
{
    match *found {
        None => Ok(()),
        Some(durable) => {
            let state = StateText(durable);
            writeln!(text, "found {state}")
        }
    }
}

/// Adds the lines of a report that a line of a script makes.
fn add_answer(answer: &Answer, text: &mut String) -> Result<(), AllocError>
    ensures { OnOk result (string_bytes text.new ≡ string_bytes text.old ++ answer_text answer.now) }
{
    add_found(&answer.found, text)?;
    let line = answer.line;
    writeln!(text, "{line}")
}

/// The lines of a report that a line of a script makes.
pub fn answer_text(alloc: Global, answer: &Answer) -> Result<String, AllocError>
    ensures { IfOk result (λ text. string_bytes text ≡ answer_text answer.now) }
{
    let mut text = String::new(alloc);
    add_answer(answer, &mut text)?;
    Ok(text)
}

/// The lines of a report that lines of a script make, one after another.
pub fn report_text(alloc: Global, answers: &[Answer]) -> Result<String, AllocError>
    ensures { IfOk result (λ text. string_bytes text ≡ report_text answers.now) }
{
    let mut text = String::new(alloc);
    for answer in answers {
        add_answer(answer, &mut text)?;
    }
    Ok(text)
}

/// Adds where the hart of that number stands.
fn add_hart<C: Crew>(
    session: &Session<'_, C>,
    number: u64,
    text: &mut String,
) -> Result<(), AllocError>
    ensures { OnOk result (string_bytes text.new ≡ string_bytes text.old ++ hart_line (bench_of session.now) number) }
{
    let Some(hart) = session.setting().shape.hart(number) else {
        return Err(AllocError);
    };
    match pc(session.bench(), hart) {
        Some(pc) => writeln!(text, "hart {number} pc 0x{pc:x}"),
        None => writeln!(text, "hart {number} off"),
    }
}

/// Where each hart stands.
pub fn harts_text<C: Crew>(session: &Session<'_, C>) -> Result<String, AllocError>
    ensures { IfOk result (λ text. string_bytes text ≡ hart_lines (size_of session.now).harts (bench_of session.now)) }
{
    let shape = session.setting().shape;
    let mut text = String::new(session.setting().alloc);
    for number in 0..u64::from(shape.harts()) {
        add_hart(session, number, &mut text)?;
    }
    Ok(text)
}

/// Where a session stands, whose hart of that number is selected.
pub fn when_text<C: Crew>(session: &Session<'_, C>, hart: HartId) -> Result<String, AllocError>
    ensures { IfOk result (λ text. string_bytes text ≡ when_text hart (history_of session.now)) }
{
    let life = session.lives();
    let line = session.lines();
    let turn = session.turns();
    let number = hart.number();
    format!(in session.setting().alloc; "life {life}, line {line}, turn {turn}, hart {number}\n")
}

/// A hart as a thread, with its state.
fn thread_line<C: Crew>(session: &mut Session<'_, C>, hart: HartId) -> Result<String, AllocError>
    ensures same { session.new ≡ session.old }
    ensures text { IfOk result (λ text. string_bytes text ≡ thread_line (bench_of session.old) hart) }
{
    let number = hart.number();
    let thread = number + 1;
    let state = session.state_text(hart);
    format!(in session.setting().alloc;
        "<thread id=\"{thread:x}\" core=\"{number}\" name=\"hart {number}\">{state}</thread>\n"
    )
}

/// Adds the hart of that number as a thread.
fn add_thread<C: Crew>(
    session: &mut Session<'_, C>,
    number: u64,
    text: &mut String,
) -> Result<(), AllocError>
    ensures same { session.new ≡ session.old }
    ensures text { OnOk result (string_bytes text.new ≡ string_bytes text.old ++ thread_line (bench_of session.old) number) }
{
    let Some(hart) = session.setting().shape.hart(number) else {
        return Err(AllocError);
    };
    let line = thread_line(session, hart)?;
    text.push_str(line.as_str())
}

/// All harts as threads.
fn thread_lines<C: Crew>(session: &mut Session<'_, C>) -> Result<String, AllocError>
    ensures same { session.new ≡ session.old }
    ensures text { IfOk result (λ text. string_bytes text ≡ thread_lines (size_of session.old).harts (bench_of session.old)) }
{
    let shape = session.setting().shape;
    let mut text = String::new(session.setting().alloc);
    for number in 0..u64::from(shape.harts()) {
        add_thread(session, number, &mut text)?;
    }
    Ok(text)
}

/// The harts as threads, as an object of `qXfer:threads:read`.
pub fn threads_object<C: Crew>(session: &mut Session<'_, C>) -> Result<String, AllocError>
    ensures same { session.new ≡ session.old }
    ensures text { IfOk result (λ text. string_bytes text ≡ threads_object (size_of session.old) (bench_of session.old)) }
{
    let lines = thread_lines(session)?;
    format!(in session.setting().alloc; "<?xml version=\"1.0\"?>\n<threads>\n{lines}</threads>\n")
}
