//! The console's lines and their answers.

ghost use Rattle.std.specs.Prelude.{◌≡◌, ◌++◌, ◌∷◌, [], OnOk, IfErr};
ghost use Rattle.board_model.specs.declared.refusal.Refusal.TheVariants.{Output};
ghost use Rattle.hart_threads.specs.Locks.{no_locks};
ghost use Rattle.board_session.specs.Commands.{HoldsReceipt, IsAnswerTo, party};
ghost use Rattle.board_session.specs.Dialogues.{Talks, Shows, dialogue_ends, left_after, left_before, left_behind, left_without, output_of};
ghost use Rattle.board_session.specs.Lines.{TakesLine, is_line};
ghost use Rattle.board_session.specs.Texts.{reply_text};

use crate::commands::{obey, rouse};
use crate::lines::{LineEnd, next_line};
use crate::reply::Reply;
use crate::words::{Said, line_said};
use arrayvec::ArrayVec;
use board_model::{Entry, Refusal};
use disk::Disk;
use hart_threads::{BookPart, Heard, Locks, Threaded};
use std::io::{BufWriter, Read, Write};
use std::sync::Wait;

/// Why the console left.
#[derive(Clone, Copy, PartialEq, Eq, Drop)]
pub enum Left {
    /// A line said so.
    Quit,
    /// No line was left.
    EndOfInput,
    /// The input failed.
    InputFailed,
    /// An answer could not be written.
    Unwritten,
}

/// Whether what was kept is a line. With its line feed it is one in any case, and without it where it has bytes.
fn is_line(ended: LineEnd, kept: &[u8]) -> bool
    ensures { result ≡ is_line ended kept.now }
{
    match ended {
        LineEnd::Feed => true,
        LineEnd::EndOfInput | LineEnd::Failure => !kept.is_empty(),
    }
}

/// Why the console leaves where no line came.
fn left_without(ended: LineEnd) -> Option<Left>
    ensures { result ≡ left_without ended }
{
    match ended {
        LineEnd::Feed => None,
        LineEnd::EndOfInput => Some(Left::EndOfInput),
        LineEnd::Failure => Some(Left::InputFailed),
    }
}

/// Why the console leaves without an answer, if it does so: no line came.
fn left_before(ended: LineEnd, kept: &[u8]) -> Option<Left>
    ensures { result ≡ left_before ended kept.now }
{
    if is_line(ended, kept) {
        None
    } else {
        left_without(ended)
    }
}

/// Why the console leaves once it has answered a line, if it does so.
fn left_after(ended: LineEnd, said: Said) -> Option<Left>
    ensures { result ≡ left_after ended said }
{
    match said {
        Said::Quit => Some(Left::Quit),
        Said::Command(_) | Said::State | Said::Wake | Said::Other => left_behind(ended),
    }
}

/// Why the console leaves after a line that does not say `quit`, if it does so: the input failed in that line.
fn left_behind(ended: LineEnd) -> Option<Left>
    ensures { result ≡ left_behind ended }
{
    match ended {
        LineEnd::Feed | LineEnd::EndOfInput => None,
        LineEnd::Failure => Some(Left::InputFailed),
    }
}

/// Takes the next line of the input, with no lock held.
fn take_line<I: Read, D: Disk + Drop, J: Threaded>(
    locks: &Locks<'_, D, J>,
    input: &mut I,
    line: &mut ArrayVec<u8, 257>,
) -> LineEnd
    requires free { locks.now ≡ no_locks }
    ensures takes { TakesLine (I.remaining input.old) (I.remaining input.new) line.new.items result }
{
    let _ = locks;
    next_line(input, line)
}

/// Writes an answer as a line, of which nothing is held back, with no lock held. An `ok N` is written only where the console has the
/// receipt of that command in its hand, which a shared store makes once the command is durable.
fn write_answer<W: Write + Drop, D: Disk + Drop, J: Threaded>(
    locks: &Locks<'_, D, J>,
    part: &BookPart<J, Entry>,
    out: &mut BufWriter<W>,
    answer: Reply,
) -> Result<(), Refusal>
    requires free { locks.now ≡ no_locks }
    requires told { HoldsReceipt answer part.now.told }
    ensures written { OnOk result (Shows (output_of W.contents out.old) (output_of W.contents out.new)
        (reply_text answer ++ 10 ∷ [])) }
    ensures refused { IfErr result (λ e. e ≡ Output) }
{
    let _ = (locks, part);
    writeln!(out, "{answer}").map_err(|_| Refusal::Output)?;
    out.flush().map_err(|_| Refusal::Output)
}

/// Obeys a line: a command or `state` in one hold of the store alone, `wake` in one of the bus alone, and the others
/// with no lock, so that `quit` waits for no suspension. Who holds the store must not wait for the bus.
fn answer_to<R: Wait, D: Disk + Drop, J: Threaded>(
    rt: &R,
    locks: &mut Locks<'_, D, J>,
    part: BookPart<J, Entry>,
    heard: &mut Heard<J>,
    said: Said,
) -> (BookPart<J, Entry>, Reply)
    requires free { locks.old ≡ no_locks }
    ensures free { locks.new ≡ no_locks }
    ensures fits { IsAnswerTo J.found J.issued said result.1 (party part.told heard.old) (party result.0.told heard.new) }
{
    match said {
        Said::Command(_) | Said::State => {
            let mut store = locks.take_store(rt);
            let answered = obey(&mut store, part, heard, said);
            locks.give_store(store);
            answered
        }
        Said::Wake => {
            let mut bus = locks.take_bus(rt);
            let answer = rouse(&mut bus, heard);
            locks.give_bus(bus);
            (part, answer)
        }
        Said::Quit => (part, Reply::Quit),
        Said::Other => (part, Reply::Unknown),
    }
}

/// Takes one line after another from the input, obeys each in one hold of the store or of the bus at the most, and
/// writes its answer with no lock held, of which nothing is held back. It leaves after `quit`, at the end of input, where the
/// input fails, and where an answer could not be written. Its part of the journal's receipts is told those that it answers, and it has heard of
/// each refusal and each state that it answers, and of each time that it woke the board.
pub fn console<R: Wait, D: Disk + Drop, J: Threaded, I: Read, W: Write + Drop>(
    rt: &R,
    locks: &mut Locks<'_, D, J>,
    part: BookPart<J, Entry>,
    heard: &mut Heard<J>,
    input: &mut I,
    out: &mut BufWriter<W>,
) -> (BookPart<J, Entry>, Left)
    requires free { locks.old ≡ no_locks }
    ensures free { locks.new ≡ no_locks }
    ensures talks { Talks J.found J.issued result.1
        (dialogue_ends (I.remaining input.old) (output_of W.contents out.old) (party part.told heard.old))
        (dialogue_ends (I.remaining input.new) (output_of W.contents out.new) (party result.0.told heard.new)) }
{
    let mut line = ArrayVec::new();
    let mut part = part;
    for _ in rt.forever() {
        let ended = take_line(locks, input, &mut line);
        let kept = line.as_slice();
        if let Some(left) = left_before(ended, kept) {
            return (part, left);
        }
        let said = line_said(kept);
        let (told, answer) = answer_to(rt, locks, part, heard, said);
        part = told;
        let Ok(()) = write_answer(locks, &part, out, answer) else {
            return (part, Left::Unwritten);
        };
        if let Some(left) = left_after(ended, said) {
            return (part, left);
        }
    }
    unreachable!()
}
