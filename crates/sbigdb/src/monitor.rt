//! The lines that `monitor` hands on.

ghost use Rattle.std.specs.Prelude.{◌≡◌, ◌≤◌, ◌<◌, ◌++◌, [], codes, map, string_bytes, IfOk, IfSome, OnOk};
ghost use Rattle.std.specs.Option.{option_map};
ghost use Rattle.debug_session.specs.Ats.{IsAt};
ghost use Rattle.debug_session.specs.Sessions.{begins_of, history_of, size_of, stops_of, timeline_of, KeepsRest};
ghost use Rattle.sbigdb.specs.Kept.{StaysOpen};
ghost use Rattle.sbigdb.specs.Moved.{GotoOr, LineRan, MonitoredBy, TextSaid, WentForth, WentOver, ended_text, goto_in, hexed, just_one, line_in, script_text};
ghost use Rattle.sbigdb.specs.Texts.{when_text};
ghost use Rattle.report_lines.specs.Texts.{report_text};
ghost use Rattle.debug_session.specs.Turns.{turns_made};
ghost use Rattle.debug_session.specs.Fields.{stripped};
ghost use Rattle.script_lang.specs.Lines.{IsLineInRange};

use crate::answers::PacketPayloads;
use crate::talk::Talk;
use crate::texts::{answer_text, harts_text, report_text, tell, when_text};
use board_model::{HartId, Refusal, Shape, command_lines};
use crew::Crew;
use debug_session::{Session, strip_prefix};
use hex::FromHexError;
use report_lines::Answer;
use script_lang::{Line, board_line, number, parse_script};
use std::alloc::{AllocError, Global};
use std::sync::atomic::AtomicBool;

macro_rules! help {
    ([$names:literal] [$($line:literal)*]) => {
        concat!(
            "\
Any line of the script language is run, becomes part of the history, and says its report:
  ",
            $names,
            "   durable commands of the console
  cut 00, on resume, on fresh        power
  cutat 3 00, failat 3               faults of the disk
  wake, inspect, pending             and all others of docs/SCRIPT.md
Beside them:
  script    the history as a script, which sbibench runs to the same reports
  harts     what each hart stands at
  when      how many lives, lines and turns the history has, and the hart that is selected
  goto N    back to before the turn that came after N others; or on, to N turns
  help      this text
After a line that moves the board, `maintenance flush register-cache` (flushregs) shows it.
",
        )
    };
}

const HELP: &str = command_lines!(help);

/// What is no line of the language is told, and a line whose number or place no board of this shape has.
const NO_LINE: &str =
    "not a line of the script language, or a number is out of its range: see monitor help\n";

/// The most lines of a script after its board line.
const MOST_LINES: usize = 65535;

/// The line of a script that has just one.
#[tactic(auto, using(crate::proofs::Lines::just_from))]
fn just_one(lines: Vec<Line>) -> Option<Line>
    ensures { result ≡ just_one lines.items }
{
    let mut lines = lines;
    if 1 < lines.len() {
        return None;
    }
    lines.pop()
}

/// The line that a text is on a board of that shape, where it is just one.
fn line_of(alloc: Global, shape: &Shape, text: &[u8]) -> Result<Option<Line>, AllocError>
    ensures line { IfOk result (λ line. line ≡ line_in shape.now text.now) }
    ensures range { IfOk result (λ line. IfSome line (IsLineInRange shape.now)) }
{
    let head = board_line(alloc, shape)?;
    let mut script = Vec::from_slice(alloc, head.as_bytes())?;
    script.push(b'\n')?;
    script.extend_from_slice(text)?;
    match parse_script(alloc, &script) {
        Ok(read) => {
            if read.shape != *shape {
                // This never comes: the head names that shape, but the contract of `parse_script` does not say so.
                return Err(AllocError);
            }
            Ok(just_one(read.lines))
        }
        Err(Refusal::Memory) => Err(AllocError),
        Err(_) => Ok(None),
    }
}

/// Runs the line that a text is, and tells its report.
fn run_text<C: Crew>(session: &mut Session<'_, C>, text: &[u8]) -> Result<String, AllocError>
    requires at { IsAt (size_of session.old) (timeline_of session.old) }
    ensures at { OnOk result (IsAt (size_of session.new) (timeline_of session.new)) }
    ensures rest { KeepsRest session.old session.new }
    ensures moved { IfOk result (λ said. LineRan (line_in (size_of session.old) text.now) (size_of session.old)
        (timeline_of session.old) (timeline_of session.new) (string_bytes said)) }
{
    let alloc = session.setting().alloc;
    match line_of(alloc, session.setting().shape, text)? {
        Some(line) => {
            let answer = session.line(line)?;
            answer_text(alloc, &answer)
        }
        None => String::from_str(alloc, NO_LINE),
    }
}

/// Ends a script of `lines` lines.
fn end_script(script: &mut String, lines: usize) -> Result<(), AllocError>
    ensures { OnOk result (string_bytes script.new ≡ ended_text lines (string_bytes script.old)) }
{
    script.push_str("\n")?;
    if MOST_LINES < lines {
        script.push_str(
            "# this is longer than a script may be: 65,535 lines after the board line\n",
        )
    } else {
        Ok(())
    }
}

/// The history as a script; a comment after it says so where it is longer than a script may be.
fn script_said<C: Crew>(session: &Session<'_, C>) -> Result<String, AllocError>
    ensures { IfOk result (λ said. string_bytes said
        ≡ script_text (size_of session.now) (begins_of session.now) (history_of session.now)) }
{
    let mut script = session.script()?;
    end_script(&mut script, session.lines())?;
    Ok(script)
}

/// The number of turns to which `goto` is to go, where a text says one.
fn goto_in(text: &[u8]) -> Option<u64>
    ensures { result ≡ goto_in text.now }
{
    number(strip_prefix(text, b"goto ")?)
}

/// A report of lines, and where the history stands.
fn report_and_when<C: Crew>(
    session: &Session<'_, C>,
    hart: HartId,
    answers: &[Answer],
) -> Result<String, AllocError>
    ensures { IfOk result (λ text. string_bytes text ≡ report_text answers.now ++ when_text hart (history_of session.now)) }
{
    let alloc = session.setting().alloc;
    let report = report_text(alloc, answers)?;
    let when = when_text(session, hart)?;
    format!(in alloc; "{report}{when}")
}

/// Goes on until the history has `turns` turns, to the first halt: what the last of them reports, and where the history stands.
fn go_forth<C: Crew>(
    session: &mut Session<'_, C>,
    hart: HartId,
    turns: u64,
    interrupt: &AtomicBool,
) -> Result<String, AllocError>
    requires at { IsAt (size_of session.old) (timeline_of session.old) }
    requires there { hart < (size_of session.old).harts }
    requires few { turns_made (history_of session.old) ≤ turns }
    ensures at { OnOk result (IsAt (size_of session.new) (timeline_of session.new)) }
    ensures rest { KeepsRest session.old session.new }
    ensures moved { IfOk result (λ said. WentForth turns (size_of session.old) (stops_of session.old) hart
        (timeline_of session.old) (timeline_of session.new) (string_bytes said)) }
{
    let mut told = Vec::new(session.setting().alloc);
    session.go_on_to(hart, turns, interrupt, &mut told)?;
    report_and_when(session, hart, &told)
}

/// Goes back to before the turn that came after `turns` others; or on until the history has `turns`, where none did.
fn go_over<C: Crew>(
    session: &mut Session<'_, C>,
    hart: HartId,
    turns: u64,
    interrupt: &AtomicBool,
) -> Result<String, AllocError>
    requires at { IsAt (size_of session.old) (timeline_of session.old) }
    requires there { hart < (size_of session.old).harts }
    ensures at { OnOk result (IsAt (size_of session.new) (timeline_of session.new)) }
    ensures rest { KeepsRest session.old session.new }
    ensures moved { IfOk result (λ said. WentOver turns (size_of session.old) (stops_of session.old) hart
        (timeline_of session.old) (timeline_of session.new) (string_bytes said)) }
{
    if session.go_to(turns)? {
        return when_text(session, hart);
    }
    go_forth(session, hart, turns, interrupt)
}

/// Goes to a turn, where a text asks for it, or runs the line that it is.
fn go_or_run<C: Crew>(
    session: &mut Session<'_, C>,
    hart: HartId,
    text: &[u8],
    interrupt: &AtomicBool,
) -> Result<String, AllocError>
    requires at { IsAt (size_of session.old) (timeline_of session.old) }
    requires there { hart < (size_of session.old).harts }
    ensures at { OnOk result (IsAt (size_of session.new) (timeline_of session.new)) }
    ensures rest { KeepsRest session.old session.new }
    ensures moved { IfOk result (λ said. GotoOr (goto_in text.now) text.now (size_of session.old) (stops_of session.old) hart
        (timeline_of session.old) (timeline_of session.new) (string_bytes said)) }
{
    match goto_in(text) {
        Some(turns) => go_over(session, hart, turns, interrupt),
        None => run_text(session, text),
    }
}

/// What `monitor` says: of a word of the debugger's own, or a line's report.
fn monitored<C: Crew>(
    session: &mut Session<'_, C>,
    hart: HartId,
    text: &[u8],
    interrupt: &AtomicBool,
) -> Result<String, AllocError>
    requires at { IsAt (size_of session.old) (timeline_of session.old) }
    requires there { hart < (size_of session.old).harts }
    ensures at { OnOk result (IsAt (size_of session.new) (timeline_of session.new)) }
    ensures rest { KeepsRest session.old session.new }
    ensures moved { IfOk result (λ said. TextSaid text.now (size_of session.old) (stops_of session.old) hart
        (timeline_of session.old) (timeline_of session.new) (string_bytes said)) }
{
    if text == b"script".as_slice() {
        return script_said(session);
    }
    if text.is_empty() || text == b"help".as_slice() {
        return String::from_str(session.setting().alloc, HELP);
    }
    if text == b"harts".as_slice() {
        return harts_text(session);
    }
    if text == b"when".as_slice() {
        return when_text(session, hart);
    }
    go_or_run(session, hart, text, interrupt)
}

/// The bytes that pairs of digits write.
fn unhex(alloc: Global, word: &[u8]) -> Result<Option<Vec<u8>>, AllocError>
    ensures { IfOk result (λ found. option_map (λ v. v.items) found ≡ hexed word.now) }
{
    match hex::decode(alloc, word) {
        Ok(bytes) => Ok(Some(bytes)),
        Err(FromHexError::OutOfMemory) => Err(AllocError),
        Err(_) => Ok(None),
    }
}

impl<'a, C: Crew> Talk<'a, C> {
    /// `qRcmd`: the text goes to the console, and then comes `OK`.
    pub(crate) fn monitor(
        &mut self,
        packet: &[u8],
        interrupt: &AtomicBool,
        out: &mut PacketPayloads,
    ) -> Result<Vec<u8>, AllocError>
        requires at { IsAt (size_of self.old.session) (timeline_of self.old.session) }
        requires none { out.old.items ≡ [] }
        ensures at { OnOk result (IsAt (size_of self.new.session) (timeline_of self.new.session)) }
        ensures rest { KeepsRest self.old.session self.new.session }
        ensures moved { IfOk result (λ v. MonitoredBy (stripped (codes "qRcmd,") packet.now) (size_of self.old.session)
            (stops_of self.old.session) self.old.selected
            (timeline_of self.old.session) (timeline_of self.new.session) (map (λ v. v.items) out.new.items) v.items) }
        ensures hart { self.new.hart ≡ self.old.hart }
        ensures selected { self.new.selected ≡ self.old.selected }
        ensures talk { StaysOpen self.old self.new }
    {
        let Some(word) = strip_prefix(packet, b"qRcmd,") else {
            return self.said(b"");
        };
        let Some(line) = unhex(self.alloc(), word)? else {
            return self.said(b"E01");
        };
        let text = monitored(&mut self.session, self.selected, &line, interrupt)?;
        tell(self.alloc(), text.as_bytes(), out)?;
        self.said(b"OK")
    }
}
