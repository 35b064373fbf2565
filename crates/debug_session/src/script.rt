//! A history as a script.
//! A law runs nothing, and tells the prover a fact: `scripts_read_as_written`.

ghost use Rattle.std.specs.Prelude.{◌≡◌, ◌≤◌, ◌++◌, IfOk, OnOk, Ok, string_bytes};
ghost use Rattle.board.specs.Boots.{payload_at};
ghost use Rattle.bench_report.specs.Bench.{no_payloads};
ghost use Rattle.debug_session.specs.Texts.{begin_text, begins_text, history_text, lines_text};
ghost use Rattle.script_lang.specs.Scripts.{script_of};
ghost use Rattle.script_lang.specs.Spellings.{IsWritable};

use board::Payloads;
use board_model::{Shape, Slot};
use script_lang::{Line, LineText, board_line, scripts_read_as_written};
use std::alloc::{AllocError, Global};

/// Adds a comment that names the payload with which a slot begins, where it begins with one.
fn add_begin(begins: &Payloads, number: u32, text: &mut String) -> Result<(), AllocError>
    requires { number ≤ 3 }
    ensures { OnOk result (string_bytes text.new ≡ string_bytes text.old ++ begin_text number (payload_at begins.now number)) }
{
    let Some(slot) = Slot::new(number) else {
        return Ok(());
    };
    let count = begins.get(slot).len();
    if count == 0 {
        return Ok(());
    }
    write!(text, "\n# --p{number}: a file of {count} bytes")
}

/// Adds the comments of all slots.
fn add_begins(begins: &Payloads, text: &mut String) -> Result<(), AllocError>
    ensures { OnOk result (string_bytes text.new ≡ string_bytes text.old ++ begins_text begins.now) }
{
    add_begin(begins, 0, text)?;
    add_begin(begins, 1, text)?;
    add_begin(begins, 2, text)?;
    add_begin(begins, 3, text)
}

/// Adds the lines, each with a line feed before it.
fn add_lines(lines: &[Line], text: &mut String) -> Result<(), AllocError>
    ensures { OnOk result (string_bytes text.new ≡ string_bytes text.old ++ lines_text lines.now) }
{
    for line in lines {
        let word = LineText(line);
        write!(text, "\n{word}")?;
    }
    Ok(())
}

/// The text of these lines as a script, without a last line feed; a comment after the board line names each payload
/// with which a slot begins, since no line has room for it.
#[tactic(auto, using(crate::proofs::Scripts::history_is_script))]
pub(crate) fn script_of(
    alloc: Global,
    shape: &Shape,
    begins: &Payloads,
    lines: &[Line],
) -> Result<String, AllocError>
    ensures text { IfOk result (λ text. string_bytes text ≡ history_text shape.now begins.now lines.now) }
    // Where it begins with no payload, it is read back as these lines.
    ensures read { begins.now ≡ no_payloads → IsWritable (record { size = shape.now; lines = lines.now })
        → IfOk result (λ text. script_of (string_bytes text) ≡ Ok (record { size = shape.now; lines = lines.now })) }
{
    scripts_read_as_written();
    let mut text = board_line(alloc, shape)?;
    add_begins(begins, &mut text)?;
    add_lines(lines, &mut text)?;
    Ok(text)
}
