//! A board and lines are written as a script.

ghost use Rattle.std.specs.Prelude.{◌≡◌, ◌⊎◌, ◌++◌, ◌∷◌, [], Some, OnOk, IfOk, IfErr};
ghost use Rattle.std.specs.Io.KnownBytes.{Appends};
ghost use Rattle.std.specs.String.{string_bytes};
ghost use Rattle.board_model.specs.declared.refusal.Refusal.TheVariants.{Memory, Output};
ghost use Rattle.script_lang.specs.Lines.{text_of};
ghost use Rattle.script_lang.specs.Spellings.{board_text, lines_text, script_text};

use crate::line::{Line, LineText};
use board_model::{Refusal, Shape, unwritten};
use std::alloc::{AllocError, Global};
use std::fmt;
use std::io::Write;

/// The board line of that shape, as the language writes it.
#[derive(Drop)]
struct BoardText(Shape);

impl fmt::Display for BoardText {
    ghost output = { λ b. Some (board_text b.0) };

    fn fmt<W: fmt::Write>(&self, f: &mut fmt::Formatter<W>) -> fmt::Result {
        let harts = self.0.harts();
        let pages = self.0.pages();
        let lanes = self.0.lanes();
        write!(f, "board {harts} {pages} {lanes}")
    }
}

/// The board line of that shape, without a line feed.
pub fn board_line(alloc: Global, shape: &Shape) -> Result<String, AllocError>
    ensures { IfOk result (λ text. string_bytes text ≡ board_text shape.now) }
{
    let board = BoardText(*shape);
    format!(in alloc; "{board}")
}

/// Writes the board line.
fn write_board<W: Write>(out: &mut W, shape: &Shape) -> Result<(), Refusal>
    ensures ok { OnOk result (Appends (W.contents out.old) (W.contents out.new) (board_text shape.now ++ 10 ∷ [])) }
    ensures err { IfErr result (λ e. (e ≡ Memory) ⊎ (e ≡ Output)) }
{
    let board = BoardText(*shape);
    writeln!(out, "{board}").map_err(|error| unwritten(error))
}

/// Writes a line.
fn write_line<W: Write>(out: &mut W, line: &Line) -> Result<(), Refusal>
    ensures ok { OnOk result (Appends (W.contents out.old) (W.contents out.new) (text_of line.now ++ 10 ∷ [])) }
    ensures err { IfErr result (λ e. (e ≡ Memory) ⊎ (e ≡ Output)) }
{
    let text = LineText(line);
    writeln!(out, "{text}").map_err(|error| unwritten(error))
}

/// Writes lines, each with a line feed.
fn write_lines<W: Write>(out: &mut W, lines: &[Line]) -> Result<(), Refusal>
    ensures ok { OnOk result (Appends (W.contents out.old) (W.contents out.new) (lines_text lines.now)) }
    ensures err { IfErr result (λ e. (e ≡ Memory) ⊎ (e ≡ Output)) }
{
    for line in lines {
        write_line(out, line)?;
    }
    Ok(())
}

/// Writes the canonical text of a script for a board of that shape: its board line and each of its lines, each with a line feed.
#[tactic(auto, using(crate::proofs::Texts::script_written))]
pub fn write_script<W: Write>(out: &mut W, shape: &Shape, lines: &[Line]) -> Result<(), Refusal>
    ensures ok { OnOk result (Appends (W.contents out.old) (W.contents out.new)
        (script_text (record { size = shape.now; lines = lines.now }) ++ 10 ∷ [])) }
    ensures err { IfErr result (λ e. (e ≡ Memory) ⊎ (e ≡ Output)) }
{
    write_board(out, shape)?;
    write_lines(out, lines)
}
