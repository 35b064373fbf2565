//! Where the last turn of a hart stands.

ghost use Rattle.std.specs.Prelude.{◌≡◌, ◌<◌, IfSome, IfNone};
ghost use Rattle.script_lang.specs.declared.line.Line.TheVariants as lines;
ghost use Rattle.script_lang.specs.Lines.{turns_in};
ghost use Rattle.debug_session.specs.Pasts.{IsLastRow, NoRow};

use board_model::HartId;
use script_lang::Line;

/// The turns of that hart that a line makes, where it makes any.
fn row_of(line: &Line, hart: HartId) -> Option<u32>
    ensures some { IfSome result (λ n. (line.now ≡ lines.Turn hart n) × (0 < n)) }
    ensures none { IfNone result (turns_in hart line.now ≡ 0) }
{
    match line {
        Line::Turn(by, count) if *by == hart && 0 < *count => Some(*count),
        _ => None,
    }
}

/// The place of the last line that makes turns of that hart, and how many.
pub(crate) fn last_row(lines: &[Line], hart: HartId) -> Option<(usize, u32)>
    ensures some { IfSome result (λ row. IsLastRow hart lines.now row.0 row.1) }
    ensures none { IfNone result (NoRow hart lines.now) }
{
    let mut i = lines.len();
    while 0 < i {
        i -= 1;
        if let Some(count) = row_of(&lines[i], hart) {
            return Some((i, count));
        }
    }
    None
}
