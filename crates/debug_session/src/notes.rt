//! A row of turns becomes part of a history.

ghost use Rattle.std.specs.Prelude.{◌≡◌, ◌<◌, ◌++◌, replicate, IfOk, OnOk};
ghost use Rattle.board_model.specs.Shapes.{Size};
ghost use Rattle.debug_session.specs.Pasts.{moments};
ghost use Rattle.bench_report.specs.Agree.{fills_after};
ghost use Rattle.debug_session.specs.Notes.{AreInRange, NotesRow};
ghost use Rattle.bench_report.specs.Rows.{IsWithin, made_in};
ghost use Rattle.script_lang.specs.declared.line.Line.TheVariants as lines;
ghost use Rattle.simdisk.specs.declared.fill.Fill.{Fill};

use crate::past::LineHistory;
use bench_report::TurnRow;
use board_model::HartId;
use std::alloc::AllocError;

/// Notes a row of turns of a hart in a history. `joins` says that the history's last line is a row of the same hart that has not
/// ended: then the two become one line. Answers the same of the history after it: whether a further turn of the hart would
/// join its last line. A row of no turns notes nothing. Where memory is refused the history is of no further use.
pub fn note(
    history: &mut LineHistory,
    joins: bool,
    hart: HartId,
    row: TurnRow,
) -> Result<bool, AllocError>
    requires within { IsWithin 1000000 row }
    // Its lines may leave the bench as it is after the turns.
    ensures left { IfOk result (λ next. (size : Size) → NotesRow size hart row joins next history.old history.new) }
    // It has as many more moments, each a turn of that hart.
    ensures moments { OnOk result (moments history.new ≡ moments history.old ++ replicate (made_in row) (lines.Turn hart 1)) }
    ensures ranges { OnOk result ((size : Size) → hart < size.harts → AreInRange size history.old → AreInRange size history.new) }
    ensures fill { OnOk result ((fill : Fill) → fills_after history.new fill ≡ fills_after history.old fill) }
{
    if row.is_off() {
        return Ok(joins);
    }
    history.add_turns(hart, row.made(), joins)?;
    Ok(row.goes_on())
}
