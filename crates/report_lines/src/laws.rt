//! A law of the definitions, the contract of a function that does nothing.

ghost use Rattle.std.specs.Prelude.{◌⊎◌};
ghost use Rattle.board_model.specs.Shapes.{Size};
ghost use Rattle.board_model.specs.declared.refusal.Refusal.TheVariants.{NotFormatted, BadShape};
ghost use Rattle.disk.specs.Facts.{Content};
ghost use Rattle.store.specs.Opens.{IsBoard, ReadsAs};
ghost use Rattle.store.specs.Inspects.{IsInspected};
ghost use Rattle.store.specs.declared.inspects.Inspection.{Inspection};
ghost use Rattle.report_lines.specs.Contents.{IsAnswered, IsExamined};

/// Whatever bytes a disk holds, and whatever its length: an open and an examiner have an answer.
///
/// - `opened`: an open refuses it with 1, 3 or 4, or it stands for a durable state.
/// - `examined`: an examiner refuses it with 1 or 3, or it is the disk of a board, and then there is something to say of it.
///   What is said is fixed by the bytes (the law `content_determines_inspection` of `store`).
pub fn every_content()
    ensures opened { (c : Content) → IsAnswered c }
    ensures examined { (c : Content) → IsExamined c }
{}
