//! Laws of the reports, each the contract of a function that does nothing.

ghost use Rattle.std.specs.Prelude.{◌≡◌, ◌≢◌, ◌≤◌, ℕ, suc, List, length, take, drop, None, Some};
ghost use Rattle.board_model.specs.Durable.{DurableState};
ghost use Rattle.board_model.specs.Kept.{MayFind, found_of};
ghost use Rattle.board_model.specs.Views.{durable_of};
ghost use Rattle.board_model.specs.declared.boot_mode.BootMode.{BootMode};
ghost use Rattle.board_model.specs.declared.boot_mode.BootMode.TheVariants as modes;
ghost use Rattle.board_model.specs.declared.durable.Durable.{Durable};
ghost use Rattle.script_lang.specs.Scripts.{Script};
ghost use Rattle.script_lang.specs.declared.line.Line.TheVariants as lines;
ghost use Rattle.bench_report.specs.Bench.{Bench, Blank, Formatted, IsFailureFree};
ghost use Rattle.bench_report.specs.Happens.{says};
ghost use Rattle.bench_report.specs.Examined.{inspection_of};
ghost use Rattle.bench_report.specs.FailureFree.{ShowNoFailure};
ghost use Rattle.bench_report.specs.AllFound.{FindsAll};
ghost use Rattle.bench_report.specs.Prefix.{KeepsPrefixLaw, MayEndIn};
ghost use Rattle.bench_report.specs.Reports.{AreByFirmware, IsReportWith};
ghost use Rattle.bench_report.specs.Resumes.{IsResumedFrom};
ghost use Rattle.bench_report.specs.Steps.{Moves, Run};
ghost use Rattle.report_lines.specs.declared.printed.Answer.{Answer};
ghost use Rattle.report_lines.specs.declared.printed.Printed.TheVariants as printed;

/// There is one report of a script without `poke` where memory was never refused and no failure of the disk
/// was answered, so that no armed cut struck: any two such runs of it wrote the same and left the same. A report
/// shows that it is one by its lines, where they are failure-free: none says that memory was refused, that the
/// disk failed or that power was lost, and none of turns or of a call may hide that a hart's command was refused
/// so.
pub fn script_determines_report()
    ensures one { (payloads : List (List ℕ)) (script : Script) (answers others : List Answer) (end last : Bench)
        → AreByFirmware script.lines → IsReportWith payloads script answers end
        → IsReportWith payloads script others last → IsFailureFree end → IsFailureFree last
        → (answers ≡ others) × (end ≡ last) }
    ensures failure_free { (payloads : List (List ℕ)) (script : Script) (answers : List Answer) (end : Bench)
        → IsReportWith payloads script answers end → ShowNoFailure answers → IsFailureFree end }
{
    machine::machine_determines_turn();
    machine::hart_determines_line();
    store::content_determines_state();
    store::content_determines_inspection();
    store::formats_in_order();
}

/// What `inspect` says with power off, at any point of a run without `poke` where memory was never refused and
/// no failure of the disk was answered: `b` is the bench that some first lines of a script left. It is refused 1
/// of a blank disk. It says of a formatted one what the commands acknowledged since the format make: the
/// gate is the parity of their number, the live record is in its form, and the other one from the first command
/// on; an image is seen where one stands. It leaves the bench as it was.
pub fn inspections()
    ensures blank { (payloads : List (List ℕ)) (script : Script) (answers : List Answer) (b : Bench)
        → AreByFirmware script.lines → IsReportWith payloads script answers b → b.power ≡ None
        → b.disk_state ≡ Blank → (a : Answer) (new : Bench)
        → Moves script.size lines.Inspect b a new → IsFailureFree new
        → (a ≡ says (printed.InspectRefused 1)) × (new ≡ b) }
    ensures formatted { (payloads : List (List ℕ)) (script : Script) (answers : List Answer) (b : Bench)
        → AreByFirmware script.lines → IsReportWith payloads script answers b → b.power ≡ None
        → b.disk_state ≡ Formatted → (a : Answer) (new : Bench)
        → Moves script.size lines.Inspect b a new → IsFailureFree new
        → (a ≡ says (printed.Inspected (inspection_of b.kept.changes))) × (new ≡ b) }
{
    store::content_determines_state();
    store::content_determines_inspection();
    store::formats_in_order();
}

/// The prefix law, over each whole run of a script without `poke`: whatever memory was refused, whatever
/// failed and wherever power was cut, from the first `format ok` on each power-on finds what the one before
/// it found, with each command that was acknowledged since, in order, and after them at most the one in doubt
/// of each life since, and of that life's commands none after it. No command takes effect that the table of
/// commands refuses. The serials of the images that are resumed rise strictly, so an image whose consumption
/// was acknowledged is never resumed again; and no power-on is refused 13, since each image that stands has
/// the memory of its board. Each state that an open may find after the last line ends such a history (`ends`).
pub fn prefix_law()
    ensures law { (payloads : List (List ℕ)) (script : Script) (answers : List Answer) (end : Bench)
        → AreByFirmware script.lines → IsReportWith payloads script answers end → KeepsPrefixLaw script.lines answers }
    ensures ends { (payloads : List (List ℕ)) (script : Script) (answers : List Answer) (end : Bench)
        → AreByFirmware script.lines → IsReportWith payloads script answers end → (t : DurableState)
        → (end.disk_state ≡ Formatted → MayFind end.kept t) → MayEndIn t script.lines answers }
{}

/// Where no failure of the disk was answered, each power-on of a whole run without `poke` finds what all commands
/// that were acknowledged since the format make, in order, and none beside; and no armed cut struck in a line
/// that asks something of the disk. It may be that memory was refused.
pub fn all_are_found()
    ensures { (payloads : List (List ℕ)) (script : Script) (answers : List Answer) (end : Bench)
        → AreByFirmware script.lines → IsReportWith payloads script answers end → end.failures ≡ 0 → FindsAll script.lines answers }
{}

/// A report is one of its first lines, which leave a bench, and the lines that are left run on from that: so
/// what a law says of a bench, and of a line after it, it says of each line of a whole report.
pub fn reports_split()
    ensures { (payloads : List (List ℕ)) (script : Script) (answers : List Answer) (end : Bench) (k : ℕ)
        → k ≤ length script.lines → IsReportWith payloads script answers end → (b : Bench)
        × IsReportWith payloads (record script { lines = take k script.lines }) (take (suc k) answers) b
        × Run script.size b (drop k script.lines) (drop (suc k) answers) end }
{}

/// Each power-on over a formatted disk, at any point of a run: `b` is the bench that some first lines of a
/// script left, and the next line is an `on`.
///
/// What the found line tells is a state that the commands kept let an open find: those acknowledged since the
/// format, in order, with the one in doubt or without it (`finds`). Where memory was never refused, no
/// failure answered and nothing poked, none is in doubt (`sure`), and a board that is off finds the fold of
/// all acknowledged commands (`all`). A board that is resumed has the memory of the suspension that made its
/// image, byte for byte, and of its harts the image's alone runs (`resumes`).
pub fn power_ons()
    ensures finds { (payloads : List (List ℕ)) (script : Script) (answers : List Answer) (b : Bench)
        → IsReportWith payloads script answers b → b.disk_state ≡ Formatted
        → (mode : BootMode) (a : Answer) (new : Bench) (d : Durable)
        → Moves script.size (lines.On mode) b a new
        → a.found ≡ Some d → (s : DurableState) × MayFind b.kept s × (d ≡ durable_of s) }
    ensures sure { (payloads : List (List ℕ)) (script : Script) (answers : List Answer) (b : Bench)
        → AreByFirmware script.lines → IsReportWith payloads script answers b → IsFailureFree b → b.disk_state ≡ Formatted → b.kept.doubt ≡ None }
    ensures all { (payloads : List (List ℕ)) (script : Script) (answers : List Answer) (b : Bench)
        → AreByFirmware script.lines → IsReportWith payloads script answers b → b.disk_state ≡ Formatted
        → b.power ≡ None
        → (mode : BootMode) (a : Answer) (new : Bench) → Moves script.size (lines.On mode) b a new
        → a.line ≢ printed.PowerLost → IsFailureFree new → a.found ≡ Some (durable_of (found_of b.kept.changes)) }
    ensures resumes { (payloads : List (List ℕ)) (script : Script) (answers : List Answer) (b : Bench)
        → IsReportWith payloads script answers b → b.disk_state ≡ Formatted → (a : Answer) (new : Bench)
        → Moves script.size (lines.On modes.Resume) b a new
        → a.line ≡ printed.On modes.Resume → IsResumedFrom script.size b a new }
{}
