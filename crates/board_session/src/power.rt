//! The board of a session is powered on, over a disk that is formatted where it is new.
//! A law runs nothing, and tells the prover a fact: `kept_disks`.

ghost use Rattle.std.specs.Prelude.{◌≡◌, ◌≤◌, true, false, length, None, OnOk, IfOk, IfErr, MatchResult};
ghost use Rattle.board_model.specs.Durable.{formatted};
ghost use Rattle.board_model.specs.Shapes.{Size};
ghost use Rattle.store.specs.Formats.{WritesHead};
ghost use Rattle.store.specs.Leaves.{IsIdle, IsKept, LeavesOnly};
ghost use Rattle.store.specs.Opens.{FormatRefused};
ghost use Rattle.store.specs.Taken.{are_taken};
ghost use Rattle.store.specs.Views.{disk_of, doubt_of, failures_at_open, found_state, journal_of, life_of, size_of_store};
ghost use Rattle.board.specs.Begins.{IsBegun};
ghost use Rattle.board.specs.Moments.{commands_by};
ghost use Rattle.board_session.specs.Histories.{IsUnended};
ghost use Rattle.board_session.specs.Sessions.{Begins, IsBooted, RefusesDisk, RunsOver, TakesFormat};

use crate::given::Options;
use board::{BegunBoard, Payloads};
use board_model::Refusal;
use disk::Disk;
use std::alloc::Global;
use store::{format, kept_disks};

/// The disk that a board is powered on with: formatted, where it is new. A refusal is that of the format, and
/// gives the disk back.
fn prepared<D: Disk + Drop>(options: &Options, disk: D) -> Result<D, (D, Refusal)>
    requires { IsIdle (D.facts disk) }
    ensures new { OnOk result (options.now.new ≡ true → TakesFormat options.now.shape (D.facts disk).content) }
    ensures formatted { IfOk result (λ d. options.now.new ≡ true → LeavesOnly (D.facts d) options.now.shape formatted) }
    ensures old { IfOk result (λ d. options.now.new ≡ false → d ≡ disk) }
    ensures failures { IfOk result (λ d. (D.facts d).failures ≡ (D.facts disk).failures) }
    ensures refused { IfErr result (λ e. (options.now.new ≡ true)
        × FormatRefused (D.facts disk) options.now.shape e.1 (D.facts e.0) × WritesHead (D.facts disk) (D.facts e.0)) }
    ensures kept { IfErr result (λ e. (size : Size) → IsKept (D.facts disk) size → IsKept (D.facts e.0) size) }
    ensures none_out { MatchResult result (λ d. IsIdle (D.facts d)) (λ e. IsIdle (D.facts e.0)) }
{
    kept_disks::<D>();
    if !options.new {
        return Ok(disk);
    }
    let mut disk = disk;
    match format(&mut disk, &options.shape) {
        Ok(()) => Ok(disk),
        Err(refusal) => Err((disk, refusal)),
    }
}

/// The board of a session, which is on. A refusal is the first of the format's, the open's and the boot's, and
/// gives the disk back.
pub(crate) fn powered<D: Disk + Drop>(
    alloc: Global,
    options: &Options,
    disk: D,
    payloads: &Payloads,
) -> Result<BegunBoard<D>, (D, Refusal)>
    requires { IsIdle (D.facts disk) }
    ensures runs { OnOk result
        (RunsOver options.now.new options.now.shape options.now.mode payloads.now (D.facts disk).content) }
    ensures begun { IfOk result (λ b. IsBegun options.now.mode (size_of_store b.store) payloads.now
        (found_state b.store) b.machine) }
    ensures found { IfOk result (λ b. Begins options.now.new options.now.shape (D.facts disk).content
        (size_of_store b.store) (found_state b.store)) }
    ensures issued { IfOk result (λ b. journal_of b.store
        ≡ commands_by options.now.mode (found_state b.store)) }
    ensures taken { IfOk result (λ b. (are_taken (found_state b.store) (journal_of b.store) ≡ true)
        × (length (journal_of b.store) ≤ 2)) }
    ensures unended { IfOk result (λ b. IsUnended (life_of b.store)) }
    ensures up { IfOk result (λ b. doubt_of b.store ≡ None) }
    ensures opened { IfOk result (λ b. failures_at_open b.store ≡ (D.facts disk).failures) }
    ensures moments { IfOk result (λ b. IsBooted options.now.new (D.facts disk) (size_of_store b.store)
        (found_state b.store) (commands_by options.now.mode (found_state b.store)) (disk_of b.store)) }
    ensures refused { IfErr result (λ e. RefusesDisk options.now.new options.now.shape options.now.mode payloads.now
        (D.facts disk) e.1 (D.facts e.0)) }
    ensures kept { IfErr result (λ e. (size : Size) → IsKept (D.facts disk) size → (z : Size) × IsKept (D.facts e.0) z) }
    ensures none_out { IfErr result (λ e. IsIdle (D.facts e.0)) }
{
    kept_disks::<D>();
    let disk = match prepared(options, disk) {
        Ok(disk) => disk,
        Err(refused) => return Err(refused),
    };
    match BegunBoard::power_on(alloc, disk, options.mode, payloads) {
        Ok(board) => Ok(board),
        Err(unpowered) => Err((unpowered.disk, unpowered.refusal)),
    }
}
