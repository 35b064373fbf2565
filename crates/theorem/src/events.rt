//! The promises over many lives of one disk.
//! A law runs nothing, and tells the prover a fact: `content_determines_state`.
ghost use Rattle.std.specs.Prelude.{◌≡◌, ◌⊎◌, ℕ, List, None, Some, Ok, Result};
ghost use Rattle.board_model.specs.Durable.{DurableState, Image, Change, Suspend, Consume, formatted, refusal_of, after, fold};
ghost use Rattle.board_model.specs.Shapes.{Size};
ghost use Rattle.board_model.specs.declared.refusal.Refusal.{Refusal};
ghost use Rattle.disk.specs.Facts.{Content, LeavesSince};
ghost use Rattle.hart.specs.State.{ArchState as HartState};
ghost use Rattle.susp.specs.Wakes.{IsWoken};
ghost use Rattle.store.specs.Follows.{FitsBoard};
ghost use Rattle.store.specs.Leaves.{Leaves, LeavesOnly, LeavesEither, StandsForEither};
ghost use Rattle.store.specs.Lives.{Life, now_of, begun, Reaches, Applied, Suspended};
ghost use Rattle.store.specs.Standing.{StandsFor};
ghost use Rattle.theorem.specs.Events.{Event, WasOpened, WasAcknowledged, WasDoubtful, WasResumed, World, new_world, Finds, Happens, Runs, Rises, event_of, IsLived, Leads};
ghost use Rattle.theorem.specs.Histories.{AnswersOnce, EndsCommands, HaveNoOpen, HaveNoCommand};

use disk::Disk;
use store::content_determines_state;

/// *After a prefix of the commands, .. never resumed again.* Over all lives of a disk, whatever happens to it: the
/// state is what the kept commands make of the formatted one, and the serials of the images that were resumed rise
/// strictly. What the calls of a store tell are such events: [`opens_are_such_events`], [`commands_are_such_events`] and
/// [`wakes_are_such_events`].
pub fn lives()
    ensures prefix { (events : List Event) (w : World) → Runs new_world events w → w.state ≡ fold formatted w.kept }
    ensures never_again { (events : List Event) (w : World) → Runs new_world events w → Rises w.resumed }
{}

/// Whatever a crash leaves of a life in which no command is in doubt (`up`), of one in which one is (`down`), or of one in
/// whose command power failed (`under_way`), an open finds what the events let it find. By that a life begins (`begins`).
pub fn opens_are_such_events<D: Disk>()
    ensures up { (w : World) (life : Life) (disk : D) (size z : Size) (s : DurableState) → IsLived w life
        → life.doubt ≡ None → LeavesOnly (D.facts disk) size (now_of life)
        → Leaves (D.facts disk) z s → (kept : List Change) × Finds w s kept }
    ensures down { (w : World) (life : Life) (c : Change) (disk : D) (size z : Size) (s : DurableState) → IsLived w life
        → life.doubt ≡ Some c → LeavesEither (D.facts disk) size (now_of life) (after (now_of life) c)
        → Leaves (D.facts disk) z s → (kept : List Change) × Finds w s kept }
    ensures under_way { (w : World) (life : Life) (c : Change) (old new : D) (left : Content) (size z : Size)
        (s : DurableState) → IsLived w life → life.doubt ≡ None → Reaches life c
        → LeavesSince (D.facts old) (D.facts new) (StandsForEither size (now_of life) (after (now_of life) c))
        → (D.facts new).since (D.facts old).moment left → StandsFor left z s
        → (v : World) × Happens w (WasDoubtful c) v × ((kept : List Change) × Finds v s kept) }
    ensures begins { (w : World) (s : DurableState) (kept : List Change) → Finds w s kept
        → Leads w (WasOpened s) (begun s) }
{
    content_determines_state();
}

/// What a store answers to a command (`Applied`) or a suspension (`Suspended`), where none is in doubt, is the event of that
/// answer.
pub fn commands_are_such_events()
    ensures applied { (w : World) (old new : Life) (c : Change) (result : Result ℕ Refusal) → IsLived w old
        → old.doubt ≡ None → Applied old c result new → Leads w (event_of c result) new }
    ensures suspended { (w : World) (old new : Life) (size : Size) (hart address opaque : ℕ) (memory : List ℕ)
        (result : Result ℕ Refusal) → IsLived w old → old.doubt ≡ None
        → Suspended (FitsBoard size memory hart address) old (Suspend hart address opaque memory) result new
        → Leads w (event_of (Suspend hart address opaque memory) result) new }
{}

/// A wake from an image is two events: its Consume was acknowledged, which drops the image, and then its hart is resumed. So
/// no board is resumed but after an acknowledged Consume of its own image.
pub fn wakes_are_such_events()
    ensures { (w : World) (old new : Life) (n : ℕ) (memory : List ℕ) (hart : HartState) → IsLived w old
        → old.doubt ≡ None → IsWoken (now_of old) memory hart → Applied old Consume (Ok n) new
        → (i : Image) × ((now_of old).image ≡ Some i) × (hart.id ≡ i.hart) × (u v : World)
        × Happens w (WasAcknowledged Consume) u × Happens u (WasResumed i.serial) v × IsLived v new }
{}

/// What a list of events cannot hold.
///
/// - `answers`: a hart of an image is answered only after the Consume that dropped this image was acknowledged, in the same
///   life, and once.
/// - `taken`: a command that the table of commands refuses is neither acknowledged nor in doubt.
/// - `ended`: after a command in doubt, after a reset or a suspension that was acknowledged, and after a cut, no command goes
///   to the disk until the next open.
pub fn events_in_order()
    ensures answers { (events : List Event) (w v : World) (n : ℕ) → Runs new_world events w
        → Happens w (WasResumed n) v → AnswersOnce events n }
    ensures taken { (w v : World) (c : Change) → Happens w (WasAcknowledged c) v ⊎ Happens w (WasDoubtful c) v
        → refusal_of w.state c ≡ None }
    ensures ended { (w v u : World) (e : Event) (events : List Event) → EndsCommands e → Happens w e v
        → Runs v events u → HaveNoOpen events → HaveNoCommand events }
{}
