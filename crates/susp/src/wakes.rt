//! A board wakes from its image.
//! A law runs nothing, and tells the prover a fact: `kept_disks`, `whole_images_load`.

ghost use Rattle.std.specs.Prelude.{◌≡◌, ◌⊎◌, ◌+◌, ◌*◌, ℕ, length, Ok, Err, IfOk, IfErr, OnOk, IsErrOf};
ghost use Rattle.disk.specs.Facts.{Failed, counted};
ghost use Rattle.store.specs.Views.{disk_of, size_of_store, now_state, view_of, failures_at_open};
ghost use Rattle.store.specs.Lives.{IsLoaded};
ghost use Rattle.store.specs.Answers.{StaysOpen};
ghost use Rattle.susp.specs.Wakes.{IsWoken, IsUnloaded, IsConsumed, IsWakeable, DiskFailed, WakeStops};

use board_model::{Command, Refusal};
use disk::Disk;
use hart::Hart;
use ram::Ram;
use store::{Store, kept_disks, whole_images_load};

/// Wakes a board from the image that stands: loads its memory, then consumes the image, and only then answers
/// its hart, as one that starts at the image's address with its opaque value (SBI specification 2.0, chapter
/// 13).
///
/// Refused as `Store::load_image` says, and only once the image is loaded as `Store::apply` says of Consume. After
/// each refusal but `Down` a crash leaves the state before, with the image. After `BadShape` and `NoImage` memory
/// and store are as they were; else the memory is of use only after `Ok`. Where an image stands with its whole
/// memory, and the store takes a command, only a disk that failed in this call stops the wake. With `Ok` it makes
/// two calls of the disk for each page, and the four of a commit.
pub fn wake_image<D: Disk + Drop>(store: &mut Store<D>, ram: &mut Ram) -> Result<Hart, Refusal>
    ensures woken { IfOk result (λ hart. IsWoken (now_state store.old) ram.new hart) }
    ensures consumed { OnOk result ((n : ℕ) × IsConsumed store.old (Ok n) store.new) }
    ensures refused { IfErr result (λ e. IsUnloaded store.old ram.old e store.new
        ⊎ (IsLoaded (now_state store.old) ram.new × IsConsumed store.old (Err e) store.new)) }
    ensures untouched { IfErr result (λ e. (e ≡ Refusal.BadShape) ⊎ (e ≡ Refusal.NoImage)
        → (ram.new ≡ ram.old) × (store.new ≡ store.old)) }
    ensures life { IsErrOf result Refusal.Down → Failed (failures_at_open store.new) (disk_of store.new).failures }
    ensures answers { IsWakeable store.old ram.old → IfErr result (λ e. DiskFailed store.old e store.new) }
    ensures stays { StaysOpen (view_of store.old) (view_of store.new) }
    ensures length { length ram.new ≡ length ram.old }
    ensures calls { OnOk result
        ((disk_of store.new).calls
        ≡ counted (disk_of store.old).calls (2 * (size_of_store store.old).pages + 4)) }
    ensures stops { IfErr result (λ e. WakeStops (size_of_store store.old).pages e (disk_of store.old).calls
        (disk_of store.new).calls) }
{
    kept_disks::<D>();
    whole_images_load::<D>();
    store.stands();
    let image = store.now().image;
    store.load_image(ram)?;
    let head = image.unwrap();
    store.apply(Command::Consume)?;
    Ok(Hart::fresh(head.hart, head.address.value(), head.opaque))
}
