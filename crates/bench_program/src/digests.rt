//! What a part of a bench is of, by its digest: parts of other scripts, payloads or options make no whole.

ghost use Rattle.std.specs.Prelude.{◌≡◌, ◌<◌, ℕ, List, IfOk, OnOk, string_bytes};
ghost use Rattle.std.specs.Option.{option_map};
ghost use Rattle.board.specs.Boots.{payload_at};
ghost use Rattle.bench_program.specs.Digests.{bench_text, digest_text, is_part, message, options_text, part_tag, schedules_text, then_framed, with_slots, with_tag};

use crate::usage::Work;
use bench_sweep::{BenchKind, SweepPlan};
use board::Payloads;
use board_model::Slot;
use sha2::{Digest, Sha256};
use std::alloc::{AllocError, Global};

/// Whether a part of a bench is made.
pub fn is_part(work: Work) -> bool
    ensures { result ≡ is_part work }
{
    match work {
        Work::Judge(plan) => plan.part.is_some(),
        Work::Compare(plan) => plan.part.is_some(),
        _ => false,
    }
}

/// The words of a plan.
fn bench_text(plan: SweepPlan) -> &'static str
    ensures { result.now ≡ bench_text plan.bench plan.quiet }
{
    match (plan.bench, plan.quiet) {
        (BenchKind::Cuts, false) => "sweep",
        (BenchKind::Cuts, true) => "sweep quiet",
        (BenchKind::Fails, false) => "faults",
        (BenchKind::Fails, true) => "faults quiet",
    }
}

/// The options of `count` schedules of that seed.
fn schedules_text(alloc: Global, count: u64, seed: u64) -> Result<String, AllocError>
    ensures { IfOk result (λ text. string_bytes text ≡ schedules_text count seed) }
{
    format!(in alloc; "schedules {count} seed {seed}")
}

/// The options by which a bench makes other runs, or tells of others.
fn options_text(alloc: Global, work: Work) -> Result<String, AllocError>
    ensures { IfOk result (λ text. string_bytes text ≡ options_text work) }
{
    match work {
        Work::Judge(plan) => {
            let bench = bench_text(plan);
            format!(in alloc; "{bench}")
        }
        Work::Compare(plan) => schedules_text(alloc, plan.count, plan.seed),
        _ => Ok(String::new(alloc)),
    }
}

/// Hashes a text with its length before it.
fn feed<D: Digest>(alloc: Global, hasher: &mut D, text: &[u8]) -> Result<(), AllocError>
    ensures { OnOk result ((m : List ℕ) → D.holds hasher.old m → D.holds hasher.new (then_framed m text.now)) }
{
    let length = text.len();
    let frame = format!(in alloc; "{length}:")?;
    hasher.update(frame.as_bytes());
    hasher.update(text);
    Ok(())
}

/// Hashes the options of a work.
fn feed_options<D: Digest>(alloc: Global, hasher: &mut D, work: Work) -> Result<(), AllocError>
    ensures { OnOk result ((m : List ℕ) → D.holds hasher.old m → D.holds hasher.new (then_framed m (options_text work))) }
{
    let options = options_text(alloc, work)?;
    feed(alloc, hasher, options.as_bytes())
}

/// Hashes what a slot boots.
fn feed_slot<D: Digest>(
    alloc: Global,
    hasher: &mut D,
    payloads: &Payloads,
    number: u32,
) -> Result<(), AllocError>
    requires { number < 4 }
    ensures { OnOk result ((m : List ℕ) → D.holds hasher.old m → D.holds hasher.new (then_framed m (payload_at payloads.now number))) }
{
    let slot = Slot::new(number).unwrap();
    feed(alloc, hasher, payloads.get(slot))
}

/// Hashes what the four slots boot.
fn feed_slots<D: Digest>(
    alloc: Global,
    hasher: &mut D,
    payloads: &Payloads,
) -> Result<(), AllocError>
    ensures { OnOk result ((m : List ℕ) → D.holds hasher.old m → D.holds hasher.new (with_slots m payloads.now)) }
{
    feed_slot(alloc, hasher, payloads, 0)?;
    feed_slot(alloc, hasher, payloads, 1)?;
    feed_slot(alloc, hasher, payloads, 2)?;
    feed_slot(alloc, hasher, payloads, 3)
}

/// The digest of what each part of one bench is of: the options, the payloads and the script.
fn digest<D: Digest>(
    alloc: Global,
    work: Work,
    payloads: &Payloads,
    script: &[u8],
) -> Result<D::Output, AllocError>
    ensures { IfOk result (D.digest_of (message work payloads.now script.now)) }
{
    let mut hasher = D::new();
    feed_options(alloc, &mut hasher, work)?;
    feed_slots(alloc, &mut hasher, payloads)?;
    feed(alloc, &mut hasher, script)?;
    Ok(hasher.finalize())
}

/// Its first 8 bytes, in 16 digits.
fn digest_text(
    alloc: Global,
    work: Work,
    payloads: &Payloads,
    script: &[u8],
) -> Result<String, AllocError>
    ensures { IfOk result (λ text. string_bytes text ≡ digest_text work payloads.now script.now) }
{
    let digest = digest::<Sha256>(alloc, work, payloads, script)?;
    hex::encode(alloc, &digest[..8])
}

/// The digest, where a part is made.
pub fn part_tag(
    alloc: Global,
    work: Work,
    payloads: &Payloads,
    script: &[u8],
) -> Result<Option<String>, AllocError>
    ensures { IfOk result (λ tag. option_map string_bytes tag
        ≡ part_tag work payloads.now script.now) }
{
    if is_part(work) {
        let tag = digest_text(alloc, work, payloads, script)?;
        return Ok(Some(tag));
    }
    Ok(None)
}

/// The text, of which the last line ends with that word too.
pub fn with_tag(mut text: Vec<u8>, tag: &Option<String>) -> Result<Vec<u8>, AllocError>
    ensures { IfOk result (λ v. v.items ≡ with_tag (option_map string_bytes tag.now) text.items) }
{
    let Some(tag) = tag else {
        return Ok(text);
    };
    text.truncate(text.len().saturating_sub(1));
    text.push(b' ')?;
    text.extend_from_slice(tag.as_bytes())?;
    text.push(b'\n')?;
    Ok(text)
}
