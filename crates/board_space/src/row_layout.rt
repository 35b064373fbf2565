//! What all rows have in common: which words of RAM are told in them, and what all other words hold.

ghost use Rattle.std.specs.Prelude.{◌≡◌, ◌≢◌, ◌⊎◌, ◌<◌, ◌≤◌, ◌+◌, ◌-◌, ◌*◌, ◌++◌, [], ℕ, length, replicate, slice_index, IfOk};
ghost use Rattle.board_model.specs.Shapes.{ram_bytes_of};
ghost use Rattle.board_space.specs.Tracked.{AreWithin, IsTracked, IsKept, segment_count};

use board_model::Shape;
use state_space::{Pool, Refused, WordPool};
use std::alloc::Global;

/// The most words that several harts write, in one segment.
const MOST_SHARED: usize = 8;
/// The group of the words that several harts write.
const SHARED: usize = 8;
/// The group of the words that no hart writes.
const NOBODYS: usize = 9;

/// The words of 8 bytes of RAM that are told in rows, by their numbers from its start, in segments, and all of RAM as a boot
/// leaves it.
#[derive(Drop)]
pub struct Layout {
    shape: Shape,
    /// The words of each segment: those that one hart alone may write, hart by hart, then those that several may.
    tracked: WordPool,
    /// RAM, as a boot leaves it.
    base: Vec<u8>,
    /// How many numbers a row has.
    width: usize,
    ghost wide: { width ≡ 1 + shape.harts + segment_count tracked },
    ghost whole: { length base.items ≡ ram_bytes_of shape },
    ghost within: { AreWithin tracked (ram_bytes_of shape) },
}

/// The hart that alone may write a word, or one of the two other groups, by the bits of the harts that may write it.
fn group_of(writers: u8) -> usize
    ensures { writers ≢ 0 → result < NOBODYS }
{
    match writers {
        0 => NOBODYS,
        1 => 0,
        2 => 1,
        4 => 2,
        8 => 3,
        16 => 4,
        32 => 5,
        64 => 6,
        128 => 7,
        _ => SHARED,
    }
}

/// The group of each word.
fn groups_of(alloc: Global, writers: &[u8]) -> Result<Vec<usize>, Refused>
    ensures long { IfOk result (λ groups. length groups.items ≡ length writers.now) }
    ensures some { IfOk result (λ groups. (k : ℕ) → k < length writers.now → slice_index writers.now k ≢ 0
        → slice_index groups.items k < NOBODYS) }
{
    let mut groups = Vec::new(alloc);
    for by in writers {
        groups.push(group_of(*by))?;
    }
    Ok(groups)
}

/// Adds the segment that was made, unless it has no word, and begins the next one.
fn close(tracked: &mut WordPool, made: &mut Vec<u64>) -> Result<(), Refused>
    ensures keeps { IfOk result (λ _. (k : ℕ) → IsKept tracked.old made.old.items k → IsTracked tracked.new k) }
    ensures only { IfOk result (λ _. (k : ℕ) → IsTracked tracked.new k → IsKept tracked.old made.old.items k) }
    ensures none { IfOk result (λ _. made.new.items ≡ []) }
{
    if !made.is_empty() {
        tracked.push(made.as_slice())?;
        made.clear();
    }
    Ok(())
}

/// Adds a word. A segment of words that several harts write ends after eight.
fn add(tracked: &mut WordPool, made: &mut Vec<u64>, word: u64, shared: bool) -> Result<(), Refused>
    ensures keeps { IfOk result (λ _. (k : ℕ) → IsKept tracked.old made.old.items k
        → IsKept tracked.new made.new.items k) }
    ensures only { IfOk result (λ _. (k : ℕ) → IsKept tracked.new made.new.items k
        → IsKept tracked.old made.old.items k ⊎ (k ≡ word)) }
    ensures added { IfOk result (λ _. IsKept tracked.new made.new.items word) }
{
    made.push(word)?;
    if shared && MOST_SHARED <= made.len() {
        close(tracked, made)?;
    }
    Ok(())
}

/// Adds the words of a group.
fn add_group(
    tracked: &mut WordPool,
    made: &mut Vec<u64>,
    groups: &[usize],
    group: usize,
) -> Result<(), Refused>
    requires { made.old.items ≡ [] }
    ensures keeps { IfOk result (λ _. (k : ℕ) → IsTracked tracked.old k → IsTracked tracked.new k) }
    ensures added { IfOk result (λ _. (k : ℕ) → k < length groups.now → slice_index groups.now k ≡ group
        → IsTracked tracked.new k) }
    ensures only { IfOk result (λ _. (k : ℕ) → IsTracked tracked.new k
        → IsTracked tracked.old k ⊎ (k < length groups.now)) }
    ensures none { IfOk result (λ _. made.new.items ≡ []) }
{
    for word in 0..groups.len() {
        if groups[word] == group {
            add(tracked, made, word as u64, group == SHARED)?;
        }
    }
    close(tracked, made)
}

/// The words that some hart may write, in segments, by the bits of the harts that may write each.
fn tracked(alloc: Global, writers: &[u8]) -> Result<WordPool, Refused>
    ensures covers { IfOk result (λ tracked. (k : ℕ) → k < length writers.now → slice_index writers.now k ≢ 0
        → IsTracked tracked k) }
    ensures only { IfOk result (λ tracked. (k : ℕ) → IsTracked tracked k → k < length writers.now) }
{
    let groups = groups_of(alloc, writers)?;
    let mut tracked = WordPool::new(alloc);
    let mut made = Vec::new(alloc);
    for group in 0..NOBODYS {
        add_group(&mut tracked, &mut made, &groups, group)?;
    }
    Ok(tracked)
}

/// RAM of that shape as a boot of the payload leaves it.
fn booted(alloc: Global, shape: &Shape, payload: &[u8]) -> Result<Vec<u8>, Refused>
    requires { length payload.now ≤ ram_bytes_of shape.now }
    ensures { IfOk result (λ base. base.items
        ≡ payload.now ++ replicate (ram_bytes_of shape.now - length payload.now) 0) }
{
    let mut base = payload.to_vec(alloc)?;
    base.resize(shape.ram_bytes(), 0)?;
    Ok(base)
}

impl Layout {
    ghost use Rattle.board_space.specs.Tracked.{segment, segment_count};
    ghost use Rattle.board_space.specs.Layouts.{size_of, tracked_of, base_of, width_of, laid_by};

    /// The rows of boards of that shape whose boot slot holds the payload, and of which each word is written by no hart but
    /// by those of its bits.
    pub fn new(
        alloc: Global,
        shape: &Shape,
        payload: &[u8],
        writers: &[u8],
    ) -> Result<Layout, Refused>
        requires fits { length payload.now ≤ ram_bytes_of shape.now }
        requires words { 8 * length writers.now ≤ ram_bytes_of shape.now }
        ensures size { IfOk result (λ layout. size_of layout ≡ shape.now) }
        ensures base { IfOk result (λ layout. base_of layout
            ≡ payload.now ++ replicate (ram_bytes_of shape.now - length payload.now) 0) }
        ensures covers { IfOk result (λ layout. (k : ℕ) → k < length writers.now → slice_index writers.now k ≢ 0
            → IsTracked (tracked_of layout) k) }
    {
        let tracked = tracked(alloc, writers)?;
        let beside = 1 + shape.harts() as usize;
        let Some(width) = tracked.count().checked_add(beside) else {
            return Err(Refused::Numbers);
        };
        Ok(Layout {
            shape: *shape,
            tracked,
            base: booted(alloc, shape, payload)?,
            width,
        })
    }

    /// The same layout.
    pub fn copy(&self, alloc: Global) -> Result<Layout, Refused>
        ensures size { IfOk result (λ layout. size_of layout ≡ size_of self.now) }
        ensures laid { IfOk result (λ layout. laid_by layout ≡ laid_by self.now) }
    {
        Ok(Layout {
            shape: self.shape,
            tracked: self.tracked.copy(alloc)?,
            base: self.base.as_slice().to_vec(alloc)?,
            width: self.width,
        })
    }

    /// How many harts a board has.
    pub fn harts(&self) -> usize
        ensures { result ≡ (size_of self.now).harts }
    {
        self.shape.harts() as usize
    }

    /// How many segments of words there are.
    #[inline]
    pub fn segments(&self) -> usize
        ensures { result ≡ segment_count (tracked_of self.now) }
    {
        self.tracked.count()
    }

    /// The words of a segment.
    #[inline]
    pub fn segment(&self, number: usize) -> &[u64]
        requires { number < segment_count (tracked_of self.now) }
        ensures { result.now ≡ segment (tracked_of self.now) number }
    {
        self.tracked.get(number)
    }

    /// RAM, as a boot leaves it.
    pub fn base(&self) -> &[u8]
        ensures { result.now ≡ base_of self.now }
    {
        &self.base
    }

    /// How many numbers a row has.
    pub fn width(&self) -> usize
        ensures { result ≡ width_of self.now }
    {
        self.width
    }

    /// How much memory it takes, in bytes.
    pub fn bytes(&self) -> u64 {
        self.tracked
            .bytes()
            .saturating_add(self.base.capacity() as u64)
    }
}
