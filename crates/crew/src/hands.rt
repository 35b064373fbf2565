//! Rows that several threads make, each of the first place that no thread has taken yet.

ghost use Rattle.std.specs.Prelude.{◌≡◌, ◌+◌, ◌<◌, ◌^◌, ℕ, All, length, slice_index_or};
ghost use Rattle.std.specs.Thread.{IsSend, IsSync};
ghost use Rattle.crew.specs.Handed.{IsPlaced, MayBeMade};

use crate::windows::Task;
use std::alloc::{AllocError, Global};
use std::sync::atomic::{AtomicU64, Ordering};
use std::thread;
use std::thread::Threads;

/// The place of a row in the window, and the row, or why it was not made.
type Placed<Row> = (usize, Result<Row, AllocError>);

/// Makes rows of a window of `size` rows from the number `first` on: each of the first place that no thread has taken yet, as long as
/// there is one and memory to keep it.
fn make_some<T: Task>(
    task: &T,
    first: u64,
    size: usize,
    next: &AtomicU64,
    made: &mut Vec<Placed<T::Row>>,
)
    requires room { first + size < 2 ^ 64 }
    requires has { (i : ℕ) → i < size → T.has task.now (first + i) }
    requires made { All (IsPlaced (T.is_row task.now) first size) made.old.items }
    ensures { All (IsPlaced (T.is_row task.now) first size) made.new.items }
{
    for _ in 0..size {
        let at = next.fetch_add(1, Ordering::SeqCst);
        if size as u64 <= at {
            return;
        }
        let row = task.row(first + at);
        if made.push((at as usize, row)).is_err() {
            return;
        }
    }
}

/// The rows that one thread makes of a window.
fn made_alone<T: Task>(
    alloc: Global,
    task: &T,
    first: u64,
    size: usize,
    next: &AtomicU64,
) -> Vec<Placed<T::Row>>
    requires room { first + size < 2 ^ 64 }
    requires has { (i : ℕ) → i < size → T.has task.now (first + i) }
    ensures { All (IsPlaced (T.is_row task.now) first size) result.items }
{
    let mut made = Vec::new(alloc);
    make_some(task, first, size, next, &mut made);
    made
}

/// Rows, and those of another thread after them. Where memory is refused, those of the other thread are left out.
fn with_others<T: Task>(
    task: &T,
    first: u64,
    size: usize,
    made: Vec<Placed<T::Row>>,
    others: Vec<Placed<T::Row>>,
) -> Vec<Placed<T::Row>>
    requires made { All (IsPlaced (T.is_row task.now) first size) made.items }
    requires others { All (IsPlaced (T.is_row task.now) first size) others.items }
    ensures { All (IsPlaced (T.is_row task.now) first size) result.items }
{
    let _task = task;
    let _first = first;
    let _size = size;
    let mut all = made;
    let mut others = others;
    let _all = all.append(&mut others);
    all
}

/// Makes rows as [`made_alone`] does, by `threads` threads. This one makes each of the others, so that the system finds a processor of its
/// own for each, and then makes rows beside them.
#[cycle(hands)]
fn made_by<R: Threads + Sync, T: Task>(
    rt: &R,
    alloc: Global,
    threads: usize,
    task: &T,
    first: u64,
    size: usize,
    next: &AtomicU64,
) -> Vec<Placed<T::Row>>
    requires some { 0 < threads }
    requires room { first + size < 2 ^ 64 }
    requires has { (i : ℕ) → i < size → T.has task.now (first + i) }
    ensures { All (IsPlaced (T.is_row task.now) first size) result.items }
{
    if threads == 1 {
        return made_alone(alloc, task, first, size, next);
    }
    let fewer = threads - 1;
    let one = move || -> Vec<Placed<T::Row>>
        requires { IsSync T.row × IsSend T.Row.row × (first + size < 2 ^ 64) × ((i : ℕ) → i < size → T.has task.now (first + i)) }
        ensures { All (IsPlaced (T.is_row task.entry.now) first size) result.items }
    { made_alone(alloc, task, first, size, next) };
    let others = move || -> Vec<Placed<T::Row>>
        requires { IsSync R.row × IsSync T.row × IsSend T.Row.row × (0 < fewer) × (first + size < 2 ^ 64)
            × ((i : ℕ) → i < size → T.has task.now (first + i)) }
        ensures { All (IsPlaced (T.is_row task.entry.now) first size) result.items }
    { made_by(rt, alloc, fewer, task, first, size, next) };
    let (theirs, ours) = thread::join(rt, one, others);
    with_others(task, first, size, ours, theirs)
}

/// Puts a row into its slot.
fn place_one<T: Task>(
    task: &T,
    first: u64,
    made: Placed<T::Row>,
    slots: &mut [Option<Result<T::Row, AllocError>>],
)
    requires made { IsPlaced (T.is_row task.now) first (length slots.old) made }
    requires slots { (i : ℕ) (d : _) → i < length slots.old
        → MayBeMade (T.is_row task.now) (first + i) (slice_index_or slots.old i d) }
    ensures slots { (i : ℕ) (d : _) → i < length slots.old
        → MayBeMade (T.is_row task.now) (first + i) (slice_index_or slots.new i d) }
    ensures as_many { length slots.new ≡ length slots.old }
{
    let _task = task;
    let _first = first;
    let (at, row) = made;
    slots[at] = Some(row);
}

/// Makes rows of the slots, from the number `first` on, by `threads` threads, and puts them there. A row for which memory is lacking is
/// left out.
pub(crate) fn make_rows<R: Threads + Sync, T: Task>(
    rt: &R,
    alloc: Global,
    threads: usize,
    task: &T,
    first: u64,
    slots: &mut [Option<Result<T::Row, AllocError>>],
)
    requires some { 0 < threads }
    requires room { first + length slots.old < 2 ^ 64 }
    requires has { (i : ℕ) → i < length slots.old → T.has task.now (first + i) }
    requires slots { (i : ℕ) (d : _) → i < length slots.old
        → MayBeMade (T.is_row task.now) (first + i) (slice_index_or slots.old i d) }
    ensures slots { (i : ℕ) (d : _) → i < length slots.old
        → MayBeMade (T.is_row task.now) (first + i) (slice_index_or slots.new i d) }
    ensures as_many { length slots.new ≡ length slots.old }
{
    let next = AtomicU64::new(0);
    let mut made = made_by(rt, alloc, threads, task, first, slots.len(), &next);
    while let Some(one) = made.pop() {
        place_one(task, first, one, slots);
    }
}
