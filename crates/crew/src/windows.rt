//! Rows that several threads make, a window of them at a time.

ghost use Rattle.std.specs.Prelude.{◌≡◌, ◌+◌, ◌<◌, ◌^◌, ℕ, None, All, length, IfOk, OnOk, slice_index_or};
ghost use Rattle.crew.specs.Handed.{MayBeMade, Handed};

use crate::hands::make_rows;
use crate::progress::Progress;
use std::alloc::{AllocError, Global};
use std::io;
use std::thread::Threads;

/// How many rows are made at a time for each thread, where there are several.
const ROWS_EACH: usize = 16;

/// How many threads make rows, how many rows they make before these are handed on, and who is told how far they are.
#[derive(Drop)]
pub struct Jobs<'a, R, P = ()> {
    rt: &'a R,
    count: usize,
    window: usize,
    progress: P,
    ghost some: { 0 < count },
    ghost room: { 0 < window },
}

impl<'a, R> Jobs<'a, R, ()> {
    /// At most `count` threads, which the handle makes. One hands on each row as it is made. Nobody is told how far they are.
    pub fn new(rt: &'a R, count: usize) -> Jobs<'a, R, ()>
        requires { 0 < count }
    {
        Jobs::telling(rt, count, ())
    }
}

impl<'a, R, P: Progress> Jobs<'a, R, P> {
    /// At most `count` threads, which the handle makes, and who is told how far they are. One hands on each row as it is made.
    pub fn telling(rt: &'a R, count: usize, progress: P) -> Jobs<'a, R, P>
        requires { 0 < count }
    {
        let window = if count == 1 {
            1
        } else {
            count.saturating_mul(ROWS_EACH)
        };
        Jobs {
            rt,
            count,
            window,
            progress,
        }
    }

    /// Tells how many rows are about to be made, of all that are handed on.
    pub fn begin(&self, rows: u64) {
        self.progress.begin(rows);
    }

    /// How many threads make rows, at most.
    pub fn count(&self) -> usize
        ensures some { 0 < result }
    {
        self.count
    }
}

/// How the row of a number is made.
pub trait Task: Sync {
    type Row: Send + Drop;

    /// There is a row of that number.
    ghost has: { Self → ℕ → Type 0 };

    /// That is a row of that number.
    ghost is_row: { Self → ℕ → Self.Row → Type 0 };

    /// Makes the row of that number.
    fn row(&self, number: u64) -> Result<Self::Row, AllocError>
        requires has { has self.now number }
        ensures row { IfOk result (λ row. is_row self.now number row) };
}

/// What rows are handed on to.
pub trait Sink<Row> {
    /// From the first to the second it takes that row.
    ghost takes: { Self → Row → Self → Type 0 };

    /// Takes a row, pauses what tells how far the run is before it writes, and tells how many rows it stands for.
    fn take<P: Progress>(&mut self, row: Row, progress: &P) -> io::Result<()>
        ensures took { OnOk result (takes self.old row self.new) };
}

/// The row of that number: the one in its slot, or one that is made here where none is.
fn row_in<T: Task>(
    task: &T,
    number: u64,
    slot: &mut Option<Result<T::Row, AllocError>>,
) -> Result<T::Row, AllocError>
    requires has { T.has task.now number }
    requires made { MayBeMade (T.is_row task.now) number slot.old }
    ensures row { IfOk result (λ row. T.is_row task.now number row) }
{
    match slot.take() {
        Some(made) => made,
        None => task.row(number),
    }
}

/// Hands on the rows of the slots, which begin with that number, in order, up to the first that is refused.
fn hand_on<P: Progress, T: Task, S: Sink<T::Row>>(
    task: &T,
    first: u64,
    slots: &mut [Option<Result<T::Row, AllocError>>],
    sink: &mut S,
    progress: &P,
) -> io::Result<()>
    requires room { first + length slots.old < 2 ^ 64 }
    requires has { (i : ℕ) → i < length slots.old → T.has task.now (first + i) }
    requires made { (i : ℕ) (d : _) → i < length slots.old
        → MayBeMade (T.is_row task.now) (first + i) (slice_index_or slots.old i d) }
    ensures handed { OnOk result (Handed (T.is_row task.now) S.takes first (length slots.old) sink.old sink.new) }
{
    for i in 0..slots.len() {
        let row = row_in(task, first + i as u64, &mut slots[i])?;
        sink.take(row, progress)?;
    }
    Ok(())
}

/// So many slots with no row.
fn no_rows<Row: Drop>(
    alloc: Global,
    count: usize,
) -> Result<Vec<Option<Result<Row, AllocError>>>, AllocError>
    ensures slots { IfOk result (λ v. (length v.items ≡ count) × All (λ slot. slot ≡ None) v.items) }
{
    let mut slots = Vec::new(alloc);
    for _ in 0..count {
        slots.push(None)?;
    }
    Ok(slots)
}

/// Makes `size` rows from the number `first` on, and hands them on. Where there are several threads, and several rows, the
/// threads make them first.
fn run_window<R: Threads + Sync, P: Progress, T: Task, S: Sink<T::Row>>(
    jobs: &Jobs<'_, R, P>,
    alloc: Global,
    task: &T,
    first: u64,
    size: usize,
    sink: &mut S,
) -> io::Result<()>
    requires room { first + size < 2 ^ 64 }
    requires has { (i : ℕ) → i < size → T.has task.now (first + i) }
    ensures handed { OnOk result (Handed (T.is_row task.now) S.takes first size sink.old sink.new) }
{
    let mut slots = no_rows::<T::Row>(alloc, size)?;
    let threads = jobs.count.min(size);
    if 1 < threads {
        make_rows(jobs.rt, alloc, threads, task, first, slots.as_mut_slice());
    }
    hand_on(task, first, slots.as_mut_slice(), sink, &jobs.progress)
}

/// Makes `count` rows from the number `first` on, by the threads of these jobs, and hands them on in order. A window of rows is
/// kept at a time, which are handed on once all of them are made. The sink tells how far the run is.
///
/// It ends at the first row for which there is no memory, or that the sink refuses, with that error. All rows before it were
/// handed on then, and none after it.
pub fn hand_on_all<R: Threads + Sync, P: Progress, T: Task, S: Sink<T::Row>>(
    jobs: &Jobs<'_, R, P>,
    alloc: Global,
    task: &T,
    first: u64,
    count: u64,
    sink: &mut S,
) -> io::Result<()>
    requires room { first + count < 2 ^ 64 }
    requires has { (i : ℕ) → i < count → T.has task.now (first + i) }
    // The rows of these numbers, each of its own, were taken one after another.
    ensures handed { OnOk result (Handed (T.is_row task.now) S.takes first count sink.old sink.new) }
{
    let mut done = 0;
    while done < count {
        let size = (count - done).min(jobs.window as u64);
        run_window(jobs, alloc, task, first + done, size as usize, sink)?;
        done += size;
    }
    Ok(())
}
