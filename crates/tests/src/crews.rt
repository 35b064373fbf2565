//! Crews at work: jobs that meet, turns in their order, and how often a crew is asked.
ghost use Rattle.std.specs.Prelude.{◌≤◌, length};

use crate::fixtures::{NEVER, has_come, in_order, same};
use crate::sites::saved;
use board_model::Shape;
use crew::{Crew, Plan, Threads};
use std::alloc::Global;
use std::process::Abort;
use std::sync::atomic::{AtomicBool, AtomicU64, Ordering};
use std::thread;
use std::time::Clock;

/// Says that one more has begun, and waits until so many have.
fn begin<R: Clock>(clock: &R, begun: &AtomicU64, all: u64, missed: &AtomicBool) {
    begun.fetch_add(1, Ordering::SeqCst);
    if !has_come(clock, begun, all) {
        missed.store(true, Ordering::SeqCst);
    }
}

/// Whether each of these jobs, at most 4, saw all others begin. A job's number plus one is left in it.
fn all_begin<R: Clock + Sync, C: Crew>(clock: &R, crew: &C, jobs: &mut [u8]) -> bool
    requires { length jobs.old ≤ 4 }
{
    let all = jobs.len() as u64;
    let begun = AtomicU64::new(0);
    let missed = AtomicBool::new(false);
    crew.each(
        jobs,
        &|i: usize, job: &mut u8| {
            begin(clock, &begun, all, &missed);
            *job = (i % 4) as u8 + 1;
        },
    );
    !missed.load(Ordering::SeqCst)
}

/// Threads run all of these jobs at once, at most 4, and each leaves that.
fn run_at_once<R: Abort + Clock + thread::Threads + Sync>(rt: &R, jobs: &mut [u8], left: &[u8])
    requires { length jobs.old ≤ 4 }
{
    same(rt, all_begin(rt, &Threads::new(rt), jobs), true);
    same(rt, &*jobs, left);
}

#[test]
fn threads_run_all_jobs_at_once(rt: HostRuntime) {
    run_at_once(&rt, &mut [0; 2], &[1, 2]);
    run_at_once(&rt, &mut [0; 3], &[1, 2, 3]);
    run_at_once(&rt, &mut [0; 4], &[1, 2, 3, 4]);
}

/// The turn, from 0, in which that crew calls each of four jobs.
fn turns_of<C: Crew>(crew: &C) -> [u64; 4] {
    let next = AtomicU64::new(0);
    let mut jobs = [9; 4];
    crew.each(
        &mut jobs,
        &|_i: usize, job: &mut u64| {
            *job = next.fetch_add(1, Ordering::SeqCst);
        },
    );
    jobs
}

/// Orders, and the turn of each job.
static TURNS: [([usize; 4], [u64; 4]); 4] = [
    ([0, 1, 2, 3], [0, 1, 2, 3]),
    ([3, 2, 1, 0], [3, 2, 1, 0]),
    ([2, 0, 3, 1], [1, 3, 0, 2]),
    ([1, 2, 3, 0], [3, 0, 1, 2]),
];

#[test]
fn turns_go_in_the_order_given(rt: HostRuntime) {
    for &(order, turns) in &TURNS {
        same(&rt, turns_of(&in_order(&rt, order)), turns);
    }
}

/// Goes to work as the crew in it, and counts the lists of jobs, the jobs, and the lists that went to
/// threads.
#[derive(Drop)]
struct CountingCrew<C> {
    crew: C,
    lists: AtomicU64,
    jobs: AtomicU64,
    on_threads: AtomicU64,
}

impl<C> CountingCrew<C> {
    fn new(crew: C) -> CountingCrew<C> {
        CountingCrew {
            crew,
            lists: AtomicU64::new(0),
            jobs: AtomicU64::new(0),
            on_threads: AtomicU64::new(0),
        }
    }

    fn counts(&self) -> (u64, u64, u64) {
        (
            self.lists.load(Ordering::SeqCst),
            self.jobs.load(Ordering::SeqCst),
            self.on_threads.load(Ordering::SeqCst),
        )
    }
}

impl<C: Crew> Crew for CountingCrew<C> {
    type Handle = C::Handle;

    fn plan(&self, jobs: usize) -> Plan<'_, C::Handle> {
        self.lists.fetch_add(1, Ordering::SeqCst);
        self.jobs.fetch_add(jobs as u64, Ordering::SeqCst);
        let plan = self.crew.plan(jobs);
        if let Plan::OnThreads(_) = &plan {
            self.on_threads.fetch_add(1, Ordering::SeqCst);
        }
        plan
    }
}

/// What a write of an area in two lanes asks of its crew.
fn asked<C: Crew + Drop>(rt: &impl Abort, alloc: Global, crew: C) -> (u64, u64, u64) {
    let crew = CountingCrew::new(crew);
    let shape = Shape::new(1, 2, 2).expect(rt, "a shape");
    let (written, _calls) = saved(rt, alloc, &crew, &shape, NEVER);
    let _counts = written.expect(rt, "a write");
    crew.counts()
}

#[test]
fn one_list_of_two_jobs(rt: HostRuntime) {
    let turns = in_order(&rt, [3, 2, 1, 0]);
    same(&rt, asked(&rt, rt.alloc(), turns), (1, 2, 0));
    same(&rt, asked(&rt, rt.alloc(), Threads::new(&rt)), (1, 2, 1));
}
