//! Works on threads of their own, and one on this, until all have ended.

ghost use Rattle.std.specs.Prelude.{◌≡◌, ◌≤◌, ◌+◌, ◌++◌, List, All, IfOk, IfErr, map, vec_len, vec_capacity};
ghost use Rattle.std.specs.List.{AllZip};

use std::alloc::{AllocError, Global};
use std::sync::Wait;
use std::thread::{self, Promise, PromisedHandle, Threads};

/// What ends all works early.
pub(crate) trait StopSource {
    /// Each work ends as soon as it looks.
    fn stop(&self);
}

/// A work, and what is promised of what it gives.
#[derive(Drop)]
pub(crate) struct Promised<P: Drop, W: Drop> {
    pub(crate) promise: P,
    pub(crate) work: W,
}

/// Room for so many threads, and for what they give back.
#[derive(Drop)]
pub(crate) struct Rooms<T: Send + Drop, P: Promise<T>> {
    handles: Vec<PromisedHandle<T, P>>,
    given: Vec<T>,
}

impl<T: Send + Drop, P: Promise<T>> Rooms<T, P> {
    /// Room for as many.
    pub(crate) fn new(alloc: Global, many: usize) -> Result<Rooms<T, P>, AllocError>
        ensures { IfOk result (λ r. (vec_len r.handles ≡ 0) × (vec_capacity r.handles ≡ many) × (vec_len r.given ≡ 0)
            × (vec_capacity r.given ≡ many)) }
    {
        let handles = Vec::with_capacity(alloc, many)?;
        let given = Vec::with_capacity(alloc, many)?;
        Ok(Rooms { handles, given })
    }
}

/// Those that were given, and then those of the threads, in their order: each of these is what its thread promised.
fn joined<R: Threads + Wait, T: Send + Drop, P: Promise<T>>(
    rt: &R,
    handles: Vec<PromisedHandle<T, P>>,
    given: Vec<T>,
) -> Vec<T>
    requires { vec_len given + vec_len handles ≤ vec_capacity given }
    ensures count { vec_len result ≡ vec_len given + vec_len handles }
    ensures kept { (made : List T) × (result.items ≡ given.items ++ made)
        × AllZip (λ h t. P.kept_by h.promise t) handles.items made }
{
    let mut given = given;
    for handle in handles {
        given.push_reserved(handle.join(rt));
    }
    given
}

/// A work that is taken out of the list can be run, as each of the list can. It is said here, before its thread takes it.
fn known_ready<W: Drop, T, P: Promise<T> + Drop, F: Fn(W) -> T>(run: &F, work: &Promised<P, W>)
    requires ready { F.pre run.now work.now.work }
    requires promised { (t : T) → F.post run.now work.now.work t → P.kept_by work.now.promise t }
    ensures ready { F.pre run.now work.now.work }
    ensures promised { (t : T) → F.post run.now work.now.work t → P.kept_by work.now.promise t }
{
    let _ = run;
    let _ = work;
}

/// Runs each work on a thread of its own, and the last one on this; returns once all have ended. What the works gave is in their order,
/// and each is what was promised of its work. Where a thread could not be started all works were told to end, each of them has, and the
/// last was not begun.
pub(crate) fn on_threads<
    R: Threads + Wait + Sync,
    S: StopSource + Sync,
    W: Send + Drop,
    T: Send + Drop,
    P: Promise<T> + Drop,
    F: Fn(W) -> T + Sync,
    E: Drop,
    U: Drop,
    K: FnOnce(E) -> U,
>(
    rt: &R,
    stop: &S,
    rooms: Rooms<T, P>,
    works: Vec<Promised<P, W>>,
    run: &F,
    side: E,
    last: K,
) -> Result<(Vec<T>, U), (Vec<T>, E)>
    requires last { K.IsAlwaysCallable last }
    requires ready { All (λ w. F.pre run.now w.work) works.items }
    requires promised { All (λ w. (t : T) → F.post run.now w.work t → P.kept_by w.promise t) works.items }
    requires handles { (vec_len rooms.handles ≡ 0) × (vec_capacity rooms.handles ≡ vec_len works) }
    requires given { (vec_len rooms.given ≡ 0) × (vec_capacity rooms.given ≡ vec_len works) }
    ensures said { IfOk result (λ r. K.post last side r.1) }
    ensures all { IfOk result (λ r. vec_len r.0 ≡ vec_len works) }
    ensures kept { IfOk result (λ r. AllZip (λ w t. P.kept_by w.promise t) works.items r.0.items) }
    ensures back { IfErr result (λ e. (vec_len e.0 ≡ vec_len works) × (e.1 ≡ side)) }
{
    thread::scope(
        thread::scope_env(),
        rt,
        move |scope| -> Result<(Vec<T>, U), (Vec<T>, E)>
            requires { K.IsAlwaysCallable last × All (λ w. F.pre run.now w.work) works.items
                × All (λ w. (t : T) → F.post run.now w.work t → P.kept_by w.promise t) works.items
                × (vec_len rooms.handles ≡ 0) × (vec_capacity rooms.handles ≡ vec_len works)
                × (vec_len rooms.given ≡ 0) × (vec_capacity rooms.given ≡ vec_len works) }
            ensures { IfOk result (λ r. K.post last side r.1 × (vec_len r.0 ≡ vec_len works)
                × AllZip (λ w t. P.kept_by w.promise t) works.items r.0.items)
                × IfErr result (λ e. (vec_len e.0 ≡ vec_len works) × (e.1 ≡ side)) }
        {
            let Rooms {
                mut handles,
                mut given,
            } = rooms;
            let mut unstarted = false;
            for work in works {
                known_ready(run, &work);
                let Promised { promise, work } = work;
                let started = scope.spawn_with(
                    promise,
                    move || -> T
                        requires { F.pre run.now work }
                        ensures { F.post run.entry.now work result }
                    { run(work) },
                );
                match started {
                    Ok(handle) => handles.push_reserved(handle),
                    // It ends before its first turn.
                    Err(refused) => {
                        stop.stop();
                        given.push_reserved((refused.value)());
                        unstarted = true;
                    }
                }
            }
            if unstarted {
                return Err((joined(rt, handles, given), side));
            }
            let said = last(side);
            Ok((joined(rt, handles, given), said))
        },
    )
}
