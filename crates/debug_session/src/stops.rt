//! Where a debugged board halts: at addresses, and where bytes change or are read.

ghost use Rattle.std.specs.Prelude.{◌≡◌, ◌↔◌, ◌+◌, [], All, IsTrue, true, false, ◌==◌, nat_lt, IfOk, OnErr, OnOk};
ghost use Rattle.debug_session.specs.Points.{with_point, with_watch, without_point, without_watch};
ghost use Rattle.debug_session.specs.Firsts.{is_kept, is_read, is_unread, minds_changes, minds_reads, seen_all, seen_by, seen_in, touched_since};
ghost use Rattle.debug_session.specs.Others.{first_other, other_of};
ghost use Rattle.debug_session.specs.Lives.{machine_of};

use crate::loads::Load;
use crate::looks::memory;
use bench_report::LiveBench;
use std::alloc::{AllocError, Global};

/// What a watchpoint minds.
#[derive(Clone, Copy, PartialEq, Eq, Drop)]
pub enum WatchKind {
    /// That its bytes change.
    Changes,
    /// That one of them is read.
    Reads,
    /// Either.
    Accesses,
}

impl WatchKind {
    fn minds_changes(self) -> bool
        ensures { result ≡ minds_changes self }
    {
        match self {
            WatchKind::Changes | WatchKind::Accesses => true,
            WatchKind::Reads => false,
        }
    }

    fn minds_reads(self) -> bool
        ensures { result ≡ minds_reads self }
    {
        match self {
            WatchKind::Reads | WatchKind::Accesses => true,
            WatchKind::Changes => false,
        }
    }
}

/// A watchpoint: bytes of memory that a turn is not to touch unseen.
#[derive(Clone, Copy, PartialEq, Eq, Drop)]
pub struct Watchpoint {
    /// What it minds.
    pub kind: WatchKind,
    /// Where the bytes begin.
    pub address: u64,
    /// How many they are.
    pub count: u64,
}

/// What is watched, as it was before a turn.
#[derive(Drop)]
pub(crate) struct SeenBytes {
    watch: Watchpoint,
    bytes: Vec<u8>,
}

/// The breakpoints and watchpoints of a session.
#[derive(Drop)]
pub struct Stops {
    points: Vec<u64>,
    watches: Vec<Watchpoint>,
}

impl Stops {
    /// None.
    pub(crate) fn new(alloc: Global) -> Stops
        ensures points { result.points.items ≡ [] }
        ensures watches { result.watches.items ≡ [] }
    {
        Stops {
            points: Vec::new(alloc),
            watches: Vec::new(alloc),
        }
    }

    /// The breakpoints.
    pub(crate) fn points(&self) -> &[u64]
        ensures { result.now ≡ self.now.points.items }
    {
        &self.points
    }

    /// Whether bytes are watched.
    pub(crate) fn watch(&self) -> bool
        ensures { result ≡ false → self.now.watches.items ≡ [] }
    {
        !self.watches.is_empty()
    }

    /// Sets a breakpoint, once.
    pub(crate) fn set_point(&mut self, address: u64) -> Result<(), AllocError>
        ensures points { OnOk result (self.new.points.items ≡ with_point address self.old.points.items) }
        ensures unset { OnErr result (self.new.points.items ≡ self.old.points.items) }
        ensures watches { self.new.watches.items ≡ self.old.watches.items }
    {
        if !self.points.contains(&address) {
            self.points.push(address)?;
        }
        Ok(())
    }

    /// Takes a breakpoint away.
    pub(crate) fn clear_point(&mut self, address: u64)
        ensures points { self.new.points.items ≡ without_point address self.old.points.items }
        ensures watches { self.new.watches.items ≡ self.old.watches.items }
    {
        self.points.retain(|p| *p != address);
    }

    /// Watches bytes, once.
    pub(crate) fn set_watch(&mut self, watch: Watchpoint) -> Result<(), AllocError>
        ensures watches { OnOk result (self.new.watches.items ≡ with_watch watch self.old.watches.items) }
        ensures unset { OnErr result (self.new.watches.items ≡ self.old.watches.items) }
        ensures points { self.new.points.items ≡ self.old.points.items }
    {
        if !self.watches.contains(&watch) {
            self.watches.push(watch)?;
        }
        Ok(())
    }

    /// Watches them no more.
    pub(crate) fn clear_watch(&mut self, watch: Watchpoint)
        ensures watches { self.new.watches.items ≡ without_watch watch self.old.watches.items }
        ensures points { self.new.points.items ≡ self.old.points.items }
    {
        self.watches.retain(|w| *w != watch);
    }

    /// What is watched, as it is now. It tells what the next turn touches. Where turns touch nothing, it tells what the one after
    /// them touches too, since all that is minded is as it was.
    pub(crate) fn watched(
        &self,
        alloc: Global,
        bench: &LiveBench,
    ) -> Result<Vec<SeenBytes>, AllocError>
        ensures seen { IfOk result (λ all. seen_in all.items ≡ seen_all (machine_of bench.now) self.now.watches.items) }
    {
        let mut all = Vec::new(alloc);
        for watch in &self.watches {
            let bytes = Vec::from_slice(alloc, bytes_of(bench, *watch))?;
            all.push(SeenBytes {
                watch: *watch,
                bytes,
            })?;
        }
        Ok(all)
    }
}

/// The bytes that are watched, where the board has them; else none.
fn bytes_of(bench: &LiveBench, watch: Watchpoint) -> &[u8]
    ensures { result.now ≡ seen_by (machine_of bench.now) watch }
{
    match memory(bench, watch.address, watch.count) {
        Some(bytes) => bytes,
        None => b"".as_slice(),
    }
}

/// Whether an address lies before the end of `count` bytes from another on.
fn is_before(address: u64, first: u64, count: u64) -> bool
    ensures { result ≡ nat_lt address (first + count) }
{
    if address < first {
        return true;
    }
    address - first < count
}

/// Whether a turn that reads that reads one of the bytes that are watched.
fn is_read(watch: Watchpoint, load: Option<Load>) -> bool
    ensures { result ≡ is_read watch load }
{
    match load {
        Some(load) => {
            is_before(watch.address, load.address, load.count)
                && is_before(load.address, watch.address, watch.count)
        }
        None => false,
    }
}

/// Whether nothing is changed that a watchpoint minds of what was seen. One that minds no changes is not compared.
fn is_kept(bench: &LiveBench, was: &SeenBytes) -> bool
    ensures { result ≡ is_kept was.now.watch was.now.bytes.items (seen_by (machine_of bench.now) was.now.watch) }
{
    if was.watch.kind.minds_changes() {
        was.bytes.as_slice() == bytes_of(bench, was.watch)
    } else {
        true
    }
}

/// Whether nothing is read that a watchpoint minds.
fn is_unread(watch: Watchpoint, load: Option<Load>) -> bool
    ensures { result ≡ is_unread watch load }
{
    if watch.kind.minds_reads() {
        !is_read(watch, load)
    } else {
        true
    }
}

/// Whether nothing is read that the watchpoint of what was seen minds.
fn is_unread_of(was: &SeenBytes, load: Option<Load>) -> bool
    ensures { IsTrue result ↔ (is_unread was.now.watch load ≡ true) }
{
    is_unread(was.watch, load)
}

/// Whether nothing is read that any of these watchpoints minds.
pub(crate) fn are_unread(before: &Vec<SeenBytes>, load: Option<Load>) -> bool
    ensures { IsTrue result ↔ All (λ was. is_unread was.watch load ≡ true) before.now.items }
{
    before.iter().all(|was| is_unread_of(was, load))
}

/// The watchpoint of what was seen, where a turn that read that touched it.
fn other_now(bench: &LiveBench, load: Option<Load>, was: &SeenBytes) -> Option<Watchpoint>
    ensures { result ≡ other_of (machine_of bench.now) load (was.now.watch, was.now.bytes.items) }
{
    let kept = is_kept(bench, was);
    if kept && is_unread(was.watch, load) {
        None
    } else {
        Some(was.watch)
    }
}

/// The first of these that a turn touched, which read that.
fn first_in(bench: &LiveBench, load: Option<Load>, before: &[SeenBytes]) -> Option<Watchpoint>
    ensures { result ≡ first_other (machine_of bench.now) load (seen_in before.now) }
{
    for was in before {
        if let Some(watch) = other_now(bench, load, was) {
            return Some(watch);
        }
    }
    None
}

/// The first of what was seen before a turn that it touched, which read that.
#[tactic(auto, using(crate::proofs::Others::first_since))]
pub(crate) fn first_touched(
    bench: &LiveBench,
    load: Option<Load>,
    before: &Vec<SeenBytes>,
) -> Option<Watchpoint>
    ensures { result ≡ touched_since (machine_of bench.now) load (seen_in before.now.items) }
{
    first_in(bench, load, before)
}
