//! Systems beside the one that is searched, each of which expands rows of it by tables of its own.

ghost use Rattle.std.specs.Prelude.{◌≡◌, ◌≢◌, ◌<◌, ℕ, All, IfOk, IfSome, Ok, [], false, length, slice_index_or, true};
ghost use Rattle.state_space.specs.Carried.{AreTargets, IsBeside, IsCarried, IsMade, IsPushed, IsTarget, NOWHERE};
ghost use Rattle.state_space.specs.Graphs.{count_of, row_at};
ghost use Rattle.state_space.specs.Successors.{found_count, found_row, found_width};
ghost use Rattle.state_space.specs.Systems.{Stay};

use crate::carries::Carries;
use crate::found::Successors;
use crate::graph::{Graph, NO_ROW};
use crate::refusal::Refused;
use crate::systems::Expansion;
use std::alloc::Global;
use std::mem;

/// What a row of a graph leads to.
#[derive(Drop)]
pub struct Made {
    /// The row.
    pub(crate) row: usize,
    /// Where it leads to, in the numbers of the system that expanded it, or of the one that is searched.
    pub(crate) found: Successors,
    /// Whether it is in the numbers of the one that is searched.
    pub(crate) is_known: bool,
    /// Of each of these the row of the graph that it is, where it is known, else the number of no row.
    pub(crate) targets: Vec<u32>,
    /// Whether its state is at an end.
    pub(crate) is_end: bool,
}

/// A system beside the one that is searched, and what it found of its share of some rows.
#[derive(Drop)]
pub struct Worker<S: Carries> {
    alloc: Global,
    pub(crate) system: S,
    /// What it remembers of the numbers of the system that is searched.
    memo: S::Memo,
    /// What that one remembers of its numbers.
    pub(crate) back: S::Memo,
    /// The row that was carried over last.
    row: Vec<u32>,
    /// What it found, in the order of the rows.
    pub(crate) made: Vec<Made>,
    /// What it found before, whose memory is used again.
    spare: Vec<Made>,
}

/// Nothing yet, in the memory of what was found before, where some is left: of a row of that width.
fn blank(alloc: Global, spare: &mut Vec<Made>, width: usize) -> Made
    ensures none { found_count result.found ≡ 0 }
    ensures width { found_width result.found ≡ width }
    ensures targets { result.targets.items ≡ [] }
    ensures own { result.is_known ≡ false }
{
    match spare.pop() {
        Some(made) if made.found.width() == width => cleared(made),
        _ => Made {
            row: 0,
            found: Successors::new(alloc, width),
            is_known: false,
            targets: Vec::new(alloc),
            is_end: false,
        },
    }
}

/// The same with nothing in it.
fn cleared(made: Made) -> Made
    ensures none { found_count result.found ≡ 0 }
    ensures width { found_width result.found ≡ found_width made.found }
    ensures targets { result.targets.items ≡ [] }
    ensures own { result.is_known ≡ false }
{
    let Made {
        mut found,
        mut targets,
        ..
    } = made;
    found.clear();
    targets.clear();
    Made {
        row: 0,
        found,
        is_known: false,
        targets,
        is_end: false,
    }
}

/// The number of a row in a graph, where it is found, else the number of no row.
fn target_of(graph: &Graph, row: &[u32]) -> u32
    ensures { result ≢ NOWHERE → IsTarget graph.now row.now result }
{
    let Some(target) = graph.find(row) else {
        return NO_ROW;
    };
    match u32::try_from(target) {
        Ok(target) => target,
        Err(_) => NO_ROW,
    }
}

/// Puts the numbers of successors in a graph, as far as they are found, in place of what was in `targets`.
fn find_targets(graph: &Graph, found: &Successors, targets: &mut Vec<u32>) -> Result<(), Refused>
    ensures { IfOk result (λ _. AreTargets graph.now found.now targets.new.items) }
{
    targets.clear();
    for index in 0..found.count() {
        targets.push(target_of(graph, found.row(index)))?;
    }
    Ok(())
}

/// Adds a successor in the numbers of the system that is searched, where that one knows the row. Whether it does.
fn know_one<S: Carries>(
    main: &S,
    system: &S,
    back: &S::Memo,
    event: u8,
    successor: &[u32],
    out: &mut Vec<u32>,
    known: &mut Successors,
) -> Result<bool, Refused>
    requires setting { S.setting main.now ≡ S.setting system.now }
    requires knows { S.knows system.now main.now back.now }
    requires stands { (b : S.State) × S.stands system.now successor.now b }
    ensures pushed { result ≡ Ok true
        → IsPushed (S.stands system.now) (S.stands main.now) known.old known.new event successor.now }
    ensures width { found_width known.new ≡ found_width known.old }
{
    if !main.find(system, back, successor, out)? || out.len() != known.width() {
        return Ok(false);
    }
    known.push(event, out)?;
    Ok(true)
}

/// Adds successors in the numbers of the system that is searched, as far as that one knows them. Whether it knows them all.
fn know_all<S: Carries>(
    main: &S,
    system: &S,
    back: &S::Memo,
    found: &Successors,
    out: &mut Vec<u32>,
    known: &mut Successors,
) -> Result<bool, Refused>
    requires setting { S.setting main.now ≡ S.setting system.now }
    requires knows { S.knows system.now main.now back.now }
    requires stands { (i : ℕ) → i < found_count found.now → (b : S.State) × S.stands system.now (found_row found.now i) b }
    requires none { found_count known.old ≡ 0 }
    ensures carried { result ≡ Ok true
        → IsCarried (S.stands system.now) (S.stands main.now) found.now known.new (found_count found.now) }
    ensures width { found_width known.new ≡ found_width known.old }
{
    for index in 0..found.count() {
        let event = found.event(index);
        if !know_one(main, system, back, event, found.row(index), out, known)? {
            return Ok(false);
        }
    }
    Ok(true)
}

#[tactic(auto, using(crate::proofs::Carrying::targets_none))]
/// Expands a row of a graph by the tables of another system. `None` where that one wants no more of the search.
fn made_of<S: Carries>(
    alloc: Global,
    system: &mut S,
    memo: &mut S::Memo,
    row: &mut Vec<u32>,
    spare: &mut Vec<Made>,
    main: &S,
    graph: &Graph,
    number: usize,
) -> Result<Option<Made>, Refused>
    requires within { number < count_of graph.now }
    requires setting { S.setting system.old ≡ S.setting main.now }
    requires known { (b : S.State) × S.stands main.now (row_at graph.now number) b }
    requires knows { S.knows main.now system.old memo.old }
    ensures setting { S.setting system.new ≡ S.setting system.old }
    ensures knows { S.knows main.now system.new memo.new }
    ensures stays { Stay (S.stands system.old) (S.stands system.new) }
    ensures made { IfOk result (λ found. IfSome found
        (IsMade (S.rules (S.setting main.now)) (S.stands main.now) (S.stands system.new) graph.now)) }
    ensures own { IfOk result (λ found. IfSome found (λ made. made.is_known ≡ false)) }
{
    system.carry(main, memo, graph.row(number), row)?;
    let mut made = blank(alloc, spare, row.len());
    let is_end = match system.expand(row, &mut made.found)? {
        Expansion::Halts => return Ok(None),
        Expansion::Goes => false,
        Expansion::Ends => true,
    };
    Ok(Some(Made {
        row: number,
        is_end,
        ..made
    }))
}

/// What was made of a row, in the numbers of the system that is searched where that one knows all of it.
fn known_made<S: Carries>(
    alloc: Global,
    main: &S,
    graph: &Graph,
    system: &S,
    back: &S::Memo,
    made: Made,
    out: &mut Vec<u32>,
    spare: &mut Vec<Made>,
) -> Result<Made, Refused>
    requires setting { S.setting main.now ≡ S.setting system.now }
    requires knows { S.knows system.now main.now back.now }
    requires known { (k : ℕ) → k < count_of graph.now → (b : S.State) × S.stands main.now (row_at graph.now k) b }
    requires made { IsMade (S.rules (S.setting main.now)) (S.stands main.now) (S.stands system.now) graph.now made }
    requires own { made.is_known ≡ false }
    ensures { IfOk result (IsMade (S.rules (S.setting main.now)) (S.stands main.now) (S.stands system.now) graph.now) }
{
    let mut known = blank(alloc, spare, graph.row(made.row).len());
    if !know_all(main, system, back, &made.found, out, &mut known.found)? {
        return Ok(made);
    }
    find_targets(graph, &known.found, &mut known.targets)?;
    known.row = made.row;
    known.is_end = made.is_end;
    known.is_known = true;
    spare.push(made)?;
    Ok(known)
}

impl<S: Carries> Worker<S> {
    /// A system of the same setting as that one, which found nothing yet.
    pub fn new(alloc: Global, main: &S) -> Result<Worker<S>, Refused>
        ensures { IfOk result (λ worker. IsBeside S.setting S.knows main.now worker.system worker.memo worker.back) }
    {
        let system = main.another()?;
        let memo = system.memo();
        Ok(Worker {
            alloc,
            system,
            memo,
            back: main.memo(),
            row: Vec::new(alloc),
            made: Vec::new(alloc),
            spare: Vec::new(alloc),
        })
    }

    /// What a row leads to. `None` where its system wants no more of the search.
    fn expanded(&mut self, main: &S, graph: &Graph, number: usize) -> Result<Option<Made>, Refused>
        requires within { number < count_of graph.now }
        requires beside { IsBeside S.setting S.knows main.now self.old.system self.old.memo self.old.back }
        requires known { (k : ℕ) → k < count_of graph.now → (b : S.State) × S.stands main.now (row_at graph.now k) b }
        ensures beside { IsBeside S.setting S.knows main.now self.new.system self.new.memo self.new.back }
        ensures stays { Stay (S.stands self.old.system) (S.stands self.new.system) }
        ensures same { self.new.made.items ≡ self.old.made.items }
        ensures made { IfOk result (λ found. IfSome found
            (IsMade (S.rules (S.setting main.now)) (S.stands main.now) (S.stands self.new.system) graph.now)) }
    {
        let made = made_of(
            self.alloc,
            &mut self.system,
            &mut self.memo,
            &mut self.row,
            &mut self.spare,
            main,
            graph,
            number,
        )?;
        match made {
            None => Ok(None),
            Some(made) => Ok(Some(known_made(
                self.alloc,
                main,
                graph,
                &self.system,
                &self.back,
                made,
                &mut self.row,
                &mut self.spare,
            )?)),
        }
    }

    /// Expands a row, and answers whether it could. It can't where its system wants no more of the search, or where memory was refused.
    fn make(&mut self, main: &S, graph: &Graph, number: usize) -> bool
        requires within { number < count_of graph.now }
        requires beside { IsBeside S.setting S.knows main.now self.old.system self.old.memo self.old.back }
        requires known { (k : ℕ) → k < count_of graph.now → (b : S.State) × S.stands main.now (row_at graph.now k) b }
        requires made { All (IsMade (S.rules (S.setting main.now)) (S.stands main.now) (S.stands self.old.system) graph.now)
            self.old.made.items }
        ensures beside { IsBeside S.setting S.knows main.now self.new.system self.new.memo self.new.back }
        ensures made { All (IsMade (S.rules (S.setting main.now)) (S.stands main.now) (S.stands self.new.system) graph.now)
            self.new.made.items }
    {
        match self.expanded(main, graph, number) {
            Ok(Some(made)) => self.made.push(made).is_ok(),
            _ => false,
        }
    }

    /// Forgets what it found, and keeps the memory.
    fn forget(&mut self)
        ensures system { self.new.system ≡ self.old.system }
        ensures memo { self.new.memo ≡ self.old.memo }
        ensures back { self.new.back ≡ self.old.back }
        ensures none { self.new.made.items ≡ [] }
    {
        mem::swap(&mut self.made, &mut self.spare);
        self.made.clear();
    }

    /// Expands the rows of a graph from one up to another, in place of those before, as far as it can.
    pub fn make_all(&mut self, main: &S, graph: &Graph, from: usize, to: usize)
        requires beside { IsBeside S.setting S.knows main.now self.old.system self.old.memo self.old.back }
        requires known { (k : ℕ) → k < count_of graph.now → (b : S.State) × S.stands main.now (row_at graph.now k) b }
        ensures beside { IsBeside S.setting S.knows main.now self.new.system self.new.memo self.new.back }
        ensures made { All (IsMade (S.rules (S.setting main.now)) (S.stands main.now) (S.stands self.new.system) graph.now)
            self.new.made.items }
    {
        self.forget();
        for number in from..to.min(graph.count()) {
            if !self.make(main, graph, number) {
                return;
            }
        }
    }
}
