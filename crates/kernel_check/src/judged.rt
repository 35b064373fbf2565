//! What a search says of a kernel: its ends, and what is wrong.

ghost use Rattle.std.specs.Prelude.{◌≡◌, All, IfOk, IfSome, [], None};
ghost use Rattle.board_model.specs.Shapes.{ram_bytes_of};
ghost use Rattle.kernel_check.specs.Shown.{AreIn};
ghost use Rattle.kernel_check.specs.Failures.{CanFail};
ghost use Rattle.kernel_check.specs.Says.{SaysAs};
ghost use Rattle.kernel_check.specs.Verdicts.{verdict_of};

use crate::comes::comes;
use crate::counting::counting;
use crate::ends::{Ends, differing, ends_of};
use crate::facts::{EndKind, EndShown, Failure, OwnOrder, SearchFacts, SharedWord, Stop, Verdict};
use crate::given::FailureKind;
use crate::looks::Look;
use crate::places::data_text;
use crate::standing::stays_trapped;
use crate::told::holds;
use crate::walks::{Setting, walk_to};
use board_model::{RAM_BASE, Refusal};
use board_space::{Bound, Explored};
use model_board::{Power, Rest, Status};
use std::alloc::AllocError;

/// What all boards of a search tell.
#[derive(Clone, Copy, Drop)]
struct Scanned {
    /// The first board of which a hart is trapped.
    first_trap: Option<usize>,
    /// How many boards are off with an image.
    images: usize,
}

/// Whether a hart of the board of a row is trapped, of which that is what it is beside its harts and its memory.
fn is_row_trapped(setting: Setting<'_>, explored: &Explored, row: usize, rest: &Rest) -> bool {
    if rest.power != Power::On {
        return false;
    }
    for number in 0..8usize {
        if let Some(stands) = explored.hart_of(row, number)
            && stays_trapped(setting.shape, rest.tables.states[number], stands)
        {
            return true;
        }
    }
    false
}

/// Goes over all boards of a search, by what is told of each in its row: none is put.
fn scan(setting: Setting<'_>, explored: &Explored) -> Scanned {
    let mut scan = Scanned {
        first_trap: None,
        images: 0,
    };
    for row in 0..explored.count() {
        let Some(rest) = explored.rest_of(row) else {
            continue;
        };
        if scan.first_trap.is_none() && is_row_trapped(setting, explored, row, rest) {
            scan.first_trap = Some(row);
        }
        if matches!(rest.power, Power::Off(Some(_))) {
            scan.images = scan.images.saturating_add(1);
        }
    }
    scan
}

/// The first row of two, where there is one.
fn first_of(one: Option<usize>, other: Option<usize>) -> Option<usize> {
    match (one, other) {
        (Some(row), Some(than)) if than < row => Some(than),
        (Some(row), _) => Some(row),
        (None, other) => other,
    }
}

/// Why a search was not closed.
fn stop_of(explored: &Explored) -> Option<Stop> {
    match explored.verdict() {
        state_space::Verdict::Closed => None,
        state_space::Verdict::AtRows => Some(Stop::Boards),
        state_space::Verdict::AtBytes => Some(Stop::Memory),
        state_space::Verdict::Halted => Some(Stop::Map),
    }
}

/// The words that harts share.
fn shared_words(setting: Setting<'_>, explored: &Explored) -> Result<Vec<SharedWord>, AllocError> {
    let mut shared = Vec::new(setting.alloc);
    let map = explored.map();
    for word in 0..map.words() {
        let writers = map.writers(word);
        let touching = writers | map.readers(word);
        if writers != 0 && 2 <= touching.count_ones() {
            let address = RAM_BASE.saturating_add(word.saturating_mul(8));
            shared.push(SharedWord {
                address,
                name: data_text(setting.alloc, setting.elf, address)?,
            })?;
        }
    }
    Ok(shared)
}

/// What is told of a kernel.
#[derive(Drop)]
pub struct Judged {
    pub search: SearchFacts,
    /// What the ends show that are no failures by themselves.
    pub kinds: Vec<EndKind>,
    pub failures: Vec<Failure>,
    pub verdict: Verdict,
}

impl Judged {
    /// The failure of that kind, where one was found.
    pub fn failure(&self, kind: FailureKind) -> Option<&Failure> {
        for failure in &self.failures {
            if failure.kind == kind {
                return Some(failure);
            }
        }
        None
    }
}

/// A kind of failures, how many ends show it, and the row of the board that shows it first.
type Place = (FailureKind, usize, Option<usize>);

/// The places of failures, in the order in which they are told.
fn failing_rows(
    explored: &Explored,
    ends: &Ends,
    first_trap: Option<usize>,
) -> Result<[Place; 4], Refusal> {
    let Ok(dead) = explored.first_dead() else {
        return Err(Refusal::Memory);
    };
    let kinds = ends.kinds.as_slice();
    let differs = differing(kinds);
    let stuck = first_of(ends.waits.first, dead);
    Ok([
        (FailureKind::Traps, ends.traps, first_trap),
        (FailureKind::Fails, ends.fails.count, ends.fails.first),
        (FailureKind::Differs, differs.count, differs.first),
        (FailureKind::Stuck, ends.waits.count, stuck),
    ])
}

/// Whether some hart writes bytes of a look.
fn is_written(explored: &Explored, look: &Look) -> bool {
    let map = explored.map();
    let end = look.start.saturating_add(look.bytes);
    for word in look.start / 8..end.saturating_add(7) / 8 {
        if map.writers(word as u64) != 0 {
            return true;
        }
    }
    false
}

/// Whether bytes are looked at that some hart writes, or of which it is said what is expected.
fn looks_at_some(explored: &Explored, looks: &[Look]) -> bool {
    for look in looks {
        if look.expected.is_some() || is_written(explored, look) {
            return true;
        }
    }
    false
}

/// Whether each end shows something.
fn shows_all(explored: &Explored, kinds: &[EndKind], looks: &[Look]) -> bool {
    if looks_at_some(explored, looks) {
        return true;
    }
    for kind in kinds {
        if let EndShown::On(_) = kind.shown {
            return false;
        }
    }
    true
}

/// The verdict: what was found comes first, then whether the orders were followed, then whether each end shows something.
fn verdict_of(failures: usize, stop: Option<Stop>, shows: bool, told: bool, bound: Bound) -> Verdict
    ensures { result ≡ verdict_of failures stop shows told bound }
{
    if failures != 0 {
        return Verdict::Found;
    }
    if let Some(stop) = stop {
        return Verdict::Open(stop);
    }
    if !shows {
        return Verdict::Blank;
    }
    match (told, bound) {
        (true, Bound::Unbounded) => Verdict::Holds,
        (true, Bound::Preemptions(most)) => Verdict::Within(most),
        (true, Bound::PowerOns(most)) => Verdict::Lives(most),
        (false, Bound::Unbounded) => Verdict::Open(Stop::Untold),
        (false, Bound::Preemptions(_)) => Verdict::Open(Stop::Switches),
        (false, Bound::PowerOns(_)) => Verdict::Open(Stop::Lives),
    }
}

/// A failure of that kind, which so many ends show, the board of this row first. None where no events lead to it, which does not happen.
fn failure_at(
    setting: Setting<'_>,
    explored: &mut Explored,
    looks: &[Look],
    kinds: &[EndKind],
    place: (FailureKind, usize, usize),
) -> Result<Option<Failure>, Refusal>
    requires { AreIn (ram_bytes_of explored.old.asked.size) looks.now }
    ensures comes { IfOk result (λ found. IfSome found (λ failure. CanFail failure.kind explored.old.asked looks.now)) }
    ensures same { explored.new ≡ explored.old }
{
    let (kind, count, row) = place;
    let Some(walk) = walk_to(setting, explored, row)? else {
        return Ok(None);
    };
    let board = &walk.board;
    let can_come = comes(setting.alloc, explored, looks, kinds, kind, row, board)?;
    if !can_come {
        return Ok(None);
    }
    Ok(Some(Failure {
        kind,
        ends: count,
        row,
        order: walk.order,
        harts: walk.harts,
        is_on: walk.board.status() == Status::On,
    }))
}

/// Adds the failure at that place, where there is one.
fn add_failure(
    setting: Setting<'_>,
    explored: &mut Explored,
    looks: &[Look],
    kinds: &[EndKind],
    place: &Place,
    failures: &mut Vec<Failure>,
) -> Result<(), Refusal>
    requires within { AreIn (ram_bytes_of explored.old.asked.size) looks.now }
    requires before { All (λ f. CanFail f.kind explored.old.asked looks.now) failures.old.items }
    ensures come { IfOk result (λ _. All (λ f. CanFail f.kind explored.old.asked looks.now) failures.new.items) }
    ensures same { explored.new ≡ explored.old }
{
    let &(kind, count, row) = place;
    let Some(row) = row else {
        return Ok(());
    };
    let place = (kind, count, row);
    match failure_at(setting, explored, looks, kinds, place)? {
        Some(failure) => Ok(failures.push(failure)?),
        None => Ok(()),
    }
}

/// The failures at those places.
fn failures_of(
    setting: Setting<'_>,
    explored: &mut Explored,
    looks: &[Look],
    kinds: &[EndKind],
    places: &[Place],
) -> Result<Vec<Failure>, Refusal>
    requires { AreIn (ram_bytes_of explored.old.asked.size) looks.now }
    ensures come { IfOk result (λ failures. All (λ f. CanFail f.kind explored.old.asked looks.now) failures.items) }
    ensures same { explored.new ≡ explored.old }
{
    let mut failures = Vec::new(setting.alloc);
    for place in places {
        add_failure(setting, explored, looks, kinds, place, &mut failures)?;
    }
    Ok(failures)
}

/// How far a search went that found so many images and ends.
fn search_facts(
    setting: Setting<'_>,
    explored: &Explored,
    images: usize,
    ends: usize,
) -> Result<SearchFacts, Refusal> {
    let stop = stop_of(explored);
    let counting = match stop {
        Some(_) => counting(setting, explored)?,
        None => Vec::new(setting.alloc),
    };
    Ok(SearchFacts {
        bound: explored.bound(),
        boards: explored.count(),
        stop,
        counting,
        shared: shared_words(setting, explored)?,
        images,
        ends,
    })
}

/// What a search found, and the verdict.
#[derive(Drop)]
struct Findings {
    search: SearchFacts,
    failures: Vec<Failure>,
    verdict: Verdict,
}

/// What a search found whose ends these are, and the verdict.
#[tactic(auto, using(crate::proofs::Telling::verdict_says))]
fn findings_of(
    setting: Setting<'_>,
    explored: &mut Explored,
    looks: &[Look],
    ends: &Ends,
) -> Result<Findings, Refusal>
    requires { AreIn (ram_bytes_of explored.old.asked.size) looks.now }
    ensures says { IfOk result (λ found. SaysAs found.verdict explored.old.asked looks.now ends.now.kinds.items) }
    ensures come { IfOk result (λ found. All (λ f. CanFail f.kind explored.old.asked looks.now) found.failures.items) }
    ensures clear { IfOk result (λ found. found.verdict ≡ Verdict.Holds → found.failures.items ≡ []) }
    ensures closed { IfOk result (λ found. found.verdict ≡ Verdict.Holds → found.search.stop ≡ None) }
{
    let kinds = ends.kinds.as_slice();
    let told = holds(setting.alloc, explored, looks, kinds)?;
    let shows = shows_all(explored, kinds, looks);
    let bound = explored.bound();
    let scan = scan(setting, explored);
    let rows = failing_rows(explored, ends, scan.first_trap)?;
    let search = search_facts(setting, explored, scan.images, ends.count)?;
    let failures = failures_of(setting, explored, looks, kinds, &rows)?;
    let verdict = verdict_of(failures.len(), search.stop, shows, told, bound);
    Ok(Findings {
        search,
        failures,
        verdict,
    })
}

/// Judges a kernel by a search.
pub fn judge(
    setting: Setting<'_>,
    explored: &mut Explored,
    own: &OwnOrder,
    looks: &[Look],
) -> Result<Judged, Refusal>
    requires { AreIn (ram_bytes_of explored.old.asked.size) looks.now }
    // Where nothing is wrong, each order that is asked for ends with the one kind of ends that is told; what is found can come.
    ensures says { IfOk result (λ judged. SaysAs judged.verdict explored.old.asked looks.now judged.kinds.items) }
    // Each failure that is told can come.
    ensures come { IfOk result (λ judged. All (λ f. CanFail f.kind explored.old.asked looks.now) judged.failures.items) }
    // Where nothing is wrong no failure is told, and the search was closed.
    ensures clear { IfOk result (λ judged. judged.verdict ≡ Verdict.Holds → judged.failures.items ≡ []) }
    ensures closed { IfOk result (λ judged. judged.verdict ≡ Verdict.Holds → judged.search.stop ≡ None) }
{
    let ends = ends_of(setting, explored, own, looks)?;
    let found = findings_of(setting, explored, looks, &ends)?;
    Ok(Judged {
        search: found.search,
        kinds: ends.kinds,
        failures: found.failures,
        verdict: found.verdict,
    })
}
