//! A kernel checked: its own order, the search, and the verdict.

ghost use Rattle.std.specs.Prelude.{◌≡◌, ◌≤◌, ℕ, vec_len, IfOk, [], ◌∷◌};
ghost use Rattle.board_model.specs.Shapes.{ram_bytes_of};
ghost use Rattle.kernel_check.specs.Asks.{IsBoard, IsRight, IsRightForLives, IsRightWithin, IsWrong, asked_in};
ghost use Rattle.kernel_check.specs.Looks.{AreLooks, AreLooksOf, IsLookOf};
ghost use Rattle.kernel_check.specs.Shown.{AreIn, IsIn};
ghost use Rattle.kernel_check.specs.Says.{Says, SaysAs};

use crate::facts::{OwnOrder, Stop, Verdict};
use crate::faults::CheckFault;
use crate::given::{CheckOptions, FailureKind, LookWord};
use crate::help::{MOST_JOBS, MOST_PREEMPTIONS};
use crate::judged::{Judged, judge};
use crate::kernel::{Kernel, kernel_of};
use crate::looks::{Look, look_at};
use crate::own::own_order;
use crate::tells::{
    tell_judged, tell_kernel, tell_own, tell_script, tell_search, tell_stop, written,
};
use crate::walks::Setting;
use board_model::{Refusal, Shape};
use board_space::{Bound, Explored, Failures, Question, explore_board};
use model_board::Board;
use state_space::{Limits, Refused};
use std::alloc::{AllocError, Global};
use std::io::Write;
use std::thread::{self, Threads};

/// The shape of the board that is asked for.
fn shape_of(options: &CheckOptions, kernel: &Kernel<'_>) -> Result<Shape, Refusal>
    ensures { IfOk result (λ shape. IsBoard options.now shape) }
{
    let pages = options.pages.unwrap_or(kernel.pages);
    Shape::new(
        u64::from(options.harts),
        u64::from(pages),
        u64::from(options.lanes),
    )
}

/// The look of a word.
fn look_of(
    alloc: Global,
    word: &LookWord,
    kernel: &Kernel<'_>,
    shape: &Shape,
) -> Result<Look, CheckFault>
    ensures look { IfOk result (IsLookOf kernel.now.elf word.now) }
    ensures within { IfOk result (IsIn (ram_bytes_of shape.now)) }
{
    match look_at(alloc, kernel.elf.as_ref(), shape.ram_bytes(), word)? {
        Ok(look) => Ok(look),
        Err(why) => Err(CheckFault::Look(word.name.clone()?, why)),
    }
}

/// A list of one look.
fn one_look(alloc: Global, look: Look) -> Result<Vec<Look>, AllocError>
    ensures { IfOk result (λ looks. looks.items ≡ look ∷ []) }
{
    let mut looks = Vec::new(alloc);
    looks.push(look)?;
    Ok(looks)
}

/// The looks of words.
fn looks_named(
    alloc: Global,
    words: &[LookWord],
    kernel: &Kernel<'_>,
    shape: &Shape,
) -> Result<Vec<Look>, CheckFault>
    ensures looks { IfOk result (λ looks. AreLooksOf kernel.now.elf words.now looks.items) }
    ensures within { IfOk result (λ looks. AreIn (ram_bytes_of shape.now) looks.items) }
{
    let mut looks = Vec::new(alloc);
    for word in words {
        looks.push(look_of(alloc, word, kernel, shape)?)?;
    }
    Ok(looks)
}

/// The look where nothing is said, if there is one.
#[tactic(auto, using(crate::proofs::Naming::own_one))]
fn own_looks(alloc: Global, kernel: &Kernel<'_>, shape: &Shape) -> Result<Vec<Look>, AllocError>
    ensures looks { IfOk result (λ looks. AreLooks kernel.now.elf [] looks.items) }
    ensures within { IfOk result (λ looks. AreIn (ram_bytes_of shape.now) looks.items) }
{
    match kernel.own_look(alloc, shape)? {
        None => Ok(Vec::new(alloc)),
        Some(look) => Ok(one_look(alloc, look)?),
    }
}

/// What is looked at.
#[tactic(auto, using(crate::proofs::Naming::no_words, crate::proofs::Naming::some_words))]
fn looks_of(
    alloc: Global,
    words: &[LookWord],
    kernel: &Kernel<'_>,
    shape: &Shape,
) -> Result<Vec<Look>, CheckFault>
    ensures looks { IfOk result (λ looks. AreLooks kernel.now.elf words.now looks.items) }
    ensures within { IfOk result (λ looks. AreIn (ram_bytes_of shape.now) looks.items) }
{
    if words.is_empty() {
        Ok(own_looks(alloc, kernel, shape)?)
    } else {
        looks_named(alloc, words, kernel, shape)
    }
}

/// What is checked.
#[derive(Clone, Copy, Drop)]
struct Task<'a> {
    alloc: Global,
    options: &'a CheckOptions,
    kernel: &'a Kernel<'a>,
    shape: &'a Shape,
    looks: &'a [Look],
    /// How many threads search.
    threads: usize,
}

impl<'a> Task<'a> {
    /// What is known of the kernel and its board.
    fn setting(self) -> Setting<'a> {
        Setting {
            alloc: self.alloc,
            elf: self.kernel.elf.as_ref(),
            shape: self.shape,
        }
    }
}

/// The kernel's own order, on a board of its own.
fn own_of(task: Task<'_>) -> Result<OwnOrder, Refusal>
    requires { vec_len task.kernel.now.payload ≤ ram_bytes_of task.shape.now }
{
    let mut board = Board::new(task.alloc, task.shape, task.options.asked.reason)?;
    let payload = task.kernel.payload.as_slice();
    let own = own_order(task.setting(), &mut board, payload, task.looks)?;
    Ok(own)
}

/// The search of the orders of a bound.
fn searched<R: Threads + Sync>(rt: &R, task: Task<'_>, bound: Bound) -> Result<Explored, Refused>
    requires { vec_len task.kernel.now.payload ≤ ram_bytes_of task.shape.now }
    ensures { IfOk result (λ e. e ≡ record {
      asked = asked_in task.entry.options.now task.entry.shape.now task.entry.kernel.now.payload.items;
      bound = bound;
    }) }
{
    let question = Question {
        shape: *task.shape,
        payload: task.kernel.payload.as_slice(),
        reason: task.options.asked.reason,
        failures: Failures {
            cuts: task.options.asked.cuts,
            refusals: task.options.asked.refusals,
        },
        bound,
        limits: Limits {
            rows: task.options.boards as usize,
            bytes: task.options.memory,
        },
        threads: task.threads,
    };
    explore_board(rt, task.alloc, &question)
}

/// What is said of a kernel whose own order is that, by such a search.
fn judged<R: Threads + Sync>(
    rt: &R,
    task: Task<'_>,
    own: &OwnOrder,
    bound: Bound,
) -> Result<Judged, Refusal>
    requires fits { vec_len task.kernel.now.payload ≤ ram_bytes_of task.shape.now }
    requires looks { AreIn (ram_bytes_of task.shape.now) task.looks.now }
    // Where nothing is wrong, each order that was followed ends with the one kind of ends that is told.
    ensures says { IfOk result (λ judged. SaysAs judged.verdict
        (asked_in task.entry.options.now task.entry.shape.now task.entry.kernel.now.payload.items)
        task.entry.looks.now judged.kinds.items) }
{
    let Ok(mut explored) = searched(rt, task, bound) else {
        return Err(Refusal::Memory);
    };
    judge(task.setting(), &mut explored, own, task.looks)
}

/// Whether a search was given up at a limit before anything was found.
fn is_given_up(verdict: Verdict) -> bool {
    matches!(
        verdict,
        Verdict::Open(Stop::Boards) | Verdict::Open(Stop::Memory)
    )
}

/// What was told so far is written.
fn flush<W: Write>(out: &mut W) -> Result<(), Refusal> {
    written(out.flush())
}

/// Follows a kernel's orders of a bound, and tells of the search, unless a script is asked for.
fn followed<R: Threads + Sync, W: Write>(
    rt: &R,
    task: Task<'_>,
    own: &OwnOrder,
    bound: Bound,
    out: &mut W,
) -> Result<Judged, Refusal>
    requires fits { vec_len task.kernel.now.payload ≤ ram_bytes_of task.shape.now }
    requires looks { AreIn (ram_bytes_of task.shape.now) task.looks.now }
    ensures says { IfOk result (λ judged. SaysAs judged.verdict
        (asked_in task.entry.options.now task.entry.shape.now task.entry.kernel.now.payload.items)
        task.entry.looks.now judged.kinds.items) }
{
    let judged = judged(rt, task, own, bound)?;
    if task.options.tells_all() {
        tell_search(task.alloc, out, task.options, &judged.search)?;
        flush(out)?;
    }
    Ok(judged)
}

/// Follows a kernel's orders with at most 0, 1, 2 and more preemptions, each time with the same limits, until a search is given up or finds
/// a failure. What is said then: of the most preemptions with which nothing is wrong, or the first failure; or what was said before.
fn followed_few<R: Threads + Sync, W: Write>(
    rt: &R,
    task: Task<'_>,
    own: &OwnOrder,
    before: Judged,
    out: &mut W,
) -> Result<Judged, Refusal>
    requires fits { vec_len task.kernel.now.payload ≤ ram_bytes_of task.shape.now }
    requires looks { AreIn (ram_bytes_of task.shape.now) task.looks.now }
    requires before { SaysAs before.verdict
        (asked_in task.options.now task.shape.now task.kernel.now.payload.items) task.looks.now before.kinds.items }
    ensures says { IfOk result (λ judged. SaysAs judged.verdict
        (asked_in task.entry.options.now task.entry.shape.now task.entry.kernel.now.payload.items)
        task.entry.looks.now judged.kinds.items) }
{
    let mut best = before;
    for switches in 0..=MOST_PREEMPTIONS as u32 {
        let judged = followed(rt, task, own, Bound::Preemptions(switches), out)?;
        match judged.verdict {
            Verdict::Within(_) => best = judged,
            Verdict::Open(Stop::Switches) => {}
            Verdict::Open(_) => return Ok(best),
            _ => return Ok(judged),
        }
    }
    Ok(best)
}

/// Follows the orders that are asked for; where that of every order is given up before anything was found, those with few preemptions.
fn followed_all<R: Threads + Sync, W: Write>(
    rt: &R,
    task: Task<'_>,
    own: &OwnOrder,
    out: &mut W,
) -> Result<Judged, Refusal>
    requires fits { vec_len task.kernel.now.payload ≤ ram_bytes_of task.shape.now }
    requires looks { AreIn (ram_bytes_of task.shape.now) task.looks.now }
    ensures says { IfOk result (λ judged. SaysAs judged.verdict
        (asked_in task.entry.options.now task.entry.shape.now task.entry.kernel.now.payload.items)
        task.entry.looks.now judged.kinds.items) }
{
    let judged = followed(rt, task, own, task.options.bound, out)?;
    if task.options.bound != Bound::Unbounded || !is_given_up(judged.verdict) {
        return Ok(judged);
    }
    tell_stop(out, task.options, &judged.search)?;
    followed_few(rt, task, own, judged, out)
}

/// Tells of the kernel and its own order, where all is told.
fn tell_begin<W: Write>(task: Task<'_>, own: &OwnOrder, out: &mut W) -> Result<(), CheckFault> {
    if !task.options.tells_all() {
        return Ok(());
    }
    tell_kernel(
        task.alloc,
        out,
        task.options,
        task.kernel.payload.len(),
        task.shape,
    )?;
    tell_own(task.alloc, out, task.options, own, task.looks)?;
    Ok(flush(out)?)
}

/// Tells the script of a failure of that kind.
fn tell_shown<W: Write>(
    task: Task<'_>,
    judged: &Judged,
    kind: FailureKind,
    out: &mut W,
) -> Result<(), CheckFault> {
    let Some(failure) = judged.failure(kind) else {
        return Err(CheckFault::NotFound(kind));
    };
    let payload = task.kernel.payload.as_slice();
    let reason = task.options.asked.reason;
    Ok(tell_script(
        task.alloc, out, task.shape, payload, reason, failure, task.looks,
    )?)
}

/// Tells what was found of a kernel, or the script of a failure where one is asked for.
fn tell_end<W: Write>(task: Task<'_>, judged: &Judged, out: &mut W) -> Result<(), CheckFault> {
    match task.options.show {
        None => tell_judged(task.alloc, out, task.options, task.looks, judged)?,
        Some(kind) => tell_shown(task, judged, kind, out)?,
    }
    Ok(flush(out)?)
}

/// Checks a kernel, and writes what is told of it.
fn tell_all<R: Threads + Sync, W: Write>(
    rt: &R,
    task: Task<'_>,
    out: &mut W,
) -> Result<Verdict, CheckFault>
    requires fits { vec_len task.kernel.now.payload ≤ ram_bytes_of task.shape.now }
    requires looks { AreIn (ram_bytes_of task.shape.now) task.looks.now }
    // Where nothing is wrong, each order that was followed ends with the same, which is as expected.
    ensures says { IfOk result (λ verdict. Says verdict
        (asked_in task.entry.options.now task.entry.shape.now task.entry.kernel.now.payload.items) task.entry.looks.now) }
{
    let own = own_of(task)?;
    tell_begin(task, &own, out)?;
    let judged = followed_all(rt, task, &own, out)?;
    tell_end(task, &judged, out)?;
    Ok(judged.verdict)
}

/// How many threads search: as many as were asked for, or as there are processors.
fn threads_of<R: Threads>(rt: &R, asked: Option<u32>) -> usize {
    match asked {
        Some(count) => count as usize,
        None => match thread::available_parallelism(rt) {
            Ok(count) => count.get().min(MOST_JOBS as usize),
            Err(_) => 1,
        },
    }
}

/// Checks a kernel whose file has those bytes, and writes what is told of it. Answers the verdict.
///
/// It is `Holds` only where the kernel is right by what is asked: whatever turns of its harts, refusals, wakes, power cuts and power-ons
/// come, of those that are asked for, in whatever order and number, each end shows one and the same in what is looked at, as it is
/// expected; and from each board that they lead to, an end is reached. It is `Within` of a number only where that is so of the orders in
/// which at most so many harts are preempted. It is `Lives` of a number only where it is so of the orders with at most so many power-ons,
/// but that from their boards an end is reached, or where the next power-on is due. In each of these some list of the events leads to such
/// an end. It is `Found` only where some list of them leads to a board that shows a failure.
#[tactic(auto, using(crate::proofs::Telling::says_fine, crate::proofs::Telling::says_found))]
pub fn check_bytes<R: Threads + Sync, W: Write>(
    rt: &R,
    alloc: Global,
    options: &CheckOptions,
    bytes: &[u8],
    out: &mut W,
) -> Result<Verdict, CheckFault>
    ensures holds { IfOk result (λ verdict. verdict ≡ Verdict.Holds → IsRight options.now bytes.now) }
    ensures within { IfOk result (λ verdict. (k : ℕ) → verdict ≡ Verdict.Within k → IsRightWithin k options.now bytes.now) }
    ensures lives { IfOk result (λ verdict. (n : ℕ) → verdict ≡ Verdict.Lives n → IsRightForLives n options.now bytes.now) }
    ensures found { IfOk result (λ verdict. verdict ≡ Verdict.Found → IsWrong options.now bytes.now) }
{
    let kernel = kernel_of(alloc, bytes)?;
    let shape = shape_of(options, &kernel)?;
    kernel.check(alloc, &shape)?;
    let looks = looks_of(alloc, options.looks.as_slice(), &kernel, &shape)?;
    let task = Task {
        alloc,
        options,
        kernel: &kernel,
        shape: &shape,
        looks: looks.as_slice(),
        threads: threads_of(rt, options.jobs),
    };
    tell_all(rt, task, out)
}
