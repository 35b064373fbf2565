//! What is told of a kernel, as plain data.

use crate::given::FailureKind;
use board_model::Reason;
use board_space::Bound;

/// What an end shows.
#[derive(Drop)]
pub enum EndShown {
    /// The board is on: the bytes of all looks.
    On(Vec<u8>),
    /// It was shut down, for this reason.
    Shutdown(Reason),
}

/// How a kernel's own order ends, in which each hart makes a turn after the one before it.
#[derive(Drop)]
pub enum OwnEnd {
    /// It comes to an end.
    Ends(EndShown),
    /// It was still running after so many turns; where its harts stood then.
    Runs(Vec<HartFacts>),
}

/// A kernel's own order.
#[derive(Drop)]
pub struct OwnOrder {
    /// How many turns moved a hart on.
    pub turns: u64,
    /// How often the board slept, to its disk or in its RAM.
    pub sleeps: u64,
    /// How often it was reset and booted anew.
    pub reboots: u64,
    /// How it ends.
    pub end: OwnEnd,
}

/// Why a search was not closed.
#[derive(Clone, Copy, Drop)]
pub enum Stop {
    /// It came to so many boards.
    Boards,
    /// It took so much memory.
    Memory,
    /// It wanted no more, since a turn broke the map of what harts touch.
    Map,
    /// With so few preemptions some order comes to no end, and more of them may lead to one.
    Switches,
    /// With so few power-ons no order comes to an end, and more of them may lead to one.
    Lives,
    /// It tells nothing of every order, although nothing was found. This does not happen.
    Untold,
}

/// A word of memory that several harts touch, of which one writes it.
#[derive(Drop)]
pub struct SharedWord {
    /// Its address.
    pub address: u64,
    /// How it is named, where a symbol covers it.
    pub name: Option<String>,
}

/// What a search found.
#[derive(Drop)]
pub struct SearchFacts {
    /// How the orders were bounded.
    pub bound: Bound,
    /// How many boards.
    pub boards: usize,
    /// Why it was not closed.
    pub stop: Option<Stop>,
    /// Where it was not closed, what counted on and on by the look of it: names of words and registers.
    pub counting: Vec<String>,
    /// The words that harts share.
    pub shared: Vec<SharedWord>,
    /// How many images of a sleep stood on the disk.
    pub images: usize,
    /// How many of the boards are at an end.
    pub ends: usize,
}

/// Ends that show the same.
#[derive(Drop)]
pub struct EndKind {
    /// What they show.
    pub shown: EndShown,
    /// How many boards there are.
    pub count: usize,
    /// The first one.
    pub row: usize,
    /// Whether it is what is expected.
    pub is_expected: bool,
    /// Whether the kernel's own order shows it.
    pub is_own: bool,
}

/// What a hart is about, in the words of the SBI (chapter HSM).
#[derive(Clone, Copy, Drop)]
pub enum HartState {
    Stopped,
    StartPending,
    Started,
    Suspended,
}

/// A trap that has no handler.
#[derive(Drop)]
pub struct TrapFacts {
    /// scause.
    pub cause: u64,
    /// Where it came from, as `symbol+offset`.
    pub place: String,
    /// stval.
    pub value: u64,
}

/// A hart where a failure shows.
#[derive(Drop)]
pub struct HartFacts {
    /// Its number.
    pub hart: u32,
    /// Its state.
    pub state: HartState,
    /// Where it stands, as `symbol+offset`.
    pub place: String,
    /// Whether an interrupt is pending for it.
    pub is_pending: bool,
    /// The trap after which it stands, where it has no handler.
    pub trap: Option<TrapFacts>,
}

/// How a run of a hart's turns ends.
#[derive(Drop)]
pub enum RunEnd {
    /// The hart stands there, as `symbol+offset`.
    At(String),
    /// It stopped.
    Stops,
    /// It suspended itself.
    Suspends,
    /// It put the board to sleep.
    Sleeps,
    /// It shut the board down, for this reason.
    ShutsDown(Reason),
    /// It reset the board.
    Reboots,
    /// It trapped, and has no handler.
    Traps,
}

/// What a hart asks of the store.
#[derive(Clone, Copy, Drop)]
pub enum StoreCall {
    /// A sleep to the disk.
    Sleep,
    /// A reset.
    Reset,
}

/// A step of an order.
#[derive(Drop)]
pub enum OrderStep {
    /// A power-on, which boots the kernel or resumes an image.
    PowerOn(bool),
    /// So many turns of a hart in a row.
    Turns(u32, u64, RunEnd),
    /// What a hart asks of the store is refused, and whether each later command is.
    Refused(u32, StoreCall, bool),
    /// The board is woken.
    Wake,
    /// Power fails.
    Cut,
}

/// A failure that was found.
#[derive(Drop)]
pub struct Failure {
    /// What it is.
    pub kind: FailureKind,
    /// How many ends show it.
    pub ends: usize,
    /// The board where it shows first.
    pub row: usize,
    /// The steps that lead there.
    pub order: Vec<OrderStep>,
    /// The harts there; none where the board is not on.
    pub harts: Vec<HartFacts>,
    /// Whether it is on.
    pub is_on: bool,
}

/// What is said of a kernel in the end.
#[derive(Clone, Copy, Drop)]
pub enum Verdict {
    /// Every order was followed, and nothing was found.
    Holds,
    /// Every order with at most so many preemptions was followed, and nothing was found.
    Within(u32),
    /// Every order with at most so many power-ons was followed, and nothing was found.
    Lives(u32),
    /// A failure was found.
    Found,
    /// Not every order was followed, and nothing was found.
    Open(Stop),
    /// Every order was followed, nothing was found, and nothing was looked at that the kernel writes.
    Blank,
}

impl Verdict {
    ghost use Rattle.std.specs.Prelude.{◌≡◌};
    ghost use Rattle.kernel_check.specs.Verdicts.{status_of};

    /// The status of the program: 0 only where it holds.
    pub fn status(self) -> u8
        ensures { result ≡ status_of self }
    {
        match self {
            Verdict::Holds => 0,
            Verdict::Found => 3,
            Verdict::Within(_) | Verdict::Lives(_) | Verdict::Open(_) | Verdict::Blank => 4,
        }
    }
}
