//! What the words of a command line ask for.

use board_model::Reason;
use board_space::Bound;

/// Bytes of memory, as a word names them.
#[derive(Drop)]
pub struct LookWord {
    /// A symbol of the kernel, or an address: a number.
    pub name: String,
    /// How many bytes, 1 to 4,096. Where it is not said, as many as the symbol has.
    pub bytes: Option<u32>,
    /// What must be there at each end, where it is said: as many bytes.
    pub expected: Option<Vec<u8>>,
}

/// The options whose words name bytes of memory.
#[derive(Clone, Copy, Drop)]
pub enum LookOption {
    /// `--look`.
    Look,
    /// `--expect`, which says what must be there too.
    Expect,
}

/// What may be wrong with a kernel.
#[derive(Clone, Copy, Drop)]
pub enum FailureKind {
    /// Two ends show different things, or one shows what is not expected.
    Differs,
    /// From some board no order leads to an end; or at an end harts wait for an interrupt that no hart sends.
    Stuck,
    /// A hart stands after a trap that has no handler.
    Traps,
    /// The kernel shuts down for a system failure.
    Fails,
}

/// What is done of each order.
#[derive(Clone, Copy, Drop)]
pub struct Asked {
    /// The reset reason with which the board boots first.
    pub reason: Reason,
    /// Whether power may fail.
    pub cuts: bool,
    /// Whether the store may refuse what it is asked.
    pub refusals: bool,
}

/// What the command line asks for.
#[derive(Drop)]
pub struct CheckOptions {
    /// The kernel's file.
    pub kernel: String,
    /// How many harts the board has, 1 to 8.
    pub harts: u32,
    /// How many pages of RAM it has, 1 to 256. Where it is not said, as many as the kernel needs.
    pub pages: Option<u32>,
    /// How many saver lanes it has, 1 to 4.
    pub lanes: u32,
    /// What is looked at where a board is at an end.
    pub looks: Vec<LookWord>,
    /// What is done of each order.
    pub asked: Asked,
    /// How the orders are bounded that are followed.
    pub bound: Bound,
    /// At how many boards a search stops.
    pub boards: u32,
    /// At how many bytes of memory one stops.
    pub memory: u64,
    /// How many threads search, 1 to 64. Where it is not said, as many as there are processors. What is found is the same.
    pub jobs: Option<u32>,
    /// Whether the verdict is written as lines of JSON.
    pub json: bool,
    /// Whether it is written as tests, in the Test Anything Protocol.
    pub tap: bool,
    /// The failure whose order is written as a script, in the place of the verdict.
    pub show: Option<FailureKind>,
}

impl CheckOptions {
    /// Whether all is told, in words or as JSON: no script and no tests are asked for.
    pub fn tells_all(&self) -> bool {
        self.show.is_none() && !self.tap
    }
}
