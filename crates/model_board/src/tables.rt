//! The tables that harts share, as plain data that one thread sets and takes back.

ghost use Rattle.std.specs.Prelude.{◌≡◌, ◌≢◌, ◌<◌, ◌≤◌, ℕ, true, false, IfOk, OnErr, length, Err, if◌then◌else◌, ◌↔◌, IsTrue};
ghost use Rattle.board_model.specs.declared.refusal.Refusal.TheVariants.{Memory};
ghost use Rattle.hsm.specs.Copies.{state_told};
ghost use Rattle.hsm.specs.Calls.{named};
ghost use Rattle.hsm.specs.Views.{listed};
ghost use Rattle.hsm.specs.States.{stopped, started, is_stopped, grant};
ghost use Rattle.machine.specs.Machine.{only_first, none_pending};
ghost use Rattle.model_board.specs.Plain.{raised};
ghost use Rattle.model_board.specs.Rests.{table_copied, IsCopy};
ghost use Rattle.sbi_calls.specs.Answers.{row, with_state, pairs_sent};
ghost use Rattle.sbi_calls.specs.Requests.{IsWithin};
ghost use Rattle.susp.specs.Sleeps.{AreStopped};
ghost use Rattle.turns.specs.Turns.{has_pending, after_take, turn_begun};

use board_model::{Addr, HartId, HartSet, Refusal, Shape};
use hsm::{Standing, State};
use sbi_abi::SbiError;
use sbi_calls::{Ending, Request};
use std::alloc::Global;
use std::marker::Model;
use turns::Ready;

/// The state of each hart, and the senders whose interrupts are pending for it.
#[derive(Drop)]
pub struct PlainTables {
    states: Vec<Standing>,
    pending: Vec<u8>,
}

/// The tables as plain data of one size, by the numbers of the harts: a hart that the board lacks is STOPPED, and nothing is
/// pending for it.
#[derive(Clone, Copy, PartialEq, Eq, Drop)]
pub struct TableCopy {
    /// The state of each hart.
    pub states: [Standing; 8],
    /// The senders of each hart whose interrupts are pending for it, one a bit.
    pub pending: [u8; 8],
}

impl Model for PlainTables {
    ghost use Rattle.sbi_calls.specs.Both.{TableState};
    ghost use Rattle.model_board.specs.Plain.{table_in, AreTables};

    ghost Value = { TableState };

    ghost view = { λ t. table_in t.states.items t.pending.items };

    ghost invariant = { λ t. AreTables t.states.items t.pending.items };
}

impl PlainTables {
    /// Only hart 0 is STARTED, and nothing is pending. Refused 11 where there is no room for it.
    pub fn new(alloc: Global, shape: &Shape) -> Result<Self, Refusal>
        ensures states { IfOk result (λ t. t.states ≡ only_first shape.now.harts 0) }
        ensures pairs { IfOk result (λ t. t.pairs ≡ none_pending shape.now.harts) }
        ensures refused { OnErr result (result ≡ Err Memory) }
    {
        let harts = shape.harts() as usize;
        let mut states = vec![in alloc; Standing::Stopped; harts]?;
        states[0] = Standing::Started;
        Ok(PlainTables {
            states,
            pending: vec![in alloc; 0; harts]?,
        })
    }

    /// The tables, as they stand.
    pub fn copy(&self) -> TableCopy
        ensures copied { self.now ≡ table_copied (length self.now.states) result }
        ensures fits { IsCopy (length self.now.states) result }
    {
        let mut states = [Standing::Stopped; 8];
        let mut pending = [0; 8];
        states[..self.states.len()].copy_from_slice(&self.states);
        pending[..self.pending.len()].copy_from_slice(&self.pending);
        TableCopy { states, pending }
    }

    /// Puts back tables of so many harts.
    pub fn set(&mut self, copy: &TableCopy)
        requires { IsCopy (length self.old.states) copy.now }
        ensures { self.new ≡ table_copied (length self.old.states) copy.now }
    {
        let harts = self.states.len();
        self.states.copy_from_slice(&copy.states[..harts]);
        self.pending.copy_from_slice(&copy.pending[..harts]);
    }

    /// Only the hart `first` is STARTED again, and nothing is pending.
    pub fn reset(&mut self, first: HartId)
        requires { first < length self.old.states }
        ensures states { self.new.states ≡ only_first (length self.old.states) first }
        ensures pairs { self.new.pairs ≡ none_pending (length self.old.states) }
    {
        self.states.fill(Standing::Stopped);
        self.pending.fill(0);
        self.states[first.index()] = Standing::Started;
    }

    /// The state of a hart.
    pub fn state(&self, hart: HartId) -> Standing
        requires { hart < length self.now.states }
        ensures { state_told result ≡ listed self.now.states hart }
    {
        self.states[hart.index()]
    }

    /// Puts a hart into a state.
    pub fn put(&mut self, hart: HartId, state: Standing)
        requires { hart < length self.old.states }
        ensures { self.new ≡ with_state self.old hart (state_told state) }
    {
        self.states[hart.index()] = state;
    }

    /// Whether a hart is STARTED.
    pub fn is_started(&self, hart: HartId) -> bool
        requires { hart < length self.now.states }
        ensures { IsTrue result ↔ (listed self.now.states hart ≡ started) }
    {
        match self.state(hart) {
            Standing::Started => true,
            Standing::Stopped => false,
            Standing::StartPending(_, _) => false,
            Standing::Suspended => false,
        }
    }

    /// Whether an interrupt is pending for a hart.
    pub fn is_pending(&self, hart: HartId) -> bool
        requires { hart < length self.now.states }
        ensures { result ≡ has_pending hart self.now.pairs }
    {
        self.pending[hart.index()] != 0
    }

    /// Takes what is pending for a hart.
    pub fn take(&mut self, hart: HartId)
        requires { hart < length self.old.states }
        ensures { self.new ≡ after_take self.old hart }
    {
        self.pending[hart.index()] = 0;
    }

    /// Sends an interrupt to each hart of a set.
    pub fn send(&mut self, by: HartId, targets: HartSet)
        requires { by < length self.old.states }
        ensures states { self.new.states ≡ self.old.states }
        ensures pairs { self.new.pairs ≡ pairs_sent by targets self.old.pairs }
    {
        for target in 0..self.pending.len() {
            let hart = HartId::new(target as u64).unwrap();
            let senders = self.pending[target];
            self.pending[target] = raised(senders, by, targets.contains(hart));
        }
    }

    /// Whether the hart of that place is another one than `by`, and not STOPPED.
    fn is_beside(&self, place: usize, by: HartId) -> bool
        requires { place < length self.now.states }
        ensures beside { result ≡ true → (place ≢ by) × (listed self.now.states place ≢ stopped) }
        ensures none { result ≡ false → place ≢ by → listed self.now.states place ≡ stopped }
    {
        let state = self.states[place];
        place != by.index() && !is_stopped(state)
    }

    /// Whether every other hart is STOPPED.
    pub fn is_alone(&self, by: HartId) -> bool
        ensures alone { result ≡ true → AreStopped (length self.now.states) by (listed self.now.states) }
        ensures beside { result ≡ false → AreStopped (length self.now.states) by (listed self.now.states) → ⊥ }
    {
        for place in 0..self.states.len() {
            if self.is_beside(place, by) {
                return false;
            }
        }
        true
    }

    /// What a turn of a hart comes to before its step.
    pub fn begin(&mut self, by: HartId) -> Ready
        requires { by < length self.old.states }
        ensures ready { result ≡ (turn_begun by self.old).ready }
        ensures table { self.new ≡ (turn_begun by self.old).table }
    {
        match self.state(by) {
            Standing::Stopped => Ready::Idle,
            Standing::StartPending(address, opaque) => {
                self.put(by, Standing::Started);
                self.take(by);
                Ready::Enters(address, opaque)
            }
            Standing::Started => Ready::Steps(self.is_pending(by)),
            Standing::Suspended => {
                if self.is_pending(by) {
                    self.put(by, Standing::Started);
                    Ready::Woke
                } else {
                    Ready::Idle
                }
            }
        }
    }

    /// A start of a hart that is STOPPED: it is START_PENDING then. Any other stays as it is.
    #[tactic(auto, using(crate::proofs::Plains::same_state))]
    fn start(&mut self, target: HartId, address: Addr, opaque: u64) -> bool
        requires { target < length self.old.states }
        ensures granted { result ≡ is_stopped (listed self.old.states target) }
        ensures table { self.new ≡ with_state self.old target (grant address opaque (listed self.old.states target)) }
    {
        match self.state(target) {
            Standing::Stopped => {
                self.put(target, Standing::StartPending(address, opaque));
                true
            }
            Standing::StartPending(_, _) => false,
            Standing::Started => false,
            Standing::Suspended => false,
        }
    }

    /// What a request of a hart comes to, by its row of the table of answers.
    pub fn answer(&mut self, by: HartId, asked: Result<Request, SbiError>) -> Ending
        requires by { by < length self.old.states }
        requires within { IsWithin (length self.old.states) asked }
        ensures ending { result ≡ (row by asked self.old).ending }
        ensures table { self.new ≡ (row by asked self.old).table }
    {
        let request = match asked {
            Ok(request) => request,
            Err(error) => return Ending::Answers(Err(error)),
        };
        match request {
            Request::Value(value) => Ending::Answers(Ok(value)),
            Request::Start(target, address, opaque) => {
                if self.start(target, address, opaque) {
                    Ending::Answers(Ok(0))
                } else {
                    Ending::Answers(Err(SbiError::AlreadyAvailable))
                }
            }
            Request::Stop => {
                self.put(by, Standing::Stopped);
                Ending::Stops
            }
            Request::Status(target) => Ending::Answers(Ok(status(self.state(target)).code())),
            Request::Suspend => {
                self.put(by, Standing::Suspended);
                Ending::Suspends
            }
            Request::SuspendAfresh(address, opaque) => {
                self.put(by, Standing::Suspended);
                Ending::SuspendsAfresh(address, opaque)
            }
            Request::Send(targets) => {
                self.send(by, targets);
                Ending::Answers(Ok(0))
            }
            Request::Command => Ending::Defers,
        }
    }
}

/// The name of a state.
fn status(state: Standing) -> State
    ensures { result ≡ named (state_told state) }
{
    match state {
        Standing::Stopped => State::Stopped,
        Standing::StartPending(_, _) => State::StartPending,
        Standing::Started => State::Started,
        Standing::Suspended => State::Suspended,
    }
}

/// Whether a hart in that state is STOPPED.
fn is_stopped(state: Standing) -> bool
    ensures { result ≡ is_stopped (state_told state) }
{
    match state {
        Standing::Stopped => true,
        Standing::StartPending(_, _) => false,
        Standing::Started => false,
        Standing::Suspended => false,
    }
}

/// The senders of a hart, with one more where it is named.
fn raised(senders: u8, by: HartId, named: bool) -> u8
    ensures { result ≡ (if named then raised by senders else senders) }
{
    if named {
        senders | 1 << by.number()
    } else {
        senders
    }
}
