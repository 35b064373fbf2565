//! The calls of a commit: the next record into the sector that is not selected, and then the gate.
ghost use Rattle.std.specs.Prelude.{◌≡◌, Ok, Err};
ghost use Rattle.planned_store.specs.Commits.{asked_in, PutsIn, step_after, made_by};

use crate::plans::Request;
use board_model::Shape;
use disk::{Fault, Sector};
use layout::{Record, Side, gate_bytes, record_bytes};

/// The sector of the gate.
pub(crate) const GATE: usize = 1;

/// The sector of record 0; record 1 stands in the next one.
pub(crate) const RECORDS: usize = 2;

/// A board, and the record that the gate of its disk selects.
#[derive(Clone, Copy, Drop)]
pub struct Selected {
    pub shape: Shape,
    pub side: Side,
    /// The record that the gate selects.
    pub live: Record,
}

/// How far a commit has come: the call that it asks for, or how it has ended.
#[derive(Clone, Copy, Drop)]
pub enum CommitStep {
    WriteRecord,
    SyncRecord,
    WriteGate,
    SyncGate,
    /// The next record is selected, whatever a crash leaves.
    Committed,
    /// The record could not be made durable: a crash leaves what it left before.
    Unchanged,
    /// The gate could not be made durable: it may select the one record or the other.
    InDoubt,
}

/// A commit: what is selected, the record that follows it, and how far it has come.
#[derive(Clone, Copy, Drop)]
pub struct Commit {
    pub from: Selected,
    pub next: Record,
    pub step: CommitStep,
}

impl CommitStep {
    /// The step that comes after this one, once its call has ended so.
    fn after(self, answer: Result<(), Fault>) -> CommitStep
        ensures { result ≡ step_after self answer }
    {
        match answer {
            Ok(()) => self.gone_well(),
            Err(Fault) => self.failed(),
        }
    }

    fn gone_well(self) -> CommitStep
        ensures { result ≡ step_after self (Ok tt) }
    {
        match self {
            CommitStep::WriteRecord => CommitStep::SyncRecord,
            CommitStep::SyncRecord => CommitStep::WriteGate,
            CommitStep::WriteGate => CommitStep::SyncGate,
            CommitStep::SyncGate => CommitStep::Committed,
            ended => ended,
        }
    }

    fn failed(self) -> CommitStep
        ensures { (e : Fault) → result ≡ step_after self (Err e) }
    {
        match self {
            CommitStep::WriteRecord => CommitStep::Unchanged,
            CommitStep::SyncRecord => CommitStep::Unchanged,
            CommitStep::WriteGate => CommitStep::InDoubt,
            CommitStep::SyncGate => CommitStep::InDoubt,
            ended => ended,
        }
    }
}

impl Commit {
    /// A commit of that record, of which no call was made.
    pub(crate) fn new(from: Selected, next: Record) -> Commit
        ensures { result ≡ record { from = from; next = next; step = CommitStep.WriteRecord } }
    {
        Commit {
            from,
            next,
            step: CommitStep::WriteRecord,
        }
    }

    /// The call that comes next. Before a write the sector has its bytes.
    pub(crate) fn asks(&self, sector: &mut Sector) -> Request
        ensures asked { result ≡ asked_in self.now }
        ensures bytes { PutsIn self.now sector.new }
    {
        match self.step {
            CommitStep::WriteRecord => {
                *sector = record_bytes(&self.next);
                Request::Write(RECORDS + self.from.side.other().index())
            }
            CommitStep::SyncRecord => Request::Sync,
            CommitStep::WriteGate => {
                *sector = gate_bytes(self.from.side.other());
                Request::Write(GATE)
            }
            CommitStep::SyncGate => Request::Sync,
            CommitStep::Committed => Request::Done,
            CommitStep::Unchanged => Request::Done,
            CommitStep::InDoubt => Request::Done,
        }
    }

    /// The commit once the call that it asked for has ended so.
    pub(crate) fn told(self, answer: Result<(), Fault>) -> Commit
        ensures { result ≡ record self { step = step_after self.step answer } }
    {
        Commit {
            step: self.step.after(answer),
            ..self
        }
    }

    /// What is selected once it is done.
    pub(crate) fn made(&self) -> Selected
        ensures { result ≡ made_by self.now }
    {
        Selected {
            shape: self.from.shape,
            side: self.from.side.other(),
            live: self.next,
        }
    }
}
