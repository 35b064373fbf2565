//! The calls of a format: record 0 and the gate are durable before the superblock is written.
ghost use Rattle.std.specs.Prelude.{◌≡◌, Ok};
ghost use Rattle.planned_store.specs.Plans.{format_asks, FormatPuts, FormatGoes, FormatBegins};
ghost use Rattle.planned_store.specs.Formats.{answer_at, formatted_by, FormatsTo};
ghost use Rattle.store.specs.Formats.{formatted_record};
ghost use Rattle.store.specs.Leaves.{IsIdle};

use crate::commits::{GATE, RECORDS};
use crate::plans::{Plan, Request};
use crate::runs::run;
use board_model::{Refusal, Shape};
use disk::{Disk, Fault, Sector};
use layout::{Side, gate_bytes, has_magic, record_bytes, superblock_bytes};
use store::formatted_record;

/// How far a format has come: the call that it asks for, or how it has ended.
#[derive(Clone, Copy, Drop)]
pub enum FormatStep {
    ReadSuperblock,
    WriteRecord,
    WriteGate,
    SyncGate,
    WriteSuperblock,
    SyncSuperblock,
    Formatted,
    /// The disk is too small, and no call was made.
    TooSmall,
    /// The disk begins with the mark, and was left as it is.
    Marked,
    /// A call failed.
    Failed,
}

/// A format for a board of that shape.
#[derive(Clone, Copy, Drop)]
pub struct Formatting {
    pub shape: Shape,
    pub step: FormatStep,
}

impl Formatting {
    /// A format of a disk of so many sectors, of which no call was made.
    pub(crate) fn new(shape: Shape, sectors: usize) -> Formatting
        ensures { FormatBegins sectors shape result }
    {
        let step = if sectors < shape.sectors() {
            FormatStep::TooSmall
        } else {
            FormatStep::ReadSuperblock
        };
        Formatting { shape, step }
    }

    /// The call that comes next. Before a write the sector has its bytes.
    pub(crate) fn asks(&self, sector: &mut Sector) -> Request
        ensures asked { result ≡ format_asks self.now.step }
        ensures bytes { FormatPuts self.now.shape self.now.step sector.new }
    {
        match self.step {
            FormatStep::ReadSuperblock => Request::Read(0),
            FormatStep::WriteRecord => {
                *sector = record_bytes(&formatted_record());
                Request::Write(RECORDS)
            }
            FormatStep::WriteGate => {
                *sector = gate_bytes(Side::first());
                Request::Write(GATE)
            }
            FormatStep::SyncGate => Request::Sync,
            FormatStep::WriteSuperblock => {
                *sector = superblock_bytes(&self.shape);
                Request::Write(0)
            }
            FormatStep::SyncSuperblock => Request::Sync,
            FormatStep::Formatted => Request::Done,
            FormatStep::TooSmall => Request::Done,
            FormatStep::Marked => Request::Done,
            FormatStep::Failed => Request::Done,
        }
    }

    /// The format once the call that it asked for has ended so. After a read the sector has what was read.
    pub(crate) fn told(self, answer: Result<(), Fault>, sector: &Sector) -> Formatting
        ensures { (step : FormatStep) × FormatGoes self.step answer sector.now step
            × (result ≡ record self { step = step }) }
    {
        let step = match answer {
            Ok(()) => self.gone_well(sector),
            Err(Fault) => FormatStep::Failed,
        };
        Formatting { step, ..self }
    }

    fn gone_well(&self, sector: &Sector) -> FormatStep
        ensures { FormatGoes self.now.step (Ok tt) sector.now result }
    {
        match self.step {
            FormatStep::ReadSuperblock => {
                if has_magic(sector) {
                    FormatStep::Marked
                } else {
                    FormatStep::WriteRecord
                }
            }
            FormatStep::WriteRecord => FormatStep::WriteGate,
            FormatStep::WriteGate => FormatStep::SyncGate,
            FormatStep::SyncGate => FormatStep::WriteSuperblock,
            FormatStep::WriteSuperblock => FormatStep::SyncSuperblock,
            FormatStep::SyncSuperblock => FormatStep::Formatted,
            ended => ended,
        }
    }

    /// What a format that has ended so answers.
    fn answer(&self) -> Result<(), Refusal>
        ensures { result ≡ answer_at self.now.step }
    {
        match self.step {
            FormatStep::Formatted => Ok(()),
            FormatStep::TooSmall => Err(Refusal::BadShape),
            FormatStep::Marked => Err(Refusal::AlreadyFormatted),
            _ => Err(Refusal::Device),
        }
    }
}

/// Formats a disk for a board of that shape, as `format` of the crate `store` does.
pub fn format<D: Disk>(disk: &mut D, shape: &Shape) -> Result<(), Refusal>
    requires none_out { IsIdle (D.facts disk.old) }
    ensures formats { FormatsTo D.facts D.fault_state shape.now disk.old result disk.new }
    ensures none_out { IsIdle (D.facts disk.new) }
{
    let mut plan = Plan::format(*shape, disk.sectors());
    run(disk, &mut plan);
    plan.formatted()
}

impl Plan {
    /// What a format that has ended answers.
    pub fn formatted(&self) -> Result<(), Refusal>
        ensures { result ≡ formatted_by self.now }
    {
        match self {
            Plan::Formatting(format) => format.answer(),
            _ => Err(Refusal::Device),
        }
    }
}
