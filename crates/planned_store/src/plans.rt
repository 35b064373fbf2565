//! The plan: which call of the disk comes next.
ghost use Rattle.std.specs.Prelude.{◌≡◌, Ok, Err};
ghost use Rattle.store.specs.Opens.{renewed_record};
ghost use Rattle.planned_store.specs.declared.commits.CommitStep.TheVariants.{WriteRecord};
ghost use Rattle.planned_store.specs.Plans.{asked, Puts, Goes, BeginsOpen, BeginsFormat, ReadsSuperblock, ReadsRecord};

use crate::commits::{Commit, GATE, RECORDS, Selected};
use crate::formats::Formatting;
use board_model::{Refusal, Shape};
use disk::{Fault, Sector};
use layout::{Side, Version, parse_record, parse_superblock, selected};
use store::in_version_two;

/// A call of the disk that a plan asks for, of one sector or of none.
#[derive(Clone, Copy, PartialEq, Eq, Drop)]
pub enum Request {
    /// The sector of that number is read.
    Read(usize),
    /// The sector of that number is written.
    Write(usize),
    /// What was written is made durable.
    Sync,
    /// Nothing more is asked for.
    Done,
}

/// How far an open, a command or a format has come: the call that it asks for, or how it has ended.
#[derive(Clone, Copy, Drop)]
pub enum Plan {
    /// An open of a disk of so many sectors: what the last life left in doubt is settled by a sync.
    Settling(usize),
    ReadingSuperblock(usize),
    ReadingGate(Shape),
    ReadingRecord(Shape, Side),
    /// An open has found this, of version 2.
    Found(Selected),
    /// An open has found a record of version 1, and writes the same state in version 2.
    Renewing(Commit),
    /// A command.
    Committing(Commit),
    Formatting(Formatting),
    /// An open was refused.
    Refused(Refusal),
}

impl Plan {
    /// An open of a disk of so many sectors.
    pub fn open(sectors: usize) -> Plan
        ensures { BeginsOpen sectors result }
    {
        if sectors == 0 {
            Plan::Refused(Refusal::BadShape)
        } else {
            Plan::Settling(sectors)
        }
    }

    /// A format of a disk of so many sectors, for a board of that shape.
    pub fn format(shape: Shape, sectors: usize) -> Plan
        ensures { BeginsFormat sectors shape result }
    {
        Plan::Formatting(Formatting::new(shape, sectors))
    }

    /// The call that comes next. Before a write the sector has its bytes.
    pub fn asks(&self, sector: &mut Sector) -> Request
        ensures asked { result ≡ asked self.now }
        ensures bytes { Puts self.now sector.new }
    {
        match self {
            Plan::Settling(_) => Request::Sync,
            Plan::ReadingSuperblock(_) => Request::Read(0),
            Plan::ReadingGate(_) => Request::Read(GATE),
            Plan::ReadingRecord(_, side) => Request::Read(RECORDS + side.index()),
            Plan::Found(_) => Request::Done,
            Plan::Renewing(commit) => commit.asks(sector),
            Plan::Committing(commit) => commit.asks(sector),
            Plan::Formatting(format) => format.asks(sector),
            Plan::Refused(_) => Request::Done,
        }
    }

    /// The plan once the call that it asked for has ended so. After a read that went well the sector has what was read.
    pub fn told(self, answer: Result<(), Fault>, sector: &Sector) -> Plan
        ensures { Goes self answer sector.now result }
    {
        match answer {
            Ok(()) => self.gone_well(sector),
            Err(Fault) => self.failed(sector),
        }
    }

    fn gone_well(self, sector: &Sector) -> Plan
        ensures { Goes self (Ok tt) sector.now result }
    {
        match self {
            Plan::Settling(sectors) => Plan::ReadingSuperblock(sectors),
            Plan::ReadingSuperblock(sectors) => superblock_read(sectors, sector),
            Plan::ReadingGate(shape) => Plan::ReadingRecord(shape, selected(sector)),
            Plan::ReadingRecord(shape, side) => record_read(shape, side, sector),
            Plan::Renewing(commit) => Plan::Renewing(commit.told(Ok(()))),
            Plan::Committing(commit) => Plan::Committing(commit.told(Ok(()))),
            Plan::Formatting(format) => Plan::Formatting(format.told(Ok(()), sector)),
            Plan::Found(found) => Plan::Found(found),
            Plan::Refused(refusal) => Plan::Refused(refusal),
        }
    }

    fn failed(self, sector: &Sector) -> Plan
        ensures { (e : Fault) → Goes self (Err e) sector.now result }
    {
        match self {
            Plan::Settling(_) => Plan::Refused(Refusal::Device),
            Plan::ReadingSuperblock(_) => Plan::Refused(Refusal::Device),
            Plan::ReadingGate(_) => Plan::Refused(Refusal::Device),
            Plan::ReadingRecord(..) => Plan::Refused(Refusal::Device),
            Plan::Renewing(commit) => Plan::Renewing(commit.told(Err(Fault))),
            Plan::Committing(commit) => Plan::Committing(commit.told(Err(Fault))),
            Plan::Formatting(format) => Plan::Formatting(format.told(Err(Fault), sector)),
            Plan::Found(found) => Plan::Found(found),
            Plan::Refused(refusal) => Plan::Refused(refusal),
        }
    }

    /// Tells how the last call ended, and asks for the next one.
    pub fn next(&mut self, answer: Result<(), Fault>, sector: &mut Sector) -> Request
        ensures goes { Goes self.old answer sector.old self.new }
        ensures asked { result ≡ asked self.new }
        ensures bytes { Puts self.new sector.new }
    {
        *self = self.told(answer, sector);
        self.asks(sector)
    }
}

/// An open goes on, once it has read sector 0 of a disk of so many sectors.
fn superblock_read(sectors: usize, sector: &Sector) -> Plan
    ensures { ReadsSuperblock sectors sector.now result }
{
    match parse_superblock(sector, sectors) {
        Ok(shape) => Plan::ReadingGate(shape),
        Err(refusal) => Plan::Refused(refusal),
    }
}

/// An open goes on, once it has read the record that the gate selects.
fn record_read(shape: Shape, side: Side, sector: &Sector) -> Plan
    ensures { ReadsRecord shape side sector.now result }
{
    match parse_record(sector, &shape) {
        Ok(live) => found_so(Selected { shape, side, live }),
        Err(refusal) => Plan::Refused(refusal),
    }
}

/// An open has found this: a record of version 1 is written anew.
fn found_so(found: Selected) -> Plan
    ensures two { found.live.version ≡ Version.Two → result ≡ Plan.Found found }
    ensures one { found.live.version ≡ Version.One → result ≡ Plan.Renewing
        (record { from = found; next = renewed_record found.live; step = WriteRecord }) }
{
    match found.live.version {
        Version::Two => Plan::Found(found),
        Version::One => Plan::Renewing(Commit::new(found, in_version_two(&found.live))),
    }
}
