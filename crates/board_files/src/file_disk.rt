//! The disk in memory with its file.
ghost use Rattle.std.specs.Prelude.{◌≡◌, ◌<◌, ◌^◌, IfOk, OnOk, map};
ghost use Rattle.disk.specs.Facts.{Content, Unchanged, InRow, Joined, Only, Passes, Stays, Torn, counted, nothing, lane_failures, lent_sectors};
ghost use Rattle.disk.specs.Calls.{MakesCalls};
ghost use Rattle.disk.specs.FaultState.{CausedInLanes};
ghost use Rattle.disk.specs.WriteLog.{ranges};
ghost use Rattle.board_files.specs.Beside.{faults_beside};
ghost use Rattle.board_files.specs.Files.{AllowedSince, AreMarks, EverAllowed, IfKnown, IfKnown-prop, IsDurable, IsKeptIn, LeavesNoMore};
ghost use Rattle.std.proofs.Props.{props};

use crate::pushing::{SectorRange, mark, push};
use crate::sector_file::SectorFile;
use disk::{ArmedFault, Disk, Fault, Lane, Sector};
use simdisk::{Logged, SimDisk, SimLane, exactly_the_model};
use std::alloc::{AllocError, Global};

/// A disk in memory that is kept in a file.
///
/// What it promises is what the disk in memory promises, and a failure of the file is a failure of the disk,
/// which counts it. Each sync first writes into the file, in place, the sectors that were written since the last
/// one, and makes the file durable; only then is anything durable in memory. So a process that is killed, or a
/// host that crashes, leaves a file which holds what a power cut may leave. That is proved over any file of which
/// something is known ([`SectorFile`]): of a file of the system it says that the calls are made of it that a file
/// which keeps its word needs.
#[derive(Drop)]
pub struct FileDisk<F: SectorFile + Drop> {
    memory: SimDisk,
    file: F,
    marks: Vec<bool>,
    lent: SectorRange,
    failed: u64,
    ghost few: { failed < 2 ^ 64 },
    ghost marked: { AreMarks marks.items lent.first lent.count (⟦<SimDisk as Disk>⟧.facts memory)
        (ranges (⟦<SimDisk as Logged>⟧.log memory).written) },
    ghost kept: { IfKnown (F.file_facts file) (IsKeptIn marks.items (⟦<SimDisk as Disk>⟧.facts memory)) } by { IfKnown-prop (F.file_facts file) (IsKeptIn marks.items (⟦<SimDisk as Disk>⟧.facts memory)) (λ f. Prim.hlevel props) },
}

impl<F: SectorFile + Drop> FileDisk<F> {
    /// The disk in memory with this file, which holds just its sectors, all of them durable. What is armed stays as it
    /// was. At `Err` memory was refused.
    pub fn new(alloc: Global, memory: SimDisk, file: F) -> Result<FileDisk<F>, AllocError>
        requires none_out { (⟦<SimDisk as Disk>⟧.facts memory).lent.lanes ≡ 0 }
        requires durable { IfKnown (F.file_facts file) (IsDurable (⟦<SimDisk as Disk>⟧.facts memory).content) }
        ensures same { IfOk result (λ disk. Unchanged (⟦<SimDisk as Disk>⟧.facts memory)
            (⟦<FileDisk<F> as Disk>⟧.facts disk)) }
        ensures fault_state { IfOk result (λ disk. ⟦<FileDisk<F> as Disk>⟧.fault_state disk
            ≡ faults_beside 0 (⟦<SimDisk as Disk>⟧.fault_state memory)) }
    {
        let marks = vec![in alloc; false; memory.sectors()]?;
        Ok(FileDisk {
            memory,
            file,
            marks,
            lent: SectorRange { first: 0, count: 0 },
            failed: 0,
        })
    }

    /// What is known of its file while it goes on: each content that a crash may leave in it now, or might have left at any moment
    /// since the disk was made, is one that the disk may leave, or might have left; and so it is from each later moment of the disk
    /// on.
    pub fn stands(&self)
        ensures now { IfKnown (⟦<FileDisk<F> as Filed>⟧.file self.now) (LeavesNoMore (⟦<FileDisk<F> as Disk>⟧.facts self.now)) }
        ensures since { IfKnown (⟦<FileDisk<F> as Filed>⟧.file self.now) (AllowedSince (⟦<FileDisk<F> as Disk>⟧.facts self.now)) }
    {
        exactly_the_model(&self.memory);
    }

    /// The file, as the disk leaves it: each content that a crash may leave in it now, or might have left at any
    /// moment since the disk was made, is one that the disk may leave, or might have left; and so it is from each later moment
    /// of the disk on.
    pub fn into_file(self) -> F
        ensures now { IfKnown (F.file_facts result) (LeavesNoMore (⟦<FileDisk<F> as Disk>⟧.facts self)) }
        ensures ever { IfKnown (F.file_facts result) (EverAllowed (⟦<FileDisk<F> as Disk>⟧.facts self)) }
        ensures since { IfKnown (F.file_facts result) (AllowedSince (⟦<FileDisk<F> as Disk>⟧.facts self)) }
    {
        exactly_the_model(&self.memory);
        self.file
    }
}

/// A disk that is kept in a file.
pub trait Filed {
    ghost use Rattle.board_files.specs.Files.{FileKnown};

    /// What is known of that file.
    ghost file: { Self → FileKnown };
}

impl<F: SectorFile + Drop> Filed for FileDisk<F> {
    ghost file = { λ d. F.file_facts d.file };
}

impl<F: SectorFile + Drop> Disk for FileDisk<F> {
    ghost use Rattle.board_files.specs.Beside.{facts_beside, faults_beside};
    ghost use Rattle.simdisk.specs.contracts.device.SimDiskDisk.TheImpl.Laws.{may_keep-law, counts_now-law, only_now-law};
    ghost use Rattle.std.proofs.Common.{arith};

    type Lane = SimLane;

    ghost facts = { λ d. facts_beside d.failed (⟦<SimDisk as Disk>⟧.facts d.memory) };

    ghost fault_state = { λ d. faults_beside d.failed (⟦<SimDisk as Disk>⟧.fault_state d.memory) };

    ghost arms = { λ d fault. ⟦<SimDisk as Disk>⟧.arms d.memory fault };

    fn sectors(&self) -> usize {
        self.memory.sectors()
    }

    fn read(&mut self, first: usize, sectors: &mut [Sector]) -> Result<(), Fault> {
        self.memory.read(first, sectors)
    }

    fn write(&mut self, first: usize, sectors: &[Sector]) -> Result<(), Fault> {
        let count = sectors.len();
        let Ok(()) = self.memory.write(first, sectors) else {
            return Err(Fault);
        };
        mark(&mut self.marks, SectorRange { first, count });
        Ok(())
    }

    #[tactic(auto, using(crate::proofs::Beside::file_failed))]
    fn sync(&mut self) -> Result<(), Fault>
        ensures durable { OnOk result
            ((⟦<FileDisk<F> as Disk>⟧.facts self.old).lent.lanes ≡ 0
            → Only (⟦<FileDisk<F> as Disk>⟧.facts self.new).content (⟦<FileDisk<F> as Disk>⟧.facts self.new).may_leave) }
        ensures but_lent { OnOk result
            ((c : Content) → (⟦<FileDisk<F> as Disk>⟧.facts self.new).may_leave c
            → Torn (⟦<FileDisk<F> as Disk>⟧.facts self.old).lent.first
            (lent_sectors (⟦<FileDisk<F> as Disk>⟧.facts self.old).lent)
            (⟦<FileDisk<F> as Disk>⟧.facts self.new).content c) }
        ensures called { MakesCalls 1 Stays (⟦<FileDisk<F> as Disk>⟧.facts self.old) (⟦<FileDisk<F> as Disk>⟧.facts self.new)
            (⟦<FileDisk<F> as Disk>⟧.fault_state self.old) (⟦<FileDisk<F> as Disk>⟧.fault_state self.new) result }
        // A crash leaves in the file what the disk's content is, and nothing else.
        ensures file { OnOk result (IfKnown (⟦<FileDisk<F> as Filed>⟧.file self.new)
            (λ f. Only (⟦<FileDisk<F> as Disk>⟧.facts self.new).content f.may_leave)) }
    {
        exactly_the_model(&self.memory);
        let Ok(()) = push(&mut self.file, self.memory.content(), &mut self.marks) else {
            self.failed = self.failed.saturating_add(1);
            return Err(Fault);
        };
        self.memory.sync()
    }

    fn split(
        &mut self,
        first: usize,
        lanes: usize,
        each: usize,
    ) -> Result<Vec<SimLane>, AllocError> {
        let count = lanes * each;
        let Ok(out) = self.memory.split(first, lanes, each) else {
            return Err(AllocError);
        };
        self.lent = SectorRange { first, count };
        Ok(out)
    }

    fn join(&mut self, lanes: Vec<SimLane>)
        requires { InRow (⟦<FileDisk<F> as Disk>⟧.facts self.old).lent (map ⟦<SimLane as Lane>⟧.lane_facts lanes.items) }
        ensures content { Joined (⟦<FileDisk<F> as Disk>⟧.facts self.old).lent
            (map ⟦<SimLane as Lane>⟧.lane_facts lanes.items) (⟦<FileDisk<F> as Disk>⟧.facts self.old).content
            (⟦<FileDisk<F> as Disk>⟧.facts self.new).content }
        ensures back { (⟦<FileDisk<F> as Disk>⟧.facts self.new).lent ≡ nothing }
        ensures crash { Passes (⟦<FileDisk<F> as Disk>⟧.facts self.old) (⟦<FileDisk<F> as Disk>⟧.facts self.new) Stays }
        ensures failures { (⟦<FileDisk<F> as Disk>⟧.facts self.new).failures
            ≡ counted (⟦<FileDisk<F> as Disk>⟧.facts self.old).failures
            (lane_failures (map ⟦<SimLane as Lane>⟧.lane_facts lanes.items)) }
        ensures calls { (⟦<FileDisk<F> as Disk>⟧.facts self.new).calls ≡ (⟦<FileDisk<F> as Disk>⟧.facts self.old).calls }
        ensures cause { CausedInLanes (⟦<FileDisk<F> as Disk>⟧.fault_state self.old)
            (⟦<FileDisk<F> as Disk>⟧.fault_state self.new)
            (lane_failures (map ⟦<SimLane as Lane>⟧.lane_facts lanes.items)) }
    {
        exactly_the_model(&self.memory);
        self.memory.join(lanes);
        mark(&mut self.marks, self.lent);
        self.lent = SectorRange { first: 0, count: 0 };
    }

    fn failures(&self) -> u64 {
        self.memory.failures().saturating_add(self.failed)
    }

    fn arm(&mut self, fault: ArmedFault) {
        self.memory.arm(fault);
    }

    fn struck(&self) -> bool {
        self.memory.struck()
    }

    ghost may_keep = { λ d. may_keep-law d.memory };

    ghost counts_now = { λ d t c. counts_now-law d.memory t c };

    ghost only_now = { λ d c. only_now-law d.memory c };

    ghost bounded = { λ d. Prim.omega arith };

    ghost bounded_calls = { λ d. Prim.omega arith };
}
