//! A lane, which owns its sectors.
ghost use Rattle.std.specs.Prelude.{◌≡◌, ◌≤◌, ◌+◌, ◌++◌, ◌∷◌, [], length, None, false, is_ok, OnOk, OnErr};
ghost use Rattle.disk.specs.Facts.{Torn, Written, AreSectorsAt, Counts};
ghost use Rattle.simdisk.specs.LaneStates.{LaneCalled};
ghost use Rattle.disk.specs.WriteLog.{laid_over};
ghost use Rattle.simdisk.specs.Views.{last_of, IsAsRead};

use crate::faults::Faults;
use crate::laid::overwrite;
use crate::logged::Stateful;
use crate::remembered::Remembered;
use crate::striking::failed;
use disk::{Fault, Lane, LaneCall, Sector};

/// A lane of a [`SimDisk`](crate::SimDisk), which owns its sectors until the join.
#[derive(Drop)]
pub struct SimLane {
    pub(crate) first: usize,
    pub(crate) sectors: Vec<Sector>,
    pub(crate) last: Last,
    pub(crate) failures: u64,
    pub(crate) calls: u64,
    pub(crate) faults: Faults,
    pub(crate) log: Remembered,
    ghost as_long: { length (last_of last sectors.items) ≡ length sectors.items },
    ghost calm: { IsAsRead last → (faults.armed ≡ None) × (faults.cut ≡ false) },
}

/// What would stand in a lane had each failed write gone through.
#[derive(Drop)]
pub(crate) enum Last {
    /// What a read gives, since no write has failed and none can.
    AsRead,
    /// These sectors.
    Apart(Vec<Sector>),
}

impl Last {
    ghost use Rattle.simdisk.specs.Views.{HasRoom};
    ghost use Rattle.disk.specs.Facts.{Content};

    /// Takes over a write of these sectors from that one on.
    fn write(&mut self, first: usize, sectors: &[Sector])
        requires { HasRoom (first + length sectors.now) self.old }
        ensures written { (c : Content)
            → last_of self.new (laid_over (first, sectors.now) c)
            ≡ laid_over (first, sectors.now) (last_of self.old c) }
        ensures as_read { IsAsRead self.new → IsAsRead self.old }
    {
        match self {
            Last::AsRead => {}
            Last::Apart(newest) => overwrite(newest, first, sectors),
        }
    }
}

/// Which bytes of a lane are meant.
#[derive(Clone, Copy)]
pub(crate) enum LaneBytes {
    /// What a read gives.
    Read,
    /// The bytes of the last write, also of one that failed.
    Written,
}

impl SimLane {
    ghost use Rattle.simdisk.specs.Lanes.{lane_view_of};

    pub(crate) fn bytes(&self, bytes: LaneBytes) -> &[Sector]
        ensures { result.now ≡ (lane_view_of bytes self.now).content }
    {
        match bytes {
            LaneBytes::Read => &self.sectors,
            LaneBytes::Written => match &self.last {
                Last::AsRead => &self.sectors,
                Last::Apart(newest) => newest,
            },
        }
    }
}

impl Lane for SimLane {
    ghost use Rattle.simdisk.specs.Lanes.{lane_view};

    ghost lane_facts = { lane_view };

    fn read(&mut self, first: usize, sectors: &mut [Sector]) -> Result<(), Fault>
        requires { first + length sectors.old ≤ length (⟦<SimLane as Lane>⟧.lane_facts self.old).content }
        ensures found { OnOk result (AreSectorsAt first (⟦<SimLane as Lane>⟧.lane_facts self.old).content sectors.new) }
        ensures content { (⟦<SimLane as Lane>⟧.lane_facts self.new).content
            ≡ (⟦<SimLane as Lane>⟧.lane_facts self.old).content }
        ensures place { (⟦<SimLane as Lane>⟧.lane_facts self.new).first
            ≡ (⟦<SimLane as Lane>⟧.lane_facts self.old).first }
        ensures failures { Counts (⟦<SimLane as Lane>⟧.lane_facts self.old).failures
            (⟦<SimLane as Lane>⟧.lane_facts self.new).failures result }
        ensures calls { (⟦<SimLane as Lane>⟧.lane_facts self.new).calls
            ≡ (⟦<SimLane as Lane>⟧.lane_facts self.old).calls
            ++ LaneCall.Read first (length sectors.old) (is_ok result) ∷ [] }
        ensures newest { (⟦<SimLane as Stateful>⟧.state self.new).newest
            ≡ (⟦<SimLane as Stateful>⟧.state self.old).newest }
        ensures called { LaneCalled (⟦<SimLane as Stateful>⟧.state self.old)
            (⟦<SimLane as Stateful>⟧.state self.new) result }
    {
        self.calls = self.calls.saturating_add(1);
        let strikes = self.faults.strikes();
        self.log.note_read(first, sectors.len(), !strikes);
        if strikes {
            return Err(failed(&mut self.failures));
        }
        sectors.copy_from_slice(&self.sectors[first..first + sectors.len()]);
        Ok(())
    }

    fn write(&mut self, first: usize, sectors: &[Sector]) -> Result<(), Fault>
        requires { first + length sectors.now ≤ length (⟦<SimLane as Lane>⟧.lane_facts self.old).content }
        ensures written { OnOk result
            (Written first sectors.now (⟦<SimLane as Lane>⟧.lane_facts self.old).content
            (⟦<SimLane as Lane>⟧.lane_facts self.new).content) }
        ensures content { Torn first (length sectors.now) (⟦<SimLane as Lane>⟧.lane_facts self.old).content
            (⟦<SimLane as Lane>⟧.lane_facts self.new).content }
        ensures place { (⟦<SimLane as Lane>⟧.lane_facts self.new).first
            ≡ (⟦<SimLane as Lane>⟧.lane_facts self.old).first }
        ensures failures { Counts (⟦<SimLane as Lane>⟧.lane_facts self.old).failures
            (⟦<SimLane as Lane>⟧.lane_facts self.new).failures result }
        ensures calls { (⟦<SimLane as Lane>⟧.lane_facts self.new).calls
            ≡ (⟦<SimLane as Lane>⟧.lane_facts self.old).calls
            ++ LaneCall.Write first (length sectors.now) (is_ok result) ∷ [] }
        ensures stays { OnErr result
            ((⟦<SimLane as Lane>⟧.lane_facts self.new).content ≡ (⟦<SimLane as Lane>⟧.lane_facts self.old).content) }
        ensures newest { (⟦<SimLane as Stateful>⟧.state self.new).newest
            ≡ laid_over (first, sectors.now) (⟦<SimLane as Stateful>⟧.state self.old).newest }
        ensures called { LaneCalled (⟦<SimLane as Stateful>⟧.state self.old)
            (⟦<SimLane as Stateful>⟧.state self.new) result }
    {
        self.calls = self.calls.saturating_add(1);
        self.last.write(first, sectors);
        let strikes = self.faults.strikes();
        self.log.note_write(first, sectors.len(), !strikes);
        if strikes {
            return Err(failed(&mut self.failures));
        }
        overwrite(&mut self.sectors, first, sectors);
        Ok(())
    }

    fn failures(&self) -> u64 {
        self.failures
    }
}
