//! The disk in memory as a disk.
ghost use Rattle.std.specs.Prelude.{◌≡◌, ◌⊎◌, ◌≤◌, ◌<◌, ◌+◌, ◌*◌, ℕ, [], ◌∷◌, length, map, OnOk, OnErr, IfOk};
ghost use Rattle.disk.specs.Facts.{Content, Torn, Written, Passes, Stays, Only, Apart, AreSectorsAt, Handed, InRow, Joined, Unchanged, counted, nothing, lent_sectors, lane_failures};
ghost use Rattle.disk.specs.FaultState.{CausedInLanes, fault_state_armed};
ghost use Rattle.disk.specs.Calls.{MakesCalls, NoCall};
ghost use Rattle.simdisk.specs.Armings.{FailsNext, one_call_on};
ghost use Rattle.simdisk.specs.LaneStates.{CountsLanes};
ghost use Rattle.simdisk.specs.Lendings.{Lends, TakesBack};
ghost use Rattle.disk.specs.WriteLog.{more_written, more_synced, lent_piece, NotedOrRefused};

use crate::laid::overwrite;
use crate::lane::{LaneBytes, SimLane};
use crate::lending::{count_calls, failures_of, lay_row};
use crate::loan::Loan;
use crate::logged::{Logged, Stateful};
use crate::sim::SimDisk;
use crate::striking::failed;
use disk::{ArmedFault, Disk, Fault, Lane, Sector};
use std::alloc::AllocError;

impl Disk for SimDisk {
    ghost use Rattle.disk.specs.WriteLog.{sim_facts, ranges, synced, AgreesOutside, synced_after};
    ghost use Rattle.simdisk.specs.History.{log_of};
    ghost use Rattle.simdisk.specs.Views.{lent_of, pieces};
    ghost use Rattle.simdisk.specs.Armings.{fault_state_by};
    ghost use Rattle.disk.specs.Laws.{only_the_last, below_most};
    ghost use Rattle.std.specs.Prelude.{◌≡◌, ◌⊎◌, length, take, Some};
    ghost use mathlib.Core.Logic.{inl};

    type Lane = SimLane;

    ghost facts = { λ d. sim_facts d.content.items (synced (log_of d.history)) (log_of d.history) d.failures d.calls
        (lent_of d.loan) };

    ghost fault_state = { λ d. fault_state_by d.faults d.refused d.past.kept.armings };

    ghost arms = { λ d fault. d.faults.armed ≡ Some fault };

    fn sectors(&self) -> usize {
        self.content.len()
    }

    fn read(&mut self, first: usize, sectors: &mut [Sector]) -> Result<(), Fault>
        requires within { first + length sectors.old ≤ length (⟦<SimDisk as Disk>⟧.facts self.old).content }
        requires apart { Apart first (length sectors.old) (⟦<SimDisk as Disk>⟧.facts self.old).lent }
        ensures found { OnOk result (AreSectorsAt first (⟦<SimDisk as Disk>⟧.facts self.old).content sectors.new) }
        ensures unsynced { (⟦<SimDisk as Disk>⟧.facts self.new).moment ≡ (⟦<SimDisk as Disk>⟧.facts self.old).moment }
        ensures called { MakesCalls 1 Stays (⟦<SimDisk as Disk>⟧.facts self.old) (⟦<SimDisk as Disk>⟧.facts self.new)
            (⟦<SimDisk as Disk>⟧.fault_state self.old) (⟦<SimDisk as Disk>⟧.fault_state self.new) result }
        ensures not_its_own { (⟦<SimDisk as Disk>⟧.fault_state self.new).own
            ≡ (⟦<SimDisk as Disk>⟧.fault_state self.old).own }
        ensures log { ⟦<SimDisk as Logged>⟧.log self.new ≡ ⟦<SimDisk as Logged>⟧.log self.old }
        ensures due { OnOk result
            (FailsNext (⟦<SimDisk as Disk>⟧.fault_state self.old).struck (⟦<SimDisk as Logged>⟧.armed self.old) → ⊥) }
        ensures early { OnErr result
            (FailsNext (⟦<SimDisk as Disk>⟧.fault_state self.old).struck (⟦<SimDisk as Logged>⟧.armed self.old)) }
        ensures counts { (FailsNext (⟦<SimDisk as Disk>⟧.fault_state self.old).struck
            (⟦<SimDisk as Logged>⟧.armed self.old) → ⊥)
            → ⟦<SimDisk as Logged>⟧.armed self.new ≡ one_call_on (⟦<SimDisk as Logged>⟧.armed self.old) }
    {
        self.calls = self.calls.saturating_add(1);
        if self.faults.strikes() {
            return Err(failed(&mut self.failures));
        }
        sectors.copy_from_slice(&self.content[first..first + sectors.len()]);
        Ok(())
    }

    fn write(&mut self, first: usize, sectors: &[Sector]) -> Result<(), Fault>
        requires within { first + length sectors.now ≤ length (⟦<SimDisk as Disk>⟧.facts self.old).content }
        requires apart { Apart first (length sectors.now) (⟦<SimDisk as Disk>⟧.facts self.old).lent }
        ensures written { OnOk result
            (Written first sectors.now (⟦<SimDisk as Disk>⟧.facts self.old).content
            (⟦<SimDisk as Disk>⟧.facts self.new).content) }
        ensures called { MakesCalls 1 (Torn first (length sectors.now)) (⟦<SimDisk as Disk>⟧.facts self.old)
            (⟦<SimDisk as Disk>⟧.facts self.new) (⟦<SimDisk as Disk>⟧.fault_state self.old)
            (⟦<SimDisk as Disk>⟧.fault_state self.new) result }
        ensures stays { OnErr result
            ((⟦<SimDisk as Disk>⟧.facts self.new).content ≡ (⟦<SimDisk as Disk>⟧.facts self.old).content) }
        ensures log { OnOk result
            (⟦<SimDisk as Logged>⟧.log self.new
            ≡ more_written (first, sectors.now) (⟦<SimDisk as Logged>⟧.log self.old)) }
        ensures log_failed { OnErr result
            (NotedOrRefused (first, sectors.now) (⟦<SimDisk as Logged>⟧.log self.old)
            (⟦<SimDisk as Logged>⟧.log self.new) (⟦<SimDisk as Disk>⟧.fault_state self.old).own
            (⟦<SimDisk as Disk>⟧.fault_state self.new).own) }
        ensures due { OnOk result
            (FailsNext (⟦<SimDisk as Disk>⟧.fault_state self.old).struck (⟦<SimDisk as Logged>⟧.armed self.old) → ⊥) }
        ensures early { OnErr result
            (FailsNext (⟦<SimDisk as Disk>⟧.fault_state self.old).struck (⟦<SimDisk as Logged>⟧.armed self.old)
            ⊎ ((⟦<SimDisk as Disk>⟧.fault_state self.new).own
            ≡ counted (⟦<SimDisk as Disk>⟧.fault_state self.old).own 1)) }
        ensures counts { (FailsNext (⟦<SimDisk as Disk>⟧.fault_state self.old).struck
            (⟦<SimDisk as Logged>⟧.armed self.old) → ⊥)
            → ⟦<SimDisk as Logged>⟧.armed self.new ≡ one_call_on (⟦<SimDisk as Logged>⟧.armed self.old) }
        ensures spared { OnErr result
            ((⟦<SimDisk as Disk>⟧.fault_state self.old).own < (⟦<SimDisk as Disk>⟧.fault_state self.new).own
            → FailsNext (⟦<SimDisk as Disk>⟧.fault_state self.old).struck (⟦<SimDisk as Logged>⟧.armed self.old)
            → ⟦<SimDisk as Logged>⟧.armed self.new ≡ ⟦<SimDisk as Logged>⟧.armed self.old) }
    {
        self.calls = self.calls.saturating_add(1);
        let Ok(()) = self.history.note(&self.content, first, sectors) else {
            self.faults.pass();
            self.refused = self.refused.saturating_add(1);
            return Err(failed(&mut self.failures));
        };
        if self.faults.strikes() {
            self.latest.write_failed(&self.content, first, sectors);
            return Err(failed(&mut self.failures));
        }
        overwrite(&mut self.content, first, sectors);
        self.latest.write(first, sectors);
        Ok(())
    }

    fn sync(&mut self) -> Result<(), Fault>
        ensures durable { OnOk result
            ((⟦<SimDisk as Disk>⟧.facts self.old).lent.lanes ≡ 0
            → Only (⟦<SimDisk as Disk>⟧.facts self.new).content (⟦<SimDisk as Disk>⟧.facts self.new).may_leave) }
        ensures but_lent { OnOk result
            ((c : Content) → (⟦<SimDisk as Disk>⟧.facts self.new).may_leave c
            → Torn (⟦<SimDisk as Disk>⟧.facts self.old).lent.first
            (lent_sectors (⟦<SimDisk as Disk>⟧.facts self.old).lent)
            (⟦<SimDisk as Disk>⟧.facts self.new).content c) }
        ensures called { MakesCalls 1 Stays (⟦<SimDisk as Disk>⟧.facts self.old) (⟦<SimDisk as Disk>⟧.facts self.new)
            (⟦<SimDisk as Disk>⟧.fault_state self.old) (⟦<SimDisk as Disk>⟧.fault_state self.new) result }
        ensures log { OnOk result
            (⟦<SimDisk as Logged>⟧.log self.new
            ≡ more_synced (⟦<SimDisk as Disk>⟧.facts self.old).content
            (lent_piece (⟦<SimDisk as Disk>⟧.facts self.old).lent (⟦<SimDisk as Disk>⟧.facts self.old).content
            ∷ []) (⟦<SimDisk as Logged>⟧.log self.old)) }
        ensures log_failed { OnErr result
            (⟦<SimDisk as Logged>⟧.log self.new ≡ ⟦<SimDisk as Logged>⟧.log self.old) }
        ensures due { OnOk result
            (FailsNext (⟦<SimDisk as Disk>⟧.fault_state self.old).struck (⟦<SimDisk as Logged>⟧.armed self.old) → ⊥) }
        ensures early { OnErr result
            (FailsNext (⟦<SimDisk as Disk>⟧.fault_state self.old).struck (⟦<SimDisk as Logged>⟧.armed self.old)
            ⊎ ((⟦<SimDisk as Disk>⟧.fault_state self.new).own
            ≡ counted (⟦<SimDisk as Disk>⟧.fault_state self.old).own 1)) }
        ensures counts { (FailsNext (⟦<SimDisk as Disk>⟧.fault_state self.old).struck
            (⟦<SimDisk as Logged>⟧.armed self.old) → ⊥)
            → ⟦<SimDisk as Logged>⟧.armed self.new ≡ one_call_on (⟦<SimDisk as Logged>⟧.armed self.old) }
        ensures spared { OnErr result
            ((⟦<SimDisk as Disk>⟧.fault_state self.old).own < (⟦<SimDisk as Disk>⟧.fault_state self.new).own
            → FailsNext (⟦<SimDisk as Disk>⟧.fault_state self.old).struck (⟦<SimDisk as Logged>⟧.armed self.old)
            → ⟦<SimDisk as Logged>⟧.armed self.new ≡ ⟦<SimDisk as Logged>⟧.armed self.old) }
    {
        self.calls = self.calls.saturating_add(1);
        if self.faults.strikes() {
            return Err(failed(&mut self.failures));
        }
        let Ok(()) = self.history.end_epoch(self.alloc, &self.content, self.loan) else {
            self.refused = self.refused.saturating_add(1);
            return Err(failed(&mut self.failures));
        };
        self.latest.as_read = true;
        self.loan.patch = 0;
        Ok(())
    }

    fn split(&mut self, first: usize, lanes: usize, each: usize) -> Result<Vec<SimLane>, AllocError>
        requires none_out { (⟦<SimDisk as Disk>⟧.facts self.old).lent.lanes ≡ 0 }
        requires few { lanes ≤ 4 }
        requires within { first + lanes * each ≤ length (⟦<SimDisk as Disk>⟧.facts self.old).content }
        ensures handed { IfOk result (λ out. Handed (record { first = first; lanes = lanes; each = each })
            (⟦<SimDisk as Disk>⟧.facts self.old).content (map ⟦<SimLane as Lane>⟧.lane_facts out.items)) }
        ensures out { OnOk result
            ((⟦<SimDisk as Disk>⟧.facts self.new).lent ≡ record { first = first; lanes = lanes; each = each }) }
        ensures refused { OnErr result
            ((⟦<SimDisk as Disk>⟧.facts self.new).lent ≡ (⟦<SimDisk as Disk>⟧.facts self.old).lent) }
        ensures content { (⟦<SimDisk as Disk>⟧.facts self.new).content ≡ (⟦<SimDisk as Disk>⟧.facts self.old).content }
        ensures crash { Passes (⟦<SimDisk as Disk>⟧.facts self.old) (⟦<SimDisk as Disk>⟧.facts self.new)
            (Torn first (lanes * each)) }
        ensures crash_refused { OnErr result
            (Passes (⟦<SimDisk as Disk>⟧.facts self.old) (⟦<SimDisk as Disk>⟧.facts self.new) Stays) }
        ensures no_call { NoCall (⟦<SimDisk as Disk>⟧.facts self.old) (⟦<SimDisk as Disk>⟧.facts self.new)
            (⟦<SimDisk as Disk>⟧.fault_state self.old) (⟦<SimDisk as Disk>⟧.fault_state self.new) }
        ensures lends { Lends (λ out. map ⟦<SimLane as Stateful>⟧.state out.items)
            (record { first = first; lanes = lanes; each = each }) (⟦<SimDisk as Logged>⟧.log self.old)
            (⟦<SimDisk as Logged>⟧.log self.new)
            (⟦<SimDisk as Logged>⟧.armed self.old) (⟦<SimDisk as Logged>⟧.armed self.new)
            (⟦<SimDisk as Disk>⟧.fault_state self.old).struck result }
    {
        let loan = Loan {
            first,
            lanes,
            each,
            patch: self.history.written.len(),
        };
        let alloc = self.alloc;
        let in_step = self.latest.as_read;
        let faults = self.faults;
        let last = self.latest.over(&self.content);
        let out = self
            .history
            .lend(alloc, &self.content, last, in_step, faults, loan)?;
        self.loan = loan;
        Ok(out)
    }

    fn join(&mut self, lanes: Vec<SimLane>)
        requires { InRow (⟦<SimDisk as Disk>⟧.facts self.old).lent (map ⟦<SimLane as Lane>⟧.lane_facts lanes.items) }
        ensures content { Joined (⟦<SimDisk as Disk>⟧.facts self.old).lent
            (map ⟦<SimLane as Lane>⟧.lane_facts lanes.items) (⟦<SimDisk as Disk>⟧.facts self.old).content
            (⟦<SimDisk as Disk>⟧.facts self.new).content }
        ensures back { (⟦<SimDisk as Disk>⟧.facts self.new).lent ≡ nothing }
        ensures crash { Passes (⟦<SimDisk as Disk>⟧.facts self.old) (⟦<SimDisk as Disk>⟧.facts self.new) Stays }
        ensures failures { (⟦<SimDisk as Disk>⟧.facts self.new).failures
            ≡ counted (⟦<SimDisk as Disk>⟧.facts self.old).failures
            (lane_failures (map ⟦<SimLane as Lane>⟧.lane_facts lanes.items)) }
        ensures calls { (⟦<SimDisk as Disk>⟧.facts self.new).calls ≡ (⟦<SimDisk as Disk>⟧.facts self.old).calls }
        ensures cause { CausedInLanes (⟦<SimDisk as Disk>⟧.fault_state self.old)
            (⟦<SimDisk as Disk>⟧.fault_state self.new)
            (lane_failures (map ⟦<SimLane as Lane>⟧.lane_facts lanes.items)) }
        ensures takes_back { TakesBack (⟦<SimDisk as Disk>⟧.facts self.old).lent
            (map ⟦<SimLane as Stateful>⟧.state lanes.items)
            (lane_failures (map ⟦<SimLane as Lane>⟧.lane_facts lanes.items)) (⟦<SimDisk as Logged>⟧.log self.old)
            (⟦<SimDisk as Logged>⟧.log self.new)
            (⟦<SimDisk as Logged>⟧.armed self.old) (⟦<SimDisk as Logged>⟧.armed self.new)
            (⟦<SimDisk as Disk>⟧.fault_state self.old) (⟦<SimDisk as Disk>⟧.fault_state self.new) }
        ensures counts_lanes { CountsLanes (map ⟦<SimLane as Stateful>⟧.state lanes.items)
            (⟦<SimDisk as Logged>⟧.lane_calls self.old) (⟦<SimDisk as Logged>⟧.lane_calls self.new) }
    {
        let loan = self.loan;
        let failures = failures_of(&lanes);
        self.latest.join(&self.content, loan, &lanes);
        self.history.stood.part(&self.content);
        lay_row(
            &mut self.content,
            loan.first,
            loan.lanes,
            loan.each,
            &lanes,
            LaneBytes::Read,
        );
        let last = self.latest.over(&self.content);
        self.history.take_newest(loan, last);
        self.loan = Loan::nothing();
        self.failures = self.failures.saturating_add(failures);
        let own = self.faults.come_back(&lanes, failures);
        self.refused = self.refused.saturating_add(own);
        count_calls(&mut self.lane_calls, &lanes);
    }

    fn failures(&self) -> u64 {
        self.failures
    }

    fn arm(&mut self, fault: ArmedFault)
        ensures facts { Unchanged (⟦<SimDisk as Disk>⟧.facts self.old) (⟦<SimDisk as Disk>⟧.facts self.new) }
        ensures armed { ⟦<SimDisk as Disk>⟧.fault_state self.new
            ≡ fault_state_armed fault (⟦<SimDisk as Disk>⟧.fault_state self.old) }
        ensures arms { ⟦<SimDisk as Disk>⟧.arms self.new fault }
        ensures call { ⟦<SimDisk as Logged>⟧.armed self.new ≡ Some fault }
        ensures log { ⟦<SimDisk as Logged>⟧.log self.new ≡ ⟦<SimDisk as Logged>⟧.log self.old }
    {
        self.faults.armed = Some(fault);
        self.past.note_arming(fault);
    }

    fn struck(&self) -> bool {
        self.faults.cut
    }

    ghost may_keep = { λ d. d.agrees };

    ghost counts_now = { λ d t c le now. inl now };

    ghost only_now = { λ d c left. only_the_last
        (synced_after (take (length d.history.past.kept.log.past) d.history.past.kept.log.past) d.history.past.kept.log.began)
        d.history.past.kept.log.past c (AgreesOutside (synced (log_of d.history)) (ranges (pieces d.history.written.items)) c)
        left };

    ghost bounded = { λ d. below_most d.failures d.few };

    ghost bounded_calls = { λ d. below_most d.calls d.few_calls };
}
