//! Moments of a run: at each the board is copied as it stands, and the copy is armed.

ghost use Rattle.std.specs.Prelude.{◌≡◌, ◌≤◌, List, length, IfOk, OnOk};
ghost use Rattle.board_model.specs.Shapes.{Size};
ghost use Rattle.bench_report.specs.Agree.{HasDisk, IsArmed, IsCopyOf};
ghost use Rattle.bench_report.specs.Bench.{Bench};
ghost use Rattle.bench_report.specs.Happens.{armed_with, unpowered};
ghost use Rattle.bench_sweep.specs.Points.{fault_at, MadeCalls};
ghost use Rattle.bench_sweep.specs.Along.{CameTold};
ghost use Rattle.bench_sweep.specs.Runs.{RunsAt, RunsCalm};
ghost use Rattle.bench_sweep.specs.declared.site.Site.{Site as SiteThen};
ghost use Rattle.bench_sweep.specs.Swept.{AreSwept};
ghost use Rattle.script_lang.specs.declared.line.Line.{Line as ScriptLine};
ghost use Rattle.simdisk.specs.declared.SimDisk.{SimDisk};

use crate::points::{BenchKind, Caller, Point};
use crate::site::{Going, Site};
use bench_report::{LiveBench, Setting, arm_power, copy_power, disk_of};
use crew::Crew;
use script_lang::Line;
use std::alloc::{AllocError, Global};

/// A run that stands after the first `count` of its lines.
#[derive(Drop)]
pub struct Moment {
    pub count: usize,
    pub going: Going,
}

impl Going {
    /// A run that has come as far as this one, with a board and a disk of its own. This one stays as it is.
    pub fn copy(&mut self, alloc: Global) -> Result<Going, AllocError>
        ensures stays { (size : Size) (b : Bench) → RunsCalm size b self.old
            → RunsCalm size b self.new }
        ensures same { (d : SimDisk) → HasDisk self.old.bench.power d → HasDisk self.new.bench.power d }
        ensures ledger { self.new.ledger ≡ self.old.ledger }
        ensures runs { IfOk result (λ copy. (size : Size) (b : Bench)
            → RunsCalm size b self.old
            → RunsCalm size b copy) }
        ensures alike { IfOk result (λ copy. (d e : SimDisk) → HasDisk self.old.bench.power d → HasDisk copy.bench.power e → IsCopyOf d e) }
        ensures resumed { IfOk result (λ copy. copy.ledger.resumed.items ≡ self.old.ledger.resumed.items) }
    {
        let payloads = self.bench.payloads.copy()?;
        let ledger = self.ledger.copy(alloc)?;
        let power = copy_power(alloc, &mut self.bench.power)?;
        let bench = LiveBench {
            power,
            payloads,
            fill: self.bench.fill,
            refused: self.bench.refused,
        };
        Ok(Going { bench, ledger })
    }

    /// The run with what a bench of that kind does at the point armed on its disk.
    pub fn armed(self, bench: BenchKind, point: Point) -> Going
        ensures runs { (size : Size) (b : Bench) → RunsCalm size b self
            → RunsCalm size (armed_with (fault_at bench point.caller point.call) b) result }
        ensures ledger { result.ledger ≡ self.ledger }
        ensures arms { IsArmed (fault_at bench point.caller point.call) result.bench.power }
    {
        let LiveBench {
            power,
            payloads,
            fill,
            refused,
        } = self.bench;
        let fault = bench.fault_at(point.caller, point.call);
        let bench = LiveBench {
            power: arm_power(power, fault),
            payloads,
            fill,
            refused,
        };
        Going {
            bench,
            ledger: self.ledger,
        }
    }

    /// How many calls that caller has made since that site. Refused where a disk counted back.
    pub fn calls_since(&self, site: &Site, caller: Caller) -> Result<u64, AllocError>
        ensures calls { IfOk result (λ n. (d : SimDisk) × HasDisk self.now.bench.power d × MadeCalls site.now.off.disk d caller n) }
    {
        let before = caller.calls(&site.off.disk);
        let after = caller.calls(disk_of(&self.bench.power));
        if after < before {
            return Err(AllocError);
        }
        Ok(after - before)
    }
}

impl Moment {
    /// The moment of a site: none of the lines after it has run.
    pub fn at(alloc: Global, site: &Site) -> Result<Moment, AllocError>
        ensures came { IfOk result (λ at. (size : Size) (b : Bench) (lines : List ScriptLine) → RunsAt size b site.now
            → CameTold size (unpowered b) lines site.now at) }
        ensures none { IfOk result (λ at. at.count ≡ 0) }
    {
        let going = site.begin(alloc)?;
        Ok(Moment { count: 0, going })
    }

    /// Runs the lines on, as they are, up to the one after so many.
    pub fn run_to<C: Crew>(
        &mut self,
        setting: &Setting<'_, C>,
        lines: &[Line],
        to: usize,
    ) -> Result<(), AllocError>
        requires lines { AreSwept setting.now.shape.now lines.now }
        requires order { self.old.count ≤ to }
        requires few { to ≤ length lines.now }
        requires sits { (b : Bench) × (first : SiteThen) × CameTold setting.now.shape.now b lines.now first self.old }
        ensures came { OnOk result ((b : Bench) (first : SiteThen)
            → CameTold setting.now.shape.now b lines.now first self.old → CameTold setting.now.shape.now b lines.now first self.new) }
        ensures few { OnOk result (self.new.count ≤ to) }
    {
        let slice = &lines[self.count..to];
        let more = self.going.run_lines(setting, slice, false)?;
        // Nothing is armed that could strike.
        if self.going.is_struck() {
            return Err(AllocError);
        }
        self.count += more;
        Ok(())
    }
}
