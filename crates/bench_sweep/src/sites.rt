//! How a run goes on from a site.
//! A law runs nothing, and tells the prover a fact: `kept_disks`.

ghost use Rattle.std.specs.Prelude.{◌≡◌, ◌≤◌, ◌<◌, true, false, length, take, All, IfOk, OnOk};
ghost use Rattle.board_model.specs.Shapes.{Size};
ghost use Rattle.script_lang.specs.Lines.{IsLineInRange};
ghost use Rattle.disk.specs.Facts.{Only};
ghost use Rattle.simdisk.specs.Views.{left_by_fill};
ghost use Rattle.disk.specs.WriteLog.{synced};
ghost use Rattle.bench_report.specs.Agree.{Agrees, IsUnstruck, OffIs};
ghost use Rattle.bench_report.specs.Bench.{Bench};
ghost use Rattle.bench_report.specs.Happens.{off, unpowered};
ghost use Rattle.bench_report.specs.Views.{facts, sim_log_of};
ghost use Rattle.bench_sweep.specs.Lines.{LineMoves};
ghost use Rattle.bench_sweep.specs.Points.{calls_of};
ghost use Rattle.bench_sweep.specs.Runs.{Runs, RunsAt, RunsCalm, RanTo, StopsOff};
ghost use Rattle.bench_sweep.specs.Swept.{IsPlainLine};
ghost use Rattle.bench_sweep.specs.Took.{own_disk, CountsAlike, RunTook};
ghost use Rattle.bench_sweep.specs.declared.points.Caller.{Caller};

use crate::follows::record_line;
use crate::harts::is_of_harts;
use crate::site::{Going, Site};
use bench_report::{LiveBench, OffDisk, Power, Setting, disk_left, struck};
use crew::Crew;
use script_lang::Line;
use simdisk::{Fill, SimDisk};
use std::alloc::{AllocError, Global};
use store::kept_disks;

/// The disk that a power cut leaves of that one, with that fill in the place of what was written since the last sync.
/// That one stays as it is.
pub fn cut_by(off: &OffDisk, fill: Fill) -> Result<OffDisk, AllocError>
    ensures left { IfOk result (λ left. (size : Size) (b : Bench) → OffIs size b off.now.disk
        → OffIs size (unpowered b) left.disk) }
    ensures exact { IfOk result (λ left. (facts left.disk).content
        ≡ left_by_fill fill (synced (sim_log_of off.now.disk)) (sim_log_of off.now.disk).written) }
    ensures durable { IfOk result (λ left. Only (facts left.disk).content (facts left.disk).may_leave) }
    ensures calls { IfOk result (λ left. (caller : Caller) → calls_of caller left.disk ≡ calls_of caller off.now.disk) }
{
    kept_disks::<SimDisk>();
    let disk = off.disk.left(fill)?;
    Ok(OffDisk { disk })
}

/// The disk that a power cut leaves of that one, as [`cut_by`] says, in its place: no other disk is made.
pub fn cut_off(off: OffDisk, fill: Fill) -> OffDisk
    ensures left { (size : Size) (b : Bench) → OffIs size b off.disk → OffIs size (unpowered b) result.disk }
    ensures exact { (facts result.disk).content
        ≡ left_by_fill fill (synced (sim_log_of off.disk)) (sim_log_of off.disk).written }
{
    kept_disks::<SimDisk>();
    OffDisk {
        disk: off.disk.after_cut(fill),
    }
}

/// Whether the board is off.
pub fn is_off(power: &Power) -> bool
    ensures { result ≡ true → StopsOff power.now }
{
    match power {
        Power::Off(_) => true,
        Power::On(_) => false,
    }
}

impl Site {
    /// A site as this one is, with a disk of its own. What was not synced is left as it was at the last sync: all of the disk is durable.
    pub fn copy(&self, alloc: Global) -> Result<Site, AllocError>
        ensures runs { IfOk result (λ copy. (size : Size) (b : Bench) → RunsAt size b self.now → RunsAt size (unpowered b) copy) }
        ensures calls { IfOk result (λ copy. CountsAlike self.now.off.disk copy.off.disk) }
        ensures resumed { IfOk result (λ copy. copy.ledger.resumed.items ≡ self.now.ledger.resumed.items) }
    {
        let payloads = self.payloads.copy()?;
        let ledger = self.ledger.copy(alloc)?;
        let off = cut_by(&self.off, Fill::Old)?;
        Ok(Site {
            off,
            payloads,
            ledger,
        })
    }

    /// A run that goes on from this site, over a copy of its disk.
    pub fn begin(&self, alloc: Global) -> Result<Going, AllocError>
        ensures calm { IfOk result (λ going. IsUnstruck going.bench.power) }
        ensures runs { IfOk result (λ going. (size : Size) (b : Bench) → RunsAt size b self.now → RunsCalm size (unpowered b) going) }
        ensures calls { IfOk result (λ going. CountsAlike self.now.off.disk (own_disk going)) }
        ensures resumed { IfOk result (λ going. going.ledger.resumed.items ≡ self.now.ledger.resumed.items) }
    {
        let Site {
            off,
            payloads,
            ledger,
        } = self.copy(alloc)?;
        let bench = LiveBench {
            power: Power::Off(off),
            payloads,
            fill: Fill::Old,
            refused: false,
        };
        Ok(Going { bench, ledger })
    }
}

impl Going {
    /// Turns the board off.
    pub fn into_site(self) -> Site
        ensures runs { (size : Size) (b : Bench) → Runs size b self → RunsAt size (off b) result }
        ensures disk { result.off.disk ≡ own_disk self }
        ensures ledger { result.ledger ≡ self.ledger }
    {
        let LiveBench {
            power,
            payloads,
            ..
        } = self.bench;
        let disk = disk_left(power);
        Site {
            off: OffDisk { disk },
            payloads,
            ledger: self.ledger,
        }
    }

    /// Whether an armed cut has struck.
    pub fn is_struck(&self) -> bool
        ensures calm { result ≡ false → IsUnstruck self.now.bench.power }
        ensures exact { (size : Size) (b : Bench) → Agrees size b self.now.bench.power → result ≡ b.fault_state.struck }
    {
        struck(&self.bench.power)
    }

    /// Whether a run of lines ends here: an armed cut has struck, or the board is off where that was asked for.
    fn stops(&self, until_off: bool) -> bool
        ensures calm { result ≡ false → IsUnstruck self.now.bench.power }
        ensures exact { result ≡ false → (size : Size) (b : Bench) → Agrees size b self.now.bench.power
            → b.fault_state.struck ≡ false }
        ensures off { result ≡ true → StopsOff self.now.bench.power }
        ensures struck { result ≡ true → until_off ≡ false → (size : Size) (b : Bench) → Agrees size b self.now.bench.power
            → b.fault_state.struck ≡ true }
    {
        if self.is_struck() {
            return true;
        }
        until_off && is_off(&self.bench.power)
    }

    /// Runs one line, and the ledger follows it. An armed cut that struck within it is not made yet. Refused where memory was, also to a
    /// power-on, an examination or a suspension. The run is of no use then.
    pub fn run_line<C: Crew>(
        &mut self,
        setting: &Setting<'_, C>,
        line: &Line,
    ) -> Result<(), AllocError>
        requires range { IsLineInRange setting.now.shape.now line.now }
        requires plain { IsPlainLine line.now }
        requires calm { IsUnstruck self.old.bench.power }
        ensures runs { OnOk result ((b : Bench) → RunsCalm setting.now.shape.now b self.old
            → LineMoves setting.now.shape.now line.now b self.old self.new) }
    {
        if is_of_harts(line) {
            return self.harts(setting, line);
        }
        let (answer, now) = self.bench.alone(setting, line)?;
        if self.bench.refused {
            return Err(AllocError);
        }
        record_line(&mut self.ledger, setting.alloc, line, &answer, now)
    }

    /// Runs these lines, no further than to the one in which an armed cut strikes, or where so asked to the first after which the board is
    /// off. Answers how many ran.
    pub fn run_lines<C: Crew>(
        &mut self,
        setting: &Setting<'_, C>,
        lines: &[Line],
        until_off: bool,
    ) -> Result<usize, AllocError>
        requires ranges { All (IsLineInRange setting.now.shape.now) lines.now }
        requires plain { All IsPlainLine lines.now }
        requires calm { IsUnstruck self.old.bench.power }
        ensures ran { IfOk result (λ count. (b : Bench)
            → RunsCalm setting.now.shape.now b self.old
            → RanTo setting.now.shape.now b (take count lines.now) self.old self.new) }
        ensures took { IfOk result (λ count. (b : Bench)
            → RunsCalm setting.now.shape.now b self.old
            → RunTook setting.now.shape.now (take count lines.now) (own_disk self.old) (own_disk self.new)) }
        ensures stops { IfOk result (λ count. until_off ≡ true → count < length lines.now → StopsOff self.new.bench.power) }
        // Where it is not asked to end at a board that is off, only an armed cut that struck ends it early.
        ensures whole { IfOk result (λ count. until_off ≡ false → (size : Size) (b : Bench) → Agrees size b self.new.bench.power
            → b.fault_state.struck ≡ false → count ≡ length lines.now) }
        ensures few { IfOk result (λ count. count ≤ length lines.now) }
        ensures some { IfOk result (λ count. 0 < length lines.now → 0 < count) }
    {
        let mut count = 0;
        for line in lines {
            self.run_line(setting, line)?;
            count += 1;
            if self.stops(until_off) {
                return Ok(count);
            }
        }
        Ok(count)
    }
}
