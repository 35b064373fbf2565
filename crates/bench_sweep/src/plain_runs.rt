//! Which lines a bench runs, and their run as they are.

ghost use Rattle.std.specs.Prelude.{◌≡◌, ◌⊎◌, ◌↔◌, ◌≤◌, ◌<◌, ◌+◌, ◌^◌, ℕ, List, length, take, All, Ok, Err, IsTrue, IfOk, IfErr, OnOk};
ghost use Rattle.std.specs.List.{AllZip};
ghost use Rattle.board_model.specs.declared.refusal.Refusal.{Refusal};
ghost use Rattle.board_model.specs.declared.refusal.Refusal.TheVariants.{Memory, NotPlain};
ghost use Rattle.script_lang.specs.Lines.{IsLineInRange};
ghost use Rattle.script_lang.specs.Scripts.{script_of};
ghost use Rattle.script_lang.specs.Views.{view};
ghost use Rattle.bench_report.specs.Bench.{Bench};
ghost use Rattle.bench_report.specs.Happens.{unpowered};
ghost use Rattle.bench_sweep.specs.Points.{callers, calls_of, MadeCalls};
ghost use Rattle.bench_sweep.specs.Runs.{RunsAt, Sits, IsEnd, IsLife};
ghost use Rattle.bench_sweep.specs.Swept.{IsPlainLine, IsNoFormat, IsNotPlain, NoBenchRuns, AreSwept, all_points};
ghost use Rattle.bench_sweep.specs.Took.{RunTook};

use crate::judging::turn_off;
use crate::points::{CALLERS, Caller};
use crate::runner::Runner;
use crate::site::Site;
use board_model::Refusal;
use crew::Crew;
use script_lang::{Line, Script, parse_script};
use std::alloc::{AllocError, Global};

/// Lines of the plain run up to the next moment at which the board is off.
#[derive(Drop)]
pub struct LifeSpan {
    /// How many lines they are.
    pub count: usize,
    /// The board then.
    pub next: Site,
}

/// The lines of the plain run from that site up to the next moment at which the board is off.
pub fn stretch_of<C: Crew>(runner: &Runner<'_, C>, site: &Site) -> Result<LifeSpan, AllocError>
    requires lines { AreSwept runner.now.setting.shape.now runner.now.lines.now }
    requires sits { Sits runner.now.setting.shape.now site.now }
    ensures few { IfOk result (λ did. did.count ≤ length runner.now.lines.now) }
    ensures some { IfOk result (λ did. 0 < length runner.now.lines.now → 0 < did.count) }
    ensures sits { IfOk result (λ did. Sits runner.now.setting.shape.now did.next) }
    ensures lives { IfOk result (λ did. (b : Bench)
        → RunsAt runner.now.setting.shape.now b site.now
        → IsLife runner.now.setting.shape.now b runner.now.lines.now did.count did.next) }
    ensures took { IfOk result (λ did. RunTook runner.now.setting.shape.now (take did.count runner.now.lines.now)
        site.now.off.disk did.next.off.disk) }
{
    let mut plain = site.begin(runner.setting.alloc)?;
    let Ok(count) = plain.run_lines(&runner.setting, runner.lines, true) else {
        plain.release();
        return Err(AllocError);
    };
    let next = turn_off(plain, false)?;
    Ok(LifeSpan { count, next })
}

/// How many calls of that caller were made from the one site to the other. A disk never counts back.
pub fn calls_between(caller: Caller, from: &Site, to: &Site) -> Result<u64, AllocError>
    ensures calls { IfOk result (λ n. calls_of caller to.now.off.disk ≡ calls_of caller from.now.off.disk + n) }
    ensures below { IfOk result (λ n. calls_of caller to.now.off.disk < 2 ^ 64) }
{
    let before = caller.calls(&from.off.disk);
    let after = caller.calls(&to.off.disk);
    if after < before {
        return Err(AllocError);
    }
    Ok(after - before)
}

/// Runs the lines from that site on as they are, and answers the board then, turned off. Refused where the
/// disk's record found no memory.
pub fn run_plain<C: Crew>(runner: &Runner<'_, C>, begin: &Site) -> Result<Site, AllocError>
    requires lines { AreSwept runner.now.setting.shape.now runner.now.lines.now }
    requires sits { Sits runner.now.setting.shape.now begin.now }
    ensures ends { IfOk result (λ end. (b : Bench)
        → RunsAt runner.now.setting.shape.now b begin.now
        → IsEnd runner.now.setting.shape.now (unpowered b) runner.now.lines.now end) }
    ensures took { IfOk result (λ end. RunTook runner.now.setting.shape.now runner.now.lines.now begin.now.off.disk end.off.disk) }
{
    let mut site = begin.copy(runner.setting.alloc)?;
    let mut from = 0;
    while from < runner.lines.len() {
        let rest = Runner {
            setting: runner.setting,
            bench: runner.bench,
            lines: &runner.lines[from..],
        };
        let lived = stretch_of(&rest, &site);
        site.release();
        let LifeSpan { count, next } = lived?;
        from += count;
        site = next;
    }
    if site.off.disk.refused() != 0 {
        site.release();
        return Err(AllocError);
    }
    Ok(site)
}

/// How many calls all callers made from the one site to the other. Refused where a disk counted back, or they are more than a
/// number holds.
pub fn calls_of_all(from: &Site, to: &Site) -> Result<u64, AllocError>
    ensures calls { IfOk result (λ n. (counts : List ℕ) × AllZip (MadeCalls from.now.off.disk to.now.off.disk) callers counts
        × (n ≡ length (all_points callers counts))) }
{
    let mut all = 0u64;
    for caller in CALLERS {
        let calls = calls_between(caller, from, to)?;
        match all.checked_add(calls) {
            Some(more) => all = more,
            None => return Err(AllocError),
        }
    }
    Ok(all)
}

/// Whether a bench runs the line: it cuts nothing, lets nothing fail, and leaves the disk to the firmware.
fn is_plain(line: &Line) -> bool
    ensures { IsTrue result ↔ IsPlainLine line.now }
{
    match line {
        Line::Cut(_) | Line::Arm(_) | Line::Poke(_, _, _) => false,
        _ => true,
    }
}

/// Whether a bench runs each of these lines.
fn are_plain(lines: &[Line]) -> bool
    ensures { IsTrue result ↔ All IsPlainLine lines.now }
{
    lines.iter().all(|line| is_plain(line))
}

/// Whether the line formats no disk.
fn is_no_format(line: &Line) -> bool
    ensures { IsTrue result ↔ IsNoFormat line.now }
{
    match line {
        Line::Format => false,
        _ => true,
    }
}

/// Whether none of these lines formats a disk.
fn format_none(lines: &[Line]) -> bool
    ensures { IsTrue result ↔ All IsNoFormat lines.now }
{
    lines.iter().all(|line| is_no_format(line))
}

/// Refused `NotPlain` exactly where no bench runs a script of these lines.
fn check_plain(lines: &[Line]) -> Result<(), Refusal>
    ensures plain { OnOk result (All IsPlainLine lines.now) }
    ensures runs { OnOk result (IsNotPlain lines.now → ⊥) }
    ensures refused { IfErr result (λ e. (e ≡ NotPlain) × IsNotPlain lines.now) }
{
    if !are_plain(lines) {
        return Err(Refusal::NotPlain);
    }
    if format_none(lines) {
        return Err(Refusal::NotPlain);
    }
    Ok(())
}

/// The script that the bytes say, if a bench runs it. Refused as [`parse_script`] is, and `NotPlain` exactly where the script has no fault
/// and no bench runs it.
pub fn plain_script(alloc: Global, script: &[u8]) -> Result<Script, Refusal>
    ensures value { IfOk result (λ read. script_of script.now ≡ Ok (view read)) }
    ensures ranges { IfOk result (λ read. All (IsLineInRange read.shape) read.lines.items) }
    ensures plain { IfOk result (λ read. All IsPlainLine read.lines.items) }
    ensures runs { IfOk result (λ read. IsNotPlain read.lines.items → ⊥) }
    ensures refused { IfErr result (λ e. (e ≡ Memory) ⊎ (script_of script.now ≡ Err e)
        ⊎ ((e ≡ NotPlain) × NoBenchRuns script.now)) }
{
    let read = parse_script(alloc, script)?;
    check_plain(&read.lines)?;
    Ok(read)
}
