//! What a script's run leaves, also where it was refused memory: how it ended, what a power-on over its disk
//! finds, and its report.

ghost use Rattle.std.specs.Prelude.{IfErr, IfSome};
ghost use Rattle.bench_report.specs.Views.{facts};
ghost use Rattle.store.specs.Leaves.{IsIdle};

use bench_report::{StoppedRun, run_left};
use board::{Board, Payloads, Unpowered};
use board_model::{BootMode, Durable, StateText};
use crew::Crew;
use simdisk::SimDisk;
use std::alloc::Global;
use std::io::{self, Read, Write};

/// What a power-on that keeps the image finds of that disk; else why there is none, and the disk.
fn found_on(alloc: Global, disk: SimDisk) -> Result<Durable, Unpowered<SimDisk>>
    requires { IsIdle (facts disk) }
    ensures idle { IfErr result (λ e. IsIdle (facts e.disk)) }
{
    let payloads = Payloads::new(alloc);
    match Board::power_on(alloc, disk, BootMode::Keep, &payloads) {
        Ok(board) => Ok(board.found()),
        Err(unpowered) => Err(unpowered),
    }
}

/// Writes what that power-on finds: `left found ..`, or `left refused N`. One that is refused is made once more: where
/// a single request for memory is refused, it may be that power-on's own, and the second has all that it wants.
fn tell_left(rt: &HostRuntime, disk: SimDisk) -> io::Result<()>
    requires { IsIdle (facts disk) }
{
    let found = match found_on(rt.alloc(), disk) {
        Ok(found) => Ok(found),
        Err(unpowered) => found_on(rt.alloc(), unpowered.disk),
    };
    match found {
        Ok(found) => {
            let state = StateText(found);
            println!(rt; "left found {state}")
        }
        Err(unpowered) => {
            let number = unpowered.refusal.code();
            println!(rt; "left refused {number}")
        }
    }
}

/// Writes `stopped N` by the refusal's number, and what a power-on over the disk that is left finds, `left nothing` where there
/// is none.
fn tell_stopped(rt: &HostRuntime, stopped: StoppedRun) -> io::Result<()>
    requires { IfSome stopped.disk (λ disk. IsIdle (facts disk)) }
{
    let number = stopped.refusal.code();
    println!(rt; "stopped {number}")?;
    match stopped.disk {
        None => println!(rt; "left nothing"),
        Some(disk) => tell_left(rt, disk),
    }
}

/// Writes `ran`, and what a power-on over the disk finds.
fn tell_ran(rt: &HostRuntime, disk: SimDisk) -> io::Result<()>
    requires { IsIdle (facts disk) }
{
    println!(rt; "ran")?;
    tell_left(rt, disk)
}

/// Runs the script of standard input. Writes how it ended, what a power-on over the disk that is left finds, and the report,
/// as far as it was written.
pub fn tell<C: Crew>(rt: &HostRuntime, crew: &C) -> io::Result<()> {
    let mut script = Vec::new(rt.alloc());
    let _count = rt.reader().read_to_end(&mut script)?;
    let mut report = Vec::new(rt.alloc());
    match run_left(rt.alloc(), &script, crew, &mut report) {
        Ok((_report, disk)) => tell_ran(rt, disk)?,
        Err(stopped) => tell_stopped(rt, stopped)?,
    }
    io::writer(rt).write_all(&report)
}
