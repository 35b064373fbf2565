//! `examples`: runs each script of a folder and of `cases` there, once with each crew, and compares what it
//! writes with the report beside it; tries `malformed-lines` there; makes the runs of `runs`, and compares what each comes to; checks the
//! kernels of `checks` as the command lines of the transcript there ask, and has the sessions of `sessions`, and compares what is told of
//! them; and does what the lists of `stories` ask of a disk each, and compares what is seen (README.md). Status 0 where all is so; else 1,
//! and standard error names the first that is not. The folder is the word on the command line, or the one that the program runs in.
//!
//! With the word `--left` it runs the script of standard input alone, and writes how that ended, what a power-on
//! over the disk that is left finds, and the report, as far as it was written (tools/trials/refuse-memory). With `--stories`
//! it does what the lists of standard input ask, and writes what is seen (tools/trials/try-stories).
#![tactic(auto)]

mod checks;
mod console;
mod disks;
mod files;
mod left;
mod lists;
mod malformed;
mod pages;
mod reported;
mod runs;
mod sessions;
mod stories;
mod streams;
mod told;

use crate::checks::retell;
use crate::files::Folder;
use crate::left::tell;
use crate::malformed::first_taken;
use crate::reported::{AsReported, ExampleFault, compare_report};
use crate::runs::{AsTold, RunFault, compare_run};
use crate::sessions::recite;
use crate::stories::see_all;
use bench_sweep::line_apart;
use crew::{Crew, Sequential, Threads};
use std::io::Read;
use std::path::Path;
use std::process::ExitCode;
use std::sync::Wait;
use std::{env, fs, io, thread};

/// The word that asks for what a script leaves.
const LEFT: &str = "--left";

/// The word that asks for what is seen of lists.
const STORIES: &str = "--stories";

/// The folder of the short scripts, beside the examples.
const CASES: &str = "cases";

/// The folder of the runs, beside the examples.
const RUNS: &str = "runs";

/// The folder of the kernels that are checked, beside the examples.
const CHECKS: &str = "checks";

/// The file there that has command lines of `sbicheck`, and what is told of each.
const TRANSCRIPT: &str = "transcript";

/// The file of lines that no script may have.
const MALFORMED: &str = "malformed-lines";

/// The file of sessions of `sbiboard`, and what comes of each.
const SESSIONS: &str = "sessions/transcript";

/// The file of lists that ask of a disk each.
const LISTS: &str = "stories/lists";

/// The file of what is seen of them.
const SEEN: &str = "stories/seen";

/// How a run's name ends.
const RUN: &str = ".run";

/// How a script's name ends.
const SCRIPT: &str = ".sbi";

/// How the name of its report ends.
const REPORT: &str = ".report";

/// The names of the folder's files with that ending, without it, in order.
fn names_in(rt: &HostRuntime, folder: &str, ending: &str) -> io::Result<Vec<String>> {
    let mut names = Vec::new(rt.alloc());
    for entry in fs::read_dir(rt, folder)? {
        let entry = entry?;
        if let Some(name) = entry.file_name().strip_suffix(ending) {
            names.push(String::from_str(rt.alloc(), name)?)?;
        }
    }
    names.sort()?;
    Ok(names)
}

/// The bytes of the folder's file of that name and ending.
fn file_of(rt: &HostRuntime, folder: &str, name: &str, ending: &str) -> io::Result<Vec<u8>> {
    let file = format!(in rt.alloc(); "{name}{ending}")?;
    let path = Path::new(folder).join(rt.alloc(), file.as_str())?;
    fs::read(rt, path)
}

/// Compares what the script writes, with savers that take turns and with one thread for each, with the report
/// beside it.
fn compare<'a, A: Crew, B: Crew>(
    rt: &HostRuntime,
    turns: &A,
    threads: &B,
    folder: &str,
    name: &'a str,
) -> Result<AsReported<'a>, ExampleFault> {
    let script = file_of(rt, folder, name, SCRIPT).map_err(ExampleFault::Unread)?;
    let report = file_of(rt, folder, name, REPORT).map_err(ExampleFault::Unread)?;
    compare_report(rt.alloc(), name, &script, turns, &report)?;
    compare_report(rt.alloc(), name, &script, threads, &report)
}

/// Says that the script is as reported.
fn say(rt: &HostRuntime, compared: &AsReported<'_>) -> io::Result<()> {
    println!(rt; "{compared}")
}

/// Compares all scripts of the folder, up to the first that is not as reported. Answers whether all are.
fn compare_all<A: Crew, B: Crew>(
    rt: &HostRuntime,
    turns: &A,
    threads: &B,
    folder: &str,
) -> io::Result<bool> {
    let names = names_in(rt, folder, SCRIPT)?;
    if names.is_empty() {
        eprintln!(rt; "examples: no script in {folder}")?;
        return Ok(false);
    }
    for name in &names {
        match compare(rt, turns, threads, folder, name.as_str()) {
            Ok(compared) => say(rt, &compared)?,
            Err(fault) => {
                eprintln!(rt; "examples: {name}{SCRIPT}: {fault}")?;
                return Ok(false);
            }
        }
    }
    Ok(true)
}

/// The run of the folder's file of that name, with payload files of the examples.
fn compare_file<'a, R: thread::Threads + Sync>(
    threads: &R,
    examples: Folder<'_>,
    folder: &str,
    name: &'a str,
) -> Result<AsTold<'a>, RunFault> {
    let file = file_of(examples.rt, folder, name, RUN).map_err(RunFault::Unread)?;
    let text = str::from_utf8(&file).map_err(|_| RunFault::Form)?;
    compare_run(examples.rt.alloc(), threads, &examples, name, text)
}

/// Makes all runs of the folder, up to the first that does not come to what its file says. Answers whether
/// all do.
fn compare_runs<R: thread::Threads + Sync>(
    threads: &R,
    examples: Folder<'_>,
    folder: &str,
) -> io::Result<bool> {
    let rt = examples.rt;
    let names = names_in(rt, folder, RUN)?;
    if names.is_empty() {
        eprintln!(rt; "examples: no run in {folder}")?;
        return Ok(false);
    }
    for name in &names {
        match compare_file(threads, examples, folder, name.as_str()) {
            Ok(told) => println!(rt; "{told}")?,
            Err(fault) => {
                eprintln!(rt; "examples: {name}{RUN}: {fault}")?;
                return Ok(false);
            }
        }
    }
    Ok(true)
}

/// Tries the lines of the folder that no script may have. Answers whether each is refused.
fn try_malformed(rt: &HostRuntime, folder: &str) -> io::Result<bool> {
    let lines = file_of(rt, folder, MALFORMED, "")?;
    match first_taken(rt.alloc(), &lines)? {
        None => {
            println!(rt; "{MALFORMED} as refused")?;
            Ok(true)
        }
        Some(line) => {
            eprintln!(rt; "examples: {MALFORMED}: line {line} is not refused")?;
            Ok(false)
        }
    }
}

/// Compares what was told anew with the file that has it. Answers whether it is the same.
fn compare_told(
    rt: &HostRuntime,
    name: &str,
    how: &str,
    told: &[u8],
    wanted: &[u8],
) -> io::Result<bool> {
    match line_apart(told, wanted) {
        None => {
            println!(rt; "{name} as {how}")?;
            Ok(true)
        }
        Some(line) => {
            eprintln!(rt; "examples: {name}: differs from line {line} on")?;
            Ok(false)
        }
    }
}

/// Checks the kernels of the folder as its transcript asks. Answers whether that is what comes of it.
fn compare_checks<R: thread::Threads + Sync>(
    threads: &R,
    folder: Folder<'_>,
) -> anyhow::Result<bool> {
    let rt = folder.rt;
    let transcript = file_of(rt, folder.path, TRANSCRIPT, "")?;
    let mut told = Vec::new(rt.alloc());
    retell(threads, folder, str::from_utf8(&transcript)?, &mut told)?;
    if told.is_empty() {
        eprintln!(rt; "examples: no command line in {CHECKS}/{TRANSCRIPT}")?;
        return Ok(false);
    }
    let name = format!(in rt.alloc(); "{CHECKS}/{TRANSCRIPT}")?;
    Ok(compare_told(rt, &name, "told", &told, &transcript)?)
}

/// Has the sessions of the folder's transcript. Answers whether that is what comes of them.
fn compare_sessions<R: thread::Threads + Wait + Sync>(
    threads: &R,
    folder: Folder<'_>,
) -> anyhow::Result<bool> {
    let rt = folder.rt;
    let transcript = file_of(rt, folder.path, SESSIONS, "")?;
    let told = recite(threads, folder, str::from_utf8(&transcript)?)?;
    Ok(compare_told(rt, SESSIONS, "told", &told, &transcript)?)
}

/// Does what the lists of the folder ask. Answers whether that is what is seen of them.
fn compare_stories<R: thread::Threads + Sync>(folder: Folder<'_>) -> anyhow::Result<bool> {
    let rt = folder.rt;
    let lists = file_of(rt, folder.path, LISTS, "")?;
    let wanted = file_of(rt, folder.path, SEEN, "")?;
    let mut seen = Vec::new(rt.alloc());
    see_all::<R, _>(rt.alloc(), str::from_utf8(&lists)?, &mut seen)?;
    Ok(compare_told(rt, LISTS, "seen", &seen, &wanted)?)
}

/// Compares the scripts of the folder and of its `cases`, and tries its malformed lines. Answers whether all is well.
fn compare_scripts<A: Crew, B: Crew>(
    rt: &HostRuntime,
    turns: &A,
    threads: &B,
    folder: &str,
) -> io::Result<bool> {
    let cases = format!(in rt.alloc(); "{folder}/{CASES}")?;
    Ok(
        compare_all(rt, turns, threads, folder)?
            && compare_all(rt, turns, threads, &cases)?
            && try_malformed(rt, folder)?,
    )
}

/// Compares the scripts of the folder, makes its `runs`, checks the kernels of its `checks`, has its `sessions`, and does what the lists
/// of its `stories` ask. Answers whether all is well.
fn compare_folder<R: thread::Threads + Wait + Sync>(
    rt: &HostRuntime,
    threads: &R,
    folder: &str,
) -> anyhow::Result<bool> {
    let crews = (Sequential::<R>::new([0, 1, 2, 3])?, Threads::new(threads));
    let runs = format!(in rt.alloc(); "{folder}/{RUNS}")?;
    let checks = format!(in rt.alloc(); "{folder}/{CHECKS}")?;
    let (path, checked) = (folder, checks.as_str());
    Ok(
        compare_scripts(rt, &crews.0, &crews.1, folder)?
            && compare_runs(threads, Folder { rt, path }, &runs)?
            && compare_checks(threads, Folder { rt, path: checked })?
            && compare_sessions(threads, Folder { rt, path })?
            && compare_stories::<R>(Folder { rt, path })?,
    )
}

fn main(rt: HostRuntime) -> anyhow::Result<ExitCode> {
    let words: Vec<String> = env::args(&rt)?.collect(rt.alloc())?;
    let is_well = match words.get(1).map(String::as_str) {
        Some(word) if word == LEFT => {
            tell(&rt, &Sequential::<HostRuntime>::new([0, 1, 2, 3])?)?;
            true
        }
        Some(word) if word == STORIES => {
            let mut lists = Vec::new(rt.alloc());
            let _count = rt.reader().read_to_end(&mut lists)?;
            see_all::<HostRuntime, _>(rt.alloc(), str::from_utf8(&lists)?, &mut io::writer(&rt))?;
            true
        }
        Some(folder) => compare_folder(&rt, &rt, folder)?,
        None => compare_folder(&rt, &rt, ".")?,
    };
    Ok(if is_well {
        ExitCode::SUCCESS
    } else {
        ExitCode::FAILURE
    })
}
