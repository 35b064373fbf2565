//! Kernels that are checked as command lines of `sbicheck` ask, against a transcript (`checks/README.md` of the examples).

use crate::files::Folder;
use kernel_check::{Verdict, check_bytes, options_of};
use std::fs;
use std::io::Write;
use std::path::Path;
use std::thread::Threads;

/// How the line of a command begins in a transcript.
const PROMPT: &str = "$ ";

/// Checks the kernel that a command line asks for, a file of that folder. No verdict where the line is no command line, or the
/// file no kernel of that board.
fn checked<R: Threads + Sync, W: Write>(
    threads: &R,
    folder: Folder<'_>,
    line: &str,
    out: &mut W,
) -> anyhow::Result<Option<Verdict>> {
    let alloc = folder.rt.alloc();
    let words: Vec<&str> = line.split(' ').collect(alloc)?;
    let Ok(options) = options_of(alloc, words.as_slice()) else {
        return Ok(None);
    };
    let path = Path::new(folder.path).join(alloc, options.kernel.as_str())?;
    let kernel = fs::read(folder.rt, path)?;
    Ok(check_bytes(threads, alloc, &options, kernel.as_slice(), out).ok())
}

/// Writes a command line, what is told of its kernel, and the status.
fn tell<R: Threads + Sync, W: Write>(
    threads: &R,
    folder: Folder<'_>,
    line: &str,
    out: &mut W,
) -> anyhow::Result<()> {
    writeln!(out, "{PROMPT}{line}")?;
    match checked(threads, folder, line, out)? {
        Some(verdict) => {
            let status = verdict.status();
            writeln!(out, "status {status}\n")?;
        }
        None => writeln!(out, "no verdict\n")?,
    }
    Ok(())
}

/// Writes the transcript anew: each of its command lines, and what that comes to.
pub fn retell<R: Threads + Sync, W: Write>(
    threads: &R,
    folder: Folder<'_>,
    transcript: &str,
    out: &mut W,
) -> anyhow::Result<()> {
    for line in transcript.lines() {
        if let Some(command) = line.strip_prefix(PROMPT) {
            tell(threads, folder, command, out)?;
        }
    }
    Ok(())
}
