//! The disk's file, which one session has at a time.

ghost use Rattle.std.specs.Prelude.{IfErr};
ghost use Rattle.board_files.specs.Faults.{IsFileFault};

use crate::files::unreached;
use crate::system::SystemFile;
use crate::system_folder::{SystemFolder, make_beside};
use board_model::Refusal;
use command_line::{FileFault, not_regular};
use std::fs::{self, File, OpenOptions, TryLockError};
use std::io::{self, ErrorKind};
use std::os::unix::fs::MetadataExt;

/// The path to which symbolic links lead, or the path as it is where nothing stands there.
fn real_path(rt: &HostRuntime, path: &str) -> Result<String, FileFault>
    ensures failed { IfErr result (λ e. IsFileFault e.fault) }
{
    if let Ok(found) = fs::canonicalize(rt, path) {
        return Ok(found.into_string());
    }
    match path.to_string(rt.alloc()) {
        Ok(path) => Ok(path),
        Err(_) => Err(FileFault::refused(Refusal::Memory)),
    }
}

/// Takes the lock of the file for this session. It is a fault where another session has the lock, where it has just put another
/// file there, and where the file is no regular one. The lock ends with the process, so a session that was killed keeps nobody
/// out. On a file system without locks none is taken.
pub fn locked(rt: &HostRuntime, path: &str, file: File) -> io::Result<File> {
    if let Err(TryLockError::WouldBlock) = file.try_lock() {
        return Err(io::Error::other("another session has it"));
    }
    let here = file.metadata()?;
    let there = fs::metadata(rt, path)?;
    if !here.is_file() {
        return Err(not_regular());
    }
    if here.dev() == there.dev() && here.ino() == there.ino() {
        Ok(file)
    } else {
        Err(io::Error::other("another session has replaced it"))
    }
}

/// The file at that path, or an empty one where there is none and a new disk is asked for. It is opened for writing too: so a
/// file that may not be written is refused, although a new file would take its place.
fn opened(rt: &HostRuntime, path: &str, is_new: bool) -> io::Result<File> {
    if let Ok(found) = fs::metadata(rt, path) {
        if !found.is_file() {
            return Err(not_regular());
        }
    }
    let mut how = OpenOptions::new();
    how.read(true);
    how.write(true);
    let file = match how.open(rt, path) {
        Err(e) if is_new && e.kind() == ErrorKind::NotFound => {
            how.create_new(true);
            how.open(rt, path)?
        }
        found => found?,
    };
    locked(rt, path, file)
}

/// Tries whether a file can be made beside the disk's, as the end of the session has to, and removes it. So a folder that takes
/// no file is told at the start, and not once commands were acknowledged.
fn try_beside(held: &SystemFile<'_>, beside: &str) -> Result<(), FileFault>
    ensures failed { IfErr result (λ e. IsFileFault e.fault) }
{
    let tried = match make_beside(held, beside) {
        Ok(_file) => fs::remove_file(held.rt, beside),
        Err(e) => Err(e),
    };
    match tried {
        Ok(()) => Ok(()),
        Err(e) => Err(unreached(held.rt.alloc(), beside, e)),
    }
}

/// The path of the file beside.
fn path_beside(held: &SystemFile<'_>) -> Result<String, FileFault>
    ensures failed { IfErr result (λ e. IsFileFault e.fault) }
{
    let path = &held.path;
    match format!(in held.rt.alloc(); "{path}.new") {
        Ok(beside) => Ok(beside),
        Err(_) => Err(FileFault::refused(Refusal::Memory)),
    }
}

/// Takes the disk's file for this session. A device, a folder or another thing that is no regular file is a fault. So is a file
/// that another session has, and one that could not be written or replaced at the end.
pub fn hold<'a>(
    rt: &'a HostRuntime,
    path: &str,
    is_new: bool,
    is_synced: bool,
) -> Result<SystemFolder<'a>, FileFault>
    ensures failed { IfErr result (λ e. IsFileFault e.fault) }
{
    let path = real_path(rt, path)?;
    let file = match opened(rt, &path, is_new) {
        Ok(file) => file,
        Err(e) => return Err(unreached(rt.alloc(), &path, e)),
    };
    let held = SystemFile { rt, path, file };
    let beside = path_beside(&held)?;
    if !is_synced {
        try_beside(&held, &beside)?;
    }
    Ok(SystemFolder::new(held, beside))
}
