//! The disk's file in its folder of the system, of which nothing is known.

use crate::files::unreached;
use crate::folder::Folder;
use crate::formed_file::ByteFile;
use crate::held::locked;
use crate::system::SystemFile;
use command_line::FileFault;
use std::alloc::Global;
use std::fs::{self, File};
use std::io::{self, BufWriter, ErrorKind, Seek, SeekFrom, Write};
use std::mem;
use std::os::unix::fs::{FileExt, MetadataExt, fchown};
use std::path::Path;

/// The disk's file that a session has, in its folder of the system.
#[derive(Drop)]
pub struct SystemFolder<'a> {
    /// The disk's file.
    pub held: SystemFile<'a>,
    /// The path of the file beside. Of one that is only read it is empty.
    beside: String,
    /// The file beside, while it is written.
    out: Option<BufWriter<File>>,
    /// The file beside, once it is durable. After the renaming it is the one that was replaced, which stays locked.
    made: Option<File>,
}

impl<'a> SystemFolder<'a> {
    /// The folder of that file, and the path of the file beside.
    pub fn new(held: SystemFile<'a>, beside: String) -> SystemFolder<'a> {
        SystemFolder {
            held,
            beside,
            out: None,
            made: None,
        }
    }
}

/// Makes an empty file at that path, which replaces one that an earlier session left. It has the mode of the disk's file, and its
/// owner where the system allows that.
pub fn make_beside(held: &SystemFile<'_>, beside: &str) -> io::Result<File> {
    let rt = held.rt;
    if let Ok(left) = fs::symlink_metadata(rt, beside) {
        if left.is_file() {
            fs::remove_file(rt, beside)?;
        }
    }
    let file = File::create_new(rt, beside)?;
    let old = held.file.metadata()?;
    let _given = fchown(&file, Some(old.uid()), Some(old.gid()));
    file.set_permissions(old.permissions())?;
    Ok(file)
}

/// Writes the bytes of a file from that one on.
fn copy_behind<W: Write>(mut from: File, at: u64, out: &mut W) -> io::Result<()> {
    let _at = from.seek(SeekFrom::Start(at))?;
    let _count = io::copy(&mut from, out)?;
    Ok(())
}

/// Makes it durable that the file at this path is in its folder.
fn sync_folder(rt: &HostRuntime, path: &str) -> io::Result<()> {
    let folder = match Path::new(path).parent() {
        Some(parent) if !parent.as_str().is_empty() => parent.as_str(),
        _ => ".",
    };
    fs::open(rt, folder)?.sync_all()
}

/// The file beside, where it was made.
fn made<T>(out: Option<T>) -> io::Result<T> {
    match out {
        Some(out) => Ok(out),
        None => Err(io::Error::from(ErrorKind::NotFound)),
    }
}

impl<'a> ByteFile for SystemFolder<'a> {
    ghost use Rattle.std.specs.Prelude.{None};

    ghost held = { λ file. None };

    fn byte_count(&self) -> Result<u64, FileFault> {
        self.held.byte_count()
    }

    fn read_at(&self, at: u64, into: &mut [u8]) -> Result<(), FileFault> {
        self.held.read_at(at, into)
    }
}

impl<'a> Folder for SystemFolder<'a> {
    ghost use Rattle.board_files.specs.Folders.{no_facts};

    ghost folder_facts = { λ _. no_facts };

    fn alloc(&self) -> Global {
        self.held.rt.alloc()
    }

    fn create(&mut self, is_locked: bool) -> io::Result<()> {
        let rt = self.held.rt;
        let file = make_beside(&self.held, &self.beside)?;
        let file = if is_locked {
            locked(rt, &self.beside, file)?
        } else {
            file
        };
        match BufWriter::new(rt.alloc(), file) {
            Ok(out) => {
                self.out = Some(out);
                Ok(())
            }
            Err(e) => {
                self.remove();
                Err(e)
            }
        }
    }

    fn append(&mut self, bytes: &[u8]) -> io::Result<()> {
        made(self.out.as_mut())?.write_all(bytes)
    }

    fn append_rest(&mut self, at: u64) -> io::Result<()> {
        let old = self.held.file.try_clone()?;
        copy_behind(old, at, made(self.out.as_mut())?)
    }

    fn fill(&mut self, first: &[u8], count: u64) -> io::Result<()> {
        let file = made(self.out.as_ref())?.get_ref();
        file.set_len(count)?;
        if first.is_empty() {
            return Ok(());
        }
        file.write_all_at(first, 0)
    }

    fn sync_beside(&mut self) -> io::Result<()> {
        let mut out = made(self.out.take())?;
        out.flush()?;
        let (file, _left) = out.into_parts();
        file.sync_all()?;
        self.made = Some(file);
        Ok(())
    }

    fn remove(&mut self) {
        self.out = None;
        let _gone = fs::remove_file(self.held.rt, self.beside.as_str());
    }

    fn rename(&mut self) -> io::Result<()> {
        fs::rename(self.held.rt, self.beside.as_str(), self.held.path.as_str())?;
        if let Some(made) = &mut self.made {
            mem::swap(&mut self.held.file, made);
        }
        Ok(())
    }

    fn sync_folder(&mut self) -> io::Result<()> {
        sync_folder(self.held.rt, &self.held.path)
    }

    fn sync_held(&mut self) -> io::Result<()> {
        self.held.file.sync_all()
    }

    fn fault(&self, why: io::Error) -> FileFault {
        unreached(self.held.rt.alloc(), &self.held.path, why)
    }

    fn fault_beside(&self, why: io::Error) -> FileFault {
        unreached(self.held.rt.alloc(), &self.beside, why)
    }

    ghost may_keep = { λ _. tt };

    ghost counts_now = { λ _. tt };

    ghost bounded = { λ _. tt };
}
