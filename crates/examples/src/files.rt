//! A folder of the examples: its files are payload files of a run, or kernels that are checked.

ghost use Rattle.std.specs.Prelude.{None};

use board_files::PayloadFiles;
use std::fs::File;
use std::io;
use std::path::Path;

/// A folder. A path of a payload file or of a kernel begins there.
#[derive(Clone, Copy)]
pub struct Folder<'a> {
    pub rt: &'a HostRuntime,
    pub path: &'a str,
}

impl PayloadFiles for Folder<'_> {
    type Opened = File;

    ghost bytes_at = { λ folder path. None };

    fn open(&self, path: &str) -> io::Result<File> {
        let path = Path::new(self.path).join(self.rt.alloc(), path)?;
        PayloadFiles::open(self.rt, path.as_str())
    }
}
