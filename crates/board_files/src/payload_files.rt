//! Where payload files are read from.

ghost use Rattle.std.specs.Prelude.{None};

use command_line::open_regular;
use std::fs::{File, OpenOptions};
use std::io::{self, Read};

/// Files by their paths.
pub trait PayloadFiles {
    ghost use Rattle.std.specs.Prelude.{◌≡◌, ℕ, List, Option, IfOk};

    /// A file that is open. What is left of it is read from its begin.
    type Opened: Read + Drop;

    /// The bytes of the file at a path, where they are known.
    ghost bytes_at: { Self → List ℕ → Option (List ℕ) };

    /// Opens the file at that path. The error is the file's own, or `OutOfMemory`.
    fn open(&self, path: &str) -> io::Result<Self::Opened>
        ensures { IfOk result (λ file. Self.Opened.remaining file ≡ bytes_at self.now path.now) };
}

/// The files of the system. No contract knows their bytes.
impl PayloadFiles for HostRuntime {
    type Opened = File;

    ghost bytes_at = { λ rt path. None };

    fn open(&self, path: &str) -> io::Result<File> {
        let mut how = OpenOptions::new();
        how.read(true);
        open_regular(self, &how, path)
    }
}
