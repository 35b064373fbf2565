//! The disk's file in its folder.

use crate::formed_file::ByteFile;
use command_line::FileFault;
use std::alloc::Global;
use std::io;

/// The disk's file in its folder, where a new one is written beside it and then renamed over it.
///
/// What is known of it is said by bytes: what a read gives, what was written into the file beside, and what a crash leaves at the
/// path. Of a folder of the system nothing is known; whoever knows more of his own says so here, and then what a session promises of
/// its file ([`HeldFile`](crate::HeldFile)) is proved of that one.
pub trait Folder: ByteFile {
    ghost use Rattle.std.specs.Prelude.{◌≡◌, ◌<◌, ◌^◌, ◌-◌, ◌++◌, ℕ, List, [], IfSome, length, drop, replicate};
    ghost use Rattle.board_files.specs.Faults.{IsFileFault};
    ghost use Rattle.board_files.specs.Folders.{FolderFacts, MakesBeside, NoMore, Renames, Stays, SyncsBeside, SyncsFolder, SyncsHeld, TakesPlace};

    /// What a crash leaves, where the bytes of the disk's file are known.
    ghost folder_facts: { Self → FolderFacts };

    /// What memory is taken from.
    fn alloc(&self) -> Global;

    /// Makes an empty file beside, which replaces one that an earlier session left. It has the mode of the disk's file, and its
    /// owner where the system allows that. Where it is asked for, its lock is taken.
    fn create(&mut self, is_locked: bool) -> io::Result<()>
        ensures held { Self.held self.new ≡ Self.held self.old }
        ensures made { IfSome (Self.held self.old) (λ all. MakesBeside [] result (folder_facts self.old) (folder_facts self.new)) };

    /// Writes these bytes at the end of the file beside.
    fn append(&mut self, bytes: &[u8]) -> io::Result<()>
        ensures held { Self.held self.new ≡ Self.held self.old }
        ensures made { IfSome (Self.held self.old) (λ all. MakesBeside ((folder_facts self.old).beside ++ bytes.now) result
            (folder_facts self.old) (folder_facts self.new)) };

    /// Writes the bytes of the disk's file from that one on at the end of the file beside.
    fn append_rest(&mut self, at: u64) -> io::Result<()>
        ensures held { Self.held self.new ≡ Self.held self.old }
        ensures made { IfSome (Self.held self.old) (λ all. MakesBeside ((folder_facts self.old).beside ++ drop at all) result
            (folder_facts self.old) (folder_facts self.new)) };

    /// Makes the file beside, which is empty, one of so many bytes: first these, then zeros.
    fn fill(&mut self, first: &[u8], count: u64) -> io::Result<()>
        ensures held { Self.held self.new ≡ Self.held self.old }
        ensures made { IfSome (Self.held self.old) (λ all. (folder_facts self.old).beside ≡ []
            → MakesBeside (first.now ++ replicate (count - length first.now) 0) result
            (folder_facts self.old) (folder_facts self.new)) };

    /// Makes the file beside durable.
    fn sync_beside(&mut self) -> io::Result<()>
        ensures held { Self.held self.new ≡ Self.held self.old }
        ensures synced { IfSome (Self.held self.old) (λ all. SyncsBeside result (folder_facts self.old) (folder_facts self.new)) };

    /// Removes the file beside.
    fn remove(&mut self)
        ensures held { Self.held self.new ≡ Self.held self.old }
        ensures stays { IfSome (Self.held self.old) (λ all. Stays (folder_facts self.old) (folder_facts self.new)) };

    /// Renames the file beside over the disk's, whose place it takes.
    fn rename(&mut self) -> io::Result<()>
        ensures held { TakesPlace result (folder_facts self.old).beside (Self.held self.old) (Self.held self.new) }
        ensures renamed { IfSome (Self.held self.old) (λ all. Renames result (folder_facts self.old) (folder_facts self.new)) };

    /// Makes durable which file is at the disk's path.
    fn sync_folder(&mut self) -> io::Result<()>
        ensures held { Self.held self.new ≡ Self.held self.old }
        ensures synced { IfSome (Self.held self.old) (λ all. SyncsFolder result (folder_facts self.old) (folder_facts self.new)) };

    /// Makes the disk's file durable.
    fn sync_held(&mut self) -> io::Result<()>
        ensures held { Self.held self.new ≡ Self.held self.old }
        ensures synced { IfSome (Self.held self.old) (λ all. SyncsHeld all result (folder_facts self.old) (folder_facts self.new)) };

    /// The fault of the disk's file, for that reason.
    fn fault(&self, why: io::Error) -> FileFault
        ensures { IsFileFault result.fault };

    /// The fault of the file beside, for that reason.
    fn fault_beside(&self, why: io::Error) -> FileFault
        ensures { IsFileFault result.fault };

    /// A process that is killed leaves what a read gives.
    ghost may_keep: { (folder : Self) → IfSome (Self.held folder) (folder_facts folder).in_file };

    /// The disk's file is the one at the path, and this moment is one of all.
    ghost counts_now: { (folder : Self) → IfSome (Self.held folder) (λ all. NoMore (folder_facts folder).at_path (folder_facts folder).in_file
        × NoMore (folder_facts folder).ever (folder_facts folder).at_path) };

    /// The place of each byte is a number of 64 bits.
    ghost bounded: { (folder : Self) → IfSome (Self.held folder) (λ all. length all < 2 ^ 64) };
}
