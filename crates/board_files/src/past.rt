//! Contents of a file that only contracts remember. They take no memory, and nothing is done for them at run time.
ghost use Rattle.std.specs.Prelude.{◌≡◌, []};
ghost use Rattle.disk.specs.WriteLog.{new_log};
ghost use Rattle.board_files.specs.Kept.{noted, synced_once};

use disk::{Log, Sector};

/// What a crash might have left of a file at earlier moments, by its syncs, for those who know what their file does
/// ([`SectorFile`](crate::SectorFile)).
#[derive(Drop)]
pub struct Past {
    pub kept: Log,
}

impl Past {
    /// Nothing yet.
    pub fn begun() -> Past
        ensures { result.kept.log ≡ new_log [] }
    {
        Past {
            kept: Log::picked(&()),
        }
    }

    /// These sectors too.
    pub fn note(&mut self, sectors: &[Sector])
        ensures { self.new.kept.log ≡ noted sectors.now self.old.kept.log }
    {
        self.kept = Log::picked(&(&self.kept, sectors));
    }

    /// A sync answers Ok.
    pub fn sync(&mut self)
        ensures { self.new.kept.log ≡ synced_once self.old.kept.log }
    {
        self.kept = Log::picked(&(&self.kept, ()));
    }
}
