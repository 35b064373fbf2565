//! From memory into the file.
ghost use Rattle.std.specs.Prelude.{◌≡◌, ◌≤◌, ◌+◌, false, length, replicate, OnOk, OnErr};
ghost use Rattle.board_files.specs.Files.{IfKnown, Goes, LeavesOff, Marks, WritesMarked, Pushes};

use crate::sector_file::SectorFile;
use disk::Sector;
use std::io;

/// So many sectors in a row, from the first on.
#[derive(Clone, Copy)]
pub struct SectorRange {
    pub first: usize,
    pub count: usize,
}

/// Marks these sectors as written in memory, and not in the file.
pub fn mark(marks: &mut [bool], stretch: SectorRange)
    requires { stretch.first + stretch.count ≤ length marks.old }
    ensures { Marks stretch.first stretch.count marks.old marks.new }
{
    marks[stretch.first..stretch.first + stretch.count].fill(true);
}

/// Writes each sector that is marked into the file.
fn write_marked<F: SectorFile>(file: &mut F, sectors: &[Sector], marks: &[bool]) -> io::Result<()>
    requires kept { IfKnown (F.file_facts file.old) (LeavesOff marks.now sectors.now) }
    requires as_long { length marks.now ≡ length sectors.now }
    ensures wrote { Goes (F.file_facts file.old) (F.file_facts file.new)
        (WritesMarked marks.now sectors.now result) }
{
    for number in 0..sectors.len() {
        if marks[number] {
            file.write_sector(number, &sectors[number])?;
        }
    }
    Ok(())
}

/// Writes each sector that is marked into the file, and makes the file durable; then none is marked. At `Err`
/// all of them stay marked: they are written again at the next try, whatever the file made of this one.
pub fn push<F: SectorFile>(file: &mut F, sectors: &[Sector], marks: &mut [bool]) -> io::Result<()>
    requires kept { IfKnown (F.file_facts file.old) (LeavesOff marks.old sectors.now) }
    requires as_long { length marks.old ≡ length sectors.now }
    ensures pushed { Goes (F.file_facts file.old) (F.file_facts file.new) (Pushes marks.old sectors.now result) }
    ensures none { OnOk result (marks.new ≡ replicate (length marks.old) false) }
    ensures all { OnErr result (marks.new ≡ marks.old) }
{
    write_marked(file, sectors, marks)?;
    file.sync()?;
    marks.fill(false);
    Ok(())
}
