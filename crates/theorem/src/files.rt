//! The promises of a disk that is kept in a file.
//! A law runs nothing, and tells the prover a fact: `content_determines_state`.
ghost use Rattle.std.specs.Prelude.{◌≡◌, IfOk};
ghost use Rattle.board_model.specs.Durable.{DurableState};
ghost use Rattle.board_model.specs.Shapes.{Size};
ghost use Rattle.board_model.specs.declared.durable.Command.{Command};
ghost use Rattle.disk.specs.Facts.{IsFresh};
ghost use Rattle.board_files.specs.Files.{IfKnown, IsDurable};
ghost use Rattle.store.specs.Standing.{StandsFor};
ghost use Rattle.theorem.specs.Files.{KeepsCommands};

use crate::headline::commands_in_a_row;
use board_files::{FileDisk, SectorFile};
use board_model::{Command, Refusal};
use disk::Disk;
use simdisk::SimDisk;
use std::alloc::Global;
use store::{Store, content_determines_state};

/// *Wherever the process is killed, or its host crashes.* A disk that was just made is kept in a file, which holds it; it
/// stands for the state s, is opened, and takes a row of commands up to the first that is not acknowledged. Then each
/// content that a crash leaves in the file, now or at any moment since the disk was made, is one that the headline
/// allows (`KeepsCommands`). That is so of any file which does what [`SectorFile`] says of it; of a file of the system
/// nothing is known (`IfKnown`). Answers how many commands were acknowledged, the refusal at which the row ended, and the file.
pub fn commands_kept_in_a_file<F: SectorFile + Drop>(
    alloc: Global,
    memory: SimDisk,
    file: F,
    commands: &[Command],
) -> Result<(usize, Option<Refusal>, F), Refusal>
    requires fresh { IsFresh (⟦<SimDisk as Disk>⟧.facts memory).content (⟦<SimDisk as Disk>⟧.facts memory) }
    requires first_moment { (⟦<SimDisk as Disk>⟧.facts memory).moment ≡ 0 }
    requires durable { IfKnown (F.file_facts file) (IsDurable (⟦<SimDisk as Disk>⟧.facts memory).content) }
    ensures { IfOk result (λ kept. (size : Size) (s : DurableState)
        → StandsFor (⟦<SimDisk as Disk>⟧.facts memory).content size s
        → IfKnown (F.file_facts kept.2) (KeepsCommands size s commands.now kept.0 kept.1)) }
{
    content_determines_state();
    let disk = FileDisk::new(alloc, memory, file)?;
    let mut store = match Store::open(alloc, disk) {
        Ok(store) => store,
        Err((_, refusal)) => return Err(refusal),
    };
    let (acknowledged, refusal) = commands_in_a_row(&mut store, commands);
    Ok((acknowledged, refusal, store.into_disk().into_file()))
}
