//! The payloads of the boot slots, from their files.

ghost use Rattle.std.specs.Prelude.{◌≡◌, ◌⊎◌, ◌<◌, ℕ, List, None, map, get_or, length, slice_set, string_bytes, IfOk, IfErr, IsSome, OnOk};
ghost use Rattle.std.specs.Option.{option_map};
ghost use Rattle.board_model.specs.declared.refusal.Refusal.TheVariants.{Memory};
ghost use Rattle.command_line.specs.declared.fault.ProgramFault.TheVariants.{File, Refused};
ghost use Rattle.board_files.specs.Named.{AreFilesOf, IsFileOf};

use crate::payload_files::PayloadFiles;
use board::Payloads;
use board_model::Slot;
use command_line::{FileFault, read_at_most};
use std::alloc::Global;
use std::io;

/// One byte more than the largest RAM has. No more of a file is read, since a longer one is refused in the same way.
const MOST_BYTES: u64 = 1_048_577;

/// The payload of a slot: the bytes of the file that is named for it. Without a file it is empty.
fn read_named<F: PayloadFiles>(
    alloc: Global,
    files: &F,
    path: &Option<String>,
) -> io::Result<Vec<u8>>
    ensures read { IfOk result (λ payload. IsFileOf (F.bytes_at files.now) (option_map string_bytes path.now) payload.items) }
    ensures named { IfErr result (λ e. IsSome path.now) }
{
    match path {
        None => Ok(Vec::new(alloc)),
        Some(path) => read_at_most(alloc, files.open(path)?, MOST_BYTES),
    }
}

/// Reads the payload of one slot into its place.
#[tactic(auto, using(crate::proofs::PayloadFaults::file_fault))]
fn read_slot<F: PayloadFiles>(
    alloc: Global,
    files: &F,
    paths: &[Option<String>; 4],
    number: u32,
    payloads: &mut Payloads,
) -> Result<(), FileFault>
    requires { number < 4 }
    ensures read { OnOk result ((payload : List ℕ) × (payloads.new ≡ slice_set payloads.old number payload)
        × IsFileOf (F.bytes_at files.now) (option_map string_bytes (get_or paths.now number None)) payload) }
    ensures failed { IfErr result (λ e. (e.fault ≡ File) ⊎ (e.fault ≡ Refused Memory)) }
    ensures named { IfErr result (λ e. IsSome (get_or paths.now number None)) }
{
    let slot = Slot::new(number).unwrap();
    let path = &paths[number as usize];
    match read_named(alloc, files, path) {
        Ok(payload) => {
            payloads.set(slot, payload);
            Ok(())
        }
        Err(error) => {
            let path = path.as_ref().map_or("", String::as_str);
            Err(FileFault::new(alloc, path, error))
        }
    }
}

/// Reads the payloads of the four boot slots, each from the file that is named for it, in the order of the slots. Without a
/// file a payload is empty. A file that is longer than any RAM is cut to one byte more than the largest has.
///
/// The fault is that of the first file that could not be read, and says which file and why. Those after it are not read.
pub fn read_payloads<F: PayloadFiles>(
    alloc: Global,
    files: &F,
    paths: &[Option<String>; 4],
) -> Result<Payloads, FileFault>
    ensures read { IfOk result (AreFilesOf (F.bytes_at files.now) (map (option_map string_bytes) paths.now)) }
    ensures four { IfOk result (λ payloads. length payloads ≡ 4) }
    ensures failed { IfErr result (λ e. (e.fault ≡ File) ⊎ (e.fault ≡ Refused Memory)) }
    // Where no file is named none is at fault.
    ensures named { IfErr result (λ e. (slot : ℕ) × IsSome (get_or paths.now slot None)) }
{
    let mut payloads = Payloads::new(alloc);
    read_slot(alloc, files, paths, 0, &mut payloads)?;
    read_slot(alloc, files, paths, 1, &mut payloads)?;
    read_slot(alloc, files, paths, 2, &mut payloads)?;
    read_slot(alloc, files, paths, 3, &mut payloads)?;
    Ok(payloads)
}
