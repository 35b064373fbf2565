//! The files of a program over a disk: what it asks of them, whether they are the system's or in memory, and the disk
//! that a file holds (docs/CONSOLE.md, "Statuses and faults").
//!
//! A [`FileDisk`] is a disk in memory that is kept in a file: each sync that answers `Ok` has put into the file what was
//! written since the last one, and made it durable there (docs/CONSOLE.md, "`--sync`").
//!
//! A [`SectorsInBlocks`] keeps such a file in a device that is written in larger blocks, each sector in one of its own
//! (docs/DISK.md, "Larger blocks").
//!
//! The files of the payloads, one for each boot slot that a command line names (docs/SCRIPT.md, "Payload files").
#![tactic(auto)]

mod block_device;
mod block_size;
mod file_blocks;
mod file_disk;
mod files;
mod folder;
mod formed_file;
mod held;
mod memory_file;
mod memory_folder;
mod past;
mod payload_files;
mod payloads;
mod pushing;
mod reads;
mod sector_file;
mod system;
mod system_folder;
mod written;

pub use block_device::{BlockDevice, SectorsInBlocks};
pub use block_size::BlockSize;
pub use file_blocks::FileBlocks;
pub use file_disk::{FileDisk, Filed};
pub use files::{BoardFiles, DiskFile, DiskFiles, HeldFile, unreached};
pub use folder::Folder;
pub use formed_file::{ByteFile, FormedFile};
pub use memory_file::{FileFate, MemoryFile};
pub use memory_folder::MemoryFolder;
pub use past::Past;
pub use payload_files::PayloadFiles;
pub use payloads::read_payloads;
pub use reads::{disk_in, refused_disk, seen_in, shape_in};
pub use sector_file::SectorFile;
pub use system::SystemFiles;
pub use written::kept_file;
