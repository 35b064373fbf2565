//! The limits of the board (docs/ARCHITECTURE.md, "Limits").

/// The most harts that a board has.
pub const MAX_HARTS: u64 = 8;

/// The most pages of RAM that a board has.
pub const MAX_PAGES: u64 = 256;

/// The most saver lanes that a board has.
pub const MAX_LANES: u64 = 4;

/// The boot slots, numbered from 0.
pub const SLOTS: u32 = 4;

/// The most boots of a trial.
pub const MAX_BOOTS: u32 = 7;

/// The bytes of a page of RAM.
pub const PAGE_BYTES: usize = 4096;

/// The bytes of a sector of the disk.
pub const SECTOR_BYTES: usize = 512;

/// The address of the first byte of RAM.
pub const RAM_BASE: u64 = 0x8000_0000;

/// The most commands that are acknowledged in one life.
pub const MAX_COMMANDS: usize = 4096;

/// The most lines of a script.
pub const MAX_SCRIPT_LINES: usize = 65536;

/// The most bytes of a script's line, without its line feed.
pub const MAX_LINE_BYTES: usize = 4096;
