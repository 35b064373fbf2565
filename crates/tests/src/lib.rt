//! Tests: values are compared with the standard, docs/, an outside assembler, emulator or debugger; disks fail, lose power or have
//! their process killed; and tables, crews and whole boards run on threads. Here is what no clause says, and what no script or session of
//! `crates/examples` shows.
#![tactic(auto)]

#[cfg(test)]
mod areas;
#[cfg(test)]
mod boards;
#[cfg(test)]
mod caches;
#[cfg(test)]
mod commands;
#[cfg(test)]
mod crews;
#[cfg(test)]
mod crowd;
#[cfg(test)]
mod decoder;
#[cfg(test)]
mod dozing;
#[cfg(test)]
mod files;
#[cfg(test)]
mod first_slot;
#[cfg(test)]
mod first_use;
#[cfg(test)]
mod fixtures;
#[cfg(test)]
mod folders;
#[cfg(test)]
mod kept;
#[cfg(test)]
mod kept_back;
#[cfg(test)]
mod kernel_files;
#[cfg(test)]
mod kernels;
#[cfg(test)]
mod last_bytes;
#[cfg(test)]
mod looped;
#[cfg(test)]
mod many;
#[cfg(test)]
mod meeting;
#[cfg(test)]
mod mine;
#[cfg(test)]
mod model;
#[cfg(test)]
mod packets;
#[cfg(test)]
mod race;
#[cfg(test)]
mod registers;
#[cfg(test)]
mod sectors;
#[cfg(test)]
mod sites;
#[cfg(test)]
mod stopped;
#[cfg(test)]
mod stored;
#[cfg(test)]
mod tables;
#[cfg(test)]
mod two_tables;
#[cfg(test)]
mod two_threads;
