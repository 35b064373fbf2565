//! Which registers are read again, before they are written, from where a hart stands: a guess, which a search makes wider.

use board_model::{RAM_BASE, Shape};
use state_space::Refused;
use std::alloc::Global;

/// Of each word of 4 bytes of RAM the registers that a hart reads again which stands there, as the bits of a number.
#[derive(Drop)]
pub struct Lives {
    masks: Vec<u32>,
}

impl Lives {
    /// No register is read again.
    pub fn new(alloc: Global, shape: &Shape) -> Result<Lives, Refused> {
        Ok(Lives {
            masks: vec![in alloc; 0; shape.ram_bytes() / 4]?,
        })
    }

    /// The same registers are read again.
    pub fn copy(&self, alloc: Global) -> Result<Lives, Refused> {
        Ok(Lives {
            masks: self.masks.as_slice().to_vec(alloc)?,
        })
    }

    /// The number of the word at a pc, past all where RAM has none there.
    fn place(pc: u64) -> u64 {
        if pc % 4 != 0 || pc < RAM_BASE {
            return u64::MAX;
        }
        (pc - RAM_BASE) / 4
    }

    /// The registers that are read again from a pc on; all where RAM has no word there.
    pub fn at(&self, pc: u64) -> u32 {
        let place = Lives::place(pc);
        if place < self.masks.len() as u64 {
            self.masks[place as usize]
        } else {
            u32::MAX
        }
    }

    /// From a pc on these are read again too.
    pub fn add(&mut self, pc: u64, registers: u32) {
        let place = Lives::place(pc);
        if place < self.masks.len() as u64 {
            self.masks[place as usize] |= registers;
        }
    }
}
