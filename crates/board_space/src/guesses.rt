//! What a search goes by that is guessed. What was guessed wrong is found by the search, which then starts over.

use crate::lives::Lives;
use board_model::{HartId, Shape};
use model_board::{Break, TouchMap};
use state_space::Refused;
use std::alloc::Global;

/// What a search goes by.
#[derive(Drop)]
pub struct Guess {
    /// Which hart may touch which word.
    pub map: TouchMap,
    /// Which registers are read again.
    pub lives: Lives,
}

/// What was guessed wrong.
#[derive(Clone, Copy, Drop)]
pub enum Broke {
    /// A hart touches what the map does not let it.
    Touches(HartId, Break),
    /// From a pc on registers are read again, which are the bits of a number.
    Reads(u64, u32),
}

/// Lets a hart do what broke the map.
fn allow(map: &mut TouchMap, hart: HartId, broke: Break) {
    match broke {
        Break::Reads(word) => map.let_read(hart, word),
        Break::Writes(word) => map.let_write(hart, word),
        Break::Sends(target) => map.let_send(hart, target),
    }
}

impl Guess {
    /// No hart may touch anything, and no register is read again.
    pub fn new(alloc: Global, shape: &Shape) -> Result<Guess, Refused> {
        let Ok(map) = TouchMap::new(alloc, shape) else {
            return Err(Refused::Memory);
        };
        Ok(Guess {
            map,
            lives: Lives::new(alloc, shape)?,
        })
    }

    /// Mends what was guessed wrong.
    pub fn widen(&mut self, broke: Broke) {
        match broke {
            Broke::Touches(hart, broke) => allow(&mut self.map, hart, broke),
            Broke::Reads(pc, registers) => self.lives.add(pc, registers),
        }
    }
}
