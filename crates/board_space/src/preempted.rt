//! The turns of a board's harts, as those of processes.

use crate::space::BoardSpace;
use state_space::{Preempted, Refused};

impl Preempted for BoardSpace {
    ghost use Rattle.board_space.specs.Few.{hart_of_number, turn_number, MOST_WAITED};

    ghost by = { hart_of_number };

    ghost turn = { turn_number };

    ghost most = { MOST_WAITED };

    fn process(&self, event: u8) -> Option<u8> {
        match event {
            0..8 => Some(event),
            8..16 => Some(event - 8),
            16..24 => Some(event - 16),
            _ => None,
        }
    }

    fn waits(&mut self, row: &[u32], process: u8) -> Result<bool, Refused> {
        let _few = self.harts();
        if self.leaves_out() {
            return Err(Refused::Numbers);
        }
        match self.hart(process) {
            Some(hart) => self.waits_at(row, hart),
            None => Ok(false),
        }
    }
}
