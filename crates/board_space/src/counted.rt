//! The power-ons of a board, as the events of it that are counted.

use crate::space::BoardSpace;
use state_space::Counts;

/// The number of a power-on.
const POWER_ON: u8 = 26;

impl Counts for BoardSpace {
    ghost use Rattle.board_space.specs.Few.{is_power_on_number};

    ghost is_counted = { is_power_on_number };

    fn counts(&self, event: u8) -> bool {
        event == POWER_ON
    }
}
