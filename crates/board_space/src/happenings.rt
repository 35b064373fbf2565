//! What may happen to a board next, by its number.

ghost use Rattle.std.specs.Prelude.{◌≡◌, ◌<◌, ◌≤◌, ℕ, List, Bool, true, false, IfSome, IfNone, Some, None, length};
ghost use Rattle.board_model.specs.Shapes.{Size, ram_bytes_of};
ghost use Rattle.model_board.specs.Boards.{Board as AnyBoard};
ghost use Rattle.model_board.specs.Events.{Event, Does};
ghost use Rattle.board_space.specs.Space.{HasHart, IsSmall, number_of};
ghost use Rattle.board_space.specs.Happenings.{event_of};
ghost use Rattle.board_space.specs.Ready.{LeavesMemory};

use board_model::HartId;
use model_board::Board;

/// What may happen to a board next.
#[derive(Clone, Copy, Drop)]
pub enum Happening {
    /// A turn of a hart.
    Turn(HartId),
    /// A turn of a hart whose sleep or reset the store refuses, and whether it is down from then on.
    Refused(HartId, bool),
    /// The operator's wake.
    Wake,
    /// Power fails.
    Cut,
    /// The next power-on.
    PowerOn,
}

/// How many numbers of happenings there are.
pub const HAPPENINGS: u8 = 27;

impl Happening {
    /// The number of a happening: that of its hart for a turn, 8 more or 16 more where the store refuses and is up or down from then on; then
    /// the wake, the cut and the power-on.
    pub fn number(&self) -> u8
        ensures number { result ≡ number_of (event_of self.now) }
        ensures below { result < 27 }
    {
        match *self {
            Happening::Turn(hart) => hart.number() as u8,
            Happening::Refused(hart, down) => {
                let first = if down { 16 } else { 8 };
                first + hart.number() as u8
            }
            Happening::Wake => 24,
            Happening::Cut => 25,
            Happening::PowerOn => 26,
        }
    }

    /// The happening of that number.
    pub fn of_number(number: u8) -> Option<Happening>
        ensures some { IfSome result (λ h. number_of (event_of h) ≡ number) }
        ensures small { IfSome result (λ h. IsSmall (event_of h)) }
        ensures none { IfNone result (27 ≤ number) }
    {
        match number {
            24 => Some(Happening::Wake),
            25 => Some(Happening::Cut),
            26 => Some(Happening::PowerOn),
            0..8 => Some(Happening::Turn(HartId::new(number as u64)?)),
            8..16 => Some(Happening::Refused(HartId::new(number as u64 - 8)?, false)),
            16..24 => Some(Happening::Refused(HartId::new(number as u64 - 16)?, true)),
            _ => None,
        }
    }

    /// Makes it happen to a board, and answers whether it could. Where a refusal could not, the turn was made as ever; where another could
    /// not, nothing changes.
    pub fn happen(&self, board: &mut Board, payload: &[u8]) -> bool
        requires fits { length payload.now ≤ ram_bytes_of board.old.size }
        requires known { HasHart board.old.size (event_of self.now) }
        ensures happens { result ≡ true
            → Does payload.now board.old.size (event_of self.now) board.old.board board.new.board }
        ensures never { result ≡ false
            → (c : AnyBoard) → Does payload.now board.old.size (event_of self.now) board.old.board c → ⊥ }
        ensures size { board.new.size ≡ board.old.size }
        ensures raw { board.new.machine.size ≡ board.old.machine.size }
        ensures memory { LeavesMemory payload.now (event_of self.now) board.old board.new }
    {
        match *self {
            Happening::Turn(hart) => {
                board.turn(hart);
                true
            }
            Happening::Refused(hart, down) => board.refused(hart, down),
            Happening::Wake => board.wake(),
            Happening::Cut => {
                board.cut();
                true
            }
            Happening::PowerOn => board.power_on(payload),
        }
    }
}
