//! Turns of one hart that lead back to the board of a row.
//! A law runs nothing, and tells the prover a fact: `model_board::event_determines_board`.

ghost use Rattle.std.specs.Prelude.{◌≡◌, ◌<◌, ◌≤◌, IfOk, IfSome, IfNone, Ok, true, false};
ghost use Rattle.model_board.specs.Boards.{Board as AnyBoard};
ghost use Rattle.model_board.specs.Events.{TurnOn};
ghost use Rattle.board_space.specs.Few.{WaitsAt};
ghost use Rattle.board_space.specs.Rows.{Stands};
ghost use Rattle.board_space.specs.Settings.{setting_of, asked_of, RowsStay};

use crate::space::BoardSpace;
use board_model::HartId;
use state_space::Refused;

/// A hart waits where at most so many turns of its own lead back to the same board.
const MOST_WAITED: u32 = 100;

impl BoardSpace {
    /// Makes a turn of a hart of the board, and answers whether it is that of the row then. Refused where the map does not let the turn.
    fn turns_back(&mut self, row: &[u32], hart: HartId) -> Result<bool, Refused>
        requires known { (b : AnyBoard) × Stands self.old.rows row.now b }
        requires hart { hart < self.old.shape.harts }
        ensures turns { IfOk result (λ _. TurnOn hart self.old.board.board self.new.board.board) }
        ensures back { result ≡ Ok true → (b : AnyBoard) → Stands self.old.rows row.now b → self.new.board.board ≡ b }
        ensures away { result ≡ Ok false → (b : AnyBoard) → Stands self.old.rows row.now b → self.new.board.board ≡ b → ⊥ }
        ensures stay { RowsStay self.old self.new }
        ensures setting { setting_of self.new ≡ setting_of self.old }
    {
        if let Some(broke) = self.break_of(u64::from(hart.number())) {
            self.broke = Some(broke);
            return Err(Refused::Numbers);
        }
        let _sized = self.board.machine();
        self.board.turn(hart);
        if self.rows.differs(row, &self.board, hart) {
            return Ok(false);
        }
        self.rows.row_of(&self.board, row, &mut self.row)?;
        if self.row.as_slice() == row {
            return Ok(true);
        }
        Err(Refused::Numbers)
    }

    /// Whether a hart waits at the board of a row: some turns of its own, at most 100, lead back to it.
    pub(crate) fn waits_at(&mut self, row: &[u32], hart: HartId) -> Result<bool, Refused>
        requires known { (b : AnyBoard) × Stands self.old.rows row.now b }
        requires hart { hart < self.old.shape.harts }
        ensures waits { result ≡ Ok true → (b : AnyBoard) → Stands self.old.rows row.now b → WaitsAt (asked_of self.old) hart b }
        ensures goes { result ≡ Ok false → (b : AnyBoard) → Stands self.old.rows row.now b → WaitsAt (asked_of self.old) hart b → ⊥ }
        ensures stay { RowsStay self.old self.new }
        ensures setting { setting_of self.new ≡ setting_of self.old }
    {
        model_board::event_determines_board();
        let _harts = self.shape.harts();
        self.rows.put(row, &mut self.board);
        for turn in 0..MOST_WAITED {
            if self.turns_back(row, hart)? {
                return Ok(true);
            }
        }
        Ok(false)
    }

    /// The hart of that number, where the board has it.
    pub(crate) fn hart(&self, number: u8) -> Option<HartId>
        ensures some { IfSome result (λ h. (h ≡ number) × (h < self.now.shape.harts)) }
        ensures none { IfNone result (self.now.shape.harts ≤ number) }
    {
        self.shape.hart(u64::from(number))
    }
}
