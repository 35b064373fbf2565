//! Whether the boards of a row are at an end.
//! A law runs nothing, and tells the prover a fact: `boards_stand`, `model_board::event_determines_board`.

ghost use Rattle.std.specs.Prelude.{◌≡◌, ◌<◌, ℕ, IfOk, Ok, true, false};
ghost use Rattle.model_board.specs.Boards.{Board as AnyBoard};
ghost use Rattle.model_board.specs.Events.{TurnOn, IsEnd};
ghost use Rattle.model_board.specs.LeftOut.{IsLeftOut, IsProbed, AreProbed};
ghost use Rattle.board_space.specs.Covering.{StandsAll};
ghost use Rattle.board_space.specs.Mapped.{map_in};
ghost use Rattle.board_space.specs.Rows.{Stands};
ghost use Rattle.board_space.specs.Settings.{setting_of, RowsStay};
ghost use Rattle.board_space.specs.Space.{IsFor, KeepsSure};

use crate::guesses::Broke;
use crate::leaving::{boards_stand, holds_probe, put_probe};
use crate::space::BoardSpace;
use board_model::HartId;
use model_board::Status;
use state_space::Refused;

impl BoardSpace {
    /// Notes where the harts of the board stand.
    pub(crate) fn stand(&mut self)
        ensures board { self.new.board ≡ self.old.board }
        ensures rows { self.new.rows ≡ self.old.rows }
        ensures setting { setting_of self.new ≡ setting_of self.old }
    {
        let _sized = self.board.machine();
        for number in 0..8u64 {
            if let Some(hart) = self.shape.hart(number) {
                self.stood[hart.index()] = self.board.machine().hart(hart).pc();
            }
        }
    }

    /// Notes a row.
    pub(crate) fn note(&mut self, row: &[u32]) -> Result<(), Refused>
        ensures row { IfOk result (λ _. self.new.row.items ≡ row.now) }
        ensures board { self.new.board ≡ self.old.board }
        ensures rows { self.new.rows ≡ self.old.rows }
        ensures setting { setting_of self.new ≡ setting_of self.old }
    {
        self.row.clear();
        self.row.extend_from_slice(row)?;
        Ok(())
    }

    /// Whether a turn of a hart changes the board of a row, which is on.
    fn changes(&mut self, row: &[u32], hart: HartId) -> Result<bool, Refused>
        requires known { (b : AnyBoard) × Stands self.old.rows row.now b }
        requires keeps { (b : AnyBoard) → Stands self.old.rows row.now b → KeepsSure (map_in self.old.map) self.old.leaves hart b }
        requires hart { hart < self.old.shape.harts }
        ensures stays { result ≡ Ok false → (b : AnyBoard) → Stands self.old.rows row.now b → TurnOn hart b b }
        ensures changes { result ≡ Ok true → (b d : AnyBoard) → Stands self.old.rows row.now b → IsFor self.old.leaves b d
            → ((c : AnyBoard) → TurnOn hart d c → c ≡ d) → ⊥ }
        ensures stay { RowsStay self.old self.new }
        ensures setting { setting_of self.new ≡ setting_of self.old }
    {
        boards_stand();
        self.rows.put(row, &mut self.board);
        let _sized = self.board.machine();
        self.board.turn(hart);
        if self.rows.differs(row, &self.board, hart) {
            return Ok(true);
        }
        self.rows.row_of(&self.board, row, &mut self.row)?;
        if self.row.as_slice() == row {
            return Ok(false);
        }
        self.broke = Some(Broke::Reads(self.stood[hart.index()], u32::MAX));
        Err(Refused::Numbers)
    }

    /// Whether a turn of the hart of that number, where there is one, changes the board of a row, which is on.
    fn changes_by(&mut self, row: &[u32], number: u64) -> Result<bool, Refused>
        requires known { (b : AnyBoard) × Stands self.old.rows row.now b }
        requires keeps { (b : AnyBoard) → Stands self.old.rows row.now b → (h : ℕ) → h < self.old.shape.harts
            → KeepsSure (map_in self.old.map) self.old.leaves h b }
        ensures stays { result ≡ Ok false → (b : AnyBoard) → Stands self.old.rows row.now b → number < self.old.shape.harts
            → TurnOn number b b }
        ensures changes { result ≡ Ok true → (b d : AnyBoard) → Stands self.old.rows row.now b → IsFor self.old.leaves b d
            → ((h : ℕ) (c : AnyBoard) → h < self.old.shape.harts → TurnOn h d c → c ≡ d) → ⊥ }
        ensures stay { RowsStay self.old self.new }
        ensures setting { setting_of self.new ≡ setting_of self.old }
    {
        match self.shape.hart(number) {
            Some(hart) => self.changes(row, hart),
            None => Ok(false),
        }
    }

    /// Whether a turn of a hart leaves a probe in its register of that number, where it is left out of the row.
    fn is_probed(&mut self, row: &[u32], hart: HartId, number: u8) -> bool
        requires known { (b : AnyBoard) × Stands self.old.rows row.now b }
        requires keeps { (b : AnyBoard) → Stands self.old.rows row.now b → KeepsSure (map_in self.old.map) true hart b }
        requires hart { hart < self.old.shape.harts }
        requires number { number < 32 }
        ensures probed { result ≡ true → (b : AnyBoard) → Stands self.old.rows row.now b → IsLeftOut hart number b
            → IsProbed hart number b }
        ensures rows { self.new.rows ≡ self.old.rows }
        ensures setting { setting_of self.new ≡ setting_of self.old }
    {
        boards_stand();
        self.rows.put(row, &mut self.board);
        let _sized = self.board.machine();
        if !put_probe(&mut self.board, hart, number) {
            return true;
        }
        self.board.turn(hart);
        holds_probe(&self.board, hart, number)
    }

    /// Refused where a turn of a hart writes a register that is left out of the row, which no turn changes.
    fn are_probed(&mut self, row: &[u32], hart: HartId) -> Result<(), Refused>
        requires known { (b : AnyBoard) × Stands self.old.rows row.now b }
        requires keeps { (b : AnyBoard) → Stands self.old.rows row.now b → KeepsSure (map_in self.old.map) true hart b }
        requires hart { hart < self.old.shape.harts }
        ensures probed { IfOk result (λ _. (b : AnyBoard) → Stands self.old.rows row.now b → AreProbed hart b) }
        ensures rows { self.new.rows ≡ self.old.rows }
        ensures setting { setting_of self.new ≡ setting_of self.old }
    {
        for register in 0..32u8 {
            if !self.is_probed(row, hart, register) {
                self.broke = Some(Broke::Reads(self.stood[hart.index()], 1 << register));
                return Err(Refused::Numbers);
            }
        }
        Ok(())
    }

    /// The same of the hart of that number, where there is one.
    fn are_probed_by(&mut self, row: &[u32], number: u64) -> Result<(), Refused>
        requires known { (b : AnyBoard) × Stands self.old.rows row.now b }
        requires keeps { (b : AnyBoard) → Stands self.old.rows row.now b → (h : ℕ) → h < self.old.shape.harts
            → KeepsSure (map_in self.old.map) true h b }
        ensures probed { IfOk result (λ _. number < self.old.shape.harts → (b : AnyBoard) → Stands self.old.rows row.now b
            → AreProbed number b) }
        ensures rows { self.new.rows ≡ self.old.rows }
        ensures setting { setting_of self.new ≡ setting_of self.old }
    {
        match self.shape.hart(number) {
            Some(hart) => self.are_probed(row, hart),
            None => Ok(()),
        }
    }

    /// The same of each hart, where registers are left out.
    fn all_probed(&mut self, row: &[u32]) -> Result<(), Refused>
        requires known { (b : AnyBoard) × Stands self.old.rows row.now b }
        requires keeps { (b : AnyBoard) → Stands self.old.rows row.now b → (h : ℕ) → h < self.old.shape.harts
            → KeepsSure (map_in self.old.map) self.old.leaves h b }
        ensures probed { IfOk result (λ _. self.old.leaves ≡ true → (b : AnyBoard) → Stands self.old.rows row.now b
            → (h : ℕ) → h < self.old.shape.harts → AreProbed h b) }
        ensures rows { self.new.rows ≡ self.old.rows }
        ensures setting { setting_of self.new ≡ setting_of self.old }
    {
        if !self.leaves {
            return Ok(());
        }
        let _harts = self.shape.harts();
        for number in 0..8u64 {
            self.are_probed_by(row, number)?;
        }
        Ok(())
    }

    /// Whether no turn of a hart changes the board of a row, which is on.
    fn rests(&mut self, row: &[u32]) -> Result<bool, Refused>
        requires known { (b : AnyBoard) × Stands self.old.rows row.now b }
        requires keeps { (b : AnyBoard) → Stands self.old.rows row.now b → (h : ℕ) → h < self.old.shape.harts
            → KeepsSure (map_in self.old.map) self.old.leaves h b }
        ensures rests { result ≡ Ok true → (b d : AnyBoard) → Stands self.old.rows row.now b → IsFor self.old.leaves b d
            → (h : ℕ) (c : AnyBoard) → h < self.old.shape.harts → TurnOn h d c → c ≡ d }
        ensures moves { result ≡ Ok false → (b d : AnyBoard) → Stands self.old.rows row.now b → IsFor self.old.leaves b d
            → ((h : ℕ) (c : AnyBoard) → h < self.old.shape.harts → TurnOn h d c → c ≡ d) → ⊥ }
        ensures stay { RowsStay self.old self.new }
        ensures setting { setting_of self.new ≡ setting_of self.old }
    {
        boards_stand();
        model_board::event_determines_board();
        let _harts = self.shape.harts();
        for number in 0..8u64 {
            if self.changes_by(row, number)? {
                return Ok(false);
            }
        }
        self.all_probed(row)?;
        Ok(true)
    }

    /// Whether the board of a row is at an end. Whether it is known that a turn changes it.
    pub(crate) fn is_end(&mut self, row: &[u32], moves: bool) -> Result<bool, Refused>
        requires known { (b : AnyBoard) × Stands self.old.rows row.now b }
        requires keeps { (b : AnyBoard) → Stands self.old.rows row.now b → (h : ℕ) → h < self.old.shape.harts
            → KeepsSure (map_in self.old.map) self.old.leaves h b }
        requires moves { moves ≡ true → (b : AnyBoard) → StandsAll self.old.leaves self.old.rows row.now b → IsEnd b → ⊥ }
        ensures ends { result ≡ Ok true → (b : AnyBoard) → StandsAll self.old.leaves self.old.rows row.now b → IsEnd b }
        ensures goes { result ≡ Ok false → (b : AnyBoard) → StandsAll self.old.leaves self.old.rows row.now b → IsEnd b → ⊥ }
        ensures stay { RowsStay self.old self.new }
        ensures setting { setting_of self.new ≡ setting_of self.old }
    {
        if moves {
            return Ok(false);
        }
        self.rows.put(row, &mut self.board);
        let _sized = self.board.machine();
        match self.board.status() {
            Status::Ended => Ok(true),
            Status::Off => Ok(false),
            Status::On => {
                if self.board.rest().doze.is_some() {
                    Ok(false)
                } else {
                    self.rests(row)
                }
            }
        }
    }
}
