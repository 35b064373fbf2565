//! The successors of the board of a row, happening by happening.
//! A law runs nothing, and tells the prover a fact: `boards_stand`, `model_board::event_determines_board`.

ghost use Rattle.std.specs.Prelude.{◌≡◌, ◌⊎◌, ◌<◌, ◌≤◌, ◌+◌, ℕ, IfOk, true, false};
ghost use Rattle.model_board.specs.Boards.{Board as AnyBoard};
ghost use Rattle.model_board.specs.Events.{Event, Turn, TurnOn, IsEnd};
ghost use Rattle.model_board.specs.LeftOut.{StandsFor};
ghost use Rattle.model_board.specs.Maps.{TurnKeeps};
ghost use Rattle.state_space.specs.Successors.{found_count, found_width};
ghost use Rattle.board_space.specs.Covering.{StandsAll};
ghost use Rattle.board_space.specs.Expanding.{AreTold, AsksNone, IsPushed, IsTeller};
ghost use Rattle.board_space.specs.Happenings.{event_of};
ghost use Rattle.board_space.specs.Layouts.{width_of};
ghost use Rattle.board_space.specs.Mapped.{map_in};
ghost use Rattle.board_space.specs.Rows.{Stands};
ghost use Rattle.board_space.specs.Settings.{asked_of, setting_of, RowsStay};
ghost use Rattle.board_space.specs.Space.{IsFor, IsOne, KeepsEach, KeepsSure};

use crate::happenings::Happening;
use crate::leaving::{boards_stand, leave_all};
use crate::settling::settle;
use crate::space::BoardSpace;
use board_model::HartId;
use state_space::{Refused, Successors};

/// All harts, as the bits of a number.
const ALL_HARTS: u32 = 0xff;

/// What was seen of turns.
#[derive(Clone, Copy, Drop)]
pub(crate) struct Seen {
    /// Whether the store may have been asked.
    pub(crate) asks: bool,
    /// Whether one was shown to change the board.
    pub(crate) moves: bool,
}

/// What was seen of some turns and of one more.
fn both(before: Seen, seen: Seen) -> Seen
    ensures asks { result.asks ≡ false → (before.asks ≡ false) × (seen.asks ≡ false) }
    ensures moves { result.moves ≡ true → (before.moves ≡ true) ⊎ (seen.moves ≡ true) }
{
    Seen {
        asks: before.asks || seen.asks,
        moves: before.moves || seen.moves,
    }
}

impl BoardSpace {
    /// The harts that a turn of one may have moved, as the bits of a number: it alone, where what the board is beside its harts and its memory
    /// is as the row has it.
    fn moved_by(&self, row: &[u32], hart: HartId) -> u32 {
        if self.rows.has_rest(row, &self.board) {
            1 << hart.number()
        } else {
            ALL_HARTS
        }
    }

    /// Adds what the board settles to as one that the event of that number leads to. It is much like the board of the row, and moved are those
    /// harts whose bits are set.
    fn tell(
        &mut self,
        near: &[u32],
        number: u8,
        harts: u32,
        found: &mut Successors,
    ) -> Result<(), Refused>
        requires width { found_width found.old ≡ width_of self.old.rows.layout }
        ensures pushed { IfOk result (λ _. IsPushed (asked_of self.old) (map_in self.old.map) self.old.leaves
            (StandsAll self.old.leaves self.new.rows) found.old found.new self.old.board.board number) }
        ensures at { IfOk result (λ _. Stands self.new.rows self.new.row.items self.new.board.board) }
        ensures stay { RowsStay self.old self.new }
        ensures setting { setting_of self.new ≡ setting_of self.old }
        ensures width { found_width found.new ≡ found_width found.old }
    {
        let _sized = self.board.machine();
        settle(&mut self.board, &self.map, self.leaves, harts);
        self.broke = leave_all(
            &mut self.board,
            &self.lives,
            &self.stood,
            self.leaves,
            harts,
            self.broke,
        );
        self.rows.row_of(&self.board, near, &mut self.row)?;
        found.push(number, &self.row)?;
        Ok(())
    }

    /// Makes a turn of a hart of the board of a row. Whether the store may be asked in it and refuse.
    fn turn_at(&mut self, row: &[u32], hart: HartId) -> bool
        requires at { Stands self.old.rows self.old.row.items self.old.board.board }
        requires known { (b : AnyBoard) × Stands self.old.rows row.now b }
        requires keeps { (b : AnyBoard) → Stands self.old.rows row.now b → TurnKeeps (map_in self.old.map) hart b }
        requires hart { hart < self.old.shape.harts }
        ensures turn { (b : AnyBoard) → Stands self.old.rows row.now b → TurnOn hart b self.new.board.board }
        ensures asks { result ≡ false → (b : AnyBoard) → Stands self.old.rows row.now b → AsksNone (asked_of self.old) hart b }
        ensures rows { self.new.rows ≡ self.old.rows }
        ensures setting { setting_of self.new ≡ setting_of self.old }
    {
        self.rows.put_after(&self.row, row, &mut self.board);
        let _sized = self.board.machine();
        if !self.failures.refusals {
            self.board.turn(hart);
            return false;
        }
        if !self.board.refused(hart, false) {
            return false;
        }
        self.rows.put(row, &mut self.board);
        let _again = self.board.machine();
        self.board.turn(hart);
        true
    }

    /// Whether the board was shown to differ from that of a row, where it is asked, after a turn of a hart.
    fn is_away(&self, row: &[u32], hart: HartId, asked: bool) -> bool
        requires known { (b : AnyBoard) × Stands self.now.rows row.now b }
        requires hart { hart < self.now.shape.harts }
        ensures { result ≡ true → (n d : AnyBoard) → Stands self.now.rows row.now n → StandsFor n d → StandsFor self.now.board.board d → ⊥ }
    {
        asked && self.rows.differs(row, &self.board, hart)
    }

    /// Adds what a turn of a hart leads to from the board of a row. What was seen of it: whether it changes the board only where that is asked.
    fn add_turn(
        &mut self,
        row: &[u32],
        hart: HartId,
        asked: bool,
        found: &mut Successors,
    ) -> Result<Seen, Refused>
        requires at { Stands self.old.rows self.old.row.items self.old.board.board }
        requires known { (b : AnyBoard) × Stands self.old.rows row.now b }
        requires keeps { (b : AnyBoard) → Stands self.old.rows row.now b → KeepsSure (map_in self.old.map) self.old.leaves hart b }
        requires hart { hart < self.old.shape.harts }
        requires width { found_width found.old ≡ width_of self.old.rows.layout }
        ensures teller { IfOk result (λ _. (b : AnyBoard) → Stands self.old.rows row.now b
            → IsTeller (asked_of self.old) (map_in self.old.map) self.old.leaves (StandsAll self.old.leaves self.new.rows) found.old found.new b
            (Turn hart)) }
        ensures asks { IfOk result (λ seen. seen.asks ≡ false → (b : AnyBoard) → Stands self.old.rows row.now b
            → AsksNone (asked_of self.old) hart b) }
        ensures moves { IfOk result (λ seen. seen.moves ≡ true → (b d : AnyBoard) → Stands self.old.rows row.now b → IsFor self.old.leaves b d
            → IsEnd d → ⊥) }
        ensures at { IfOk result (λ _. Stands self.new.rows self.new.row.items self.new.board.board) }
        ensures stay { RowsStay self.old self.new }
        ensures setting { setting_of self.new ≡ setting_of self.old }
        ensures width { found_width found.new ≡ found_width found.old }
    {
        boards_stand();
        model_board::event_determines_board();
        let asks = self.turn_at(row, hart);
        let moves = self.is_away(row, hart, asked);
        let harts = self.moved_by(row, hart);
        self.tell(row, hart.number() as u8, harts, found)?;
        Ok(Seen { asks, moves })
    }

    /// The same of the hart of that number, where there is one, after what was seen of those before it.
    fn add_turn_of(
        &mut self,
        row: &[u32],
        number: u8,
        before: Seen,
        found: &mut Successors,
    ) -> Result<Seen, Refused>
        requires at { Stands self.old.rows self.old.row.items self.old.board.board }
        requires known { (b : AnyBoard) × Stands self.old.rows row.now b }
        requires keeps { (b : AnyBoard) → Stands self.old.rows row.now b → (h : ℕ) → h < self.old.shape.harts
            → KeepsSure (map_in self.old.map) self.old.leaves h b }
        requires width { found_width found.old ≡ width_of self.old.rows.layout }
        requires number { number < 8 }
        requires told { (b : AnyBoard) → Stands self.old.rows row.now b
            → AreTold (asked_of self.old) (map_in self.old.map) self.old.leaves (StandsAll self.old.leaves self.old.rows) found.old b number }
        requires asks { before.asks ≡ false → (b : AnyBoard) → Stands self.old.rows row.now b → (h : ℕ) → h < number
            → AsksNone (asked_of self.old) h b }
        requires moves { before.moves ≡ true → (b d : AnyBoard) → Stands self.old.rows row.now b → IsFor self.old.leaves b d → IsEnd d → ⊥ }
        ensures told { IfOk result (λ _. (b : AnyBoard) → Stands self.old.rows row.now b
            → AreTold (asked_of self.old) (map_in self.old.map) self.old.leaves (StandsAll self.old.leaves self.new.rows) found.new b (number + 1)) }
        ensures asks { IfOk result (λ seen. seen.asks ≡ false → (b : AnyBoard) → Stands self.old.rows row.now b → (h : ℕ) → h < number + 1
            → AsksNone (asked_of self.old) h b) }
        ensures moves { IfOk result (λ seen. seen.moves ≡ true → (b d : AnyBoard) → Stands self.old.rows row.now b → IsFor self.old.leaves b d
            → IsEnd d → ⊥) }
        ensures at { IfOk result (λ _. Stands self.new.rows self.new.row.items self.new.board.board) }
        ensures stay { RowsStay self.old self.new }
        ensures setting { setting_of self.new ≡ setting_of self.old }
        ensures width { found_width found.new ≡ found_width found.old }
    {
        let _few = self.harts();
        let Some(hart) = self.hart(number) else {
            return Ok(before);
        };
        let seen = self.add_turn(row, hart, !before.moves, found)?;
        Ok(both(before, seen))
    }

    /// Adds what the turns of the harts lead to from the board of a row. What was seen of them.
    fn add_turns(&mut self, row: &[u32], found: &mut Successors) -> Result<Seen, Refused>
        requires at { Stands self.old.rows self.old.row.items self.old.board.board }
        requires known { (b : AnyBoard) × Stands self.old.rows row.now b }
        requires keeps { (b : AnyBoard) → Stands self.old.rows row.now b → (h : ℕ) → h < self.old.shape.harts
            → KeepsSure (map_in self.old.map) self.old.leaves h b }
        requires width { found_width found.old ≡ width_of self.old.rows.layout }
        requires none { found_count found.old ≡ 0 }
        ensures told { IfOk result (λ _. (b : AnyBoard) → Stands self.old.rows row.now b
            → AreTold (asked_of self.old) (map_in self.old.map) self.old.leaves (StandsAll self.old.leaves self.new.rows) found.new b 8) }
        ensures asks { IfOk result (λ seen. seen.asks ≡ false → (b : AnyBoard) → Stands self.old.rows row.now b → (h : ℕ) → h < 8
            → AsksNone (asked_of self.old) h b) }
        ensures moves { IfOk result (λ seen. seen.moves ≡ true → (b d : AnyBoard) → Stands self.old.rows row.now b → IsFor self.old.leaves b d
            → IsEnd d → ⊥) }
        ensures at { IfOk result (λ _. Stands self.new.rows self.new.row.items self.new.board.board) }
        ensures stay { RowsStay self.old self.new }
        ensures setting { setting_of self.new ≡ setting_of self.old }
        ensures width { found_width found.new ≡ found_width found.old }
    {
        let mut seen = Seen {
            asks: false,
            moves: false,
        };
        for number in 0..8u8 {
            seen = self.add_turn_of(row, number, seen, found)?;
        }
        Ok(seen)
    }

    /// Adds what a happening leads to from the board of a row, where it can happen.
    fn add(
        &mut self,
        row: &[u32],
        happening: &Happening,
        found: &mut Successors,
    ) -> Result<(), Refused>
        requires known { (b : AnyBoard) × Stands self.old.rows row.now b }
        requires one { IsOne (asked_of self.old) (event_of happening.now) }
        requires keeps { (b : AnyBoard) → Stands self.old.rows row.now b → (e : Event) → KeepsEach (asked_of self.old) (map_in self.old.map) e b }
        requires width { found_width found.old ≡ width_of self.old.rows.layout }
        ensures teller { IfOk result (λ _. (b : AnyBoard) → Stands self.old.rows row.now b
            → IsTeller (asked_of self.old) (map_in self.old.map) self.old.leaves (StandsAll self.old.leaves self.new.rows) found.old found.new b
            (event_of happening.now)) }
        ensures stay { RowsStay self.old self.new }
        ensures setting { setting_of self.new ≡ setting_of self.old }
        ensures width { found_width found.new ≡ found_width found.old }
    {
        model_board::event_determines_board();
        let number = happening.number();
        self.rows.put(row, &mut self.board);
        let _sized = self.board.machine();
        if !happening.happen(&mut self.board, self.payload.as_slice()) {
            return Ok(());
        }
        self.tell(row, number, ALL_HARTS, found)
    }

    /// Adds what the happenings of these numbers lead to from the board of a row.
    fn add_some(
        &mut self,
        row: &[u32],
        from: u8,
        to: u8,
        found: &mut Successors,
    ) -> Result<(), Refused>
        requires known { (b : AnyBoard) × Stands self.old.rows row.now b }
        requires keeps { (b : AnyBoard) → Stands self.old.rows row.now b → (e : Event) → KeepsEach (asked_of self.old) (map_in self.old.map) e b }
        requires width { found_width found.old ≡ width_of self.old.rows.layout }
        requires order { from ≤ to }
        requires told { (b : AnyBoard) → Stands self.old.rows row.now b
            → AreTold (asked_of self.old) (map_in self.old.map) self.old.leaves (StandsAll self.old.leaves self.old.rows) found.old b from }
        ensures told { IfOk result (λ _. (b : AnyBoard) → Stands self.old.rows row.now b
            → AreTold (asked_of self.old) (map_in self.old.map) self.old.leaves (StandsAll self.old.leaves self.new.rows) found.new b to) }
        ensures stay { RowsStay self.old self.new }
        ensures setting { setting_of self.new ≡ setting_of self.old }
        ensures width { found_width found.new ≡ found_width found.old }
    {
        for number in from..to {
            if let Some(happening) = self.happening(number) {
                self.add(row, &happening, found)?;
            }
        }
        Ok(())
    }

    /// Adds what refusals of the store lead to from the board of a row, where some may be asked for.
    fn add_refusals(
        &mut self,
        row: &[u32],
        asks: bool,
        found: &mut Successors,
    ) -> Result<(), Refused>
        requires known { (b : AnyBoard) × Stands self.old.rows row.now b }
        requires keeps { (b : AnyBoard) → Stands self.old.rows row.now b → (e : Event) → KeepsEach (asked_of self.old) (map_in self.old.map) e b }
        requires width { found_width found.old ≡ width_of self.old.rows.layout }
        requires told { (b : AnyBoard) → Stands self.old.rows row.now b
            → AreTold (asked_of self.old) (map_in self.old.map) self.old.leaves (StandsAll self.old.leaves self.old.rows) found.old b 8 }
        requires asks { asks ≡ false → (b : AnyBoard) → Stands self.old.rows row.now b → (h : ℕ) → h < 8 → AsksNone (asked_of self.old) h b }
        ensures told { IfOk result (λ _. (b : AnyBoard) → Stands self.old.rows row.now b
            → AreTold (asked_of self.old) (map_in self.old.map) self.old.leaves (StandsAll self.old.leaves self.new.rows) found.new b 24) }
        ensures stay { RowsStay self.old self.new }
        ensures setting { setting_of self.new ≡ setting_of self.old }
        ensures width { found_width found.new ≡ found_width found.old }
    {
        let _harts = self.shape.harts();
        if !asks {
            return Ok(());
        }
        self.add_some(row, 8, 24, found)
    }

    /// Adds what the operator's wake, a cut and a power-on lead to from the board of a row. One that is on and does not doze can only be cut.
    fn add_others(&mut self, row: &[u32], found: &mut Successors) -> Result<(), Refused>
        requires known { (b : AnyBoard) × Stands self.old.rows row.now b }
        requires keeps { (b : AnyBoard) → Stands self.old.rows row.now b → (e : Event) → KeepsEach (asked_of self.old) (map_in self.old.map) e b }
        requires width { found_width found.old ≡ width_of self.old.rows.layout }
        requires told { (b : AnyBoard) → Stands self.old.rows row.now b
            → AreTold (asked_of self.old) (map_in self.old.map) self.old.leaves (StandsAll self.old.leaves self.old.rows) found.old b 24 }
        ensures told { IfOk result (λ _. (b : AnyBoard) → Stands self.old.rows row.now b
            → AreTold (asked_of self.old) (map_in self.old.map) self.old.leaves (StandsAll self.old.leaves self.new.rows) found.new b 27) }
        ensures stay { RowsStay self.old self.new }
        ensures setting { setting_of self.new ≡ setting_of self.old }
        ensures width { found_width found.new ≡ found_width found.old }
    {
        let _harts = self.shape.harts();
        if !self.rows.is_awake(row) {
            return self.add_some(row, 24, 27, found);
        }
        self.add_some(row, 25, 26, found)
    }

    /// Adds what all happenings but turns lead to from the board of a row: refusals only where some may be asked for.
    fn add_happenings(
        &mut self,
        row: &[u32],
        asks: bool,
        found: &mut Successors,
    ) -> Result<(), Refused>
        requires known { (b : AnyBoard) × Stands self.old.rows row.now b }
        requires keeps { (b : AnyBoard) → Stands self.old.rows row.now b → (e : Event) → KeepsEach (asked_of self.old) (map_in self.old.map) e b }
        requires width { found_width found.old ≡ width_of self.old.rows.layout }
        requires told { (b : AnyBoard) → Stands self.old.rows row.now b
            → AreTold (asked_of self.old) (map_in self.old.map) self.old.leaves (StandsAll self.old.leaves self.old.rows) found.old b 8 }
        requires asks { asks ≡ false → (b : AnyBoard) → Stands self.old.rows row.now b → (h : ℕ) → h < 8 → AsksNone (asked_of self.old) h b }
        ensures told { IfOk result (λ _. (b : AnyBoard) → Stands self.old.rows row.now b
            → AreTold (asked_of self.old) (map_in self.old.map) self.old.leaves (StandsAll self.old.leaves self.new.rows) found.new b 27) }
        ensures stay { RowsStay self.old self.new }
        ensures setting { setting_of self.new ≡ setting_of self.old }
        ensures width { found_width found.new ≡ found_width found.old }
    {
        self.add_refusals(row, asks, found)?;
        self.add_others(row, found)?;
        Ok(())
    }

    /// Adds what the happenings lead to from the board of a row. Whether a turn of a hart was shown to change the board.
    pub(crate) fn add_all(&mut self, row: &[u32], found: &mut Successors) -> Result<bool, Refused>
        requires at { Stands self.old.rows self.old.row.items self.old.board.board }
        requires known { (b : AnyBoard) × Stands self.old.rows row.now b }
        requires keeps { (b : AnyBoard) → Stands self.old.rows row.now b → (h : ℕ) → h < self.old.shape.harts
            → KeepsSure (map_in self.old.map) self.old.leaves h b }
        requires width { found_width found.old ≡ width_of self.old.rows.layout }
        requires none { found_count found.old ≡ 0 }
        ensures told { IfOk result (λ _. (b : AnyBoard) → Stands self.old.rows row.now b
            → AreTold (asked_of self.old) (map_in self.old.map) self.old.leaves (StandsAll self.old.leaves self.new.rows) found.new b 27) }
        ensures moves { IfOk result (λ moves. moves ≡ true → (b d : AnyBoard) → Stands self.old.rows row.now b → IsFor self.old.leaves b d
            → IsEnd d → ⊥) }
        ensures stay { RowsStay self.old self.new }
        ensures setting { setting_of self.new ≡ setting_of self.old }
        ensures width { found_width found.new ≡ found_width found.old }
    {
        let seen = self.add_turns(row, found)?;
        self.add_happenings(row, seen.asks, found)?;
        Ok(seen.moves)
    }
}
