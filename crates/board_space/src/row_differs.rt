//! Whether a board is shown to differ from that of a row.

ghost use Rattle.std.specs.Prelude.{◌≡◌, ◌<◌, slice_index, true};
ghost use Rattle.model_board.specs.Boards.{Board as AnyBoard};
ghost use Rattle.model_board.specs.LeftOut.{StandsFor};
ghost use Rattle.model_board.specs.Rests.{Fits, IsRest};
ghost use Rattle.board_space.specs.Layouts.{IsBased, size_of, tracked_of};
ghost use Rattle.board_space.specs.Records.{IsAt};
ghost use Rattle.board_space.specs.Rows.{Stands};
ghost use Rattle.board_space.specs.Tracked.{segment_count};

use crate::board_rows::BoardRows;
use crate::differs::{doze_differs, hart_differs, pending_differs, power_differs, state_differs};
use board_model::HartId;
use model_board::{Board, Power, Rest};

impl BoardRows {
    /// Whether a hart of a board that is on differs from that of the row, or its state does.
    fn hart_differs(
        &self,
        rest: &Rest,
        own: &Rest,
        row: &[u32],
        board: &Board,
        hart: HartId,
    ) -> bool
        requires known { (b : AnyBoard) × Stands self.now row.now b }
        requires rested { IsAt self.now.rests.records.items (slice_index row.now 0) rest.now }
        requires on { rest.now.power ≡ Power.On }
        requires own { IsRest own.now board.now }
        requires fits { Fits board.now.machine.size.harts own.now }
        requires size { board.now.machine.size ≡ size_of self.now.layout }
        requires within { hart < (size_of self.now.layout).harts }
        ensures { result ≡ true → (n d : AnyBoard) → Stands self.now row.now n → StandsFor n d → StandsFor board.now.board d → ⊥ }
    {
        let place = hart.index();
        if state_differs(rest.tables.states[place], own.tables.states[place]) {
            return true;
        }
        if pending_differs(rest.tables.pending[place], own.tables.pending[place]) {
            return true;
        }
        hart_differs(self.harts.get(row[1 + place]), board.machine().hart(hart))
    }

    /// Whether a word of a segment of a board that is on differs.
    fn segment_differs(
        &self,
        rest: &Rest,
        own: &Rest,
        row: &[u32],
        board: &Board,
        segment: usize,
    ) -> bool
        requires known { (b : AnyBoard) × Stands self.now row.now b }
        requires rested { IsAt self.now.rests.records.items (slice_index row.now 0) rest.now }
        requires on { rest.now.power ≡ Power.On }
        requires own { IsRest own.now board.now }
        requires based { IsBased self.now.layout board.now }
        requires within { segment < segment_count (tracked_of self.now.layout) }
        ensures { result ≡ true → (n d : AnyBoard) → Stands self.now row.now n → StandsFor n d → StandsFor board.now.board d → ⊥ }
    {
        let words = self.layout.segment(segment);
        let values = self
            .words
            .get(row[1 + self.layout.harts() + segment] as usize);
        for place in 0..words.len() {
            if board.word(words[place] as usize) != values[place] {
                return true;
            }
        }
        false
    }

    /// Whether a board is not on, other than that of the row, or dozes otherwise.
    fn rest_differs(&self, rest: &Rest, own: &Rest, row: &[u32], board: &Board) -> bool
        requires known { (b : AnyBoard) × Stands self.now row.now b }
        requires rested { IsAt self.now.rests.records.items (slice_index row.now 0) rest.now }
        requires on { rest.now.power ≡ Power.On }
        requires own { IsRest own.now board.now }
        ensures { result ≡ true → (n d : AnyBoard) → Stands self.now row.now n → StandsFor n d → StandsFor board.now.board d → ⊥ }
    {
        let _ = row;
        let _ = board;
        if power_differs(own.power, rest.power) {
            return true;
        }
        if doze_differs(own.doze, rest.doze) {
            return true;
        }
        false
    }

    /// Whether a board is shown to differ from that of a row, which is on: they stand for no board both. `likely` is looked at first.
    pub fn differs(&self, row: &[u32], board: &Board, likely: HartId) -> bool
        requires known { (b : AnyBoard) × Stands self.now row.now b }
        requires based { IsBased self.now.layout board.now }
        requires within { likely < (size_of self.now.layout).harts }
        ensures { result ≡ true → (n d : AnyBoard) → Stands self.now row.now n → StandsFor n d → StandsFor board.now.board d → ⊥ }
    {
        let rest = self.rests.get(row[0]);
        let own = board.rest();
        if rest.power != Power::On {
            return false;
        }
        if self.rest_differs(rest, &own, row, board) {
            return true;
        }
        if self.hart_differs(rest, &own, row, board, likely) {
            return true;
        }
        for number in 0..self.layout.harts() {
            let hart = HartId::new(number as u64).unwrap();
            if self.hart_differs(rest, &own, row, board, hart) {
                return true;
            }
        }
        for segment in 0..self.layout.segments() {
            if self.segment_differs(rest, &own, row, board, segment) {
                return true;
            }
        }
        false
    }
}
