//! A row is put where another one was: what they have in common stays.

ghost use Rattle.std.specs.Prelude.{◌≡◌, ◌<◌, ◌≤◌, ◌+◌, ◌/◌, ℕ, List, length, slice_index};
ghost use Rattle.hart.specs.State.{ArchState};
ghost use Rattle.model_board.specs.Boards.{Board as AnyBoard};
ghost use Rattle.model_board.specs.Plain.{with_machine};
ghost use Rattle.board_space.specs.Layouts.{IsBased, tracked_of};
ghost use Rattle.board_space.specs.Records.{IsAt};
ghost use Rattle.board_space.specs.Rows.{AreHarts, AreSegments, IsShownByParts, Stands};
ghost use Rattle.board_space.specs.Tracked.{AreWithin, IsTracked, segment_count};

use crate::board_rows::{BoardRows, bytes_in, put_values};
use crate::records::Records;
use crate::row_layout::Layout;
use hart::Hart;
use model_board::{Board, Power};
use state_space::Interner;

/// Puts those harts of a row into a board of `count` that differ from those of the row that was put there.
fn put_other_harts(
    harts: &Records<Hart>,
    count: usize,
    from: &[u32],
    row: &[u32],
    board: &mut Board,
)
    requires shown { IsShownByParts board.old }
    requires count { count ≡ board.old.machine.size.harts }
    requires long { 1 + count ≤ length row.now }
    requires many { length board.old.machine.harts ≡ count }
    requires known { (h : ℕ) → h < count → slice_index row.now (1 + h) < length harts.now.records.items }
    requires numbered { (h : ℕ) (x : ArchState) → h < count
        → IsAt harts.now.records.items (slice_index row.now (1 + h)) x → x.id ≡ h }
    requires long_from { 1 + count ≤ length from.now }
    requires there { AreHarts harts.now.records.items from.now 1 count board.old.machine.harts }
    ensures harts { AreHarts harts.now.records.items row.now 1 count board.new.machine.harts }
    ensures many { length board.new.machine.harts ≡ count }
    ensures others { board.new
        ≡ with_machine (record board.old.machine { harts = board.new.machine.harts }) board.old }
{
    for place in 0..count {
        if from[1 + place] != row[1 + place] {
            board.put_hart(harts.get(row[1 + place]).copy());
        }
    }
}

/// Puts the values of those segments of a row into a board's memory that differ from those of the row that was put there: their numbers
/// stand from that place on.
fn put_other_segments(
    layout: &Layout,
    words: &Interner,
    at: usize,
    from: &[u32],
    row: &[u32],
    board: &mut Board,
)
    requires shown { IsShownByParts board.old }
    requires count { at + segment_count (tracked_of layout.now) ≤ length row.now }
    requires known { (m : List ℕ) × AreSegments layout.now words.now row.now at m }
    requires within { AreWithin (tracked_of layout.now) (length board.old.machine.memory) }
    requires count_from { at + segment_count (tracked_of layout.now) ≤ length from.now }
    requires there { AreSegments layout.now words.now from.now at board.old.machine.memory }
    ensures segments { AreSegments layout.now words.now row.now at board.new.machine.memory }
    ensures outside { (i : ℕ) → (IsTracked (tracked_of layout.now) (i / 8) → ⊥)
        → slice_index board.new.machine.memory i ≡ slice_index board.old.machine.memory i }
    ensures room { length board.new.machine.memory ≡ length board.old.machine.memory }
    ensures others { board.new
        ≡ with_machine (record board.old.machine { memory = board.new.machine.memory }) board.old }
{
    for segment in 0..layout.segments() {
        if from[at + segment] != row[at + segment] {
            let values = words.get(row[at + segment] as usize);
            put_values(layout.segment(segment), values, board);
        }
    }
}

impl BoardRows {
    /// Puts the board of a row in the place of that of another row.
    pub fn put_after(&self, from: &[u32], row: &[u32], board: &mut Board)
        requires from { Stands self.now from.now board.old.board }
        requires known { (b : AnyBoard) × Stands self.now row.now b }
        requires based { IsBased self.now.layout board.old }
        ensures stands { (b : AnyBoard) → Stands self.now row.now b → board.new.board ≡ b }
        ensures based { IsBased self.now.layout board.new }
    {
        if self.rests.get(from[0]).power != Power::On {
            self.put(row, board);
            return;
        }
        let harts = self.layout.harts();
        let _plain = board.rest();
        board.put_rest(self.rests.get(row[0]));
        put_other_harts(&self.harts, harts, from, row, board);
        put_other_segments(&self.layout, &self.words, 1 + harts, from, row, board);
        bytes_in(board.machine().ram().bytes());
    }
}
