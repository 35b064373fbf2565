//! Rows of one space of boards as rows of another, whose stores number the same records otherwise.

ghost use Rattle.std.specs.Prelude.{◌≡◌, ◌⊎◌, ◌<◌, ◌≤◌, ◌+◌, ℕ, List, length, slice_index, IfOk, IfSome, Ok, true};
ghost use Rattle.hart.specs.State.{ArchState};
ghost use Rattle.model_board.specs.Boards.{Board as AnyBoard};
ghost use Rattle.state_space.specs.Numbered.{word_count, words_of};
ghost use Rattle.board_space.specs.Carried.{AreFound, AreLearned, AreRightRecords, AreRightWords, AreSameRecords, AreSameWords, Has, IsLearned};
ghost use Rattle.board_space.specs.Layouts.{laid_by, size_of, tracked_of};
ghost use Rattle.board_space.specs.Records.{IsAt, Stays};
ghost use Rattle.board_space.specs.Rows.{Extends, Grows, Stands};
ghost use Rattle.board_space.specs.Tracked.{segment_count};

use crate::board_rows::{BoardRows, told};
use crate::records::Records;
use crate::space::BoardSpace;
use hart::Hart;
use model_board::Rest;
use state_space::{Carries, Interner, Refused};
use std::alloc::Global;

/// What is remembered of a number that was not met yet.
const NONE: u32 = u32::MAX;

/// Of numbers of one store those that another one has for the same.
#[derive(Drop)]
pub(crate) struct Numbers {
    others: Vec<u32>,
}

impl Numbers {
    /// What is remembered of a number.
    #[inline]
    fn get(&self, number: u32) -> Option<u32>
        ensures { IfSome result (λ other. Has self.now number other) }
    {
        let place = number as usize;
        if place < self.others.len() && self.others[place] != NONE {
            Some(self.others[place])
        } else {
            None
        }
    }

    /// Remembers one.
    fn set(&mut self, number: u32, other: u32) -> Result<(), Refused>
        ensures { IfOk result (λ _. (n m : ℕ) → Has self.new n m → (Has self.old n m) ⊎ ((n ≡ number) × (m ≡ other))) }
    {
        let place = number as usize;
        if self.others.len() <= place {
            self.others.resize(place + 1, NONE)?;
        }
        self.others[place] = other;
        Ok(())
    }
}

/// What a space of boards remembers of the numbers of another one. Of what a board is beside its harts and its memory it is no more than a
/// guess, which is compared. All else comes from rows of boards that are on.
#[derive(Drop)]
pub struct RowMemo {
    rests: Numbers,
    pub(crate) harts: Numbers,
    pub(crate) words: Numbers,
}

impl RowMemo {
    /// Nothing.
    pub fn new(alloc: Global) -> RowMemo
        ensures harts { length result.harts.others.items ≡ 0 }
        ensures words { length result.words.others.items ≡ 0 }
    {
        RowMemo {
            rests: Numbers {
                others: Vec::new(alloc),
            },
            harts: Numbers {
                others: Vec::new(alloc),
            },
            words: Numbers {
                others: Vec::new(alloc),
            },
        }
    }
}

/// Puts the number of a record of another store after what is in the other row, where it is known: a guess, which is compared.
fn find_rest(
    to: &Records<Rest>,
    from: &Records<Rest>,
    memo: &Numbers,
    number: u32,
    out: &mut Vec<u32>,
) -> Result<bool, Refused>
    requires { number < length from.now.records.items }
    ensures row { IfOk result (λ found. found ≡ true → Extends out.old.items out.new.items 1) }
    ensures same { IfOk result (λ found. found ≡ true → (x : Rest) → IsAt from.now.records.items number x
        → IsAt to.now.records.items (slice_index out.new.items (length out.old.items)) x) }
{
    let Some(guess) = memo.get(number) else {
        return Ok(false);
    };
    if !to.is_at(guess, from.get(number)) {
        return Ok(false);
    }
    out.push(guess)?;
    Ok(true)
}

/// What is remembered of `count` numbers of a row, from a place on, after what is in the other row. It answers true where all are.
fn find_numbers(
    memo: &Numbers,
    first: usize,
    count: usize,
    row: &[u32],
    out: &mut Vec<u32>,
) -> Result<bool, Refused>
    requires long { first + count ≤ length row.now }
    ensures row { IfOk result (λ found. found ≡ true → Extends out.old.items out.new.items count) }
    ensures found { IfOk result (λ found. found ≡ true → AreFound memo.now row.now first out.new.items (length out.old.items) count) }
{
    for place in 0..count {
        let Some(number) = memo.get(row[first + place]) else {
            return Ok(false);
        };
        out.push(number)?;
    }
    Ok(true)
}

/// The number of what a board is beside its harts and its memory, in another store.
fn carry_rest(
    to: &mut Records<Rest>,
    from: &Records<Rest>,
    memo: &mut Numbers,
    number: u32,
) -> Result<u32, Refused>
    requires { number < length from.now.records.items }
    ensures same { IfOk result (λ n. (x : Rest) → IsAt from.now.records.items number x → IsAt to.new.records.items n x) }
    ensures stay { Stays to.old.records.items to.new.records.items }
{
    let rest = from.get(number);
    if let Some(guess) = memo.get(number) {
        if to.is_at(guess, rest) {
            return Ok(guess);
        }
    }
    let other = to.put(rest)?;
    memo.set(number, other)?;
    Ok(other)
}

/// The number of a hart of another store. It is remembered where `learns` says so.
fn carry_hart(
    to: &mut Records<Hart>,
    from: &Records<Hart>,
    memo: &mut Numbers,
    learns: bool,
    number: u32,
) -> Result<u32, Refused>
    requires within { number < length from.now.records.items }
    requires right { AreRightRecords from.now.records.items to.old.records.items memo.old }
    ensures same { IfOk result (λ n. (x : ArchState) → IsAt from.now.records.items number x → IsAt to.new.records.items n x) }
    ensures learned { IfOk result (IsLearned learns memo.old memo.new number) }
    ensures stay { Stays to.old.records.items to.new.records.items }
{
    if let Some(known) = memo.get(number) {
        return Ok(known);
    }
    let other = to.put(from.get(number))?;
    if learns {
        memo.set(number, other)?;
    }
    Ok(other)
}

/// The numbers of `count` harts of another store, from a place of a row on, after what is in the other row.
fn carry_harts(
    to: &mut Records<Hart>,
    from: &Records<Hart>,
    memo: &mut Numbers,
    learns: bool,
    count: usize,
    row: &[u32],
    out: &mut Vec<u32>,
) -> Result<(), Refused>
    requires long { 1 + count ≤ length row.now }
    requires known { (h : ℕ) → h < count → slice_index row.now (1 + h) < length from.now.records.items }
    requires right { AreRightRecords from.now.records.items to.old.records.items memo.old }
    ensures row { IfOk result (λ _. Extends out.old.items out.new.items count) }
    ensures same { IfOk result (λ _. AreSameRecords from.now.records.items row.now 1 to.new.records.items out.new.items
        (length out.old.items) count) }
    ensures learned { IfOk result (λ _. AreLearned learns memo.old memo.new row.now 1 out.new.items (length out.old.items) count) }
    ensures stay { Stays to.old.records.items to.new.records.items }
{
    for place in 0..count {
        let number = carry_hart(to, from, memo, learns, row[1 + place])?;
        out.push(number)?;
    }
    Ok(())
}

/// The number of a slice of words of another store. It is remembered where `learns` says so.
fn carry_words(
    to: &mut Interner,
    from: &Interner,
    memo: &mut Numbers,
    learns: bool,
    number: u32,
) -> Result<u32, Refused>
    requires known { number < word_count from.now }
    requires right { AreRightWords from.now to.old memo.old }
    ensures within { IfOk result (λ n. n < word_count to.new) }
    ensures same { IfOk result (λ n. words_of to.new n ≡ words_of from.now number) }
    ensures learned { IfOk result (IsLearned learns memo.old memo.new number) }
    ensures grows { Grows to.old to.new }
{
    if let Some(known) = memo.get(number) {
        return Ok(known);
    }
    let other = told(to.put(from.get(number as usize))?)?;
    if learns {
        memo.set(number, other)?;
    }
    Ok(other)
}

/// The numbers of `count` slices of words of another store, from a place of a row on, after what is in the other row.
fn carry_segments(
    to: &mut Interner,
    from: &Interner,
    memo: &mut Numbers,
    learns: bool,
    first: usize,
    count: usize,
    row: &[u32],
    out: &mut Vec<u32>,
) -> Result<(), Refused>
    requires long { first + count ≤ length row.now }
    requires known { (s : ℕ) → s < count → slice_index row.now (first + s) < word_count from.now }
    requires right { AreRightWords from.now to.old memo.old }
    ensures row { IfOk result (λ _. Extends out.old.items out.new.items count) }
    ensures same { IfOk result (λ _. AreSameWords from.now row.now first to.new out.new.items (length out.old.items) count) }
    ensures learned { IfOk result (λ _. AreLearned learns memo.old memo.new row.now first out.new.items (length out.old.items) count) }
    ensures grows { Grows to.old to.new }
{
    for place in 0..count {
        let number = carry_words(to, from, memo, learns, row[first + place])?;
        out.push(number)?;
    }
    Ok(())
}

impl BoardRows {
    /// Whether the row is known that stands for the same board as a row of another space of the same layout. It is put in place of what was
    /// in `out`.
    pub fn find(
        &self,
        from: &BoardRows,
        memo: &RowMemo,
        row: &[u32],
        out: &mut Vec<u32>,
    ) -> Result<bool, Refused>
        requires size { size_of self.now.layout ≡ size_of from.now.layout }
        requires laid { laid_by self.now.layout ≡ laid_by from.now.layout }
        requires known { (b : AnyBoard) × Stands from.now row.now b }
        requires harts { AreRightRecords from.now.harts.records.items self.now.harts.records.items memo.now.harts }
        requires words { AreRightWords from.now.words self.now.words memo.now.words }
        ensures stands { result ≡ Ok true → (b : AnyBoard) → Stands from.now row.now b → Stands self.now out.new.items b }
    {
        let harts = from.layout.harts();
        let segments = from.layout.segments();
        out.clear();
        if !find_rest(&self.rests, &from.rests, &memo.rests, row[0], out)? {
            return Ok(false);
        }
        if !find_numbers(&memo.harts, 1, harts, row, out)? {
            return Ok(false);
        }
        let found = find_numbers(&memo.words, 1 + harts, segments, row, out)?;
        Ok(found)
    }

    /// Makes of a row of another space the row of this one that stands for the same board, in place of what was in `out`. The two have
    /// one layout. The numbers of its harts and segments are remembered where `learns` says so. At `Err` each row stands for what it
    /// stood for.
    pub fn carry(
        &mut self,
        from: &BoardRows,
        memo: &mut RowMemo,
        learns: bool,
        row: &[u32],
        out: &mut Vec<u32>,
    ) -> Result<(), Refused>
        requires size { size_of self.old.layout ≡ size_of from.now.layout }
        requires laid { laid_by self.old.layout ≡ laid_by from.now.layout }
        requires known { (b : AnyBoard) × Stands from.now row.now b }
        requires harts { AreRightRecords from.now.harts.records.items self.old.harts.records.items memo.old.harts }
        requires words { AreRightWords from.now.words self.old.words memo.old.words }
        ensures stands { IfOk result (λ _. (b : AnyBoard) → Stands from.now row.now b → Stands self.new out.new.items b) }
        ensures stay { (r : List ℕ) (b : AnyBoard) → Stands self.old r b → Stands self.new r b }
        ensures layout { self.new.layout ≡ self.old.layout }
        ensures harts { IfOk result (λ _. AreLearned learns memo.old.harts memo.new.harts row.now 1 out.new.items 1
            (size_of from.now.layout).harts) }
        ensures words { IfOk result (λ _. AreLearned learns memo.old.words memo.new.words row.now (1 + (size_of from.now.layout).harts)
            out.new.items (1 + (size_of from.now.layout).harts) (segment_count (tracked_of from.now.layout))) }
    {
        let harts = from.layout.harts();
        let segments = from.layout.segments();
        out.clear();
        out.push(carry_rest(&mut self.rests, &from.rests, &mut memo.rests, row[0])?)?;
        carry_harts(
            &mut self.harts,
            &from.harts,
            &mut memo.harts,
            learns,
            harts,
            row,
            out,
        )?;
        carry_segments(
            &mut self.words,
            &from.words,
            &mut memo.words,
            learns,
            1 + harts,
            segments,
            row,
            out,
        )?;
        Ok(())
    }
}

impl Carries for BoardSpace {
    ghost use Rattle.board_space.specs.Covering.{StandsAll};
    ghost use Rattle.board_space.specs.Knowing.{Knows, knows_later};
    ghost use Rattle.board_space.specs.Settings.{setting_of};

    type Memo = RowMemo;

    ghost knows = { λ from to memo. Knows (setting_of from) (StandsAll from.leaves from.rows) (StandsAll to.leaves to.rows) memo };

    ghost knows_on = { λ from to later after memo first other stays grows knows. knows_later (setting_of from) (setting_of later)
        (StandsAll from.leaves from.rows) (StandsAll later.leaves later.rows) (StandsAll to.leaves to.rows)
        (StandsAll after.leaves after.rows) memo first stays grows knows };

    fn another(&self) -> Result<Self, Refused> {
        let Ok(map) = self.map.copy(self.alloc) else {
            return Err(Refused::Memory);
        };
        let layout = self.rows.layout().copy(self.alloc)?;
        Ok(BoardSpace {
            alloc: self.alloc,
            shape: self.shape,
            payload: self.payload.as_slice().to_vec(self.alloc)?,
            reason: self.reason,
            failures: self.failures,
            map,
            lives: self.lives.copy(self.alloc)?,
            leaves: self.leaves,
            rows: BoardRows::new(self.alloc, layout)?,
            board: self.first_board()?,
            row: Vec::new(self.alloc),
            stood: [0; 8],
            broke: None,
        })
    }

    fn memo(&self) -> RowMemo {
        RowMemo::new(self.alloc)
    }

    fn find(
        &self,
        from: &Self,
        memo: &RowMemo,
        row: &[u32],
        out: &mut Vec<u32>,
    ) -> Result<bool, Refused> {
        self.rows.find(&from.rows, memo, row, out)
    }

    fn carry(
        &mut self,
        from: &Self,
        memo: &mut RowMemo,
        row: &[u32],
        out: &mut Vec<u32>,
    ) -> Result<(), Refused> {
        let learns = from.rows.is_awake(row);
        match self.rows.carry(&from.rows, memo, learns, row, out) {
            Ok(()) => Ok(()),
            Err(refused) => {
                *memo = RowMemo::new(self.alloc);
                Err(refused)
            }
        }
    }
}
