//! Boards to rows of numbers and back.

ghost use Rattle.std.specs.Prelude.{◌≡◌, ◌<◌, ◌≤◌, ◌+◌, ◌*◌, ◌/◌, ℕ, List, length, slice_index, get_or, true, false, None, IfNone, IfOk, IfSome};
ghost use Rattle.hart.specs.State.{ArchState, never_started};
ghost use Rattle.model_board.specs.Boards.{Board as AnyBoard};
ghost use Rattle.model_board.specs.Plain.{with_machine};
ghost use Rattle.ram.specs.Memory.{value};
ghost use Rattle.state_space.specs.Numbered.{word_count, words_of};
ghost use Rattle.board_space.specs.Few.{IsAway};
ghost use Rattle.board_space.specs.Layouts.{IsBased, size_of, tracked_of, base_of};
ghost use Rattle.board_space.specs.Tracked.{IsTracked, AreWithin, segment_count};
ghost use Rattle.board_space.specs.Records.{IsAt, Stays};
ghost use Rattle.board_space.specs.Rows.{IsAwake, IsShownByParts, Hold, AreSegments, AreHarts, Stands, Extends, Grows, no_tables, seen_rest, seen_harts, seen_memory};

use crate::records::Records;
use crate::row_layout::Layout;
use board_model::HartId;
use hart::Hart;
use hsm::Standing;
use model_board::{Board, Power, Rest, TableCopy};
use state_space::{Interner, Refused};
use std::alloc::Global;

/// Boards of one size to rows of numbers and back. A row has the number of what the board is beside its harts and its
/// memory, then a number for each hart, then one for each segment of the words that some hart may write. Every other word
/// is as a boot left it.
#[derive(Drop)]
pub struct BoardRows {
    pub(crate) layout: Layout,
    pub(crate) rests: Records<Rest>,
    pub(crate) harts: Records<Hart>,
    /// The values of segments.
    pub(crate) words: Interner,
    /// The values of the segment that was told last.
    values: Vec<u64>,
}

/// What is seen of a board beside its harts and its memory: one that is not on has neither tables nor a doze.
fn seen_rest(rest: Rest) -> Rest
    ensures { result ≡ seen_rest rest }
{
    match rest.power {
        Power::On => rest,
        Power::Off(_) => unseen(rest),
        Power::Ended => unseen(rest),
    }
}

fn unseen(rest: Rest) -> Rest
    ensures { result ≡ record rest { down = false; doze = None; tables = no_tables } }
{
    Rest {
        down: false,
        doze: None,
        tables: TableCopy {
            states: [Standing::Stopped; 8],
            pending: [0; 8],
        },
        ..rest
    }
}

/// The memory that is seen of a board: that of a boot where it is off with no image.
fn seen_memory<'a>(board: &'a Board, layout: &'a Layout, power: Power) -> &'a [u8]
    ensures { result.now ≡ seen_memory (base_of layout.now) power board.now.machine }
{
    match power {
        Power::On => board.machine().ram().bytes(),
        Power::Off(None) => layout.base(),
        Power::Off(Some(_)) => board.machine().ram().bytes(),
        Power::Ended => layout.base(),
    }
}

/// The number in a word of 8 bytes.
fn word_at(bytes: &[u8], word: usize) -> u64
    requires { 8 * word + 8 ≤ length bytes.now }
    ensures { result ≡ value bytes.now (8 * word) 8 }
{
    match bytes[8 * word..8 * word + 8].as_array::<8>() {
        Some(part) => u64::from_le_bytes(*part),
        None => 0,
    }
}

/// The numbers in those words.
fn gather(bytes: &[u8], words: &[u64], values: &mut Vec<u64>) -> Result<(), Refused>
    requires { (j : ℕ) → j < length words.now → 8 * slice_index words.now j + 8 ≤ length bytes.now }
    ensures { IfOk result (λ _. Hold bytes.now words.now values.new.items) }
{
    values.clear();
    for word in words {
        values.push(word_at(bytes, *word as usize))?;
    }
    Ok(())
}

/// Whether those words hold these values.
fn are_held(bytes: &[u8], words: &[u64], values: &[u64]) -> bool
    requires { (j : ℕ) → j < length words.now → 8 * slice_index words.now j + 8 ≤ length bytes.now }
    ensures { result ≡ true → Hold bytes.now words.now values.now }
{
    if values.len() != words.len() {
        return false;
    }
    for place in 0..words.len() {
        if word_at(bytes, words[place] as usize) != values[place] {
            return false;
        }
    }
    true
}

/// A number of a row.
pub(crate) fn told(number: usize) -> Result<u32, Refused>
    ensures { IfOk result (λ n. n ≡ number) }
{
    match u32::try_from(number) {
        Ok(told) => Ok(told),
        Err(_) => Err(Refused::Numbers),
    }
}

/// The number of a hart of a board, of which none is seen where it is not on. It is likely to be `near`.
fn tell_hart(
    harts: &mut Records<Hart>,
    board: &Board,
    power: Power,
    hart: HartId,
    near: u32,
) -> Result<u32, Refused>
    requires { hart < board.now.machine.size.harts }
    ensures put { IfOk result (λ n. IsAt harts.new.records.items n
        (get_or (seen_harts power board.now.machine) hart (never_started hart))) }
    ensures stay { Stays harts.old.records.items harts.new.records.items }
{
    match power {
        Power::On => harts.put_near(board.machine().hart(hart), near),
        Power::Off(_) => harts.put_near(&Hart::stopped(hart), near),
        Power::Ended => harts.put_near(&Hart::stopped(hart), near),
    }
}

/// The number in a place of a row, where the row has it.
#[inline]
fn near_at(near: &[u32], place: usize) -> u32 {
    match near.get(place) {
        Some(number) => *number,
        None => 0,
    }
}

/// The numbers of the harts of a board, after what is in the row. They are likely to be those of the row `near`.
fn tell_harts(
    harts: &mut Records<Hart>,
    board: &Board,
    power: Power,
    count: usize,
    near: &[u32],
    row: &mut Vec<u32>,
) -> Result<(), Refused>
    requires count { count ≡ board.now.machine.size.harts }
    requires few { count ≤ 8 }
    ensures row { IfOk result (λ _. Extends row.old.items row.new.items count) }
    ensures harts { IfOk result (λ _. AreHarts harts.new.records.items row.new.items (length row.old.items) count
        (seen_harts power board.now.machine)) }
    ensures stay { Stays harts.old.records.items harts.new.records.items }
{
    for number in 0..count {
        let hart = HartId::new(number as u64).unwrap();
        let likely = near_at(near, 1 + number);
        row.push(tell_hart(harts, board, power, hart, likely)?)?;
    }
    Ok(())
}

/// The number of the values of a segment in a memory. It is likely to be `near`.
fn tell_segment(
    words: &mut Interner,
    values: &mut Vec<u64>,
    bytes: &[u8],
    segment: &[u64],
    near: u32,
) -> Result<u32, Refused>
    requires { (j : ℕ) → j < length segment.now → 8 * slice_index segment.now j + 8 ≤ length bytes.now }
    ensures within { IfOk result (λ n. n < word_count words.new) }
    ensures hold { IfOk result (λ n. Hold bytes.now segment.now (words_of words.new n)) }
    ensures grows { Grows words.old words.new }
{
    if (near as usize) < words.count() && are_held(bytes, segment, words.get(near as usize)) {
        return Ok(near);
    }
    gather(bytes, segment, values)?;
    told(words.put(values)?)
}

/// The numbers of the segments of a memory, after what is in the row. They are likely to be those of the row `near`.
fn tell_segments(
    words: &mut Interner,
    values: &mut Vec<u64>,
    bytes: &[u8],
    layout: &Layout,
    near: &[u32],
    row: &mut Vec<u32>,
) -> Result<(), Refused>
    requires { AreWithin (tracked_of layout.now) (length bytes.now) }
    ensures row { IfOk result (λ _. Extends row.old.items row.new.items (segment_count (tracked_of layout.now))) }
    ensures segments { IfOk result (λ _. AreSegments layout.now words.new row.new.items (length row.old.items) bytes.now) }
    ensures grows { Grows words.old words.new }
{
    for segment in 0..layout.segments() {
        let likely = near_at(near, (1 + layout.harts()).saturating_add(segment));
        let number = tell_segment(words, values, bytes, layout.segment(segment), likely)?;
        row.push(number)?;
    }
    Ok(())
}

/// Puts the harts of a row into a board of `count`.
fn put_harts(harts: &Records<Hart>, count: usize, row: &[u32], board: &mut Board)
    requires shown { IsShownByParts board.old }
    requires count { count ≡ board.old.machine.size.harts }
    requires long { 1 + count ≤ length row.now }
    requires many { length board.old.machine.harts ≡ count }
    requires known { (h : ℕ) → h < count → slice_index row.now (1 + h) < length harts.now.records.items }
    requires numbered { (h : ℕ) (x : ArchState) → h < count
        → IsAt harts.now.records.items (slice_index row.now (1 + h)) x → x.id ≡ h }
    ensures harts { AreHarts harts.now.records.items row.now 1 count board.new.machine.harts }
    ensures many { length board.new.machine.harts ≡ count }
    ensures others { board.new
        ≡ with_machine (record board.old.machine { harts = board.new.machine.harts }) board.old }
{
    for place in 0..count {
        board.put_hart(harts.get(row[1 + place]).copy());
    }
}

/// Puts values into words of a board's memory.
pub(crate) fn put_values(words: &[u64], values: &[u64], board: &mut Board)
    requires shown { IsShownByParts board.old }
    requires long { length values.now ≡ length words.now }
    requires within { (j : ℕ) → j < length words.now → 8 * slice_index words.now j + 8 ≤ length board.old.machine.memory }
    ensures hold { (m : List ℕ) → Hold m words.now values.now → Hold board.new.machine.memory words.now values.now }
    ensures keeps { (m : List ℕ) (u : ℕ) → Hold m words.now values.now
        → value board.old.machine.memory (8 * u) 8 ≡ value m (8 * u) 8
        → value board.new.machine.memory (8 * u) 8 ≡ value m (8 * u) 8 }
    ensures outside { (i : ℕ) → ((j : ℕ) → j < length words.now → slice_index words.now j ≡ i / 8 → ⊥)
        → slice_index board.new.machine.memory i ≡ slice_index board.old.machine.memory i }
    ensures room { length board.new.machine.memory ≡ length board.old.machine.memory }
    ensures others { board.new
        ≡ with_machine (record board.old.machine { memory = board.new.machine.memory }) board.old }
{
    for place in 0..words.len() {
        board.put_word(words[place] as usize, values[place]);
    }
}

/// Puts the values of a row into a board's memory, segment by segment: their numbers stand from that place on.
fn put_segments(layout: &Layout, words: &Interner, from: usize, row: &[u32], board: &mut Board)
    requires shown { IsShownByParts board.old }
    requires count { from + segment_count (tracked_of layout.now) ≤ length row.now }
    requires known { (m : List ℕ) × AreSegments layout.now words.now row.now from m }
    requires within { AreWithin (tracked_of layout.now) (length board.old.machine.memory) }
    ensures segments { AreSegments layout.now words.now row.now from board.new.machine.memory }
    ensures outside { (i : ℕ) → (IsTracked (tracked_of layout.now) (i / 8) → ⊥)
        → slice_index board.new.machine.memory i ≡ slice_index board.old.machine.memory i }
    ensures room { length board.new.machine.memory ≡ length board.old.machine.memory }
    ensures others { board.new
        ≡ with_machine (record board.old.machine { memory = board.new.machine.memory }) board.old }
{
    for segment in 0..layout.segments() {
        let values = words.get(row[from + segment] as usize);
        put_values(layout.segment(segment), values, board);
    }
}

/// Each number in a slice of bytes is a byte.
pub(crate) fn bytes_in(bytes: &[u8])
    ensures { (i : ℕ) → i < length bytes.now → slice_index bytes.now i < 256 }
{
    let _ = bytes;
}

impl BoardRows {
    /// No row yet.
    pub fn new(alloc: Global, layout: Layout) -> Result<BoardRows, Refused>
        ensures { IfOk result (λ rows. rows.layout ≡ layout) }
    {
        Ok(BoardRows {
            layout,
            rests: Records::new(alloc)?,
            harts: Records::new(alloc)?,
            words: Interner::new(alloc)?,
            values: Vec::new(alloc),
        })
    }

    /// What all rows have in common.
    pub fn layout(&self) -> &Layout
        ensures { result.now ≡ self.now.layout }
    {
        &self.layout
    }

    /// How much memory all of it takes, in bytes.
    pub fn bytes(&self) -> u64 {
        let records = self.rests.bytes().saturating_add(self.harts.bytes());
        records
            .saturating_add(self.words.bytes())
            .saturating_add(self.layout.bytes())
    }

    /// Whether the board of a row is on and does not doze. That it is not is not said.
    #[inline]
    pub fn is_awake(&self, row: &[u32]) -> bool
        requires known { (b : AnyBoard) × Stands self.now row.now b }
        ensures { result ≡ true → (b : AnyBoard) → Stands self.now row.now b → IsAwake b }
    {
        let rest = self.rests.get(row[0]);
        if rest.power != Power::On {
            return false;
        }
        match rest.doze {
            Some(_) => false,
            None => true,
        }
    }

    /// What the board of a row is beside its harts and its memory.
    #[inline]
    pub fn rest_of(&self, row: &[u32]) -> &Rest
        requires { (b : AnyBoard) × Stands self.now row.now b }
        ensures { IsAt self.now.rests.records.items (slice_index row.now 0) result.now }
    {
        self.rests.get(row[0])
    }

    /// A hart of the board of a row, where the board has it.
    #[inline]
    pub fn hart_of(&self, row: &[u32], number: usize) -> Option<&Hart>
        requires { (b : AnyBoard) × Stands self.now row.now b }
        ensures some { IfSome result (λ hart. IsAt self.now.harts.records.items (slice_index row.now (1 + number)) hart.now) }
        ensures none { IfNone result ((size_of self.now.layout).harts ≤ number) }
    {
        if self.layout.harts() <= number {
            return None;
        }
        Some(self.harts.get(row[1 + number]))
    }

    /// Whether the board of a row is off.
    #[inline]
    pub fn is_off(&self, row: &[u32]) -> bool
        requires known { (b : AnyBoard) × Stands self.now row.now b }
        ensures off { result ≡ true → (b : AnyBoard) → Stands self.now row.now b → IsAway b }
        ensures other { result ≡ false → (b : AnyBoard) → Stands self.now row.now b → IsAway b → ⊥ }
    {
        let rest = self.rests.get(row[0]);
        match rest.power {
            Power::On => false,
            Power::Off(_) => true,
            Power::Ended => false,
        }
    }

    /// Whether a board is, beside its harts and its memory, as a row has it. That it is not is not said.
    #[inline]
    pub fn has_rest(&self, row: &[u32], board: &Board) -> bool {
        self.rests.is_at(near_at(row, 0), &seen_rest(board.rest()))
    }

    /// The row of a board, in place of what was in the row. Boards that differ have rows that differ. At `Err` each row stands
    /// for what it stood for. It is found sooner where it is much like the row `near`.
    pub fn row_of(&mut self, board: &Board, near: &[u32], row: &mut Vec<u32>) -> Result<(), Refused>
        requires { IsBased self.old.layout board.now }
        ensures stands { IfOk result (λ _. Stands self.new row.new.items board.now.board) }
        ensures stay { (r : List ℕ) (b : AnyBoard) → Stands self.old r b → Stands self.new r b }
        ensures layout { self.new.layout ≡ self.old.layout }
    {
        let rest = seen_rest(board.rest());
        bytes_in(board.machine().ram().bytes());
        bytes_in(self.layout.base());
        row.clear();
        row.push(self.rests.put_near(&rest, near_at(near, 0))?)?;
        tell_harts(
            &mut self.harts,
            board,
            rest.power,
            self.layout.harts(),
            near,
            row,
        )?;
        tell_segments(
            &mut self.words,
            &mut self.values,
            seen_memory(board, &self.layout, rest.power),
            &self.layout,
            near,
            row,
        )?;
        Ok(())
    }

    /// Puts the board of a row in the place of a board of that shape.
    pub fn put(&self, row: &[u32], board: &mut Board)
        requires known { (b : AnyBoard) × Stands self.now row.now b }
        requires based { IsBased self.now.layout board.old }
        ensures stands { (b : AnyBoard) → Stands self.now row.now b → board.new.board ≡ b }
        ensures based { IsBased self.now.layout board.new }
    {
        let harts = self.layout.harts();
        let _plain = board.rest();
        board.put_rest(self.rests.get(row[0]));
        put_harts(&self.harts, harts, row, board);
        put_segments(&self.layout, &self.words, 1 + harts, row, board);
        bytes_in(board.machine().ram().bytes());
    }
}
