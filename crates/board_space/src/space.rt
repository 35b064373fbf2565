//! A model board as a system that `state_space` searches.
//! A law runs nothing, and tells the prover a fact: `boards_stand`.

ghost use Rattle.std.specs.Prelude.{◌≡◌, ◌<◌, ◌≤◌, ◌*◌, ℕ, List, IfOk, IfSome, IfNone, Some, None, Ok, true, false, length};
ghost use Rattle.board_model.specs.Shapes.{Size, ram_bytes_of};
ghost use Rattle.model_board.specs.Boards.{Board as AnyBoard, Off};
ghost use Rattle.model_board.specs.Events.{Event};
ghost use Rattle.model_board.specs.Maps.{Map};
ghost use Rattle.model_board.specs.Plain.{standing};
ghost use Rattle.state_space.specs.Successors.{found_count, found_width};
ghost use Rattle.board_space.specs.Layouts.{size_of, base_of, width_of, IsBased};
ghost use Rattle.board_space.specs.Ready.{Tracks, boot_memory, MasksOf};
ghost use Rattle.board_space.specs.Covering.{StandsAll};
ghost use Rattle.board_space.specs.Space.{Happens, IsOne, KeepsEach, KeepsSure, number_of};
ghost use Rattle.board_space.specs.Happenings.{event_of};
ghost use Rattle.board_space.specs.Mapped.{map_in};

use crate::board_rows::BoardRows;
use crate::guesses::{Broke, Guess};
use crate::happenings::Happening;
use crate::leaving::{boards_stand, reads_kept};
use crate::lives::Lives;
use crate::outcomes::Outcome;
use crate::row_layout::Layout;
use board_model::{HartId, Reason, Shape};
use model_board::{Board, Status, TouchMap};
use state_space::{Expansion, Refused, Successors, System};
use std::alloc::Global;

/// Which failures may come, beside the turns of the harts and what the operator does.
#[derive(Clone, Copy, Drop)]
pub struct Failures {
    /// Whether power may fail, at any moment.
    pub cuts: bool,
    /// Whether the store may refuse a sleep or a reset.
    pub refusals: bool,
}

/// The boards that some events lead to from one that was never on, as rows.
#[derive(Drop)]
pub struct BoardSpace {
    pub(crate) alloc: Global,
    pub(crate) shape: Shape,
    pub(crate) payload: Vec<u8>,
    pub(crate) reason: Reason,
    pub(crate) failures: Failures,
    pub(crate) map: TouchMap,
    /// Which registers are read again: the others are left out of rows, if any are.
    pub(crate) lives: Lives,
    pub(crate) leaves: bool,
    pub(crate) rows: BoardRows,
    /// The board on which rows are put.
    pub(crate) board: Board,
    /// The row that was told last.
    pub(crate) row: Vec<u32>,
    /// Where the harts of the row stood that is being expanded.
    pub(crate) stood: [u64; 8],
    /// What was guessed wrong.
    pub(crate) broke: Option<Broke>,
    ghost fits: { length payload.items ≤ ram_bytes_of shape },
    ghost size: { size_of rows.layout ≡ shape },
    ghost base: { base_of rows.layout ≡ boot_memory shape payload.items },
    ghost tracks: { Tracks rows.layout (map_in map) },
    ghost based: { IsBased rows.layout board },
}

/// A board of that shape that is off, whose RAM holds the payload and zeros after it.
fn fresh_board(
    alloc: Global,
    shape: &Shape,
    payload: &[u8],
    reason: Reason,
) -> Result<Board, Refused>
    requires { length payload.now ≤ ram_bytes_of shape.now }
    ensures board { IfOk result (λ b. b.board ≡ Off (standing reason None)) }
    ensures size { IfOk result (λ b. b.size ≡ shape.now) }
    ensures raw { IfOk result (λ b. b.machine.size ≡ shape.now) }
    ensures memory { IfOk result (λ b. b.machine.memory ≡ boot_memory shape.now payload.now) }
{
    let Ok(mut board) = Board::new(alloc, shape, reason) else {
        return Err(Refused::Memory);
    };
    let _sized = board.machine();
    board.load(payload);
    Ok(board)
}

/// Of each word of a map the harts that may write it, as the bits of a number.
fn writers(alloc: Global, shape: &Shape, map: &TouchMap) -> Result<Vec<u8>, Refused>
    ensures masks { IfOk result (λ masks. MasksOf (map_in map.now) masks.items) }
    ensures long { IfOk result (λ masks. 8 * length masks.items ≡ ram_bytes_of shape.now) }
{
    let mut masks = Vec::new(alloc);
    for word in 0..shape.ram_bytes() / 8 {
        masks.push(map.writers(word as u64))?;
    }
    Ok(masks)
}

/// No row yet of the boards of that shape whose boot slot holds the payload: rows tell each word that some hart may write by the map.
fn rows_of(
    alloc: Global,
    shape: &Shape,
    payload: &[u8],
    map: &TouchMap,
) -> Result<BoardRows, Refused>
    requires { length payload.now ≤ ram_bytes_of shape.now }
    ensures size { IfOk result (λ rows. size_of rows.layout ≡ shape.now) }
    ensures base { IfOk result (λ rows. base_of rows.layout ≡ boot_memory shape.now payload.now) }
    ensures tracks { IfOk result (λ rows. Tracks rows.layout (map_in map.now)) }
{
    let masks = writers(alloc, shape, map)?;
    let layout = Layout::new(alloc, shape, payload, &masks)?;
    BoardRows::new(alloc, layout)
}

impl BoardSpace {
    ghost use Rattle.state_space.specs.declared.found.Successors.{Successors as Found};
    ghost use Rattle.board_space.specs.Rows.{Stands};
    ghost use Rattle.board_space.specs.Expanding.{IsTeller, AreTold};
    ghost use Rattle.board_space.specs.Shown.{Shows};
    ghost use Rattle.board_space.specs.Settings.{Setting, setting_of, asked_of, RowsStay};
    ghost use Rattle.board_space.specs.Few.{IsAway};

    /// Of a board of that shape whose boot slot holds the payload, whose first boot finds that reason, with those failures, by a guess. Whether
    /// registers are left out that are not read again: a row then stands for each board that holds something else in them.
    pub fn new(
        alloc: Global,
        shape: &Shape,
        payload: &[u8],
        reason: Reason,
        failures: Failures,
        guess: Guess,
        leaves: bool,
    ) -> Result<BoardSpace, Refused>
        requires { length payload.now ≤ ram_bytes_of shape.now }
        ensures { IfOk result (λ space. asked_of space ≡ record {
          size = shape.now;
          payload = payload.now;
          reason = reason;
          cuts = failures.cuts;
          refusals = failures.refusals;
        }) }
    {
        let rows = rows_of(alloc, shape, payload, &guess.map)?;
        let board = fresh_board(alloc, shape, payload, reason)?;
        let payload = payload.to_vec(alloc)?;
        let Guess { map, lives } = guess;
        Ok(BoardSpace {
            alloc,
            shape: *shape,
            payload,
            reason,
            failures,
            map,
            lives,
            leaves,
            rows,
            board,
            row: Vec::new(alloc),
            stood: [0; 8],
            broke: None,
        })
    }

    /// What was guessed wrong, where something was.
    pub fn broke(&self) -> Option<Broke> {
        self.broke
    }

    /// How many harts the board has.
    pub fn harts(&self) -> u32
        ensures count { result ≡ self.now.shape.harts }
        ensures few { result ≤ 8 }
    {
        self.shape.harts()
    }

    /// The bytes of RAM of the board.
    pub(crate) fn ram_bytes(&self) -> usize
        ensures { result ≡ ram_bytes_of self.now.shape }
    {
        self.shape.ram_bytes()
    }

    /// Whether registers are left out of rows.
    pub fn leaves_out(&self) -> bool
        ensures { result ≡ self.now.leaves }
    {
        self.leaves
    }

    /// The map.
    pub fn map(&self) -> &TouchMap
        ensures { map_in result.now ≡ (setting_of self.now).map }
    {
        &self.map
    }

    /// The guess, to be mended, and the board on which a row was put last.
    pub fn into_guess(self) -> (Guess, Board)
        ensures { result.1.size ≡ self.shape }
    {
        let BoardSpace {
            map,
            lives,
            board,
            ..
        } = self;
        let _sized = board.machine();
        (Guess { map, lives }, board)
    }

    /// The board with which the search begins: it is off, and no image stands.
    pub fn first_board(&self) -> Result<Board, Refused>
        ensures board { IfOk result (λ b. b.board ≡ Off (standing self.now.reason None)) }
        ensures size { IfOk result (λ b. b.size ≡ self.now.shape) }
        ensures raw { IfOk result (λ b. b.machine.size ≡ self.now.shape) }
        ensures memory { IfOk result (λ b. b.machine.memory ≡ boot_memory self.now.shape self.now.payload.items) }
    {
        fresh_board(self.alloc, &self.shape, &self.payload, self.reason)
    }

    /// Makes the happening of that number happen to a board of this shape, and answers whether it could.
    pub fn replay(&self, board: &mut Board, number: u8) -> bool
        requires { board.old.size ≡ self.now.shape }
        ensures happens { result ≡ true → (e : Event) × (number_of e ≡ number)
            × Happens (asked_of self.now) e board.old.board board.new.board }
        ensures never { result ≡ false → (e : Event) (c : AnyBoard) → number_of e ≡ number
            → Happens (asked_of self.now) e board.old.board c → ⊥ }
        ensures size { board.new.size ≡ board.old.size }
    {
        match self.happening(number) {
            Some(happening) => happening.happen(board, &self.payload),
            None => false,
        }
    }

    /// Puts the board of a row, to be looked at.
    pub fn show(&mut self, row: &[u32])
        requires { (b : AnyBoard) × Stands self.old.rows row.now b }
        ensures board { (b : AnyBoard) → Stands self.old.rows row.now b → self.new.board.board ≡ b }
        ensures rows { self.new.rows ≡ self.old.rows }
        ensures setting { setting_of self.new ≡ setting_of self.old }
    {
        self.rows.put(row, &mut self.board);
    }

    /// The board that was put last.
    pub fn current(&self) -> &Board
        ensures { result.now ≡ self.now.board }
    {
        &self.board
    }

    /// What the board of a row that is at an end shows, in those bytes of its memory.
    pub fn shown(&mut self, row: &[u32], from: usize, to: usize) -> Result<Option<Outcome>, Refused>
        requires known { (b : AnyBoard) × Stands self.old.rows row.now b }
        requires order { from ≤ to }
        requires within { to ≤ ram_bytes_of self.old.shape }
        ensures shows { IfOk result (λ found. IfSome found (λ outcome. (b : AnyBoard) → StandsAll self.old.leaves self.old.rows row.now b
            → Shows from to outcome b)) }
        ensures rows { self.new.rows ≡ self.old.rows }
        ensures setting { setting_of self.new ≡ setting_of self.old }
    {
        self.rows.put(row, &mut self.board);
        let machine = self.board.machine();
        match self.board.status() {
            Status::On => {
                let ram = machine.ram().bytes();
                let bytes = ram[from..to].to_vec(self.alloc)?;
                Ok(Some(Outcome::Rests(bytes)))
            }
            Status::Off => Ok(None),
            Status::Ended => {
                let rest = self.board.rest();
                Ok(Some(Outcome::Ends(rest.reason)))
            }
        }
    }

    /// Whether the board of a row is off.
    pub(crate) fn is_off(&self, row: &[u32]) -> bool
        requires known { (b : AnyBoard) × Stands self.now.rows row.now b }
        ensures off { result ≡ true → (b : AnyBoard) → StandsAll self.now.leaves self.now.rows row.now b → IsAway b }
        ensures other { result ≡ false → (b : AnyBoard) → StandsAll self.now.leaves self.now.rows row.now b → IsAway b → ⊥ }
    {
        self.rows.is_off(row)
    }

    /// Whether a happening is asked for.
    fn wants(&self, happening: &Happening) -> bool
        ensures wants { result ≡ true → IsOne (asked_of self.now) (event_of happening.now) }
        ensures other { result ≡ false → IsOne (asked_of self.now) (event_of happening.now) → ⊥ }
    {
        match *happening {
            Happening::Turn(hart) => hart.number() < self.shape.harts(),
            Happening::Refused(hart, _) => {
                self.failures.refusals && hart.number() < self.shape.harts()
            }
            Happening::Wake => true,
            Happening::Cut => self.failures.cuts,
            Happening::PowerOn => true,
        }
    }

    /// The happening of that number, where it is one that is asked for.
    pub fn happening(&self, number: u8) -> Option<Happening>
        ensures one { IfSome result (λ h. IsOne (asked_of self.now) (event_of h)) }
        ensures number { IfSome result (λ h. number_of (event_of h) ≡ number) }
        ensures only { IfSome result (λ h. (e : Event) → IsOne (asked_of self.now) e → number_of e ≡ number → e ≡ event_of h) }
        ensures none { IfNone result ((e : Event) → IsOne (asked_of self.now) e → number_of e ≡ number → ⊥) }
    {
        let _harts = self.shape.harts();
        match Happening::of_number(number) {
            Some(happening) => {
                if self.wants(&happening) {
                    Some(happening)
                } else {
                    None
                }
            }
            None => None,
        }
    }

    /// What the next turn of a hart of that number touches first that the map does not let it, or which register that is left out it reads,
    /// where it does.
    pub(crate) fn break_of(&mut self, number: u64) -> Option<Broke>
        ensures board { self.new.board ≡ self.old.board }
        ensures rows { self.new.rows ≡ self.old.rows }
        ensures setting { setting_of self.new ≡ setting_of self.old }
        ensures keeps { IfNone result (number < self.old.shape.harts
            → KeepsSure (map_in self.old.map) self.old.leaves number self.old.board.board) }
    {
        let _sized = self.board.machine();
        let hart = self.shape.hart(number)?;
        if let Err(broke) = self.board.keeps(hart, &self.map) {
            return Some(Broke::Touches(hart, broke));
        }
        if reads_kept(&mut self.board, self.leaves, hart) {
            return None;
        }
        let pc = self.board.machine().hart(hart).pc();
        let registers = match self.board.source_left_out(hart) {
            Some(register) => 1 << register.number(),
            None => 0,
        };
        Some(Broke::Reads(pc, registers))
    }

    /// Makes the row of the board with which the search begins.
    fn tell_first(&mut self) -> Result<(), Refused>
        ensures first { IfOk result (λ _. Stands self.new.rows self.new.row.items (Off (standing self.new.reason None))) }
        ensures setting { setting_of self.new ≡ setting_of self.old }
    {
        let board = self.first_board()?;
        self.rows.row_of(&board, &[], &mut self.row)
    }

    /// What was guessed wrong of the next turn of some hart, where something was.
    fn first_break(&mut self) -> Option<Broke>
        ensures board { self.new.board ≡ self.old.board }
        ensures rows { self.new.rows ≡ self.old.rows }
        ensures setting { setting_of self.new ≡ setting_of self.old }
        ensures keeps { IfNone result ((h : ℕ) → h < self.old.shape.harts
            → KeepsSure (map_in self.old.map) self.old.leaves h self.old.board.board) }
    {
        let _harts = self.shape.harts();
        for number in 0..8u64 {
            if let Some(broke) = self.break_of(number) {
                return Some(broke);
            }
        }
        None
    }
}

impl System for BoardSpace {
    ghost use Rattle.std.specs.Prelude.{◌≡◌, ℕ, List};
    ghost use Rattle.model_board.specs.Boards.{Board};
    ghost use Rattle.board_space.specs.Covering.{StandsAll};
    ghost use Rattle.board_space.specs.Settings.{Setting, setting_of};
    ghost use Rattle.board_space.specs.Space.{board_rules};

    ghost State = { Board };

    ghost Setting = { Setting };

    ghost setting = { setting_of };

    ghost rules = { λ s. board_rules s.asked s.map };

    ghost width = { λ s. s.width };

    ghost stands = { λ s. StandsAll s.leaves s.rows };

    fn start(&mut self) -> Result<Vec<u32>, Refused> {
        self.tell_first()?;
        Ok(self.row.as_slice().to_vec(self.alloc)?)
    }

    fn expand(&mut self, row: &[u32], found: &mut Successors) -> Result<Expansion, Refused> {
        boards_stand();
        let _harts = self.shape.harts();
        self.rows.put(row, &mut self.board);
        if let Some(broke) = self.first_break() {
            self.broke = Some(broke);
            return Ok(Expansion::Halts);
        }
        self.stand();
        self.note(row)?;
        let moves = self.add_all(row, found)?;
        let is_end = self.is_end(row, moves)?;
        if self.broke.is_some() {
            return Ok(Expansion::Halts);
        }
        if is_end {
            return Ok(Expansion::Ends);
        }
        Ok(Expansion::Goes)
    }

    fn goes(&self, event: u8) -> bool {
        match self.happening(event) {
            Some(Happening::Refused(_, _)) => false,
            Some(Happening::Cut) => false,
            _ => true,
        }
    }

    fn bytes(&self) -> u64 {
        self.rows.bytes()
    }
}
