//! What counts on and on in a kernel that is not followed to its end: a guess, by the boards on the way to the last one that was found.

ghost use Rattle.std.specs.Prelude.{◌≡◌};

use crate::places::data_text;
use crate::walks::{Setting, way_to};
use board_model::{RAM_BASE, Refusal};
use board_space::Explored;
use hart::Hart;
use model_board::{Board, Status, TouchMap};
use rv_decode::Reg;
use std::alloc::{AllocError, Global};

/// How often the way is looked at: what is greater each time counts on.
const LOOKS: usize = 6;

/// The most that are named.
const MOST_NAMES: usize = 8;

/// The names of the registers from x1 on (the RISC-V calling convention).
const REGISTERS: [&str; 31] = [
    "ra", "sp", "gp", "tp", "t0", "t1", "t2", "s0", "s1", "a0", "a1", "a2", "a3", "a4", "a5", "a6",
    "a7", "s2", "s3", "s4", "s5", "s6", "s7", "s8", "s9", "s10", "s11", "t3", "t4", "t5", "t6",
];

/// What was read of a board last, and what was greater each time.
#[derive(Drop)]
struct Readings {
    /// The words that some hart writes, by their numbers.
    words: Vec<u64>,
    /// The values of these words, and of the registers of each hart.
    values: Vec<u64>,
    greater: Vec<bool>,
    looks: usize,
}

impl Readings {
    /// Nothing was read yet.
    fn none(alloc: Global, words: Vec<u64>) -> Readings {
        Readings {
            words,
            values: Vec::new(alloc),
            greater: Vec::new(alloc),
            looks: 0,
        }
    }
}

/// The word of 8 bytes of that number; 0 where there is none.
fn word_at(ram: &[u8], number: u64) -> u64 {
    let mut value = 0u64;
    for place in 0..8u64 {
        let place = number.saturating_mul(8).saturating_add(7 - place);
        value = value << 8 | u64::from(ram.get(place as usize).copied().unwrap_or(0));
    }
    value
}

/// The words that some hart writes, by their numbers.
fn written_words(alloc: Global, map: &TouchMap) -> Result<Vec<u64>, AllocError> {
    let mut words = Vec::new(alloc);
    for word in 0..map.words() {
        if map.writers(word) != 0 {
            words.push(word)?;
        }
    }
    Ok(words)
}

/// Adds the values of those words.
fn add_words(values: &mut Vec<u64>, words: &[u64], board: &Board) -> Result<(), AllocError> {
    for word in words {
        values.push(word_at(board.machine().ram().bytes(), *word))?;
    }
    Ok(())
}

/// Adds the values of the registers of a hart.
fn add_registers(values: &mut Vec<u64>, hart: &Hart) -> Result<(), AllocError> {
    for register in 1..32u8 {
        values.push(hart.reg(Reg::new(register)))?;
    }
    Ok(())
}

/// Adds those of each hart.
fn add_harts(values: &mut Vec<u64>, board: &Board) -> Result<(), AllocError> {
    for number in 0..8u64 {
        if let Some(hart) = board.machine().shape().hart(number) {
            add_registers(values, board.machine().hart(hart))?;
        }
    }
    Ok(())
}

/// The values of those words, and those of the registers of each hart.
fn values_of(alloc: Global, words: &[u64], board: &Board) -> Result<Vec<u64>, AllocError> {
    let mut values = Vec::new(alloc);
    add_words(&mut values, words, board)?;
    add_harts(&mut values, board)?;
    Ok(values)
}

/// Looks at a board once more.
fn look(alloc: Global, board: &Board, readings: &mut Readings) -> Result<(), AllocError> {
    let values = values_of(alloc, readings.words.as_slice(), board)?;
    let mut greater = Vec::new(alloc);
    for (place, value) in values.iter().enumerate() {
        let before = readings.values.get(place).copied();
        let was = readings.greater.get(place).copied().unwrap_or(true);
        greater.push(was && before.is_none_or(|before| before < *value))?;
    }
    readings.values = values;
    readings.greater = greater;
    readings.looks = readings.looks.saturating_add(1);
    Ok(())
}

/// Lets an event come to the board, and the turns by which it settles.
fn step(explored: &Explored, board: &mut Board, event: u8)
    requires { board.old.size ≡ explored.now.asked.size }
    ensures { board.new.size ≡ board.old.size }
{
    explored.replay(board, event);
    for number in 0..8u64 {
        let _turns = explored.settle(board, number);
    }
}

/// The name of a word, or its address where it has none.
fn word_name(setting: Setting<'_>, word: u64) -> Result<String, AllocError> {
    let address = RAM_BASE.saturating_add(word.saturating_mul(8));
    match data_text(setting.alloc, setting.elf, address)? {
        Some(name) => Ok(name),
        None => format!(in setting.alloc; "{address:#x}"),
    }
}

/// The name of a register of which that number are before it, 31 of each hart.
fn register_name(alloc: Global, number: usize) -> Result<String, AllocError> {
    let hart = number / 31;
    let register = REGISTERS[number % 31];
    format!(in alloc; "{register} of hart {hart}")
}

/// The name of what has that place among the values.
fn name_of(setting: Setting<'_>, words: &[u64], place: usize) -> Result<String, AllocError> {
    match words.get(place) {
        Some(word) => word_name(setting, *word),
        None => register_name(setting.alloc, place.saturating_sub(words.len())),
    }
}

/// The names of what was greater each time, the first few.
fn names_of(setting: Setting<'_>, readings: &Readings) -> Result<Vec<String>, AllocError> {
    let mut names = Vec::new(setting.alloc);
    for (place, is_greater) in readings.greater.iter().enumerate() {
        if *is_greater && names.len() < MOST_NAMES {
            names.push(name_of(setting, readings.words.as_slice(), place)?)?;
        }
    }
    Ok(names)
}

/// Looks at the boards on a way, from time to time.
fn look_along(
    alloc: Global,
    explored: &Explored,
    board: &mut Board,
    way: &[u8],
    readings: &mut Readings,
) -> Result<(), AllocError>
    requires { board.old.size ≡ explored.now.asked.size }
{
    let apart = way.len() / LOOKS;
    let mut next = apart;
    for (made, event) in way.iter().enumerate() {
        step(explored, board, *event);
        if next <= made && board.status() == Status::On {
            look(alloc, board, readings)?;
            next = made.saturating_add(apart);
        }
    }
    Ok(())
}

/// What is read of the boards on a way.
fn readings_along(
    alloc: Global,
    explored: &Explored,
    board: &mut Board,
    way: &[u8],
) -> Result<Readings, AllocError>
    requires { board.old.size ≡ explored.now.asked.size }
{
    let words = written_words(alloc, explored.map())?;
    let mut readings = Readings::none(alloc, words);
    look_along(alloc, explored, board, way, &mut readings)?;
    Ok(readings)
}

/// What is read of the boards on the way to the last one that was found.
fn readings_of(setting: Setting<'_>, explored: &Explored) -> Result<Readings, Refusal> {
    let last = explored.count().saturating_sub(1);
    let way = way_to(setting.alloc, explored, last)?;
    let Ok(mut board) = explored.first_board() else {
        return Err(Refusal::Memory);
    };
    match readings_along(setting.alloc, explored, &mut board, way.as_slice()) {
        Ok(readings) => Ok(readings),
        Err(_) => Err(Refusal::Memory),
    }
}

/// What counts on: words of memory and registers that are greater each time that the way to the last board is looked at.
pub fn counting(setting: Setting<'_>, explored: &Explored) -> Result<Vec<String>, Refusal> {
    let readings = readings_of(setting, explored)?;
    if readings.looks < LOOKS - 1 {
        return Ok(Vec::new(setting.alloc));
    }
    Ok(names_of(setting, &readings)?)
}
