//! Lines that no script may have (docs/SCRIPT.md), each after the line of a board.

use board_model::Refusal;
use script_lang::parse_script;
use std::alloc::{AllocError, Global};

/// The board of their scripts.
const BOARD: &[u8] = b"board 2 4 3\n";

/// The first of these lines, from 1, with which a script is not refused for line 2.
pub fn first_taken(alloc: Global, lines: &[u8]) -> Result<Option<usize>, AllocError> {
    let mut number = 0usize;
    for line in lines
        .strip_suffix(b"\n")
        .unwrap_or(lines)
        .split(|byte| *byte == b'\n')
    {
        number = number.saturating_add(1);
        let mut script = BOARD.to_vec(alloc)?;
        script.extend_from_slice(line)?;
        match parse_script(alloc, &script) {
            Err(Refusal::BadScript(2)) => {}
            _ => return Ok(Some(number)),
        }
    }
    Ok(None)
}
