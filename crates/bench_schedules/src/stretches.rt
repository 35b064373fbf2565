//! The stretches of a script, and in which of their turns its own run did something. A stretch is a row of `turn` lines
//! with no other line between them.

use crate::quotas::{Front, harts, total};
use machine::{Did, MachineLine, Word};
use report_lines::{Answer, Printed};
use script_lang::Line;
use std::alloc::{AllocError, Global};

/// The turns that the lines of a stretch name, as far as it was read.
#[derive(Clone, Copy, Drop)]
struct Stretch {
    /// The place of its first line among the script's lines.
    first: usize,
    /// How many turns of each hart it names.
    named: [u64; 8],
    /// How many of them stand up to the last line that did something.
    front: [u64; 8],
}

/// What the script's own run found of its stretches.
#[derive(Drop)]
pub struct Stretches {
    /// The stretch whose lines are being read, where there is one.
    open: Option<Stretch>,
    /// The front of each: its turns up to the last line that did something. Of a stretch of one hart it is empty, since such
    /// a stretch has one order alone.
    pub fronts: Vec<Front>,
    /// Of each stretch that names fewer than three times the turns of its front: the place of its first line.
    pub tight: Vec<usize>,
}

/// Whether a `turn` line did something: its last turn was not idle.
fn is_busy(answer: &Answer) -> bool {
    match answer.line {
        Printed::Shown(MachineLine::Turn(_, _, Word::Goes(Did::Idle))) => false,
        Printed::Shown(MachineLine::Off) => false,
        _ => true,
    }
}

impl Stretches {
    /// No stretch yet.
    pub fn new(alloc: Global) -> Stretches {
        Stretches {
            open: None,
            fronts: Vec::new(alloc),
            tight: Vec::new(alloc),
        }
    }

    /// Notes the line at that place, and what it answered.
    pub fn note(&mut self, place: usize, line: &Line, answer: &Answer) -> Result<(), AllocError> {
        let Line::Turn(hart, count) = line else {
            return self.close();
        };
        let mut stretch = match self.open {
            Some(stretch) => stretch,
            None => Stretch {
                first: place,
                named: [0; 8],
                front: [0; 8],
            },
        };
        let by = hart.index();
        stretch.named[by] = stretch.named[by].saturating_add(u64::from(*count));
        if is_busy(answer) {
            let named = stretch.named;
            stretch.front = named;
        }
        self.open = Some(stretch);
        Ok(())
    }

    /// Ends the stretch whose lines were being read.
    pub fn close(&mut self) -> Result<(), AllocError> {
        let Some(stretch) = self.open else {
            return Ok(());
        };
        let named = stretch.named;
        let front = stretch.front;
        self.open = None;
        if harts(&named) < 2 {
            self.fronts.push(Front { turns: [0; 8] })?;
            return Ok(());
        }
        self.fronts.push(Front { turns: front })?;
        if total(&named) < total(&front).saturating_mul(3) {
            self.tight.push(stretch.first)?;
        }
        Ok(())
    }
}
