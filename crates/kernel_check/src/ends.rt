//! The ends of a search: what they show, how many there are of each kind, and which differ.

ghost use Rattle.std.specs.Prelude.{◌≡◌};

use crate::comes::shows_same;
use crate::expected::is_as_expected;
use crate::facts::{EndKind, EndShown, OwnEnd, OwnOrder};
use crate::looks::Look;
use crate::own::end_shown;
use crate::standing::{is_any_trapped, is_waited_for_ever};
use crate::walks::Setting;
use board_model::{Reason, Refusal};
use board_space::Explored;
use model_board::Board;
use std::alloc::AllocError;

/// The ends of a search: those that show something, by what they show, and those that are failures by themselves.
#[derive(Drop)]
pub struct Ends {
    /// Those that show something.
    pub kinds: Vec<EndKind>,
    /// How many have a hart that is trapped.
    pub traps: usize,
    /// Those at which the kernel shut down for a failure of the system.
    pub fails: Found,
    /// Those at which harts wait for ever.
    pub waits: Found,
    /// How many there are in all.
    pub count: usize,
}

/// How many there are of a kind, and the first one.
#[derive(Clone, Copy, Drop)]
pub struct Found {
    pub count: usize,
    pub first: Option<usize>,
}

impl Found {
    /// None.
    fn none() -> Found {
        Found {
            count: 0,
            first: None,
        }
    }

    /// Counts `count` more, of which that is the first row.
    fn add(&mut self, row: usize, count: usize) {
        self.count = self.count.saturating_add(count);
        if self.first.is_none() {
            self.first = Some(row);
        }
    }
}

/// Counts an end that shows this.
fn add_kind(
    kinds: &mut Vec<EndKind>,
    looks: &[Look],
    own: &OwnOrder,
    shown: EndShown,
    row: usize,
) -> Result<(), AllocError> {
    for kind in kinds.iter_mut() {
        if shows_same(&kind.shown, &shown) {
            kind.count = kind.count.saturating_add(1);
            return Ok(());
        }
    }
    let is_expected = is_as_expected(looks, &shown);
    let is_own = match &own.end {
        OwnEnd::Ends(other) => shows_same(&shown, other),
        OwnEnd::Runs(_) => false,
    };
    kinds.push(EndKind {
        shown,
        count: 1,
        row,
        is_expected,
        is_own,
    })?;
    Ok(())
}

/// Counts an end.
fn add_end(
    setting: Setting<'_>,
    ends: &mut Ends,
    looks: &[Look],
    own: &OwnOrder,
    board: &Board,
    row: usize,
) -> Result<(), AllocError> {
    if is_any_trapped(board) {
        ends.traps = ends.traps.saturating_add(1);
        return Ok(());
    }
    if is_waited_for_ever(board) {
        ends.waits.add(row, 1);
        return Ok(());
    }
    let shown = end_shown(setting.alloc, looks, board)?;
    if let EndShown::Shutdown(Reason::SystemFailure) = shown {
        ends.fails.add(row, 1);
        return Ok(());
    }
    add_kind(&mut ends.kinds, looks, own, shown, row)
}

/// The ends of a search.
pub fn ends_of(
    setting: Setting<'_>,
    explored: &mut Explored,
    own: &OwnOrder,
    looks: &[Look],
) -> Result<Ends, Refusal>
    ensures { explored.new ≡ explored.old }
{
    let Ok(rows) = explored.ends() else {
        return Err(Refusal::Memory);
    };
    let mut ends = Ends {
        kinds: Vec::new(setting.alloc),
        traps: 0,
        fails: Found::none(),
        waits: Found::none(),
        count: rows.len(),
    };
    for row in rows.iter() {
        if explored.show(*row) {
            add_end(setting, &mut ends, looks, own, explored.current(), *row)?;
        }
    }
    Ok(ends)
}

/// The ends that differ: those that show what is not expected, else those that show other things than the kernel's own order, where not
/// all show the same.
pub fn differing(kinds: &[EndKind]) -> Found {
    let any = kinds.iter().any(|kind| !kind.is_expected);
    let several = 1 < kinds.len();
    let mut found = Found::none();
    for kind in kinds {
        let differs = if any {
            !kind.is_expected
        } else {
            several && !kind.is_own
        };
        if differs {
            found.add(kind.row, kind.count);
        }
    }
    found
}
