//! What the threads of a board need beside it.

ghost use Rattle.std.specs.Prelude.{◌≡◌, ◌≤◌, ◌+◌, None, true, IfOk, vec_len, vec_capacity};
ghost use Rattle.tallies.specs.BookViews.{parts_of};
ghost use Rattle.tallies.specs.Halts.{watched};

use board_model::{Entry, Shape};
use hart_threads::{AfterConsole, BusTurn, HartEnd, NewBook};
use std::alloc::{AllocError, Global};
use std::sync::OnceLock;
use tallies::{Halt, Watch};

/// What the threads of a board need beside it: the book of its receipts, that of what is in doubt, that of the history of its bus, the
/// word that halts its harts with the watch that may set it, the word that says that its life is over with the same, the lock in which the
/// console says what they do once it has left, and room for how they end.
#[derive(Drop)]
pub(crate) struct Provisions {
    pub(crate) book: NewBook<Entry>,
    pub(crate) doubts: NewBook<Entry>,
    pub(crate) runs: NewBook<BusTurn>,
    pub(crate) halt: Halt,
    pub(crate) first: Watch,
    pub(crate) over: Halt,
    pub(crate) ender: Watch,
    pub(crate) lock: OnceLock<AfterConsole>,
    pub(crate) room: Vec<HartEnd>,
}

/// What the threads of a board of that shape need: the book of its receipts with a part for each hart, one for the console and
/// one for the boot; the book of what is in doubt with one for the console and one for the harts; that of the history of the bus with one
/// for each hart, one for the console and one for the store; and room for each hart's end.
pub(crate) fn provide(alloc: Global, shape: &Shape) -> Result<Provisions, AllocError>
    ensures { IfOk result (λ p. (parts_of p.book ≡ shape.now.harts + 2) × (parts_of p.doubts ≡ 2)
        × (parts_of p.runs ≡ shape.now.harts + 2) × (vec_len p.room ≡ 0) × (shape.now.harts ≤ vec_capacity p.room)
        × (p.first ≡ watched p.halt true 0 None) × (p.ender ≡ watched p.over true 0 None)) }
{
    let book = NewBook::new(alloc, shape.harts() + 2)?;
    let doubts = NewBook::new(alloc, 2)?;
    let runs = NewBook::new(alloc, shape.harts() + 2)?;
    let (halt, first) = Halt::new(alloc)?;
    let (over, ender) = Halt::new(alloc)?;
    let room = Vec::with_capacity(alloc, shape.harts() as usize)?;
    Ok(Provisions {
        book,
        doubts,
        runs,
        halt,
        first,
        over,
        ender,
        lock: OnceLock::new(),
        room,
    })
}
