//! The name of a life on threads.

ghost use Rattle.std.specs.Prelude.{ℕ, Bool, false};
ghost use Rattle.atomic_table.specs.Seated.{TableId};
ghost use Rattle.machine.specs.Machine.{Machine, resting};
ghost use Rattle.tallies.specs.Books.{no_book, one_page};

use std::marker::Brand;
use tallies::Journal;

/// The name of the life of a board on threads, beside that of its journal: how many turns each hart is given, the lock
/// in which the console says once what the harts do when it has left, the word that halts all loops, the word that says that the
/// life is over, whether the gate may end a loop, the board as the boot left it, with its memory, its harts and its tables, and which
/// hart table and which table of pending interrupts these are. A type that has it stands for that life alone.
pub trait Threaded: Journal {
    ghost turns: { ℕ };

    ghost parting: { ℕ };

    ghost halt: { TableId };

    ghost over: { TableId };

    ghost gated: { Bool };

    ghost machine: { Machine };

    ghost starts: { TableId };

    ghost raises: { TableId };
}

impl Threaded for Brand {
    ghost turns = { 0 };

    ghost parting = { 0 };

    ghost halt = { no_book };

    ghost over = { no_book };

    ghost gated = { false };

    ghost machine = { resting one_page 0 };

    ghost starts = { no_book };

    ghost raises = { no_book };
}
