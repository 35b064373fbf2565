//! The name of a journal.

ghost use Rattle.std.specs.Prelude.{ℕ, List, []};
ghost use Rattle.atomic_table.specs.Seated.{TableId};
ghost use Rattle.board_model.specs.Durable.{Change, DurableState, formatted};
ghost use Rattle.board_model.specs.Shapes.{Size};
ghost use Rattle.tallies.specs.Books.{no_book, one_page};

use std::marker::Brand;

/// The name of the journal of one life: what the store's open found, how often its disk had failed by then, the board's
/// size, the commands that the boot issued, the memory that it left, the book of its receipts, how many parts that has, the
/// book of what is in doubt, the book of what is done with the bus, and the moment of the store's disk at which the boot was over, and what a
/// crash since an earlier one might have left by then. A type that has it stands for that life alone; the call that begins to share a
/// store picks it.
pub trait Journal {
    ghost found: { DurableState };

    ghost size: { Size };

    ghost issued: { List Change };

    ghost memory: { List ℕ };

    ghost book: { TableId };

    ghost parts: { ℕ };

    ghost failures: { ℕ };

    ghost doubts: { TableId };

    ghost runs: { TableId };

    ghost moment: { ℕ };

    ghost earlier: { ℕ → List (List ℕ) → Type 0 };
}

impl Journal for Brand {
    ghost found = { formatted };

    ghost size = { one_page };

    ghost issued = { [] };

    ghost memory = { [] };

    ghost book = { no_book };

    ghost parts = { 0 };

    ghost failures = { 0 };

    ghost doubts = { no_book };

    ghost runs = { no_book };

    ghost moment = { 0 };

    ghost earlier = { λ t c. ⊥ };
}
