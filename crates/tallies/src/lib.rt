//! What tables of harts have in common: words that change in single steps, and seats that know what their harts
//! did (docs/TABLES.md). What a seat knows (specs/Notes.antt), how it is parted and joined, the log of all
//! steps, what a rule says of it, and the laws that hold of each such table (specs/Rules.antt). And, for any
//! ledger over the views of a table, sums: `total` of specs/Sums.antt, and lemmas on what a change of one view,
//! a parted seat and a joined seat leave of a sum.
//!
//! Receipts of a journal that threads share (docs/THREADS.md, "Receipts"). A book has a keeper, which stands
//! under the journal's lock, and parts, one for each holder that may add to the journal. A part knows what its
//! holder was told: receipts, each the place of an entry of the journal, from 1, and the entry. The keeper knows
//! the whole journal, and by which part each entry was added. So once all parts are back with the keeper, what
//! they were told is the journal.
//!
//! A word that is set once, and the looks of threads at it (docs/THREADS.md, "The end of a loop"). A look that finds it unset is counted
//! by the one who looked, and nothing else is counted.
#![tactic(auto)]

mod book;
mod book_views;
mod halt;
mod halt_views;
mod journal;
mod seats;
mod view;

pub use book::{Adding, Book, BookPart, Journaled, Keeper, NewBook};
pub use book_views::{BookView, PartView};
pub use halt::{Halt, Watch};
pub use halt_views::HaltView;
pub use journal::Journal;
pub use seats::{ByHart, NotedSeat, NotedSeats, SeatTable, join, split};
pub use view::{HartNotes, SeatNotes};
