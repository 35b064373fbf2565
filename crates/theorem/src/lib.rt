//! The theorem of this repository: what is promised where power fails, in the words of docs/PROOFS.md. `headline.rt` has it of a
//! disk and a board, `events.rt` over many lives, `scripts.rt` of scripts and their reports, `sessions.rt` of a board on threads,
//! and `files.rt` of a disk that is kept in a file. `board_events.rt` has a board with its store beside the model board over which
//! every order of a kernel is explored: each thing that happens to it is an event of that board.
//! Each promise is a public function. A promise of a call makes the call, and its clause says what comes of it; a promise over
//! all runs does nothing, or calls the law that carries it. So a body shows which contract below carries its promise. What a
//! clause of a lower call says by itself does not stand here. Nothing stands on these promises.
//!
//! `stories.rt` has the theorem of one disk as a function that can be run, and `laws.rt` a law of all such runs.
#![tactic(auto)]

mod asks;
mod board_events;
mod events;
mod files;
mod headline;
mod laws;
mod power;
mod scripts;
mod sessions;
mod stories;

pub use asks::{Asked, Seen};
pub use board_events::{a_power_on_is_an_event, a_turn_is_an_event, a_wake_is_an_event};
pub use events::{
    commands_are_such_events, events_in_order, lives, opens_are_such_events, wakes_are_such_events,
};
pub use files::commands_kept_in_a_file;
pub use headline::{
    a_board_is_resumed, a_cold_boot_finds_what_stands, commands_in_a_row, never_resumed_again,
};
pub use laws::images_go_on_once;
pub use scripts::a_script;
pub use sessions::{
    SessionSaid, a_session_answers, a_session_cut_anywhere, a_session_in_a_file_cut_anywhere,
    a_session_keeps, an_open_finds_some_first, power_lost_between_sessions,
};
pub use stories::{story, story_on};
