//! What a session begins with.

use board::Payloads;
use script_lang::Script;

/// The script whose end a session begins at, and what each boot slot boots before its first line.
#[derive(Drop)]
pub struct Start {
    /// The script.
    pub script: Script,
    /// What the four slots boot.
    pub payloads: Payloads,
}
