//! What a `vCont` asks of each thread ("Packets", `vCont`).

ghost use Rattle.std.specs.Prelude.{◌≡◌, ◌==◌, map, IfOk};
ghost use Rattle.std.specs.List.{slice_split};
ghost use Rattle.debug_session.specs.Actions.{action_of, are_known, asked_by, first_asked, is_known, is_thread, lettered, names, within};
ghost use Rattle.debug_session.specs.Fields.{two_numbers};

use crate::fields::{is_text, number, parted, two_numbers};
use std::alloc::{AllocError, Global};

/// What is asked of a thread; of one that is asked nothing, that it stays as it is.
#[derive(Clone, Copy, Drop)]
pub enum ResumeAction {
    /// It makes one turn.
    Step,
    /// It makes turns while its pc lies from the first address on and before the second.
    StepWithin(u64, u64),
    /// It goes on.
    Go,
}

/// The parts of a word between semicolons.
pub fn parts(alloc: Global, word: &[u8]) -> Result<Vec<&[u8]>, AllocError>
    ensures { IfOk result (λ v. map (λ w. w.now) v.items ≡ slice_split (λ b. b == 59) word.now) }
{
    word.split(|b| *b == b';').collect(alloc)
}

/// A step within the addresses that stand after `r`.
fn within(range: &[u8]) -> Option<ResumeAction>
    ensures { result ≡ within (two_numbers range.now) }
{
    match two_numbers(range) {
        None => None,
        Some((first, end)) => Some(ResumeAction::StepWithin(first, end)),
    }
}

/// The action of a letter and what stands after it.
fn lettered(letter: u8, rest: &[u8]) -> Option<ResumeAction>
    ensures { result ≡ lettered letter rest.now }
{
    match letter {
        b's' | b'S' => Some(ResumeAction::Step),
        b'c' | b'C' => Some(ResumeAction::Go),
        b'r' => within(rest),
        _ => None,
    }
}

/// The action of a word.
fn action_of(word: &[u8]) -> Option<ResumeAction>
    ensures { result ≡ action_of word.now }
{
    match word.split_first() {
        None => None,
        Some((letter, rest)) => lettered(*letter, rest),
    }
}

/// Whether a text names that thread, or all of them.
fn names(thread: u64, text: &[u8]) -> bool
    ensures { result ≡ names thread text.now }
{
    if is_text(text, b"-1") {
        return true;
    }
    match number(text) {
        None => false,
        Some(number) => number == thread,
    }
}

/// What a word asks of a thread.
fn asked_by(thread: u64, word: &[u8]) -> Option<ResumeAction>
    ensures { result ≡ asked_by thread word.now }
{
    match parted(word, b':') {
        None => action_of(word),
        Some((action, text)) => {
            if names(thread, text) {
                action_of(action)
            } else {
                None
            }
        }
    }
}

/// What the words of a `vCont` ask of a thread: the first that names it, or all.
pub fn action_for(words: &[&[u8]], thread: u64) -> Option<ResumeAction>
    ensures { result ≡ first_asked thread (map (λ w. w.now) words.now) }
{
    for word in words {
        if let Some(action) = asked_by(thread, word) {
            return Some(action);
        }
    }
    None
}

/// Whether a text can name a thread, or all of them.
fn is_thread(text: &[u8]) -> bool
    ensures { result ≡ is_thread text.now }
{
    if is_text(text, b"-1") {
        return true;
    }
    match number(text) {
        None => false,
        Some(number) => 0 < number,
    }
}

/// Whether the action of a word is known, and its thread, where it has one, can be one.
fn is_known(word: &[u8]) -> bool
    ensures { result ≡ is_known word.now }
{
    match parted(word, b':') {
        None => action_of(word).is_some(),
        Some((action, text)) => action_of(action).is_some() && is_thread(text),
    }
}

/// Whether the actions of all words are known.
pub fn are_known(words: &[&[u8]]) -> bool
    ensures { result ≡ are_known (map (λ w. w.now) words.now) }
{
    for word in words {
        if !is_known(word) {
            return false;
        }
    }
    true
}
