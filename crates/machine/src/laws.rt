//! Laws of the definitions, the contracts of functions that do nothing: turns and calls of a hart leave nothing
//! open, and a board that dozes stands still.

ghost use Rattle.board_model.specs.declared.call_words.CallWords.{CallWords};
ghost use Rattle.std.specs.Prelude.{◌≡◌, ℕ, Option, None};
ghost use Rattle.sbi_calls.specs.declared.words.Turned.{Turned};
ghost use Rattle.sbi_calls.specs.declared.words.Did.TheVariants.{Idle};
ghost use Rattle.sbi_calls.specs.declared.words.Turned.TheVariants.{Made};
ghost use Rattle.machine.specs.Machine.{Machine};
ghost use Rattle.machine.specs.Turns.{MakesTurn, MakesOneCall};
ghost use Rattle.machine.specs.Durables.{StandsAtCall};
ghost use Rattle.machine.specs.Dozes.{Dozes, MovesOften};

/// A board has one outcome of a turn of a hart, and one of a call that is made in a hart's place: the memory,
/// the harts and the tables, and what is said.
pub fn machine_determines_turn()
    ensures turn { (h : ℕ) (old new other : Machine) (word also : Turned) → MakesTurn h old new word
        → MakesTurn h old other also → (new ≡ other) × (word ≡ also) }
    ensures call { (h : ℕ) (asked : CallWords) (old new other : Machine) (called also : Option Turned)
        → MakesOneCall h asked old new called → MakesOneCall h asked old other also
        → (new ≡ other) × (called ≡ also) }
{
    hart::state_determines_step();
}

/// While a board dozes and was not woken, each turn of a hart is idle, no call is made in a hart's place, and
/// neither changes anything of it: its memory, its harts, its tables and its doze stay as they are, however many
/// are made and of whichever harts. No hart of it stands at a durable call.
pub fn a_doze_stands()
    ensures turn { (h : ℕ) (old new : Machine) (word : Turned) → Dozes old → MakesTurn h old new word
        → (new ≡ old) × (word ≡ Made Idle) }
    ensures call { (h : ℕ) (asked : CallWords) (old new : Machine) (called : Option Turned) → Dozes old
        → MakesOneCall h asked old new called → (new ≡ old) × (called ≡ None) }
    ensures moves { (n : ℕ) (old new : Machine) → Dozes old → MovesOften n old new → new ≡ old }
    ensures asks { (h : ℕ) (m : Machine) → Dozes m → StandsAtCall h m → ⊥ }
{}
