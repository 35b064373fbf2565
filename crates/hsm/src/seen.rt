//! A law of the definitions, the contract of a function that does nothing: a view of all harts shows one
//! table.

ghost use Rattle.std.specs.Prelude.{◌≡◌, ◌<◌, ℕ, List, length, slice_set};
ghost use Rattle.hsm.specs.Words.{HartSeatView};
ghost use Rattle.hsm.specs.States.{HartState, Shows, change_at};
ghost use Rattle.hsm.specs.Views.{state_in, states_in, listed, AreStates};

/// The states of all harts that the view of a seat of all harts shows are those that `state_in` computes of
/// it.
pub fn seat_determines_states()
    ensures one { (harts : ℕ) (c : HartSeatView) (states : ℕ → HartState) → Shows harts c states → (h : ℕ) → h < harts
        → state_in c h ≡ states h }
    ensures list { (harts : ℕ) (c : HartSeatView) (states : List HartState) → AreStates harts c states
        → states_in harts c ≡ states }
    ensures changed { (harts h : ℕ) (f : HartState → HartState) (c : HartSeatView) (states : List HartState)
        → length states ≡ harts → h < harts → Shows harts c (change_at h f (listed states))
        → AreStates harts c (slice_set states h (f (listed states h))) }
    ensures seen { (harts : ℕ) (c : HartSeatView) (states : ℕ → HartState) → Shows harts c states
        → Shows harts c (state_in c) }
{}
